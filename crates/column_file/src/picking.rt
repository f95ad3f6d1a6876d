// The values at which a mask is true, read back from bytes; those between them are passed over and not looked at.
ghost use Rattle.std.specs.Prelude.{◌≡◌, ◌≢◌, ◌/◌, ◌≤◌, List, IfErr, MatchResult, OnOk, length};
ghost use Rattle.mt_values.specs.Lists.{where_true};
ghost use Rattle.mt_values.specs.declared.value.ColType.TheVariants as type;
ghost use Rattle.mt_values.specs.declared.value.Value.{Value};
ghost use Rattle.column_file.specs.Faults.{Explains};
ghost use Rattle.column_file.specs.Picks.{AreBetween, ExplainsPass, GainsFrontWhere, GainsWhere};
ghost use Rattle.column_file.specs.Spellings.{IsSpelling, fewest_bytes, with_values};

use crate::cells::fewest_bytes;
use crate::decoding::{cell_at, end_at};
use byte_numbers::FormatFault;
use mt_values::{ColType, ColumnData};

/// Adds those of the values that the bytes spell, one for each place of the mask, at which the mask is true, at the column's end.
///
/// `Malformed` where they spell no such values, at their first fault; `NoMemory` where an allocation failed.
/// After an error some of the values may have been added.
pub fn decode_where(column: &mut ColumnData, bytes: &[u8], mask: &[bool]) -> Result<(), FormatFault>
    ensures read { OnOk result (GainsWhere mask.now bytes.now column.old column.new) }
    ensures spelled { (values : List Value)
        → IsSpelling column.old.col_type (length mask.now) bytes.now values
        → MatchResult result (λ _. column.new ≡ with_values column.old (where_true mask.now values))
        (λ e. e ≡ FormatFault.NoMemory) }
    ensures fault { IfErr result (Explains column.old.col_type (length mask.now) bytes.now) }
    ensures front { GainsFrontWhere mask.now bytes.now column.old column.new }
{
    let col_type = column.col_type();
    let mut at = 0;
    // How many values since the last wanted one are not wanted.
    let mut unwanted = 0;
    for is_wanted in mask {
        if !*is_wanted {
            unwanted += 1;
            continue;
        }
        let place = pass(col_type, bytes, at, unwanted)?;
        let (cell, size) = cell_at(col_type, bytes, place)?;
        column.push_cell(cell)?;
        at = place + size;
        unwanted = 0;
    }
    let end = pass(col_type, bytes, at, unwanted)?;
    end_at(bytes, end)
}

/// The place in the bytes after `count` values of the type that begin at a place. Takes no memory.
///
/// `Malformed` where one of them was to begin and none does. It is never `NoMemory`.
fn pass(col_type: ColType, bytes: &[u8], at: usize, count: usize) -> Result<usize, FormatFault>
    requires { at ≤ length bytes.now }
    ensures { MatchResult result (AreBetween col_type count bytes.now at)
        (ExplainsPass col_type count bytes.now at) }
{
    match col_type {
        ColType::Text => pass_texts(bytes, at, count),
        _ => pass_numbers(col_type, bytes, at, count),
    }
}

/// The place in the bytes after `count` numbers of the type that begin at a place: so many times the bytes of one.
///
/// `Malformed` at the first number that is not whole.
fn pass_numbers(
    col_type: ColType,
    bytes: &[u8],
    at: usize,
    count: usize,
) -> Result<usize, FormatFault>
    requires numbers { col_type ≢ type.Text }
    requires within { at ≤ length bytes.now }
    ensures { MatchResult result (AreBetween col_type count bytes.now at)
        (ExplainsPass col_type count bytes.now at) }
{
    let size = fewest_bytes(col_type);
    let whole = room_for(col_type, bytes.len() - at);
    if whole < count {
        return Err(FormatFault::Malformed {
            place: (at + size * whole) as u64,
        });
    }
    Ok(at + size * count)
}

/// How many numbers of the type this many bytes have room for. Each arm divides by a constant, which is a shift.
fn room_for(col_type: ColType, bytes: usize) -> usize
    ensures { result ≡ bytes / fewest_bytes col_type }
{
    match col_type {
        ColType::UInt8 | ColType::Int8 | ColType::Text => bytes,
        ColType::UInt16 | ColType::Int16 => bytes / 2,
        ColType::UInt32 | ColType::Int32 => bytes / 4,
        ColType::UInt64 | ColType::Int64 => bytes / 8,
    }
}

/// The place in the bytes after `count` texts that begin at a place. Their lengths are read, and nothing is copied.
///
/// `Malformed` where a text was to begin and none does.
fn pass_texts(bytes: &[u8], at: usize, count: usize) -> Result<usize, FormatFault>
    requires { at ≤ length bytes.now }
    ensures { MatchResult result (AreBetween type.Text count bytes.now at)
        (ExplainsPass type.Text count bytes.now at) }
{
    let mut end = at;
    for _value in 0..count {
        let (_text, size) = cell_at(ColType::Text, bytes, end)?;
        end += size;
    }
    Ok(end)
}
