// Bytes read back as values.
ghost use Rattle.std.specs.Prelude.{◌≡◌, ◌<◌, ◌≤◌, List, IfErr, IfOk, MatchResult, OnOk, drop, length};
ghost use Rattle.mt_values.specs.Cells.{value_of};
ghost use Rattle.mt_values.specs.ColumnBytes.{value_bytes};
ghost use Rattle.mt_values.specs.declared.value.Value.{Value};
ghost use Rattle.column_file.specs.Faults.{Explains, NoneBegins};
ghost use Rattle.byte_numbers.specs.Fronts.{Begins};
ghost use Rattle.column_file.specs.Spellings.{GainsAll, GainsFront, IsOfType, IsSpelling, with_values};

use crate::cells::first_cell;
use byte_numbers::FormatFault;
use mt_values::{Cell, ColType, ColumnData, Value};
use std::alloc::Global;

/// The column of the values that the bytes spell, `count` of them.
///
/// `Malformed` where they spell no such values, at their first fault; `NoMemory` where an allocation failed.
pub fn decode_column(
    alloc: Global,
    col_type: ColType,
    bytes: &[u8],
    count: usize,
) -> Result<ColumnData, FormatFault>
    ensures col_type { IfOk result (λ c. c.col_type ≡ col_type) }
    ensures read { IfOk result (λ c. IsSpelling col_type count bytes.now c.values) }
    ensures spelled { (values : List Value) → IsSpelling col_type count bytes.now values
        → MatchResult result (λ c. c.values ≡ values) (λ e. e ≡ FormatFault.NoMemory) }
    ensures fault { IfErr result (Explains col_type count bytes.now) }
{
    let mut column = ColumnData::new(alloc, col_type);
    decode_onto(&mut column, bytes, count)?;
    Ok(column)
}

/// Adds the values that the bytes spell, `count` of them, at the column's end.
///
/// `Malformed` where they spell no such values, at their first fault; `NoMemory` where an allocation failed.
/// After an error some of the first values may have been added.
pub fn decode_onto(column: &mut ColumnData, bytes: &[u8], count: usize) -> Result<(), FormatFault>
    ensures read { OnOk result (GainsAll count bytes.now column.old column.new) }
    ensures spelled { (values : List Value) → IsSpelling column.old.col_type count bytes.now values
        → MatchResult result (λ _. column.new ≡ with_values column.old values)
        (λ e. e ≡ FormatFault.NoMemory) }
    ensures fault { IfErr result (Explains column.old.col_type count bytes.now) }
    ensures front { GainsFront bytes.now column.old column.new }
{
    let col_type = column.col_type();
    let mut at = 0;
    for _value in 0..count {
        let (cell, size) = cell_at(col_type, bytes, at)?;
        column.push_cell(cell)?;
        at += size;
    }
    end_at(bytes, at)
}

/// The values that the bytes spell, `count` of them, each by itself.
///
/// `Malformed` where they spell no such values, at their first fault; `NoMemory` where an allocation failed.
pub fn decode_granule(
    alloc: Global,
    col_type: ColType,
    bytes: &[u8],
    count: usize,
) -> Result<Vec<Value>, FormatFault>
    ensures read { IfOk result (λ v. IsSpelling col_type count bytes.now v.items) }
    ensures spelled { (values : List Value) → IsSpelling col_type count bytes.now values
        → MatchResult result (λ v. v.items ≡ values) (λ e. e ≡ FormatFault.NoMemory) }
    ensures fault { IfErr result (Explains col_type count bytes.now) }
{
    let column = decode_column(alloc, col_type, bytes, count)?;
    values_of(alloc, &column)
}

/// The values of a column, each by itself.
///
/// `NoMemory` where an allocation failed.
fn values_of(alloc: Global, column: &ColumnData) -> Result<Vec<Value>, FormatFault>
    ensures { MatchResult result (λ v. v.items ≡ column.now.values)
        (λ e. e ≡ FormatFault.NoMemory) }
{
    let count = column.len();
    let mut values = Vec::with_capacity(alloc, count)?;
    for place in 0..count {
        values.push_reserved(column.at(place).to_value(alloc)?);
    }
    Ok(values)
}

/// The value that begins at a place of the bytes, and how many bytes spell it.
///
/// `Malformed` at the place where no value of the type begins there.
pub fn cell_at(col_type: ColType, bytes: &[u8], at: usize) -> Result<(Cell<'_>, usize), FormatFault>
    requires { at ≤ length bytes.now }
    ensures { MatchResult result (λ p. IsOfType col_type (value_of p.0)
        × Begins (value_bytes (value_of p.0)) p.1 (drop at bytes.now)) (λ e.
        (e ≡ FormatFault.Malformed at) × NoneBegins col_type (drop at bytes.now)) }
{
    first_cell(col_type, &bytes[at..]).ok_or(FormatFault::Malformed { place: at as u64 })
}

/// Nothing, where the bytes end at the place.
///
/// `Malformed` at the place where they go on.
pub fn end_at(bytes: &[u8], at: usize) -> Result<(), FormatFault>
    ensures { MatchResult result (λ _. length bytes.now ≤ at)
        (λ e. (e ≡ FormatFault.Malformed at) × (at < length bytes.now)) }
{
    if at < bytes.len() {
        return Err(FormatFault::Malformed { place: at as u64 });
    }
    Ok(())
}
