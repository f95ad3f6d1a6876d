// The fields of a line, and the value that a field is.
ghost use Rattle.std.specs.Prelude.{◌≡◌, ◌≢◌, ◌<◌, IfOk, IfSome, Some, length, false, slice_get};
ghost use Rattle.memchr.specs.Find.{IsFirstByte, is_byte3};
ghost use Rattle.mt_values.specs.Rows.{fields_from, text_of, value_of_field};
ghost use Rattle.mt_values.specs.declared.value.ColType.TheVariants as type;
ghost use Rattle.tsv_fields.specs.Fields.{EndFields, IsValueRead, line_at, line_found, marked, value_or_none};

use crate::numbers::{signed_below, unsigned_up_to};
use crate::texts::{plain_len, unescape};
use memchr::memchr3_iter;
use mt_base::{NoMemory, Stop, TEXT_LIMIT};
use mt_values::{Cell, ColType, FieldFault};

// The first place of a tab, a line feed or a backslash in a text; none where it has none of them.
fn next_mark(text: &[u8]) -> Option<usize>
    ensures { IsFirstByte (is_byte3 9 10 92) text.now result }
{
    // The iterator tries the bytes that are near first, and most fields are short.
    memchr3_iter(b'\t', b'\n', b'\\', text).next()
}

/// Puts the places where the fields of a line end in place of what `ends` had. The line is what stands before the first
/// line feed that no backslash takes, if `lines` is set, and else the whole text. Answers the place of that line feed;
/// none where there is none, and then the line is the whole text.
///
/// `NoMemory` where there was none for the places.
// Kept out of its callers, in whose loops it would run slower.
#[inline(never)]
pub fn mark_fields(
    text: &[u8],
    lines: bool,
    ends: &mut Vec<usize>,
) -> Result<Option<usize>, NoMemory>
    ensures line { IfOk result (λ feed. line_at text.now feed ≡ line_found lines text.now) }
    ensures within { IfOk result (λ feed. IfSome feed (λ place. place < length text.now)) }
    ensures fields { IfOk result (λ feed. EndFields (marked text.now feed) ends.new.items) }
{
    ends.clear();
    let mut at = 0;
    'marks: while let Some(plain) = next_mark(&text[at..]) {
        let mark = at + plain;
        if text[mark] == b'\\' {
            // It takes the byte after it.
            at = (mark + 2).min(text.len());
            continue;
        }
        if text[mark] == b'\t' {
            ends.push(mark)?;
            at = mark + 1;
            continue;
        }
        if lines {
            ends.push(mark)?;
            return Ok(Some(mark));
        }
        at = mark + 1;
    }
    ends.push(text.len())?;
    Ok(None)
}

/// The field of a line at a place, counted from 0, by the places where the fields end.
pub fn field_at<'a>(line: &'a [u8], ends: &[usize], place: usize) -> &'a [u8]
    requires fields { EndFields line.now ends.now }
    requires within { place < length ends.now }
    ensures { slice_get (fields_from false line.now) place ≡ Some result.now }
{
    let end = ends[place];
    if place == 0 {
        return &line[..end];
    }
    let start = ends[place - 1] + 1;
    &line[start..end]
}

// The number that a field is, of a column's type; none where the field is not of it.
fn number_of_field(col_type: ColType, field: &[u8]) -> Option<Cell<'static>>
    requires { col_type ≢ type.Text }
    ensures { value_or_none result ≡ value_of_field col_type field.now }
{
    Some(match col_type {
        ColType::UInt8 => Cell::UInt8(unsigned_up_to(u64::from(u8::MAX), field)? as u8),
        ColType::UInt16 => Cell::UInt16(unsigned_up_to(u64::from(u16::MAX), field)? as u16),
        ColType::UInt32 => Cell::UInt32(unsigned_up_to(u64::from(u32::MAX), field)? as u32),
        ColType::UInt64 => Cell::UInt64(unsigned_up_to(u64::MAX, field)?),
        ColType::Int8 => Cell::Int8(signed_below(1 << 7, field)? as i8),
        ColType::Int16 => Cell::Int16(signed_below(1 << 15, field)? as i16),
        ColType::Int32 => Cell::Int32(signed_below(1 << 31, field)? as i32),
        ColType::Int64 => Cell::Int64(signed_below(1 << 63, field)?),
        ColType::Text => return None,
    })
}

// The text of bytes that a field says; a fault where they are too many.
fn text_within(bytes: &[u8]) -> Result<Cell<'_>, Stop<FieldFault>>
    ensures { IsValueRead (text_of (Some bytes.now)) result }
{
    if bytes.len() > TEXT_LIMIT {
        return Err(Stop::Refused(FieldFault::TooLong));
    }
    Ok(Cell::Text(bytes))
}

// The text that a field is. It lies in the field itself, or in `said` where the field has escapes.
fn text_of_field<'a>(field: &'a [u8], said: &'a mut Vec<u8>) -> Result<Cell<'a>, Stop<FieldFault>>
    ensures { IsValueRead (value_of_field type.Text field.now) result }
{
    if plain_len(field) == field.len() {
        return text_within(field);
    }
    if !unescape(field, said)? {
        return Err(Stop::Refused(FieldFault::NotOfType));
    }
    text_within(said.as_slice())
}

/// The value of a field of a column's type, or why it is none. A text lies in the field itself, or in `said`, which
/// loses what it had, where the field has escapes.
///
/// `Stop::NoMemory` where an allocation failed for what the escapes say.
pub fn cell_of_field<'a>(
    col_type: ColType,
    field: &'a [u8],
    said: &'a mut Vec<u8>,
) -> Result<Cell<'a>, Stop<FieldFault>>
    ensures { IsValueRead (value_of_field col_type field.now) result }
{
    if col_type == ColType::Text {
        return text_of_field(field, said);
    }
    match number_of_field(col_type, field) {
        Some(cell) => Ok(cell),
        None => Err(Stop::Refused(FieldFault::NotOfType)),
    }
}
