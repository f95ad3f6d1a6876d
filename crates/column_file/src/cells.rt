// Single values: their bytes, and the value that bytes begin with.
ghost use Rattle.std.specs.Prelude.{◌≡◌, ◌<◌, ◌≤◌, ◌++◌, MatchOption, OnOk, length, take};
ghost use Rattle.std.specs.Int.{w16, w32, w64, to_le_bytes};
ghost use Rattle.mt_values.specs.Cells.{value_of};
ghost use Rattle.mt_values.specs.ColumnBytes.{leb128, value_bytes};
ghost use Rattle.mt_values.specs.Values.{FitsType};
ghost use Rattle.mt_values.specs.declared.value.ColType.TheVariants as type;
ghost use Rattle.column_file.specs.Faults.{NoneBegins};
ghost use Rattle.byte_numbers.specs.Fronts.{Begins};
ghost use Rattle.column_file.specs.Spellings.{IsOfType, fewest_bytes};

use byte_numbers::{
    first_u16, first_u32, first_u64, push_leb128, push_u16, push_u32, push_u64, read_leb128,
};
use mt_base::NoMemory;
use mt_values::{Bytes, Cell, ColType};

/// Adds the bytes of a value.
///
/// `NoMemory` where an allocation failed; some of the bytes may have been added then.
pub fn push_cell(bytes: &mut Bytes, cell: Cell) -> Result<(), NoMemory>
    ensures bytes { OnOk result (bytes.new ≡ bytes.old ++ value_bytes (value_of cell.entry)) }
    ensures encodable { FitsType (value_of cell.entry) }
{
    match cell {
        Cell::UInt8(n) => bytes.push(n),
        Cell::UInt16(n) => push_u16(bytes, n),
        Cell::UInt32(n) => push_u32(bytes, n),
        Cell::UInt64(n) => push_u64(bytes, n),
        Cell::Int8(n) => bytes.push(n.cast_unsigned()),
        Cell::Int16(n) => push_u16(bytes, n.cast_unsigned()),
        Cell::Int32(n) => push_u32(bytes, n.cast_unsigned()),
        Cell::Int64(n) => push_u64(bytes, n.cast_unsigned()),
        Cell::Text(text) => push_text(bytes, text),
    }
}

/// Adds the length of a text, and then the text.
///
/// `NoMemory` where an allocation failed; some of the bytes may have been added then.
fn push_text(bytes: &mut Bytes, text: &[u8]) -> Result<(), NoMemory>
    ensures { OnOk result (bytes.new ≡ bytes.old ++ (leb128 (length text.now) ++ text.now)) }
{
    push_leb128(bytes, text.len() as u64)?;
    bytes.extend(text)
}

/// The value of the type that the bytes begin with, and how many bytes spell it.
///
/// `None` where they begin with none.
pub fn first_cell(col_type: ColType, bytes: &[u8]) -> Option<(Cell<'_>, usize)>
    ensures { MatchOption result (NoneBegins col_type bytes.now) (λ p. IsOfType col_type
        (value_of p.0) × Begins (value_bytes (value_of p.0)) p.1 bytes.now) }
{
    if bytes.len() < fewest_bytes(col_type) {
        return None;
    }
    match col_type {
        ColType::UInt8 => Some((Cell::UInt8(bytes[0]), 1)),
        ColType::UInt16 => Some((Cell::UInt16(first_u16(bytes)), 2)),
        ColType::UInt32 => Some((Cell::UInt32(first_u32(bytes)), 4)),
        ColType::UInt64 => Some((Cell::UInt64(first_u64(bytes)), 8)),
        ColType::Int8 => Some((Cell::Int8(bytes[0].cast_signed()), 1)),
        ColType::Int16 => Some((Cell::Int16(first_u16(bytes).cast_signed()), 2)),
        ColType::Int32 => Some((Cell::Int32(first_u32(bytes).cast_signed()), 4)),
        ColType::Int64 => Some((Cell::Int64(first_u64(bytes).cast_signed()), 8)),
        ColType::Text => first_text(bytes),
    }
}

/// The text that the bytes begin with, after its length, and how many bytes both take.
///
/// `None` where they begin with none.
fn first_text(bytes: &[u8]) -> Option<(Cell<'_>, usize)>
    ensures { MatchOption result (NoneBegins type.Text bytes.now) (λ p. IsOfType type.Text
        (value_of p.0) × Begins (value_bytes (value_of p.0)) p.1 bytes.now) }
{
    let (count, head) = read_leb128(bytes)?;
    let behind = &bytes[head..];
    if count > behind.len() as u64 {
        return None;
    }
    let size = count as usize;
    Some((Cell::Text(&behind[..size]), head + size))
}

/// The fewest bytes that a value of the type takes, which are at least one. A number of the type takes no more.
pub fn fewest_bytes(col_type: ColType) -> usize
    ensures bytes { result ≡ fewest_bytes col_type }
    ensures some { 0 < result }
{
    match col_type {
        ColType::UInt8 | ColType::Int8 | ColType::Text => 1,
        ColType::UInt16 | ColType::Int16 => 2,
        ColType::UInt32 | ColType::Int32 => 4,
        ColType::UInt64 | ColType::Int64 => 8,
    }
}
