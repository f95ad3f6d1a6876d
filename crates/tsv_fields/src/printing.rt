// Rows as lines of text: those of a block, and single ones.
ghost use Rattle.std.specs.Prelude.{◌≡◌, ◌<◌, ◌++◌, ◌∷◌, [], OnOk, All, length, flat_map, slice_index_or};
ghost use Rattle.mt_values.specs.Cells.{value_of};
ghost use Rattle.mt_values.specs.Grid.{picked};
ghost use Rattle.mt_values.specs.Printing.{escaped, field, line, selected};
ghost use Rattle.tsv_fields.specs.Printing.{escape_or_byte, tab_before};

use itoa::Buffer;
use mt_base::NoMemory;
use mt_values::{Block, Cell, Value};

// The letter that stands for a byte after a backslash; none where the byte stands for itself.
fn escape_of(byte: u8) -> Option<u8>
    ensures { escape_or_byte byte result ≡ escaped byte }
{
    match byte {
        8 => Some(b'b'),
        12 => Some(b'f'),
        b'\r' => Some(b'r'),
        b'\n' => Some(b'n'),
        b'\t' => Some(b't'),
        0 => Some(b'0'),
        b'\'' => Some(b'\''),
        b'\\' => Some(b'\\'),
        _ => None,
    }
}

/// Adds a text, each byte as it is printed. Runs of bytes that stand for themselves are copied whole.
///
/// `NoMemory` where an allocation failed; a part of the text may have been added then.
pub fn write_text(text: &[u8], out: &mut Vec<u8>) -> Result<(), NoMemory>
    ensures { OnOk result (out.new.items ≡ out.old.items ++ flat_map escaped text.now) }
{
    let mut start = 0;
    for (at, byte) in text.iter().enumerate() {
        let Some(letter) = escape_of(*byte) else {
            continue;
        };
        out.extend_from_slice(&text[start..at])?;
        out.extend_from_slice(&[b'\\', letter])?;
        start = at + 1;
    }
    out.extend_from_slice(&text[start..])?;
    Ok(())
}

// Adds bytes as they are.
fn write_bytes(bytes: &[u8], out: &mut Vec<u8>) -> Result<(), NoMemory>
    ensures { OnOk result (out.new.items ≡ out.old.items ++ bytes.now) }
{
    Ok(out.extend_from_slice(bytes)?)
}

// Adds a value as a field.
fn write_cell(cell: Cell, buffer: &mut Buffer, out: &mut Vec<u8>) -> Result<(), NoMemory>
    ensures { OnOk result (out.new.items ≡ out.old.items ++ field (value_of cell.entry)) }
{
    match cell {
        Cell::UInt8(n) => write_bytes(buffer.format(n).as_bytes(), out),
        Cell::UInt16(n) => write_bytes(buffer.format(n).as_bytes(), out),
        Cell::UInt32(n) => write_bytes(buffer.format(n).as_bytes(), out),
        Cell::UInt64(n) => write_bytes(buffer.format(n).as_bytes(), out),
        Cell::Int8(n) => write_bytes(buffer.format(n).as_bytes(), out),
        Cell::Int16(n) => write_bytes(buffer.format(n).as_bytes(), out),
        Cell::Int32(n) => write_bytes(buffer.format(n).as_bytes(), out),
        Cell::Int64(n) => write_bytes(buffer.format(n).as_bytes(), out),
        Cell::Text(text) => write_text(text, out),
    }
}

// Adds the tab that stands before each field but the first.
fn write_tab(index: usize, out: &mut Vec<u8>) -> Result<(), NoMemory>
    ensures { OnOk result (out.new.items ≡ out.old.items ++ tab_before index) }
{
    if index > 0 {
        out.push(b'\t')?;
    }
    Ok(())
}

/// Adds the line of these values, with its line feed.
///
/// `NoMemory` where an allocation failed; a part of the line may have been added then.
pub fn write_row(values: &[Value], out: &mut Vec<u8>) -> Result<(), NoMemory>
    ensures { OnOk result (out.new.items ≡ out.old.items ++ line values.now) }
{
    let mut buffer = Buffer::new();
    for (index, value) in values.iter().enumerate() {
        write_tab(index, out)?;
        write_cell(Cell::of(value), &mut buffer, out)?;
    }
    out.push(b'\n')?;
    Ok(())
}

/// Adds the line of the block's row at a place, counted from 0: of the values at chosen columns, in the order of the
/// choice. A column may be chosen twice.
///
/// `NoMemory` where an allocation failed; a part of the line may have been added then.
fn write_row_at(
    block: &Block,
    place: usize,
    columns: &[u32],
    out: &mut Vec<u8>,
) -> Result<(), NoMemory>
    requires within { place < length block.now.rows }
    requires chosen { All (λ column. column < length block.now.types) columns.now }
    ensures { OnOk result (out.new.items ≡ out.old.items ++ line
        (selected columns.now (slice_index_or block.now.rows place []))) }
{
    prove!(place < block.len());
    let mut buffer = Buffer::new();
    for (index, column) in columns.iter().enumerate() {
        write_tab(index, out)?;
        write_cell(block.column(*column as usize).at(place), &mut buffer, out)?;
    }
    out.push(b'\n')?;
    Ok(())
}

/// Adds the lines of the block's rows at these places, in this order: of each row the values at chosen columns, in
/// the order of the choice.
///
/// `NoMemory` where an allocation failed; a part of the lines may have been added then.
pub fn write_rows(
    block: &Block,
    order: &[u32],
    columns: &[u32],
    out: &mut Vec<u8>,
) -> Result<(), NoMemory>
    requires within { All (λ place. place < length block.now.rows) order.now }
    requires chosen { All (λ column. column < length block.now.types) columns.now }
    ensures { OnOk result (out.new.items ≡ out.old.items ++ flat_map
        (λ row. line (selected columns.now row)) (picked block.now.rows order.now)) }
{
    for place in order {
        write_row_at(block, *place as usize, columns, out)?;
    }
    Ok(())
}
