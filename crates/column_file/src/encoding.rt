// The values of a column as bytes, and where each granule begins in them.
ghost use Rattle.std.specs.Prelude.{◌≡◌, ◌<◌, ◌++◌, All, IfOk, OnOk, Some, length, map, slice_get};
ghost use Rattle.std.specs.List.{filter_map};
ghost use Rattle.mt_values.specs.Cells.{value_of};
ghost use Rattle.mt_values.specs.ColumnBytes.{column_bytes};
ghost use Rattle.mt_values.specs.Grid.{column_of, picked};
ghost use Rattle.mt_values.specs.Values.{FitsType};
ghost use Rattle.mt_values.specs.declared.value.ColType.{ColType};
ghost use Rattle.column_file.specs.Granules.{marks_of};
ghost use Rattle.column_file.specs.Spellings.{IsSpelling};

use crate::cells::push_cell;
use mt_base::{NoMemory, Seq};
use mt_values::{Block, Bytes, Cell, ColumnData};
use std::alloc::Global;

/// How many values are looked up before the first of their bytes is added. The places of texts are read together then,
/// and none of them waits for the bytes of the text before it.
const AHEAD: usize = 256;

/// The bytes of a column's file, and the place of each granule in them.
#[derive(Drop)]
pub struct ColumnBytes {
    pub bytes: Bytes,
    /// Where each granule begins in the bytes, counted from 0, and last the number of bytes.
    pub marks: Seq<u64>,
}

/// The bytes of the block's column at a place, counted from 0, in this order of its rows, with a mark for each `granularity` rows.
///
/// `NoMemory` where an allocation failed.
pub fn encode_column(
    alloc: Global,
    block: &Block,
    column: usize,
    order: &[u32],
    granularity: u32,
) -> Result<ColumnBytes, NoMemory>
    requires column { column < length block.now.types }
    requires places { All (λ place. place < length block.now.rows) order.now }
    requires granularity { 0 < granularity }
    ensures bytes { IfOk result (λ c. c.bytes ≡ column_bytes
        (column_of column (picked block.now.rows order.now))) }
    ensures marks { IfOk result (λ c. c.marks ≡ marks_of granularity
        (column_of column (picked block.now.rows order.now))) }
    ensures encodable { IfOk result
        (λ _. All FitsType (column_of column (picked block.now.rows order.now))) }
    ensures spelled { IfOk result (λ c. (t : ColType) → slice_get block.now.types column ≡ Some t
        → IsSpelling t (length order.now) c.bytes
        (column_of column (picked block.now.rows order.now))) }
{
    let cells = block.column(column);
    // Reading the lengths shows that the column has a value for each row.
    prove_eq!(cells.len(), block.len());
    encode_cells(alloc, cells, order, granularity)
}

/// The bytes of the values at these places, in this order, with a mark for each `granularity` values.
///
/// `NoMemory` where an allocation failed.
fn encode_cells(
    alloc: Global,
    cells: &ColumnData,
    order: &[u32],
    granularity: u32,
) -> Result<ColumnBytes, NoMemory>
    requires places { All (λ place. place < length cells.now.values) order.now }
    requires granularity { 0 < granularity }
    ensures bytes { IfOk result (λ c. c.bytes ≡ column_bytes
        (filter_map (slice_get cells.now.values) order.now)) }
    ensures marks { IfOk result (λ c. c.marks ≡ marks_of granularity
        (filter_map (slice_get cells.now.values) order.now)) }
    ensures encodable { IfOk result
        (λ _. All FitsType (filter_map (slice_get cells.now.values) order.now)) }
{
    let mut bytes = Seq::with_capacity(alloc, order.len())?;
    let mut marks = Seq::new(alloc);
    for granule in order.chunks(granularity as usize) {
        let begun = bytes.len() as u64;
        push_cells(alloc, &mut bytes, cells, granule)?;
        marks.push(begun)?;
    }
    marks.push(bytes.len() as u64)?;
    Ok(ColumnBytes { bytes, marks })
}

/// Adds the bytes of the values at these places, in this order.
///
/// `NoMemory` where an allocation failed; some of the bytes may have been added then.
fn push_cells(
    alloc: Global,
    bytes: &mut Bytes,
    cells: &ColumnData,
    places: &[u32],
) -> Result<(), NoMemory>
    requires { All (λ place. place < length cells.now.values) places.now }
    ensures bytes { OnOk result (bytes.new ≡ bytes.old ++ column_bytes
        (filter_map (slice_get cells.now.values) places.now)) }
    ensures encodable { OnOk result
        (All FitsType (filter_map (slice_get cells.now.values) places.now)) }
{
    for part in places.chunks(AHEAD) {
        let ahead = cells_at(alloc, cells, part)?;
        push_all(bytes, &ahead)?;
    }
    Ok(())
}

/// The values at these places, in this order.
///
/// `NoMemory` where an allocation failed.
fn cells_at<'a>(
    alloc: Global,
    cells: &'a ColumnData,
    places: &[u32],
) -> Result<Vec<Cell<'a>>, NoMemory>
    requires { All (λ place. place < length cells.now.values) places.now }
    ensures { IfOk result
        (λ v. map value_of v.items ≡ filter_map (slice_get cells.now.values) places.now) }
{
    let mut ahead = Vec::with_capacity(alloc, places.len())?;
    for place in places {
        ahead.push_reserved(cells.at(*place as usize));
    }
    Ok(ahead)
}

/// Adds the bytes of these values.
///
/// `NoMemory` where an allocation failed; some of the bytes may have been added then.
fn push_all(bytes: &mut Bytes, cells: &[Cell]) -> Result<(), NoMemory>
    ensures bytes { OnOk result
        (bytes.new ≡ bytes.old ++ column_bytes (map value_of cells.now)) }
    ensures encodable { OnOk result (All FitsType (map value_of cells.now)) }
{
    for cell in cells {
        push_cell(bytes, *cell)?;
    }
    Ok(())
}
