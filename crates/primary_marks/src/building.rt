// primary.bin written: the primary keys of a block's rows, and their bytes (docs/formats.md, "Primary keys").
//
// Without rows the file is empty. Else it has a key for each granule, that of the granule's first row, and then the key of
// the last row, the final mark. A key is its values in the order of the primary key, each as in a column file.
ghost use Rattle.std.specs.Prelude.{◌≡◌, ◌<◌, ◌++◌, All, IfOk, IfSome, OnOk, length, slice_get};
ghost use Rattle.std.specs.List.{filter_map};
ghost use Rattle.mt_values.specs.ColumnBytes.{column_bytes};
ghost use Rattle.mt_values.specs.Grid.{AreOfType, picked};
ghost use Rattle.mt_values.specs.Values.{FitsType, Row};
ghost use Rattle.column_file.specs.Marks.{keys_bytes, mark_keys, with_final};

use crate::marks::Marks;
use column_file::push_cell;
use mt_base::{NoMemory, Seq};
use mt_values::{Block, Bytes, ColumnData, Schema};
use std::alloc::Global;

/// The primary keys that are kept of the block's rows in this order.
///
/// `NoMemory` where an allocation failed.
pub fn build(
    alloc: Global,
    schema: &Schema,
    block: &Block,
    order: &[u32],
) -> Result<Marks, NoMemory>
    requires granularity { 0 < schema.now.granularity }
    requires primary { All (λ place. place < length block.now.types) schema.now.primary }
    requires places { All (λ place. place < length block.now.rows) order.now }
    ensures { IfOk result (λ m. m ≡ mark_keys schema.now.primary schema.now.granularity
        (picked block.now.rows order.now)) }
{
    let places = marked_places(alloc, schema.granularity, order)?;
    let rows = block.len();
    let mut columns = Vec::with_capacity(alloc, schema.primary.len())?;
    for place in schema.primary.as_slice() {
        let cells = block.column(*place as usize);
        // Reading the length shows that the column keeps to its type.
        prove_eq!(cells.len(), rows);
        columns.push_reserved(picked_cells(alloc, cells, places.as_slice())?);
    }
    Ok(Marks::of_columns(columns, places.len()))
}

/// The first place of each granule of an order, and then the last place of all.
///
/// `NoMemory` where an allocation failed.
fn marked_places(alloc: Global, granularity: u32, order: &[u32]) -> Result<Seq<u32>, NoMemory>
    requires { 0 < granularity }
    ensures { IfOk result (λ places. places ≡ with_final granularity order.now) }
{
    let size = granularity as usize;
    let granules = order.len().div_ceil(size);
    let mut places = Seq::with_capacity(alloc, granules + 1)?;
    for granule in 0..granules {
        places.push(order[size * granule])?;
    }
    if let Some(last) = order.last() {
        places.push(*last)?;
    }
    Ok(places)
}

/// The values of a column at these places, in this order, as a column.
///
/// `NoMemory` where an allocation failed.
fn picked_cells(alloc: Global, cells: &ColumnData, places: &[u32]) -> Result<ColumnData, NoMemory>
    requires places { All (λ place. place < length cells.now.values) places.now }
    requires typed { AreOfType cells.now }
    ensures { IfOk result (λ c. c.values ≡ filter_map (slice_get cells.now.values) places.now) }
{
    let mut picked = ColumnData::new(alloc, cells.col_type());
    for place in places {
        picked.push_cell(cells.at(*place as usize))?;
    }
    Ok(picked)
}

/// The bytes of keys.
///
/// `NoMemory` where an allocation failed.
pub fn spell(alloc: Global, marks: &Marks) -> Result<Bytes, NoMemory>
    ensures bytes { IfOk result (λ b. b ≡ keys_bytes marks.now) }
    ensures encodable { IfOk result (λ _. All (λ (key : Row). All FitsType key) marks.now) }
{
    let mut bytes = Seq::new(alloc);
    for key in 0..marks.len() {
        push_key(&mut bytes, marks, key)?;
    }
    Ok(bytes)
}

/// Adds the bytes of a key, counted from 0.
///
/// `NoMemory` where an allocation failed; some of the bytes may have been added then.
fn push_key(bytes: &mut Bytes, marks: &Marks, key: usize) -> Result<(), NoMemory>
    requires { key < length marks.now }
    ensures bytes { OnOk result (IfSome (slice_get marks.now key)
        (λ k. bytes.new ≡ bytes.old ++ column_bytes k)) }
    ensures encodable { OnOk result (IfSome (slice_get marks.now key) (All FitsType)) }
{
    for column in 0..marks.width() {
        push_cell(bytes, marks.key_cell(key, column))?;
    }
    Ok(())
}
