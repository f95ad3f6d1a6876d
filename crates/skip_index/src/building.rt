// A skip index of a block's rows, and its bytes (docs/formats.md, "Skip indexes").
//
// The rows of a part are parted into blocks of some granules, the last perhaps shorter. A block of a minmax index has the least and
// the greatest value of its column, each as in a column file. A block of a set has, as a u32, how many distinct values it keeps, and
// then these, in the order in which they first occur in it; where there are more than it keeps, it has the number 0 alone.
ghost use Rattle.std.specs.Prelude.{◌≡◌, ◌≤◌, ◌<◌, ◌++◌, All, IfOk, OnOk, filter_map, fold, length, map, slice_get};
ghost use Rattle.mt_values.specs.Cells.{value_of};
ghost use Rattle.mt_values.specs.ColumnBytes.{column_bytes};
ghost use Rattle.mt_values.specs.Grid.{picked};
ghost use Rattle.mt_values.specs.Schemas.{column_types};
ghost use Rattle.skip_index.specs.Blocks.{
  HasIndex,
  IsCounted,
  blocks_of,
  distinct_of,
  greater,
  index_bytes,
  index_of,
  kept_of,
  known_bytes,
  lesser,
  most_kept,
  range_of,
  set_of,
};

use crate::index::Index;
use crate::values::{most_kept, see, values_of};
use column_file::byte_numbers::push_u32;
use column_file::push_cell;
use indexmap::IndexSet;
use mt_base::{NoMemory, Seq};
use mt_values::{Block, Bytes, Cell, ColumnData, IndexKind, Schema, Value, cmp_cells};
use predicate::Known;
use std::alloc::Global;

/// What is kept of the table's skip index at a place, from 0, of the block's rows in this order.
///
/// `NoMemory` where an allocation failed.
pub fn build(
    alloc: Global,
    schema: &Schema,
    index: u32,
    block: &Block,
    order: &[u32],
) -> Result<Index, NoMemory>
    requires there { HasIndex schema.now index }
    requires types { block.now.types ≡ column_types schema.now }
    requires places { All (λ place. place < length block.now.rows) order.now }
    ensures kept { IfOk result
        (λ i. i ≡ index_of schema.now index (picked block.now.rows order.now)) }
    ensures counted { IfOk result (λ i. All IsCounted i.blocks) }
{
    let own = schema.indexes.at(index as usize);
    let cells = block.column(own.column as usize);
    // Reading the lengths shows that the column has a value for each row.
    prove_eq!(cells.len(), block.len());
    let granularity = schema.granularity as usize;
    let size = granularity * own.granularity as usize;
    Ok(Index {
        column: own.column,
        span: own.granularity,
        granules: order.len().div_ceil(granularity),
        blocks: kept_blocks(alloc, own.kind, cells, order, size)?,
    })
}

/// What is kept of each block of so many values at these places, in this order.
///
/// `NoMemory` where an allocation failed.
fn kept_blocks(
    alloc: Global,
    kind: IndexKind,
    cells: &ColumnData,
    order: &[u32],
    size: usize,
) -> Result<Seq<Known>, NoMemory>
    requires places { All (λ place. place < length cells.now.values) order.now }
    requires size { 0 < size }
    ensures { IfOk result (λ blocks. blocks ≡ map (kept_of kind)
        (blocks_of size (filter_map (slice_get cells.now.values) order.now))) }
{
    let mut blocks = Seq::new(alloc);
    for places in order.chunks(size) {
        blocks.push(kept_of(alloc, kind, cells, places)?)?;
    }
    Ok(blocks)
}

/// What is kept of the values at these places.
///
/// `NoMemory` where an allocation failed.
pub fn kept_of(
    alloc: Global,
    kind: IndexKind,
    cells: &ColumnData,
    places: &[u32],
) -> Result<Known, NoMemory>
    requires { All (λ place. place < length cells.now.values) places.now }
    ensures { IfOk result
        (λ k. k ≡ kept_of kind (filter_map (slice_get cells.now.values) places.now)) }
{
    match kind {
        IndexKind::MinMax => range_of(alloc, cells, places),
        IndexKind::Set(limit) => set_of(alloc, limit, cells, places),
    }
}

/// The least and the greatest of the values at these places. The texts of the others are not copied.
///
/// `NoMemory` where an allocation failed.
fn range_of(alloc: Global, cells: &ColumnData, places: &[u32]) -> Result<Known, NoMemory>
    requires { All (λ place. place < length cells.now.values) places.now }
    ensures { IfOk result
        (λ k. k ≡ range_of (filter_map (slice_get cells.now.values) places.now)) }
{
    let Some((first, others)) = places.split_first() else {
        return Ok(Known::Unknown);
    };
    let (least, greatest) = extremes(cells, cells.at(*first as usize), others);
    Ok(Known::Range(least.to_value(alloc)?, greatest.to_value(alloc)?))
}

/// The least and the greatest of a value and of those at these places. Takes no memory.
pub(crate) fn extremes<'a>(
    cells: &'a ColumnData,
    first: Cell<'a>,
    places: &[u32],
) -> (Cell<'a>, Cell<'a>)
    requires { All (λ place. place < length cells.now.values) places.now }
    ensures least { value_of result.0 ≡ fold lesser (value_of first.entry)
        (filter_map (slice_get cells.now.values) places.now) }
    ensures greatest { value_of result.1 ≡ fold greater (value_of first.entry)
        (filter_map (slice_get cells.now.values) places.now) }
{
    let mut least = first;
    let mut greatest = first;
    for place in places {
        let cell = cells.at(*place as usize);
        least = lesser(least, cell);
        greatest = greater(greatest, cell);
    }
    (least, greatest)
}

/// The lesser of two values.
fn lesser<'a>(first: Cell<'a>, second: Cell<'a>) -> Cell<'a>
    ensures { value_of result ≡ lesser (value_of first.entry) (value_of second.entry) }
{
    if cmp_cells(second, first).is_lt() {
        return second;
    }
    first
}

/// The greater of two values.
fn greater<'a>(first: Cell<'a>, second: Cell<'a>) -> Cell<'a>
    ensures { value_of result ≡ greater (value_of first.entry) (value_of second.entry) }
{
    if cmp_cells(second, first).is_gt() {
        return second;
    }
    first
}

/// Each of the values at these places once, where they are no more than a set with this limit keeps.
///
/// `NoMemory` where an allocation failed.
fn set_of(alloc: Global, limit: u64, cells: &ColumnData, places: &[u32]) -> Result<Known, NoMemory>
    requires { All (λ place. place < length cells.now.values) places.now }
    ensures { IfOk result
        (λ k. k ≡ set_of limit (filter_map (slice_get cells.now.values) places.now)) }
{
    let none: [Value; 0] = [];
    set_from(alloc, limit, &none, cells, places)
}

/// Each of some values and of those at these places once, where they are no more than a set with this limit keeps; the first are no more. Ends at the
/// first value that is too many.
///
/// `NoMemory` where an allocation failed.
pub(crate) fn set_from(
    alloc: Global,
    limit: u64,
    first: &[Value],
    cells: &ColumnData,
    places: &[u32],
) -> Result<Known, NoMemory>
    requires { All (λ place. place < length cells.now.values) places.now }
    ensures { length (distinct_of first.now) ≤ most_kept limit → IfOk result (λ k. k
        ≡ set_of limit (first.now ++ filter_map (slice_get cells.now.values) places.now)) }
{
    let most = most_kept(limit);
    let mut distinct = seen_of(alloc, first)?;
    for place in places {
        see(&mut distinct, cells.at(*place as usize))?;
        if distinct.len() as u64 > most {
            return Ok(Known::Unknown);
        }
    }
    Ok(Known::List(values_of(alloc, distinct.as_slice())?))
}

/// Each of these values once, as cells.
///
/// `NoMemory` where an allocation failed.
fn seen_of<'a>(alloc: Global, values: &'a [Value]) -> Result<IndexSet<Cell<'a>>, NoMemory>
    ensures { IfOk result (λ seen. map value_of seen.keys ≡ distinct_of values.now) }
{
    let mut seen = IndexSet::new(alloc);
    for value in values {
        see(&mut seen, Cell::of(value))?;
    }
    Ok(seen)
}

/// The bytes of a skip index.
///
/// `NoMemory` where an allocation failed.
pub fn spell(alloc: Global, index: &Index) -> Result<Bytes, NoMemory>
    requires { All IsCounted index.now.blocks }
    ensures { IfOk result (λ b. b ≡ index_bytes index.now) }
{
    let mut bytes = Seq::new(alloc);
    for known in index.blocks.as_slice() {
        push_known(&mut bytes, known)?;
    }
    Ok(bytes)
}

/// Adds the bytes of a block.
///
/// `NoMemory` where an allocation failed; some of the bytes may have been added then.
fn push_known(bytes: &mut Bytes, known: &Known) -> Result<(), NoMemory>
    requires { IsCounted known.now }
    ensures { OnOk result (bytes.new ≡ bytes.old ++ known_bytes known.now) }
{
    match known {
        Known::Range(least, greatest) => {
            push_cell(bytes, Cell::of(least))?;
            push_cell(bytes, Cell::of(greatest))
        }
        Known::List(values) => {
            push_u32(bytes, values.len() as u32)?;
            push_values(bytes, values.as_slice())
        }
        Known::Unknown => push_u32(bytes, 0),
    }
}

/// Adds the bytes of values, in order.
///
/// `NoMemory` where an allocation failed; some of the bytes may have been added then.
fn push_values(bytes: &mut Bytes, values: &[Value]) -> Result<(), NoMemory>
    ensures { OnOk result (bytes.new ≡ bytes.old ++ column_bytes values.now) }
{
    for value in values {
        push_cell(bytes, Cell::of(value))?;
    }
    Ok(())
}
