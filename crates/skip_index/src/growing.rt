// A skip index that grows by a granule (docs/formats.md, "Skip indexes").
//
// A granule begins a block, or it is one more of the last block, which is not whole yet. Then the least and the greatest value of that block are
// asked of its own again, and the values that a set keeps get those of its values that are new. The values themselves are not kept.
ghost use Rattle.std.specs.Prelude.{◌≡◌, ◌≢◌, ◌≤◌, ◌<◌, ◌++◌, [], All, IfOk, List, OnOk, filter_map, length, slice_get};
ghost use Rattle.mt_values.specs.Grid.{AreRowsOf, picked};
ghost use Rattle.mt_values.specs.Schemas.{column_types};
ghost use Rattle.mt_values.specs.Values.{Row};
ghost use Rattle.mt_values.specs.declared.value.Value.{Value};
ghost use Rattle.skip_index.specs.Blocks.{AreWhole, HasIndex, IsBegun, index_of, kept_of, range_of, set_of};

use crate::building::{extremes, kept_of, set_from};
use crate::index::Index;
use mt_base::NoMemory;
use mt_values::{Block, Cell, ColumnData, IndexKind, Schema};
use predicate::Known;
use std::alloc::Global;

/// Adds a granule to the table's skip index at a place, from 0: the block's rows in this order, which come after those of which the index is kept.
/// These are whole granules.
///
/// `NoMemory` where an allocation failed or a machine word can't count the granules; the index may lack its last block then.
pub fn add_granule(
    alloc: Global,
    schema: &Schema,
    place: u32,
    index: &mut Index,
    block: &Block,
    order: &[u32],
) -> Result<(), NoMemory>
    requires there { HasIndex schema.now place }
    requires types { block.now.types ≡ column_types schema.now }
    requires places { All (λ place. place < length block.now.rows) order.now }
    requires some { 0 < length order.now }
    requires few { length order.now ≤ schema.now.granularity }
    ensures { (rows : List Row) → AreRowsOf (column_types schema.now) rows
        → AreWhole schema.now.granularity rows → index.old ≡ index_of schema.now place rows
        → OnOk result
        (index.new ≡ index_of schema.now place (rows ++ picked block.now.rows order.now)) }
{
    let own = schema.indexes.at(place as usize);
    let cells = block.column(own.column as usize);
    // Reading the lengths shows that the column has a value for each row.
    prove_eq!(cells.len(), block.len());
    let Some(granules) = index.granules.checked_add(1) else {
        return Err(NoMemory);
    };
    let whole = index.granules / own.granularity as usize;
    let known = block_with(
        alloc,
        own.kind,
        index.blocks.as_slice(),
        whole,
        cells,
        order,
    )?;
    index.blocks.truncate(whole);
    index.blocks.push(known)?;
    index.granules = granules;
    Ok(())
}

/// What is kept of the block at a place with the values at these places at its end. It has none before where it is past the last.
///
/// `NoMemory` where an allocation failed.
fn block_with(
    alloc: Global,
    kind: IndexKind,
    blocks: &[Known],
    block: usize,
    cells: &ColumnData,
    places: &[u32],
) -> Result<Known, NoMemory>
    requires { All (λ place. place < length cells.now.values) places.now }
    ensures { (values : List Value) → IsBegun kind values (slice_get blocks.now block) → IfOk result
        (λ k. k ≡ kept_of kind (values ++ filter_map (slice_get cells.now.values) places.now)) }
{
    match blocks.get(block) {
        Some(begun) => kept_with(alloc, kind, begun, cells, places),
        None => kept_of(alloc, kind, cells, places),
    }
}

/// What is kept of the values of a block, of some of which this is kept, and of those at these places after them.
///
/// `NoMemory` where an allocation failed.
fn kept_with(
    alloc: Global,
    kind: IndexKind,
    begun: &Known,
    cells: &ColumnData,
    places: &[u32],
) -> Result<Known, NoMemory>
    requires { All (λ place. place < length cells.now.values) places.now }
    ensures { (values : List Value) → values ≢ [] → begun.now ≡ kept_of kind values → IfOk result
        (λ k. k ≡ kept_of kind (values ++ filter_map (slice_get cells.now.values) places.now)) }
{
    match kind {
        IndexKind::MinMax => range_with(alloc, begun, cells, places),
        IndexKind::Set(limit) => set_with(alloc, limit, begun, cells, places),
    }
}

/// The least and the greatest of values, of which some have this range, and the others stand at these places.
///
/// `NoMemory` where an allocation failed.
fn range_with(
    alloc: Global,
    begun: &Known,
    cells: &ColumnData,
    places: &[u32],
) -> Result<Known, NoMemory>
    requires { All (λ place. place < length cells.now.values) places.now }
    ensures { (values : List Value) → values ≢ [] → begun.now ≡ range_of values → IfOk result
        (λ k. k ≡ range_of (values ++ filter_map (slice_get cells.now.values) places.now)) }
{
    let Known::Range(least, greatest) = begun else {
        return Ok(Known::Unknown);
    };
    let (least, _) = extremes(cells, Cell::of(least), places);
    let (_, greatest) = extremes(cells, Cell::of(greatest), places);
    Ok(Known::Range(least.to_value(alloc)?, greatest.to_value(alloc)?))
}

/// Each once of values, of which some are kept, and the others stand at these places, where they are no more than a set with this limit keeps.
///
/// `NoMemory` where an allocation failed.
fn set_with(
    alloc: Global,
    limit: u64,
    begun: &Known,
    cells: &ColumnData,
    places: &[u32],
) -> Result<Known, NoMemory>
    requires { All (λ place. place < length cells.now.values) places.now }
    ensures { (values : List Value) → begun.now ≡ set_of limit values → IfOk result
        (λ k. k ≡ set_of limit (values ++ filter_map (slice_get cells.now.values) places.now)) }
{
    let Known::List(kept) = begun else {
        return Ok(Known::Unknown);
    };
    set_from(alloc, limit, kept.as_slice(), cells, places)
}
