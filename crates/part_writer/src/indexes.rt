// The skip indexes of a table while its rows are written granule by granule (docs/formats.md, "Skip indexes").
ghost use Rattle.std.specs.Prelude.{◌≡◌, ◌≤◌, ◌<◌, ◌^◌, ◌++◌, [], All, IfOk, List, OnOk, length};
ghost use Rattle.mt_values.specs.Grid.{AreRowsOf, picked};
ghost use Rattle.mt_values.specs.Schemas.{column_types};
ghost use Rattle.mt_values.specs.Values.{Row};
ghost use Rattle.skip_index.specs.Blocks.{AreWhole};
ghost use Rattle.part_writer.specs.PartFiles.{HasIndexes, indexes_of};

use mt_base::NoMemory;
use mt_values::{Block, Schema};
use skip_index::{Index, add_granule, build};
use std::alloc::Global;

/// What the skip indexes keep of no rows.
///
/// `NoMemory` where an allocation failed.
pub(crate) fn empty_indexes(alloc: Global, schema: &Schema) -> Result<Vec<Index>, NoMemory>
    requires indexes { HasIndexes schema.now }
    requires few { length schema.now.indexes < 2 ^ 32 }
    ensures { IfOk result (λ v. v.items ≡ indexes_of schema.now []) }
{
    let types = schema.types(alloc)?;
    let none = Block::new(alloc, types.as_slice())?;
    let mut indexes = Vec::new(alloc);
    for place in 0..schema.indexes.len() {
        indexes.push(build(alloc, schema, place as u32, &none, &[])?)?;
    }
    Ok(indexes)
}

/// Adds a granule to what the skip indexes keep: the block's rows in this order, which come after those of which it is kept.
///
/// `NoMemory` where an allocation failed; nothing is known of the indexes then.
pub(crate) fn add_granules(
    alloc: Global,
    schema: &Schema,
    indexes: &mut [Index],
    block: &Block,
    order: &[u32],
) -> Result<(), NoMemory>
    requires indexes { HasIndexes schema.now }
    requires each { length indexes.old ≡ length schema.now.indexes }
    requires few_indexes { length schema.now.indexes < 2 ^ 32 }
    requires types { block.now.types ≡ column_types schema.now }
    requires places { All (λ place. place < length block.now.rows) order.now }
    requires some { 0 < length order.now }
    requires few { length order.now ≤ schema.now.granularity }
    ensures { (rows : List Row) → AreRowsOf (column_types schema.now) rows
        → AreWhole schema.now.granularity rows → indexes.old ≡ indexes_of schema.now rows
        → OnOk result (indexes.new ≡ indexes_of schema.now
        (rows ++ picked block.now.rows order.now)) }
{
    for place in 0..indexes.len() {
        add_granule(
            alloc,
            schema,
            place as u32,
            &mut indexes[place],
            block,
            order,
        )?;
    }
    Ok(())
}
