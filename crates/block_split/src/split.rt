// A block split by the partitions of its table. What has one partition alone is handed on as it is.
ghost use Rattle.std.specs.Prelude.{◌≡◌, ◌<◌, All, IfOk, List, None, Some, length, map, true, ℕ};
ghost use Rattle.mt_model.specs.History.{IsInsertInto};
ghost use Rattle.mt_values.specs.Schemas.{column_types, schema_fault};
ghost use Rattle.mt_values.specs.Tables.{has_sign};
ghost use Rattle.mt_values.specs.Values.{AreValues};
ghost use Rattle.mt_values.specs.declared.schema.Schema.{Schema as TableSchema};
ghost use Rattle.block_split.specs.Split.{IsSplit, insert_of, partition_rows, split_rows};

use crate::PartitionBlock;
use crate::blocks::{grouped_blocks, only_block};
use crate::grouping::group_places;
use mt_base::{NoMemory, Partition};
use mt_values::{Block, Schema};
use std::alloc::Global;

/// The rows of a block by partition: a block for each partition, in the order in which the partitions first occur, with
/// all of its rows in their order. A block of one partition is handed on as it is.
///
/// `NoMemory` where an allocation failed; the rows are gone then.
pub fn split_block(
    alloc: Global,
    schema: &Schema,
    block: Block,
) -> Result<Vec<PartitionBlock>, NoMemory>
    requires schema { schema_fault schema.now ≡ None }
    requires types { block.types ≡ column_types schema.now }
    ensures blocks { IfOk result
        (λ v. map partition_rows v.items ≡ split_rows schema.now block.rows) }
    ensures types { IfOk result (λ v. All (λ b. b.block.types ≡ block.types) v.items) }
    ensures inserts { (table : List ℕ) → AreValues block.rows
        → All (λ row. has_sign schema.now row ≡ true) block.rows
        → IfOk result (λ v. All (λ b. IsInsertInto schema.now (insert_of table b)) v.items) }
{
    // Reading the length shows that the rows keep to the types of the columns.
    let _rows = block.len();
    match schema.partition {
        None => split_whole(alloc, block),
        Some(column) => split_by(alloc, column as usize, block),
    }
}

/// The rows of a table that has one partition alone.
///
/// `NoMemory` where there was none for the list.
fn split_whole(alloc: Global, block: Block) -> Result<Vec<PartitionBlock>, NoMemory>
    ensures { (schema : TableSchema) → schema.partition ≡ None
        → IfOk result (λ v. IsSplit schema block v.items) }
{
    if block.is_empty() {
        return Ok(Vec::new(alloc));
    }
    only_block(alloc, Partition::Whole, block)
}

/// The rows of a table that has its partition by a column.
///
/// `NoMemory` where an allocation failed.
fn split_by(alloc: Global, column: usize, block: Block) -> Result<Vec<PartitionBlock>, NoMemory>
    requires { column < length block.types }
    ensures { (schema : TableSchema) → schema.partition ≡ Some column
        → IfOk result (λ v. IsSplit schema block v.items) }
{
    let _rows = block.len();
    let groups = group_places(alloc, column, &block)?;
    if groups.len() == 1 {
        let number = groups[0].number;
        return only_block(alloc, Partition::Number(number), block);
    }
    grouped_blocks(alloc, &block, &groups)
}
