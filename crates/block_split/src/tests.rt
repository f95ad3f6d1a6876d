// Blocks of 1,000 rows, each row in a partition of its own, or all in one: that a call answers where memory is ample, and
// the order of what it gives.
ghost use Rattle.std.specs.Prelude.{◌≡◌, ◌≤◌, ◌∷◌, [], IfOk};
ghost use Rattle.mt_values.specs.Schemas.{column_types};
ghost use Rattle.mt_values.specs.declared.value.ColType.TheVariants as type;

use crate::split_block;
use mt_base::{NoMemory, Partition, Seq};
use mt_values::{Block, Cell, ColType, Column, ColumnData, Engine, Schema};
use std::alloc::Global;
use std::test::Fail;

/// How many rows a block has.
const ROWS: u32 = 1000;

/// A table of two columns, its partition by the first.
fn table(alloc: Global) -> Result<Schema, NoMemory>
    ensures { IfOk result (λ s. column_types s ≡ type.UInt32 ∷ type.UInt32 ∷ []) }
{
    let mut columns = Seq::new(alloc);
    columns.push(Column {
        name: Seq::from_slice(alloc, b"a".as_slice())?,
        col_type: ColType::UInt32,
        function: None,
    })?;
    columns.push(Column {
        name: Seq::from_slice(alloc, b"b".as_slice())?,
        col_type: ColType::UInt32,
        function: None,
    })?;
    Ok(Schema {
        columns,
        engine: Engine::Plain,
        key: Seq::from_slice(alloc, [1].as_slice())?,
        primary: Seq::from_slice(alloc, [1].as_slice())?,
        partition: Some(0),
        granularity: 8192,
        indexes: Seq::new(alloc),
    })
}

/// Rows whose second column counts them, and whose first counts down to 1 where there are to be many partitions, and is 7
/// otherwise.
fn rows(alloc: Global, many: bool) -> Result<Block, NoMemory>
    ensures { IfOk result (λ b. b.types ≡ type.UInt32 ∷ type.UInt32 ∷ []) }
{
    let mut first = ColumnData::new(alloc, ColType::UInt32);
    let mut second = ColumnData::new(alloc, ColType::UInt32);
    for row in 0..ROWS {
        let number = if many { ROWS - row } else { 7 };
        first.push_cell(Cell::UInt32(number))?;
        second.push_cell(Cell::UInt32(row))?;
    }
    let mut columns = Vec::with_capacity(alloc, 2)?;
    columns.push_reserved(first);
    columns.push_reserved(second);
    Ok(Block::of_columns(columns, ROWS as usize))
}

/// The partitions of the split rows, and how many rows each has.
fn parts(alloc: Global, many: bool) -> Result<Vec<(Partition, usize)>, NoMemory> {
    let schema = table(alloc)?;
    let block = rows(alloc, many)?;
    let mut parts = Vec::new(alloc);
    if schema.check().is_ok() {
        for part in split_block(alloc, &schema, block)? {
            parts.push((part.partition, part.block.len()))?;
        }
    }
    Ok(parts)
}

#[test]
fn rows_of_many_partitions_are_split(rt: HostRuntime) -> Result<(), Fail> {
    let parts = parts(rt.alloc(), true)?;
    assert_eq!(rt; parts.len(), 1000);
    assert_eq!(rt; parts[0].0, Partition::Number(1000));
    assert_eq!(rt; parts[0].1, 1);
    assert_eq!(rt; parts[999].0, Partition::Number(1));
    Ok(())
}

#[test]
fn rows_of_one_partition_stay(rt: HostRuntime) -> Result<(), Fail> {
    let parts = parts(rt.alloc(), false)?;
    assert_eq!(rt; parts.len(), 1);
    assert_eq!(rt; parts[0].0, Partition::Number(7));
    assert_eq!(rt; parts[0].1, 1000);
    Ok(())
}
