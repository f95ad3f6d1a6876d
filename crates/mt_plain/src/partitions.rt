// The partitions of rows.
ghost use Rattle.std.specs.Prelude.{◌≡◌, IfOk, OnOk, slice_get};
ghost use Rattle.mt_values.specs.Tables as tables;
ghost use Rattle.part_history.specs.mt_model.Commands as commands;
ghost use Rattle.mt_plain.specs.Once.{among, once_more};

use mt_base::{NoMemory, Twin};
use mt_values::{Partition, Row, Schema, Value};
use std::alloc::Global;

/// The partition of a row: the number that it has in the partition column, where there is one.
pub(crate) fn partition_of(schema: &Schema, row: &Row) -> Partition
    ensures { result ≡ tables.partition_of schema.now row.now }
{
    match schema.partition {
        Some(place) => Partition::Number(number_at(row.as_slice(), place as usize)),
        None => Partition::Whole,
    }
}

/// The number of the value at a place; 0 where it is none of an unsigned type.
pub(crate) fn number_at(row: &[Value], place: usize) -> u64
    ensures { result ≡ tables.number_at (slice_get row.now place) }
{
    match row.get(place) {
        Some(Value::UInt8(n)) => u64::from(*n),
        Some(Value::UInt16(n)) => u64::from(*n),
        Some(Value::UInt32(n)) => u64::from(*n),
        Some(Value::UInt64(n)) => *n,
        _ => 0,
    }
}

/// Whether both are one partition.
pub fn same_partition(a: Partition, b: Partition) -> bool
    ensures { result ≡ tables.same_partition a b }
{
    match (a, b) {
        (Partition::Whole, Partition::Whole) => true,
        (Partition::Number(m), Partition::Number(n)) => m == n,
        _ => false,
    }
}

/// Whether a partition is one of these.
fn is_among(partition: Partition, others: &[Partition]) -> bool
    ensures { result ≡ among partition others.now }
{
    others.iter().any(|other| same_partition(*other, partition))
}

/// Adds a partition at the end of others, unless it is one of them.
fn add_once(found: &mut Vec<Partition>, partition: Partition) -> Result<(), NoMemory>
    ensures { OnOk result (found.new.items ≡ once_more partition found.old.items) }
{
    if is_among(partition, found) {
        return Ok(());
    }
    found.push(partition)?;
    Ok(())
}

/// The partitions of rows, each once, in the order in which they first occur.
pub fn partitions_of(
    alloc: Global,
    schema: &Schema,
    rows: &[Row],
) -> Result<Vec<Partition>, NoMemory>
    ensures { IfOk result (λ found. found.items ≡ commands.partitions_of schema.now rows.now) }
{
    let mut found = Vec::new(alloc);
    for row in rows {
        add_once(&mut found, partition_of(schema, row))?;
    }
    Ok(found)
}

/// The rows of one partition, in their order.
pub fn rows_in(
    alloc: Global,
    schema: &Schema,
    partition: Partition,
    rows: &[Row],
) -> Result<Vec<Row>, NoMemory>
    ensures { IfOk result (λ own. own.items ≡ commands.rows_in schema.now partition rows.now) }
{
    let mut own = Vec::new(alloc);
    for row in rows {
        if same_partition(partition_of(schema, row), partition) {
            own.push(row.twin(alloc)?)?;
        }
    }
    Ok(own)
}
