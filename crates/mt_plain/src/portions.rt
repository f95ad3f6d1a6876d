// The portions of a table: nothing was merged, so each INSERT is one.
ghost use Rattle.std.specs.Prelude.{◌≡◌, ◌+◌, ◌<◌, ◌≤◌, IfOk, OnOk};
ghost use Rattle.part_history.specs.mt_model.Explain as explain;
ghost use Rattle.mt_plain.specs.Portions as portions;

use super::sorting::sorted_rows;
use super::tables::draws;
use crate::{Order, rows_of};
use mt_base::NoMemory;
use mt_values::{Command, Entry, Insert, Name, Partition, Row, Schema};
use std::alloc::Global;
use std::marker::Model;

/// Rows of a table that are kept together: those of the INSERTs into one partition whose numbers lie in a range. No mutation was
/// applied to them. Contracts see the record of its parts.
#[derive(Drop)]
pub struct Portion {
    partition: Partition,
    least: usize,
    greatest: usize,
    rows: Vec<Row>,
}

impl Model for Portion {
    ghost use Rattle.part_history.specs.mt_model.Explain as explain;

    ghost Value = { explain.Portion };

    ghost view = { λ p. record {
      partition = p.partition;
      least = p.least;
      greatest = p.greatest;
      version = p.least;
      rows = p.rows.items;
    } };
}

impl Portion {
    /// The rows of the INSERTs into a partition whose numbers lie from `least` to `greatest`, as they were inserted.
    pub fn new(partition: Partition, least: usize, greatest: usize, rows: Vec<Row>) -> Self
        ensures { result ≡ record {
          partition = partition;
          least = least;
          greatest = greatest;
          version = least;
          rows = rows.items;
        } }
    {
        Portion {
            partition,
            least,
            greatest,
            rows,
        }
    }

    /// The partition of the rows.
    pub fn partition(&self) -> Partition
        ensures { result ≡ self.now.partition }
    {
        self.partition
    }

    /// The number up to which mutations were applied to the rows: the least, since none was.
    pub fn version(&self) -> usize
        ensures { result ≡ self.now.version }
    {
        self.least
    }

    /// The rows, in their order.
    pub fn rows(&self) -> &[Row]
        ensures { result.now ≡ self.now.rows }
    {
        self.rows.as_slice()
    }
}

/// The portions of a table of this schema after all commands, one for each INSERT into it, in the order of their numbers.
///
/// `NoMemory` where an allocation failed.
pub fn portions_of(
    alloc: Global,
    table: &Name,
    schema: &Schema,
    entries: &[Entry],
) -> Result<Vec<Portion>, NoMemory>
    ensures each { IfOk result
        (λ found. found.items ≡ portions.unmerged table.now schema.now entries.now) }
    ensures stand { IfOk result
        (λ found. explain.PortionsStand entries.now table.now schema.now found.items) }
{
    let mut found = Vec::new(alloc);
    let mut last = 0;
    for entry in entries {
        add_portion(alloc, table, schema, last, &mut found, &entry.command)?;
        last = last_after(table, last, &entry.command);
    }
    Ok(found)
}

/// Adds what a command adds to a table's portions, after the last number that was drawn.
fn add_portion(
    alloc: Global,
    table: &Name,
    schema: &Schema,
    last: usize,
    found: &mut Vec<Portion>,
    command: &Command,
) -> Result<(), NoMemory>
    requires { last < 18446744073709551615 }
    ensures { OnOk result (found.new.items ≡ portions.portions_after table.now schema.now last
        found.old.items command.now) }
{
    if let Command::Insert(insert) = command {
        if insert.table == *table {
            found.push(portion_of(alloc, schema, last + 1, insert)?)?;
        }
    }
    Ok(())
}

/// The last number of a table that was drawn, after one more command.
pub(crate) fn last_after(table: &Name, last: usize, command: &Command) -> usize
    requires { last < 18446744073709551615 }
    ensures last { result ≡ portions.last_after table.now last command.now }
    ensures few { result ≤ last + 1 }
{
    if draws(command, table) {
        return last + 1;
    }
    last
}

/// The portion of one INSERT with this number.
fn portion_of(
    alloc: Global,
    schema: &Schema,
    number: usize,
    insert: &Insert,
) -> Result<Portion, NoMemory>
    ensures { IfOk result (λ portion. portion ≡ portions.portion_of schema.now number insert.now) }
{
    let rows = rows_of(alloc, &insert.block)?;
    let rows = sorted_rows(alloc, Order::Table(schema), rows)?;
    Ok(Portion::new(insert.partition, number, number, rows))
}
