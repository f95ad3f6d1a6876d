// The live rows of a table.
ghost use Rattle.std.specs.Prelude.{◌≡◌, ◌++◌, IfOk, OnOk};
ghost use Rattle.mt_values.specs.declared.command.Command.TheVariants as command;
ghost use Rattle.mt_values.specs.declared.schema.Schema.{Schema};
ghost use Rattle.part_history.specs.mt_model.Live.{live, rows_after};

use super::sorting::sorted_rows;
use crate::{Order, rows_of};
use mt_base::NoMemory;
use mt_values::{Alter, Command, Entry, Insert, Name, Row, Schema};
use on_fly::change_rows;
use std::alloc::Global;

/// The rows of a table of this schema after all commands.
pub fn live_rows(
    alloc: Global,
    table: &Name,
    schema: &Schema,
    entries: &[Entry],
) -> Result<Vec<Row>, NoMemory>
    ensures { IfOk result (λ rows. rows.items ≡ live table.now schema.now entries.now) }
{
    let mut rows = Vec::new(alloc);
    for entry in entries {
        take_command(alloc, table, schema, &mut rows, &entry.command)?;
    }
    Ok(rows)
}

/// Leaves the rows of a table as one more command does: an INSERT adds to them, a mutation changes them.
fn take_command(
    alloc: Global,
    table: &Name,
    schema: &Schema,
    rows: &mut Vec<Row>,
    command: &Command,
) -> Result<(), NoMemory>
    ensures { OnOk result (rows.new.items ≡ rows_after table.now schema.now rows.old.items
        command.now) }
{
    match command {
        Command::Create(_) => Ok(()),
        Command::Insert(insert) => add_rows(alloc, table, schema, rows, insert),
        Command::Alter(alter) => alter_rows(alloc, table, rows, alter),
    }
}

/// Changes the rows as a mutation of a table does.
fn alter_rows(
    alloc: Global,
    table: &Name,
    rows: &mut Vec<Row>,
    alter: &Alter,
) -> Result<(), NoMemory>
    ensures { (schema : Schema) → OnOk result (rows.new.items ≡ rows_after table.now schema
        rows.old.items (command.Alter alter.now)) }
{
    if alter.table == *table {
        change_rows(alloc, &alter.change, rows)?;
    }
    Ok(())
}

/// Adds the rows of an INSERT into a table.
fn add_rows(
    alloc: Global,
    table: &Name,
    schema: &Schema,
    rows: &mut Vec<Row>,
    insert: &Insert,
) -> Result<(), NoMemory>
    ensures { OnOk result (rows.new.items ≡ rows_after table.now schema.now rows.old.items
        (command.Insert insert.now)) }
{
    if insert.table == *table {
        let mut added = sorted_rows(alloc, Order::Table(schema), rows_of(alloc, &insert.block)?)?;
        rows.append(&mut added)?;
    }
    Ok(())
}
