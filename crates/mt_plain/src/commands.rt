// The commands that statements give.
ghost use Rattle.std.specs.Prelude.{◌≡◌, ◌<◌, ◌^◌, Ok, IfErr, IfOk, length};
ghost use Rattle.mt_base.specs.Stops.{Refuses};
ghost use Rattle.mt_values.specs.declared.statement.Statement.TheVariants as statement;
ghost use Rattle.mt_values.specs.Grid.{AreRowsOf};
ghost use Rattle.part_history.specs.mt_model.Commands as commands;
ghost use Rattle.part_history.specs.mt_model.History as history;
ghost use Rattle.part_history.specs.mt_model.Reply as reply;

use crate::{partitions_of, rows_in, rows_of, schema_of};
use mt_base::{NoMemory, Stop, Twin};
use mt_values::{
    Block, Command, Create, CreateText, Entry, Insert, InsertText, Name, Partition, Row, Schema,
};
use part_history::mt_model::{Refusal, resolve};
use std::alloc::Global;
use tsv_rows::read_rows;

/// The command of a CREATE, or why its text refuses it.
pub fn create_commands(alloc: Global, create: &CreateText) -> Result<Vec<Command>, Stop<Refusal>>
    ensures given { IfOk result (λ v. commands.create_commands create.now.table
        (reply.schema_of_text create.now) ≡ Ok v.items) }
    ensures refused { IfErr result (Refuses
        (commands.create_commands create.now.table (reply.schema_of_text create.now))) }
{
    let schema = resolve(alloc, create)?;
    let table = create.table.twin(alloc)?;
    let mut commands = Vec::new(alloc);
    match commands.push(Command::Create(Create { table, schema })) {
        Ok(()) => Ok(commands),
        Err(_) => Err(Stop::NoMemory),
    }
}

/// The commands of an INSERT at the end of a history, one for each partition of its rows, or why its table or its data
/// refuses it.
pub fn insert_commands(
    alloc: Global,
    entries: &[Entry],
    insert: &InsertText,
) -> Result<Vec<Command>, Stop<Refusal>>
    ensures given { IfOk result
        (λ v. commands.commands_of entries.now (statement.Insert insert.now) ≡ Ok v.items) }
    ensures refused { IfErr result
        (Refuses (commands.commands_of entries.now (statement.Insert insert.now))) }
{
    let Some(schema) = schema_of(entries, &insert.table) else {
        return Err(Stop::Refused(Refusal::NoTable(insert.table.twin(alloc)?)));
    };
    let types = schema.types(alloc)?;
    let sign = schema.engine.sign_place();
    let lines = insert.lines.as_slice();
    let block = match read_rows(alloc, types.as_slice(), sign, lines, insert.ended) {
        Ok(block) => block,
        Err(Stop::Refused(fault)) => return Err(Stop::Refused(Refusal::of_data(fault))),
        Err(Stop::NoMemory) => return Err(Stop::NoMemory),
    };
    // Its length says that each row has a value of each column's type.
    prove!(block.len() < 4294967296);
    let rows = rows_of(alloc, &block)?;
    Ok(commands_of_rows(alloc, schema, &insert.table, &rows)?)
}

/// The commands that add rows to a table of this schema, one for each of their partitions.
fn commands_of_rows(
    alloc: Global,
    schema: &Schema,
    table: &Name,
    rows: &[Row],
) -> Result<Vec<Command>, NoMemory>
    requires typed { AreRowsOf (history.column_types schema.now) rows.now }
    requires few { length rows.now < 2 ^ 32 }
    ensures { IfOk result (λ v. v.items ≡ commands.insert_commands schema.now table.now rows.now) }
{
    let partitions = partitions_of(alloc, schema, rows)?;
    let mut commands = Vec::new(alloc);
    for partition in &partitions {
        commands.push(insert_command(alloc, schema, table, rows, *partition)?)?;
    }
    Ok(commands)
}

/// The command that adds those of the rows that are of one partition.
fn insert_command(
    alloc: Global,
    schema: &Schema,
    table: &Name,
    rows: &[Row],
    partition: Partition,
) -> Result<Command, NoMemory>
    requires typed { AreRowsOf (history.column_types schema.now) rows.now }
    requires few { length rows.now < 2 ^ 32 }
    ensures { IfOk result (λ command. command ≡ commands.insert_command schema.now table.now
        rows.now partition) }
{
    let types = schema.types(alloc)?;
    let own = rows_in(alloc, schema, partition, rows)?;
    let block = Block::from_rows(alloc, types.as_slice(), &own)?;
    let table = table.twin(alloc)?;
    Ok(Command::Insert(Insert {
        table,
        partition,
        block,
    }))
}
