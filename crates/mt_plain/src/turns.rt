// The turns of commands: which of them are accepted at the end of a history.
ghost use Rattle.std.specs.Prelude.{◌≡◌, IfOk};
ghost use Rattle.part_history.specs.mt_model.History as history;
ghost use Rattle.part_history.specs.mt_model.Numbers as numbers;
ghost use Rattle.part_history.specs.mt_model.Reply as reply;
ghost use Rattle.mt_plain.specs.Plain.{Grows, after_turns, unmerged_turn};

use crate::{creates, enter, inserts, last_number, schema_of};
use mt_base::{NUMBER_LIMIT, NoMemory, PART_LIMIT, TABLE_LIMIT, Twin};
use mt_values::{Command, Entry, Insert, Name};
use part_history::mt_model::{Bound, Refusal, Room};
use std::alloc::Global;

/// Accepts commands of session 0 at the end of a history, each at its turn, up to the first that is refused, and says why
/// that one is.
///
/// `NoMemory` where an allocation failed; some of the first commands may have been accepted then.
pub fn accept(
    alloc: Global,
    history: &mut Vec<Entry>,
    commands: Vec<Command>,
) -> Result<Option<Refusal>, NoMemory>
    ensures after { IfOk result (λ refused. after_turns 0 commands.items history.old.items ≡ record
        { history = history.new.items; refused = refused }) }
    ensures grows { Grows history.old.items history.new.items }
{
    let mut accepted = 0;
    for command in commands {
        if let Some(refusal) = turn(alloc, history, accepted, &command)? {
            return Ok(Some(refusal));
        }
        enter(history, command)?;
        accepted += 1;
    }
    Ok(None)
}

/// Why a command is refused at its turn, after so many of its statement's commands.
fn turn(
    alloc: Global,
    entries: &[Entry],
    accepted: usize,
    command: &Command,
) -> Result<Option<Refusal>, NoMemory>
    ensures { IfOk result (λ found. found ≡ unmerged_turn entries.now accepted command.now) }
{
    match command {
        Command::Create(create) => create_turn(alloc, entries, &create.table),
        Command::Insert(insert) => Ok(insert_turn(entries, accepted, insert)),
        Command::Alter(alter) => Ok(number_turn(entries, accepted, &alter.table)),
    }
}

/// Why a table of this name can't be made.
pub fn create_turn(
    alloc: Global,
    entries: &[Entry],
    table: &Name,
) -> Result<Option<Refusal>, NoMemory>
    ensures { IfOk result (λ found. found ≡ reply.create_turn table.now entries.now) }
{
    if schema_of(entries, table).is_some() {
        return Ok(Some(Refusal::TableExists(table.twin(alloc)?)));
    }
    if creates(entries) < TABLE_LIMIT {
        return Ok(None);
    }
    Ok(Some(Refusal::Past(Bound::Tables)))
}

/// Why a partition has no room for another INSERT, or its table no number for it.
fn insert_turn(entries: &[Entry], accepted: usize, insert: &Insert) -> Option<Refusal>
    ensures { result ≡ reply.insert_turn
        (history.inserts insert.now.table insert.now.partition entries.now)
        (numbers.last_number insert.now.table entries.now) accepted }
{
    let parts = inserts(entries, &insert.table, insert.partition);
    if parts >= PART_LIMIT {
        let room = Room::Parts;
        return Some(Refusal::Full { room, accepted });
    }
    number_turn(entries, accepted, &insert.table)
}

/// Why a table has no number for another command.
fn number_turn(entries: &[Entry], accepted: usize, table: &Name) -> Option<Refusal>
    ensures { result ≡ reply.number_turn (numbers.last_number table.now entries.now) accepted }
{
    if last_number(entries, table) >= NUMBER_LIMIT as usize {
        let room = Room::Numbers;
        return Some(Refusal::Full { room, accepted });
    }
    None
}
