// Statements other than SELECTs, run at the end of a history.
ghost use Rattle.std.specs.Prelude.{◌≡◌, IfOk, None, length};
ghost use Rattle.mt_values.specs.declared.statement.Statement.TheVariants as statement;
ghost use Rattle.part_history.specs.mt_model.Refusals as refusals;
ghost use Rattle.part_history.specs.mt_model.Session.{Takes, TakesStatement};
ghost use Rattle.mt_plain.specs.Plain.{Grows, TookTurns, calm, select_of};

use super::commands::{create_commands, insert_commands};
use super::explaining::explained;
use super::turns::accept;
use crate::schema_of;
use mt_base::{NoMemory, Stop, Twin};
use mt_values::{
    Cause, Command, CreateText, Entry, InsertText, OptimizeText, SelectText, Statement,
};
use part_history::mt_model::{Refusal, explain_line, ok_line, refusal_line};
use std::alloc::Global;

/// Runs one statement that is no SELECT after the last entry of a history, over an outside without faults, and gives its reply.
///
/// `NoMemory` where an allocation failed, also for an EXPLAIN of a table of 2^32 columns and more and of 2^64 granules and more, which no
/// legal history has; some of the first commands may have been accepted then.
pub(crate) fn reply_to(
    alloc: Global,
    history: &mut Vec<Entry>,
    statement: &Result<Statement, Cause>,
) -> Result<Vec<u8>, NoMemory>
    requires { select_of statement.now ≡ None }
    ensures takes { IfOk result (λ reply. Takes calm history.new.items 0 statement.now
        (length history.old.items) (length history.new.items) reply.items) }
    ensures grows { Grows history.old.items history.new.items }
{
    match statement {
        Ok(Statement::Create(create)) => step_create(alloc, history, create),
        Ok(Statement::Insert(insert)) => step_insert(alloc, history, insert),
        Ok(Statement::Select(_)) => unreachable!(),
        Ok(Statement::Explain(asked)) => step_explain(alloc, history, asked),
        Ok(Statement::Optimize(asked)) => step_optimize(alloc, history, asked),
        Err(cause) => refused(alloc, Refusal::of_cause(*cause)),
    }
}

/// The line of a refusal.
pub(crate) fn refused(alloc: Global, refusal: Refusal) -> Result<Vec<u8>, NoMemory>
    ensures { IfOk result (λ line. line.items ≡ refusals.refusal_line refusal) }
{
    refusal_line(alloc, &refusal)
}

/// Runs a CREATE.
fn step_create(
    alloc: Global,
    history: &mut Vec<Entry>,
    create: &CreateText,
) -> Result<Vec<u8>, NoMemory>
    ensures takes { IfOk result (λ reply. TakesStatement calm history.new.items 0
        (statement.Create create.now) (length history.old.items) (length history.new.items)
        reply.items) }
    ensures grows { Grows history.old.items history.new.items }
{
    match create_commands(alloc, create) {
        Ok(commands) => take_turns(alloc, history, commands),
        Err(Stop::Refused(refusal)) => refused(alloc, refusal),
        Err(Stop::NoMemory) => Err(NoMemory),
    }
}

/// Runs an INSERT.
fn step_insert(
    alloc: Global,
    history: &mut Vec<Entry>,
    insert: &InsertText,
) -> Result<Vec<u8>, NoMemory>
    ensures takes { IfOk result (λ reply. TakesStatement calm history.new.items 0
        (statement.Insert insert.now) (length history.old.items) (length history.new.items)
        reply.items) }
    ensures grows { Grows history.old.items history.new.items }
{
    match insert_commands(alloc, history, insert) {
        Ok(commands) => take_turns(alloc, history, commands),
        Err(Stop::Refused(refusal)) => refused(alloc, refusal),
        Err(Stop::NoMemory) => Err(NoMemory),
    }
}

/// Accepts the commands of a statement, each at its turn, up to the first that is refused, and replies.
fn take_turns(
    alloc: Global,
    history: &mut Vec<Entry>,
    commands: Vec<Command>,
) -> Result<Vec<u8>, NoMemory>
    ensures took { IfOk result (λ reply. TookTurns commands.items history.old.items
        history.new.items reply.items) }
    ensures grows { Grows history.old.items history.new.items }
{
    match accept(alloc, history, commands)? {
        None => ok_line(alloc, history.len() as u64),
        Some(refusal) => refused(alloc, refusal),
    }
}

/// Answers an EXPLAIN.
fn step_explain(alloc: Global, history: &[Entry], asked: &SelectText) -> Result<Vec<u8>, NoMemory>
    ensures { IfOk result (λ reply. TakesStatement calm history.now 0 (statement.Explain asked.now)
        (length history.now) (length history.now) reply.items) }
{
    let Some(schema) = schema_of(history, &asked.table) else {
        return refused(alloc, Refusal::NoTable(asked.table.twin(alloc)?));
    };
    match explained(alloc, history, schema, asked) {
        Ok(counts) => explain_line(alloc, &counts, history.len() as u64),
        Err(Stop::Refused(refusal)) => refused(alloc, refusal),
        Err(Stop::NoMemory) => Err(NoMemory),
    }
}

/// Answers an OPTIMIZE: nothing is merged.
fn step_optimize(
    alloc: Global,
    history: &[Entry],
    asked: &OptimizeText,
) -> Result<Vec<u8>, NoMemory>
    ensures { IfOk result (λ reply. TakesStatement calm history.now 0
        (statement.Optimize asked.now) (length history.now) (length history.now) reply.items) }
{
    let Some(_schema) = schema_of(history, &asked.table) else {
        return refused(alloc, Refusal::NoTable(asked.table.twin(alloc)?));
    };
    ok_line(alloc, history.len() as u64)
}
