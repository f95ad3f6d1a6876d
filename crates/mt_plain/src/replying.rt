// Every reply that a statement may have.
ghost use Rattle.std.specs.Prelude.{◌≡◌, ◌∷◌, [], ℕ, IfOk, List, length, option_copied, take};
ghost use Rattle.std.specs.List.{Contains};
ghost use Rattle.mt_values.specs.declared.statement.Statement.TheVariants as statement;
ghost use Rattle.part_history.specs.mt_model.History.{History};
ghost use Rattle.part_history.specs.mt_model.Refusals.{refusal_line};
ghost use Rattle.part_history.specs.mt_model.Script.{IsNoExplain};
ghost use Rattle.part_history.specs.mt_model.Session.{Takes, TakesStatement};
ghost use Rattle.mt_plain.specs.Outcomes.{AreExactly};
ghost use Rattle.mt_plain.specs.Plain.{Grows, IsRepliedIn, calm, select_of};

use crate::running::{refused, reply_to};
use crate::schema_of;
use crate::selecting::answers;
use mt_base::{NoMemory, Seq, Stop, Twin};
use mt_values::{Bytes, Cause, Entry, SelectText, Statement};
use part_history::mt_model::Refusal;
use std::alloc::Global;

/// Runs one statement after the last entry of a history, over an outside without faults, and gives every reply that it may have there:
/// a SELECT may have several, by what merges left. Of an EXPLAIN it gives one.
///
/// `NoMemory` as `reply_to` and `all_seen` say.
pub fn replies_after(
    alloc: Global,
    history: &mut Vec<Entry>,
    statement: &Result<Statement, Cause>,
) -> Result<Vec<Bytes>, NoMemory>
    ensures each { IfOk result (λ replies. (reply : List ℕ) → Contains replies.items reply
        → Takes calm history.new.items 0 statement.now (length history.old.items)
        (length history.new.items) reply) }
    ensures all { IfOk result (λ replies. IsNoExplain statement.now
        → (g : History) (to : ℕ) (reply : List ℕ)
        → IsRepliedIn g history.old.items statement.now to reply
        → Contains replies.items reply × (take to g ≡ history.new.items)) }
    ensures grows { Grows history.old.items history.new.items }
{
    match select_of(statement) {
        Some(select) => select_replies(alloc, history, select),
        None => only_text(alloc, reply_to(alloc, history, statement)?),
    }
}

/// The SELECT that a statement is, if it is one.
fn select_of<'a>(statement: &'a Result<Statement, Cause>) -> Option<&'a SelectText>
    ensures { option_copied result ≡ select_of statement.now }
{
    match statement {
        Ok(Statement::Select(select)) => Some(select),
        Ok(Statement::Create(_)) => None,
        Ok(Statement::Insert(_)) => None,
        Ok(Statement::Explain(_)) => None,
        Ok(Statement::Optimize(_)) => None,
        Err(_) => None,
    }
}

/// Every reply that a SELECT may have at the end of a history.
///
/// `NoMemory` where an allocation failed, and as `answers` says.
fn select_replies(
    alloc: Global,
    history: &[Entry],
    select: &SelectText,
) -> Result<Vec<Bytes>, NoMemory>
    ensures { IfOk result (λ replies. AreExactly replies.items
        (TakesStatement calm history.now 0 (statement.Select select.now) (length history.now)
        (length history.now))) }
{
    let Some(schema) = schema_of(history, &select.table) else {
        return only_refused(alloc, Refusal::NoTable(select.table.twin(alloc)?));
    };
    match answers(alloc, history, schema, select) {
        Ok(replies) => Ok(replies),
        Err(Stop::Refused(refusal)) => only_refused(alloc, refusal),
        Err(Stop::NoMemory) => Err(NoMemory),
    }
}

/// The line of a refusal, as the only reply.
fn only_refused(alloc: Global, refusal: Refusal) -> Result<Vec<Bytes>, NoMemory>
    ensures { IfOk result (λ replies. replies.items ≡ refusal_line refusal ∷ []) }
{
    only_text(alloc, refused(alloc, refusal)?)
}

/// One text, as the only reply.
fn only_text(alloc: Global, text: Vec<u8>) -> Result<Vec<Bytes>, NoMemory>
    ensures { IfOk result (λ replies. replies.items ≡ text.items ∷ []) }
{
    let mut replies = Vec::new(alloc);
    replies.push(Seq::of(text))?;
    Ok(replies)
}
