// The answers of SELECTs.
ghost use Rattle.std.specs.Prelude.{◌≡◌, ℕ, IfErr, IfOk, List, Ok, filter, length, map};
ghost use Rattle.mt_base.specs.Stops.{Refuses};
ghost use Rattle.part_history.specs.mt_model.Answer.{Answer};
ghost use Rattle.part_history.specs.mt_model.Queries.{query_of};
ghost use Rattle.part_history.specs.mt_model.Reply.{rows_reply};
ghost use Rattle.mt_values.specs.Order.{key_of};
ghost use Rattle.mt_values.specs.Tests.{eval};
ghost use Rattle.mt_plain.specs.Lefts.{reply_of};
ghost use Rattle.mt_plain.specs.Outcomes.{AreExactly};

use super::live::live_rows;
use crate::lefts::all_seen;
use crate::rules::Rows;
use crate::{Order, all_lines, picked_rows, rows_reply, sorted_rows};
use mt_base::{NoMemory, Seq, Stop, Twin};
use mt_values::{Bytes, Entry, Expr, Row, Schema, SelectText, Test};
use part_history::mt_model::{Query, Refusal, query_of};
use std::alloc::Global;

/// Every reply that a SELECT from a table of this schema may have at the end of a history, by what merges left; or what it is refused
/// for: the first name of it that is no column's, or else the first literal that does not belong to its column.
///
/// `Stop::NoMemory` as `all_seen` says, and for a table of 2^32 columns and more, which no legal history has.
pub(crate) fn answers(
    alloc: Global,
    entries: &[Entry],
    schema: &Schema,
    select: &SelectText,
) -> Result<Vec<Bytes>, Stop<Refusal>>
    ensures given { IfOk result (λ replies. AreExactly replies.items
        (λ reply. (lines : List (List ℕ)) × Answer entries.now schema.now select.now lines
        × (reply ≡ rows_reply lines (length entries.now)))) }
    ensures asked { IfOk result
        (λ _. (query : Query) × (query_of schema.now.columns select.now ≡ Ok query)) }
    ensures refused { IfErr result
        (Refuses (query_of schema.now.columns select.now)) }
{
    let columns = schema.columns.as_slice();
    if columns.len() > u32::MAX as usize {
        return Err(Stop::NoMemory);
    }
    let query = query_of(alloc, columns, select)?;
    let rows = live_rows(alloc, &select.table, schema, entries)?;
    let lefts = all_seen(alloc, schema, select.is_final, &rows)?;
    Ok(replies_of(alloc, &query, entries.len() as u64, &lefts)?)
}

/// The reply with the rows of each of some lists that a SELECT asks for. `place` is the length of the history.
fn replies_of(
    alloc: Global,
    query: &Query,
    place: u64,
    lefts: &[Rows],
) -> Result<Vec<Bytes>, NoMemory>
    ensures { IfOk result (λ replies. replies.items ≡ map (reply_of query.now place) lefts.now) }
{
    let mut replies = Vec::new(alloc);
    for rows in lefts {
        replies.push(reply_of(alloc, query, place, rows.as_slice())?)?;
    }
    Ok(replies)
}

/// The reply with the rows that a SELECT asks for. `place` is the length of the history.
fn reply_of(alloc: Global, query: &Query, place: u64, rows: &[Row]) -> Result<Bytes, NoMemory>
    ensures { IfOk result (λ reply. reply ≡ reply_of query.now place rows.now) }
{
    let picked = shown(alloc, query, rows)?;
    let ordered = sorted_rows(alloc, Order::Whole, picked)?;
    let lines = all_lines(alloc, &ordered)?;
    Ok(Seq::of(rows_reply(alloc, &lines, place)?))
}

/// What a SELECT shows of rows: its columns of those that meet its condition.
fn shown(alloc: Global, query: &Query, rows: &[Row]) -> Result<Vec<Row>, NoMemory>
    ensures { IfOk result (λ picked. picked.items ≡ map (key_of query.now.places)
        (filter (eval query.now.condition) rows.now)) }
{
    let found = met_by(alloc, &query.condition, rows)?;
    picked_rows(alloc, query.places.as_slice(), &found)
}

/// The rows that meet a condition, in their order.
fn met_by(alloc: Global, condition: &Expr<Test>, rows: &[Row]) -> Result<Vec<Row>, NoMemory>
    ensures { IfOk result (λ found. found.items ≡ filter (eval condition.now) rows.now) }
{
    let mut found = Vec::new(alloc);
    for row in rows {
        if condition.eval(row) {
            found.push(row.twin(alloc)?)?;
        }
    }
    Ok(found)
}
