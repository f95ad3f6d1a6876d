// The answers of EXPLAINs.
ghost use Rattle.std.specs.Prelude.{◌≡◌, ℕ, IfErr, IfOk, Some};
ghost use Rattle.mt_base.specs.Stops.{Refuses};
ghost use Rattle.part_history.specs.mt_model.Explain.{Explains, explain_line};
ghost use Rattle.part_history.specs.mt_model.History as history;
ghost use Rattle.part_history.specs.mt_model.Queries.{query_of};

use super::mutations::mutations_of;
use super::portions::portions_of;
use crate::counts;
use mt_base::{NoMemory, Stop};
use mt_values::{Entry, Schema, SelectText};
use part_history::mt_model::{Counts, Refusal, query_of};
use std::alloc::Global;

/// The numbers of an EXPLAIN of a table of this schema, where nothing was merged; or what it is refused for, as a SELECT is.
///
/// `Stop::NoMemory` where an allocation failed, for a table of 2^32 columns and more, for 2^64 granules and more, and for a mutation
/// whose number is 2^32 or more, which no legal history has that a memory holds.
pub fn explained(
    alloc: Global,
    entries: &[Entry],
    schema: &Schema,
    asked: &SelectText,
) -> Result<Counts, Stop<Refusal>>
    ensures given { history.schema_of asked.now.table entries.now ≡ Some schema.now → IfOk result
        (λ counts. (to : ℕ) → Explains entries.now asked.now to (explain_line counts to)) }
    ensures refused { IfErr result
        (Refuses (query_of schema.now.columns asked.now)) }
{
    let columns = schema.columns.as_slice();
    if columns.len() > u32::MAX as usize {
        return Err(Stop::NoMemory);
    }
    let query = query_of(alloc, columns, asked)?;
    let mutations = mutations_of(alloc, &asked.table, entries)?;
    let portions = portions_of(alloc, &asked.table, schema, entries)?;
    Ok(counts(
        alloc,
        schema,
        &mutations,
        asked.is_final,
        &query.condition,
        &portions,
    )?)
}
