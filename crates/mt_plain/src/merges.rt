// What rows of one key may come to by merges (docs/engines.md, "Merges").
ghost use Rattle.std.specs.Prelude.{◌≡◌, ◌++◌, IfOk, IsTrue, List, OnOk, map, ◌↔◌};
ghost use Rattle.std.specs.List.{Contains};
ghost use Rattle.mt_values.specs.Values.{Row};
ghost use Rattle.part_history.specs.mt_model.Folding.{ComesFrom, Merges, MergesTimes};
ghost use Rattle.part_history.specs.mt_model.Rules.{Run};
ghost use Rattle.mt_plain.specs.Outcomes.{AddsExactly, AreExactly, MergesFirst, MergesOneOf};

use crate::blocks::same_rows;
use crate::collapsing::begun_with;
use crate::rules::{Rows, add_rows, copied, only, runs};
use mt_base::{NoMemory, Twin};
use mt_values::{Aggregate, Engine, Row};
use std::alloc::Global;

/// Every list to which rows of one key may come by exactly this many merges, each once.
///
/// `NoMemory` where an allocation failed, or where a sum needs more than 128 bits.
pub fn merged(
    alloc: Global,
    engine: &Engine,
    functions: &[Option<Aggregate>],
    rows: &[Row],
    times: usize,
) -> Result<Vec<Rows>, NoMemory>
    ensures { IfOk result (λ outs. AreExactly outs.items
        (MergesTimes times (Run engine.now functions.now) rows.now)) }
{
    let mut lists = only(alloc, copied(alloc, rows)?)?;
    for _done in 0..times {
        lists = merged_once(alloc, engine, functions, &lists)?;
    }
    Ok(lists)
}

/// Every list to which rows of one key may come by any number of merges, each once.
///
/// `NoMemory` where an allocation failed, or where a sum needs more than 128 bits. And where there are new lists after more merges
/// than there are rows: of rows of a table there are none then, since a merge that changes some leaves fewer.
pub fn all_merged(
    alloc: Global,
    engine: &Engine,
    functions: &[Option<Aggregate>],
    rows: &[Row],
) -> Result<Vec<Rows>, NoMemory>
    ensures { IfOk result (λ outs. AreExactly outs.items
        (ComesFrom (Run engine.now functions.now) rows.now)) }
{
    let mut lists = only(alloc, copied(alloc, rows)?)?;
    for _done in 0..rows.len() + 1 {
        let more = merged_once(alloc, engine, functions, &lists)?;
        if are_among(&lists, &more) {
            return Ok(lists);
        }
        add_each(alloc, &mut lists, &more)?;
    }
    Err(NoMemory)
}

/// Whether each of some lists is one of these.
fn are_among(lists: &[Rows], others: &[Rows]) -> bool
    ensures { IsTrue result ↔ ((x : List Row) → Contains others.now x → Contains lists.now x) }
{
    for other in others {
        if !is_among(lists, other.as_slice()) {
            return false;
        }
    }
    true
}

/// Every list to which one of these may come by one merge, each once.
///
/// `NoMemory` where an allocation failed, or where a sum needs more than 128 bits.
fn merged_once(
    alloc: Global,
    engine: &Engine,
    functions: &[Option<Aggregate>],
    lists: &[Rows],
) -> Result<Vec<Rows>, NoMemory>
    ensures { IfOk result (λ outs. AreExactly outs.items
        (MergesOneOf (Run engine.now functions.now) lists.now)) }
{
    let mut found = Vec::new(alloc);
    for list in lists {
        let outs = merges_of(alloc, engine, functions, list.as_slice())?;
        add_each(alloc, &mut found, &outs)?;
    }
    Ok(found)
}

/// Adds lists, each unless it is one of those already.
///
/// `NoMemory` where an allocation failed.
pub(crate) fn add_each(alloc: Global, found: &mut Vec<Rows>, more: &[Rows]) -> Result<(), NoMemory>
    ensures { OnOk result (AddsExactly found.old.items found.new.items (Contains more.now)) }
{
    for list in more {
        add_new(found, list.twin(alloc)?)?;
    }
    Ok(())
}

/// Adds a list, unless it is one of those already.
///
/// `NoMemory` where an allocation failed.
fn add_new(found: &mut Vec<Rows>, list: Rows) -> Result<(), NoMemory>
    ensures { OnOk result (AddsExactly found.old.items found.new.items (λ x. list ≡ x)) }
{
    if is_among(found, list.as_slice()) {
        return Ok(());
    }
    found.push(list)?;
    Ok(())
}

/// Whether rows are one of these lists.
pub(crate) fn is_among(lists: &[Rows], rows: &[Row]) -> bool
    ensures { IsTrue result ↔ Contains lists.now rows.now }
{
    for list in lists {
        if same_rows(list.as_slice(), rows) {
            return true;
        }
    }
    false
}

/// Every list to which rows may come by one merge: of some that begin with the first, or of others after it.
///
/// `NoMemory` where an allocation failed, or where a sum needs more than 128 bits.
fn merges_of(
    alloc: Global,
    engine: &Engine,
    functions: &[Option<Aggregate>],
    rows: &[Row],
) -> Result<Vec<Rows>, NoMemory>
    ensures { IfOk result (λ outs. AreExactly outs.items
        (Merges (Run engine.now functions.now) rows.now)) }
{
    let Some((first, others)) = rows.split_first() else {
        return Ok(Vec::new(alloc));
    };
    let mut outs = first_merges(alloc, engine, functions, rows)?;
    let later = merges_of(alloc, engine, functions, others)?;
    let mut more = begun_with(alloc, first, &later)?;
    outs.append(&mut more)?;
    Ok(outs)
}

/// Every list to which rows may come by one merge of some that begin with the first.
///
/// `NoMemory` where an allocation failed, or where a sum needs more than 128 bits.
fn first_merges(
    alloc: Global,
    engine: &Engine,
    functions: &[Option<Aggregate>],
    rows: &[Row],
) -> Result<Vec<Rows>, NoMemory>
    ensures { IfOk result (λ outs. AreExactly outs.items
        (MergesFirst (Run engine.now functions.now) rows.now)) }
{
    let mut found = Vec::new(alloc);
    for place in 0..rows.len() {
        let (run, back) = rows.split_at(place + 1);
        let outs = runs(alloc, engine, functions, run)?;
        let mut more = ended_with(alloc, &outs, back)?;
        found.append(&mut more)?;
    }
    Ok(found)
}

/// Each list with these rows after its own.
///
/// `NoMemory` where an allocation failed.
fn ended_with(alloc: Global, lists: &[Rows], back: &[Row]) -> Result<Vec<Rows>, NoMemory>
    ensures { IfOk result (λ outs. outs.items ≡ map (λ list. list ++ back.now) lists.now) }
{
    let mut outs = Vec::new(alloc);
    for list in lists {
        let mut rows = list.twin(alloc)?;
        add_rows(alloc, &mut rows, back)?;
        outs.push(rows)?;
    }
    Ok(outs)
}
