// What FINAL may leave of rows of one key (docs/engines.md, "FINAL").
ghost use Rattle.std.specs.Prelude.{◌≡◌, IfOk, IsTrue, length, ◌↔◌};
ghost use Rattle.part_history.specs.mt_model.Folding.{Leaves};
ghost use Rattle.part_history.specs.mt_model.Rules.{Folds, Run, is_settled};
ghost use Rattle.mt_plain.specs.Outcomes.{AreExactly, FoldsWithin, LeavesAfter};

use crate::collapsing::alternate;
use crate::merges::{add_each, all_merged, is_among, merged};
use crate::rules::{Rows, only, runs};
use mt_base::{NoMemory, Seq};
use mt_values::{Aggregate, Engine, Row};
use std::alloc::Global;

/// Every list that FINAL may leave of at least one row of one key, each once.
///
/// `NoMemory` where an allocation failed, and as `all_merged` says.
pub fn all_folded(
    alloc: Global,
    engine: &Engine,
    functions: &[Option<Aggregate>],
    rows: &[Row],
) -> Result<Vec<Rows>, NoMemory>
    ensures { IfOk result
        (λ outs. AreExactly outs.items (Folds engine.now functions.now rows.now)) }
{
    if is_settled(engine, rows) {
        return runs(alloc, engine, functions, rows);
    }
    let lists = all_merged(alloc, engine, functions, rows)?;
    let mut outs = Vec::new(alloc);
    for list in &lists {
        let left = all_left(alloc, engine, functions, list.as_slice())?;
        add_each(alloc, &mut outs, &left)?;
    }
    Ok(outs)
}

/// Every list that a fold of rows may leave: of no rows none.
///
/// `NoMemory` where an allocation failed, or where a sum needs more than 128 bits.
fn all_left(
    alloc: Global,
    engine: &Engine,
    functions: &[Option<Aggregate>],
    rows: &[Row],
) -> Result<Vec<Rows>, NoMemory>
    ensures { IfOk result
        (λ outs. AreExactly outs.items (Leaves (Run engine.now functions.now) rows.now)) }
{
    if rows.is_empty() {
        return only(alloc, Seq::new(alloc));
    }
    runs(alloc, engine, functions, rows)
}

/// Whether FINAL may leave these rows of others of one key, after at most as many merges as there are of those.
///
/// `NoMemory` where an allocation failed, or where a sum needs more than 128 bits.
pub fn folds(
    alloc: Global,
    engine: &Engine,
    functions: &[Option<Aggregate>],
    rows: &[Row],
    out: &[Row],
) -> Result<bool, NoMemory>
    ensures exact { IfOk result (λ may. IsTrue may
        ↔ FoldsWithin (length rows.now) engine.now functions.now rows.now out.now) }
    ensures sound { IfOk result (λ may. IsTrue may
        → Folds engine.now functions.now rows.now out.now) }
{
    if is_settled(engine, rows) {
        return Ok(is_among(&runs(alloc, engine, functions, rows)?, out));
    }
    for times in 0..rows.len() + 1 {
        if leaves_after(alloc, engine, functions, rows, times, out)? {
            return Ok(true);
        }
    }
    Ok(false)
}

/// Whether merges at any times leave the fold as it is.
fn is_settled(engine: &Engine, rows: &[Row]) -> bool
    ensures { result ≡ is_settled engine.now rows.now }
{
    match engine {
        Engine::Collapsing(sign) => alternate(*sign, rows),
        _ => true,
    }
}

/// Whether these rows may be left of others after exactly this many merges and a fold of the rest.
///
/// `NoMemory` where an allocation failed, or where a sum needs more than 128 bits.
fn leaves_after(
    alloc: Global,
    engine: &Engine,
    functions: &[Option<Aggregate>],
    rows: &[Row],
    times: usize,
    out: &[Row],
) -> Result<bool, NoMemory>
    ensures { IfOk result (λ may. IsTrue may
        ↔ LeavesAfter times (Run engine.now functions.now) rows.now out.now) }
{
    let lists = merged(alloc, engine, functions, rows, times)?;
    for list in &lists {
        if leaves(alloc, engine, functions, list.as_slice(), out)? {
            return Ok(true);
        }
    }
    Ok(false)
}

/// Whether a fold of rows may leave these: of no rows none.
///
/// `NoMemory` where an allocation failed, or where a sum needs more than 128 bits.
fn leaves(
    alloc: Global,
    engine: &Engine,
    functions: &[Option<Aggregate>],
    rows: &[Row],
    out: &[Row],
) -> Result<bool, NoMemory>
    ensures { IfOk result (λ may. IsTrue may
        ↔ Leaves (Run engine.now functions.now) rows.now out.now) }
{
    if rows.is_empty() {
        return Ok(out.is_empty());
    }
    let outs = runs(alloc, engine, functions, rows)?;
    Ok(is_among(&outs, out))
}
