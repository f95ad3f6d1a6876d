// ReplacingMergeTree: the last row, or the newest (docs/engines.md, "ReplacingMergeTree").
ghost use Rattle.std.specs.Prelude.{◌≡◌, ◌&&◌, IfOk};
ghost use Rattle.part_history.specs.mt_model.Rules.{LeavesLast, LeavesNewest, version_at};
ghost use Rattle.mt_plain.specs.Outcomes.{AreExactly, are_at_most, are_below};

use crate::partitions::number_at;
use crate::rules::{Rows, only, single};
use mt_base::{NoMemory, Twin};
use mt_values::Row;
use std::alloc::Global;

/// The last row is left, where there is one.
///
/// `NoMemory` where an allocation failed.
pub(crate) fn last_left(alloc: Global, rows: &[Row]) -> Result<Vec<Rows>, NoMemory>
    ensures { IfOk result (λ outs. AreExactly outs.items (LeavesLast rows.now)) }
{
    match rows.last() {
        Some(row) => only(alloc, single(alloc, row.twin(alloc)?)?),
        None => Ok(Vec::new(alloc)),
    }
}

/// The newest row is left: each row is tried.
///
/// `NoMemory` where an allocation failed.
pub(crate) fn newest_left(alloc: Global, version: u32, rows: &[Row]) -> Result<Vec<Rows>, NoMemory>
    ensures { IfOk result (λ outs. AreExactly outs.items (LeavesNewest version rows.now)) }
{
    let mut outs = Vec::new(alloc);
    for (place, row) in rows.iter().enumerate() {
        if !is_newest(version, &rows[..place], row, &rows[place + 1..]) {
            continue;
        }
        outs.push(single(alloc, row.twin(alloc)?)?)?;
    }
    Ok(outs)
}

/// Whether no row before this one has a greater version, and each after it a lesser one.
fn is_newest(version: u32, earlier: &[Row], row: &Row, later: &[Row]) -> bool
    ensures { result ≡ (are_at_most version (version_at version row.now) earlier.now
        && are_below version (version_at version row.now) later.now) }
{
    let number = version_of(version, row);
    are_at_most(version, number, earlier) && are_below(version, number, later)
}

/// Whether no version of the rows is greater than a number.
fn are_at_most(version: u32, number: u64, rows: &[Row]) -> bool
    ensures { result ≡ are_at_most version number rows.now }
{
    rows.iter().all(|row| version_of(version, row) <= number)
}

/// Whether each version of the rows is less than a number.
fn are_below(version: u32, number: u64, rows: &[Row]) -> bool
    ensures { result ≡ are_below version number rows.now }
{
    rows.iter().all(|row| version_of(version, row) < number)
}

/// The version of a row.
fn version_of(version: u32, row: &Row) -> u64
    ensures { result ≡ version_at version row.now }
{
    number_at(row.as_slice(), version as usize)
}
