// Mutations applied to rows, one mutation after another (docs/definitions.md, "Mutations").
ghost use Rattle.std.specs.Prelude.{◌≡◌, OnOk, filter, map, not};
ghost use Rattle.mt_values.specs.Changes.{changed, mutated};
ghost use Rattle.mt_values.specs.Tests.{eval};
ghost use Rattle.on_fly.specs.Updates.{updated_if};

use crate::assigning::update_row;
use mt_base::NoMemory;
use mt_values::{Assignment, Change, Expr, Mutation, Row, Test};
use std::alloc::Global;

/// Applies mutations to rows, one after another.
///
/// `NoMemory` where an allocation failed; then the rows can only be given up.
#[tactic(auto, using(crate::proofs::Steps::mutated_more))]
pub fn apply(alloc: Global, mutations: &[Mutation], rows: &mut Vec<Row>) -> Result<(), NoMemory>
    ensures { OnOk result (rows.new.items ≡ mutated mutations.now rows.old.items) }
{
    for mutation in mutations {
        change_rows(alloc, &mutation.change, rows)?;
    }
    Ok(())
}

/// Applies one change to rows.
///
/// `NoMemory` where an allocation failed; then the rows can only be given up.
pub fn change_rows(alloc: Global, change: &Change, rows: &mut Vec<Row>) -> Result<(), NoMemory>
    ensures { OnOk result (rows.new.items ≡ changed change.now rows.old.items) }
{
    match change {
        Change::Delete(condition) => {
            delete_rows(condition, rows);
            Ok(())
        }
        Change::Update {
            assignments,
            condition,
        } => update_rows(
            alloc,
            assignments.as_slice(),
            condition,
            rows.as_mut_slice(),
        ),
    }
}

/// Drops the rows that meet a condition. Takes no memory.
fn delete_rows(condition: &Expr<Test>, rows: &mut Vec<Row>)
    ensures { rows.new.items ≡ filter (λ row. not (eval condition.now row)) rows.old.items }
{
    rows.retain(|row| !condition.eval(row));
}

/// Assigns in the rows that meet a condition.
///
/// `NoMemory` where an allocation failed; then the rows can only be given up.
fn update_rows(
    alloc: Global,
    assignments: &[Assignment],
    condition: &Expr<Test>,
    rows: &mut [Row],
) -> Result<(), NoMemory>
    ensures { OnOk result (rows.new ≡ map (updated_if assignments.now condition.now) rows.old) }
{
    for place in 0..rows.len() {
        update_if(alloc, assignments, condition, &mut rows[place])?;
    }
    Ok(())
}

/// Assigns in a row where it meets a condition.
///
/// `NoMemory` where an allocation failed; then the row can only be given up.
fn update_if(
    alloc: Global,
    assignments: &[Assignment],
    condition: &Expr<Test>,
    row: &mut Row,
) -> Result<(), NoMemory>
    ensures { OnOk result (row.new ≡ updated_if assignments.now condition.now row.old) }
{
    if condition.eval(row) {
        update_row(alloc, assignments, row)?;
    }
    Ok(())
}
