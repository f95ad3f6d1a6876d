// The columns whose values are no longer those that were stored (docs/definitions.md, "Mutations").
ghost use Rattle.std.specs.Prelude.{◌≡◌, ◌+◌, ℕ, IfOk, OnOk, false, length, slice_index_or, true};
ghost use Rattle.mt_values.specs.Changes.{is_assigned};
ghost use Rattle.on_fly.specs.Updates.{EndsMarked, Marks, MarksAll, MarksOne};

use mt_base::NoMemory;
use mt_values::{Assignment, Change, Mutation};
use std::alloc::Global;

/// Whether one of the mutations assigns the column at each place, from 0, up to the last column that one of them assigns.
///
/// `NoMemory` where an allocation failed.
pub fn unknown_columns(alloc: Global, mutations: &[Mutation]) -> Result<Vec<bool>, NoMemory>
    ensures columns { IfOk result (λ unknown. (place : ℕ)
        → slice_index_or unknown.items place false ≡ is_assigned mutations.now place) }
    ensures last { IfOk result (λ unknown. (place : ℕ)
        → length unknown.items ≡ place + 1 → is_assigned mutations.now place ≡ true) }
{
    let mut unknown = Vec::new(alloc);
    for mutation in mutations {
        mark_change(&mut unknown, &mutation.change)?;
    }
    Ok(unknown)
}

/// Marks the columns that a change assigns.
///
/// `NoMemory` where an allocation failed; some of them may be marked then.
#[tactic(auto, using(crate::proofs::Marking::or_false))]
fn mark_change(unknown: &mut Vec<bool>, change: &Change) -> Result<(), NoMemory>
    ensures marks { OnOk result (Marks change.now unknown.old.items unknown.new.items) }
    ensures ends { OnOk result (EndsMarked unknown.old.items → EndsMarked unknown.new.items) }
{
    match change {
        Change::Delete(_) => Ok(()),
        Change::Update { assignments, .. } => mark_all(unknown, assignments.as_slice()),
    }
}

/// Marks the columns of assignments.
///
/// `NoMemory` where an allocation failed; some of them may be marked then.
fn mark_all(unknown: &mut Vec<bool>, assignments: &[Assignment]) -> Result<(), NoMemory>
    ensures marks { OnOk result (MarksAll assignments.now unknown.old.items unknown.new.items) }
    ensures ends { OnOk result (EndsMarked unknown.old.items → EndsMarked unknown.new.items) }
{
    for assignment in assignments {
        mark(unknown, assignment.column)?;
    }
    Ok(())
}

/// Marks a column.
///
/// `NoMemory` where an allocation failed; no column is marked then that was not.
fn mark(unknown: &mut Vec<bool>, column: u32) -> Result<(), NoMemory>
    ensures marks { OnOk result (MarksOne column unknown.old.items unknown.new.items) }
    ensures ends { OnOk result (EndsMarked unknown.old.items → EndsMarked unknown.new.items) }
{
    'room: while unknown.len() <= column as usize {
        unknown.push(false)?;
    }
    unknown[column as usize] = true;
    Ok(())
}
