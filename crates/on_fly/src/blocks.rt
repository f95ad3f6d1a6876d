// Mutations applied to rows that are kept by columns: a condition is asked of all rows at once, and what is left is written
// column by column (docs/definitions.md, "Mutations").
ghost use Rattle.std.specs.Prelude.{◌≡◌, ◌<◌, ◌^◌, All, Bool, IfOk, OnOk, Some, filter, length, map, not, option_copied, slice_get};
ghost use Rattle.std.specs.List.{filter_map};
ghost use Rattle.mt_values.specs.declared.expr.Test.{Test};
ghost use Rattle.mt_values.specs.declared.mutation.Mutation.{Mutation};
ghost use Rattle.mt_values.specs.Changes.{changed, mutated};
ghost use Rattle.mt_values.specs.Conditions.{Condition};
ghost use Rattle.mt_values.specs.Grid.{column_of};
ghost use Rattle.mt_values.specs.Tests.{eval};
ghost use Rattle.mt_values.specs.Values.{Row};
ghost use Rattle.on_fly.specs.Updates.{FitsColumn, IsOfTypes, KeepsTypes, last_assigned, places_unmet, put_value, updated_if};

use crate::cells::assigned_value;
use mt_base::{NoMemory, Twin};
use mt_values::{Assigned, Assignment, Block, Change, ColumnData, Expr, Mutation, Test};
use predicate::mask_within;
use std::alloc::Global;

/// Applies mutations to the rows of a block, one after another.
///
/// `NoMemory` where an allocation failed; then the block can only be given up.
pub fn apply_block(alloc: Global, mutations: &[Mutation], block: &mut Block) -> Result<(), NoMemory>
    requires { All (λ (m : Mutation). KeepsTypes block.old.types m.change) mutations.now }
    ensures { OnOk result (block.new ≡ record block.old {
      rows = mutated mutations.now block.old.rows;
    }) }
{
    for mutation in mutations {
        *block = change_block(alloc, &mutation.change, block)?;
    }
    Ok(())
}

/// The rows of a block after one change.
///
/// `NoMemory` where an allocation failed.
fn change_block(alloc: Global, change: &Change, block: &Block) -> Result<Block, NoMemory>
    requires { KeepsTypes block.now.types change.now }
    ensures { IfOk result (λ b. b ≡ record block.now { rows = changed change.now block.now.rows }) }
{
    match change {
        Change::Delete(condition) => delete_in(alloc, condition, block),
        Change::Update {
            assignments,
            condition,
        } => update_in(alloc, assignments.as_slice(), condition, block),
    }
}

/// The rows of a block that don't meet a condition.
///
/// `NoMemory` where an allocation failed.
fn delete_in(alloc: Global, condition: &Expr<Test>, block: &Block) -> Result<Block, NoMemory>
    ensures { IfOk result (λ b. b ≡ record block.now {
      rows = filter (λ row. not (eval condition.now row)) block.now.rows;
    }) }
{
    // Reading the length shows that 32 bits count the rows.
    let _rows = block.len();
    let met = met_by(alloc, condition, block)?;
    let left = places_unmet(alloc, &met)?;
    block.pick(alloc, &left)
}

/// The rows of a block, with what is assigned in those that meet a condition.
///
/// `NoMemory` where an allocation failed.
fn update_in(
    alloc: Global,
    assignments: &[Assignment],
    condition: &Expr<Test>,
    block: &Block,
) -> Result<Block, NoMemory>
    requires { All (IsOfTypes block.now.types) assignments.now }
    ensures { IfOk result (λ b. b ≡ record block.now {
      rows = map (updated_if assignments.now condition.now) block.now.rows;
    }) }
{
    let rows = block.len();
    let met = met_by(alloc, condition, block)?;
    let mut columns = Vec::with_capacity(alloc, block.width())?;
    for place in 0..block.width() {
        columns.push_reserved(updated_column(alloc, assignments, &met, block, place)?);
    }
    Ok(Block::of_columns(columns, rows))
}

/// Whether each row of a block meets a condition.
///
/// `NoMemory` where an allocation failed.
fn met_by(alloc: Global, condition: &Expr<Test>, block: &Block) -> Result<Vec<bool>, NoMemory>
    ensures { IfOk result (λ met. met.items ≡ map (eval condition.now) block.now.rows) }
{
    mask_within(alloc, condition, block.columns(), 0, block.len())
}

/// The places, from 0, of the answers that are false.
///
/// `NoMemory` where an allocation failed.
fn places_unmet(alloc: Global, met: &[bool]) -> Result<Vec<u32>, NoMemory>
    requires { length met.now < 2 ^ 32 }
    ensures { IfOk result (λ places. places.items ≡ places_unmet met.now) }
{
    let mut places = Vec::new(alloc);
    for (place, is_met) in met.iter().enumerate() {
        if *is_met {
            continue;
        }
        places.push(place as u32)?;
    }
    Ok(places)
}

/// The column of a block at a place, from 0, with what is assigned to it in the rows whose answers are true.
///
/// `NoMemory` where an allocation failed.
fn updated_column(
    alloc: Global,
    assignments: &[Assignment],
    met: &[bool],
    block: &Block,
    place: usize,
) -> Result<ColumnData, NoMemory>
    requires place { place < length block.now.types }
    requires typed { All (IsOfTypes block.now.types) assignments.now }
    requires count { length met.now ≡ length block.now.rows }
    ensures col_type { IfOk result (λ c. slice_get block.now.types place ≡ Some c.col_type) }
    ensures values { (condition : Condition Test) → met.now ≡ map (eval condition) block.now.rows
        → IfOk result (λ c. c.values ≡ column_of place
        (map (updated_if assignments.now condition) block.now.rows)) }
{
    // Reading the length shows that the rows keep to the types of the columns.
    let _rows = block.len();
    match last_assigned(assignments, place) {
        Some(assigned) => assigned_column(alloc, assigned, met, block, place),
        None => block.column(place).twin(alloc),
    }
}

/// The column of a block at a place, from 0, with this assigned to it in the rows whose answers are true.
///
/// `NoMemory` where an allocation failed.
fn assigned_column(
    alloc: Global,
    assigned: &Assigned,
    met: &[bool],
    block: &Block,
    place: usize,
) -> Result<ColumnData, NoMemory>
    requires place { place < length block.now.types }
    requires typed { FitsColumn block.now.types place assigned.now }
    requires count { length met.now ≡ length block.now.rows }
    ensures col_type { IfOk result (λ c. slice_get block.now.types place ≡ Some c.col_type) }
    ensures values { (meets : Row → Bool) → met.now ≡ map meets block.now.rows
        → IfOk result (λ c. c.values ≡ filter_map
        (λ row. put_value place assigned.now (meets row) row) block.now.rows) }
{
    let rows = block.len();
    let old = block.column(place);
    let mut column = ColumnData::new(alloc, old.col_type());
    for row in 0..rows {
        if !met[row] {
            column.push_cell(old.at(row))?;
            continue;
        }
        column.push(assigned_value(alloc, assigned, block, row)?)?;
    }
    Ok(column)
}

/// What the column at a place, from 0, is assigned last.
fn last_assigned(assignments: &[Assignment], place: usize) -> Option<&Assigned>
    ensures { option_copied result ≡ last_assigned place assignments.now }
{
    let mut last = None;
    for assignment in assignments {
        if assignment.column as usize != place {
            continue;
        }
        last = Some(&assignment.value);
    }
    last
}
