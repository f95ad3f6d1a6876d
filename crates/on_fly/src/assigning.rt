// The assignments of an UPDATE in one row: each reads the row as it was.
ghost use Rattle.std.specs.Prelude.{◌≡◌, IfOk, OnOk, slice_get};
ghost use Rattle.std.specs.Option.{option_map};
ghost use Rattle.mt_values.specs.Changes.{updated, value_for, with_value};
ghost use Rattle.mt_values.specs.Sums.{less, plus};
ghost use Rattle.on_fly.specs.Updates.{assigned_from};

use mt_base::{NoMemory, Seq, Twin};
use mt_values::{Assigned, Assignment, Row, Value, add_number, subtract_number};
use std::alloc::Global;
use std::mem;

/// Puts what is assigned in its columns of a row.
///
/// `NoMemory` where an allocation failed; then the row can only be given up.
pub(crate) fn update_row(
    alloc: Global,
    assignments: &[Assignment],
    row: &mut Row,
) -> Result<(), NoMemory>
    ensures { OnOk result (row.new ≡ updated assignments.now row.old) }
{
    let old = mem::replace(row, Seq::new(alloc));
    let mut values = old.twin(alloc)?.into_vec();
    put_all(alloc, assignments, old.as_slice(), &mut values)?;
    *row = Seq::of(values);
    Ok(())
}

/// Puts what is assigned, read from a row, in its columns of the values.
///
/// `NoMemory` where an allocation failed; some of the first may have been put then.
#[tactic(auto, using(crate::proofs::Steps::put_more))]
fn put_all(
    alloc: Global,
    assignments: &[Assignment],
    row: &[Value],
    values: &mut Vec<Value>,
) -> Result<(), NoMemory>
    ensures { OnOk result (values.new.items
        ≡ assigned_from row.now assignments.now values.old.items) }
{
    for assignment in assignments {
        let value = value_for(alloc, row, &assignment.value)?;
        put_value(values, assignment.column, value);
    }
    Ok(())
}

/// What is assigned, read from a row; none where the column that it reads is not there.
fn value_for(alloc: Global, row: &[Value], assigned: &Assigned) -> Result<Option<Value>, NoMemory>
    ensures { IfOk result (λ value. value ≡ value_for row.now assigned.now) }
{
    match assigned {
        Assigned::Literal(value) => Ok(Some(value.twin(alloc)?)),
        Assigned::Column(column) => value_at(alloc, row, *column),
        Assigned::Plus { column, number } => Ok(sum_of(value_at(alloc, row, *column)?, number)),
        Assigned::Minus { column, number } => {
            Ok(difference_of(value_at(alloc, row, *column)?, number))
        }
    }
}

/// A copy of the value in a column of a row; none where the column is not there.
fn value_at(alloc: Global, row: &[Value], column: u32) -> Result<Option<Value>, NoMemory>
    ensures { IfOk result (λ value. value ≡ slice_get row.now column) }
{
    match row.get(column as usize) {
        Some(value) => Ok(Some(value.twin(alloc)?)),
        None => Ok(None),
    }
}

/// A value with a number added, where there is a value.
fn sum_of(value: Option<Value>, number: &Value) -> Option<Value>
    ensures { result ≡ option_map (λ v. plus v number.now) value }
{
    let mut sum = value?;
    add_number(&mut sum, number);
    Some(sum)
}

/// A value with a number taken away, where there is a value.
fn difference_of(value: Option<Value>, number: &Value) -> Option<Value>
    ensures { result ≡ option_map (λ v. less v number.now) value }
{
    let mut difference = value?;
    subtract_number(&mut difference, number);
    Some(difference)
}

/// Puts a value in a column, where there is a value and the column. Takes no memory.
#[tactic(auto, using(crate::proofs::Steps::set_past))]
fn put_value(values: &mut [Value], column: u32, value: Option<Value>)
    ensures { values.new ≡ with_value values.old column value }
{
    let Some(value) = value else {
        return;
    };
    if values.len() <= column as usize {
        return;
    }
    values[column as usize] = value;
}
