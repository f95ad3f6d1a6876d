// What is assigned in one row of a block: read from its columns as they were.
ghost use Rattle.std.specs.Prelude.{◌≡◌, ◌<◌, [], IfOk, Some, get_or, length, slice_get};
ghost use Rattle.std.specs.Option.{option_map};
ghost use Rattle.mt_values.specs.declared.value.ColType.{ColType};
ghost use Rattle.mt_values.specs.Changes.{value_for};
ghost use Rattle.mt_values.specs.Sums.{less, plus};
ghost use Rattle.on_fly.specs.Updates.{HasType};

use mt_base::{NoMemory, Twin};
use mt_values::{Assigned, Block, Value, add_number, subtract_number};
use std::alloc::Global;

/// What is assigned in the row of a block at a place, from 0.
///
/// `NoMemory` where an allocation failed.
pub(crate) fn assigned_value(
    alloc: Global,
    assigned: &Assigned,
    block: &Block,
    row: usize,
) -> Result<Value, NoMemory>
    requires row { row < length block.now.rows }
    requires typed { (t : ColType) × HasType block.now.types t assigned.now }
    ensures { IfOk result (λ v. value_for (get_or block.now.rows row []) assigned.now ≡ Some v) }
{
    match assigned {
        Assigned::Literal(value) => value.twin(alloc),
        Assigned::Column(column) => value_at(alloc, block, *column, row),
        Assigned::Plus { column, number } => sum_at(alloc, block, *column, row, number),
        Assigned::Minus { column, number } => difference_at(alloc, block, *column, row, number),
    }
}

/// The value of the column of a block in a row, both by their places, from 0, with a number added.
///
/// `NoMemory` where an allocation failed.
fn sum_at(
    alloc: Global,
    block: &Block,
    column: u32,
    row: usize,
    number: &Value,
) -> Result<Value, NoMemory>
    requires column { column < length block.now.types }
    requires row { row < length block.now.rows }
    ensures { IfOk result (λ v. option_map (λ w. plus w number.now)
        (slice_get (get_or block.now.rows row []) column) ≡ Some v) }
{
    let mut sum = value_at(alloc, block, column, row)?;
    add_number(&mut sum, number);
    Ok(sum)
}

/// The value of the column of a block in a row, both by their places, from 0, with a number taken away.
///
/// `NoMemory` where an allocation failed.
fn difference_at(
    alloc: Global,
    block: &Block,
    column: u32,
    row: usize,
    number: &Value,
) -> Result<Value, NoMemory>
    requires column { column < length block.now.types }
    requires row { row < length block.now.rows }
    ensures { IfOk result (λ v. option_map (λ w. less w number.now)
        (slice_get (get_or block.now.rows row []) column) ≡ Some v) }
{
    let mut difference = value_at(alloc, block, column, row)?;
    subtract_number(&mut difference, number);
    Ok(difference)
}

/// The value of the column of a block in a row, both by their places, from 0.
///
/// `NoMemory` where an allocation failed.
fn value_at(alloc: Global, block: &Block, column: u32, row: usize) -> Result<Value, NoMemory>
    requires column { column < length block.now.types }
    requires row { row < length block.now.rows }
    ensures { IfOk result (λ v. slice_get (get_or block.now.rows row []) column ≡ Some v) }
{
    // Reading the length shows that the rows keep to the types of the columns.
    let _rows = block.len();
    block.column(column as usize).at(row).to_value(alloc)
}
