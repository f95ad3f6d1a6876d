// How many values a set keeps of a block, cells that are each seen once, and the values that cells are.
ghost use Rattle.std.specs.Prelude.{◌≡◌, IfOk, map, not};
ghost use Rattle.std.specs.List.{list_any};
ghost use Rattle.mt_values.specs.Cells.{value_of};
ghost use Rattle.skip_index.specs.Blocks.{most_kept, same_value, with_new};

use indexmap::IndexSet;
use mt_base::{NoMemory, SET_LIMIT, Seq};
use mt_values::{Cell, Value};
use std::alloc::Global;

/// The most values that a set with this limit keeps of a block.
pub(crate) fn most_kept(limit: u64) -> u64
    ensures { result ≡ most_kept limit }
{
    if limit == 0 { SET_LIMIT } else { limit }
}

/// Adds a cell after those that were seen, where it is none of them, and answers whether it is so.
///
/// `NoMemory` where an allocation failed.
pub(crate) fn see<'a>(seen: &mut IndexSet<Cell<'a>>, cell: Cell<'a>) -> Result<bool, NoMemory>
    ensures fresh { IfOk result (λ fresh. fresh ≡ not
        (list_any (same_value (value_of cell.entry)) (map value_of seen.old.keys))) }
    ensures values { IfOk result (λ _. map value_of seen.new.keys
        ≡ with_new (map value_of seen.old.keys) (value_of cell.entry)) }
{
    Ok(seen.insert(cell)?)
}

/// The values that the cells are, in order.
///
/// `NoMemory` where an allocation failed.
pub(crate) fn values_of(alloc: Global, cells: &[Cell]) -> Result<Seq<Value>, NoMemory>
    ensures { IfOk result (λ values. values ≡ map value_of cells.now) }
{
    let mut values = Seq::with_capacity(alloc, cells.len())?;
    for cell in cells {
        values.push(cell.to_value(alloc)?)?;
    }
    Ok(values)
}
