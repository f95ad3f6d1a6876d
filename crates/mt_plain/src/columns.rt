// The columns of rows.
ghost use Rattle.std.specs.Prelude.{◌≡◌, IfOk};
ghost use Rattle.mt_values.specs.Grid.{column_of};

use crate::keys::push_value;
use mt_base::{NoMemory, Seq};
use mt_values::Row;
use std::alloc::Global;

/// The values that rows have at a place, row by row.
#[tactic(auto, using(crate::proofs::Indexed::column_more))]
pub(crate) fn values_at(alloc: Global, place: usize, rows: &[Row]) -> Result<Row, NoMemory>
    ensures { IfOk result (λ values. values ≡ column_of place rows.now) }
{
    let mut values = Seq::new(alloc);
    for row in rows {
        push_value(alloc, &mut values, row, place)?;
    }
    Ok(values)
}
