// The values of rows at some places.
ghost use Rattle.std.specs.Prelude.{◌≡◌, ◌++◌, ◌∷◌, [], IfOk, OnOk, map};
ghost use Rattle.mt_values.specs.Order.{key_of};

use mt_base::{NoMemory, Seq, Twin};
use mt_values::Row;
use std::alloc::Global;

/// The selected columns of rows, in their order.
pub fn picked_rows(alloc: Global, columns: &[u32], rows: &[Row]) -> Result<Vec<Row>, NoMemory>
    ensures { IfOk result (λ picked. picked.items ≡ map (key_of columns.now) rows.now) }
{
    let mut picked = Vec::new(alloc);
    for row in rows {
        picked.push(key_values(alloc, columns, row)?)?;
    }
    Ok(picked)
}

/// The values of a row at these places.
#[tactic(auto, using(crate::proofs::Rows::key_of_more))]
pub fn key_values(alloc: Global, places: &[u32], row: &Row) -> Result<Row, NoMemory>
    ensures { IfOk result (λ values. values ≡ key_of places.now row.now) }
{
    let mut values = Seq::new(alloc);
    for place in places {
        push_value(alloc, &mut values, row, *place as usize)?;
    }
    Ok(values)
}

/// Adds the value of a row at a place, where there is one.
pub(crate) fn push_value(
    alloc: Global,
    values: &mut Row,
    row: &Row,
    place: usize,
) -> Result<(), NoMemory>
    ensures { OnOk result (values.new ≡ values.old ++ key_of (place ∷ []) row.now) }
{
    if place < row.len() {
        values.push(row.at(place).twin(alloc)?)
    } else {
        Ok(())
    }
}
