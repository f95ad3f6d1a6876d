// How rows compare.
ghost use Rattle.std.specs.Prelude.{◌≡◌, IfOk};
ghost use Rattle.mt_values.specs.Order.{row_cmp};
ghost use Rattle.mt_plain.specs.Order.{cmp_by};

use super::keys::key_values;
use mt_base::NoMemory;
use mt_values::{Row, Schema, cmp_value};
use std::alloc::Global;
use std::cmp::Ordering;

/// What rows are sorted by.
#[derive(Clone, Copy)]
pub enum Order<'a> {
    /// The order of a table's rows: by its sorting key, and then by the version that a key may lack.
    Table(&'a Schema),
    /// All values, from left to right.
    Whole,
}

/// How two rows compare.
pub fn compare(alloc: Global, order: Order, a: &Row, b: &Row) -> Result<Ordering, NoMemory>
    ensures { IfOk result (λ found. found ≡ cmp_by order.entry a.now b.now) }
{
    match order {
        Order::Table(schema) => {
            let places = schema.sorting_places(alloc)?;
            let first = key_values(alloc, places.as_slice(), a)?;
            let second = key_values(alloc, places.as_slice(), b)?;
            Ok(cmp_rows(&first, &second))
        }
        Order::Whole => Ok(cmp_rows(a, b)),
    }
}

/// The order of two rows by all their values: the first at which they differ decides.
fn cmp_rows(a: &Row, b: &Row) -> Ordering
    ensures { result ≡ row_cmp a.now b.now }
{
    let others = b.as_slice();
    for (place, value) in a.as_slice().iter().enumerate() {
        match others.get(place) {
            None => return Ordering::Greater,
            Some(other) => {
                let found = cmp_value(value, other);
                if found.is_ne() {
                    return found;
                }
            }
        }
    }
    if a.len() < b.len() {
        Ordering::Less
    } else {
        Ordering::Equal
    }
}
