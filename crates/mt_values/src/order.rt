// The order of values, and of rows by the sorting key.
ghost use Rattle.std.specs.Prelude.{◌≡◌, ◌<◌, ℕ, List, length, All, slice_get};
ghost use Rattle.std.specs.Cmp.{IsTotalOrder};
ghost use Rattle.mt_values.specs.declared.value.Value.{Value};
ghost use Rattle.mt_values.specs.declared.schema.Schema.{Schema};
ghost use Rattle.mt_values.specs.Order.{value_cmp, key_cmp, row_cmp, HasPlaces, IsExact};
ghost use Rattle.mt_values.specs.Tables.{sorting_cmp, sorting_columns};

use crate::sorting::cmp_cells;
use crate::{Cell, Row, Schema, Value};
use std::cmp::Ordering;

/// The order of two values: numbers as numbers, texts by bytes.
pub fn cmp_value(a: &Value, b: &Value) -> Ordering
    ensures { result ≡ value_cmp a.now b.now }
{
    cmp_cells(Cell::of(a), Cell::of(b))
}

/// The order of two rows of a table: by the sorting key, and then by the version where a versioned collapsing table's key lacks it.
pub fn cmp_key(schema: &Schema, a: &Row, b: &Row) -> Ordering
    requires first { HasPlaces (sorting_columns schema.now) a.now }
    requires second { HasPlaces (sorting_columns schema.now) b.now }
    ensures { result ≡ sorting_cmp schema.now a.now b.now }
{
    let found = cmp_by(schema.key.as_slice(), a, b);
    if found.is_ne() {
        return found;
    }
    match schema.added_version() {
        Some(version) => cmp_value(a.at(version as usize), b.at(version as usize)),
        None => Ordering::Equal,
    }
}

/// The order of two rows by the values at these places.
fn cmp_by(places: &[u32], a: &Row, b: &Row) -> Ordering
    requires first { HasPlaces places.now a.now }
    requires second { HasPlaces places.now b.now }
    ensures { result ≡ key_cmp places.now a.now b.now }
{
    for place in places {
        let found = cmp_value(a.at(*place as usize), b.at(*place as usize));
        if found.is_ne() {
            return found;
        }
    }
    Ordering::Equal
}

/// The orders of values, of rows by any places, of a table's rows and of whole rows are total.
pub fn orders_are_total()
    ensures values { IsTotalOrder value_cmp }
    ensures keys { (places : List ℕ) → IsTotalOrder (key_cmp places) }
    ensures tables { (schema : Schema) → IsTotalOrder (sorting_cmp schema) }
    ensures rows { IsTotalOrder row_cmp }
{}

/// Values that stand alike in the order are one value, and so are whole rows.
pub fn orders_are_exact()
    ensures values { IsExact value_cmp }
    ensures rows { IsExact row_cmp }
{}
