// The order of rows by some of their columns, also of rows that lack one.
ghost use Rattle.std.specs.Prelude.{◌≡◌, ◌≤◌, All, length};
ghost use Rattle.std.specs.List.{prefix_len};
ghost use Rattle.std.specs.Ordering.{is_le};
ghost use Rattle.mt_values.specs.Order.{HasPlaces, key_cmp};
ghost use Rattle.row_merge.specs.Merged.{rows_of};

use mt_values::{Row, cmp_value};
use std::cmp::Ordering;

/// How many of the rows, from the first on, do not come after a row by the columns at these places.
pub(crate) fn count_up_to(places: &[u32], rows: &[&Row], row: &Row) -> usize
    ensures within { result ≤ length rows.now }
    ensures count { HasPlaces places.now row.now → All (HasPlaces places.now) (rows_of rows.now)
        → result ≡ prefix_len (λ other. is_le (key_cmp places.now other row.now))
        (rows_of rows.now) }
{
    let mut count = 0;
    for other in rows {
        if cmp_rows(places, other, row).is_gt() {
            return count;
        }
        count += 1;
    }
    count
}

/// The order of two rows by the columns at these places, from 0, up to the first column that either of them lacks.
pub(crate) fn cmp_rows(places: &[u32], a: &Row, b: &Row) -> Ordering
    ensures { HasPlaces places.now a.now → HasPlaces places.now b.now
        → result ≡ key_cmp places.now a.now b.now }
{
    for place in places {
        let place = *place as usize;
        let (Some(x), Some(y)) = (a.as_slice().get(place), b.as_slice().get(place)) else {
            return Ordering::Equal;
        };
        let found = cmp_value(x, y);
        if found.is_ne() {
            return found;
        }
    }
    Ordering::Equal
}
