// The sums of rows in some of their columns, which wrap at each column's width (docs/engines.md, "Sums").
ghost use Rattle.std.specs.Prelude.{◌≡◌, ◌<◌, ◌∷◌, [], get_or, length, set, pos};
ghost use Rattle.std.specs.List.{slice_index_or};
ghost use Rattle.std.specs.Ordering.{int_eq};
ghost use Rattle.mt_values.specs.Cells.{value_of};
ghost use Rattle.rule_law.specs.mt_model.Rules.{are_zero, integer_of, is_one_of, summed, with_sums, wrapped_as};
ghost use Rattle.rule_summing.specs.Summed.{added_at, any_value, changed_from, is_zero_at};

use mt_values::{Block, Cell, Row, Value, add_number};

/// Sets the sums to those of no rows, which are 0, in the columns at these places alone.
pub(crate) fn clear_row(sums: &mut [Value], places: &[u32])
    ensures { sums.new ≡ with_sums places.now [] sums.old }
{
    for place in 0..sums.len() {
        clear_at(sums, places, place);
    }
}

/// Sets the sum at a place, from 0, to 0, where the column there is one of those at these places.
fn clear_at(sums: &mut [Value], places: &[u32], place: usize)
    requires { place < length sums.old }
    ensures { sums.new ≡ set sums.old place
        (summed (is_one_of places.now place) (get_or sums.old place any_value) []) }
{
    if has_place(places, place) {
        clear_number(&mut sums[place]);
    }
}

/// Sets a number to 0; a text stays as it is.
fn clear_number(sum: &mut Value)
    ensures { sum.new ≡ wrapped_as sum.old (pos 0) }
{
    match sum {
        Value::UInt8(n) => *n = 0,
        Value::UInt16(n) => *n = 0,
        Value::UInt32(n) => *n = 0,
        Value::UInt64(n) => *n = 0,
        Value::Int8(n) => *n = 0,
        Value::Int16(n) => *n = 0,
        Value::Int32(n) => *n = 0,
        Value::Int64(n) => *n = 0,
        Value::Text(_) => {}
    }
}

/// Adds a row's numbers to the sums, in the columns at these places alone.
pub(crate) fn add_row(sums: &mut [Value], places: &[u32], row: &Row)
    ensures { sums.new ≡ changed_from (added_at places.now row.now) 0 sums.old }
{
    for place in 0..sums.len() {
        add_at(sums, places, row, place);
    }
}

/// Adds a row's number to the sum at a place, from 0, where the column there is one of those at these places.
fn add_at(sums: &mut [Value], places: &[u32], row: &Row, place: usize)
    requires { place < length sums.old }
    ensures { sums.new ≡ set sums.old place
        (added_at places.now row.now place (get_or sums.old place any_value)) }
{
    let Some(value) = row.as_slice().get(place) else {
        return;
    };
    if has_place(places, place) {
        add_number(&mut sums[place], value);
    }
}

/// Whether a place is one of these.
fn has_place(places: &[u32], place: usize) -> bool
    ensures { result ≡ is_one_of places.now place }
{
    places.iter().any(|one| place == *one as usize)
}

/// Whether the columns at these places are all 0.
pub(crate) fn are_zero(row: &[Value], places: &[u32]) -> bool
    ensures { result ≡ are_zero places.now row.now }
{
    places.iter().all(|place| is_zero_at(row, *place))
}

/// Whether the column at a place, from 0, is 0; a text counts as 0.
fn is_zero_at(row: &[Value], place: u32) -> bool
    ensures { result ≡ is_zero_at row.now place }
{
    match row.get(place as usize) {
        Some(value) => is_zero(value),
        None => true,
    }
}

/// Whether the number of a value is 0; a text counts as 0.
fn is_zero(value: &Value) -> bool
    ensures { result ≡ int_eq (integer_of value.now) (pos 0) }
{
    match value {
        Value::UInt8(n) => *n == 0,
        Value::UInt16(n) => *n == 0,
        Value::UInt32(n) => *n == 0,
        Value::UInt64(n) => *n == 0,
        Value::Int8(n) => *n == 0,
        Value::Int16(n) => *n == 0,
        Value::Int32(n) => *n == 0,
        Value::Int64(n) => *n == 0,
        Value::Text(_) => true,
    }
}

/// Whether the columns at these places are all 0 in a row of a block.
pub(crate) fn are_zero_in(block: &Block, at: usize, places: &[u32]) -> bool
    requires { at < length block.now.rows }
    ensures { result ≡ are_zero places.now (slice_index_or block.now.rows at []) }
{
    places.iter().all(|place| is_zero_in(block, at, *place))
}

/// Whether the column at a place, from 0, is 0 in a row of a block; a text counts as 0.
fn is_zero_in(block: &Block, at: usize, place: u32) -> bool
    requires { at < length block.now.rows }
    ensures { result ≡ is_zero_at (slice_index_or block.now.rows at []) place }
{
    let rows = block.len();
    if place as usize >= block.width() {
        return true;
    }
    let column = block.column(place as usize);
    prove_eq!(column.len(), rows);
    is_zero_cell(column.at(at))
}

/// Whether the number of a cell is 0; a text counts as 0.
fn is_zero_cell(cell: Cell) -> bool
    ensures { result ≡ int_eq (integer_of (value_of cell.entry)) (pos 0) }
{
    match cell {
        Cell::UInt8(n) => n == 0,
        Cell::UInt16(n) => n == 0,
        Cell::UInt32(n) => n == 0,
        Cell::UInt64(n) => n == 0,
        Cell::Int8(n) => n == 0,
        Cell::Int16(n) => n == 0,
        Cell::Int32(n) => n == 0,
        Cell::Int64(n) => n == 0,
        Cell::Text(_) => true,
    }
}
