// SummingMergeTree: one of the rows with the sums (docs/engines.md, "Sums" and "SummingMergeTree").
ghost use Rattle.std.specs.Prelude.{◌≡◌, ◌∷◌, [], IfOk, if◌then◌else◌, pos};
ghost use Rattle.std.specs.Int.{int_wrap, w16, w32, w64, w8};
ghost use Rattle.std.specs.Ordering.{int_eq};
ghost use Rattle.mt_values.specs.Grid.{column_of};
ghost use Rattle.part_history.specs.mt_model.Rules.{LeavesSums, are_zero, integer_of, is_one_of, low_bits, summed, total, with_sums, wrapped_as};
ghost use Rattle.mt_plain.specs.Outcomes.{AreExactly};

use crate::columns::values_at;
use crate::rules::{Rows, single};
use mt_base::{NoMemory, Seq, Twin};
use mt_values::{Row, Value};
use std::alloc::Global;

/// Each of the rows may be left with the sums, or none where all sums are 0.
///
/// `NoMemory` where an allocation failed, or where a sum needs more than 128 bits.
pub(crate) fn sums_left(alloc: Global, places: &[u32], rows: &[Row]) -> Result<Vec<Rows>, NoMemory>
    ensures { IfOk result (λ outs. AreExactly outs.items (LeavesSums places.now rows.now)) }
{
    let mut outs = Vec::new(alloc);
    for carried in rows {
        outs.push(left_with_sums(alloc, places, rows, carried)?)?;
    }
    Ok(outs)
}

/// One row with the sums of all rows, or none where all sums are 0.
///
/// `NoMemory` where an allocation failed, or where a sum needs more than 128 bits.
fn left_with_sums(
    alloc: Global,
    places: &[u32],
    rows: &[Row],
    carried: &Row,
) -> Result<Rows, NoMemory>
    ensures { IfOk result (λ out. let row = with_sums places.now rows.now carried.now in
        out ≡ (if are_zero places.now row then [] else row ∷ [])) }
{
    let row = with_sums(alloc, places, rows, carried)?;
    if are_zero(places, &row) {
        return Ok(Seq::new(alloc));
    }
    single(alloc, row)
}

/// The row with the sums of all rows in the summed columns.
///
/// `NoMemory` where an allocation failed, or where a sum needs more than 128 bits.
fn with_sums(alloc: Global, places: &[u32], rows: &[Row], row: &Row) -> Result<Row, NoMemory>
    ensures { IfOk result (λ sums. sums ≡ with_sums places.now rows.now row.now) }
{
    let mut sums = Seq::new(alloc);
    for (place, value) in row.as_slice().iter().enumerate() {
        sums.push(summed_at(alloc, places, rows, place, value)?)?;
    }
    Ok(sums)
}

/// The value of a column at a place, or the sum of the rows' numbers there where it is summed.
///
/// `NoMemory` where an allocation failed, or where the sum needs more than 128 bits.
fn summed_at(
    alloc: Global,
    places: &[u32],
    rows: &[Row],
    place: usize,
    value: &Value,
) -> Result<Value, NoMemory>
    ensures { IfOk result (λ sum. sum ≡ summed (is_one_of places.now place) value.now
        (column_of place rows.now)) }
{
    if !is_one_of(places, place) {
        return value.twin(alloc);
    }
    let column = values_at(alloc, place, rows)?;
    let sum = total_of(column.as_slice())?;
    wrapped_as(alloc, value, sum)
}

/// Whether a place is one of these.
fn is_one_of(places: &[u32], place: usize) -> bool
    ensures { result ≡ is_one_of places.now place }
{
    places.iter().any(|own| place == *own as usize)
}

/// Whether all of these columns are 0.
fn are_zero(places: &[u32], row: &Row) -> bool
    ensures { result ≡ are_zero places.now row.now }
{
    places.iter().all(|place| is_zero_at(row, *place))
}

/// Whether a column is 0; a text counts as 0.
fn is_zero_at(row: &Row, place: u32) -> bool
    ensures { result ≡ int_eq (total (column_of place (row.now ∷ []))) (pos 0) }
{
    match row.as_slice().get(place as usize) {
        Some(value) => integer_of(value) == 0,
        None => true,
    }
}

/// The sum of the numbers, which does not wrap.
///
/// `NoMemory` where it needs more than 128 bits: no memory holds that many values.
#[tactic(auto, using(crate::proofs::Summing::total_more))]
pub(crate) fn total_of(values: &[Value]) -> Result<i128, NoMemory>
    ensures { IfOk result (λ sum. sum ≡ total values.now) }
{
    let mut sum: i128 = 0;
    for value in values {
        match sum.checked_add(integer_of(value)) {
            Some(more) => sum = more,
            None => return Err(NoMemory),
        }
    }
    Ok(sum)
}

/// The number that a value is; a text counts as 0.
fn integer_of(value: &Value) -> i128
    ensures { result ≡ integer_of value.now }
{
    match value {
        Value::UInt8(n) => i128::from(*n),
        Value::UInt16(n) => i128::from(*n),
        Value::UInt32(n) => i128::from(*n),
        Value::UInt64(n) => i128::from(*n),
        Value::Int8(n) => i128::from(*n),
        Value::Int16(n) => i128::from(*n),
        Value::Int32(n) => i128::from(*n),
        Value::Int64(n) => i128::from(*n),
        Value::Text(_) => 0,
    }
}

/// A number as a value of the type of another value, wrapped at its width; a text stays as it is.
///
/// `NoMemory` where an allocation failed.
pub(crate) fn wrapped_as(alloc: Global, value: &Value, number: i128) -> Result<Value, NoMemory>
    ensures { IfOk result (λ wrapped. wrapped ≡ wrapped_as value.now number) }
{
    match value {
        Value::UInt8(_) => Ok(Value::UInt8(wrapped_u8(number))),
        Value::UInt16(_) => Ok(Value::UInt16(wrapped_u16(number))),
        Value::UInt32(_) => Ok(Value::UInt32(wrapped_u32(number))),
        Value::UInt64(_) => Ok(Value::UInt64(wrapped_u64(number))),
        Value::Int8(_) => Ok(Value::Int8(wrapped_i8(number))),
        Value::Int16(_) => Ok(Value::Int16(wrapped_i16(number))),
        Value::Int32(_) => Ok(Value::Int32(wrapped_i32(number))),
        Value::Int64(_) => Ok(Value::Int64(wrapped_i64(number))),
        Value::Text(_) => value.twin(alloc),
    }
}

/// The number that is left of another in 8 bits.
fn wrapped_u8(number: i128) -> u8
    ensures { result ≡ low_bits 8 number }
{
    number.rem_euclid(256) as u8
}

/// The number that is left of another in 16 bits.
fn wrapped_u16(number: i128) -> u16
    ensures { result ≡ low_bits 16 number }
{
    number.rem_euclid(65536) as u16
}

/// The number that is left of another in 32 bits.
fn wrapped_u32(number: i128) -> u32
    ensures { result ≡ low_bits 32 number }
{
    number.rem_euclid(4294967296) as u32
}

/// The number that is left of another in 64 bits.
fn wrapped_u64(number: i128) -> u64
    ensures { result ≡ low_bits 64 number }
{
    number.rem_euclid(18446744073709551616) as u64
}

/// The number that is left of another in 8 bits, of which one is the sign.
fn wrapped_i8(number: i128) -> i8
    ensures { result ≡ int_wrap w8 number }
{
    wrapped_u8(number).cast_signed()
}

/// The number that is left of another in 16 bits, of which one is the sign.
fn wrapped_i16(number: i128) -> i16
    ensures { result ≡ int_wrap w16 number }
{
    wrapped_u16(number).cast_signed()
}

/// The number that is left of another in 32 bits, of which one is the sign.
fn wrapped_i32(number: i128) -> i32
    ensures { result ≡ int_wrap w32 number }
{
    wrapped_u32(number).cast_signed()
}

/// The number that is left of another in 64 bits, of which one is the sign.
fn wrapped_i64(number: i128) -> i64
    ensures { result ≡ int_wrap w64 number }
{
    wrapped_u64(number).cast_signed()
}
