// One row more, folded into the values that are kept, each by the function of its column.
ghost use Rattle.std.specs.Prelude.{◌≡◌, ◌<◌, ℕ, None, OnOk, bit_and, bit_or, bit_xor, get_or, length, set};
ghost use Rattle.mt_values.specs.Values.{FitsType};
ghost use Rattle.rule_law.specs.mt_model.Rules.{function_or_first, joined_bits};
ghost use Rattle.rule_aggregating.specs.Folded.{FoldsAt, FoldsIn, any_value};

use mt_base::{NoMemory, Twin};
use mt_values::{Aggregate, Row, Value, add_number, cmp_value};
use std::alloc::Global;

/// Folds the values of a row into those that are kept.
///
/// `NoMemory` where a text could not be copied.
pub(crate) fn fold_row(
    alloc: Global,
    functions: &[Option<Aggregate>],
    kept: &mut [Value],
    row: &Row,
) -> Result<(), NoMemory>
    ensures count { OnOk result (length kept.new ≡ length kept.old) }
    ensures values { OnOk result ((place : ℕ) → place < length kept.old
        → FoldsAt functions.now kept.old row.now kept.new place) }
{
    for place in 0..kept.len() {
        fold_at(alloc, functions, kept, row, place)?;
    }
    Ok(())
}

/// Folds the value of a row at a place, from 0, into the one that is kept there.
///
/// `NoMemory` where a text could not be copied.
fn fold_at(
    alloc: Global,
    functions: &[Option<Aggregate>],
    kept: &mut [Value],
    row: &Row,
    place: usize,
) -> Result<(), NoMemory>
    requires { place < length kept.old }
    ensures value { OnOk result (FoldsAt functions.now kept.old row.now kept.new place) }
    ensures others { OnOk result (kept.new ≡ set kept.old place (get_or kept.new place any_value)) }
{
    let Some(value) = row.as_slice().get(place) else {
        return Ok(());
    };
    fold_in(
        alloc,
        function_at(functions, place),
        &mut kept[place],
        value,
    )
}

/// The function of the column at a place, from 0; where it has none, its first value stays.
fn function_at(functions: &[Option<Aggregate>], place: usize) -> Aggregate
    ensures { result ≡ function_or_first (get_or functions.now place None) }
{
    match functions.get(place) {
        Some(Some(function)) => *function,
        _ => Aggregate::Any,
    }
}

/// Folds one more value of a column into what its function made of those before.
///
/// `NoMemory` where a text could not be copied.
fn fold_in(
    alloc: Global,
    function: Aggregate,
    kept: &mut Value,
    value: &Value,
) -> Result<(), NoMemory>
    ensures { OnOk result (FoldsIn function kept.old value.now kept.new) }
{
    match function {
        Aggregate::Any => {}
        Aggregate::AnyLast => *kept = value.twin(alloc)?,
        Aggregate::Min => {
            if cmp_value(value, kept).is_lt() {
                *kept = value.twin(alloc)?;
            }
        }
        Aggregate::Max => {
            if cmp_value(kept, value).is_lt() {
                *kept = value.twin(alloc)?;
            }
        }
        Aggregate::Sum => add_number(kept, value),
        Aggregate::BitAnd => keep_shared_bits(kept, value),
        Aggregate::BitOr => add_bits(kept, value),
        Aggregate::BitXor => turn_bits(kept, value),
    }
    Ok(())
}

/// Reads the number of a value, which is in the range of its type.
pub(crate) fn read_number(value: &Value)
    ensures { FitsType value.now }
{
    match value {
        Value::UInt8(number) => {
            let _number = *number;
        }
        Value::UInt16(number) => {
            let _number = *number;
        }
        Value::UInt32(number) => {
            let _number = *number;
        }
        Value::UInt64(number) => {
            let _number = *number;
        }
        Value::Int8(number) => {
            let _number = *number;
        }
        Value::Int16(number) => {
            let _number = *number;
        }
        Value::Int32(number) => {
            let _number = *number;
        }
        Value::Int64(number) => {
            let _number = *number;
        }
        Value::Text(_) => {}
    }
}

/// Keeps the bits that a value of the same unsigned type has too; another value stays as it is.
fn keep_shared_bits(bits: &mut Value, value: &Value)
    ensures { bits.new ≡ joined_bits bit_and bits.old value.now }
{
    match (bits, value) {
        (Value::UInt8(m), Value::UInt8(n)) => *m &= *n,
        (Value::UInt16(m), Value::UInt16(n)) => *m &= *n,
        (Value::UInt32(m), Value::UInt32(n)) => *m &= *n,
        (Value::UInt64(m), Value::UInt64(n)) => *m &= *n,
        _ => {}
    }
}

/// Adds the bits of a value of the same unsigned type; another value stays as it is.
fn add_bits(bits: &mut Value, value: &Value)
    ensures { bits.new ≡ joined_bits bit_or bits.old value.now }
{
    match (bits, value) {
        (Value::UInt8(m), Value::UInt8(n)) => *m |= *n,
        (Value::UInt16(m), Value::UInt16(n)) => *m |= *n,
        (Value::UInt32(m), Value::UInt32(n)) => *m |= *n,
        (Value::UInt64(m), Value::UInt64(n)) => *m |= *n,
        _ => {}
    }
}

/// Turns the bits that a value of the same unsigned type has; another value stays as it is.
fn turn_bits(bits: &mut Value, value: &Value)
    ensures { bits.new ≡ joined_bits bit_xor bits.old value.now }
{
    match (bits, value) {
        (Value::UInt8(m), Value::UInt8(n)) => *m ^= *n,
        (Value::UInt16(m), Value::UInt16(n)) => *m ^= *n,
        (Value::UInt32(m), Value::UInt32(n)) => *m ^= *n,
        (Value::UInt64(m), Value::UInt64(n)) => *m ^= *n,
        _ => {}
    }
}
