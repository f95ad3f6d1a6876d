// AggregatingMergeTree: one row, with each column's function of its values (docs/engines.md, "AggregatingMergeTree").
ghost use Rattle.std.specs.Prelude.{◌≡◌, ◌<◌, IfOk, Some};
ghost use Rattle.std.specs.List.{fold, list_any, reduce};
ghost use Rattle.part_history.specs.mt_model.Rules.{AreAggregatesFrom, IsAggregateOf, IsBest, LeavesAggregates, function_or_first, joined_bits};
ghost use Rattle.mt_values.specs.declared.engine.Aggregate.TheVariants as aggregate;
ghost use Rattle.mt_plain.specs.Outcomes.{AreExactly, IsExactly, join_by, passes_by};

use crate::columns::values_at;
use crate::rules::{Rows, only, single};
use crate::sums::{total_of, wrapped_as};
use mt_base::{NoMemory, Seq, Twin};
use mt_values::{Aggregate, Row, Value, cmp_value};
use std::alloc::Global;

/// The one row that is left, where there are rows.
///
/// `NoMemory` where an allocation failed, or where a sum needs more than 128 bits.
pub(crate) fn aggregates_left(
    alloc: Global,
    functions: &[Option<Aggregate>],
    rows: &[Row],
) -> Result<Vec<Rows>, NoMemory>
    ensures { IfOk result
        (λ outs. AreExactly outs.items (LeavesAggregates functions.now rows.now)) }
{
    match aggregated(alloc, functions, rows)? {
        Some(row) => only(alloc, single(alloc, row)?),
        None => Ok(Vec::new(alloc)),
    }
}

/// The row whose values are what the columns' functions make of the rows' values, where there are rows.
///
/// `NoMemory` where an allocation failed, or where a sum needs more than 128 bits.
fn aggregated(
    alloc: Global,
    functions: &[Option<Aggregate>],
    rows: &[Row],
) -> Result<Option<Row>, NoMemory>
    ensures { IfOk result
        (λ found. IsExactly found (AreAggregatesFrom 0 functions.now rows.now)) }
{
    let mut row = Seq::new(alloc);
    for (place, function) in functions.iter().enumerate() {
        let column = values_at(alloc, place, rows)?;
        match aggregate_of(alloc, function_or_first(*function), column.as_slice())? {
            Some(value) => row.push(value)?,
            None => return Ok(None),
        }
    }
    Ok(Some(row))
}

/// The function of a column; of one without a function, the first value.
fn function_or_first(function: Option<Aggregate>) -> Aggregate
    ensures { result ≡ function_or_first function }
{
    match function {
        Some(own) => own,
        None => Aggregate::Any,
    }
}

/// What a function makes of values, where there are values.
///
/// `NoMemory` where an allocation failed, or where a sum needs more than 128 bits.
fn aggregate_of(
    alloc: Global,
    function: Aggregate,
    values: &[Value],
) -> Result<Option<Value>, NoMemory>
    ensures { IfOk result (λ found. IsExactly found (IsAggregateOf function values.now)) }
{
    match function {
        Aggregate::Any => first_value(alloc, values),
        Aggregate::AnyLast => last_value(alloc, values),
        Aggregate::Min => best_value(alloc, Aggregate::Min, values),
        Aggregate::Max => best_value(alloc, Aggregate::Max, values),
        Aggregate::Sum => sum_value(alloc, values),
        Aggregate::BitAnd => joined_value(alloc, Aggregate::BitAnd, values),
        Aggregate::BitOr => joined_value(alloc, Aggregate::BitOr, values),
        Aggregate::BitXor => joined_value(alloc, Aggregate::BitXor, values),
    }
}

/// The first value.
///
/// `NoMemory` where an allocation failed.
fn first_value(alloc: Global, values: &[Value]) -> Result<Option<Value>, NoMemory>
    ensures { IfOk result (λ found. IsExactly found (IsAggregateOf aggregate.Any values.now)) }
{
    match values.first() {
        Some(value) => Ok(Some(value.twin(alloc)?)),
        None => Ok(None),
    }
}

/// The last value.
///
/// `NoMemory` where an allocation failed.
fn last_value(alloc: Global, values: &[Value]) -> Result<Option<Value>, NoMemory>
    ensures { IfOk result
        (λ found. IsExactly found (IsAggregateOf aggregate.AnyLast values.now)) }
{
    match values.last() {
        Some(value) => Ok(Some(value.twin(alloc)?)),
        None => Ok(None),
    }
}

/// The least or the greatest value: the first that no other passes.
///
/// `NoMemory` where an allocation failed.
fn best_value(
    alloc: Global,
    function: Aggregate,
    values: &[Value],
) -> Result<Option<Value>, NoMemory>
    ensures { IfOk result (λ found. IsExactly found (IsBest (passes_by function) values.now)) }
{
    for value in values {
        if !is_passed(function, values, value) {
            return Ok(Some(value.twin(alloc)?));
        }
    }
    Ok(None)
}

/// Whether one of the values passes this one.
fn is_passed(function: Aggregate, values: &[Value], value: &Value) -> bool
    ensures { result ≡ list_any (λ other. passes_by function other value.now) values.now }
{
    values.iter().any(|other| passes(function, other, value))
}

/// Whether a value passes another for the least of values, or for the greatest.
fn passes(function: Aggregate, other: &Value, best: &Value) -> bool
    ensures { result ≡ passes_by function other.now best.now }
{
    match function {
        Aggregate::Min => cmp_value(other, best).is_lt(),
        _ => cmp_value(best, other).is_lt(),
    }
}

/// The sum, wrapped at the width of the first value.
///
/// `NoMemory` where an allocation failed, or where it needs more than 128 bits.
fn sum_value(alloc: Global, values: &[Value]) -> Result<Option<Value>, NoMemory>
    ensures { IfOk result (λ found. IsExactly found (IsAggregateOf aggregate.Sum values.now)) }
{
    match values.first() {
        Some(first) => Ok(Some(wrapped_as(alloc, first, total_of(values)?)?)),
        None => Ok(None),
    }
}

/// The values joined bit by bit.
///
/// `NoMemory` where an allocation failed.
fn joined_value(
    alloc: Global,
    function: Aggregate,
    values: &[Value],
) -> Result<Option<Value>, NoMemory>
    ensures { IfOk result (λ found. IsExactly found
        (λ v. reduce (joined_bits (join_by function)) values.now ≡ Some v)) }
{
    let found = joined_of(alloc, function, values)?;
    Ok(found)
}

/// The values joined bit by bit, where there are values.
///
/// `NoMemory` where an allocation failed.
fn joined_of(
    alloc: Global,
    function: Aggregate,
    values: &[Value],
) -> Result<Option<Value>, NoMemory>
    ensures { IfOk result
        (λ found. found ≡ reduce (joined_bits (join_by function)) values.now) }
{
    let Some((first, others)) = values.split_first() else {
        return Ok(None);
    };
    let joined = joined_to(alloc, function, first, others)?;
    Ok(Some(joined))
}

/// A value joined bit by bit to others.
///
/// `NoMemory` where an allocation failed.
#[tactic(auto, using(crate::proofs::Aggregating::fold_further))]
fn joined_to(
    alloc: Global,
    function: Aggregate,
    first: &Value,
    others: &[Value],
) -> Result<Value, NoMemory>
    ensures { IfOk result
        (λ joined. joined ≡ fold (joined_bits (join_by function)) first.now others.now) }
{
    let mut joined = first.twin(alloc)?;
    for other in others {
        join(function, &mut joined, other);
    }
    Ok(joined)
}

/// Joins the bits of one more value of the same unsigned type to others; another value changes nothing.
fn join(function: Aggregate, bits: &mut Value, value: &Value)
    ensures { bits.new ≡ joined_bits (join_by function) bits.old value.now }
{
    match (bits, value) {
        (Value::UInt8(m), Value::UInt8(n)) => {
            *m = joined(function, u64::from(*m), u64::from(*n)) as u8;
        }
        (Value::UInt16(m), Value::UInt16(n)) => {
            *m = joined(function, u64::from(*m), u64::from(*n)) as u16;
        }
        (Value::UInt32(m), Value::UInt32(n)) => {
            *m = joined(function, u64::from(*m), u64::from(*n)) as u32;
        }
        (Value::UInt64(m), Value::UInt64(n)) => *m = joined(function, *m, *n),
        _ => {}
    }
}

/// Two numbers joined bit by bit: those before the last bits, and then the last ones.
fn joined(function: Aggregate, m: u64, n: u64) -> u64
    ensures { result ≡ join_by function m n }
{
    if m == 0 && n == 0 {
        return 0;
    }
    joined(function, m / 2, n / 2) * 2 + joined_last(function, m % 2, n % 2)
}

/// Two bits joined: whether both are set, whether one is, or whether just one is.
fn joined_last(function: Aggregate, m: u64, n: u64) -> u64
    requires first { m < 2 }
    requires second { n < 2 }
    ensures { result ≡ join_by function m n }
{
    match function {
        Aggregate::BitAnd => m * n,
        Aggregate::BitOr => m.max(n),
        _ => (m + n) % 2,
    }
}
