// The boxes of granules, as lists of what is known of each column.
ghost use Rattle.std.specs.Prelude.{◌≡◌, ◌+◌, ◌≤◌, ◌^◌, ◌≤ℤ◌, ◌<ℤ◌, IfOk, IfSome, pos, slice_get};
ghost use Rattle.mt_values.specs.Literals as literals;
ghost use Rattle.part_history.specs.predicate.Granules as granules;

use mt_base::{NoMemory, Partition, Seq, Twin};
use mt_values::{ColType, Row, Schema, Value, cmp_value};
use part_history::predicate::{Extent, Known};
use std::alloc::Global;

/// The box of a partition's rows from one primary key up to another.
pub fn box_between(
    alloc: Global,
    schema: &Schema,
    partition: Partition,
    first: &Row,
    last: &Row,
) -> Result<Extent, NoMemory>
    ensures { IfOk result (λ found. found ≡ granules.box_between schema.now partition first.now
        last.now) }
{
    let keys = key_ranges(alloc, first, last)?;
    let mut columns = Seq::new(alloc);
    for place in 0..schema.columns.len() {
        columns.push(known_at(alloc, schema, partition, &keys, place)?)?;
    }
    Ok(Extent { columns })
}

/// What is known of the columns of the key between two keys, up to and with the first in which they differ.
fn key_ranges(alloc: Global, first: &Row, last: &Row) -> Result<Vec<Known>, NoMemory>
    ensures { IfOk result (λ keys. keys.items ≡ granules.key_ranges first.now last.now) }
{
    let others = last.as_slice();
    let mut keys = Vec::new(alloc);
    for (place, value) in first.as_slice().iter().enumerate() {
        let Some(other) = others.get(place) else {
            return Ok(keys);
        };
        keys.push(Known::Range(value.twin(alloc)?, other.twin(alloc)?))?;
        if cmp_value(value, other).is_ne() {
            return Ok(keys);
        }
    }
    Ok(keys)
}

/// What is known of the column at a place: of the partition column the partition's number, of the others by the keys.
fn known_at(
    alloc: Global,
    schema: &Schema,
    partition: Partition,
    keys: &[Known],
    place: usize,
) -> Result<Known, NoMemory>
    ensures { IfOk result (λ known. known ≡ granules.known_at schema.now partition keys.now place) }
{
    match partition {
        Partition::Whole => known_among(alloc, schema.primary.as_slice(), keys, place),
        Partition::Number(number) => {
            if parts_at(schema.partition, place) {
                return known_number(alloc, schema, place, number);
            }
            known_among(alloc, schema.primary.as_slice(), keys, place)
        }
    }
}

/// Whether this is the place of the partition column.
fn parts_at(partition: Option<u32>, place: usize) -> bool
    ensures { result ≡ granules.parts_at partition place }
{
    match partition {
        Some(own) => own as usize == place,
        None => false,
    }
}

/// What is known of the column at a place by the columns of the key, which stand at these places.
fn known_among(
    alloc: Global,
    places: &[u32],
    keys: &[Known],
    place: usize,
) -> Result<Known, NoMemory>
    ensures { IfOk result (λ known. known ≡ granules.known_among places.now keys.now place) }
{
    for (column, own) in places.iter().enumerate() {
        let Some(known) = keys.get(column) else {
            return Ok(Known::Unknown);
        };
        if *own as usize == place {
            return twin_of(alloc, known);
        }
    }
    Ok(Known::Unknown)
}

/// The same once more.
fn twin_of(alloc: Global, known: &Known) -> Result<Known, NoMemory>
    ensures { IfOk result (λ twin. twin ≡ known.now) }
{
    match known {
        Known::Range(least, greatest) => {
            Ok(Known::Range(least.twin(alloc)?, greatest.twin(alloc)?))
        }
        Known::List(values) => Ok(Known::List(values.twin(alloc)?)),
        Known::Unknown => Ok(Known::Unknown),
    }
}

/// What is known of the column at a place by the partition's number.
fn known_number(
    alloc: Global,
    schema: &Schema,
    place: usize,
    number: u64,
) -> Result<Known, NoMemory>
    ensures { IfOk result (λ known. known ≡ granules.known_number
        (slice_get schema.now.columns place) number) }
{
    let Some(column) = schema.columns.as_slice().get(place) else {
        return Ok(Known::Unknown);
    };
    match number_value(column.col_type, number) {
        Some(value) => Ok(Known::Range(value.twin(alloc)?, value)),
        None => Ok(Known::Unknown),
    }
}

/// The value that a number is in a column of a type, where it is in the type's range.
fn number_value(col_type: ColType, number: u64) -> Option<Value>
    ensures { result ≡ literals.number_value col_type (pos number) }
{
    Some(match col_type {
        ColType::UInt8 => Value::UInt8(natural_up_to(255, number)? as u8),
        ColType::UInt16 => Value::UInt16(natural_up_to(65535, number)? as u16),
        ColType::UInt32 => Value::UInt32(natural_up_to(4294967295, number)? as u32),
        ColType::UInt64 => Value::UInt64(number),
        ColType::Int8 => Value::Int8(integer_below(1 << 7, number)? as i8),
        ColType::Int16 => Value::Int16(integer_below(1 << 15, number)? as i16),
        ColType::Int32 => Value::Int32(integer_below(1 << 31, number)? as i32),
        ColType::Int64 => Value::Int64(integer_below(1 << 63, number)?),
        ColType::Text => return None,
    })
}

/// The number, where it is no greater than this.
fn natural_up_to(most: u64, number: u64) -> Option<u64>
    ensures value { result ≡ literals.natural_below (most + 1) (pos number) }
    ensures within { IfSome result (λ n. n ≤ most) }
{
    if number > most {
        return None;
    }
    Some(number)
}

/// The number with its sign, where it is below this.
fn integer_below(end: u64, number: u64) -> Option<i64>
    requires { end ≤ 2 ^ 63 }
    ensures value { result ≡ literals.integer_below end (pos number) }
    ensures within { IfSome result (λ z. (pos 0 ≤ℤ z) × (z <ℤ pos end)) }
{
    if number >= end {
        return None;
    }
    Some(number as i64)
}
