// What skip indexes keep of rows, block by block.
ghost use Rattle.std.specs.Prelude.{◌≡◌, IfOk, OnOk, fold};
ghost use Rattle.std.specs.List.{list_any};
ghost use Rattle.part_history.specs.predicate.Indexes as indexes;

use crate::columns::values_at;
use crate::counting::granules;
use mt_base::{NoMemory, SET_LIMIT, Seq, Twin};
use mt_values::{IndexKind, Row, Schema, SkipIndex, Value, cmp_value};
use part_history::predicate::Known;
use std::alloc::Global;

/// What a skip index of a table keeps of rows, block by block.
///
/// `NoMemory` where an allocation failed.
#[tactic(auto, using(crate::proofs::Indexed::kept_more, crate::proofs::Tallying::granule_below))]
pub fn blocks_kept(
    alloc: Global,
    schema: &Schema,
    index: &SkipIndex,
    rows: &[Row],
) -> Result<Vec<Known>, NoMemory>
    ensures { IfOk result
        (λ kept. kept.items ≡ indexes.blocks_kept schema.now index.now rows.now) }
{
    let column = values_at(alloc, index.column as usize, rows)?;
    let values = column.as_slice();
    let size = schema.granularity as usize * index.granularity as usize;
    let mut kept = Vec::new(alloc);
    for block in 0..granules(size, values.len()) {
        let rest = &values[size * block..];
        kept.push(kept_of(alloc, index.kind, &rest[..size.min(rest.len())])?)?;
    }
    Ok(kept)
}

/// What a skip index of a kind keeps of the values of a block.
fn kept_of(alloc: Global, kind: IndexKind, values: &[Value]) -> Result<Known, NoMemory>
    ensures { IfOk result (λ known. known ≡ indexes.kept_of kind values.now) }
{
    match kind {
        IndexKind::MinMax => range_of(alloc, values),
        IndexKind::Set(limit) => set_of(alloc, limit, values),
    }
}

/// The least and the greatest of values; of no values nothing is known.
fn range_of(alloc: Global, values: &[Value]) -> Result<Known, NoMemory>
    ensures { IfOk result (λ known. known ≡ indexes.range_of values.now) }
{
    let Some((first, others)) = values.split_first() else {
        return Ok(Known::Unknown);
    };
    let least = least_of(first, others).twin(alloc)?;
    let greatest = greatest_of(first, others).twin(alloc)?;
    Ok(Known::Range(least, greatest))
}

/// The least of a value and others.
#[tactic(auto, using(crate::proofs::PredicateNarrowing::fold_further))]
fn least_of<'a>(first: &'a Value, others: &'a [Value]) -> &'a Value
    ensures { result.now ≡ fold indexes.lesser first.now others.now }
{
    let mut least = first;
    for other in others {
        least = lesser(least, other);
    }
    least
}

/// The greatest of a value and others.
#[tactic(auto, using(crate::proofs::PredicateNarrowing::fold_further))]
fn greatest_of<'a>(first: &'a Value, others: &'a [Value]) -> &'a Value
    ensures { result.now ≡ fold indexes.greater first.now others.now }
{
    let mut greatest = first;
    for other in others {
        greatest = greater(greatest, other);
    }
    greatest
}

/// The lesser of two values.
fn lesser<'a>(first: &'a Value, second: &'a Value) -> &'a Value
    ensures { result.now ≡ indexes.lesser first.now second.now }
{
    if cmp_value(second, first).is_lt() {
        return second;
    }
    first
}

/// The greater of two values.
fn greater<'a>(first: &'a Value, second: &'a Value) -> &'a Value
    ensures { result.now ≡ indexes.greater first.now second.now }
{
    if cmp_value(second, first).is_gt() {
        return second;
    }
    first
}

/// Each value once, where they are no more than a set with this limit keeps.
fn set_of(alloc: Global, limit: u64, values: &[Value]) -> Result<Known, NoMemory>
    ensures { IfOk result (λ known. known ≡ indexes.set_of limit values.now) }
{
    let distinct = distinct_of(alloc, values)?;
    if distinct.len() as u64 <= most_kept(limit) {
        Ok(Known::List(distinct))
    } else {
        Ok(Known::Unknown)
    }
}

/// The most values that a set with this limit keeps of a block.
fn most_kept(limit: u64) -> u64
    ensures { result ≡ indexes.most_kept limit }
{
    if limit == 0 { SET_LIMIT } else { limit }
}

/// Each value once, in the order in which they first occur.
#[tactic(auto, using(crate::proofs::PredicateNarrowing::fold_further))]
fn distinct_of(alloc: Global, values: &[Value]) -> Result<Seq<Value>, NoMemory>
    ensures { IfOk result (λ distinct. distinct ≡ indexes.distinct_of values.now) }
{
    let mut distinct = Seq::new(alloc);
    for value in values {
        add_new(alloc, &mut distinct, value)?;
    }
    Ok(distinct)
}

/// Adds a value, where it is none of these.
fn add_new(alloc: Global, values: &mut Seq<Value>, value: &Value) -> Result<(), NoMemory>
    ensures { OnOk result (values.new ≡ indexes.with_new values.old value.now) }
{
    if has_value(values.as_slice(), value) {
        return Ok(());
    }
    values.push(value.twin(alloc)?)
}

/// Whether one of these is this value.
fn has_value(values: &[Value], value: &Value) -> bool
    ensures { result ≡ list_any (indexes.same_value value.now) values.now }
{
    values.iter().any(|other| cmp_value(value, other).is_eq())
}
