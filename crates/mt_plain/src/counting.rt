// What an EXPLAIN counts, granule by granule.
ghost use Rattle.std.specs.Prelude.{◌≡◌, ◌+◌, IfOk};
ghost use Rattle.std.specs.List.{count_by, list_any};
ghost use Rattle.mt_values.specs.Granules as granules;
ghost use Rattle.part_history.specs.mt_model.Explain as explain;
ghost use Rattle.part_history.specs.predicate.Granules as boxes;
ghost use Rattle.mt_plain.specs.Portions as portions;

use super::boxes::box_between;
use super::mutations::pruning_indexes;
use super::narrowing::narrowed;
use crate::{Portion, picked_rows};
use mt_base::{NoMemory, Partition, Twin};
use mt_values::{Expr, Mutation, Row, Schema, Test};
use part_history::mt_model::Counts;
use part_history::predicate::may_match;
use std::alloc::Global;

/// The numbers of an EXPLAIN with this condition, with FINAL or without it, over portions of a table of this schema with these
/// mutations.
///
/// `NoMemory` where an allocation failed, and for 2^64 granules and more, which no memory holds.
pub fn counts(
    alloc: Global,
    schema: &Schema,
    mutations: &[Mutation],
    is_final: bool,
    condition: &Expr<Test>,
    portions: &[Portion],
) -> Result<Counts, NoMemory>
    ensures { IfOk result (λ counts. counts ≡ explain.counts_of schema.now mutations.now is_final
        condition.now portions.now) }
{
    let mut counts = Counts {
        chosen_parts: 0,
        parts: 0,
        chosen_granules: 0,
        granules: 0,
    };
    for portion in portions {
        let chosen = chosen_granules(alloc, schema, mutations, is_final, condition, portion)?;
        counts = with_part(&counts, &chosen)?;
    }
    Ok(counts)
}

/// The numbers over one part more, whose granules are chosen so.
fn with_part(counts: &Counts, chosen: &[bool]) -> Result<Counts, NoMemory>
    ensures { IfOk result (λ more. more ≡ portions.with_part counts.now chosen.now) }
{
    let own = usize::from(is_some(chosen));
    Ok(Counts {
        chosen_parts: sum(counts.chosen_parts, own)?,
        parts: sum(counts.parts, 1)?,
        chosen_granules: sum(counts.chosen_granules, count_of(chosen))?,
        granules: sum(counts.granules, chosen.len())?,
    })
}

/// Whether one of these is chosen.
fn is_some(chosen: &[bool]) -> bool
    ensures { result ≡ list_any (λ c. c) chosen.now }
{
    chosen.iter().any(|one| *one)
}

/// How many of these are chosen.
fn count_of(chosen: &[bool]) -> usize
    ensures { result ≡ count_by (λ c. c) chosen.now }
{
    chosen.iter().filter(|one| **one).count()
}

/// The sum of a count and what comes to it, where 64 bits hold it.
fn sum(count: u64, more: usize) -> Result<u64, NoMemory>
    ensures { IfOk result (λ sum. sum ≡ count + more) }
{
    match count.checked_add(more as u64) {
        Some(sum) => Ok(sum),
        None => Err(NoMemory),
    }
}

/// Which granules of a portion's rows a condition leaves: those that their marks choose and, without FINAL, each skip index of the table
/// whose column no mutation assigns for which the rows wait.
fn chosen_granules(
    alloc: Global,
    schema: &Schema,
    mutations: &[Mutation],
    is_final: bool,
    condition: &Expr<Test>,
    portion: &Portion,
) -> Result<Vec<bool>, NoMemory>
    ensures { IfOk result (λ chosen. chosen.items ≡ explain.chosen_granules schema.now
        mutations.now is_final condition.now portion.now) }
{
    let rows = portion.rows();
    let keys = mark_keys(alloc, schema, rows)?;
    let chosen = chosen_in(alloc, schema, portion.partition(), condition, &keys)?;
    if is_final {
        return Ok(chosen);
    }
    let indexes = pruning_indexes(alloc, schema, mutations, portion.version())?;
    narrowed(alloc, schema, &indexes, condition, rows, chosen)
}

/// Whether each granule is chosen, by the primary keys of their first rows and of the last row of all.
fn chosen_in(
    alloc: Global,
    schema: &Schema,
    partition: Partition,
    condition: &Expr<Test>,
    keys: &[Row],
) -> Result<Vec<bool>, NoMemory>
    ensures { IfOk result (λ chosen. chosen.items ≡ boxes.chosen_in schema.now partition
        condition.now keys.now) }
{
    let mut chosen = Vec::new(alloc);
    for granule in 0..keys.len().saturating_sub(1) {
        let extent = box_between(alloc, schema, partition, &keys[granule], &keys[granule + 1])?;
        chosen.push(may_match(condition, &extent))?;
    }
    Ok(chosen)
}

/// The primary keys of the rows with which granules begin, and of the last row.
fn mark_keys(alloc: Global, schema: &Schema, rows: &[Row]) -> Result<Vec<Row>, NoMemory>
    ensures { IfOk result (λ keys. keys.items ≡ granules.mark_keys schema.now.primary
        schema.now.granularity rows.now) }
{
    let mut marked = first_rows(alloc, schema.granularity, rows)?;
    if let Some(last) = rows.last() {
        marked.push(last.twin(alloc)?)?;
    }
    picked_rows(alloc, schema.primary.as_slice(), &marked)
}

/// The first row of each granule.
fn first_rows(alloc: Global, granularity: u32, rows: &[Row]) -> Result<Vec<Row>, NoMemory>
    ensures { IfOk result
        (λ firsts. firsts.items ≡ granules.granule_starts granularity rows.now) }
{
    let size = granularity as usize;
    let mut firsts = Vec::new(alloc);
    for granule in 0..granules(size, rows.len()) {
        firsts.push(rows[size * granule].twin(alloc)?)?;
    }
    Ok(firsts)
}

/// How many granules rows are parted into. A granule of no rows, which no legal schema has, is one of all rows.
pub(crate) fn granules(size: usize, count: usize) -> usize
    ensures { result ≡ granules.granules size count }
{
    if size == 0 {
        count.min(1)
    } else {
        count.div_ceil(size)
    }
}
