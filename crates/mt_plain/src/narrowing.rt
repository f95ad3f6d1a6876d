// Which granules a condition leaves by what skip indexes keep of rows.
ghost use Rattle.std.specs.Prelude.{◌≡◌, ◌/◌, IfOk, fold, length, map, slice_index_or};
ghost use Rattle.part_history.specs.predicate.Boxes as boxes;
ghost use Rattle.part_history.specs.predicate.Indexes as predicate;
ghost use Rattle.part_history.specs.predicate.Masks as masks;
ghost use Rattle.part_history.specs.predicate.declared.extent.Known.TheVariants as known;

use crate::counting::granules;
use crate::indexes::blocks_kept;
use mt_base::{NoMemory, Seq, Twin};
use mt_values::{Expr, Row, Schema, SkipIndex, Test};
use part_history::predicate::{Extent, Known, may_match};
use std::alloc::Global;

/// Of these answers for the granules of rows, those that each of these skip indexes leaves too.
///
/// `NoMemory` where an allocation failed.
pub fn narrowed(
    alloc: Global,
    schema: &Schema,
    indexes: &[SkipIndex],
    condition: &Expr<Test>,
    rows: &[Row],
    chosen: Vec<bool>,
) -> Result<Vec<bool>, NoMemory>
    ensures { IfOk result (λ left. left.items ≡ fold masks.both chosen.items
        (map (predicate.chosen_by_index schema.now condition.now rows.now) indexes.now)) }
{
    let mut left = chosen;
    for index in indexes {
        let own = chosen_by_index(alloc, schema, condition, rows, index)?;
        left = both(alloc, &left, &own)?;
    }
    Ok(left)
}

/// Whether a skip index of a table leaves each granule of rows.
///
/// `NoMemory` where an allocation failed.
#[tactic(auto, using(crate::proofs::Indexed::chosen_more))]
pub fn chosen_by_index(
    alloc: Global,
    schema: &Schema,
    condition: &Expr<Test>,
    rows: &[Row],
    index: &SkipIndex,
) -> Result<Vec<bool>, NoMemory>
    ensures { IfOk result (λ chosen. chosen.items ≡ predicate.chosen_by_index schema.now
        condition.now rows.now index.now) }
{
    let kept = blocks_kept(alloc, schema, index, rows)?;
    let mut chosen = Vec::new(alloc);
    for granule in 0..granules(schema.granularity as usize, rows.len()) {
        let block = block_at(index.granularity, granule);
        let extent = only_column(alloc, index.column, kept_at(alloc, &kept, block)?)?;
        chosen.push(may_match(condition, &extent))?;
    }
    Ok(chosen)
}

/// The block in which a granule is, both counted from 0. Blocks of no granules, which no legal schema has, are one.
fn block_at(span: u32, granule: usize) -> usize
    ensures { result ≡ granule / span }
{
    if span == 0 {
        0
    } else {
        granule / span as usize
    }
}

/// What is kept of a block; past the last there is nothing.
fn kept_at(alloc: Global, kept: &[Known], block: usize) -> Result<Known, NoMemory>
    ensures { IfOk result (λ one. one ≡ slice_index_or kept.now block known.Unknown) }
{
    match kept.get(block) {
        Some(one) => one.twin(alloc),
        None => Ok(Known::Unknown),
    }
}

/// The box in which this is known of the column at a place, and nothing of the others.
#[tactic(auto, using(crate::proofs::Indexed::unknown_more))]
fn only_column(alloc: Global, column: u32, kept: Known) -> Result<Extent, NoMemory>
    ensures { IfOk result (λ extent. extent ≡ boxes.only_column column kept) }
{
    let mut columns = Seq::new(alloc);
    for _place in 0..column {
        columns.push(Known::Unknown)?;
    }
    columns.push(kept)?;
    Ok(Extent { columns })
}

/// The answers that are true in both lists, as far as both go.
#[tactic(auto, using(crate::proofs::PredicateNarrowing::both_next, crate::proofs::PredicateNarrowing::both_past))]
fn both(alloc: Global, some: &[bool], others: &[bool]) -> Result<Vec<bool>, NoMemory>
    ensures { IfOk result (λ answers. answers.items ≡ masks.both some.now others.now) }
{
    let mut answers = Vec::new(alloc);
    for (place, one) in some.iter().enumerate() {
        let Some(other) = others.get(place) else {
            return Ok(answers);
        };
        answers.push(*one && *other)?;
    }
    Ok(answers)
}
