// Which granules of a part a condition leaves, by what is kept of a skip index (docs/definitions.md, "Boxes of skip indexes").
//
// Each block is asked once, and each of its granules has the block's answer.
ghost use Rattle.std.specs.Prelude.{◌≡◌, ◌/◌, IfOk, map, slice_get};
ghost use Rattle.std.specs.List.{range_with_len};
ghost use Rattle.std.specs.Option.{unwrap_or};
ghost use Rattle.skip_index.specs.Choosing.{answers_of, chosen_by, is_unknown};

use crate::index::Index;
use mt_base::NoMemory;
use mt_values::{Expr, Test};
use predicate::{Known, may_match_column};
use std::alloc::Global;

/// Whether each granule of the part may have a row of which the condition is true, by what is kept of the index. The others need
/// not be read. Of a column that `unknown` says true of, by its place, the index says nothing.
///
/// `NoMemory` where an allocation failed.
pub fn choose(
    alloc: Global,
    index: &Index,
    condition: &Expr<Test>,
    unknown: &[bool],
) -> Result<Vec<bool>, NoMemory>
    ensures { IfOk result (λ v. v.items ≡ chosen_by index.now condition.now unknown.now) }
{
    let untold = may_match_column(condition, index.column, &Known::Unknown);
    let answers = block_answers(alloc, index, condition, unknown)?;
    spread(alloc, &answers, untold, index)
}

/// Whether `unknown` says true of the column at a place, counted from 0.
fn is_unknown(unknown: &[bool], column: u32) -> bool
    ensures { result ≡ is_unknown unknown.now column }
{
    match unknown.get(column as usize) {
        Some(says) => *says,
        None => false,
    }
}

/// Whether each block may have a row of which the condition is true; no answer where `unknown` says true of the index's column.
///
/// `NoMemory` where an allocation failed.
fn block_answers(
    alloc: Global,
    index: &Index,
    condition: &Expr<Test>,
    unknown: &[bool],
) -> Result<Vec<bool>, NoMemory>
    ensures { IfOk result (λ v. v.items ≡ answers_of index.now condition.now unknown.now) }
{
    if is_unknown(unknown, index.column) {
        return Ok(Vec::new(alloc));
    }
    let mut answers = Vec::with_capacity(alloc, index.blocks.len())?;
    for known in index.blocks.as_slice() {
        answers.push_reserved(may_match_column(condition, index.column, known));
    }
    Ok(answers)
}

/// The answer of its block for each granule of the part; of a block without an answer it is what is untold.
///
/// `NoMemory` where an allocation failed.
fn spread(
    alloc: Global,
    answers: &[bool],
    untold: bool,
    index: &Index,
) -> Result<Vec<bool>, NoMemory>
    ensures { IfOk result (λ v. v.items ≡ map
        (λ granule. unwrap_or (slice_get answers.now (granule / index.now.span)) untold)
        (range_with_len 0 index.now.granules)) }
{
    let mut spread = Vec::with_capacity(alloc, index.granules)?;
    for granule in 0..index.granules {
        let block = block_of(granule, index.span);
        spread.push_reserved(answer_at(answers, untold, block));
    }
    Ok(spread)
}

/// The block of a granule, counted from 0, where each block has this number of granules; the first where it is none.
fn block_of(granule: usize, span: u32) -> usize
    ensures { result ≡ granule / span }
{
    if span == 0 {
        return 0;
    }
    granule / span as usize
}

/// The answer of a block, counted from 0, where there is one; else what is untold.
fn answer_at(answers: &[bool], untold: bool, block: usize) -> bool
    ensures { result ≡ unwrap_or (slice_get answers.now block) untold }
{
    match answers.get(block) {
        Some(answer) => *answer,
        None => untold,
    }
}
