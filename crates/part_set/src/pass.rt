// The visible parts of one table, in one pass over its parts.
ghost use Rattle.std.specs.Prelude.{◌≡◌, ◌↔◌, IfOk, IfSome, IfNone, IsTrue};
ghost use Rattle.std.specs.List.{All};
ghost use Rattle.std.specs.List.Sorted.{IsPermutation};
ghost use Rattle.part_set.specs.Passes.{AreShown, Clash, IsInPassOrder, IsPlainName, StandsAs, pass_order};
ghost use Rattle.part_set.specs.Shelf.{all_parts};

use crate::Kept;
use crate::order::partition_rank;
use crate::tables::TableParts;
use mt_base::NoMemory;
use part_name::{PartName, Stand, stand_to};
use std::alloc::Global;
use std::cmp::Ordering;

// Block order, and of those that begin in one place the widest first, and then the one of the greatest level.
fn pass_order(a: &PartName, b: &PartName) -> Ordering
    ensures { result ≡ pass_order a.now b.now }
{
    let wide_first = b.max_block.cmp(&a.max_block);
    let high_first = b.level.cmp(&a.level);
    let blocks = a.min_block.cmp(&b.min_block);
    partition_rank(a.partition)
        .cmp(&partition_rank(b.partition))
        .then(blocks.then(wide_first.then(high_first)))
}

/// The parts in the order of a pass: each after those that contain it.
pub fn in_pass_order(alloc: Global, parts: &[PartName]) -> Result<Vec<PartName>, NoMemory>
    ensures parts { IfOk result (λ v. IsPermutation parts.now v.items) }
    ensures order { IfOk result (λ v. IsInPassOrder v.items) }
{
    let mut sorted = Vec::from_slice(alloc, parts)?;
    sorted.sort_unstable_by(|a, b| pass_order(a, b));
    Ok(sorted)
}

// How a part stands to the last one that is kept: clear where none is.
fn stand_of(kept: &[Kept<()>], part: &PartName) -> Stand
    ensures { StandsAs kept.now part.now result }
{
    match kept.last() {
        Some(last) => stand_to(&last.name, part),
        None => Stand::Clear,
    }
}

/// The parts that no other one contains; none where two of these have a block in common.
///
/// A part that contains another stands before it. While those that are kept have no block in common, only the last
/// of them of its partition can have a block of the next part, so each part is compared with one other.
pub fn pass(alloc: Global, parts: &[PartName]) -> Result<Option<TableParts<()>>, NoMemory>
    requires order { IsInPassOrder parts.now }
    requires plain { All IsPlainName parts.now }
    ensures shown { IfOk result (λ found. IfSome found
        (λ kept. AreShown parts.now (all_parts kept))) }
    ensures clash { IfOk result (λ found. IfNone found (Clash parts.now)) }
{
    let mut kept = TableParts::new(alloc);
    for part in parts {
        match stand_of(kept.parts_in(part.partition), part) {
            Stand::Covered => continue,
            Stand::Overlapping => return Ok(None),
            Stand::Clear => {}
        }
        kept.add(alloc, *part, ())?;
    }
    Ok(Some(kept))
}
