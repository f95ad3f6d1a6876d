// What becomes of a row before the rule gets it, by what its columns and those of the next row of all say: it may go out as it is, or
// leave nothing.
ghost use Rattle.std.specs.Prelude.{◌<◌, [], All, length};
ghost use Rattle.std.specs.List.{slice_index_or};
ghost use Rattle.row_merge.specs.Fates.{IsFate};

use crate::heads::{Cursor, cmp_rows_of};
use mt_values::Block;
use rule_replacing::rule_law::RowRule;

/// What becomes of a row.
#[derive(Debug, Clone, Copy, PartialEq, Eq)]
pub(crate) enum Fate {
    /// It is the only one of its key, and goes out as it is.
    Copied,
    /// The next row of its key leaves nothing of it.
    LeftOut,
    /// The rule gets it.
    Handed,
}

/// What becomes of the row of a block, where the first row of a cursor is the next one of all. `is_first` tells that the rule has no row
/// of a key that has not ended; where it has one, it gets this row too.
pub(crate) fn fate_of<Q: RowRule>(
    rule: &Q,
    places: &[u32],
    is_first: bool,
    block: &Block,
    at: usize,
    next: &Cursor,
) -> Fate
    requires some { at < length block.now.rows }
    requires next { next.now.at < length next.now.block.rows }
    requires own { All (λ place. place < length block.now.types) places.now }
    requires other { All (λ place. place < length next.now.block.types) places.now }
    ensures { IsFate places.now (Q.takes rule.now) (Q.run rule.now) is_first
        (slice_index_or block.now.rows at [])
        (slice_index_or next.now.block.rows next.now.at []) result }
{
    if !is_first {
        return Fate::Handed;
    }
    if cmp_rows_of(places, block, at, &next.block, next.at).is_ne() {
        if rule.stays_alone(block, at) {
            return Fate::Copied;
        }
        return Fate::Handed;
    }
    if rule.gives_way(block, at, &next.block, next.at) {
        return Fate::LeftOut;
    }
    Fate::Handed
}
