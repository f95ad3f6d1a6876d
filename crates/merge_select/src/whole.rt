// All parts of a partition.
ghost use Rattle.std.specs.Prelude.{◌≡◌, false, IfNone, IfSome, MatchBool};
ghost use Rattle.std.specs.List.{All};
ghost use Rattle.mutation_queue.specs.Queue.{mutations_of};
ghost use Rattle.mutation_queue.specs.part_set.Parts.{kept_in};
ghost use Rattle.mutation_queue.specs.part_set.Sets.{parts_of};
ghost use Rattle.merge_select.specs.Whole.{AllMayMerge, AreParted, IsFirstBusy, PicksAll};

use mt_base::{Name, Partition};
use mutation_queue::Mutations;
use mutation_queue::part_set::part_name::PartName;
use mutation_queue::part_set::{Kept, PartSet, Run};

/// A part that is to be merged bears a mark.
#[derive(Clone, Copy, PartialEq, Eq)]
pub struct Busy {
    /// The first such part in block order.
    pub name: PartName,
}

// Whether no mutation lies between two of the parts that follow each other.
fn may_all_merge<P>(queue: &Mutations, table: &Name, parts: &[Kept<P>]) -> bool
    ensures { MatchBool result (AllMayMerge (mutations_of queue.now table.now) parts.now)
        (AreParted (mutations_of queue.now table.now) parts.now) }
{
    for next in 1..parts.len() {
        let place = next - 1;
        if !queue.may_merge(table, &parts[place].name, &parts[next].name) {
            return false;
        }
    }
    true
}

// The name of the first part that bears a mark.
fn first_busy<P>(parts: &[Kept<P>]) -> Option<PartName>
    ensures none { IfNone result (All (λ kept. kept.busy ≡ false) parts.now) }
    ensures some { IfSome result (IsFirstBusy parts.now) }
{
    for kept in parts {
        if kept.busy {
            return Some(kept.name);
        }
    }
    None
}

/// All parts of a partition of a table, one too, to be merged into one. None exactly where there is no part, or where a
/// mutation keeps two neighbours from being merged. Takes no memory, and asks no level.
///
/// Else `Busy` exactly where a part bears a mark.
pub fn pick_all<P>(
    set: &PartSet<P>,
    queue: &Mutations,
    table: &Name,
    partition: Partition,
) -> Result<Option<Run>, Busy>
    ensures { PicksAll (mutations_of queue.now table.now)
        (kept_in partition (parts_of set.now table.now)) result }
{
    let parts = set.parts_in(table, partition);
    if parts.is_empty() {
        return Ok(None);
    }
    if !may_all_merge(queue, table, parts) {
        return Ok(None);
    }
    if let Some(name) = first_busy(parts) {
        return Err(Busy { name });
    }
    let run = Run {
        first: 0,
        count: parts.len(),
    };
    Ok(Some(run))
}
