// Pairs of parts of one partition that follow each other.
ghost use Rattle.std.specs.Prelude.{◌+◌, ◌<◌, ◌↔◌, ℕ, length, IfNone, IfSome, IsTrue};
ghost use Rattle.merge_select.specs.Picks.{IsFreePair, Suits};
ghost use Rattle.merge_select.specs.Wishes.{ChoosesAt, TakesAt, wished_of};

use mt_base::{LEVEL_LIMIT, Name, Policy, Rows};
use mutation_queue::Mutations;
use mutation_queue::part_set::Kept;

/// What is asked of a pair of a table's parts.
#[derive(Clone, Copy)]
pub(crate) struct Wish<'q, 't> {
    pub(crate) queue: &'q Mutations,
    pub(crate) table: &'t Name,
    pub(crate) policy: Policy,
}

// Whether the policy takes parts of these numbers of rows.
fn suits(policy: Policy, a: u64, b: u64) -> bool
    ensures { IsTrue result ↔ Suits policy a b }
{
    match policy {
        Policy::Near => a.max(b) as u128 <= 2 * (a.min(b) as u128) + 1000,
        Policy::Head | Policy::Tail => true,
    }
}

// Whether two neighbours may be merged now.
fn is_free<P>(wish: &Wish, a: &Kept<P>, b: &Kept<P>) -> bool
    ensures { IsTrue result ↔ IsFreePair (wished_of wish.now) a.now b.now }
{
    !a.busy
        && !b.busy
        && a.name.level.max(b.name.level) < LEVEL_LIMIT
        && wish.queue.may_merge(wish.table, &a.name, &b.name)
}

// Whether the pair at a place may be taken.
fn takes_at<P: Rows>(wish: &Wish, parts: &[Kept<P>], place: usize) -> bool
    requires { place + 1 < length parts.now }
    ensures { IsTrue result ↔ TakesAt P.row_count wish.now parts.now place }
{
    let first = &parts[place];
    let second = &parts[place + 1];
    is_free(wish, first, second) && suits(wish.policy, first.part.rows(), second.part.rows())
}

// The place of the first pair that may be taken.
fn first_pair<P: Rows>(wish: &Wish, parts: &[Kept<P>]) -> Option<usize>
    ensures none { IfNone result ((k : ℕ) → TakesAt P.row_count wish.now parts.now k → ⊥) }
    ensures takes { IfSome result (TakesAt P.row_count wish.now parts.now) }
    ensures first { IfSome result
        (λ place. (k : ℕ) → k < place → TakesAt P.row_count wish.now parts.now k → ⊥) }
{
    for next in 1..parts.len() {
        let place = next - 1;
        if takes_at(wish, parts, place) {
            return Some(place);
        }
    }
    None
}

// The place of the last pair that may be taken.
fn last_pair<P: Rows>(wish: &Wish, parts: &[Kept<P>]) -> Option<usize>
    ensures none { IfNone result ((k : ℕ) → TakesAt P.row_count wish.now parts.now k → ⊥) }
    ensures takes { IfSome result (TakesAt P.row_count wish.now parts.now) }
    ensures last { IfSome result
        (λ place. (k : ℕ) → place < k → TakesAt P.row_count wish.now parts.now k → ⊥) }
{
    let mut next = parts.len();
    while 1 < next {
        next -= 1;
        let place = next - 1;
        if takes_at(wish, parts, place) {
            return Some(place);
        }
    }
    None
}

/// The place of the pair that the policy takes among the parts of a partition. Takes no memory.
pub(crate) fn pick_in<P: Rows>(wish: &Wish, parts: &[Kept<P>]) -> Option<usize>
    ensures none { IfNone result ((k : ℕ) → TakesAt P.row_count wish.now parts.now k → ⊥) }
    ensures some { IfSome result (ChoosesAt P.row_count wish.now parts.now) }
{
    match wish.policy {
        Policy::Near | Policy::Head => first_pair(wish, parts),
        Policy::Tail => last_pair(wish, parts),
    }
}
