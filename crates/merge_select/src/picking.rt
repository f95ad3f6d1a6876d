// The pair that a policy takes of the parts in a scope.
ghost use Rattle.std.specs.Prelude.{◌≡◌, ℕ, IfNone, IfSome};
ghost use Rattle.mt_base.specs.declared.partition.Partition.{Partition as Part};
ghost use Rattle.mutation_queue.specs.part_set.Parts.{kept_in};
ghost use Rattle.mutation_queue.specs.part_set.Shelf.{all_parts};
ghost use Rattle.mutation_queue.specs.declared.scope.Scope.TheVariants as scopes;
ghost use Rattle.merge_select.specs.Picks.{IsPick, NoneIn};
ghost use Rattle.merge_select.specs.Wishes.{IsFirstOfTable, TakesAt, choice_of};

use crate::Pick;
use crate::pairs::{Wish, pick_in};
use mt_base::{Name, Partition, Policy, Rows};
use mutation_queue::part_set::{PartSet, Run, TableParts};
use mutation_queue::{Mutations, Scope};

/// What is chosen from, and how.
#[derive(Drop)]
struct Choosing<'s, 'q, P> {
    set: &'s PartSet<P>,
    queue: &'q Mutations,
    policy: Policy,
}

// The pair at this place of a partition.
fn pair_at<'a>(table: &'a Name, partition: Partition, first: usize) -> Pick<'a>
    ensures table { result.table.now ≡ table.now }
    ensures partition { result.partition ≡ partition }
    ensures first { result.run.first ≡ first }
    ensures count { result.run.count ≡ 2 }
{
    let run = Run { first, count: 2 };
    Pick {
        table,
        partition,
        run,
    }
}

// The pair of the first partition that has one, and its place there.
fn pick_in_table<P: Rows>(wish: &Wish, table: &TableParts<P>) -> Option<(Partition, usize)>
    ensures none { IfNone result ((p : Part) (k : ℕ)
        → TakesAt P.row_count wish.now (kept_in p (all_parts table.now)) k → ⊥) }
    ensures some { IfSome result
        (λ r. IsFirstOfTable P.row_count wish.now (all_parts table.now) r.0 r.1) }
{
    for (_, shelf) in table.shelves() {
        let parts = shelf.as_slice();
        if let Some(first) = pick_in(wish, parts) {
            return Some((parts[first].name.partition, first));
        }
    }
    None
}

// The pair of the first table that has one.
fn pick_of_all<'s, P: Rows>(choosing: &Choosing<'s, '_, P>) -> Option<Pick<'s>>
    ensures none { IfNone result (NoneIn (choice_of P.row_count choosing.now) scopes.All) }
    ensures some { IfSome result (IsPick (choice_of P.row_count choosing.now) scopes.All) }
{
    for (table, parts) in choosing.set.tables() {
        let wish = Wish {
            queue: choosing.queue,
            table,
            policy: choosing.policy,
        };
        if let Some((partition, first)) = pick_in_table(&wish, parts) {
            return Some(pair_at(table, partition, first));
        }
    }
    None
}

// The pair of the first partition of the table that has one.
fn pick_of_table<'a, P: Rows>(choosing: &Choosing<P>, table: &'a Name) -> Option<Pick<'a>>
    ensures none { IfNone result (NoneIn (choice_of P.row_count choosing.now)
        (scopes.Table table.entry)) }
    ensures some { IfSome result (IsPick (choice_of P.row_count choosing.now)
        (scopes.Table table.entry)) }
{
    let wish = Wish {
        queue: choosing.queue,
        table,
        policy: choosing.policy,
    };
    let parts = choosing.set.table(table)?;
    let (partition, first) = pick_in_table(&wish, parts)?;
    Some(pair_at(table, partition, first))
}

// The pair of the partition.
fn pick_of_partition<'a, P: Rows>(
    choosing: &Choosing<P>,
    table: &'a Name,
    partition: Partition,
) -> Option<Pick<'a>>
    ensures none { IfNone result (NoneIn (choice_of P.row_count choosing.now)
        (scopes.Partition table.entry partition)) }
    ensures some { IfSome result (IsPick (choice_of P.row_count choosing.now)
        (scopes.Partition table.entry partition)) }
{
    let wish = Wish {
        queue: choosing.queue,
        table,
        policy: choosing.policy,
    };
    let first = pick_in(&wish, choosing.set.parts_in(table, partition))?;
    Some(pair_at(table, partition, first))
}

/// The pair of neighbours that the policy takes in the scope: of the first table in byte order of names, and in it of the
/// first partition in ascending order, that has a pair which the policy may take. None exactly where there is no such pair.
/// Takes no memory, and looks at each part once.
pub fn pick<'a, P: Rows>(
    set: &'a PartSet<P>,
    queue: &Mutations,
    policy: Policy,
    scope: Scope<'a>,
) -> Option<Pick<'a>>
    ensures none { IfNone result (NoneIn (record {
      set = set.now;
      queue = queue.now;
      count = P.row_count;
      policy = policy;
    }) scope.entry) }
    ensures some { IfSome result (IsPick (record {
      set = set.now;
      queue = queue.now;
      count = P.row_count;
      policy = policy;
    }) scope.entry) }
{
    let choosing = Choosing { set, queue, policy };
    match scope {
        Scope::All => pick_of_all(&choosing),
        Scope::Table(table) => pick_of_table(&choosing, table),
        Scope::Partition(table, partition) => pick_of_partition(&choosing, table, partition),
    }
}
