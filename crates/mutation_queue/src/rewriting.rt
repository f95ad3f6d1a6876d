// The part that is to be rewritten next.
ghost use Rattle.std.specs.Prelude.{◌≡◌, ℕ, IfNone, IfSome};
ghost use Rattle.mt_base.specs.declared.partition.Partition.{Partition as Part};
ghost use Rattle.part_set.specs.Parts.{kept_in};
ghost use Rattle.part_set.specs.Shelf.{all_parts};
ghost use Rattle.mutation_queue.specs.declared.scope.Scope.TheVariants as scopes;
ghost use Rattle.mutation_queue.specs.Queue.{mutations_of};
ghost use Rattle.mutation_queue.specs.Rewrites.{IsFirstWaiting, IsNextRewrite, IsRewriteAt, MayRewrite, NoneWaits, waits_for};

use crate::{Mutations, Scope};
use mt_base::{Name, Partition};
use part_set::part_name::PartName;
use part_set::{Kept, PartSet, TableParts};

/// A part for which mutations wait, by its place among the parts of its partition, and the last of these mutations.
#[derive(Clone, Copy)]
pub struct Rewrite<'a> {
    pub table: &'a Name,
    pub name: PartName,
    pub first: usize,
    pub upto: u32,
}

/// The part that is to be rewritten next in the scope: of the first table in byte order of names, and in it of the first
/// partition in ascending order, that has a part without a mark for which a mutation waits, the first such part. None exactly
/// where there is no such part. Takes no memory.
pub fn next_rewrite<'a, P>(
    set: &'a PartSet<P>,
    queue: &Mutations,
    scope: Scope<'a>,
) -> Option<Rewrite<'a>>
    ensures none { IfNone result (NoneWaits set.now queue.now scope.entry) }
    ensures some { IfSome result (IsNextRewrite set.now queue.now scope.entry) }
{
    match scope {
        Scope::All => rewrite_of_all(set, queue),
        Scope::Table(table) => rewrite_of_table(set, queue, table),
        Scope::Partition(table, partition) => rewrite_of_partition(set, queue, table, partition),
    }
}

// The part of the first table that has one.
fn rewrite_of_all<'a, P>(set: &'a PartSet<P>, queue: &Mutations) -> Option<Rewrite<'a>>
    ensures none { IfNone result (NoneWaits set.now queue.now scopes.All) }
    ensures some { IfSome result (IsNextRewrite set.now queue.now scopes.All) }
{
    for (table, parts) in set.tables() {
        if let Some(found) = rewrite_in_table(queue, table, parts) {
            return Some(found);
        }
    }
    None
}

// The part of the first partition of the table that has one.
fn rewrite_of_table<'a, P>(
    set: &PartSet<P>,
    queue: &Mutations,
    table: &'a Name,
) -> Option<Rewrite<'a>>
    ensures none { IfNone result (NoneWaits set.now queue.now (scopes.Table table.entry)) }
    ensures some { IfSome result (IsNextRewrite set.now queue.now (scopes.Table table.entry)) }
{
    let parts = set.table(table)?;
    rewrite_in_table(queue, table, parts)
}

// The part of the partition.
fn rewrite_of_partition<'a, P>(
    set: &PartSet<P>,
    queue: &Mutations,
    table: &'a Name,
    partition: Partition,
) -> Option<Rewrite<'a>>
    ensures none { IfNone result
        (NoneWaits set.now queue.now (scopes.Partition table.entry partition)) }
    ensures some { IfSome result
        (IsNextRewrite set.now queue.now (scopes.Partition table.entry partition)) }
{
    rewrite_in(queue, table, set.parts_in(table, partition))
}

// The part of the first partition of a table that has one.
fn rewrite_in_table<'a, P>(
    queue: &Mutations,
    table: &'a Name,
    parts: &TableParts<P>,
) -> Option<Rewrite<'a>>
    ensures none { IfNone result ((p : Part) (k : ℕ) → MayRewrite
        (mutations_of queue.now table.now) (kept_in p (all_parts parts.now)) k → ⊥) }
    ensures some { IfSome result (IsFirstWaiting (mutations_of queue.now table.now)
        (all_parts parts.now)) }
    ensures table { IfSome result (λ found. found.table ≡ table.entry) }
{
    for (_, shelf) in parts.shelves() {
        let kept = shelf.as_slice();
        if let Some(found) = rewrite_in(queue, table, kept) {
            return Some(found);
        }
    }
    None
}

// The first of the parts of a partition without a mark for which a mutation waits.
fn rewrite_in<'a, P>(queue: &Mutations, table: &'a Name, parts: &[Kept<P>]) -> Option<Rewrite<'a>>
    ensures none { IfNone result
        ((k : ℕ) → MayRewrite (mutations_of queue.now table.now) parts.now k → ⊥) }
    ensures some { IfSome result (λ found. IsRewriteAt (mutations_of queue.now table.now) parts.now
        found) }
    ensures table { IfSome result (λ found. found.table ≡ table.entry) }
{
    for (first, kept) in parts.iter().enumerate() {
        if let Some(upto) = waits(queue, table, kept) {
            let name = kept.name;
            return Some(Rewrite {
                table,
                name,
                first,
                upto,
            });
        }
    }
    None
}

// The last of the mutations for which a part waits, where it bears no mark and waits for any.
fn waits<P>(queue: &Mutations, table: &Name, kept: &Kept<P>) -> Option<u32>
    ensures { result ≡ waits_for (mutations_of queue.now table.now) kept.now }
{
    if kept.busy {
        return None;
    }
    let last = queue.pending(table, &kept.name).last()?;
    Some(last.number)
}
