// Merges that were taken up.
ghost use Rattle.std.specs.Prelude.{◌≡◌, false, IfOk, IsSome, OnErr, Option};
ghost use Rattle.std.specs.List.{All};
ghost use Rattle.mt_values.specs.Annals.{Told};
ghost use Rattle.root_commits.specs.Merges.{merging};
ghost use Rattle.root_commits.specs.Turns.{root_of};
ghost use Rattle.root_commits.specs.part_set.Parts.{kept_in};
ghost use Rattle.root_commits.specs.part_set.Runs.{IsRun, parts_of_run};
ghost use Rattle.root_commits.specs.part_set.Sets.{parts_of};
ghost use Rattle.root_commits.specs.root_store.Soundness.{IsReady};
ghost use Rattle.root_commits.specs.root_store.Stores.{table_at};
ghost use Rattle.shared_store.specs.Works.{MergesRun, TakesUp};

use mt_base::{NoMemory, Partition, Twin};
use mt_outside::{Arm, Dir, Disk};
use mt_values::{Name, Schema};
use root_commits::durable_commit::{Limit, Refused};
use root_commits::part_name::PartName;
use root_commits::part_reader::Part;
use root_commits::part_set::{Kept, Run};
use root_commits::part_writer::SealedPart;
use root_commits::root_store::CoreStore;
use root_commits::{Returned, commit_merge, merged_name};
use std::alloc::Global;

/// A merge that was taken up: some parts of a table's partition that follow each other, in block order, as they were
/// before they got their marks, and the table's schema.
///
/// It is moved on or taken apart, never dropped: the root that gave it takes it back, to be put in its place or let go.
pub struct Work<F> {
    pub table: Name,
    pub schema: Schema,
    pub partition: Partition,
    pub sources: Vec<Kept<Part<F>>>,
}

/// What became of a merge that was to be put in place of its sources.
pub enum Put<S> {
    /// Its part stands there.
    Done,
    /// This source does not follow there with its mark, the first of them: what was sealed comes back.
    Gone { part: PartName, back: S },
}

/// Why no merge of a whole partition was taken up.
#[derive(Clone, Copy)]
pub enum TakeFault {
    /// An allocation failed.
    NoMemory,
    /// This part is being merged, the first of them in block order.
    Busy(PartName),
}

// Equal copies of parts.
fn twins<P: Twin>(alloc: Global, parts: &[Kept<P>]) -> Result<Vec<Kept<P>>, NoMemory>
    ensures { IfOk result (λ v. v.items ≡ parts.now) }
{
    let mut copies = Vec::new(alloc);
    for kept in parts {
        copies.push(kept.twin(alloc)?)?;
    }
    Ok(copies)
}

/// Takes up the merge of a run of the parts of a table's partition: they get marks, and equal copies of them are handed
/// out.
///
/// `NoMemory` where an allocation failed; the store is as it was.
pub(crate) fn take_up<F: Dir>(
    alloc: Global,
    store: &mut CoreStore<F>,
    table: Name,
    partition: Partition,
    run: Run,
) -> Result<Work<F>, NoMemory>
    requires there { IsSome (table_at store.old table) }
    requires run { IsRun run (kept_in partition (parts_of store.old.set table)) }
    requires idle { All (λ kept. kept.busy ≡ false)
        (parts_of_run run (kept_in partition (parts_of store.old.set table))) }
    ensures takes { IfOk result (λ work. TakesUp store.old store.new work run) }
    ensures of { IfOk result (λ work. (work.table ≡ table) × (work.partition ≡ partition)) }
    ensures err { OnErr result (store.new ≡ store.old) }
{
    let schema = store.tables[&table].schema.twin(alloc)?;
    let parts = store.set.parts_in(&table, partition);
    let sources = twins(alloc, &parts[run.first..run.first + run.count])?;
    store.set.set_busy(&table, partition, run, true);
    Ok(Work {
        table,
        schema,
        partition,
        sources,
    })
}

/// Merges a run of a table's parts, of which this was sealed: the merge is committed under its name. It is refused
/// where its level would be greater than may be, or the store was stopped, in this order; else only where memory ran
/// out, or where the disk's count of faults rose in this call. What was sealed comes back where it was not given to the
/// disk.
pub(crate) fn merge_run<D: Disk>(
    alloc: Global,
    store: &mut CoreStore<<D::Arm as Arm>::Dir>,
    disk: &mut D,
    table: &Name,
    partition: Partition,
    run: Run,
    part: SealedPart<<D::Arm as Arm>::Stage>,
) -> Result<(), Returned<SealedPart<<D::Arm as Arm>::Stage>>>
    requires run { IsRun run (kept_in partition (parts_of store.old.set table.now)) }
    requires ready { IsReady (D.failed disk.old) (D.told disk.old) store.old }
    ensures merges { let m = merging table.now partition run part.sealed part.loaded in
        (annals : Option Told) → let was = root_of store.old (D.told disk.old) (D.clock disk.old)
        (D.failed disk.old) annals in
        let now = root_of store.new (D.told disk.new) (D.clock disk.new) (D.failed disk.new)
        annals in
        MergesRun D.Arm.Dir.files m was now part result }
    ensures ready { IsReady (D.failed disk.new) (D.told disk.new) store.new }
    ensures started { D.started disk.new ≡ D.started disk.old }
{
    let parts = store.set.parts_in(table, partition);
    match merged_name(parts, run) {
        Some(name) => commit_merge(alloc, store, disk, table, partition, run, name, part),
        None => Err(Returned {
            cause: Refused::Limit(Limit::Levels),
            back: Some(part),
        }),
    }
}
