// A merge put on the disk and into the store: no command is added.
ghost use Rattle.std.specs.Prelude.{◌≡◌, Option, Some, map};
ghost use Rattle.std.specs.List.{fold};
ghost use Rattle.mt_values.specs.Annals.{Told};
ghost use Rattle.root_store.specs.part_name.Merged.{joined_name};
ghost use Rattle.root_store.specs.part_set.Parts.{kept_in};
ghost use Rattle.root_store.specs.part_set.Runs.{IsRun, parts_of_run};
ghost use Rattle.root_store.specs.part_set.Sets.{parts_of};
ghost use Rattle.root_store.specs.Soundness.{IsReady};
ghost use Rattle.root_commits.specs.Merges.{merging, name_of_merge, within_levels};
ghost use Rattle.root_commits.specs.Turns.{CommitsMerge, root_of};

use crate::Returned;
use crate::commits::name_of_table_part;
use mt_base::Partition;
use mt_outside::{Arm, Disk};
use mt_values::Name;
use root_store::CoreStore;
use root_store::durable_commit::{Refused, publish, refuse_stopped};
use root_store::part_name::{PartName, join, raise};
use root_store::part_reader::Part;
use root_store::part_set::{Kept, Run};
use root_store::part_writer::SealedPart;
use std::alloc::Global;

// A name and those of parts joined.
#[tactic(auto, using(crate::proofs::Joining::more_joined))]
fn joined<P>(first: PartName, rest: &[Kept<P>]) -> PartName
    ensures { result ≡ fold joined_name first (map (λ k. k.name) rest.now) }
{
    let mut name = first;
    for kept in rest {
        name = join(&name, &kept.name);
    }
    name
}

/// The name of the part that a merge of a run makes; none where its level would be greater than may be.
pub fn merged_name<P>(parts: &[Kept<P>], run: Run) -> Option<PartName>
    requires { IsRun run parts.now }
    ensures { result ≡ within_levels (name_of_merge (parts_of_run run parts.now)) }
{
    let rest = &parts[run.first + 1..run.first + run.count];
    raise(&joined(parts[run.first].name, rest))
}

/// Puts the part of this name that a merge of a run of a table's parts made in their place: its name is published and settled, and the
/// store has the part. It is no command: the history stays.
///
/// It is refused where the store was stopped; else only where memory ran out, or where the disk's count of faults rose in this call.
/// What was sealed comes back where it was not given to the disk. After a refusal the store is as it was.
pub fn commit_merge<D: Disk>(
    alloc: Global,
    store: &mut CoreStore<<D::Arm as Arm>::Dir>,
    disk: &mut D,
    table: &Name,
    partition: Partition,
    run: Run,
    name: PartName,
    part: SealedPart<<D::Arm as Arm>::Stage>,
) -> Result<(), Returned<SealedPart<<D::Arm as Arm>::Stage>>>
    requires run { IsRun run (kept_in partition (parts_of store.old.set table.now)) }
    requires named { name_of_merge (parts_of_run run
        (kept_in partition (parts_of store.old.set table.now))) ≡ Some name }
    requires ready { IsReady (D.failed disk.old) (D.told disk.old) store.old }
    ensures commits { let m = merging table.now partition run part.sealed part.loaded in
        (annals : Option Told) → let was = root_of store.old (D.told disk.old) (D.clock disk.old)
        (D.failed disk.old) annals in
        let now = root_of store.new (D.told disk.new) (D.clock disk.new) (D.failed disk.new)
        annals in
        CommitsMerge D.Arm.Dir.files m name was now part result }
    ensures started { D.started disk.new ≡ D.started disk.old }
{
    let parts = store.set.parts_in(table, partition);
    let within = run.first + run.count <= parts.len();
    prove!(within);
    if let Some(cause) = refuse_stopped(store.opened, disk.faults()) {
        let back = Some(part);
        return Err(Returned { cause, back });
    }
    let text = match name_of_table_part(alloc, table, name) {
        Ok(text) => text,
        Err(_) => {
            let cause = Refused::NoMemory;
            let back = Some(part);
            return Err(Returned { cause, back });
        }
    };
    let SealedPart { sealed, loaded } = part;
    let dir = match publish(alloc, disk, sealed, &text) {
        Ok(dir) => dir,
        Err(error) => {
            let cause = Refused::of_disk(error);
            return Err(Returned { cause, back: None });
        }
    };
    let part = Part::of(dir, loaded);
    store.set.swap(table, partition, run, name, part);
    Ok(())
}
