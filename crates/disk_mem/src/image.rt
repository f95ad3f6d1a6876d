// What a crash may leave of a disk in memory.
ghost use Rattle.std.specs.Prelude.{◌≡◌, ◌+◌, ◌<◌, ◌≤◌, ◌++◌, ◌∷◌, [], IfOk, OnOk, map};
ghost use Rattle.mt_outside.specs.Disk.{names_after, before_clock, at_clock};
ghost use Rattle.mt_outside.specs.Counts.{next};
ghost use Rattle.fault_plan.specs.Images.{happened, left_files, left_stamped, image_told};

use crate::folder::MemDir;
use crate::root::{Root, make};
use fault_plan::{has_happened, loses, lost_files};
use mt_base::{NoMemory, Twin};
use mt_outside::{Change, Stamped};
use mt_values::Name;
use std::alloc::Global;
use std::collections::BTreeMap;

// A folder after a crash.
fn left_folder(alloc: Global, dir: &MemDir, lose: bool) -> Result<MemDir, NoMemory>
    ensures { IfOk result (λ d. d ≡ left_files lose dir.now) }
{
    if !lose {
        return dir.hold();
    }
    MemDir::new(alloc, lost_files(alloc, dir.files())?)
}

// A change that happened, with its files after a crash.
fn left_stamped(
    alloc: Global,
    stamped: &Stamped<MemDir>,
    lose: bool,
) -> Result<Stamped<MemDir>, NoMemory>
    ensures { IfOk result (λ s. s ≡ left_stamped lose stamped.now) }
{
    let clock = stamped.clock;
    match &stamped.change {
        Change::Publish(name, dir) => {
            let change = Change::Publish(name.twin(alloc)?, left_folder(alloc, dir, lose)?);
            Ok(Stamped { clock, change })
        }
        Change::Remove(name) => {
            let change = Change::Remove(name.twin(alloc)?);
            Ok(Stamped { clock, change })
        }
    }
}

// Adds the changes that were settled before the mark stood there.
fn settled(
    alloc: Global,
    changes: &[Stamped<MemDir>],
    clock: u64,
    lose: bool,
    left: &mut Vec<Stamped<MemDir>>,
) -> Result<(), NoMemory>
    ensures { OnOk result (left.new.items ≡ left.old.items ++ map (left_stamped lose)
        (before_clock clock changes.now)) }
{
    for stamped in changes {
        if stamped.clock < clock {
            left.push(left_stamped(alloc, stamped, lose)?)?;
        }
    }
    Ok(())
}

// Adds those of the changes at the mark that have happened.
fn unsettled(
    alloc: Global,
    changes: &[Stamped<MemDir>],
    clock: u64,
    choice: u64,
    lose: bool,
    left: &mut Vec<Stamped<MemDir>>,
) -> Result<(), NoMemory>
    ensures { OnOk result (left.new.items ≡ left.old.items ++ map (left_stamped lose)
        (happened choice 0 (at_clock clock changes.now))) }
{
    let mut number = 0usize;
    for stamped in changes {
        if stamped.clock == clock {
            if has_happened(choice, number) {
                left.push(left_stamped(alloc, stamped, lose)?)?;
            }
            number += 1;
        }
    }
    Ok(())
}

// The names after these changes.
#[tactic(auto, using(mt_outside::proofs::Changes::names_after_last))]
fn names_by(alloc: Global, changes: &[Stamped<MemDir>]) -> Result<BTreeMap<Name, MemDir>, NoMemory>
    ensures { IfOk result (λ m. m.entries ≡ names_after [] changes.now) }
{
    let mut names = BTreeMap::new(alloc);
    for stamped in changes {
        make(alloc, &mut names, &stamped.change)?;
    }
    Ok(names)
}

impl Root {
    /// What a crash may leave, by the choice.
    pub fn image(&self, alloc: Global, choice: u64) -> Result<Root, NoMemory>
        ensures told { IfOk result (λ r. r.changes.items ≡ image_told choice self.now.clock
            self.now.changes.items) }
        ensures clock { IfOk result (λ r. r.clock ≡ next self.now.clock) }
        ensures later { IfOk result (λ r. self.now.clock ≤ r.clock) }
    {
        let lose = loses(choice);
        let mut changes = Vec::new(alloc);
        settled(alloc, &self.changes, self.clock, lose, &mut changes)?;
        unsettled(alloc, &self.changes, self.clock, choice, lose, &mut changes)?;
        let names = names_by(alloc, &changes)?;
        changes.reserve(names.len())?;
        let clock = self.clock.saturating_add(1);
        Ok(Root {
            names,
            changes,
            clock,
        })
    }
}
