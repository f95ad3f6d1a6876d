// The disk in memory.
ghost use Rattle.std.specs.Prelude.{◌≡◌, ◌+◌, ◌-◌, ◌^◌, ◌<◌, ◌≤◌, ◌++◌, [], Some, None, IfOk, OnOk, OnErr, IsErr, IsErrOf, IsSome, is_some, map};
ghost use Rattle.mt_outside.specs.Causes.{Rose};
ghost use Rattle.mt_outside.specs.DiskCauses.{HasDiskCause, HasStageCause};
ghost use Rattle.mt_outside.specs.Disk.{AllBy, Image, names_of, files_at, with_change};
ghost use Rattle.mt_outside.specs.Counts.{next};
ghost use Rattle.fault_plan.specs.Images.{image_told};
ghost use Rattle.disk_mem.specs.Disks.{FailsOrStops, SyncFails, takes};
ghost use Rattle.fault_plan.specs.Plan.{fresh, next_arm, taken};

use crate::arm::MemArm;
use crate::calls::DiskCalls;
use crate::folder::{MemDir, MemStage};
use crate::root::Root;
use fault_plan::{CallKind, Listed};
use mt_base::NoMemory;
use mt_outside::{Change, Disk, DiskError};
use mt_values::Name;
use std::alloc::Global;
use std::marker::Model;

/// A disk in memory, which tells all. Contracts see what it tells, the path that it was started with, its mark and which of its calls fail.
#[derive(Drop)]
pub struct MemDisk {
    alloc: Global,
    // The path of the last start. It is shown, and nothing depends on it.
    path: Option<String>,
    root: Root,
    calls: DiskCalls,
}

impl Model for MemDisk {
    ghost use Rattle.std.specs.Prelude.{string_bytes};
    ghost use Rattle.std.specs.Option.{option_map};
    ghost use Rattle.disk_mem.specs.Disks.{DiskState};

    ghost Value = { DiskState };

    ghost view = { λ d. record { told = d.root.changes.items; started = option_map string_bytes d.path; clock = d.root.clock; plan = d.calls.plan; stop = d.calls.stop } };
}

impl MemDisk {
    /// An empty disk that was not started, of which no call fails.
    pub fn new(alloc: Global) -> Result<MemDisk, NoMemory>
        ensures told { IfOk result (λ d. d.told ≡ []) }
        ensures started { IfOk result (λ d. d.started ≡ None) }
        ensures clock { IfOk result (λ d. d.clock ≡ 0) }
        ensures plan { IfOk result (λ d. d.plan ≡ fresh None None []) }
        ensures stop { IfOk result (λ d. d.stop ≡ None) }
    {
        Ok(MemDisk {
            alloc,
            path: None,
            root: Root::new(alloc),
            calls: DiskCalls::none(alloc),
        })
    }

    /// Whether a name is there.
    pub fn holds(&self, name: &Name) -> bool
        ensures { result ≡ is_some (files_at name.now (names_of self.now.told)) }
    {
        self.root.holds(name)
    }

    /// Lists calls that are to fail, from now on, beside those that were listed before. Arms and stages that were made before keep the list that they got.
    ///
    /// `NoMemory` where the allocation failed; the disk stays as it was.
    pub fn fail(&mut self, calls: &[Listed]) -> Result<(), NoMemory>
        ensures ok { OnOk result (self.new ≡ record self.old {
          plan = record self.old.plan {
            listed
                = self.old.plan.listed ++ calls.now;
          };
        }) }
        ensures err { OnErr result (self.new ≡ self.old) }
    {
        self.calls.plan.list(calls)
    }

    /// Stops the disk after so many further calls that can answer an error: each later one fails. Arms and stages go on.
    pub fn stop_after(&mut self, k: u64)
        ensures { self.new ≡ record self.old { stop = Some k } }
    {
        self.calls.stop = Some(k);
    }

    /// A disk as a crash now may leave it. The settled publishes and removes have happened; of the others bit i of the choice, for i below 63, says
    /// whether the one with this number, from 0, has, and those from the 63rd on have. Where bit 63 is set, each file whose last append wasn't synced
    /// has as many zero bytes as half its length, rounded down. All that happened is settled: the mark is one above, as far as 64 bits count.
    /// The new disk was not started. No call of it is listed, none was made, and no stop is set.
    #[tactic(auto, using(fault_plan::proofs::Images::image_leads))]
    pub fn image(&self, choice: u64) -> Result<MemDisk, NoMemory>
        ensures image { IfOk result (λ d. Image self.now.told self.now.clock (names_of d.told)) }
        ensures told { IfOk result (λ d. d.told ≡ image_told choice self.now.clock self.now.told) }
        ensures started { IfOk result (λ d. d.started ≡ None) }
        ensures mark { IfOk result (λ d. d.clock ≡ next self.now.clock) }
        ensures by_mark { IfOk result (λ d. AllBy d.clock d.told) }
        ensures plan { IfOk result (λ d. d.plan ≡ fresh None None []) }
        ensures stop { IfOk result (λ d. d.stop ≡ None) }
    {
        let alloc = self.alloc;
        Ok(MemDisk {
            alloc,
            path: None,
            root: self.root.image(alloc, choice)?,
            calls: DiskCalls::none(alloc),
        })
    }
}

impl Disk for MemDisk {
    type Arm = MemArm;

    ghost told = { λ d. Some d.told };

    ghost clock = { λ d. d.clock };

    ghost failed = { λ d. d.plan.failed };

    ghost started = { λ d. d.started };

    /// Keeps the path. Nothing else of the disk changes.
    fn start(&mut self, path: &str) -> Result<(), DiskError>
        ensures started { OnOk result (self.new.started ≡ Some path.now) }
        ensures not_started { OnErr result (self.new.started ≡ self.old.started) }
        ensures told { self.new.told ≡ self.old.told }
        ensures clock { self.new.clock ≡ self.old.clock }
        ensures cause { HasDiskCause self.old.plan.failed self.new.plan.failed result }
        ensures exactly { FailsOrStops CallKind.Start self.old self.new result }
    {
        if self.calls.call(CallKind::Start, false) {
            return Err(DiskError::Fault);
        }
        match String::from_str(self.alloc, path) {
            Ok(path) => {
                self.path = Some(path);
                Ok(())
            }
            Err(_) => Err(DiskError::NoMemory),
        }
    }

    fn arm(&mut self, alloc: Global) -> Result<MemArm, DiskError>
        ensures none_failed { IfOk result (λ a. a.failed ≡ 0) }
        ensures told { self.new.told ≡ self.old.told }
        ensures clock { self.new.clock ≡ self.old.clock }
        ensures started { self.new.started ≡ self.old.started }
        ensures cause { HasDiskCause self.old.plan.failed self.new.plan.failed result }
        ensures plan { IfOk result (λ a. a ≡ next_arm self.old.plan) }
        ensures exactly { FailsOrStops CallKind.Arm self.old self.new result }
    {
        let plan = self.calls.plan.next_arm(alloc);
        if self.calls.call(CallKind::Arm, false) {
            return Err(DiskError::Fault);
        }
        match plan {
            Ok(plan) => Ok(MemArm::new(plan)),
            Err(NoMemory) => Err(DiskError::NoMemory),
        }
    }

    fn take_back(&mut self, arm: MemArm)
        ensures told { self.new.told ≡ self.old.told }
        ensures clock { self.new.clock ≡ self.old.clock }
        ensures started { self.new.started ≡ self.old.started }
        ensures taken { 0 < arm.failed → Rose self.old.plan.failed self.new.plan.failed }
        ensures none_failed { arm.failed ≡ 0 → self.new.plan.failed ≡ self.old.plan.failed }
        ensures later { self.old.plan.failed ≤ self.new.plan.failed }
        ensures exactly { self.new ≡ takes arm.failed self.old }
    {
        self.calls.plan.take(arm.into_count());
    }

    fn list(&mut self, alloc: Global) -> Result<Vec<Name>, DiskError>
        ensures names { IfOk result (λ v. v.items ≡ map (λ e. e.0) (names_of self.old.told)) }
        ensures told { self.new.told ≡ self.old.told }
        ensures clock { self.new.clock ≡ self.old.clock }
        ensures started { self.new.started ≡ self.old.started }
        ensures cause { HasDiskCause self.old.plan.failed self.new.plan.failed result }
        ensures exactly { FailsOrStops CallKind.List self.old self.new result }
    {
        if self.calls.call(CallKind::List, false) {
            return Err(DiskError::Fault);
        }
        match self.root.list(alloc) {
            Ok(names) => Ok(names),
            Err(NoMemory) => Err(DiskError::NoMemory),
        }
    }

    fn open(&mut self, _alloc: Global, name: &Name) -> Result<MemDir, DiskError>
        requires { IsSome (files_at name.now (names_of self.old.told)) }
        ensures files { IfOk result (λ d. Some d ≡ files_at name.now (names_of self.old.told)) }
        ensures told { self.new.told ≡ self.old.told }
        ensures clock { self.new.clock ≡ self.old.clock }
        ensures started { self.new.started ≡ self.old.started }
        ensures cause { HasDiskCause self.old.plan.failed self.new.plan.failed result }
        ensures exactly { FailsOrStops CallKind.Open self.old self.new result }
    {
        if self.calls.call(CallKind::Open, false) {
            return Err(DiskError::Fault);
        }
        match self.root.folder(name) {
            Ok(dir) => Ok(dir),
            Err(NoMemory) => Err(DiskError::NoMemory),
        }
    }

    /// After a fault the name is not there.
    fn publish(&mut self, alloc: Global, stage: MemStage, name: &Name) -> Result<MemDir, DiskError>
        requires { files_at name.now (names_of self.old.told) ≡ None }

        // What the disk is then.
        ensures ok { OnOk result (self.new.told ≡ with_change self.old.clock
            (Change.Publish name.now stage.files) self.old.told) }
        ensures dir { IfOk result (λ d. d ≡ stage.files) }
        ensures err { OnErr result (self.new.told ≡ self.old.told) }
        ensures clock { self.new.clock ≡ self.old.clock }
        ensures started { self.new.started ≡ self.old.started }

        // Which faults are counted, and which calls fail.
        ensures taken { 0 < stage.plan.failed → Rose self.old.plan.failed self.new.plan.failed }
        ensures cause { HasStageCause stage.plan.failed self.old.plan.failed self.new.plan.failed
            result }
        ensures exactly { FailsOrStops CallKind.Publish (takes stage.plan.failed self.old) self.new
            result }
    {
        let (files, failed) = stage.into_parts();
        self.calls.plan.take(failed);
        if self.calls.call(CallKind::Publish, false) {
            return Err(DiskError::Fault);
        }
        match self.root.put(alloc, name, files) {
            Ok(dir) => Ok(dir),
            Err(NoMemory) => Err(DiskError::NoMemory),
        }
    }

    /// After a fault the name is there.
    fn remove(&mut self, name: &Name) -> Result<(), DiskError>
        requires { IsSome (files_at name.now (names_of self.old.told)) }
        ensures ok { OnOk result (self.new.told ≡ with_change self.old.clock
            (Change.Remove name.now) self.old.told) }
        ensures err { OnErr result (self.new.told ≡ self.old.told) }
        ensures clock { self.new.clock ≡ self.old.clock }
        ensures started { self.new.started ≡ self.old.started }

        // Which calls fail.
        ensures takes_none { IsErrOf result DiskError.NoMemory → ⊥ }
        ensures cause { HasDiskCause self.old.plan.failed self.new.plan.failed result }
        ensures exactly { FailsOrStops CallKind.Remove self.old self.new result }
    {
        if self.calls.call(CallKind::Remove, false) {
            return Err(DiskError::Fault);
        }
        self.root.cut(name);
        Ok(())
    }

    fn sync_names(&mut self) -> Result<(), DiskError>
        ensures told { self.new.told ≡ self.old.told }
        ensures clock { OnOk result (self.new.clock ≡ self.old.clock + 1) }
        ensures clock_err { OnErr result (self.new.clock ≡ self.old.clock) }
        ensures started { self.new.started ≡ self.old.started }
        ensures last { self.old.clock ≡ 2 ^ 64 - 1 → IsErr result }

        // Which calls fail.
        ensures takes_none { IsErrOf result DiskError.NoMemory → ⊥ }
        ensures cause { HasDiskCause self.old.plan.failed self.new.plan.failed result }
        ensures exactly { SyncFails self.old self.new result }
    {
        let at_end = self.root.clock == u64::MAX;
        if self.calls.call(CallKind::SyncNames, at_end) {
            return Err(DiskError::Fault);
        }
        self.root.clock += 1;
        Ok(())
    }

    fn mark(&self) -> u64 {
        self.root.clock
    }

    fn faults(&self) -> u64 {
        self.calls.plan.failed
    }
}
