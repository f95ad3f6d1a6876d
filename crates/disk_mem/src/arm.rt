// What reads folders of a disk in memory and makes stages.
ghost use Rattle.std.specs.Prelude.{◌≡◌, ◌≤◌, ◌<◌, [], IfOk, length};
ghost use Rattle.mt_outside.specs.Causes.{Rose};
ghost use Rattle.mt_outside.specs.DiskCauses.{HasDiskCause};
ghost use Rattle.mt_outside.specs.Files.{bytes_of, ReadsAt};
ghost use Rattle.fault_plan.specs.Plan.{FailsAsListed, next_stage, taken};

use crate::folder::{MemDir, MemStage};
use fault_plan::{CallKind, Plan};
use mt_base::NoMemory;
use mt_outside::{Arm, DiskError, Written};
use mt_values::FileId;
use std::alloc::Global;
use std::marker::Model;

/// An arm of a disk in memory. Contracts see which of its calls fail.
pub struct MemArm {
    plan: Plan,
}

impl Model for MemArm {
    ghost use Rattle.fault_plan.specs.declared.plan.Plan.{Plan};

    ghost Value = { Plan };

    ghost view = { λ a. a.plan };
}

// The bytes of a file, none where it is not there.
fn bytes_in(files: &[Written], file: FileId) -> &[u8]
    ensures { result.now ≡ bytes_of file files.now }
{
    for written in files {
        if written.file.is(file) {
            return written.bytes.as_slice();
        }
    }
    &[]
}

// Copies bytes from a place on, as many as there are and fit.
fn copy_at(bytes: &[u8], at: u64, buf: &mut [u8]) -> usize
    ensures bound { result ≤ length buf.new }
    ensures read { ReadsAt bytes.now at result buf.new }
{
    if at >= bytes.len() as u64 {
        return 0;
    }
    let rest = &bytes[at as usize..];
    let count = rest.len().min(buf.len());
    buf[..count].copy_from_slice(&rest[..count]);
    count
}

impl MemArm {
    /// An arm of which no call was made.
    pub(crate) fn new(plan: Plan) -> MemArm
        ensures { result ≡ plan }
    {
        MemArm { plan }
    }

    /// How many calls have failed.
    pub(crate) fn into_count(self) -> u64
        ensures { result ≡ self.failed }
    {
        let MemArm { plan } = self;
        plan.failed
    }
}

impl Arm for MemArm {
    type Stage = MemStage;

    type Dir = MemDir;

    ghost use Rattle.std.specs.Prelude.{true};

    ghost tells = { λ _. true };

    ghost failed = { λ a. a.failed };

    fn stage(&mut self, alloc: Global) -> Result<MemStage, DiskError>
        ensures empty { IfOk result (λ s. s.files ≡ []) }
        ensures none_failed { IfOk result (λ s. s.plan.failed ≡ 0) }
        ensures cause { HasDiskCause self.old.failed self.new.failed result }
        ensures plan { IfOk result (λ s. s.plan ≡ next_stage self.old) }
        ensures exactly { FailsAsListed CallKind.Stage self.old self.new result }
    {
        let plan = self.plan.next_stage(alloc);
        if self.plan.call(CallKind::Stage, false) {
            return Err(DiskError::Fault);
        }
        match plan {
            Ok(plan) => Ok(MemStage::new(alloc, plan)),
            Err(NoMemory) => Err(DiskError::NoMemory),
        }
    }

    fn abandon(&mut self, stage: MemStage)
        ensures taken { 0 < stage.plan.failed → Rose self.old.failed self.new.failed }
        ensures none_failed { stage.plan.failed ≡ 0 → self.new.failed ≡ self.old.failed }
        ensures later { self.old.failed ≤ self.new.failed }
        ensures exactly { self.new ≡ taken stage.plan.failed self.old }
    {
        let (_, failed) = stage.into_parts();
        self.plan.take(failed);
    }

    fn read(
        &mut self,
        dir: &MemDir,
        file: FileId,
        at: u64,
        buf: &mut [u8],
    ) -> Result<usize, DiskError>
        ensures bytes { IfOk result (λ n. ReadsAt (bytes_of file dir.now) at n buf.new) }
        ensures bound { IfOk result (λ n. n ≤ length buf.new) }
        ensures cause { HasDiskCause self.old.failed self.new.failed result }
        ensures exactly { FailsAsListed CallKind.Read self.old self.new result }
    {
        if self.plan.call(CallKind::Read, false) {
            return Err(DiskError::Fault);
        }
        Ok(copy_at(bytes_in(dir.files(), file), at, buf))
    }

    fn faults(&self) -> u64 {
        self.plan.failed
    }
}
