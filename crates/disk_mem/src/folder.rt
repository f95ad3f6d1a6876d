// Folders in memory: one that is being made, and one that is done.
ghost use Rattle.std.specs.Prelude.{◌≡◌, [], IfOk, OnOk, OnErr};
ghost use Rattle.mt_outside.specs.DiskCauses.{HasDiskCause};
ghost use Rattle.mt_outside.specs.Files.{appended, settled_file};
ghost use Rattle.fault_plan.specs.Plan.{FailsAsListed};

use fault_plan::{CallKind, Plan};
use mt_base::{NoMemory, Seq};
use mt_outside::{Dir, DiskError, Files, Stage, Written};
use mt_values::FileId;
use std::alloc::Global;
use std::marker::Model;
use std::sync::Arc;

/// A folder that is being made.
pub struct MemStage {
    alloc: Global,
    files: Vec<Written>,
    plan: Plan,
}

impl Model for MemStage {
    ghost use Rattle.disk_mem.specs.Folders.{StageState};

    ghost Value = { StageState };

    ghost view = { λ s. record { files = s.files.items; plan = s.plan } };
}

/// A folder that is done. Its holds share one list of files.
#[derive(Drop)]
pub struct MemDir {
    files: Arc<Files, Global>,
}

impl Model for MemDir {
    ghost use Rattle.std.specs.Prelude.{List};
    ghost use Rattle.std.specs.Arc.{arc_value};
    ghost use Rattle.mt_outside.specs.declared.disk.Written.{Written};

    ghost Value = { List Written };

    ghost view = { λ d. arc_value d.files };
}

impl MemDir {
    /// A folder of these files.
    pub(crate) fn new(alloc: Global, files: Files) -> Result<MemDir, NoMemory>
        ensures { IfOk result (λ d. d ≡ files) }
    {
        let files = Arc::new(alloc, files)?;
        Ok(MemDir { files })
    }

    /// Another hold on the same files.
    pub(crate) fn hold(&self) -> Result<MemDir, NoMemory>
        ensures { IfOk result (λ d. d ≡ self.now) }
    {
        let files = Arc::try_clone(&self.files)?;
        Ok(MemDir { files })
    }

    /// The files.
    pub fn files(&self) -> &[Written]
        ensures { result.now ≡ self.now }
    {
        self.files.as_slice()
    }
}

impl Dir for MemDir {
    ghost use Rattle.std.specs.Prelude.{Some};

    ghost files = { λ d. Some d };

    fn share(&self, _alloc: Global) -> Result<Self, NoMemory> {
        self.hold()
    }
}

// Adds bytes at the end of a file, which is made where it is not there.
fn append_to(
    alloc: Global,
    files: &mut Vec<Written>,
    file: FileId,
    bytes: &[u8],
) -> Result<(), NoMemory>
    ensures { OnOk result (files.new.items ≡ appended file bytes.now files.old.items) }
{
    for place in 0..files.len() {
        if files[place].file.is(file) {
            let written = &mut files[place];
            written.bytes.extend(bytes)?;
            written.synced = false;
            return Ok(());
        }
    }
    files.push(Written {
        file,
        bytes: Seq::from_slice(alloc, bytes)?,
        synced: false,
    })?;
    Ok(())
}

// Marks a file as synced, if it is there.
fn settle(files: &mut [Written], file: FileId)
    ensures { files.new ≡ settled_file file files.old }
{
    for place in 0..files.len() {
        if files[place].file.is(file) {
            files[place].synced = true;
            return;
        }
    }
}

impl MemStage {
    /// A folder with no file.
    pub(crate) fn new(alloc: Global, plan: Plan) -> MemStage
        ensures files { result.files ≡ [] }
        ensures plan { result.plan ≡ plan }
    {
        MemStage {
            alloc,
            files: Vec::new(alloc),
            plan,
        }
    }

    /// The files as they are, and how many calls have failed.
    pub(crate) fn into_parts(self) -> (Files, u64)
        ensures { result ≡ (self.files, self.plan.failed) }
    {
        let MemStage {
            alloc: _,
            files,
            plan,
        } = self;
        (Seq::of(files), plan.failed)
    }
}

impl Stage for MemStage {
    ghost use Rattle.std.specs.Prelude.{Some};

    ghost files = { λ s. Some s.files };

    ghost failed = { λ s. s.plan.failed };

    fn append(&mut self, file: FileId, bytes: &[u8]) -> Result<(), DiskError>
        ensures files { OnOk result (self.new.files ≡ appended file bytes.now self.old.files) }
        ensures cause { HasDiskCause self.old.plan.failed self.new.plan.failed result }
        ensures exactly { FailsAsListed CallKind.Append self.old.plan self.new.plan result }
    {
        if self.plan.call(CallKind::Append, false) {
            return Err(DiskError::Fault);
        }
        match append_to(self.alloc, &mut self.files, file, bytes) {
            Ok(()) => Ok(()),
            Err(NoMemory) => Err(DiskError::NoMemory),
        }
    }

    fn sync(&mut self, file: FileId) -> Result<(), DiskError>
        ensures files { OnOk result (self.new.files ≡ settled_file file self.old.files) }
        ensures err { OnErr result (self.new.files ≡ self.old.files) }
        ensures cause { HasDiskCause self.old.plan.failed self.new.plan.failed result }
        ensures exactly { FailsAsListed CallKind.Sync self.old.plan self.new.plan result }
    {
        if self.plan.call(CallKind::Sync, false) {
            return Err(DiskError::Fault);
        }
        settle(&mut self.files, file);
        Ok(())
    }

    fn faults(&self) -> u64 {
        self.plan.failed
    }
}
