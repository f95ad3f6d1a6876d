// Folders of the root: one that is being made, and one that is done.
ghost use Rattle.std.specs.Prelude.{◌≡◌, ◌<◌, ◌↔◌, [], IfOk, IsTrue, OnErr, OnOk, false, string_bytes, true};
ghost use Rattle.disk_real.specs.Stages.{AreWritten, files_of, has, without};

use crate::guard::Guard;
use crate::handles::Handles;
use crate::system::{System, clear, make_folder, open_at_end, sync_file};
use file_names::path_in;
use mt_base::{FileId, NoMemory};
use mt_outside::{Dir, DiskError, Faults, Stage};
use std::alloc::Global;
use std::marker::Model;

/// A folder that is being made. Contracts see how many of its calls have failed, and which of its files were written since their last sync, with what
/// is gathered of each.
///
/// Each file stays open from its first write until it is synced, by the handle that writes it.
pub struct RealStage<R> {
    rt: R,
    alloc: Global,
    path: String,
    /// Of the root that it lies in.
    guard: Guard,
    handles: Handles,
    faults: Faults,
}

impl<R> Model for RealStage<R> {
    ghost use Rattle.disk_real.specs.States.{StageState};

    ghost Value = { StageState };

    ghost view = { λ s. record { failed = s.faults.count; unsynced = s.handles } };
}

/// A folder that is done. Its holds share one number, which no other folder of its disk has. Contracts see its path, that number, and whether it is
/// a folder at all.
#[derive(Drop)]
pub struct RealDir {
    path: String,
    number: u64,
    /// Whether no folder has its name. It has no files then.
    is_hollow: bool,
}

impl Model for RealDir {
    ghost use Rattle.std.specs.Prelude.{string_bytes};
    ghost use Rattle.disk_real.specs.States.{DirState};

    ghost Value = { DirState };

    ghost view = { λ d. record { path = string_bytes d.path; number = d.number; hollow = d.is_hollow } };
}

impl RealDir {
    /// The folder of this path.
    pub(crate) fn new(path: String, number: u64) -> RealDir
        ensures path { result.path ≡ string_bytes path }
        ensures number { result.number ≡ number }
        ensures hollow { result.hollow ≡ false }
    {
        RealDir {
            path,
            number,
            is_hollow: false,
        }
    }

    /// What stands at this path and is no folder: it reads as a folder without files.
    pub(crate) fn hollow(path: String, number: u64) -> RealDir
        ensures path { result.path ≡ string_bytes path }
        ensures number { result.number ≡ number }
        ensures hollow { result.hollow ≡ true }
    {
        RealDir {
            path,
            number,
            is_hollow: true,
        }
    }

    /// Its path.
    pub(crate) fn path(&self) -> &str
        ensures { result.now ≡ self.now.path }
    {
        &self.path
    }

    /// Whether it is no folder, and has no files.
    pub(crate) fn is_hollow(&self) -> bool
        ensures { result ≡ self.now.hollow }
    {
        self.is_hollow
    }

    /// The number that its disk gave it.
    pub(crate) fn number(&self) -> u64
        ensures { result ≡ self.now.number }
    {
        self.number
    }
}

impl Dir for RealDir {
    ghost use Rattle.std.specs.Prelude.{None};

    ghost files = { λ _. None };

    fn share(&self, alloc: Global) -> Result<Self, NoMemory> {
        Ok(RealDir {
            path: String::from_str(alloc, &self.path)?,
            number: self.number,
            is_hollow: self.is_hollow,
        })
    }
}

/// The path of a file in a folder.
pub(crate) fn file_path(alloc: Global, folder: &str, file: FileId) -> Result<String, NoMemory> {
    let name = file.name(alloc)?;
    path_in(alloc, folder, &name)
}

impl<R: System> RealStage<R> {
    /// Makes the folder, without files, in place of what stands there. Where another folder lies under the root's path, nothing is changed in that, and
    /// it is a fault.
    pub(crate) fn new(
        rt: R,
        alloc: Global,
        path: String,
        guard: Guard,
    ) -> Result<RealStage<R>, DiskError>
        ensures none_failed { IfOk result (λ s. s.failed ≡ 0) }
        ensures none_open { IfOk result (λ s. s.unsynced ≡ []) }
    {
        guard.check(&rt)?;
        make_folder(&rt, alloc, &path)?;
        Ok(RealStage {
            rt,
            alloc,
            path,
            guard,
            handles: Handles::new(alloc),
            faults: Faults::none(),
        })
    }

    /// Its path.
    pub(crate) fn path(&self) -> &str {
        &self.path
    }

    /// Whether one of its calls has failed.
    pub(crate) fn has_failed(&self) -> bool
        ensures { IsTrue result ↔ 0 < self.now.failed }
    {
        self.faults.count > 0
    }

    /// Ends the stage: how many of its calls have failed. Its folder stays.
    pub(crate) fn into_count(self) -> u64
        ensures { result ≡ self.failed }
    {
        let RealStage {
            rt: _,
            alloc: _,
            path: _,
            guard: _,
            handles: _,
            faults,
        } = self;
        faults.count
    }

    /// Removes the folder with its files, where it is there and its root lies under its path. It takes no memory, since no folder lies in it.
    pub(crate) fn remove(&self) -> Result<(), DiskError> {
        self.guard.check(&self.rt)?;
        clear(&self.rt, self.alloc, &self.path)
    }

    // Opens a file to be written at its end, where it is not open.
    fn open(&mut self, file: FileId) -> Result<(), DiskError>
        ensures same { self.new.failed ≡ self.old.failed }
        ensures open { OnOk result (IsTrue (has file self.new.unsynced)) }
    {
        if self.handles.get(file).is_none() {
            let path = file_path(self.alloc, &self.path, file)?;
            let handle = open_at_end(&self.rt, &path)?;
            self.handles.add(self.alloc, file, handle)?;
        }
        Ok(())
    }

    // Adds bytes at the end of a file. Its handle is kept, also where a write fails.
    fn write(&mut self, file: FileId, bytes: &[u8]) -> Result<(), DiskError>
        ensures same { self.new.failed ≡ self.old.failed }
        ensures open { OnOk result (IsTrue (has file self.new.unsynced)) }
    {
        self.open(file)?;
        self.handles.append(file, bytes)
    }

    /// Writes what is gathered of its files.
    pub(crate) fn write_out(&mut self) -> Result<(), DiskError>
        ensures same { self.new.failed ≡ self.old.failed }
        ensures files { files_of self.new.unsynced ≡ files_of self.old.unsynced }
        ensures written { OnOk result (AreWritten self.new.unsynced) }
    {
        self.handles.write_out()
    }

    // Writes what is gathered, settles a file by the handle that wrote it, and closes it. One that was not written since its last sync is settled already.
    fn settle(&mut self, file: FileId) -> Result<(), DiskError>
        ensures same { self.new.failed ≡ self.old.failed }
        ensures written { OnOk result (AreWritten self.new.unsynced) }
        ensures synced { OnOk result
            (files_of self.new.unsynced ≡ files_of (without file self.old.unsynced)) }
        ensures err { OnErr result (files_of self.new.unsynced ≡ files_of self.old.unsynced) }
    {
        self.handles.write_out()?;
        if let Some(handle) = self.handles.get(file) {
            sync_file(&self.rt, handle)?;
        }
        self.handles.close(file);
        Ok(())
    }
}

impl<R: System + Send> Stage for RealStage<R> {
    ghost use Rattle.std.specs.Prelude.{None};

    ghost files = { λ _. None };

    ghost failed = { λ s. s.failed };

    /// Few bytes are gathered: they are written once they are many, and before a sync. A write that fails then is a fault of that call. An interrupted
    /// write is tried again, at most `MOST_TRIES` times in all; one that takes nothing is a fault.
    fn append(&mut self, file: FileId, bytes: &[u8]) -> Result<(), DiskError> {
        let done = self.write(file, bytes);
        self.faults.note(done)
    }

    fn sync(&mut self, file: FileId) -> Result<(), DiskError> {
        let done = self.settle(file);
        self.faults.note(done)
    }

    fn faults(&self) -> u64 {
        self.faults.count
    }
}
