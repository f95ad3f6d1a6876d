// The folder of a disk, and the lock that keeps other disks from it.
ghost use Rattle.std.specs.Prelude.{◌≡◌, IfOk, string_bytes};

use crate::guard::Guard;
use crate::system::{System, lock_file, make_where_missing, open_to_read, sync_file, sync_folder};
use file_names::{owned, path_in};
use mt_base::NoMemory;
use mt_outside::DiskError;
use std::alloc::Global;
use std::fs::File;

// The file that is locked. Its name begins with a dot, so it is no name of the disk.
const LOCK: &str = ".lock";

/// The folder of a disk, which no other disk holds as long as this one does. The system gives the lock back where a process ends, however it ends.
///
/// It stays open, so that its names are settled wherever it is moved.
#[derive(Drop)]
pub(crate) struct Root {
    path: String,
    folder: File,
    guard: Guard,
    _lock: File,
}

impl Root {
    /// Makes a folder where it is not there, takes its lock, and makes sure that a crash does not take the folder away again. That is also asked of one
    /// that was there: a run may have been killed after it made it. Its parent is reached by the folder, so that a path by a link serves too.
    pub(crate) fn take<R: System>(rt: &R, alloc: Global, path: &str) -> Result<Root, DiskError>
        ensures { IfOk result (λ r. string_bytes r.path ≡ path.now) }
    {
        let lock_path = path_in(alloc, path, LOCK)?;
        let parent = path_in(alloc, path, "..")?;
        let path = owned(alloc, path)?;
        make_where_missing(rt, &path)?;
        let lock = lock_file(rt, &lock_path)?;
        let folder = open_to_read(rt, &path)?;
        sync_folder(rt, &parent)?;
        Ok(Root {
            path,
            folder,
            guard: Guard::new(lock_path, &lock)?,
            _lock: lock,
        })
    }

    /// Its path.
    pub(crate) fn path(&self) -> &str
        ensures { result.now ≡ string_bytes self.now.path }
    {
        &self.path
    }

    /// Makes sure that a crash leaves the names in it as they are.
    pub(crate) fn settle<R: System>(&self, rt: &R) -> Result<(), DiskError> {
        sync_file(rt, &self.folder)
    }

    /// Nothing, where it lies under its path; a fault, where another folder does, or none.
    pub(crate) fn check<R: System>(&self, rt: &R) -> Result<(), DiskError> {
        self.guard.check(rt)
    }

    /// What tells it from other folders under its path.
    pub(crate) fn guard(&self, alloc: Global) -> Result<Guard, NoMemory> {
        self.guard.share(alloc)
    }
}
