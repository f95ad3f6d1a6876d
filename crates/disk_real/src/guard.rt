// Which folder lies under the path of a disk: its own, or one that was put there since.
ghost use Rattle.std.specs.Prelude.{◌≡◌, ◌↔◌, IsTrue, OnOk, Some};

use crate::system::{System, metadata_of, metadata_of_open};
use file_names::owned;
use mt_base::NoMemory;
use mt_outside::DiskError;
use std::alloc::Global;
use std::fs::{File, Metadata};
use std::os::unix::fs::MetadataExt;

/// What the system knows a file by as long as it is open: the device that it lies on, and its number there.
#[derive(Clone, Copy)]
pub(crate) struct Identity {
    device: u64,
    number: u64,
}

impl Identity {
    /// That of what has this metadata.
    fn of(metadata: &Metadata) -> Identity {
        Identity {
            device: metadata.dev(),
            number: metadata.ino(),
        }
    }

    /// Whether both are of one file.
    fn is(self, other: Identity) -> bool
        ensures { IsTrue result ↔ (self ≡ other) }
    {
        self.device == other.device && self.number == other.number
    }
}

/// The lock of a folder, which is open: where it lay, and what the system knows it by. While the folder lies under its path, so does the lock.
#[derive(Drop)]
pub(crate) struct Guard {
    path: String,
    lock: Identity,
}

impl Guard {
    /// That of a lock which was opened at this path.
    pub(crate) fn new(path: String, lock: &File) -> Result<Guard, DiskError> {
        let found = metadata_of_open(lock)?;
        Ok(Guard {
            path,
            lock: Identity::of(&found),
        })
    }

    /// Another one of the same lock.
    pub(crate) fn share(&self, alloc: Global) -> Result<Guard, NoMemory> {
        Ok(Guard {
            path: owned(alloc, &self.path)?,
            lock: self.lock,
        })
    }

    /// Nothing, where the lock lies at its path; a fault, where another file does, or none. So no call goes into a folder that was put under the path
    /// of the one that is locked.
    pub(crate) fn check<R: System>(&self, rt: &R) -> Result<(), DiskError> {
        let found = metadata_of(rt, &self.path)?;
        self.pass(Identity::of(&found))
    }

    // Nothing, where this is the lock; a fault, where it is another file.
    fn pass(&self, found: Identity) -> Result<(), DiskError>
        ensures { OnOk result (found ≡ self.now.lock) }
    {
        if self.lock.is(found) {
            Ok(())
        } else {
            Err(DiskError::Fault)
        }
    }
}
