// The open files of a stage.
ghost use Rattle.std.specs.Prelude.{◌≡◌, ◌++◌, ◌∷◌, [], ◌↔◌, All, IsSome, IsTrue, OnErr, OnOk, map};
ghost use Rattle.std.specs.List.{list_any};
ghost use Rattle.mt_base.specs.Files.{same_file};
ghost use Rattle.disk_real.specs.Stages.{AreWritten, files_of, has, without};

use crate::gathering::Gathering;
use mt_base::{FileId, NoMemory};
use mt_outside::DiskError;
use std::alloc::Global;
use std::fs::File;
use std::marker::Model;

/// The files of a stage that were written since their last sync, each open by the handle that writes it. Contracts see which these are, and what is
/// gathered of each.
///
/// A sync asks that handle whether each of its writes came through. A file that is closed and opened again tells only of what failed since:
/// the system may have forgotten by then that a write before failed.
#[derive(Drop)]
pub(crate) struct Handles {
    open: Vec<(FileId, Gathering<File>)>,
}

impl Model for Handles {
    ghost use Rattle.std.specs.Prelude.{ℕ, List, map};
    ghost use Rattle.mt_base.specs.declared.name.FileId.{FileId};

    ghost Value = { List (FileId × List ℕ) };

    ghost view = { λ h. map (λ o. (o.0, o.1.bytes)) h.open.items };
}

impl Handles {
    /// No file is open. Takes no memory.
    pub(crate) fn new(alloc: Global) -> Handles
        ensures { result ≡ [] }
    {
        Handles {
            open: Vec::new(alloc),
        }
    }

    /// The handle that writes a file since its last sync, if one does.
    pub(crate) fn get(&self, file: FileId) -> Option<&File>
        ensures { IsSome result ↔ IsTrue (has file self.now) }
    {
        for (written, growing) in &self.open {
            if written.is(file) {
                return Some(growing.writer());
            }
        }
        None
    }

    /// Keeps the handle of one more file, of which nothing is gathered.
    pub(crate) fn add(&mut self, alloc: Global, file: FileId, handle: File) -> Result<(), NoMemory>
        ensures ok { OnOk result (self.new ≡ self.old ++ (file, []) ∷ []) }
        ensures err { OnErr result (self.new ≡ self.old) }
    {
        self.open.push((file, Gathering::new(alloc, handle)))?;
        Ok(())
    }

    /// Adds bytes at the end of an open file; they may be gathered.
    pub(crate) fn append(&mut self, file: FileId, bytes: &[u8]) -> Result<(), DiskError>
        requires { IsTrue (has file self.old) }
        ensures { files_of self.new ≡ files_of self.old }
    {
        append_among(&mut self.open, file, bytes)
    }

    /// Writes what is gathered of each file.
    pub(crate) fn write_out(&mut self) -> Result<(), DiskError>
        ensures same { files_of self.new ≡ files_of self.old }
        ensures written { OnOk result (AreWritten self.new) }
    {
        write_each(&mut self.open)
    }

    /// Closes a file that is synced. Nothing is gathered then.
    pub(crate) fn close(&mut self, file: FileId)
        requires { AreWritten self.old }
        ensures { self.new ≡ without file self.old }
    {
        self.open.retain(|(written, _)| !written.is(file));
    }
}

// Adds bytes at the end of the file, which is one of these.
fn append_among(
    files: &mut [(FileId, Gathering<File>)],
    file: FileId,
    bytes: &[u8],
) -> Result<(), DiskError>
    requires { IsTrue (list_any (λ o. same_file o.0 file) files.old) }
    ensures { map (λ o. o.0) files.new ≡ map (λ o. o.0) files.old }
{
    for place in 0..files.len() {
        if files[place].0.is(file) {
            return files[place].1.push(bytes);
        }
    }
    unreachable!()
}

// Writes what is gathered of each of these.
fn write_each(files: &mut [(FileId, Gathering<File>)]) -> Result<(), DiskError>
    ensures same { map (λ o. o.0) files.new ≡ map (λ o. o.0) files.old }
    ensures written { OnOk result (All (λ o. o.1.bytes ≡ []) files.new) }
{
    for place in 0..files.len() {
        files[place].1.write_out()?;
    }
    Ok(())
}
