// What reads folders of a real disk and makes stages.
ghost use Rattle.std.specs.Prelude.{◌≡◌, ◌≤◌, ◌<◌, ℕ, IfOk, IsSomeAnd, IsTrue, MatchResult, length};
ghost use Rattle.disk_real.specs.Sizes.{most_bytes};

use crate::folder::{RealDir, RealStage, file_path};
use crate::guard::Guard;
use crate::numbers::draw;
use crate::root::Root;
use crate::sizes::is_past;
use crate::system::{Found, System, find, is_folder, open_to_read, read_at};
use file_names::owned;
use mt_base::{FileId, NoMemory};
use mt_outside::{Arm, DiskError, Faults};
use std::alloc::Global;
use std::fs::File;
use std::marker::Model;

// A file that is open to be read, with its path and the number of its folder.
#[derive(Drop)]
struct Opened {
    folder: u64,
    path: String,
    handle: File,
}

/// An arm of a real disk. Contracts see how many of its calls have failed.
///
/// It keeps the file open that it read last.
pub struct RealArm<R> {
    rt: R,
    alloc: Global,
    root: String,
    guard: Guard,
    number: u64,
    /// The number of its next stage.
    stages: u64,
    kept: Option<Opened>,
    faults: Faults,
}

impl<R> Model for RealArm<R> {
    ghost Value = { ℕ };

    ghost view = { λ a. a.faults.count };
}

impl<R: System> RealArm<R> {
    /// An arm of which no call was made.
    pub(crate) fn new(
        rt: &R,
        alloc: Global,
        root: &Root,
        number: u64,
    ) -> Result<RealArm<R>, DiskError>
        ensures { IfOk result (λ a. a ≡ 0) }
    {
        let guard = root.guard(alloc)?;
        let root = owned(alloc, root.path())?;
        let Ok(rt) = rt.clone() else {
            return Err(DiskError::NoMemory);
        };
        Ok(RealArm {
            rt,
            alloc,
            root,
            guard,
            number,
            stages: 0,
            kept: None,
            faults: Faults::none(),
        })
    }

    /// Ends the arm: how many of its calls have failed.
    pub(crate) fn into_count(self) -> u64
        ensures { result ≡ self }
    {
        let RealArm {
            rt: _,
            alloc: _,
            root: _,
            guard: _,
            number: _,
            stages: _,
            kept: _,
            faults,
        } = self;
        faults.count
    }

    // Makes the folder `.stage_<arm>_<stage>` of the root.
    fn make_stage(&mut self, alloc: Global) -> Result<RealStage<R>, DiskError>
        ensures same { self.new ≡ self.old }
        ensures none_failed { IfOk result (λ s. s.failed ≡ 0) }
    {
        let stage = draw(&mut self.stages)?;
        let path = stage_path(alloc, &self.root, self.number, stage)?;
        let guard = self.guard.share(alloc)?;
        let Ok(rt) = self.rt.clone() else {
            return Err(DiskError::NoMemory);
        };
        RealStage::new(rt, alloc, path, guard)
    }

    // Whether this is the file that is kept.
    fn keeps(&self, dir: &RealDir, path: &String) -> bool {
        match &self.kept {
            Some(opened) => opened.folder == dir.number() && opened.path == *path,
            None => false,
        }
    }

    // Keeps this file open, if it is there. A folder that is gone is a fault.
    fn keep(&mut self, dir: &RealDir, file: FileId) -> Result<(), DiskError>
        ensures { self.new ≡ self.old }
    {
        let path = file_path(self.alloc, dir.path(), file)?;
        if !self.keeps(dir, &path) {
            self.kept = open_in(&self.rt, dir, path)?;
        }
        Ok(())
    }

    // Reads the bytes of a file from a place on. After an error it is not kept. What is no folder has no files. A file that is longer than its format
    // lets it be is read no further than a piece past that, so that it takes no more memory: it is damaged, whatever follows.
    fn read_file(
        &mut self,
        dir: &RealDir,
        file: FileId,
        at: u64,
        buf: &mut [u8],
    ) -> Result<usize, DiskError>
        ensures same { self.new ≡ self.old }
        ensures bound { IfOk result (λ n. n ≤ length buf.new) }
        ensures hollow { IsTrue dir.now.hollow → MatchResult result (λ n. n ≡ 0) (λ _. ⊥) }
        ensures past { IsSomeAnd (most_bytes file) (λ most. most < at)
            → MatchResult result (λ n. n ≡ 0) (λ _. ⊥) }
    {
        if dir.is_hollow() || is_past(file, at) {
            return Ok(0);
        }
        self.keep(dir, file)?;
        let count = match &self.kept {
            Some(opened) => read_at(&opened.handle, at, buf),
            None => return Ok(0),
        };
        if count.is_err() {
            self.kept = None;
        }
        count
    }
}

// Opens a file of a folder to be read. What is no regular file is not opened: it reads as one that is not there.
fn open_in<R: System>(rt: &R, dir: &RealDir, path: String) -> Result<Option<Opened>, DiskError> {
    match find(rt, &path)? {
        Found::File => {
            let handle = open_to_read(rt, &path)?;
            Ok(Some(Opened {
                folder: dir.number(),
                path,
                handle,
            }))
        }
        Found::Other => Ok(None),
        Found::Nothing if is_folder(rt, dir.path()) => Ok(None),
        Found::Nothing => Err(DiskError::Fault),
    }
}

fn stage_path(alloc: Global, root: &str, arm: u64, stage: u64) -> Result<String, NoMemory> {
    Ok(format!(in alloc; "{root}/.stage_{arm}_{stage}")?)
}

impl<R: System + Send> Arm for RealArm<R> {
    type Stage = RealStage<R>;

    type Dir = RealDir;

    ghost use Rattle.std.specs.Prelude.{false};

    ghost tells = { λ _. false };

    ghost failed = { λ a. a };

    fn stage(&mut self, alloc: Global) -> Result<RealStage<R>, DiskError> {
        let made = self.make_stage(alloc);
        self.faults.note(made)
    }

    /// The stage is removed, as far as that can be done: what is left of it is no name, and goes where a stage gets its number again.
    fn abandon(&mut self, stage: RealStage<R>) {
        let _ = stage.remove();
        self.faults.take(stage.into_count());
    }

    fn read(
        &mut self,
        dir: &RealDir,
        file: FileId,
        at: u64,
        buf: &mut [u8],
    ) -> Result<usize, DiskError> {
        let count = self.read_file(dir, file, at, buf);
        self.faults.note(count)
    }

    fn faults(&self) -> u64 {
        self.faults.count
    }
}
