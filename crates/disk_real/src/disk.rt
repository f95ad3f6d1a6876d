// A folder of the system as a disk.
ghost use Rattle.std.specs.Prelude.{◌≡◌, ◌<◌, ◌⊎◌, IfOk, IsErr, IsErrOf, IsSome, IsTrue, None, OnErr, OnOk, Some};
ghost use Rattle.disk_real.specs.Stages.{AreWritten};
ghost use Rattle.file_names.specs.Names.{is_root_name};

use crate::arm::RealArm;
use crate::folder::{RealDir, RealStage};
use crate::numbers::draw;
use crate::root::Root;
use crate::system::{System, clear, is_no_folder, names_in, rename, sync_folder};
use file_names::{path_in, root_name};
use mt_base::{Name, NoMemory};
use mt_outside::{Disk, DiskError, Faults};
use std::alloc::Global;
use std::marker::Model;

/// A folder of the system as a disk, which tells nothing of what it holds. Contracts see its mark, how many of its calls have failed, and the path
/// that it was started with.
///
/// Until it is started, each of its calls that reach the folder is a fault.
#[derive(Drop)]
pub struct RealDisk<R> {
    rt: R,
    alloc: Global,
    /// The folder, from the start on.
    root: Option<Root>,
    /// The numbers of the next arm, of the next folder that is done and of the next that is removed.
    arms: u64,
    dirs: u64,
    removals: u64,
    clock: u64,
    faults: Faults,
}

impl<R> Model for RealDisk<R> {
    ghost use Rattle.std.specs.Prelude.{string_bytes};
    ghost use Rattle.std.specs.Option.{option_map};
    ghost use Rattle.disk_real.specs.States.{DiskState};

    ghost Value = { DiskState };

    ghost view = { λ d. record { clock = d.clock; failed = d.faults.count; started = option_map (λ r. string_bytes r.path) d.root } };
}

impl<R: System> RealDisk<R> {
    /// A disk without a folder, with the mark 0. No call has failed. Takes no memory.
    pub fn new(rt: R, alloc: Global) -> RealDisk<R>
        ensures clock { result.clock ≡ 0 }
        ensures failed { result.failed ≡ 0 }
        ensures started { result.started ≡ None }
    {
        RealDisk {
            rt,
            alloc,
            root: None,
            arms: 0,
            dirs: 0,
            removals: 0,
            clock: 0,
            faults: Faults::none(),
        }
    }

    // Takes the folder, and holds it. A disk has one folder: another start is a fault.
    fn begin(&mut self, path: &str) -> Result<(), DiskError>
        ensures clock { self.new.clock ≡ self.old.clock }
        ensures failed { self.new.failed ≡ self.old.failed }
        ensures started { OnOk result (self.new.started ≡ Some path.now) }
        ensures once { IsSome self.old.started → IsErrOf result DiskError.Fault }
        ensures err { OnErr result (self.new ≡ self.old) }
    {
        if self.root.is_some() {
            return Err(DiskError::Fault);
        }
        self.root = Some(Root::take(&self.rt, self.alloc, path)?);
        Ok(())
    }

    // The folder. Before the start there is none.
    fn folder(&self) -> Result<&Root, DiskError>
        ensures { self.now.started ≡ None → IsErrOf result DiskError.Fault }
    {
        match &self.root {
            Some(root) => Ok(root),
            None => Err(DiskError::Fault),
        }
    }

    // The path of the folder.
    fn path(&self) -> Result<&str, DiskError>
        ensures { self.now.started ≡ None → IsErrOf result DiskError.Fault }
    {
        Ok(self.folder()?.path())
    }

    // An arm with a number of its own.
    fn make_arm(&mut self, alloc: Global) -> Result<RealArm<R>, DiskError>
        ensures same { self.new ≡ self.old }
        ensures none_failed { IfOk result (λ a. a ≡ 0) }
        ensures unstarted { self.old.started ≡ None → IsErr result }
    {
        let number = draw(&mut self.arms)?;
        RealArm::new(&self.rt, alloc, self.folder()?, number)
    }

    // The path of the folder that has this name.
    fn path_of(&self, alloc: Global, name: &Name) -> Result<String, DiskError>
        ensures unstarted { self.now.started ≡ None → IsErr result }
        ensures name { IsTrue (is_root_name name.now) ⊎ IsErr result }
    {
        let root = self.path()?;
        match root_name(name) {
            Some(name) => Ok(path_in(alloc, root, name)?),
            None => Err(DiskError::Fault),
        }
    }

    // The names in the folder, which may be given by a link to it.
    fn names(&self, alloc: Global) -> Result<Vec<Name>, DiskError>
        ensures unstarted { self.now.started ≡ None → IsErr result }
    {
        let here = path_in(alloc, self.path()?, ".")?;
        names_in(&self.rt, alloc, &here)
    }

    // Nothing, where the folder lies under its path; a fault, where another one does, or none.
    fn check(&self) -> Result<(), DiskError>
        ensures unstarted { self.now.started ≡ None → IsErr result }
    {
        self.folder()?.check(&self.rt)
    }

    // Settles the names in the folder.
    fn settle(&self) -> Result<(), DiskError>
        ensures unstarted { self.now.started ≡ None → IsErr result }
    {
        self.folder()?.settle(&self.rt)
    }

    // The folder of a name, or what has the name and is no folder.
    fn find(&mut self, alloc: Global, name: &Name) -> Result<RealDir, DiskError>
        ensures { self.new ≡ self.old }
    {
        let number = draw(&mut self.dirs)?;
        let path = self.path_of(alloc, name)?;
        if is_no_folder(&self.rt, &path)? {
            Ok(RealDir::hollow(path, number))
        } else {
            Ok(RealDir::new(path, number))
        }
    }

    // Gives a stage a name, if none of its calls had failed and the folder lies under its path. What is gathered of its files is written before.
    fn give(
        &mut self,
        alloc: Global,
        stage: &mut RealStage<R>,
        name: &Name,
    ) -> Result<RealDir, DiskError>
        ensures same { self.new ≡ self.old }
        ensures failed { 0 < stage.old.failed → IsErrOf result DiskError.Fault }
        ensures written { OnOk result (AreWritten stage.new.unsynced) }
    {
        if stage.has_failed() {
            return Err(DiskError::Fault);
        }
        let number = draw(&mut self.dirs)?;
        let path = self.path_of(alloc, name)?;
        stage.write_out()?;
        sync_folder(&self.rt, stage.path())?;
        self.check()?;
        rename(&self.rt, stage.path(), &path)?;
        Ok(RealDir::new(path, number))
    }

    // Takes a name away, and once that is settled removes its folder with its files. So no crash leaves the name with some of its files gone.
    fn cut(&mut self, name: &Name) -> Result<(), DiskError>
        ensures { self.new ≡ self.old }
    {
        let number = draw(&mut self.removals)?;
        let path = self.path_of(self.alloc, name)?;
        self.hide(&path, number)
    }

    // Gives what has a path the path of this removal, and once that is settled removes it with its files. Before each step the folder is to lie under
    // its path.
    fn hide(&self, path: &str, number: u64) -> Result<(), DiskError> {
        let root = self.folder()?;
        let hidden = removed_path(self.alloc, root.path(), number)?;
        root.check(&self.rt)?;
        clear(&self.rt, self.alloc, &hidden)?;
        root.check(&self.rt)?;
        rename(&self.rt, path, &hidden)?;
        root.settle(&self.rt)?;
        root.check(&self.rt)?;
        clear(&self.rt, self.alloc, &hidden)
    }
}

// The path that the folder of a name gets that is removed.
fn removed_path(alloc: Global, root: &str, number: u64) -> Result<String, NoMemory> {
    Ok(format!(in alloc; "{root}/.removed_{number}")?)
}

impl<R: System + Send> Disk for RealDisk<R> {
    type Arm = RealArm<R>;

    ghost use Rattle.std.specs.Prelude.{None};

    ghost told = { λ _. None };

    ghost clock = { λ d. d.clock };

    ghost failed = { λ d. d.failed };

    ghost started = { λ d. d.started };

    /// The folder is held until the disk is dropped. One that another disk holds is a fault, at once and with nothing read or changed. So is one that
    /// can't be made, locked or settled, and a second start. Parents are not made. A path may be a link to a folder.
    fn start(&mut self, path: &str) -> Result<(), DiskError> {
        let begun = self.begin(path);
        self.faults.note(begun)
    }

    fn arm(&mut self, alloc: Global) -> Result<RealArm<R>, DiskError> {
        let made = self.make_arm(alloc);
        self.faults.note(made)
    }

    fn take_back(&mut self, arm: RealArm<R>) {
        self.faults.take(arm.into_count());
    }

    /// In the order of their bytes, whether they are UTF-8 or not.
    fn list(&mut self, alloc: Global) -> Result<Vec<Name>, DiskError> {
        let names = self.names(alloc);
        self.faults.note(names)
    }

    fn open(&mut self, alloc: Global, name: &Name) -> Result<RealDir, DiskError> {
        let found = self.find(alloc, name);
        self.faults.note(found)
    }

    /// A stage of which a call had failed, and a name that is none of the root, is a fault. A stage that gets no name is removed, as far as that can be done.
    fn publish(
        &mut self,
        alloc: Global,
        stage: RealStage<R>,
        name: &Name,
    ) -> Result<RealDir, DiskError> {
        let mut stage = stage;
        let given = self.give(alloc, &mut stage, name);
        if given.is_err() {
            let _ = stage.remove();
        }
        let _ = stage.into_count();
        self.faults.note(given)
    }

    /// The folder is first given a name that `list` leaves out. Once that is settled it is removed with its files. Where memory is refused that is a fault.
    fn remove(&mut self, name: &Name) -> Result<(), DiskError> {
        let gone = self.cut(name).is_ok();
        self.faults.finish(gone)
    }

    fn sync_names(&mut self) -> Result<(), DiskError> {
        let settled = self.clock < u64::MAX && self.settle().is_ok();
        if settled {
            self.clock += 1;
        }
        self.faults.finish(settled)
    }

    fn mark(&self) -> u64 {
        self.clock
    }

    fn faults(&self) -> u64 {
        self.faults.count
    }
}
