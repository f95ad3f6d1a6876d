//! The case of a real folder, from its making to its removal, through its public calls: prints what each call answers, and what lies in
//! the folder. Standard output is compared with what is wanted.
#![tactic(auto)]

use disk_real::{RealArm, RealDir, RealDisk, RealStage};
use mt_base::{FileId, Name, Seq};
use mt_outside::{Arm, Disk, DiskError, Stage};
use std::alloc::Global;
use std::fs::Files;
use std::{fs, io};

/// What is printed, and the first error of the calls that are to be done.
#[derive(Drop)]
struct Told {
    alloc: Global,
    text: String,
    error: Option<DiskError>,
}

// How many names a folder of the system has. One that is not read has as many as can't be.
fn count_of(rt: &HostRuntime, path: &str) -> usize {
    match fs::read_dir(rt, path) {
        Ok(names) => names.count(),
        Err(_) => usize::MAX,
    }
}

impl Told {
    // Keeps an error, if none was before.
    fn note(&mut self, error: Option<DiskError>) {
        self.error = self.error.or(error);
    }

    // Keeps that something was not printed, where it was not.
    fn noted(&mut self, is_printed: bool) {
        if !is_printed {
            self.note(Some(DiskError::NoMemory));
        }
    }

    // Tells how a call ended.
    fn ended(&mut self, what: &str, error: Option<DiskError>) {
        let printed = match error {
            None => writeln!(self.text, "{what}: done").is_ok(),
            Some(error) => writeln!(self.text, "{what}: {error}").is_ok(),
        };
        self.noted(printed);
    }

    // Tells bytes.
    fn bytes(&mut self, what: &str, bytes: &[u8]) {
        let printed = writeln!(self.text, "{what}: \"{}\"", bytes.escape_ascii()).is_ok();
        self.noted(printed);
    }

    // Tells what is read of a file from a place on, at most eight bytes.
    fn read(&mut self, arm: &mut RealArm<HostRuntime>, dir: &RealDir, file: FileId, at: u64) {
        let mut buf = [0; 8];
        match arm.read(dir, file, at, &mut buf) {
            Ok(count) => self.bytes("read", &buf[..count]),
            Err(error) => self.note(Some(error)),
        }
    }

    // Tells what is read of the folder.
    fn reads(&mut self, arm: &mut RealArm<HostRuntime>, dir: &RealDir) {
        self.read(arm, dir, FileId::Entry, 0);
        self.read(arm, dir, FileId::Entry, 8);
        self.read(arm, dir, FileId::Column(0), 1);
        self.read(arm, dir, FileId::Column(0), 2);
        self.read(arm, dir, FileId::Column(0), u64::MAX);
        self.read(arm, dir, FileId::Column(1), 0);
        self.read(arm, dir, FileId::Column(2), 65_532);
        self.read(arm, dir, FileId::Column(2), 79_996);
    }

    // Tells the names of the root.
    fn names(&mut self, disk: &mut RealDisk<HostRuntime>) {
        match disk.list(self.alloc) {
            Ok(names) => {
                for name in &names {
                    self.bytes("name", name.as_slice());
                }
            }
            Err(error) => self.note(Some(error)),
        }
    }

    // Tells the bytes of a file of the system.
    fn file(&mut self, rt: &HostRuntime, path: &str) {
        match fs::read(rt, path) {
            Ok(bytes) => self.bytes(path, &bytes),
            Err(_) => self.bytes(path, b"not read"),
        }
    }

    // Tells how many names a folder of the system has.
    fn count(&mut self, path: &str, count: usize) {
        let printed = writeln!(self.text, "{path}: {count} names").is_ok();
        self.noted(printed);
    }

    // Begins a stage and gives it up.
    fn give_up(&mut self, arm: &mut RealArm<HostRuntime>) {
        match arm.stage(self.alloc) {
            Ok(stage) => {
                let mut stage = stage;
                self.note(stage.append(FileId::Entry, b"none").err());
                arm.abandon(stage);
            }
            Err(error) => self.note(Some(error)),
        }
    }

    // Writes a file of 80,000 bytes, four at a time. It is not synced.
    fn grow(&mut self, stage: &mut RealStage<HostRuntime>) {
        for number in 0..20_000u32 {
            self.note(stage.append(FileId::Column(2), &number.to_be_bytes()).err());
        }
    }

    // Writes and syncs two files, and syncs one that is not there.
    fn fill(&mut self, stage: &mut RealStage<HostRuntime>) {
        self.note(stage.append(FileId::Entry, b"CREATE ").err());
        self.note(stage.append(FileId::Column(0), &[1, 2]).err());
        self.note(stage.append(FileId::Entry, b"TABLE t").err());
        self.note(stage.sync(FileId::Entry).err());
        self.note(stage.sync(FileId::Column(0)).err());
        self.note(stage.sync(FileId::Marks).err());
    }

    // Publishes a folder of three files.
    fn publish(
        &mut self,
        disk: &mut RealDisk<HostRuntime>,
        arm: &mut RealArm<HostRuntime>,
        name: &Name,
    ) -> Result<RealDir, DiskError> {
        let mut stage = arm.stage(self.alloc)?;
        self.fill(&mut stage);
        self.grow(&mut stage);
        disk.publish(self.alloc, stage, name)
    }

    // Opens the folder anew, and tells what is read of it.
    fn opened(
        &mut self,
        disk: &mut RealDisk<HostRuntime>,
        arm: &mut RealArm<HostRuntime>,
        name: &Name,
    ) {
        match disk.open(self.alloc, name) {
            Ok(dir) => self.reads(arm, &dir),
            Err(error) => self.note(Some(error)),
        }
    }

    // Removes the folder, and tells what can't be done then: three faults of the disk, and one of the arm.
    fn removal(
        &mut self,
        rt: &HostRuntime,
        disk: &mut RealDisk<HostRuntime>,
        arm: &mut RealArm<HostRuntime>,
        dir: &RealDir,
        name: &Name,
    ) {
        let up = self.name(b"..");
        self.note(disk.remove(name).err());
        self.note(disk.sync_names().err());
        self.count("root", count_of(rt, "root"));
        self.ended("read", arm.read(dir, FileId::Marks, 0, &mut [0]).err());
        self.ended("open", disk.open(self.alloc, name).err());
        self.ended("remove", disk.remove(name).err());
        self.ended("open ..", disk.open(self.alloc, &up).err());
    }

    // Tells what is read of a name that is no folder's, and removes it.
    fn hollow(
        &mut self,
        rt: &HostRuntime,
        disk: &mut RealDisk<HostRuntime>,
        arm: &mut RealArm<HostRuntime>,
    ) {
        let name = self.name(b"w.create");
        let written = fs::write(rt, "root/w.create", "n").is_ok();
        self.noted(written);
        match disk.open(self.alloc, &name) {
            Ok(dir) => self.read(arm, &dir, FileId::Entry, 0),
            Err(error) => self.note(Some(error)),
        }
        self.note(disk.remove(&name).err());
        self.count("root", count_of(rt, "root"));
    }

    // Tells that no stage is begun while another folder lies under the path of the one that is held. A fault of the arm.
    fn moved(&mut self, rt: &HostRuntime, arm: &mut RealArm<HostRuntime>) {
        let away = rt.rename("root", "moved").is_ok() && rt.create_dir("root").is_ok();
        self.noted(away);
        match arm.stage(self.alloc) {
            Ok(stage) => {
                arm.abandon(stage);
                self.ended("stage", None);
            }
            Err(error) => self.ended("stage", Some(error)),
        }
        self.count("another root", count_of(rt, "root"));
        let back = rt.remove_dir("root").is_ok() && rt.rename("moved", "root").is_ok();
        self.noted(back);
    }

    // Tells what is found of the folder that was published, and removes it.
    fn folder(
        &mut self,
        rt: &HostRuntime,
        disk: &mut RealDisk<HostRuntime>,
        arm: &mut RealArm<HostRuntime>,
        dir: &RealDir,
        name: &Name,
    ) {
        self.reads(arm, dir);
        self.note(disk.sync_names().err());
        self.names(disk);
        self.file(rt, "root/t.create/entry.bin");
        self.file(rt, "root/t.create/c0.bin");
        self.opened(disk, arm, name);
        self.removal(rt, disk, arm, dir, name);
    }

    // A name of these bytes.
    fn name(&mut self, bytes: &[u8]) -> Name {
        let mut name = Vec::new(self.alloc);
        let named = name.extend_from_slice(bytes).is_ok();
        self.noted(named);
        Seq::of(name)
    }

    // Publishes a folder, and removes it.
    fn run(
        &mut self,
        rt: &HostRuntime,
        disk: &mut RealDisk<HostRuntime>,
        arm: &mut RealArm<HostRuntime>,
    ) {
        let name = self.name(b"t.create");
        self.give_up(arm);
        match self.publish(disk, arm, &name) {
            Ok(dir) => self.folder(rt, disk, arm, &dir, &name),
            Err(error) => self.note(Some(error)),
        }
        self.hollow(rt, disk, arm);
        self.moved(rt, arm);
    }

    // Tells that a folder is held: neither another disk nor this one can start over it. A fault of each.
    fn held(&mut self, rt: &HostRuntime, disk: &mut RealDisk<HostRuntime>) {
        let mut other = RealDisk::new(*rt, self.alloc);
        self.ended("another disk", other.start("root").err());
        self.ended("another start", disk.start("root").err());
    }

    // Begins with a root that is made where it is not there.
    fn run_root(&mut self, rt: &HostRuntime, disk: &mut RealDisk<HostRuntime>) {
        self.note(disk.start("root").err());
        self.held(rt, disk);
        match disk.arm(self.alloc) {
            Ok(arm) => {
                let mut arm = arm;
                self.run(rt, disk, &mut arm);
                disk.take_back(arm);
            }
            Err(error) => self.note(Some(error)),
        }
        self.ended("run", self.error);
    }

    // Tells the mark and the faults at the end.
    fn end(&mut self, mark: u64, faults: u64) {
        let printed = writeln!(self.text, "mark {mark}, {faults} faults").is_ok();
        self.noted(printed);
        self.ended("case", self.error);
    }
}

fn main(rt: HostRuntime) -> io::Result<()> {
    let alloc = rt.alloc();
    let mut disk = RealDisk::new(rt, alloc);
    let mut told = Told {
        alloc,
        text: String::new(alloc),
        error: None,
    };
    told.run_root(&rt, &mut disk);
    told.end(disk.mark(), disk.faults());
    rt.print(told.text.as_str())
}
