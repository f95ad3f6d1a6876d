// What a run left of the outside in memory, and how it is told.
use crate::answer::Answer;
use disk_mem::{KeptAnnals, MemDir, MemDisk, MemSink};
use mt_outside::{Disk, DiskError, Written};
use mt_values::{Command, Entry, FileId, Name};
use std::alloc::Global;

/// Where it is set in a choice, a crash leaves half of each file that was not synced, filled with zeros.
const HALVED: u64 = 1 << 63;

/// The choice by which all happened, and no byte is lost.
pub const ALL_KEPT: u64 = HALVED - 1;

/// More changes than any run here leaves unsettled.
const MANY: usize = 16;

/// What a run left, and what the next one finds.
#[derive(Drop)]
pub struct Left {
    pub status: u8,
    pub disk: MemDisk,
    /// The annals of the commands that were accepted.
    pub annals: KeptAnnals,
    /// What took the replies.
    pub sink: MemSink,
}

/// A disk over which nothing was accepted.
pub fn fresh(alloc: Global, disk: Option<MemDisk>) -> Option<Left> {
    let disk = disk?;
    Some(Left {
        status: 0,
        disk,
        annals: KeptAnnals::new(alloc),
        sink: MemSink::new(alloc, Vec::new(alloc)),
    })
}

/// The choice of a number, of which each set of changes has two: with and without lost bytes.
pub fn choice_of(number: u64) -> u64 {
    number / 2 + if number % 2 == 0 { 0 } else { HALVED }
}

/// What a crash leaves by a choice.
pub fn image_of(left: &Option<Left>, choice: u64) -> Option<MemDisk> {
    match left {
        Some(left) => left.disk.image(choice).ok(),
        None => None,
    }
}

impl Answer {
    // The names of a list of a disk.
    fn listed(&mut self, names: Result<Vec<Name>, DiskError>) -> Vec<Name> {
        self.note(names.is_ok());
        names.unwrap_or(Vec::new(self.alloc))
    }

    /// The names of what a crash leaves by a choice.
    pub fn names_of(&mut self, left: &Option<Left>, choice: u64) -> Vec<Name> {
        match image_of(left, choice) {
            Some(mut image) => self.listed(image.list(self.alloc)),
            None => self.listed(Err(DiskError::NoMemory)),
        }
    }

    /// How many choices there are of what a crash may leave: each set of the changes that are not settled, with and without lost bytes.
    /// Of more than 16 changes the sets of the first 16.
    pub fn choices(&mut self, left: &Option<Left>) -> u64 {
        // No run removes a name, so each change that is not settled adds one.
        let fewest = self.names_of(left, 0).len();
        let most = self.names_of(left, ALL_KEPT).len();
        2 << most.saturating_sub(fewest).min(MANY)
    }

    /// Prints how a run ended: its status, how many commands were accepted, and the replies.
    pub fn ending(&mut self, left: &Option<Left>) {
        match left {
            Some(left) => {
                self.number(u64::from(left.status));
                self.put(", ");
                self.number(left.annals.list().len() as u64);
                self.put(" accepted: ");
                self.bytes(left.sink.written());
            }
            None => self.note(false),
        }
    }

    // Prints a command that was accepted, as it is shown for debugging; of a mutation the table, since no statement makes one.
    fn accepted(&mut self, entry: &Entry) {
        let session = entry.session;
        let put = match &entry.command {
            Command::Create(create) => write!(self.text, "{session} {create:?} ").is_ok(),
            Command::Insert(insert) => write!(self.text, "{session} {insert:?} ").is_ok(),
            Command::Alter(alter) => {
                let table = &alter.table;
                write!(self.text, "{session} {table:?} ").is_ok()
            }
        };
        self.note(put);
    }

    /// Prints all that a run tells: its status, the commands that were accepted, as they are shown for debugging, and what was written.
    pub fn told(&mut self, status: u8, entries: &[Entry], written: &[u8]) {
        self.number(u64::from(status));
        self.put(" ");
        for entry in entries {
            self.accepted(entry);
        }
        self.escaped(written);
    }

    // Prints a name with its files, as they are shown for debugging.
    fn debug_files(&mut self, name: &Name, files: &[Written]) {
        let put = write!(self.text, "({name:?} {files:?})").is_ok();
        self.note(put);
    }

    // Prints a name with its files; nothing where it is not there.
    fn debug_folder(&mut self, disk: &mut MemDisk, name: &Name) {
        if disk.holds(name) {
            match disk.open(self.alloc, name) {
                Ok(dir) => self.debug_files(name, dir.files()),
                Err(_) => self.note(false),
            }
        }
    }

    // Prints names of a disk with their files.
    fn debug_folders(&mut self, disk: Option<MemDisk>, names: &[Name]) {
        if let Some(mut disk) = disk {
            for name in names {
                self.debug_folder(&mut disk, name);
            }
        }
    }

    /// Prints each name that a run left, the unsettled ones too, with its files as they are shown for debugging.
    pub fn debug_root(&mut self, left: &Option<Left>) {
        let names = self.names_of(left, ALL_KEPT);
        self.debug_folders(image_of(left, ALL_KEPT), &names);
    }

    // Prints the bytes of a file among those of a folder.
    fn file_in(&mut self, files: &[Written], id: FileId) {
        for written in files {
            if written.file == id {
                return self.bytes(written.bytes.as_slice());
            }
        }
        self.fail("no such file");
    }

    // The folder that has a name on a disk.
    fn dir_under(&mut self, disk: &mut MemDisk, name: &Name) -> Option<MemDir> {
        if disk.holds(name) {
            let dir = disk.open(self.alloc, name).ok();
            self.note(dir.is_some());
            return dir;
        }
        self.fail("no such name");
        None
    }

    /// The folder that has a name in what a run left, where the unsettled names count too.
    pub fn dir_left(&mut self, left: &Option<Left>, name: &Name) -> Option<MemDir> {
        match image_of(left, ALL_KEPT) {
            Some(mut image) => self.dir_under(&mut image, name),
            None => {
                self.note(false);
                None
            }
        }
    }

    /// Prints the bytes of a file of such a folder.
    pub fn file_left(&mut self, left: &Option<Left>, name: &Name, id: FileId) {
        if let Some(dir) = self.dir_left(left, name) {
            self.file_in(dir.files(), id);
        }
    }

    /// Prints names, each after a blank.
    pub fn names(&mut self, names: &[Name]) {
        for name in names {
            self.put(" ");
            self.bytes(name.as_slice());
        }
    }
}
