// Calls of the system on folders and files, each of whose errors is a fault.
ghost use Rattle.std.specs.Prelude.{◌≡◌, ◌↔◌, ◌≤◌, length, IfOk};
ghost use Rattle.std.specs.Fs.{IsFile, file_type};

use crate::tries::read_whole;
use file_names::add_shown_names;
use mt_base::{Name, NoMemory};
use mt_outside::{DiskError, MOST_TRIES};
use std::alloc::Global;
use std::fs::{File, Files, Metadata, OpenOptions};
use std::io;
use std::io::{ErrorKind, Read};
use std::os::unix::fs::FileExt;

/// What the real disk asks of a runtime: files and folders. The runtime of a program is one.
pub trait System: Files<File = File> + Clone + Drop {}

impl<R: Files<File = File> + Clone + Drop> System for R {}

/// The last place that a file of the system may have.
const LAST_PLACE: u64 = (1 << 63) - 1;

// How many bytes of the names in a folder are read at once, of which each has 255 at most.
const NAMES_ROOM: usize = 4096;

/// Each error of the system is a fault.
pub(crate) fn fault(_error: io::Error) -> DiskError {
    DiskError::Fault
}

// Want of memory among the errors of the system.
fn memory(_: NoMemory) -> io::Error {
    io::Error::from(ErrorKind::OutOfMemory)
}

// An error of a call that also takes memory itself.
fn memory_or_fault(error: io::Error) -> DiskError {
    if error.kind() == ErrorKind::OutOfMemory {
        DiskError::NoMemory
    } else {
        DiskError::Fault
    }
}

// A call of the system that answers nothing.
#[derive(Clone, Copy)]
enum Order<'a> {
    MakeFolder(&'a str),
    RemoveFolder(Global, &'a str),
    RemoveFile(&'a str),
    Rename(&'a str, &'a str),
    // Makes sure that a crash leaves what is open as it is.
    Settle(&'a File),
}

// Makes a call once.
fn perform_once<R: System>(rt: &R, order: Order) -> io::Result<()> {
    match order {
        Order::MakeFolder(path) => rt.create_dir(path),
        Order::RemoveFolder(alloc, path) => rt.remove_dir_all(alloc, path),
        Order::RemoveFile(path) => rt.remove_file(path),
        Order::Rename(from, to) => rt.rename(from, to),
        Order::Settle(file) => file.sync_all(),
    }
}

// Makes a call, and makes it again where it was interrupted.
fn perform<R: System>(rt: &R, order: Order) -> io::Result<()> {
    for _ in 0..MOST_TRIES {
        match perform_once(rt, order) {
            Err(error) if error.kind() == ErrorKind::Interrupted => {}
            outcome => return outcome,
        }
    }
    Err(io::Error::from(ErrorKind::Interrupted))
}

// Opens a file, and tries again where that was interrupted.
fn open<R: System>(rt: &R, path: &str, options: &OpenOptions) -> io::Result<File> {
    for _ in 0..MOST_TRIES {
        match rt.open_file(options, path) {
            Err(error) if error.kind() == ErrorKind::Interrupted => {}
            outcome => return outcome,
        }
    }
    Err(io::Error::from(ErrorKind::Interrupted))
}

// Opens a file or a folder to be read, also by a link.
fn open_readable<R: System>(rt: &R, path: &str) -> io::Result<File> {
    let mut options = OpenOptions::new();
    options.read(true);
    open(rt, path, &options)
}

/// Makes a folder where it is not there. Its parents are not made.
pub(crate) fn make_where_missing<R: System>(rt: &R, path: &str) -> Result<(), DiskError> {
    match perform(rt, Order::MakeFolder(path)) {
        Err(error) if error.kind() != ErrorKind::AlreadyExists => Err(fault(error)),
        _ => Ok(()),
    }
}

/// Makes an empty folder, in place of what stands there, whatever it is.
pub(crate) fn make_folder<R: System>(rt: &R, alloc: Global, path: &str) -> Result<(), DiskError> {
    match perform(rt, Order::MakeFolder(path)) {
        Err(error) if error.kind() == ErrorKind::AlreadyExists => {
            clear(rt, alloc, path)?;
            perform(rt, Order::MakeFolder(path)).map_err(fault)
        }
        made => made.map_err(fault),
    }
}

/// Makes sure that a crash leaves the names in a folder as they are.
pub(crate) fn sync_folder<R: System>(rt: &R, path: &str) -> Result<(), DiskError> {
    match open_readable(rt, path) {
        Ok(folder) => sync_file(rt, &folder),
        Err(error) => Err(fault(error)),
    }
}

// Removes what stands at a path: a folder with its files, a link and not what it leads to, or what else is no folder.
fn remove_any<R: System>(rt: &R, alloc: Global, path: &str) -> io::Result<()> {
    match perform(rt, Order::RemoveFolder(alloc, path)) {
        Err(error) if error.kind() == ErrorKind::NotADirectory => perform(
            rt,
            Order::RemoveFile(path),
        ),
        outcome => outcome,
    }
}

/// Removes what stands at a path, whatever it is, where something does. It takes memory only where there are folders in a folder.
pub(crate) fn clear<R: System>(rt: &R, alloc: Global, path: &str) -> Result<(), DiskError> {
    match remove_any(rt, alloc, path) {
        Ok(()) => Ok(()),
        Err(error) if error.kind() == ErrorKind::NotFound => Ok(()),
        Err(error) => Err(memory_or_fault(error)),
    }
}

/// Gives a folder another name.
pub(crate) fn rename<R: System>(rt: &R, from: &str, to: &str) -> Result<(), DiskError> {
    perform(rt, Order::Rename(from, to)).map_err(fault)
}

// What is looked at where a link stands at a path.
#[derive(Clone, Copy)]
enum Links {
    // What it leads to.
    Followed,
    // The link.
    Kept,
}

// The metadata of what stands at a path, asked again where that was interrupted.
fn look<R: System>(rt: &R, path: &str, links: Links) -> io::Result<Metadata> {
    for _ in 0..MOST_TRIES {
        let found = match links {
            Links::Followed => rt.metadata(path),
            Links::Kept => rt.symlink_metadata(path),
        };
        match found {
            Err(error) if error.kind() == ErrorKind::Interrupted => {}
            outcome => return outcome,
        }
    }
    Err(io::Error::from(ErrorKind::Interrupted))
}

/// The metadata of what stands at a path. A link is not followed.
pub(crate) fn metadata_of<R: System>(rt: &R, path: &str) -> Result<Metadata, DiskError> {
    look(rt, path, Links::Kept).map_err(fault)
}

/// The metadata of an open file, asked again where that was interrupted.
pub(crate) fn metadata_of_open(file: &File) -> Result<Metadata, DiskError> {
    for _ in 0..MOST_TRIES {
        match file.metadata() {
            Err(error) if error.kind() == ErrorKind::Interrupted => {}
            outcome => return outcome.map_err(fault),
        }
    }
    Err(DiskError::Fault)
}

/// Whether there is a folder.
pub(crate) fn is_folder<R: System>(rt: &R, path: &str) -> bool {
    match look(rt, path, Links::Followed) {
        Ok(metadata) => metadata.is_dir(),
        Err(_) => false,
    }
}

// Whether this is the error of a link that leads to nothing.
fn leads_nowhere(kind: ErrorKind) -> bool {
    kind == ErrorKind::NotFound
        || kind == ErrorKind::NotADirectory
        || kind == ErrorKind::FilesystemLoop
}

/// Whether what stands at a path is no folder, and no link to one. Where nothing does, that is a fault.
pub(crate) fn is_no_folder<R: System>(rt: &R, path: &str) -> Result<bool, DiskError> {
    let found = metadata_of(rt, path)?;
    if !found.is_symlink() {
        return Ok(!found.is_dir());
    }
    match look(rt, path, Links::Followed) {
        Ok(metadata) => Ok(!metadata.is_dir()),
        Err(error) if leads_nowhere(error.kind()) => Ok(true),
        Err(error) => Err(fault(error)),
    }
}

/// What lies at a path. A link is not followed.
#[derive(Clone, Copy)]
pub(crate) enum Found {
    Nothing,
    File,
    /// A folder, a link, a pipe, or what else is no regular file.
    Other,
}

// What has this metadata.
fn kind_of(metadata: &Metadata) -> Found
    ensures file { result ≡ Found.File ↔ IsFile (file_type metadata.now) }
    ensures there { result ≡ Found.Nothing → ⊥ }
{
    if metadata.is_file() {
        Found::File
    } else {
        Found::Other
    }
}

/// What lies at a path.
pub(crate) fn find<R: System>(rt: &R, path: &str) -> Result<Found, DiskError> {
    match look(rt, path, Links::Kept) {
        Ok(metadata) => Ok(kind_of(&metadata)),
        Err(error) if error.kind() == ErrorKind::NotFound => Ok(Found::Nothing),
        Err(error) => Err(fault(error)),
    }
}

/// Locks a file against all that lock it too, until it is closed. It is made where it is not there. One that is locked already is a fault, and so is
/// what is no regular file.
pub(crate) fn lock_file<R: System>(rt: &R, path: &str) -> Result<File, DiskError> {
    if let Found::Other = find(rt, path)? {
        return Err(DiskError::Fault);
    }
    let mut options = OpenOptions::new();
    options.write(true).create(true);
    let file = open(rt, path, &options).map_err(fault)?;
    match file.try_lock() {
        Ok(()) => Ok(file),
        Err(_) => Err(DiskError::Fault),
    }
}

// Adds the names in a folder that do not begin with a dot, in no order. After an error some of them may have been added.
fn read_names<R: System>(
    rt: &R,
    alloc: Global,
    path: &str,
    names: &mut Vec<Name>,
) -> io::Result<()> {
    let mut folder = rt.open_dir(path)?;
    let mut room = [0u8; NAMES_ROOM];
    for _ in 0..u64::MAX {
        let count = folder.read(&mut room)?;
        if count == 0 {
            break;
        }
        add_shown_names(alloc, &room[..count], names).map_err(memory)?;
    }
    Ok(())
}

/// The names in a folder that do not begin with a dot, in the order of their bytes.
pub(crate) fn names_in<R: System>(
    rt: &R,
    alloc: Global,
    path: &str,
) -> Result<Vec<Name>, DiskError> {
    let mut names = Vec::new(alloc);
    for _ in 0..MOST_TRIES {
        names.clear();
        match read_names(rt, alloc, path, &mut names) {
            Err(error) if error.kind() == ErrorKind::Interrupted => {}
            Err(error) => return Err(memory_or_fault(error)),
            Ok(()) => {
                names.sort_unstable();
                return Ok(names);
            }
        }
    }
    Err(DiskError::Fault)
}

/// Opens a file to be written at its end. It is made where it is not there.
pub(crate) fn open_at_end<R: System>(rt: &R, path: &str) -> Result<File, DiskError> {
    let mut options = OpenOptions::new();
    options.append(true).create(true);
    open(rt, path, &options).map_err(fault)
}

/// Opens a file to be read.
pub(crate) fn open_to_read<R: System>(rt: &R, path: &str) -> Result<File, DiskError> {
    open_readable(rt, path).map_err(fault)
}

/// Makes sure that a crash leaves a file as it is.
pub(crate) fn sync_file<R: System>(rt: &R, file: &File) -> Result<(), DiskError> {
    perform(rt, Order::Settle(file)).map_err(fault)
}

// A file from a place on.
#[derive(Drop)]
struct Onward<'a> {
    file: &'a File,
    at: u64,
}

impl Read for Onward<'_> {
    fn read(&mut self, buf: &mut [u8]) -> io::Result<usize> {
        let count = self.file.read_at(buf, self.at)?;
        self.at = self.at.saturating_add(count as u64);
        Ok(count)
    }
}

/// Reads the bytes of a file from a place on, as many as fit, fewer only at its end.
pub(crate) fn read_at(file: &File, at: u64, buf: &mut [u8]) -> Result<usize, DiskError>
    ensures { IfOk result (λ n. n ≤ length buf.new) }
{
    if at > LAST_PLACE {
        return Ok(0);
    }
    read_whole(&mut Onward { file, at }, buf).map_err(fault)
}
