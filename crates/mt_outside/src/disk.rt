// A flat list of names, each with a folder of files that does not change.
ghost use Rattle.std.specs.Prelude.{◌≡◌, ◌+◌, ◌-◌, ◌<◌, ◌≤◌, ◌^◌, List, [], ℕ, Bool, Option, Some, None, IsSome, is_some, IfOk, IfSome, IsErr, IsErrOf, OnOk, OnErr, length, map, if◌then◌else◌};
ghost use Rattle.std.specs.Option.{option_map, option_and_then, ForSome};
ghost use Rattle.mt_outside.specs.declared.disk.Written.{Written};
ghost use Rattle.mt_outside.specs.Causes.{Rose};
ghost use Rattle.mt_outside.specs.DiskCauses.{HasDiskCause, HasStageCause};
ghost use Rattle.mt_outside.specs.Files.{bytes_of, appended, settled_file, ReadsAt};
ghost use Rattle.mt_outside.specs.Disk.{Told, names_of, files_at, put, cut, MayPut, MayCut};

use mt_base::{Bytes, FileId, Name, NoMemory, Seq};
use std::alloc::Global;
use thiserror::Error;

/// Why a call on a disk, an arm or a stage did not do its work.
#[derive(Clone, Copy, Debug, Error)]
pub enum DiskError {
    /// The outside failed. The object's count of faults rose in this call, or stands at its type's end.
    #[error("the disk failed")]
    Fault,
    /// An allocation failed. The object's count of faults stays.
    #[error("out of memory")]
    NoMemory,
}

impl From<NoMemory> for DiskError {
    ghost use Rattle.std.specs.Prelude.{◌≡◌};
    ghost use Rattle.mt_outside.specs.declared.disk.DiskError.TheVariants.{NoMemory};

    ghost from_gives = { λ _ e. e ≡ NoMemory };

    fn from(_: NoMemory) -> Self {
        DiskError::NoMemory
    }
}

/// A file as its stage left it.
#[derive(Debug, Drop)]
pub struct Written {
    pub file: FileId,
    pub bytes: Bytes,
    /// Whether a successful sync followed the last append.
    pub synced: bool,
}

/// The files of a folder.
pub type Files = Seq<Written>;

/// What changes the names of a disk. `F` stands for a folder.
#[derive(Drop)]
pub enum Change<F> {
    Publish(Name, F),
    Remove(Name),
}

/// A change, with the disk's mark when it was made.
#[derive(Drop)]
pub struct Stamped<F> {
    pub clock: u64,
    pub change: Change<F>,
}

/// A folder that is being made. Its owner alone writes it.
///
/// It must be given back: it is published, or given up by the arm that made it. So its count of failed calls reaches the disk.
pub trait Stage: Send {
    /// The files with their bytes, where the stage tells.
    ghost files: { Self → Option (List Written) };

    /// How many calls have failed, as far as 64 bits count.
    ghost failed: { Self → ℕ };

    /// Adds bytes at the end of a file, which is made where it is not there.
    ///
    /// After an error the stage can only be given back: its files may hold anything.
    fn append(&mut self, file: FileId, bytes: &[u8]) -> Result<(), DiskError>
        ensures files { OnOk result
            (files self.new ≡ option_map (appended file bytes.now) (files self.old)) }
        ensures cause { HasDiskCause (failed self.old) (failed self.new) result };

    /// Makes sure that a crash leaves the file as it is, once the folder's name is settled.
    ///
    /// After an error nothing was made sure of.
    fn sync(&mut self, file: FileId) -> Result<(), DiskError>
        ensures files { OnOk result
            (files self.new ≡ option_map (settled_file file) (files self.old)) }
        ensures err { OnErr result (files self.new ≡ files self.old) }
        ensures cause { HasDiskCause (failed self.old) (failed self.new) result };

    /// How many calls have failed.
    fn faults(&self) -> u64
        ensures { result ≡ failed self.now };
}

/// A folder that is done, and does not change.
pub trait Dir: Sized + Drop + Send + Sync {
    /// The files with their bytes, where the folder tells.
    ghost files: { Self → Option (List Written) };

    /// Another hold on the same files: an equal value.
    fn share(&self, alloc: Global) -> Result<Self, NoMemory>
        ensures { IfOk result (λ d. d ≡ self.now) };
}

/// What reads folders and makes stages, for one session or merger.
///
/// It must be given back: the disk that made it takes it. So its count of failed calls reaches the disk.
pub trait Arm: Send {
    type Stage: Stage;

    type Dir: Dir;

    /// Whether its stages tell.
    ghost tells: { Self → Bool };

    /// How many calls have failed, those of abandoned stages included, as far as 64 bits count.
    ghost failed: { Self → ℕ };

    /// A folder to be filled, with no file and no failed call.
    fn stage(&mut self, alloc: Global) -> Result<Self::Stage, DiskError>
        ensures empty { IfOk result
            (λ s. Self.Stage.files s ≡ (if tells self.old then Some [] else None)) }
        ensures none_failed { IfOk result (λ s. Self.Stage.failed s ≡ 0) }
        ensures tells { tells self.new ≡ tells self.old }
        ensures cause { HasDiskCause (failed self.old) (failed self.new) result };

    /// Gives a stage up. Where a call of it had failed, the arm's count rises, and else it stays. Takes no memory.
    fn abandon(&mut self, stage: Self::Stage)
        ensures tells { tells self.new ≡ tells self.old }
        ensures taken { 0 < Self.Stage.failed stage → Rose (failed self.old) (failed self.new) }
        ensures none_failed { Self.Stage.failed stage ≡ 0 → failed self.new ≡ failed self.old }
        ensures later { failed self.old ≤ failed self.new };

    /// Reads the bytes of a file from a place on, as many as fit, fewer only at the file's end; a file that is not there has none.
    ///
    /// After an error the buffer may hold anything.
    fn read(
        &mut self,
        dir: &Self::Dir,
        file: FileId,
        at: u64,
        buf: &mut [u8],
    ) -> Result<usize, DiskError>
        ensures bytes { IfOk result (λ n. IfSome (Self.Dir.files dir.now)
            (λ files. ReadsAt (bytes_of file files) at n buf.new)) }
        ensures bound { IfOk result (λ n. n ≤ length buf.new) }
        ensures tells { tells self.new ≡ tells self.old }
        ensures cause { HasDiskCause (failed self.old) (failed self.new) result };

    /// How many calls have failed.
    fn faults(&self) -> u64
        ensures { result ≡ failed self.now };
}

/// The root: a flat list of names, each with a folder of files.
pub trait Disk: Drop + Send {
    type Arm: Arm;

    /// Every change of the names since the disk was empty, where the disk tells.
    /// What a crash may leave is defined over it, in `specs/Disk.antt`.
    ghost told: { Self → Option Told };

    /// The mark.
    ghost clock: { Self → ℕ };

    /// How many calls have failed, those of given back arms and published stages included, as far as 64 bits count.
    ghost failed: { Self → ℕ };

    /// The path of the folder that was started, and none before.
    ghost started: { Self → Option (List ℕ) };

    /// Names the folder, and makes it where it is not there.
    fn start(&mut self, path: &str) -> Result<(), DiskError>
        ensures started { OnOk result (started self.new ≡ Some path.now) }
        ensures not_started { OnErr result (started self.new ≡ started self.old) }
        ensures told { told self.new ≡ told self.old }
        ensures clock { clock self.new ≡ clock self.old }
        ensures cause { HasDiskCause (failed self.old) (failed self.new) result };

    /// A new arm, with no failed call.
    fn arm(&mut self, alloc: Global) -> Result<Self::Arm, DiskError>
        ensures tells { IfOk result (λ a. Self.Arm.tells a ≡ is_some (told self.old)) }
        ensures none_failed { IfOk result (λ a. Self.Arm.failed a ≡ 0) }
        ensures told { told self.new ≡ told self.old }
        ensures clock { clock self.new ≡ clock self.old }
        ensures started { started self.new ≡ started self.old }
        ensures cause { HasDiskCause (failed self.old) (failed self.new) result };

    /// Takes an arm back. Where a call of it had failed, the disk's count rises, and else it stays. Takes no memory.
    fn take_back(&mut self, arm: Self::Arm)
        ensures told { told self.new ≡ told self.old }
        ensures clock { clock self.new ≡ clock self.old }
        ensures started { started self.new ≡ started self.old }
        ensures taken { 0 < Self.Arm.failed arm → Rose (failed self.old) (failed self.new) }
        ensures none_failed { Self.Arm.failed arm ≡ 0 → failed self.new ≡ failed self.old }
        ensures later { failed self.old ≤ failed self.new };

    /// The names as they read, without stages.
    fn list(&mut self, alloc: Global) -> Result<Vec<Name>, DiskError>
        ensures names { IfOk result
            (λ v. IfSome (told self.old) (λ t. v.items ≡ map (λ e. e.0) (names_of t))) }
        ensures told { told self.new ≡ told self.old }
        ensures clock { clock self.new ≡ clock self.old }
        ensures started { started self.new ≡ started self.old }
        ensures cause { HasDiskCause (failed self.old) (failed self.new) result };

    /// The folder of a name that is there.
    fn open(&mut self, alloc: Global, name: &Name) -> Result<<Self::Arm as Arm>::Dir, DiskError>
        requires { ForSome (told self.old) (λ t. IsSome (files_at name.now (names_of t))) }
        ensures files { IfOk result (λ d. Self.Arm.Dir.files d ≡ option_and_then
            (λ t. files_at name.now (names_of t)) (told self.old)) }
        ensures told { told self.new ≡ told self.old }
        ensures clock { clock self.new ≡ clock self.old }
        ensures started { started self.new ≡ started self.old }
        ensures cause { HasDiskCause (failed self.old) (failed self.new) result };

    /// Gives a stage a name that is not there. Where a call of the stage had failed, the disk's count rises.
    ///
    /// After a fault the name is there or not; where memory ran out nothing was changed. The stage is gone in each case.
    fn publish(
        &mut self,
        alloc: Global,
        stage: <Self::Arm as Arm>::Stage,
        name: &Name,
    ) -> Result<<Self::Arm as Arm>::Dir, DiskError>
        requires { ForSome (told self.old) (λ t. files_at name.now (names_of t) ≡ None) }

        // What the disk is then.
        ensures ok { OnOk result (told self.new ≡ put (clock self.old) name.now
            (Self.Arm.Stage.files stage) (told self.old)) }
        ensures dir { IfOk result (λ d. Self.Arm.Dir.files d ≡ Self.Arm.Stage.files stage) }
        ensures fault { IsErrOf result DiskError.Fault
            → MayPut (clock self.old) name.now (Self.Arm.Stage.files stage) (told self.old)
            (told self.new) }
        ensures memory { IsErrOf result DiskError.NoMemory → told self.new ≡ told self.old }
        ensures clock { clock self.new ≡ clock self.old }
        ensures started { started self.new ≡ started self.old }

        // Which faults are counted.
        ensures taken { 0 < Self.Arm.Stage.failed stage → Rose (failed self.old) (failed self.new) }
        ensures cause { HasStageCause (Self.Arm.Stage.failed stage) (failed self.old)
            (failed self.new) result };

    /// Takes a name away that is there. It never answers `NoMemory`.
    ///
    /// After a fault the name is there or not.
    fn remove(&mut self, name: &Name) -> Result<(), DiskError>
        requires { ForSome (told self.old) (λ t. IsSome (files_at name.now (names_of t))) }
        ensures ok { OnOk result (told self.new ≡ cut (clock self.old) name.now (told self.old)) }
        ensures fault { OnErr result
            (MayCut (clock self.old) name.now (told self.old) (told self.new)) }
        ensures clock { clock self.new ≡ clock self.old }
        ensures started { started self.new ≡ started self.old }
        ensures takes_none { IsErrOf result DiskError.NoMemory → ⊥ }
        ensures cause { HasDiskCause (failed self.old) (failed self.new) result };

    /// Makes sure that each publish and remove so far has happened, whatever a crash leaves, and raises the mark by one.
    /// It never answers `NoMemory`.
    ///
    /// After a fault nothing is settled, and the mark stays. A mark at its type's end can't be raised.
    fn sync_names(&mut self) -> Result<(), DiskError>
        ensures told { told self.new ≡ told self.old }
        ensures clock { OnOk result (clock self.new ≡ clock self.old + 1) }
        ensures clock_err { OnErr result (clock self.new ≡ clock self.old) }
        ensures started { started self.new ≡ started self.old }
        ensures last { clock self.old ≡ 2 ^ 64 - 1 → IsErr result }
        ensures takes_none { IsErrOf result DiskError.NoMemory → ⊥ }
        ensures cause { HasDiskCause (failed self.old) (failed self.new) result };

    /// The mark: a number that each successful `sync_names` raises by one, and nothing else changes.
    fn mark(&self) -> u64
        ensures { result ≡ clock self.now };

    /// How many calls have failed.
    fn faults(&self) -> u64
        ensures { result ≡ failed self.now };
}
