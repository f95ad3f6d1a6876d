// A stage that is filled file by file, and then sealed.
ghost use Rattle.std.specs.Prelude.{◌≡◌, ◌≤◌, ◌++◌, ◌∷◌, [], false, IfOk, IfErr, OnOk, OnErr};
ghost use Rattle.std.specs.Option.{option_map, ForSome};
ghost use Rattle.mt_outside.specs.DiskCauses.{HasDiskCause};
ghost use Rattle.mt_outside.specs.Files.{appended};
ghost use Rattle.stage_dir.specs.Stages.{AreSealed, EachOnce, IsCauseOf, IsIntact, contents, has_file, names_in, settled, with_file, written};

use mt_base::{FileId, NoMemory, Seq};
use mt_outside::{DiskError, Stage};
use std::alloc::Global;
use std::marker::Model;

/// A stage that is being filled. It must be sealed or given up, since the stage within must be given back. Contracts see which files it
/// has, each once and in the order in which they were made, what the stage tells of them, and how many of its calls have failed.
pub struct Open<S: Stage> {
    stage: S,
    names: Seq<FileId>,
}

impl<S: Stage> Model for Open<S> {
    ghost use Rattle.stage_dir.specs.Stages.{EachOnce, Filling};

    ghost Value = { Filling };

    ghost view = { λ o. record { names = o.names; files = S.files o.stage; failed = S.failed o.stage } };

    ghost invariant = { λ o. EachOnce o.names };
}

/// A stage whose files are all written and synced.
pub struct Sealed<S: Stage> {
    stage: S,
}

impl<S: Stage> Model for Sealed<S> {
    ghost use Rattle.std.specs.Option.{ForSome};
    ghost use Rattle.stage_dir.specs.Stages.{AreSealed, Filled};

    ghost Value = { Filled };

    ghost view = { λ s. record { files = S.files s.stage; failed = S.failed s.stage } };

    ghost invariant = { λ s. ForSome (S.files s.stage) AreSealed };
}

/// A stage that could not be sealed, and why. What is left of it is there to be given up.
pub struct Unsealed<S: Stage> {
    pub cause: DiskError,
    pub rest: Open<S>,
}

impl<S: Stage> Open<S> {
    /// A stage that has no file yet, to be filled. Takes no memory.
    pub fn of(alloc: Global, stage: S) -> Self
        requires { ForSome (S.files stage) (λ files. files ≡ []) }
        ensures names { result.names ≡ [] }
        ensures files { result.files ≡ S.files stage }
        ensures failed { result.failed ≡ S.failed stage }
        ensures intact { IsIntact result }
    {
        Open {
            stage,
            names: Seq::new(alloc),
        }
    }

    /// Whether the file was written.
    pub fn has(&self, file: FileId) -> bool
        ensures { result ≡ has_file file self.now.names }
    {
        is_among(self.names.as_slice(), file)
    }

    /// The stage, to be given up. Takes no memory.
    pub fn into_stage(self) -> S
        ensures files { S.files result ≡ self.files }
        ensures failed { S.failed result ≡ self.failed }
    {
        let Open { stage, names: _ } = self;
        stage
    }
}

impl<S: Stage> Sealed<S> {
    /// The stage, to be published or given up. Takes no memory.
    pub fn into_stage(self) -> S
        ensures files { S.files result ≡ self.files }
        ensures failed { S.failed result ≡ self.failed }
        ensures sealed { ForSome (S.files result) AreSealed }
    {
        let Sealed { stage } = self;
        stage
    }
}

// Whether the file is one of these.
fn is_among(names: &[FileId], file: FileId) -> bool
    ensures { result ≡ has_file file names.now }
{
    for name in names {
        if name.is(file) {
            return true;
        }
    }
    false
}

// Adds the file to these, where it is none of them.
//
// `NoMemory` where an allocation failed; the files stay as they were.
fn note_file(names: &mut Seq<FileId>, file: FileId) -> Result<(), NoMemory>
    ensures ok { OnOk result (names.new ≡ with_file file names.old) }
    ensures err { OnErr result (names.new ≡ names.old) }
{
    if is_among(names.as_slice(), file) {
        return Ok(());
    }
    names.push(file)
}

/// Adds bytes at the end of a file, which is made where it is not there.
///
/// `Fault` only where the stage's count rose in this call, `NoMemory` where an allocation failed; without a fault the count stays.
/// After an error the stage can only be given up.
pub fn append_file<S: Stage>(
    stage: &mut Open<S>,
    file: FileId,
    bytes: &[u8],
) -> Result<(), DiskError>
    requires { IsIntact stage.old }
    ensures names { OnOk result (stage.new.names ≡ with_file file stage.old.names) }
    ensures files { OnOk result
        (stage.new.files ≡ option_map (appended file bytes.now) stage.old.files) }
    ensures intact { OnOk result (IsIntact stage.new) }
    ensures cause { HasDiskCause stage.old.failed stage.new.failed result }
{
    note_file(&mut stage.names, file)?;
    stage.stage.append(file, bytes)?;
    Ok(())
}

/// Writes a file that was not written yet, with these bytes. Where there are none it is an empty file.
///
/// `Fault` only where the stage's count rose in this call, `NoMemory` where an allocation failed; without a fault the count stays.
/// After an error the stage can only be given up.
pub fn write_file<S: Stage>(
    stage: &mut Open<S>,
    file: FileId,
    bytes: &[u8],
) -> Result<(), DiskError>
    requires intact { IsIntact stage.old }
    requires new { has_file file stage.old.names ≡ false }
    ensures names { OnOk result (stage.new.names ≡ stage.old.names ++ file ∷ []) }
    ensures files { OnOk result (stage.new.files ≡ option_map
        (λ files. files ++ written file bytes.now ∷ []) stage.old.files) }
    ensures intact { OnOk result (IsIntact stage.new) }
    ensures cause { HasDiskCause stage.old.failed stage.new.failed result }
{
    append_file(stage, file, bytes)
}

// Syncs each of these files, which are those of the stage.
fn sync_files<S: Stage>(stage: &mut S, names: &[FileId]) -> Result<(), DiskError>
    requires told { ForSome (S.files stage.old) (λ files. names_in files ≡ names.now) }
    requires once { EachOnce names.now }
    ensures files { OnOk result (S.files stage.new ≡ option_map settled (S.files stage.old)) }
    ensures kept { OnErr result (option_map contents (S.files stage.new) ≡ option_map contents
        (S.files stage.old)) }
    ensures cause { HasDiskCause (S.failed stage.old) (S.failed stage.new) result }
{
    for name in names {
        stage.sync(*name)?;
    }
    Ok(())
}

/// Syncs each file of the stage, once.
///
/// Where it fails the stage is handed back with the same files, some of them synced: `Fault` only where its count rose in this call.
pub fn seal<S: Stage>(stage: Open<S>) -> Result<Sealed<S>, Unsealed<S>>
    requires { IsIntact stage }
    ensures files { IfOk result (λ s. s.files ≡ option_map settled stage.files) }
    ensures failed { IfOk result (λ s. s.failed ≡ stage.failed) }
    ensures names { IfErr result (λ u. u.rest.names ≡ stage.names) }
    ensures kept { IfErr result
        (λ u. option_map contents u.rest.files ≡ option_map contents stage.files) }
    ensures cause { IfErr result (λ u. IsCauseOf stage.failed u.rest.failed u.cause) }
{
    let Open { mut stage, names } = stage;
    match sync_files(&mut stage, names.as_slice()) {
        Ok(()) => Ok(Sealed { stage }),
        Err(cause) => {
            let rest = Open { stage, names };
            Err(Unsealed { cause, rest })
        }
    }
}
