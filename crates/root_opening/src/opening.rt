// A root opened: its names read, its entries and its visible parts checked, and the store that is kept of it.
ghost use Rattle.std.specs.Prelude.{◌≡◌, ◌<◌, ◌≤◌, IfErr, IfNone, IfOk, IfSome, IsErrOf, IsNone, length, map};
ghost use Rattle.std.specs.Cmp.Lexicographic.{slice_cmp};
ghost use Rattle.std.specs.List.Sorted.{IsStrictlySortedBy};
ghost use Rattle.std.specs.Option.{ForSome};
ghost use Rattle.std.specs.Ordering.{nat_cmp};
ghost use Rattle.mt_outside.specs.Disk.{Names, names_of};
ghost use Rattle.mt_outside.specs.Leaves.{LeavesDisk};
ghost use Rattle.root_store.specs.part_set.NameOrder.{Rise};
ghost use Rattle.root_store.specs.ByteOrder.{AreInByteOrder};
ghost use Rattle.root_store.specs.Damage.{most_tables};
ghost use Rattle.root_opening.specs.Keeping.{IsBadNameAt, IsDamageOfSet, IsNamedRoot, PlacesWithin};
ghost use Rattle.root_opening.specs.Names.{AreNamesOf, creates_in};
ghost use Rattle.root_opening.specs.Opened.{Opens, SettlesNames};
ghost use Rattle.root_opening.specs.Opening.{AnswersDamage, TellsDamage};

use crate::keeping::keep_root;
use crate::{NameFault, Root, read_names, settle};
use mt_base::{NoMemory, Twin};
use mt_outside::{Arm, Disk, DiskError};
use mt_values::{FileId, Name};
use root_store::CoreStore;
use root_store::part_set::{RootName, SetFault, visible};
use std::alloc::Global;
use std::cmp::Ordering;

/// What keeps a root from being opened. Of each kind the first name in byte order is told, of two names the first pair.
#[derive(Drop)]
pub enum Damage {
    /// A name that is none of the grammar, or a table's after 65,536 others, or not above the one before it.
    Name(Name),
    /// A part whose table has no entry, or to which a mutation was applied.
    Orphan(Name),
    /// Two visible parts of one table and partition that have a block in common, of which neither contains the other.
    Overlap(Name, Name),
    /// A file of an entry or of a visible part that is not there, is not of its format, or has another size or digest; the manifest of
    /// a part of a partition that its table can't have.
    File(Name, FileId),
}

/// Why a root was not opened.
#[derive(Drop)]
pub enum OpenFault {
    /// An allocation failed.
    NoMemory,
    /// The disk or the arm failed.
    Disk,
    Damaged(Damage),
}

impl From<NoMemory> for OpenFault {
    ghost use Rattle.std.specs.Prelude.{◌≡◌};
    ghost use Rattle.root_opening.specs.declared.opening.OpenFault.TheVariants as fault;

    ghost from_gives = { λ _ f. f ≡ fault.NoMemory };

    fn from(_: NoMemory) -> Self {
        OpenFault::NoMemory
    }
}

impl From<DiskError> for OpenFault {
    ghost use Rattle.root_opening.specs.Keeping.{OpenFaultOf};

    ghost from_gives = { OpenFaultOf };

    fn from(error: DiskError) -> Self {
        match error {
            DiskError::Fault => OpenFault::Disk,
            DiskError::NoMemory => OpenFault::NoMemory,
        }
    }
}

// The place of the first name that is not above the one before it.
fn first_unsorted(texts: &[Name]) -> Option<usize>
    ensures none { IfNone result (IsStrictlySortedBy (slice_cmp nat_cmp) texts.now) }
    ensures found { IfSome result (λ place. place < length texts.now) }
    ensures told { IsStrictlySortedBy (slice_cmp nat_cmp) texts.now → IsNone result }
{
    for place in 1..texts.len() {
        match texts[place - 1].cmp(&texts[place]) {
            Ordering::Less => {}
            _ => return Some(place),
        }
    }
    None
}

// The damage of the name at a place.
fn bad_name(alloc: Global, texts: &[Name], place: usize) -> OpenFault
    requires { place < length texts.now }
    ensures { IsBadNameAt texts.now place result }
{
    match texts[place].twin(alloc) {
        Ok(name) => OpenFault::Damaged(Damage::Name(name)),
        Err(_) => OpenFault::NoMemory,
    }
}

// The names of a root, read of their texts.
fn read_texts(alloc: Global, texts: &[Name]) -> Result<Vec<RootName>, OpenFault>
    ensures read { IfOk result (λ names. AreNamesOf texts.now names.items) }
    ensures few { IfOk result (λ names. creates_in names.items ≤ most_tables) }
    ensures rise { IfOk result (λ names. Rise names.items) }
    ensures damaged { (told : Names) → AreInByteOrder told → texts.now ≡ map (λ e. e.0) told
        → IfErr result (TellsDamage told) }
    ensures fault { IsErrOf result OpenFault.Disk → ⊥ }
{
    if let Some(place) = first_unsorted(texts) {
        return Err(bad_name(alloc, texts, place));
    }
    match read_names(alloc, texts) {
        Ok(names) => Ok(names),
        Err(NameFault::NoMemory) => Err(OpenFault::NoMemory),
        Err(NameFault::Bad(place)) => Err(bad_name(alloc, texts, place)),
    }
}

// The damage of parts that are orphans or overlap, told by the names at their places.
fn damage_of(alloc: Global, texts: &[Name], fault: SetFault) -> Result<Damage, NoMemory>
    requires { PlacesWithin (length texts.now) fault }
    ensures { IfOk result (IsDamageOfSet texts.now fault) }
{
    match fault {
        SetFault::NoMemory => Err(NoMemory),
        SetFault::Orphan(place) => Ok(Damage::Orphan(texts[place].twin(alloc)?)),
        SetFault::Overlap(first, second) => {
            let first = texts[first].twin(alloc)?;
            Ok(Damage::Overlap(first, texts[second].twin(alloc)?))
        }
    }
}

// A root of names with these texts, with its visible parts.
fn read_root(alloc: Global, texts: Vec<Name>) -> Result<Root, OpenFault>
    ensures texts { IfOk result (λ root. root.texts.items ≡ texts.items) }
    ensures named { IfOk result IsNamedRoot }
    ensures damaged { (told : Names) → AreInByteOrder told → texts.items ≡ map (λ e. e.0) told
        → IfErr result (TellsDamage told) }
    ensures fault { IsErrOf result OpenFault.Disk → ⊥ }
{
    let names = read_texts(alloc, &texts)?;
    match visible(alloc, &names) {
        Ok(shown) => Ok(Root {
            texts,
            names,
            shown,
        }),
        Err(fault) => Err(OpenFault::Damaged(damage_of(alloc, &texts, fault)?)),
    }
}

/// Opens the root: reads its names, reads each entry and checks each file of each visible part, and settles the names that it read.
///
/// `Damaged` exactly where something keeps the root from being opened, which it tells: never where the root stands for a history.
/// `Disk` only where the count of the disk or of the arm rose in this call; `NoMemory` where an allocation failed. But for `Disk` both
/// counts stay. No name is changed, and with an error the mark stays too.
pub fn open<D: Disk>(
    alloc: Global,
    disk: &mut D,
    arm: &mut D::Arm,
) -> Result<CoreStore<<D::Arm as Arm>::Dir>, OpenFault>
    ensures opens { IfOk result (Opens D.Arm.Dir.files (D.told disk.old) (D.failed disk.old)) }
    ensures damage { ForSome (D.told disk.old) (λ told. AnswersDamage (names_of told) result) }
    ensures mark { SettlesNames (D.told disk.old) (D.clock disk.old) (D.clock disk.new) result }
    ensures disk { LeavesDisk D.Disk D.Arm.Arm (disk.old, arm.old) (disk.new, arm.new)
        (IsErrOf result OpenFault.Disk) }
{
    let opened = disk.faults();
    let root = read_root(alloc, disk.list(alloc)?)?;
    let store = keep_root(alloc, disk, arm, &root, opened)?;
    settle(disk, &root.texts)?;
    Ok(store)
}
