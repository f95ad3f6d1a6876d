// The folders of names, opened and checked.
ghost use Rattle.std.specs.Prelude.{◌≡◌, IfErr, IfOk, IsErrOf, IsSome, OnOk, Some, None};
ghost use Rattle.std.specs.Option.{ForSome};
ghost use Rattle.mt_base.specs.declared.name.FileId.TheVariants as file;
ghost use Rattle.mt_values.specs.Tables.{MayHavePartition};
ghost use Rattle.mt_outside.specs.Disk.{Told, files_at, names_of};
ghost use Rattle.mt_outside.specs.Leaves.{LeavesDisk};
ghost use Rattle.root_store.specs.mt_model.History.{IsTableSchema};
ghost use Rattle.root_store.specs.Damage.{EntryDamaged, PartDamaged};
ghost use Rattle.root_store.specs.Entries.{EntryHolds};
ghost use Rattle.root_opening.specs.Keeping.{IsDamageOf, IsPartRead, TellsFile};
ghost use Rattle.root_store.specs.Roots.{HasFolder};

use crate::{Damage, OpenFault, check_files, open_entry};
use mt_base::Twin;
use mt_outside::{Arm, Disk};
use mt_values::{FileId, Name, Schema};
use root_store::part_reader::{Part, PartFault};
use root_store::part_set::TablePart;
use std::alloc::Global;

// The damage of a file in the folder of a name.
fn damaged(alloc: Global, text: &Name, file: FileId) -> OpenFault
    ensures { IsDamageOf text.now file result }
{
    match text.twin(alloc) {
        Ok(name) => OpenFault::Damaged(Damage::File(name, file)),
        Err(_) => OpenFault::NoMemory,
    }
}

/// The schema of a table, which its entry gives: the folder of the table's own name is opened, and its entry read.
///
/// `Damaged` exactly where it holds no entry of the table.
pub fn check_table<D: Disk>(
    alloc: Global,
    disk: &mut D,
    arm: &mut D::Arm,
    text: &Name,
    table: &Name,
) -> Result<Schema, OpenFault>
    requires { ForSome (D.told disk.old) (λ t. IsSome (files_at text.now (names_of t))) }

    // The schema that the entry gives, and what damage is told.
    ensures schema { IfOk result IsTableSchema }
    ensures holds { (told : Told) → D.told disk.old ≡ Some told
        → IfOk result (λ schema. HasFolder (names_of told) text.now (EntryHolds table.now schema)) }
    ensures damaged { (told : Told) → D.told disk.old ≡ Some told
        → IfErr result (TellsFile (names_of told) text.now
        (λ files f. EntryDamaged (names_of told) table.now files × (f ≡ file.Entry))) }

    // What stays.
    ensures disk { LeavesDisk D.Disk D.Arm.Arm (disk.old, arm.old) (disk.new, arm.new)
        (IsErrOf result OpenFault.Disk) }
    ensures clock { D.clock disk.new ≡ D.clock disk.old }
{
    let dir = disk.open(alloc, text)?;
    match open_entry(alloc, arm, &dir, table)? {
        Some(schema) => Ok(schema),
        None => Err(damaged(alloc, text, FileId::Entry)),
    }
}

/// A part of a table with this schema: its folder is opened, and each of its files checked.
///
/// `Damaged` exactly where the part is of a partition that its table may not have, or one of its files is damaged: at the first one.
pub fn check_table_part<D: Disk>(
    alloc: Global,
    disk: &mut D,
    arm: &mut D::Arm,
    text: &Name,
    part: &TablePart,
    schema: &Schema,
) -> Result<Part<<D::Arm as Arm>::Dir>, OpenFault>
    requires there { ForSome (D.told disk.old) (λ t. IsSome (files_at text.now (names_of t))) }
    requires schema { IsTableSchema schema.now }

    // The part that was read, and what damage is told.
    ensures may { OnOk result (MayHavePartition schema.now part.now.name.partition) }
    ensures read { (told : Told) → D.told disk.old ≡ Some told
        → IfOk result (IsPartRead D.Arm.Dir.files (names_of told) text.now schema.now) }
    ensures damaged { (told : Told) → D.told disk.old ≡ Some told
        → IfErr result (TellsFile (names_of told) text.now (PartDamaged schema.now part.now)) }

    // What stays.
    ensures disk { LeavesDisk D.Disk D.Arm.Arm (disk.old, arm.old) (disk.new, arm.new)
        (IsErrOf result OpenFault.Disk) }
    ensures clock { D.clock disk.new ≡ D.clock disk.old }
{
    if !schema.may_have(part.name.partition) {
        return Err(damaged(alloc, text, FileId::Manifest));
    }
    let dir = disk.open(alloc, text)?;
    match check_files(alloc, dir, schema, arm) {
        Ok(part) => Ok(part),
        Err(PartFault::Damaged { file, .. }) => Err(damaged(alloc, text, file)),
        Err(PartFault::Fault) => Err(OpenFault::Disk),
        Err(PartFault::NoMemory) => Err(OpenFault::NoMemory),
    }
}
