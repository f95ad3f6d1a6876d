// The store that the names of a root make, one name after the other.
ghost use Rattle.std.specs.Prelude.{◌≡◌, ◌<◌, ◌+◌, ◌++◌, ◌∷◌, [], IfErr, IfOk, IsErrOf, IsSome, List, OnOk, Some, length, take};
ghost use Rattle.std.specs.BTreeMap.{IsOrdered};
ghost use Rattle.std.specs.Cmp.Lexicographic.{slice_cmp};
ghost use Rattle.std.specs.List.{sum_by};
ghost use Rattle.std.specs.Option.{ForSome};
ghost use Rattle.std.specs.Ordering.{nat_cmp};
ghost use Rattle.mt_values.specs.RootNames.{create_name};
ghost use Rattle.root_store.specs.mt_model.History.{IsTableSchema};
ghost use Rattle.mt_outside.specs.Disk.{Told, files_at, names_of};
ghost use Rattle.mt_outside.specs.Leaves.{LeavesDisk};
ghost use Rattle.root_store.specs.part_set.declared.root_name.RootName.{RootName as Named};
ghost use Rattle.root_store.specs.part_set.declared.root_name.RootName.TheVariants as root;
ghost use Rattle.root_store.specs.part_set.Parts.{NoneMeets};
ghost use Rattle.root_store.specs.part_set.RootNames.{root_text};
ghost use Rattle.root_store.specs.part_set.Sets.{parts_of};
ghost use Rattle.root_store.specs.part_set.Visible.{HasTable, IsVisible};
ghost use Rattle.root_store.specs.declared.store.Table.{Table as Kept};
ghost use Rattle.root_store.specs.Damage.{IsDamaged};
ghost use Rattle.root_opening.specs.Keeping.{IsNamedRoot, IsTextsOf, Keeps, KeepsTold, TellsFile};
ghost use Rattle.root_opening.specs.Opened.{Opens};
ghost use Rattle.root_opening.specs.Opening.{AnswersDamage, TellsDamage};
ghost use Rattle.root_store.specs.Stores.{table_at};

use crate::checking::{check_table, check_table_part};
use crate::{OpenFault, Root, commands_of, shows};
use mt_base::NoMemory;
use mt_outside::{Arm, Disk};
use mt_values::Name;
use root_store::part_set::{RootName, TablePart};
use root_store::{CoreStore, Table, put_table};
use std::alloc::Global;
use std::collections::BTreeMap;

// The store gets the table whose own name is next, with the schema that its entry gives it, and no number drawn.
fn keep_table<D: Disk>(
    alloc: Global,
    disk: &mut D,
    arm: &mut D::Arm,
    store: &mut CoreStore<<D::Arm as Arm>::Dir>,
    text: &Name,
    table: &Name,
) -> Result<(), OpenFault>
    requires text { text.now ≡ create_name table.now }
    requires there { ForSome (D.told disk.old) (λ t. IsSome (files_at text.now (names_of t))) }

    // What is kept, and what damage is told.
    ensures keeps { (read seen : List Named) → (HasTable seen table.now → ⊥)
        → Keeps read seen store.old
        → OnOk result (Keeps read (seen ++ root.Create table.now ∷ []) store.new) }
    ensures keeps_told { (told : Told) (read seen : List Named) → D.told disk.old ≡ Some told
        → (HasTable seen table.now → ⊥) → Keeps read seen store.old
        → KeepsTold D.Arm.Dir.files (names_of told) read seen store.old
        → OnOk result (KeepsTold D.Arm.Dir.files (names_of told) read
        (seen ++ root.Create table.now ∷ []) store.new) }
    ensures damaged { (told : Told) (read : List Named) → D.told disk.old ≡ Some told
        → IfErr result (TellsFile (names_of told) text.now
        (IsDamaged (names_of told) read (root.Create table.now))) }

    // What stays.
    ensures opened { store.new.opened ≡ store.old.opened }
    ensures disk { LeavesDisk D.Disk D.Arm.Arm (disk.old, arm.old) (disk.new, arm.new)
        (IsErrOf result OpenFault.Disk) }
    ensures clock { D.clock disk.new ≡ D.clock disk.old }
{
    let schema = check_table(alloc, disk, arm, text, table)?;
    put_table(alloc, &mut store.tables, table, schema)?;
    Ok(())
}

// The store gets the visible part whose name is next, and its table the part's last number, if that is greater.
fn keep_part<D: Disk>(
    alloc: Global,
    disk: &mut D,
    arm: &mut D::Arm,
    store: &mut CoreStore<<D::Arm as Arm>::Dir>,
    text: &Name,
    part: &TablePart,
) -> Result<(), OpenFault>
    requires text { text.now ≡ root_text (root.Part part.now) }
    requires there { ForSome (D.told disk.old) (λ t. IsSome (files_at text.now (names_of t))) }
    requires table { IsSome (table_at store.old part.now.table) }
    requires schema { (t : Kept) → table_at store.old part.now.table ≡ Some t
        → IsTableSchema t.schema }
    requires apart { NoneMeets (parts_of store.old.set part.now.table) part.now.name }

    // What is kept, and what damage is told.
    ensures keeps { (read seen : List Named) → IsVisible read part.now → Keeps read seen store.old
        → OnOk result (Keeps read (seen ++ root.Part part.now ∷ []) store.new) }
    ensures keeps_told { (told : Told) (read seen : List Named) → D.told disk.old ≡ Some told
        → KeepsTold D.Arm.Dir.files (names_of told) read seen store.old
        → OnOk result (KeepsTold D.Arm.Dir.files (names_of told) read
        (seen ++ root.Part part.now ∷ []) store.new) }
    ensures damaged { (told : Told) (read seen : List Named) → D.told disk.old ≡ Some told
        → IsVisible read part.now → KeepsTold D.Arm.Dir.files (names_of told) read seen store.old
        → IfErr result (TellsFile (names_of told) text.now
        (IsDamaged (names_of told) read (root.Part part.now))) }

    // What stays.
    ensures opened { store.new.opened ≡ store.old.opened }
    ensures disk { LeavesDisk D.Disk D.Arm.Arm (disk.old, arm.old) (disk.new, arm.new)
        (IsErrOf result OpenFault.Disk) }
    ensures clock { D.clock disk.new ≡ D.clock disk.old }
{
    let Some(table) = store.tables.get_mut(&part.table) else {
        unreachable!()
    };
    let checked = check_table_part(alloc, disk, arm, text, part, &table.schema)?;
    table.drawn = table.drawn.max(part.name.max_block);
    store.set.add(alloc, &part.table, part.name, checked)?;
    Ok(())
}

// The store gets what the name at a place is: a table, or a part where it is visible. The files of hidden parts are not read.
fn keep_name<D: Disk>(
    alloc: Global,
    disk: &mut D,
    arm: &mut D::Arm,
    store: &mut CoreStore<<D::Arm as Arm>::Dir>,
    root: &Root,
    place: usize,
) -> Result<(), OpenFault>
    requires named { IsNamedRoot root.now }
    requires listed { ForSome (D.told disk.old) (IsTextsOf root.now) }
    requires place { place < length root.now.names.items }
    requires keeps { Keeps root.now.names.items (take place root.now.names.items) store.old }

    // What is kept, and what damage is told.
    ensures keeps { OnOk result (Keeps root.now.names.items (take (place + 1) root.now.names.items)
        store.new) }
    ensures keeps_told { (told : Told) → D.told disk.old ≡ Some told
        → KeepsTold D.Arm.Dir.files (names_of told) root.now.names.items
        (take place root.now.names.items) store.old
        → OnOk result (KeepsTold D.Arm.Dir.files (names_of told) root.now.names.items
        (take (place + 1) root.now.names.items) store.new) }
    ensures damaged { (told : Told) → D.told disk.old ≡ Some told
        → KeepsTold D.Arm.Dir.files (names_of told) root.now.names.items
        (take place root.now.names.items) store.old → IfErr result (TellsDamage (names_of told)) }

    // What stays.
    ensures opened { store.new.opened ≡ store.old.opened }
    ensures disk { LeavesDisk D.Disk D.Arm.Arm (disk.old, arm.old) (disk.new, arm.new)
        (IsErrOf result OpenFault.Disk) }
    ensures clock { D.clock disk.new ≡ D.clock disk.old }
{
    let text = &root.texts[place];
    match &root.names[place] {
        RootName::Create(table) => keep_table(alloc, disk, arm, store, text, table),
        RootName::Part(part) => {
            if shows(root, part) {
                keep_part(alloc, disk, arm, store, text, part)
            } else {
                Ok(())
            }
        }
    }
}

// The store that all names make, but for its length.
fn keep_names<D: Disk>(
    alloc: Global,
    disk: &mut D,
    arm: &mut D::Arm,
    root: &Root,
    opened: u64,
) -> Result<CoreStore<<D::Arm as Arm>::Dir>, OpenFault>
    requires named { IsNamedRoot root.now }
    requires listed { ForSome (D.told disk.old) (IsTextsOf root.now) }

    // What is kept, and what damage is told.
    ensures keeps { IfOk result (Keeps root.now.names.items root.now.names.items) }
    ensures keeps_told { (told : Told) → D.told disk.old ≡ Some told
        → IfOk result (KeepsTold D.Arm.Dir.files (names_of told) root.now.names.items
        root.now.names.items) }
    ensures damaged { (told : Told) → D.told disk.old ≡ Some told
        → IfErr result (TellsDamage (names_of told)) }

    // What stays.
    ensures opened { IfOk result (λ store. store.opened ≡ opened) }
    ensures disk { LeavesDisk D.Disk D.Arm.Arm (disk.old, arm.old) (disk.new, arm.new)
        (IsErrOf result OpenFault.Disk) }
    ensures clock { D.clock disk.new ≡ D.clock disk.old }
{
    let mut store = CoreStore::new(alloc, opened);
    for place in 0..root.names.len() {
        keep_name(alloc, disk, arm, &mut store, root, place)?;
    }
    Ok(store)
}

// The number of commands of all these tables.
//
// `NoMemory` where it does not fit 64 bits.
fn length_of(tables: &BTreeMap<Name, Table>) -> Result<u64, NoMemory>
    ensures sum { IfOk result (λ n. n ≡ sum_by (λ e. 1 + e.1.drawn) tables.now.entries) }
    ensures ordered { OnOk result (IsOrdered (slice_cmp nat_cmp) tables.now) }
{
    let mut length: u64 = 0;
    for table in tables.values() {
        let Some(more) = length.checked_add(commands_of(table.drawn)) else {
            return Err(NoMemory);
        };
        length = more;
    }
    Ok(length)
}

/// The store that a root with these names makes: each entry and each file of each visible part is read and checked.
///
/// `Damaged` exactly where a file is damaged: at the first such name in byte order, and its first such file.
pub fn keep_root<D: Disk>(
    alloc: Global,
    disk: &mut D,
    arm: &mut D::Arm,
    root: &Root,
    opened: u64,
) -> Result<CoreStore<<D::Arm as Arm>::Dir>, OpenFault>
    requires named { IsNamedRoot root.now }
    requires listed { ForSome (D.told disk.old) (IsTextsOf root.now) }

    // What the store is then, and what is told of damage.
    ensures opens { IfOk result (Opens D.Arm.Dir.files (D.told disk.old) opened) }
    ensures damage { ForSome (D.told disk.old) (λ told. AnswersDamage (names_of told) result) }

    // What stays.
    ensures disk { LeavesDisk D.Disk D.Arm.Arm (disk.old, arm.old) (disk.new, arm.new)
        (IsErrOf result OpenFault.Disk) }
    ensures clock { D.clock disk.new ≡ D.clock disk.old }
{
    let mut store = keep_names(alloc, disk, arm, root, opened)?;
    store.length = length_of(&store.tables)?;
    Ok(store)
}
