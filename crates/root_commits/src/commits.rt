// A command added to the disk, to what the annals list and to the store.
ghost use Rattle.std.specs.Prelude.{◌≡◌, ◌≢◌, ◌+◌, ℕ, false, IsSome, IsTrue, List, Some, None, IfOk, OnErr, OnOk, length};
ghost use Rattle.std.specs.BTreeMap.{Updates, get, insert_entry};
ghost use Rattle.std.specs.Cmp.Lexicographic.{slice_cmp};
ghost use Rattle.std.specs.Ordering.{nat_cmp};
ghost use Rattle.mt_values.specs.RootNames.{create_name, part_name};
ghost use Rattle.root_store.specs.durable_commit.Commits.{entry_of};
ghost use Rattle.root_store.specs.mt_model.History.{IsInsertInto, IsTableSchema};
ghost use Rattle.root_store.specs.part_name.PartNames.{part_text};
ghost use Rattle.root_store.specs.part_set.Parts.{IsAdded, IsInBlockOrder, NoneMeets};
ghost use Rattle.root_store.specs.part_set.RootNames.{is_table};
ghost use Rattle.root_store.specs.part_set.Sets.{HasRoom, parts_of};
ghost use Rattle.root_store.specs.Soundness.{IsReady};
ghost use Rattle.root_store.specs.Stores.{fresh_table, table_at};
ghost use Rattle.root_store.specs.declared.store.Table.{Table as Made};
ghost use Rattle.root_commits.specs.Commits.{fresh_part, insert_into, insert_of_block, partition_of_block, refuses_create, refuses_part};
ghost use Rattle.root_commits.specs.Publications.{adding};
ghost use Rattle.root_commits.specs.Turns.{CommitsCreate, CommitsPart, root_of};

use mt_base::{NUMBER_LIMIT, NoMemory, PART_LIMIT, Partition, TABLE_LIMIT, Twin};
use mt_outside::{Arm, Disk, DiskError};
use mt_values::{Annals, Block, Command, Create, Entry, Insert, Name};
use root_store::durable_commit::stage_dir::Sealed;
use root_store::durable_commit::{Limit, Refused, commit, refuse_stopped, take_out};
use root_store::part_name::PartName;
use root_store::part_reader::Part;
use root_store::part_set::{PartSet, RootName, TablePart, spell_name};
use root_store::part_writer::SealedPart;
use root_store::{CoreStore, Table, put_table};
use std::alloc::Global;
use std::collections::BTreeMap;

/// Why a command was not committed, and what was sealed for it, where it was not given to the disk.
pub struct Returned<S> {
    pub cause: Refused,
    pub back: Option<S>,
}

// What the store and the disk's count show against a CREATE.
fn refuse_create<F>(store: &CoreStore<F>, table: &Name, now: u64) -> Option<Refused>
    ensures { result ≡ refuses_create store.now table.now now }
{
    if store.tables.contains_key(table) {
        return Some(Refused::Exists);
    }
    if store.tables.len() >= TABLE_LIMIT {
        return Some(Refused::Limit(Limit::Tables));
    }
    refuse_stopped(store.opened, now)
}

// What the store and the disk's count show against a part in a partition of a table of which so many numbers were drawn.
fn refuse_part<F>(
    store: &CoreStore<F>,
    table: &Name,
    partition: Partition,
    drawn: u32,
    now: u64,
) -> Option<Refused>
    ensures { result ≡ refuses_part store.now table.now partition drawn now }
{
    if store.set.parts_in(table, partition).len() >= PART_LIMIT {
        return Some(Refused::Limit(Limit::Parts));
    }
    if drawn >= NUMBER_LIMIT {
        return Some(Refused::Limit(Limit::Numbers));
    }
    refuse_stopped(store.opened, now)
}

// What a commit takes with it: no memory is wanted for it any more.
#[derive(Drop)]
struct Ready {
    // The name of the root.
    name: Name,
    // The table's.
    table: Name,
    // The length of the history after it.
    length: u64,
}

// The name of the root under which a table's entry stands.
fn name_of_table(alloc: Global, table: &Name) -> Result<Name, NoMemory>
    ensures { IfOk result (λ name. name ≡ create_name table.now) }
{
    let root_name = RootName::Create(table.twin(alloc)?);
    spell_name(alloc, &root_name)
}

// Takes all memory of a CREATE. The table is entered, to be taken out again where the commit fails.
//
// `NoMemory` where an allocation failed, and at a history of 2^64 - 1 commands; the tables are as they were.
fn prepare_create<A: Annals>(
    alloc: Global,
    tables: &mut BTreeMap<Name, Table>,
    annals: &mut A,
    create: &Create,
    before: u64,
) -> Result<Ready, NoMemory>
    requires { get (slice_cmp nat_cmp) tables.old create.now.table ≡ None }
    ensures name { IfOk result (λ r. r.name ≡ create_name create.now.table) }
    ensures table { IfOk result (λ r. r.table ≡ create.now.table) }
    ensures length { IfOk result (λ r. r.length ≡ before + 1) }

    // What the tables and the annals are then.
    ensures entries { OnOk result (tables.new.entries ≡ insert_entry (slice_cmp nat_cmp)
        tables.old.entries create.now.table (fresh_table create.now.schema)) }
    ensures updates { OnOk result (Updates (slice_cmp nat_cmp) tables.old tables.new
        create.now.table (Some (fresh_table create.now.schema))) }
    ensures count { OnOk result (length tables.new.entries ≡ length tables.old.entries + 1) }
    ensures err { OnErr result (tables.new.entries ≡ tables.old.entries) }
    ensures room { OnOk result (A.has_room annals.new) }
    ensures told { A.told annals.new ≡ A.told annals.old }
{
    let Some(length) = before.checked_add(1) else {
        return Err(NoMemory);
    };
    annals.reserve(alloc)?;
    let name = name_of_table(alloc, &create.table)?;
    let table = create.table.twin(alloc)?;
    let schema = create.schema.twin(alloc)?;
    put_table(alloc, tables, &table, schema)?;
    Ok(Ready {
        name,
        table,
        length,
    })
}

/// The name of the root under which a part of a table stands.
pub(crate) fn name_of_table_part(
    alloc: Global,
    table: &Name,
    part: PartName,
) -> Result<Name, NoMemory>
    ensures { IfOk result (λ name. name ≡ part_name table.now (part_text part)) }
{
    let root_name = RootName::Part(TablePart {
        table: table.twin(alloc)?,
        name: part,
    });
    spell_name(alloc, &root_name)
}

// Takes all memory of the part of a table. No part is added yet.
//
// `NoMemory` where an allocation failed, and at a history of 2^64 - 1 commands; the parts are as they were.
fn prepare_part<P: Drop, A: Annals>(
    alloc: Global,
    set: &mut PartSet<P>,
    annals: &mut A,
    table: &Name,
    part: PartName,
    before: u64,
) -> Result<Ready, NoMemory>
    ensures name { IfOk result (λ r. r.name ≡ part_name table.now (part_text part)) }
    ensures table { IfOk result (λ r. r.table ≡ table.now) }
    ensures length { IfOk result (λ r. r.length ≡ before + 1) }
    ensures parts { (t : List ℕ) → parts_of set.new t ≡ parts_of set.old t }
    ensures place { OnOk result (HasRoom set.new table.now part.partition) }
    ensures room { OnOk result (A.has_room annals.new) }
    ensures told { A.told annals.new ≡ A.told annals.old }
{
    let Some(length) = before.checked_add(1) else {
        return Err(NoMemory);
    };
    set.reserve(alloc, table, part.partition)?;
    annals.reserve(alloc)?;
    let name = name_of_table_part(alloc, table, part)?;
    let table = table.twin(alloc)?;
    Ok(Ready {
        name,
        table,
        length,
    })
}

// What the annals list of the block that a session adds to a partition of a table.
fn entry_of_part(session: u64, table: Name, partition: Partition, block: Block) -> Entry
    ensures { result ≡ entry_of session (insert_of_block table partition block) }
{
    let command = Command::Insert(Insert {
        table,
        partition,
        block,
    });
    Entry { session, command }
}

// The name of the part that the INSERT with this number into a partition makes.
fn name_of_part(partition: Partition, number: u32) -> PartName
    ensures { result ≡ fresh_part partition number }
{
    PartName {
        partition,
        min_block: number,
        max_block: number,
        level: 0,
        mutation: None,
    }
}

/// Commits a CREATE whose entry was sealed: its name is published and settled, the annals note it, and the store has the table.
///
/// It is refused where there is the table, or as many as may be, or the store was stopped, in this order; else only for want of
/// memory, or where the disk's count of faults rose in this call. What was sealed comes back where it was not given to the disk.
/// After a refusal the store is as it was but for room, and the annals list the same entries.
pub fn commit_create<D: Disk, A: Annals>(
    alloc: Global,
    store: &mut CoreStore<<D::Arm as Arm>::Dir>,
    disk: &mut D,
    annals: &mut A,
    session: u64,
    create: Create,
    sealed: Sealed<<D::Arm as Arm>::Stage>,
) -> Result<(), Returned<Sealed<<D::Arm as Arm>::Stage>>>
    requires named { IsTrue (is_table create.table) }
    requires schema { IsTableSchema create.schema }
    requires ready { IsReady (D.failed disk.old) (D.told disk.old) store.old }
    ensures commits { let was = root_of store.old (D.told disk.old) (D.clock disk.old)
        (D.failed disk.old) (A.told annals.old) in
        let now = root_of store.new (D.told disk.new) (D.clock disk.new) (D.failed disk.new)
        (A.told annals.new) in
        CommitsCreate session create sealed was now sealed result }
    ensures started { D.started disk.new ≡ D.started disk.old }
{
    if let Some(cause) = refuse_create(store, &create.table, disk.faults()) {
        let back = Some(sealed);
        return Err(Returned { cause, back });
    }
    let before = store.length;
    let Ok(ready) = prepare_create(alloc, &mut store.tables, annals, &create, before) else {
        let back = Some(sealed);
        let cause = Refused::NoMemory;
        return Err(Returned { cause, back });
    };
    let Ready {
        name,
        table,
        length,
    } = ready;
    let command = Command::Create(create);
    let entry = Entry { session, command };
    match commit(alloc, disk, annals, sealed, &name, entry) {
        Ok(_) => {
            store.length = length;
            Ok(())
        }
        Err(error) => {
            let cause = take_out(&mut store.tables, &table, error);
            Err(Returned { cause, back: None })
        }
    }
}

// The table draws a number.
fn draw(tables: &mut BTreeMap<Name, Table>, table: &Name, number: u32)
    ensures updates { (t : Made) → get (slice_cmp nat_cmp) tables.old table.now ≡ Some t
        → Updates (slice_cmp nat_cmp) tables.old tables.new table.now
        (Some (record { schema = t.schema; drawn = number })) }
    ensures count { length tables.new.entries ≡ length tables.old.entries }
{
    let Some(found) = tables.get_mut(table) else {
        return;
    };
    found.drawn = number;
}

// Enters a part with this name, whose number its table draws now, where there is room for it.
fn enter_part<F: Drop>(
    alloc: Global,
    store: &mut CoreStore<F>,
    table: &Name,
    name: PartName,
    part: Part<F>,
    after: u64,
)
    requires fresh { NoneMeets (parts_of store.old.set table.now) name }
    requires room { HasRoom store.old.set table.now name.partition }
    ensures added { IsAdded (parts_of store.old.set table.now)
        (record { name = name; part = part; busy = false }) (parts_of store.new.set table.now) }
    ensures ordered { IsInBlockOrder (parts_of store.new.set table.now) }
    ensures others { (t : List ℕ) → t ≢ table.now
        → parts_of store.new.set t ≡ parts_of store.old.set t }

    // What the tables and the counts are then.
    ensures updates { (t : Made) → table_at store.old table.now ≡ Some t
        → Updates (slice_cmp nat_cmp) store.old.tables store.new.tables table.now
        (Some (record { schema = t.schema; drawn = name.max_block })) }
    ensures count { length store.new.tables.entries ≡ length store.old.tables.entries }
    ensures mutations { store.new.mutations ≡ store.old.mutations }
    ensures length { store.new.length ≡ after }
    ensures opened { store.new.opened ≡ store.old.opened }
{
    match store.set.add(alloc, table, name, part) {
        Ok(()) => {}
        Err(_) => unreachable!(),
    }
    draw(&mut store.tables, table, name.max_block);
    store.length = after;
}

/// Commits a block whose part was sealed: its name is published and settled, the annals note it, and the store has the part.
///
/// It is refused where the partition has as many parts as may be, or the table has no number left, or the store was stopped, in this
/// order; else only where memory ran out, or where the disk's count of faults rose in this call. What was sealed comes back where it
/// was not given to the disk. After a refusal the store is as it was but for room, and the annals list the same entries.
pub fn commit_part<D: Disk, A: Annals>(
    alloc: Global,
    store: &mut CoreStore<<D::Arm as Arm>::Dir>,
    disk: &mut D,
    annals: &mut A,
    session: u64,
    table: &Name,
    part: SealedPart<<D::Arm as Arm>::Stage>,
    block: Block,
) -> Result<(), Returned<SealedPart<<D::Arm as Arm>::Stage>>>
    requires there { IsSome (table_at store.old table.now) }
    requires rows { (t : Made) → table_at store.old table.now ≡ Some t
        → IsInsertInto t.schema (insert_into table.now (partition_of_block t.schema block) block) }
    requires ready { IsReady (D.failed disk.old) (D.told disk.old) store.old }
    ensures commits { let was = root_of store.old (D.told disk.old) (D.clock disk.old)
        (D.failed disk.old) (A.told annals.old) in
        let now = root_of store.new (D.told disk.new) (D.clock disk.new) (D.failed disk.new)
        (A.told annals.new) in
        (t : Made) → table_at store.old table.now ≡ Some t → CommitsPart D.Arm.Dir.files
        (adding session table.now t block part.sealed part.loaded) was now part result }
    ensures started { D.started disk.new ≡ D.started disk.old }
{
    let found = &store.tables[table];
    let drawn = found.drawn;
    let partition = block.partition_at(&found.schema, 0);
    if let Some(cause) = refuse_part(store, table, partition, drawn, disk.faults()) {
        let back = Some(part);
        return Err(Returned { cause, back });
    }
    let fresh = name_of_part(partition, drawn + 1);
    let before = store.length;
    let Ok(ready) = prepare_part(alloc, &mut store.set, annals, table, fresh, before) else {
        let back = Some(part);
        let cause = Refused::NoMemory;
        return Err(Returned { cause, back });
    };
    let entry = entry_of_part(session, ready.table, partition, block);
    let SealedPart { sealed, loaded } = part;
    let dir = match commit(alloc, disk, annals, sealed, &ready.name, entry) {
        Ok(dir) => dir,
        Err(error) => {
            let cause = Refused::of_disk(error);
            return Err(Returned { cause, back: None });
        }
    };
    let part = Part::of(dir, loaded);
    enter_part(alloc, store, table, fresh, part, ready.length);
    Ok(())
}
