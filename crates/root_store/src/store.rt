// What is kept of a root in memory.
ghost use Rattle.std.specs.Prelude.{◌≡◌, ◌+◌, [], None, OnErr, OnOk, Option, Some, length};
ghost use Rattle.std.specs.BTreeMap.{Updates, get, insert_entry};
ghost use Rattle.std.specs.Cmp.Lexicographic.{slice_cmp};
ghost use Rattle.std.specs.Ordering.{nat_cmp};
ghost use Rattle.mt_outside.specs.Files.{Files};
ghost use Rattle.table_core.specs.mt_model.History.{History};
ghost use Rattle.root_store.specs.Shown.{HasNoMark};
ghost use Rattle.root_store.specs.Stores.{CoreStands, fresh_table, table_at};

use mt_base::{NoMemory, Twin};
use mt_values::{Name, Schema};
use part_reader::Part;
use std::alloc::Global;
use std::collections::BTreeMap;
use table_core::mutation_queue::Mutations;
use table_core::part_set::PartSet;

/// A table: its schema, and the greatest number that a command of it has drawn, 0 for none.
#[derive(Drop)]
pub struct Table {
    pub schema: Schema,
    pub drawn: u32,
}

/// The tables by name, their visible parts, the mutations that were accepted, the number of accepted commands, and the disk's
/// count of faults when the root was opened. `F` stands for a folder.
#[derive(Drop)]
pub struct CoreStore<F> {
    pub tables: BTreeMap<Name, Table>,
    pub set: PartSet<Part<F>>,
    /// None yet: no statement makes one.
    pub mutations: Mutations,
    pub length: u64,
    pub opened: u64,
}

impl<F> CoreStore<F> {
    /// The store of an empty root.
    pub fn new(alloc: Global, opened: u64) -> Self
        ensures stands { (files_of : F → Option Files) → CoreStands files_of [] result }
        ensures idle { HasNoMark result }
        ensures opened { result.opened ≡ opened }
    {
        CoreStore {
            tables: BTreeMap::new(alloc),
            set: PartSet::new(alloc),
            mutations: Mutations::new(alloc),
            length: 0,
            opened,
        }
    }
}

/// A table gets this schema, and no number is drawn.
///
/// `NoMemory` where an allocation failed; the tables are as they were.
pub fn put_table(
    alloc: Global,
    tables: &mut BTreeMap<Name, Table>,
    table: &Name,
    schema: Schema,
) -> Result<(), NoMemory>
    ensures updates { OnOk result (Updates (slice_cmp nat_cmp) tables.old tables.new table.now
        (Some (fresh_table schema))) }
    ensures entries { OnOk result (tables.new.entries ≡ insert_entry (slice_cmp nat_cmp)
        tables.old.entries table.now (fresh_table schema)) }
    ensures count { get (slice_cmp nat_cmp) tables.old table.now ≡ None
        → OnOk result (length tables.new.entries ≡ length tables.old.entries + 1) }
    ensures err { OnErr result (tables.new.entries ≡ tables.old.entries) }
{
    tables.insert(table.twin(alloc)?, Table { schema, drawn: 0 })?;
    Ok(())
}
