// What the state keeps: the tables by their names, the accepted commands and the snapshots.
ghost use Rattle.std.specs.Prelude.{◌≡◌, ◌+◌, ◌<◌, ◌≤◌, ◌++◌, ◌∷◌, ◌↔◌, ℕ, List, [], All, IfNone, IfSome, IsTrue, OnErr, OnOk, Some, drop, length, option_copied, slice_get, take};
ghost use Rattle.std.specs.Ordering.{is_gt};
ghost use Rattle.indexmap.specs.IndexMap.{set_value_at};
ghost use Rattle.mt_values.specs.declared.command.Command.TheVariants as command;
ghost use Rattle.part_history.specs.mt_model.History.{entered, schema_of};
ghost use Rattle.mutation_queue.specs.Queue.{mutations_of};
ghost use Rattle.table_core.specs.Core.{empty_core};
ghost use Rattle.part_history.specs.Entered.{parts_after, parts_upto};
ghost use Rattle.part_history.specs.Parts.{AreInBlockOrder, core_parts_of, partition_cmp, parts_in};
ghost use Rattle.table_core.specs.Steps.{HasNeighbours};
ghost use Rattle.table_core.specs.Store.{AddsMutation, AddsTable, IsNotNamed, IsStore, LiesIn, Named, RunStands, SameTables, StandsAt, core_of, drawn_table, grown_table, parts_below, parts_of_tables, swapped_table};

use crate::{CorePart, Snapshot, Sources};
use indexmap::IndexMap;
use mt_base::{NoMemory, Partition, Seq, Twin};
use mt_values::{Alter, Command, Create, Entry, Insert, Mutation, Name, Schema};
use mutation_queue::Mutations;
use std::alloc::Global;
use std::mem;

/// A table: its schema, its parts in block order, and the last number that its commands drew.
#[derive(Drop)]
pub struct Table {
    pub schema: Schema,
    pub parts: Seq<CorePart>,
    pub last: u32,
}

/// Neighbours in the list of a table's parts: the place of the first, counted from 0, and how many they are.
#[derive(Clone, Copy)]
pub struct Run {
    pub from: usize,
    pub count: usize,
}

/// The tables by the bytes of their names, in the order in which they were made, their mutations, the accepted commands and
/// the snapshots.
#[derive(Drop)]
pub struct Store {
    pub tables: IndexMap<Vec<u8>, Table>,
    pub mutations: Mutations,
    pub entries: Vec<Entry>,
    pub snapshots: Vec<Snapshot>,
}

impl Store {
    /// The store before any event. Takes no memory.
    pub fn new(alloc: Global) -> Self
        ensures empty { core_of result ≡ empty_core }
        ensures store { IsStore result }
    {
        Store {
            tables: IndexMap::new(alloc),
            mutations: Mutations::new(alloc),
            entries: Vec::new(alloc),
            snapshots: Vec::new(alloc),
        }
    }

    /// The place of a table.
    pub fn find(&self, table: &Name) -> Option<usize>
        ensures there { IfSome result (StandsAt self.now.tables.entries table.now) }
        ensures none { IfNone result (All (IsNotNamed table.now) self.now.tables.entries) }
    {
        self.tables.get_index_of(table.as_slice())
    }

    /// The schema of a table, where there is the table.
    pub fn schema(&self, table: &Name) -> Option<&Schema>
        requires { IsStore self.now }
        ensures { option_copied result ≡ schema_of table.now self.now.entries.items }
    {
        let place = self.find(table)?;
        Some(&self.tables[place].schema)
    }

    /// The parts of a table, in block order; none where there is no such table.
    pub fn parts(&self, table: &Name) -> &[CorePart]
        requires { IsStore self.now }
        ensures { result.now ≡ core_parts_of table.now (parts_of_tables self.now.tables.entries) }
    {
        let Some(place) = self.find(table) else {
            return &[];
        };
        self.tables[place].parts.as_slice()
    }

    /// Enters a CREATE after the last command, and its table after the others.
    ///
    /// `NoMemory` where an allocation failed; the store stays as it was.
    pub fn enter_table(
        &mut self,
        alloc: Global,
        session: u64,
        create: Create,
    ) -> Result<(), NoMemory>
        requires { All (IsNotNamed create.table) self.old.tables.entries }
        ensures tables { OnOk result
            (AddsTable create self.old.tables.entries self.new.tables.entries) }
        ensures entries { OnOk result (self.new.entries.items ≡ entered self.old.entries.items
            session (command.Create create ∷ [])) }
        ensures mutations { (t : List ℕ)
            → mutations_of self.new.mutations t ≡ mutations_of self.old.mutations t }
        ensures snapshots { OnOk result (self.new.snapshots.items ≡ self.old.snapshots.items) }
        ensures err { OnErr result (SameTables self.old self.new) }
    {
        self.entries.reserve(1)?;
        add_table(alloc, &mut self.tables, &create)?;
        let command = Command::Create(create);
        self.entries.push_reserved(Entry { session, command });
        Ok(())
    }

    /// Enters an INSERT after the last command, and its part as the last of its partition in the table at this place.
    ///
    /// `NoMemory` where an allocation failed; the store stays as it was.
    pub fn enter_part(
        &mut self,
        place: usize,
        session: u64,
        insert: Insert,
        part: CorePart,
        number: u32,
    ) -> Result<(), NoMemory>
        requires within { place < length self.old.tables.entries }
        requires order { (t : Named) → slice_get self.old.tables.entries place ≡ Some t
            → AreInBlockOrder t.1.parts }
        ensures tables { (t : Named) → slice_get self.old.tables.entries place ≡ Some t
            → OnOk result (self.new.tables.entries ≡ set_value_at self.old.tables.entries place
            (grown_table t.1 part number)) }
        ensures entries { OnOk result (self.new.entries.items ≡ entered self.old.entries.items
            session (command.Insert insert ∷ [])) }
        ensures mutations { (t : List ℕ)
            → mutations_of self.new.mutations t ≡ mutations_of self.old.mutations t }
        ensures snapshots { OnOk result (self.new.snapshots.items ≡ self.old.snapshots.items) }
        ensures err { OnErr result (SameTables self.old self.new) }
    {
        self.entries.reserve(1)?;
        add_part(&mut self.tables[place], part, number)?;
        let command = Command::Insert(insert);
        self.entries.push_reserved(Entry { session, command });
        Ok(())
    }

    /// Enters a mutation after the last command, with the number that the table at this place draws for it.
    ///
    /// `NoMemory` where an allocation failed; the store stays as it was.
    pub fn enter_mutation(
        &mut self,
        alloc: Global,
        place: usize,
        session: u64,
        alter: Alter,
        number: u32,
    ) -> Result<(), NoMemory>
        requires within { place < length self.old.tables.entries }
        requires above { All (λ m. m.number < number)
            (mutations_of self.old.mutations alter.table) }
        ensures tables { (t : Named) → slice_get self.old.tables.entries place ≡ Some t
            → OnOk result (self.new.tables.entries ≡ set_value_at self.old.tables.entries place
            (drawn_table t.1 number)) }
        ensures mutations { OnOk result (AddsMutation alter.table (record {
          number = number;
          change = alter.change;
        }) self.old.mutations self.new.mutations) }
        ensures entries { OnOk result (self.new.entries.items ≡ entered self.old.entries.items
            session (command.Alter alter ∷ [])) }
        ensures snapshots { OnOk result (self.new.snapshots.items ≡ self.old.snapshots.items) }
        ensures err { OnErr result (SameTables self.old self.new) }
    {
        self.entries.reserve(1)?;
        let change = alter.change.twin(alloc)?;
        self.mutations
            .accept(alloc, &alter.table, Mutation { number, change })?;
        self.tables[place].last = number;
        let command = Command::Alter(alter);
        self.entries.push_reserved(Entry { session, command });
        Ok(())
    }

    /// Puts a part in place of a run of the parts of the table at this place. Takes no memory.
    pub fn swap_run(&mut self, alloc: Global, place: usize, run: Run, part: CorePart)
        requires within { place < length self.old.tables.entries }
        requires run { (t : Named) → slice_get self.old.tables.entries place ≡ Some t
            → LiesIn run t.1.parts }
        ensures tables { (t : Named) → slice_get self.old.tables.entries place ≡ Some t
            → self.new.tables.entries ≡ set_value_at self.old.tables.entries place
            (swapped_table t.1 run part) }
        ensures mutations { (t : List ℕ)
            → mutations_of self.new.mutations t ≡ mutations_of self.old.mutations t }
        ensures entries { self.new.entries.items ≡ self.old.entries.items }
        ensures snapshots { self.new.snapshots.items ≡ self.old.snapshots.items }
    {
        swap_parts(alloc, &mut self.tables[place], run, part);
    }
}

/// Adds the table of a CREATE after the others.
///
/// `NoMemory` where an allocation failed; the tables stay as they were.
fn add_table(
    alloc: Global,
    tables: &mut IndexMap<Vec<u8>, Table>,
    create: &Create,
) -> Result<(), NoMemory>
    requires { All (IsNotNamed create.now.table) tables.old.entries }
    ensures ok { OnOk result (AddsTable create.now tables.old.entries tables.new.entries) }
    ensures err { OnErr result (tables.new.entries ≡ tables.old.entries) }
{
    let schema = create.schema.twin(alloc)?;
    let key = create.table.twin(alloc)?.into_vec();
    let parts = Seq::new(alloc);
    let last = 0;
    tables.insert(
        key,
        Table {
            schema,
            parts,
            last,
        },
    )?;
    Ok(())
}

/// Adds a part to a table, as the last of its partition in block order. Its number is the last that was drawn.
///
/// `NoMemory` where an allocation failed; the table stays as it was.
fn add_part(table: &mut Table, part: CorePart, number: u32) -> Result<(), NoMemory>
    requires { AreInBlockOrder table.old.parts }
    ensures ok { OnOk result (table.new ≡ grown_table table.old part number) }
    ensures err { OnErr result (table.new ≡ table.old) }
{
    let place = end_of(table.parts.as_slice(), part.name.partition);
    table.parts.insert(place, part)?;
    table.last = number;
    Ok(())
}

/// Puts a part in place of a run of the table's parts. Takes no memory.
fn swap_parts(alloc: Global, table: &mut Table, run: Run, part: CorePart)
    requires some { 0 < run.count }
    requires within { run.from + run.count ≤ length table.old.parts }
    ensures { table.new ≡ swapped_table table.old run part }
{
    let mut parts = mem::replace(&mut table.parts, Seq::new(alloc)).into_vec();
    replace_run(&mut parts, run, part);
    table.parts = Seq::of(parts);
}

/// Puts a part in place of a run of parts. Takes no memory.
#[tactic(auto, using(crate::proofs::Neighbours::run_replaced))]
fn replace_run(parts: &mut Vec<CorePart>, run: Run, part: CorePart)
    requires some { 0 < run.count }
    requires within { run.from + run.count ≤ length parts.old.items }
    ensures { parts.new.items ≡ take run.from parts.old.items ++ part
        ∷ drop (run.from + run.count) parts.old.items }
{
    parts[run.from] = part;
    parts.drain(run.from + 1..run.from + run.count);
}

/// The parts of a run.
pub fn parts_of_run(parts: &[CorePart], run: Run) -> &[CorePart]
    requires { run.from + run.count ≤ length parts.now }
    ensures { result.now ≡ take run.count (drop run.from parts.now) }
{
    &parts[run.from..][..run.count]
}

/// Where neighbours stand in the list of their table's parts; none where their partition does not have them, or they are none.
pub fn run_of(parts: &[CorePart], sources: &Sources) -> Option<Run>
    requires { AreInBlockOrder parts.now }
    ensures there { IfSome result (RunStands parts.now sources.now) }
    ensures none { IfNone result (HasNeighbours parts.now sources.now → ⊥) }
{
    let all = run_of_partition(parts, sources.partition);
    if !has_neighbours(all.count, sources) {
        return None;
    }
    Some(Run {
        from: all.from + sources.first,
        count: sources.count,
    })
}

/// Whether there is at least one of them among a partition's parts, and no more than there are.
fn has_neighbours(count: usize, sources: &Sources) -> bool
    ensures { IsTrue result
        ↔ (0 < sources.now.count) × (sources.now.first + sources.now.count ≤ count) }
{
    0 < sources.count && sources.first <= count && sources.count <= count - sources.first
}

/// Where the parts of a partition stand.
fn run_of_partition(parts: &[CorePart], partition: Partition) -> Run
    requires { AreInBlockOrder parts.now }
    ensures from { result.from ≡ length (parts_below partition parts.now) }
    ensures count { result.count ≡ length (parts_in partition parts.now) }
    ensures within { result.from + result.count ≤ length parts.now }
{
    let from = start_of(parts, partition);
    let count = end_of(parts, partition) - from;
    Run { from, count }
}

/// The place of the first part of a partition: after those of the partitions before it.
fn start_of(parts: &[CorePart], partition: Partition) -> usize
    requires { AreInBlockOrder parts.now }
    ensures { result ≡ length (parts_below partition parts.now) }
{
    parts.partition_point(|part| comes_after(partition, part.name.partition))
}

/// The place after the parts of a partition and of those before it.
fn end_of(parts: &[CorePart], partition: Partition) -> usize
    requires { AreInBlockOrder parts.now }
    ensures within { result ≤ length parts.now }
    ensures front { take result parts.now ≡ parts_upto partition parts.now }
    ensures back { drop result parts.now ≡ parts_after partition parts.now }
{
    parts.partition_point(|part| !comes_after(part.name.partition, partition))
}

/// Whether a partition comes after another in block order.
fn comes_after(partition: Partition, other: Partition) -> bool
    ensures { result ≡ is_gt (partition_cmp partition other) }
{
    match (partition, other) {
        (Partition::Whole, _) => false,
        (Partition::Number(_), Partition::Whole) => true,
        (Partition::Number(number), Partition::Number(another)) => number > another,
    }
}
