// One event after another, over the store.
ghost use Rattle.std.specs.Prelude.{◌≡◌, ◌<◌, ◌≤◌, ◌↔◌, All, IfNone, IfOk, IfSome, IsTrue, OnErr, OnOk, Some, length};
ghost use Rattle.std.specs.List.{fold};
ghost use Rattle.mt_base.specs.Limits.{level_limit};
ghost use Rattle.mt_values.specs.declared.schema.Schema.{Schema};
ghost use Rattle.mt_values.specs.Grid.{picked};
ghost use Rattle.mt_values.specs.Tables.{sorting_columns};
ghost use Rattle.part_history.specs.mt_model.History.{IsInsertInto, IsTableSchema, schema_of};
ghost use Rattle.part_history.specs.part_name.declared.part.PartName.{PartName};
ghost use Rattle.part_history.specs.part_name.Merged.{joined_name, merged_of};
ghost use Rattle.part_history.specs.Merges.{names_of};
ghost use Rattle.part_history.specs.mt_model.Mutations.{IsChangeOf};
ghost use Rattle.part_history.specs.mt_model.Numbers.{mutations_in};
ghost use Rattle.part_history.specs.part_name.Pending.{NoneParted, Rise};
ghost use Rattle.mutation_queue.specs.Queue.{mutations_of};
ghost use Rattle.table_core.specs.declared.event.Task.TheVariants as task;
ghost use Rattle.part_history.specs.Entered as adding;
ghost use Rattle.table_core.specs.Steps as making;
ghost use Rattle.table_core.specs.Steps.{AcceptGives, AlterGives, CrashGives, CrashMeets, CreateGives, FitsLevel, GivesOutcome, InsertGives, MayAccept, MayCome, MayCrash, MayJoin, MayPut, PutGives, ReadGives, TakeGives, rows_of_snapshot};
ghost use Rattle.part_history.specs.Parts.{rows_seen};
ghost use Rattle.table_core.specs.Store.{IsStore, core_of};

use crate::store::{Store, parts_of_run, run_of};
use crate::{CorePart, Crash, Event, Guard, Outcome, Put, Snapshot, Sources, Task};
use mt_base::{NoMemory, ROOT_TABLE_LIMIT, Seq, Twin};
use mt_values::{Alter, Block, Command, Create, Entry, Insert, Mutation, Name, Row, Schema};
use mutation_queue::{Mutations, pending_in};
use on_fly::apply;
use part_history::part_name::{PartName, join, raise, rewrite};
use std::alloc::Global;

/// What happens at an event.
///
/// `NoMemory` where an allocation failed; contracts see the store as it was.
pub fn happen(alloc: Global, store: &mut Store, event: Event) -> Result<Outcome, NoMemory>
    requires store { IsStore store.old }
    requires may { MayCome (core_of store.old) event }
    ensures gives { IfOk result (λ given. GivesOutcome (core_of store.old) event given
        (core_of store.new)) }
    ensures err { OnErr result (core_of store.new ≡ core_of store.old) }
    ensures store { IsStore store.new }
{
    match event {
        Event::Accept(entry) => decide(alloc, store, entry),
        Event::Put(put) => Ok(put_part(alloc, store, put)),
        Event::TakeSnapshot { table } => take_snapshot(alloc, store, table),
        Event::ReadSnapshot { number } => read_snapshot(alloc, store, number),
        Event::Crash(crash) => restart(alloc, store, crash),
    }
}

/// Accepts a command of a session, or refuses it.
fn decide(alloc: Global, store: &mut Store, entry: Entry) -> Result<Outcome, NoMemory>
    requires store { IsStore store.old }
    requires may { MayAccept store.old.entries.items entry.command }
    ensures gives { IfOk result (λ given.
        AcceptGives (core_of store.old) entry.session entry.command given (core_of store.new)) }
    ensures err { OnErr result (core_of store.new ≡ core_of store.old) }
    ensures store { IsStore store.new }
{
    let Entry { session, command } = entry;
    match command {
        Command::Create(create) => make_table(alloc, store, session, create),
        Command::Insert(insert) => add_rows(alloc, store, session, insert),
        Command::Alter(alter) => add_mutation(alloc, store, session, alter),
    }
}

/// Begins again after a crash: of an accept or a put within which it came all is left or nothing, and no snapshot is.
fn restart(alloc: Global, store: &mut Store, crash: Crash) -> Result<Outcome, NoMemory>
    requires store { IsStore store.old }
    requires may { MayCrash (core_of store.old) crash }
    ensures gives { IfOk result
        (λ given. CrashGives (core_of store.old) crash given (core_of store.new)) }
    ensures err { OnErr result (core_of store.new ≡ core_of store.old) }
    ensures store { IsStore store.new }
{
    meet_crash(alloc, store, crash)?;
    store.snapshots.clear();
    Ok(Outcome::Restarted)
}

/// Leaves the state that a crash meets: an accept or a put within which it came and that was done is done here.
fn meet_crash(alloc: Global, store: &mut Store, crash: Crash) -> Result<(), NoMemory>
    requires store { IsStore store.old }
    requires may { MayCrash (core_of store.old) crash }
    ensures meets { OnOk result (CrashMeets (core_of store.old) crash (core_of store.new)) }
    ensures err { OnErr result (core_of store.new ≡ core_of store.old) }
    ensures store { IsStore store.new }
{
    match crash {
        Crash::Within { entry, done: true } => {
            decide(alloc, store, entry)?;
            Ok(())
        }
        Crash::WithinPut { put, done: true } => {
            put_part(alloc, store, put);
            Ok(())
        }
        _ => Ok(()),
    }
}

/// Makes a table, unless there is one of its name or there are too many.
fn make_table(
    alloc: Global,
    store: &mut Store,
    session: u64,
    create: Create,
) -> Result<Outcome, NoMemory>
    requires store { IsStore store.old }
    requires schema { IsTableSchema create.schema }
    ensures gives { IfOk result (λ given. CreateGives (core_of store.old) session create given
        (core_of store.new)) }
    ensures err { OnErr result (core_of store.new ≡ core_of store.old) }
    ensures store { IsStore store.new }
{
    if store.find(&create.table).is_some() {
        return Ok(Outcome::Refused(Guard::TableExists));
    }
    if store.tables.len() >= ROOT_TABLE_LIMIT {
        return Ok(Outcome::Refused(Guard::Creates));
    }
    let length = store.entries.len() + 1;
    store.enter_table(alloc, session, create)?;
    Ok(Outcome::Accepted { length })
}

/// Adds the rows of an INSERT as a part of their own, unless there is no such table or it has no number left.
fn add_rows(
    alloc: Global,
    store: &mut Store,
    session: u64,
    insert: Insert,
) -> Result<Outcome, NoMemory>
    requires store { IsStore store.old }
    requires rows { (schema : Schema) → schema_of insert.table store.old.entries.items ≡ Some schema
        → IsInsertInto schema insert }
    ensures gives { IfOk result (λ given. InsertGives (core_of store.old) session insert given
        (core_of store.new)) }
    ensures err { OnErr result (core_of store.new ≡ core_of store.old) }
    ensures store { IsStore store.new }
{
    let Some(place) = store.find(&insert.table) else {
        return Ok(Outcome::Refused(Guard::NoTable));
    };
    let table = &store.tables[place];
    let Some(number) = table.last.checked_add(1) else {
        return Ok(Outcome::Refused(Guard::Numbers));
    };
    let part = part_of_insert(alloc, &table.schema, number, &insert)?;
    let length = store.entries.len() + 1;
    store.enter_part(place, session, insert, part, number)?;
    Ok(Outcome::Accepted { length })
}

/// Adds a mutation, which changes no part, unless there is no such table or it has no number left.
fn add_mutation(
    alloc: Global,
    store: &mut Store,
    session: u64,
    alter: Alter,
) -> Result<Outcome, NoMemory>
    requires store { IsStore store.old }
    requires change { (schema : Schema) → schema_of alter.table store.old.entries.items
        ≡ Some schema → IsChangeOf schema alter.change }
    ensures gives { IfOk result (λ given. AlterGives (core_of store.old) session alter given
        (core_of store.new)) }
    ensures err { OnErr result (core_of store.new ≡ core_of store.old) }
    ensures store { IsStore store.new }
{
    let Some(place) = store.find(&alter.table) else {
        return Ok(Outcome::Refused(Guard::NoTable));
    };
    let Some(number) = store.tables[place].last.checked_add(1) else {
        return Ok(Outcome::Refused(Guard::Numbers));
    };
    let length = store.entries.len() + 1;
    store.enter_mutation(alloc, place, session, alter, number)?;
    Ok(Outcome::Accepted { length })
}

/// The part that an INSERT makes: of its own number alone, with its rows in the table's order.
fn part_of_insert(
    alloc: Global,
    schema: &Schema,
    number: u32,
    insert: &Insert,
) -> Result<CorePart, NoMemory>
    requires { All (λ place. place < length insert.now.block.types) (sorting_columns schema.now) }
    ensures { IfOk result (λ part. part ≡ adding.part_of_insert schema.now number insert.now) }
{
    let order = insert.block.key_order(alloc, schema)?;
    Ok(CorePart {
        table: insert.table.twin(alloc)?,
        name: PartName {
            partition: insert.partition,
            min_block: number,
            max_block: number,
            level: 0,
            mutation: None,
        },
        rows: rows_at(alloc, &insert.block, &order)?,
    })
}

/// The rows of a block at these places, in this order.
fn rows_at(alloc: Global, block: &Block, places: &[u32]) -> Result<Seq<Row>, NoMemory>
    requires { All (λ place. place < length block.now.rows) places.now }
    ensures { IfOk result (λ rows. rows ≡ picked block.now.rows places.now) }
{
    let mut rows = Seq::with_capacity(alloc, places.len())?;
    for place in places {
        rows.push(block.row(alloc, *place as usize)?)?;
    }
    Ok(rows)
}

/// Puts what was done with neighbours in their place, unless there is no such table, there are no such neighbours, a mutation
/// parts two that were merged, or the part would have too great a level. Takes no memory.
fn put_part(alloc: Global, store: &mut Store, put: Put) -> Outcome
    requires store { IsStore store.old }
    requires may { MayPut (core_of store.old) put }
    ensures gives { PutGives (core_of store.old) put result (core_of store.new) }
    ensures store { IsStore store.new }
{
    let Put {
        sources,
        task,
        rows,
    } = put;
    let Some(place) = store.find(&sources.table) else {
        return Outcome::Refused(Guard::NoTable);
    };
    let parts = store.tables[place].parts.as_slice();
    let Some(run) = run_of(parts, &sources) else {
        return Outcome::Refused(Guard::NotNeighbours);
    };
    let found = parts_of_run(parts, run);
    if !may_join(&store.mutations, &sources.table, task, found) {
        return Outcome::Refused(Guard::Parted);
    }
    let Some(name) = name_made(task, found) else {
        return Outcome::Refused(Guard::Levels);
    };
    let Sources { table, .. } = sources;
    let part = CorePart { table, name, rows };
    store.swap_run(alloc, place, run, part);
    Outcome::Put { name }
}

/// Whether no mutation keeps these from what was done with them: of a merge none parts two that follow each other.
fn may_join(queue: &Mutations, table: &Name, task: Task, sources: &[CorePart]) -> bool
    ensures { IsTrue result
        ↔ MayJoin (mutations_of queue.now table.now) task (names_of sources.now) }
{
    match task {
        Task::Merge => none_parted(queue, table, sources),
        Task::Rewrite { .. } => true,
    }
}

/// Whether no mutation of the table parts two that follow each other.
fn none_parted(queue: &Mutations, table: &Name, sources: &[CorePart]) -> bool
    ensures { IsTrue result
        ↔ NoneParted (mutations_of queue.now table.now) (names_of sources.now) }
{
    let Some((first, rest)) = sources.split_first() else {
        return true;
    };
    let mut last = first.name;
    for part in rest {
        if !queue.may_merge(table, &last, &part.name) {
            return false;
        }
        last = part.name;
    }
    true
}

/// The name of the part that is put in place of these; none where they are none, a rewrite is of more than one, or the level
/// would be too great.
fn name_made(task: Task, sources: &[CorePart]) -> Option<PartName>
    ensures named { IfSome result (λ name.
        (making.name_made task (names_of sources.now) ≡ Some name) × FitsLevel task name) }
    ensures none { IfNone result ((name : PartName)
        → making.name_made task (names_of sources.now) ≡ Some name → FitsLevel task name → ⊥) }
{
    match task {
        Task::Merge => merged_name(sources),
        Task::Rewrite { upto } => rewritten_name(sources, upto),
    }
}

/// The name of the one part of these, to which mutations up to this one were applied.
fn rewritten_name(sources: &[CorePart], upto: u32) -> Option<PartName>
    ensures { result ≡ making.name_made (task.Rewrite upto) (names_of sources.now) }
{
    if sources.len() != 1 {
        return None;
    }
    Some(rewrite(&sources[0].name, upto))
}

/// The name of the part that a merge of these makes; none where they are none, or its level would be too great.
fn merged_name(sources: &[CorePart]) -> Option<PartName>
    ensures named { IfSome result (λ name. (merged_of (names_of sources.now) ≡ Some name)
        × (name.level ≤ level_limit)) }
    ensures none { IfNone result ((name : PartName) → merged_of (names_of sources.now) ≡ Some name
        → level_limit < name.level) }
{
    let Some((first, rest)) = sources.split_first() else {
        return None;
    };
    raise(&joined_name(first.name, rest))
}

/// The blocks of a name and of those of parts joined.
#[tactic(auto, using(crate::proofs::Neighbours::joined_more))]
fn joined_name(first: PartName, rest: &[CorePart]) -> PartName
    ensures { result ≡ fold joined_name first (names_of rest.now) }
{
    let mut joined = first;
    for part in rest {
        joined = join(&joined, &part.name);
    }
    joined
}

/// Takes a snapshot of a table as it is now, unless there is no such table.
fn take_snapshot(alloc: Global, store: &mut Store, table: Name) -> Result<Outcome, NoMemory>
    requires { IsStore store.old }
    ensures gives { IfOk result
        (λ given. TakeGives (core_of store.old) table given (core_of store.new)) }
    ensures err { OnErr result (core_of store.new ≡ core_of store.old) }
    ensures store { IsStore store.new }
{
    let Some(place) = store.find(&table) else {
        return Ok(Outcome::Refused(Guard::NoTable));
    };
    let parts = store.tables[place].parts.twin(alloc)?;
    let mutations = all_mutations(alloc, store, &table)?;
    let length = store.entries.len();
    let number = store.snapshots.len();
    let snapshot = Snapshot {
        table,
        parts,
        mutations,
        length,
    };
    store.snapshots.push(snapshot)?;
    Ok(Outcome::Taken { number })
}

/// Copies of the mutations of a table.
fn all_mutations(alloc: Global, store: &Store, table: &Name) -> Result<Seq<Mutation>, NoMemory>
    requires { IsStore store.now }
    ensures { IfOk result
        (λ found. found ≡ mutations_in table.now store.now.entries.items) }
{
    let mutations = store.mutations.all(table);
    let mut found = Seq::new(alloc);
    for mutation in mutations {
        found.push(mutation.twin(alloc)?)?;
    }
    Ok(found)
}

/// The rows of a snapshot, unless there is no such snapshot.
fn read_snapshot(alloc: Global, store: &Store, number: usize) -> Result<Outcome, NoMemory>
    requires { IsStore store.now }
    ensures { IfOk result (λ given. ReadGives (core_of store.now) number given
        (core_of store.now)) }
{
    let Some(snapshot) = store.snapshots.get(number) else {
        return Ok(Outcome::Refused(Guard::NoSnapshot));
    };
    let rows = all_rows(alloc, snapshot)?;
    let length = snapshot.length;
    Ok(Outcome::Rows { rows, length })
}

/// The rows of the parts of a snapshot, each part's after the mutations for which it waits, one part after another.
fn all_rows(alloc: Global, snapshot: &Snapshot) -> Result<Seq<Row>, NoMemory>
    requires { Rise snapshot.now.mutations }
    ensures { IfOk result (λ rows. rows ≡ rows_of_snapshot snapshot.now) }
{
    let parts = snapshot.parts.as_slice();
    let mut rows = Vec::new(alloc);
    for part in parts {
        let mut own = part_rows(alloc, snapshot.mutations.as_slice(), part)?;
        rows.append(&mut own)?;
    }
    Ok(Seq::of(rows))
}

/// The rows of a part after those of the mutations for which it waits.
fn part_rows(alloc: Global, mutations: &[Mutation], part: &CorePart) -> Result<Vec<Row>, NoMemory>
    requires { Rise mutations.now }
    ensures { IfOk result (λ rows. rows.items ≡ rows_seen mutations.now part.now) }
{
    let mut rows = part.rows.twin(alloc)?.into_vec();
    apply(alloc, pending_in(mutations, &part.name), &mut rows)?;
    Ok(rows)
}
