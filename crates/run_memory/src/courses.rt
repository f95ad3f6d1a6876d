// Lists of events of the core, with merges and rewrites; after each event the visible parts are held against the history
// (docs/testing.md, "Events with merges").
ghost use Rattle.std.specs.Prelude.{◌≡◌, ◌+◌, ◌-◌, ◌≤◌, IfOk, IfSome, Some, drop, filter, length, nat_le, option_copied, slice_get, take};
ghost use Rattle.mt_values.specs.declared.mutation.Mutation.{Mutation};
ghost use Rattle.mt_values.specs.Changes.{mutated};
ghost use Rattle.table_core.specs.part_history.Parts.{parts_in};
ghost use Rattle.row_merge.specs.Merged.{inputs_of};
ghost use Rattle.table_core.specs.Steps.{MayPut};
ghost use Rattle.run_memory.specs.Events.{FitsAfter};
ghost use Rattle.run_memory.specs.Putting.{LeftOfRun, rows_of_each};

use crate::answer::Answer;
use crate::standing::stand;
use crate::text::first_word;
use mt_base::{NoMemory, Partition, Seq, Twin};
use mt_plain::on_fly::change_rows;
use mt_plain::same_partition;
use mt_values::{Mutation, Row, Schema};
use row_merge::merge_rows;
use std::alloc::Global;
use std::marker::Model;
use table_core::mutation_queue::pending_in;
use table_core::part_history::CorePart;
use table_core::{CoreState, Crash, Event, Outcome, Put, Sources, Task, step};

/// The tables: with several partitions, with last rows, with sums, and plain, and those whose rows have a mark.
const LETTERS: &[u8] = b"cdgmnpqrst";

/// The state of the core while events come one after another.
#[derive(Drop)]
struct Course {
    state: CoreState,
}

impl Model for Course {
    ghost use Rattle.std.specs.Coded.{codes};
    ghost use Rattle.mt_values.specs.PolishCode.{condition_code};
    ghost use Rattle.table_core.specs.Core.{Core};
    ghost use Rattle.run_memory.specs.Putting.{IsCourse};

    ghost Value = { Core };

    ghost coded = { Prim.hlevel (codes, condition_code) };

    ghost view = { λ course. course.state };

    ghost invariant = { λ course. IsCourse course.state };
}

/// How many events there were, and what came of them.
#[derive(Clone, Copy)]
struct Tally {
    events: u64,
    accepted: u64,
    puts: u64,
    // How many parts were merged by puts.
    sources: u64,
    taken: u64,
    read: u64,
    crashes: u64,
    refused: u64,
    // After how many events some parts did not stand for the history.
    faults: u64,
}

/// No event yet.
const NOTHING: Tally = Tally {
    events: 0,
    accepted: 0,
    puts: 0,
    sources: 0,
    taken: 0,
    read: 0,
    crashes: 0,
    refused: 0,
    faults: 0,
};

// One more.
fn more(count: &mut u64) {
    *count = count.saturating_add(1);
}

// The rows of each part of a partition, one part after another.
fn rows_in(
    alloc: Global,
    parts: &[CorePart],
    partition: Partition,
) -> Result<Vec<Vec<Row>>, NoMemory>
    ensures { IfOk result
        (λ own. inputs_of own.items ≡ rows_of_each (parts_in partition parts.now)) }
{
    let mut own = Vec::new(alloc);
    for part in parts {
        if same_partition(part.name.partition, partition) {
            own.push(part.rows.twin(alloc)?.into_vec())?;
        }
    }
    Ok(own)
}

// As many inputs as are asked for, from a first one on.
fn run_of(own: &[Vec<Row>], first: usize, count: usize) -> &[Vec<Row>]
    requires { first + count ≤ length own.now }
    ensures { result.now ≡ take count (drop first own.now) }
{
    &own[first..][..count]
}

// What a merge leaves of a run of inputs; no row where there are not so many.
fn left_of_run(
    alloc: Global,
    schema: &Schema,
    own: &[Vec<Row>],
    first: usize,
    count: usize,
) -> Result<Seq<Row>, NoMemory>
    ensures { IfOk result (LeftOfRun schema.now first count (inputs_of own.now)) }
{
    if first > own.len() || count > own.len() - first {
        return Ok(Seq::new(alloc));
    }
    let rows = merge_rows(alloc, schema, run_of(own, first, count))?;
    Ok(Seq::of(rows))
}

// The part of a partition at a place, from 0.
fn part_at(parts: &[CorePart], partition: Partition, place: usize) -> Option<&CorePart>
    ensures { option_copied result ≡ slice_get (parts_in partition parts.now) place }
{
    let mut left = place;
    for part in parts {
        if !same_partition(part.name.partition, partition) {
            continue;
        }
        if left == 0 {
            return Some(part);
        }
        left -= 1;
    }
    None
}

// The last of the first of some mutations, this many.
fn last_of(pending: &[Mutation], count: usize) -> Option<&Mutation>
    ensures { IfSome result (λ last. slice_get pending.now (count - 1) ≡ Some last.now) }
{
    pending.get(count.checked_sub(1)?)
}

// The rows of a part after those of some mutations whose numbers are at most this.
fn rewritten(
    alloc: Global,
    pending: &[Mutation],
    upto: u32,
    part: &CorePart,
) -> Result<Seq<Row>, NoMemory>
    ensures { IfOk result (λ rows. rows
        ≡ mutated (filter (λ (m : Mutation). nat_le m.number upto) pending.now) part.now.rows) }
{
    let mut rows = part.rows.twin(alloc)?.into_vec();
    for mutation in pending {
        if mutation.number > upto {
            continue;
        }
        change_rows(alloc, &mutation.change, &mut rows)?;
    }
    Ok(Seq::of(rows))
}

impl Course {
    // The state before any event.
    #[tactic(auto, using(crate::proofs::Putting::begun))]
    fn new(alloc: Global) -> Course {
        let state = CoreState::new(alloc);
        Course { state }
    }

    // Lets an event happen.
    #[tactic(auto, using(crate::proofs::Fitting::fitting_comes, crate::proofs::Putting::stays))]
    fn happen(&mut self, alloc: Global, event: Event) -> Result<Outcome, NoMemory>
        requires { FitsAfter self.old event }
    {
        step(alloc, &mut self.state, event)
    }

    // A merge of neighbours in a partition of a table, with what is left of their rows, where there are such neighbours.
    fn merge_of(&self, alloc: Global, sources: Sources) -> Result<Put, NoMemory>
        ensures { IfOk result (MayPut self.now) }
    {
        let task = Task::Merge;
        let Some(schema) = self.state.schema(&sources.table) else {
            let rows = Seq::new(alloc);
            return Ok(Put {
                sources,
                task,
                rows,
            });
        };
        let own = rows_in(alloc, self.state.parts(&sources.table), sources.partition)?;
        let rows = left_of_run(alloc, schema, &own, sources.first, sources.count)?;
        Ok(Put {
            sources,
            task,
            rows,
        })
    }

    // A rewrite of a part by the first of the mutations for which it waits, this many; none where it waits for fewer.
    fn rewrite_of(
        &self,
        alloc: Global,
        sources: Sources,
        count: usize,
    ) -> Result<Option<Put>, NoMemory>
        requires { sources.count ≡ 1 }
        ensures { IfOk result (λ found. IfSome found (MayPut self.now)) }
    {
        let parts = self.state.parts(&sources.table);
        let Some(part) = part_at(parts, sources.partition, sources.first) else {
            let task = Task::Rewrite { upto: 0 };
            let rows = Seq::new(alloc);
            return Ok(Some(Put {
                sources,
                task,
                rows,
            }));
        };
        let pending = pending_in(self.state.mutations(&sources.table), &part.name);
        let Some(last) = last_of(pending, count) else {
            return Ok(None);
        };
        let upto = last.number;
        let rows = rewritten(alloc, pending, upto, part)?;
        let task = Task::Rewrite { upto };
        Ok(Some(Put {
            sources,
            task,
            rows,
        }))
    }

    // Whether the visible parts of each table stand for the history.
    fn stands(&self, alloc: Global) -> Result<bool, NoMemory> {
        for letter in LETTERS {
            let table = Seq::from_slice(alloc, &[*letter])?;
            if let Some(schema) = self.state.schema(&table) {
                let parts = self.state.parts(&table);
                if !stand(alloc, &table, schema, parts, self.state.history())? {
                    return Ok(false);
                }
            }
        }
        Ok(true)
    }
}

impl Tally {
    // Counts what an event gave that asked for a merge of so many parts.
    fn count(&mut self, outcome: &Outcome, sources: usize) {
        more(&mut self.events);
        match outcome {
            Outcome::Accepted { .. } => more(&mut self.accepted),
            Outcome::Put { .. } => {
                more(&mut self.puts);
                self.sources = self.sources.saturating_add(sources as u64);
            }
            Outcome::Taken { .. } => more(&mut self.taken),
            Outcome::Rows { .. } => more(&mut self.read),
            Outcome::Refused(_) => more(&mut self.refused),
            Outcome::Restarted => more(&mut self.crashes),
        }
    }
}

// How many parts an event merges.
fn sources_of(event: &Event) -> usize {
    match event {
        Event::Put(put) => put.sources.count,
        _ => 0,
    }
}

// Lets an event happen, counts what it gave, and holds the parts against the history.
fn turn(
    alloc: Global,
    course: &mut Course,
    event: Event,
    tally: &mut Tally,
) -> Result<Outcome, NoMemory>
    requires { FitsAfter course.old event }
{
    let sources = sources_of(&event);
    let outcome = course.happen(alloc, event)?;
    tally.count(&outcome, sources);
    if !course.stands(alloc)? {
        more(&mut tally.faults);
    }
    Ok(outcome)
}

// Whether a text is that of a crash within a put.
fn crashes_in_put(text: &str) -> bool {
    match text
        .strip_prefix("crash done ")
        .or(text.strip_prefix("crash lost "))
    {
        Some(rest) => is_put(rest),
        None => false,
    }
}

// Whether a text is that of a put.
fn is_put(text: &str) -> bool {
    text.starts_with("put ") || text.starts_with("rewrite ")
}

impl Answer {
    // The partition of a number, or `all`.
    fn partition_of(&mut self, word: &str) -> Partition {
        if word == "all" {
            return Partition::Whole;
        }
        Partition::Number(self.number_of(word))
    }

    // Parts of a table, as `p 1 0 2`: of a partition, the place of the first part there, and how many parts.
    fn parts_asked(&mut self, text: &str) -> Sources {
        let (table, rest) = first_word(text);
        let (partition, rest) = first_word(rest);
        let (first, count) = first_word(rest);
        Sources {
            table: self.table_of(table),
            partition: self.partition_of(partition),
            first: usize::from(self.small_of(first)),
            count: usize::from(self.small_of(count)),
        }
    }

    // A merge of the parts that a text asks for.
    fn merge(&mut self, course: &Course, text: &str) -> Option<Put>
        ensures { IfSome result (MayPut course.now) }
    {
        let sources = self.parts_asked(text);
        course.merge_of(self.alloc, sources).ok()
    }

    // A rewrite of the first of the parts that a text asks for; their number is how many of the mutations for which it waits are applied.
    // None where it waits for fewer.
    fn rewrite(&mut self, course: &Course, text: &str) -> Option<Put>
        ensures { IfSome result (MayPut course.now) }
    {
        let mut sources = self.parts_asked(text);
        let mutations = sources.count;
        sources.count = 1;
        course.rewrite_of(self.alloc, sources, mutations).ok()?
    }

    // What a put puts, as `put p 1 0 2` or `rewrite p 1 0 2`.
    fn put_of(&mut self, course: &Course, text: &str) -> Option<Put>
        ensures { IfSome result (MayPut course.now) }
    {
        if let Some(rest) = text.strip_prefix("put ") {
            return self.merge(course, rest);
        }
        let rest = text.strip_prefix("rewrite ")?;
        self.rewrite(course, rest)
    }

    // A crash within a put, which is done then or not.
    fn crash_in_put(&mut self, course: &Course, text: &str, done: bool) -> Option<Event>
        ensures { IfSome result (FitsAfter course.now) }
    {
        let put = self.put_of(course, text)?;
        Some(Event::Crash(Crash::WithinPut { put, done }))
    }

    // A crash within the put that a text says, as `crash done put p 1 0 2`, where it says one.
    fn crashed_put(&mut self, course: &Course, text: &str) -> Option<Event>
        ensures { IfSome result (FitsAfter course.now) }
    {
        if let Some(rest) = text.strip_prefix("crash done ") {
            return self.crash_in_put(course, rest, true);
        }
        let rest = text.strip_prefix("crash lost ")?;
        self.crash_in_put(course, rest, false)
    }

    // The next event, of a text: a put, as `put p 1 0 2`, a crash within one, as `crash done put p 1 0 2`, or another. None where it may not
    // come.
    #[tactic(auto, using(crate::proofs::Fitting::fits_after))]
    fn next_event(&mut self, course: &Course, text: &str) -> Option<Event>
        ensures { IfSome result (FitsAfter course.now) }
    {
        if is_put(text) {
            return Some(Event::Put(self.put_of(course, text)?));
        }
        if crashes_in_put(text) {
            return self.crashed_put(course, text);
        }
        let event = self.event(text)?;
        Some(event)
    }

    // Lets the events of a line happen, one after another.
    fn happen(&mut self, rest: &str, tally: &mut Tally) {
        let mut course = Course::new(self.alloc);
        for text in rest.split(';') {
            if let Some(event) = self.next_event(&course, text) {
                let done = turn(self.alloc, &mut course, event, tally).is_ok();
                self.note(done);
            }
        }
    }

    // Prints a count with a word after it.
    fn tallied(&mut self, count: u64, what: &str) {
        self.number(count);
        self.put(what);
    }

    // Prints what came of a list of events.
    fn tally(&mut self, tally: &Tally) {
        self.tallied(tally.events, " events: ");
        self.tallied(tally.accepted, " accepted, ");
        self.tallied(tally.puts, " puts of ");
        self.tallied(tally.sources, " parts, ");
        self.tallied(tally.taken, " snapshots, ");
        self.tallied(tally.read, " reads, ");
        self.tallied(tally.crashes, " crashes, ");
        self.tallied(tally.refused, " refused; after ");
        self.tallied(tally.faults, " the parts do not stand");
    }

    // Lets the event of a text happen where it may come, and prints what it gave.
    fn step(&mut self, course: &mut Course, text: &str, tally: &mut Tally) {
        let Some(event) = self.next_event(course, text) else {
            return self.put("may not come");
        };
        match turn(self.alloc, course, event, tally) {
            Ok(outcome) => self.outcome(&outcome),
            Err(_) => self.note(false),
        }
    }

    /// Prints what each event of a list gives, of those that may come, and whether after each the parts stood for the history.
    pub fn steps(&mut self, rest: &str) {
        let mut tally = NOTHING;
        let mut course = Course::new(self.alloc);
        self.open();
        for text in rest.split(';') {
            self.step(&mut course, text, &mut tally);
            self.put("; ");
        }
        if tally.faults == 0 {
            return self.put("the parts stand");
        }
        self.tallied(tally.faults, " times they do not stand");
    }

    /// Prints what came of a list of events of the core, and after how many events some parts did not stand for the history.
    pub fn course(&mut self, rest: &str) {
        let mut tally = NOTHING;
        self.open();
        self.happen(rest, &mut tally);
        self.tally(&tally);
    }
}
