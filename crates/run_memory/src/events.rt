// The core of the store as a machine: a list of events, and what each of them gives.
ghost use Rattle.std.specs.Prelude.{◌≡◌, ◌∷◌, [], All, IfOk, IfSome, None};
ghost use Rattle.mt_values.specs.declared.engine.Engine.TheVariants as engines;
ghost use Rattle.mt_values.specs.declared.value.ColType.TheVariants as types;
ghost use Rattle.mt_values.specs.declared.value.Value.TheVariants as value;
ghost use Rattle.table_core.specs.mt_model.History.{IsInsertInto};
ghost use Rattle.table_core.specs.mt_model.Mutations.{IsChangeOf};
ghost use Rattle.run_memory.specs.Events.{Fits, FitsAccept, FitsCrash, begins_with, event_schema, keyed, of_lasts, of_numbers, of_pairs, of_sums, parted};

use crate::answer::Answer;
use crate::marks::{Numbers, marked_insert, marked_schema};
use crate::text::first_word;
use mt_base::{DEFAULT_GRANULARITY, NoMemory, Partition, Seq};
use mt_plain::is_change_of;
use mt_values::{
    Alter, Block, ColType, Column, Command, Create, Engine, Entry, Insert, Name, Row, Schema, Value,
};
use std::alloc::Global;
use table_core::{Crash, Event, Guard, Outcome, run};

/// A column whose name is one letter.
pub fn column(alloc: Global, letter: u8, col_type: ColType) -> Result<Column, NoMemory>
    ensures { IfOk result (λ column. column
        ≡ record { name = letter ∷ []; col_type = col_type; function = None }) }
{
    let mut name = Seq::new(alloc);
    name.push(letter)?;
    Ok(Column {
        name,
        col_type,
        function: None,
    })
}

// A column of type UInt8, whose name is one letter.
fn number_column(alloc: Global, letter: u8) -> Result<Column, NoMemory>
    ensures { IfOk result (λ column. column
        ≡ record { name = letter ∷ []; col_type = types.UInt8; function = None }) }
{
    column(alloc, letter, ColType::UInt8)
}

/// The key of the column at a place alone.
pub fn key_of(alloc: Global, place: u32) -> Result<Seq<u32>, NoMemory>
    ensures { IfOk result (λ key. key ≡ place ∷ []) }
{
    let mut key = Seq::new(alloc);
    key.push(place)?;
    Ok(key)
}

/// The schema of a table with these columns, of which the one at a place is the key, an engine, and the column of its partitions.
pub fn keyed(
    alloc: Global,
    columns: Seq<Column>,
    engine: Engine,
    place: u32,
    partition: Option<u32>,
) -> Result<Schema, NoMemory>
    ensures { IfOk result (λ schema. schema ≡ keyed columns engine place partition) }
{
    Ok(Schema {
        columns,
        engine,
        key: key_of(alloc, place)?,
        primary: key_of(alloc, place)?,
        partition,
        granularity: DEFAULT_GRANULARITY,
        indexes: Seq::new(alloc),
    })
}

/// The schema of a table of the events that has one partition: a column `a` of type UInt8, which is the key.
pub fn numbers_schema(alloc: Global) -> Result<Schema, NoMemory>
    ensures { IfOk result (λ schema. schema ≡ of_numbers) }
{
    let mut columns = Seq::new(alloc);
    columns.push(number_column(alloc, b'a')?)?;
    keyed(alloc, columns, Engine::Plain, 0, None)
}

// The schema of a table of the events that has several: columns `p` and `a` of type UInt8, which are the partition column and the key.
fn parted_schema(alloc: Global) -> Result<Schema, NoMemory>
    ensures { IfOk result (λ schema. schema ≡ parted) }
{
    let mut columns = Seq::new(alloc);
    columns.push(number_column(alloc, b'p')?)?;
    columns.push(number_column(alloc, b'a')?)?;
    keyed(alloc, columns, Engine::Plain, 1, Some(0))
}

// The schema of a table of the events whose rows have a value: columns `a` and `b` of type UInt8, of which the first is the key, and an
// engine.
fn pairs_schema(alloc: Global, engine: Engine) -> Result<Schema, NoMemory>
    ensures { IfOk result (λ schema. schema ≡ of_pairs engine) }
{
    let mut columns = Seq::new(alloc);
    columns.push(number_column(alloc, b'a')?)?;
    columns.push(number_column(alloc, b'b')?)?;
    keyed(alloc, columns, engine, 0, None)
}

/// Whether the name of a table begins with a letter.
pub fn begins_with(letter: u8, table: &Name) -> bool
    ensures { result ≡ begins_with letter table.now }
{
    table.as_slice().first() == Some(&letter)
}

// The schema of a table of the events, by the first letter of its name: `p` has several partitions, merges leave the last row of each key
// of `r` and the sum of each key of `s`, rows of some others have a mark, and the rest are plain.
fn event_schema(alloc: Global, table: &Name) -> Result<Schema, NoMemory>
    ensures { IfOk result (λ schema. schema ≡ event_schema table.now) }
{
    if begins_with(b'p', table) {
        return parted_schema(alloc);
    }
    if begins_with(b'r', table) {
        return pairs_schema(alloc, Engine::Replacing(None));
    }
    if begins_with(b's', table) {
        let summed = key_of(alloc, 1)?;
        return pairs_schema(alloc, Engine::Summing(summed));
    }
    marked_schema(alloc, table)
}

/// The row of a number.
pub fn number_row(alloc: Global, number: u8) -> Result<Row, NoMemory>
    ensures { IfOk result (λ row. row ≡ value.UInt8 number ∷ []) }
{
    let mut row = Seq::new(alloc);
    row.push(Value::UInt8(number))?;
    Ok(row)
}

// The row of two numbers.
fn pair_row(alloc: Global, first: u8, second: u8) -> Result<Row, NoMemory>
    ensures { IfOk result (λ row. row ≡ value.UInt8 first ∷ value.UInt8 second ∷ []) }
{
    let mut row = number_row(alloc, first)?;
    row.push(Value::UInt8(second))?;
    Ok(row)
}

/// Two rows of numbers, to be added to a table of the events that has one partition.
pub fn whole_insert(alloc: Global, table: Name, first: u8, second: u8) -> Result<Insert, NoMemory>
    ensures { IfOk result (λ insert. IsInsertInto of_numbers insert × (insert.table ≡ table)) }
{
    let rows = [number_row(alloc, first)?, number_row(alloc, second)?];
    let partition = Partition::Whole;
    let block = Block::from_rows(alloc, &[ColType::UInt8], &rows)?;
    Ok(Insert {
        table,
        partition,
        block,
    })
}

// A row of two numbers, to be added to a table of the events that has several partitions; the first number is that of its partition.
fn parted_insert(alloc: Global, table: Name, first: u8, second: u8) -> Result<Insert, NoMemory>
    ensures { IfOk result (λ insert. IsInsertInto parted insert × (insert.table ≡ table)) }
{
    let rows = [pair_row(alloc, first, second)?];
    let partition = Partition::Number(u64::from(first));
    let block = Block::from_rows(alloc, &[ColType::UInt8, ColType::UInt8], &rows)?;
    Ok(Insert {
        table,
        partition,
        block,
    })
}

// A row of two numbers, to be added to a table of the events whose rows have a value.
fn pairs_insert(alloc: Global, table: Name, first: u8, second: u8) -> Result<Insert, NoMemory>
    ensures lasts { IfOk result (λ insert. IsInsertInto of_lasts insert) }
    ensures sums { IfOk result (λ insert. IsInsertInto of_sums insert) }
    ensures table { IfOk result (λ insert. insert.table ≡ table) }
{
    let rows = [pair_row(alloc, first, second)?];
    let partition = Partition::Whole;
    let block = Block::from_rows(alloc, &[ColType::UInt8, ColType::UInt8], &rows)?;
    Ok(Insert {
        table,
        partition,
        block,
    })
}

// The rows that numbers give a table of the events.
fn insert_of(alloc: Global, table: Name, numbers: Numbers) -> Result<Insert, NoMemory>
    ensures { IfOk result (λ insert. IsInsertInto (event_schema insert.table) insert) }
{
    if begins_with(b'p', &table) {
        return parted_insert(alloc, table, numbers.first, numbers.second);
    }
    if begins_with(b'r', &table) || begins_with(b's', &table) {
        return pairs_insert(alloc, table, numbers.first, numbers.second);
    }
    marked_insert(alloc, table, numbers)
}

// What a refusal is called.
fn reason(guard: Guard) -> &'static str {
    match guard {
        Guard::NoTable => "no such table",
        Guard::TableExists => "the table is there",
        Guard::Creates => "too many tables",
        Guard::Numbers => "no number is left",
        Guard::NoSnapshot => "no such snapshot",
        Guard::NotNeighbours => "no such neighbours",
        Guard::Parted => "a mutation parts two of them",
        Guard::Levels => "the level is too great",
    }
}

impl Answer {
    /// The name of a table.
    pub fn table_of(&mut self, text: &str) -> Name {
        Seq::of(self.bytes_of(text))
    }

    /// A number of one byte.
    pub fn small_of(&mut self, word: &str) -> u8 {
        u8::try_from(self.number_of(word)).unwrap_or(u8::MAX)
    }

    // A number of one byte, 0 where nothing is written.
    fn small_or_none(&mut self, word: &str) -> u8 {
        if word.is_empty() {
            return 0;
        }
        self.small_of(word)
    }

    // Two numbers, as `3 1`, or up to four.
    fn numbers_of(&mut self, text: &str) -> Numbers {
        let (first, rest) = first_word(text);
        let (second, rest) = first_word(rest);
        let (third, fourth) = first_word(rest);
        Numbers {
            first: self.small_of(first),
            second: self.small_of(second),
            third: self.small_or_none(third),
            fourth: self.small_or_none(fourth),
        }
    }

    // A mutation of a table, as `delete a < 2`; none where its rows may not have the change.
    fn alter(&mut self, table: Name, text: &str) -> Option<Alter>
        ensures { IfSome result (λ alter. IsChangeOf (event_schema alter.table) alter.change) }
    {
        let schema = event_schema(self.alloc, &table).ok()?;
        let change = self.row_change(&schema, text)?;
        if !is_change_of(&schema, &change) {
            return None;
        }
        Some(Alter { table, change })
    }

    // A CREATE, as `create t`, a mutation, as `alter t delete a < 2`, or an INSERT of numbers, as `insert t 3 1`: two rows, or a row of a
    // table that has more columns than one. None where the rows of a table may not have the change.
    fn accept(&mut self, text: &str) -> Option<Entry>
        ensures { IfSome result (λ entry. FitsAccept entry.command) }
    {
        let session = 0;
        let (word, rest) = first_word(text);
        let (table, numbers) = first_word(rest);
        let table = self.table_of(table);
        if word == "alter" {
            let alter = self.alter(table, numbers)?;
            let command = Command::Alter(alter);
            return Some(Entry { session, command });
        }
        if word == "create" {
            let schema = event_schema(self.alloc, &table).ok()?;
            let create = Create { table, schema };
            let command = Command::Create(create);
            return Some(Entry { session, command });
        }
        let numbers = self.numbers_of(numbers);
        let insert = insert_of(self.alloc, table, numbers).ok()?;
        let command = Command::Insert(insert);
        Some(Entry { session, command })
    }

    // A crash between events, or within an accept, which is done then or not.
    fn crash_of(&mut self, rest: &str) -> Option<Crash>
        ensures { IfSome result FitsCrash }
    {
        let (done, rest) = first_word(rest);
        if done.is_empty() {
            return Some(Crash::Between);
        }
        let done = done == "done";
        let entry = self.accept(rest)?;
        Some(Crash::Within { entry, done })
    }

    /// The event of a text, which is no put.
    pub fn event(&mut self, text: &str) -> Option<Event>
        ensures { IfSome result Fits }
    {
        let (word, rest) = first_word(text);
        match word {
            "create" | "insert" | "alter" => Some(Event::Accept(self.accept(text)?)),
            "crash" => Some(Event::Crash(self.crash_of(rest)?)),
            "take" => {
                let table = self.table_of(rest);
                Some(Event::TakeSnapshot { table })
            }
            "read" => {
                let number = usize::from(self.small_of(rest));
                Some(Event::ReadSnapshot { number })
            }
            _ => {
                self.fail("no such event");
                None
            }
        }
    }

    // The events of a line.
    fn events(&mut self, rest: &str) -> Option<Vec<Event>>
        ensures { IfSome result (λ events. All Fits events.items) }
    {
        let mut events = Vec::new(self.alloc);
        for text in rest.split(';') {
            let event = self.event(text)?;
            events.push(event).ok()?;
        }
        Some(events)
    }

    /// Prints what an event gave.
    pub fn outcome(&mut self, outcome: &Outcome) {
        match outcome {
            Outcome::Accepted { length } => self.counted("accepted ", *length),
            Outcome::Put { name } => {
                self.put("put ");
                self.part_name(name);
            }
            Outcome::Taken { number } => self.counted("snapshot ", *number),
            Outcome::Rows { rows, length } => {
                self.lines_of(rows.as_slice());
                self.counted(" after ", *length);
            }
            Outcome::Refused(guard) => self.put(reason(*guard)),
            Outcome::Restarted => self.put("began again"),
        }
    }

    // Prints what each event gave.
    fn outcomes(&mut self, outcomes: &[Outcome]) {
        for (place, outcome) in outcomes.iter().enumerate() {
            if place > 0 {
                self.put("; ");
            }
            self.outcome(outcome);
        }
    }

    /// Prints what the core gives at the events of a line, one after another, from the state before any event.
    #[tactic(auto, using(crate::proofs::Fitting::fitting_run))]
    pub fn core(&mut self, rest: &str) {
        self.open();
        let done = match self.events(rest) {
            Some(events) => run(self.alloc, events).ok(),
            None => None,
        };
        match done {
            Some(done) => self.outcomes(&done.outcomes),
            None => self.fail("such events may not come"),
        }
    }
}
