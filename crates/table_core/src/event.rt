// What may happen to the core, and what it answers.
use mt_base::{Partition, Seq};
use mt_values::{Entry, Name, Row};
use part_history::part_name::PartName;

/// Neighbours in a partition of a table, which something is to be put in place of.
#[derive(Drop)]
pub struct Sources {
    pub table: Name,
    pub partition: Partition,
    /// The place of the first of them among the parts of the partition in block order, from 0.
    pub first: usize,
    /// How many they are.
    pub count: usize,
}

/// What was done with neighbours, beside the state.
#[derive(Clone, Copy)]
pub enum Task {
    /// They were merged.
    Merge,
    /// Of the mutations for which the one of them waits the first were applied, up to this number.
    Rewrite { upto: u32 },
}

/// What a merge of neighbours or a rewrite of a part left, done beside the state: its rows are to be put in their place.
#[derive(Drop)]
pub struct Put {
    pub sources: Sources,
    pub task: Task,
    pub rows: Seq<Row>,
}

/// Where a crash comes.
#[derive(Drop)]
pub enum Crash {
    /// Between two events.
    Between,
    /// Within the accept of a command of a session, which is then done as a whole, or not at all.
    Within { entry: Entry, done: bool },
    /// Within a put, which is then done as a whole, or not at all.
    WithinPut { put: Put, done: bool },
}

/// What may happen.
#[derive(Drop)]
pub enum Event {
    /// A command of a session is accepted, or refused.
    Accept(Entry),
    /// What was done with neighbours is put in their place, or that is refused.
    Put(Put),
    /// A snapshot of a table is taken.
    TakeSnapshot { table: Name },
    /// The snapshot with this number, from 0, is read.
    ReadSnapshot { number: usize },
    /// The store ends where it is, and begins again.
    Crash(Crash),
}

/// Why an event is refused.
#[derive(Clone, Copy)]
pub enum Guard {
    /// There is no such table.
    NoTable,
    /// There is a table of this name.
    TableExists,
    /// As many tables were made as may be.
    Creates,
    /// The table has no number left.
    Numbers,
    /// There is no such snapshot.
    NoSnapshot,
    /// The partition has no such parts, or the merge is of none.
    NotNeighbours,
    /// A mutation was applied to one of the parts to be merged, and not to the next.
    Parted,
    /// The part would have too great a level.
    Levels,
}

/// What an event gives.
#[derive(Drop)]
pub enum Outcome {
    /// The command is in the history, which has now this length.
    Accepted { length: usize },
    /// The part of this name is there in place of its sources.
    Put { name: PartName },
    /// The snapshot has this number.
    Taken { number: usize },
    /// The rows of a snapshot, and the length that the history had when it was taken.
    Rows { rows: Seq<Row>, length: usize },
    /// Nothing was changed.
    Refused(Guard),
    /// All began again, and no snapshot is left.
    Restarted,
}
