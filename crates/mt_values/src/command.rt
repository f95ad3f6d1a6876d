// The commands that a history is made of.
use crate::{Block, Change, Name, Schema};
use mt_base::Partition;

/// A table to be made.
#[derive(Debug, Drop)]
pub struct Create {
    pub table: Name,
    pub schema: Schema,
}

/// Rows of one partition to be added to a table.
#[derive(Debug, Drop)]
pub struct Insert {
    pub table: Name,
    pub partition: Partition,
    pub block: Block,
}

/// A change of a table's rows, which has no number yet.
#[derive(Drop)]
pub struct Alter {
    pub table: Name,
    pub change: Change,
}

/// A command that was accepted, or may be.
#[derive(Drop)]
pub enum Command {
    Create(Create),
    Insert(Insert),
    Alter(Alter),
}

/// A command of a session.
#[derive(Drop)]
pub struct Entry {
    pub session: u64,
    pub command: Command,
}
