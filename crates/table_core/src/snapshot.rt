// Snapshots.
use mt_base::Seq;
use mt_values::{Mutation, Name};
use part_history::CorePart;

/// The parts of a table as they stood at a length of the history, in block order, and its mutations.
#[derive(Drop)]
pub struct Snapshot {
    pub table: Name,
    pub parts: Seq<CorePart>,
    pub mutations: Seq<Mutation>,
    pub length: usize,
}
