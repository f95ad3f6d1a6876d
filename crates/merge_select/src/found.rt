// What is found.
use mt_base::{Name, Partition};
use mutation_queue::part_set::Run;

/// Parts of a partition of a table, which follow each other.
#[derive(Clone, Copy)]
pub struct Pick<'a> {
    pub table: &'a Name,
    pub partition: Partition,
    pub run: Run,
}
