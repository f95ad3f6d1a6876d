// Mutations of a table's rows.
use crate::Change;

/// A mutation that was accepted.
#[derive(Drop)]
pub struct Mutation {
    /// The number that its table drew for it.
    pub number: u32,
    pub change: Change,
}
