//! The rows of an INSERT split by partition: a block for each partition, in the order in which they first occur.
#![tactic(auto)]

mod blocks;
mod grouping;
mod laws;
mod split;

pub use blocks::PartitionBlock;
pub use laws::{commands_are_of_the_split_rows, rows_are_split_in_order};
pub use split::split_block;

#[cfg(test)]
mod tests;
