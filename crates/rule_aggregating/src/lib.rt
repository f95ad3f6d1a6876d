//! The rule of AggregatingMergeTree, which leaves one row, each value by the function of its column.
#![tactic(auto)]

mod aggregating;
mod folding;
mod worked;

pub use aggregating::AggregatingRule;
pub use worked::{bits_are_worked, rows_are_worked};

#[cfg(test)]
mod tests;
