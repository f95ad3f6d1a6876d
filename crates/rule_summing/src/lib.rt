//! The rule of SummingMergeTree, which leaves one row with the sums of the summed columns.
#![tactic(auto)]

mod summing;
mod sums;
mod worked;

pub use summing::SummingRule;
pub use worked::sums_are_worked;

#[cfg(test)]
mod tests;
