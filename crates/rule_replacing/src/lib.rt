//! The rules of MergeTree, which leaves all rows, and of ReplacingMergeTree, with and without a version.
#![tactic(auto)]

mod plain;
mod replacing;

pub use plain::PlainRule;
pub use replacing::ReplacingRule;
pub use rule_law;

#[cfg(test)]
mod tests;
