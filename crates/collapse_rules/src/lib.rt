//! The rules of CollapsingMergeTree and VersionedCollapsingMergeTree, in which rows with the sign -1 take rows with 1 back.
#![tactic(auto)]

mod collapsing;
mod signs;
mod versioned;

pub use collapsing::{CollapsingRule, Counted};
pub use versioned::VersionedRule;

#[cfg(test)]
mod tests;
