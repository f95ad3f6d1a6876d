//! Which parts are merged: the pair of neighbours that a policy takes, or all parts of a partition.
#![tactic(auto)]

mod found;
mod pairs;
mod picking;
mod whole;

pub use found::Pick;
pub use mutation_queue::Scope;
pub use picking::pick;
pub use whole::{Busy, pick_all};

#[cfg(test)]
mod tests;
