//! The mutations that were accepted, table by table, which of them a part still waits for, between which parts one lies, and
//! the part that is to be rewritten next.
#![tactic(auto)]

mod mutations;
mod numbered;
mod rewriting;
mod scope;

pub use mutations::Mutations;
pub use numbered::pending_in;
pub use part_set;
pub use rewriting::{Rewrite, next_rewrite};
pub use scope::Scope;

#[cfg(test)]
mod tests;
