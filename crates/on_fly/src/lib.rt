//! What mutations make of rows that were read, and which columns they assign.
#![tactic(auto)]

mod assigning;
mod blocks;
mod cells;
mod rows;
#[cfg(test)]
mod tests;
mod unknown;

pub use blocks::apply_block;
pub use rows::{apply, change_rows};
pub use unknown::unknown_columns;
