//! The data of an INSERT: its lines, up to the line that ends it.
#![tactic(auto)]

mod lines;
mod section;

pub use section::{Section, inserted};
