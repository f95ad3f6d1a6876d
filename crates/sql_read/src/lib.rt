//! From the bytes of a script to its statements, with their data.
#![tactic(auto)]

mod blanks;
mod clauses;
mod conditions;
mod cursor;
mod elements;
mod engines;
mod escapes;
mod grammar;
mod laws;
mod productions;
mod script;
mod tokens;

pub use grammar::statement;
pub use laws::{faults_are_first, whole_statements_stay};
pub use script::{Next, next_statement};
