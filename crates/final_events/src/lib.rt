//! What FINAL may see of a table after events of the core, whatever they were.
#![tactic(auto)]

mod laws;

pub use laws::final_rows_do_not_depend_on_events;
