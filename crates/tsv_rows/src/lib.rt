//! Rows as lines of fields: from the lines of an INSERT's data to a block, and from a block's rows to lines.
#![tactic(auto)]

mod laws;
mod rows;
mod signs;
mod tests;

pub use laws::printed_rows_are_read;
pub use rows::{read_row, read_rows};
pub use tsv_fields::{write_row, write_rows, write_text};
