//! Lines of fields: a line's fields as the values of columns, and a block's rows as lines.
#![tactic(auto)]

mod fields;
mod lines;
mod numbers;
mod printing;
mod texts;

pub use fields::{cell_of_field, field_at, mark_fields};
pub use lines::{fault_of_count, fault_of_field, read_line};
pub use printing::{write_row, write_rows, write_text};
