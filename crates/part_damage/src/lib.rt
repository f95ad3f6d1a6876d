//! Which file of a part is damaged first: the definitions, and that there is one such file or none, whatever the bytes are.
#![tactic(auto)]

pub use part_writer;
pub use part_writer::{column_file, digest_file, predicate, primary_marks, skip_index};
