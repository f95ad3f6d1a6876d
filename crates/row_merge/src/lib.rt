//! The merge of rows: sorted inputs become one sorted list, in which the rows of each key are folded by the engine's rule; and the merge
//! of parts, whose rows are read, merged and sealed as one part.
#![tactic(auto)]

mod choosing;
mod chosen;
mod copied;
mod course;
mod fates;
mod folding;
mod heads;
mod held;
mod laws;
mod merging;
mod order;
mod passing;
mod sink;
mod streamed;
mod streams;
mod stretches;

pub use choosing::merge_rows;
pub use chosen::merge_chosen;
pub use collapse_rules;
pub use held::Held;
pub use laws::merged_rows_are_not_damaged;
pub use merging::merge_sorted;
pub use part_reader;
pub use part_reader::{column_file, digest_file, part_writer, primary_marks, skip_index};
pub use part_set;
pub use rule_aggregating;
pub use rule_replacing;
pub use rule_replacing::rule_law;
pub use rule_summing;
pub use sink::RowSink;
pub use streamed::{merge_parts, merge_streamed};

#[cfg(test)]
mod stream_tests;
#[cfg(test)]
mod tests;
