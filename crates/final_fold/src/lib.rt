//! The rows of a table's parts that a SELECT reads: the values, at the columns that it reads, of the rows that meet its condition.
#![tactic(auto)]

mod adding;
mod asking;
mod counts;
mod folding;
mod found;
mod laws;
mod matches;
mod picked;

pub use asking::Wanted;
pub use counts::count_rows;
pub use folding::final_rows;
pub use laws::{
    final_answers_are_determined, final_answers_differ_in_free_choices, keys_merge_apart,
    partly_folded_rows_fold_as_all, parts_with_rows_are_not_damaged, rows_can_be_merged,
};
pub use matches::add_matches;
pub use picked::{Picked, pick_columns};
pub use row_merge;
pub use select_plan;
