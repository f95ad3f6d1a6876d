//! When parts stand for a history: the numbers of its INSERTs, the order of blocks, what one INSERT more adds, and what a merge may leave.
#![tactic(auto)]

mod laws;
mod part;

pub use laws::{
    merged_parts_stand, parts_are_at_most_inserts, parts_are_portions, parts_stand_apart,
    parts_stand_as_histories_grow, parts_stand_for_live_rows, rewritten_parts_stand,
    rows_are_of_their_partition,
};
pub use part::CorePart;
pub use part_name;
pub use rule_law::mt_model;
pub use rule_law::mt_model::predicate;
