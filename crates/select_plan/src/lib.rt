//! Which granules of a table's parts a SELECT reads, and how many they are.
#![tactic(auto)]

mod choosing;
mod counting;
mod laws;

pub use choosing::{ask, plan};
pub use counting::Plan;
pub use laws::{folded_matches_are_chosen, granules_are_read_where_each_box_may_match};
