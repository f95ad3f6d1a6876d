//! What a merge does with the rows of one key, whatever the engine: three calls over rows, two over the columns of a block, and the
//! laws by which merges at any times keep within the engine's rule.
#![tactic(auto)]

mod laws;
mod reading;
mod rule;

pub use laws::{mutations_go_with_merges, mutations_go_with_one_merge};
pub use mt_model;
pub use reading::{version_in, version_of};
pub use rule::RowRule;
