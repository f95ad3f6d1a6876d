//! What conditions may be of rows that were not read, by what is known of their columns.
#![tactic(auto)]

mod boxes;
mod extent;
mod laws;
mod masks;

pub use boxes::{can, may_match, may_match_column};
pub use extent::{Can, Extent, Known};
pub use laws::boxes_hide_no_match;
pub use masks::{intersect, mask_within};
