//! The names of parts: what is read and spelled, which part contains another, which stands before it, and what merges make of them.
#![tactic(auto)]

mod laws;
mod merges;
mod part;
mod reading;
mod relations;
mod spelling;

pub use laws::{
    containment_is_an_order, merged_parts_contain_their_sources, part_texts_are_told_apart,
};
pub use merges::{join, raise, rewrite};
pub use part::PartName;
pub use reading::{parse, parse_partition};
pub use relations::{Stand, before, contains, data_version, meet, stand_to};
pub use spelling::text;
