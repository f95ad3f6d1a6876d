//! The files of a part that say where its granules begin: their places in the column files, and their primary keys.
#![tactic(auto)]

mod building;
mod choosing;
mod laws;
mod marks;
mod places;
mod reading;
mod spans;

pub use building::{build, spell};
pub use choosing::{boxes_where, choose};
pub use column_file;
pub use column_file::byte_numbers::FormatFault;
pub use laws::{
    keys_are_read_in_one_way, keys_are_those_of_rows, places_are_read_in_one_way,
    places_of_rows_are_read, skipped_granules_hold_no_match, sure_granules_meet,
};
pub use marks::Marks;
pub use places::{Places, read_places, spell_places};
pub use predicate;
pub use reading::read;
