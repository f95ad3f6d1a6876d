//! A root opened: its names read, its entries and its visible parts checked, and the store that is kept of it.
#![tactic(auto)]

mod checking;
mod entries;
mod keeping;
mod laws;
mod names;
mod opening;
mod part_files;
mod steps;

pub use entries::open_entry;
pub use laws::{
    damage_of_a_root_is_one, openings_leave_what_was_noted, roots_stand_by_their_stores,
    sound_roots_are_not_damaged, told_names_rise,
};
pub use names::{NameFault, read_names};
pub use opening::{Damage, OpenFault, open};
pub use part_files::check_files;
pub use root_store;
pub use sql_read;
pub use steps::{Root, commands_of, settle, shows};
