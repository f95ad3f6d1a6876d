//! The root of a store: opened and checked, and what a commit adds to it.
#![tactic(auto)]

pub use root_commits::durable_commit::{Limit, Refused};
pub use root_commits::{
    Returned, commit_create, commit_merge, commit_part, crashes_leave_what_was_noted, merged_name,
    runs_go_on_after_a_crash,
};
pub use root_opening::root_store::{CoreStore, Table};
pub use root_opening::{
    Damage, NameFault, OpenFault, damage_of_a_root_is_one, open, open_entry,
    openings_leave_what_was_noted, read_names, roots_stand_by_their_stores,
    sound_roots_are_not_damaged, sql_read, told_names_rise,
};
