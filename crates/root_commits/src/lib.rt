//! What commits add to a root, and what a crash leaves of it.
#![tactic(auto)]

mod commits;
mod laws;
mod merges;

pub use commits::{Returned, commit_create, commit_part};
pub use laws::{
    commits_are_events, commits_hold_rows, commits_keep_through_crashes, commits_leave_images,
    commits_mark_nothing, commits_stand, crashes_leave_what_was_noted, parts_are_merged_by_history,
    runs_go_on_after_a_crash,
};
pub use merges::{commit_merge, merged_name};
pub use root_store;
pub use root_store::durable_commit::stage_dir;
pub use root_store::{digest_file, durable_commit, part_name, part_reader, part_set, part_writer};
