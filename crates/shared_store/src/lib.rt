//! A root that is open as one value: its store, its disk and the annals of its commands, the turns that change or show
//! it, and merges that are taken up and put in place. And such a root behind a lock, which sessions share: each call has
//! one turn, and says what the session's seat and its share of the ledgers show.
#![tactic(auto)]

mod engine;
pub mod handed;
mod laws;
mod locked;
mod names;
mod share;
mod shared;
mod work;

pub use engine::Engine;
pub use history_seat;
pub use laws::{
    other_works_stand, puts_keep_the_history, works_change_marks_alone, works_leave_no_mark,
};
pub use locked::Locked;
pub use merge_select;
pub use names::{FaultsMet, LevelsMet, Names, StopsMet, WorksOut};
pub use root_commits;
pub use root_commits::{
    digest_file, durable_commit, part_name, part_reader, part_set, part_writer, stage_dir,
};
pub use share::Share;
pub use shared::{Blanks, Shared};
pub use work::{Put, TakeFault, Work};
