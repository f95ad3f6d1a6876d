//! Running the statements of a session over a root that is shared: a CREATE, an INSERT, a SELECT, an EXPLAIN or an OPTIMIZE, each from its text to its reply.
#![tactic(auto)]

mod creates;
mod data;
mod explains;
mod inserts;
mod laws;
mod merging;
mod optimizes;
mod sealing;
mod seen;
mod selects;
mod sessions;
mod staging;
mod statements;
mod stopped;
mod turns;

pub use creates::create;
pub use data::read_block;
pub use explains::{count_reads, explain};
pub use final_fold::row_merge;
pub use inserts::insert;
pub use laws::{sound_parts_are_not_damaged, statements_that_ran_are_a_run};
pub use merge_workers;
pub use merge_workers::{give_back, give_back_part, shared_store};
pub use optimizes::optimize;
pub use replies;
pub use replies::{run_streams, tsv_rows};
pub use sealing::{SealedBlock, give_back_parts, seal_blocks};
pub use seen::add_seen;
pub use selects::{scan, select};
pub use sessions::{Replies, run_session};
pub use staging::seal_entry;
pub use statements::run_statement;
pub use turns::{TurnReply, commit_parts};
