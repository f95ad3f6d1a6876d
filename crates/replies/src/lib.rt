//! The replies that need no store: the lines that refuse a statement, the rows of a SELECT, the numbers of an EXPLAIN, and the
//! replies to a command and to a merge, formed before their commits. What replies told, and how they are written.
#![tactic(auto)]

mod forming;
mod lines;
mod ok_line;
mod printing;
mod reply;
mod tally;
mod writing;

pub use forming::{MergeReplies, Replies, merge_replies, replies_after};
pub use lines::{
    busy_line, damaged, data_line, failed_line, no_table_line, stage_line, unsettled_line,
};
pub use mt_model;
pub use ok_line::OkLine;
pub use printing::{explained, print};
pub use reply::Reply;
pub use run_streams;
pub use tally::Tally;
pub use tsv_rows;
pub use writing::write_reply;
