//! All that the program does: words, a script and a disk in, replies and a status out.
#![tactic(auto)]

mod laws;
mod refusals;
mod serving;
mod sharing;
mod status;
mod top;

pub use laws::premises_are_met;
pub use root_log;
pub use serving::Ending;
pub use session;
pub use session::replies::Tally;
pub use session::run_streams::SourceStop;
pub use status::Status;
pub use top::{Done, run};
