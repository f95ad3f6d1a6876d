//! A name given to the disk, and its command to the annals: published, settled and noted, and why it was not.
#![tactic(auto)]

mod causes;
mod commits;

pub use causes::{Limit, Refused, refuse_stopped, take_out};
pub use commits::{commit, publish};
pub use stage_dir;
