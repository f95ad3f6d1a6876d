//! A stage whose files grow, and are each synced once, and what a crash leaves of it once it was published.
#![tactic(auto)]

mod filling;
mod laws;

pub use filling::{Open, Sealed, Unsealed, append_file, seal, write_file};
pub use laws::{sealed_files_survive, written_files_keep_their_bytes};
