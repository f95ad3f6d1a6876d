//! What a run is given in bytes: a source read whole, and a sink written whole.
#![tactic(auto)]

mod streams;

pub use streams::{MOST_BYTES, SourceStop, read_all, write_all};
