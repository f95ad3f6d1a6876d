//! The files that end with the SHA-256 of all their bytes before: entries and manifests.
#![tactic(auto)]

mod digest;
mod entry;
mod frame;
mod laws;
mod manifest;

pub use digest::mark_of;
pub use entry::{entry_bytes, read_entry};
pub use laws::files_are_read_in_one_way;
pub use manifest::{manifest_bytes, read_manifest};
