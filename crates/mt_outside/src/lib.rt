//! The outside as the engine sees it: a source and a sink of bytes, a disk of folders, a gate for tests, and one that holds nobody.
//! Beside them how failed calls are counted, and how calls of the system are tried again.
#![tactic(auto)]

mod disk;
mod faults;
mod gate;
mod laws;
mod streams;
mod tries;

pub use disk::{Arm, Change, Dir, Disk, DiskError, Files, Stage, Stamped, Written};
pub use faults::Faults;
pub use gate::{Gate, OpenGate, Point, Who};
pub use laws::{
    changes_add_their_own_moments, images_now, images_only_grow, publishes_add_one_name,
    syncs_add_no_image, syncs_settle,
};
pub use streams::{ReadFault, Sink, Source, WriteFault};
pub use tries::{MOST_TRIES, read_some, write_some};
