//! The real outside: a folder of the system as a disk, and std's readers and writers as streams.
//! What it keeps and gives is told to no proof; its counts of faults are proved.
#![tactic(auto)]

mod arm;
mod disk;
mod folder;
mod gathering;
mod guard;
mod handles;
mod numbers;
mod root;
mod sizes;
mod standard;
mod streams;
mod system;
mod tries;

pub use arm::RealArm;
pub use disk::RealDisk;
pub use file_names::is_root_name;
pub use folder::{RealDir, RealStage};
pub use mt_outside::{MOST_TRIES, OpenGate};
pub use standard::{StandardNumbers, hold_standard_numbers};
pub use streams::{StdSink, StdSource};
pub use system::System;
