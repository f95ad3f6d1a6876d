//! The outside in memory: streams, a disk and annals that are known and fail only where they are told to.
#![tactic(auto)]

mod annals;
mod arm;
mod calls;
mod disk;
mod folder;
mod image;
mod root;
mod streams;

pub use annals::KeptAnnals;
pub use arm::MemArm;
pub use disk::MemDisk;
pub use fault_plan::{
    CallKind, Listed, images_are_reached_by_choices, images_are_started_again,
    images_of_an_image_are_images,
};
pub use folder::{MemDir, MemStage};
pub use mt_outside::OpenGate;
pub use mt_values::CountedAnnals;
pub use streams::{MemSink, MemSource};
