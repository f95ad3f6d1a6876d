//! What fails and what is lost in memory: which calls of an object of the outside are to fail, how many have failed, and what a choice
//! makes of a crash. The laws say it in the sentences that a user would check.
#![tactic(auto)]

mod files;
mod laws;
mod plan;

pub use files::{has_happened, loses, lost_files};
pub use laws::{
    images_are_reached_by_choices, images_are_started_again, images_of_an_image_are_images,
};
pub use plan::{CallKind, Listed, Plan};
