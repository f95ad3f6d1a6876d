//! Works that were taken up: each is merged outside of the lock, and what its parts became is put in their place.
#![tactic(auto)]

mod backs;
mod carrying;

pub use backs::{give_back, give_back_part};
pub use carrying::{Carried, carry_out};
pub use row_merge;
pub use shared_store;
