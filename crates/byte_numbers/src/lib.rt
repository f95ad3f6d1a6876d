//! Numbers in bytes: of a fixed width with the lowest byte first, or in groups of seven bits; and why bytes are not read.
#![tactic(auto)]

mod faults;
mod fixed;
mod leb128;

pub use faults::FormatFault;
pub use fixed::{first_u16, first_u32, first_u64, front, push_u16, push_u32, push_u64};
pub use leb128::{push_leb128, read_leb128};
