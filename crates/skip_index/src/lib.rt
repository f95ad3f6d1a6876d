//! Skip indexes: what is kept of each block of granules, its bytes, and which granules a condition leaves by it.
#![tactic(auto)]

mod building;
mod choosing;
mod growing;
mod index;
mod laws;
mod reading;
mod shapes;
mod values;

pub use building::{build, kept_of, spell};
pub use choosing::choose;
pub use column_file::byte_numbers::FormatFault;
pub use growing::add_granule;
pub use index::Index;
pub use laws::{blocks_are_read_in_one_way, blocks_of_rows_are_read, skipped_blocks_hold_no_match};
pub use reading::read;
pub use shapes::{BlockShape, IndexShape};
