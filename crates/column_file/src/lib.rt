//! The values of a column as the bytes of its file, and back.
#![tactic(auto)]

mod cells;
mod decoding;
mod encoding;
mod laws;
mod picking;

pub use byte_numbers;
pub use byte_numbers::FormatFault;
pub use cells::push_cell;
pub use decoding::{cell_at, decode_column, decode_granule, decode_onto, end_at};
pub use encoding::{ColumnBytes, encode_column};
pub use laws::{bytes_are_read_in_one_way, granules_are_spelled, spellings_are_tested};
pub use picking::decode_where;
