//! What every other crate stands on: a list that contracts see as a list, out of memory and why a call stopped, equal copies, a partition, a policy of merges, names and files, and the bounds that the program keeps.
#![tactic(auto)]

mod limits;
mod memory;
mod name;
mod partition;
mod policy;
mod seq;
mod stop;
mod text;
mod twin;

pub use limits::{
    COLUMN_LIMIT, DEFAULT_GRANULARITY, DEPTH_LIMIT, GRANULARITY_LIMIT, INDEX_LIMIT, LEVEL_LIMIT,
    NAME_LIMIT, NUMBER_LIMIT, PART_LIMIT, ROOT_TABLE_LIMIT, ROW_LIMIT, SET_LIMIT, STATEMENT_LIMIT,
    TABLE_LIMIT, TEXT_LIMIT,
};
pub use memory::NoMemory;
pub use name::{Bytes, FileId, Name};
pub use partition::Partition;
pub use policy::Policy;
pub use seq::Seq;
pub use stop::Stop;
pub use text::joined;
pub use twin::{Rows, Twin};
