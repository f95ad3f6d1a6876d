//! The names of the root, which of its parts are visible, and the set of parts that is kept while it runs.
#![tactic(auto)]

mod found;
mod groups;
mod kept;
mod laws;
mod order;
mod overlaps;
mod pass;
mod root_name;
mod roots;
mod run;
mod set;
mod shelf;
mod tables;
mod word;

pub use kept::{Kept, Snap};
pub use laws::{places_are_in_byte_order, root_names_are_told_apart};
pub use part_name;
pub use root_name::{RootName, TablePart, read_name, spell_name};
pub use roots::{SetFault, visible};
pub use run::Run;
pub use set::PartSet;
pub use shelf::PartitionParts;
pub use tables::TableParts;
