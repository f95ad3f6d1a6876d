//! The parts of tables: opened and checked by the marks of the manifest, and the values of their columns read back.
#![tactic(auto)]

mod ahead;
mod checking;
mod comparing;
mod copies;
mod cut_rows;
mod files;
mod granules;
mod indexed;
mod laws;
mod marked;
mod met_rows;
mod opening;
mod part_rows;
mod reading;
mod runs;
mod sieves;

pub use checking::check_part;
pub use cut_rows::{empty_columns, rows_of_block};
pub use files::{Span, read_file};
pub use granules::{add_granules, count_chosen, read_granule, read_granules};
pub use laws::{
    damage_is_one_file, held_columns_are_sound, parts_hold_what_was_written, sound_parts_hold_rows,
};
pub use met_rows::{MetRows, Query};
pub use opening::open_part;
pub use part_damage::{column_file, digest_file, part_writer, primary_marks, skip_index};
pub use part_rows::PartRows;
pub use reading::{NO_MARK, Part, PartFault, read_columns};
pub use runs::Run;
pub use sieves::Sieve;
