//! Rows as the sealed files of a part.
#![tactic(auto)]

mod column_out;
mod content;
mod ending;
mod grown;
mod indexes;
mod laws;
mod loaded;
mod opened;
mod part_out;
mod pending;
mod writing;

pub use content::{content_count, content_file};
pub use digest_file;
pub use laws::content_is_one_list;
pub use loaded::{Loaded, SharedLoaded};
pub use part_out::{Broken, PartOut};
pub use primary_marks;
pub use primary_marks::{column_file, predicate};
pub use skip_index;
pub use stage_dir;
pub use writing::{SealedPart, finish_part, write_part};
