//! What the folders of a root are called on a real disk, and the paths that names make.
#![tactic(auto)]

mod listing;
mod names;

pub use listing::add_shown_names;
pub use names::{is_root_name, owned, path_in, root_name};
