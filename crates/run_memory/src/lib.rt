//! Cases of runs: how their lines are read, what is set up for a run, the roots that it begins with, the outside in memory and what a crash
//! may leave of it, and what is printed of a line; scripts with what the definitions allow of them, calls that no run makes, the core as a
//! machine of events, also with merges, the rules of engines over small tables, parts and files that grow, parts that are merged and read
//! granule by granule, and copies of what is kept. What runs a script stands outside, as a `Machine`.
#![tactic(auto)]

mod answer;
mod bench;
mod calls;
mod changes;
mod copies;
mod courses;
mod crashes;
mod dice;
mod directive;
mod events;
mod examples;
mod filling;
mod growing;
mod held;
mod left;
mod marks;
mod random;
mod root;
mod rules;
mod setting;
mod small;
mod standing;
mod streaming;
mod text;

pub use answer::Answer;
pub use bench::{Bench, Machine};
pub use disk_mem;
pub use examples::Example;
pub use left::Left;
pub use root::{File, Folder, Shared};
pub use setting::{Change, Damage, Setting};
