//! The core of the store as a machine over names of parts and their rows: what a list of events leaves, whatever files,
//! disks and threads do.
#![tactic(auto)]

mod event;
mod laws;
mod running;
mod snapshot;
mod state;
mod steps;
mod store;

pub use event::{Crash, Event, Guard, Outcome, Put, Sources, Task};
pub use laws::{what_was_accepted_stays, what_was_read_stays};
pub use mutation_queue;
pub use mutation_queue::part_set;
pub use part_history;
pub use part_history::{CorePart, mt_model, part_name, predicate};
pub use running::{Done, run};
pub use snapshot::Snapshot;
pub use state::{CoreState, step};
