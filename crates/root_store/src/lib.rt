//! What is kept of a root in memory, and what roots and stores stand for.
#![tactic(auto)]

mod laws;
mod store;

pub use durable_commit;
pub use laws::stores_show_the_core;
pub use part_reader;
pub use part_reader::{digest_file, part_writer};
pub use store::{CoreStore, Table, put_table};
pub use table_core::part_set::part_name;
pub use table_core::{mt_model, mutation_queue, part_set};
