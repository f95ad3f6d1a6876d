//! The history of all sessions as one word in shared memory: the word counts its entries, and seats, the lock's and the sessions', know the list that it counts. The lists stand in proofs alone, so a seat is two numbers.
#![tactic(auto)]

mod history;
mod laws;
mod opening;
mod room;
mod seat;
mod steps;
mod turns;
mod view;

pub use history::History;
pub use laws::steps_keep_one_history;
pub use opening::{Blank, Opened};
pub use room::Room;
pub use seat::{Note, Seat};
pub use steps::Entered;
pub use view::{Kind, View};

#[cfg(test)]
mod tests;
