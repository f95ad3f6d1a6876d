//! The words of the program's command line, which are read by `clap`.
#![tactic(auto)]

mod words;

pub use words::{CommandLine, read_words};

#[cfg(test)]
mod tests;
