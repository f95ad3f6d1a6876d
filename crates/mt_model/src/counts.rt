// What an EXPLAIN counts.

/// How many parts and granules a table has, and how many of them a SELECT would read: docs/definitions-of-runs.md, "Explained reads".
#[derive(Clone, Copy, Debug, PartialEq, Eq)]
pub struct Counts {
    /// The parts with a granule that would be read.
    pub chosen_parts: u64,
    pub parts: u64,
    /// The granules that would be read.
    pub chosen_granules: u64,
    pub granules: u64,
}
