// The partitions of a table.

/// A partition of a table.
#[derive(Clone, Copy, Debug, PartialEq, Eq)]
pub enum Partition {
    /// The one partition of a table without PARTITION BY.
    Whole,
    /// The rows whose partition column has this value.
    Number(u64),
}
