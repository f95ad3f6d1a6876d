// Parts of one partition that follow each other.

/// Parts of one partition that follow each other in block order, by their places among those of the partition.
#[derive(Clone, Copy, Debug, PartialEq, Eq)]
pub struct Run {
    /// The place of the first, counted from 0.
    pub first: usize,
    /// How many parts they are.
    pub count: usize,
}
