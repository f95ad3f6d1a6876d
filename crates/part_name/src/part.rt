// What the name of a part says.
use mt_base::Partition;

/// The name of a part: the partition and the blocks whose rows it has, and what was done to them.
#[derive(Clone, Copy, PartialEq, Eq)]
pub struct PartName {
    pub partition: Partition,
    /// The least number of its blocks, from 1.
    pub min_block: u32,
    /// The greatest number of its blocks.
    pub max_block: u32,
    /// How many merges lie one after another in its making, 0 for a part that an INSERT made.
    pub level: u32,
    /// The number of the last mutation that was applied to it, from 1.
    pub mutation: Option<u32>,
}
