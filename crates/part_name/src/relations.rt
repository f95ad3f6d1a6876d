// How parts stand to each other.
ghost use Rattle.std.specs.Prelude.{◌≡◌, ◌↔◌, IsTrue, unwrap_or};
ghost use Rattle.part_name.specs.PartNames.{Contains, Before, Meet, data_version, mutation_number};
ghost use Rattle.part_name.specs.Standing.{StandsTo};

use crate::PartName;

/// How a part stands to another.
pub enum Stand {
    /// The other one contains it.
    Covered,
    /// It does not, but has a block of it.
    Overlapping,
    /// They have no block in common.
    Clear,
}

// The last mutation that was applied, 0 for none.
fn mutation_number(name: &PartName) -> u32
    ensures { result ≡ mutation_number name.now }
{
    name.mutation.unwrap_or(0)
}

/// Whether the first part has all blocks of the second in one partition, and at least its level and its mutation.
pub fn contains(a: &PartName, b: &PartName) -> bool
    ensures { IsTrue result ↔ Contains a.now b.now }
{
    a.partition == b.partition
        && a.min_block <= b.min_block
        && b.max_block <= a.max_block
        && b.level <= a.level
        && mutation_number(b) <= mutation_number(a)
}

/// Whether in one partition each block of the first part stands below each of the second.
pub fn before(a: &PartName, b: &PartName) -> bool
    ensures { IsTrue result ↔ Before a.now b.now }
{
    a.partition == b.partition && a.max_block < b.min_block
}

/// Whether both parts are of one partition, and have a block in common.
pub fn meet(a: &PartName, b: &PartName) -> bool
    ensures { IsTrue result ↔ Meet a.now b.now }
{
    a.partition == b.partition && a.min_block <= b.max_block && b.min_block <= a.max_block
}

/// How the second part stands to the first.
pub fn stand_to(a: &PartName, b: &PartName) -> Stand
    ensures { StandsTo a.now b.now result }
{
    if contains(a, b) {
        return Stand::Covered;
    }
    if meet(a, b) {
        return Stand::Overlapping;
    }
    Stand::Clear
}

/// The number of the last mutation that was applied to the part, or its least block where none was:
/// mutations above it are still to be applied.
pub fn data_version(name: &PartName) -> u32
    ensures { result ≡ data_version name.now }
{
    name.mutation.unwrap_or(name.min_block)
}
