// How the parts of one table stand to each other.
ghost use Rattle.std.specs.Prelude.{◌≡◌, ◌↔◌, IsTrue};
ghost use Rattle.part_set.specs.Parts.{partition_rank, in_order, LiesBetween};

use mt_base::Partition;
use part_name::PartName;

/// The place of a partition among all.
pub fn partition_rank(partition: Partition) -> u128
    ensures { result ≡ partition_rank partition }
{
    match partition {
        Partition::Whole => 0,
        Partition::Number(number) => number as u128 + 1,
    }
}

/// Whether the first part stands before the second, or both begin in one place.
pub fn in_order(a: &PartName, b: &PartName) -> bool
    ensures { result ≡ in_order a.now b.now }
{
    let first = partition_rank(a.partition);
    let second = partition_rank(b.partition);
    first < second || (first == second && a.min_block <= b.min_block)
}

/// Whether the middle part is of the first one's partition, and its blocks stand between those of the two others.
pub fn lies_between(first: &PartName, middle: &PartName, last: &PartName) -> bool
    ensures { IsTrue result ↔ LiesBetween first.now middle.now last.now }
{
    middle.partition == first.partition
        && first.max_block < middle.min_block
        && middle.max_block < last.min_block
}
