// Blocks of one partition each.
ghost use Rattle.std.specs.Prelude.{◌≡◌, ◌<◌, ◌^◌, ◌∷◌, [], All, IfOk, length, map};
ghost use Rattle.block_split.specs.Groups.{group_rows};

use crate::grouping::Group;
use mt_base::{NoMemory, Partition};
use mt_values::Block;
use std::alloc::Global;

/// The rows of a block that are of one partition.
#[derive(Debug, Drop)]
pub struct PartitionBlock {
    pub partition: Partition,
    pub block: Block,
}

/// A block of one partition alone.
///
/// `NoMemory` where there was none for the list.
pub fn only_block(
    alloc: Global,
    partition: Partition,
    block: Block,
) -> Result<Vec<PartitionBlock>, NoMemory>
    ensures { IfOk result (λ v. v.items ≡ record { partition = partition; block = block } ∷ []) }
{
    let mut blocks = Vec::with_capacity(alloc, 1)?;
    blocks.push_reserved(PartitionBlock { partition, block });
    Ok(blocks)
}

/// The rows of a block at the places of each group, in the order of the groups.
///
/// `NoMemory` where an allocation failed.
pub fn grouped_blocks(
    alloc: Global,
    block: &Block,
    groups: &[Group],
) -> Result<Vec<PartitionBlock>, NoMemory>
    requires within { All (λ g. All (λ place. place < length block.now.rows) g.places) groups.now }
    requires few { All (λ g. length g.places < 2 ^ 32) groups.now }
    ensures rows { IfOk result (λ v. map (λ b. (b.partition, b.block.rows)) v.items
        ≡ map (group_rows block.now.rows) groups.now) }
    ensures types { IfOk result (λ v. All (λ b. b.block.types ≡ block.now.types) v.items) }
{
    let mut blocks = Vec::with_capacity(alloc, groups.len())?;
    for group in groups {
        let picked = block.pick(alloc, group.places.as_slice())?;
        blocks.push_reserved(PartitionBlock {
            partition: Partition::Number(group.number),
            block: picked,
        });
    }
    Ok(blocks)
}
