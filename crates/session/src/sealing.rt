// The blocks of an INSERT sealed as parts, one for each partition of its rows, before the first of them has its turn.
//
// The turns come in the order of the partitions. A part is moved on or taken apart, never dropped, so a list of them is taken from its
// end: the last part of a list has the first turn, and the last block is sealed first.
ghost use Rattle.std.specs.Prelude.{◌≡◌, ◌<◌, ◌≤◌, true, All, IfOk, map};
ghost use Rattle.mt_outside.specs.DiskCauses.{HasDiskCause};
ghost use Rattle.replies.specs.mt_model.History.{IsTableSchema, column_types};
ghost use Rattle.merge_workers.specs.shared_store.root_commits.Commits.{IsSealedOf};
ghost use Rattle.session.specs.Turns.{IsPartFor, NoneFailed, in_turn};

use block_split::PartitionBlock;
use merge_workers::give_back_part;
use merge_workers::shared_store::part_writer::{SealedPart, write_part};
use mt_outside::{Arm, DiskError, Stage};
use mt_values::{Block, Schema};
use std::alloc::Global;

/// Rows of one partition, and the part that was sealed of them. It is never dropped, as its part is not.
pub struct SealedBlock<S: Stage> {
    pub part: SealedPart<S>,
    pub block: Block,
}

/// The files of a block as a part of a table, sealed: its rows in the order of the key, those of equal keys as they came.
///
/// `Fault` only where the arm's count rose in this call, `NoMemory` where an allocation failed. After an error the stage was given
/// back to the arm.
fn seal_block<R: Arm>(
    alloc: Global,
    arm: &mut R,
    schema: &Schema,
    block: &Block,
) -> Result<SealedPart<R::Stage>, DiskError>
    requires types { block.now.types ≡ column_types schema.now }
    requires schema { IsTableSchema schema.now }
    ensures sealed { R.tells arm.old ≡ true
        → IfOk result (λ s. IsSealedOf schema.now block.now s.sealed.files s.loaded) }
    ensures none_failed { IfOk result (λ s. s.sealed.failed ≡ 0) }
    ensures tells { R.tells arm.new ≡ R.tells arm.old }
    ensures cause { HasDiskCause (R.failed arm.old) (R.failed arm.new) result }
{
    // Reading the number of rows shows that each row has a value of each column.
    prove!(block.len() <= u32::MAX as usize);
    let order = block.key_order(alloc, schema)?;
    Ok(write_part(alloc, arm, schema, block, &order)?)
}

/// The blocks sealed as parts of a table, for turns in the order of the blocks.
///
/// `Fault` only where the arm's count rose in this call, `NoMemory` where an allocation failed. After an error all stages were given
/// back to the arm.
pub fn seal_blocks<R: Arm>(
    alloc: Global,
    arm: &mut R,
    schema: &Schema,
    mut blocks: Vec<PartitionBlock>,
) -> Result<Vec<SealedBlock<R::Stage>>, DiskError>
    requires types { All (λ b. b.block.types ≡ column_types schema.now) blocks.items }
    requires schema { IsTableSchema schema.now }
    ensures blocks { IfOk result (λ v. map (λ s. s.block) (in_turn v.items)
        ≡ map (λ b. b.block) blocks.items) }
    ensures sealed { R.tells arm.old ≡ true
        → IfOk result (λ v. All (IsPartFor schema.now) (in_turn v.items)) }
    ensures none_failed { IfOk result (λ v. All NoneFailed (in_turn v.items)) }
    ensures tells { R.tells arm.new ≡ R.tells arm.old }
    ensures cause { HasDiskCause (R.failed arm.old) (R.failed arm.new) result }
{
    let Ok(mut sealed) = Vec::with_capacity(alloc, blocks.len()) else {
        return Err(DiskError::NoMemory);
    };
    'unsealed: while let Some(
        PartitionBlock {
            partition: _,
            block,
        },
    ) = blocks.pop()
    {
        match seal_block(alloc, arm, schema, &block) {
            Ok(part) => sealed.push_reserved(SealedBlock { part, block }),
            Err(error) => {
                give_back_parts(arm, sealed);
                return Err(error);
            }
        }
    }
    Ok(sealed)
}

/// Gives the arm back parts that it sealed and that had no turn.
pub fn give_back_parts<R: Arm>(arm: &mut R, mut parts: Vec<SealedBlock<R::Stage>>)
    ensures tells { R.tells arm.new ≡ R.tells arm.old }
    ensures none_failed { All NoneFailed (in_turn parts.items)
        → R.failed arm.new ≡ R.failed arm.old }
    ensures later { R.failed arm.old ≤ R.failed arm.new }
{
    'parts: while let Some(SealedBlock { part, block: _ }) = parts.pop() {
        give_back_part(arm, Some(part));
    }
    parts.destroy_empty();
}
