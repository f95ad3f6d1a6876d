// Parts merged by the rule that leaves each row (docs/engines.md, "MergeTree"): the rows that come next of one part, side by side, are
// copied as columns.
ghost use Rattle.std.specs.Prelude.{◌≡◌, ◌<◌, ◌≤◌, ◌^◌, ◌++◌, [], false, true, All, IfOk, List, OnOk, length};
ghost use Rattle.std.specs.List.{range_with_len};
ghost use Rattle.mt_base.specs.declared.partition.Partition.{Partition};
ghost use Rattle.mt_outside.specs.DiskCauses.{HasDiskCause};
ghost use Rattle.mt_outside.specs.Leaves.{LeavesArm};
ghost use Rattle.mt_values.specs.Schemas.{column_types};
ghost use Rattle.mt_values.specs.Values.{Row};
ghost use Rattle.mt_values.specs.declared.engine.Engine.TheVariants as engine;
ghost use Rattle.part_history.specs.mt_model.Rules.{Run};
ghost use Rattle.part_reader.specs.part_writer.Growing.{HasRows, IsWhole};
ghost use Rattle.row_merge.specs.Copies.{CopiesRows, IsCopying, IsReadied, MayTakeSome};
ghost use Rattle.row_merge.specs.Heads.{ahead_of};
ghost use Rattle.row_merge.specs.Held.{IsIdle};
ghost use Rattle.row_merge.specs.Merged.{ArePartRows};
ghost use Rattle.row_merge.specs.MergedParts.{ExplainsMerge, Fails, PartsHold};
ghost use Rattle.row_merge.specs.Streams.{AreLater, AreShaped, ExplainsStream, Grew, HasMerged, IsLeft, IsStream, IsWithin, LeavesBoth, MayGoOn, WentOn, rests_of, rows_to_come};
ghost use Rattle.row_merge.specs.Stretches.{rows_between};

use crate::heads::has_row;
use crate::streams::{Inputs, Stream, refill};
use crate::stretches::{Stretch, take_stretch};
use mt_base::NoMemory;
use mt_outside::{Arm, Dir, DiskError};
use mt_values::Block;
use part_history::part_name::PartName;
use part_reader::PartFault;
use part_reader::part_writer::PartOut;
use std::alloc::Global;

/// Merges the rows of parts by the rule of MergeTree into a part that is written.
///
/// The errors are those of `merge_streamed`; the part is there to be given up.
pub(crate) fn copy_stream<R: Arm>(
    alloc: Global,
    arm: &mut R,
    inputs: &Inputs<R::Dir>,
    stream: &mut Stream<R::Dir>,
    out: &mut PartOut<R>,
) -> Result<(), (PartName, PartFault)>
    requires on { MayGoOn inputs.now stream.old out.old }
    requires empty { HasRows out.old [] }

    // What is written.
    ensures merged { (partition : Partition) (rows : List (List Row))
        → PartsHold R.Dir.files inputs.now.schema.now inputs.now.parts.now rows
        → IsLeft stream.old rows rows → All (ArePartRows inputs.now.schema.now partition) rows
        → OnOk result (HasMerged inputs.now.places.now (Run engine.Plain []) rows out.new) }
    ensures on { OnOk result (WentOn inputs.now stream.old stream.new out.old out.new) }
    ensures idle { OnOk result (IsIdle stream.new.held) }
    ensures most { IsWithin inputs.now stream.new.held }

    // What a fault says, and what the arm and the stage are then, with their counts of faults.
    ensures fails { Fails (ExplainsMerge R.Dir.files inputs.now.schema.now inputs.now.parts.now)
        (LeavesBoth R.Arm arm.old arm.new out.old.stage.failed out.new.stage.failed) result }
{
    let mut order = Vec::new(alloc);
    'rows: while copy_next(alloc, arm, inputs, stream, &mut order, out)? {}
    Ok(())
}

/// Copies the next rows of all that one part has in memory, side by side, and reads the part on where it has no more. Whether there were
/// any. The list of places counts from 0.
///
/// The errors are those of `merge_streamed`; the part is there to be given up.
fn copy_next<R: Arm>(
    alloc: Global,
    arm: &mut R,
    inputs: &Inputs<R::Dir>,
    stream: &mut Stream<R::Dir>,
    order: &mut Vec<u32>,
    out: &mut PartOut<R>,
) -> Result<bool, (PartName, PartFault)>
    requires on { MayGoOn inputs.now stream.old out.old }
    requires order { order.old.items ≡ range_with_len 0 (length order.old.items) }

    // What is written, and what is left.
    ensures copies { (rows : List (List Row))
        → PartsHold R.Dir.files inputs.now.schema.now inputs.now.parts.now rows
        → IsCopying inputs.now.places.now rows stream.old out.old
        → IfOk result (CopiesRows inputs.now.places.now rows stream.new out.new) }
    ensures fewer { IfOk result (λ more. more ≡ true
        → rows_to_come stream.new < rows_to_come stream.old) }
    ensures idle { IfOk result (λ more. more ≡ false → stream.new.held.read ≡ 0) }
    ensures order { OnOk result (order.new.items ≡ range_with_len 0 (length order.new.items)) }
    ensures on { OnOk result (WentOn inputs.now stream.old stream.new out.old out.new) }
    ensures most { IsWithin inputs.now stream.new.held }

    // What a fault says, and what the arm and the stage are then, with their counts of faults.
    ensures fails { Fails (ExplainsMerge R.Dir.files inputs.now.schema.now inputs.now.parts.now)
        (LeavesBoth R.Arm arm.old arm.new out.old.stage.failed out.new.stage.failed) result }
{
    let Ok(found) = take_some(inputs, stream) else {
        return Err((inputs.parts[0].name, PartFault::NoMemory));
    };
    let Some(own) = found else {
        return Ok(false);
    };
    let block = &stream.cursors[own.input].block;
    match copy_rows(order, block, own.from, own.to, out) {
        Ok(()) => {
            read_on(alloc, arm, inputs, stream, own.input)?;
            Ok(true)
        }
        Err(error) => Err((inputs.parts[0].name, PartFault::from(error))),
    }
}

/// Takes the next rows of all that one part has in memory, side by side. They stay in its block.
///
/// `NoMemory` where an allocation failed; then the stream can only be given up.
fn take_some<F: Dir>(
    inputs: &Inputs<F>,
    stream: &mut Stream<F>,
) -> Result<Option<Stretch>, NoMemory>
    requires stream { IsStream inputs.now stream.old }
    ensures takes { IfOk result (MayTakeSome inputs.now stream.old stream.new) }
    ensures readers { stream.new.readers.items ≡ stream.old.readers.items }
    ensures stream { OnOk result (IsStream inputs.now stream.new) }
    ensures rises { OnOk result (stream.old.held.most_read ≤ stream.new.held.most_read) }
    ensures most { AreShaped inputs.now → IsWithin inputs.now stream.new.held }
{
    let Some(own) = take_stretch(inputs.places, &mut stream.cursors, &mut stream.ranked)? else {
        return Ok(None);
    };
    stream.held.took_some(own.count() as u64);
    Ok(Some(own))
}

/// Reads the next granule of a part where no row of it is in memory.
///
/// The errors are those of `refill`.
fn read_on<R: Arm>(
    alloc: Global,
    arm: &mut R,
    inputs: &Inputs<R::Dir>,
    stream: &mut Stream<R::Dir>,
    number: usize,
) -> Result<(), (PartName, PartFault)>
    requires stream { IsStream inputs.now stream.old }
    requires within { number < length inputs.now.parts.now }

    // What is in memory then.
    ensures stream { OnOk result (IsStream inputs.now stream.new) }
    ensures goes_on { OnOk result (AreLater stream.old.readers.items stream.new.readers.items) }
    ensures rows { (rows : List (List Row))
        → PartsHold R.Dir.files inputs.now.schema.now inputs.now.parts.now rows
        → OnOk result (IsReadied number (ahead_of stream.old.cursors.items)
        (rests_of stream.old.readers.items rows) (ahead_of stream.new.cursors.items)
        (rests_of stream.new.readers.items rows)) }
    ensures count { OnOk result (rows_to_come stream.new ≡ rows_to_come stream.old) }
    ensures rises { OnOk result (stream.old.held.most_read ≤ stream.new.held.most_read) }
    ensures most { AreShaped inputs.now → IsWithin inputs.now stream.new.held }

    // What a fault says, and what the arm is then, with its count of faults.
    ensures fails { Fails (ExplainsStream R.Dir.files inputs.now stream.old.readers.items)
        (LeavesArm R.Arm arm.old arm.new) result }
{
    if has_row(&stream.cursors[number]) {
        return Ok(());
    }
    refill(alloc, arm, inputs, stream, number)
}

/// Adds the rows of a block from a place up to another to the part that is written. The list counts from 0, and is lengthened where it
/// has not all places of the block.
///
/// `Fault` only where the count of the part's stage rose, `NoMemory` where an allocation failed. After an error the part can only be given
/// up.
pub(crate) fn copy_rows<R: Arm>(
    order: &mut Vec<u32>,
    block: &Block,
    from: usize,
    to: usize,
    out: &mut PartOut<R>,
) -> Result<(), DiskError>
    requires order { order.old.items ≡ range_with_len 0 (length order.old.items) }
    requires rising { from ≤ to }
    requires within { to ≤ length block.now.rows }
    requires whole { IsWhole out.old }
    requires types { block.now.types ≡ column_types out.old.grown.schema }

    // What is added.
    ensures rows { (done : List Row) → HasRows out.old done
        → OnOk result (HasRows out.new (done ++ rows_between from to block.now.rows)) }
    ensures grew { OnOk result (Grew out.old out.new) }
    ensures order { OnOk result (order.new.items ≡ range_with_len 0 (length order.new.items)) }

    ensures cause { HasDiskCause out.old.stage.failed out.new.stage.failed result }
{
    count_to(order, block.len())?;
    out.push_block(block, &order[from..to])
}

/// Lengthens a list that counts from 0 until it has this many numbers.
///
/// `NoMemory` where an allocation failed.
fn count_to(order: &mut Vec<u32>, count: usize) -> Result<(), NoMemory>
    requires few { count < 2 ^ 32 }
    requires order { order.old.items ≡ range_with_len 0 (length order.old.items) }
    ensures order { OnOk result (order.new.items ≡ range_with_len 0 (length order.new.items)) }
    ensures long { OnOk result (count ≤ length order.new.items) }
{
    'numbers: while order.len() < count {
        let next = order.len() as u32;
        order.push(next)?;
    }
    Ok(())
}
