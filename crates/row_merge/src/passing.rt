// Rows that are taken while those in memory tell what comes after them: a row that is the only one of its key is copied as columns where
// the rule leaves it as it is, one of which the next one leaves nothing is left out, and a key ends once its last row was handed over.
// Only rows that the rule gets are made rows of their own.
ghost use Rattle.std.specs.Prelude.{◌≡◌, ◌<◌, ◌≤◌, ◌++◌, [], true, All, IfOk, List, OnOk, length};
ghost use Rattle.std.specs.List.{range_with_len, slice_index_or};
ghost use Rattle.mt_outside.specs.DiskCauses.{HasDiskCause};
ghost use Rattle.mt_values.specs.Grid.{AreRowsOf};
ghost use Rattle.mt_values.specs.Schemas.{column_types};
ghost use Rattle.mt_values.specs.Tables.{has_sign};
ghost use Rattle.mt_values.specs.Values.{Row, types_of};
ghost use Rattle.part_reader.specs.part_writer.Growing.{HasRows, IsWhole};
ghost use Rattle.rule_replacing.specs.rule_law.TableRows.{IsTableRow};
ghost use Rattle.row_merge.specs.Heads.{ahead_of};
ghost use Rattle.row_merge.specs.Merged.{rows_of_all};
ghost use Rattle.row_merge.specs.Merging.{IsTaken, ahead_at};
ghost use Rattle.row_merge.specs.Passing.{IsGoing, IsLeading, TakesAhead};
ghost use Rattle.row_merge.specs.Streams.{AreInputs, AreShaped, Grew, HandsOver, HasCurrent, IsLeft, IsMerging, IsStream, IsWithin, KeepsHeld, MayGoOn, TakesTable, WentOn, rows_to_come};
ghost use Rattle.row_merge.specs.Stretches.{HasAnother};

use crate::copied::copy_rows;
use crate::course::Current;
use crate::fates::{Fate, fate_of};
use crate::heads::{Cursor, cmp_row_with};
use crate::held::Held;
use crate::streamed::{append, end_merge, hand_over};
use crate::streams::{Inputs, Stream};
use crate::stretches::{Place, take_place};
use mt_base::NoMemory;
use mt_outside::{Arm, Dir, DiskError};
use mt_values::Row;
use part_reader::part_writer::PartOut;
use rule_replacing::rule_law::RowRule;
use std::alloc::Global;

/// Appends rows that came out at once to the part that is written, and goes on as `pass_rows`.
///
/// `Fault` only where the count of the part's stage rose, `NoMemory` where an allocation failed. After an error the part can only be given
/// up.
pub(crate) fn append_on<R: Arm, Q: RowRule>(
    alloc: Global,
    inputs: &Inputs<R::Dir>,
    stream: &mut Stream<R::Dir>,
    rule: &Q,
    kept: &[Row],
    current: Option<Current<Q::State>>,
    order: &mut Vec<u32>,
    out: &mut PartOut<R>,
) -> Result<Option<Current<Q::State>>, DiskError>
    requires on { MayGoOn inputs.now stream.old out.old }
    requires takes { TakesTable (Q.takes rule.now) inputs.now.schema.now }
    requires current { HasCurrent (Q.holds rule.now) (Q.takes rule.now) inputs.now current }
    requires typed { AreRowsOf (column_types out.old.grown.schema) kept.now }
    requires order { order.old.items ≡ range_with_len 0 (length order.old.items) }

    // What is written, and what is left.
    ensures merges { (rows left : List (List Row)) (done : List Row)
        → Q.apart rule.now inputs.now.places.now → HasRows out.old done
        → HandsOver inputs.now.places.now (Q.run rule.now) (Q.holds rule.now) (Q.takes rule.now)
        (column_types inputs.now.schema.now) rows (done ++ kept.now) left current
        → IsLeft stream.old rows left → All (IsTableRow inputs.now.schema.now) (rows_of_all left)
        → IfOk result (λ new. IsMerging (Q.run rule.now) (Q.holds rule.now) (Q.takes rule.now)
        inputs.now rows stream.new new out.new) }
    ensures current { IfOk result (HasCurrent (Q.holds rule.now) (Q.takes rule.now) inputs.now) }
    ensures fewer { OnOk result (rows_to_come stream.new ≤ rows_to_come stream.old) }
    ensures order { OnOk result (order.new.items ≡ range_with_len 0 (length order.new.items)) }
    ensures on { OnOk result (WentOn inputs.now stream.old stream.new out.old out.new) }
    ensures most { IsWithin inputs.now stream.new.held }

    ensures cause { HasDiskCause out.old.stage.failed out.new.stage.failed result }
{
    append(kept, &mut stream.held, out)?;
    pass_rows(alloc, inputs, stream, rule, current, order, out)
}

/// Takes the next rows of all, as long as the part of each has another row in memory after it.
///
/// The errors are those of `append_on`.
fn pass_rows<R: Arm, Q: RowRule>(
    alloc: Global,
    inputs: &Inputs<R::Dir>,
    stream: &mut Stream<R::Dir>,
    rule: &Q,
    current: Option<Current<Q::State>>,
    order: &mut Vec<u32>,
    out: &mut PartOut<R>,
) -> Result<Option<Current<Q::State>>, DiskError>
    requires on { MayGoOn inputs.now stream.old out.old }
    requires takes { TakesTable (Q.takes rule.now) inputs.now.schema.now }
    requires current { HasCurrent (Q.holds rule.now) (Q.takes rule.now) inputs.now current }
    requires order { order.old.items ≡ range_with_len 0 (length order.old.items) }

    // What is written, and what is left.
    ensures merges { (rows : List (List Row)) → Q.apart rule.now inputs.now.places.now
        → IsMerging (Q.run rule.now) (Q.holds rule.now) (Q.takes rule.now) inputs.now rows
        stream.old current out.old → IfOk result (λ new. IsMerging (Q.run rule.now)
        (Q.holds rule.now) (Q.takes rule.now) inputs.now rows stream.new new out.new) }
    ensures current { IfOk result (HasCurrent (Q.holds rule.now) (Q.takes rule.now) inputs.now) }
    ensures fewer { OnOk result (rows_to_come stream.new ≤ rows_to_come stream.old) }
    ensures order { OnOk result (order.new.items ≡ range_with_len 0 (length order.new.items)) }
    ensures on { OnOk result (WentOn inputs.now stream.old stream.new out.old out.new) }
    ensures most { IsWithin inputs.now stream.new.held }

    ensures cause { HasDiskCause out.old.stage.failed out.new.stage.failed result }
{
    let mut key = current;
    'rows: while has_another(&stream.cursors, &stream.ranked) {
        key = pass_row(alloc, inputs, stream, rule, key, order, out)?;
    }
    Ok(key)
}

/// Takes the next row of all, of a part that has another row in memory after it. The key of the row ends where the next one of all has
/// another key.
///
/// The errors are those of `append_on`.
fn pass_row<R: Arm, Q: RowRule>(
    alloc: Global,
    inputs: &Inputs<R::Dir>,
    stream: &mut Stream<R::Dir>,
    rule: &Q,
    current: Option<Current<Q::State>>,
    order: &mut Vec<u32>,
    out: &mut PartOut<R>,
) -> Result<Option<Current<Q::State>>, DiskError>
    requires on { MayGoOn inputs.now stream.old out.old }
    requires another { HasAnother (ahead_of stream.old.cursors.items) stream.old.ranked.items }
    requires takes { TakesTable (Q.takes rule.now) inputs.now.schema.now }
    requires current { HasCurrent (Q.holds rule.now) (Q.takes rule.now) inputs.now current }
    requires order { order.old.items ≡ range_with_len 0 (length order.old.items) }

    // What is written, and what is left.
    ensures merges { (rows : List (List Row)) → Q.apart rule.now inputs.now.places.now
        → IsMerging (Q.run rule.now) (Q.holds rule.now) (Q.takes rule.now) inputs.now rows
        stream.old current out.old → IfOk result (λ new. IsMerging (Q.run rule.now)
        (Q.holds rule.now) (Q.takes rule.now) inputs.now rows stream.new new out.new) }
    ensures current { IfOk result (HasCurrent (Q.holds rule.now) (Q.takes rule.now) inputs.now) }
    ensures fewer { OnOk result (rows_to_come stream.new < rows_to_come stream.old) }
    ensures order { OnOk result (order.new.items ≡ range_with_len 0 (length order.new.items)) }
    ensures on { OnOk result (WentOn inputs.now stream.old stream.new out.old out.new) }
    ensures most { IsWithin inputs.now stream.new.held }

    ensures cause { HasDiskCause out.old.stage.failed out.new.stage.failed result }
{
    let own = take_ahead(inputs, stream)?;
    let block = &stream.cursors[own.input].block;
    let next = leading(&stream.cursors, &stream.ranked);
    let is_first = current.is_none();
    match fate_of(rule, inputs.places, is_first, block, own.at, next) {
        Fate::Copied => {
            copy_rows(order, block, own.at, own.at + 1, out)?;
            Ok(None)
        }
        Fate::LeftOut => Ok(None),
        Fate::Handed => {
            let row = block.row(alloc, own.at)?;
            let held = &mut stream.held;
            let new = hand_on(alloc, inputs, rule, current, row, held, out)?;
            close_key(alloc, inputs, rule, new, next, held, out)
        }
    }
}

// ---- the next row, and the one after it

/// Whether the part with the next row of all has another row in memory after it.
fn has_another(cursors: &[Cursor], ranked: &[usize]) -> bool
    requires { All (λ x. 0 < length (ahead_at (ahead_of cursors.now) x)) ranked.now }
    ensures { result ≡ true → HasAnother (ahead_of cursors.now) ranked.now }
{
    let Some(input) = ranked.last() else {
        return false;
    };
    let cursor = &cursors[*input];
    cursor.block.len() - cursor.at > 1
}

/// The cursor with the next row of all, where there is one.
fn leading<'a>(cursors: &'a [Cursor], ranked: &[usize]) -> &'a Cursor
    requires some { 0 < length ranked.now }
    requires ahead { All (λ x. 0 < length (ahead_at (ahead_of cursors.now) x)) ranked.now }
    ensures { IsLeading cursors.now ranked.now result.now }
{
    let Some(input) = ranked.last() else {
        unreachable!();
    };
    &cursors[*input]
}

/// Takes the next row of all, of a part that has another row in memory after it. It stays in its block.
///
/// `NoMemory` where an allocation failed; then the stream can only be given up.
fn take_ahead<F: Dir>(inputs: &Inputs<F>, stream: &mut Stream<F>) -> Result<Place, NoMemory>
    requires stream { IsStream inputs.now stream.old }
    requires another { HasAnother (ahead_of stream.old.cursors.items) stream.old.ranked.items }
    ensures takes { IfOk result (TakesAhead inputs.now stream.old stream.new) }
    ensures readers { stream.new.readers.items ≡ stream.old.readers.items }
    ensures stream { OnOk result (IsStream inputs.now stream.new) }
    ensures rises { OnOk result (stream.old.held.most_read ≤ stream.new.held.most_read) }
    ensures most { AreShaped inputs.now → IsWithin inputs.now stream.new.held }
{
    let own = take_place(inputs.places, &mut stream.cursors, &mut stream.ranked)?;
    stream.held.took();
    Ok(own)
}

// ---- a row that the rule gets

/// Hands a row to the rule, and appends what comes out to the part that is written.
///
/// The errors are those of `append_on`.
fn hand_on<R: Arm, Q: RowRule>(
    alloc: Global,
    inputs: &Inputs<R::Dir>,
    rule: &Q,
    current: Option<Current<Q::State>>,
    row: Row,
    held: &mut Held,
    out: &mut PartOut<R>,
) -> Result<Option<Current<Q::State>>, DiskError>
    requires inputs { AreInputs inputs.now }
    requires takes { TakesTable (Q.takes rule.now) inputs.now.schema.now }
    requires typed { types_of row ≡ column_types inputs.now.schema.now }
    requires current { HasCurrent (Q.holds rule.now) (Q.takes rule.now) inputs.now current }
    requires whole { IsWhole out.old }
    requires table { out.old.grown.schema ≡ inputs.now.schema.now }
    requires made { held.old.made ≡ 0 }

    // What is appended.
    ensures hands { (rows before left : List (List Row)) → Q.apart rule.now inputs.now.places.now
        → has_sign inputs.now.schema.now row ≡ true → IsGoing inputs.now.places.now
        (Q.run rule.now) (Q.holds rule.now) (Q.takes rule.now) (column_types inputs.now.schema.now)
        rows before current out.old → IsTaken inputs.now.places.now before row left
        → IfOk result (λ new. IsGoing inputs.now.places.now (Q.run rule.now) (Q.holds rule.now)
        (Q.takes rule.now) (column_types inputs.now.schema.now) rows left new out.new) }
    ensures current { IfOk result (HasCurrent (Q.holds rule.now) (Q.takes rule.now) inputs.now) }
    ensures grew { OnOk result (Grew out.old out.new) }

    // How many rows are in memory then.
    ensures held { KeepsHeld held.old held.new }
    ensures made { OnOk result (held.new.made ≡ 0) }

    ensures cause { HasDiskCause out.old.stage.failed out.new.stage.failed result }
{
    let (kept, new) = hand_over(alloc, inputs, rule, current, row)?;
    append(&kept, held, out)?;
    Ok(new)
}

/// Ends the key of which the rule has rows, where the next row of all is of another key, and appends what is left of it to the part that is
/// written.
///
/// The errors are those of `append_on`.
fn close_key<R: Arm, Q: RowRule>(
    alloc: Global,
    inputs: &Inputs<R::Dir>,
    rule: &Q,
    current: Option<Current<Q::State>>,
    next: &Cursor,
    held: &mut Held,
    out: &mut PartOut<R>,
) -> Result<Option<Current<Q::State>>, DiskError>
    requires inputs { AreInputs inputs.now }
    requires current { HasCurrent (Q.holds rule.now) (Q.takes rule.now) inputs.now current }
    requires next { next.now.at < length next.now.block.rows }
    requires types { next.now.block.types ≡ column_types inputs.now.schema.now }
    requires whole { IsWhole out.old }
    requires table { out.old.grown.schema ≡ inputs.now.schema.now }
    requires made { held.old.made ≡ 0 }

    // What is appended.
    ensures closes { (rows left after : List (List Row)) → Q.apart rule.now inputs.now.places.now
        → IsGoing inputs.now.places.now (Q.run rule.now) (Q.holds rule.now) (Q.takes rule.now)
        (column_types inputs.now.schema.now) rows left current out.old
        → IsTaken inputs.now.places.now left
        (slice_index_or next.now.block.rows next.now.at []) after
        → IfOk result (λ new. IsGoing inputs.now.places.now (Q.run rule.now) (Q.holds rule.now)
        (Q.takes rule.now) (column_types inputs.now.schema.now) rows left new out.new) }
    ensures current { IfOk result (HasCurrent (Q.holds rule.now) (Q.takes rule.now) inputs.now) }
    ensures grew { OnOk result (Grew out.old out.new) }

    // How many rows are in memory then.
    ensures held { KeepsHeld held.old held.new }
    ensures made { OnOk result (held.new.made ≡ 0) }

    ensures cause { HasDiskCause out.old.stage.failed out.new.stage.failed result }
{
    let Some(key) = current else {
        return Ok(None);
    };
    if cmp_row_with(inputs.places, &key.first, &next.block, next.at).is_ne() {
        end_merge(alloc, rule, Some(key), held, out)?;
        return Ok(None);
    }
    Ok(Some(key))
}
