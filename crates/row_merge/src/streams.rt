// Parts that are read granule by granule, with the rows of each that were read and not yet taken.
//
// Of each part one granule at most is in memory, and bytes of its columns that are read ahead, a share of what all parts have.
ghost use Rattle.std.specs.Prelude.{◌≡◌, ℕ, ◌*◌, ◌≤◌, ◌<◌, ◌^◌, ◌↔◌, [], true, All, IfErr, IfOk, IfSome, IsSorted, List, None, OnOk, length, map, replicate};
ghost use Rattle.std.specs.List.{AllZip};
ghost use Rattle.mt_outside.specs.Leaves.{LeavesArm};
ghost use Rattle.mt_values.specs.Order.{key_cmp};
ghost use Rattle.mt_values.specs.Schemas.{column_types};
ghost use Rattle.mt_values.specs.Values.{Row, types_of};
ghost use Rattle.row_merge.specs.Heads.{ahead_of};
ghost use Rattle.row_merge.specs.Merged.{rows_of_all};
ghost use Rattle.row_merge.specs.MergedParts.{ExplainsMerge, Fails, HasShape, PartsHold, first_rows, other_table};
ghost use Rattle.row_merge.specs.Merging.{ahead_at};
ghost use Rattle.row_merge.specs.Streams.{AreInputs, AreLater, AreShaped, ExplainsStream, GivesRow, IsLeft, IsPlanOf, IsReaderOf, IsRefilled, IsStream, IsUnreadAt, IsWithin, MayTake, ReadsPart, no_cursor, reader_of, rests_of, rows_to_come, share};

use crate::heads::{Cursor, fill, has_row, take_row};
use crate::held::Held;
use mt_base::{NoMemory, Seq};
use mt_outside::{Arm, Dir};
use mt_values::{Block, ColType, FileId, Row, Schema, all_places};
use part_history::part_name::PartName;
use part_reader::{NO_MARK, Part, PartFault, PartRows};
use part_set::Kept;
use std::alloc::Global;

/// How many bytes are read ahead at most, divided among the columns of all parts.
const MOST_AHEAD: u64 = 1 << 24;

/// What all parts of a table are read by.
#[derive(Drop)]
pub(crate) struct Plan {
    /// The places of the columns by which rows are sorted.
    pub(crate) sorting: Seq<u32>,
    /// The places of all columns.
    pub(crate) columns: Vec<u32>,
    /// As many granules as any of the parts has, all of them chosen.
    pub(crate) chosen: Vec<bool>,
}

/// Parts of a table, and the places of the columns by which its rows are sorted.
#[derive(Drop)]
pub(crate) struct Inputs<'a, F> {
    pub(crate) schema: &'a Schema,
    pub(crate) parts: &'a [Kept<Part<F>>],
    pub(crate) places: &'a [u32],
}

/// The readers of parts, and the rows of each that are in memory.
#[derive(Drop)]
pub(crate) struct Stream<'a, F: Dir> {
    pub(crate) readers: Vec<PartRows<'a, F>>,
    pub(crate) cursors: Vec<Cursor>,
    /// The parts that have rows in memory, the one with the next row last.
    pub(crate) ranked: Vec<usize>,
    pub(crate) held: Held,
}

// ---- the parts are those of a table

/// Whether two lists of types are one.
fn same_types(a: &[ColType], b: &[ColType]) -> bool
    ensures { (result ≡ true) ↔ (a.now ≡ b.now) }
{
    a == b
}

/// Whether the columns of a part have the types of the table's, and its granules the same size.
///
/// `NoMemory` where an allocation failed.
fn has_shape(alloc: Global, schema: &Schema, own: &Schema) -> Result<bool, NoMemory>
    ensures { IfOk result (λ is. (is ≡ true) ↔ HasShape schema.now own.now) }
{
    let types = schema.types(alloc)?;
    let others = own.types(alloc)?;
    if own.granularity != schema.granularity {
        return Ok(false);
    }
    Ok(same_types(others.as_slice(), types.as_slice()))
}

/// Looks whether all parts are read as those of the table. A part of which another table's columns are kept does not hold rows of it:
/// its manifest is called damaged.
///
/// The name of the first other one, or of the part where an allocation failed.
pub(crate) fn check_shapes<F: Dir>(
    alloc: Global,
    schema: &Schema,
    parts: &[Kept<Part<F>>],
) -> Result<(), (PartName, PartFault)>
    ensures own { OnOk result (All (λ k. HasShape schema.now k.part.loaded.schema) parts.now) }
    ensures no_fault { IfErr result (λ e. e.1 ≡ PartFault.Fault → ⊥) }
    ensures damaged { IfErr result (ExplainsMerge F.files schema.now parts.now) }
{
    for kept in parts {
        let Ok(is_own) = has_shape(alloc, schema, &kept.part.loaded.schema) else {
            return Err((kept.name, PartFault::NoMemory));
        };
        if !is_own {
            return Err((kept.name, other_table()));
        }
    }
    Ok(())
}

/// What is called the damage of a part of which another table's columns are kept.
fn other_table() -> PartFault
    ensures { result ≡ other_table }
{
    PartFault::Damaged {
        file: FileId::Manifest,
        place: 0,
        wanted: NO_MARK,
        found: NO_MARK,
    }
}

// ---- readers

/// The greatest number of rows that any of the parts has.
fn most_rows<F>(parts: &[Kept<Part<F>>]) -> u64
    ensures { All (λ k. k.part.loaded.manifest.rows ≤ result) parts.now }
{
    let mut most = 0;
    for kept in parts {
        most = kept.part.loaded.manifest.rows.max(most);
    }
    most
}

/// What all parts of a table are read by.
///
/// `NoMemory` where an allocation failed.
pub(crate) fn plan_of<F>(
    alloc: Global,
    schema: &Schema,
    parts: &[Kept<Part<F>>],
) -> Result<Plan, NoMemory>
    requires some { 0 < schema.now.granularity }
    requires few { length schema.now.columns < 2 ^ 32 }
    ensures { IfOk result (IsPlanOf schema.now parts.now) }
{
    let granules = most_rows(parts).div_ceil(u64::from(schema.granularity));
    let sorting = schema.sorting_places(alloc)?;
    let columns = all_places(alloc, schema.columns.len() as u32)?;
    let chosen = vec![in alloc; true; granules as usize]?;
    Ok(Plan {
        sorting,
        columns,
        chosen,
    })
}

/// How many bytes are read ahead at most of each of this many columns of each of this many parts.
pub(crate) fn share_of(parts: usize, columns: usize) -> u64
    ensures exact { result ≡ share parts columns }
    ensures within { result * (parts * columns) ≤ 2 ^ 24 }
{
    let shares = (parts as u64).saturating_mul(columns as u64);
    MOST_AHEAD / shares.max(1)
}

/// Readers of all columns of the parts. Nothing is read yet.
///
/// `NoMemory` where an allocation failed.
fn open_readers<'a, F: Dir>(
    alloc: Global,
    schema: &'a Schema,
    parts: &'a [Kept<Part<F>>],
    plan: &'a Plan,
) -> Result<Vec<PartRows<'a, F>>, NoMemory>
    requires places { All (λ place. place < length schema.now.columns) plan.now.columns.items }
    ensures { IfOk result (λ v. v.items ≡ map (reader_of schema.now plan.now
        (share (length parts.now) (length plan.now.columns.items))) parts.now) }
{
    let most = share_of(parts.len(), plan.columns.len());
    let mut readers = Vec::new(alloc);
    for own in parts {
        let reader = PartRows::new(alloc, schema, &own.part, &plan.chosen, &plan.columns, most)?;
        readers.push(reader)?;
    }
    Ok(readers)
}

/// This many parts without a row in memory.
///
/// `NoMemory` where an allocation failed.
fn no_cursors(alloc: Global, types: &[ColType], count: usize) -> Result<Vec<Cursor>, NoMemory>
    ensures { IfOk result (λ v. v.items ≡ replicate count (no_cursor types.now)) }
{
    let mut cursors = Vec::new(alloc);
    for _cursor in 0..count {
        cursors.push(Cursor {
            block: Block::new(alloc, types)?,
            at: 0,
        })?;
    }
    Ok(cursors)
}

/// The parts and their readers. No row is in memory yet.
///
/// `NoMemory` where an allocation failed.
pub(crate) fn open_stream<'a, F: Dir>(
    alloc: Global,
    inputs: &Inputs<'a, F>,
    readers: Vec<PartRows<'a, F>>,
) -> Result<Stream<'a, F>, NoMemory>
    requires readers { AllZip (IsReaderOf inputs.now.schema.now) inputs.now.parts.now
        readers.items }
    requires inputs { AreInputs inputs.now }
    ensures stream { IfOk result (IsStream inputs.now) }
    ensures none { IfOk result (λ s. All (λ rows. rows ≡ []) (ahead_of s.cursors.items)) }
    ensures readers { IfOk result (λ s. s.readers.items ≡ readers.entry.items) }
{
    let types = inputs.schema.types(alloc)?;
    let cursors = no_cursors(alloc, types.as_slice(), inputs.parts.len())?;
    Ok(Stream {
        readers,
        cursors,
        ranked: Vec::new(alloc),
        held: Held::new(),
    })
}

/// The parts as they are read by a plan. No row was read yet.
///
/// `NoMemory` where an allocation failed.
pub(crate) fn open_whole<'a, F: Dir>(
    alloc: Global,
    inputs: &Inputs<'a, F>,
    plan: &'a Plan,
) -> Result<Stream<'a, F>, NoMemory>
    requires plan { IsPlanOf inputs.now.schema.now inputs.now.parts.now plan.now }
    requires inputs { AreInputs inputs.now }
    ensures stream { IfOk result (IsStream inputs.now) }
    ensures none { IfOk result (λ s. All (λ rows. rows ≡ []) (ahead_of s.cursors.items)) }
    ensures rows { IfOk result (λ s. (rows : List (List Row))
        → PartsHold F.files inputs.now.schema.now inputs.now.parts.now rows
        → rests_of s.readers.items rows ≡ rows) }
    ensures unread { IfOk result (λ s. (j : ℕ) → IsUnreadAt s.readers.items j) }
{
    let readers = open_readers(alloc, inputs.schema, inputs.parts, plan)?;
    open_stream(alloc, inputs, readers)
}

// ---- rows

/// Reads the next granule of a part of which no row is in memory, and ranks the part; one without more rows is left out.
///
/// The name of the part, and why it could not be read, as `merge_streamed` says. After an error the stream can only be given up.
pub(crate) fn refill<R: Arm>(
    alloc: Global,
    arm: &mut R,
    inputs: &Inputs<R::Dir>,
    stream: &mut Stream<R::Dir>,
    number: usize,
) -> Result<(), (PartName, PartFault)>
    requires stream { IsStream inputs.now stream.old }
    requires within { number < length inputs.now.parts.now }
    requires none { ahead_at (ahead_of stream.old.cursors.items) number ≡ [] }

    // What is in memory then.
    ensures stream { OnOk result (IsStream inputs.now stream.new) }
    ensures goes_on { OnOk result (AreLater stream.old.readers.items stream.new.readers.items) }
    ensures rows { (rows : List (List Row))
        → PartsHold R.Dir.files inputs.now.schema.now inputs.now.parts.now rows
        → OnOk result (IsRefilled number (ahead_of stream.old.cursors.items)
        (rests_of stream.old.readers.items rows) (ahead_of stream.new.cursors.items)
        (rests_of stream.new.readers.items rows)) }
    ensures ahead { OnOk result ((j : ℕ) → (j ≡ number → ⊥)
        → ahead_at (ahead_of stream.new.cursors.items) j
        ≡ ahead_at (ahead_of stream.old.cursors.items) j) }
    ensures count { OnOk result (rows_to_come stream.new ≡ rows_to_come stream.old) }
    ensures reads { OnOk result (ReadsPart inputs.now number stream.old stream.new) }
    ensures most { AreShaped inputs.now → IsWithin inputs.now stream.new.held }

    // What a fault says, and what the arm is then, with its count of faults.
    ensures fails { Fails (ExplainsStream R.Dir.files inputs.now stream.old.readers.items)
        (LeavesArm R.Arm arm.old arm.new) result }
{
    let name = inputs.parts[number].name;
    let found = match stream.readers[number].next(alloc, arm) {
        Ok(found) => found,
        Err(fault) => return Err((name, fault)),
    };
    let Some(block) = found else {
        return Ok(());
    };
    stream.held.read_more(block.len() as u64);
    let Ok(()) = fill(
        inputs.places,
        &mut stream.cursors,
        &mut stream.ranked,
        number,
        block,
    ) else {
        return Err((name, PartFault::NoMemory));
    };
    Ok(())
}

/// Reads the first granule of each part.
///
/// The errors are those of `refill`.
pub(crate) fn fill_all<R: Arm>(
    alloc: Global,
    arm: &mut R,
    inputs: &Inputs<R::Dir>,
    stream: &mut Stream<R::Dir>,
) -> Result<(), (PartName, PartFault)>
    requires stream { IsStream inputs.now stream.old }
    requires none { All (λ rows. rows ≡ []) (ahead_of stream.old.cursors.items) }

    // What is in memory then.
    ensures stream { OnOk result (IsStream inputs.now stream.new) }
    ensures goes_on { OnOk result (AreLater stream.old.readers.items stream.new.readers.items) }
    ensures rows { (rows : List (List Row))
        → PartsHold R.Dir.files inputs.now.schema.now inputs.now.parts.now rows
        → OnOk result (IsLeft stream.new rows (rests_of stream.old.readers.items rows)) }
    ensures first { AreShaped inputs.now → ((j : ℕ) → IsUnreadAt stream.old.readers.items j)
        → OnOk result (first_rows inputs.now.schema.now.granularity inputs.now.parts.now
        ≤ length (rows_of_all (ahead_of stream.new.cursors.items))) }
    ensures most { AreShaped inputs.now → IsWithin inputs.now stream.new.held }

    // What a fault says, and what the arm is then, with its count of faults.
    ensures fails { Fails (ExplainsStream R.Dir.files inputs.now stream.old.readers.items)
        (LeavesArm R.Arm arm.old arm.new) result }
{
    for number in 0..inputs.parts.len() {
        refill(alloc, arm, inputs, stream, number)?;
    }
    Ok(())
}

/// Takes the next row of all parts. Where it was the last of its part that was in memory, the part's next granule is read. None where all
/// rows were taken.
///
/// The name of the part of which the granule could not be read, and why, as `merge_streamed` says; that of the first where an allocation
/// failed. After an error the stream can only be given up.
pub(crate) fn next_row<R: Arm>(
    alloc: Global,
    arm: &mut R,
    inputs: &Inputs<R::Dir>,
    stream: &mut Stream<R::Dir>,
) -> Result<Option<Row>, (PartName, PartFault)>
    requires stream { IsStream inputs.now stream.old }

    // The row, and what is left.
    ensures gives { (rows left : List (List Row))
        → PartsHold R.Dir.files inputs.now.schema.now inputs.now.parts.now rows
        → IsLeft stream.old rows left → All (IsSorted (key_cmp inputs.now.places.now)) left
        → IfOk result (GivesRow inputs.now.places.now rows left stream.new) }
    ensures typed { IfOk result (λ found. IfSome found
        (λ row. types_of row ≡ column_types inputs.now.schema.now)) }
    ensures fewer { IfOk result (λ found. IfSome found
        (λ _. rows_to_come stream.new < rows_to_come stream.old)) }

    // What is in memory then.
    ensures idle { AreShaped inputs.now
        → IfOk result (λ found. found ≡ None → stream.new.held.read ≡ 0) }
    ensures stream { OnOk result (IsStream inputs.now stream.new) }
    ensures goes_on { OnOk result (AreLater stream.old.readers.items stream.new.readers.items) }
    ensures rises { OnOk result (stream.old.held.most_read ≤ stream.new.held.most_read) }
    ensures most { AreShaped inputs.now → IsWithin inputs.now stream.new.held }

    // What a fault says, and what the arm is then, with its count of faults.
    ensures fails { Fails (ExplainsStream R.Dir.files inputs.now stream.old.readers.items)
        (LeavesArm R.Arm arm.old arm.new) result }
{
    let Ok(found) = take_next(alloc, inputs, stream) else {
        return Err((inputs.parts[0].name, PartFault::NoMemory));
    };
    let Some((number, row)) = found else {
        return Ok(None);
    };
    if has_row(&stream.cursors[number]) {
        return Ok(Some(row));
    }
    refill(alloc, arm, inputs, stream, number)?;
    Ok(Some(row))
}

/// Takes the next row of all that are in memory, with the number of its part.
///
/// `NoMemory` where an allocation failed; then the stream can only be given up.
fn take_next<F: Dir>(
    alloc: Global,
    inputs: &Inputs<F>,
    stream: &mut Stream<F>,
) -> Result<Option<(usize, Row)>, NoMemory>
    requires { IsStream inputs.now stream.old }
    ensures takes { IfOk result (MayTake inputs.now stream.old stream.new) }
    ensures readers { stream.new.readers.items ≡ stream.old.readers.items }
    ensures stream { OnOk result (IsStream inputs.now stream.new) }
    ensures rises { OnOk result (stream.old.held.most_read ≤ stream.new.held.most_read) }
    ensures most { AreShaped inputs.now → IsWithin inputs.now stream.new.held }
{
    let Some(taken) = take_row(
        alloc,
        inputs.places,
        &mut stream.cursors,
        &mut stream.ranked,
    )?
    else {
        return Ok(None);
    };
    stream.held.took();
    Ok(Some(taken))
}
