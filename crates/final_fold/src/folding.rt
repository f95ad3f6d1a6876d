// The rows that FINAL sees of a table's parts: those of the chosen granules, merged partition by partition by the rule of the table's
// engine (docs/engines.md, "FINAL"). A key of which a granule was not read is one of which no row meets the condition, so of its rows
// none is missed.
ghost use Rattle.std.specs.Prelude.{◌≡◌, ◌<◌, [], All, IfErr, IfOk, IsErrAnd, List, OnOk, length, map};
ghost use Rattle.mt_base.specs.declared.partition.Partition.{Partition};
ghost use Rattle.row_merge.specs.mt_model.History.{IsTableSchema};
ghost use Rattle.mt_outside.specs.Leaves.{LeavesArm};
ghost use Rattle.mt_values.specs.Grid.{Cells};
ghost use Rattle.mt_values.specs.Values.{Row};
ghost use Rattle.row_merge.specs.primary_marks.Keys.{HasMarks};
ghost use Rattle.row_merge.specs.Merged.{ArePartRows};
ghost use Rattle.row_merge.specs.MergedParts.{PartsHold};
ghost use Rattle.row_merge.specs.Sinks.{GetsSome};
ghost use Rattle.final_fold.specs.Asked.{IsWanted};
ghost use Rattle.final_fold.specs.Folded.{AreAdded, AreOfPartitions, ExplainsFold, IsFolded, SkipNoFold, StandByPartition, count_in};
ghost use Rattle.final_fold.specs.Founds.{AddsFold, GetsMatches, HasNone, IsFound};
ghost use Rattle.final_fold.specs.Scans.{HaveTypes, joined_rows, values_at};

use crate::asking::Wanted;
use crate::found::{Found, none_found, swap_columns};
use mt_base::{Partition, Seq};
use mt_outside::Arm;
use mt_values::ColumnData;
use row_merge::merge_chosen;
use row_merge::part_reader::{Part, PartFault};
use row_merge::part_set::Kept;
use row_merge::part_set::part_name::PartName;
use std::alloc::Global;

/// Adds what FINAL sees of a table's parts to columns: of the rows that a merge leaves of all parts of each partition, those that meet a
/// condition, of each the values at the wanted places. All columns of the chosen granules are read: no row of a key that has a row in
/// another one meets the condition. Of each part of the partition that is merged one chosen granule at most is in memory, beside what
/// the rule keeps of one key; once a key ends, what is left of it is asked and added. Returns how many rows were added.
///
/// The name of the part of which a column could not be read, and why: `Damaged` where its bytes in some chosen granules are damaged,
/// never where the parts hold rows of the table, and it is said of each of their granules whether it is chosen; `Fault` only where the
/// arm's count rose in this call; `NoMemory` where an allocation failed, or 32 bits can't count the rows; where that was while rows were
/// merged, the name is that of the partition's first part. After an error the columns are without values.
pub fn final_rows<R: Arm>(
    alloc: Global,
    arm: &mut R,
    parts: &[Kept<Part<R::Dir>>],
    chosen: &[Seq<bool>],
    wanted: &Wanted,
    columns: &mut [ColumnData],
) -> Result<usize, (PartName, PartFault)>
    requires table { IsTableSchema wanted.now.schema.now }
    requires marks { HasMarks wanted.now.schema.now }
    requires wanted { IsWanted wanted.now }
    requires columns { HaveTypes wanted.now.schema.now wanted.now.places.now columns.old }
    requires chosen { length chosen.now ≡ length parts.now }

    // What the columns get.
    ensures values { (rows : List (List Row)) → StandByPartition parts.now
        → PartsHold R.Dir.files wanted.now.schema.now parts.now rows
        → AreOfPartitions wanted.now.schema.now parts.now rows
        → SkipNoFold wanted.now chosen.now rows
        → map (λ (c : Cells). c.values) columns.old ≡ values_at [] wanted.now.places.now
        → IfOk result (IsFolded wanted.now (joined_rows rows) columns.new) }
    ensures added { IfOk result (AreAdded columns.old columns.new) }

    // What a fault says.
    ensures damaged { IfErr result (ExplainsFold R.Dir.files parts.now chosen.now wanted.now) }

    // What the arm is then, and its count of faults.
    ensures arm { LeavesArm R.Arm arm.old arm.new (IsErrAnd result (λ e. e.1 ≡ PartFault.Fault)) }
{
    if parts.is_empty() {
        return Ok(0);
    }
    let Ok(mut found) = none_found(alloc, wanted) else {
        return Err((parts[0].name, PartFault::NoMemory));
    };
    swap_columns(&mut found, columns);
    fold_partitions(alloc, arm, parts, chosen, &mut found)?;
    swap_columns(&mut found, columns);
    Ok(found.count)
}

/// Adds what FINAL sees of parts to what was found, partition by partition.
///
/// The errors are those of `final_rows`.
fn fold_partitions<R: Arm>(
    alloc: Global,
    arm: &mut R,
    parts: &[Kept<Part<R::Dir>>],
    chosen: &[Seq<bool>],
    found: &mut Found,
) -> Result<(), (PartName, PartFault)>
    requires table { IsTableSchema found.old.wanted.schema.now }
    requires marks { HasMarks found.old.wanted.schema.now }
    requires found { IsFound found.old }
    requires chosen { length chosen.now ≡ length parts.now }

    // What is found.
    ensures values { (rows : List (List Row)) → StandByPartition parts.now
        → PartsHold R.Dir.files found.old.wanted.schema.now parts.now rows
        → AreOfPartitions found.old.wanted.schema.now parts.now rows
        → SkipNoFold found.old.wanted chosen.now rows → HasNone found.old
        → OnOk result (IsFolded found.old.wanted (joined_rows rows) found.new.columns.items
        found.new.count) }
    ensures gets { OnOk result (GetsSome GetsMatches found.old found.new) }

    // What a fault says.
    ensures damaged { IfErr result
        (ExplainsFold R.Dir.files parts.now chosen.now found.old.wanted) }

    // What the arm is then, and its count of faults.
    ensures arm { LeavesArm R.Arm arm.old arm.new (IsErrAnd result (λ e. e.1 ≡ PartFault.Fault)) }
{
    let mut at = 0;
    while at < parts.len() {
        let end = at + count_in(&parts[at].name.partition, &parts[at..]);
        fold_partition(alloc, arm, &parts[at..end], &chosen[at..end], found)?;
        at = end;
    }
    Ok(())
}

/// How many parts from the first on are of a partition.
fn count_in<F>(partition: &Partition, parts: &[Kept<Part<F>>]) -> usize
    ensures { result ≡ count_in partition.now parts.now }
{
    parts
        .iter()
        .take_while(|kept| kept.name.partition == *partition)
        .count()
}

/// Adds what FINAL sees of parts of one partition to what was found, as `final_rows` does of all parts.
///
/// The errors are those of `final_rows`.
fn fold_partition<R: Arm>(
    alloc: Global,
    arm: &mut R,
    parts: &[Kept<Part<R::Dir>>],
    chosen: &[Seq<bool>],
    found: &mut Found,
) -> Result<(), (PartName, PartFault)>
    requires some { 0 < length parts.now }
    requires table { IsTableSchema found.old.wanted.schema.now }
    requires marks { HasMarks found.old.wanted.schema.now }
    requires found { IsFound found.old }
    requires chosen { length chosen.now ≡ length parts.now }

    // What is found.
    ensures values { (partition : Partition) (rows : List (List Row))
        → PartsHold R.Dir.files found.old.wanted.schema.now parts.now rows
        → All (ArePartRows found.old.wanted.schema.now partition) rows
        → SkipNoFold found.old.wanted chosen.now rows
        → OnOk result (AddsFold found.old.wanted (joined_rows rows) found.old found.new) }
    ensures gets { OnOk result (GetsSome GetsMatches found.old found.new) }

    // What a fault says.
    ensures damaged { IfErr result
        (ExplainsFold R.Dir.files parts.now chosen.now found.old.wanted) }

    // What the arm is then, and its count of faults.
    ensures arm { LeavesArm R.Arm arm.old arm.new (IsErrAnd result (λ e. e.1 ≡ PartFault.Fault)) }
{
    let schema = found.wanted.schema;
    merge_chosen(alloc, arm, schema, parts, chosen, found)
}
