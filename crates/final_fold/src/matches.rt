// The rows of a table's parts that meet a condition.
ghost use Rattle.std.specs.Prelude.{◌≡◌, ◌≤◌, [], All, IfErr, IfOk, IsErrAnd, List, OnOk, length, map};
ghost use Rattle.mt_outside.specs.Leaves.{LeavesArm};
ghost use Rattle.mt_values.specs.Grid.{Cells};
ghost use Rattle.mt_values.specs.Values.{Row};
ghost use Rattle.final_fold.specs.Asked.{IsWanted};
ghost use Rattle.final_fold.specs.Matches.{ExplainsMatches, HoldEachMatch, MeetWhereUnasked, asked_of, matching};
ghost use Rattle.row_merge.specs.MergedParts.{PartsHold};
ghost use Rattle.final_fold.specs.Scans.{HaveTypes, joined_rows, rows_kept, values_at};

use crate::adding::add_part;
use crate::asking::{Task, Wanted, make_plan};
use mt_base::Seq;
use mt_outside::Arm;
use mt_values::ColumnData;
use row_merge::part_reader::{Part, PartFault};
use row_merge::part_set::Kept;
use row_merge::part_set::part_name::PartName;
use select_plan::ask;
use std::alloc::Global;

/// Adds the rows of a table's parts that meet a condition to columns, part by part: of each the values at the wanted places. The chosen
/// granules of a part have each of its rows that meets the condition. First the columns of the conjuncts that are asked somewhere in
/// these are read, and then the others in the granules that have a row which meets the condition. In the chosen granules in which a
/// conjunct is not asked, since by the marks it can't be false there, each row is taken to meet it. In which it is asked is found part by
/// part, and kept for one part at a time. Returns how many rows were added.
///
/// The name of the part of which a column could not be read, and why: `Damaged` where its bytes in some chosen granules are damaged,
/// never where the parts hold rows of the table, and it is said of each of their granules whether it is chosen; `Fault` only where the
/// arm's count rose in this call; `NoMemory` where an allocation failed, or 32 bits can't count the chosen rows of a part. After an
/// error some of the values may have been added.
pub fn add_matches<R: Arm>(
    alloc: Global,
    arm: &mut R,
    parts: &[Kept<Part<R::Dir>>],
    chosen: &[Seq<bool>],
    wanted: &Wanted,
    columns: &mut [ColumnData],
) -> Result<usize, (PartName, PartFault)>
    requires wanted { IsWanted wanted.now }
    requires columns { HaveTypes wanted.now.schema.now wanted.now.places.now columns.old }
    requires chosen { length chosen.now ≡ length parts.now }

    // What the columns get.
    ensures values { (rows : List (List Row))
        → PartsHold R.Dir.files wanted.now.schema.now parts.now rows
        → HoldEachMatch wanted.now chosen.now rows
        → MeetWhereUnasked wanted.now chosen.now (asked_of wanted.now parts.now chosen.now) rows
        → map (λ (c : Cells). c.values) columns.old ≡ values_at [] wanted.now.places.now
        → OnOk result (map (λ (c : Cells). c.values) columns.new ≡ values_at
        (matching wanted.now.condition.now (joined_rows rows)) wanted.now.places.now) }
    ensures counted { (rows : List (List Row))
        → PartsHold R.Dir.files wanted.now.schema.now parts.now rows
        → HoldEachMatch wanted.now chosen.now rows
        → MeetWhereUnasked wanted.now chosen.now (asked_of wanted.now parts.now chosen.now) rows
        → IfOk result (λ count. count ≡ length
        (matching wanted.now.condition.now (joined_rows rows))) }
    ensures even { All (λ (c : Cells). length c.values ≡ 0) columns.old
        → IfOk result (λ count. All (λ (c : Cells). length c.values ≡ count) columns.new) }
    ensures types { OnOk result (map (λ (c : Cells). c.col_type) columns.new ≡ map
        (λ (c : Cells). c.col_type) columns.old) }
    ensures few { IfOk result (λ count. count ≤ rows_kept parts.now) }

    // What a fault says.
    ensures damaged { IfErr result (ExplainsMatches R.Dir.files parts.now chosen.now wanted.now) }

    // What the arm is then, and its count of faults.
    ensures arm { LeavesArm R.Arm arm.old arm.new (IsErrAnd result (λ e. e.1 ≡ PartFault.Fault)) }
{
    let mut count: usize = 0;
    for (number, kept) in parts.iter().enumerate() {
        let own = chosen[number].as_slice();
        let Ok(asked) = ask(alloc, wanted.schema, kept, wanted.conjuncts, own) else {
            return Err((kept.name, PartFault::NoMemory));
        };
        let lists = asked.as_slice();
        let Ok(plan) = make_plan(alloc, wanted, lists) else {
            return Err((kept.name, PartFault::NoMemory));
        };
        let task = Task {
            part: &kept.part,
            chosen: own,
            asked: lists,
            wanted: *wanted,
            plan: &plan,
        };
        let added = match add_part(alloc, arm, &task, columns) {
            Ok(added) => added,
            Err(fault) => return Err((kept.name, fault)),
        };
        let Some(more) = count.checked_add(added) else {
            return Err((kept.name, PartFault::NoMemory));
        };
        count = more;
    }
    Ok(count)
}
