// The rows of one part that meet a condition, added to columns granule by granule.
ghost use Rattle.std.specs.Prelude.{◌≡◌, ◌≤◌, ◌+◌, ℕ, All, IfErr, IfOk, IsErrOf, List, OnOk, length, map};
ghost use Rattle.mt_outside.specs.Leaves.{LeavesArm};
ghost use Rattle.mt_values.specs.Grid.{Cells};
ghost use Rattle.mt_values.specs.Values.{Row};
ghost use Rattle.row_merge.specs.part_reader.Parts.{PartHolds, with_columns};
ghost use Rattle.final_fold.specs.Asked.{AreSure, IsTask, met_rows};
ghost use Rattle.final_fold.specs.Matches.{ExplainsAsked};
ghost use Rattle.final_fold.specs.Scans.{HaveTypes};

use crate::asking::Task;
use crate::counts::join_counts;
use mt_outside::Arm;
use mt_values::ColumnData;
use row_merge::part_reader::{MetRows, PartFault, Query};
use std::alloc::Global;

/// How many bytes of a column are read at once, at most: so one read serves many small granules.
const AHEAD: u64 = 65536;

/// Adds the rows of a part's chosen granules that meet the condition to columns: of each the values at the wanted places. One granule of
/// the part is in memory at a time. Returns how many rows there are.
///
/// `Damaged` where a column that was read, in granules that are chosen, is damaged: never where the part holds rows of the table.
/// `Fault` only where the arm's count rose in this call; `NoMemory` where an allocation failed, or 32 bits can't count the rows.
/// After an error some of the values may have been added.
pub(crate) fn add_part<R: Arm>(
    alloc: Global,
    arm: &mut R,
    task: &Task<R::Dir>,
    columns: &mut [ColumnData],
) -> Result<usize, PartFault>
    requires task { IsTask task.now }
    requires columns { HaveTypes task.now.wanted.schema.now task.now.wanted.places.now columns.old }

    // What the columns get.
    ensures values { (rows : List Row)
        → PartHolds R.Dir.files task.now.wanted.schema.now task.now.part.now rows
        → AreSure task.now rows
        → OnOk result (columns.new ≡ with_columns (met_rows task.now rows)
        task.now.wanted.places.now columns.old) }
    ensures counted { (rows : List Row)
        → PartHolds R.Dir.files task.now.wanted.schema.now task.now.part.now rows
        → AreSure task.now rows
        → IfOk result (λ count. count ≡ length (met_rows task.now rows)) }
    ensures even { (n : ℕ) → All (λ (c : Cells). length c.values ≡ n) columns.old
        → IfOk result (λ count. All (λ (c : Cells). length c.values ≡ n + count) columns.new) }
    ensures types { OnOk result (map (λ (c : Cells). c.col_type) columns.new ≡ map
        (λ (c : Cells). c.col_type) columns.old) }
    ensures few { IfOk result (λ count. count ≤ task.now.part.now.loaded.manifest.rows) }

    // What a fault says.
    ensures damaged { IfErr result
        (ExplainsAsked R.Dir.files task.now.part.now task.now.chosen.now task.now.wanted) }

    // What the arm is then, and its count of faults.
    ensures arm { LeavesArm R.Arm arm.old arm.new (IsErrOf result PartFault.Fault) }
{
    let query = Query {
        asked: task.plan.asked.as_slice(),
        sieves: task.plan.sieves.as_slice(),
        wanted: task.wanted.places,
    };
    let schema = task.wanted.schema;
    let Ok(mut reader) = MetRows::new(alloc, schema, task.part, task.chosen, query, AHEAD) else {
        return Err(PartFault::NoMemory);
    };
    let mut count: usize = 0;
    'granules: while let Some(added) = reader.add_next(alloc, arm, columns)? {
        let Some(sum) = join_counts(count, added) else {
            return Err(PartFault::NoMemory);
        };
        count = sum;
    }
    Ok(count)
}
