// What a SELECT sees of a pinned table's parts: without FINAL the rows as merges left them, with FINAL each key folded wholly.
ghost use Rattle.std.specs.Prelude.{◌≡◌, ◌<◌, ◌^◌, IfErr, IfOk, IsErrAnd};
ghost use Rattle.mt_outside.specs.Leaves.{LeavesArm};
ghost use Rattle.final_fold.specs.Scans.{HaveTypes, rows_kept};
ghost use Rattle.session.specs.Selects.{AddsSeen, IsPlanFor, IsWantedOf, SaysRead};

use final_fold::select_plan::Plan;
use final_fold::{Wanted, add_matches, final_rows};
use merge_workers::shared_store::part_name::PartName;
use merge_workers::shared_store::part_reader::{Part, PartFault};
use merge_workers::shared_store::part_set::Snap;
use mt_outside::Arm;
use mt_values::ColumnData;
use std::alloc::Global;

/// Adds what a SELECT sees of a pinned table's parts, and meets its condition, to columns that are empty before: of each row the values
/// at the wanted places. The granules that its plan chooses have each of these rows. Returns how many rows were added.
///
/// The name of the part of which a column could not be read, and why: `Damaged` where its bytes in some chosen granules are damaged,
/// never where the parts hold rows of the table; `Fault` only where the arm's count rose in this call; `NoMemory` where an allocation
/// failed, or 32 bits can't count the rows. After an error some of the values may have been added.
pub fn add_seen<R: Arm>(
    alloc: Global,
    arm: &mut R,
    snap: &Snap<Part<R::Dir>>,
    plan: &Plan,
    wanted: &Wanted,
    is_final: bool,
    columns: &mut [ColumnData],
) -> Result<usize, (PartName, PartFault)>
    requires wanted { IsWantedOf snap.now wanted.now }
    requires plan { IsPlanFor plan.now snap.now is_final wanted.now }
    requires columns { HaveTypes wanted.now.schema.now wanted.now.places.now columns.old }
    requires few { rows_kept snap.now.parts.items < 2 ^ 32 }
    ensures seen { IfOk result (AddsSeen R.Dir.files snap.now is_final wanted.now columns.old
        columns.new) }
    ensures fault { IfErr result (SaysRead R.Dir.files snap.now is_final wanted.now) }
    ensures arm { LeavesArm R.Arm arm.old arm.new (IsErrAnd result (λ e. e.1 ≡ PartFault.Fault)) }
{
    let parts = snap.parts.as_slice();
    let chosen = plan.parts.as_slice();
    if is_final {
        return final_rows(alloc, arm, parts, chosen, wanted, columns);
    }
    add_matches(alloc, arm, parts, chosen, wanted, columns)
}
