// Running a SELECT of a session: a table is pinned in one turn, and its parts are read outside of it.
ghost use Rattle.std.specs.Prelude.{◌++◌, ◌<◌, ◌^◌, ◌≡◌, IfOk, Ok, ℕ};
ghost use Rattle.replies.specs.mt_model.History.{History, IsTableSchema};
ghost use Rattle.replies.specs.mt_model.Queries.{query_of};
ghost use Rattle.final_fold.specs.Scans.{rows_kept};
ghost use Rattle.merge_workers.specs.shared_store.root_store.declared.store.CoreStore.{CoreStore};
ghost use Rattle.merge_workers.specs.shared_store.root_store.Stores.{CoreStands};
ghost use Rattle.merge_workers.specs.shared_store.Engines.{IsSnapOf};
ghost use Rattle.merge_workers.specs.shared_store.history_seat.Turns.{IsSession, Looked};
ghost use Rattle.merge_workers.specs.shared_store.Stood.{is_listed, is_told};
ghost use Rattle.session.specs.Lapses.{Accounts, still};
ghost use Rattle.session.specs.Selects.{SelectsFrom, TellsOfDamage};
ghost use Rattle.session.specs.Answers.{KnowsOwn, SelectsAt, TellsOfPinned, place_of};

use crate::seen::add_seen;
use final_fold::select_plan::plan;
use final_fold::{Wanted, count_rows, pick_columns};
use merge_workers::shared_store::history_seat::Seat;
use merge_workers::shared_store::part_reader::{Part, PartFault, empty_columns};
use merge_workers::shared_store::part_set::Snap;
use merge_workers::shared_store::{Names, Shared};
use mt_base::{NoMemory, Stop};
use mt_outside::{Arm, Dir, Disk, DiskError, Gate, Point, Who};
use mt_values::{Annals, SelectText};
use replies::mt_model::{Query, query_of};
use replies::{Reply, damaged, failed_line, no_table_line, print, stage_line};
use std::alloc::Global;
use std::sync::Wait;

/// What a SELECT sees of a pinned table and meets its condition, of its columns. Of each part its plan chooses granules, which have each
/// row of the part that is seen.
///
/// `NoMemory` where an allocation failed; the arm's count stays.
fn read_matches<R: Arm>(
    alloc: Global,
    snap: &Snap<Part<R::Dir>>,
    arm: &mut R,
    text: &SelectText,
    query: &Query,
) -> Result<Reply, NoMemory>
    requires table { IsTableSchema snap.now.schema }
    requires query { query_of snap.now.schema.columns text.now ≡ Ok query.now }
    requires few { rows_kept snap.now.parts.items < 2 ^ 32 }

    // What is answered, and why.
    ensures answers { (h : History) (store : CoreStore R.Dir) → CoreStands R.Dir.files h store
        → IsSnapOf store text.now.table snap.now
        → IfOk result (SelectsFrom R.Dir.files store h text.now (R.failed arm.new)) }
    ensures accounts { (opened disk : ℕ)
        → Accounts (still opened disk (R.failed arm.old) (R.failed arm.new))
        (TellsOfDamage R.Dir.files snap.now text.now) result }
    ensures tells { R.tells arm.new ≡ R.tells arm.old }
{
    let planned = plan(alloc, snap, query, text.is_final)?;
    let own = query.condition.conjuncts(alloc)?;
    let picked = pick_columns(alloc, snap.schema.columns.len(), query.places.as_slice())?;
    let conjuncts = own.as_slice();
    let wanted = Wanted {
        schema: &snap.schema,
        condition: &query.condition,
        conjuncts,
        places: picked.read.as_slice(),
    };
    let mut columns = empty_columns(alloc, &snap.schema, wanted.places)?;
    let failed = failed_line(alloc)?;
    let is_final = text.is_final;
    match add_seen(alloc, arm, snap, &planned, &wanted, is_final, &mut columns) {
        Ok(rows) => print(alloc, snap.length, columns, rows, picked.shown.as_slice()),
        Err((_, PartFault::NoMemory)) => Err(NoMemory),
        Err((_, PartFault::Fault)) => stage_line(DiskError::Fault, failed),
        Err((part, PartFault::Damaged { file, .. })) => damaged(alloc, &text.table, &part, file),
    }
}

/// The rows of a pinned table that meet the condition, of the selected columns, sorted by these from left to right, unless the SELECT
/// is refused. It takes no turn.
///
/// `NoMemory` where an allocation failed; the arm's count stays.
pub fn scan<R: Arm>(
    alloc: Global,
    snap: &Snap<Part<R::Dir>>,
    arm: &mut R,
    text: &SelectText,
) -> Result<Reply, NoMemory>
    requires { IsTableSchema snap.now.schema }

    ensures answers { (h : History) (store : CoreStore R.Dir) → CoreStands R.Dir.files h store
        → IsSnapOf store text.now.table snap.now
        → IfOk result (SelectsFrom R.Dir.files store h text.now (R.failed arm.new)) }
    ensures accounts { (opened disk : ℕ)
        → Accounts (still opened disk (R.failed arm.old) (R.failed arm.new))
        (TellsOfDamage R.Dir.files snap.now text.now) result }
    ensures tells { R.tells arm.new ≡ R.tells arm.old }
{
    let query = match query_of(alloc, snap.schema.columns.as_slice(), text) {
        Ok(query) => query,
        Err(Stop::Refused(refusal)) => return Reply::refused(alloc, &refusal),
        Err(Stop::NoMemory) => return Err(NoMemory),
    };
    // The rows that are read have places of 32 bits.
    if count_rows(snap.parts.as_slice()).is_none() {
        return Err(NoMemory);
    }
    read_matches(alloc, snap, arm, text, &query)
}

/// The rows that meet the condition, of a table as it is at one turn, unless the SELECT is refused.
///
/// `NoMemory` where an allocation failed. The session only looked in each case.
pub fn select<W: Wait, F: Dir, R: Arm<Dir = F>, D: Disk<Arm = R>, A: Annals, B: Names, G: Gate>(
    rt: &W,
    alloc: Global,
    shared: &Shared<F, R, D, A, B>,
    seat: &mut Seat<B>,
    arm: &mut R,
    gate: &mut G,
    text: &SelectText,
) -> Result<Reply, NoMemory>
    requires session { IsSession seat.old }
    requires own { KnowsOwn seat.old }

    // What is answered, and why.
    ensures answers { B.given is_told → B.given is_listed → IfOk result
        (SelectsAt F.files (B.before ++ seat.new.list) seat.old.number
        (place_of B.before seat.old) (place_of B.before seat.new) text.now (R.failed arm.new)) }
    ensures accounts { (opened disk : ℕ)
        → Accounts (still opened disk (R.failed arm.old) (R.failed arm.new))
        (TellsOfPinned F.files B.given B.before B.opening seat.new.list text.now) result }

    // What the seat and the arm know then.
    ensures looked { Looked seat.old seat.new.list seat.new }
    ensures tells { R.tells arm.new ≡ R.tells arm.old }
{
    let Some(snap) = shared.snapshot(rt, alloc, seat, &text.table)? else {
        return no_table_line(alloc, &text.table);
    };
    gate.pass(Who::Session(seat.number()), Point::ScanStart);
    let reply = scan(alloc, &snap, arm, text);
    shared.give_back(rt, snap);
    reply
}
