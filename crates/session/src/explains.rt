// Running an EXPLAIN of a session: a table is pinned in one turn, and what the plan of a SELECT chooses of its parts is counted outside of it. No file is read.
ghost use Rattle.std.specs.Prelude.{◌++◌, ◌⊎◌, IfOk, ℕ};
ghost use Rattle.replies.specs.mt_model.History.{History, IsTableSchema};
ghost use Rattle.replies.specs.Foreseen.{Explained};
ghost use Rattle.merge_workers.specs.shared_store.root_store.declared.store.CoreStore.{CoreStore};
ghost use Rattle.merge_workers.specs.shared_store.root_store.Stores.{CoreStands};
ghost use Rattle.merge_workers.specs.shared_store.Engines.{IsSnapOf};
ghost use Rattle.merge_workers.specs.shared_store.history_seat.Turns.{IsSession, Looked};
ghost use Rattle.merge_workers.specs.shared_store.Stood.{is_listed, is_told};
ghost use Rattle.session.specs.Lapses.{Accounts, Never, still};
ghost use Rattle.session.specs.Merges.{IsRefusal};
ghost use Rattle.session.specs.Selects.{CountsPlan};
ghost use Rattle.session.specs.Answers.{CountsPinned, ExplainsAt, KnowsOwn, place_of};

use final_fold::select_plan::plan;
use merge_workers::shared_store::history_seat::Seat;
use merge_workers::shared_store::part_reader::Part;
use merge_workers::shared_store::part_set::Snap;
use merge_workers::shared_store::{Names, Shared};
use mt_base::{NoMemory, Stop};
use mt_outside::{Arm, Dir, Disk};
use mt_values::{Annals, SelectText};
use replies::mt_model::query_of;
use replies::{Reply, explained, no_table_line};
use std::alloc::Global;
use std::sync::Wait;

/// How many parts and granules of a pinned table the plan of a SELECT chooses, unless it is refused. It takes no turn.
///
/// `NoMemory` where an allocation failed, or 64 bits can't count the granules.
pub fn count_reads<F: Dir>(
    alloc: Global,
    snap: &Snap<Part<F>>,
    text: &SelectText,
) -> Result<Reply, NoMemory>
    requires { IsTableSchema snap.now.schema }
    ensures answers { (h : History) (store : CoreStore F) → CoreStands F.files h store
        → IsSnapOf store text.now.table snap.now → IfOk result (Explained h text.now) }
    ensures counts { IfOk result
        (λ reply. IsRefusal reply ⊎ CountsPlan snap.now text.now reply) }
    ensures accounts { (opened disk arm : ℕ) → Accounts (still opened disk arm arm) Never result }
{
    let query = match query_of(alloc, snap.schema.columns.as_slice(), text) {
        Ok(query) => query,
        Err(Stop::Refused(refusal)) => return Reply::refused(alloc, &refusal),
        Err(Stop::NoMemory) => return Err(NoMemory),
    };
    let planned = plan(alloc, snap, &query, text.is_final)?;
    let Some(counts) = planned.counts() else {
        return Err(NoMemory);
    };
    explained(alloc, &counts, snap.length)
}

/// How many parts and granules of a table, as it is at one turn, the plan of a SELECT chooses, unless it is refused.
///
/// `NoMemory` where an allocation failed. The session only looked in each case.
pub fn explain<W: Wait, F: Dir, R: Arm<Dir = F>, D: Disk<Arm = R>, A: Annals, B: Names>(
    rt: &W,
    alloc: Global,
    shared: &Shared<F, R, D, A, B>,
    seat: &mut Seat<B>,
    text: &SelectText,
) -> Result<Reply, NoMemory>
    requires session { IsSession seat.old }
    requires own { KnowsOwn seat.old }

    // What is answered, and why.
    ensures answers { B.given is_told → B.given is_listed → IfOk result
        (ExplainsAt (B.before ++ seat.new.list) seat.old.number (place_of B.before seat.old)
        (place_of B.before seat.new) text.now) }
    ensures counts { IfOk result
        (CountsPinned F.files B.given B.before B.opening seat.new.list text.now) }
    ensures accounts { (opened disk arm : ℕ) → Accounts (still opened disk arm arm) Never result }

    // What the seat knows then.
    ensures looked { Looked seat.old seat.new.list seat.new }
{
    let Some(snap) = shared.snapshot(rt, alloc, seat, &text.table)? else {
        return no_table_line(alloc, &text.table);
    };
    let reply = count_reads(alloc, &snap, text);
    shared.give_back(rt, snap);
    reply
}
