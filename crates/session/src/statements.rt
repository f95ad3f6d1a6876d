// Running one statement of a session.
ghost use Rattle.std.specs.Prelude.{◌≡◌, ◌<◌, true, IfOk};
ghost use Rattle.replies.specs.mt_model.Written.{IsWritten};
ghost use Rattle.merge_workers.specs.shared_store.history_seat.Turns.{IsSession};
ghost use Rattle.merge_workers.specs.shared_store.Stood.{is_told};
ghost use Rattle.session.specs.Answers.{AccountsAt, AnswersAt, KnowsOwn, ShowsAt, StaysSession, StaysStopped, TellsAt, TriesAt, having};

use crate::creates::create;
use crate::explains::explain;
use crate::inserts::insert;
use crate::optimizes::optimize;
use crate::selects::select;
use merge_workers::shared_store::history_seat::Seat;
use merge_workers::shared_store::{Names, Share, Shared};
use mt_base::NoMemory;
use mt_outside::{Arm, Dir, Disk, Gate};
use mt_values::{Annals, Cause, Statement};
use replies::Reply;
use replies::mt_model::Refusal;
use std::alloc::Global;
use std::sync::Wait;

/// Runs one statement of a session, or answers the text that is none. The session's share has no work out before and after.
///
/// `NoMemory` where an allocation failed; the commands that were accepted before stand, and the arm's count of faults is as it was.
#[tactic(auto, using(crate::proofs::Answering::stays_here, crate::proofs::OnceStopped::stopped_none, crate::proofs::Tries::tries_here))]
pub fn run_statement<
    W: Wait,
    F: Dir,
    R: Arm<Dir = F>,
    D: Disk<Arm = R>,
    A: Annals,
    B: Names,
    G: Gate,
>(
    rt: &W,
    alloc: Global,
    shared: &Shared<F, R, D, A, B>,
    seat: &mut Seat<B>,
    share: &mut Share<B>,
    arm: &mut R,
    gate: &mut G,
    statement: Result<Statement, Cause>,
) -> Result<Reply, NoMemory>
    requires written { IsWritten statement }
    requires session { IsSession seat.old }
    requires own { KnowsOwn seat.old }
    requires parts { 0 < share.old.parts }
    requires out { share.old.out ≡ 0 }
    requires tells { B.given is_told → R.tells arm.old ≡ true }

    // What is answered, and why.
    ensures answers { AnswersAt B.given B.before B.opening B.ledgers.parts statement
        (having seat.old share.old (R.failed arm.old))
        (having seat.new share.new (R.failed arm.new)) result }
    ensures accounts { AccountsAt B.opening B.ledgers.parts
        (having seat.old share.old (R.failed arm.old))
        (having seat.new share.new (R.failed arm.new))
        (TellsAt F.files B.given B.before B.opening B.ledgers.parts seat.new.list statement)
        result }
    ensures shows { IfOk result (ShowsAt F.files B.given B.before B.opening B.ledgers.parts
        seat.new.list statement) }

    // What the session has then.
    ensures stays { StaysSession B.opening B.ledgers.parts
        (having seat.old share.old (R.failed arm.old))
        (having seat.new share.new (R.failed arm.new)) }
    ensures stopped { StaysStopped (having seat.old share.old (R.failed arm.old))
        (having seat.new share.new (R.failed arm.new)) result }
    ensures tries { TriesAt B.given B.before statement
        (having seat.old share.old (R.failed arm.old))
        (having seat.new share.new (R.failed arm.new)) result }
    ensures tells { R.tells arm.new ≡ R.tells arm.old }
{
    match statement {
        Ok(Statement::Create(text)) => create(rt, alloc, shared, seat, share, arm, &text),
        Ok(Statement::Insert(text)) => insert(rt, alloc, shared, seat, share, arm, &text),
        Ok(Statement::Select(text)) => select(rt, alloc, shared, seat, arm, gate, &text),
        Ok(Statement::Explain(text)) => explain(rt, alloc, shared, seat, &text),
        Ok(Statement::Optimize(text)) => optimize(rt, alloc, shared, seat, share, arm, &text),
        Err(cause) => Reply::refused(alloc, &Refusal::of_cause(cause)),
    }
}
