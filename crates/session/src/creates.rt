// Running a CREATE of a session.
ghost use Rattle.std.specs.Prelude.{◌≡◌, ◌<◌, Ok, true};
ghost use Rattle.mt_values.specs.declared.statement.Statement.TheVariants as statement;
ghost use Rattle.replies.specs.mt_model.Written.{IsCreateText};
ghost use Rattle.merge_workers.specs.shared_store.history_seat.Turns.{IsSession};
ghost use Rattle.merge_workers.specs.shared_store.Stood.{is_told};
ghost use Rattle.session.specs.Lapses.{Never};
ghost use Rattle.session.specs.Answers.{AccountsAt, AnswersAt, KnowsOwn, StaysSession, StaysStopped, TriesAt, having};

use crate::staging::seal_entry;
use crate::stopped::refused_line;
use merge_workers::give_back;
use merge_workers::shared_store::history_seat::Seat;
use merge_workers::shared_store::root_commits::Returned;
use merge_workers::shared_store::{Names, Share, Shared};
use mt_base::{NoMemory, Stop, Twin};
use mt_outside::{Arm, Dir, Disk};
use mt_values::{Annals, Create, CreateText};
use replies::mt_model::resolve;
use replies::{Reply, replies_after, stage_line};
use std::alloc::Global;
use std::sync::Wait;

/// How many of its commands are accepted before the one that it runs: a CREATE has one.
const ACCEPTED_BEFORE: usize = 0;

/// Makes a table, unless the CREATE is refused. All memory is taken before the commit.
///
/// `NoMemory` where an allocation failed; no entry of the session was added, and the arm's count of faults is as it was.
#[tactic(auto, using(crate::proofs::Answering::answers_none, crate::proofs::Answering::accounts_none_at, crate::proofs::Answering::stays_here, crate::proofs::OnceStopped::stopped_none, crate::proofs::Tries::tries_here))]
pub fn create<W: Wait, F: Dir, R: Arm<Dir = F>, D: Disk<Arm = R>, A: Annals, B: Names>(
    rt: &W,
    alloc: Global,
    shared: &Shared<F, R, D, A, B>,
    seat: &mut Seat<B>,
    share: &mut Share<B>,
    arm: &mut R,
    text: &CreateText,
) -> Result<Reply, NoMemory>
    requires text { IsCreateText text.now }
    requires session { IsSession seat.old }
    requires own { KnowsOwn seat.old }
    requires parts { 0 < share.old.parts }
    requires tells { B.given is_told → R.tells arm.old ≡ true }

    // What is answered, and why.
    ensures answers { AnswersAt B.given B.before B.opening B.ledgers.parts
        (Ok (statement.Create text.now)) (having seat.old share.old (R.failed arm.old))
        (having seat.new share.new (R.failed arm.new)) result }
    ensures accounts { AccountsAt B.opening B.ledgers.parts
        (having seat.old share.old (R.failed arm.old))
        (having seat.new share.new (R.failed arm.new)) Never result }

    // What the session has then.
    ensures stays { StaysSession B.opening B.ledgers.parts
        (having seat.old share.old (R.failed arm.old))
        (having seat.new share.new (R.failed arm.new)) }
    ensures stopped { StaysStopped (having seat.old share.old (R.failed arm.old))
        (having seat.new share.new (R.failed arm.new)) result }
    ensures tries { TriesAt B.given B.before (Ok (statement.Create text.now))
        (having seat.old share.old (R.failed arm.old))
        (having seat.new share.new (R.failed arm.new)) result }
    ensures tells { R.tells arm.new ≡ R.tells arm.old }
{
    let schema = match resolve(alloc, text) {
        Ok(schema) => schema,
        Err(Stop::Refused(refusal)) => return Reply::refused(alloc, &refusal),
        Err(Stop::NoMemory) => return Err(NoMemory),
    };
    let replies = replies_after(alloc, ACCEPTED_BEFORE)?;
    let table = text.table.twin(alloc)?;
    let sealed = match seal_entry(alloc, arm, text.text.as_slice()) {
        Ok(sealed) => sealed,
        Err(error) => return stage_line(error, replies.failed),
    };
    match shared.create(rt, alloc, seat, share, Create { table, schema }, sealed) {
        Ok(length) => Ok(replies.accepted.fill(length)),
        Err(Returned { cause, back }) => {
            give_back(arm, back);
            let unsettled = replies.unsettled;
            refused_line(alloc, ACCEPTED_BEFORE, &text.table, cause, unsettled)
        }
    }
}
