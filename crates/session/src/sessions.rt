// Running the statements of a session, one after another.
ghost use Rattle.std.specs.Prelude.{◌≡◌, ◌<◌, true, All};
ghost use Rattle.replies.specs.mt_model.Written.{IsWritten};
ghost use Rattle.merge_workers.specs.shared_store.history_seat.Turns.{IsSession};
ghost use Rattle.merge_workers.specs.shared_store.Stood.{is_told};
ghost use Rattle.session.specs.Runs.{RunsSession};
ghost use Rattle.session.specs.Answers.{KnowsOwn, having};

use crate::statements::run_statement;
use merge_workers::shared_store::history_seat::Seat;
use merge_workers::shared_store::{Names, Share, Shared};
use mt_base::NoMemory;
use mt_outside::{Arm, Dir, Disk, Gate, Point, Who};
use mt_values::{Annals, Cause, Statement};
use replies::Reply;
use std::alloc::Global;
use std::sync::Wait;

/// What the statements of a session came to: the replies of those that were answered, and whether memory ran out, after which none
/// was run.
#[derive(Drop)]
pub struct Replies {
    pub replies: Vec<Reply>,
    pub no_memory: bool,
}

/// Runs the statements of a session in order, or answers the texts that are none, until memory runs out. The session's share has no
/// work out before and after.
pub fn run_session<
    W: Wait,
    F: Dir,
    R: Arm<Dir = F>,
    D: Disk<Arm = R>,
    A: Annals,
    B: Names,
    G: Gate,
>(
    rt: &W,
    alloc: Global,
    shared: &Shared<F, R, D, A, B>,
    seat: &mut Seat<B>,
    share: &mut Share<B>,
    arm: &mut R,
    gate: &mut G,
    mut statements: Vec<Result<Statement, Cause>>,
) -> Replies
    requires written { All IsWritten statements.items }
    requires session { IsSession seat.old }
    requires own { KnowsOwn seat.old }
    requires parts { 0 < share.old.parts }
    requires out { share.old.out ≡ 0 }
    requires tells { B.given is_told → R.tells arm.old ≡ true }

    // What they come to.
    ensures runs { RunsSession F.files B.given B.before B.opening B.ledgers.parts statements.items
        result.replies.items result.no_memory (having seat.old share.old (R.failed arm.old))
        (having seat.new share.new (R.failed arm.new)) }
    ensures tells { R.tells arm.new ≡ R.tells arm.old }
{
    let who = Who::Session(seat.number());
    let Ok(mut replies) = Vec::with_capacity(alloc, statements.len()) else {
        let replies = Vec::new(alloc);
        let no_memory = true;
        return Replies { replies, no_memory };
    };
    statements.reverse();
    'statements: while let Some(statement) = statements.pop() {
        gate.pass(who, Point::StatementStart);
        match run_statement(rt, alloc, shared, seat, share, arm, gate, statement) {
            Ok(reply) => replies.push_reserved(reply),
            Err(NoMemory) => {
                let no_memory = true;
                return Replies { replies, no_memory };
            }
        }
        gate.pass(who, Point::Answered);
    }
    let no_memory = false;
    Replies { replies, no_memory }
}
