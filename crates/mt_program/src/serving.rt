// Answering the statements of a script, one after another, as a session of a shared root.
ghost use Rattle.std.specs.Prelude.{◌≡◌, ◌<◌, ◌≤◌, IfOk, IfSome, drop, length, true};
ghost use Rattle.std.specs.Option.{option_map};
ghost use Rattle.mt_values.specs.Script.{next_statement};
ghost use Rattle.mt_outside.specs.Causes.{Rose};
ghost use Rattle.session.specs.shared_store.history_seat.Turns.{IsSession};
ghost use Rattle.session.specs.shared_store.Stood.{is_told};
ghost use Rattle.session.specs.Answers.{KnowsOwn, having};
ghost use Rattle.mt_program.specs.SeatServing.{SeatServes};
ghost use Rattle.mt_program.specs.Serving.{Output};

use mt_base::NoMemory;
use mt_outside::{Arm, Dir, Disk, Gate, Point, Sink, Who};
use mt_values::{Annals, Cause, Statement};
use root_log::sql_read::{Next, next_statement};
use session::replies::{Tally, write_reply};
use session::run_statement;
use session::shared_store::history_seat::Seat;
use session::shared_store::{Names, Share, Shared};
use std::alloc::Global;
use std::sync::Wait;

/// How a script ended.
#[derive(Clone, Copy)]
pub enum Ending {
    /// All statements were answered. What the replies said.
    Done(Tally),
    NoMemory,
    /// The sink failed.
    WriteFault,
}

/// The next statement of a whole script, or why its text is refused, and the bytes that it takes; none at the script's end.
///
/// `NoMemory` where the statement found no room.
fn read_next(
    alloc: Global,
    script: &[u8],
) -> Result<Option<(Result<Statement, Cause>, usize)>, NoMemory>
    ensures found { IfOk result (λ found. next_statement script.now ≡ option_map
        (λ f. (f.0, drop f.1 script.now)) found) }
    ensures used { IfOk result (λ found. IfSome found
        (λ f. (0 < f.1) × (f.1 ≤ length script.now))) }
{
    match next_statement(alloc, script, true) {
        Next::Found(statement, used) => Ok(Some((Ok(statement), used))),
        Next::Refused(cause, used) => Ok(Some((Err(cause), used))),
        Next::End => Ok(None),
        Next::NeedMore => unreachable!(),
        Next::NoMemory => Err(NoMemory),
    }
}

/// Answers the statements of a script in order, each reply written whole before the next statement runs.
pub fn serve_session<
    W: Wait,
    F: Dir,
    R: Arm<Dir = F>,
    D: Disk<Arm = R>,
    A: Annals,
    B: Names,
    K: Sink,
    G: Gate,
>(
    rt: &W,
    alloc: Global,
    shared: &Shared<F, R, D, A, B>,
    seat: &mut Seat<B>,
    share: &mut Share<B>,
    arm: &mut R,
    sink: &mut K,
    gate: &mut G,
    script: &[u8],
) -> Ending
    requires session { IsSession seat.old }
    requires own { KnowsOwn seat.old }
    requires parts { 0 < share.old.parts }
    requires out { share.old.out ≡ 0 }
    requires tells { B.given is_told → R.tells arm.old ≡ true }

    // What is answered and written.
    ensures run { let output : Output = record {
      before = K.written sink.old;
      after = K.written sink.new;
    } in
        SeatServes F.files B.given B.before B.opening B.ledgers.parts result script.now
        (having seat.old share.old (R.failed arm.old))
        (having seat.new share.new (R.failed arm.new)) output }

    // What the counts of faults are.
    ensures sink_later { K.failed sink.old ≤ K.failed sink.new }
    ensures write_fault { result ≡ Ending.WriteFault
        → Rose (K.failed sink.old) (K.failed sink.new) }
{
    let who = Who::Session(seat.number());
    let mut at = 0;
    let mut tally = Tally::none();
    'statements: while at < script.len() {
        let (statement, used) = match read_next(alloc, &script[at..]) {
            Ok(Some(found)) => found,
            Ok(None) => return Ending::Done(tally),
            Err(_) => return Ending::NoMemory,
        };
        gate.pass(who, Point::StatementStart);
        let reply = match run_statement(rt, alloc, shared, seat, share, arm, gate, statement) {
            Ok(reply) => reply,
            Err(_) => return Ending::NoMemory,
        };
        gate.pass(who, Point::Answered);
        tally = match write_reply(sink, tally, &reply) {
            Ok(told) => told,
            Err(_) => return Ending::WriteFault,
        };
        at += used;
    }
    Ending::Done(tally)
}
