// The turns of an INSERT of a session: one for each of its parts.
ghost use Rattle.std.specs.Prelude.{◌≡◌, ◌+◌, ◌<◌, ◌++◌, ℕ, Ok, Some};
ghost use Rattle.mt_values.specs.declared.schema.Schema.{Schema};
ghost use Rattle.mt_values.specs.declared.statement.InsertText.{InsertText};
ghost use Rattle.mt_values.specs.declared.statement.Statement.TheVariants as statement;
ghost use Rattle.mt_outside.specs.Leaves.{LeavesArm};
ghost use Rattle.replies.specs.mt_model.Commands.{commands_of};
ghost use Rattle.replies.specs.mt_model.Reply.{ok_line};
ghost use Rattle.replies.specs.mt_model.Session.{AddsNothing};
ghost use Rattle.merge_workers.specs.shared_store.history_seat.Turns.{IsSession};
ghost use Rattle.merge_workers.specs.shared_store.Handed.{MayEnter};
ghost use Rattle.merge_workers.specs.shared_store.Sharing.{schema_there};
ghost use Rattle.merge_workers.specs.shared_store.Stood.{is_listed, is_told};
ghost use Rattle.session.specs.Lapses.{Never};
ghost use Rattle.session.specs.Answers.{AccountsAt, AnswersFrom, KnowsOwn, MayHaveTurnsAt, StaysSession, StaysStopped, TriesCommand, TriesFrom, TurnAt, having, place_of};
ghost use Rattle.session.specs.Turns.{NoneFailed, commands_in_turn, part_command, replied};

use crate::sealing::{SealedBlock, give_back_parts};
use crate::stopped::refused_line;
use merge_workers::give_back_part;
use merge_workers::shared_store::history_seat::Seat;
use merge_workers::shared_store::root_commits::Returned;
use merge_workers::shared_store::{Names, Share, Shared};
use mt_base::NoMemory;
use mt_outside::{Arm, Dir, Disk};
use mt_values::{Annals, Name};
use replies::{Reply, replies_after};
use std::alloc::Global;
use std::sync::Wait;

/// What the turn of a part is answered.
#[derive(Drop)]
pub enum TurnReply {
    /// It was added.
    Accepted(Reply),
    /// It was not, and no turn of its statement comes after.
    Refused(Reply),
}

/// Adds a part to its table, after so many others of its statement. All memory is taken before the commit. A part that is not given
/// to the disk goes back to the arm.
///
/// `NoMemory` where an allocation failed; no entry of the session was added, and the arm's count of faults is as it was.
fn commit_block<W: Wait, F: Dir, R: Arm<Dir = F>, D: Disk<Arm = R>, A: Annals, B: Names>(
    rt: &W,
    alloc: Global,
    shared: &Shared<F, R, D, A, B>,
    seat: &mut Seat<B>,
    share: &mut Share<B>,
    arm: &mut R,
    table: &Name,
    accepted: usize,
    sealed: SealedBlock<R::Stage>,
) -> Result<TurnReply, NoMemory>
    requires session { IsSession seat.old }
    requires own { KnowsOwn seat.old }
    requires parts { 0 < share.old.parts }
    requires may { MayEnter B.given B.opening.tables seat.old.list table.now sealed.block
        sealed.part.sealed sealed.part.loaded }
    requires none_failed { NoneFailed sealed }

    // What is answered, and why.
    ensures turn { (schema : Schema)
        → schema_there B.opening.tables seat.old.list table.now ≡ Some schema
        → TurnAt B.given B.before B.opening B.ledgers.parts
        (part_command schema table.now sealed) accepted
        (having seat.old share.old (R.failed arm.old))
        (having seat.new share.new (R.failed arm.new)) result }
    ensures accounts { AccountsAt B.opening B.ledgers.parts
        (having seat.old share.old (R.failed arm.old))
        (having seat.new share.new (R.failed arm.new)) Never (replied result) }

    // What the session has then.
    ensures stays { StaysSession B.opening B.ledgers.parts
        (having seat.old share.old (R.failed arm.old))
        (having seat.new share.new (R.failed arm.new)) }
    ensures stopped { StaysStopped (having seat.old share.old (R.failed arm.old))
        (having seat.new share.new (R.failed arm.new)) (replied result) }
    ensures tries { (schema : Schema)
        → schema_there B.opening.tables seat.old.list table.now ≡ Some schema
        → TriesCommand (part_command schema table.now sealed)
        (having seat.old share.old (R.failed arm.old))
        (having seat.new share.new (R.failed arm.new)) (replied result) }
    ensures arm { LeavesArm R.Arm arm.old arm.new ⊥ }
{
    let SealedBlock { part, block } = sealed;
    let replies = match replies_after(alloc, accepted) {
        Ok(replies) => replies,
        Err(NoMemory) => {
            give_back_part(arm, Some(part));
            return Err(NoMemory);
        }
    };
    match shared.insert(rt, alloc, seat, share, table, part, block) {
        Ok(length) => Ok(TurnReply::Accepted(replies.accepted.fill(length))),
        Err(Returned { cause, back }) => {
            give_back_part(arm, back);
            let reply = refused_line(alloc, accepted, table, cause, replies.unsettled)?;
            Ok(TurnReply::Refused(reply))
        }
    }
}

/// Adds the parts of an INSERT to its table, each in a turn of its own, until one is refused. `unchanged` is the reply where there is
/// no part. What was accepted before a turn that is refused stands. The parts that had no turn go back to the arm.
///
/// `NoMemory` where an allocation failed; what was accepted before stands, and the arm's count of faults is as it was.
pub fn commit_parts<W: Wait, F: Dir, R: Arm<Dir = F>, D: Disk<Arm = R>, A: Annals, B: Names>(
    rt: &W,
    alloc: Global,
    shared: &Shared<F, R, D, A, B>,
    seat: &mut Seat<B>,
    share: &mut Share<B>,
    arm: &mut R,
    table: &Name,
    mut parts: Vec<SealedBlock<R::Stage>>,
    unchanged: Reply,
) -> Result<Reply, NoMemory>
    requires session { IsSession seat.old }
    requires own { KnowsOwn seat.old }
    requires parts { 0 < share.old.parts }
    requires ready { MayHaveTurnsAt B.given B.opening.tables seat.old.list table.now parts.items }
    requires unchanged { unchanged ≡ ok_line (place_of B.before seat.old) }

    // What is answered, and why.
    ensures answers { (schema : Schema) (text : InsertText) (from : ℕ)
        → schema_there B.opening.tables seat.old.list table.now ≡ Some schema
        → commands_of (B.before ++ seat.old.list) (statement.Insert text)
        ≡ Ok (commands_in_turn schema table.now parts.items)
        → AddsNothing (B.before ++ seat.old.list) seat.old.number from (place_of B.before seat.old)
        → AnswersFrom B.given B.before B.opening B.ledgers.parts (Ok (statement.Insert text))
        seat.old.number from (having seat.new share.new (R.failed arm.new)) result }
    ensures accounts { AccountsAt B.opening B.ledgers.parts
        (having seat.old share.old (R.failed arm.old))
        (having seat.new share.new (R.failed arm.new)) Never result }

    // What the session has then.
    ensures stays { StaysSession B.opening B.ledgers.parts
        (having seat.old share.old (R.failed arm.old))
        (having seat.new share.new (R.failed arm.new)) }
    ensures stopped { StaysStopped (having seat.old share.old (R.failed arm.old))
        (having seat.new share.new (R.failed arm.new)) result }
    ensures tries { (schema : Schema) (text : InsertText) (from : ℕ)
        → schema_there B.opening.tables seat.old.list table.now ≡ Some schema
        → (B.given is_told → B.given is_listed
        → commands_of (B.before ++ seat.old.list) (statement.Insert text)
        ≡ Ok (commands_in_turn schema table.now parts.items))
        → AddsNothing (B.before ++ seat.old.list) seat.old.number from (place_of B.before seat.old)
        → TriesFrom B.given B.before (Ok (statement.Insert text)) from
        (having seat.old share.old (R.failed arm.old))
        (having seat.new share.new (R.failed arm.new)) result }
    ensures arm { LeavesArm R.Arm arm.old arm.new ⊥ }
{
    let mut reply = unchanged;
    let mut accepted = 0;
    'turns: while let Some(sealed) = parts.pop() {
        match commit_block(rt, alloc, shared, seat, share, arm, table, accepted, sealed) {
            Ok(TurnReply::Accepted(line)) => reply = line,
            Ok(TurnReply::Refused(line)) => {
                give_back_parts(arm, parts);
                return Ok(line);
            }
            Err(NoMemory) => {
                give_back_parts(arm, parts);
                return Err(NoMemory);
            }
        }
        accepted += 1;
    }
    parts.destroy_empty();
    Ok(reply)
}
