// Running an INSERT of a session.
ghost use Rattle.std.specs.Prelude.{◌≡◌, ◌<◌, Ok, true};
ghost use Rattle.mt_values.specs.declared.statement.Statement.TheVariants as statement;
ghost use Rattle.merge_workers.specs.shared_store.history_seat.Turns.{IsSession};
ghost use Rattle.merge_workers.specs.shared_store.Stood.{is_told};
ghost use Rattle.session.specs.Lapses.{Never};
ghost use Rattle.session.specs.Answers.{AccountsAt, AnswersAt, KnowsOwn, StaysSession, StaysStopped, TriesAt, having};

use crate::read_block;
use crate::sealing::seal_blocks;
use crate::turns::commit_parts;
use block_split::split_block;
use merge_workers::shared_store::history_seat::Seat;
use merge_workers::shared_store::{Names, Share, Shared};
use mt_base::{NoMemory, Stop};
use mt_outside::{Arm, Dir, Disk};
use mt_values::{Annals, InsertText};
use replies::{Reply, data_line, failed_line, no_table_line, stage_line};
use std::alloc::Global;
use std::sync::Wait;

/// Adds the rows of an INSERT to its table, partition by partition, unless it is refused. All parts are sealed before the first of
/// them has its turn. What was accepted before a turn that is refused stands.
///
/// `NoMemory` where an allocation failed; what was accepted before stands, and the arm's count of faults is as it was.
#[tactic(auto, using(crate::proofs::Answering::answers_looked, crate::proofs::Answering::accounts_looked, crate::proofs::Answering::stays_looked, crate::proofs::OnceStopped::stopped_looked, crate::proofs::Tries::tries_looked))]
pub fn insert<W: Wait, F: Dir, R: Arm<Dir = F>, D: Disk<Arm = R>, A: Annals, B: Names>(
    rt: &W,
    alloc: Global,
    shared: &Shared<F, R, D, A, B>,
    seat: &mut Seat<B>,
    share: &mut Share<B>,
    arm: &mut R,
    text: &InsertText,
) -> Result<Reply, NoMemory>
    requires session { IsSession seat.old }
    requires own { KnowsOwn seat.old }
    requires parts { 0 < share.old.parts }
    requires tells { B.given is_told → R.tells arm.old ≡ true }

    // What is answered, and why.
    ensures answers { AnswersAt B.given B.before B.opening B.ledgers.parts
        (Ok (statement.Insert text.now)) (having seat.old share.old (R.failed arm.old))
        (having seat.new share.new (R.failed arm.new)) result }
    ensures accounts { AccountsAt B.opening B.ledgers.parts
        (having seat.old share.old (R.failed arm.old))
        (having seat.new share.new (R.failed arm.new)) Never result }

    // What the session has then.
    ensures stays { StaysSession B.opening B.ledgers.parts
        (having seat.old share.old (R.failed arm.old))
        (having seat.new share.new (R.failed arm.new)) }
    ensures stopped { StaysStopped (having seat.old share.old (R.failed arm.old))
        (having seat.new share.new (R.failed arm.new)) result }
    ensures tries { TriesAt B.given B.before (Ok (statement.Insert text.now))
        (having seat.old share.old (R.failed arm.old))
        (having seat.new share.new (R.failed arm.new)) result }
    ensures tells { R.tells arm.new ≡ R.tells arm.old }
{
    let Some(schema) = shared.schema(rt, alloc, seat, &text.table)? else {
        return no_table_line(alloc, &text.table);
    };
    let block = match read_block(alloc, &schema, text) {
        Ok(block) => block,
        Err(Stop::NoMemory) => return Err(NoMemory),
        Err(Stop::Refused(fault)) => return data_line(alloc, fault),
    };
    let unchanged = Reply::accepted(alloc, shared.look(rt, seat))?;
    if block.is_empty() {
        return Ok(unchanged);
    }
    let failed = failed_line(alloc)?;
    let blocks = split_block(alloc, &schema, block)?;
    let parts = match seal_blocks(alloc, arm, &schema, blocks) {
        Ok(parts) => parts,
        Err(error) => return stage_line(error, failed),
    };
    commit_parts(
        rt,
        alloc,
        shared,
        seat,
        share,
        arm,
        &text.table,
        parts,
        unchanged,
    )
}
