// A work that an OPTIMIZE took up, carried out, and what is replied.
ghost use Rattle.std.specs.Prelude.{◌+◌, ◌<◌, ◌≡◌, IfErr, IfOk, Ok, true};
ghost use Rattle.replies.specs.mt_model.declared.refusal.Refusal.TheVariants as refusal;
ghost use Rattle.replies.specs.mt_model.Refusals.{refusal_line};
ghost use Rattle.merge_workers.specs.shared_store.Levels.{any_greatest};
ghost use Rattle.merge_workers.specs.shared_store.Stood.{is_told};
ghost use Rattle.session.specs.Lapses.{Never};
ghost use Rattle.session.specs.Merges.{IsUnreadLine, TellsOfPart};
ghost use Rattle.session.specs.Answers.{MergesAt, WasCarriedOut};

use crate::stopped::refused_line;
use merge_workers::shared_store::handed::Work;
use merge_workers::shared_store::part_name::PartName;
use merge_workers::shared_store::part_reader::PartFault;
use merge_workers::shared_store::{Names, Share, Shared};
use merge_workers::{Carried, carry_out};
use mt_base::NoMemory;
use mt_outside::{Arm, Dir, Disk};
use mt_values::{Annals, Name};
use replies::{MergeReplies, Reply, damaged};
use std::alloc::Global;
use std::sync::Wait;

/// How many commands of its statement are accepted before a merge: it is none.
const ACCEPTED: usize = 0;

/// The reply where a part of a table was not read, or what parts became was not sealed. Where the arm failed it is `failed`, so that
/// no memory is wanted then.
///
/// `NoMemory` where that was why, and where an allocation failed; never where the arm failed.
fn unread_line(
    alloc: Global,
    table: &Name,
    part: &PartName,
    fault: PartFault,
    failed: Reply,
) -> Result<Reply, NoMemory>
    requires { failed ≡ refusal_line refusal.Failed }
    ensures line { IfOk result (IsUnreadLine table.now part.now fault) }
    ensures fault { IfErr result (λ _. fault ≡ PartFault.Fault → ⊥) }
{
    match fault {
        PartFault::NoMemory => Err(NoMemory),
        PartFault::Fault => Ok(failed),
        PartFault::Damaged { file, .. } => damaged(alloc, table, part, file),
    }
}

/// Carries a work of a table out. The reply where it was refused, and none where it was put, or where a part of it was gone by then.
///
/// `NoMemory` where an allocation failed.
pub(crate) fn merge_work<W: Wait, F: Dir, R: Arm<Dir = F>, D: Disk<Arm = R>, A: Annals, B: Names>(
    rt: &W,
    alloc: Global,
    shared: &Shared<F, R, D, A, B>,
    share: &mut Share<B>,
    arm: &mut R,
    table: &Name,
    work: Work<F, B>,
    replies: MergeReplies,
) -> Result<Option<Reply>, NoMemory>
    requires out { 0 < share.old.out }
    requires tells { B.given is_told → R.tells arm.old ≡ true }
    requires table { table.now ≡ work.taken.table }
    requires failed { replies.failed ≡ refusal_line refusal.Failed }
    requires unsettled { replies.unsettled ≡ refusal_line (refusal.Unsettled 0) }
    ensures merges { MergesAt B.given B.opening B.ledgers.parts share.old share.new
        (R.failed arm.old) (R.failed arm.new) (any_greatest work.taken.sources.items)
        (TellsOfPart F.files work.taken.table work.taken.schema work.taken.sources.items) Never
        (WasCarriedOut F.files B.given B.before B.opening B.ledgers.parts work.taken) result }
    ensures out { share.new.out + 1 ≡ share.old.out }
    ensures tells { R.tells arm.new ≡ R.tells arm.old }
{
    let MergeReplies { failed, unsettled } = replies;
    // Reading what was taken up shows what is known of it.
    prove!(!work.taken().sources.is_empty());
    match carry_out(rt, alloc, shared, share, arm, work) {
        Carried::Done => Ok(None),
        Carried::Gone(_) => Ok(None),
        Carried::Refused(cause) => {
            let reply = refused_line(alloc, ACCEPTED, table, cause, unsettled)?;
            Ok(Some(reply))
        }
        Carried::Unread(part, fault) => {
            let reply = unread_line(alloc, table, &part, fault, failed)?;
            Ok(Some(reply))
        }
    }
}
