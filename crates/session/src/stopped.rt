// What the turn of a command, or a commit that failed, refuses it for.
ghost use Rattle.std.specs.Prelude.{◌≡◌, IfErr, IfOk};
ghost use Rattle.session.specs.Stops.{IsLineOf, refusal_of_commit};
ghost use Rattle.replies.specs.mt_model.declared.refusal.Refusal.TheVariants as refusal;
ghost use Rattle.replies.specs.mt_model.Refusals.{refusal_line};

use merge_workers::shared_store::durable_commit::{Limit, Refused};
use mt_base::{NoMemory, Twin};
use mt_values::Name;
use replies::Reply;
use replies::mt_model::{Bound, Refusal, Room};
use std::alloc::Global;

/// Why a command on a table was not committed after so many others of its statement were, as a refusal. None where memory ran out.
///
/// `NoMemory` where an allocation failed.
fn refusal_of(
    alloc: Global,
    accepted: usize,
    table: &Name,
    cause: Refused,
) -> Result<Option<Refusal>, NoMemory>
    ensures { IfOk result (λ found. found ≡ refusal_of_commit accepted table.now cause) }
{
    let refusal = match cause {
        Refused::NoMemory => return Ok(None),
        Refused::Disk => Refusal::Unsettled { accepted },
        Refused::Stopped { opened, now } => Refusal::Stopped {
            opened,
            now,
            accepted,
        },
        Refused::Exists => Refusal::TableExists(table.twin(alloc)?),
        Refused::Limit(Limit::Tables) => Refusal::Past(Bound::Tables),
        Refused::Limit(Limit::Parts) => {
            let room = Room::Parts;
            Refusal::Full { room, accepted }
        }
        Refused::Limit(Limit::Numbers) => {
            let room = Room::Numbers;
            Refusal::Full { room, accepted }
        }
        Refused::Limit(Limit::Levels) => Refusal::Past(Bound::Levels),
    };
    Ok(Some(refusal))
}

/// The reply to a command on a table that was not committed after so many others of its statement were. Where the disk failed it is
/// `unsettled`, so that no memory is wanted then.
///
/// `NoMemory` where that was why, and where an allocation failed; never where the disk failed.
pub fn refused_line(
    alloc: Global,
    accepted: usize,
    table: &Name,
    cause: Refused,
    unsettled: Reply,
) -> Result<Reply, NoMemory>
    requires { unsettled ≡ refusal_line (refusal.Unsettled accepted) }
    ensures line { IfOk result (λ line. IsLineOf accepted table.now cause line) }
    ensures disk { IfErr result (λ _. cause ≡ Refused.Disk → ⊥) }
{
    if let Refused::Disk = cause {
        return Ok(unsettled);
    }
    let Some(refusal) = refusal_of(alloc, accepted, table, cause)? else {
        return Err(NoMemory);
    };
    Reply::refused(alloc, &refusal)
}
