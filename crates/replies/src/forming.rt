// The replies to a command and to a merge, whether they will be committed or not.
ghost use Rattle.std.specs.Prelude.{◌≡◌, IfOk};
ghost use Rattle.mt_model.specs.declared.refusal.Refusal.TheVariants as refusal;
ghost use Rattle.mt_model.specs.Refusals.{refusal_line};

use crate::lines::{failed_line, unsettled_line};
use crate::ok_line::OkLine;
use crate::reply::Reply;
use mt_base::NoMemory;
use std::alloc::Global;

/// The replies to a command, formed before its files are written, so that no memory is wanted for one once the command was accepted, or
/// the outside has failed.
#[derive(Drop)]
pub struct Replies {
    /// To a command that was committed, but for its number.
    pub accepted: OkLine,
    /// To one whose publish or whose sync failed.
    pub unsettled: Reply,
    /// To one whose files were not written.
    pub failed: Reply,
}

/// The replies to the next command of a statement, after some of its commands were accepted.
///
/// `NoMemory` where an allocation failed.
pub fn replies_after(alloc: Global, accepted_before: usize) -> Result<Replies, NoMemory>
    ensures unsettled { IfOk result
        (λ r. r.unsettled ≡ refusal_line (refusal.Unsettled accepted_before)) }
    ensures failed { IfOk result (λ r. r.failed ≡ refusal_line refusal.Failed) }
{
    let accepted = OkLine::new(alloc)?;
    let unsettled = unsettled_line(alloc, accepted_before)?;
    let failed = failed_line(alloc)?;
    Ok(Replies {
        accepted,
        unsettled,
        failed,
    })
}

/// The replies to a merge that the outside fails, formed before its parts are read, so that no memory is wanted for one then.
#[derive(Drop)]
pub struct MergeReplies {
    /// Where parts were not read, or what they became was not sealed.
    pub failed: Reply,
    /// Where the publish or the sync failed.
    pub unsettled: Reply,
}

/// The replies to a merge that the outside fails. No command is accepted by it.
///
/// `NoMemory` where an allocation failed.
pub fn merge_replies(alloc: Global) -> Result<MergeReplies, NoMemory>
    ensures failed { IfOk result (λ r. r.failed ≡ refusal_line refusal.Failed) }
    ensures unsettled { IfOk result (λ r. r.unsettled ≡ refusal_line (refusal.Unsettled 0)) }
{
    Ok(MergeReplies {
        failed: failed_line(alloc)?,
        unsettled: unsettled_line(alloc, 0)?,
    })
}
