// The lines that refuse a statement, for what it says or for the outside.
ghost use Rattle.std.specs.Prelude.{◌≡◌, IfErr, IfOk};
ghost use Rattle.mt_model.specs.declared.refusal.Refusal.TheVariants as refusal;
ghost use Rattle.mt_model.specs.Refusals.{refusal_line, refusal_of_data};
ghost use Rattle.part_name.specs.PartNames.{part_text};
ghost use Rattle.replies.specs.Lines.{IsLineOfStage};
ghost use Rattle.mt_base.specs.Files.{file_name};

use crate::reply::Reply;
use mt_base::{NoMemory, Seq, Twin};
use mt_model::Refusal;
use mt_outside::DiskError;
use mt_values::{DataFault, FileId, Name};
use part_name::{PartName, text as part_text};
use std::alloc::Global;

/// The reply to a statement on a table that is not there.
pub fn no_table_line(alloc: Global, table: &Name) -> Result<Reply, NoMemory>
    ensures { IfOk result (λ line. line ≡ refusal_line (refusal.NoTable table.now)) }
{
    let why = Refusal::NoTable(table.twin(alloc)?);
    Reply::refused(alloc, &why)
}

/// The reply to an INSERT whose rows are refused.
pub fn data_line(alloc: Global, fault: DataFault) -> Result<Reply, NoMemory>
    ensures { IfOk result (λ line. line ≡ refusal_line (refusal_of_data fault)) }
{
    let why = Refusal::of_data(fault);
    Reply::refused(alloc, &why)
}

/// The reply to a statement for which parts were not read, or a stage was not sealed. Where the arm failed it is `failed`, so that no
/// memory is wanted then.
///
/// `NoMemory` where that was why; never where the arm failed.
pub fn stage_line(error: DiskError, failed: Reply) -> Result<Reply, NoMemory>
    requires { failed ≡ refusal_line refusal.Failed }
    ensures line { IfOk result (λ line. IsLineOfStage error line) }
    ensures fault { IfErr result (λ _. error ≡ DiskError.Fault → ⊥) }
{
    match error {
        DiskError::NoMemory => Err(NoMemory),
        DiskError::Fault => Ok(failed),
    }
}

/// The reply to a statement of which a call on the arm or on a stage failed. It is formed before these calls.
///
/// `NoMemory` where an allocation failed.
pub fn failed_line(alloc: Global) -> Result<Reply, NoMemory>
    ensures { IfOk result (λ line. line ≡ refusal_line refusal.Failed) }
{
    Reply::refused(alloc, &Refusal::Failed)
}

/// The reply to an OPTIMIZE with FINAL that met a part which is being merged already.
///
/// `NoMemory` where an allocation failed.
pub fn busy_line(alloc: Global, part: &PartName) -> Result<Reply, NoMemory>
    ensures { IfOk result (λ line. line ≡ refusal_line (refusal.Busy (part_text part.now))) }
{
    let why = Refusal::Busy(Seq::of(part_text(alloc, part)?));
    Reply::refused(alloc, &why)
}

/// The reply to a command whose publish or whose sync failed, after some commands of its statement were accepted. It is formed before
/// the commit.
///
/// `NoMemory` where an allocation failed.
pub fn unsettled_line(alloc: Global, accepted: usize) -> Result<Reply, NoMemory>
    ensures { IfOk result (λ line. line ≡ refusal_line (refusal.Unsettled accepted)) }
{
    Reply::refused(alloc, &Refusal::Unsettled { accepted })
}

/// The reply to a statement that met damage in a file of a part of a table.
///
/// `NoMemory` where an allocation failed.
pub fn damaged(
    alloc: Global,
    table: &Name,
    part: &PartName,
    file: FileId,
) -> Result<Reply, NoMemory>
    ensures { IfOk result (λ reply. reply ≡ refusal_line
        (Refusal.Damaged table.now (part_text part.now) (file_name file))) }
{
    let table = table.twin(alloc)?;
    let part = Seq::of(part_text(alloc, part)?);
    let file = Seq::of(file.name(alloc)?.into_bytes());
    let why = Refusal::Damaged { table, part, file };
    Reply::refused(alloc, &why)
}
