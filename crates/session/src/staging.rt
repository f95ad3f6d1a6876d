// What is sealed for a CREATE.
ghost use Rattle.std.specs.Prelude.{◌≡◌, ◌<◌, ◌^◌, Some, length, true, IfOk, OnOk};
ghost use Rattle.mt_outside.specs.DiskCauses.{HasDiskCause};
ghost use Rattle.session.specs.Staged.{entry_files};

use merge_workers::shared_store::digest_file::entry_bytes;
use merge_workers::shared_store::stage_dir::{Open, Sealed, Unsealed, seal, write_file};
use mt_outside::{Arm, DiskError};
use mt_values::FileId;
use std::alloc::Global;

/// A sealed stage with the entry of a statement's text.
///
/// `Fault` only where the arm's count rose in this call, `NoMemory` where an allocation failed, and where the text's length is not
/// one of 32 bits; without a fault the count stays. After an error the stage was given back to the arm.
pub fn seal_entry<R: Arm>(
    alloc: Global,
    arm: &mut R,
    text: &[u8],
) -> Result<Sealed<R::Stage>, DiskError>
    ensures files { IfOk result
        (λ s. R.tells arm.old ≡ true → s.files ≡ Some (entry_files text.now)) }
    ensures none_failed { IfOk result (λ s. s.failed ≡ 0) }
    ensures few { OnOk result (length text.now < 2 ^ 32) }
    ensures tells { R.tells arm.new ≡ R.tells arm.old }
    ensures cause { HasDiskCause (R.failed arm.old) (R.failed arm.new) result }
{
    if text.len() > u32::MAX as usize {
        return Err(DiskError::NoMemory);
    }
    let bytes = entry_bytes(alloc, text)?;
    let mut open = Open::of(alloc, arm.stage(alloc)?);
    if let Err(error) = write_file(&mut open, FileId::Entry, &bytes) {
        arm.abandon(open.into_stage());
        return Err(error);
    }
    match seal(open) {
        Ok(sealed) => Ok(sealed),
        Err(Unsealed { cause, rest }) => {
            arm.abandon(rest.into_stage());
            Err(cause)
        }
    }
}
