// A part written whole, from a block of rows.
ghost use Rattle.std.specs.Prelude.{◌≡◌, ◌<◌, ◌^◌, Some, All, IfOk, List, length, true};
ghost use Rattle.std.specs.Option.{option_map};
ghost use Rattle.sha2.specs.Sha256.{sha256};
ghost use Rattle.mt_outside.specs.DiskCauses.{HasDiskCause, HasStageCause};
ghost use Rattle.mt_values.specs.Grid.{picked};
ghost use Rattle.mt_values.specs.Manifests.{manifest_bytes};
ghost use Rattle.mt_values.specs.Schemas.{column_types};
ghost use Rattle.mt_values.specs.Values.{FitsType, Row};
ghost use Rattle.digest_file.specs.Spellings.{IsManifestOf};
ghost use Rattle.primary_marks.specs.Keys.{HasMarks};
ghost use Rattle.part_writer.specs.Growing.{HasRows, IsWhole};
ghost use Rattle.part_writer.specs.PartFiles.{HasIndexes, all_synced, content_ids, files_of_part, loaded_of};

use crate::loaded::SharedLoaded;
use crate::part_out::{Broken, PartOut};
use mt_outside::{Arm, DiskError, Stage};
use mt_values::{Block, Schema};
use stage_dir::Sealed;
use std::alloc::Global;

/// The sealed files of a part, and what is kept of them in memory. Its stage must be given back.
pub struct SealedPart<S: Stage> {
    pub sealed: Sealed<S>,
    pub loaded: SharedLoaded,
}

/// The files of the block's rows in this order, sealed, and what is kept of them in memory.
///
/// They are written granule by granule: the bytes of one are in memory beside the block, and what is kept of all of them.
///
/// `Fault` only where the arm's count rose in this call, `NoMemory` where an allocation failed; without a fault the count stays.
/// After an error the stage was given back to the arm.
pub fn write_part<R: Arm>(
    alloc: Global,
    arm: &mut R,
    schema: &Schema,
    block: &Block,
    order: &[u32],
) -> Result<SealedPart<R::Stage>, DiskError>
    requires marks { HasMarks schema.now }
    requires indexes { HasIndexes schema.now }
    requires types { block.now.types ≡ column_types schema.now }
    requires places { All (λ place. place < length block.now.rows) order.now }
    requires few { length (content_ids schema.now) < 2 ^ 32 }

    // What is sealed.
    ensures files { IfOk result (λ s. R.tells arm.old ≡ true
        → s.sealed.files ≡ Some
        (all_synced (files_of_part schema.now (picked block.now.rows order.now)))) }
    ensures loaded { IfOk result
        (λ s. s.loaded ≡ loaded_of schema.now (picked block.now.rows order.now)) }
    ensures none_failed { IfOk result (λ s. s.sealed.failed ≡ 0) }
    ensures encodable { IfOk result (λ _. All (λ (row : Row). All FitsType row)
        (picked block.now.rows order.now)) }
    ensures readable { IfOk result (λ s. IsManifestOf (manifest_bytes sha256 s.loaded.manifest)
        s.loaded.manifest) }

    // What the arm is then, and why it failed.
    ensures tells { R.tells arm.new ≡ R.tells arm.old }
    ensures cause { HasDiskCause (R.failed arm.old) (R.failed arm.new) result }
{
    let mut out = PartOut::begin(alloc, arm, schema)?;
    match out.push_block(block, order) {
        Ok(()) => finish_part(arm, out),
        Err(error) => {
            out.give_up(arm);
            Err(error)
        }
    }
}

/// Finishes a part.
///
/// `Fault` only where the arm's count rose in this call. After an error the stage was given back to the arm.
pub fn finish_part<R: Arm>(arm: &mut R, out: PartOut<R>) -> Result<SealedPart<R::Stage>, DiskError>
    requires { IsWhole out }

    // What is sealed.
    ensures files { (rows : List Row) → HasRows out rows → IfOk result (λ s. s.sealed.files
        ≡ option_map (λ _. all_synced (files_of_part out.grown.schema rows)) out.stage.files) }
    ensures loaded { (rows : List Row) → HasRows out rows
        → IfOk result (λ s. s.loaded ≡ loaded_of out.grown.schema rows) }
    ensures failed { IfOk result (λ s. s.sealed.failed ≡ out.stage.failed) }
    ensures encodable { (rows : List Row) → HasRows out rows
        → IfOk result (λ _. All (λ (row : Row). All FitsType row) rows) }
    ensures readable { IfOk result (λ s. IsManifestOf (manifest_bytes sha256 s.loaded.manifest)
        s.loaded.manifest) }

    // What the arm is then, and why it failed.
    ensures tells { R.tells arm.new ≡ R.tells arm.old }
    ensures cause { HasStageCause out.stage.failed (R.failed arm.old) (R.failed arm.new) result }
{
    match out.finish() {
        Ok(part) => Ok(part),
        Err(Broken { cause, out }) => {
            out.give_up(arm);
            Err(cause)
        }
    }
}
