// A part that is written granule by granule (docs/formats.md, "Parts").
//
// Its rows are kept in columns until they are a granule and a row comes after them. Then each value goes to the end of its column's file, and of the
// granule are kept where it begins in these files, the primary key of its first row and what the skip indexes keep of it. The files that have these are
// written when the part is finished: `marks.bin` has all places of one column before those of the next. They are made before, without bytes, so that the
// files stand in the order of the format. The last row is among those that are kept in columns: its primary key is the final mark.
ghost use Rattle.std.specs.Prelude.{◌≡◌, ◌≤◌, ◌<◌, ◌^◌, ◌++◌, ◌∷◌, [], All, IfErr, IfOk, List, OnOk, length, is_some};
ghost use Rattle.std.specs.Option.{option_map};
ghost use Rattle.sha2.specs.Sha256.{sha256};
ghost use Rattle.mt_outside.specs.Causes.{Rose};
ghost use Rattle.mt_outside.specs.DiskCauses.{HasDiskCause};
ghost use Rattle.mt_values.specs.Granules.{with_final};
ghost use Rattle.mt_values.specs.Grid.{picked};
ghost use Rattle.mt_values.specs.Manifests.{manifest_bytes};
ghost use Rattle.mt_values.specs.Schemas.{column_types};
ghost use Rattle.mt_values.specs.Values.{FitsType, Row, types_of};
ghost use Rattle.digest_file.specs.Spellings.{IsManifestOf};
ghost use Rattle.stage_dir.specs.Stages.{IsCauseOf, IsIntact, settled};
ghost use Rattle.part_writer.specs.Growing.{HasEnded, HasFiles, HasParts, HasRows, HasWritten, IsWhole, TakesRows, grown_bytes};
ghost use Rattle.part_writer.specs.PartFiles.{all_synced, content_ids, files_of_part, loaded_of};

use crate::content::{content_count, content_file};
use crate::ending::write_rest;
use crate::grown::Grown;
use crate::loaded::SharedLoaded;
use crate::writing::SealedPart;
use mt_outside::{Arm, DiskError, Stage};
use mt_values::{Block, Row, Schema, all_places};
use stage_dir::{Open, Unsealed, append_file, seal};
use std::alloc::Global;
use std::marker::Model;

/// A part that is being written. It must be finished or given up, since its stage must be given back. Contracts see its stage, and what is
/// kept of the rows that it has; which these are is said by `HasRows`.
pub struct PartOut<R: Arm> {
    alloc: Global,
    stage: Open<R::Stage>,
    grown: Grown,
}

impl<R: Arm> Model for PartOut<R> {
    ghost use Rattle.part_writer.specs.Growing.{Growing};

    ghost Value = { Growing };

    ghost view = { λ o. record { stage = o.stage; grown = o.grown } };
}

/// A part that could not be finished, and why. What is left of it is there to be given up.
pub struct Broken<R: Arm> {
    pub cause: DiskError,
    pub out: PartOut<R>,
}

impl<R: Arm> PartOut<R> {
    /// A part of a table without rows, whose stage the arm makes.
    ///
    /// `Fault` only where the arm's count rose in this call, `NoMemory` where an allocation failed; without a fault the count stays.
    /// After an error the stage was given back to the arm.
    pub fn begin(alloc: Global, arm: &mut R, schema: &Schema) -> Result<PartOut<R>, DiskError>
        requires { HasParts schema.now }

        // What it is.
        ensures rows { IfOk result (λ out. HasRows out []) }
        ensures schema { IfOk result (λ out. out.grown.schema ≡ schema.now) }
        ensures told { IfOk result (λ out. is_some out.stage.files ≡ R.tells arm.old) }
        ensures none_failed { IfOk result (λ out. out.stage.failed ≡ 0) }

        // What the arm is then, and why it failed.
        ensures tells { R.tells arm.new ≡ R.tells arm.old }
        ensures cause { HasDiskCause (R.failed arm.old) (R.failed arm.new) result }
    {
        let grown = Grown::new(alloc, schema)?;
        let mut stage = Open::of(alloc, arm.stage(alloc)?);
        match make_files(&mut stage, &grown.schema) {
            Ok(()) => Ok(PartOut {
                alloc,
                stage,
                grown,
            }),
            Err(error) => {
                arm.abandon(stage.into_stage());
                Err(error)
            }
        }
    }

    /// Adds a row at the end.
    ///
    /// `Fault` only where the stage's count rose in this call, `NoMemory` where an allocation failed, or 64 bits can't count rows or bytes.
    /// After an error the part can only be given up.
    pub fn push(&mut self, row: &Row) -> Result<(), DiskError>
        requires whole { IsWhole self.old }
        requires typed { types_of row.now ≡ column_types self.old.grown.schema }

        // What it has then.
        ensures rows { (rows : List Row) → HasRows self.old rows
            → OnOk result (HasRows self.new (rows ++ row.now ∷ [])) }
        ensures schema { OnOk result (self.new.grown.schema ≡ self.old.grown.schema) }
        ensures told { OnOk result
            (is_some self.new.stage.files ≡ is_some self.old.stage.files) }
        ensures cause { HasDiskCause self.old.stage.failed self.new.stage.failed result }
    {
        self.make_room()?;
        self.grown.add_row(row)?;
        Ok(())
    }

    /// Adds the block's rows in this order at the end.
    ///
    /// `Fault` only where the stage's count rose in this call, `NoMemory` where an allocation failed, or 64 bits can't count rows or bytes.
    /// After an error the part can only be given up.
    pub fn push_block(&mut self, block: &Block, order: &[u32]) -> Result<(), DiskError>
        requires whole { IsWhole self.old }
        requires types { block.now.types ≡ column_types self.old.grown.schema }
        requires places { All (λ place. place < length block.now.rows) order.now }

        // What it has then.
        ensures rows { (rows : List Row) → HasRows self.old rows
            → OnOk result (HasRows self.new (rows ++ picked block.now.rows order.now)) }
        ensures schema { OnOk result (self.new.grown.schema ≡ self.old.grown.schema) }
        ensures told { OnOk result
            (is_some self.new.stage.files ≡ is_some self.old.stage.files) }
        ensures cause { HasDiskCause self.old.stage.failed self.new.stage.failed result }
    {
        let mut at = 0;
        'chunks: while at < order.len() {
            let room = self.make_room()?;
            let end = order.len().min(at.saturating_add(room));
            self.grown.add_rows(self.alloc, block, &order[at..end])?;
            at = end;
        }
        Ok(())
    }

    /// The part, sealed, and what is kept of it.
    ///
    /// Where it fails the part is handed back to be given up: `Fault` only where its stage's count rose in this call.
    pub fn finish(self) -> Result<SealedPart<R::Stage>, Broken<R>>
        requires { IsWhole self }

        // What is sealed.
        ensures files { (rows : List Row) → HasRows self rows → IfOk result (λ s.
            s.sealed.files ≡ option_map
            (λ _. all_synced (files_of_part self.grown.schema rows)) self.stage.files) }
        ensures loaded { (rows : List Row) → HasRows self rows → IfOk result
            (λ s. s.loaded ≡ loaded_of self.grown.schema rows) }
        ensures failed { IfOk result (λ s. s.sealed.failed ≡ self.stage.failed) }

        // What else is known of it, and why it failed.
        ensures encodable { (rows : List Row) → HasRows self rows
            → IfOk result (λ _. All (λ (row : Row). All FitsType row) rows) }
        ensures readable { IfOk result (λ s. IsManifestOf
            (manifest_bytes sha256 s.loaded.manifest) s.loaded.manifest) }
        ensures cause { IfErr result
            (λ b. IsCauseOf self.stage.failed b.out.stage.failed b.cause) }
    {
        let mut out = self;
        let loaded = match out.complete() {
            Ok(loaded) => loaded,
            Err(cause) => return Err(Broken { cause, out }),
        };
        let PartOut {
            alloc,
            stage,
            grown,
        } = out;
        match seal(stage) {
            Ok(sealed) => Ok(SealedPart { sealed, loaded }),
            Err(Unsealed { cause, rest }) => Err(Broken {
                cause,
                out: PartOut {
                    alloc,
                    stage: rest,
                    grown,
                },
            }),
        }
    }

    /// Gives its stage up. Takes no memory.
    pub fn give_up(self, arm: &mut R)
        ensures tells { R.tells arm.new ≡ R.tells arm.old }
        ensures taken { 0 < self.stage.failed → Rose (R.failed arm.old) (R.failed arm.new) }
        ensures none_failed { self.stage.failed ≡ 0 → R.failed arm.new ≡ R.failed arm.old }
        ensures later { R.failed arm.old ≤ R.failed arm.new }
    {
        let PartOut {
            alloc: _,
            stage,
            grown: _,
        } = self;
        arm.abandon(stage.into_stage());
    }

    /// How many rows more the granule takes that is being filled, at least one. A full one is written.
    ///
    /// After an error the part can only be given up.
    fn make_room(&mut self) -> Result<usize, DiskError>
        requires { IsWhole self.old }

        // Which rows it has, and for how many more there is room.
        ensures rows { (rows : List Row) → HasRows self.old rows
            → IfOk result (λ room. TakesRows self.new rows room) }
        ensures some { IfOk result (λ room. 0 < room) }
        ensures schema { OnOk result (self.new.grown.schema ≡ self.old.grown.schema) }
        ensures told { OnOk result
            (is_some self.new.stage.files ≡ is_some self.old.stage.files) }
        ensures cause { HasDiskCause self.old.stage.failed self.new.stage.failed result }
    {
        let size = self.grown.schema.granularity as usize;
        if self.grown.count < size {
            return Ok(size - self.grown.count);
        }
        self.write_pending()?;
        Ok(size)
    }

    /// Writes the rows that are pending, which are some, as a granule, and hands them back.
    ///
    /// After an error the part can only be given up.
    fn write_pending(&mut self) -> Result<Block, DiskError>
        requires whole { IsWhole self.old }
        requires some { 0 < self.old.grown.count }

        // What is written.
        ensures rows { (rows : List Row) → HasRows self.old rows
            → IfOk result (λ block. HasEnded self.new rows self.old.grown.count block) }
        ensures schema { OnOk result (self.new.grown.schema ≡ self.old.grown.schema) }
        ensures told { OnOk result
            (is_some self.new.stage.files ≡ is_some self.old.stage.files) }
        ensures cause { HasDiskCause self.old.stage.failed self.new.stage.failed result }
    {
        prove!(self.grown.count <= self.grown.schema.granularity as usize);
        let block = self.grown.take_pending(self.alloc)?;
        let order = all_places(self.alloc, block.len() as u32)?;
        self.grown
            .write(self.alloc, &mut self.stage, &block, &order)?;
        Ok(block)
    }

    /// Writes the last granule, and keeps the primary key of the last row.
    ///
    /// After an error the part can only be given up.
    fn end_rows(&mut self) -> Result<(), DiskError>
        requires { IsWhole self.old }
        ensures rows { (rows : List Row) → HasRows self.old rows → OnOk result (HasWritten
            self.new.stage self.new.grown rows
            (with_final self.old.grown.schema.granularity rows)) }
        ensures schema { OnOk result (self.new.grown.schema ≡ self.old.grown.schema) }
        ensures told { OnOk result
            (is_some self.new.stage.files ≡ is_some self.old.stage.files) }
        ensures cause { HasDiskCause self.old.stage.failed self.new.stage.failed result }
    {
        if self.grown.count == 0 {
            return Ok(());
        }
        let block = self.write_pending()?;
        let last = block.len() - 1;
        self.grown.add_key(&block, last as u32)?;
        Ok(())
    }

    /// Writes all that is not written yet, last the manifest; what is kept of the part is handed back.
    ///
    /// After an error the part can only be given up.
    fn complete(&mut self) -> Result<SharedLoaded, DiskError>
        requires { IsWhole self.old }

        // What is written, and why it failed.
        ensures files { (rows : List Row) → HasRows self.old rows → OnOk result
            (option_map settled self.new.stage.files ≡ option_map
            (λ _. all_synced (files_of_part self.old.grown.schema rows)) self.old.stage.files) }
        ensures intact { OnOk result (IsIntact self.new.stage) }
        ensures loaded { (rows : List Row) → HasRows self.old rows
            → IfOk result (λ loaded. loaded ≡ loaded_of self.old.grown.schema rows) }
        ensures encodable { (rows : List Row) → HasRows self.old rows
            → OnOk result (All (λ (row : Row). All FitsType row) rows) }
        ensures readable { IfOk result
            (λ loaded. IsManifestOf (manifest_bytes sha256 loaded.manifest) loaded.manifest) }
        ensures cause { HasDiskCause self.old.stage.failed self.new.stage.failed result }
    {
        self.end_rows()?;
        write_rest(self.alloc, &mut self.stage, &mut self.grown)
    }
}

/// Makes the files of a part's content, without bytes, in the order of the format.
///
/// After an error the stage can only be given up.
fn make_files<S: Stage>(stage: &mut Open<S>, schema: &Schema) -> Result<(), DiskError>
    requires intact { IsIntact stage.old }
    requires empty { stage.old.names ≡ [] }
    requires few { length (content_ids schema.now) < 2 ^ 32 }
    ensures files { OnOk result (HasFiles schema.now (grown_bytes []) stage.new) }
    ensures told { OnOk result (is_some stage.new.files ≡ is_some stage.old.files) }
    ensures cause { HasDiskCause stage.old.failed stage.new.failed result }
{
    let count = content_count(schema) as u32;
    for place in 0..count {
        let Some(file) = content_file(schema, place) else {
            unreachable!()
        };
        append_file(stage, file, &[])?;
    }
    Ok(())
}
