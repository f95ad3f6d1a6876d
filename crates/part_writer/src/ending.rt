// What is written of a part once all its rows are (docs/formats.md, "Parts").
ghost use Rattle.std.specs.Prelude.{◌≡◌, All, IfOk, List, OnOk};
ghost use Rattle.std.specs.Option.{option_map};
ghost use Rattle.sha2.specs.Sha256.{sha256};
ghost use Rattle.mt_outside.specs.DiskCauses.{HasDiskCause};
ghost use Rattle.mt_values.specs.Granules.{with_final};
ghost use Rattle.mt_values.specs.Manifests.{manifest_bytes};
ghost use Rattle.mt_values.specs.Values.{FitsType, Row};
ghost use Rattle.digest_file.specs.Spellings.{IsManifestOf};
ghost use Rattle.stage_dir.specs.Stages.{IsIntact, settled};
ghost use Rattle.part_writer.specs.Growing.{HasAll, HasWritten};
ghost use Rattle.part_writer.specs.PartFiles.{all_synced, files_of_part, loaded_of};

use crate::column_out::take_columns;
use crate::grown::Grown;
use crate::loaded::{Loaded, SharedLoaded};
use crate::opened::{spell_opened, take_marks, write_opened};
use digest_file::manifest_bytes;
use mt_base::{Seq, Twin};
use mt_outside::{DiskError, Stage};
use mt_values::{FileId, Manifest};
use stage_dir::{Open, write_file};
use std::alloc::Global;
use std::mem;

/// Writes the files that are read where a part is opened, and last the manifest. What is kept of the rows is handed back.
///
/// After an error the stage can only be given up, and nothing is known of what is kept.
pub(crate) fn write_rest<S: Stage>(
    alloc: Global,
    stage: &mut Open<S>,
    grown: &mut Grown,
) -> Result<SharedLoaded, DiskError>
    requires { HasAll stage.old grown.old }

    // What is written, and why it failed.
    ensures files { (rows : List Row) → HasWritten stage.old grown.old rows
        (with_final grown.old.schema.granularity rows) → OnOk result
        (option_map settled stage.new.files ≡ option_map
        (λ _. all_synced (files_of_part grown.old.schema rows)) stage.old.files) }
    ensures intact { OnOk result (IsIntact stage.new) }
    ensures loaded { (rows : List Row) → HasWritten stage.old grown.old rows
        (with_final grown.old.schema.granularity rows)
        → IfOk result (λ loaded. loaded ≡ loaded_of grown.old.schema rows) }
    ensures readable { IfOk result
        (λ loaded. IsManifestOf (manifest_bytes sha256 loaded.manifest) loaded.manifest) }
    ensures cause { HasDiskCause stage.old.failed stage.new.failed result }
{
    let schema = grown.schema.twin(alloc)?;
    let marks = take_marks(alloc, &mut grown.keys);
    let (places, column_marks) = take_columns(alloc, &mut grown.columns)?;
    let indexes = Seq::of(mem::replace(&mut grown.indexes, Vec::new(alloc)));
    let opened = spell_opened(alloc, &marks, places.as_slice(), indexes.as_slice())?;
    let mut files = write_opened(alloc, stage, &grown.schema, opened.as_slice())?;
    files.extend(column_marks.as_slice())?;
    let rows = grown.rows;
    let manifest = Manifest { rows, files };
    let bytes = manifest_bytes(alloc, &manifest)?;
    write_file(stage, FileId::Manifest, &bytes)?;
    let loaded = Loaded {
        schema,
        manifest,
        marks,
        places,
        indexes,
    };
    Ok(SharedLoaded::of(alloc, loaded)?)
}
