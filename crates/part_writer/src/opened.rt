// The files of a part that are read where it is opened: they are written last (docs/formats.md, "Marks", "Primary keys" and "Skip indexes").
ghost use Rattle.std.specs.Prelude.{◌≡◌, ◌<◌, ◌^◌, ◌∷◌, ℕ, All, IfOk, List, OnOk, is_some, length, map};
ghost use Rattle.std.specs.Option.{option_map};
ghost use Rattle.mt_outside.specs.DiskCauses.{HasDiskCause};
ghost use Rattle.mt_outside.specs.Files.{appended};
ghost use Rattle.mt_values.specs.Grid.{rows_of};
ghost use Rattle.mt_values.specs.Values.{Row};
ghost use Rattle.primary_marks.specs.Columns.{HaveKeys};
ghost use Rattle.primary_marks.specs.column_file.Marks.{keys_bytes, places_bytes};
ghost use Rattle.skip_index.specs.Blocks.{IsCounted, index_bytes};
ghost use Rattle.skip_index.specs.declared.index.Index.{Index as Kept};
ghost use Rattle.stage_dir.specs.Stages.{IsIntact, with_file};
ghost use Rattle.part_writer.specs.Growing.{HasFiles, grown_bytes};
ghost use Rattle.part_writer.specs.PartFiles.{content_bytes, content_ids, mark_of, opened_ids};

use crate::content::content_file;
use digest_file::mark_of;
use mt_base::{NoMemory, Seq};
use mt_outside::{DiskError, Stage};
use mt_values::{Bytes, ColumnData, FileId, FileMark, Schema};
use primary_marks::{Marks, spell, spell_places};
use skip_index::{Index, spell as spell_index};
use stage_dir::{Open, append_file};
use std::alloc::Global;
use std::mem;

/// The bytes of these files, in the order of the format.
///
/// `NoMemory` where an allocation failed.
pub(crate) fn spell_opened(
    alloc: Global,
    marks: &Marks,
    places: &[Seq<u64>],
    indexes: &[Index],
) -> Result<Seq<Bytes>, NoMemory>
    requires { All (λ (i : Kept). All IsCounted i.blocks) indexes.now }
    ensures { IfOk result (λ files. files ≡ places_bytes places.now ∷ keys_bytes marks.now ∷ map
        index_bytes indexes.now) }
{
    let mut files = Seq::new(alloc);
    files.push(spell_places(alloc, places)?)?;
    files.push(spell(alloc, marks)?)?;
    for index in indexes {
        files.push(spell_index(alloc, index)?)?;
    }
    Ok(files)
}

/// Writes these files, which the stage has without bytes, and gives their marks.
///
/// After an error the stage can only be given up.
pub(crate) fn write_opened<S: Stage>(
    alloc: Global,
    stage: &mut Open<S>,
    schema: &Schema,
    files: &[Bytes],
) -> Result<Seq<FileMark>, DiskError>
    requires names { stage.old.names ≡ content_ids schema.now }
    requires intact { IsIntact stage.old }
    requires few { length (content_ids schema.now) < 2 ^ 32 }
    requires files { length files.now ≡ length (opened_ids schema.now) }
    ensures files { (rows : List Row) → files.now ≡ map (content_bytes schema.now rows)
        (opened_ids schema.now) → HasFiles schema.now (grown_bytes rows) stage.old
        → OnOk result (HasFiles schema.now (content_bytes schema.now rows) stage.new) }
    ensures marks { IfOk result (λ marks. marks ≡ map mark_of files.now) }
    ensures told { OnOk result (is_some stage.new.files ≡ is_some stage.old.files) }
    ensures cause { HasDiskCause stage.old.failed stage.new.failed result }
{
    let mut marks = Seq::new(alloc);
    for (place, bytes) in files.iter().enumerate() {
        let Some(file) = content_file(schema, place as u32) else {
            unreachable!()
        };
        let mark = append_content(stage, file, bytes.as_slice())?;
        marks.push(mark)?;
    }
    Ok(marks)
}

/// Adds bytes at the end of a file, and gives their mark.
///
/// After an error the stage can only be given up.
fn append_content<S: Stage>(
    stage: &mut Open<S>,
    file: FileId,
    bytes: &[u8],
) -> Result<FileMark, DiskError>
    requires { IsIntact stage.old }
    ensures mark { IfOk result (λ mark. mark ≡ mark_of bytes.now) }
    ensures names { OnOk result (stage.new.names ≡ with_file file stage.old.names) }
    ensures files { OnOk result
        (stage.new.files ≡ option_map (appended file bytes.now) stage.old.files) }
    ensures intact { OnOk result (IsIntact stage.new) }
    ensures cause { HasDiskCause stage.old.failed stage.new.failed result }
{
    let mark = mark_of(bytes);
    append_file(stage, file, bytes)?;
    Ok(mark)
}

/// The primary keys whose values these columns have. The columns are taken. Takes no memory.
pub(crate) fn take_marks(alloc: Global, columns: &mut Vec<ColumnData>) -> Marks
    requires some { 0 < length columns.old.items }
    requires even { (count : ℕ) × HaveKeys columns.old.items count }
    ensures { (count : ℕ) → HaveKeys columns.old.items count
        → result ≡ rows_of columns.old.items count }
{
    let count = columns[0].len();
    Marks::of_columns(mem::replace(columns, Vec::new(alloc)), count)
}
