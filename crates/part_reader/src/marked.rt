// The marks that a manifest has of files, and what is said of bytes that were read of them.
ghost use Rattle.std.specs.Prelude.{◌≡◌, ◌+◌, MatchResult, Some, length, slice_get};
ghost use Rattle.part_damage.specs.part_writer.PartFiles.{mark_of};
ghost use Rattle.part_reader.specs.Faults.{ExplainsBytes, FitsAfter, fault_after, fault_of, wanted_of};
ghost use Rattle.part_damage.specs.Marks.{mark_for};

use crate::reading::{NO_MARK, PartFault};
use mt_values::{FileId, FileMark, Manifest, Schema};
use part_damage::column_file::FormatFault;
use part_damage::digest_file::mark_of;
use part_damage::part_writer::Loaded;

/// What an error says of a file whose bytes have the mark of the manifest, which is this one.
pub fn misspelled(file: FileId, mark: FileMark, error: FormatFault) -> PartFault
    ensures { result ≡ fault_of file mark error }
{
    match error {
        FormatFault::NoMemory => PartFault::NoMemory,
        FormatFault::Malformed { place } => PartFault::Damaged {
            file,
            place,
            wanted: mark,
            found: mark,
        },
    }
}

/// The mark of the bytes, where the manifest has it for the file.
///
/// `Damaged` at 0 where the manifest has another, or none. It is nothing else.
pub fn mark_found(
    schema: &Schema,
    manifest: &Manifest,
    file: FileId,
    bytes: &[u8],
) -> Result<FileMark, PartFault>
    ensures { MatchResult result (λ mark. (mark ≡ mark_of bytes.now)
        × (mark_for schema.now manifest.now file ≡ Some (mark_of bytes.now)))
        (ExplainsBytes (mark_for schema.now manifest.now file) file (λ place. ⊥) bytes.now) }
{
    let found = mark_of(bytes);
    let Some(wanted) = mark_at(schema, manifest, file) else {
        return Err(PartFault::Damaged {
            file,
            place: 0,
            wanted: NO_MARK,
            found,
        });
    };
    if found != wanted {
        return Err(PartFault::Damaged {
            file,
            place: 0,
            wanted,
            found,
        });
    }
    Ok(found)
}

/// The mark that the manifest of a table's part has of a file.
pub fn mark_at(schema: &Schema, manifest: &Manifest, file: FileId) -> Option<FileMark>
    ensures { result ≡ mark_for schema.now manifest.now file }
{
    let marks = manifest.files.as_slice();
    match file {
        FileId::Marks => marks.get(0).copied(),
        FileId::Primary => marks.get(1).copied(),
        FileId::Skip(number) => marks.get(number as usize + 2).copied(),
        FileId::Column(number) => mark_of_column(schema, marks, number),
        _ => None,
    }
}

/// The mark of the column with this number, of the marks of a manifest of a table's part.
fn mark_of_column(schema: &Schema, marks: &[FileMark], number: u32) -> Option<FileMark>
    ensures { result ≡ slice_get marks.now (number + length schema.now.indexes + 2) }
{
    let place = (number as usize + 2).saturating_add(schema.indexes.len());
    if place >= marks.len() {
        return None;
    }
    Some(marks[place])
}

/// The mark that the manifest of a part has of a file, or `NO_MARK` where it has none.
pub fn wanted_of(loaded: &Loaded, file: FileId) -> FileMark
    ensures { result ≡ wanted_of loaded.now file }
{
    match mark_at(&loaded.schema, &loaded.manifest, file) {
        Some(mark) => mark,
        None => NO_MARK,
    }
}

/// What an error says of bytes that were read from a place of a file. Their mark is taken only here, and compared with none.
pub fn misread(
    loaded: &Loaded,
    file: FileId,
    start: u64,
    bytes: &[u8],
    error: FormatFault,
) -> PartFault
    requires { FitsAfter start error }
    ensures { result ≡ fault_after start loaded.now file bytes.now error }
{
    match error {
        FormatFault::NoMemory => PartFault::NoMemory,
        FormatFault::Malformed { place } => PartFault::Damaged {
            file,
            place: start + place,
            wanted: wanted_of(loaded, file),
            found: mark_of(bytes),
        },
    }
}
