// Which files the manifest of a part has marks of, in the order of the format (docs/formats.md, "Parts").
ghost use Rattle.std.specs.Prelude.{◌≡◌, ◌++◌, ◌-◌, ◌^◌, length, min, slice_get};
ghost use Rattle.part_writer.specs.PartFiles.{column_ids, content_ids, skip_ids};

use mt_values::{FileId, Schema};

/// How many files come before those of the skip indexes: `marks.bin` and `primary.bin`.
const BEFORE_INDEXES: u32 = 2;

/// How many files the manifest of a part has marks of; the last number of 64 bits where they are more than any.
pub fn content_count(schema: &Schema) -> usize
    ensures { result ≡ min (length (content_ids schema.now)) (2 ^ 64 - 1) }
{
    let numbered = schema.indexes.len().saturating_add(schema.columns.len());
    numbered.saturating_add(BEFORE_INDEXES as usize)
}

/// The file of which the manifest of a part has a mark at this place; none past the last.
pub fn content_file(schema: &Schema, place: u32) -> Option<FileId>
    ensures { result ≡ slice_get (content_ids schema.now) place }
{
    match place {
        0 => Some(FileId::Marks),
        1 => Some(FileId::Primary),
        _ => numbered_file(schema, place - BEFORE_INDEXES),
    }
}

/// The file at this place of those of the skip indexes and, after them, of the columns; none past the last.
fn numbered_file(schema: &Schema, place: u32) -> Option<FileId>
    ensures { result ≡ slice_get (skip_ids schema.now ++ column_ids schema.now) place }
{
    let indexes = schema.indexes.len();
    if (place as usize) < indexes {
        return Some(FileId::Skip(place));
    }
    column_file(schema, place - indexes as u32)
}

/// The file of the column with this number; none past the last.
fn column_file(schema: &Schema, place: u32) -> Option<FileId>
    ensures { result ≡ slice_get (column_ids schema.now) place }
{
    if (place as usize) < schema.columns.len() {
        Some(FileId::Column(place))
    } else {
        None
    }
}
