// How long files may be whose format bounds their length.
ghost use Rattle.std.specs.Prelude.{◌≡◌, ◌↔◌, ◌<◌, IsSomeAnd, IsTrue};
ghost use Rattle.disk_real.specs.Sizes.{most_bytes};

use mt_base::{COLUMN_LIMIT, FileId, INDEX_LIMIT, STATEMENT_LIMIT};

// The first bytes, the length of the text, the text and the digest (docs/formats.md, "Entries").
const MOST_ENTRY: u64 = 4 + 4 + STATEMENT_LIMIT as u64 + 32;

// What stands before the marks, a mark of each other file, and the digest (docs/formats.md, "Manifests").
const MOST_MANIFEST: u64 = 18 + 40 * (2 + INDEX_LIMIT as u64 + COLUMN_LIMIT as u64) + 32;

/// How many bytes a file has at most, where its format says it.
pub(crate) fn most_bytes(file: FileId) -> Option<u64>
    ensures { result ≡ most_bytes file }
{
    match file {
        FileId::Entry => Some(MOST_ENTRY),
        FileId::Manifest => Some(MOST_MANIFEST),
        _ => None,
    }
}

/// Whether a place of a file is past all that its format lets it have.
pub(crate) fn is_past(file: FileId, at: u64) -> bool
    ensures { IsTrue result ↔ IsSomeAnd (most_bytes file) (λ most. most < at) }
{
    match most_bytes(file) {
        Some(most) => at > most,
        None => false,
    }
}
