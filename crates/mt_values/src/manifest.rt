// What a part's manifest says of its other files.
use mt_base::Seq;

/// The size and the digest of a file.
#[derive(Clone, Copy, Debug, PartialEq, Eq)]
pub struct FileMark {
    /// How many bytes it has.
    pub size: u64,
    /// The SHA-256 of its bytes.
    pub digest: [u8; 32],
}

/// What a part's manifest says: its number of rows, and the size and digest of each other file, in their order.
#[derive(Drop)]
pub struct Manifest {
    pub rows: u64,
    pub files: Seq<FileMark>,
}

/// What is kept of a part in memory, beside its folder.
#[derive(Drop)]
pub struct Loaded {
    pub manifest: Manifest,
}
