// Bytes, names of the root, and the files after them.
ghost use Rattle.std.specs.Prelude.{◌≡◌, ◌++◌, IfOk, codes, decimal, string_bytes};

use crate::{NoMemory, Seq};
use std::alloc::Global;

/// Bytes, as those of a String value.
pub type Bytes = Seq<u8>;

/// A name of a table, of a column or of the root, as its bytes.
pub type Name = Seq<u8>;

/// A file of a folder of the root.
#[derive(Clone, Copy, Debug, PartialEq, Eq)]
pub enum FileId {
    /// The statement of a create or mutation entry.
    Entry,
    Manifest,
    Marks,
    Primary,
    /// The file of the skip index with this number, from 0.
    Skip(u32),
    /// The file of the column with this number, from 0.
    Column(u32),
}

impl FileId {
    ghost use Rattle.mt_base.specs.Files.{file_name, same_file};

    /// Whether both are one file.
    pub fn is(self, other: FileId) -> bool
        ensures { result ≡ same_file self other }
    {
        self == other
    }

    /// The name of the file in its folder: `entry.bin`, `manifest.bin`, `marks.bin`, `primary.bin`, and `s0.bin` and `c0.bin` and so
    /// on for the skip indexes and the columns.
    pub fn name(self, alloc: Global) -> Result<String, NoMemory>
        ensures { IfOk result (λ name. string_bytes name ≡ file_name self) }
    {
        match self {
            FileId::Entry => Ok(String::from_str(alloc, "entry.bin")?),
            FileId::Manifest => Ok(String::from_str(alloc, "manifest.bin")?),
            FileId::Marks => Ok(String::from_str(alloc, "marks.bin")?),
            FileId::Primary => Ok(String::from_str(alloc, "primary.bin")?),
            FileId::Skip(number) => numbered(alloc, "s", number),
            FileId::Column(number) => numbered(alloc, "c", number),
        }
    }
}

// The name of a file that is one of many, with its number.
fn numbered(alloc: Global, letter: &str, number: u32) -> Result<String, NoMemory>
    ensures { IfOk result (λ name. string_bytes name ≡ letter.now ++ decimal number
        ++ codes ".bin") }
{
    Ok(format!(in alloc; "{letter}{number}.bin")?)
}
