// Names of files and folders, and their paths.
ghost use Rattle.std.specs.Prelude.{◌≡◌, ◌++◌, IfOk, MatchOption, IsTrue, false, codes, decimal, string_bytes};
ghost use Rattle.std.specs.List.{list_all};
ghost use Rattle.file_names.specs.Names.{is_name_byte, is_root_name};

use mt_base::{Name, NoMemory};
use std::alloc::Global;

/// A copy of a text.
pub fn owned(alloc: Global, text: &str) -> Result<String, NoMemory>
    ensures { IfOk result (λ copy. string_bytes copy ≡ text.now) }
{
    Ok(String::from_str(alloc, text)?)
}

// A letter, a digit, an underscore or a dot.
fn is_name_byte(byte: u8) -> bool
    ensures { result ≡ is_name_byte byte }
{
    matches!(byte, b'A'..=b'Z' | b'a'..=b'z' | b'0'..=b'9' | b'_' | b'.')
}

// Whether there are only such bytes.
fn are_name_bytes(bytes: &[u8]) -> bool
    ensures { result ≡ list_all is_name_byte bytes.now }
{
    bytes.iter().all(|byte| is_name_byte(*byte))
}

/// Whether a folder of the root may have this name: letters, digits, underscores and dots, at least one, the first of them no dot.
pub fn is_root_name(name: &[u8]) -> bool
    ensures { result ≡ is_root_name name.now }
{
    match name.first() {
        Some(first) if *first != b'.' => are_name_bytes(name),
        _ => false,
    }
}

/// The text of a name that a folder of the root may have, and nothing of any other name.
pub fn root_name(name: &Name) -> Option<&str>
    ensures { MatchOption result (is_root_name name.now ≡ false) (λ text. (text.now ≡ name.now)
        × IsTrue (is_root_name name.now)) }
{
    let bytes = name.as_slice();
    if !is_root_name(bytes) {
        return None;
    }
    match str::from_utf8(bytes) {
        Ok(text) => Some(text),
        // The bytes of such a name are ASCII.
        Err(_) => unreachable!(),
    }
}

/// The path of what has this name in a folder.
pub fn path_in(alloc: Global, folder: &str, name: &str) -> Result<String, NoMemory>
    ensures { IfOk result (λ path. string_bytes path ≡ folder.now ++ codes "/" ++ name.now) }
{
    Ok(format!(in alloc; "{folder}/{name}")?)
}
