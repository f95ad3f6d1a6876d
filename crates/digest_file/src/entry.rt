// The entry of a statement.
ghost use Rattle.std.specs.Prelude.{◌≡◌, ◌^◌, ◌<◌, List, ℕ, IfErr, IfOk, length};
ghost use Rattle.std.specs.Result.{IsOkAnd};
ghost use Rattle.sha2.specs.Sha256.{sha256};
ghost use Rattle.mt_values.specs.Manifests.{entry_bytes};
ghost use Rattle.digest_file.specs.Faults.{Locates};
ghost use Rattle.digest_file.specs.Spellings.{IsEntry, IsEntryOf};

use crate::digest::push_digest;
use crate::frame::parted;
use byte_numbers::{FormatFault, push_u32};
use mt_base::{NoMemory, Seq};
use std::alloc::Global;

/// The first bytes of an entry.
const FIRST: [u8; 4] = *b"MTS1";

/// The entry of a statement's text: `MTS1`, the length of the text, the text, and the digest of all that.
///
/// `NoMemory` where an allocation failed.
pub fn entry_bytes(alloc: Global, text: &[u8]) -> Result<Vec<u8>, NoMemory>
    requires { length text.now < 2 ^ 32 }
    ensures { IfOk result (λ v. v.items ≡ entry_bytes sha256 text.now) }
{
    let mut bytes = Seq::with_capacity(alloc, text.len() + 40)?;
    bytes.extend(&FIRST)?;
    push_u32(&mut bytes, text.len() as u32)?;
    bytes.extend(text)?;
    push_digest(&mut bytes)?;
    Ok(bytes.into_vec())
}

/// The text of the statement whose entry the bytes are. Takes no memory.
///
/// `Malformed` at the bytes' first fault where they are no entry.
pub fn read_entry(bytes: &[u8]) -> Result<&[u8], FormatFault>
    ensures read { IfOk result (λ text. IsEntryOf bytes.now text.now) }
    ensures spelled { (text : List ℕ) → IsEntryOf bytes.now text
        → IsOkAnd result (λ found. found.now ≡ text) }
    ensures fault { IfErr result (Locates IsEntry bytes.now) }
{
    let frame = parted(bytes, &FIRST, 0, 1)?;
    Ok(frame.items)
}
