// The manifest of a part.
ghost use Rattle.std.specs.Prelude.{◌≡◌, ◌++◌, ◌*◌, ◌^◌, ◌<◌, ◌≤◌, All, IfErr, IfOk, MatchResult, OnOk, flat_map, length, take};
ghost use Rattle.sha2.specs.Sha256.{sha256};
ghost use Rattle.mt_values.specs.declared.manifest.Manifest.{Manifest};
ghost use Rattle.mt_values.specs.Manifests.{manifest_bytes, mark_bytes};
ghost use Rattle.digest_file.specs.Faults.{Explains};
ghost use Rattle.digest_file.specs.Spellings.{AreMarks, IsManifest, IsManifestOf, IsMark};

use crate::digest::push_digest;
use crate::frame::parted;
use byte_numbers::{FormatFault, first_u64, front, push_u32, push_u64};
use mt_base::{NoMemory, Seq};
use mt_values::{Bytes, FileMark, Manifest};
use std::alloc::Global;

/// The first bytes of a manifest: `MTP1`, and the version 1 in two bytes.
const FIRST: [u8; 6] = *b"MTP1\x01\x00";

/// How many bytes the mark of a file takes.
const MARK_SIZE: usize = 40;

/// The bytes of a manifest: `MTP1`, the version 1, the number of rows, the number of files, the size and the digest of each,
/// and the digest of all that.
///
/// `NoMemory` where an allocation failed.
pub fn manifest_bytes(alloc: Global, manifest: &Manifest) -> Result<Vec<u8>, NoMemory>
    requires { length manifest.now.files < 2 ^ 32 }
    ensures bytes { IfOk result (λ v. v.items ≡ manifest_bytes sha256 manifest.now) }
    ensures readable { IfOk result (λ v. IsManifestOf v.items manifest.now) }
{
    let mut bytes = Seq::with_capacity(alloc, manifest.files.len() * MARK_SIZE + 50)?;
    bytes.extend(&FIRST)?;
    push_u64(&mut bytes, manifest.rows)?;
    push_u32(&mut bytes, manifest.files.len() as u32)?;
    push_marks(&mut bytes, manifest.files.as_slice())?;
    push_digest(&mut bytes)?;
    Ok(bytes.into_vec())
}

/// Adds the bytes of marks, in order.
///
/// `NoMemory` where an allocation failed; some of the bytes may have been added then.
fn push_marks(bytes: &mut Bytes, files: &[FileMark]) -> Result<(), NoMemory>
    ensures bytes { OnOk result (bytes.new ≡ bytes.old ++ flat_map mark_bytes files.now) }
    ensures marks { OnOk result (All IsMark files.now) }
{
    for file in files {
        push_mark(bytes, file)?;
    }
    Ok(())
}

/// Adds the bytes of a mark.
///
/// `NoMemory` where an allocation failed; some of the bytes may have been added then.
fn push_mark(bytes: &mut Bytes, file: &FileMark) -> Result<(), NoMemory>
    ensures bytes { OnOk result (bytes.new ≡ bytes.old ++ mark_bytes file.now) }
    ensures mark { OnOk result (IsMark file.now) }
{
    push_u64(bytes, file.size)?;
    bytes.extend(&file.digest)?;
    Ok(())
}

/// The manifest whose bytes these are.
///
/// `Malformed` at the bytes' first fault where they are no manifest's; `NoMemory` where an allocation failed.
pub fn read_manifest(alloc: Global, bytes: &[u8]) -> Result<Manifest, FormatFault>
    ensures read { IfOk result (IsManifestOf bytes.now) }
    ensures spelled { (manifest : Manifest) → IsManifestOf bytes.now manifest
        → MatchResult result (λ found. found ≡ manifest) (λ e. e ≡ FormatFault.NoMemory) }
    ensures fault { IfErr result (Explains IsManifest bytes.now) }
{
    let frame = parted(bytes, &FIRST, 8, MARK_SIZE)?;
    let rows = first_u64(frame.middle);
    let files = marks(alloc, frame.items, frame.count)?;
    Ok(Manifest { rows, files })
}

/// The marks that the bytes are, so many of them.
///
/// `NoMemory` where an allocation failed.
fn marks(alloc: Global, bytes: &[u8], count: u32) -> Result<Seq<FileMark>, NoMemory>
    requires { length bytes.now ≡ 40 * count }
    ensures { IfOk result (AreMarks bytes.now count) }
{
    let mut files = Seq::with_capacity(alloc, count as usize)?;
    for place in 0..count as usize {
        files.push(first_mark(&bytes[MARK_SIZE * place..]))?;
    }
    Ok(files)
}

/// The mark that the bytes begin with.
fn first_mark(bytes: &[u8]) -> FileMark
    requires { 40 ≤ length bytes.now }
    ensures mark { IsMark result }
    ensures bytes { mark_bytes result ≡ take 40 bytes.now }
{
    FileMark {
        size: first_u64(bytes),
        digest: front(&bytes[8..]),
    }
}
