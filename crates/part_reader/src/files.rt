// A file of a folder, read whole or from a place to a place.
ghost use Rattle.std.specs.Prelude.{◌≡◌, ◌≤◌, ◌-◌, IfErr, IfOk, IsErrOf, Some, length, slice_range};
ghost use Rattle.mt_outside.specs.Files.{Files, bytes_of};
ghost use Rattle.mt_outside.specs.Leaves.{LeavesArm};
ghost use Rattle.part_reader.specs.Faults.{ExplainsFile, IsNoDamage};

use crate::reading::{NO_MARK, PartFault};
use mt_outside::Arm;
use mt_values::{FileId, FileMark};
use std::alloc::{AllocError, Global};

/// How many bytes are read at once.
const PIECE: usize = 65536;

/// A buffer of this many bytes. It is on the heap, so that a small stack serves.
fn buffer(alloc: Global, size: usize) -> Result<Vec<u8>, AllocError>
    ensures { IfOk result (λ v. length v.items ≡ size) }
{
    Ok(vec![in alloc; 0; size]?)
}

/// All the bytes of a file of a folder, read in pieces of 64 KiB; none where the file is not there.
///
/// `Fault` only where the arm's count rose in this call; `NoMemory` where an allocation failed. It is never `Damaged`.
pub fn read_file<R: Arm>(
    alloc: Global,
    arm: &mut R,
    dir: &R::Dir,
    file: FileId,
) -> Result<Vec<u8>, PartFault>
    ensures bytes { (files : Files) → R.Dir.files dir.now ≡ Some files
        → IfOk result (λ v. v.items ≡ bytes_of file files) }
    ensures arm { LeavesArm R.Arm arm.old arm.new (IsErrOf result PartFault.Fault) }
    ensures sound { IfErr result IsNoDamage }
{
    let mut bytes = Vec::new(alloc);
    let mut heap = buffer(alloc, PIECE)?;
    let piece = heap.as_mut_slice();
    for _read in 0..u64::MAX {
        let count = arm.read(dir, file, bytes.len() as u64, piece)?;
        if count == 0 {
            return Ok(bytes);
        }
        bytes.extend_from_slice(&piece[..count])?;
    }
    Err(PartFault::NoMemory)
}

/// All the bytes of a file of which the manifest has this mark, or none. The byte past the mark's length is read first.
///
/// `Damaged` at 0 where there is one: no more is read then, and `NO_MARK` is called found. Else the errors are those of `read_file`.
pub fn read_marked<R: Arm>(
    alloc: Global,
    arm: &mut R,
    dir: &R::Dir,
    file: FileId,
    marked: Option<FileMark>,
) -> Result<Vec<u8>, PartFault>
    ensures bytes { (files : Files) → R.Dir.files dir.now ≡ Some files
        → IfOk result (λ v. v.items ≡ bytes_of file files) }
    ensures damaged { IfErr result
        (ExplainsFile (R.Dir.files dir.now) marked file (λ bytes place. ⊥)) }
    ensures arm { LeavesArm R.Arm arm.old arm.new (IsErrOf result PartFault.Fault) }
{
    if let Some(wanted) = marked {
        let mut next = [0];
        if arm.read(dir, file, wanted.size, &mut next)? > 0 {
            return Err(PartFault::Damaged {
                file,
                place: 0,
                wanted,
                found: NO_MARK,
            });
        }
    }
    read_file(alloc, arm, dir, file)
}

/// Where bytes of a file begin, and where those after them do, both counted from 0.
#[derive(Clone, Copy, Debug)]
pub struct Span {
    pub start: u64,
    pub end: u64,
}

/// The bytes of a file of a folder between two places, read in pieces of 64 KiB at most; those up to its end where it ends before.
/// No other byte is read.
///
/// `Fault` only where the arm's count rose in this call; `NoMemory` where an allocation failed. It is never `Damaged`.
pub fn read_span<R: Arm>(
    alloc: Global,
    arm: &mut R,
    dir: &R::Dir,
    file: FileId,
    span: Span,
) -> Result<Vec<u8>, PartFault>
    ensures bytes { (files : Files) → R.Dir.files dir.now ≡ Some files
        → IfOk result (λ v. v.items ≡ slice_range (bytes_of file files) span.start span.end) }
    ensures few { IfOk result (λ v. length v.items ≤ span.end - span.start) }
    ensures sound { IfErr result IsNoDamage }
    ensures arm { LeavesArm R.Arm arm.old arm.new (IsErrOf result PartFault.Fault) }
{
    let size = span.end.saturating_sub(span.start) as usize;
    let mut bytes = Vec::with_capacity(alloc, size)?;
    let mut heap = buffer(alloc, size.min(PIECE))?;
    let piece = heap.as_mut_slice();
    for _read in 0..u64::MAX {
        let most = (size - bytes.len()).min(piece.len());
        if most == 0 {
            return Ok(bytes);
        }
        let count = arm.read(
            dir,
            file,
            span.start + bytes.len() as u64,
            &mut piece[..most],
        )?;
        if count == 0 {
            return Ok(bytes);
        }
        bytes.extend_from_slice(&piece[..count])?;
    }
    Err(PartFault::NoMemory)
}
