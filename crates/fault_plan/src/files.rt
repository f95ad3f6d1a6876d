// Which changes a crash lets happen, and what it leaves of files.
ghost use Rattle.std.specs.Prelude.{◌≡◌, ◌/◌, IfOk, length, map, replicate};
ghost use Rattle.fault_plan.specs.Images.{loses, has_happened, lost_file};

use mt_base::{NoMemory, Seq, Twin};
use mt_outside::{Files, Written};
use std::alloc::Global;

/// Whether files whose last append wasn't synced lose their bytes.
pub fn loses(choice: u64) -> bool
    ensures { result ≡ loses choice }
{
    choice >> 63 & 1 == 1
}

/// Whether the unsettled change with this number has happened.
pub fn has_happened(choice: u64, number: usize) -> bool
    ensures { result ≡ has_happened choice number }
{
    if number >= 63 {
        return true;
    }
    choice >> number & 1 == 1
}

// A file after a crash that loses bytes.
fn lost_file(alloc: Global, written: &Written) -> Result<Written, NoMemory>
    ensures { IfOk result (λ w. w ≡ lost_file written.now) }
{
    let file = written.file;
    if written.synced {
        let bytes = written.bytes.twin(alloc)?;
        return Ok(Written {
            file,
            bytes,
            synced: true,
        });
    }
    let half = written.bytes.len() / 2;
    let bytes = Seq::of(vec![in alloc; 0; half]?);
    Ok(Written {
        file,
        bytes,
        synced: false,
    })
}

/// Files after a crash that loses bytes.
pub fn lost_files(alloc: Global, files: &[Written]) -> Result<Files, NoMemory>
    ensures { IfOk result (λ v. v ≡ map lost_file files.now) }
{
    let mut left = Seq::with_capacity(alloc, files.len())?;
    for written in files {
        left.push(lost_file(alloc, written)?)?;
    }
    Ok(left)
}
