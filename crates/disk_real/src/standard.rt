// The numbers of the standard streams.
ghost use Rattle.std.specs.Prelude.{◌≡◌, ◌≤◌, All, IfOk, IfSome, pos, ◌≤ℤ◌};
ghost use Rattle.std.specs.Fd.{file_raw_fd};

use crate::system::{System, open_to_read};
use mt_outside::DiskError;
use std::fs::File;
use std::os::fd::AsRawFd;

// A device that gives no bytes.
const NOTHING: &str = "/dev/null";

// The numbers of standard input, output and error are those up to this.
const LAST_STANDARD: i32 = 2;

/// The null device, at each of the numbers of standard input, output and error that was closed.
#[derive(Drop)]
pub struct StandardNumbers {
    _held: [Option<File>; 3],
}

/// Fills the numbers of standard input, output and error where they are closed, so that no file that is opened later gets one of them: it would be
/// read as the script, or written to as the replies. Call it before all else, and keep what it gives to the end.
///
/// The null device is opened to be read alone, so a closed input is empty, and each write to a closed output fails.
pub fn hold_standard_numbers<R: System>(rt: &R) -> Result<StandardNumbers, DiskError> {
    let mut held = [None, None, None];
    for place in &mut held {
        let file = open_to_read(rt, NOTHING)?;
        if file.as_raw_fd() > LAST_STANDARD {
            break;
        }
        *place = Some(file);
    }
    Ok(StandardNumbers { _held: held })
}
