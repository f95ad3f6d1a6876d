// Files read and written whole, by calls that are tried again where they were interrupted.
ghost use Rattle.std.specs.Prelude.{◌≤◌, length, IfOk, OnOk};
ghost use Rattle.std.specs.Io.KnownBytes.{Appends};

use mt_outside::{read_some, write_some};
use std::io;
use std::io::{Read, Write};

/// Writes, until all is taken. After an error a front of the bytes may be written.
pub(crate) fn write_whole<W: Write>(writer: &mut W, bytes: &[u8]) -> io::Result<()>
    ensures { OnOk result (Appends (W.contents writer.old) (W.contents writer.new) bytes.now) }
{
    let mut taken = 0usize;
    while taken < bytes.len() {
        taken += write_some(writer, &bytes[taken..])?;
    }
    Ok(())
}

/// Reads, until the buffer is full or nothing is left, and answers how many bytes. After an error the buffer may hold anything.
pub(crate) fn read_whole<R: Read>(reader: &mut R, buf: &mut [u8]) -> io::Result<usize>
    ensures bound { IfOk result (λ n. n ≤ length buf.new) }
{
    let mut count = 0usize;
    while count < buf.len() {
        let more = read_some(reader, &mut buf[count..])?;
        if more == 0 {
            break;
        }
        count += more;
    }
    Ok(count)
}
