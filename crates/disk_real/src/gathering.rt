// Bytes that are gathered, and then written together.
ghost use Rattle.std.specs.Prelude.{◌≡◌, ◌+◌, ◌≤◌, ◌++◌, [], length, OnOk};
ghost use Rattle.std.specs.Io.KnownBytes.{Appends, append_known};

use crate::system::fault;
use crate::tries::write_whole;
use mt_base::NoMemory;
use mt_outside::DiskError;
use std::alloc::Global;
use std::io::Write;
use std::marker::Model;

/// How many bytes are gathered at most.
const MOST_GATHERED: usize = 1 << 16;

/// A writer, and the bytes that are gathered for it: those that it was handed last. Contracts see both.
///
/// A file that grows by few bytes at a time is so written by few calls of the system.
#[derive(Drop)]
pub(crate) struct Gathering<W> {
    writer: W,
    bytes: Vec<u8>,
}

impl<W> Model for Gathering<W> {
    ghost use Rattle.std.specs.Prelude.{◌≤◌, length};
    ghost use Rattle.disk_real.specs.declared.gathering.TheConstants.{MOST_GATHERED};
    ghost use Rattle.disk_real.specs.States.{Gathered};

    ghost Value = { Gathered W };

    ghost view = { λ g. record { writer = g.writer; bytes = g.bytes.items } };

    ghost invariant = { λ g. length g.bytes.items ≤ MOST_GATHERED };
}

impl<W: Write> Gathering<W> {
    /// A writer for which nothing is gathered. Takes no memory.
    pub(crate) fn new(alloc: Global, writer: W) -> Gathering<W>
        ensures writer { result.writer ≡ writer }
        ensures bytes { result.bytes ≡ [] }
    {
        Gathering {
            writer,
            bytes: Vec::new(alloc),
        }
    }

    /// The writer.
    pub(crate) fn writer(&self) -> &W
        ensures { result.now ≡ self.now.writer }
    {
        &self.writer
    }

    /// Writes what is gathered.
    ///
    /// After an error a front of it may be written.
    pub(crate) fn write_out(&mut self) -> Result<(), DiskError>
        ensures written { OnOk result
            (Appends (W.contents self.old.writer) (W.contents self.new.writer) self.old.bytes) }
        ensures none { OnOk result (self.new.bytes ≡ []) }
    {
        write_whole(&mut self.writer, &self.bytes).map_err(fault)?;
        self.bytes.clear();
        Ok(())
    }

    /// Adds bytes after those that were handed over before. Where they are too many to be gathered with these, these are written.
    ///
    /// After an error a front of what was gathered may be written, and of the bytes.
    pub(crate) fn push(&mut self, bytes: &[u8]) -> Result<(), DiskError>
        ensures { OnOk result (Appends
            (append_known (W.contents self.old.writer) self.old.bytes)
            (append_known (W.contents self.new.writer) self.new.bytes) bytes.now) }
    {
        if bytes.len() <= MOST_GATHERED - self.bytes.len() {
            return Ok(self.gather(bytes)?);
        }
        self.write_out()?;
        if bytes.len() <= MOST_GATHERED {
            return Ok(self.gather(bytes)?);
        }
        write_whole(&mut self.writer, bytes).map_err(fault)
    }

    // Keeps bytes after those that are gathered.
    fn gather(&mut self, bytes: &[u8]) -> Result<(), NoMemory>
        requires { length self.old.bytes + length bytes.now ≤ MOST_GATHERED }
        ensures same { self.new.writer ≡ self.old.writer }
        ensures bytes { OnOk result (self.new.bytes ≡ self.old.bytes ++ bytes.now) }
    {
        self.bytes.extend_from_slice(bytes)?;
        Ok(())
    }
}
