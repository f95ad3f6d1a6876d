// Where the script comes from, and where the replies go.
ghost use Rattle.std.specs.Prelude.{◌≡◌, ◌<◌, List, ℕ, Option, length, IfOk};
ghost use Rattle.std.specs.Io.{ReadsAtMost, WritesAtMost};
ghost use Rattle.std.specs.Io.KnownBytes.{ReadConsumes, WriteAppends};
ghost use Rattle.mt_outside.specs.Causes.{HasCause};

use thiserror::Error;

/// A read failed.
#[derive(Clone, Copy, Debug, Error)]
#[error("a read failed")]
pub struct ReadFault;

/// A write failed.
#[derive(Clone, Copy, Debug, Error)]
#[error("a write failed")]
pub struct WriteFault;

/// Where bytes are read from.
pub trait Source {
    /// The bytes that are left, where the source tells.
    ghost left: { Self → Option (List ℕ) };

    /// How many reads have failed, as far as 64 bits count.
    ghost failed: { Self → ℕ };

    /// Moves bytes from the front of what is left into the buffer, and answers how many.
    /// 0 for a buffer that is not empty is the end.
    ///
    /// A fault comes only where the count of faults rose in this call; nothing was read then.
    fn read(&mut self, buf: &mut [u8]) -> Result<usize, ReadFault>
        ensures bound { ReadsAtMost result buf.new }
        ensures bytes { ReadConsumes (left self.old) (left self.new) result buf.new }
        ensures cause { HasCause (failed self.old) (failed self.new) result };

    /// How many reads have failed.
    fn faults(&self) -> u64
        ensures { result ≡ failed self.now };
}

/// Where bytes are written to.
pub trait Sink {
    /// The bytes that were written, where the sink tells.
    ghost written: { Self → Option (List ℕ) };

    /// How many writes have failed, as far as 64 bits count.
    ghost failed: { Self → ℕ };

    /// Adds bytes of the piece, from its front on, and answers how many: at least one of a piece that is not empty.
    ///
    /// A fault comes only where the count of faults rose in this call; nothing was written then.
    fn write(&mut self, bytes: &[u8]) -> Result<usize, WriteFault>
        ensures bound { WritesAtMost result bytes.now }
        ensures some { IfOk result (λ n. 0 < length bytes.now → 0 < n) }
        ensures bytes { WriteAppends (written self.old) (written self.new) result bytes.now }
        ensures cause { HasCause (failed self.old) (failed self.new) result };

    /// How many writes have failed.
    fn faults(&self) -> u64
        ensures { result ≡ failed self.now };
}
