// Reading all of a source, and writing all of a piece, in whatever pieces they take.
ghost use Rattle.std.specs.Prelude.{◌≡◌, ◌≤◌, ◌<◌, ◌^◌, ℕ, List, Some, IfOk, IsErrOf, OnOk, OnErr, length};
ghost use Rattle.std.specs.Io.KnownBytes.{Consumes, Appends, IsAtEnd};
ghost use Rattle.mt_outside.specs.Causes.{Rose, HasCause};
ghost use Rattle.run_streams.specs.Streams.{AppendsFront, ConsumesMost};

use mt_outside::{ReadFault, Sink, Source, WriteFault};
use std::alloc::{AllocError, Global};

/// How many bytes are read at once, at most.
const PIECE: usize = 65536;

/// No script is read past this many bytes.
pub const MOST_BYTES: usize = 1 << 40;

/// Why a script was not read to its end.
#[derive(Clone, Copy)]
pub enum SourceStop {
    NoMemory,
    /// A read failed.
    Fault,
    /// 2^40 bytes were read, and no end was met.
    TooLong,
}

impl From<AllocError> for SourceStop {
    ghost use Rattle.std.specs.Prelude.{◌≡◌};
    ghost use Rattle.run_streams.specs.declared.streams.SourceStop.TheVariants.{NoMemory};

    ghost from_gives = { λ _ e. e ≡ NoMemory };

    fn from(_: AllocError) -> Self {
        SourceStop::NoMemory
    }
}

impl From<ReadFault> for SourceStop {
    ghost use Rattle.std.specs.Prelude.{◌≡◌};
    ghost use Rattle.run_streams.specs.declared.streams.SourceStop.TheVariants.{Fault};

    ghost from_gives = { λ _ e. e ≡ Fault };

    fn from(_: ReadFault) -> Self {
        SourceStop::Fault
    }
}

/// A buffer of this many bytes. It is on the heap, so that a small stack serves.
fn buffer(alloc: Global, size: usize) -> Result<Vec<u8>, AllocError>
    ensures { IfOk result (λ v. length v.items ≡ size) }
{
    Ok(vec![in alloc; 0; size]?)
}

/// All the bytes of a source, which are fewer than 2^40.
///
/// `Fault` only where the source's count rose, and else it stays; `TooLong` only once 2^40 bytes were read.
#[tactic(auto, using(crate::proofs::Known::consumes_more, crate::proofs::Known::consumes_none))]
pub fn read_all<S: Source>(alloc: Global, source: &mut S) -> Result<Vec<u8>, SourceStop>
    ensures all { IfOk result (λ v. Consumes (S.left source.old) (S.left source.new) v.items
        × IsAtEnd (S.left source.new)) }
    ensures short { IfOk result (λ v. length v.items < 2 ^ 40) }
    ensures fault { IsErrOf result SourceStop.Fault
        → Rose (S.failed source.old) (S.failed source.new) }
    ensures long { IsErrOf result SourceStop.TooLong
        → ConsumesMost (S.left source.old) (S.left source.new) }
    ensures later { S.failed source.old ≤ S.failed source.new }
    ensures calm { (IsErrOf result SourceStop.Fault → ⊥)
        → S.failed source.new ≡ S.failed source.old }
{
    let mut bytes = Vec::new(alloc);
    let mut heap = buffer(alloc, PIECE)?;
    let buf = heap.as_mut_slice();
    'pieces: while bytes.len() < MOST_BYTES {
        let room = (MOST_BYTES - bytes.len()).min(PIECE);
        let count = source.read(&mut buf[..room])?;
        if count == 0 {
            return Ok(bytes);
        }
        bytes.extend_from_slice(&buf[..count])?;
    }
    Err(SourceStop::TooLong)
}

/// Writes all of the bytes.
///
/// A fault only where the sink's count rose; a front of the bytes was written then.
#[tactic(auto, using(crate::proofs::Known::appends_more, crate::proofs::Known::appends_none))]
pub fn write_all<K: Sink>(sink: &mut K, bytes: &[u8]) -> Result<(), WriteFault>
    ensures all { OnOk result (Appends (K.written sink.old) (K.written sink.new) bytes.now) }
    ensures front { OnErr result
        (AppendsFront (K.written sink.old) (K.written sink.new) bytes.now) }
    ensures cause { HasCause (K.failed sink.old) (K.failed sink.new) result }
{
    let mut at = 0;
    while at < bytes.len() {
        match sink.write(&bytes[at..]) {
            Ok(count) => at += count,
            Err(fault) => return Err(fault),
        }
    }
    Ok(())
}
