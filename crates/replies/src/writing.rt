// Replies as they are written.
ghost use Rattle.std.specs.Prelude.{◌≡◌, IfOk, OnOk, OnErr};
ghost use Rattle.std.specs.Io.KnownBytes.{Appends};
ghost use Rattle.mt_outside.specs.Causes.{HasCause};
ghost use Rattle.run_streams.specs.Streams.{AppendsFront};
ghost use Rattle.replies.specs.Tallies.{tallied};

use crate::reply::Reply;
use crate::tally::Tally;
use mt_outside::{Sink, WriteFault};
use run_streams::write_all;

/// Writes a reply whole. What the replies said with it.
///
/// A fault only where the sink's count rose; a front of the reply was written then.
pub fn write_reply<K: Sink>(sink: &mut K, tally: Tally, reply: &Reply) -> Result<Tally, WriteFault>
    ensures tally { IfOk result (λ more. more ≡ tallied tally reply.now) }
    ensures all { OnOk result (Appends (K.written sink.old) (K.written sink.new) reply.now) }
    ensures front { OnErr result
        (AppendsFront (K.written sink.old) (K.written sink.new) reply.now) }
    ensures cause { HasCause (K.failed sink.old) (K.failed sink.new) result }
{
    let bytes = reply.bytes();
    match write_all(sink, bytes) {
        Ok(()) => Ok(tally.with(reply)),
        Err(fault) => Err(fault),
    }
}
