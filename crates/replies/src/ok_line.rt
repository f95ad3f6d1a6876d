// The line after an accepted command, whose memory is taken before its number is known.
ghost use Rattle.std.specs.Prelude.{◌≡◌, ◌+◌, ◌++◌, ◌≤◌, codes, length, vec_capacity, vec_len};
ghost use Rattle.mt_model.specs.Reply.{ok_line};
ghost use Rattle.replies.specs.declared.ok_line.TheConstants.{ROOM};

use crate::reply::Reply;
use itoa::Buffer;
use mt_base::NoMemory;
use std::alloc::Global;

/// The line after an accepted command, without its number yet. Filling it in takes no memory, so a turn that accepts a command has its
/// line. An INSERT whose next turn is out of memory has no reply all the same.
#[derive(Drop)]
pub struct OkLine {
    bytes: Vec<u8>,
    ghost begun: { bytes.items ≡ codes "OK " },
    ghost room: { vec_len bytes + ROOM ≤ vec_capacity bytes },
}

/// How many bytes a number of 64 bits and the line's end take at most.
const ROOM: usize = 21;

impl OkLine {
    /// The memory of a line.
    ///
    /// `NoMemory` where an allocation failed.
    pub fn new(alloc: Global) -> Result<OkLine, NoMemory> {
        let mut bytes = Vec::with_capacity(alloc, 3 + ROOM)?;
        push_all(&mut bytes, b"OK ");
        Ok(OkLine { bytes })
    }

    /// The line of a command that made the history this long. Takes no memory.
    pub fn fill(self, place: u64) -> Reply
        ensures { result ≡ ok_line place }
    {
        let OkLine { mut bytes } = self;
        let mut digits = Buffer::new();
        push_all(&mut bytes, digits.format(place).as_bytes());
        bytes.push_reserved(b'\n');
        Reply::answer(bytes)
    }
}

// Adds bytes that there is room for.
fn push_all(bytes: &mut Vec<u8>, more: &[u8])
    requires { vec_len bytes.old + length more.now ≤ vec_capacity bytes.old }
    ensures items { bytes.new.items ≡ bytes.old.items ++ more.now }
    ensures len { vec_len bytes.new ≡ vec_len bytes.old + length more.now }
    ensures room { vec_capacity bytes.new ≡ vec_capacity bytes.old }
{
    for byte in more {
        bytes.push_reserved(*byte);
    }
}
