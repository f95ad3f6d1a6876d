// A reply, and the number of the refusal that it is.
ghost use Rattle.std.specs.Prelude.{◌≡◌, IfOk};
ghost use Rattle.mt_model.specs.Refusals.{code_of, refusal_line};
ghost use Rattle.mt_model.specs.Reply.{ok_line};

use mt_base::NoMemory;
use mt_model::{Refusal, ok_line, refusal_line};
use std::alloc::Global;
use std::marker::Model;

/// A reply: its bytes, and the number of the refusal that it is, 0 for one that is none. Contracts see the list of the bytes.
#[derive(Drop)]
pub struct Reply {
    bytes: Vec<u8>,
    code: u8,
}

impl Model for Reply {
    ghost use Rattle.std.specs.Prelude.{ℕ, List, ◌≡◌};
    ghost use Rattle.mt_model.specs.Refusals.{code_of};

    ghost Value = { List ℕ };

    ghost view = { λ r. r.bytes.items };

    ghost invariant = { λ r. r.code ≡ code_of r.bytes.items };
}

impl Reply {
    /// The line of a refusal.
    ///
    /// `NoMemory` where an allocation failed.
    pub fn refused(alloc: Global, why: &Refusal) -> Result<Reply, NoMemory>
        ensures { IfOk result (λ reply. reply ≡ refusal_line why.now) }
    {
        let bytes = refusal_line(alloc, why)?;
        let code = why.code();
        Ok(Reply { bytes, code })
    }

    /// The line after an accepted command, and after an INSERT without rows. `place` is the length of the history.
    ///
    /// `NoMemory` where an allocation failed.
    pub fn accepted(alloc: Global, place: u64) -> Result<Reply, NoMemory>
        ensures { IfOk result (λ reply. reply ≡ ok_line place) }
    {
        Ok(Reply::answer(ok_line(alloc, place)?))
    }

    /// A reply that is no refusal. Takes no memory.
    pub fn answer(bytes: Vec<u8>) -> Reply
        requires { code_of bytes.items ≡ 0 }
        ensures { result ≡ bytes.items }
    {
        Reply { bytes, code: 0 }
    }

    /// The bytes, as they are written.
    pub fn bytes(&self) -> &[u8]
        ensures { result.now ≡ self.now }
    {
        self.bytes.as_slice()
    }

    /// The number of the refusal: 1 for `E01`, and so on; 0 for a reply that is none.
    pub fn code(&self) -> u8
        ensures { result ≡ code_of self.now }
    {
        self.code
    }
}
