// What replies tell of their statements.
ghost use Rattle.std.specs.Prelude.{◌≡◌, false};
ghost use Rattle.replies.specs.Tallies.{tallied};

use crate::reply::Reply;

/// What the replies so far said.
#[derive(Clone, Copy)]
pub struct Tally {
    /// A statement was refused for what the script says.
    pub refused: bool,
    /// Bytes of a part were damaged.
    pub damaged: bool,
}

impl Tally {
    /// No reply yet.
    pub fn none() -> Tally
        ensures refused { result.refused ≡ false }
        ensures damaged { result.damaged ≡ false }
    {
        Tally {
            refused: false,
            damaged: false,
        }
    }

    /// With one more reply.
    pub fn with(self, reply: &Reply) -> Tally
        ensures { result ≡ tallied self reply.now }
    {
        let code = reply.code();
        Tally {
            refused: self.refused || (1 <= code && code <= 14) || code == 18,
            damaged: self.damaged || code == 19,
        }
    }
}
