// A history's word before it has seats, and how it gets them.
ghost use Rattle.std.specs.Prelude.{◌≡◌, [], IfOk, length};
ghost use Rattle.history_seat.specs.Views.{lock_view, name, session_view};

use crate::history::History;
use crate::room::Room;
use crate::seat::{Place, Seat};
use crate::steps::{Opening, Word};
use mt_base::NoMemory;
use std::alloc::Global;
use std::marker::{Model, PhantomData};

/// A word on which nobody sits yet. Contracts see which table it is in, and the number at which it begins. As it names no `Room`,
/// the call that opens it can pick one of this table.
#[derive(Drop)]
pub struct Blank {
    word: Word,
    first: Place,
}

impl Model for Blank {
    ghost use Rattle.std.specs.Prelude.{◌≡◌, []};
    ghost use Rattle.history_seat.specs.Views.{Name, name, unopened_view};

    ghost Value = { Name };

    ghost view = { λ b. name b.word.shared.table_id b.word.shared.key };

    ghost invariant = { λ b.
        (b.first.table_id ≡ b.word.shared.table_id)
        × (b.word.shared.table_id.words ≡ 1)
        × (b.first.me ≡ (unopened_view, [])) };
}

/// An opened history with its first two seats.
#[derive(Drop)]
pub struct Opened<B: Room> {
    pub history: History<B>,
    /// The seat that lies under the lock, with the pen.
    pub lock: Seat<B>,
    /// The seat of session 0, which makes the other sessions.
    pub zero: Seat<B>,
}

impl Blank {
    /// A word that begins at `base`, the number of entries that there are already. No other call of this crate takes memory.
    ///
    /// `NoMemory` where an allocation failed; nothing stands then.
    pub fn new(alloc: Global, base: u64) -> Result<Blank, NoMemory>
        ensures { IfOk result (λ b. b.base ≡ base) }
    {
        let (word, first) = Word::of_words(alloc, &[base], &base)?;
        Ok(Blank { word, first })
    }

    /// The history of a room whose table and base are this word's.
    pub fn open<B: Room>(self) -> Opened<B>
        requires { self ≡ name B.table (length B.before) }
        ensures lock { result.lock ≡ lock_view }
        ensures zero { result.zero ≡ session_view 0 [] }
    {
        let Blank { word, mut first } = self;
        let zero = word.shared.split_seat::<Opening>(&mut first);
        Opened {
            history: History {
                word,
                room: PhantomData,
            },
            lock: Seat {
                place: first,
                number: 0,
                made: 0,
                room: PhantomData,
            },
            zero: Seat {
                place: zero,
                number: 0,
                made: 0,
                room: PhantomData,
            },
        }
    }
}
