// Seats, which step on the word, and the notes between them.
ghost use Rattle.std.specs.Prelude.{◌≡◌};

use crate::room::Room;
use crate::view::View;
use std::marker::{Model, PhantomData};

/// A place at the table that has the word.
pub(crate) type Place = atomic_table::Seat<u8, View>;

/// The lock's seat, or a session's. Contracts see what it knows.
#[derive(Drop)]
pub struct Seat<B: Room> {
    pub(crate) place: Place,
    pub(crate) number: u64,
    pub(crate) made: u64,
    pub(crate) room: PhantomData<B>,
}

impl<B: Room> Model for Seat<B> {
    ghost use Rattle.std.specs.Coded.{codes};
    ghost use Rattle.std.specs.Prelude.{◌≡◌, true};
    ghost use Rattle.mt_values.specs.PolishCode.{condition_code};
    ghost use Rattle.history_seat.specs.declared.view.View.{View};
    ghost use Rattle.history_seat.specs.Views.{is_seat};

    ghost Value = { View };

    ghost coded = { Prim.hlevel (codes, condition_code) };

    ghost view = { λ s. s.place.me.0 };

    ghost invariant = { λ s.
        (s.place.table_id ≡ B.table)
        × (is_seat s.place.me.0.kind ≡ true)
        × (s.place.me.0.number ≡ s.number)
        × (s.place.me.0.made ≡ s.made) };
}

impl<B: Room> Seat<B> {
    /// The session's number; 0 of the lock's seat.
    pub fn number(&self) -> u64
        ensures { result ≡ self.now.number }
    {
        self.number
    }

    /// How many sessions session 0 has made. While it is below the last number of 64 bits, it may make one more.
    pub fn made(&self) -> u64
        ensures { result ≡ self.now.made }
    {
        self.made
    }
}

/// What one seat lets another know. Contracts see what it knows.
#[derive(Drop)]
pub struct Note<B: Room> {
    pub(crate) place: Place,
    pub(crate) room: PhantomData<B>,
}

impl<B: Room> Model for Note<B> {
    ghost use Rattle.std.specs.Coded.{codes};
    ghost use Rattle.std.specs.Prelude.{◌≡◌, []};
    ghost use Rattle.mt_values.specs.PolishCode.{condition_code};
    ghost use Rattle.history_seat.specs.declared.view.Kind.TheVariants as kind;
    ghost use Rattle.history_seat.specs.declared.view.View.{View};

    ghost Value = { View };

    ghost coded = { Prim.hlevel (codes, condition_code) };

    ghost view = { λ n. n.place.me.0 };

    ghost invariant = { λ n.
        (n.place.table_id ≡ B.table) × (n.place.me.0.kind ≡ kind.Note) × (n.place.me.1 ≡ []) };
}
