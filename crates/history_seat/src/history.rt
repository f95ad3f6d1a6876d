// The word, and the single steps on it (docs/history.md, "The steps").
ghost use Rattle.std.specs.Prelude.{◌≡◌, ◌+◌, ◌<◌, ◌^◌, true, All, length, nat_lt};
ghost use Rattle.history_seat.specs.declared.view.Kind.TheVariants as kind;
ghost use Rattle.history_seat.specs.Turns.{Learned};
ghost use Rattle.history_seat.specs.Views.{
  Begins,
  counted,
  grown,
  met,
  newcomer,
  note_of,
  plain_note_of,
  with_try,
  without_pen,
};

use crate::room::Room;
use crate::seat::{Note, Seat};
use crate::steps::{
    Adding, Entered, Learning, Making, Meeting, Noting, NotingPlainly, Trying, Word,
};
use std::marker::PhantomData;

/// A history's word, which all threads share. No call waits, takes memory or can fail.
#[derive(Drop)]
pub struct History<B: Room> {
    pub(crate) word: Word,
    pub(crate) room: PhantomData<B>,
    ghost table: { (word.shared.table_id ≡ B.table) × (B.table.words ≡ 1) },
    ghost base: { word.shared.key ≡ length B.before },
}

impl<B: Room> History<B> {
    /// The word: the number of entries so far, known to be that to who has the pen. To others it is a number that was right
    /// when it was read.
    pub fn length(&self, seat: &mut Seat<B>) -> u64
        ensures same { seat.new ≡ seat.old }
        ensures learned { Learned (length B.before) seat.old result }
    {
        self.word.shared.load::<Learning<B>>(&mut seat.place, 0)
    }

    /// Whether the word can count one entry more, asked by who has the pen.
    pub fn has_room(&self, seat: &mut Seat<B>) -> bool
        requires pen { seat.old.pen ≡ true }
        ensures same { seat.new ≡ seat.old }
        ensures room { result ≡ nat_lt (length B.before + length seat.old.list + 1) (2 ^ 64) }
    {
        self.length(seat) < u64::MAX
    }

    /// Adds an entry of the session that has the pen.
    pub fn append<T: Entered>(&self, seat: &mut Seat<B>)
        requires session { seat.old.kind ≡ kind.Session }
        requires named { T.entry.session ≡ seat.old.number }
        requires pen { seat.old.pen ≡ true }
        requires room { length B.before + length seat.old.list + 1 < 2 ^ 64 }
        ensures added { seat.new ≡ grown seat.old T.entry }
        ensures olds { All (λ o. Begins o seat.old.list) seat.old.olds }
    {
        self.word
            .shared
            .fetch_add::<Adding<T>>(&mut seat.place, 0, 1);
    }

    /// Says that the session that has the pen tried an entry, which is begun, since its commit failed. The word stays.
    pub(crate) fn set_try<T: Entered>(&self, seat: &mut Seat<B>)
        requires session { seat.old.kind ≡ kind.Session }
        requires named { T.entry.session ≡ seat.old.number }
        requires pen { seat.old.pen ≡ true }
        ensures { seat.new ≡ with_try seat.old T.entry }
    {
        self.word.shared.load::<Trying<T>>(&mut seat.place, 0);
    }

    /// A note of what the seat knows. The pen goes with it, where the seat has it.
    pub fn note(&self, seat: &mut Seat<B>) -> Note<B>
        ensures seat { seat.new ≡ without_pen seat.old }
        ensures note { result ≡ note_of seat.old }
    {
        Note {
            place: self.word.shared.split_seat::<Noting>(&mut seat.place),
            room: PhantomData,
        }
    }

    /// A note of what the seat knows, for who works outside of the lock. The pen stays.
    pub fn plain_note(&self, seat: &mut Seat<B>) -> Note<B>
        ensures seat { seat.new ≡ seat.old }
        ensures note { result ≡ plain_note_of seat.old }
    {
        Note {
            place: self
                .word
                .shared
                .split_seat::<NotingPlainly>(&mut seat.place),
            room: PhantomData,
        }
    }

    /// Takes a note in: the seat has the list of the one with the pen, or else the longer one, and the pen where one of the
    /// two had it. That both lists are fronts of what it has now it learns at its next load.
    pub fn meet(&self, seat: &mut Seat<B>, note: Note<B>)
        ensures { seat.new ≡ met seat.old note }
    {
        self.word
            .shared
            .join_seat::<Meeting>(&mut seat.place, note.place);
    }

    /// One session more, made by session 0. It knows what session 0 knows, and has added nothing.
    pub fn new_session(&self, seat: &mut Seat<B>) -> Seat<B>
        requires session { seat.old.kind ≡ kind.Session }
        requires zero { seat.old.number ≡ 0 }
        requires room { seat.old.made + 1 < 2 ^ 64 }
        ensures seat { seat.new ≡ counted seat.old }
        ensures made { result ≡ newcomer seat.old }
    {
        let place = self.word.shared.split_seat::<Making>(&mut seat.place);
        seat.made += 1;
        Seat {
            place,
            number: seat.made,
            made: 0,
            room: PhantomData,
        }
    }
}
