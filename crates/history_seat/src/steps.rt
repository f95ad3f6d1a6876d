// What the table is told of its rule, and of each step on its word. The steps are those of docs/history.md, "The steps".
use crate::room::Room;
use crate::view::View;
use atomic_table::{Join, Play, Split, Table, TableRule};
use std::alloc::Global;
use std::marker::{Brand, PhantomData};

/// The rule that holds between any two steps.
pub struct OneList;

impl TableRule<u8, View, u64> for OneList {
    ghost use Rattle.history_seat.specs.Rule.{Rule};
    ghost use Rattle.history_seat.specs.Views.{unopened_view};

    ghost holds = { λ base s. Rule base s.words s.views };

    ghost first = { λ _. unopened_view };
}

/// A table with one word. It has no slots, and its key is the base.
pub(crate) type Word = Table<u8, View, u64, OneList, Global>;

/// Which entry a call adds, or says was tried. A caller picks it for `Brand`, so the entry itself may be elsewhere by then, as in the
/// annals.
pub trait Entered {
    ghost use Rattle.mt_values.specs.declared.command.Entry.{Entry};

    /// The entry.
    ghost entry: { Entry };
}

impl Entered for Brand {
    ghost use Rattle.history_seat.specs.Views.{no_entry};

    ghost entry = { no_entry };
}

pub(crate) struct Learning<B: Room> {
    room: PhantomData<B>,
}

impl<B: Room> Play<u8, View> for Learning<B> {
    ghost use Rattle.std.specs.Prelude.{◌≡◌, length};
    ghost use Rattle.history_seat.specs.Turns.{Learned};

    ghost then = { λ _ me found next. (next ≡ me) × Learned (length B.before) me.0 found };
}

pub(crate) struct Adding<T: Entered> {
    of: PhantomData<T>,
}

impl<T: Entered> Play<u8, View> for Adding<T> {
    ghost use Rattle.history_seat.specs.Turns.{Adds};

    ghost then = { λ _ me _ next. Adds T.entry me next };
}

pub(crate) struct Trying<T: Entered> {
    of: PhantomData<T>,
}

impl<T: Entered> Play<u8, View> for Trying<T> {
    ghost use Rattle.history_seat.specs.Turns.{Tries};

    ghost then = { λ _ me _ next. Tries T.entry me next };
}

pub(crate) struct Noting;

impl Split<View> for Noting {
    ghost use Rattle.history_seat.specs.Views.{note_of, without_pen};

    ghost left = { without_pen };

    ghost right = { note_of };
}

pub(crate) struct NotingPlainly;

impl Split<View> for NotingPlainly {
    ghost use Rattle.history_seat.specs.Views.{plain_note_of};

    ghost left = { λ v. v };

    ghost right = { plain_note_of };
}

pub(crate) struct Opening;

impl Split<View> for Opening {
    ghost use Rattle.std.specs.Prelude.{[]};
    ghost use Rattle.history_seat.specs.Views.{lock_view, session_view};

    ghost left = { λ _. lock_view };

    ghost right = { λ _. session_view 0 [] };
}

pub(crate) struct Making;

impl Split<View> for Making {
    ghost use Rattle.history_seat.specs.Views.{counted, newcomer};

    ghost left = { counted };

    ghost right = { newcomer };
}

pub(crate) struct Meeting;

impl Join<View> for Meeting {
    ghost use Rattle.history_seat.specs.Views.{met, spent_view};

    ghost both = { met };

    ghost spent = { spent_view };
}
