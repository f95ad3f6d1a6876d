// A work as it is handed out of the lock.
use crate::names::Names;
use crate::work::Work as Taken;
use history_seat::Note;
use mt_outside::Dir;
use std::marker::Model;

/// A merge that was taken up, with a note of the history as it was then. Of its sources it is known that their rows stand for that
/// history, so far as the premises held as the root was opened.
///
/// It is moved on, never dropped: the shared root that gave it takes it back, to be put in its place or let go.
pub struct Work<F: Dir, B: Names> {
    pub(crate) taken: Taken<F>,
    pub(crate) note: Note<B>,
}

impl<F: Dir, B: Names> Model for Work<F, B> {
    ghost use Rattle.std.specs.Coded.{codes};
    ghost use Rattle.mt_values.specs.PolishCode.{condition_code};
    ghost use Rattle.shared_store.specs.Handed.{Handing, IsHanded, handing};

    ghost Value = { Handing F };

    ghost coded = { Prim.hlevel (codes, condition_code) };

    ghost view = { λ w. handing w.taken w.note };

    ghost invariant = { λ w. IsHanded F.files B.given B.before B.opening w.note.list w.taken };
}

impl<F: Dir, B: Names> Work<F, B> {
    ghost use Rattle.std.specs.Prelude.{◌≡◌};
    ghost use Rattle.shared_store.specs.Handed.{IsHanded};

    /// What was taken up, with all that is known of it.
    pub fn taken(&self) -> &Taken<F>
        ensures value { result.now ≡ self.now.taken }
        ensures facts { IsHanded F.files B.given B.before B.opening self.now.note.list
            self.now.taken }
    {
        &self.taken
    }
}
