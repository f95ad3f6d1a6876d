// A session's turn, in one call each. It is made under the lock that has the lock's seat. The pen goes from that seat to the
// session's and back within the call, so no way out of a turn can leave it with the session.
ghost use Rattle.std.specs.Prelude.{◌≡◌, ◌+◌, ◌<◌, ◌^◌, ◌++◌, ◌∷◌, [], true, false, None, Some, length};
ghost use Rattle.history_seat.specs.declared.view.Kind.TheVariants as kind;
ghost use Rattle.history_seat.specs.Turns.{Added, Holds, IsLock, IsSession, Looked, Tried};
ghost use Rattle.history_seat.specs.Views.{Begins, without_pen};

use crate::history::History;
use crate::room::Room;
use crate::seat::{Note, Seat};
use crate::steps::Entered;

impl<B: Room> History<B> {
    /// A turn that adds nothing: the session's list is the whole history, whose number of entries is answered.
    #[tactic(auto, using(crate::proofs::Turning::looks, crate::proofs::Turning::finds))]
    pub fn look(&self, lock: &mut Seat<B>, seat: &mut Seat<B>) -> u64
        requires session { IsSession seat.old }
        requires lock { IsLock lock.old }
        ensures length { result ≡ length B.before + length lock.old.list }
        ensures looked { Looked seat.old lock.old.list seat.new }
        ensures found { seat.new.begun ≡ lock.old.begun }

        // The lock's seat has the pen again, and the same list, and what was begun is begun.
        ensures lock { IsLock lock.new }
        ensures list { lock.new.list ≡ lock.old.list }
        ensures begun { lock.new.begun ≡ lock.old.begun }
    {
        let length = self.take_pen(lock, seat);
        self.give_pen(lock, seat);
        length
    }

    /// A turn that adds an entry of the session. The number of entries is answered, with the one that was added.
    #[tactic(auto, using(crate::proofs::Turning::adds_one))]
    pub fn add<T: Entered>(&self, lock: &mut Seat<B>, seat: &mut Seat<B>) -> u64
        requires session { IsSession seat.old }
        requires lock { IsLock lock.old }
        requires named { T.entry.session ≡ seat.old.number }
        requires room { length B.before + length lock.old.list + 1 < 2 ^ 64 }
        ensures length { result ≡ length B.before + length lock.new.list }
        ensures added { Added seat.old lock.old.list T.entry seat.new }

        // The lock's seat has the pen again, and the entry at the end of its list. None is begun.
        ensures lock { IsLock lock.new }
        ensures list { lock.new.list ≡ lock.old.list ++ T.entry ∷ [] }
        ensures begun { lock.new.begun ≡ None }
    {
        let length = self.take_pen(lock, seat);
        self.append::<T>(seat);
        self.give_pen(lock, seat);
        length + 1
    }

    /// A turn that adds nothing, since the commit of an entry of the session failed: the entry is begun. The number of entries is
    /// answered.
    #[tactic(auto, using(crate::proofs::Turning::tries_one))]
    pub fn record_try<T: Entered>(&self, lock: &mut Seat<B>, seat: &mut Seat<B>) -> u64
        requires session { IsSession seat.old }
        requires lock { IsLock lock.old }
        requires named { T.entry.session ≡ seat.old.number }
        ensures length { result ≡ length B.before + length lock.old.list }
        ensures tried { Tried seat.old lock.old.list T.entry seat.new }

        // The lock's seat has the pen again, and the same list, and the entry is begun.
        ensures lock { IsLock lock.new }
        ensures list { lock.new.list ≡ lock.old.list }
        ensures begun { lock.new.begun ≡ Some T.entry }
    {
        let length = self.take_pen(lock, seat);
        self.set_try::<T>(seat);
        self.give_pen(lock, seat);
        length
    }

    /// The lock's seat takes a note in: the history begins with what the note knows.
    #[tactic(auto, using(crate::proofs::Turning::takes_in))]
    pub fn take_in(&self, lock: &mut Seat<B>, note: Note<B>)
        requires lock { IsLock lock.old }
        ensures begins { Begins note.list lock.old.list }

        // The lock's seat has the pen still, and the same list, and what was begun is begun.
        ensures lock { IsLock lock.new }
        ensures list { lock.new.list ≡ lock.old.list }
        ensures begun { lock.new.begun ≡ lock.old.begun }
    {
        self.meet(lock, note);
        self.length(lock);
    }

    /// Begins a turn: the session has the pen, and with it the lock's list and what is begun.
    #[tactic(auto, using(crate::proofs::Turning::turn_counts))]
    fn take_pen(&self, lock: &mut Seat<B>, seat: &mut Seat<B>) -> u64
        requires session { IsSession seat.old }
        requires lock { lock.old.pen ≡ true }
        ensures lock { lock.new ≡ without_pen lock.old }
        ensures length { result ≡ length B.before + length lock.old.list }
        ensures seat { Holds seat.old lock.old seat.new }
    {
        let note = self.note(lock);
        self.meet(seat, note);
        self.length(seat)
    }

    /// Ends a turn: the lock's seat has the pen, and with it the session's list and what is begun.
    fn give_pen(&self, lock: &mut Seat<B>, seat: &mut Seat<B>)
        requires seat { seat.old.pen ≡ true }
        requires lock { lock.old.pen ≡ false }
        ensures seat { seat.new ≡ without_pen seat.old }
        ensures kind { lock.new.kind ≡ lock.old.kind }
        ensures pen { lock.new.pen ≡ true }
        ensures list { lock.new.list ≡ seat.old.list }
        ensures begun { lock.new.begun ≡ seat.old.begun }
    {
        let note = self.note(seat);
        self.meet(lock, note);
    }
}
