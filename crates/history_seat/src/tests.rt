// What no clause says: that a word is made at all, what it has at run time, and that threads may share it. The answers were
// worked by hand.
ghost use Rattle.std.specs.Prelude.{◌≡◌, ◌+◌, ◌<◌, ◌^◌, true, length};
ghost use Rattle.history_seat.specs.declared.view.Kind.TheVariants as kind;
ghost use Rattle.history_seat.specs.Turns.{IsLock, IsSession};
ghost use Rattle.history_seat.specs.Views.{Begins, name};

use crate::{Blank, History, Opened, Room, Seat};
use mt_base::NoMemory;
use std::alloc::Global;
use std::marker::{Brand, Model};
use std::sync::{Mutex, Wait};
use std::test::Fail;
use std::thread::{Threads, join};

/// The lock's seat, as it lies under the lock. Contracts see the history.
#[derive(Drop)]
struct Locked<B: Room> {
    seat: Seat<B>,
}

impl<B: Room> Model for Locked<B> {
    ghost use Rattle.std.specs.Coded.{codes};
    ghost use Rattle.std.specs.Prelude.{List};
    ghost use Rattle.mt_values.specs.PolishCode.{condition_code};
    ghost use Rattle.mt_values.specs.declared.command.Entry.{Entry};
    ghost use Rattle.history_seat.specs.Turns.{IsLock};

    ghost Value = { List Entry };

    ghost coded = { Prim.hlevel (codes, condition_code) };

    ghost view = { λ l. l.seat.list };

    ghost invariant = { λ l. IsLock l.seat };
}

impl<B: Room> Locked<B> {
    /// A turn that adds an entry of the session, where the word has room for it. The number of entries is answered.
    fn add(&mut self, history: &History<B>, seat: &mut Seat<B>) -> Option<u64>
        requires { IsSession seat.old }
        ensures { IsSession seat.new }
    {
        if !history.has_room(&mut self.seat) {
            return None;
        }
        Some(history.add::<Brand>(&mut self.seat, seat))
    }

    /// A session's last look. What it knew is a front of the history.
    fn look(&mut self, history: &History<B>, mut seat: Seat<B>) -> u64
        requires { IsSession seat }
        ensures same { self.new ≡ self.old }
        ensures known { Begins seat.list self.old }
        ensures length { result ≡ length B.before + length self.old }
    {
        history.look(&mut self.seat, &mut seat)
    }
}

/// One session's entry, step by step: it takes the pen from the lock's seat, loads, adds, loads and gives the pen back. What it
/// found the word to be before and after is answered.
fn add_by_steps<B: Room>(
    history: &History<B>,
    lock: &mut Seat<B>,
    seat: &mut Seat<B>,
) -> Option<(u64, u64)>
    requires lock { IsLock lock.old }
    requires session { IsSession seat.old }
    ensures lock { IsLock lock.new }
    ensures session { IsSession seat.new }
{
    if !history.has_room(lock) {
        return None;
    }
    let note = history.note(lock);
    history.meet(seat, note);
    let before = history.length(seat);
    history.append::<Brand>(seat);
    let after = history.length(seat);
    let note = history.note(seat);
    history.meet(lock, note);
    Some((before, after))
}

/// The same in one call.
fn add_in_a_turn<B: Room>(
    history: &History<B>,
    lock: &mut Seat<B>,
    seat: &mut Seat<B>,
) -> Option<u64>
    requires lock { IsLock lock.old }
    requires session { IsSession seat.old }
    ensures lock { IsLock lock.new }
    ensures session { IsSession seat.new }
{
    if !history.has_room(lock) {
        return None;
    }
    Some(history.add::<Brand>(lock, seat))
}

/// A turn in which an entry of the session was tried, and its commit failed.
fn try_in_a_turn<B: Room>(history: &History<B>, lock: &mut Seat<B>, seat: &mut Seat<B>) -> u64
    requires lock { IsLock lock.old }
    requires session { IsSession seat.old }
    ensures lock { IsLock lock.new }
    ensures session { IsSession seat.new }
{
    history.record_try::<Brand>(lock, seat)
}

/// A step of each kind but the opening and the making of sessions. What the word was found to be is answered.
fn all_kinds<B: Room>(
    history: &History<B>,
    lock: &mut Seat<B>,
    seat: &mut Seat<B>,
    other: &mut Seat<B>,
) -> Option<[u64; 7]>
    requires lock { IsLock lock.old }
    requires sessions { IsSession seat.old × IsSession other.old }
{
    let begun = history.length(lock);
    let (before, after) = add_by_steps(history, lock, seat)?;
    // A worker takes a note out of the lock, while the sessions go on and the first tells the other what it knows.
    let work = history.plain_note(lock);
    let note = history.note(seat);
    history.meet(other, note);
    let tried = try_in_a_turn(history, lock, seat);
    let added = add_in_a_turn(history, lock, other)?;
    history.take_in(lock, work);
    let looked = history.look(lock, seat);
    let last = history.length(lock);
    Some([begun, before, after, tried, added, looked, last])
}

/// Two sessions of one history, of which the first or the second begins. Their numbers, and what they found.
fn in_order<B: Room>(blank: Blank, swapped: bool) -> ([u64; 3], Option<[u64; 7]>)
    requires { blank ≡ name B.table (length B.before) }
{
    let Opened {
        history,
        mut lock,
        mut zero,
    } = blank.open::<B>();
    let mut one = history.new_session(&mut zero);
    let mut two = history.new_session(&mut zero);
    let numbers = [one.number(), two.number(), zero.made()];
    if swapped {
        (numbers, all_kinds(&history, &mut lock, &mut two, &mut one))
    } else {
        (numbers, all_kinds(&history, &mut lock, &mut one, &mut two))
    }
}

/// The same of a new word that begins at `base`.
fn from_base(
    alloc: Global,
    base: u64,
    swapped: bool,
) -> Result<([u64; 3], Option<[u64; 7]>), NoMemory> {
    let blank = Blank::new(alloc, base)?;
    Ok(in_order::<Brand>(blank, swapped))
}

#[test]
fn two_sessions_go_through_all_kinds_in_two_orders(rt: HostRuntime) -> Result<(), Fail> {
    let alloc = rt.alloc();
    for swapped in [false, true] {
        let (numbers, words) = from_base(alloc, 7, swapped)?;
        assert_eq!(rt; numbers, [1, 2, 2]);
        assert!(rt; words == Some([7, 7, 8, 8, 9, 9, 9]));
    }
    Ok(())
}

#[test]
fn a_word_at_its_last_number_has_no_room(rt: HostRuntime) -> Result<(), Fail> {
    let alloc = rt.alloc();
    let (_, full) = from_base(alloc, u64::MAX, false)?;
    assert!(rt; full.is_none());
    let (_, one) = from_base(alloc, u64::MAX - 1, false)?;
    assert!(rt; one.is_none());
    let last = u64::MAX;
    let (_, two) = from_base(alloc, u64::MAX - 2, false)?;
    assert!(rt; two == Some([last - 2, last - 2, last - 1, last - 1, last, last, last]));
    Ok(())
}

/// Makes this many turns under the lock, each of which adds an entry.
fn take_turns<B: Room, R: Wait>(
    rt: &R,
    history: &History<B>,
    shared: &Mutex<Locked<B>>,
    seat: &mut Seat<B>,
    turns: u32,
)
    requires { IsSession seat.old }
    ensures { IsSession seat.new }
{
    for _ in 0..turns {
        let _ = shared.lock(rt).add(history, seat);
    }
}

/// The last word, once all sessions have ended. What each of them knew is a front of the last list.
fn last_word<B: Room>(
    history: &History<B>,
    mut locked: Locked<B>,
    one: Seat<B>,
    two: Seat<B>,
    three: Seat<B>,
    four: Seat<B>,
) -> u64
    requires first { IsSession one × IsSession two }
    requires last { IsSession three × IsSession four }
    ensures one { Begins one.list locked }
    ensures two { Begins two.list locked }
    ensures three { Begins three.list locked }
    ensures four { Begins four.list locked }
    ensures length { result ≡ length B.before + length locked }
{
    locked.look(history, one);
    locked.look(history, two);
    locked.look(history, three);
    locked.look(history, four)
}

/// Four sessions of one history at once, each in a thread of its own where one can be made.
fn four_at_once<B: Room, R: Threads + Wait + Sync>(rt: &R, blank: Blank, turns: u32) -> u64
    requires { blank ≡ name B.table (length B.before) }
{
    let Opened {
        history,
        lock,
        mut zero,
    } = blank.open::<B>();
    let mut one = history.new_session(&mut zero);
    let mut two = history.new_session(&mut zero);
    let mut three = history.new_session(&mut zero);
    let mut four = history.new_session(&mut zero);
    let shared = Mutex::new(Locked { seat: lock });
    let (word, locked) = (&history, &shared);
    let ((one, two), (three, four)) = join(
        rt,
        move || -> (Seat<B>, Seat<B>)
            requires { IsSession one × IsSession two }
            ensures { IsSession result.0 × IsSession result.1 }
        { two_at_once(rt, word, locked, one, two, turns) },
        move || -> (Seat<B>, Seat<B>)
            requires { IsSession three × IsSession four }
            ensures { IsSession result.0 × IsSession result.1 }
        { two_at_once(rt, word, locked, three, four, turns) },
    );
    last_word(&history, shared.into_inner(), one, two, three, four)
}

/// Two of them.
fn two_at_once<B: Room, R: Threads + Wait + Sync>(
    rt: &R,
    history: &History<B>,
    shared: &Mutex<Locked<B>>,
    mut one: Seat<B>,
    mut two: Seat<B>,
    turns: u32,
) -> (Seat<B>, Seat<B>)
    requires one { IsSession one }
    requires two { IsSession two }
    ensures one { IsSession result.0 }
    ensures two { IsSession result.1 }
{
    join(
        rt,
        move || -> Seat<B>
            requires { IsSession one }
            ensures { IsSession result }
        {
            take_turns(rt, history, shared, &mut one, turns);
            one
        },
        move || -> Seat<B>
            requires { IsSession two }
            ensures { IsSession result }
        {
            take_turns(rt, history, shared, &mut two, turns);
            two
        },
    )
}

/// The same of a new word that begins at `base`.
fn threads_from_base<R: Threads + Wait + Sync>(
    rt: &R,
    alloc: Global,
    base: u64,
    turns: u32,
) -> Result<u64, NoMemory> {
    let blank = Blank::new(alloc, base)?;
    Ok(four_at_once::<Brand, R>(rt, blank, turns))
}

#[test]
fn four_threads_count_each_entry_once(rt: HostRuntime) -> Result<(), Fail> {
    assert_eq!(rt; threads_from_base(&rt, rt.alloc(), 7, 1000)?, 4007);
    Ok(())
}
