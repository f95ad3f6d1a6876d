// What lies under the lock: an open root, the lock's seat and the four ledgers. Each turn is one method, with the name of the call
// that takes the lock for it.
ghost use Rattle.std.specs.Prelude.{◌≡◌, ◌+◌, ◌-◌, ◌<◌, ◌≤◌, ◌++◌, IfErr, IfNone, IfOk, IfSome, IsTrue, None, Ok, false, OnErr, Some, length};
ghost use Rattle.mt_values.specs.declared.command.Command.TheVariants as command;
ghost use Rattle.history_seat.specs.Turns.{AddsNone, IsLock, IsSession, Looked};
ghost use Rattle.history_seat.specs.Views.{Begins};
ghost use Rattle.merge_select.specs.Picks.{NoneIn};
ghost use Rattle.root_commits.specs.Commits.{IsSealedEntry, cause_of};
ghost use Rattle.root_commits.specs.Publications.{adding};
ghost use Rattle.root_commits.specs.Turns.{CommitsCreate, CommitsPart, storage};
ghost use Rattle.root_commits.specs.durable_commit.Commits.{entry_of};
ghost use Rattle.root_commits.specs.mt_model.History.{IsTableSchema};
ghost use Rattle.root_commits.specs.part_set.RootNames.{is_table};
ghost use Rattle.root_commits.specs.part_set.declared.run.Run.{Run};
ghost use Rattle.root_commits.specs.root_store.Stores.{table_at};
ghost use Rattle.root_commits.specs.root_store.declared.store.Table.{Table as Made};
ghost use Rattle.shared_store.specs.Engines.{IsOpen, Opened, Snaps, choice_by, choice_of, root_in};
ghost use Rattle.shared_store.specs.Levels.{any_greatest};
ghost use Rattle.shared_store.specs.Handed.{GivesSchema, KeepsFrom, MayEnter, MayPut, Pins, insert_there};
ghost use Rattle.shared_store.specs.Sharing.{IsShared, Shown, shown};
ghost use Rattle.shared_store.specs.Stood.{is_told};
ghost use Rattle.shared_store.specs.Tallies.{levels_by, levels_in, stops_by, stops_in, tally};
ghost use Rattle.shared_store.specs.Turns.{AtTurn, CountsTurn, GivesBack, HasTurn, PutsBack, ShowsCreate, ShowsPart, ShowsPut, entered, left_of};
ghost use Rattle.shared_store.specs.Works.{AnswersWhole, DropsWork, Frees, HasAll, HasPair, IsPicked, PutsWork, TakesWork};

use crate::engine::Engine;
use crate::handed::Work;
use crate::names::{FaultsMet, LevelsMet, Names, StopsMet, WorksOut};
use crate::share::Share;
use crate::work::{Put, TakeFault};
use history_seat::{Entered, History, Seat};
use merge_select::Scope;
use mt_base::{NoMemory, Partition};
use mt_outside::{Arm, Dir, Disk};
use mt_values::{Annals, Block, Create, Name, Schema};
use root_commits::Returned;
use root_commits::durable_commit::{Limit, Refused};
use root_commits::part_reader::Part;
use root_commits::part_set::Snap;
use root_commits::part_writer::SealedPart;
use root_commits::stage_dir::Sealed;
use std::alloc::Global;
use std::marker::{Brand, Model};
use std::sync::ledger::{self, Book};

/// An open root, the lock's seat, the books of the four ledgers, and how many works are out.
///
/// While the lock is free, the lock's seat has the pen and the list of all entries since the opening, and knows what is begun. The root has the tables with
/// which it was opened and those of that list. So far as the premises held at opening, the annals list the whole history and the store
/// stands for it, whatever a crash leaves holds all that was noted, and each part holds rows. No part bears a mark while no work is
/// out, no stop is counted while the disk's count of faults is the one at opening, and no limit of levels while no part has the
/// greatest one. The disk's count is the one with which the root was first shared, and the faults counted since.
#[derive(Drop)]
pub struct Locked<F: Dir, R: Arm<Dir = F>, D: Disk<Arm = R>, A: Annals, B: Names> {
    pub(crate) engine: Engine<F, R, D, A>,
    pub(crate) seat: Seat<B>,
    pub(crate) works: Book<WorksOut<B>>,
    pub(crate) stops: Book<StopsMet<B>>,
    pub(crate) levels: Book<LevelsMet<B>>,
    pub(crate) faults: Book<FaultsMet<B>>,
    /// The total of `works`, which a turn has to know.
    pub(crate) out: u64,
}

impl<F: Dir, R: Arm<Dir = F>, D: Disk<Arm = R>, A: Annals, B: Names> Model
    for Locked<F, R, D, A, B> {
    ghost use Rattle.std.specs.Coded.{codes};
    ghost use Rattle.std.specs.Prelude.{◌≡◌};
    ghost use Rattle.std_collections.specs.Layout.BTreeMap.{btree_map_code};
    ghost use Rattle.mt_values.specs.PolishCode.{condition_code};
    ghost use Rattle.history_seat.specs.Turns.{IsLock};
    ghost use Rattle.shared_store.specs.Sharing.{IsShared, Shown, shown};

    ghost Value = { Shown F };

    ghost coded = { Prim.hlevel (codes, btree_map_code, condition_code) };

    ghost view = { λ l. shown l.engine l.seat.list l.seat.begun l.out l.stops.total
        l.levels.total l.faults.total };

    ghost invariant = { λ l. (l.out ≡ l.works.total) × IsLock l.seat
        × IsShared F.files B.given B.before B.opening
        (shown l.engine l.seat.list l.seat.begun l.out l.stops.total l.levels.total
        l.faults.total) };
}

// How many stops are counted of why a turn was refused.
fn stops_in(cause: Refused) -> u64
    ensures { result ≡ stops_in (Some cause) }
{
    match cause {
        Refused::Disk | Refused::Stopped { .. } => 1,
        Refused::NoMemory | Refused::Exists | Refused::Limit(_) => 0,
    }
}

// How many stops are counted of an answer.
fn stops_of<T, S>(answer: &Result<T, Returned<S>>) -> u64
    ensures { result ≡ stops_by answer.now }
{
    match answer {
        Err(returned) => stops_in(returned.cause),
        Ok(_) => 0,
    }
}

// How many limits of levels are.
fn levels_in(cause: Refused) -> u64
    ensures { result ≡ levels_in (Some cause) }
{
    match cause {
        Refused::Limit(Limit::Levels) => 1,
        Refused::Limit(Limit::Tables | Limit::Parts | Limit::Numbers) => 0,
        Refused::NoMemory | Refused::Disk | Refused::Stopped { .. } | Refused::Exists => 0,
    }
}

// How many limits of levels are counted of an answer.
fn levels_of<T, S>(answer: &Result<T, Returned<S>>) -> u64
    ensures { result ≡ levels_by answer.now }
{
    match answer {
        Err(returned) => levels_in(returned.cause),
        Ok(_) => 0,
    }
}

// A share counts the faults by which the disk's count has risen.
fn count_faults<B: Names>(
    book: &mut Book<FaultsMet<B>>,
    share: &mut ledger::Share<FaultsMet<B>>,
    before: u64,
    now: u64,
)
    requires parts { 0 < share.old.parts }
    requires later { before ≤ now }
    ensures total { book.new.total ≡ book.old.total + (now - before) }
    ensures amount { share.new.amount ≡ share.old.amount + (now - before) }
    ensures parts { share.new.parts ≡ share.old.parts }
{
    book.add(share, now - before);
}

// Ends a turn whose commit was refused. The entry is begun where what was sealed was given to the disk, and so does not come back.
fn end_refused<B: Names, T: Entered, S>(
    history: &History<B>,
    lock: &mut Seat<B>,
    seat: &mut Seat<B>,
    returned: &Returned<S>,
)
    requires session { IsSession seat.old }
    requires lock { IsLock lock.old }
    requires named { T.entry.session ≡ seat.old.number }
    ensures seat { AddsNone seat.old lock.old.list
        (left_of returned.now.back T.entry seat.old.tried) seat.new }
    ensures lock { IsLock lock.new }
    ensures list { lock.new.list ≡ lock.old.list }
    ensures begun { lock.new.begun ≡ left_of returned.now.back T.entry lock.old.begun }
{
    match &returned.back {
        Some(_) => {
            history.look(lock, seat);
        }
        None => {
            history.record_try::<T>(lock, seat);
        }
    }
}

impl<F: Dir, R: Arm<Dir = F>, D: Disk<Arm = R>, A: Annals, B: Names> Locked<F, R, D, A, B> {
    /// The length of the history. The session knows all of it then.
    pub fn look(&mut self, history: &History<B>, seat: &mut Seat<B>) -> u64
        requires { IsSession seat.old }
        ensures same { self.new ≡ self.old }
        ensures length { result ≡ length B.before + length self.old.list }
        ensures looked { Looked seat.old self.old.list seat.new }
        ensures found { seat.new.begun ≡ self.old.tried }
    {
        history.look(&mut self.seat, seat)
    }

    /// An equal schema of a table; none exactly where there is no such table.
    ///
    /// `NoMemory` where an allocation failed.
    pub fn schema(
        &mut self,
        alloc: Global,
        history: &History<B>,
        seat: &mut Seat<B>,
        table: &Name,
    ) -> Result<Option<Schema>, NoMemory>
        requires { IsSession seat.old }
        ensures same { self.new ≡ self.old }
        ensures looked { Looked seat.old self.old.list seat.new }
        ensures schema { IfOk result
            (GivesSchema B.given B.before B.opening.tables self.old.list table.now) }
    {
        history.look(&mut self.seat, seat);
        self.engine.schema(alloc, table)
    }

    /// A table as it is after the history of this turn; none exactly where there is no such table. What is added later is not in it.
    ///
    /// `NoMemory` where the copies found no room.
    pub fn snapshot(
        &mut self,
        alloc: Global,
        history: &History<B>,
        seat: &mut Seat<B>,
        table: &Name,
    ) -> Result<Option<Snap<Part<F>>>, NoMemory>
        requires { IsSession seat.old }
        ensures same { self.new ≡ self.old }
        ensures looked { Looked seat.old self.old.list seat.new }
        ensures of { IfOk result (Snaps self.old.root.store table.now) }
        ensures snap { IfOk result
            (Pins F.files B.given B.before B.opening self.old.list table.now) }
    {
        history.look(&mut self.seat, seat);
        self.engine.snapshot(alloc, table)
    }

    /// Lets a snapshot go.
    pub fn give_back(&mut self, snap: Snap<Part<F>>)
        ensures { self.new ≡ self.old }
    {
        self.engine.give_back(snap);
    }

    // The turn of a CREATE, whose entry is picked.
    fn create_named<T: Entered>(
        &mut self,
        alloc: Global,
        history: &History<B>,
        seat: &mut Seat<B>,
        share: &mut Share<B>,
        create: Create,
        sealed: Sealed<R::Stage>,
    ) -> Result<u64, Returned<Sealed<R::Stage>>>
        requires session { IsSession seat.old }
        requires entry { T.entry ≡ entry_of seat.old.number (command.Create create) }
        requires parts { 0 < share.old.parts }
        requires named { IsTrue (is_table create.table) }
        requires schema { IsTableSchema create.schema }
        requires sealed { B.given is_told → IsSealedEntry create sealed.files }

        // What it does to the root.
        ensures commits { CommitsCreate seat.old.number create sealed (root_in self.old.root)
            (root_in self.new.root) sealed result }
        ensures out { self.new.out ≡ self.old.out }

        // What the session knows then, and what its share has counted.
        ensures list { self.new.list ≡ self.old.list ++ entered
            (entry_of seat.old.number (command.Create create)) result }
        ensures turn { HasTurn F.files B.given B.before B.opening self.old.list
            B.ledgers.parts sealed.failed (entry_of seat.old.number (command.Create create))
            (ShowsCreate create.table) seat.old seat.new share.old share.new result }
        ensures back { GivesBack sealed result }
    {
        self.stops.audit(&mut share.stops);
        self.faults.audit(&mut share.faults);
        let before = self.engine.faults();
        match self.engine.create(alloc, seat.number(), create, sealed) {
            Ok(length) => {
                let now = self.engine.faults();
                count_faults(&mut self.faults, &mut share.faults, before, now);
                history.add::<T>(&mut self.seat, seat);
                Ok(length)
            }
            Err(returned) => {
                let now = self.engine.faults();
                count_faults(&mut self.faults, &mut share.faults, before, now);
                self.stops.add(&mut share.stops, stops_in(returned.cause));
                end_refused::<B, T, Sealed<R::Stage>>(history, &mut self.seat, seat, &returned);
                Err(returned)
            }
        }
    }

    /// Commits a CREATE whose entry was sealed, as an entry of the session, and gives the length of the history then.
    ///
    /// It is refused as `Engine::create` is. After a refusal the session only looked; where what was sealed does not come back, the
    /// entry is begun.
    pub fn create(
        &mut self,
        alloc: Global,
        history: &History<B>,
        seat: &mut Seat<B>,
        share: &mut Share<B>,
        create: Create,
        sealed: Sealed<R::Stage>,
    ) -> Result<u64, Returned<Sealed<R::Stage>>>
        requires session { IsSession seat.old }
        requires parts { 0 < share.old.parts }
        requires named { IsTrue (is_table create.table) }
        requires schema { IsTableSchema create.schema }
        requires sealed { B.given is_told → IsSealedEntry create sealed.files }

        // What it does to the root.
        ensures commits { CommitsCreate seat.old.number create sealed (root_in self.old.root)
            (root_in self.new.root) sealed result }
        ensures out { self.new.out ≡ self.old.out }

        // What the session knows then, and what its share has counted.
        ensures list { self.new.list ≡ self.old.list ++ entered
            (entry_of seat.old.number (command.Create create)) result }
        ensures turn { HasTurn F.files B.given B.before B.opening self.old.list
            B.ledgers.parts sealed.failed (entry_of seat.old.number (command.Create create))
            (ShowsCreate create.table) seat.old seat.new share.old share.new result }
        ensures back { GivesBack sealed result }
    {
        self.create_named::<Brand>(alloc, history, seat, share, create, sealed)
    }

    // The turn of a block, whose entry is picked. The session looks first: what may be added rests on the list that it brings, which is
    // then known to be a front of the lock's.
    fn insert_named<T: Entered>(
        &mut self,
        alloc: Global,
        history: &History<B>,
        seat: &mut Seat<B>,
        share: &mut Share<B>,
        table: &Name,
        part: SealedPart<R::Stage>,
        block: Block,
    ) -> Result<u64, Returned<SealedPart<R::Stage>>>
        requires session { IsSession seat.old }
        requires entry { T.entry ≡ entry_of seat.old.number
            (insert_there B.opening.tables seat.old.list table.now block) }
        requires parts { 0 < share.old.parts }
        requires may { MayEnter B.given B.opening.tables seat.old.list table.now block part.sealed
            part.loaded }

        // What it does to the root.
        ensures commits { (t : Made) → table_at self.old.root.store table.now ≡ Some t
            → CommitsPart F.files
            (adding seat.old.number table.now t block part.sealed part.loaded)
            (root_in self.old.root) (root_in self.new.root) part result }
        ensures out { self.new.out ≡ self.old.out }

        // What the session knows then, and what its share has counted.
        ensures list { self.new.list ≡ self.old.list ++ entered (entry_of seat.old.number
            (insert_there B.opening.tables seat.old.list table.now block)) result }
        ensures turn { HasTurn F.files B.given B.before B.opening self.old.list
            B.ledgers.parts part.sealed.failed
            (entry_of seat.old.number (insert_there B.opening.tables seat.old.list table.now block))
            (ShowsPart table.now block) seat.old seat.new share.old share.new result }
        ensures back { GivesBack part result }
    {
        self.stops.audit(&mut share.stops);
        self.faults.audit(&mut share.faults);
        history.look(&mut self.seat, seat);
        let before = self.engine.faults();
        match self.engine.insert(alloc, seat.number(), table, part, block) {
            Ok(length) => {
                let now = self.engine.faults();
                count_faults(&mut self.faults, &mut share.faults, before, now);
                history.add::<T>(&mut self.seat, seat);
                Ok(length)
            }
            Err(returned) => {
                let now = self.engine.faults();
                count_faults(&mut self.faults, &mut share.faults, before, now);
                self.stops.add(&mut share.stops, stops_in(returned.cause));
                end_refused::<B, T, SealedPart<R::Stage>>(history, &mut self.seat, seat, &returned);
                Err(returned)
            }
        }
    }

    /// Commits a block of one partition whose part was sealed, as an entry of the session, and gives the length of the history then.
    ///
    /// It is refused as `Engine::insert` is. After a refusal the session only looked; where what was sealed does not come back, the
    /// entry is begun.
    pub fn insert(
        &mut self,
        alloc: Global,
        history: &History<B>,
        seat: &mut Seat<B>,
        share: &mut Share<B>,
        table: &Name,
        part: SealedPart<R::Stage>,
        block: Block,
    ) -> Result<u64, Returned<SealedPart<R::Stage>>>
        requires session { IsSession seat.old }
        requires parts { 0 < share.old.parts }
        requires may { MayEnter B.given B.opening.tables seat.old.list table.now block part.sealed
            part.loaded }

        // What it does to the root.
        ensures commits { (t : Made) → table_at self.old.root.store table.now ≡ Some t
            → CommitsPart F.files
            (adding seat.old.number table.now t block part.sealed part.loaded)
            (root_in self.old.root) (root_in self.new.root) part result }
        ensures out { self.new.out ≡ self.old.out }

        // What the session knows then, and what its share has counted.
        ensures list { self.new.list ≡ self.old.list ++ entered (entry_of seat.old.number
            (insert_there B.opening.tables seat.old.list table.now block)) result }
        ensures turn { HasTurn F.files B.given B.before B.opening self.old.list
            B.ledgers.parts part.sealed.failed
            (entry_of seat.old.number (insert_there B.opening.tables seat.old.list table.now block))
            (ShowsPart table.now block) seat.old seat.new share.old share.new result }
        ensures back { GivesBack part result }
    {
        self.insert_named::<Brand>(alloc, history, seat, share, table, part, block)
    }

    /// Takes up the merge of the pair that the policy takes in a scope. None exactly where the policy may take no pair there.
    ///
    /// `NoMemory` where an allocation failed, and where as many works are out as 64 bits count.
    pub fn take_merge(
        &mut self,
        alloc: Global,
        history: &History<B>,
        share: &mut Share<B>,
        scope: Scope,
    ) -> Result<Option<Work<F, B>>, NoMemory>
        requires { 0 < share.old.parts }
        ensures list { self.new.list ≡ self.old.list }
        ensures work { IfOk result (λ found. IfSome found (λ w. (run : Run)
            × IsPicked (choice_of self.old.root) scope.entry w.taken run
            × TakesWork self.old.root self.new.root w.taken run)) }
        ensures low { IfOk result (λ found. IfSome found
            (λ w. any_greatest w.taken.sources.items ≡ false)) }
        ensures of { IfOk result (λ found. IfSome found (λ w. AtTurn F.files B.given B.before
            B.opening self.old.list B.ledgers.parts share.old
            (λ store failed. HasPair B.opening.policy scope.entry store w.taken))) }
        ensures noted { IfOk result (λ found. IfSome found (λ w. (w.note.list ≡ self.old.list)
            × (self.new.out ≡ self.old.out + 1) × (share.new ≡ tally share.old.parts
            (share.old.out + 1) share.old.stops share.old.levels share.old.faults))) }

        // Where none is taken, and after an error, nothing changed.
        ensures none { IfOk result (λ found. IfNone found (NoneIn (choice_of self.old.root)
            scope.entry × (self.new ≡ self.old) × (share.new ≡ share.old)
            × AtTurn F.files B.given B.before B.opening self.old.list B.ledgers.parts share.old
            (λ store failed. NoneIn (choice_by B.opening.policy store) scope.entry))) }
        ensures err { OnErr result ((self.new ≡ self.old) × (share.new ≡ share.old)) }
    {
        if self.out == u64::MAX {
            return Err(NoMemory);
        }
        self.stops.audit(&mut share.stops);
        self.faults.audit(&mut share.faults);
        let Some(taken) = self.engine.take_merge(alloc, scope)? else {
            return Ok(None);
        };
        self.works.add(&mut share.works, 1);
        self.out += 1;
        let note = history.plain_note(&mut self.seat);
        let work = Work { taken, note };
        Ok(Some(work))
    }

    /// Takes up the merge of all parts of a partition, one too. None exactly where there is no part, or a mutation keeps two neighbours
    /// from being merged.
    ///
    /// Else `Busy` exactly where a part is being merged, never where the share has every part of the ledgers and no work of it is out;
    /// `NoMemory` where an allocation failed, and where as many works are out as 64 bits count.
    pub fn take_all(
        &mut self,
        alloc: Global,
        history: &History<B>,
        share: &mut Share<B>,
        table: &Name,
        partition: Partition,
    ) -> Result<Option<Work<F, B>>, TakeFault>
        requires { 0 < share.old.parts }
        ensures list { self.new.list ≡ self.old.list }
        ensures work { IfOk result (λ found. IfSome found (λ w. (run : Run)
            × AnswersWhole self.old.root.store table.now partition (Ok (Some run))
            × (w.taken.table ≡ table.now) × (w.taken.partition ≡ partition)
            × TakesWork self.old.root self.new.root w.taken run)) }
        ensures of { IfOk result (λ found. IfSome found (λ w. AtTurn F.files B.given B.before
            B.opening self.old.list B.ledgers.parts share.old
            (λ store failed. HasAll store w.taken))) }
        ensures noted { IfOk result (λ found. IfSome found (λ w. (w.note.list ≡ self.old.list)
            × (self.new.out ≡ self.old.out + 1) × (share.new ≡ tally share.old.parts
            (share.old.out + 1) share.old.stops share.old.levels share.old.faults))) }

        // Where none is taken, and after an error, nothing changed.
        ensures none { IfOk result (λ found. IfNone found
            (AnswersWhole self.old.root.store table.now partition (Ok None)
            × (self.new ≡ self.old) × (share.new ≡ share.old)
            × AtTurn F.files B.given B.before B.opening self.old.list B.ledgers.parts share.old
            (λ store failed. AnswersWhole store table.now partition (Ok None)))) }
        ensures err { IfErr result (λ e. KeepsFrom self.old.root.store table.now partition e
            × (self.new ≡ self.old) × (share.new ≡ share.old)
            × AtTurn F.files B.given B.before B.opening self.old.list B.ledgers.parts share.old
            (λ store failed. KeepsFrom store table.now partition e)) }
        ensures alone { share.old.parts ≡ B.ledgers.parts → share.old.out ≡ 0
            → IfErr result (λ e. e ≡ TakeFault.NoMemory) }
    {
        self.works.audit(&mut share.works);
        self.stops.audit(&mut share.stops);
        self.faults.audit(&mut share.faults);
        if self.out == u64::MAX {
            return Err(TakeFault::NoMemory);
        }
        let Some(taken) = self.engine.take_all(alloc, table, partition)? else {
            return Ok(None);
        };
        self.works.add(&mut share.works, 1);
        self.out += 1;
        let note = history.plain_note(&mut self.seat);
        let work = Work { taken, note };
        Ok(Some(work))
    }

    /// Puts the part that was sealed of a work's merge in place of its sources, where these stand there under their names and with
    /// their marks. It is no command: the history stays.
    ///
    /// `Gone` exactly where they do not stand so. It is refused as `Engine::put_work` is. In each case no part that has the name of a
    /// source bears a mark any more, and none at all where no other work is out.
    pub fn put_work(
        &mut self,
        alloc: Global,
        history: &History<B>,
        share: &mut Share<B>,
        work: Work<F, B>,
        part: SealedPart<R::Stage>,
    ) -> Result<Put<SealedPart<R::Stage>>, Returned<SealedPart<R::Stage>>>
        requires out { 0 < share.old.out }
        requires may { MayPut B.given B.before work.note.list work.taken part.sealed part.loaded }

        // What it does to the root.
        ensures list { self.new.list ≡ self.old.list }
        ensures puts { (mid : Opened F) × PutsWork F.files work.taken part.sealed part.loaded
            self.old.root mid part result × Frees self.new.out mid self.new.root }
        ensures out { self.new.out + 1 ≡ self.old.out }

        // What is known of the work's note, and what the share has counted.
        ensures begins { Begins work.note.list self.old.list }
        ensures turn { CountsTurn F.files B.given B.before B.opening self.old.list
            B.ledgers.parts part.sealed.failed (share.old.out - 1) (cause_of result)
            (ShowsPut work.taken result) share.old share.new }
        ensures back { PutsBack part result }
    {
        self.works.audit(&mut share.works);
        self.stops.audit(&mut share.stops);
        self.faults.audit(&mut share.faults);
        let Work { taken, note } = work;
        history.take_in(&mut self.seat, note);
        let before = self.engine.faults();
        let answer = self.engine.put_work(alloc, taken, part);
        let now = self.engine.faults();
        count_faults(&mut self.faults, &mut share.faults, before, now);
        self.stops.add(&mut share.stops, stops_of(&answer));
        self.levels.add(&mut share.levels, levels_of(&answer));
        self.end_work(share);
        answer
    }

    /// Lets a work go: no part of its table that has the name of a source bears a mark any more, and no part at all where no other work
    /// is out.
    pub fn drop_work(&mut self, history: &History<B>, share: &mut Share<B>, work: Work<F, B>)
        requires { 0 < share.old.out }
        ensures list { self.new.list ≡ self.old.list }
        ensures drops { (mid : Opened F) × DropsWork work.taken self.old.root mid
            × Frees self.new.out mid self.new.root }
        ensures out { self.new.out + 1 ≡ self.old.out }
        ensures begins { Begins work.note.list self.old.list }
        ensures counted { share.new ≡ tally share.old.parts (share.old.out - 1) share.old.stops
            share.old.levels share.old.faults }
    {
        self.works.audit(&mut share.works);
        let Work { taken, note } = work;
        history.take_in(&mut self.seat, note);
        self.engine.drop_work(taken);
        self.end_work(share);
    }

    // One work less is out. Where none is left, no part bears a mark.
    fn end_work(&mut self, share: &mut Share<B>)
        requires { 0 < share.old.out }
        ensures list { self.new.list ≡ self.old.list }
        ensures frees { Frees self.new.out self.old.root self.new.root }
        ensures others { (self.new.stops ≡ self.old.stops) × (self.new.levels ≡ self.old.levels)
            × (self.new.faults ≡ self.old.faults) }
        ensures counted { share.new ≡ tally share.old.parts (share.old.out - 1) share.old.stops
            share.old.levels share.old.faults }
        ensures out { self.new.out + 1 ≡ self.old.out }
    {
        self.works.audit(&mut share.works);
        self.works.sub(&mut share.works, 1);
        self.out -= 1;
        self.engine.clear(self.out);
    }

    /// The disk and the annals, once no turn comes any more. A share with every part of the ledgers has counted all that they count.
    pub fn end(self, share: &mut Share<B>) -> (D, A)
        ensures storage { self.root.storage
            ≡ storage (D.told result.0) (D.clock result.0) (D.failed result.0) (A.told result.1) }
        ensures started { D.started result.0 ≡ self.root.started }
        ensures open { IsOpen self.root }
        ensures shared { IsShared F.files B.given B.before B.opening self }
        ensures counted { share.old.parts ≡ B.ledgers.parts → (self.out ≡ share.old.out)
            × (self.stops ≡ share.old.stops) × (self.levels ≡ share.old.levels)
            × (self.faults ≡ share.old.faults) }
    {
        let Locked {
            engine,
            seat: _,
            mut works,
            mut stops,
            mut levels,
            mut faults,
            out: _,
        } = self;
        works.audit(&mut share.works);
        stops.audit(&mut share.stops);
        levels.audit(&mut share.levels);
        faults.audit(&mut share.faults);
        engine.into_outside()
    }
}
