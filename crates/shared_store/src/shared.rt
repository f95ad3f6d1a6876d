// The root that is shared: each call takes the lock, has one turn, and lets the lock go.
ghost use Rattle.std.specs.Prelude.{◌≡◌, ℕ, ◌+◌, ◌-◌, ◌<◌, [], All, IfErr, IfNone, IfOk, IfSome, IsTrue, List, Ok, OnErr, None, false, length};
ghost use Rattle.mt_values.specs.declared.command.Command.TheVariants as command;
ghost use Rattle.mt_values.specs.declared.command.Entry.{Entry};
ghost use Rattle.history_seat.specs.Turns.{IsSession, Looked};
ghost use Rattle.history_seat.specs.Views.{name, session_view};
ghost use Rattle.merge_select.specs.Picks.{NoneIn};
ghost use Rattle.root_commits.specs.Commits.{IsSealedEntry, cause_of};
ghost use Rattle.root_commits.specs.Turns.{storage};
ghost use Rattle.root_commits.specs.durable_commit.Commits.{entry_of};
ghost use Rattle.root_commits.specs.mt_model.History.{IsTableSchema};
ghost use Rattle.root_commits.specs.part_set.RootNames.{is_table};
ghost use Rattle.shared_store.specs.Engines.{choice_by, opened_of};
ghost use Rattle.shared_store.specs.Levels.{any_greatest};
ghost use Rattle.shared_store.specs.Handed.{GivesSchema, KeepsFrom, MayEnter, MayPut, Pins, insert_there};
ghost use Rattle.shared_store.specs.Sharing.{AreLedgersOf, Finished, IsToBeShared, KnowsAll};
ghost use Rattle.shared_store.specs.Stood.{is_told};
ghost use Rattle.shared_store.specs.Tallies.{tally};
ghost use Rattle.shared_store.specs.Turns.{AtTurn, CountsTurn, GivesBack, HasTurn, PutsBack, ShowsCreate, ShowsPart, ShowsPut};
ghost use Rattle.shared_store.specs.Works.{AnswersWhole, HasAll, HasPair};

use crate::engine::Engine;
use crate::handed::Work;
use crate::locked::Locked;
use crate::names::{FaultsMet, LevelsMet, Names, StopsMet, WorksOut};
use crate::share::Share;
use crate::work::{Put, TakeFault};
use history_seat::{Blank, History, Opened, Seat};
use merge_select::Scope;
use mt_base::{NoMemory, Partition, Policy};
use mt_outside::{Arm, Dir, Disk};
use mt_values::{Annals, Block, Create, Name, Schema};
use root_commits::Returned;
use root_commits::part_reader::Part;
use root_commits::part_set::Snap;
use root_commits::part_writer::SealedPart;
use root_commits::root_store::CoreStore;
use root_commits::stage_dir::Sealed;
use std::alloc::Global;
use std::sync::ledger::{self, Book};
use std::sync::{Mutex, Wait};

/// A history and four ledgers that have no name yet. As they name no root, the call that opens them can pick one that has them.
#[derive(Drop)]
pub struct Blanks {
    pub word: Blank,
    pub works: ledger::Blank,
    pub stops: ledger::Blank,
    pub levels: ledger::Blank,
    pub faults: ledger::Blank,
}

impl Blanks {
    /// A history that begins with so many entries, and ledgers whose shares are cut into so many parts. This is the one call by which
    /// a shared root takes memory of its own.
    ///
    /// `NoMemory` where an allocation failed; nothing stands then.
    pub fn new(alloc: Global, base: u64, parts: u64) -> Result<Blanks, NoMemory>
        ensures word { IfOk result (λ b. b.word.base ≡ base) }
        ensures parts { IfOk result (λ b. (b.works.parts ≡ parts) × (b.stops.parts ≡ parts)
            × (b.levels.parts ≡ parts) × (b.faults.parts ≡ parts)) }
    {
        Ok(Blanks {
            word: Blank::new(alloc, base)?,
            works: ledger::Blank::new(parts),
            stops: ledger::Blank::new(parts),
            levels: ledger::Blank::new(parts),
            faults: ledger::Blank::new(parts),
        })
    }
}

/// A root that sessions and workers share, behind one lock.
///
/// Each call has one turn: it takes the lock, runs the method of its name on what lies under it, and lets the lock go. Under the lock
/// nobody can say what the root was before a call, since others act in between. So a call says what its session's seat, its share of
/// the ledgers, its snapshot and its answer show.
#[derive(Drop)]
pub struct Shared<F: Dir, R: Arm<Dir = F>, D: Disk<Arm = R>, A: Annals, B: Names> {
    history: History<B>,
    locked: Mutex<Locked<F, R, D, A, B>>,
}

// Opens the four ledgers, with the share that has every part of them.
fn open_ledgers<B: Names>(
    works: ledger::Blank,
    stops: ledger::Blank,
    levels: ledger::Blank,
    faults: ledger::Blank,
) -> (
    Book<WorksOut<B>>,
    Book<StopsMet<B>>,
    Book<LevelsMet<B>>,
    Book<FaultsMet<B>>,
    Share<B>,
)
    requires works { (works.name ≡ B.ledgers.works) × (works.parts ≡ B.ledgers.parts) }
    requires stops { (stops.name ≡ B.ledgers.stops) × (stops.parts ≡ B.ledgers.parts) }
    requires levels { (levels.name ≡ B.ledgers.levels) × (levels.parts ≡ B.ledgers.parts) }
    requires faults { (faults.name ≡ B.ledgers.faults) × (faults.parts ≡ B.ledgers.parts) }
    ensures totals { (result.0.total ≡ 0) × (result.1.total ≡ 0) × (result.2.total ≡ 0)
        × (result.3.total ≡ 0) }
    ensures share { result.4 ≡ tally B.ledgers.parts 0 0 0 0 }
{
    let (works, works_share) = works.open::<WorksOut<B>>();
    let (stops, stops_share) = stops.open::<StopsMet<B>>();
    let (levels, levels_share) = levels.open::<LevelsMet<B>>();
    let (faults, faults_share) = faults.open::<FaultsMet<B>>();
    let share = Share {
        works: works_share,
        stops: stops_share,
        levels: levels_share,
        faults: faults_share,
    };
    (works, stops, levels, faults, share)
}

// Each seat has a last turn, in which it learns all.
fn know_all<F: Dir, R: Arm<Dir = F>, D: Disk<Arm = R>, A: Annals, B: Names>(
    history: &History<B>,
    locked: &mut Locked<F, R, D, A, B>,
    seats: Vec<Seat<B>>,
)
    requires { All IsSession seats.items }
    ensures same { locked.new ≡ locked.old }
    ensures known { All (KnowsAll locked.old.list locked.old.tried) seats.items }
{
    for mut seat in seats {
        locked.look(history, &mut seat);
    }
}

impl<F: Dir, R: Arm<Dir = F>, D: Disk<Arm = R>, A: Annals, B: Names> Shared<F, R, D, A, B> {
    /// The root whose store was opened over this disk, with the seat of session 0 and the share that has every part of the ledgers.
    /// Takes no memory.
    pub fn new(
        store: CoreStore<F>,
        disk: D,
        annals: A,
        policy: Policy,
        blanks: Blanks,
    ) -> (Self, Seat<B>, Share<B>)
        // The names are of these blanks.
        requires word { blanks.word ≡ name B.table (length B.before) }
        requires ledgers { AreLedgersOf B.ledgers blanks }

        // The root is as it was opened; what is known of it holds so far as the premises do.
        requires root { IsToBeShared F.files B.given B.before B.opening (opened_of store policy
            (storage (D.told disk) (D.clock disk) (D.failed disk) (A.told annals))
            (D.started disk)) }

        // Nothing was done since.
        ensures seat { result.1 ≡ session_view 0 [] }
        ensures share { result.2 ≡ tally B.ledgers.parts 0 0 0 0 }
    {
        let Blanks {
            word,
            works,
            stops,
            levels,
            faults,
        } = blanks;
        let Opened {
            history,
            lock,
            zero,
        } = word.open::<B>();
        let (works, stops, levels, faults, share) = open_ledgers::<B>(works, stops, levels, faults);
        let locked = Locked {
            engine: Engine::new(store, disk, annals, policy),
            seat: lock,
            works,
            stops,
            levels,
            faults,
            out: 0,
        };
        let shared = Shared {
            history,
            locked: Mutex::new(locked),
        };
        (shared, zero, share)
    }

    /// The history, by which sessions are made and tell each other what they know.
    pub fn history(&self) -> &History<B> {
        &self.history
    }

    /// The length of the history. The session knows all of it then.
    pub fn look<W: Wait>(&self, rt: &W, seat: &mut Seat<B>) -> u64
        requires { IsSession seat.old }
        ensures looked { Looked seat.old seat.new.list seat.new }
        ensures length { result ≡ length B.before + length seat.new.list }
    {
        self.locked.lock(rt).look(&self.history, seat)
    }

    /// An equal schema of a table; none exactly where there is no such table in what the session then knows.
    ///
    /// `NoMemory` where an allocation failed.
    pub fn schema<W: Wait>(
        &self,
        rt: &W,
        alloc: Global,
        seat: &mut Seat<B>,
        table: &Name,
    ) -> Result<Option<Schema>, NoMemory>
        requires { IsSession seat.old }
        ensures looked { Looked seat.old seat.new.list seat.new }
        ensures schema { IfOk result
            (GivesSchema B.given B.before B.opening.tables seat.new.list table.now) }
    {
        self.locked
            .lock(rt)
            .schema(alloc, &self.history, seat, table)
    }

    /// A table as it is after all that the session then knows; none exactly where there is no such table.
    ///
    /// `NoMemory` where the copies found no room.
    pub fn snapshot<W: Wait>(
        &self,
        rt: &W,
        alloc: Global,
        seat: &mut Seat<B>,
        table: &Name,
    ) -> Result<Option<Snap<Part<F>>>, NoMemory>
        requires { IsSession seat.old }
        ensures looked { Looked seat.old seat.new.list seat.new }
        ensures snap { IfOk result
            (Pins F.files B.given B.before B.opening seat.new.list table.now) }
    {
        self.locked
            .lock(rt)
            .snapshot(alloc, &self.history, seat, table)
    }

    /// Lets a snapshot go.
    pub fn give_back<W: Wait>(&self, rt: &W, snap: Snap<Part<F>>) {
        self.locked.lock(rt).give_back(snap);
    }

    /// Commits a CREATE whose entry was sealed, as an entry of the session, and gives the length of the history then.
    ///
    /// It is refused as `Engine::create` is, and always where the share has counted a stop. After a refusal the session only looked;
    /// where what was sealed does not come back, the entry is begun. The share has then counted a stop exactly where the disk failed or
    /// the store was stopped.
    pub fn create<W: Wait>(
        &self,
        rt: &W,
        alloc: Global,
        seat: &mut Seat<B>,
        share: &mut Share<B>,
        create: Create,
        sealed: Sealed<R::Stage>,
    ) -> Result<u64, Returned<Sealed<R::Stage>>>
        requires session { IsSession seat.old }
        requires parts { 0 < share.old.parts }
        requires named { IsTrue (is_table create.table) }
        requires schema { IsTableSchema create.schema }
        requires sealed { B.given is_told → IsSealedEntry create sealed.files }
        ensures turn { (found : List Entry) × HasTurn F.files B.given B.before B.opening found
            B.ledgers.parts sealed.failed (entry_of seat.old.number (command.Create create))
            (ShowsCreate create.table) seat.old seat.new share.old share.new result }
        ensures back { GivesBack sealed result }
    {
        self.locked
            .lock(rt)
            .create(alloc, &self.history, seat, share, create, sealed)
    }

    /// Commits a block of one partition whose part was sealed, as an entry of the session, and gives the length of the history then.
    ///
    /// It is refused as `Engine::insert` is, and always where the share has counted a stop. After a refusal the session only looked;
    /// where what was sealed does not come back, the entry is begun. The share has then counted a stop exactly where the disk failed or
    /// the store was stopped.
    pub fn insert<W: Wait>(
        &self,
        rt: &W,
        alloc: Global,
        seat: &mut Seat<B>,
        share: &mut Share<B>,
        table: &Name,
        part: SealedPart<R::Stage>,
        block: Block,
    ) -> Result<u64, Returned<SealedPart<R::Stage>>>
        requires session { IsSession seat.old }
        requires parts { 0 < share.old.parts }
        requires may { MayEnter B.given B.opening.tables seat.old.list table.now block part.sealed
            part.loaded }
        ensures turn { (found : List Entry) × HasTurn F.files B.given B.before B.opening found
            B.ledgers.parts part.sealed.failed (entry_of seat.old.number
            (insert_there B.opening.tables seat.old.list table.now block))
            (ShowsPart table.now block) seat.old seat.new share.old share.new result }
        ensures back { GivesBack part result }
    {
        self.locked
            .lock(rt)
            .insert(alloc, &self.history, seat, share, table, part, block)
    }

    /// Takes up the merge of the pair that the policy takes in a scope, by what it finds at its turn. None exactly where the policy may
    /// take no pair there.
    ///
    /// `NoMemory` where an allocation failed, and where as many works are out as 64 bits count.
    pub fn take_merge<W: Wait>(
        &self,
        rt: &W,
        alloc: Global,
        share: &mut Share<B>,
        scope: Scope,
    ) -> Result<Option<Work<F, B>>, NoMemory>
        requires { 0 < share.old.parts }
        ensures low { IfOk result (λ found. IfSome found
            (λ w. any_greatest w.taken.sources.items ≡ false)) }
        ensures work { IfOk result (λ found. IfSome found (λ _. share.new ≡ tally share.old.parts
            (share.old.out + 1) share.old.stops share.old.levels share.old.faults)) }
        ensures of { IfOk result (λ found. IfSome found (λ w. AtTurn F.files B.given B.before
            B.opening w.note.list B.ledgers.parts share.old
            (λ store failed. HasPair B.opening.policy scope.entry store w.taken))) }
        ensures none { IfOk result (λ found. IfNone found ((share.new ≡ share.old)
            × (found : List Entry) × AtTurn F.files B.given B.before B.opening found
            B.ledgers.parts share.old
            (λ store failed. NoneIn (choice_by B.opening.policy store) scope.entry))) }
        ensures err { OnErr result (share.new ≡ share.old) }
    {
        self.locked
            .lock(rt)
            .take_merge(alloc, &self.history, share, scope)
    }

    /// Takes up the merge of all parts that a partition has at its turn, one too. None exactly where there is no part, or a mutation
    /// keeps two neighbours from being merged.
    ///
    /// Else `Busy` exactly where a part is being merged, and tells the first of them in block order,
    /// never where the share has every part of the ledgers and no work of it is out; `NoMemory` where an
    /// allocation failed, and where as many works are out as 64 bits count.
    pub fn take_all<W: Wait>(
        &self,
        rt: &W,
        alloc: Global,
        share: &mut Share<B>,
        table: &Name,
        partition: Partition,
    ) -> Result<Option<Work<F, B>>, TakeFault>
        requires { 0 < share.old.parts }
        ensures of { IfOk result (λ found. IfSome found (λ w. (w.taken.table ≡ table.now)
            × (w.taken.partition ≡ partition)
            × AtTurn F.files B.given B.before B.opening w.note.list B.ledgers.parts share.old
            (λ store failed. HasAll store w.taken))) }
        ensures work { IfOk result (λ found. IfSome found (λ _. share.new ≡ tally share.old.parts
            (share.old.out + 1) share.old.stops share.old.levels share.old.faults)) }
        ensures none { IfOk result (λ found. IfNone found ((share.new ≡ share.old)
            × (found : List Entry) × AtTurn F.files B.given B.before B.opening found
            B.ledgers.parts share.old
            (λ store failed. AnswersWhole store table.now partition (Ok None)))) }
        ensures err { IfErr result (λ e. (share.new ≡ share.old)
            × (found : List Entry) × AtTurn F.files B.given B.before B.opening found
            B.ledgers.parts share.old
            (λ store failed. KeepsFrom store table.now partition e)) }
        ensures alone { share.old.parts ≡ B.ledgers.parts → share.old.out ≡ 0
            → IfErr result (λ e. e ≡ TakeFault.NoMemory) }
    {
        self.locked
            .lock(rt)
            .take_all(alloc, &self.history, share, table, partition)
    }

    /// Puts the part that was sealed of a work's merge in place of its sources, where these stand there under their names and with
    /// their marks. It is no command: the history stays.
    ///
    /// `Gone` exactly where they do not stand so. It is refused as `Engine::put_work` is, and never done where the share has counted a
    /// stop. In each case no part that has the name of a source bears a mark any more, and none at all where no other work is out.
    pub fn put_work<W: Wait>(
        &self,
        rt: &W,
        alloc: Global,
        share: &mut Share<B>,
        work: Work<F, B>,
        part: SealedPart<R::Stage>,
    ) -> Result<Put<SealedPart<R::Stage>>, Returned<SealedPart<R::Stage>>>
        requires out { 0 < share.old.out }
        requires may { MayPut B.given B.before work.note.list work.taken part.sealed part.loaded }
        ensures turn { (found : List Entry) × CountsTurn F.files B.given B.before B.opening found
            B.ledgers.parts part.sealed.failed (share.old.out - 1) (cause_of result)
            (ShowsPut work.taken result) share.old share.new }
        ensures back { PutsBack part result }
    {
        self.locked
            .lock(rt)
            .put_work(alloc, &self.history, share, work, part)
    }

    /// Lets a work go: no part of its table that has the name of a source bears a mark any more, and no part at all where no other work
    /// is out.
    pub fn drop_work<W: Wait>(&self, rt: &W, share: &mut Share<B>, work: Work<F, B>)
        requires { 0 < share.old.out }
        ensures { share.new ≡ tally share.old.parts (share.old.out - 1) share.old.stops
            share.old.levels share.old.faults }
    {
        self.locked.lock(rt).drop_work(&self.history, share, work);
    }

    /// The disk and the annals. They are those of a root of which all holds that held under the lock, with one history that begins with
    /// what each seat knows, and in which the entries of a seat's number are those that the seat added.
    pub fn finish(self, seats: Vec<Seat<B>>, share: Share<B>) -> (D, A)
        requires { All IsSession seats.items }
        ensures { Finished F.files B.given B.before B.opening B.ledgers.parts
            (storage (D.told result.0) (D.clock result.0) (D.failed result.0) (A.told result.1))
            (D.started result.0) seats.items share }
    {
        let Shared { history, locked } = self;
        let mut locked = locked.into_inner();
        let mut share = share;
        know_all(&history, &mut locked, seats);
        locked.end(&mut share)
    }
}
