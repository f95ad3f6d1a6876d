//! Cases of sessions and a worker over a root that they share, which no script makes: what a session is answered while two parts are being
//! merged, and after that merge was put, let go, not read or refused; and what another session is answered then.
//!
//! Each begins with a new root over the disk in memory, in which a table has two parts of one row each. The worker takes these up, the
//! session speaks, and then the worker carries the merge out. What became of it is told between the replies, and whether a part bears a
//! mark then. The last replies are those of session 1. Standard output is compared with what is wanted.
#![tactic(auto)]

ghost use Rattle.std.specs.Prelude.{◌≡◌, ◌<◌, [], All, IfOk, None, length, true};
ghost use Rattle.root_log.specs.root_store.Shown.{HasNoMark};
ghost use Rattle.root_log.specs.root_store.Soundness.{IsReady};
ghost use Rattle.session.specs.shared_store.history_seat.Turns.{IsSession};
ghost use Rattle.session.specs.shared_store.history_seat.Views.{name};
ghost use Rattle.session.specs.shared_store.Engines.{opened_of};
ghost use Rattle.session.specs.shared_store.Sharing.{AreLedgersOf, IsToBeShared};
ghost use Rattle.session.specs.shared_store.Stood.{is_told};
ghost use Rattle.root_log.specs.root_commits.Turns.{storage};
ghost use Rattle.session.specs.mt_model.Written.{IsWritten};
ghost use Rattle.session.specs.Answers.{KnowsOwn};

use disk_mem::{CallKind, KeptAnnals, Listed, MemDisk};
use mt_base::{NoMemory, Partition, Policy, Seq};
use mt_outside::{Arm, Dir, Disk, DiskError, OpenGate};
use mt_values::{Annals, Cause, Statement};
use root_log::sql_read::{Next, next_statement};
use root_log::{CoreStore, open};
use session::merge_workers::{Carried, carry_out};
use session::shared_store::history_seat::Seat;
use session::shared_store::merge_select::Scope;
use session::shared_store::part_name::{PartName, text};
use session::shared_store::{Blanks, Names, Share, Shared, TakeFault};
use session::{Replies, run_session, run_statement};
use std::alloc::Global;
use std::io;
use std::marker::Brand;
use std::sync::Wait;
use thiserror::Error;

/// What becomes of the work.
#[derive(Clone, Copy)]
enum Case {
    Put,
    LetGo,
    /// The worker's arm makes no stage for its merge.
    StageFails,
    /// The first read of its parts fails.
    ReadFails,
    /// The publish of its merge fails.
    PublishFails,
    /// The publish of its merge succeeds, and the sync of the names after it fails.
    SyncFails,
    /// The publish of what the session inserts meanwhile fails.
    InsertFails,
}

/// Why a case was not told to its end.
#[derive(Clone, Copy, Debug, Error)]
enum Fault {
    #[error("{0}")]
    Memory(#[from] NoMemory),
    #[error("{0}")]
    Disk(#[from] DiskError),
    #[error("refused")]
    Refused,
}

/// The arm of the sessions, and the worker's.
struct Arms<R> {
    sessions: R,
    worker: R,
}

/// The call that fails in a case, if one does. There are four publishes before that of the merge, each with its sync: of a CREATE and of
/// three INSERTs. The worker's arm is the second.
fn failing(case: Case) -> Option<Listed> {
    let (arm, kind, number) = match case {
        Case::Put | Case::LetGo => return None,
        Case::StageFails => (Some(1), CallKind::Stage, 0),
        Case::ReadFails => (Some(1), CallKind::Read, 0),
        Case::PublishFails => (None, CallKind::Publish, 4),
        Case::SyncFails => (None, CallKind::SyncNames, 4),
        Case::InsertFails => (None, CallKind::Publish, 3),
    };
    Some(Listed {
        arm,
        stage: None,
        kind,
        number,
    })
}

/// What is told of a work that was carried out, and the part of it that was gone, if one was.
fn ended(carried: Carried) -> (&'static str, Option<PartName>) {
    match carried {
        Carried::Done => ("put", None),
        Carried::Gone(part) => ("gone", Some(part)),
        Carried::Refused(_) => ("refused", None),
        Carried::Unread(_, _) => ("not read", None),
    }
}

/// Tells what became of a merge.
fn tell_end(
    alloc: Global,
    told: &mut String,
    end: &'static str,
    part: Option<PartName>,
) -> Result<(), NoMemory> {
    write!(told, "  the merge: {end}").map_err(|_| NoMemory)?;
    if let Some(part) = part {
        let name = text(alloc, &part)?;
        write!(told, " {}", name.escape_ascii()).map_err(|_| NoMemory)?;
    }
    write!(told, "\n").map_err(|_| NoMemory)
}

/// Runs a statement of the session and tells its reply.
fn say<W: Wait, F: Dir, R: Arm<Dir = F>, D: Disk<Arm = R>, A: Annals, B: Names>(
    rt: &W,
    alloc: Global,
    shared: &Shared<F, R, D, A, B>,
    seat: &mut Seat<B>,
    share: &mut Share<B>,
    arm: &mut R,
    told: &mut String,
    text: &[u8],
) -> Result<(), Fault>
    requires session { IsSession seat.old }
    requires own { KnowsOwn seat.old }
    requires parts { 0 < share.old.parts }
    requires out { share.old.out ≡ 0 }
    requires tells { B.given is_told → R.tells arm.old ≡ true }

    // What the session has then.
    ensures session { IsSession seat.new }
    ensures own { KnowsOwn seat.new }
    ensures parts { share.new.parts ≡ share.old.parts }
    ensures out { share.new.out ≡ share.old.out }
    ensures tells { R.tells arm.new ≡ R.tells arm.old }
{
    let Next::Found(statement, _) = next_statement(alloc, text, true) else {
        return Err(Fault::Refused);
    };
    let gate = &mut OpenGate;
    let reply = run_statement(rt, alloc, shared, seat, share, arm, gate, Ok(statement))?;
    write!(told, "  {}\n", reply.bytes().escape_ascii()).map_err(|_| NoMemory)?;
    Ok(())
}

/// Runs statements of the session, one after another.
fn say_all<W: Wait, F: Dir, R: Arm<Dir = F>, D: Disk<Arm = R>, A: Annals, B: Names>(
    rt: &W,
    alloc: Global,
    shared: &Shared<F, R, D, A, B>,
    seat: &mut Seat<B>,
    share: &mut Share<B>,
    arm: &mut R,
    told: &mut String,
    texts: &[&[u8]],
) -> Result<(), Fault>
    requires session { IsSession seat.old }
    requires own { KnowsOwn seat.old }
    requires parts { 0 < share.old.parts }
    requires out { share.old.out ≡ 0 }
    requires tells { B.given is_told → R.tells arm.old ≡ true }

    // What the session has then.
    ensures session { IsSession seat.new }
    ensures own { KnowsOwn seat.new }
    ensures parts { share.new.parts ≡ share.old.parts }
    ensures out { share.new.out ≡ share.old.out }
    ensures tells { R.tells arm.new ≡ R.tells arm.old }
{
    for text in texts {
        say(rt, alloc, shared, seat, share, arm, told, text)?;
    }
    Ok(())
}

/// Takes up the merge of a pair, lets the session speak, and then carries the merge out or lets it go. The worker's share is merged
/// into the session's again.
fn beside<W: Wait, F: Dir, R: Arm<Dir = F>, D: Disk<Arm = R>, A: Annals, B: Names>(
    rt: &W,
    alloc: Global,
    shared: &Shared<F, R, D, A, B>,
    seat: &mut Seat<B>,
    share: &mut Share<B>,
    arms: &mut Arms<R>,
    told: &mut String,
    case: Case,
) -> Result<(), Fault>
    requires session { IsSession seat.old }
    requires own { KnowsOwn seat.old }
    requires parts { 1 < share.old.parts }
    requires out { share.old.out ≡ 0 }
    requires tells { B.given is_told → R.tells arms.old.sessions ≡ true }
    requires worker { B.given is_told → R.tells arms.old.worker ≡ true }

    // What the session has then.
    ensures session { IsSession seat.new }
    ensures own { KnowsOwn seat.new }
    ensures parts { share.new.parts ≡ share.old.parts }
    ensures out { share.new.out ≡ 0 }
    ensures tells { R.tells arms.new.sessions ≡ R.tells arms.old.sessions }
    ensures worker { R.tells arms.new.worker ≡ R.tells arms.old.worker }
{
    let mut worker = share.split();
    let work = match shared.take_merge(rt, alloc, &mut worker, Scope::All) {
        Ok(Some(work)) => work,
        Ok(None) | Err(_) => {
            share.merge(worker);
            return Err(Fault::Refused);
        }
    };
    let texts: [&[u8]; 3] = [
        b"OPTIMIZE TABLE t FINAL;",
        b"INSERT INTO t;\n3\n\\.\n",
        b"SELECT * FROM t;",
    ];
    let arm = &mut arms.sessions;
    let said = say_all(rt, alloc, shared, seat, share, arm, told, &texts);
    let (end, part) = match case {
        Case::LetGo => {
            shared.drop_work(rt, &mut worker, work);
            ("let go", None)
        }
        _ => ended(carry_out(rt, alloc, shared, &mut worker, &mut arms.worker, work)),
    };
    share.merge(worker);
    said?;
    tell_end(alloc, told, end, part)?;
    Ok(())
}

/// Tells whether a part of the table bears a mark: all of them are taken up, and let go.
fn tell_marks<W: Wait, F: Dir, R: Arm<Dir = F>, D: Disk<Arm = R>, A: Annals, B: Names>(
    rt: &W,
    alloc: Global,
    shared: &Shared<F, R, D, A, B>,
    share: &mut Share<B>,
    told: &mut String,
) -> Result<(), Fault>
    requires { 0 < share.old.parts }
    ensures parts { share.new.parts ≡ share.old.parts }
    ensures out { share.new.out ≡ share.old.out }
{
    let table = Seq::from_slice(alloc, b"t")?;
    let found = match shared.take_all(rt, alloc, share, &table, Partition::Whole) {
        Ok(Some(work)) => {
            shared.drop_work(rt, share, work);
            "no part bears a mark"
        }
        Ok(None) => "there is no part",
        Err(TakeFault::Busy(_)) => "a part bears a mark",
        Err(TakeFault::NoMemory) => return Err(Fault::Memory(NoMemory)),
    };
    write!(told, "  {found}\n").map_err(|_| NoMemory)?;
    Ok(())
}

/// Makes the table of a case, lets the worker merge beside the session, and looks what came of it.
fn speak<W: Wait, F: Dir, R: Arm<Dir = F>, D: Disk<Arm = R>, A: Annals, B: Names>(
    rt: &W,
    alloc: Global,
    shared: &Shared<F, R, D, A, B>,
    seat: &mut Seat<B>,
    share: &mut Share<B>,
    arms: &mut Arms<R>,
    told: &mut String,
    case: Case,
) -> Result<(), Fault>
    requires session { IsSession seat.old }
    requires own { KnowsOwn seat.old }
    requires parts { 1 < share.old.parts }
    requires out { share.old.out ≡ 0 }
    requires tells { B.given is_told → R.tells arms.old.sessions ≡ true }
    requires worker { B.given is_told → R.tells arms.old.worker ≡ true }

    // What the session has then.
    ensures session { IsSession seat.new }
    ensures parts { share.new.parts ≡ share.old.parts }
    ensures out { share.new.out ≡ 0 }
    ensures tells { R.tells arms.new.sessions ≡ R.tells arms.old.sessions }
{
    let texts: [&[u8]; 3] = [
        b"CREATE TABLE t (a UInt8) ENGINE = MergeTree ORDER BY a;",
        b"INSERT INTO t;\n1\n\\.\n",
        b"INSERT INTO t;\n2\n\\.\n",
    ];
    let arm = &mut arms.sessions;
    say_all(rt, alloc, shared, seat, share, arm, told, &texts)?;
    beside(rt, alloc, shared, seat, share, arms, told, case)?;
    tell_marks(rt, alloc, shared, share, told)?;
    let texts: [&[u8]; 4] = [
        b"EXPLAIN SELECT * FROM t;",
        b"OPTIMIZE TABLE t FINAL;",
        b"EXPLAIN SELECT * FROM t;",
        b"SELECT * FROM t;",
    ];
    let arm = &mut arms.sessions;
    say_all(rt, alloc, shared, seat, share, arm, told, &texts)?;
    tell_marks(rt, alloc, shared, share, told)
}

/// A text as a statement, or why it is none.
fn read_text(alloc: Global, text: &[u8]) -> Result<Result<Statement, Cause>, Fault>
    ensures { IfOk result IsWritten }
{
    match next_statement(alloc, text, true) {
        Next::Found(statement, _) => Ok(Ok(statement)),
        Next::Refused(cause, _) => Ok(Err(cause)),
        Next::End | Next::NeedMore => Err(Fault::Refused),
        Next::NoMemory => Err(Fault::Memory(NoMemory)),
    }
}

/// Texts as statements, or why they are none.
fn read_texts(alloc: Global, texts: &[&[u8]]) -> Result<Vec<Result<Statement, Cause>>, Fault>
    ensures { IfOk result (λ statements. All IsWritten statements.items) }
{
    let mut statements = Vec::new(alloc);
    for text in texts {
        let statement = read_text(alloc, text)?;
        match statements.push(statement) {
            Ok(()) => {}
            Err(_) => return Err(Fault::Memory(NoMemory)),
        }
    }
    Ok(statements)
}

/// Runs the statements of another session, and tells their replies.
#[tactic(auto, using(crate::proofs::Ran::still_session))]
fn run_other<W: Wait, F: Dir, R: Arm<Dir = F>, D: Disk<Arm = R>, A: Annals, B: Names>(
    rt: &W,
    alloc: Global,
    shared: &Shared<F, R, D, A, B>,
    seat: &mut Seat<B>,
    share: &mut Share<B>,
    arm: &mut R,
    told: &mut String,
) -> Result<(), Fault>
    requires session { IsSession seat.old }
    requires own { KnowsOwn seat.old }
    requires untried { seat.old.tried ≡ None }
    requires parts { 0 < share.old.parts }
    requires out { share.old.out ≡ 0 }
    requires tells { B.given is_told → R.tells arm.old ≡ true }
    ensures session { IsSession seat.new }
{
    let texts: [&[u8]; 3] = [
        b"INSERT INTO t;\n4\n\\.\n",
        b"SELECT a FORM t;",
        b"SELECT * FROM t;",
    ];
    let statements = read_texts(alloc, &texts)?;
    let gate = &mut OpenGate;
    let Replies { replies, no_memory } = run_session(
        rt, alloc, shared, seat, share, arm, gate, statements,
    );
    if no_memory {
        return Err(Fault::Memory(NoMemory));
    }
    for reply in replies {
        write!(told, "  session 1: {}\n", reply.bytes().escape_ascii()).map_err(|_| NoMemory)?;
    }
    Ok(())
}

/// Tells a case, as the sessions and the worker of a root that was opened, and gives disk and annals back.
fn show<W: Wait, F: Dir, R: Arm<Dir = F>, D: Disk<Arm = R>, A: Annals, B: Names>(
    rt: &W,
    alloc: Global,
    store: CoreStore<F>,
    disk: D,
    annals: A,
    blanks: Blanks,
    arms: &mut Arms<R>,
    told: &mut String,
    case: Case,
) -> (Result<(), Fault>, D, A)
    // The names are of these blanks.
    requires word { blanks.word ≡ name B.table (length B.before) }
    requires ledgers { AreLedgersOf B.ledgers blanks }
    requires parts { 1 < B.ledgers.parts }

    // The root is as it was opened; what is known of it holds so far as the premises do.
    requires root { IsToBeShared F.files B.given B.before B.opening (opened_of store Policy.Head
        (storage (D.told disk) (D.clock disk) (D.failed disk) (A.told annals))
        (D.started disk)) }
    requires tells { B.given is_told → R.tells arms.old.sessions ≡ true }
    requires worker { B.given is_told → R.tells arms.old.worker ≡ true }
{
    let mut seats = match Vec::with_capacity(alloc, 2) {
        Ok(seats) => seats,
        Err(_) => return (Err(Fault::Memory(NoMemory)), disk, annals),
    };
    let (shared, mut seat, mut share) = Shared::<F, R, D, A, B>::new(
        store,
        disk,
        annals,
        Policy::Head,
        blanks,
    );
    let mut other = shared.history().new_session(&mut seat);
    let said = speak(rt, alloc, &shared, &mut seat, &mut share, arms, told, case);
    let arm = &mut arms.sessions;
    let more = run_other(rt, alloc, &shared, &mut other, &mut share, arm, told);
    seats.push_reserved(seat);
    seats.push_reserved(other);
    let (disk, annals) = shared.finish(seats, share);
    (said.and(more), disk, annals)
}

/// Tells a case over a root that was opened, of which nothing need be known.
fn show_opened<W: Wait, F: Dir, R: Arm<Dir = F>, D: Disk<Arm = R>, A: Annals>(
    rt: &W,
    alloc: Global,
    store: CoreStore<F>,
    disk: D,
    annals: A,
    arms: &mut Arms<R>,
    told: &mut String,
    case: Case,
) -> (Result<(), Fault>, D, A)
    requires ready { IsReady (D.failed disk) (D.told disk) store }
    requires idle { HasNoMark store }
{
    let blanks = match Blanks::new(alloc, store.length, 2) {
        Ok(blanks) => blanks,
        Err(NoMemory) => return (Err(Fault::Memory(NoMemory)), disk, annals),
    };
    show::<W, F, R, D, A, Brand>(rt, alloc, store, disk, annals, blanks, arms, told, case)
}

/// A new disk, of which the call of a case is to fail.
fn new_disk(alloc: Global, case: Case) -> Result<MemDisk, NoMemory>
    ensures { IfOk result (λ disk. disk.plan.failed ≡ 0) }
{
    let mut disk = MemDisk::new(alloc)?;
    if let Some(call) = failing(case) {
        disk.fail(&[call])?;
    }
    Ok(disk)
}

/// What a case comes to, over a new root.
fn told<W: Wait>(rt: &W, alloc: Global, case: Case) -> Result<String, Fault> {
    let mut disk = new_disk(alloc, case)?;
    let mut sessions = disk.arm(alloc)?;
    let Ok(store) = open(alloc, &mut disk, &mut sessions) else {
        disk.take_back(sessions);
        return Err(Fault::Refused);
    };
    let worker = match disk.arm(alloc) {
        Ok(worker) => worker,
        Err(error) => {
            disk.take_back(sessions);
            return Err(Fault::Disk(error));
        }
    };
    let mut text = String::new(alloc);
    let annals = KeptAnnals::new(alloc);
    let mut arms = Arms { sessions, worker };
    let (shown, mut disk, _) = show_opened(
        rt, alloc, store, disk, annals, &mut arms, &mut text, case,
    );
    let Arms { sessions, worker } = arms;
    disk.take_back(sessions);
    disk.take_back(worker);
    shown?;
    Ok(text)
}

fn main(rt: HostRuntime) -> io::Result<()> {
    for (case, name) in [
        (Case::Put, "a merge that is put"),
        (Case::LetGo, "a merge that is let go"),
        (Case::StageFails, "a merge whose stage fails"),
        (Case::ReadFails, "a merge of which a read fails"),
        (Case::PublishFails, "a merge whose publish fails"),
        (
            Case::SyncFails,
            "a merge after whose publish the sync fails",
        ),
        (
            Case::InsertFails,
            "a merge after an INSERT whose publish failed",
        ),
    ] {
        println!(rt; "{name}")?;
        match told(&rt, rt.alloc(), case) {
            Ok(text) => rt.print(text.as_str())?,
            Err(fault) => println!(rt; "  ? {fault}")?,
        }
    }
    Ok(())
}
