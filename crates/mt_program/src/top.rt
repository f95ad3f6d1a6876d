// All that the program does.
ghost use Rattle.std.specs.Prelude.{◌≡◌, ◌≢◌, ◌+◌, ◌⊎◌, ◌≤◌, ◌<◌, ◌^◌, ◌-◌, Bool, List, ℕ, [], Err, Ok, Some, None, true, IfErr, IfOk, IsErrAnd, IsErrOf, OnOk, is_some, length};
ghost use Rattle.mt_values.specs.Annals.{Told};
ghost use Rattle.mt_outside.specs.Causes.{Rose};
ghost use Rattle.mt_outside.specs.Disk as root;
ghost use Rattle.root_log.specs.root_opening.declared.opening.Damage.{Damage as Damaged};
ghost use Rattle.root_log.specs.root_store.Crashes.{AllStand};
ghost use Rattle.root_log.specs.root_opening.Opening.{IsNotDamaged, IsRootDamage};
ghost use Rattle.root_log.specs.root_store.Roots.{Stands};
ghost use Rattle.session.specs.replies.Foreseen.{history};
ghost use Rattle.mt_program.specs.Crashes.{IsAsBefore, LeavesOfScript};
ghost use Rattle.mt_program.specs.Damage.{IsDamagedRoot, WritesDamage, WritesFault, damage_line};
ghost use Rattle.mt_program.specs.Endings.{IsEarly, LeftAtEnd, MetNoDamage, status_of, status_of_error, status_of_stop};
ghost use Rattle.mt_program.specs.Promises.{LeavesOfRun, Promises};
ghost use Rattle.mt_program.specs.Serving.{Output, Stretch};
ghost use Rattle.mt_program.specs.Worlds.{storage_of, world_of};
ghost use Rattle.command_line.specs.Words.{command_of, said};
ghost use Rattle.session.specs.run_streams.Streams.{ConsumesMost};

use crate::Status;
use crate::refusals::damage_line;
use crate::serving::Ending;
use crate::sharing::{Served, serve_root};
use command_line::{CommandLine, read_words};
use mt_base::{NoMemory, Policy};
use mt_outside::{Arm, Disk, DiskError, Gate, Sink, Source};
use mt_values::Annals;
use root_log::{Damage, OpenFault, open};
use session::run_streams::{SourceStop, read_all, write_all};
use std::alloc::Global;
use std::sync::Wait;
use std::thread::Threads;

/// What the program hands back.
#[derive(Drop)]
pub struct Done<D, A> {
    pub status: u8,
    pub disk: D,
    pub annals: A,
}

// How a part of a run ended, with the disk and the annals.
#[derive(Drop)]
struct Ended<E, D, A> {
    end: E,
    disk: D,
    annals: A,
}

/// The status of a call on the disk that failed at opening.
fn failed_opening(error: DiskError) -> Status
    ensures { result ≡ status_of_error error }
{
    match error {
        DiskError::Fault => Status::DiskFault,
        DiskError::NoMemory => Status::NoMemory,
    }
}

/// The status of a script that was not read.
fn failed_reading(stop: SourceStop) -> Status
    ensures { result ≡ status_of_stop stop }
{
    match stop {
        SourceStop::NoMemory => Status::NoMemory,
        SourceStop::Fault => Status::ReadFault,
        SourceStop::TooLong => Status::TooLong,
    }
}

/// The status at the end, by how the script was served. A disk's count of faults that has risen is shown where all statements
/// were answered and none of them met damage.
fn status_at_end(ended: Result<Ending, Status>, risen: bool) -> Status
    ensures { result ≡ status_of risen ended }
{
    match ended {
        Ok(Ending::Done(tally)) if tally.damaged => Status::Damaged,
        Ok(Ending::Done(_)) if risen => Status::DiskFault,
        Ok(Ending::Done(tally)) if tally.refused => Status::Refused,
        Ok(Ending::Done(_)) => Status::Done,
        Ok(Ending::NoMemory) => Status::NoMemory,
        Ok(Ending::WriteFault) => Status::WriteFault,
        Err(status) => status,
    }
}

/// Reads the script.
///
/// The status of one that was not read.
fn read_script<S: Source>(alloc: Global, source: &mut S) -> Result<Vec<u8>, Status>
    // What was read.
    ensures text { (script : List ℕ) → S.left source.old ≡ Some script
        → IfOk result (λ text. text.items ≡ script) }
    ensures whole { (script : List ℕ) → S.left source.old ≡ Some script
        → OnOk result ((length script < 2 ^ 40) × (S.left source.new ≡ Some [])) }

    // Why it was not.
    ensures early { IfErr result IsEarly }
    ensures undamaged { IsErrOf result Status.Damaged → ⊥ }
    ensures disk { IsErrOf result Status.DiskFault → ⊥ }
    ensures read { IsErrOf result Status.ReadFault
        → Rose (S.failed source.old) (S.failed source.new) }
    ensures unfailed { (IsErrOf result Status.ReadFault → ⊥)
        → S.failed source.new ≡ S.failed source.old }
    ensures long { IsErrOf result Status.TooLong
        → ConsumesMost (S.left source.old) (S.left source.new) }
{
    match read_all(alloc, source) {
        Ok(text) => Ok(text),
        Err(stop) => Err(failed_reading(stop)),
    }
}

/// Writes the line of what keeps the root from being opened.
fn refuse_root<K: Sink>(alloc: Global, sink: &mut K, damage: &Damage) -> Status
    ensures writes { WritesDamage result (damage_line damage.now) (K.failed sink.old)
        (K.failed sink.new) (K.written sink.old) (K.written sink.new) }
    ensures status { (result ≡ Status.Damaged) ⊎ (result ≡ Status.NoMemory) }
{
    let line = match damage_line(alloc, damage) {
        Ok(line) => line,
        Err(_) => return Status::NoMemory,
    };
    match write_all(sink, &line) {
        Ok(()) => Status::Damaged,
        Err(_) => Status::Damaged,
    }
}

/// The status of a root that was not opened. Its damage is written.
fn failed_root<K: Sink>(alloc: Global, sink: &mut K, fault: &OpenFault) -> Status
    ensures writes { WritesFault fault.now result (K.failed sink.old) (K.failed sink.new)
        (K.written sink.old) (K.written sink.new) }
    ensures early { IsEarly result }
    ensures read { result ≡ Status.ReadFault → ⊥ }
    ensures long { result ≡ Status.TooLong → ⊥ }
    ensures disk { result ≡ Status.DiskFault → fault.now ≡ OpenFault.Disk }
    ensures damaged { IsNotDamaged fault.now → result ≡ Status.Damaged → ⊥ }
{
    match fault {
        OpenFault::NoMemory => Status::NoMemory,
        OpenFault::Disk => Status::DiskFault,
        OpenFault::Damaged(damage) => refuse_root(alloc, sink, damage),
    }
}

/// Opens the root and runs a script over it, as its one session, with this policy of merges. `opened` is the disk's count before the root was opened.
///
/// The status of a script that was not read, and of a root that was not opened.
fn run_root<W: Wait, D: Disk, A: Annals, S: Source, K: Sink, G: Gate>(
    rt: &W,
    alloc: Global,
    opened: u64,
    source: &mut S,
    sink: &mut K,
    disk: D,
    arm: &mut D::Arm,
    annals: A,
    policy: Policy,
    gate: &mut G,
) -> Ended<Result<Ending, Status>, D, A>
    requires opened { opened ≤ D.failed disk }
    requires below { opened < 2 ^ 64 - 1 }

    // What is answered, and what is told of damage.
    ensures leaves { let stretch : Bool → Stretch = λ full. record {
      opened = opened;
      root = D.told disk;
      now = storage_of D.Disk A.Annals (result.disk, result.annals);
      arm = D.Arm.failed arm.new;
      full = full;
    } in
        let output : Output = record { before = K.written sink.old; after = K.written sink.new } in
        (kept : Told) (told : root.Told) (script : List ℕ) → A.told annals ≡ Some kept
        → D.told disk ≡ Some told → Stands (root.names_of told) (history kept)
        → D.Arm.tells arm.old ≡ true → S.left source.old ≡ Some script
        → LeftAtEnd result.end kept script stretch output }
    ensures opening { (told : root.Told) (damage : Damaged) → D.told disk ≡ Some told
        → IsRootDamage (root.names_of told) damage → IsErrAnd result.end (λ ended.
        WritesDamage ended (damage_line damage) (K.failed sink.old) (K.failed sink.new)
        (K.written sink.old) (K.written sink.new)) × (D.told result.disk ≡ D.told disk)
        × (D.clock result.disk ≡ D.clock disk) × (A.told result.annals ≡ A.told annals) }
    ensures sound { (kept : Told) (told : root.Told) → A.told annals ≡ Some kept
        → D.told disk ≡ Some told → Stands (root.names_of told) (history kept)
        → D.Arm.tells arm.old ≡ true → MetNoDamage result.end }
    ensures damaged { (told : root.Told) → D.told disk ≡ Some told → D.Arm.tells arm.old ≡ true
        → MetNoDamage result.end ⊎ IsDamagedRoot (root.names_of told) }

    // What a crash leaves.
    ensures crashes { let now = storage_of D.Disk A.Annals (result.disk, result.annals) in
        (kept : Told) (told : root.Told) → A.told annals ≡ Some kept → D.told disk ≡ Some told
        → D.Arm.tells arm.old ≡ true → AllStand told (D.clock disk) (history kept)
        → LeavesOfScript (S.left source.old) opened now kept (D.clock disk) }
    ensures settles { let was = storage_of D.Disk A.Annals (disk, annals) in
        let now = storage_of D.Disk A.Annals (result.disk, result.annals) in
        (kept : Told) (told : root.Told) → A.told annals ≡ Some kept → D.told disk ≡ Some told
        → D.Arm.tells arm.old ≡ true → root.names_of told ≢ []
        → AllStand told (D.clock disk + 1) (history kept) → root.IsStamped (D.clock disk) told
        → IsAsBefore was now (K.written sink.old) (K.written sink.new)
        ⊎ LeavesOfScript (S.left source.old) opened now kept (D.clock disk + 1) }

    // What was read, and why it ended early.
    ensures whole { (script : List ℕ) → S.left source.old ≡ Some script
        → OnOk result.end ((length script < 2 ^ 40) × (S.left source.new ≡ Some [])) }
    ensures early { IfErr result.end IsEarly }
    ensures unread { IsErrOf result.end Status.DiskFault → source.new ≡ source.old }
    ensures mark { IsErrOf result.end Status.DiskFault
        → D.clock result.disk ≡ D.clock disk }
    ensures read { IsErrOf result.end Status.ReadFault
        → Rose (S.failed source.old) (S.failed source.new) }
    ensures unfailed { (IsErrOf result.end Status.ReadFault → ⊥)
        → S.failed source.new ≡ S.failed source.old }
    ensures disk { IsErrOf result.end Status.DiskFault
        → Rose (D.failed disk) (D.failed result.disk)
        ⊎ Rose (D.Arm.failed arm.old) (D.Arm.failed arm.new) }
    ensures long { IsErrOf result.end Status.TooLong
        → ConsumesMost (S.left source.old) (S.left source.new) }
    ensures write { result.end ≡ Ok Ending.WriteFault
        → Rose (K.failed sink.old) (K.failed sink.new) }

    // What stays, and what the counts of faults are.
    ensures started { D.started result.disk ≡ D.started disk }
    ensures disk_later { D.failed disk ≤ D.failed result.disk }
    ensures arm_later { D.Arm.failed arm.old ≤ D.Arm.failed arm.new }
{
    let mut disk = disk;
    let mut store = match open(alloc, &mut disk, arm) {
        Ok(store) => store,
        Err(fault) => {
            let end = Err(failed_root(alloc, sink, &fault));
            return Ended { end, disk, annals };
        }
    };
    store.opened = opened;
    let text = match read_script(alloc, source) {
        Ok(text) => text,
        Err(early) => {
            let end = Err(early);
            return Ended { end, disk, annals };
        }
    };
    let Served { end, disk, annals } = serve_root(
        rt, alloc, store, disk, annals, policy, arm, sink, gate, &text,
    );
    let end = Ok(end);
    Ended { end, disk, annals }
}

/// Starts the disk at a path, and makes an arm of it.
///
/// `DiskFault` where a call failed, or where the disk's count of faults stood at its type's end before; `NoMemory` where an
/// allocation failed. What the disk tells is as it was.
fn started_arm<D: Disk>(alloc: Global, path: &str, disk: &mut D) -> Result<D::Arm, Status>
    // What is answered, and what the disk tells then.
    ensures tells { IfOk result (λ arm. D.Arm.tells arm ≡ is_some (D.told disk.old)) }
    ensures status { IfErr result
        (λ status. (status ≡ Status.DiskFault) ⊎ (status ≡ Status.NoMemory)) }
    ensures told { D.told disk.new ≡ D.told disk.old }
    ensures clock { D.clock disk.new ≡ D.clock disk.old }
    ensures started { OnOk result (D.started disk.new ≡ Some path.now) }
    ensures folder { (D.started disk.new ≡ Some path.now)
        ⊎ (D.started disk.new ≡ D.started disk.old) }

    // What its count of faults is.
    ensures full { D.failed disk.old ≡ 2 ^ 64 - 1 → (disk.new ≡ disk.old)
        × IsErrOf result Status.DiskFault }
    ensures below { OnOk result (D.failed disk.old < 2 ^ 64 - 1) }
    ensures fault { IsErrOf result Status.DiskFault
        → Rose (D.failed disk.old) (D.failed disk.new) }
    ensures later { D.failed disk.old ≤ D.failed disk.new }
{
    if disk.faults() == u64::MAX {
        return Err(Status::DiskFault);
    }
    if let Err(error) = disk.start(path) {
        return Err(failed_opening(error));
    }
    match disk.arm(alloc) {
        Ok(arm) => Ok(arm),
        Err(error) => Err(failed_opening(error)),
    }
}

/// Starts the disk, opens the root and runs the script. The arm is given back in each case.
fn run_opened<W: Wait, D: Disk, A: Annals, S: Source, K: Sink, G: Gate>(
    rt: &W,
    alloc: Global,
    line: &CommandLine<'_>,
    source: &mut S,
    sink: &mut K,
    disk: D,
    annals: A,
    gate: &mut G,
) -> Ended<Status, D, A>
    ensures run { LeavesOfRun line.now.folder.now
        (world_of D.Disk A.Annals S.Source K.Sink (disk, annals) source.old sink.old) result.end
        (world_of D.Disk A.Annals S.Source K.Sink (result.disk, result.annals) source.new sink.new) }
    ensures full { D.failed disk ≡ 2 ^ 64 - 1 → (source.new ≡ source.old) × (sink.new ≡ sink.old)
        × (result.disk ≡ disk) × (result.annals ≡ annals) }
{
    let mut disk = disk;
    let opened = disk.faults();
    let mut arm = match started_arm(alloc, line.folder, &mut disk) {
        Ok(arm) => arm,
        Err(end) => return Ended { end, disk, annals },
    };
    let Ended {
        end,
        mut disk,
        annals,
    } = run_root(
        rt,
        alloc,
        opened,
        source,
        sink,
        disk,
        &mut arm,
        annals,
        line.policy,
        gate,
    );
    disk.take_back(arm);
    let end = status_at_end(end, opened < disk.faults());
    Ended { end, disk, annals }
}

/// The command line, or the status of a run that ends at its words.
fn line_of<'a>(alloc: Global, words: &'a [String]) -> Result<CommandLine<'a>, Status>
    ensures line { IfOk result (λ line. command_of words.now ≡ Some (said line)) }
    ensures status { IfErr result (λ status.
        ((status ≡ Status.NotWords) × (command_of words.now ≡ None)) ⊎ (status ≡ Status.NoMemory)) }
{
    match read_words(alloc, words) {
        Ok(Some(line)) => Ok(line),
        Ok(None) => Err(Status::NotWords),
        Err(NoMemory) => Err(Status::NoMemory),
    }
}

/// Runs a script over the root of a folder, as an earlier run left it, and refuses a root that is damaged.
///
/// The status is 0 where all statements were answered, 1 where one of them was refused for what the script says, 2 where the words
/// are no command line, 3 where the source failed, 4 where the sink failed, 5 where the disk's count of faults rose, 6 for want of
/// memory, 7 where the root was found damaged as it was opened or a reply told of damage (`E19`), and 8 where 2^40 bytes were read and
/// no end was met.
pub fn run<R: Threads + Wait + Sync, D: Disk, A: Annals, S: Source, K: Sink, G: Gate>(
    rt: &R,
    alloc: Global,
    words: &[String],
    source: &mut S,
    sink: &mut K,
    disk: D,
    annals: A,
    gate: &mut G,
) -> Done<D, A>
    ensures promises { Promises words.now
        (world_of D.Disk A.Annals S.Source K.Sink (disk, annals) source.old sink.old) result.status
        (world_of D.Disk A.Annals S.Source K.Sink (result.disk, result.annals) source.new sink.new) }
    ensures untouched { (command_of words.now ≡ None) ⊎ (D.failed disk ≡ 2 ^ 64 - 1)
        → (source.new ≡ source.old) × (sink.new ≡ sink.old) × (result.disk ≡ disk)
        × (result.annals ≡ annals) }
{
    let line = match line_of(alloc, words) {
        Ok(line) => line,
        Err(early) => {
            let status = early.number();
            return Done {
                status,
                disk,
                annals,
            };
        }
    };
    let Ended { end, disk, annals } = run_opened(
        rt, alloc, &line, source, sink, disk, annals, gate,
    );
    let status = end.number();
    Done {
        status,
        disk,
        annals,
    }
}
