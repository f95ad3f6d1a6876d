// A script run by session 0, which alone has a root that was opened.
ghost use Rattle.std.specs.Prelude.{◌≡◌, ◌<◌, ◌≤◌, ℕ, Bool, Ok, Some, length, true};
ghost use Rattle.mt_values.specs.Annals.{Told};
ghost use Rattle.mt_outside.specs.Causes.{Rose};
ghost use Rattle.root_log.specs.root_store.Crashes.{KeepsThroughCrashes};
ghost use Rattle.root_log.specs.root_store.Shown.{HasNoMark};
ghost use Rattle.root_log.specs.root_store.Soundness.{HasSoundParts, IsReady, RootStands};
ghost use Rattle.root_log.specs.root_store.Stores.{CoreStands};
ghost use Rattle.session.specs.replies.Foreseen.{history};
ghost use Rattle.session.specs.shared_store.history_seat.Views.{name};
ghost use Rattle.session.specs.shared_store.Engines.{opened_of};
ghost use Rattle.session.specs.shared_store.Sharing.{AreLedgersOf, IsToBeShared};
ghost use Rattle.session.specs.shared_store.Stood.{is_told};
ghost use Rattle.mt_values.specs.Script.{statements_of};
ghost use Rattle.mt_program.specs.Crashes.{LeavesForCrashes};
ghost use Rattle.mt_program.specs.Endings.{MetNoDamage};
ghost use Rattle.mt_program.specs.Serving.{Output, ServedBy, Stretch};
ghost use Rattle.mt_program.specs.Sharing.{LeavesShared};
ghost use Rattle.mt_program.specs.Worlds.{IsFullOnlyBy, storage_of};

use crate::serving::{Ending, serve_session};
use mt_base::Policy;
use mt_outside::{Arm, Dir, Disk, Gate, Sink};
use mt_values::Annals;
use root_log::CoreStore;
use session::shared_store::{Blanks, Names, Shared};
use std::alloc::Global;
use std::marker::Brand;
use std::sync::Wait;

/// Into how many parts the shares of the ledgers are cut: more than there are sessions and workers.
const PARTS: u64 = 32;

/// How a script ended, with the disk and the annals.
#[derive(Drop)]
pub struct Served<D, A> {
    pub end: Ending,
    pub disk: D,
    pub annals: A,
}

// Shares a root with nobody, serves a script as session 0 of it, and takes the root back.
fn serve_alone<
    W: Wait,
    F: Dir,
    R: Arm<Dir = F>,
    D: Disk<Arm = R>,
    A: Annals,
    B: Names,
    K: Sink,
    G: Gate,
>(
    rt: &W,
    alloc: Global,
    store: CoreStore<F>,
    disk: D,
    annals: A,
    policy: Policy,
    blanks: Blanks,
    arm: &mut R,
    sink: &mut K,
    gate: &mut G,
    script: &[u8],
) -> Served<D, A>
    // The names are of these blanks.
    requires word { blanks.word ≡ name B.table (length B.before) }
    requires ledgers { AreLedgersOf B.ledgers blanks }
    requires parts { 0 < B.ledgers.parts }

    // The root is as it was opened; what is known of it holds so far as the premises do.
    requires root { IsToBeShared F.files B.given B.before B.opening (opened_of store policy
        (storage_of D.Disk A.Annals (disk, annals))
        (D.started disk)) }
    requires tells { B.given is_told → R.tells arm.old ≡ true }

    ensures left { let output : Output = record {
      before = K.written sink.old;
      after = K.written sink.new;
    } in
        LeavesShared F.files B.given B.before B.opening B.ledgers.parts result.end script.now
        (storage_of D.Disk A.Annals (disk, annals))
        (storage_of D.Disk A.Annals (result.disk, result.annals)) (D.started result.disk)
        (R.failed arm.old) (R.failed arm.new) output }
    ensures sink_later { K.failed sink.old ≤ K.failed sink.new }
    ensures write_fault { result.end ≡ Ending.WriteFault
        → Rose (K.failed sink.old) (K.failed sink.new) }
{
    let mut seats = match Vec::with_capacity(alloc, 1) {
        Ok(seats) => seats,
        Err(_) => {
            let end = Ending::NoMemory;
            return Served { end, disk, annals };
        }
    };
    let (shared, mut seat, mut share) = Shared::<F, R, D, A, B>::new(
        store, disk, annals, policy, blanks,
    );
    let end = serve_session(
        rt, alloc, &shared, &mut seat, &mut share, arm, sink, gate, script,
    );
    seats.push_reserved(seat);
    let (disk, annals) = shared.finish(seats, share);
    Served { end, disk, annals }
}

/// Serves a script over a root that was opened, as its one session. Memory of its own is taken before anything else.
pub fn serve_root<W: Wait, F: Dir, R: Arm<Dir = F>, D: Disk<Arm = R>, A: Annals, K: Sink, G: Gate>(
    rt: &W,
    alloc: Global,
    store: CoreStore<F>,
    disk: D,
    annals: A,
    policy: Policy,
    arm: &mut R,
    sink: &mut K,
    gate: &mut G,
    script: &[u8],
) -> Served<D, A>
    requires ready { IsReady (D.failed disk) (D.told disk) store }
    requires idle { HasNoMark store }

    // What is answered and written, and what a crash leaves.
    ensures run { let output : Output = record {
      before = K.written sink.old;
      after = K.written sink.new;
    } in
        let stretch : Bool → Stretch = λ full. record {
          opened = store.opened;
          root = D.told disk;
          now = storage_of D.Disk A.Annals (result.disk, result.annals);
          arm = R.failed arm.new;
          full = full;
        } in
        (kept : Told) → A.told annals ≡ Some kept → R.tells arm.old ≡ true
        → CoreStands F.files (history kept) store → RootStands (D.told disk) (history kept)
        → (full : Bool) × IsFullOnlyBy (D.told result.disk) full
        × ServedBy result.end kept script.now (stretch full) output }
    ensures undamaged { R.tells arm.old ≡ true → HasSoundParts F.files store
        → MetNoDamage (Ok result.end) }
    ensures through_crashes { (kept : Told) (start : ℕ) → A.told annals ≡ Some kept
        → R.tells arm.old ≡ true → CoreStands F.files (history kept) store
        → RootStands (D.told disk) (history kept)
        → KeepsThroughCrashes F.files store (storage_of D.Disk A.Annals (disk, annals)) kept start
        → LeavesForCrashes (statements_of script.now) store.opened
        (storage_of D.Disk A.Annals (result.disk, result.annals)) kept start }

    // What stays, and what the counts of faults are.
    ensures started { D.started result.disk ≡ D.started disk }
    ensures disk_later { D.failed disk ≤ D.failed result.disk }
    ensures arm_later { R.failed arm.old ≤ R.failed arm.new }
    ensures sink_later { K.failed sink.old ≤ K.failed sink.new }
    ensures write_fault { result.end ≡ Ending.WriteFault
        → Rose (K.failed sink.old) (K.failed sink.new) }
{
    let blanks = match Blanks::new(alloc, store.length, PARTS) {
        Ok(blanks) => blanks,
        Err(_) => {
            let end = Ending::NoMemory;
            return Served { end, disk, annals };
        }
    };
    serve_alone::<W, F, R, D, A, Brand, K, G>(
        rt, alloc, store, disk, annals, policy, blanks, arm, sink, gate, script,
    )
}
