// Running an OPTIMIZE of a session: parts are taken up as a work in one turn, merged outside of any, and what they became is put in their
// place in another. It adds nothing to the history.
ghost use Rattle.std.specs.Prelude.{◌<◌, ◌⊎◌, ◌≡◌, All, IfOk, IfSome, List, Ok, false, is_some, true, ℕ};
ghost use Rattle.mt_base.specs.declared.partition.Partition.{Partition};
ghost use Rattle.mt_values.specs.declared.statement.Statement.TheVariants as statement;
ghost use Rattle.merge_workers.specs.shared_store.history_seat.Turns.{IsSession, Looked};
ghost use Rattle.merge_workers.specs.shared_store.Stood.{is_told};
ghost use Rattle.merge_workers.specs.shared_store.mutation_queue.Scopes.{InScope};
ghost use Rattle.merge_workers.specs.shared_store.Works.{HasPair};
ghost use Rattle.merge_workers.specs.shared_store.part_set.Parts.{IsInBlockOrder};
ghost use Rattle.session.specs.Answers.{AccountsAt, AnswersAt, FoundNoPair, IsFinalAt, IsNamed, IsOf, IsThat, IsThere, KnowsOwn, ListsAsAsked, MergesAsAsked, MergesAt, ShowsAt, StaysSession, StaysStopped, TellsOfBusy, TellsOfHanded, TriesAt, WasMerged, WereIn, having};
ghost use Rattle.session.specs.Lapses.{Never};
ghost use Rattle.session.specs.Merges.{ArePartitionsOf};

use crate::merging::merge_work;
use merge_workers::shared_store::history_seat::Seat;
use merge_workers::shared_store::merge_select::Scope;
use merge_workers::shared_store::part_name::parse_partition;
use merge_workers::shared_store::part_reader::Part;
use merge_workers::shared_store::part_set::Kept;
use merge_workers::shared_store::{Names, Share, Shared, TakeFault};
use mt_base::{NoMemory, Partition};
use mt_outside::{Arm, Dir, Disk};
use mt_values::{Annals, Name, OptimizeText};
use replies::{Reply, busy_line, merge_replies, no_table_line};
use std::alloc::Global;
use std::sync::Wait;

/// The partitions of parts in block order, each once, ascending.
///
/// `NoMemory` where an allocation failed.
fn partitions_of<F: Dir>(alloc: Global, parts: &[Kept<Part<F>>]) -> Result<Vec<Partition>, NoMemory>
    requires { IsInBlockOrder parts.now }
    ensures { IfOk result (λ found. ArePartitionsOf parts.now found.items) }
{
    let mut found = Vec::new(alloc);
    let mut last = None;
    for kept in parts {
        let partition = kept.name.partition;
        if last == Some(partition) {
            continue;
        }
        found.push(partition)?;
        last = Some(partition);
    }
    Ok(found)
}

/// The partitions of a table's parts, ascending, as they are in a snapshot that is given back at once; none where there is no such
/// table.
///
/// `NoMemory` where an allocation failed.
fn listed_partitions<W: Wait, F: Dir, R: Arm<Dir = F>, D: Disk<Arm = R>, A: Annals, B: Names>(
    rt: &W,
    alloc: Global,
    shared: &Shared<F, R, D, A, B>,
    seat: &mut Seat<B>,
    table: &Name,
) -> Result<Option<Vec<Partition>>, NoMemory>
    requires { IsSession seat.old }
    ensures looked { Looked seat.old seat.new.list seat.new }
    ensures there { IfOk result (λ found. IsThere B.given B.before B.opening.tables seat.new.list
        table.now (is_some found)) }
    ensures are { IfOk result (λ found. IfSome found
        (λ ps. WereIn F.files B.given B.before B.opening table.now ps.items)) }
{
    let Some(snap) = shared.snapshot(rt, alloc, seat, table)? else {
        return Ok(None);
    };
    let found = partitions_of(alloc, snap.parts.as_slice());
    shared.give_back(rt, snap);
    Ok(Some(found?))
}

/// The partitions of the parts of an OPTIMIZE's table, ascending, where it asks for each of them with FINAL; else an empty list, for
/// which no part is copied. None where there is no such table.
///
/// `NoMemory` where an allocation failed.
fn partitions_there<W: Wait, F: Dir, R: Arm<Dir = F>, D: Disk<Arm = R>, A: Annals, B: Names>(
    rt: &W,
    alloc: Global,
    shared: &Shared<F, R, D, A, B>,
    seat: &mut Seat<B>,
    text: &OptimizeText,
) -> Result<Option<Vec<Partition>>, NoMemory>
    requires { IsSession seat.old }
    ensures looked { Looked seat.old seat.new.list seat.new }
    ensures there { IfOk result (λ found. IsThere B.given B.before B.opening.tables seat.new.list
        text.now.table (is_some found)) }
    ensures listed { IfOk result (λ found. IfSome found
        (λ ps. ListsAsAsked F.files B.given B.before B.opening text.now ps.items)) }
{
    if text.whole && text.partition.is_none() {
        return listed_partitions(rt, alloc, shared, seat, &text.table);
    }
    let found = shared.schema(rt, alloc, seat, &text.table)?;
    let Some(_) = found else {
        return Ok(None);
    };
    Ok(Some(Vec::new(alloc)))
}

/// Merges the pair of parts in a scope of a table that the policy takes, where there is one. The reply where the merge is refused.
///
/// `NoMemory` where an allocation failed.
fn merge_pair<W: Wait, F: Dir, R: Arm<Dir = F>, D: Disk<Arm = R>, A: Annals, B: Names>(
    rt: &W,
    alloc: Global,
    shared: &Shared<F, R, D, A, B>,
    share: &mut Share<B>,
    arm: &mut R,
    table: &Name,
    scope: Scope<'_>,
) -> Result<Option<Reply>, NoMemory>
    requires parts { 0 < share.old.parts }
    requires tells { B.given is_told → R.tells arm.old ≡ true }
    requires scope { (t : List ℕ) (p : Partition) → InScope scope t p → t ≡ table.now }
    ensures merges { MergesAt B.given B.opening B.ledgers.parts share.old share.new
        (R.failed arm.old) (R.failed arm.new) false
        (TellsOfHanded F.files B.given B.before B.opening B.ledgers.parts (InScope scope.entry))
        Never
        (WasMerged F.files B.given B.before B.opening B.ledgers.parts (InScope scope.entry)
        (HasPair B.opening.policy scope.entry)
        ⊎ FoundNoPair F.files B.given B.before B.opening B.ledgers.parts (InScope scope.entry))
        result }
    ensures out { share.new.out ≡ share.old.out }
    ensures tells { R.tells arm.new ≡ R.tells arm.old }
{
    let Ok(replies) = merge_replies(alloc) else {
        return Err(NoMemory);
    };
    match shared.take_merge(rt, alloc, share, scope) {
        Ok(Some(work)) => {
            // Reading what was taken up shows what is known of it.
            prove!(!work.taken().sources.is_empty());
            merge_work(rt, alloc, shared, share, arm, table, work, replies)
        }
        Ok(None) => Ok(None),
        Err(NoMemory) => Err(NoMemory),
    }
}

/// Merges all parts of a partition of a table into one, where they may be merged. The reply where the merge is refused.
///
/// `NoMemory` where an allocation failed.
fn merge_partition<W: Wait, F: Dir, R: Arm<Dir = F>, D: Disk<Arm = R>, A: Annals, B: Names>(
    rt: &W,
    alloc: Global,
    shared: &Shared<F, R, D, A, B>,
    share: &mut Share<B>,
    arm: &mut R,
    table: &Name,
    partition: Partition,
) -> Result<Option<Reply>, NoMemory>
    requires parts { 0 < share.old.parts }
    requires out { share.old.out ≡ 0 }
    requires tells { B.given is_told → R.tells arm.old ≡ true }
    ensures merges { MergesAt B.given B.opening B.ledgers.parts share.old share.new
        (R.failed arm.old) (R.failed arm.new) true
        (TellsOfHanded F.files B.given B.before B.opening B.ledgers.parts
        (IsThat table.now partition))
        (TellsOfBusy F.files B.given B.before B.opening B.ledgers.parts
        (IsThat table.now partition))
        (IsFinalAt F.files B.given B.before B.opening B.ledgers.parts table.now partition)
        result }
    ensures out { share.new.out ≡ share.old.out }
    ensures tells { R.tells arm.new ≡ R.tells arm.old }
{
    let Ok(replies) = merge_replies(alloc) else {
        return Err(NoMemory);
    };
    match shared.take_all(rt, alloc, share, table, partition) {
        Ok(Some(work)) => {
            // Reading what was taken up shows what is known of it.
            prove!(!work.taken().sources.is_empty());
            merge_work(rt, alloc, shared, share, arm, table, work, replies)
        }
        Ok(None) => Ok(None),
        Err(TakeFault::NoMemory) => Err(NoMemory),
        Err(TakeFault::Busy(part)) => {
            let reply = busy_line(alloc, &part)?;
            Ok(Some(reply))
        }
    }
}

/// Merges all parts of each of these partitions of a table into one, one partition after another, until one is refused: the reply
/// then. What was put before stands.
///
/// `NoMemory` where an allocation failed; what was put before stands.
fn merge_partitions<W: Wait, F: Dir, R: Arm<Dir = F>, D: Disk<Arm = R>, A: Annals, B: Names>(
    rt: &W,
    alloc: Global,
    shared: &Shared<F, R, D, A, B>,
    share: &mut Share<B>,
    arm: &mut R,
    table: &Name,
    partitions: &[Partition],
) -> Result<Option<Reply>, NoMemory>
    requires parts { 0 < share.old.parts }
    requires out { share.old.out ≡ 0 }
    requires tells { B.given is_told → R.tells arm.old ≡ true }
    ensures merges { MergesAt B.given B.opening B.ledgers.parts share.old share.new
        (R.failed arm.old) (R.failed arm.new) true
        (TellsOfHanded F.files B.given B.before B.opening B.ledgers.parts (IsOf table.now))
        (TellsOfBusy F.files B.given B.before B.opening B.ledgers.parts (IsOf table.now))
        (All (IsFinalAt F.files B.given B.before B.opening B.ledgers.parts table.now)
        partitions.now) result }
    ensures out { share.new.out ≡ share.old.out }
    ensures tells { R.tells arm.new ≡ R.tells arm.old }
{
    for partition in partitions {
        match merge_partition(rt, alloc, shared, share, arm, table, *partition) {
            Ok(None) => {}
            Ok(Some(refused)) => return Ok(Some(refused)),
            Err(NoMemory) => return Err(NoMemory),
        }
    }
    Ok(None)
}

/// Does the merges of an OPTIMIZE on a table: of the partition that its text names, else of the whole table, whose parts are of these
/// partitions where the text asks for FINAL. The reply where one is refused.
///
/// `NoMemory` where an allocation failed; what was put before stands.
fn merge_as_asked<W: Wait, F: Dir, R: Arm<Dir = F>, D: Disk<Arm = R>, A: Annals, B: Names>(
    rt: &W,
    alloc: Global,
    shared: &Shared<F, R, D, A, B>,
    share: &mut Share<B>,
    arm: &mut R,
    text: &OptimizeText,
    partitions: &[Partition],
) -> Result<Option<Reply>, NoMemory>
    requires parts { 0 < share.old.parts }
    requires out { share.old.out ≡ 0 }
    requires tells { B.given is_told → R.tells arm.old ≡ true }
    requires listed { ListsAsAsked F.files B.given B.before B.opening text.now partitions.now }
    ensures merges { MergesAt B.given B.opening B.ledgers.parts share.old share.new
        (R.failed arm.old) (R.failed arm.new) text.now.whole
        (TellsOfHanded F.files B.given B.before B.opening B.ledgers.parts (IsNamed text.now))
        (TellsOfBusy F.files B.given B.before B.opening B.ledgers.parts (IsNamed text.now))
        (MergesAsAsked F.files B.given B.before B.opening B.ledgers.parts text.now) result }
    ensures out { share.new.out ≡ share.old.out }
    ensures tells { R.tells arm.new ≡ R.tells arm.old }
{
    let table = &text.table;
    let id = match &text.partition {
        None if text.whole => {
            return merge_partitions(rt, alloc, shared, share, arm, table, partitions);
        }
        None => return merge_pair(rt, alloc, shared, share, arm, table, Scope::Table(table)),
        Some(id) => id.as_slice(),
    };
    match parse_partition(id) {
        // No part is of a partition that is spelled so.
        None => Ok(None),
        Some(partition) if text.whole => {
            merge_partition(rt, alloc, shared, share, arm, table, partition)
        }
        Some(partition) => {
            let scope = Scope::Partition(table, partition);
            merge_pair(rt, alloc, shared, share, arm, table, scope)
        }
    }
}

/// Merges parts of a table, unless the OPTIMIZE is refused: two neighbours that the policy takes, or with FINAL all parts of each
/// partition into one. What was put before a merge that is refused stands.
///
/// `NoMemory` where an allocation failed; what was put before stands, and the arm's count of faults is as it was.
pub fn optimize<W: Wait, F: Dir, R: Arm<Dir = F>, D: Disk<Arm = R>, A: Annals, B: Names>(
    rt: &W,
    alloc: Global,
    shared: &Shared<F, R, D, A, B>,
    seat: &mut Seat<B>,
    share: &mut Share<B>,
    arm: &mut R,
    text: &OptimizeText,
) -> Result<Reply, NoMemory>
    requires session { IsSession seat.old }
    requires own { KnowsOwn seat.old }
    requires parts { 0 < share.old.parts }
    requires out { share.old.out ≡ 0 }
    requires tells { B.given is_told → R.tells arm.old ≡ true }

    // What is answered, and why.
    ensures answers { AnswersAt B.given B.before B.opening B.ledgers.parts
        (Ok (statement.Optimize text.now)) (having seat.old share.old (R.failed arm.old))
        (having seat.new share.new (R.failed arm.new)) result }
    ensures shows { IfOk result (ShowsAt F.files B.given B.before B.opening B.ledgers.parts
        seat.new.list (Ok (statement.Optimize text.now))) }
    ensures accounts { AccountsAt B.opening B.ledgers.parts
        (having seat.old share.old (R.failed arm.old))
        (having seat.new share.new (R.failed arm.new))
        (TellsOfHanded F.files B.given B.before B.opening B.ledgers.parts (IsNamed text.now))
        result }

    // What the session has then.
    ensures stays { StaysSession B.opening B.ledgers.parts
        (having seat.old share.old (R.failed arm.old))
        (having seat.new share.new (R.failed arm.new)) }
    ensures stopped { StaysStopped (having seat.old share.old (R.failed arm.old))
        (having seat.new share.new (R.failed arm.new)) result }
    ensures tries { TriesAt B.given B.before (Ok (statement.Optimize text.now))
        (having seat.old share.old (R.failed arm.old))
        (having seat.new share.new (R.failed arm.new)) result }
    ensures tells { R.tells arm.new ≡ R.tells arm.old }
{
    let Some(partitions) = partitions_there(rt, alloc, shared, seat, text)? else {
        return no_table_line(alloc, &text.table);
    };
    match merge_as_asked(rt, alloc, shared, share, arm, text, partitions.as_slice()) {
        Ok(None) => Reply::accepted(alloc, shared.look(rt, seat)),
        Ok(Some(reply)) => Ok(reply),
        Err(NoMemory) => Err(NoMemory),
    }
}
