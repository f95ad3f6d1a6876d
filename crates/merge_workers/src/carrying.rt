// A work merged and put in its place, or let go.
ghost use Rattle.std.specs.Prelude.{◌≡◌, ◌<◌, true};
ghost use Rattle.mt_outside.specs.Leaves.{LeavesArm};
ghost use Rattle.shared_store.specs.Handed.{MayPut};
ghost use Rattle.shared_store.specs.Stood.{is_held, is_told};
ghost use Rattle.merge_workers.specs.Carried.{CarriedAt, IsExplained, IsFault, NeverDamaged};

use crate::give_back_part;
use mt_outside::{Arm, Dir, Disk};
use mt_values::Annals;
use row_merge::merge_parts;
use shared_store::durable_commit::Refused;
use shared_store::handed::Work;
use shared_store::part_name::PartName;
use shared_store::part_reader::PartFault;
use shared_store::part_writer::SealedPart;
use shared_store::root_commits::Returned;
use shared_store::{Names, Put, Share, Shared};
use std::alloc::Global;
use std::sync::Wait;

/// What became of a work.
#[derive(Drop)]
pub enum Carried {
    /// What its parts became stands in their place.
    Done,
    /// This part of it was gone by then: the first that did not follow there with its mark.
    Gone(PartName),
    /// Its commit was refused.
    Refused(Refused),
    /// This part of it was not read, or nothing was sealed.
    Unread(PartName, PartFault),
}

// Puts the part that a work's parts became in their place, or gives it back to the arm: also where a part is gone.
fn put_part<W: Wait, F: Dir, R: Arm<Dir = F>, D: Disk<Arm = R>, A: Annals, B: Names>(
    rt: &W,
    alloc: Global,
    shared: &Shared<F, R, D, A, B>,
    share: &mut Share<B>,
    arm: &mut R,
    work: Work<F, B>,
    part: SealedPart<R::Stage>,
) -> Carried
    requires out { 0 < share.old.out }
    requires may { MayPut B.given B.before work.note.list work.taken part.sealed part.loaded }
    requires none_failed { part.sealed.failed ≡ 0 }
    ensures turn { CarriedAt F.files B.given B.before B.opening B.ledgers.parts work.taken share.old
        share.new result }
    ensures arm { LeavesArm R.Arm arm.old arm.new ⊥ }
    ensures read { (name : PartName) (fault : PartFault)
        → result ≡ Carried.Unread name fault → ⊥ }
{
    match shared.put_work(rt, alloc, share, work, part) {
        Ok(Put::Done) => Carried::Done,
        Ok(Put::Gone { part: name, back }) => {
            give_back_part(arm, Some(back));
            Carried::Gone(name)
        }
        Err(Returned { cause, back }) => {
            give_back_part(arm, back);
            Carried::Refused(cause)
        }
    }
}

/// Merges the parts of a work and puts what they became in their place, or lets the work go. What was sealed and not given to the disk
/// goes back to the arm.
///
/// After each of its answers the work is no more: the share has one work less out. `Gone` tells the first source that did not follow in
/// its partition with its mark.
pub fn carry_out<W: Wait, F: Dir, R: Arm<Dir = F>, D: Disk<Arm = R>, A: Annals, B: Names>(
    rt: &W,
    alloc: Global,
    shared: &Shared<F, R, D, A, B>,
    share: &mut Share<B>,
    arm: &mut R,
    work: Work<F, B>,
) -> Carried
    requires out { 0 < share.old.out }
    requires tells { B.given is_told → R.tells arm.old ≡ true }

    // What became of it and why, and what the share has counted.
    ensures turn { CarriedAt F.files B.given B.before B.opening B.ledgers.parts work.taken share.old
        share.new result }
    ensures explained { IsExplained F.files work.taken result }
    ensures sound { B.given is_told → B.given is_held → NeverDamaged result }

    // What the arm has counted.
    ensures arm { LeavesArm R.Arm arm.old arm.new (IsFault result) }
{
    let taken = work.taken();
    match merge_parts(alloc, arm, &taken.schema, taken.sources.as_slice()) {
        Ok(part) => put_part(rt, alloc, shared, share, arm, work, part),
        Err((part, fault)) => {
            shared.drop_work(rt, share, work);
            Carried::Unread(part, fault)
        }
    }
}
