// What was sealed goes back to the arm where it was not given to the disk.
ghost use Rattle.std.specs.Prelude.{◌≡◌, ◌<◌, ◌≤◌, IfSome};
ghost use Rattle.mt_outside.specs.Causes.{Rose};

use mt_outside::Arm;
use shared_store::part_writer::SealedPart;
use shared_store::stage_dir::Sealed;

/// Gives the arm back what it sealed, where that was not given to the disk. Where a call of it had failed, the arm's count rises, and
/// else it stays.
pub fn give_back<R: Arm>(arm: &mut R, back: Option<Sealed<R::Stage>>)
    ensures tells { R.tells arm.new ≡ R.tells arm.old }
    ensures taken { IfSome back (λ s. 0 < s.failed → Rose (R.failed arm.old) (R.failed arm.new)) }
    ensures none_failed { IfSome back (λ s. s.failed ≡ 0) → R.failed arm.new ≡ R.failed arm.old }
    ensures later { R.failed arm.old ≤ R.failed arm.new }
{
    if let Some(sealed) = back {
        arm.abandon(sealed.into_stage());
    }
}

/// Gives the arm back a part that it sealed, where that was not given to the disk.
pub fn give_back_part<R: Arm>(arm: &mut R, back: Option<SealedPart<R::Stage>>)
    ensures tells { R.tells arm.new ≡ R.tells arm.old }
    ensures taken { IfSome back
        (λ p. 0 < p.sealed.failed → Rose (R.failed arm.old) (R.failed arm.new)) }
    ensures none_failed { IfSome back (λ p. p.sealed.failed ≡ 0)
        → R.failed arm.new ≡ R.failed arm.old }
    ensures later { R.failed arm.old ≤ R.failed arm.new }
{
    if let Some(SealedPart { sealed, loaded: _ }) = back {
        give_back(arm, Some(sealed));
    }
}
