// Why a call that reads what it was given has no result.
use crate::NoMemory;

/// Why there is no result: what was given is refused, or an allocation failed.
#[derive(Drop)]
pub enum Stop<E> {
    /// What was given is refused, and this is why.
    Refused(E),
    /// An allocation failed.
    NoMemory,
}

impl<E> From<NoMemory> for Stop<E> {
    ghost use Rattle.std.specs.Prelude.{◌≡◌};
    ghost use Rattle.mt_base.specs.declared.stop.Stop.TheVariants as stop;

    ghost from_gives = { λ _ why. why ≡ stop.NoMemory };

    fn from(_: NoMemory) -> Self {
        Stop::NoMemory
    }
}
