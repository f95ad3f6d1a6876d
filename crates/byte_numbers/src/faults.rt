// Why bytes are not read.
use mt_base::NoMemory;
use std::alloc::AllocError;
use thiserror::Error;

/// Why bytes were not read as what they should spell, as the values of a column.
#[derive(Clone, Copy, Debug, Error)]
pub enum FormatFault {
    /// An allocation failed.
    #[error("out of memory")]
    NoMemory,
    /// The bytes spell nothing of the kind, and this is the place of the first fault, counted from 0. In a
    /// column's bytes it is where a value begins that they don't go on with, or where the last value ends and
    /// they go on.
    #[error("malformed at byte {place}")]
    Malformed { place: u64 },
}

impl From<NoMemory> for FormatFault {
    ghost use Rattle.std.specs.Prelude.{◌≡◌};
    ghost use Rattle.byte_numbers.specs.declared.faults.FormatFault.TheVariants.{NoMemory};

    ghost from_gives = { λ _ e. e ≡ NoMemory };

    fn from(_: NoMemory) -> Self {
        FormatFault::NoMemory
    }
}

impl From<AllocError> for FormatFault {
    ghost use Rattle.std.specs.Prelude.{◌≡◌};
    ghost use Rattle.byte_numbers.specs.declared.faults.FormatFault.TheVariants.{NoMemory};

    ghost from_gives = { λ _ e. e ≡ NoMemory };

    fn from(_: AllocError) -> Self {
        FormatFault::NoMemory
    }
}
