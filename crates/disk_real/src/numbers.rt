// Numbers that are drawn.
ghost use Rattle.std.specs.Prelude.{◌≡◌, ◌+◌, IfOk, OnErr};

use mt_outside::DiskError;

/// Draws the next number of a kind. None is left at the last value of 64 bits, which is a fault.
pub(crate) fn draw(next: &mut u64) -> Result<u64, DiskError>
    ensures drawn { IfOk result (λ number. number ≡ next.old) }
    ensures later { IfOk result (λ number. next.new ≡ number + 1) }
    ensures err { OnErr result (next.new ≡ next.old) }
{
    let number = *next;
    match number.checked_add(1) {
        Some(later) => {
            *next = later;
            Ok(number)
        }
        None => Err(DiskError::Fault),
    }
}
