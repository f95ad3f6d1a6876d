// Numbers from decimal digits of any length.
ghost use Rattle.std.specs.Prelude.{◌≡◌, ◌+◌, ◌-◌, ◌*◌, min};
ghost use Rattle.mt_values.specs.Rows.{number_within};

/// The number that decimal digits say, or `limit` where it is greater. Takes no memory.
#[tactic(auto, using(crate::proofs::Limited::limited_more))]
pub fn number_within(limit: u64, digits: &[u8]) -> u64
    ensures { result ≡ number_within limit digits.now }
{
    let mut number = 0;
    for digit in digits {
        number = with_digit(limit, number, *digit);
    }
    number
}

// The number with one more digit, or the limit where that is greater.
fn with_digit(limit: u64, number: u64, digit: u8) -> u64
    ensures { result ≡ min limit (number * 10 + (digit - 48)) }
{
    let value = u64::from(digit.saturating_sub(b'0'));
    number.saturating_mul(10).saturating_add(value).min(limit)
}
