// Numbers from the bytes of a field.
ghost use Rattle.std.specs.Prelude.{◌≡◌, ◌≤◌, ◌<◌, ◌^◌, ◌≤ℤ◌, ◌<ℤ◌, neg_ℤ, pos, IfSome, length};
ghost use Rattle.mt_values.specs.Rows.{digits_up_to, minus, signed_below, unsigned_up_to};
ghost use Rattle.tsv_fields.specs.Numbers.{number_in, with_digit, IsBelow};

/// So many decimal digits say a number below 2^64, whatever they are.
const SHORT: usize = 19;

// The number with one more digit; none where the byte is no digit, or where that passes the greatest number.
fn with_digit(most: u64, number: u64, byte: u8) -> Option<u64>
    ensures { result ≡ with_digit most number byte }
{
    if !byte.is_ascii_digit() {
        return None;
    }
    let tenfold = number.checked_mul(10)?;
    let longer = tenfold.checked_add(u64::from(byte - b'0'))?;
    if longer > most {
        return None;
    }
    Some(longer)
}

// The number that decimal digits say, at most `SHORT` of them; none where a byte is no digit.
// Kept out of its caller, in whose loop it would run slower.
#[inline(never)]
fn short_number(digits: &[u8]) -> Option<u64>
    requires { length digits.now ≤ 19 }
    ensures { result ≡ number_in digits.now }
{
    let mut number: u64 = 0;
    for digit in digits {
        if !digit.is_ascii_digit() {
            return None;
        }
        number = number * 10 + u64::from(*digit - b'0');
    }
    Some(number)
}

// The number that decimal digits say, up to a greatest one; none where a byte is no digit or there is none.
#[tactic(auto, using(crate::proofs::Digits::digits_more, crate::proofs::Digits::digits_none))]
fn digits_up_to(most: u64, digits: &[u8]) -> Option<u64>
    ensures value { result ≡ digits_up_to most digits.now }
    ensures within { IfSome result (λ n. n ≤ most) }
{
    if digits.is_empty() {
        return None;
    }
    let first = digits.len().min(SHORT);
    let Some(mut number) = short_number(&digits[..first]) else {
        return None;
    };
    let rest = &digits[first..];
    for digit in rest {
        let Some(longer) = with_digit(most, number, *digit) else {
            return None;
        };
        number = longer;
    }
    if number > most {
        return None;
    }
    Some(number)
}

/// An unsigned number up to a greatest one: decimal digits, with an optional plus in front.
pub fn unsigned_up_to(most: u64, field: &[u8]) -> Option<u64>
    ensures value { result ≡ unsigned_up_to most field.now }
    ensures within { IfSome result (λ n. n ≤ most) }
{
    match field {
        [b'+', digits @ ..] => digits_up_to(most, digits),
        _ => digits_up_to(most, field),
    }
}

// The number with a minus in front.
fn minus(number: u64) -> i64
    requires { number ≤ 2 ^ 63 }
    ensures { result ≡ minus number }
{
    if number == 0 {
        return 0;
    }
    -1 - (number - 1) as i64
}

/// A signed number from the negative of an end up to the number below that end: decimal digits, with an optional
/// plus or minus in front.
pub fn signed_below(end: u64, field: &[u8]) -> Option<i64>
    requires some { 0 < end }
    requires fits { end ≤ 2 ^ 63 }
    ensures value { result ≡ signed_below end field.now }
    ensures within { IfSome result (IsBelow end) }
{
    match field {
        [b'-', digits @ ..] => Some(minus(digits_up_to(end, digits)?)),
        _ => Some(unsigned_up_to(end - 1, field)? as i64),
    }
}
