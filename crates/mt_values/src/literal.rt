// The values that literals are in columns.
ghost use Rattle.std.specs.Prelude.{◌≡◌, ◌+◌, ◌-◌, ◌*◌, ◌<◌, ◌≤◌, ◌^◌, ◌≤ℤ◌, ◌<ℤ◌, neg_ℤ, pos, IfOk, IfSome};
ghost use Rattle.mt_values.specs.declared.expr.LiteralText.TheVariants as literal;
ghost use Rattle.mt_values.specs.Literals.{integer_below, literal_value, natural_below, number_value, signed};
ghost use Rattle.mt_values.specs.Rows.{minus, number_of};

use crate::{Bytes, ColType, LiteralText, Value};
use mt_base::{NoMemory, Twin};
use std::alloc::Global;

/// The value that a literal is in a column of a type; none where it does not belong to the column: a number that is out of the
/// type's range, a number for a column of texts, or a text for one of numbers. Digits may be of any length.
///
/// `NoMemory` where an allocation failed.
pub fn literal_value(
    alloc: Global,
    col_type: ColType,
    text: &LiteralText,
) -> Result<Option<Value>, NoMemory>
    ensures { IfOk result (λ v. v ≡ literal_value col_type text.now) }
{
    match text {
        LiteralText::Text(bytes) => text_value(alloc, col_type, bytes),
        LiteralText::Number { negative, digits } => Ok(number_value(
            col_type,
            *negative,
            digits.as_slice(),
        )),
    }
}

// A text, where the column is of texts.
fn text_value(alloc: Global, col_type: ColType, bytes: &Bytes) -> Result<Option<Value>, NoMemory>
    ensures { IfOk result (λ v. v ≡ literal_value col_type (literal.Text bytes.now)) }
{
    if col_type != ColType::Text {
        return Ok(None);
    }
    Ok(Some(Value::Text(bytes.twin(alloc)?)))
}

// The value that a sign and digits are in a column of a type, where it is in the type's range.
#[tactic(auto, using(crate::proofs::DigitNumbers::no_value))]
fn number_value(col_type: ColType, negative: bool, digits: &[u8]) -> Option<Value>
    ensures { result ≡ number_value col_type (signed negative (number_of digits.now)) }
{
    let number = word_of(digits)?;
    Some(match col_type {
        ColType::UInt8 => Value::UInt8(natural_up_to(u64::from(u8::MAX), negative, number)? as u8),
        ColType::UInt16 => Value::UInt16(
            natural_up_to(u64::from(u16::MAX), negative, number)? as u16,
        ),
        ColType::UInt32 => Value::UInt32(
            natural_up_to(u64::from(u32::MAX), negative, number)? as u32,
        ),
        ColType::UInt64 => Value::UInt64(natural_up_to(u64::MAX, negative, number)?),
        ColType::Int8 => Value::Int8(integer_below(1 << 7, negative, number)? as i8),
        ColType::Int16 => Value::Int16(integer_below(1 << 15, negative, number)? as i16),
        ColType::Int32 => Value::Int32(integer_below(1 << 31, negative, number)? as i32),
        ColType::Int64 => Value::Int64(integer_below(1 << 63, negative, number)?),
        ColType::Text => return None,
    })
}

// The number that decimal digits say, where 64 bits hold it.
#[tactic(auto, using(crate::proofs::DigitNumbers::digit_by_digit))]
fn word_of(digits: &[u8]) -> Option<u64>
    ensures { result ≡ natural_below (2 ^ 64) (pos (number_of digits.now)) }
{
    let mut number: u64 = 0;
    for digit in digits {
        let Some(longer) = with_digit(number, *digit) else {
            return None;
        };
        number = longer;
    }
    Some(number)
}

// The number with one more digit, where 64 bits hold it.
fn with_digit(number: u64, digit: u8) -> Option<u64>
    ensures { result ≡ natural_below (2 ^ 64) (pos (number * 10 + (digit - 48))) }
{
    number
        .checked_mul(10)?
        .checked_add(u64::from(digit.saturating_sub(b'0')))
}

// The number with its sign, where it is none below 0 and no greater than this.
fn natural_up_to(most: u64, negative: bool, number: u64) -> Option<u64>
    ensures value { result ≡ natural_below (most + 1) (signed negative number) }
    ensures within { IfSome result (λ n. n ≤ most) }
{
    if negative && number != 0 || number > most {
        return None;
    }
    Some(number)
}

// The number with its sign, where it is from the negative of an end up to the number below that end.
fn integer_below(end: u64, negative: bool, number: u64) -> Option<i64>
    requires some { 0 < end }
    requires fits { end ≤ 2 ^ 63 }
    ensures value { result ≡ integer_below end (signed negative number) }
    ensures within { IfSome result (λ z. (neg_ℤ (pos end) ≤ℤ z) × (z <ℤ pos end)) }
{
    if negative {
        if number > end {
            return None;
        }
        return Some(minus(number));
    }
    if number >= end {
        return None;
    }
    Some(number as i64)
}

// The number with a minus before it.
fn minus(number: u64) -> i64
    requires { number ≤ 2 ^ 63 }
    ensures { result ≡ minus number }
{
    if number == 0 {
        return 0;
    }
    -1 - (number - 1) as i64
}
