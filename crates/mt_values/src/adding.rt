// Numbers of values, added and taken away (docs/engines.md, "Sums").
ghost use Rattle.std.specs.Prelude.{◌≡◌};
ghost use Rattle.mt_values.specs.Sums.{less, plus};

use crate::Value;

/// Adds the number of a value of the same type, which wraps at its width; a text stays as it is.
#[tactic(auto, using(std::proofs::lemmas::Int::wraps))]
pub fn add_number(sum: &mut Value, value: &Value)
    ensures { sum.new ≡ plus sum.old value.now }
{
    match (sum, value) {
        (Value::UInt8(m), Value::UInt8(n)) => *m = m.wrapping_add(*n),
        (Value::UInt16(m), Value::UInt16(n)) => *m = m.wrapping_add(*n),
        (Value::UInt32(m), Value::UInt32(n)) => *m = m.wrapping_add(*n),
        (Value::UInt64(m), Value::UInt64(n)) => *m = m.wrapping_add(*n),
        (Value::Int8(m), Value::Int8(n)) => *m = m.wrapping_add(*n),
        (Value::Int16(m), Value::Int16(n)) => *m = m.wrapping_add(*n),
        (Value::Int32(m), Value::Int32(n)) => *m = m.wrapping_add(*n),
        (Value::Int64(m), Value::Int64(n)) => *m = m.wrapping_add(*n),
        _ => {}
    }
}

/// Takes the number of a value of the same type away, which wraps at its width; a text stays as it is.
#[tactic(auto, using(std::proofs::lemmas::Int::wraps))]
pub fn subtract_number(difference: &mut Value, value: &Value)
    ensures { difference.new ≡ less difference.old value.now }
{
    match (difference, value) {
        (Value::UInt8(m), Value::UInt8(n)) => *m = m.wrapping_sub(*n),
        (Value::UInt16(m), Value::UInt16(n)) => *m = m.wrapping_sub(*n),
        (Value::UInt32(m), Value::UInt32(n)) => *m = m.wrapping_sub(*n),
        (Value::UInt64(m), Value::UInt64(n)) => *m = m.wrapping_sub(*n),
        (Value::Int8(m), Value::Int8(n)) => *m = m.wrapping_sub(*n),
        (Value::Int16(m), Value::Int16(n)) => *m = m.wrapping_sub(*n),
        (Value::Int32(m), Value::Int32(n)) => *m = m.wrapping_sub(*n),
        (Value::Int64(m), Value::Int64(n)) => *m = m.wrapping_sub(*n),
        _ => {}
    }
}
