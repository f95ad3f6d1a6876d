// The sign of a row.
ghost use Rattle.std.specs.Prelude.{◌≡◌};
ghost use Rattle.rule_law.specs.mt_model.Rules.{is_state};

use mt_values::{Row, Value};

/// Whether the sign of the row, at a place from 0, is 1.
pub(crate) fn is_state(row: &Row, sign: u32) -> bool
    ensures { result ≡ is_state sign row.now }
{
    match row.as_slice().get(sign as usize) {
        Some(Value::Int8(number)) => *number == 1,
        _ => false,
    }
}
