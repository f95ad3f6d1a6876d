// The numbers that rules read in rows.
ghost use Rattle.std.specs.Prelude.{◌≡◌, ◌<◌, [], length};
ghost use Rattle.std.specs.List.{slice_index_or};
ghost use Rattle.mt_model.specs.Rules.{version_at};

use mt_values::{Block, Row, Value};

/// The number in a column of unsigned numbers, at a place from 0; 0 where there is none.
pub fn version_of(row: &Row, place: u32) -> u64
    ensures { result ≡ version_at place row.now }
{
    match row.as_slice().get(place as usize) {
        Some(Value::UInt8(n)) => u64::from(*n),
        Some(Value::UInt16(n)) => u64::from(*n),
        Some(Value::UInt32(n)) => u64::from(*n),
        Some(Value::UInt64(n)) => *n,
        _ => 0,
    }
}

/// The same of a row of a block, at a place from 0, which is not made a row of its own.
pub fn version_in(block: &Block, at: usize, place: u32) -> u64
    requires { at < length block.now.rows }
    ensures { result ≡ version_at place (slice_index_or block.now.rows at []) }
{
    let rows = block.len();
    if place as usize >= block.width() {
        return 0;
    }
    let column = block.column(place as usize);
    prove_eq!(column.len(), rows);
    column.at(at).number()
}
