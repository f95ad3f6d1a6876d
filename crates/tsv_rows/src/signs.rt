// The signs of rows that stand in columns (docs/engines.md, "CollapsingMergeTree").
ghost use Rattle.std.specs.Prelude.{◌≡◌, ◌<◌, ◌||◌, All, Some, length, negsuc, pos};
ghost use Rattle.mt_values.specs.Cells.{value_of};
ghost use Rattle.mt_values.specs.Engines as rules;
ghost use Rattle.mt_values.specs.Grid.{row_at};

use mt_values::{Cell, ColumnData};

/// Whether the sign of the columns' row at a place, from 0, is 1 or -1, where there is a sign. Takes no memory.
pub(crate) fn keeps_sign(columns: &[ColumnData], sign: Option<u32>, place: usize) -> bool
    requires { All (λ c. place < length c.values) columns.now }
    ensures { result ≡ rules.keeps_sign sign (row_at columns.now place) }
{
    match sign {
        Some(sign) => is_signed(columns, sign as usize, place),
        None => true,
    }
}

// Whether the columns' row at a place, from 0, has the sign 1 or -1 in this column.
fn is_signed(columns: &[ColumnData], sign: usize, place: usize) -> bool
    requires { All (λ c. place < length c.values) columns.now }
    ensures { result ≡ rules.is_signed sign (row_at columns.now place) }
{
    if sign >= columns.len() {
        return false;
    }
    is_sign(columns[sign].at(place))
}

// Whether a value is the sign 1 or -1.
fn is_sign(cell: Cell) -> bool
    ensures { result ≡ (rules.is_sign (pos 1) (Some (value_of cell.entry))
        || rules.is_sign (negsuc 0) (Some (value_of cell.entry))) }
{
    match cell {
        Cell::Int8(number) => number == 1 || number == -1,
        _ => false,
    }
}
