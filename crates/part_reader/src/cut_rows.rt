// Rows that are made of columns.
ghost use Rattle.std.specs.Prelude.{◌≡◌, ◌++◌, ◌<◌, [], All, IfOk, OnOk, length, map, slice_get};
ghost use Rattle.std.specs.List.{filter_map};
ghost use Rattle.mt_values.specs.Grid.{Cells};
ghost use Rattle.mt_values.specs.Schemas.{column_types};

use mt_base::NoMemory;
use mt_values::{Block, ColumnData, Row, Schema};
use std::alloc::Global;

/// Columns of the types that a table has at these places, without values.
pub fn empty_columns(
    alloc: Global,
    schema: &Schema,
    places: &[u32],
) -> Result<Vec<ColumnData>, NoMemory>
    requires { All (λ place. place < length schema.now.columns) places.now }
    ensures types { IfOk result (λ columns. map (λ (c : Cells). c.col_type) columns.items
        ≡ filter_map (slice_get (column_types schema.now)) places.now) }
    ensures empty { IfOk result (λ columns. map (λ (c : Cells). c.values) columns.items
        ≡ map (λ place. []) places.now) }
{
    let mut columns = Vec::with_capacity(alloc, places.len())?;
    for place in places {
        let column = schema.columns.at(*place as usize);
        columns.push(ColumnData::new(alloc, column.col_type))?;
    }
    Ok(columns)
}

/// Adds the rows of a block to others, each by itself.
///
/// `NoMemory` where an allocation failed; some of the first rows may have been added then.
pub fn add_rows(alloc: Global, block: &Block, rows: &mut Vec<Row>) -> Result<(), NoMemory>
    ensures { OnOk result (rows.new.items ≡ rows.old.items ++ block.now.rows) }
{
    for place in 0..block.len() {
        rows.push(block.row(alloc, place)?)?;
    }
    Ok(())
}

/// The rows of a block, each by itself.
///
/// `NoMemory` where an allocation failed.
pub fn rows_of_block(alloc: Global, block: &Block) -> Result<Vec<Row>, NoMemory>
    ensures { IfOk result (λ v. v.items ≡ block.now.rows) }
{
    let count = block.len();
    let mut rows = Vec::with_capacity(alloc, count)?;
    for place in 0..count {
        rows.push_reserved(block.row(alloc, place)?);
    }
    Ok(rows)
}
