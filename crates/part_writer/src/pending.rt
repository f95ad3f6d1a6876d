// Columns that get the values of rows, row after row.
ghost use Rattle.std.specs.Prelude.{◌≡◌, ◌<◌, ◌++◌, ◌∷◌, [], All, IfOk, OnOk, filter_map, length, map, slice_get};
ghost use Rattle.std.specs.List.{range_with_len};
ghost use Rattle.mt_values.specs.Grid.{AreOfType, Cells, picked};
ghost use Rattle.mt_values.specs.Schemas.{column_types};
ghost use Rattle.mt_values.specs.Values.{types_of};
ghost use Rattle.part_writer.specs.Growing.{columns_of, type_at, with_column, with_rows};

use mt_base::NoMemory;
use mt_values::{Block, Cell, ColumnData, Row, Schema};
use std::alloc::Global;

/// Columns without values, of the types that the table has at these places.
///
/// `NoMemory` where an allocation failed.
pub(crate) fn empty_columns(
    alloc: Global,
    schema: &Schema,
    places: &[u32],
) -> Result<Vec<ColumnData>, NoMemory>
    requires { All (λ place. place < length schema.now.columns) places.now }
    ensures { IfOk result
        (λ v. v.items ≡ columns_of (column_types schema.now) places.now []) }
{
    let mut columns = Vec::with_capacity(alloc, places.len())?;
    for place in places {
        let col_type = schema.columns.at(*place as usize).col_type;
        columns.push_reserved(ColumnData::new(alloc, col_type));
    }
    Ok(columns)
}

/// Adds to each column the values that the block's rows in this order have at the column's place among these.
///
/// `NoMemory` where an allocation failed; some of the values may have been added then.
pub(crate) fn add_rows(
    columns: &mut [ColumnData],
    places: &[u32],
    block: &Block,
    order: &[u32],
) -> Result<(), NoMemory>
    requires places { All (λ place. place < length block.now.types) places.now }
    requires order { All (λ row. row < length block.now.rows) order.now }
    requires types { map (λ (c : Cells). c.col_type) columns.old ≡ map (type_at block.now.types)
        places.now }
    ensures { OnOk result
        (columns.new ≡ with_rows (picked block.now.rows order.now) places.now columns.old) }
{
    for (number, place) in places.iter().enumerate() {
        add_column(&mut columns[number], block, *place, order)?;
    }
    Ok(())
}

/// Adds the values that the block's rows in this order have at a place to a column.
///
/// `NoMemory` where an allocation failed; some of the values may have been added then.
fn add_column(
    column: &mut ColumnData,
    block: &Block,
    place: u32,
    order: &[u32],
) -> Result<(), NoMemory>
    requires place { place < length block.now.types }
    requires order { All (λ row. row < length block.now.rows) order.now }
    requires same { column.old.col_type ≡ type_at block.now.types place }
    ensures { OnOk result
        (column.new ≡ with_column place (picked block.now.rows order.now) column.old) }
{
    let cells = block.column(place as usize);
    // Reading the lengths shows that the column has a value of its type for each row.
    prove_eq!(cells.len(), block.len());
    add_cells(column, cells, order)
}

/// Adds the values of a column at these places, in this order, to a column of its type.
///
/// `NoMemory` where an allocation failed; some of the values may have been added then.
fn add_cells(column: &mut ColumnData, cells: &ColumnData, order: &[u32]) -> Result<(), NoMemory>
    requires within { All (λ place. place < length cells.now.values) order.now }
    requires typed { AreOfType cells.now }
    requires same { column.old.col_type ≡ cells.now.col_type }
    ensures { OnOk result (column.new ≡ record column.old {
      values = column.old.values ++ filter_map (slice_get cells.now.values) order.now;
    }) }
{
    for place in order {
        column.push_cell(cells.at(*place as usize))?;
    }
    Ok(())
}

/// Adds to each column its value of the row.
///
/// `NoMemory` where an allocation failed; some of the values may have been added then.
pub(crate) fn add_row(columns: &mut [ColumnData], row: &Row) -> Result<(), NoMemory>
    requires { map (λ (c : Cells). c.col_type) columns.old ≡ types_of row.now }
    ensures { OnOk result (columns.new ≡ with_rows (row.now ∷ [])
        (range_with_len 0 (length row.now)) columns.old) }
{
    for (number, value) in row.as_slice().iter().enumerate() {
        columns[number].push_cell(Cell::of(value))?;
    }
    Ok(())
}
