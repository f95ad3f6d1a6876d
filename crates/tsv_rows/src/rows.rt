// From lines to rows: one row, and the lines of an INSERT's data as a block.
ghost use Rattle.std.specs.Prelude.{◌≡◌, [], All, IfErr, IfOk, Ok, map};
ghost use Rattle.mt_values.specs.Engines.{sign_place};
ghost use Rattle.mt_values.specs.Rows.{at_field, inserted_rows, row_of_line, signed_row_of_line, value_of_field};
ghost use Rattle.mt_values.specs.Values.{AreValues, IsValue};
ghost use Rattle.mt_values.specs.Schemas.{column_types};
ghost use Rattle.mt_base.specs.Stops.{Refuses};

use crate::signs::keeps_sign;
use mt_base::{NoMemory, ROW_LIMIT, Seq, Stop};
use mt_values::{Block, ColType, ColumnData, DataFault, Row, RowFault, Schema, Value};
use std::alloc::Global;
use tsv_fields::{cell_of_field, fault_of_count, fault_of_field, field_at, mark_fields, read_line};

// The value of the field at a place in its line, from 1, or the line's fault.
fn read_value(
    alloc: Global,
    col_type: ColType,
    field: &[u8],
    line: usize,
    place: usize,
    said: &mut Vec<u8>,
) -> Result<Value, Stop<RowFault>>
    ensures value { IfOk result (λ v. Ok v ≡ value_of_field col_type field.now) }
    ensures refused { IfErr result
        (Refuses (at_field line place (value_of_field col_type field.now))) }
{
    match cell_of_field(col_type, field, said) {
        Ok(cell) => Ok(cell.to_value(alloc)?),
        Err(Stop::Refused(fault)) => Err(Stop::Refused(fault_of_field(line, place, fault))),
        Err(Stop::NoMemory) => Err(Stop::NoMemory),
    }
}

// The row of a line's fields, whatever its sign, or why it is none.
fn read_fields(
    alloc: Global,
    schema: &Schema,
    text: &[u8],
    line: usize,
) -> Result<Row, Stop<RowFault>>
    ensures row { IfOk result
        (λ row. row_of_line (column_types schema.now) line text.now ≡ Ok row) }
    ensures refused { IfErr result (Refuses (row_of_line (column_types schema.now) line text.now)) }
    ensures values { IfOk result (All IsValue) }
{
    let columns = schema.columns.as_slice();
    let mut ends = Vec::new(alloc);
    mark_fields(text, false, &mut ends)?;
    if let Some(fault) = fault_of_count(line, ends.len(), columns.len()) {
        return Err(Stop::Refused(fault));
    }
    let mut row = Seq::with_capacity(alloc, columns.len())?;
    let mut said = Vec::new(alloc);
    for (place, column) in columns.iter().enumerate() {
        let field = field_at(text, &ends, place);
        let value = read_value(alloc, column.col_type, field, line, place + 1, &mut said)?;
        row.push(value)?;
    }
    Ok(row)
}

/// The row that a line is, or why it is none. The line stands without its line feed, and counts from 1.
///
/// `Stop::NoMemory` where an allocation failed. A fault is that of the number of fields, or else of the first faulty
/// field from the left, or else of the sign.
pub fn read_row(
    alloc: Global,
    schema: &Schema,
    text: &[u8],
    line: usize,
) -> Result<Row, Stop<RowFault>>
    ensures row { IfOk result (λ row. signed_row_of_line (column_types schema.now)
        (sign_place schema.now.engine) line text.now ≡ Ok row) }
    ensures refused { IfErr result (Refuses (signed_row_of_line (column_types schema.now)
        (sign_place schema.now.engine) line text.now)) }
    ensures values { IfOk result (All IsValue) }
{
    let row = read_fields(alloc, schema, text, line)?;
    if !schema.has_sign(&row) {
        return Err(Stop::Refused(RowFault::Sign { line }));
    }
    Ok(row)
}

// Columns of these types, without values.
fn empty_columns(alloc: Global, types: &[ColType]) -> Result<Vec<ColumnData>, NoMemory>
    ensures { IfOk result
        (λ v. v.items ≡ map (λ t. record { col_type = t; values = [] }) types.now) }
{
    Ok(
        types
            .iter()
            .map(|col_type| ColumnData::new(alloc, *col_type))
            .collect(alloc)?,
    )
}

/// The rows of an INSERT's data, read straight into columns, or why the data is refused. `sign` is the place of the sign's
/// column, from 0, where the table has one; where there is no such column no row has a sign. `ended` says that the line
/// came which ends data. The first faulty line decides, and of its faults that of the number of its fields, then that
/// of the first faulty field from the left, then that of the sign.
///
/// `Stop::NoMemory` where an allocation failed.
pub fn read_rows(
    alloc: Global,
    types: &[ColType],
    sign: Option<u32>,
    lines: &[u8],
    ended: bool,
) -> Result<Block, Stop<DataFault>>
    ensures rows { IfOk result (λ b. inserted_rows types.now sign lines.now ended ≡ Ok b.rows) }
    ensures types { IfOk result (λ b. b.types ≡ types.now) }
    ensures values { IfOk result (λ b. AreValues b.rows) }
    ensures refused { IfErr result (Refuses (inserted_rows types.now sign lines.now ended)) }
{
    let mut columns = empty_columns(alloc, types)?;
    let mut ends = Vec::new(alloc);
    let mut said = Vec::new(alloc);
    let mut count = 0;
    let mut at = 0;
    'lines: while let Some(len) = mark_fields(&lines[at..], true, &mut ends)? {
        if count >= ROW_LIMIT {
            return Err(Stop::Refused(DataFault::TooMany));
        }
        let text = &lines[at..at + len];
        match read_line(&mut columns, text, &ends, count + 1, &mut said) {
            Ok(()) => {}
            Err(Stop::Refused(fault)) => return Err(Stop::Refused(DataFault::Row(fault))),
            Err(Stop::NoMemory) => return Err(Stop::NoMemory),
        }
        if !keeps_sign(columns.as_slice(), sign, count) {
            return Err(Stop::Refused(DataFault::Row(RowFault::Sign { line: count + 1 })));
        }
        count += 1;
        at += len + 1;
    }
    if !ended {
        return Err(Stop::Refused(DataFault::Unended { rows: count }));
    }
    Ok(Block::of_columns(columns, count))
}
