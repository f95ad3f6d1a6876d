// A line of fields, read into columns.
ghost use Rattle.std.specs.Prelude.{◌≡◌};
ghost use Rattle.mt_values.specs.Rows.{fault_of_field, row_of_line};
ghost use Rattle.tsv_fields.specs.Columns.{IsReadInto, types_in, with_field, with_row};
ghost use Rattle.tsv_fields.specs.Faults.{fault_of_count};
ghost use Rattle.tsv_fields.specs.Fields.{EndFields};

use crate::fields::{cell_of_field, field_at};
use mt_base::Stop;
use mt_values::{ColumnData, FieldFault, RowFault};

/// The fault of a line that has another number of fields than there are columns.
pub fn fault_of_count(line: usize, found: usize, wanted: usize) -> Option<RowFault>
    ensures { result ≡ fault_of_count line found wanted }
{
    if found == wanted {
        return None;
    }
    Some(RowFault::Fields {
        line,
        found,
        wanted,
    })
}

/// The fault of a line's field at a place, from 1.
pub fn fault_of_field(line: usize, place: usize, fault: FieldFault) -> RowFault
    ensures { result ≡ fault_of_field line place fault }
{
    match fault {
        FieldFault::NotOfType => RowFault::Field { line, field: place },
        FieldFault::TooLong => RowFault::Value,
    }
}

// Adds the value of a field to a column. Where the field has a fault, the column stays as it was.
#[tactic(auto, using(crate::proofs::LineColumns::typed_cell))]
fn read_field(
    column: &mut ColumnData,
    field: &[u8],
    said: &mut Vec<u8>,
) -> Result<(), Stop<FieldFault>>
    ensures { IsReadInto (with_field column.old field.now) column.new result }
{
    let cell = cell_of_field(column.col_type(), field, said)?;
    column.push_cell(cell)?;
    Ok(())
}

/// Adds the values of a line's fields to the columns. Where the line has a fault, some columns may have got a value.
///
/// `Stop::NoMemory` where an allocation failed.
pub fn read_line(
    columns: &mut [ColumnData],
    text: &[u8],
    ends: &[usize],
    line: usize,
    said: &mut Vec<u8>,
) -> Result<(), Stop<RowFault>>
    requires { EndFields text.now ends.now }
    ensures { IsReadInto (with_row columns.old (row_of_line (types_in columns.old) line text.now))
        columns.new result }
{
    if let Some(fault) = fault_of_count(line, ends.len(), columns.len()) {
        return Err(Stop::Refused(fault));
    }
    for (place, column) in columns.iter_mut().enumerate() {
        match read_field(column, field_at(text, ends, place), said) {
            Ok(()) => {}
            Err(Stop::Refused(fault)) => {
                return Err(Stop::Refused(fault_of_field(line, place + 1, fault)));
            }
            Err(Stop::NoMemory) => return Err(Stop::NoMemory),
        }
    }
    Ok(())
}
