// primary.bin read back: its keys, or its first fault (docs/formats.md, "Primary keys").
ghost use Rattle.std.specs.Prelude.{◌≡◌, ◌<◌, ◌≤◌, ◌↔◌, ◌-◌, ◌+◌, ◌*◌, nat_eq, [], Some, None, List, All, IfErr, IfOk, IfSome, IsTrue, MatchResult, drop, length, true, if◌then◌else◌};
ghost use Rattle.std.specs.Int.{div_ceil};
ghost use Rattle.mt_values.specs.Cells.{value_of};
ghost use Rattle.mt_values.specs.Grid.{rows_of};
ghost use Rattle.mt_values.specs.Values.{Row};
ghost use Rattle.mt_values.specs.declared.value.ColType.{ColType};
ghost use Rattle.primary_marks.specs.Columns.{ExplainsNextKey, ExplainsValue, GainKey, GainsValue, HaveKeys, HaveWanted, IsWantedIn, key_types};
ghost use Rattle.primary_marks.specs.KeyFaults.{ExplainsPrimary};
ghost use Rattle.primary_marks.specs.Keys.{HasMarks, IsPrimaryOf, key_shape, primary_types, shape_of};

use crate::marks::Marks;
use column_file::byte_numbers::FormatFault;
use column_file::{cell_at, end_at};
use mt_base::{NoMemory, Seq};
use mt_values::{Cell, ColType, ColumnData, Schema, cmp_cells};
use std::alloc::Global;

/// The keys that the bytes spell, of a table's part with this many rows. Whether they rise is not asked.
///
/// `Malformed` where they spell no such keys: where a value was to begin and none does, at the first value of the final mark
/// that is not its granule's, where the last granule has one row, or after the last value where the bytes go on.
/// `NoMemory` where an allocation failed.
pub fn read(alloc: Global, schema: &Schema, bytes: &[u8], rows: u64) -> Result<Marks, FormatFault>
    requires { HasMarks schema.now }
    ensures read { IfOk result (IsPrimaryOf (shape_of schema.now rows) bytes.now) }
    ensures spelled { (keys : List Row) → IsPrimaryOf (shape_of schema.now rows) bytes.now keys
        → MatchResult result (λ m. m ≡ keys) (λ e. e ≡ FormatFault.NoMemory) }
    ensures fault { IfErr result (ExplainsPrimary (shape_of schema.now rows) bytes.now) }
{
    if rows == 0 {
        end_at(bytes, 0)?;
        return Ok(Marks::of_columns(Vec::new(alloc), 0));
    }
    let types = primary_types(alloc, schema)?;
    let columns = empty_columns(alloc, types.as_slice())?;
    read_keys(columns, bytes, schema.granularity, rows)
}

/// The types of the primary key's columns.
///
/// `NoMemory` where an allocation failed.
fn primary_types(alloc: Global, schema: &Schema) -> Result<Seq<ColType>, NoMemory>
    requires { All (λ place. place < length schema.now.columns) schema.now.primary }
    ensures { IfOk result (λ types. types ≡ primary_types schema.now) }
{
    let mut types = Seq::with_capacity(alloc, schema.primary.len())?;
    for place in schema.primary.as_slice() {
        types.push(schema.columns.at(*place as usize).col_type)?;
    }
    Ok(types)
}

/// A column without values for each of the types.
///
/// `NoMemory` where an allocation failed.
fn empty_columns(alloc: Global, types: &[ColType]) -> Result<Vec<ColumnData>, NoMemory>
    ensures types { IfOk result (λ v. key_types v.items ≡ types.now) }
    ensures empty { IfOk result (λ v. HaveKeys v.items 0) }
{
    let mut columns = Vec::with_capacity(alloc, types.len())?;
    for col_type in types {
        columns.push_reserved(ColumnData::new(alloc, *col_type));
    }
    Ok(columns)
}

/// The keys that the bytes spell, read into columns that are empty. There is a row.
///
/// The errors are those of `read`.
fn read_keys(
    mut columns: Vec<ColumnData>,
    bytes: &[u8],
    granularity: u32,
    rows: u64,
) -> Result<Marks, FormatFault>
    requires some { 0 < length columns.items }
    requires empty { HaveKeys columns.items 0 }
    requires granularity { 0 < granularity }
    requires rows { 0 < rows }
    ensures read { IfOk result (IsPrimaryOf (key_shape (key_types columns.items) granularity rows)
        bytes.now) }
    ensures fault { IfErr result (ExplainsPrimary (key_shape (key_types columns.items) granularity
        rows) bytes.now) }
{
    let granules = rows.div_ceil(u64::from(granularity));
    let mut at = 0;
    for _granule in 0..granules {
        at += read_key(columns.as_mut_slice(), bytes, at, None)?;
    }
    let wanted = twin_of_final(u64::from(granularity), granules, rows);
    at += read_key(columns.as_mut_slice(), bytes, at, wanted)?;
    end_at(bytes, at)?;
    let keys = columns[0].len();
    Ok(Marks::of_columns(columns, keys))
}

/// The place of the key that the final mark has to be: that of the last granule, counted from 0, where it has one row.
fn twin_of_final(granularity: u64, granules: u64, rows: u64) -> Option<usize>
    requires granularity { 0 < granularity }
    requires granules { granules ≡ div_ceil rows granularity }
    requires rows { 0 < rows }
    ensures { result ≡ if nat_eq (granularity * (granules - 1) + 1) rows
        then Some (granules - 1) else None }
{
    let last = granules - 1;
    if granularity * last + 1 == rows {
        return Some(last as usize);
    }
    None
}

/// Adds the values of a key that begins at a place of the bytes, each to its own column, and answers how many bytes spell
/// it. Where one is wanted it is the key that the columns have at that place.
///
/// `Malformed` at the first value that is not there or not the wanted one; `NoMemory` where an allocation failed. After an
/// error some columns may have got a value.
fn read_key(
    columns: &mut [ColumnData],
    bytes: &[u8],
    at: usize,
    wanted: Option<usize>,
) -> Result<usize, FormatFault>
    requires within { at ≤ length bytes.now }
    requires wanted { HaveWanted wanted columns.old }
    ensures read { IfOk result
        (λ size. GainKey wanted (drop at bytes.now) size columns.old columns.new) }
    ensures fault { IfErr result (ExplainsNextKey columns.old wanted at (drop at bytes.now)) }
{
    let mut size = 0;
    for column in columns.iter_mut() {
        size += read_value(column, bytes, at + size, wanted)?;
    }
    Ok(size)
}

/// Adds the value that begins at a place of the bytes to a column, and answers how many bytes spell it. Where one is wanted
/// it is the value that the column has at that place.
///
/// `Malformed` at the place where no value is there, or not the wanted one; `NoMemory` where an allocation failed. After an
/// error the column is as it was.
fn read_value(
    column: &mut ColumnData,
    bytes: &[u8],
    at: usize,
    wanted: Option<usize>,
) -> Result<usize, FormatFault>
    requires within { at ≤ length bytes.now }
    requires wanted { IfSome wanted (λ place. place < length column.old.values) }
    ensures read { IfOk result
        (λ size. GainsValue wanted (drop at bytes.now) size column.old column.new) }
    ensures fault { IfErr result (ExplainsValue wanted column.old at (drop at bytes.now)) }
{
    let (cell, size) = cell_at(column.col_type(), bytes, at)?;
    if !is_wanted(column, cell, wanted) {
        return Err(FormatFault::Malformed { place: at as u64 });
    }
    column.push_cell(cell)?;
    Ok(size)
}

/// Whether the value is the one that the column has at the wanted place, where one is wanted.
fn is_wanted(column: &ColumnData, cell: Cell, wanted: Option<usize>) -> bool
    requires { IfSome wanted (λ place. place < length column.now.values) }
    ensures { IsTrue result ↔ IsWantedIn column.now wanted (value_of cell.entry) }
{
    match wanted {
        None => true,
        Some(place) => cmp_cells(cell, column.at(place)).is_eq(),
    }
}
