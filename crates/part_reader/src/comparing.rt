// What is kept of a part, compared with the values of a column.
ghost use Rattle.std.specs.Prelude.{All, ◌≡◌, ◌≢◌, ◌<◌, ◌-◌, ◌*◌, ◌↔◌, ◌&&◌, ◌++◌, ◌∷◌, [], ℕ, true, IfErr, IfOk, IsTrue, List, MatchOption, MatchResult, None, OnOk, Some, length, slice_get, take};
ghost use Rattle.std.specs.List.{cons_option};
ghost use Rattle.std.specs.Option.{IfSome, option_map};
ghost use Rattle.part_damage.specs.column_file.Faults.{Explains};
ghost use Rattle.part_damage.specs.column_file.Spellings.{IsSpelling, fewest_bytes};
ghost use Rattle.mt_values.specs.declared.value.ColType.TheVariants as type;
ghost use Rattle.mt_values.specs.declared.value.Value.{Value};
ghost use Rattle.mt_values.specs.Cells.{value_of};
ghost use Rattle.mt_values.specs.ColumnBytes.{column_bytes};
ghost use Rattle.mt_values.specs.Grid.{column_of};
ghost use Rattle.mt_values.specs.Schemas.{column_types};
ghost use Rattle.mt_values.specs.Values.{type_of};
ghost use Rattle.part_damage.specs.primary_marks.Keys.{HasMarks};
ghost use Rattle.part_reader.specs.Compared.{AreBegun, AreMarksIn, IsColumnCompared, both_agree, first_of, unlike_file, whole};
ghost use Rattle.part_damage.specs.part_writer.PartFiles.{HasIndexes};

use crate::indexed::{ColumnFile, unlike_index};
use mt_base::Seq;
use mt_values::{Cell, ColType, ColumnData, FileId, Schema, cmp_cells};
use part_damage::column_file::{FormatFault, cell_at, end_at};
use part_damage::part_writer::Loaded;
use part_damage::primary_marks::Marks;
use std::alloc::Global;

/// Whether the places, the keys and the skip indexes that are kept of a part are those of the columns gone over.
#[derive(Clone, Copy)]
pub struct Agreement {
    pub places: bool,
    pub keys: bool,
    /// The number of the first skip index that is not, counted from 0; none where each is.
    pub index: Option<u32>,
}

impl Agreement {
    /// All are.
    pub fn whole() -> Self
        ensures { result ≡ whole }
    {
        Agreement {
            places: true,
            keys: true,
            index: None,
        }
    }

    /// Of these columns and of those.
    pub fn and(self, other: Agreement) -> Self
        ensures { result ≡ both_agree self other }
    {
        Agreement {
            places: self.places && other.places,
            keys: self.keys && other.keys,
            index: first_of(self.index, other.index),
        }
    }

    /// The file that says what is not that of the columns, in the order of the format; none where each is.
    pub fn unlike(self) -> Option<FileId>
        ensures { result ≡ unlike_file self }
    {
        if !self.places {
            return Some(FileId::Marks);
        }
        if !self.keys {
            return Some(FileId::Primary);
        }
        match self.index {
            Some(number) => Some(FileId::Skip(number)),
            None => None,
        }
    }
}

/// The lesser of two numbers, where there is one.
fn first_of(a: Option<u32>, b: Option<u32>) -> Option<u32>
    ensures { result ≡ first_of a b }
{
    match (a, b) {
        (None, _) => b,
        (Some(_), None) => a,
        (Some(own), Some(other)) => Some(own.min(other)),
    }
}

/// Where the granules of a column begin in the bytes of its file, and the end of the last; and the values with which they begin, and the last.
#[derive(Drop)]
pub struct ColumnMarks {
    pub starts: Seq<u64>,
    pub firsts: ColumnData,
}

/// Whether what is kept of a part is that of the values which the bytes of a column's file spell, as many as the part has rows.
///
/// `Malformed` where they spell no such values, at their first fault; `NoMemory` where an allocation failed.
pub fn compare_column(
    alloc: Global,
    loaded: &Loaded,
    schema: &Schema,
    number: u32,
    bytes: &[u8],
) -> Result<Agreement, FormatFault>
    requires marks { HasMarks schema.now }
    requires indexes { HasIndexes schema.now }
    requires column { number < length schema.now.columns }
    ensures { MatchResult result (IsColumnCompared schema.now loaded.now number bytes.now)
        (λ e. IfSome (slice_get (column_types schema.now) number)
        (λ t. Explains t loaded.now.manifest.rows bytes.now e)) }
{
    let col_type = schema.columns.at(number as usize).col_type;
    let rows = loaded.manifest.rows as usize;
    let found = marks_in(alloc, col_type, bytes, rows, schema.granularity)?;
    let column = ColumnFile {
        number,
        col_type,
        bytes,
        count: rows,
    };
    let index = unlike_index(alloc, loaded, schema, &column)?;
    Ok(Agreement {
        places: are_places(loaded, number as usize, &found.starts),
        keys: are_keys(
            &loaded.marks,
            schema.primary.as_slice(),
            number,
            &found.firsts,
        ),
        index,
    })
}

/// The marks of the values that the bytes spell, `count` of them.
///
/// `Malformed` where they spell no such values, at their first fault; `NoMemory` where an allocation failed.
fn marks_in(
    alloc: Global,
    col_type: ColType,
    bytes: &[u8],
    count: usize,
    granularity: u32,
) -> Result<ColumnMarks, FormatFault>
    requires { 0 < granularity }
    ensures { MatchResult result (AreMarksIn col_type count granularity bytes.now)
        (Explains col_type count bytes.now) }
{
    if are_numbers(col_type, bytes, count) {
        return marks_of_numbers(alloc, col_type, bytes, count, granularity);
    }
    let mut found = ColumnMarks {
        starts: Seq::new(alloc),
        firsts: ColumnData::new(alloc, col_type),
    };
    let mut last = None;
    let mut left = 0;
    let mut at = 0;
    for _value in 0..count {
        let (cell, size) = cell_at(col_type, bytes, at)?;
        left = go_over(&mut found, left, at, cell, granularity)?;
        last = Some(cell);
        at += size;
    }
    end_at(bytes, at)?;
    finish(found, at, last)
}

/// Whether the type is one of numbers, and the bytes are as many as `count` of them take.
fn are_numbers(col_type: ColType, bytes: &[u8], count: usize) -> bool
    ensures { IsTrue result → (col_type ≢ type.Text)
        × (length bytes.now ≡ fewest_bytes col_type * count) }
{
    match number_width(col_type) {
        None => false,
        Some(width) => width.checked_mul(count) == Some(bytes.len()),
    }
}

/// How many bytes each number of the type takes; none where its values are texts, which differ in length.
fn number_width(col_type: ColType) -> Option<usize>
    ensures { MatchOption result (col_type ≡ type.Text)
        (λ width. (col_type ≢ type.Text) × (width ≡ fewest_bytes col_type)) }
{
    match col_type {
        ColType::UInt8 | ColType::Int8 => Some(1),
        ColType::UInt16 | ColType::Int16 => Some(2),
        ColType::UInt32 | ColType::Int32 => Some(4),
        ColType::UInt64 | ColType::Int64 => Some(8),
        ColType::Text => None,
    }
}

/// The marks of the numbers that the bytes spell: those with which granules begin, and the last, are read alone.
///
/// `NoMemory` where an allocation failed.
fn marks_of_numbers(
    alloc: Global,
    col_type: ColType,
    bytes: &[u8],
    count: usize,
    granularity: u32,
) -> Result<ColumnMarks, FormatFault>
    requires granularity { 0 < granularity }
    requires number { col_type ≢ type.Text }
    requires size { length bytes.now ≡ fewest_bytes col_type * count }
    ensures { MatchResult result (AreMarksIn col_type count granularity bytes.now)
        (λ e. e ≡ FormatFault.NoMemory) }
{
    let mut found = ColumnMarks {
        starts: Seq::new(alloc),
        firsts: ColumnData::new(alloc, col_type),
    };
    let size = granularity as usize;
    for granule in 0..count.div_ceil(size) {
        let Some((at, cell)) = number_at(col_type, bytes, count, granule * size) else {
            unreachable!();
        };
        found.starts.push(at as u64)?;
        found.firsts.push_cell(cell)?;
    }
    finish(found, bytes.len(), last_number(col_type, bytes, count))
}

/// Where the number at a place begins in the bytes, and the number; places are counted from 0.
///
/// `None` where there are no more than `place` numbers.
fn number_at(
    col_type: ColType,
    bytes: &[u8],
    count: usize,
    place: usize,
) -> Option<(usize, Cell<'_>)>
    requires number { col_type ≢ type.Text }
    requires size { length bytes.now ≡ fewest_bytes col_type * count }
    ensures typed { IfSome result (λ p. type_of (value_of p.1) ≡ col_type) }
    ensures number { (values : List Value) → IsSpelling col_type count bytes.now values
        → MatchOption result (slice_get values place ≡ None) (λ p.
        (p.0 ≡ length (column_bytes (take place values)))
        × (slice_get values place ≡ Some (value_of p.1))) }
{
    if place >= count {
        return None;
    }
    let at = number_width(col_type)? * place;
    match cell_at(col_type, bytes, at) {
        Ok((cell, _size)) => Some((at, cell)),
        Err(_) => None,
    }
}

/// The last of the numbers that the bytes spell, where there is one.
fn last_number(col_type: ColType, bytes: &[u8], count: usize) -> Option<Cell<'_>>
    requires number { col_type ≢ type.Text }
    requires size { length bytes.now ≡ fewest_bytes col_type * count }
    ensures typed { IfSome result (λ cell. type_of (value_of cell) ≡ col_type) }
    ensures last { (values : List Value) → IsSpelling col_type count bytes.now values
        → slice_get values (length values - 1) ≡ option_map value_of result }
{
    match number_at(col_type, bytes, count, count.saturating_sub(1)) {
        Some((_at, cell)) => Some(cell),
        None => None,
    }
}

/// Goes over one value more, which begins at this place of the bytes. Where the last granule wants none any more, a granule begins with it.
/// Gives how many values the last granule wants then.
///
/// `NoMemory` where an allocation failed; the place may have been added then.
fn go_over(
    found: &mut ColumnMarks,
    left: u32,
    at: usize,
    cell: Cell,
    granularity: u32,
) -> Result<u32, FormatFault>
    requires granularity { 0 < granularity }
    requires typed { type_of (value_of cell) ≡ found.old.firsts.col_type }
    ensures col_type { OnOk result (found.new.firsts.col_type ≡ found.old.firsts.col_type) }
    ensures begun { IfOk result (λ rest. (values : List Value) → at ≡ length (column_bytes values)
        → AreBegun granularity values found.old left
        → AreBegun granularity (values ++ value_of cell.entry ∷ []) found.new rest) }
    ensures memory { IfErr result (λ e. e ≡ FormatFault.NoMemory) }
{
    if left > 0 {
        return Ok(left - 1);
    }
    found.starts.push(at as u64)?;
    found.firsts.push_cell(cell)?;
    Ok(granularity - 1)
}

/// The marks with the end of the last granule, and with the last value where there is one.
///
/// `NoMemory` where an allocation failed.
fn finish(
    mut found: ColumnMarks,
    end: usize,
    last: Option<Cell>,
) -> Result<ColumnMarks, FormatFault>
    requires { IfSome last (λ cell. type_of (value_of cell) ≡ found.firsts.col_type) }
    ensures starts { IfOk result (λ f. f.starts ≡ found.starts ++ end ∷ []) }
    ensures firsts { IfOk result (λ f. f.firsts.values ≡ found.firsts.values
        ++ cons_option (option_map value_of last.entry) []) }
    ensures memory { IfErr result (λ e. e ≡ FormatFault.NoMemory) }
{
    found.starts.push(end as u64)?;
    match last {
        None => Ok(found),
        Some(cell) => {
            found.firsts.push_cell(cell)?;
            Ok(found)
        }
    }
}

/// Whether the places that are kept of a column are these.
fn are_places(loaded: &Loaded, number: usize, starts: &Seq<u64>) -> bool
    ensures { IsTrue result ↔ (slice_get loaded.now.places number ≡ Some starts.now) }
{
    match loaded.places.as_slice().get(number) {
        Some(kept) => *kept == *starts,
        None => false,
    }
}

/// Whether the keys have these values wherever the primary key names the column.
fn are_keys(marks: &Marks, primary: &[u32], number: u32, firsts: &ColumnData) -> bool
    ensures { IsTrue result ↔ ((place : ℕ) → slice_get primary.now place ≡ Some number
        → column_of place marks.now ≡ firsts.now.values) }
{
    for (place, column) in primary.iter().enumerate() {
        if *column == number && !is_column(marks, place, firsts) {
            return false;
        }
    }
    true
}

/// Whether these are the values of the keys at a place in them.
fn is_column(marks: &Marks, place: usize, firsts: &ColumnData) -> bool
    ensures { IsTrue result ↔ (column_of place marks.now ≡ firsts.now.values) }
{
    if place >= marks.width() {
        return firsts.is_empty();
    }
    if marks.len() != firsts.len() {
        return false;
    }
    for key in 0..firsts.len() {
        if !cmp_cells(marks.key_cell(key, place), firsts.at(key)).is_eq() {
            return false;
        }
    }
    true
}

/// Whether what is kept of a part has places of each column of the table, and keys with a value of each column of its primary key.
pub fn shape(loaded: &Loaded, schema: &Schema) -> Agreement
    ensures places { IsTrue result.places
        ↔ (length loaded.now.places ≡ length schema.now.columns) }
    ensures keys { IsTrue result.keys
        ↔ All (λ key. length key ≡ length schema.now.primary) loaded.now.marks }
    ensures index { result.index ≡ None }
{
    Agreement {
        places: loaded.places.len() == schema.columns.len(),
        keys: have_width(&loaded.marks, schema.primary.len()),
        index: None,
    }
}

/// Whether each of the keys has this many values.
fn have_width(marks: &Marks, width: usize) -> bool
    ensures { IsTrue result ↔ All (λ key. length key ≡ width) marks.now }
{
    if marks.is_empty() {
        return true;
    }
    marks.width() == width
}
