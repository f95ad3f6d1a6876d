// What is kept of the skip indexes of a part, compared with the values of a column, block by block.
ghost use Rattle.std.specs.Prelude.{◌≡◌, ◌↔◌, ◌++◌, ◌+◌, ◌*◌, ◌<◌, ◌≤◌, IfErr, IfOk, IsTrue, List, Some, length, map, slice_get};
ghost use Rattle.std.specs.List.{range_with_len};
ghost use Rattle.part_damage.specs.column_file.Faults.{Explains};
ghost use Rattle.part_damage.specs.column_file.Spellings.{IsSpelling};
ghost use Rattle.mt_values.specs.declared.value.Value.{Value as Kept};
ghost use Rattle.part_damage.specs.predicate.declared.extent.Known.TheVariants as known;
ghost use Rattle.part_damage.specs.skip_index.Blocks.{blocks_of, kept_of};
ghost use Rattle.part_damage.specs.part_writer.PartFiles.{HasIndexes};
ghost use Rattle.part_reader.specs.Compared.{index_kept};
ghost use Rattle.part_reader.specs.Compared.{EndsAt, HasIndexOf, IsFirstFailing, IsReadFrom};

use mt_base::{NoMemory, Seq};
use mt_values::{ColType, ColumnData, IndexKind, Schema, SkipIndex, Value, cmp_value};
use part_damage::column_file::{FormatFault, cell_at};
use part_damage::part_writer::Loaded;
use part_damage::predicate::Known;
use part_damage::skip_index::{Index, kept_of};
use std::alloc::Global;

/// The bytes of a column's file, the column's number, and of what type and how many its values are to be.
#[derive(Clone, Copy)]
pub struct ColumnFile<'a> {
    pub number: u32,
    pub col_type: ColType,
    pub bytes: &'a [u8],
    pub count: usize,
}

/// The number of the first skip index of the column of which what is kept is not that of the values which the bytes spell; none where
/// each is. One block's values at a time are in memory.
///
/// `Malformed` where the bytes spell no such values, at their first fault; `NoMemory` where an allocation failed, or the number does
/// not fit 32 bits.
pub fn unlike_index(
    alloc: Global,
    loaded: &Loaded,
    schema: &Schema,
    column: &ColumnFile,
) -> Result<Option<u32>, FormatFault>
    requires granularity { 0 < schema.now.granularity }
    requires indexes { HasIndexes schema.now }
    ensures found { (values : List Kept)
        → IsSpelling column.now.col_type column.now.count column.now.bytes.now values
        → IfOk result
        (IsFirstFailing (HasIndexOf schema.now loaded.now column.now.number values)) }
    ensures wrong { IfErr result
        (Explains column.now.col_type column.now.count column.now.bytes.now) }
{
    for place in 0..schema.indexes.len() {
        if !is_index(alloc, loaded, schema, place, column)? {
            return numbered(place);
        }
    }
    Ok(None)
}

/// The place as a number.
///
/// `NoMemory` where it does not fit 32 bits.
fn numbered(place: usize) -> Result<Option<u32>, FormatFault>
    ensures number { IfOk result (λ number. number ≡ Some place) }
    ensures memory { IfErr result (λ e. e ≡ FormatFault.NoMemory) }
{
    if place > u32::MAX as usize {
        return Err(FormatFault::NoMemory);
    }
    Ok(Some(place as u32))
}

/// Whether the skip index at a place is of another column, or what is kept of it is that of the values which the bytes spell.
///
/// The errors are those of `unlike_index`.
fn is_index(
    alloc: Global,
    loaded: &Loaded,
    schema: &Schema,
    place: usize,
    column: &ColumnFile,
) -> Result<bool, FormatFault>
    requires granularity { 0 < schema.now.granularity }
    requires indexes { HasIndexes schema.now }
    requires place { place < length schema.now.indexes }
    ensures same { (values : List Kept)
        → IsSpelling column.now.col_type column.now.count column.now.bytes.now values
        → IfOk result (λ same. IsTrue same
        ↔ HasIndexOf schema.now loaded.now column.now.number values place) }
    ensures wrong { IfErr result
        (Explains column.now.col_type column.now.count column.now.bytes.now) }
{
    let index = schema.indexes.at(place);
    if index.column != column.number {
        return Ok(true);
    }
    match loaded.indexes.as_slice().get(place) {
        Some(kept) => is_kept(alloc, kept, index, schema.granularity, column),
        None => Ok(false),
    }
}

/// Whether this is what the skip index keeps of the values which the bytes spell, where a granule has this many rows.
///
/// The errors are those of `unlike_index`.
fn is_kept(
    alloc: Global,
    kept: &Index,
    index: &SkipIndex,
    granularity: u32,
    column: &ColumnFile,
) -> Result<bool, FormatFault>
    requires granularity { 0 < granularity }
    requires span { 0 < index.now.granularity }
    ensures same { (values : List Kept)
        → IsSpelling column.now.col_type column.now.count column.now.bytes.now values
        → IfOk result
        (λ same. IsTrue same ↔ (kept.now ≡ index_kept granularity index.now values)) }
    ensures wrong { IfErr result
        (Explains column.now.col_type column.now.count column.now.bytes.now) }
{
    let granules = column.count.div_ceil(granularity as usize);
    if !is_shape(kept, index, granules) {
        return Ok(false);
    }
    let size = granularity as usize * index.granularity as usize;
    are_blocks(alloc, kept.blocks.as_slice(), index.kind, size, column)
}

/// Whether this is what a skip index of the kind keeps of each block of the values which the bytes spell. A block has this many values,
/// the last perhaps fewer.
///
/// The errors are those of `unlike_index`.
fn are_blocks(
    alloc: Global,
    kept: &[Known],
    kind: IndexKind,
    size: usize,
    column: &ColumnFile,
) -> Result<bool, FormatFault>
    requires { 0 < size }
    ensures same { (values : List Kept)
        → IsSpelling column.now.col_type column.now.count column.now.bytes.now values
        → IfOk result
        (λ same. IsTrue same ↔ (kept.now ≡ map (kept_of kind) (blocks_of size values))) }
    ensures wrong { IfErr result
        (Explains column.now.col_type column.now.count column.now.bytes.now) }
{
    let blocks = column.count.div_ceil(size);
    if kept.len() != blocks {
        return Ok(false);
    }
    let mut at = 0;
    for block in 0..blocks {
        let count = size.min(column.count - block * size);
        let (values, end) = values_from(alloc, column, at, count)?;
        if !is_block(alloc, &kept[block], kind, &values)? {
            return Ok(false);
        }
        at = end;
    }
    Ok(true)
}

/// Whether what is kept is of the skip index's column, with its number of granules a block, for this number of granules.
fn is_shape(kept: &Index, index: &SkipIndex, granules: usize) -> bool
    ensures { IsTrue result ↔ ((kept.now.column ≡ index.now.column)
        × (kept.now.span ≡ index.now.granularity) × (kept.now.granules ≡ granules)) }
{
    kept.column == index.column && kept.span == index.granularity && kept.granules == granules
}

/// The next values that the bytes spell from a place on, `count` of them, and the place where they end.
///
/// `Malformed` where no value begins that was to be read; `NoMemory` where an allocation failed.
fn values_from(
    alloc: Global,
    column: &ColumnFile,
    from: usize,
    count: usize,
) -> Result<(ColumnData, usize), FormatFault>
    requires { from ≤ length column.now.bytes.now }
    ensures { (before : List Value)
        → EndsAt column.now from before → length before + count ≤ column.now.count
        → IsReadFrom column.now before count result }
{
    let mut values = ColumnData::new(alloc, column.col_type);
    let mut at = from;
    for _value in 0..count {
        let (cell, size) = cell_at(column.col_type, column.bytes, at)?;
        values.push_cell(cell)?;
        at += size;
    }
    Ok((values, at))
}

/// Whether this is what a skip index of the kind keeps of a block with these values.
///
/// `NoMemory` where an allocation failed, or 32 bits can't count the values.
fn is_block(
    alloc: Global,
    kept: &Known,
    kind: IndexKind,
    values: &ColumnData,
) -> Result<bool, FormatFault>
    ensures same { IfOk result (λ same. IsTrue same ↔ (kept.now ≡ kept_of kind values.now.values)) }
    ensures memory { IfErr result (λ e. e ≡ FormatFault.NoMemory) }
{
    let places = first_places(alloc, values.len())?;
    let found = kept_of(alloc, kind, values, places.as_slice())?;
    Ok(is_known(kept, &found))
}

/// This many places, from 0 on.
///
/// `NoMemory` where an allocation failed, or 32 bits can't count them.
fn first_places(alloc: Global, count: usize) -> Result<Seq<u32>, NoMemory>
    ensures { IfOk result (λ places. places ≡ range_with_len 0 count) }
{
    if count > u32::MAX as usize {
        return Err(NoMemory);
    }
    let mut places = Seq::with_capacity(alloc, count)?;
    for place in 0..count {
        places.push(place as u32)?;
    }
    Ok(places)
}

/// Whether both are one.
fn is_known(a: &Known, b: &Known) -> bool
    ensures { IsTrue result ↔ (a.now ≡ b.now) }
{
    match a {
        Known::Range(least, greatest) => is_range(least, greatest, b),
        Known::List(values) => is_list(values.as_slice(), b),
        Known::Unknown => is_nothing(b),
    }
}

/// Whether this is the range from a least to a greatest value.
fn is_range(least: &Value, greatest: &Value, found: &Known) -> bool
    ensures { IsTrue result ↔ (known.Range least.now greatest.now ≡ found.now) }
{
    match found {
        Known::Range(low, high) => {
            let begins = is_value(least, low);
            let ends = is_value(greatest, high);
            begins && ends
        }
        _ => false,
    }
}

/// Whether this is the list of these values.
fn is_list(values: &[Value], found: &Known) -> bool
    ensures { IsTrue result ↔ (known.List values.now ≡ found.now) }
{
    match found {
        Known::List(others) => are_values(values, others.as_slice()),
        _ => false,
    }
}

/// Whether this is nothing.
fn is_nothing(found: &Known) -> bool
    ensures { IsTrue result ↔ (known.Unknown ≡ found.now) }
{
    match found {
        Known::Unknown => true,
        _ => false,
    }
}

/// Whether both values are one.
fn is_value(a: &Value, b: &Value) -> bool
    ensures { IsTrue result ↔ (a.now ≡ b.now) }
{
    cmp_value(a, b).is_eq()
}

/// Whether both lists of values are one.
fn are_values(a: &[Value], b: &[Value]) -> bool
    ensures { IsTrue result ↔ (a.now ≡ b.now) }
{
    if a.len() != b.len() {
        return false;
    }
    for place in 0..a.len() {
        if !is_value(&a[place], &b[place]) {
            return false;
        }
    }
    true
}
