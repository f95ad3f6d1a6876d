// Which granules of a part a condition leaves, by the primary keys that are kept of it (docs/definitions.md, "Boxes of granules").
//
// A granule's rows stand between its first key and the next one. Up to and with the first column in which these two differ, the
// values of the key's columns lie between theirs; of the columns after it the keys say nothing. The partition column has the
// partition's number in each row.
ghost use Rattle.std.specs.Prelude.{◌≡◌, ◌<◌, ◌+◌, IfOk, Some, length, map, pos, slice_get};
ghost use Rattle.std.specs.List.{range_with_len};
ghost use Rattle.mt_values.specs.Literals.{number_value};
ghost use Rattle.predicate.specs.Boxes.{can};
ghost use Rattle.predicate.specs.Granules.{box_between, box_where, boxes_of, boxes_where, chosen_in, key_ranges, known_among, known_at, known_value};
ghost use Rattle.primary_marks.specs.Choosing.{key_at};
ghost use Rattle.primary_marks.specs.Spans.{part_boxes};

use crate::marks::Marks;
use crate::spans::{PartKeys, parts_at, span_of};
use mt_base::{NoMemory, Partition, Seq};
use mt_values::{ColType, Expr, Schema, Test, Value, cmp_cells};
use predicate::{Can, Extent, Known, can};
use std::alloc::Global;
use std::marker::Model;

// What a condition is of a granule that it does not leave: true of no row, and false of some.
const MISSED: Can = Can {
    yes: false,
    no: true,
};

/// What two keys say of the rows between them: the ranges of the first columns of the primary key. Contracts see the list of them.
#[derive(Drop)]
struct KeyRanges<'a> {
    marks: &'a Marks,
    first: usize,
    last: usize,
    columns: usize,
}

impl<'a> Model for KeyRanges<'a> {
    ghost use Rattle.std.specs.Prelude.{◌≡◌, ◌<◌, List, length};
    ghost use Rattle.predicate.specs.Granules.{key_ranges};
    ghost use Rattle.predicate.specs.declared.extent.Known.{Known};
    ghost use Rattle.primary_marks.specs.Choosing.{key_at};

    ghost Value = { List Known };

    ghost view = { λ r. key_ranges (key_at r.marks.now r.first) (key_at r.marks.now r.last) };

    ghost invariant = { λ r. (r.first < length r.marks.now) × (r.last < length r.marks.now)
        × (r.columns ≡ length
        (key_ranges (key_at r.marks.now r.first) (key_at r.marks.now r.last))) };
}

impl<'a> KeyRanges<'a> {
    /// What two keys, counted from 0, say of the rows between them. Takes no memory.
    fn between(marks: &'a Marks, first: usize, last: usize) -> KeyRanges<'a>
        requires first { first < length marks.now }
        requires last { last < length marks.now }
        ensures { result ≡ key_ranges (key_at marks.now first) (key_at marks.now last) }
    {
        let columns = ranged_columns(marks, first, last);
        KeyRanges {
            marks,
            first,
            last,
            columns,
        }
    }

    /// The range of a column of the primary key, counted from 0.
    ///
    /// `NoMemory` where an allocation failed.
    fn range(&self, alloc: Global, column: usize) -> Result<Known, NoMemory>
        requires { column < length self.now }
        ensures { IfOk result (λ k. slice_get self.now column ≡ Some k) }
    {
        let least = self.marks.key_cell(self.first, column);
        let greatest = self.marks.key_cell(self.last, column);
        Ok(Known::Range(least.to_value(alloc)?, greatest.to_value(alloc)?))
    }

    /// What is known of the table's column at a place, by the columns of the primary key.
    ///
    /// `NoMemory` where an allocation failed.
    fn known_among(&self, alloc: Global, primary: &[u32], place: usize) -> Result<Known, NoMemory>
        ensures { IfOk result (λ k. k ≡ known_among primary.now self.now place) }
    {
        for (column, own) in primary.iter().enumerate() {
            if column >= self.columns {
                return Ok(Known::Unknown);
            }
            if *own as usize == place {
                return self.range(alloc, column);
            }
        }
        Ok(Known::Unknown)
    }
}

/// How many columns of the primary key have a range between two keys, counted from 0: those up to and with the first in which the
/// two differ.
fn ranged_columns(marks: &Marks, first: usize, last: usize) -> usize
    requires first { first < length marks.now }
    requires last { last < length marks.now }
    ensures { result ≡ length (key_ranges (key_at marks.now first) (key_at marks.now last)) }
{
    let width = marks.width();
    for column in 0..width {
        if cmp_cells(marks.key_cell(first, column), marks.key_cell(last, column)).is_ne() {
            return column + 1;
        }
    }
    width
}

/// Whether each granule of a partition's part may have a row of which the condition is true, by the primary keys that are kept of
/// the part. The others need not be read.
///
/// `NoMemory` where an allocation failed.
pub fn choose(
    alloc: Global,
    schema: &Schema,
    partition: &Partition,
    condition: &Expr<Test>,
    marks: &Marks,
) -> Result<Vec<bool>, NoMemory>
    ensures { IfOk result
        (λ v. v.items ≡ chosen_in schema.now partition.now condition.now marks.now) }
{
    let part = PartKeys {
        schema,
        partition,
        marks,
    };
    let answers = answers(alloc, &part, condition)?;
    let mut chosen = Vec::with_capacity(alloc, answers.len())?;
    for answer in &answers {
        chosen.push_reserved(answer.yes);
    }
    Ok(chosen)
}

/// The boxes of the chosen granules of a partition's part, by the primary keys that are kept of the part, each at its granule's place; of
/// another granule there is one that says nothing. So many conditions are asked of boxes that are made once.
///
/// `NoMemory` where an allocation failed.
pub fn boxes_where(
    alloc: Global,
    schema: &Schema,
    partition: &Partition,
    marks: &Marks,
    chosen: &[bool],
) -> Result<Seq<Extent>, NoMemory>
    ensures { IfOk result (λ boxes. boxes
        ≡ boxes_where (boxes_of schema.now partition.now marks.now) chosen.now) }
{
    let part = PartKeys {
        schema,
        partition,
        marks,
    };
    let granules = marks.granules();
    let mut boxes = Seq::new(alloc);
    for (granule, is_chosen) in chosen.iter().enumerate() {
        if granule >= granules {
            return Ok(boxes);
        }
        boxes.push(granule_box(alloc, &part, granule, *is_chosen)?)?;
    }
    Ok(boxes)
}

/// The box of a granule, where it is chosen; else one that says nothing.
///
/// `NoMemory` where an allocation failed.
fn granule_box(
    alloc: Global,
    part: &PartKeys,
    granule: usize,
    is_chosen: bool,
) -> Result<Extent, NoMemory>
    requires { granule + 1 < length part.now.marks.now }
    ensures { IfOk result (λ e. e ≡ box_where is_chosen
        (box_between part.now.schema.now part.now.partition.now
        (key_at part.now.marks.now granule) (key_at part.now.marks.now (granule + 1)))) }
{
    if is_chosen {
        // The place after the granule's is that of a key, so 64 bits count it.
        let keys = part.marks.len();
        let own = KeyRanges::between(part.marks, granule, granule + 1);
        return box_within(alloc, part.schema, part.partition, &own);
    }
    let columns = Seq::new(alloc);
    Ok(Extent { columns })
}

/// What the condition may be in the box of each granule. Those outside of its span are not asked.
///
/// `NoMemory` where an allocation failed.
fn answers(alloc: Global, part: &PartKeys, condition: &Expr<Test>) -> Result<Vec<Can>, NoMemory>
    ensures { IfOk result (λ v. v.items ≡ map (can condition.now) (part_boxes part.now)) }
{
    let span = span_of(part, condition);
    let granules = part.marks.granules();
    let mut answers = Vec::with_capacity(alloc, granules)?;
    for granule in 0..granules {
        if !span.contains(granule) {
            answers.push_reserved(MISSED);
            continue;
        }
        let ranges = KeyRanges::between(part.marks, granule, granule + 1);
        let extent = box_within(alloc, part.schema, part.partition, &ranges)?;
        answers.push_reserved(can(condition, &extent));
    }
    Ok(answers)
}

/// The box of a granule, by what the keys say of it.
///
/// `NoMemory` where an allocation failed.
fn box_within(
    alloc: Global,
    schema: &Schema,
    partition: &Partition,
    ranges: &KeyRanges,
) -> Result<Extent, NoMemory>
    ensures { IfOk result (λ e. e.columns ≡ map (known_at schema.now partition.now ranges.now)
        (range_with_len 0 (length schema.now.columns))) }
{
    let mut columns = Seq::with_capacity(alloc, schema.columns.len())?;
    for place in 0..schema.columns.len() {
        columns.push(known_at(alloc, schema, partition, ranges, place)?)?;
    }
    Ok(Extent { columns })
}

/// What is known of the table's column at a place: of the partition column the partition's number, of the others what the keys say.
///
/// `NoMemory` where an allocation failed.
fn known_at(
    alloc: Global,
    schema: &Schema,
    partition: &Partition,
    ranges: &KeyRanges,
    place: usize,
) -> Result<Known, NoMemory>
    requires { place < length schema.now.columns }
    ensures { IfOk result (λ k. k ≡ known_at schema.now partition.now ranges.now place) }
{
    match partition {
        Partition::Number(number) if parts_at(schema.partition, place) => Ok(known_number(
            schema.columns.at(place).col_type,
            *number,
        )),
        _ => ranges.known_among(alloc, schema.primary.as_slice(), place),
    }
}

/// What is known of a column of a type by the partition's number: that value, where the type has it. Takes no memory.
fn known_number(col_type: ColType, number: u64) -> Known
    ensures { result ≡ known_value (number_value col_type (pos number)) }
{
    match (
        number_value(col_type, number),
        number_value(col_type, number),
    ) {
        (Some(least), Some(greatest)) => Known::Range(least, greatest),
        _ => Known::Unknown,
    }
}

/// The value that a number without sign is in a column of a type, where it is in the type's range. Takes no memory.
fn number_value(col_type: ColType, number: u64) -> Option<Value>
    ensures { result ≡ number_value col_type (pos number) }
{
    Some(match col_type {
        ColType::UInt8 => Value::UInt8(u8::try_from(number).ok()?),
        ColType::UInt16 => Value::UInt16(u16::try_from(number).ok()?),
        ColType::UInt32 => Value::UInt32(u32::try_from(number).ok()?),
        ColType::UInt64 => Value::UInt64(number),
        ColType::Int8 => Value::Int8(i8::try_from(number).ok()?),
        ColType::Int16 => Value::Int16(i16::try_from(number).ok()?),
        ColType::Int32 => Value::Int32(i32::try_from(number).ok()?),
        ColType::Int64 => Value::Int64(i64::try_from(number).ok()?),
        ColType::Text => return None,
    })
}
