// The file of a skip index read back: what is kept of its blocks, or its first fault (docs/formats.md, "Skip indexes").
ghost use Rattle.std.specs.Prelude.{◌≡◌, ◌<◌, ◌≤◌, ◌↔◌, IfErr, IfOk, IsTrue, MatchOption, MatchResult, drop, length};
ghost use Rattle.std.specs.Int.{w32, to_le_bytes};
ghost use Rattle.column_file.specs.byte_numbers.Fronts.{Begins};
ghost use Rattle.mt_values.specs.Cells.{value_of};
ghost use Rattle.skip_index.specs.Blocks.{HasIndex, blocks_bytes, known_bytes};
ghost use Rattle.skip_index.specs.Faults.{ExplainsBlock, ExplainsIndex, ExplainsRange, ExplainsSet, ExplainsValues};
ghost use Rattle.skip_index.specs.Files.{AreBlocksOf, AreReadAt, IsIndexFile, MayCount, MayEnd, MayKeep, block_size, has_more, shape_of};
ghost use Rattle.skip_index.specs.declared.index.Index.{Index as Kept};
ghost use Rattle.mt_values.specs.declared.schema.IndexKind.TheVariants as kind_of;

use crate::index::Index;
use crate::shapes::{BlockShape, IndexShape};
use crate::values::{most_kept, see};
use column_file::byte_numbers::{FormatFault, first_u32};
use column_file::{cell_at, end_at};
use indexmap::IndexSet;
use mt_base::Seq;
use mt_values::{Cell, ColType, IndexKind, Schema, Value, cmp_cells};
use predicate::Known;
use std::alloc::Global;

/// The skip index that the bytes spell, that at a place of the table's, from 0, of a part with this many rows.
///
/// `Malformed` where no rows of that number give these bytes: where a value or a number of values was to begin and none does, at a
/// number that a block cannot have, at a greatest value below the least or beside it of a single row, at a value that is kept
/// twice, or after the last block where the bytes go on. `NoMemory` where an allocation failed.
pub fn read(
    alloc: Global,
    schema: &Schema,
    index: u32,
    bytes: &[u8],
    rows: u64,
) -> Result<Index, FormatFault>
    requires { HasIndex schema.now index }
    ensures read { IfOk result (IsIndexFile (shape_of schema.now index rows) bytes.now) }
    ensures spelled { (kept : Kept) → IsIndexFile (shape_of schema.now index rows) bytes.now kept
        → MatchResult result (λ i. i ≡ kept) (λ e. e ≡ FormatFault.NoMemory) }
    ensures fault { IfErr result (ExplainsIndex (shape_of schema.now index rows) bytes.now) }
{
    let own = schema.indexes.at(index as usize);
    let shape = IndexShape {
        column: own.column,
        col_type: schema.columns.at(own.column as usize).col_type,
        kind: own.kind,
        span: own.granularity,
        granularity: schema.granularity,
        rows,
    };
    Ok(Index {
        column: shape.column,
        span: shape.span,
        granules: rows.div_ceil(u64::from(shape.granularity)) as usize,
        blocks: read_blocks(alloc, shape, bytes)?,
    })
}

/// What is kept of the blocks, as the bytes spell it.
///
/// The errors are those of `read`.
fn read_blocks(alloc: Global, shape: IndexShape, bytes: &[u8]) -> Result<Seq<Known>, FormatFault>
    requires { 0 < block_size shape }
    ensures kept { IfOk result (AreBlocksOf shape) }
    ensures spelled { IfOk result (λ blocks. bytes.now ≡ blocks_bytes blocks) }
    ensures fault { IfErr result (ExplainsIndex shape bytes.now) }
{
    let mut blocks = Seq::new(alloc);
    let mut at = 0;
    for block in 0..shape.block_count() {
        let (known, size) = read_block(alloc, shape.kind, shape.block(block), bytes, at)?;
        blocks.push(known)?;
        at += size;
    }
    end_at(bytes, at)?;
    Ok(blocks)
}

/// What is kept of the block that begins at a place of the bytes, and how many bytes spell it.
///
/// `Malformed` where no such block begins there, at its first fault; `NoMemory` where an allocation failed.
fn read_block(
    alloc: Global,
    kind: IndexKind,
    block: BlockShape,
    bytes: &[u8],
    at: usize,
) -> Result<(Known, usize), FormatFault>
    requires { at ≤ length bytes.now }
    ensures kept { IfOk result (λ p. MayKeep kind block p.0) }
    ensures spelled { IfOk result (λ p. Begins (known_bytes p.0) p.1 (drop at bytes.now)) }
    ensures fault { IfErr result (ExplainsBlock kind block at (drop at bytes.now)) }
{
    match kind {
        IndexKind::MinMax => read_range(alloc, block, bytes, at),
        IndexKind::Set(limit) => read_set(alloc, block, limit, bytes, at),
    }
}

/// The least and the greatest value of the block that begins at a place of the bytes, and how many bytes spell them.
///
/// The errors are those of `read_block`.
fn read_range(
    alloc: Global,
    block: BlockShape,
    bytes: &[u8],
    at: usize,
) -> Result<(Known, usize), FormatFault>
    requires { at ≤ length bytes.now }
    ensures kept { IfOk result (λ p. MayKeep kind_of.MinMax block p.0) }
    ensures spelled { IfOk result (λ p. Begins (known_bytes p.0) p.1 (drop at bytes.now)) }
    ensures fault { IfErr result (ExplainsRange block at (drop at bytes.now)) }
{
    let (least, first) = cell_at(block.col_type, bytes, at)?;
    let (greatest, second) = cell_at(block.col_type, bytes, at + first)?;
    if !may_end(block.rows, least, greatest) {
        return Err(FormatFault::Malformed {
            place: (at + first) as u64,
        });
    }
    let range = Known::Range(least.to_value(alloc)?, greatest.to_value(alloc)?);
    Ok((range, first + second))
}

/// Whether a value may be the greatest of so many rows of which this is the least.
fn may_end(rows: u64, least: Cell, greatest: Cell) -> bool
    ensures { IsTrue result ↔ MayEnd rows (value_of least.entry) (value_of greatest.entry) }
{
    let order = cmp_cells(least, greatest);
    if rows == 1 {
        return order.is_eq();
    }
    order.is_le()
}

/// The distinct values of the block that begins at a place of the bytes, and how many bytes spell them.
///
/// The errors are those of `read_block`.
fn read_set(
    alloc: Global,
    block: BlockShape,
    limit: u64,
    bytes: &[u8],
    at: usize,
) -> Result<(Known, usize), FormatFault>
    requires { at ≤ length bytes.now }
    ensures kept { IfOk result (λ p. MayKeep (kind_of.Set limit) block p.0) }
    ensures spelled { IfOk result (λ p. Begins (known_bytes p.0) p.1 (drop at bytes.now)) }
    ensures fault { IfErr result (ExplainsSet block limit at (drop at bytes.now)) }
{
    let wrong = FormatFault::Malformed { place: at as u64 };
    let Some(count) = first_count(&bytes[at..]) else {
        return Err(wrong);
    };
    if !may_count(block, limit, count) {
        return Err(wrong);
    }
    if count == 0 {
        return Ok((Known::Unknown, 4));
    }
    let (values, size) = read_values(alloc, block.col_type, count, bytes, at + 4)?;
    Ok((Known::List(values), size + 4))
}

/// The number in the first four bytes.
///
/// `None` where there are fewer.
fn first_count(bytes: &[u8]) -> Option<u32>
    ensures { MatchOption result (length bytes.now < 4)
        (λ n. Begins (to_le_bytes w32 n) 4 bytes.now) }
{
    if bytes.len() < 4 {
        return None;
    }
    Some(first_u32(bytes))
}

/// Whether a block of a set may tell this number of values.
fn may_count(block: BlockShape, limit: u64, count: u32) -> bool
    ensures { IsTrue result ↔ MayCount block limit count }
{
    let most = most_kept(limit);
    let count = u64::from(count);
    if count == 0 {
        return most < block.rows && has_more(block.col_type, most);
    }
    count <= most && count <= block.rows && has_more(block.col_type, count - 1)
}

/// Whether the type has more than this many values.
fn has_more(col_type: ColType, number: u64) -> bool
    ensures { result ≡ has_more col_type number }
{
    match col_type {
        ColType::UInt8 | ColType::Int8 => number <= u64::from(u8::MAX),
        ColType::UInt16 | ColType::Int16 => number <= u64::from(u16::MAX),
        ColType::UInt32 | ColType::Int32 => number <= u64::from(u32::MAX),
        ColType::UInt64 | ColType::Int64 | ColType::Text => true,
    }
}

/// So many distinct values that begin at a place of the bytes, and how many bytes spell them.
///
/// `Malformed` at the first that is not there or not new; `NoMemory` where an allocation failed.
fn read_values(
    alloc: Global,
    col_type: ColType,
    count: u32,
    bytes: &[u8],
    at: usize,
) -> Result<(Seq<Value>, usize), FormatFault>
    requires { at ≤ length bytes.now }
    ensures read { IfOk result (λ p. AreReadAt col_type count (drop at bytes.now) p.0 p.1) }
    ensures fault { IfErr result (ExplainsValues col_type count at (drop at bytes.now)) }
{
    let mut seen = IndexSet::new(alloc);
    let mut values = Seq::new(alloc);
    let mut size = 0;
    for _value in 0..count {
        let (cell, width) = cell_at(col_type, bytes, at + size)?;
        let is_new = see(&mut seen, cell)?;
        if !is_new {
            return Err(FormatFault::Malformed {
                place: (at + size) as u64,
            });
        }
        values.push(cell.to_value(alloc)?)?;
        size += width;
    }
    Ok((values, size))
}
