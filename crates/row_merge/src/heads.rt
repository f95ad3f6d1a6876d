// Rows of inputs that were read and not yet taken, and the choice of the input that has the next row.
//
// The inputs that have rows are ranked by their first rows, the least last. An input that goes on with the least row costs one comparison and no move; else its
// place is found by bisection. Keys are compared in their columns.
ghost use Rattle.std.specs.Prelude.{◌≡◌, ◌+◌, ◌≤◌, ◌<◌, ◌↔◌, [], false, true, All, IfOk, IfSome, List, MatchOption, OnOk, Some, length, take, drop, slice_get};
ghost use Rattle.std.specs.List.{slice_index_or, slice_set};
ghost use Rattle.std.specs.Ordering.{is_lt};
ghost use Rattle.std.specs.declared.cmp.Ordering.TheVariants.{Less};
ghost use Rattle.mt_values.specs.Order.{HasPlaces, key_cmp};
ghost use Rattle.mt_values.specs.Values.{types_of};
ghost use Rattle.mt_values.specs.declared.value.ColType.{ColType};
ghost use Rattle.row_merge.specs.Heads.{AreComparable, AreOfTypes, AreTypedAs, IsNoneAhead, IsTypedAs, ahead_of};
ghost use Rattle.row_merge.specs.Merging.{AreOthersRanked, AreRanked, Falls, TakesFirst, ahead_at, lead_cmp};

use mt_base::NoMemory;
use mt_values::{Block, Cell, Row, cmp_cells};
use std::alloc::Global;
use std::cmp::Ordering;

/// Rows of an input that were read: those from a place on are not yet taken.
#[derive(Drop)]
pub(crate) struct Cursor {
    pub(crate) block: Block,
    pub(crate) at: usize,
}

/// Takes the next row of all: the first of the last of the ranked inputs, whose number is told with it. None where no input has a row.
///
/// `NoMemory` where an allocation failed; then the cursors can only be given up.
pub(crate) fn take_row(
    alloc: Global,
    places: &[u32],
    cursors: &mut [Cursor],
    ranked: &mut Vec<usize>,
) -> Result<Option<(usize, Row)>, NoMemory>
    requires comparable { AreComparable places.now cursors.old }
    requires ranked { AreRanked places.now (ahead_of cursors.old) ranked.old.items }

    // The row, and what is left.
    ensures takes { IfOk result (λ found. MatchOption found (IsNoneAhead cursors.old cursors.new)
        (λ f. TakesFirst places.now (ahead_of cursors.old) f.0 f.1 (ahead_of cursors.new))) }
    ensures typed { IfOk result (λ found. IfSome found (λ f. IsTypedAs cursors.old f.1)) }

    // The inputs are ranked again.
    ensures ranked { OnOk result (AreRanked places.now (ahead_of cursors.new) ranked.new.items) }
    ensures types { OnOk result (AreTypedAs cursors.old cursors.new) }
    ensures count { length cursors.new ≡ length cursors.old }
{
    let Some(input) = ranked.pop() else {
        return Ok(None);
    };
    let row = take_first(alloc, &mut cursors[input])?;
    rank(places, cursors, ranked, input)?;
    Ok(Some((input, row)))
}

/// Gives an input that has no row in memory the rows of a block, and puts it among the others where it belongs.
///
/// `NoMemory` where an allocation failed; then the cursors can only be given up.
pub(crate) fn fill(
    places: &[u32],
    cursors: &mut [Cursor],
    ranked: &mut Vec<usize>,
    input: usize,
    block: Block,
) -> Result<(), NoMemory>
    requires comparable { AreComparable places.now cursors.old }
    requires columns { All (λ place. place < length block.types) places.now }
    requires within { input < length cursors.old }
    requires none { ahead_at (ahead_of cursors.old) input ≡ [] }
    requires ranked { AreRanked places.now (ahead_of cursors.old) ranked.old.items }
    ensures rows { ahead_of cursors.new ≡ slice_set (ahead_of cursors.old) input block.rows }
    ensures ranked { OnOk result (AreRanked places.now (ahead_of cursors.new) ranked.new.items) }
    ensures comparable { AreComparable places.now cursors.new }
    ensures types { (types : List ColType) → AreOfTypes types cursors.old → block.types ≡ types
        → AreOfTypes types cursors.new }
    ensures count { length cursors.new ≡ length cursors.old }
{
    cursors[input] = Cursor { block, at: 0 };
    rank(places, cursors, ranked, input)
}

/// Whether a cursor has a row.
pub(crate) fn has_row(cursor: &Cursor) -> bool
    ensures { (result ≡ true) ↔ (cursor.now.at < length cursor.now.block.rows) }
{
    cursor.at < cursor.block.len()
}

/// Takes the first row of a cursor that has one.
///
/// `NoMemory` where there was none for the row or a text of it.
fn take_first(alloc: Global, cursor: &mut Cursor) -> Result<Row, NoMemory>
    requires { cursor.old.at < length cursor.old.block.rows }
    ensures row { IfOk result (λ r. slice_get cursor.old.block.rows cursor.old.at ≡ Some r) }
    ensures typed { IfOk result (λ r. types_of r ≡ cursor.old.block.types) }
    ensures moved { OnOk result (cursor.new ≡ record cursor.old { at = cursor.old.at + 1 }) }
{
    // Reading the length shows that the rows keep to the types of the columns, and that 32 bits count them.
    let _rows = cursor.block.len();
    let row = cursor.block.row(alloc, cursor.at)?;
    cursor.at += 1;
    Ok(row)
}

/// Puts an input that has rows among the others where it belongs; one without rows is left out.
///
/// `NoMemory` where an allocation failed.
pub(crate) fn rank(
    places: &[u32],
    cursors: &[Cursor],
    ranked: &mut Vec<usize>,
    input: usize,
) -> Result<(), NoMemory>
    requires comparable { AreComparable places.now cursors.now }
    requires within { input < length cursors.now }
    requires others { AreOthersRanked places.now (ahead_of cursors.now) input ranked.old.items }
    ensures { OnOk result (AreRanked places.now (ahead_of cursors.now) ranked.new.items) }
{
    let cursor = &cursors[input];
    if cursor.at >= cursor.block.len() {
        return Ok(());
    }
    let place = place_of(places, cursors, ranked, input);
    ranked.insert(place, input)?;
    Ok(())
}

/// The place among ranked inputs where an input goes: it comes before all earlier ones, and not before the others.
pub(crate) fn place_of(places: &[u32], cursors: &[Cursor], ranked: &[usize], input: usize) -> usize
    requires comparable { AreComparable places.now cursors.now }
    requires some { All (λ x. 0 < length (ahead_at (ahead_of cursors.now) x)) ranked.now }
    requires own { 0 < length (ahead_at (ahead_of cursors.now) input) }
    requires falls { Falls (lead_cmp places.now (ahead_of cursors.now)) ranked.now }
    ensures within { result ≤ length ranked.now }
    ensures earlier { All (λ x. lead_cmp places.now (ahead_of cursors.now) input x ≡ Less)
        (take result ranked.now) }
    ensures later { All (λ x. is_lt (lead_cmp places.now (ahead_of cursors.now) input x) ≡ false)
        (drop result ranked.now) }
{
    let mut low = 0;
    let mut high = ranked.len();
    'halves: while low < high {
        // The last ones are tried first.
        let middle = high - 1 - (high - low - 1) / 2;
        if cmp_leads(places, cursors, input, ranked[middle]).is_lt() {
            low = middle + 1;
        } else {
            high = middle;
        }
    }
    low
}

/// The order of two inputs by their first rows, and by their numbers where these are alike.
fn cmp_leads(places: &[u32], cursors: &[Cursor], a: usize, b: usize) -> Ordering
    requires comparable { AreComparable places.now cursors.now }
    requires first { 0 < length (ahead_at (ahead_of cursors.now) a) }
    requires second { 0 < length (ahead_at (ahead_of cursors.now) b) }
    ensures { result ≡ lead_cmp places.now (ahead_of cursors.now) a b }
{
    let first = &cursors[a];
    let second = &cursors[b];
    let found = cmp_rows_of(places, &first.block, first.at, &second.block, second.at);
    if found.is_ne() {
        return found;
    }
    a.cmp(&b)
}

/// The order of two rows of blocks by the columns at these places.
pub(crate) fn cmp_rows_of(
    places: &[u32],
    left: &Block,
    a: usize,
    right: &Block,
    b: usize,
) -> Ordering
    requires first { a < length left.now.rows }
    requires second { b < length right.now.rows }
    requires own { All (λ place. place < length left.now.types) places.now }
    requires other { All (λ place. place < length right.now.types) places.now }
    ensures { result ≡ key_cmp places.now (slice_index_or left.now.rows a [])
        (slice_index_or right.now.rows b []) }
{
    let rows = left.len();
    let others = right.len();
    for place in places {
        let column = left.column(*place as usize);
        let other = right.column(*place as usize);
        prove_eq!(column.len(), rows);
        prove_eq!(other.len(), others);
        let found = cmp_cells(column.at(a), other.at(b));
        if found.is_ne() {
            return found;
        }
    }
    Ordering::Equal
}

/// The order of a row and a row of a block by the columns at these places.
pub(crate) fn cmp_row_with(places: &[u32], row: &Row, block: &Block, at: usize) -> Ordering
    requires there { at < length block.now.rows }
    requires own { HasPlaces places.now row.now }
    requires other { All (λ place. place < length block.now.types) places.now }
    ensures { result ≡ key_cmp places.now row.now (slice_index_or block.now.rows at []) }
{
    let rows = block.len();
    for place in places {
        let value = row.at(*place as usize);
        let column = block.column(*place as usize);
        prove_eq!(column.len(), rows);
        let found = cmp_cells(Cell::of(value), column.at(at));
        if found.is_ne() {
            return found;
        }
    }
    Ordering::Equal
}
