// Rows of one input that come next of all, taken at once: where the rule keeps each of them they are copied as columns.
//
// The rows of an input in order that come before the first rows of the others are the first of those in memory. Where they end is found in
// steps that double while they succeed and then are halved, so that one row by itself costs one comparison.
ghost use Rattle.std.specs.Prelude.{◌≡◌, ◌-◌, ◌+◌, ◌≤◌, ◌<◌, ◌^◌, ◌++◌, ◌∷◌, [], All, IfOk, MatchOption, OnOk, length};
ghost use Rattle.std.specs.List.{slice_index_or};
ghost use Rattle.std.specs.Ordering.{is_lt, ordering_then};
ghost use Rattle.mt_values.specs.Grid.{AreRowsOf};
ghost use Rattle.mt_values.specs.Order.{key_cmp};
ghost use Rattle.row_merge.specs.Heads.{AreComparable, AreTypedAs, IsNoneAhead, ahead_of};
ghost use Rattle.row_merge.specs.Merging.{AreRanked, RowLeads, ahead_at};
ghost use Rattle.row_merge.specs.Stretches.{HasAnother, LeadsAt, TakesPlace, TakesStretch};

use crate::heads::{Cursor, cmp_rows_of, rank};
use mt_base::NoMemory;
use std::cmp::Ordering;

/// Rows of the block of an input: those from a place up to another.
#[derive(Debug, Clone, Copy)]
pub(crate) struct Stretch {
    pub(crate) input: usize,
    pub(crate) from: usize,
    pub(crate) to: usize,
}

impl Stretch {
    /// How many rows these are.
    pub(crate) fn count(&self) -> usize
        ensures { result ≡ self.now.to - self.now.from }
    {
        self.to.saturating_sub(self.from)
    }
}

/// A row of the block of an input.
#[derive(Debug, Clone, Copy)]
pub(crate) struct Place {
    pub(crate) input: usize,
    pub(crate) at: usize,
}

/// Takes the next rows of all that one input has in memory, side by side: the first of the last of the ranked inputs, and those after it
/// up to one that does not come before the first rows of the others. They stay in its block. None where no input has a row.
///
/// `NoMemory` where an allocation failed; then the cursors can only be given up.
pub(crate) fn take_stretch(
    places: &[u32],
    cursors: &mut [Cursor],
    ranked: &mut Vec<usize>,
) -> Result<Option<Stretch>, NoMemory>
    requires comparable { AreComparable places.now cursors.old }
    requires ranked { AreRanked places.now (ahead_of cursors.old) ranked.old.items }

    // The rows, and what is left.
    ensures takes { IfOk result (λ found. MatchOption found (IsNoneAhead cursors.old cursors.new)
        (TakesStretch places.now cursors.old cursors.new)) }

    // The inputs are ranked again.
    ensures ranked { OnOk result (AreRanked places.now (ahead_of cursors.new) ranked.new.items) }
    ensures types { OnOk result (AreTypedAs cursors.old cursors.new) }
    ensures count { length cursors.new ≡ length cursors.old }
{
    let Some(input) = ranked.pop() else {
        return Ok(None);
    };
    let count = count_leading(places, cursors, ranked, input);
    let from = go_on(&mut cursors[input], count);
    rank(places, cursors, ranked, input)?;
    Ok(Some(Stretch {
        input,
        from,
        to: from + count,
    }))
}

/// Takes the next row of all, which stays in its block; its input has another row in memory after it.
///
/// `NoMemory` where an allocation failed; then the cursors can only be given up.
pub(crate) fn take_place(
    places: &[u32],
    cursors: &mut [Cursor],
    ranked: &mut Vec<usize>,
) -> Result<Place, NoMemory>
    requires comparable { AreComparable places.now cursors.old }
    requires ranked { AreRanked places.now (ahead_of cursors.old) ranked.old.items }
    requires another { HasAnother (ahead_of cursors.old) ranked.old.items }

    // The row, and what is left.
    ensures takes { IfOk result (TakesPlace places.now cursors.old cursors.new) }

    // The inputs are ranked again.
    ensures ranked { OnOk result (AreRanked places.now (ahead_of cursors.new) ranked.new.items) }
    ensures types { OnOk result (AreTypedAs cursors.old cursors.new) }
    ensures count { length cursors.new ≡ length cursors.old }
{
    let Some(input) = ranked.pop() else {
        unreachable!();
    };
    let at = go_on(&mut cursors[input], 1);
    rank(places, cursors, ranked, input)?;
    Ok(Place { input, at })
}

/// Takes this many rows of a cursor that has them, and tells the place of the first.
fn go_on(cursor: &mut Cursor, count: usize) -> usize
    requires { cursor.old.at + count ≤ length cursor.old.block.rows }
    ensures from { result ≡ cursor.old.at }
    ensures moved { cursor.new ≡ record cursor.old { at = cursor.old.at + count } }
    ensures few { result + count < 2 ^ 32 }
    ensures typed { AreRowsOf cursor.old.block.types cursor.old.block.rows }
{
    // Reading the length shows that the rows keep to the types of the columns, and that 32 bits count them.
    let _rows = cursor.block.len();
    let from = cursor.at;
    cursor.at += count;
    from
}

/// How many of an input's rows in memory come next of all, one after another: its first one, and those after it up to one that does not
/// come before the first rows of the others, which are ranked.
fn count_leading(places: &[u32], cursors: &[Cursor], others: &[usize], input: usize) -> usize
    requires comparable { AreComparable places.now cursors.now }
    requires ranked { AreRanked places.now (ahead_of cursors.now) (others.now ++ input ∷ []) }
    ensures some { 0 < result }
    ensures within { result ≤ length (ahead_at (ahead_of cursors.now) input) }
    ensures leads { RowLeads places.now (ahead_of cursors.now) input others.now
        (slice_index_or (ahead_at (ahead_of cursors.now) input) (result - 1) []) }
{
    let own = &cursors[input];
    let Some(next) = others.last() else {
        return own.block.len() - own.at;
    };
    count_before(places, own, &cursors[*next], input.cmp(next))
}

/// How many rows of a cursor, one after another, come before the first one of another cursor; where two are alike `tie` says which of
/// them comes first. The first of them is known to.
fn count_before(places: &[u32], own: &Cursor, other: &Cursor, tie: Ordering) -> usize
    requires some { own.now.at < length own.now.block.rows }
    requires next { other.now.at < length other.now.block.rows }
    requires own { All (λ place. place < length own.now.block.types) places.now }
    requires other { All (λ place. place < length other.now.block.types) places.now }
    requires leads { LeadsAt places.now own.now other.now tie own.now.at }
    ensures some { 0 < result }
    ensures within { own.now.at + result ≤ length own.now.block.rows }
    ensures leads { LeadsAt places.now own.now other.now tie (own.now.at + result - 1) }
{
    let most = own.block.len() - own.at;
    let mut count = 1;
    let mut step = (most - 1).min(1);
    'steps: while step > 0 {
        if comes_before(places, own, own.at + count + step - 1, other, tie) {
            count += step;
            step = (most - count).min(step + step);
        } else {
            step /= 2;
        }
    }
    count
}

/// Whether a row of a cursor's block comes before the first one of another cursor, where `tie` decides if they are alike.
fn comes_before(places: &[u32], own: &Cursor, at: usize, other: &Cursor, tie: Ordering) -> bool
    requires some { at < length own.now.block.rows }
    requires next { other.now.at < length other.now.block.rows }
    requires own { All (λ place. place < length own.now.block.types) places.now }
    requires other { All (λ place. place < length other.now.block.types) places.now }
    ensures { result ≡ is_lt (ordering_then (key_cmp places.now
        (slice_index_or own.now.block.rows at [])
        (slice_index_or other.now.block.rows other.now.at [])) tie) }
{
    cmp_rows_of(places, &own.block, at, &other.block, other.at)
        .then(tie)
        .is_lt()
}
