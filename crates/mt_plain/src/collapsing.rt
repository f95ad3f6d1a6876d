// CollapsingMergeTree and VersionedCollapsingMergeTree: rows with the sign -1 take rows with 1 back (docs/engines.md).
ghost use Rattle.std.specs.Prelude.{◌≡◌, ◌&&◌, ◌∷◌, IfOk, filter, if◌then◌else◌, map};
ghost use Rattle.std.specs.List.{list_all};
ghost use Rattle.std.specs.Ordering.{int_eq};
ghost use Rattle.mt_values.specs.Grid.{column_of};
ghost use Rattle.part_history.specs.mt_model.Rules.{IsSublist, LeavesOneSign, alternate, collapsed, ends_with_state, first_of, is_cancel, is_state, last_of, left_of_signs, total};
ghost use Rattle.mt_plain.specs.Outcomes.{AreExactly, has_one_sign, may_be_left};

use crate::columns::values_at;
use crate::rules::{Rows, add_rows, copied, only};
use crate::sums::total_of;
use mt_base::{NoMemory, Seq, Twin};
use mt_values::{Row, Value};
use std::alloc::Global;

/// Whether the sign of the row, at a place from 0, is 1.
fn is_state(row: &Row, sign: u32) -> bool
    ensures { result ≡ is_state sign row.now }
{
    match row.as_slice().get(sign as usize) {
        Some(Value::Int8(number)) => *number == 1,
        _ => false,
    }
}

/// Whether the sign of the row, at a place from 0, is -1.
fn is_cancel(row: &Row, sign: u32) -> bool
    ensures { result ≡ is_cancel sign row.now }
{
    match row.as_slice().get(sign as usize) {
        Some(Value::Int8(number)) => *number == -1,
        _ => false,
    }
}

/// What is left of rows by their signs, as the only rows that may be left.
///
/// `NoMemory` where an allocation failed.
pub(crate) fn collapsed_left(alloc: Global, sign: u32, rows: &[Row]) -> Result<Vec<Rows>, NoMemory>
    ensures { IfOk result (λ outs. AreExactly outs.items (λ out. out ≡ collapsed sign rows.now)) }
{
    let own = collapsed(alloc, sign, rows)?;
    let outs = only(alloc, own)?;
    Ok(outs)
}

/// What is left of rows by their signs.
///
/// `NoMemory` where an allocation failed.
fn collapsed(alloc: Global, sign: u32, rows: &[Row]) -> Result<Rows, NoMemory>
    ensures { IfOk result (λ out. out ≡ collapsed sign rows.now) }
{
    let states = states_of(alloc, sign, rows)?;
    let cancels = cancels_of(alloc, sign, rows)?;
    left_of_signs(alloc, ends_with_state(sign, rows), &states, &cancels)
}

/// The rows with the sign 1, in their order.
///
/// `NoMemory` where an allocation failed.
fn states_of(alloc: Global, sign: u32, rows: &[Row]) -> Result<Vec<Row>, NoMemory>
    ensures { IfOk result (λ states. states.items ≡ filter (is_state sign) rows.now) }
{
    let mut states = Vec::new(alloc);
    for row in rows {
        if is_state(row, sign) {
            states.push(row.twin(alloc)?)?;
        }
    }
    Ok(states)
}

/// The rows with the sign -1, in their order.
///
/// `NoMemory` where an allocation failed.
fn cancels_of(alloc: Global, sign: u32, rows: &[Row]) -> Result<Vec<Row>, NoMemory>
    ensures { IfOk result (λ cancels. cancels.items ≡ filter (is_cancel sign) rows.now) }
{
    let mut cancels = Vec::new(alloc);
    for row in rows {
        if is_cancel(row, sign) {
            cancels.push(row.twin(alloc)?)?;
        }
    }
    Ok(cancels)
}

/// Whether the last row has the sign 1.
fn ends_with_state(sign: u32, rows: &[Row]) -> bool
    ensures { result ≡ ends_with_state sign rows.now }
{
    last_of(rows).iter().any(|row| is_state(row, sign))
}

/// The first row, if there is one.
fn first_of<'a>(rows: &'a [Row]) -> &'a [Row]
    ensures { result.now ≡ first_of rows.now }
{
    &rows[..rows.len().min(1)]
}

/// The last row, if there is one.
fn last_of<'a>(rows: &'a [Row]) -> &'a [Row]
    ensures { result.now ≡ last_of rows.now }
{
    &rows[rows.len().saturating_sub(1)..]
}

/// What is left of these states and cancels, by their numbers and by the sign of the last row.
///
/// `NoMemory` where an allocation failed.
fn left_of_signs(
    alloc: Global,
    state_last: bool,
    states: &[Row],
    cancels: &[Row],
) -> Result<Rows, NoMemory>
    ensures { IfOk result (λ out. out ≡ left_of_signs state_last states.now cancels.now) }
{
    if cancels.len() < states.len() {
        return copied(alloc, last_of(states));
    }
    if states.len() < cancels.len() {
        return copied(alloc, first_of(cancels));
    }
    if !state_last {
        return Ok(Seq::new(alloc));
    }
    let mut out = copied(alloc, first_of(cancels))?;
    add_rows(alloc, &mut out, last_of(states))?;
    Ok(out)
}

/// Some of the rows are left, all of one sign, with the sum of all signs: each choice of rows is tried.
///
/// `NoMemory` where an allocation failed, or where a sum needs more than 128 bits.
pub(crate) fn one_sign_left(alloc: Global, sign: u32, rows: &[Row]) -> Result<Vec<Rows>, NoMemory>
    ensures { IfOk result (λ outs. AreExactly outs.items (LeavesOneSign sign rows.now)) }
{
    let sum = sum_of_signs(alloc, sign, rows)?;
    let choices = sublists(alloc, rows)?;
    let mut outs = Vec::new(alloc);
    for choice in &choices {
        if is_left(alloc, sign, sum, choice.as_slice())? {
            outs.push(choice.twin(alloc)?)?;
        }
    }
    Ok(outs)
}

/// Whether rows are all of one sign, and the sum of their signs is this one.
///
/// `NoMemory` where an allocation failed, or where the sum needs more than 128 bits.
fn is_left(alloc: Global, sign: u32, sum: i128, rows: &[Row]) -> Result<bool, NoMemory>
    ensures { IfOk result (λ left. left ≡ may_be_left sign sum rows.now) }
{
    let own = sum_of_signs(alloc, sign, rows)?;
    Ok(has_one_sign(sign, rows) && own == sum)
}

/// The sum of the signs of rows.
///
/// `NoMemory` where an allocation failed, or where it needs more than 128 bits.
fn sum_of_signs(alloc: Global, sign: u32, rows: &[Row]) -> Result<i128, NoMemory>
    ensures { IfOk result (λ sum. sum ≡ total (column_of sign rows.now)) }
{
    let signs = values_at(alloc, sign as usize, rows)?;
    total_of(signs.as_slice())
}

/// Whether the rows are all states or all cancels.
fn has_one_sign(sign: u32, rows: &[Row]) -> bool
    ensures { result ≡ has_one_sign sign rows.now }
{
    are_states(sign, rows) || are_cancels(sign, rows)
}

/// Whether the rows are all states.
fn are_states(sign: u32, rows: &[Row]) -> bool
    ensures { result ≡ list_all (is_state sign) rows.now }
{
    rows.iter().all(|row| is_state(row, sign))
}

/// Whether the rows are all cancels.
fn are_cancels(sign: u32, rows: &[Row]) -> bool
    ensures { result ≡ list_all (is_cancel sign) rows.now }
{
    rows.iter().all(|row| is_cancel(row, sign))
}

/// Every choice of some of the rows, in their order.
///
/// `NoMemory` where an allocation failed.
fn sublists(alloc: Global, rows: &[Row]) -> Result<Vec<Rows>, NoMemory>
    ensures { IfOk result (λ outs. AreExactly outs.items (λ out. IsSublist out rows.now)) }
{
    let Some((first, others)) = rows.split_first() else {
        return only(alloc, Seq::new(alloc));
    };
    let mut outs = sublists(alloc, others)?;
    let mut more = begun_with(alloc, first, &outs)?;
    outs.append(&mut more)?;
    Ok(outs)
}

/// Each list with a row before its rows.
///
/// `NoMemory` where an allocation failed.
pub(crate) fn begun_with(alloc: Global, first: &Row, lists: &[Rows]) -> Result<Vec<Rows>, NoMemory>
    ensures { IfOk result
        (λ outs. outs.items ≡ map (λ list. first.now ∷ list) lists.now) }
{
    let mut outs = Vec::new(alloc);
    for list in lists {
        outs.push(put_before(alloc, first, list.as_slice())?)?;
    }
    Ok(outs)
}

/// A row and then others.
///
/// `NoMemory` where an allocation failed.
fn put_before(alloc: Global, first: &Row, others: &[Row]) -> Result<Rows, NoMemory>
    ensures { IfOk result (λ rows. rows ≡ first.now ∷ others.now) }
{
    let mut rows = Seq::new(alloc);
    rows.push(first.twin(alloc)?)?;
    add_rows(alloc, &mut rows, others)?;
    Ok(rows)
}

/// Whether the signs of rows are 1, -1, 1 and so on.
pub(crate) fn alternate(sign: u32, rows: &[Row]) -> bool
    ensures { result ≡ alternate sign rows.now }
{
    let mut state = true;
    for row in rows {
        if !has_sign(row, sign, state) {
            return false;
        }
        state = !state;
    }
    true
}

/// Whether the sign of a row is a state's, or a cancel's.
fn has_sign(row: &Row, sign: u32, state: bool) -> bool
    ensures { result ≡ (if state then is_state sign row.now else is_cancel sign row.now) }
{
    if state {
        is_state(row, sign)
    } else {
        is_cancel(row, sign)
    }
}
