// The rows of one key, handed to the rule one by one, and what it leaves of them when another key comes.
ghost use Rattle.std.specs.Prelude.{◌≡◌, ◌∷◌, [], All, IfOk, List};
ghost use Rattle.mt_values.specs.Grid.{AreRowsOf};
ghost use Rattle.mt_values.specs.Order.{HasPlaces};
ghost use Rattle.mt_values.specs.Values.{Row, types_of};
ghost use Rattle.mt_values.specs.declared.value.ColType.{ColType};
ghost use Rattle.part_history.specs.mt_model.Folding.{Leaves};
ghost use Rattle.row_merge.specs.Course.{HoldsKey, TakesIn};

use crate::order::cmp_rows;
use mt_base::NoMemory;
use mt_values::Row;
use rule_replacing::rule_law::RowRule;
use std::alloc::Global;

/// Rows of one key that were handed to the rule: the first of them, and what the rule keeps of all.
#[derive(Drop)]
pub(crate) struct Current<S: Drop> {
    pub(crate) first: Row,
    pub(crate) state: S,
}

/// Hands the next row to the rule. Where it is the first of another key, what is left of the key before it is handed back, else
/// nothing.
///
/// `NoMemory` where an allocation failed.
pub(crate) fn take_in<Q: RowRule>(
    alloc: Global,
    rule: &Q,
    places: &[u32],
    current: Option<Current<Q::State>>,
    row: Row,
) -> Result<(Vec<Row>, Current<Q::State>), NoMemory>
    ensures takes { IfOk result (λ r. (pending : List Row)
        → HoldsKey (Q.holds rule.now) current pending
        → All (Q.takes rule.now) pending → Q.takes rule.now row
        → All (HasPlaces places.now) pending → HasPlaces places.now row
        → TakesIn places.now (Q.run rule.now) (Q.holds rule.now) pending row r.0.items r.1) }
    // Whatever the order of the rows.
    ensures typed { IfOk result (λ r. (pending : List Row) (types : List ColType)
        → HoldsKey (Q.holds rule.now) current pending → All (Q.takes rule.now) pending
        → AreRowsOf types pending → AreRowsOf types r.0.items) }
{
    match current {
        None => Ok((Vec::new(alloc), begin_key(alloc, rule, row)?)),
        Some(held) => {
            if cmp_rows(places, &held.first, &row).is_ne() {
                let kept = rule.end(alloc, held.state)?;
                return Ok((kept, begin_key(alloc, rule, row)?));
            }
            let mut more = held;
            rule.add(alloc, &mut more.state, &row)?;
            Ok((Vec::new(alloc), more))
        }
    }
}

/// The first row of a key, handed to the rule.
///
/// `NoMemory` where an allocation failed.
fn begin_key<Q: RowRule>(alloc: Global, rule: &Q, row: Row) -> Result<Current<Q::State>, NoMemory>
    ensures { IfOk result (λ c. (c.first ≡ row)
        × (Q.takes rule.now row → Q.holds rule.now c.state (row ∷ []))) }
{
    let state = rule.begin(alloc, &row)?;
    Ok(Current { first: row, state })
}

/// What is left of the last key, if any row was handed to the rule.
///
/// `NoMemory` where an allocation failed.
pub(crate) fn end_key<Q: RowRule>(
    alloc: Global,
    rule: &Q,
    current: Option<Current<Q::State>>,
) -> Result<Vec<Row>, NoMemory>
    ensures leaves { IfOk result (λ kept. (pending : List Row)
        → HoldsKey (Q.holds rule.now) current pending → All (Q.takes rule.now) pending
        → Leaves (Q.run rule.now) pending kept.items) }
    ensures typed { IfOk result (λ kept. (pending : List Row) (types : List ColType)
        → HoldsKey (Q.holds rule.now) current pending → All (Q.takes rule.now) pending
        → AreRowsOf types pending → AreRowsOf types kept.items) }
{
    match current {
        None => Ok(Vec::new(alloc)),
        Some(held) => rule.end(alloc, held.state),
    }
}
