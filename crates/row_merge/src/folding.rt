// Rows in order, of which those of one key stand side by side, and what the rule leaves of each key's.
ghost use Rattle.std.specs.Prelude.{◌∷◌, All, IfOk, List, length};
ghost use Rattle.mt_values.specs.Grid.{AreRowsOf};
ghost use Rattle.mt_values.specs.declared.value.ColType.{ColType};
ghost use Rattle.row_merge.specs.Merged.{AreOrdered, IsFoldOf, rows_of};

use crate::order::count_up_to;
use mt_base::NoMemory;
use mt_values::Row;
use rule_replacing::rule_law::RowRule;
use std::alloc::Global;

/// What the rule leaves of rows in the order by the columns at these places.
///
/// `NoMemory` where an allocation failed.
pub(crate) fn fold_keys<Q: RowRule>(
    alloc: Global,
    places: &[u32],
    rows: &[&Row],
    rule: &Q,
) -> Result<Vec<Row>, NoMemory>
    ensures folds { IfOk result (λ out. Q.apart rule.now places.now
        → AreOrdered places.now (rows_of rows.now) → All (Q.takes rule.now) (rows_of rows.now)
        → IsFoldOf places.now (Q.run rule.now) (rows_of rows.now) out.items) }
    // Whatever the order of the rows.
    ensures typed { IfOk result (λ out. (types : List ColType)
        → All (Q.takes rule.now) (rows_of rows.now) → AreRowsOf types (rows_of rows.now)
        → AreRowsOf types out.items) }
{
    let mut out = Vec::new(alloc);
    let mut at = 0;
    while at < rows.len() {
        let first = rows[at];
        // None of the later rows comes before the first.
        let later = &rows[at + 1..];
        let count = count_up_to(places, later, first);
        let mut left = fold_key(alloc, rule, first, &later[..count])?;
        out.append(&mut left)?;
        at += 1 + count;
    }
    Ok(out)
}

/// What the rule leaves of the rows of one key.
///
/// `NoMemory` where an allocation failed.
fn fold_key<Q: RowRule>(
    alloc: Global,
    rule: &Q,
    first: &Row,
    others: &[&Row],
) -> Result<Vec<Row>, NoMemory>
    ensures { IfOk result (λ out. All (Q.takes rule.now) (first.now ∷ rows_of others.now)
        → Q.run rule.now (first.now ∷ rows_of others.now) out.items) }
{
    let mut state = rule.begin(alloc, first)?;
    for row in others {
        rule.add(alloc, &mut state, row)?;
    }
    rule.end(alloc, state)
}
