// What one merge may leave of rows of one key, by each engine's rule (docs/engines.md).
ghost use Rattle.std.specs.Prelude.{◌≡◌, ◌++◌, ◌∷◌, [], IfOk, OnOk};
ghost use Rattle.part_history.specs.mt_model.Rules.{Run};
ghost use Rattle.mt_plain.specs.Outcomes.{AreExactly};

use crate::aggregates::aggregates_left;
use crate::collapsing::{collapsed_left, one_sign_left};
use crate::replacing::{last_left, newest_left};
use crate::sums::sums_left;
use mt_base::{NoMemory, Seq, Twin};
use mt_values::{Aggregate, Engine, Row};
use std::alloc::Global;

/// Rows that are left together.
pub type Rows = Seq<Row>;

/// Every list of rows that one merge may leave of rows of one key, where the columns have these functions.
///
/// `NoMemory` where an allocation failed, or where a sum needs more than 128 bits: no memory holds that many rows.
pub fn runs(
    alloc: Global,
    engine: &Engine,
    functions: &[Option<Aggregate>],
    rows: &[Row],
) -> Result<Vec<Rows>, NoMemory>
    ensures { IfOk result
        (λ outs. AreExactly outs.items (Run engine.now functions.now rows.now)) }
{
    match engine {
        Engine::Plain => plain_left(alloc, rows),
        Engine::Replacing(None) => last_left(alloc, rows),
        Engine::Replacing(Some(version)) => newest_left(alloc, *version, rows),
        Engine::Summing(places) => sums_left(alloc, places.as_slice(), rows),
        Engine::Collapsing(sign) => collapsed_left(alloc, *sign, rows),
        Engine::Versioned { sign, version: _ } => one_sign_left(alloc, *sign, rows),
        Engine::Aggregating => aggregates_left(alloc, functions, rows),
    }
}

/// All rows are left, in their order.
///
/// `NoMemory` where an allocation failed.
fn plain_left(alloc: Global, rows: &[Row]) -> Result<Vec<Rows>, NoMemory>
    ensures { IfOk result (λ outs. AreExactly outs.items (λ out. out ≡ rows.now)) }
{
    let own = copied(alloc, rows)?;
    let outs = only(alloc, own)?;
    Ok(outs)
}

/// These rows as the only ones that may be left.
pub(crate) fn only(alloc: Global, rows: Rows) -> Result<Vec<Rows>, NoMemory>
    ensures { IfOk result (λ outs. outs.items ≡ rows ∷ []) }
{
    let mut outs = Vec::new(alloc);
    outs.push(rows)?;
    Ok(outs)
}

/// This row alone.
pub(crate) fn single(alloc: Global, row: Row) -> Result<Rows, NoMemory>
    ensures { IfOk result (λ rows. rows ≡ row ∷ []) }
{
    let mut rows = Seq::new(alloc);
    rows.push(row)?;
    Ok(rows)
}

/// The same rows.
pub(crate) fn copied(alloc: Global, rows: &[Row]) -> Result<Rows, NoMemory>
    ensures { IfOk result (λ own. own ≡ rows.now) }
{
    let mut own = Seq::new(alloc);
    add_rows(alloc, &mut own, rows)?;
    Ok(own)
}

/// Adds copies of rows at the end of others.
pub(crate) fn add_rows(alloc: Global, own: &mut Rows, rows: &[Row]) -> Result<(), NoMemory>
    ensures { OnOk result (own.new ≡ own.old ++ rows.now) }
{
    for row in rows {
        own.push(row.twin(alloc)?)?;
    }
    Ok(())
}
