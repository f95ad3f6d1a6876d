// What a SELECT may see of a table's rows (docs/definitions.md, "Partly folded rows"; docs/engines.md, "FINAL").
ghost use Rattle.std.specs.Prelude.{◌≡◌, ◌<◌, ◌++◌, IfOk, false, filter, flat_map, length, map, true};
ghost use Rattle.std.specs.List.{list_all};
ghost use Rattle.part_history.specs.mt_model.Folding.{ComesFrom};
ghost use Rattle.part_history.specs.mt_model.Partial as partial;
ghost use Rattle.part_history.specs.mt_model.Rules.{Folds, Run};
ghost use Rattle.mt_plain.specs.Lefts.{AreSeen, KeySees, is_like, unlike};
ghost use Rattle.mt_plain.specs.Outcomes.{AreExactly};

use crate::folding::all_folded;
use crate::merges::all_merged;
use crate::partitions::partition_of;
use crate::rules::{Rows, add_rows, only};
use crate::{Order, compare, same_partition};
use mt_base::{NoMemory, Seq, Twin};
use mt_values::{Aggregate, Engine, Row, Schema};
use std::alloc::Global;

/// Every list that a SELECT may see of a table's rows, but for the order of rows of different keys: those of each key are taken by
/// themselves. With FINAL each key is folded, without it merges may have left it anyhow.
///
/// `NoMemory` where an allocation failed, and as `all_merged` says.
pub fn all_seen(
    alloc: Global,
    schema: &Schema,
    is_final: bool,
    rows: &[Row],
) -> Result<Vec<Rows>, NoMemory>
    ensures { IfOk result (λ lefts. AreSeen schema.now is_final rows.now lefts.items) }
{
    let Some((first, others)) = rows.split_first() else {
        return only(alloc, Seq::new(alloc));
    };
    let own = like(alloc, schema, first, rows)?;
    let rest = unlike(alloc, schema, first, others)?;
    let firsts = seen_of_key(alloc, schema, is_final, first, &own)?;
    let lefts = all_seen(alloc, schema, is_final, &rest)?;
    each_joined(alloc, &firsts, &lefts)
}

/// Every list of rows of a row's key that a SELECT may see of at least one row of that key.
///
/// `NoMemory` where an allocation failed, and as `all_merged` says.
fn seen_of_key(
    alloc: Global,
    schema: &Schema,
    is_final: bool,
    row: &Row,
    own: &[Row],
) -> Result<Vec<Rows>, NoMemory>
    requires { 0 < length own.now }
    ensures { IfOk result (λ outs. AreExactly outs.items
        (λ out. KeySees schema.now is_final own.now out
        × (list_all (is_like schema.now row.now) out ≡ true))) }
{
    let functions = functions_of(alloc, schema)?;
    let lists = lists_of_key(alloc, &schema.engine, &functions, is_final, own)?;
    let mut outs = Vec::new(alloc);
    for list in &lists {
        if are_like(alloc, schema, row, list.as_slice())? {
            outs.push(list.twin(alloc)?)?;
        }
    }
    Ok(outs)
}

/// Every list that FINAL may leave of rows of one key, or without FINAL merges.
///
/// `NoMemory` as `all_merged` says.
fn lists_of_key(
    alloc: Global,
    engine: &Engine,
    functions: &[Option<Aggregate>],
    is_final: bool,
    own: &[Row],
) -> Result<Vec<Rows>, NoMemory>
    ensures folded { is_final ≡ true → IfOk result
        (λ lists. AreExactly lists.items (Folds engine.now functions.now own.now)) }
    ensures merged { is_final ≡ false → IfOk result (λ lists. AreExactly lists.items
        (ComesFrom (Run engine.now functions.now) own.now)) }
{
    if is_final {
        return all_folded(alloc, engine, functions, own);
    }
    all_merged(alloc, engine, functions, own)
}

/// The function of each column, where it has one.
///
/// `NoMemory` where an allocation failed.
fn functions_of(alloc: Global, schema: &Schema) -> Result<Vec<Option<Aggregate>>, NoMemory>
    ensures { IfOk result
        (λ functions. functions.items ≡ partial.functions_of schema.now) }
{
    let mut functions = Vec::new(alloc);
    let columns = schema.columns.as_slice();
    for column in columns {
        functions.push(column.function)?;
    }
    Ok(functions)
}

/// The rows of a row's partition and key, in their order.
///
/// `NoMemory` where an allocation failed.
fn like(alloc: Global, schema: &Schema, row: &Row, rows: &[Row]) -> Result<Vec<Row>, NoMemory>
    ensures { IfOk result (λ own. own.items ≡ filter (is_like schema.now row.now) rows.now) }
{
    let mut own = Vec::new(alloc);
    for other in rows {
        if is_like(alloc, schema, row, other)? {
            own.push(other.twin(alloc)?)?;
        }
    }
    Ok(own)
}

/// The rows of other partitions and keys than a row's, in their order.
///
/// `NoMemory` where an allocation failed.
fn unlike(alloc: Global, schema: &Schema, row: &Row, rows: &[Row]) -> Result<Vec<Row>, NoMemory>
    ensures { IfOk result (λ rest. rest.items ≡ unlike schema.now row.now rows.now) }
{
    let mut rest = Vec::new(alloc);
    for other in rows {
        if !is_like(alloc, schema, row, other)? {
            rest.push(other.twin(alloc)?)?;
        }
    }
    Ok(rest)
}

/// Whether each of some rows is of a row's partition and key.
///
/// `NoMemory` where an allocation failed.
fn are_like(alloc: Global, schema: &Schema, row: &Row, rows: &[Row]) -> Result<bool, NoMemory>
    ensures { IfOk result (λ same. same ≡ list_all (is_like schema.now row.now) rows.now) }
{
    for other in rows {
        if !is_like(alloc, schema, row, other)? {
            return Ok(false);
        }
    }
    Ok(true)
}

/// Whether a row is of another row's partition and key.
///
/// `NoMemory` where an allocation failed.
fn is_like(alloc: Global, schema: &Schema, row: &Row, other: &Row) -> Result<bool, NoMemory>
    ensures { IfOk result (λ same. same ≡ is_like schema.now row.now other.now) }
{
    let alike = compare(alloc, Order::Table(schema), row, other)?.is_eq();
    let own = partition_of(schema, row);
    Ok(same_partition(partition_of(schema, other), own) && alike)
}

/// Each of some lists with each of others after it.
///
/// `NoMemory` where an allocation failed.
fn each_joined(alloc: Global, firsts: &[Rows], lists: &[Rows]) -> Result<Vec<Rows>, NoMemory>
    ensures { IfOk result (λ outs. outs.items
        ≡ flat_map (λ first. map (λ list. first ++ list) lists.now) firsts.now) }
{
    let mut outs = Vec::new(alloc);
    for first in firsts {
        let mut more = joined(alloc, first.as_slice(), lists)?;
        outs.append(&mut more)?;
    }
    Ok(outs)
}

/// Rows with each of some lists after them.
///
/// `NoMemory` where an allocation failed.
fn joined(alloc: Global, front: &[Row], lists: &[Rows]) -> Result<Vec<Rows>, NoMemory>
    ensures { IfOk result (λ outs. outs.items ≡ map (λ list. front.now ++ list) lists.now) }
{
    let mut outs = Vec::new(alloc);
    for list in lists {
        outs.push(one_after(alloc, front, list.as_slice())?)?;
    }
    Ok(outs)
}

/// Rows and then others.
///
/// `NoMemory` where an allocation failed.
fn one_after(alloc: Global, front: &[Row], back: &[Row]) -> Result<Rows, NoMemory>
    ensures { IfOk result (λ rows. rows ≡ front.now ++ back.now) }
{
    let mut rows = Seq::new(alloc);
    add_rows(alloc, &mut rows, front)?;
    add_rows(alloc, &mut rows, back)?;
    Ok(rows)
}
