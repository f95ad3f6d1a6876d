// The merge of a table's rows, by the rule of its engine (docs/engines.md, "Merges").
ghost use Rattle.std.specs.Prelude.{◌≡◌, All, IfOk};
ghost use Rattle.std.specs.List.{list_all};
ghost use Rattle.mt_base.specs.declared.partition.Partition.{Partition};
ghost use Rattle.part_history.specs.mt_model.History.{IsTableSchema};
ghost use Rattle.part_history.specs.mt_model.Partial.{functions_of};
ghost use Rattle.mt_values.specs.Grid.{AreRowsOf};
ghost use Rattle.mt_values.specs.Schemas.{column_types};
ghost use Rattle.mt_values.specs.Tables.{has_sign};
ghost use Rattle.row_merge.specs.Merged.{ArePartRows, IsMergedOf, inputs_of};

use crate::merging::merge_sorted;
use collapse_rules::{CollapsingRule, VersionedRule};
use mt_base::{NoMemory, Seq, Twin};
use mt_values::{Aggregate, Engine, Row, Schema};
use rule_aggregating::AggregatingRule;
use rule_replacing::{PlainRule, ReplacingRule};
use rule_summing::SummingRule;
use std::alloc::Global;

/// What a merge leaves of the rows of a table's parts, by the rule of the table's engine. It may be no row.
///
/// Where a row lacks the sign that its table asks for, which only damage brings about, no row is folded, so that none is lost.
/// `NoMemory` where an allocation failed.
pub fn merge_rows(alloc: Global, schema: &Schema, inputs: &[Vec<Row>]) -> Result<Vec<Row>, NoMemory>
    ensures merged { IfOk result (λ out. (partition : Partition) → IsTableSchema schema.now
        → All (ArePartRows schema.now partition) (inputs_of inputs.now)
        → IsMergedOf schema.now partition (inputs_of inputs.now) out.items) }
    // Whatever the order of the inputs.
    ensures typed { IfOk result (λ out.
        All (AreRowsOf (column_types schema.now)) (inputs_of inputs.now)
        → AreRowsOf (column_types schema.now) out.items) }
{
    if !are_signed(schema, inputs) {
        return merge_sorted(alloc, inputs, schema, &PlainRule);
    }
    match &schema.engine {
        Engine::Plain => merge_sorted(alloc, inputs, schema, &PlainRule),
        Engine::Replacing(version) => {
            merge_sorted(alloc, inputs, schema, &ReplacingRule { version: *version })
        }
        Engine::Summing(places) => {
            let types = schema.types(alloc)?;
            let places = places.twin(alloc)?;
            merge_sorted(alloc, inputs, schema, &SummingRule { types, places })
        }
        Engine::Collapsing(sign) => {
            merge_sorted(alloc, inputs, schema, &CollapsingRule { sign: *sign })
        }
        Engine::Versioned { sign, version } => {
            let rule = VersionedRule {
                sign: *sign,
                version: *version,
            };
            merge_sorted(alloc, inputs, schema, &rule)
        }
        Engine::Aggregating => {
            let types = schema.types(alloc)?;
            let functions = functions_of(alloc, schema)?;
            merge_sorted(alloc, inputs, schema, &AggregatingRule { types, functions })
        }
    }
}

/// The function of each column, in order, where it has one.
///
/// `NoMemory` where an allocation failed.
pub(crate) fn functions_of(
    alloc: Global,
    schema: &Schema,
) -> Result<Seq<Option<Aggregate>>, NoMemory>
    ensures { IfOk result (λ functions. functions ≡ functions_of schema.now) }
{
    let mut functions = Seq::with_capacity(alloc, schema.columns.len())?;
    for column in schema.columns.as_slice() {
        functions.push(column.function)?;
    }
    Ok(functions)
}

/// Whether each row has a sign of 1 or -1, where the table has a sign.
fn are_signed(schema: &Schema, inputs: &[Vec<Row>]) -> bool
    ensures { result ≡ list_all (λ input. list_all (has_sign schema.now) input.items) inputs.now }
{
    inputs
        .iter()
        .all(|input| have_signs(schema, input.as_slice()))
}

/// Whether each of the rows has a sign of 1 or -1, where the table has a sign.
fn have_signs(schema: &Schema, rows: &[Row]) -> bool
    ensures { result ≡ list_all (has_sign schema.now) rows.now }
{
    rows.iter().all(|row| schema.has_sign(row))
}
