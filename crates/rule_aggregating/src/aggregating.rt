// AggregatingMergeTree: one row of a key stays, each value by the function of its column (docs/engines.md, "AggregatingMergeTree").
ghost use Rattle.std.specs.Prelude.{◌≡◌, [], All, None, Some, length, slice_get};
ghost use Rattle.rule_law.specs.mt_model.Rules.{AreAggregatesFrom, Folds, Run};
ghost use Rattle.mt_values.specs.Values.{types_of};
ghost use Rattle.mt_values.specs.declared.engine.Engine.TheVariants as engine;
ghost use Rattle.rule_law.proofs.Aggregated.{aggregating_keeps, aggregating_law, aggregating_stays};

use crate::folding::{fold_row, read_number};
use mt_base::{NoMemory, Seq, Twin};
use mt_values::{Aggregate, Block, ColType, Row, Value};
use rule_law::RowRule;
use std::alloc::Global;

/// The rule of AggregatingMergeTree.
#[derive(Drop)]
pub struct AggregatingRule {
    /// The types of the table's columns, in order.
    pub types: Seq<ColType>,
    /// The function of each column, in order; none where it has none.
    pub functions: Seq<Option<Aggregate>>,
}

impl RowRule for AggregatingRule {
    /// The values of the row that is left of those that were given.
    type State = Vec<Value>;

    ghost takes = { λ rule row. (types_of row ≡ rule.types)
        × (length rule.functions ≡ length rule.types) };

    ghost run = { λ rule. Run engine.Aggregating rule.functions };

    ghost folds = { λ rule. Folds engine.Aggregating rule.functions };

    ghost apart = { λ rule places. All (λ place. slice_get rule.functions place ≡ Some None) places };

    ghost holds = { λ rule state rows. AreAggregatesFrom 0 rule.functions rows state.items };

    ghost keeps = { λ rule places key rows out apart some takes same run.
        aggregating_keeps rule.types rule.functions places key rows out apart some takes same run };

    ghost stays_taken = { λ rule types rows out some taken typed run.
        aggregating_stays rule.types rule.functions types rows out some taken typed run };

    ghost law = { λ rule rows x out some takes comes leaves.
        aggregating_law rule.types rule.functions rows x out some takes comes leaves };

    ghost engine_of = { λ rule. engine.Aggregating };

    ghost functions = { λ rule. rule.functions };

    ghost runs = { λ rule rows out. (λ run. run, λ run. run) };

    fn begin(&self, alloc: Global, row: &Row) -> Result<Vec<Value>, NoMemory> {
        // Reading each number shows that it is in its type's range.
        for value in row.as_slice() {
            read_number(value);
        }
        let first = row.twin(alloc)?;
        Ok(first.into_vec())
    }

    fn add(&self, alloc: Global, kept: &mut Vec<Value>, row: &Row) -> Result<(), NoMemory> {
        fold_row(alloc, self.functions.as_slice(), kept.as_mut_slice(), row)
    }

    fn end(&self, alloc: Global, kept: Vec<Value>) -> Result<Vec<Row>, NoMemory> {
        let mut rows = Vec::new(alloc);
        rows.push(Seq::of(kept))?;
        Ok(rows)
    }

    fn stays_alone(&self, _block: &Block, _at: usize) -> bool {
        true
    }

    fn gives_way(&self, _block: &Block, _at: usize, _next: &Block, _place: usize) -> bool {
        false
    }
}
