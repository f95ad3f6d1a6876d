// SummingMergeTree: one row of a key stays, with the sums of the summed columns (docs/engines.md, "SummingMergeTree").
ghost use Rattle.std.specs.Prelude.{◌≡◌, [], All, false};
ghost use Rattle.rule_law.specs.mt_model.Rules.{Folds, Run, is_one_of};
ghost use Rattle.mt_values.specs.Values.{types_of};
ghost use Rattle.mt_values.specs.declared.engine.Engine.TheVariants as engine;
ghost use Rattle.rule_law.proofs.OneSum.{summing_keeps, summing_law, summing_types};
ghost use Rattle.rule_summing.specs.Summed.{HasSums};

use crate::sums::{add_row, are_zero, are_zero_in, clear_row};
use mt_base::{NoMemory, Seq, Twin};
use mt_values::{Block, ColType, Row, Value};
use rule_law::RowRule;
use std::alloc::Global;

/// The rule of SummingMergeTree.
#[derive(Drop)]
pub struct SummingRule {
    /// The types of the table's columns, in order.
    pub types: Seq<ColType>,
    /// The places of the summed columns, from 0.
    pub places: Seq<u32>,
}

impl RowRule for SummingRule {
    /// The values of the first row, in the summed columns the sums so far.
    type State = Vec<Value>;

    ghost takes = { λ rule row. types_of row ≡ rule.types };

    ghost run = { λ rule. Run (engine.Summing rule.places) [] };

    ghost folds = { λ rule. Folds (engine.Summing rule.places) [] };

    ghost apart = { λ rule places. All (λ place. is_one_of rule.places place ≡ false) places };

    ghost holds = { λ rule state rows. HasSums rule.places rows state.items };

    ghost keeps = { λ rule places key rows out apart some takes same run.
        summing_keeps rule.places rule.types places key rows out apart same run };

    ghost stays_taken = { λ rule types rows out some taken typed run. (
      summing_types rule.places rule.types rows out taken run,
      summing_types rule.places types rows out typed run,
    ) };

    ghost law = { λ rule rows x out some takes comes leaves.
        summing_law rule.places rule.types rows x out some takes comes leaves };

    ghost engine_of = { λ rule. engine.Summing rule.places };

    ghost functions = { λ rule. [] };

    ghost runs = { λ rule rows out. (λ run. run, λ run. run) };

    // The first row's numbers are added as those of the others are: to the sums of no rows.
    fn begin(&self, alloc: Global, row: &Row) -> Result<Vec<Value>, NoMemory> {
        let mut first = row.twin(alloc)?.into_vec();
        let sums = first.as_mut_slice();
        clear_row(sums, self.places.as_slice());
        add_row(sums, self.places.as_slice(), row);
        Ok(first)
    }

    fn add(&self, _alloc: Global, sums: &mut Vec<Value>, row: &Row) -> Result<(), NoMemory> {
        add_row(sums.as_mut_slice(), self.places.as_slice(), row);
        Ok(())
    }

    fn end(&self, alloc: Global, sums: Vec<Value>) -> Result<Vec<Row>, NoMemory> {
        let mut rows = Vec::new(alloc);
        if are_zero(sums.as_slice(), self.places.as_slice()) {
            return Ok(rows);
        }
        rows.push(Seq::of(sums))?;
        Ok(rows)
    }

    fn stays_alone(&self, block: &Block, at: usize) -> bool {
        !are_zero_in(block, at, self.places.as_slice())
    }

    fn gives_way(&self, _block: &Block, _at: usize, _next: &Block, _place: usize) -> bool {
        false
    }
}
