// MergeTree: all rows of a key stay, in their order (docs/engines.md, "MergeTree").
ghost use Rattle.std.specs.Prelude.{◌≡◌, []};
ghost use Rattle.rule_law.specs.mt_model.Rules.{Folds, Run};
ghost use Rattle.mt_values.specs.declared.engine.Engine.TheVariants as engine;
ghost use Rattle.mt_values.specs.Order.{key_of};
ghost use Rattle.mt_values.specs.Values.{types_of};
ghost use Rattle.rule_law.proofs.AllRows.{plain_law};
ghost use Rattle.rule_law.proofs.Kept.{plain_keeps};

use mt_base::{NoMemory, Twin};
use mt_values::{Block, Row};
use rule_law::RowRule;
use std::alloc::Global;

/// The rule of MergeTree.
#[derive(Clone, Copy)]
pub struct PlainRule;

impl RowRule for PlainRule {
    type State = Vec<Row>;

    ghost takes = { λ rule row. Unit {0} };

    ghost run = { λ rule. Run engine.Plain [] };

    ghost folds = { λ rule. Folds engine.Plain [] };

    ghost apart = { λ rule places. Unit {0} };

    ghost holds = { λ rule state rows. state.items ≡ rows };

    ghost keeps = { λ rule places key rows out apart some takes all run. plain_keeps (λ r. key_of places r ≡ key) rows out all run };

    ghost stays_taken = { λ rule types rows out some taken typed run. (λ k d below. tt, plain_keeps (λ r. types_of r ≡ types) rows out typed run) };

    ghost law = { λ rule rows x out some takes comes leaves. plain_law rows x out some comes leaves };

    ghost engine_of = { λ rule. engine.Plain };

    ghost functions = { λ rule. [] };

    ghost runs = { λ rule rows out. (λ run. run, λ run. run) };

    fn begin(&self, alloc: Global, row: &Row) -> Result<Vec<Row>, NoMemory> {
        let mut kept = Vec::new(alloc);
        kept.push(row.twin(alloc)?)?;
        Ok(kept)
    }

    fn add(&self, alloc: Global, rows: &mut Vec<Row>, row: &Row) -> Result<(), NoMemory> {
        rows.push(row.twin(alloc)?)?;
        Ok(())
    }

    fn end(&self, _alloc: Global, rows: Vec<Row>) -> Result<Vec<Row>, NoMemory> {
        Ok(rows)
    }

    fn stays_alone(&self, _block: &Block, _at: usize) -> bool {
        true
    }

    fn gives_way(&self, _block: &Block, _at: usize, _next: &Block, _place: usize) -> bool {
        false
    }
}
