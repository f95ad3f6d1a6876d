// VersionedCollapsingMergeTree: pairs of different sign are deleted, whatever their order (docs/engines.md, "VersionedCollapsingMergeTree").
ghost use Rattle.std.specs.Prelude.{◌≡◌, []};
ghost use Rattle.rule_law.specs.mt_model.Rules.{Folds, HasSign, Run};
ghost use Rattle.mt_values.specs.declared.engine.Engine.TheVariants as engine;
ghost use Rattle.mt_values.specs.Order.{key_of};
ghost use Rattle.mt_values.specs.Values.{types_of};
ghost use Rattle.rule_law.proofs.Kept.{versioned_keeps};
ghost use Rattle.rule_law.proofs.OneSign.{versioned_law};

use crate::signs::is_state;
use mt_base::{NoMemory, Twin};
use mt_values::{Block, Row};
use rule_law::RowRule;
use std::alloc::Global;

/// The rule of VersionedCollapsingMergeTree, of rows of one version.
#[derive(Clone, Copy)]
pub struct VersionedRule {
    /// The place of the sign's column, from 0.
    pub sign: u32,
    /// The place of the version's column, from 0.
    pub version: u32,
}

impl RowRule for VersionedRule {
    /// The rows that are left, all of one sign.
    type State = Vec<Row>;

    ghost takes = { λ rule row. HasSign rule.sign row };

    ghost run = { λ rule. Run (engine.Versioned rule.sign rule.version) [] };

    ghost folds = { λ rule. Folds (engine.Versioned rule.sign rule.version) [] };

    ghost apart = { λ rule places. Unit {0} };

    ghost holds = { λ rule state rows. Run (engine.Versioned rule.sign rule.version) [] rows state.items };

    ghost keeps = { λ rule places key rows out apart some takes all run. versioned_keeps (λ r. key_of places r ≡ key) rule.sign rule.version rows out all run };

    ghost stays_taken = { λ rule types rows out some taken typed run. (
      versioned_keeps (HasSign rule.sign) rule.sign rule.version rows out taken run,
      versioned_keeps (λ r. types_of r ≡ types) rule.sign rule.version rows out typed run,
    ) };

    ghost law = { λ rule rows x out some takes comes leaves. versioned_law rule.sign rule.version rows x out some comes leaves };

    ghost engine_of = { λ rule. engine.Versioned rule.sign rule.version };

    ghost functions = { λ rule. [] };

    ghost runs = { λ rule rows out. (λ run. run, λ run. run) };

    #[tactic(auto, using(crate::proofs::Pairs::one_left))]
    fn begin(&self, alloc: Global, row: &Row) -> Result<Vec<Row>, NoMemory> {
        let mut kept = Vec::new(alloc);
        kept.push(row.twin(alloc)?)?;
        Ok(kept)
    }

    #[tactic(auto, using(crate::proofs::Pairs::none_before, crate::proofs::Pairs::alike_left, crate::proofs::Pairs::pair_gone))]
    fn add(&self, alloc: Global, kept: &mut Vec<Row>, row: &Row) -> Result<(), NoMemory> {
        let Some(last) = kept.pop() else {
            kept.push(row.twin(alloc)?)?;
            return Ok(());
        };
        if is_state(&last, self.sign) == is_state(row, self.sign) {
            kept.push(last)?;
            kept.push(row.twin(alloc)?)?;
        }
        Ok(())
    }

    fn end(&self, _alloc: Global, kept: Vec<Row>) -> Result<Vec<Row>, NoMemory> {
        Ok(kept)
    }

    fn stays_alone(&self, _block: &Block, _at: usize) -> bool {
        true
    }

    fn gives_way(&self, _block: &Block, _at: usize, _next: &Block, _place: usize) -> bool {
        false
    }
}
