// ReplacingMergeTree: the last row of a key stays, or the last of those with the greatest version (docs/engines.md, "ReplacingMergeTree").
ghost use Rattle.std.specs.Prelude.{◌≡◌, ◌<◌, ◌∷◌, [], IsTrue, ◌↔◌, ◌≤◌, None, Some, length};
ghost use Rattle.std.specs.List.{slice_index_or};
ghost use Rattle.rule_law.specs.mt_model.Rules.{Folds, Run};
ghost use Rattle.mt_values.specs.declared.engine.Engine.TheVariants as engine;
ghost use Rattle.mt_values.specs.Order.{key_of};
ghost use Rattle.mt_values.specs.Values.{types_of};
ghost use Rattle.rule_replacing.specs.Replaced.{replaces};
ghost use Rattle.rule_law.proofs.Kept.{replacing_keeps};
ghost use Rattle.rule_law.proofs.OneRow.{replacing_law};

use mt_base::{NoMemory, Twin};
use mt_values::{Block, Row};
use rule_law::{RowRule, version_in, version_of};
use std::alloc::Global;

/// The rule of ReplacingMergeTree.
#[derive(Clone, Copy)]
pub struct ReplacingRule {
    /// The place of the version's column, from 0, where the table has one.
    pub version: Option<u32>,
}

impl RowRule for ReplacingRule {
    type State = Row;

    ghost takes = { λ rule row. Unit {0} };

    ghost run = { λ rule. Run (engine.Replacing rule.version) [] };

    ghost folds = { λ rule. Folds (engine.Replacing rule.version) [] };

    ghost apart = { λ rule places. Unit {0} };

    ghost holds = { λ rule state rows. Run (engine.Replacing rule.version) [] rows (state ∷ []) };

    ghost keeps = { λ rule places key rows out apart some takes all run. replacing_keeps (λ r. key_of places r ≡ key) rule.version rows out all run };

    ghost stays_taken = { λ rule types rows out some taken typed run. (λ k d below. tt, replacing_keeps (λ r. types_of r ≡ types) rule.version rows out typed run) };

    ghost law = { λ rule rows x out some takes comes leaves. replacing_law rule.version rows x out some comes leaves };

    ghost engine_of = { λ rule. engine.Replacing rule.version };

    ghost functions = { λ rule. [] };

    ghost runs = { λ rule rows out. (λ run. run, λ run. run) };

    #[tactic(auto, using(crate::proofs::KeptRow::kept_first))]
    fn begin(&self, alloc: Global, row: &Row) -> Result<Row, NoMemory> {
        let kept = row.twin(alloc)?;
        Ok(kept)
    }

    fn add(&self, alloc: Global, kept: &mut Row, row: &Row) -> Result<(), NoMemory> {
        if replaces(self.version, kept, row) {
            *kept = row.twin(alloc)?;
        }
        Ok(())
    }

    fn end(&self, alloc: Global, kept: Row) -> Result<Vec<Row>, NoMemory> {
        let mut rows = Vec::new(alloc);
        rows.push(kept)?;
        Ok(rows)
    }

    fn stays_alone(&self, _block: &Block, _at: usize) -> bool {
        true
    }

    fn gives_way(&self, block: &Block, at: usize, next: &Block, place: usize) -> bool {
        replaces_in(self.version, block, at, next, place)
    }
}

/// Whether a row that comes after the one that is kept is kept in its place: always without a version, else where its version is
/// not the less.
fn replaces(version: Option<u32>, kept: &Row, row: &Row) -> bool
    ensures { result ≡ replaces version kept.now row.now }
{
    match version {
        None => true,
        Some(place) => version_of(kept, place) <= version_of(row, place),
    }
}

/// The same of rows of blocks, which are not made rows of their own.
fn replaces_in(version: Option<u32>, block: &Block, at: usize, next: &Block, place: usize) -> bool
    requires own { at < length block.now.rows }
    requires other { place < length next.now.rows }
    ensures { result ≡ replaces version (slice_index_or block.now.rows at [])
        (slice_index_or next.now.rows place []) }
{
    let Some(column) = version else {
        return true;
    };
    version_in(block, at, column) <= version_in(next, place, column)
}
