// CollapsingMergeTree: what is left is told by the numbers of both signs and by the last row (docs/engines.md, "CollapsingMergeTree").
ghost use Rattle.std.specs.Prelude.{◌≡◌, ◌+◌, ◌++◌, ◌∷◌, [], IfOk, List, OnOk, option_to_list};
ghost use Rattle.mt_values.specs.Values.{Row, types_of};
ghost use Rattle.rule_law.specs.mt_model.Rules.{Folds, HasSign, Run};
ghost use Rattle.mt_values.specs.declared.engine.Engine.TheVariants as engine;
ghost use Rattle.mt_values.specs.Order.{key_of};
ghost use Rattle.collapse_rules.specs.Counted.{IsCounted};
ghost use Rattle.rule_law.proofs.Alternating.{collapsing_law};
ghost use Rattle.rule_law.proofs.Kept.{collapsing_keeps};

use crate::signs::is_state;
use mt_base::{NoMemory, Twin};
use mt_values::{Block, Row};
use rule_law::RowRule;
use std::alloc::Global;

/// The rule of CollapsingMergeTree.
#[derive(Clone, Copy)]
pub struct CollapsingRule {
    /// The place of the sign's column, from 0.
    pub sign: u32,
}

/// What is kept of the rows of a key.
#[derive(Drop)]
pub struct Counted {
    /// How many rows have the sign 1.
    states: u64,
    /// How many rows have the sign -1.
    cancels: u64,
    /// The first row with the sign -1.
    first_cancel: Option<Row>,
    /// The last row with the sign 1.
    last_state: Option<Row>,
    /// Whether the last row has the sign 1.
    ended: bool,
}

impl RowRule for CollapsingRule {
    type State = Counted;

    ghost takes = { λ rule row. HasSign rule.sign row };

    ghost run = { λ rule. Run (engine.Collapsing rule.sign) [] };

    ghost folds = { λ rule. Folds (engine.Collapsing rule.sign) [] };

    ghost apart = { λ rule places. Unit {0} };

    ghost holds = { λ rule state rows. IsCounted rule.sign rows state };

    ghost keeps = { λ rule places key rows out apart some takes all run. collapsing_keeps (λ r. key_of places r ≡ key) rule.sign rows out all run };

    ghost stays_taken = { λ rule types rows out some taken typed run. (
      collapsing_keeps (HasSign rule.sign) rule.sign rows out taken run,
      collapsing_keeps (λ r. types_of r ≡ types) rule.sign rows out typed run,
    ) };

    ghost law = { λ rule rows x out some takes comes leaves. collapsing_law rule.sign rows x out some comes leaves };

    ghost engine_of = { λ rule. engine.Collapsing rule.sign };

    ghost functions = { λ rule. [] };

    ghost runs = { λ rule rows out. (λ run. run, λ run. run) };

    fn begin(&self, alloc: Global, row: &Row) -> Result<Counted, NoMemory> {
        let mut counted = Counted {
            states: 0,
            cancels: 0,
            first_cancel: None,
            last_state: None,
            ended: false,
        };
        counted.count(alloc, self.sign, row)?;
        Ok(counted)
    }

    fn add(&self, alloc: Global, counted: &mut Counted, row: &Row) -> Result<(), NoMemory> {
        counted.count(alloc, self.sign, row)
    }

    fn end(&self, alloc: Global, counted: Counted) -> Result<Vec<Row>, NoMemory> {
        let Counted {
            states,
            cancels,
            first_cancel,
            last_state,
            ended,
        } = counted;
        let mut rows = Vec::new(alloc);
        if cancels < states {
            add_kept(&mut rows, last_state)?;
            return Ok(rows);
        }
        if states < cancels {
            add_kept(&mut rows, first_cancel)?;
            return Ok(rows);
        }
        if ended {
            add_kept(&mut rows, first_cancel)?;
            add_kept(&mut rows, last_state)?;
        }
        Ok(rows)
    }

    fn stays_alone(&self, _block: &Block, _at: usize) -> bool {
        true
    }

    fn gives_way(&self, _block: &Block, _at: usize, _next: &Block, _place: usize) -> bool {
        false
    }
}

impl Counted {
    /// Counts one more row.
    ///
    /// `NoMemory` where an allocation failed; no memory holds more rows than 64 bits count.
    fn count(&mut self, alloc: Global, sign: u32, row: &Row) -> Result<(), NoMemory>
        ensures { OnOk result ((rows : List Row) → IsCounted sign rows self.old
            → HasSign sign row.now → IsCounted sign (rows ++ row.now ∷ []) self.new) }
    {
        if is_state(row, sign) {
            self.states = one_more(self.states)?;
            self.last_state = Some(row.twin(alloc)?);
            self.ended = true;
            return Ok(());
        }
        self.cancels = one_more(self.cancels)?;
        self.ended = false;
        if self.first_cancel.is_none() {
            self.first_cancel = Some(row.twin(alloc)?);
        }
        Ok(())
    }
}

/// The number after a number of rows.
///
/// `NoMemory` where 64 bits do not hold it: no memory holds that many rows.
fn one_more(count: u64) -> Result<u64, NoMemory>
    ensures { IfOk result (λ n. n ≡ count + 1) }
{
    match count.checked_add(1) {
        Some(more) => Ok(more),
        None => Err(NoMemory),
    }
}

/// Adds a row that is kept, where there is one.
///
/// `NoMemory` where the allocation failed.
fn add_kept(rows: &mut Vec<Row>, kept: Option<Row>) -> Result<(), NoMemory>
    ensures { OnOk result (rows.new.items ≡ rows.old.items ++ option_to_list kept) }
{
    if let Some(row) = kept {
        rows.push(row)?;
    }
    Ok(())
}
