// The rule of an engine, as merges and reads with FINAL call it (docs/engines.md, "Merges").
ghost use Rattle.std.specs.Prelude.{◌≡◌, ◌↔◌, ◌<◌, ◌++◌, ◌∷◌, [], ℕ, true, All, IfOk, List, OnOk, Option, length};
ghost use Rattle.std.specs.List.{slice_index_or};
ghost use Rattle.mt_model.specs.Folding.{ComesFrom, Leaves};
ghost use Rattle.mt_model.specs.History.{IsTableSchema};
ghost use Rattle.mt_model.specs.Mutations.{IsChangeOf};
ghost use Rattle.mt_model.specs.Rules.{Run};
ghost use Rattle.mt_values.specs.Grid.{AreRowsOf};
ghost use Rattle.mt_values.specs.Order.{key_of};
ghost use Rattle.mt_values.specs.Tables.{sorting_columns};
ghost use Rattle.mt_values.specs.Values.{FitsType, Row};
ghost use Rattle.mt_values.specs.declared.change.Change.{Change};
ghost use Rattle.mt_values.specs.declared.engine.Aggregate.{Aggregate};
ghost use Rattle.mt_values.specs.declared.engine.Engine.{Engine};
ghost use Rattle.mt_values.specs.declared.schema.Schema.{Schema};
ghost use Rattle.mt_values.specs.declared.value.ColType.{ColType};
ghost use Rattle.mt_values.specs.declared.value.Value.{Value};
ghost use Rattle.rule_law.specs.Changes.{StaysLeft};
ghost use Rattle.rule_law.specs.TableRows.{IsTableRow};

use mt_base::NoMemory;
use mt_values::{Block, Row};
use std::alloc::Global;

/// What is left of the rows of one key, which are given one by one in their order.
pub trait RowRule {
    /// What is kept of the rows that were given so far.
    type State: Drop;

    /// The rows of which something is promised: those of the table, with signs of 1 or -1.
    ghost takes: { Self → Row → Type 0 };

    /// What one merge may leave of at least one row of one key.
    ghost run: { Self → List Row → List Row → Type 0 };

    /// What FINAL may leave of at least one row of one key.
    ghost folds: { Self → List Row → List Row → Type 0 };

    /// The rule leaves the columns at these places as they are.
    ghost apart: { Self → List ℕ → Type 0 };

    /// The engine whose rule it is.
    ghost engine_of: { Self → Engine };

    /// The functions of the table's columns, where the engine folds by them.
    ghost functions: { Self → List (Option Aggregate) };

    /// A state of these rows.
    ghost holds: { Self → Self.State → List Row → Type 0 };

    /// The state of one row.
    ///
    /// `NoMemory` where an allocation failed.
    fn begin(&self, alloc: Global, row: &Row) -> Result<Self::State, NoMemory>
        ensures { IfOk result (λ state. takes self.now row.now
            → holds self.now state (row.now ∷ [])) };

    /// Gives one more row, which comes after those that were given.
    ///
    /// `NoMemory` where an allocation failed; then the state can only be given up.
    fn add(&self, alloc: Global, state: &mut Self::State, row: &Row) -> Result<(), NoMemory>
        ensures { OnOk result ((rows : List Row) → All (takes self.now) rows
            → takes self.now row.now → holds self.now state.old rows
            → holds self.now state.new (rows ++ row.now ∷ [])) };

    /// What is left of the rows that were given.
    ///
    /// `NoMemory` where an allocation failed.
    fn end(&self, alloc: Global, state: Self::State) -> Result<Vec<Row>, NoMemory>
        ensures { IfOk result (λ out. (rows : List Row) → All (takes self.now) rows
            → holds self.now state rows → run self.now rows out.items) };

    /// Whether a row of a block, with values in the ranges of their types, is all that is left of itself, where no other row has its key. It
    /// need not be told of each such row.
    fn stays_alone(&self, block: &Block, at: usize) -> bool
        requires { at < length block.now.rows }
        ensures { result ≡ true → All FitsType (slice_index_or block.now.rows at [])
            → takes self.now (slice_index_or block.now.rows at [])
            → run self.now (slice_index_or block.now.rows at [] ∷ [])
            (slice_index_or block.now.rows at [] ∷ []) };

    /// Whether a row of a block changes nothing of what is left, where it is the first of its key, and a row of another block the next;
    /// whatever rows come after them. It need not be told of each such row.
    fn gives_way(&self, block: &Block, at: usize, next: &Block, place: usize) -> bool
        requires own { at < length block.now.rows }
        requires other { place < length next.now.rows }
        ensures { result ≡ true → (rows kept : List Row)
            → run self.now (slice_index_or next.now.rows place [] ∷ rows) kept
            → run self.now (slice_index_or block.now.rows at []
            ∷ slice_index_or next.now.rows place [] ∷ rows) kept };

    /// Where rows agree in columns that are left as they are, what is left of them agrees with them there.
    ghost keeps: { (rule : Self) (places : List ℕ) (key : List Value) (rows out : List Row)
        → apart rule places → 0 < length rows → All (takes rule) rows
        → All (λ r. key_of places r ≡ key) rows → run rule rows out
        → All (λ r. key_of places r ≡ key) out };

    /// What is left of rows that the rule takes, and that have these types, are such rows again.
    ghost stays_taken: { (rule : Self) (types : List ColType) (rows out : List Row)
        → 0 < length rows → All (takes rule) rows → AreRowsOf types rows → run rule rows out
        → All (takes rule) out × AreRowsOf types out };

    /// Whatever was merged before, and at whatever times, what is left of the rest is what FINAL may leave of all rows.
    ghost law: { (rule : Self) (rows x out : List Row) → 0 < length rows → All (takes rule) rows
        → ComesFrom (run rule) rows x → Leaves (run rule) x out → folds rule rows out };

    /// What one merge may leave is what the engine's definition lets it leave.
    ghost runs: { (rule : Self) (rows out : List Row)
        → run rule rows out ↔ Run (engine_of rule) (functions rule) rows out };
}
