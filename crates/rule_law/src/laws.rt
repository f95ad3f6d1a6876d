// What follows of the definitions. Each function has an empty body and the law as its contract.
ghost use Rattle.std.specs.Prelude.{◌≡◌, ◌<◌, List, All, length};
ghost use Rattle.mt_model.specs.History.{IsTableSchema};
ghost use Rattle.mt_model.specs.Mutations.{IsChangeOf};
ghost use Rattle.mt_model.specs.Partial.{Partly, TableRun};
ghost use Rattle.mt_values.specs.declared.change.Change.{Change};
ghost use Rattle.mt_values.specs.declared.mutation.Mutation.{Mutation};
ghost use Rattle.mt_values.specs.declared.schema.Schema.{Schema};
ghost use Rattle.mt_values.specs.declared.value.Value.{Value};
ghost use Rattle.mt_values.specs.Changes.{mutated};
ghost use Rattle.mt_values.specs.Order.{key_of};
ghost use Rattle.mt_values.specs.Tables.{sorting_columns};
ghost use Rattle.mt_values.specs.Values.{Row};
ghost use Rattle.rule_law.specs.Changes.{StaysLeft};
ghost use Rattle.rule_law.specs.TableRows.{IsTableRow};

/// A mutation that the rows of a table may have can be made before one merge or after it: whatever the engine, it makes of rows of one
/// key, and of what the merge may leave of them, rows and what a merge may leave of these; or it leaves no row on either side.
pub fn mutations_go_with_one_merge()
    ensures { (schema : Schema) → IsTableSchema schema → (c : Change) → IsChangeOf schema c
        → (key : List Value) (rows out : List Row)
        → 0 < length rows → All (IsTableRow schema) rows
        → All (λ r. key_of (sorting_columns schema) r ≡ key) rows → TableRun schema rows out
        → StaysLeft (TableRun schema) c rows out }
{}

/// Mutations that the rows of a table may have can be made before merges or after them: what merges may have left of rows
/// stays so where they are made of both.
pub fn mutations_go_with_merges()
    ensures { (schema : Schema) → IsTableSchema schema → (mutations : List Mutation)
        → All (λ (m : Mutation). IsChangeOf schema m.change) mutations
        → (live rows : List Row) → All (IsTableRow schema) live → Partly schema live rows
        → Partly schema (mutated mutations live) (mutated mutations rows) }
{}
