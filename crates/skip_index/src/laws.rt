// What the definitions say of bytes and of rows, whichever function reads them. The functions have empty bodies and the laws as
// their contracts.
ghost use Rattle.std.specs.Prelude.{◌≡◌, ◌*◌, ◌<◌, ◌⊎◌, ℕ, [], All, Bool, List, Some, drop, false, filter, length, slice_get, take, true};
ghost use Rattle.mt_values.specs.Conditions.{Condition, tests_of};
ghost use Rattle.mt_values.specs.Granules.{granules};
ghost use Rattle.mt_values.specs.Grid.{AreRowsOf, column_of};
ghost use Rattle.mt_values.specs.Schemas.{column_types};
ghost use Rattle.mt_values.specs.Tests.{eval};
ghost use Rattle.mt_values.specs.Values.{FitsType, Row};
ghost use Rattle.mt_values.specs.declared.expr.Test.{Test};
ghost use Rattle.mt_values.specs.declared.schema.Schema.{Schema};
ghost use Rattle.skip_index.specs.Blocks.{HasIndex, index_at, index_bytes, index_of};
ghost use Rattle.skip_index.specs.Choosing.{chosen_by, is_unknown};
ghost use Rattle.skip_index.specs.Faults.{IsIndexFault};
ghost use Rattle.skip_index.specs.Files.{IsIndexFile, shape_of};
ghost use Rattle.skip_index.specs.declared.index.Index.{Index};

/// Bytes are the file of at most one skip index. Where they have a first fault they are that of none.
pub fn blocks_are_read_in_one_way()
    ensures blocks { (schema : Schema) (place count : ℕ) (bytes : List ℕ) (x y : Index)
        → HasIndex schema place → IsIndexFile (shape_of schema place count) bytes x
        → IsIndexFile (shape_of schema place count) bytes y → x ≡ y }
    ensures fault { (schema : Schema) (place count : ℕ) (bytes : List ℕ) (at : ℕ) (x : Index)
        → HasIndex schema place → IsIndexFault (shape_of schema place count) bytes at
        → IsIndexFile (shape_of schema place count) bytes x → ⊥ }
{}

/// What the file of a skip index has of rows is read as their index.
pub fn blocks_of_rows_are_read()
    ensures { (schema : Schema) (place : ℕ) (rows : List Row) → HasIndex schema place
        → AreRowsOf (column_types schema) rows → All (λ (row : Row). All FitsType row) rows
        → IsIndexFile (shape_of schema place (length rows))
        (index_bytes (index_of schema place rows)) (index_of schema place rows) }
{}

/// Granules that are not chosen hold no row of which the condition is true: of rows of a table, and a condition over its columns.
/// So it is of rows that are seen in place of those that were indexed, where these are alike in the index's column, or where that
/// column is said to be unknown. Each granule has an answer.
pub fn skipped_blocks_hold_no_match()
    ensures each { (schema : Schema) (place : ℕ) (c : Condition Test) (unknown : List Bool)
        (rows : List Row) → HasIndex schema place → AreRowsOf (column_types schema) rows
        → All (λ (t : Test). t.column < length schema.columns) (tests_of c) → (granule : ℕ)
        → slice_get (chosen_by (index_of schema place rows) c unknown) granule ≡ Some false
        → filter (eval c) (take schema.granularity
        (drop (schema.granularity * granule) rows)) ≡ [] }
    ensures seen { (schema : Schema) (place : ℕ) (c : Condition Test) (unknown : List Bool)
        (rows seen : List Row) → HasIndex schema place → AreRowsOf (column_types schema) rows
        → AreRowsOf (column_types schema) seen → length seen ≡ length rows
        → (is_unknown unknown (index_at schema place).column ≡ true)
        ⊎ (column_of (index_at schema place).column seen
        ≡ column_of (index_at schema place).column rows)
        → All (λ (t : Test). t.column < length schema.columns) (tests_of c) → (granule : ℕ)
        → slice_get (chosen_by (index_of schema place rows) c unknown) granule ≡ Some false
        → filter (eval c) (take schema.granularity
        (drop (schema.granularity * granule) seen)) ≡ [] }
    ensures count { (schema : Schema) (place : ℕ) (c : Condition Test) (unknown : List Bool)
        (rows : List Row) → length (chosen_by (index_of schema place rows) c unknown)
        ≡ granules schema.granularity (length rows) }
{}
