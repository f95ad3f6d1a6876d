// What the definitions say of bytes, whichever function reads them. The functions have empty bodies and the laws as their contracts.
ghost use Rattle.std.specs.Prelude.{◌≡◌, ◌^◌, ◌*◌, ◌<◌, ◌≤◌, ℕ, [], All, List, None, Some, drop, false, filter, length, slice_get, take, true};
ghost use Rattle.mt_base.specs.declared.partition.Partition.{Partition};
ghost use Rattle.mt_values.specs.ColumnBytes.{column_bytes};
ghost use Rattle.mt_values.specs.Conditions.{Condition, tests_of};
ghost use Rattle.mt_values.specs.Granules.{chosen_of};
ghost use Rattle.mt_values.specs.Grid.{AreRowsOf, column_of};
ghost use Rattle.mt_values.specs.Schemas.{column_types, key_fault, schema_fault};
ghost use Rattle.mt_values.specs.Tests.{eval};
ghost use Rattle.mt_values.specs.Values.{Row};
ghost use Rattle.mt_values.specs.declared.expr.Test.{Test};
ghost use Rattle.mt_values.specs.declared.schema.Schema.{Schema};
ghost use Rattle.column_file.specs.Marks.{granule_places, granules, mark_keys, marks_bytes, primary_bytes};
ghost use Rattle.predicate.specs.Granules.{asked_in, chosen_in};
ghost use Rattle.primary_marks.specs.Choosing.{ArePartOf};
ghost use Rattle.primary_marks.specs.KeyFaults.{IsPrimaryFault};
ghost use Rattle.primary_marks.specs.Keys.{ArePartRows, HasMarks, IsPrimaryOf, KeyShape, shape_of};
ghost use Rattle.primary_marks.specs.Places.{AreMarksOf, IsMarksFault};

/// Bytes are the marks.bin of at most one list of numbers. Where they have a first fault they are none.
pub fn places_are_read_in_one_way()
    ensures places { (columns granules : ℕ) (bytes : List ℕ) (xs ys : List (List ℕ))
        → AreMarksOf columns granules bytes xs → AreMarksOf columns granules bytes ys → xs ≡ ys }
    ensures fault { (columns granules : ℕ) (bytes : List ℕ) (place : ℕ) (xs : List (List ℕ))
        → IsMarksFault columns granules bytes place → AreMarksOf columns granules bytes xs → ⊥ }
{}

/// Bytes are the primary.bin of at most one list of keys. Where they have a first fault they are none.
pub fn keys_are_read_in_one_way()
    ensures keys { (shape : KeyShape) (bytes : List ℕ) (xs ys : List Row)
        → IsPrimaryOf shape bytes xs → IsPrimaryOf shape bytes ys → xs ≡ ys }
    ensures fault { (shape : KeyShape) (bytes : List ℕ) (place : ℕ) (keys : List Row)
        → 0 < shape.granularity → IsPrimaryFault shape bytes place → IsPrimaryOf shape bytes keys
        → ⊥ }
{}

/// What marks.bin has of rows is read as the places of their column files, each of fewer than 2^64 bytes.
pub fn places_of_rows_are_read()
    ensures { (granularity columns : ℕ) (schema : Schema) (rows : List Row) → 0 < granularity
        → AreRowsOf (column_types schema) rows → columns ≤ length (column_types schema)
        → ((c : ℕ) → c < columns → length (column_bytes (column_of c rows)) < 2 ^ 64)
        → AreMarksOf columns (granules granularity (length rows))
        (marks_bytes granularity columns rows) (granule_places granularity columns rows) }
{}

/// What primary.bin has of rows is read as their keys, and bytes that are read as keys are what it has of some rows of
/// that number: of a table whose primary key names no column twice.
pub fn keys_are_those_of_rows()
    ensures written { (schema : Schema) (rows : List Row) → HasMarks schema
        → ArePartRows schema (length rows) rows → IsPrimaryOf (shape_of schema (length rows))
        (primary_bytes schema.primary schema.granularity rows)
        (mark_keys schema.primary schema.granularity rows) }
    ensures read { (schema : Schema) (count : ℕ) (bytes : List ℕ) (keys : List Row)
        → HasMarks schema → key_fault schema.primary ≡ None
        → IsPrimaryOf (shape_of schema count) bytes keys → (rows : List Row)
        × ArePartRows schema count rows
        × (bytes ≡ primary_bytes schema.primary schema.granularity rows)
        × (keys ≡ mark_keys schema.primary schema.granularity rows) }
{}

/// Granules that are not chosen hold no row of which the condition is true: of a part of a table whose schema breaks no rule, and
/// a condition over the table's columns. So the rows of the chosen ones are all that have to be read. Each granule has an answer.
pub fn skipped_granules_hold_no_match()
    ensures each { (schema : Schema) (partition : Partition) (c : Condition Test) (rows : List Row)
        → HasMarks schema → schema_fault schema ≡ None → ArePartOf schema partition rows
        → All (λ (t : Test). t.column < length schema.columns) (tests_of c) → (granule : ℕ)
        → slice_get (chosen_in schema partition c
        (mark_keys schema.primary schema.granularity rows)) granule ≡ Some false
        → filter (eval c) (take schema.granularity
        (drop (schema.granularity * granule) rows)) ≡ [] }
    ensures all { (schema : Schema) (partition : Partition) (c : Condition Test) (rows : List Row)
        → HasMarks schema → schema_fault schema ≡ None → ArePartOf schema partition rows
        → All (λ (t : Test). t.column < length schema.columns) (tests_of c)
        → filter (eval c) (chosen_of schema.granularity (chosen_in schema partition c
        (mark_keys schema.primary schema.granularity rows)) rows) ≡ filter (eval c) rows }
    ensures count { (schema : Schema) (partition : Partition) (c : Condition Test)
        (primary : List ℕ) (g : ℕ) (rows : List Row) → 0 < g
        → length (chosen_in schema partition c (mark_keys primary g rows)) ≡ granules g
        (length rows) }
{}

/// In granules in whose box the condition can be false of no row each row meets it: of a part of a table whose schema breaks no rule,
/// and a condition over the table's columns. So it need not be asked of these rows. Each granule has an answer.
pub fn sure_granules_meet()
    ensures each { (schema : Schema) (partition : Partition) (c : Condition Test) (rows : List Row)
        → HasMarks schema → schema_fault schema ≡ None → ArePartOf schema partition rows
        → All (λ (t : Test). t.column < length schema.columns) (tests_of c) → (granule : ℕ)
        → slice_get (asked_in schema partition c
        (mark_keys schema.primary schema.granularity rows)) granule ≡ Some false
        → All (λ row. eval c row ≡ true) (take schema.granularity
        (drop (schema.granularity * granule) rows)) }
    ensures count { (schema : Schema) (partition : Partition) (c : Condition Test)
        (primary : List ℕ) (g : ℕ) (rows : List Row) → 0 < g
        → length (asked_in schema partition c (mark_keys primary g rows)) ≡ granules g
        (length rows) }
{}
