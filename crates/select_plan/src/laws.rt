// What a plan says of one granule. The functions have empty bodies and the laws as their contracts.
ghost use Rattle.std.specs.Prelude.{◌≡◌, ◌↔◌, ◌*◌, ◌<◌, ℕ, [], All, List, None, Some, drop, length, slice_get, take, true};
ghost use Rattle.std.specs.List.{list_any};
ghost use Rattle.std.specs.Ordering.{is_eq};
ghost use Rattle.mt_base.specs.declared.partition.Partition.{Partition};
ghost use Rattle.mt_values.specs.Conditions.{Condition, tests_of};
ghost use Rattle.mt_values.specs.Schemas.{column_types, schema_fault};
ghost use Rattle.mt_values.specs.Tables.{partition_of, sorting_cmp};
ghost use Rattle.mt_values.specs.Tests.{eval};
ghost use Rattle.mt_values.specs.Values.{Row, types_of};
ghost use Rattle.part_reader.specs.column_file.Marks.{mark_keys};
ghost use Rattle.mt_values.specs.declared.expr.Test.{Test};
ghost use Rattle.mt_values.specs.declared.schema.Schema.{Schema};
ghost use Rattle.part_reader.specs.declared.reading.Part.{Part};
ghost use Rattle.part_set.specs.declared.kept.Kept.{Kept};
ghost use Rattle.mt_model.specs.predicate.Granules.{chosen_in};
ghost use Rattle.part_reader.specs.primary_marks.Choosing.{ArePartOf};
ghost use Rattle.part_reader.specs.primary_marks.Keys.{HasMarks};
ghost use Rattle.select_plan.specs.Plans.{planned_part};
ghost use Rattle.part_reader.specs.skip_index.Choosing.{chosen_by};
ghost use Rattle.part_reader.specs.skip_index.declared.index.Index.{Index};

/// A granule of a part is read exactly where the condition may be true in the box of its marks, and in the box of its block of each
/// skip index of the part. Each box is asked by itself.
pub fn granules_are_read_where_each_box_may_match<F>()
    ensures { (schema : Schema) (c : Condition Test) (kept : Kept (Part F)) (granule : ℕ)
        → (slice_get (planned_part schema c kept) granule ≡ Some true)
        ↔ ((slice_get (chosen_in schema kept.name.partition c kept.part.loaded.marks) granule
        ≡ Some true) × All (λ (index : Index). slice_get (chosen_by index c []) granule
        ≡ Some true) kept.part.loaded.indexes) }
{}

/// Where a row meets the condition that agrees with stored rows of a part in the sorting key and the partition, whatever its other
/// columns, the marks choose each granule with such a stored row. So all rows of its key are read: of a part of a table whose schema
/// breaks no rule, and a condition over the table's columns.
pub fn folded_matches_are_chosen()
    ensures { (schema : Schema) (partition : Partition) (c : Condition Test) (rows : List Row)
        → HasMarks schema → schema_fault schema ≡ None → ArePartOf schema partition rows
        → All (λ (t : Test). t.column < length schema.columns) (tests_of c) → (row : Row)
        → types_of row ≡ column_types schema → partition_of schema row ≡ partition
        → eval c row ≡ true → (granule : ℕ) → list_any (λ r. is_eq (sorting_cmp schema row r))
        (take schema.granularity (drop (schema.granularity * granule) rows)) ≡ true
        → slice_get (chosen_in schema partition c
        (mark_keys schema.primary schema.granularity rows)) granule ≡ Some true }
{}
