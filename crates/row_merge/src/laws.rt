// Of which parts a merge tells no damage. The function has an empty body and the law as its contract.
ghost use Rattle.std.specs.Prelude.{List, Option};
ghost use Rattle.mt_outside.specs.Files.{Files};
ghost use Rattle.mt_values.specs.Values.{Row};
ghost use Rattle.mt_values.specs.declared.schema.Schema.{Schema};
ghost use Rattle.part_history.specs.part_name.declared.part.PartName.{PartName};
ghost use Rattle.part_reader.specs.Faults.{IsNoDamage};
ghost use Rattle.part_reader.specs.declared.reading.Part.{Part};
ghost use Rattle.part_reader.specs.declared.reading.PartFault.{PartFault};
ghost use Rattle.part_set.specs.declared.kept.Kept.{Kept};
ghost use Rattle.row_merge.specs.MergedParts.{ExplainsMerge, PartsHold};

/// What a merge tells of parts that hold rows of their table is no damage.
pub fn merged_rows_are_not_damaged<F>()
    ensures { (files_of : F → Option Files) (schema : Schema) (parts : List (Kept (Part F)))
        (rows : List (List Row)) (e : PartName × PartFault) → PartsHold files_of schema parts rows
        → ExplainsMerge files_of schema parts e → IsNoDamage e.1 }
{}
