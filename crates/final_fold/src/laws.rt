// What FINAL may see, what merges of all rows leave, and of which parts no damage is told. The functions have empty bodies and the laws as their contracts.
ghost use Rattle.std.specs.Prelude.{◌≡◌, ◌≤◌, ◌++◌, ℕ, Bool, List, All, Option, filter, length, map, not, true};
ghost use Rattle.std.specs.List.{Contains as HasItem, list_any};
ghost use Rattle.mt_base.specs.declared.partition.Partition.{Partition};
ghost use Rattle.mt_values.specs.Tables.{partition_of};
ghost use Rattle.mt_values.specs.Values.{Row};
ghost use Rattle.mt_values.specs.declared.engine.Engine.TheVariants as engine;
ghost use Rattle.mt_values.specs.declared.schema.Schema.{Schema};
ghost use Rattle.row_merge.specs.mt_model.History.{IsTableSchema};
ghost use Rattle.row_merge.specs.mt_model.Partial.{MergesAll, Partly};
ghost use Rattle.row_merge.specs.rule_law.TableRows.{IsTableRow};
ghost use Rattle.std.specs.List.Sorted.{IsPermutation};
ghost use Rattle.mt_values.specs.declared.statement.SelectText.{SelectText};
ghost use Rattle.row_merge.specs.mt_model.Answer.{Answer};
ghost use Rattle.row_merge.specs.mt_model.Final.{FoldOnce, FoldsAll, KeysFoldOnce};
ghost use Rattle.row_merge.specs.mt_model.History.{History};
ghost use Rattle.row_merge.specs.mt_model.Live.{live, of_key};
ghost use Rattle.row_merge.specs.mt_model.Rules.{alternate, is_state, last_of};
ghost use Rattle.final_fold.specs.Choices.{signs_of, sums_of};
ghost use Rattle.final_fold.specs.Folded.{ExplainsFold};
ghost use Rattle.final_fold.specs.Keys.{SaysOfKeys, is_of_key};
ghost use Rattle.final_fold.specs.Matches.{ExplainsMatches, SayOfEach};
ghost use Rattle.final_fold.specs.declared.asking.Wanted.{Wanted};
ghost use Rattle.mt_outside.specs.Files.{Files};
ghost use Rattle.row_merge.specs.MergedParts.{PartsHold};
ghost use Rattle.row_merge.specs.part_reader.Faults.{IsNoDamage};
ghost use Rattle.row_merge.specs.part_reader.declared.reading.Part.{Part};
ghost use Rattle.row_merge.specs.part_reader.declared.reading.PartFault.{PartFault};
ghost use Rattle.row_merge.specs.part_set.declared.kept.Kept.{Kept};
ghost use Rattle.row_merge.specs.part_set.part_name.declared.part.PartName.{PartName};

/// Whatever was merged before, and at whatever times, one merge of all that is left is what FINAL may leave of the live rows.
pub fn partly_folded_rows_fold_as_all()
    ensures { (schema : Schema) (live x out : List Row) → All (IsTableRow schema) live
        → Partly schema live x → MergesAll schema x out → FoldsAll schema live out }
{}

/// Rows of a table can be merged, and each row that is left is of the partition and the key of one of them.
pub fn rows_can_be_merged()
    ensures merged { (schema : Schema) (rows : List Row) → IsTableSchema schema
        → All (IsTableRow schema) rows → (out : List Row) × MergesAll schema rows out }
    ensures sources { (schema : Schema) (rows out : List Row) → MergesAll schema rows out
        → All (λ r. list_any (is_of_key schema (partition_of schema r) r) rows ≡ true) out }
{}

/// Keys are merged each by itself: of rows that a test tells apart by partition and key, those that pass and those that fail.
pub fn keys_merge_apart()
    ensures joined { (schema : Schema) (test : Row → Bool) (rows one two : List Row)
        → SaysOfKeys schema test → MergesAll schema (filter test rows) one
        → MergesAll schema (filter (λ r. not (test r)) rows) two
        → MergesAll schema rows (one ++ two) }
    ensures within { (schema : Schema) (test : Row → Bool) (rows out : List Row)
        → SaysOfKeys schema test → MergesAll schema rows out
        → MergesAll schema (filter test rows) (filter test out) }
{}

/// Of a key whose live rows fold to one thing FINAL leaves it, whatever was merged. Where those of each key do, what a SELECT with FINAL shows
/// of the table is determined by the history alone.
pub fn final_answers_are_determined()
    ensures key { (schema : Schema) (live a b : List Row) (partition : Partition) (row : Row)
        → FoldOnce schema.engine (of_key schema partition row live) → FoldsAll schema live a
        → FoldsAll schema live b → of_key schema partition row a ≡ of_key schema partition row b }
    ensures rows { (schema : Schema) (live a b : List Row) → KeysFoldOnce schema live
        → FoldsAll schema live a → FoldsAll schema live b → IsPermutation a b }
    ensures lines { (h : History) (schema : Schema) (s : SelectText) (a b : List (List ℕ))
        → s.is_final ≡ true → KeysFoldOnce schema (live s.table schema h)
        → Answer h schema s a → Answer h schema s b → a ≡ b }
{}

/// Where FINAL may leave several things of a key, whatever was merged, they differ in what the rule leaves open alone. Of summed rows
/// the sums are the same, or nothing is left by each. Of rows with versions as many are left, with the same sign, and of rows with
/// signs each one that is left is a live one. Of a collapsing key there are at most two, and where its signs alternate its last row
/// where that is a state, and none otherwise.
pub fn final_answers_differ_in_free_choices()
    ensures sums { (schema : Schema) (places : List ℕ) (live a b : List Row)
        (partition : Partition) (row : Row) → schema.engine ≡ engine.Summing places
        → All (IsTableRow schema) live → FoldsAll schema live a → FoldsAll schema live b
        → map (sums_of places) (of_key schema partition row a)
        ≡ map (sums_of places) (of_key schema partition row b) }
    ensures signs { (schema : Schema) (sign version : ℕ) (live a b : List Row)
        (partition : Partition) (row : Row) → schema.engine ≡ engine.Versioned sign version
        → FoldsAll schema live a → FoldsAll schema live b
        → signs_of sign (of_key schema partition row a)
        ≡ signs_of sign (of_key schema partition row b) }
    ensures versioned { (schema : Schema) (sign version : ℕ) (live out : List Row)
        (partition : Partition) (row : Row) → schema.engine ≡ engine.Versioned sign version
        → FoldsAll schema live out → All (HasItem (of_key schema partition row live))
        (of_key schema partition row out) }
    ensures collapsing { (schema : Schema) (sign : ℕ) (live out : List Row)
        (partition : Partition) (row : Row) → schema.engine ≡ engine.Collapsing sign
        → FoldsAll schema live out → (length (of_key schema partition row out) ≤ 2)
        × All (HasItem (of_key schema partition row live)) (of_key schema partition row out) }
    ensures alternating { (schema : Schema) (sign : ℕ) (live out : List Row)
        (partition : Partition) (row : Row) → schema.engine ≡ engine.Collapsing sign
        → alternate sign (of_key schema partition row live) ≡ true → FoldsAll schema live out
        → of_key schema partition row out ≡ filter (is_state sign)
        (last_of (of_key schema partition row live)) }
{}

/// What is told of parts that hold rows of their table is no damage, where columns of chosen granules were read, with FINAL or without it,
/// and it is said of each granule whether it is chosen.
pub fn parts_with_rows_are_not_damaged<F>()
    ensures matches { (files_of : F → Option Files) (w : Wanted) (parts : List (Kept (Part F)))
        (chosen : List (List Bool)) (rows : List (List Row)) (e : PartName × PartFault)
        → PartsHold files_of w.schema.now parts rows → SayOfEach w chosen rows
        → ExplainsMatches files_of parts chosen w e → IsNoDamage e.1 }
    ensures fold { (files_of : F → Option Files) (w : Wanted) (parts : List (Kept (Part F)))
        (chosen : List (List Bool)) (rows : List (List Row)) (e : PartName × PartFault)
        → PartsHold files_of w.schema.now parts rows → SayOfEach w chosen rows
        → ExplainsFold files_of parts chosen w e → IsNoDamage e.1 }
{}
