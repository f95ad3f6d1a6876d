// Laws of the definitions: what follows from them, whatever a program does. Each function has an empty body and the law as its contract.
ghost use Rattle.std.specs.Prelude.{◌≡◌, ◌≢◌, ◌⊎◌, ◌<◌, ◌≤◌, ◌++◌, ◌∷◌, [], All, List, ℕ, Some, length, map, slice_get};
ghost use Rattle.mt_base.specs.declared.partition.Partition.{Partition};
ghost use Rattle.mt_values.specs.declared.command.Command.TheVariants as command;
ghost use Rattle.mt_values.specs.declared.command.Alter.{Alter};
ghost use Rattle.mt_values.specs.declared.command.Insert.{Insert};
ghost use Rattle.mt_values.specs.declared.schema.Schema.{Schema};
ghost use Rattle.mt_values.specs.Tables.{MayHavePartition, partition_of};
ghost use Rattle.rule_law.specs.mt_model.Explain.{PortionsStand};
ghost use Rattle.rule_law.specs.mt_model.History.{History, IsLegal, entered, inserts, schema_of};
ghost use Rattle.rule_law.specs.mt_model.Live.{live};
ghost use Rattle.rule_law.specs.mt_model.Numbers.{mutations_in, numbered};
ghost use Rattle.rule_law.specs.mt_model.Partial.{Partly};
ghost use Rattle.part_name.specs.PartNames.{Before, IsPartName};
ghost use Rattle.part_history.specs.declared.part.CorePart.{CorePart};
ghost use Rattle.part_history.specs.Entered.{next_number, part_of_insert, parts_after, parts_upto, with_part};
ghost use Rattle.part_history.specs.Merges.{IsMergedPart, IsRewrittenPart};
ghost use Rattle.part_history.specs.Parts.{AreInBlockOrder, TableStands, parts_in, portion_of, rows_seen_of};

/// The rows of the parts that stand for a table, each part's after the mutations for which it waits, part after part in block
/// order, are what merges may have left of its live rows.
pub fn parts_stand_for_live_rows()
    ensures { (h : History) (table : List ℕ) (schema : Schema) (parts : List CorePart) → IsLegal h
        → schema_of table h ≡ Some schema → TableStands table parts h → AreInBlockOrder parts
        → Partly schema (live table schema h) (rows_seen_of (mutations_in table h) parts) }
{}

/// The parts that stand for a table stand for it as the history grows: where nothing drew a number of it they stay, and so they
/// do where a mutation of it comes; an INSERT into it adds the part that it makes, wherever that stands among them. In block
/// order it is the last part of its partition, and the others stay in their order.
pub fn parts_stand_as_histories_grow()
    ensures other { (h more : History) (table : List ℕ) (parts : List CorePart)
        → numbered table more ≡ [] → TableStands table parts h
        → TableStands table parts (h ++ more) }
    ensures mutation { (h : History) (session : ℕ) (a : Alter) (parts : List CorePart)
        → TableStands a.table parts h
        → TableStands a.table parts (entered h session (command.Alter a ∷ [])) }
    ensures insert { (h : History) (session : ℕ) (i : Insert) (schema : Schema)
        (front back : List CorePart) → schema_of i.table h ≡ Some schema
        → TableStands i.table (front ++ back) h
        → TableStands i.table (front ++ part_of_insert schema (next_number i.table h) i ∷ back)
        (entered h session (command.Insert i ∷ [])) }
    ensures order { (h : History) (i : Insert) (schema : Schema) (parts : List CorePart) → IsLegal h
        → MayHavePartition schema i.partition → TableStands i.table parts h → AreInBlockOrder parts
        → AreInBlockOrder (with_part (part_of_insert schema (next_number i.table h) i) parts) }
    ensures others { (partition : Partition) (parts : List CorePart) → AreInBlockOrder parts
        → parts_upto partition parts ++ parts_after partition parts ≡ parts }
{}

/// Parts that stand for a table in block order still do so where a run of neighbours of one partition is replaced by what a
/// merge may make of them.
pub fn merged_parts_stand()
    ensures stand { (h : History) (schema : Schema) (front sources back : List CorePart)
        (part : CorePart) → IsLegal h → schema_of part.table h ≡ Some schema
        → IsMergedPart h schema sources part
        → TableStands part.table (front ++ (sources ++ back)) h
        → AreInBlockOrder (front ++ (sources ++ back))
        → TableStands part.table (front ++ part ∷ back) h }
    ensures order { (h : History) (schema : Schema) (front sources back : List CorePart)
        (part : CorePart) → IsLegal h → schema_of part.table h ≡ Some schema
        → IsMergedPart h schema sources part
        → TableStands part.table (front ++ (sources ++ back)) h
        → AreInBlockOrder (front ++ (sources ++ back))
        → AreInBlockOrder (front ++ part ∷ back) }
{}

/// Parts that stand for a table in block order still do so where one of them is replaced by what a rewrite may make of it.
pub fn rewritten_parts_stand()
    ensures stand { (h : History) (schema : Schema) (front back : List CorePart)
        (source part : CorePart) (upto : ℕ) → IsLegal h → schema_of part.table h ≡ Some schema
        → IsRewrittenPart h source upto part → TableStands part.table (front ++ source ∷ back) h
        → TableStands part.table (front ++ part ∷ back) h }
    ensures order { (h : History) (schema : Schema) (front back : List CorePart)
        (source part : CorePart) (upto : ℕ) → IsLegal h → schema_of part.table h ≡ Some schema
        → IsRewrittenPart h source upto part → AreInBlockOrder (front ++ source ∷ back)
        → AreInBlockOrder (front ++ part ∷ back) }
{}

/// The parts that stand for a table are of partitions that it may have and end below its next number, and of two of one
/// partition one stands before the other.
pub fn parts_stand_apart()
    ensures may { (h : History) (table : List ℕ) (schema : Schema) (parts : List CorePart)
        → IsLegal h → schema_of table h ≡ Some schema → TableStands table parts h
        → All (λ p. MayHavePartition schema p.name.partition) parts }
    ensures below { (h : History) (table : List ℕ) (parts : List CorePart)
        → TableStands table parts h → All (λ p. p.name.max_block < next_number table h) parts }
    ensures before { (h : History) (table : List ℕ) (parts : List CorePart) (i j : ℕ)
        (a b : CorePart) → TableStands table parts h → slice_get parts i ≡ Some a
        → slice_get parts j ≡ Some b → i ≢ j → a.name.partition ≡ b.name.partition
        → IsPartName a.name → IsPartName b.name → Before a.name b.name ⊎ Before b.name a.name }
{}

/// The rows of the parts that stand for a table are of their part's partition.
pub fn rows_are_of_their_partition()
    ensures { (h : History) (table : List ℕ) (schema : Schema) (parts : List CorePart) → IsLegal h
        → schema_of table h ≡ Some schema → TableStands table parts h
        → All (λ p. All (λ row. partition_of schema row ≡ p.name.partition) p.rows) parts }
{}

/// The parts that stand for a table are portions of its rows that stand for it.
pub fn parts_are_portions()
    ensures { (h : History) (table : List ℕ) (schema : Schema) (parts : List CorePart)
        → schema_of table h ≡ Some schema → TableStands table parts h
        → PortionsStand h table schema (map portion_of parts) }
{}

/// A table has in a partition at most one part for each INSERT that was accepted into it: merges leave fewer.
pub fn parts_are_at_most_inserts()
    ensures { (h : History) (table : List ℕ) (parts : List CorePart) (partition : Partition)
        → TableStands table parts h
        → length (parts_in partition parts) ≤ inserts table partition h }
{}
