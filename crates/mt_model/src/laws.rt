// Laws of the definitions: what follows from them, whatever a program does. Each function has an empty body and the law as its contract.
ghost use Rattle.std.specs.List.{list_any};
ghost use Rattle.std.specs.Prelude.{◌≡◌, ◌⊎◌, ◌-◌, ◌^◌, ◌<◌, ◌≤◌, ◌++◌, ◌∷◌, [], ℕ, Bool, List, Option, length, take, true, false, All, None, Some, Ok, codes};
ghost use Rattle.std.specs.List.Sorted.{IsPermutation, IsSorted};
ghost use Rattle.mt_values.specs.declared.value.ColType.{ColType};
ghost use Rattle.mt_values.specs.declared.schema.Schema.{Schema};
ghost use Rattle.mt_base.specs.declared.partition.Partition.{Partition};
ghost use Rattle.mt_values.specs.declared.command.Command.{Command};
ghost use Rattle.mt_values.specs.declared.command.Command.TheVariants as command;
ghost use Rattle.mt_values.specs.declared.command.Entry.{Entry};
ghost use Rattle.mt_values.specs.declared.command.Insert.{Insert};
ghost use Rattle.mt_values.specs.declared.expr.Literal.{Literal};
ghost use Rattle.mt_values.specs.declared.expr.TestText.{TestText};
ghost use Rattle.mt_values.specs.declared.statement.Clause.{Clause};
ghost use Rattle.mt_values.specs.declared.schema.SkipIndex.{SkipIndex};
ghost use Rattle.mt_values.specs.declared.statement.CreateText.{CreateText};
ghost use Rattle.mt_values.specs.declared.statement.Element.{Element};
ghost use Rattle.mt_values.specs.declared.statement.SelectText.{SelectText};
ghost use Rattle.mt_values.specs.declared.statement.Statement.{Statement};
ghost use Rattle.mt_values.specs.declared.token.Placed.{Placed};
ghost use Rattle.mt_values.specs.declared.token.Symbol.TheVariants as symbol;
ghost use Rattle.mt_base.specs.declared.partition.Partition.TheVariants.{Number};
ghost use Rattle.mt_values.specs.declared.value.Value.TheVariants.{UInt8};
ghost use Rattle.mt_values.specs.Values.{AreValues, IsValue, Row, types_of};
ghost use Rattle.mt_values.specs.Grid.{AreRowsOf};
ghost use Rattle.mt_values.specs.Tables.{IsPlain, MayHavePartition, partition_of, sorting_cmp, sorting_columns};
ghost use Rattle.mt_values.specs.Tokens.{string_within, tokens_within};
ghost use Rattle.mt_values.specs.Readers.{Reader, listed_within};
ghost use Rattle.mt_values.specs.Grammar.{all_of, clauses_within, is_symbol, joined_within, literal, one_name, table_element, term_within, the};
ghost use Rattle.mt_values.specs.Conditions.{Condition, And, Or};
ghost use Rattle.mt_values.specs.Script.{Item, data_ended_within, data_within, statements_of, statements_within};
ghost use Rattle.mt_values.specs.Engines.{keeps_sign};
ghost use Rattle.mt_values.specs.Rows.{inserted_rows, row_limit, rows_within, unescaped_within};
ghost use Rattle.mt_model.specs.Causes.{MeetsCause, NoneMeetsCause};
ghost use Rattle.mt_model.specs.declared.counts.Counts.{Counts};
ghost use Rattle.mt_model.specs.Explain.{explain_line};
ghost use Rattle.mt_model.specs.Clauses.{NamesKeys};
ghost use Rattle.mt_model.specs.Commands.{partitions_of, rows_in};
ghost use Rattle.mt_model.specs.declared.refusal.Refusal.{Refusal};
ghost use Rattle.mt_model.specs.History.{History, column_types, ArePlain, FewInserts, IsAllowed, IsInsertInto, IsLegal, IsTableSchema};
ghost use Rattle.mt_model.specs.Live.{live, sorted, of_key};
ghost use Rattle.mt_model.specs.Numbers.{mutations_in};
ghost use Rattle.mt_model.specs.Partial.{MergesAll, Partly};
ghost use Rattle.mt_model.specs.Answer.{Answer, Prints};
ghost use Rattle.mt_model.specs.Final.{Sees};
ghost use Rattle.mt_model.specs.Outside.{HasRisen, LevelFailed, Outside, PartBusy};
ghost use Rattle.mt_model.specs.Refusals.{accepted_by, code, code_of, is_damage, is_refusal, refusal_line};
ghost use Rattle.mt_model.specs.Reply.{create_turn, ok_line, rows_reply, schema_of_text};
ghost use Rattle.mt_model.specs.Session.{AddsOnly, SessionRun, Takes};
ghost use Rattle.mt_model.specs.Script.{HasNoExplain, ScriptReplies, ScriptRun};
ghost use Rattle.mt_model.specs.Written.{IsWritten};

/// The first entries of a legal history are a legal history, and one more entry that may come next leaves it legal.
pub fn legal_fronts()
    ensures front { (h more : History) → IsLegal (h ++ more) → IsLegal h }
    ensures next { (h : History) (e : Entry) → IsLegal h → IsAllowed h e.command
        → IsLegal (h ++ e ∷ []) }
{}

/// The columns by which a table's rows are sorted are its own, and so are those of its primary key and of its indexes; its
/// partition column is one of them.
pub fn columns_of_tables_are_their_own()
    ensures sorting { (schema : Schema) → IsTableSchema schema
        → All (λ place. place < length schema.columns) (sorting_columns schema) }
    ensures primary { (schema : Schema) → IsTableSchema schema
        → All (λ place. place < length schema.columns) schema.primary }
    ensures indexes { (schema : Schema) → IsTableSchema schema
        → All (λ (x : SkipIndex). x.column < length schema.columns) schema.indexes }
    ensures partition { (schema : Schema) (place : ℕ) → IsTableSchema schema
        → schema.partition ≡ Some place → place < length schema.columns }
{}

/// The rows of a table are of partitions that it may have, and so is each INSERT that may come.
pub fn partitions_are_of_their_table()
    ensures row { (schema : Schema) (row : Row) → IsTableSchema schema
        → types_of row ≡ column_types schema → All IsValue row
        → MayHavePartition schema (partition_of schema row) }
    ensures insert { (schema : Schema) (i : Insert) → IsTableSchema schema → IsInsertInto schema i
        → MayHavePartition schema i.partition }
{}

/// An INSERT gives a command for each partition of its rows, in the order in which they first occur: of rows that begin
/// with 2, 1 and 2, in a table with its partition by the first column, one for partition 2 and then one for partition 1.
pub fn inserts_are_parted()
    ensures rows { (schema : Schema) (rows : List Row)
        → All (λ p. 0 < length (rows_in schema p rows)) (partitions_of schema rows) }
    ensures worked { (schema : Schema) (a b c : Row) → schema.partition ≡ Some 0
        → partitions_of schema ((UInt8 2 ∷ a) ∷ (UInt8 1 ∷ b) ∷ (UInt8 2 ∷ c) ∷ [])
        ≡ Number 2 ∷ Number 1 ∷ [] }
    ensures worked_rows { (schema : Schema) (a b c : Row) → schema.partition ≡ Some 0
        → rows_in schema (Number 2) ((UInt8 2 ∷ a) ∷ (UInt8 1 ∷ b) ∷ (UInt8 2 ∷ c) ∷ [])
        ≡ (UInt8 2 ∷ a) ∷ (UInt8 2 ∷ c) ∷ [] }
{}

/// As a history grows without a mutation of a plain table, its live rows stay, and others come after them.
pub fn live_rows_only_grow()
    ensures { (table : List ℕ) (schema : Schema) (h more : History) → IsPlain schema
        → mutations_in table more ≡ []
        → (rest : List Row) × (live table schema (h ++ more) ≡ live table schema h ++ rest) }
{}

/// Sorting puts the rows in order, loses none and adds none, and leaves the rows of each partition and key as they stood to
/// each other.
pub fn sorting_keeps_each_key()
    ensures keys { (schema : Schema) (partition : Partition) (row : Row) (rows : List Row)
        → of_key schema partition row (sorted (sorting_cmp schema) rows) ≡ of_key schema partition
        row rows }
    ensures rows { (schema : Schema) (rows : List Row)
        → IsPermutation rows (sorted (sorting_cmp schema) rows) }
    ensures rising { (schema : Schema) (rows : List Row)
        → IsSorted (sorting_cmp schema) (sorted (sorting_cmp schema) rows) }
{}

/// The lines that are printed of rows do not depend on the order in which the rows stand.
pub fn lines_do_not_depend_on_order()
    ensures { (rows other : List Row) (a b : List (List ℕ)) → IsPermutation rows other
        → Prints rows a → Prints other b → a ≡ b }
{}

/// Merges may leave the rows as they are; what they leave of what they left they may leave of the first rows; and what they
/// leave of two lists, one after the other, they may leave of both together. One merge of all rows is one way to leave them, of
/// what merges left before as well. Merges of a plain table fold nothing.
pub fn merges_add_up()
    ensures none { (schema : Schema) (rows : List Row) → Partly schema rows rows }
    ensures again { (schema : Schema) (rows x y : List Row) → Partly schema rows x
        → Partly schema x y → Partly schema rows y }
    ensures beside { (schema : Schema) (a b x y : List Row) → Partly schema a x
        → Partly schema b y → Partly schema (a ++ b) (x ++ y) }
    ensures all { (schema : Schema) (rows out : List Row) → MergesAll schema rows out
        → Partly schema rows out }
    ensures later { (schema : Schema) (rows x out : List Row) → Partly schema rows x
        → MergesAll schema x out → Partly schema rows out }
    ensures plain { (schema : Schema) (rows x : List Row) → IsPlain schema → Partly schema rows x
        → (partition : Partition) (row : Row) → of_key schema partition row x ≡ of_key schema
        partition row rows }
{}

/// Whatever merges did, and with FINAL too, a SELECT sees of a plain table its live rows, each as often, in another order at most.
pub fn plain_tables_show_their_rows()
    ensures { (schema : Schema) (is_final : Bool) (rows x : List Row) → IsPlain schema
        → Sees schema is_final rows x → IsPermutation rows x }
{}

/// A SELECT from a plain table at a place of a history has one answer only, whatever merges did, with FINAL or without it.
pub fn answers_are_determined()
    ensures { (h : History) (schema : Schema) (s : SelectText) (a b : List (List ℕ))
        → IsPlain schema → Answer h schema s a → Answer h schema s b → a ≡ b }
{}

/// Each CREATE that a script has names a column in each of its keys and a table by a name, and its text, with a semicolon
/// after it, is read as it alone. The schema that it writes is one that a table may have, and where its turn refuses nothing
/// either, its command may come next.
pub fn creates_are_allowed()
    ensures written { (script : List ℕ) → All IsWritten (statements_of script) }
    ensures schema { (c : CreateText) (schema : Schema) → NamesKeys c.clauses
        → schema_of_text c ≡ Ok schema → IsTableSchema schema }
    ensures next { (c : CreateText) (schema : Schema) (h : History) → NamesKeys c.clauses
        → schema_of_text c ≡ Ok schema → create_turn c.table h ≡ None
        → IsAllowed h (command.Create (record { table = c.table; schema = schema })) }
{}

/// The rows that data is read as have a value of each column's type, within the type's range where the data is bytes, and a
/// sign of 1 or -1 where the table has one, and are not too many.
pub fn rows_are_of_their_table()
    ensures types { (types : List ColType) (sign : Option ℕ) (lines : List ℕ) (ended : Bool)
        (rows : List Row) → inserted_rows types sign lines ended ≡ Ok rows → AreRowsOf types rows }
    ensures values { (types : List ColType) (sign : Option ℕ) (lines : List ℕ) (ended : Bool)
        (rows : List Row) → All (λ b. b < 2 ^ 8) lines
        → inserted_rows types sign lines ended ≡ Ok rows → AreValues rows }
    ensures signs { (types : List ColType) (sign : Option ℕ) (lines : List ℕ) (ended : Bool)
        (rows : List Row) → inserted_rows types sign lines ended ≡ Ok rows
        → All (λ row. keeps_sign sign row ≡ true) rows }
    ensures few { (types : List ColType) (sign : Option ℕ) (lines : List ℕ) (ended : Bool)
        (rows : List Row) → inserted_rows types sign lines ended ≡ Ok rows
        → length rows ≤ row_limit }
{}

/// The line of each refusal begins with its number, and no other reply has one.
pub fn refusals_have_numbers()
    ensures refusals { (r : Refusal) → code_of (refusal_line r) ≡ code r }
    ensures accepted { (h : ℕ) → code_of (ok_line h) ≡ 0 }
    ensures answers { (lines : List (List ℕ)) (h : ℕ) → code_of (rows_reply lines h) ≡ 0 }
    ensures explained { (n : Counts) (h : ℕ) → code_of (explain_line n h) ≡ 0 }
{}

/// A refused statement adds those commands to the history that its line counts, and no others.
pub fn refused_statements_add_what_they_count()
    ensures { (n : Outside) (h : History) (session : ℕ) (statement : Item) (from to : ℕ)
        (reply : List ℕ) → Takes n h session statement from to reply → 0 < code_of reply
        → (why : Refusal) × (done : List Command) × (reply ≡ refusal_line why)
        × (length done ≡ accepted_by why) × AddsOnly h session done from to }
{}

/// A reply that has a number and tells of a fault comes only where the disk's count rose. Where it did not, and stands below its
/// type's end, a statement is accepted, or refused for what the script says or for a bound. No reply tells of damage.
pub fn faults_are_of_the_outside()
    ensures risen { (n : Outside) (h : History) (session : ℕ) (statement : Item) (from to : ℕ)
        (reply : List ℕ) → Takes n h session statement from to reply → 0 < code_of reply
        → is_refusal reply ≡ false → HasRisen n n.ended }
    ensures still { (n : Outside) → n.ended ≡ n.opened → n.ended < 2 ^ 64 - 1 → HasRisen n n.ended
        → ⊥ }
    ensures calm { (n : Outside) (h : History) (session : ℕ) (statement : Item) (from to : ℕ)
        (reply : List ℕ) → n.ended ≡ n.opened → n.ended < 2 ^ 64 - 1
        → Takes n h session statement from to reply → (code_of reply ≡ 0)
        ⊎ (is_refusal reply ≡ true) }
    ensures undamaged { (n : Outside) (h : History) (session : ℕ) (statement : Item) (from to : ℕ)
        (reply : List ℕ) → Takes n h session statement from to reply → is_damage reply ≡ false }
{}

/// A statement is refused for no fault only where it meets a cause at its place, or where a part that it merges has the greatest level, which a
/// part has at the end then, or is being merged by others who run beside. Where the disk's count did not rise and stands below its type's end, no
/// part has the greatest level at the end, nobody runs beside, and none of a script's statements meets a cause after those before it, none of them
/// is refused.
pub fn refusals_have_a_cause()
    ensures one { (n : Outside) (h : History) (session : ℕ) (statement : Item) (from to : ℕ)
        (reply : List ℕ) → Takes n h session statement from to reply → is_refusal reply ≡ true
        → MeetsCause (take to h) statement ⊎ LevelFailed n reply ⊎ PartBusy n reply }
    ensures script { (n : Outside) (script : List Item) (h : History) (base : ℕ)
        (replies : List (List ℕ)) → n.ended ≡ n.opened → n.ended < 2 ^ 64 - 1 → n.full ≡ false
        → n.company ≡ false → ScriptReplies n script h base replies
        → NoneMeetsCause (take base h) script
        → list_any is_refusal replies ≡ false }
{}

/// The places of a session's statements never fall, and none is above the length of the history.
pub fn places_never_fall()
    ensures { (n : Outside) (h : History) (session : ℕ) (statements : List Item) (from to : ℕ)
        (out : List ℕ) → SessionRun n h session statements from to out → from ≤ length h
        → (from ≤ to) × (to ≤ length h) }
{}

/// What a session printed stays right as the history grows.
pub fn runs_stay_as_histories_grow()
    ensures { (n : Outside) (h more : History) (session : ℕ) (statements : List Item) (from to : ℕ)
        (out : List ℕ) → SessionRun n h session statements from to out
        → SessionRun n (h ++ more) session statements from to out }
{}

/// What a session printed stays right as the disk's count of faults rises, as a part comes to have the greatest level, and as others
/// come to run beside.
pub fn runs_stay_as_counts_rise()
    ensures { (n m : Outside) (h : History) (session : ℕ) (statements : List Item) (from to : ℕ)
        (out : List ℕ) → n.opened ≡ m.opened → n.ended ≤ m.ended → (n.full ≡ true → m.full ≡ true)
        → (n.company ≡ true → m.company ≡ true)
        → SessionRun n h session statements from to out
        → SessionRun m h session statements from to out }
{}

/// A script without an EXPLAIN that runs after a base has one run only, where the disk's count did not rise and stands below
/// its type's end, no part has the greatest level at the end, nobody runs beside, and in one of the two histories no partition of a table has 3000
/// INSERTs and every table is plain: what it prints, and each command that is accepted, are determined, whatever its OPTIMIZEs
/// merge. A partition with 3000 INSERTs may have 3000 parts or fewer, by what was merged, and refuse the next one or not; and an
/// EXPLAIN counts parts and granules as merges left them.
pub fn scripts_run_in_one_way()
    ensures { (n : Outside) (script : List Item) (h g : History) (base : ℕ) (a b : List ℕ)
        → n.ended ≡ n.opened → n.ended < 2 ^ 64 - 1 → n.full ≡ false → n.company ≡ false
        → FewInserts h → ArePlain h → HasNoExplain script → take base h ≡ take base g → ScriptRun n script h base a
        → ScriptRun n script g base b → (a ≡ b) × (h ≡ g) }
{}

/// The counts that bound the grammar's readers cut nothing off: each step takes at least one byte, or one token, and there
/// are four kinds of clauses.
pub fn bounds_cut_nothing_off()
    ensures statements { (n m : ℕ) (script : List ℕ) → length script < n → length script < m
        → statements_within n script ≡ statements_within m script }
    ensures tokens { (n m size : ℕ) (text : List ℕ) → length text < n → length text < m
        → tokens_within n size text ≡ tokens_within m size text }
    ensures strings { (n m : ℕ) (text : List ℕ) → length text < n → length text < m
        → string_within n text ≡ string_within m text }
    ensures names { (n m : ℕ) (next : List (List ℕ) → Reader Statement) (ts : List Placed)
        → length ts < n → length ts < m
        → listed_within n (is_symbol symbol.Comma) (the symbol.Comma) one_name [] next ts ≡
        listed_within m (is_symbol symbol.Comma) (the symbol.Comma) one_name [] next ts }

    // Of values and rows.
    ensures elements { (n m : ℕ) (next : List Element → Reader Statement) (ts : List Placed)
        → length ts < n → length ts < m
        → listed_within n (is_symbol symbol.Comma) (the symbol.Comma) table_element [] next ts ≡
        listed_within m (is_symbol symbol.Comma) (the symbol.Comma) table_element [] next ts }
    ensures clauses { (n m : ℕ) (next : List Clause → Reader Statement) (ts : List Placed)
        → 4 ≤ n → 4 ≤ m → clauses_within n [] next ts ≡ clauses_within m [] next ts }
    ensures lines { (n m : ℕ) (text : List ℕ) → length text < n → length text < m
        → data_within n text ≡ data_within m text }
    ensures ends { (n m : ℕ) (text : List ℕ) → length text < n → length text < m
        → data_ended_within n text ≡ data_ended_within m text }
    ensures rows { (n m : ℕ) (types : List ColType) (sign : Option ℕ) (ended : Bool) (count : ℕ)
        (lines : List ℕ) → length lines < n → length lines < m
        → rows_within n types sign ended count lines
        ≡ rows_within m types sign ended count lines }
    ensures texts { (n m : ℕ) (text : List ℕ) → length text < n → length text < m
        → unescaped_within n text ≡ unescaped_within m text }

    // Of conditions.
    ensures literals { (n m : ℕ) (next : List Literal → Reader Statement) (ts : List Placed)
        → length ts < n → length ts < m
        → listed_within n (is_symbol symbol.Comma) (the symbol.Comma) literal [] next ts ≡
        listed_within m (is_symbol symbol.Comma) (the symbol.Comma) literal [] next ts }
    ensures ands { (n m depth : ℕ) (front : Condition TestText)
        (next : Condition TestText → Reader Statement) (ts : List Placed)
        → length ts ≤ n → length ts ≤ m
        → joined_within n (codes "AND") And (term_within depth) front next ts ≡
        joined_within m (codes "AND") And (term_within depth) front next ts }
    ensures ors { (n m depth : ℕ) (front : Condition TestText)
        (next : Condition TestText → Reader Statement) (ts : List Placed)
        → length ts ≤ n → length ts ≤ m
        → joined_within n (codes "OR") Or (all_of (term_within depth)) front next ts ≡
        joined_within m (codes "OR") Or (all_of (term_within depth)) front next ts }
{}
