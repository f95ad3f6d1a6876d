// What FINAL sees after events of the core. The function has an empty body and the law as its contract.
ghost use Rattle.std.specs.Prelude.{◌≡◌, ℕ, List, Some};
ghost use Rattle.std.specs.List.Sorted.{IsPermutation};
ghost use Rattle.mt_values.specs.Values.{Row};
ghost use Rattle.mt_values.specs.declared.schema.Schema.{Schema};
ghost use Rattle.table_core.specs.Core.{Core};
ghost use Rattle.table_core.specs.declared.event.Event.{Event};
ghost use Rattle.table_core.specs.mt_model.Final.{FoldsAll, KeysFoldOnce};
ghost use Rattle.table_core.specs.mt_model.History.{schema_of};
ghost use Rattle.table_core.specs.mt_model.Live.{live};
ghost use Rattle.final_events.specs.Cores.{LeadTo, MergesVisible};

/// After any events of the core, merges and crashes among them, the rows of a table's visible parts can be merged, and one merge of
/// all of them is what FINAL may leave of the table's live rows. So it does not depend on what was merged: after two lists of
/// events that end with the same history the same rows are left, where the rows of each key fold to one thing.
pub fn final_rows_do_not_depend_on_events()
    ensures merged { (events : List Event) (core : Core) (table : List ℕ) (schema : Schema)
        → LeadTo events core → schema_of table core.history ≡ Some schema
        → (out : List Row) × MergesVisible schema table core out }
    ensures folds { (events : List Event) (core : Core) (table : List ℕ) (schema : Schema)
        (out : List Row) → LeadTo events core → schema_of table core.history ≡ Some schema
        → MergesVisible schema table core out
        → FoldsAll schema (live table schema core.history) out }
    ensures same { (events others : List Event) (one two : Core) (table : List ℕ)
        (schema : Schema) (a b : List Row) → LeadTo events one → LeadTo others two
        → one.history ≡ two.history → schema_of table one.history ≡ Some schema
        → KeysFoldOnce schema (live table schema one.history)
        → MergesVisible schema table one a → MergesVisible schema table two b
        → IsPermutation a b }
{}
