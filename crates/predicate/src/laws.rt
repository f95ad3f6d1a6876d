// Laws of boxes: what follows from their definitions. Each function has an empty body and the law as its contract.
ghost use Rattle.std.specs.Prelude.{◌≡◌, false, true};
ghost use Rattle.mt_values.specs.declared.expr.Test.{Test};
ghost use Rattle.mt_values.specs.Conditions.{Condition};
ghost use Rattle.mt_values.specs.Tests.{eval};
ghost use Rattle.mt_values.specs.Values.{Row};
ghost use Rattle.predicate.specs.Boxes.{HasColumns, LiesIn, can};
ghost use Rattle.predicate.specs.declared.extent.Extent.{Extent};

/// What a condition is of a row that lies in a box it may be there, where the row has each column that the condition names.
pub fn boxes_hide_no_match()
    ensures yes { (c : Condition Test) (e : Extent) (row : Row) → LiesIn e row
        → HasColumns c row → eval c row ≡ true → (can c e).yes ≡ true }
    ensures no { (c : Condition Test) (e : Extent) (row : Row) → LiesIn e row
        → HasColumns c row → eval c row ≡ false → (can c e).no ≡ true }
{}
