// What follows of replies that tell of damage, and of statements that ran one after another. Each function has an empty body and the law as its contract.
ghost use Rattle.std.specs.Prelude.{ℕ, All, List, Option};
ghost use Rattle.mt_outside.specs.Files.{Files};
ghost use Rattle.mt_values.specs.declared.statement.SelectText.{SelectText};
ghost use Rattle.mt_values.specs.Script.{Item};
ghost use Rattle.merge_workers.specs.shared_store.history_seat.Turns.{IsSession};
ghost use Rattle.merge_workers.specs.shared_store.part_reader.declared.reading.Part.{Part};
ghost use Rattle.merge_workers.specs.shared_store.part_set.declared.kept.Snap.{Snap};
ghost use Rattle.merge_workers.specs.shared_store.root_commits.mt_model.History.{History};
ghost use Rattle.merge_workers.specs.shared_store.root_store.Soundness.{HoldsRows};
ghost use Rattle.merge_workers.specs.shared_store.Stood.{is_held, is_told};
ghost use Rattle.session.specs.Answers.{Having, KnowsOwn, TellsAt};
ghost use Rattle.session.specs.Runs.{EndsRun, HasRun, RanEach, RanOut};
ghost use Rattle.session.specs.Selects.{TellsOfDamage};

use merge_workers::shared_store::Names;

/// A reply that tells of damage tells of a part that holds no rows of its table: so there is none to a SELECT of a pinned table whose parts
/// hold rows, and none to any statement where each part of the store held rows as the root was opened.
pub fn sound_parts_are_not_damaged<F, B: Names>()
    ensures pinned { (files_of : F → Option Files) (snap : Snap (Part F)) (text : SelectText)
        (reply : List ℕ) → All (HoldsRows files_of snap.schema) snap.parts.items
        → TellsOfDamage files_of snap text reply → ⊥ }
    ensures told { (files_of : F → Option Files) (list : History) (statement : Item)
        (reply : List ℕ) → B.given is_told → B.given is_held
        → TellsAt files_of B.given B.before B.opening B.ledgers.parts list statement reply → ⊥ }
{}

/// Statements that ran one after another, each with its reply, are a run of the session, which began outside of a turn. Where memory ran out in one
/// more statement after them, such a run ends so.
pub fn statements_that_ran_are_a_run<F, B: Names>()
    ensures run { (files_of : F → Option Files) (statements : List Item)
        (replies : List (List ℕ)) (old new : Having) → IsSession old.seat → KnowsOwn old.seat
        → RanEach files_of B.given B.before B.opening B.ledgers.parts statements replies old new
        → HasRun B.given B.before B.opening B.ledgers.parts statements replies old new }
    ensures ends { (files_of : F → Option Files) (statements : List Item) (last : Item)
        (replies : List (List ℕ)) (old new : Having) → IsSession old.seat → KnowsOwn old.seat
        → RanOut files_of B.given B.before B.opening B.ledgers.parts statements last replies old new
        → EndsRun B.given B.before B.opening B.ledgers.parts statements last replies old new }
{}
