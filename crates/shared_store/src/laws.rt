// What follows of turns that change marks and works.
ghost use Rattle.std.specs.Prelude.{◌≡◌, ℕ, Option, OnErr, OnOk, Result, Some};
ghost use Rattle.mt_values.specs.declared.command.Create.{Create};
ghost use Rattle.mt_outside.specs.Files.{Files};
ghost use Rattle.root_commits.specs.Events.{IsPut};
ghost use Rattle.root_commits.specs.Images.{LeavesAfter, LeavesOne};
ghost use Rattle.root_commits.specs.Merges.{SealsForKept, SealsMerge, SealsRows};
ghost use Rattle.root_commits.specs.Publications.{Adding};
ghost use Rattle.root_commits.specs.Turns.{CommitsCreate, CommitsPart};
ghost use Rattle.root_commits.specs.declared.commits.Returned.{Returned};
ghost use Rattle.root_commits.specs.mt_model.History.{History};
ghost use Rattle.root_commits.specs.part_name.declared.part.PartName.{PartName};
ghost use Rattle.root_commits.specs.part_set.declared.run.Run.{Run};
ghost use Rattle.root_commits.specs.part_writer.declared.loaded.Loaded.{Loaded};
ghost use Rattle.root_commits.specs.root_store.Cores.{ShowsCore};
ghost use Rattle.root_commits.specs.root_store.Shown.{HasNoMark};
ghost use Rattle.root_commits.specs.root_store.Soundness.{HasSoundParts, RootStands};
ghost use Rattle.root_commits.specs.root_store.Stores.{CoreStands, table_at};
ghost use Rattle.root_commits.specs.root_store.declared.store.CoreStore.{CoreStore};
ghost use Rattle.root_commits.specs.root_store.declared.store.Table.{Table};
ghost use Rattle.root_commits.specs.stage_dir.Stages.{Filled};
ghost use Rattle.root_commits.specs.table_core.Core.{Core};
ghost use Rattle.shared_store.specs.Engines.{GoesThroughCrashes, IsOpen, Opened, root_in};
ghost use Rattle.shared_store.specs.Works.{AreApart, DropsWork, IsGone, NoOtherMark, PutsRun, PutsWork, SourcesAreFree, StandsOn, TakesUp, TakesWork, WorkStands, merging_of, names_of_work};
ghost use Rattle.shared_store.specs.declared.work.Put.{Put};
ghost use Rattle.shared_store.specs.declared.work.Work.{Work};

use root_commits::{
    commits_are_events, commits_hold_rows, commits_keep_through_crashes, commits_leave_images,
    commits_stand,
};

/// A turn that takes a work up, or lets one go, changes marks alone.
pub fn works_change_marks_alone<F>()
    ensures takes { (files_of : F → Option Files) (was now : Opened F) (work : Work F) (run : Run)
        → TakesWork was now work run → StandsOn files_of was now }
    ensures drops { (files_of : F → Option Files) (was now : Opened F) (work : Work F)
        → DropsWork work was now → StandsOn files_of was now }
{}

/// A merge that is put in place of a work's sources adds nothing: the root stands for the history that it stood for,
/// each part holds rows where each did, and a crash leaves what was noted. In the core it is one put; one that is
/// refused is no event. Where a source is gone marks alone change.
///
/// What was sealed needs to be a merge by that one history alone, under the names of the work's sources; for crashes by
/// the list of the annals.
pub fn puts_keep_the_history<F, T, S>()
    ensures stands { (files_of : F → Option Files) (work : Work F) (sealed : Filled)
        (loaded : Loaded) (was now : Opened F) (part : S) (result : Result T (Returned S))
        → (p : PutsRun files_of work sealed loaded was now part result)
        → (t : Table) → table_at was.store work.table ≡ Some t
        → (h : History) → CoreStands files_of h was.store
        → SealsMerge t.schema h (names_of_work work) (merging_of work p.run sealed loaded)
        → CoreStands files_of h now.store
        × (RootStands was.storage.disk h → RootStands now.storage.disk h) }
    ensures held { (files_of : F → Option Files) (work : Work F) (sealed : Filled)
        (loaded : Loaded) (was now : Opened F) (part : S) (result : Result T (Returned S))
        → (p : PutsRun files_of work sealed loaded was now part result)
        → (t : Table) → table_at was.store work.table ≡ Some t
        → SealsRows t.schema (merging_of work p.run sealed loaded)
        → HasSoundParts files_of was.store → HasSoundParts files_of now.store }
    ensures event { (files_of : F → Option Files) (work : Work F) (sealed : Filled)
        (loaded : Loaded) (was now : Opened F) (part : S) (result : Result T (Returned S))
        → (p : PutsRun files_of work sealed loaded was now part result)
        → (t : Table) → table_at was.store work.table ≡ Some t
        → (core : Core) → ShowsCore files_of was.store core
        → SealsMerge t.schema core.history (names_of_work work)
        (merging_of work p.run sealed loaded)
        → OnOk result (IsPut files_of core (merging_of work p.run sealed loaded) now.store) }
    ensures no_event { (files_of : F → Option Files) (work : Work F) (sealed : Filled)
        (loaded : Loaded) (was now : Opened F) (part : S) (result : Result T (Returned S))
        → PutsRun files_of work sealed loaded was now part result
        → (core : Core) → ShowsCore files_of was.store core
        → OnErr result (ShowsCore files_of now.store core) }
    ensures images { (files_of : F → Option Files) (work : Work F) (sealed : Filled)
        (loaded : Loaded) (was now : Opened F) (part : S) (result : Result T (Returned S))
        → (p : PutsRun files_of work sealed loaded was now part result)
        → (t : Table) → table_at was.store work.table ≡ Some t
        → (h : History) → CoreStands files_of h was.store
        → SealsMerge t.schema h (names_of_work work) (merging_of work p.run sealed loaded)
        → LeavesOne (root_in was) h → LeavesAfter (root_in was) (root_in now) h h result }
    ensures crashes { (files_of : F → Option Files) (work : Work F) (sealed : Filled)
        (loaded : Loaded) (was now : Opened F) (part : S) (result : Result T (Returned S))
        → (p : PutsRun files_of work sealed loaded was now part result)
        → (t : Table) → table_at was.store work.table ≡ Some t
        → SealsForKept files_of t.schema was.store was.storage.annals (names_of_work work)
        (merging_of work p.run sealed loaded)
        → GoesThroughCrashes files_of was now }
    ensures gone { (files_of : F → Option Files) (work : Work F) (was now : Opened F)
        (part : S) (name : PartName) (back : S) → IsGone was now work part name back
        → StandsOn files_of was now }
{
    commits_stand::<F, T, S>();
    commits_hold_rows::<F, T, S>();
    commits_are_events::<F, T, S>();
    commits_leave_images::<F, T, S>();
    commits_keep_through_crashes::<F, T, S>();
}

/// A work stands where it was taken up. Once it was put or let go, whatever was answered, no part that has the name of
/// a source bears a mark, wherever it stands by then: so no mark is left, where there was none but the work's own.
pub fn works_leave_no_mark<F, S>()
    ensures stands { (before : CoreStore F) (was : Opened F) (work : Work F) (run : Run)
        → IsOpen was → TakesUp before was.store work run → WorkStands was.store work run }
    ensures taken { (before now : CoreStore F) (work : Work F) (run : Run)
        → HasNoMark before → TakesUp before now work run → NoOtherMark now work }
    ensures put { (files_of : F → Option Files) (work : Work F) (sealed : Filled)
        (loaded : Loaded) (was now : Opened F) (part : S) (result : Result (Put S) (Returned S))
        → IsOpen was → PutsWork files_of work sealed loaded was now part result
        → SourcesAreFree now.store work × (NoOtherMark was.store work → HasNoMark now.store) }
    ensures dropped { (work : Work F) (was now : Opened F) → DropsWork work was now
        → SourcesAreFree now.store work × (NoOtherMark was.store work → HasNoMark now.store) }
{}

/// Each turn but the put or the drop of a work itself leaves it standing: its sources under their names and with their
/// marks, wherever that is then, and its table with its schema. What is taken up has no source in common with a work
/// that stands.
pub fn other_works_stand<F, T, S>()
    ensures takes { (was now : Opened F) (work other : Work F) (taken run : Run) → IsOpen was
        → TakesWork was now work taken → WorkStands was.store other run
        → AreApart work other × ((again : Run) × WorkStands now.store other again) }
    ensures puts { (files_of : F → Option Files) (work other : Work F) (sealed : Filled)
        (loaded : Loaded) (was now : Opened F) (part : S) (result : Result (Put S) (Returned S))
        (run : Run) → IsOpen was → PutsWork files_of work sealed loaded was now part result
        → AreApart work other → WorkStands was.store other run
        → (again : Run) × WorkStands now.store other again }
    ensures drops { (was now : Opened F) (work other : Work F) (run : Run)
        → DropsWork work was now → AreApart work other → WorkStands was.store other run
        → WorkStands now.store other run }
    ensures creates { (session : ℕ) (create : Create) (entry : Filled) (was now : Opened F)
        (other : Work F) (sealed : S) (result : Result T (Returned S)) (run : Run) → IsOpen was
        → CommitsCreate session create entry (root_in was) (root_in now) sealed result
        → WorkStands was.store other run → WorkStands now.store other run }
    ensures inserts { (files_of : F → Option Files) (a : Adding) (was now : Opened F)
        (other : Work F) (sealed : S) (result : Result T (Returned S)) (run : Run) → IsOpen was
        → CommitsPart files_of a (root_in was) (root_in now) sealed result
        → WorkStands was.store other run → WorkStands now.store other run }
{}
