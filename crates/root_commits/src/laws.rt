// What follows of commits, what a crash leaves of a root, and how runs go on after it. Each function has an empty body and the law as its
// contract.
ghost use Rattle.std.specs.Prelude.{◌≡◌, ◌+◌, ℕ, List, OnOk, Option, Result, Some, length, map};
ghost use Rattle.mt_values.specs.declared.command.Command.TheVariants as command;
ghost use Rattle.mt_values.specs.declared.command.Create.{Create};
ghost use Rattle.mt_values.specs.declared.annals.Noted.{Noted};
ghost use Rattle.mt_values.specs.Annals as keeper;
ghost use Rattle.mt_outside.specs.Disk.{IsStartedAgain, Names, Told, names_of};
ghost use Rattle.mt_outside.specs.Files.{Files};
ghost use Rattle.root_store.specs.mt_model.History.{History};
ghost use Rattle.root_store.specs.ByteOrder.{AreInByteOrder};
ghost use Rattle.root_store.specs.Crashes.{AllStand, IsCrashSafe, IsFirstOf, IsMarkAfter, entries_of, none_begun};
ghost use Rattle.root_store.specs.Cores.{ShowsCore};
ghost use Rattle.root_store.specs.Crashes.{KeepsThroughCrashes};
ghost use Rattle.root_store.specs.Roots.{Stands};
ghost use Rattle.root_store.specs.Shown.{HasNoMark};
ghost use Rattle.root_store.specs.Soundness.{HasSoundParts, RootStands};
ghost use Rattle.root_store.specs.Stores.{CoreStands, table_at};
ghost use Rattle.root_store.specs.declared.store.Table.{Table};
ghost use Rattle.root_store.specs.durable_commit.Commits.{entry_of};
ghost use Rattle.root_store.specs.durable_commit.stage_dir.Stages.{Filled};
ghost use Rattle.root_store.specs.part_name.declared.part.PartName.{PartName};
ghost use Rattle.root_store.specs.declared.store.CoreStore.{CoreStore};
ghost use Rattle.root_store.specs.part_set.Parts.{kept_in};
ghost use Rattle.root_store.specs.part_set.Runs.{IsRun};
ghost use Rattle.root_store.specs.part_set.Sets.{parts_of};
ghost use Rattle.root_store.specs.table_core.Core.{Core};
ghost use Rattle.root_commits.specs.Commits.{IsSealedEntry, IsSealedOf, SameStore, StandsWhere};
ghost use Rattle.root_commits.specs.Events.{IsAccepted, IsPut};
ghost use Rattle.root_commits.specs.Images.{LeavesAfter, LeavesOne};
ghost use Rattle.root_commits.specs.Merges.{Merging, SealsForKept, SealsMerge, SealsMergeOfParts, SealsRows, source_names};
ghost use Rattle.root_commits.specs.Publications.{Adding, entry_of_adding, publication_of_create, publication_of_part, with_entry};
ghost use Rattle.root_commits.specs.Turns.{CommitsCreate, CommitsMerge, CommitsPart, Root};
ghost use Rattle.root_commits.specs.declared.commits.Returned.{Returned};

use mt_outside::Dir;

/// What a store and the root's names stand for after a commit, where they stood for a history: the history with the command that was
/// committed. A merge, and one that was refused, leave the history.
pub fn commits_stand<F, T, S>()
    ensures create { (files_of : F → Option Files) (session : ℕ) (c : Create) (entry : Filled)
        (was now : Root F) (sealed : S) (result : Result T (Returned S))
        → CommitsCreate session c entry was now sealed result
        → (h : History) → CoreStands files_of h was.store → OnOk result (StandsWhere files_of
        (with_entry (publication_of_create session c entry) h) now.store now.storage.disk
        (IsSealedEntry c entry.files × RootStands was.storage.disk h)) }
    ensures part { (files_of : F → Option Files) (a : Adding) (was now : Root F) (sealed : S)
        (result : Result T (Returned S)) → CommitsPart files_of a was now sealed result
        → IsSealedOf a.kept.schema a.block a.sealed.files a.loaded
        → (h : History) → CoreStands files_of h was.store → OnOk result (StandsWhere files_of
        (with_entry (publication_of_part a) h) now.store now.storage.disk
        (RootStands was.storage.disk h)) }
    ensures merge { (files_of : F → Option Files) (m : Merging) (name : PartName) (was now : Root F)
        (sealed : S) (result : Result T (Returned S))
        → CommitsMerge files_of m name was now sealed result
        → (t : Table) → table_at was.store m.table ≡ Some t
        → (h : History) → CoreStands files_of h was.store
        → SealsMerge t.schema h (source_names was.store m) m
        → StandsWhere files_of h now.store now.storage.disk (RootStands was.storage.disk h) }
{}

/// Where each part of a store holds rows, each does after a commit of what holds rows.
pub fn commits_hold_rows<F, T, S>()
    ensures create { (files_of : F → Option Files) (session : ℕ) (c : Create) (entry : Filled)
        (was now : Root F) (sealed : S) (result : Result T (Returned S))
        → CommitsCreate session c entry was now sealed result
        → HasSoundParts files_of was.store → HasSoundParts files_of now.store }
    ensures part { (files_of : F → Option Files) (a : Adding) (was now : Root F) (sealed : S)
        (result : Result T (Returned S)) → CommitsPart files_of a was now sealed result
        → IsSealedOf a.kept.schema a.block a.sealed.files a.loaded
        → HasSoundParts files_of was.store → HasSoundParts files_of now.store }
    ensures merge { (files_of : F → Option Files) (m : Merging) (name : PartName) (was now : Root F)
        (sealed : S) (result : Result T (Returned S))
        → CommitsMerge files_of m name was now sealed result
        → (t : Table) → table_at was.store m.table ≡ Some t → SealsRows t.schema m
        → HasSoundParts files_of was.store → HasSoundParts files_of now.store }
{}

/// Which event of the core a commit is, where it was done. One that was refused is none.
pub fn commits_are_events<F, T, S>()
    ensures create { (files_of : F → Option Files) (session : ℕ) (c : Create) (entry : Filled)
        (was now : Root F) (sealed : S) (result : Result T (Returned S))
        → CommitsCreate session c entry was now sealed result
        → (core : Core) → ShowsCore files_of was.store core
        → OnOk result (IsAccepted files_of core (entry_of session (command.Create c)) now.store) }
    ensures part { (files_of : F → Option Files) (a : Adding) (was now : Root F) (sealed : S)
        (result : Result T (Returned S)) → CommitsPart files_of a was now sealed result
        → IsSealedOf a.kept.schema a.block a.sealed.files a.loaded
        → (core : Core) → ShowsCore files_of was.store core
        → OnOk result (IsAccepted files_of core (entry_of_adding a) now.store) }
    ensures merge { (files_of : F → Option Files) (m : Merging) (name : PartName) (was now : Root F)
        (sealed : S) (result : Result T (Returned S))
        → CommitsMerge files_of m name was now sealed result
        → (t : Table) → table_at was.store m.table ≡ Some t
        → (core : Core) → ShowsCore files_of was.store core
        → SealsMerge t.schema core.history (source_names was.store m) m
        → OnOk result (IsPut files_of core m now.store) }
    ensures refused { (files_of : F → Option Files) (core : Core) (old new : CoreStore F)
        → SameStore old new → ShowsCore files_of old core → ShowsCore files_of new core }
{}

/// What a crash leaves of the disk, at each moment of a commit and after it.
pub fn commits_leave_images<F, T, S>()
    ensures create { (files_of : F → Option Files) (session : ℕ) (c : Create) (entry : Filled)
        (was now : Root F) (sealed : S) (result : Result T (Returned S))
        → CommitsCreate session c entry was now sealed result
        → IsSealedEntry c entry.files → (h : History) → CoreStands files_of h was.store
        → LeavesOne was h
        → LeavesAfter was now h (with_entry (publication_of_create session c entry) h) result }
    ensures part { (files_of : F → Option Files) (a : Adding) (was now : Root F) (sealed : S)
        (result : Result T (Returned S)) → CommitsPart files_of a was now sealed result
        → IsSealedOf a.kept.schema a.block a.sealed.files a.loaded
        → (h : History) → CoreStands files_of h was.store → LeavesOne was h
        → LeavesAfter was now h (with_entry (publication_of_part a) h) result }
    ensures merge { (files_of : F → Option Files) (m : Merging) (name : PartName) (was now : Root F)
        (sealed : S) (result : Result T (Returned S))
        → CommitsMerge files_of m name was now sealed result
        → (t : Table) → table_at was.store m.table ≡ Some t
        → (h : History) → CoreStands files_of h was.store
        → SealsMerge t.schema h (source_names was.store m) m → LeavesOne was h
        → LeavesAfter was now h h result }
{}

/// A commit leaves a crash all that was noted, of the disk and of what the annals list.
pub fn commits_keep_through_crashes<F, T, S>()
    ensures create { (files_of : F → Option Files) (session : ℕ) (c : Create) (entry : Filled)
        (was now : Root F) (sealed : S) (result : Result T (Returned S))
        → CommitsCreate session c entry was now sealed result
        → IsSealedEntry c entry.files → (first : keeper.Told) (start : ℕ)
        → KeepsThroughCrashes files_of was.store was.storage first start
        → KeepsThroughCrashes files_of now.store now.storage first start }
    ensures part { (files_of : F → Option Files) (a : Adding) (was now : Root F) (sealed : S)
        (result : Result T (Returned S)) → CommitsPart files_of a was now sealed result
        → IsSealedOf a.kept.schema a.block a.sealed.files a.loaded
        → (first : keeper.Told) (start : ℕ)
        → KeepsThroughCrashes files_of was.store was.storage first start
        → KeepsThroughCrashes files_of now.store now.storage first start }
    ensures merge { (files_of : F → Option Files) (m : Merging) (name : PartName) (was now : Root F)
        (sealed : S) (result : Result T (Returned S))
        → CommitsMerge files_of m name was now sealed result
        → (t : Table) → table_at was.store m.table ≡ Some t
        → SealsForKept files_of t.schema was.store was.storage.annals (source_names was.store m) m
        → (first : keeper.Told) (start : ℕ)
        → KeepsThroughCrashes files_of was.store was.storage first start
        → KeepsThroughCrashes files_of now.store now.storage first start }
{}

/// A commit of a command marks no part.
pub fn commits_mark_nothing<F, T, S>()
    ensures create { (session : ℕ) (c : Create) (entry : Filled)
        (was now : Root F) (sealed : S) (result : Result T (Returned S))
        → CommitsCreate session c entry was now sealed result
        → HasNoMark was.store → HasNoMark now.store }
    ensures part { (files_of : F → Option Files) (a : Adding) (was now : Root F) (sealed : S)
        (result : Result T (Returned S)) → CommitsPart files_of a was now sealed result
        → HasNoMark was.store → HasNoMark now.store }
{}

/// Where nobody acts between a merge and its put, what was sealed of whatever rows the parts hold is a merge by each history that the store
/// stands for.
pub fn parts_are_merged_by_history<F>()
    ensures { (files_of : F → Option Files) (store : CoreStore F) (m : Merging) (t : Table)
        → table_at store m.table ≡ Some t
        → IsRun m.run (kept_in m.partition (parts_of store.set m.table))
        → SealsMergeOfParts files_of t.schema store m
        → (h : History) → CoreStands files_of h store
        → SealsMerge t.schema h (source_names store m) m }
{}

/// Where a crash leaves all that was noted and what is begun has left nothing, whatever it leaves now stands for the list: so do the names as they read.
/// After a sync of the names it stays so. A root that is opened anew stands for its list, whatever a crash leaves.
pub fn crashes_leave_what_was_noted()
    ensures start { (told : Told) (clock : ℕ) (list : List Noted)
        → AllStand told clock (entries_of list)
        → IsCrashSafe told clock (none_begun list) list clock }
    ensures now { (told : Told) (clock : ℕ) (list first : List Noted) (start : ℕ)
        → IsCrashSafe told clock (none_begun list) first start
        → AllStand told clock (entries_of list) }
    ensures as_read { (told : Told) (clock : ℕ) (h : History) → AllStand told clock h
        → Stands (names_of told) h }
    ensures sync { (told : Told) (clock : ℕ) (list first : List Noted) (start : ℕ)
        → IsCrashSafe told clock (none_begun list) first start
        → IsCrashSafe told (clock + 1) (none_begun list) first start }
{}

/// Roots of the same names stand for histories of the same length. A store that is started again after a crash goes on with one list, whatever
/// that crash left of its files: the first entries, those that were noted before the crash or more, or all of them and the one that was begun.
/// So whatever a crash leaves of it stands for that list, as a next run asks for.
pub fn runs_go_on_after_a_crash()
    ensures one { (a b : Names) (h k : History) → Stands a h → Stands b k → AreInByteOrder a
        → AreInByteOrder b
        → map (λ (n : List ℕ × Files). n.0) a ≡ map (λ (n : List ℕ × Files). n.0) b
        → length h ≡ length k }
    ensures again { (told now : Told) (clock mark later m start : ℕ) (kept : keeper.Told)
        (first : List Noted) → IsStartedAgain told clock mark now later
        → IsCrashSafe told clock kept first start
        → IsMarkAfter (length first) start kept.list m mark → (h : History)
        × IsFirstOf m kept.list kept.begun h × AllStand now later h }
{}
