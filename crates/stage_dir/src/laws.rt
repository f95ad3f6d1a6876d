// What a sealed stage is sure to keep. Each function has an empty body and the law as its contract.
ghost use Rattle.std.specs.Prelude.{◌≡◌, ◌≢◌, ◌≤◌, ◌<◌, ◌+◌, ◌⊎◌, ◌++◌, ◌∷◌, [], ℕ, List, Some, None, true, false};
ghost use Rattle.mt_base.specs.declared.name.FileId.{FileId};
ghost use Rattle.mt_outside.specs.declared.disk.Change.{Change};
ghost use Rattle.mt_outside.specs.Files.{Files, appended, bytes_of, is_synced};
ghost use Rattle.mt_outside.specs.Disk.{AllBy, Image, Names, Since, Told, files_at, put, with_change};
ghost use Rattle.stage_dir.specs.Stages.{AreSealed, has_file, names_in, settled, written};
ghost use Rattle.stage_dir.specs.Crashes.{AreOfOthers, HoldsExactly, IsOfOther, WasPublished};

/// A file that was written has its bytes, one that has grown its bytes and then the new ones, and neither changes another; a seal changes no bytes, and
/// leaves each file synced.
pub fn written_files_keep_their_bytes()
    // A file that is written or grows.
    ensures file { (files : Files) (file : FileId) (bytes : List ℕ)
        → has_file file (names_in files) ≡ false
        → bytes_of file (files ++ written file bytes ∷ []) ≡ bytes }
    ensures others { (files : Files) (file other : FileId) (bytes : List ℕ) → file ≢ other
        → bytes_of other (files ++ written file bytes ∷ []) ≡ bytes_of other files }
    ensures grown { (files : Files) (file : FileId) (bytes : List ℕ)
        → bytes_of file (appended file bytes files) ≡ bytes_of file files ++ bytes }
    ensures grown_others { (files : Files) (file other : FileId) (bytes : List ℕ) → file ≢ other
        → bytes_of other (appended file bytes files) ≡ bytes_of other files }

    // A seal.
    ensures seal { (files : Files) (file : FileId)
        → bytes_of file (settled files) ≡ bytes_of file files }
    ensures synced { (files : Files) (file : FileId) → AreSealed files
        → is_synced file files ≡ true }
{}

/// The published files of a sealed stage survive each crash that comes after a sync of the names, as long as only other names change:
/// the name is there, and each of its files has exactly the bytes that were written. A crash before that sync leaves this, or no such name.
pub fn sealed_files_survive()
    // So it is after a publish, and so it stays.
    ensures publish { (before now : Told) (clock : ℕ) (name : List ℕ) (files : Files)
        → AllBy clock before → AreSealed files
        → put clock name (Some files) (Some before) ≡ Some now
        → WasPublished before clock name files now }
    ensures change { (before now : Told) (clock mark : ℕ) (name : List ℕ) (files : Files)
        (change : Change Files) → WasPublished before clock name files now → clock ≤ mark
        → IsOfOther name change
        → WasPublished before clock name files (with_change mark change now) }

    // The sync raised the mark above that of the publish.
    ensures after_sync { (before now : Told) (clock mark : ℕ) (name : List ℕ) (files : Files)
        (names : Names) → WasPublished before clock name files now
        → Since now mark (clock + 1) names → HoldsExactly name files names }
    ensures crash_now { (before now : Told) (clock mark : ℕ) (name : List ℕ) (files : Files)
        (names : Names) → WasPublished before clock name files now → clock < mark
        → Image now mark names → HoldsExactly name files names }

    // Before the publish no crash could leave the name.
    ensures before_sync { (before now : Told) (clock mark : ℕ) (name : List ℕ) (files : Files)
        (names : Names) → WasPublished before clock name files now
        → ((old : Names) → Image before clock old → files_at name old ≡ None)
        → Since now mark clock names → (files_at name names ≡ None)
        ⊎ HoldsExactly name files names }
    ensures new_name { (told : Told) (clock : ℕ) (name : List ℕ) (names : Names)
        → AreOfOthers 0 name told → Image told clock names → files_at name names ≡ None }
{}
