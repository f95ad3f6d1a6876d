// What follows of a root that stands for a history, and of one that is damaged. Each function has an empty body and the law as its contract.
ghost use Rattle.std.specs.Prelude.{◌≡◌, ◌≤◌, ℕ, List, Option, Result, Some, filter, length};
ghost use Rattle.mt_base.specs.declared.name.FileId.{FileId};
ghost use Rattle.mt_values.specs.declared.annals.Noted.{Noted};
ghost use Rattle.mt_outside.specs.Disk.{Names, Told, names_of};
ghost use Rattle.root_store.specs.mt_model.History.{History};
ghost use Rattle.root_store.specs.part_set.declared.root_name.RootName.{RootName};
ghost use Rattle.root_store.specs.part_set.Visible.{HasNoOrphan, HasNoOverlap};
ghost use Rattle.root_opening.specs.declared.opening.Damage.{Damage};
ghost use Rattle.root_opening.specs.declared.opening.OpenFault.{OpenFault};
ghost use Rattle.root_store.specs.declared.store.CoreStore.{CoreStore};
ghost use Rattle.root_store.specs.ByteOrder.{AreInByteOrder};
ghost use Rattle.root_store.specs.Cores.{ShowsCoreOf};
ghost use Rattle.root_store.specs.Crashes.{AllStand, IsCrashSafe, entries_of, none_begun};
ghost use Rattle.root_store.specs.Damage.{DamagedAt, IsFirstBadName, is_entry_name, most_tables};
ghost use Rattle.root_opening.specs.Opened.{HasSettled, SettlesNames};
ghost use Rattle.root_opening.specs.Opening.{IsNotDamaged, IsRootDamage, TellsDamage};
ghost use Rattle.root_store.specs.Roots.{AreNamesRead, Stands};
ghost use Rattle.root_store.specs.Shown.{AreShown, ImagesShow};
ghost use Rattle.root_store.specs.Stores.{CoreStands, StoreOf};

use mt_outside::Dir;

/// The names of a root are read in one way. Where the root stands for a history, no name is bad and none is an orphan, no two
/// parts overlap, there are not too many tables and no file is damaged.
pub fn sound_roots_are_not_damaged()
    ensures one { (names : Names) (a b : List RootName) → AreNamesRead names a
        → AreNamesRead names b
        → a ≡ b }
    ensures no_orphan { (names : Names) (h : History) (read : List RootName) → Stands names h
        → AreNamesRead names read → HasNoOrphan read }
    ensures no_overlap { (names : Names) (h : History) (read : List RootName) → Stands names h
        → AreNamesRead names read → HasNoOverlap read }
    ensures few { (names : Names) (h : History) (read : List RootName) → AreInByteOrder names
        → Stands names h → AreNamesRead names read
        → length (filter is_entry_name read) ≤ most_tables }
    ensures no_damage { (names : Names) (h : History) (read : List RootName) (place : ℕ)
        (f : FileId) → Stands names h → AreNamesRead names read → DamagedAt names read place f → ⊥ }
    ensures no_bad_name { (names : Names) (h : History) (place : ℕ) (name : List ℕ)
        → AreInByteOrder names → Stands names h → IsFirstBadName names place name → ⊥ }
{}

/// What keeps a root from being opened is one: of the kinds in their order, and of names in byte order, the first. Where the
/// root stands for a history there is none, and none is told.
pub fn damage_of_a_root_is_one()
    ensures one { (names : Names) (d e : Damage) → IsRootDamage names d → IsRootDamage names e
        → d ≡ e }
    ensures none { (names : Names) (h : History) (d : Damage) → AreInByteOrder names
        → Stands names h → IsRootDamage names d → ⊥ }
    ensures untold { (names : Names) (h : History) (fault : OpenFault) → AreInByteOrder names
        → Stands names h → TellsDamage names fault → IsNotDamaged fault }
{}

/// The names that a disk tells stand in byte order, each once.
pub fn told_names_rise()
    ensures { (told : Told) → AreInByteOrder (names_of told) }
{}

/// What a root is opened as has the visible parts among its names. It stands for each history that the root stands for, and shows a
/// state of the core with that history.
pub fn roots_stand_by_their_stores<D: Dir>()
    ensures stands { (names : Names) (h : History) (store : CoreStore D)
        → StoreOf D.files names store → Stands names h → CoreStands D.files h store }
    ensures core { (names : Names) (h : History) (store : CoreStore D)
        → StoreOf D.files names store → Stands names h → ShowsCoreOf D.files h store }
    ensures shown { (names : Names) (store : CoreStore D)
        → StoreOf D.files names store → AreShown store names }
{}

/// Where whatever a crash leaves of a disk stands for a list, an opening leaves it so, whatever it answers. The visible parts of
/// whatever a crash leaves of a root that was opened are the store's.
pub fn openings_leave_what_was_noted<D: Dir, T>()
    ensures crashes { (disk : Option Told) (told : Told) (before now : ℕ)
        (result : Result T OpenFault) (list : List Noted)
        → disk ≡ Some told → SettlesNames disk before now result
        → AllStand told before (entries_of list)
        → IsCrashSafe told now (none_begun list) list before }
    ensures images { (disk : Option Told) (told : Told) (before now : ℕ) (store : CoreStore D)
        (h : History) → disk ≡ Some told → HasSettled disk before now
        → StoreOf D.files (names_of told) store → AllStand told before h
        → ImagesShow disk now store }
{}
