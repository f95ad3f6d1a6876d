// Runs that meet the premises of what is promised. Each function has an empty body and the law as its contract.
ghost use Rattle.std.specs.Prelude.{◌≡◌, ◌+◌, ℕ, List, [], Some, false, length};
ghost use Rattle.mt_values.specs.Annals.{Told};
ghost use Rattle.mt_outside.specs.Disk as root;
ghost use Rattle.root_log.specs.root_store.Crashes.{AllStand, IsFirstOf, IsMarkAfter, none_begun};
ghost use Rattle.session.specs.replies.Foreseen.{history};
ghost use Rattle.mt_program.specs.declared.status.Status.{Status};
ghost use Rattle.mt_program.specs.Crashes.{LeavesForCrashes};
ghost use Rattle.mt_program.specs.Courses.{Item, any_unsettles};
ghost use Rattle.mt_program.specs.Headline.{Headline};
ghost use Rattle.mt_program.specs.Worlds.{BeginsAfter, Starts, World};
ghost use Rattle.root_log.specs.root_store.Crashes.{Storage};

/// An empty disk with annals that hold nothing meets all that is asked before a run. So does what a run leaves, where no reply says that the commit
/// of a command failed. And so does a disk that was started again after a crash, at whatever moment, with one of the lists that the crash may have left:
/// the first entries, all that were noted or more, or all of them and the one that was begun. In what a run leaves for
/// crashes the changes of the disk stand in the order of their marks.
pub fn premises_are_met()
    ensures empty { (w : World) (script : List ℕ) → w.storage.disk ≡ Some []
        → w.storage.annals ≡ Some (none_begun []) → w.source ≡ Some script → w.sink ≡ Some []
        → Starts w (none_begun []) script [] × AllStand [] w.storage.clock []
        × AllStand [] (w.storage.clock + 1) [] }
    ensures next { (ended : Status) (before after w : World) (kept : Told)
        (script written more said : List ℕ) (left : Headline ended before after kept script written)
        → any_unsettles left.course.ran left.course.replies ≡ false → BeginsAfter after w more said
        → Starts w left.now more said }
    ensures calm { (statements : List Item) (opened : ℕ) (now : Storage) (first : Told) (start : ℕ)
        (left : LeavesForCrashes statements opened now first start) (told : root.Told) (kept : Told)
        → now.failed ≡ opened → now.disk ≡ Some told → now.annals ≡ Some kept
        → AllStand told now.clock (history kept) }
    ensures stamped { (statements : List Item) (opened : ℕ) (now : Storage) (first : Told)
        (start : ℕ) (left : LeavesForCrashes statements opened now first start) (told : root.Told)
        → now.disk ≡ Some told → root.IsStamped now.clock told }
    ensures crash { (statements : List Item) (opened : ℕ) (now : Storage) (first : Told)
        (start m mark : ℕ) (left : LeavesForCrashes statements opened now first start)
        (again : root.Told) (later : ℕ)
        → IsMarkAfter (length first.list) start left.safe.kept.list m mark
        → root.IsStartedAgain left.safe.told now.clock mark again later → (kept : Told)
        × IsFirstOf m left.safe.kept.list left.safe.kept.begun (history kept)
        × AllStand again later (history kept) }
{}
