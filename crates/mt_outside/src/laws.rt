// What a crash may leave, said once more in the sentences that a user would check.
ghost use Rattle.std.specs.Prelude.{◌≡◌, ◌⊎◌, ◌↔◌, ◌≤◌, ◌+◌, ℕ, List};
ghost use Rattle.mt_outside.specs.declared.disk.Change.{Change};
ghost use Rattle.mt_outside.specs.declared.disk.Change.TheVariants.{Publish};
ghost use Rattle.mt_outside.specs.Files.{Files};
ghost use Rattle.mt_outside.specs.Disk.{Told, Names, Image, IsStamped, Since, Survive, AllBy, WithPublished, names_of, with_change};

/// For the mark as it stands, what a crash at some moment since might have left is what a crash now may leave.
pub fn images_now()
    ensures { (told : Told) (clock : ℕ) (names : Names) → Since told clock clock names
        ↔ Image told clock names }
{}

/// Until a sync of the names succeeds, what a crash may leave only grows.
pub fn images_only_grow()
    ensures { (told : Told) (clock : ℕ) (change : Change Files) (names : Names)
        → Image told clock names → Image (with_change clock change told) clock names }
{}

/// After a publish or a remove, what a crash since a mark might have left is what it might have left before, or what a crash now may leave.
/// So it is after a sync of the names.
pub fn changes_add_their_own_moments()
    ensures change { (told : Told) (clock since : ℕ) (change : Change Files) (names : Names)
        → since ≤ clock → Since (with_change clock change told) clock since names
        ↔ (Since told clock since names ⊎ Image (with_change clock change told) clock names) }
    ensures sync { (told : Told) (clock since : ℕ) (names : Names) → since ≤ clock
        → Since told (clock + 1) since names
        ↔ (Since told clock since names ⊎ Image told (clock + 1) names) }
{}

/// Once a sync of the names succeeded, a crash leaves the names as they read, each synced file with its bytes.
pub fn syncs_settle()
    ensures { (told : Told) (clock : ℕ) (names : Names) → AllBy clock told
        → Image told (clock + 1) names ↔ Survive (names_of told) names }
{}

/// A disk that tells its changes in the order of their marks goes on so. The names as they read are among what a crash now may leave, and a sync adds nothing to that.
pub fn syncs_add_no_image()
    ensures change { (told : Told) (clock : ℕ) (change : Change Files) → IsStamped clock told
        → IsStamped clock (with_change clock change told) }
    ensures sync { (told : Told) (clock : ℕ) → IsStamped clock told → IsStamped (clock + 1) told }
    ensures as_read { (told : Told) (clock : ℕ) (names : Names) → IsStamped clock told
        → Survive (names_of told) names → Image told clock names }
    ensures fewer { (told : Told) (clock : ℕ) (names : Names) → IsStamped clock told
        → Image told (clock + 1) names → Image told clock names }
{}

/// What a crash may leave after a publish is what it might have left before it, or that with the published name.
pub fn publishes_add_one_name()
    ensures { (told : Told) (clock : ℕ) (name : List ℕ) (files : Files) (names : Names)
        → Image (with_change clock (Publish name files) told) clock names → Image told clock names
        ⊎ WithPublished (Image told clock) name files names }
{}
