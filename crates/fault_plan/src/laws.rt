// What a choice makes of a crash, said in the sentences that a user would check. Each function has an empty body and the law as its contract.
ghost use Rattle.std.specs.Prelude.{◌+◌, ◌<◌, ◌≤◌, ◌^◌, ℕ, length};
ghost use Rattle.mt_outside.specs.Disk.{Told, Names, Image, IsStartedAgain, Survive, at_clock, names_of};
ghost use Rattle.fault_plan.specs.Images.{image_told};

/// Each image of a disk with at most 63 unsettled changes is reached by a choice: what a crash now may leave is the image of this choice, but for the
/// bytes of files whose last append wasn't synced. Bit 63 of the choice is not set, so no file of its image has lost bytes.
pub fn images_are_reached_by_choices()
    ensures { (told : Told) (clock : ℕ) (names : Names) → Image told clock names
        → length (at_clock clock told) ≤ 63 → (choice : ℕ) × (choice < 2 ^ 63)
        × Survive (names_of (image_told choice clock told)) names }
{}

/// An image of an image is an image of the first disk: what a crash may leave of an image, at the mark of the first disk or a later one,
/// it might have left of the first disk.
pub fn images_of_an_image_are_images()
    ensures { (told : Told) (clock choice later : ℕ) (names : Names) → clock ≤ later
        → Image (image_told choice clock told) later names → Image told clock names }
{}

/// The image of a choice, with the mark one above, is the disk started again after a crash at that moment.
pub fn images_are_started_again()
    ensures { (told : Told) (clock choice since : ℕ) → since ≤ clock
        → IsStartedAgain told clock since (image_told choice clock told) (clock + 1) }
{}
