// What the definitions say of bytes, whichever function reads them.
ghost use Rattle.std.specs.Prelude.{◌≡◌, ℕ, List};
ghost use Rattle.mt_values.specs.declared.manifest.Manifest.{Manifest};
ghost use Rattle.digest_file.specs.Faults.{IsFirstFault};
ghost use Rattle.digest_file.specs.Spellings.{IsEntry, IsEntryOf, IsManifest, IsManifestOf};

/// Bytes are the entry of at most one text, and of at most one manifest. Where they have a first fault they are none, and it is at one place.
pub fn files_are_read_in_one_way()
    ensures entry { (bytes x y : List ℕ) → IsEntryOf bytes x → IsEntryOf bytes y → x ≡ y }
    ensures entry_fault { (bytes : List ℕ) (place : ℕ) → IsFirstFault IsEntry bytes place
        → IsEntry bytes → ⊥ }
    ensures entry_place { (bytes : List ℕ) (first second : ℕ) → IsFirstFault IsEntry bytes first
        → IsFirstFault IsEntry bytes second → first ≡ second }
    ensures manifest { (bytes : List ℕ) (x y : Manifest) → IsManifestOf bytes x
        → IsManifestOf bytes y → x ≡ y }
    ensures manifest_fault { (bytes : List ℕ) (place : ℕ) → IsFirstFault IsManifest bytes place
        → IsManifest bytes → ⊥ }
    ensures manifest_place { (bytes : List ℕ) (first second : ℕ)
        → IsFirstFault IsManifest bytes first → IsFirstFault IsManifest bytes second
        → first ≡ second }
{}
