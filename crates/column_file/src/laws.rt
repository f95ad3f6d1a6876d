// What the definitions say of bytes, whichever function reads them.
ghost use Rattle.std.specs.Prelude.{◌≡◌, ◌+◌, ℕ, List, length, slice_range};
ghost use Rattle.std.specs.Bool.{Decides};
ghost use Rattle.mt_values.specs.declared.value.ColType.{ColType};
ghost use Rattle.mt_values.specs.declared.value.Value.{Value};
ghost use Rattle.column_file.specs.Faults.{IsFirstFault};
ghost use Rattle.column_file.specs.Granules.{granule_of, granule_start};
ghost use Rattle.column_file.specs.Spellings.{IsSpelling, Spells};
ghost use Rattle.column_file.specs.Tests.{spells};

/// Bytes spell at most one list of so many values of a type. Where they have a first fault they spell none, and it is at one place.
pub fn bytes_are_read_in_one_way()
    ensures values { (t : ColType) (count : ℕ) (bytes : List ℕ) (xs ys : List Value)
        → IsSpelling t count bytes xs → IsSpelling t count bytes ys → xs ≡ ys }
    ensures fault { (t : ColType) (count : ℕ) (bytes : List ℕ) (place : ℕ) (values : List Value)
        → IsFirstFault t count bytes place → IsSpelling t count bytes values → ⊥ }
    ensures place { (t : ColType) (count : ℕ) (bytes : List ℕ) (first second : ℕ)
        → IsFirstFault t count bytes first → IsFirstFault t count bytes second → first ≡ second }
{}

/// The test whether bytes spell so many values of a type is true exactly where they do.
pub fn spellings_are_tested()
    ensures { (t : ColType) (count : ℕ) (bytes : List ℕ)
        → Decides (spells t count bytes) (Spells t count bytes) }
{}

/// The bytes from the mark of a granule up to the next mark spell the granule's values.
pub fn granules_are_spelled()
    ensures { (t : ColType) (values : List Value) (bytes : List ℕ) (granularity granule : ℕ)
        → IsSpelling t (length values) bytes values
        → IsSpelling t (length (granule_of granularity values granule)) (slice_range bytes
        (granule_start granularity values granule) (granule_start granularity values (granule + 1)))
        (granule_of granularity values granule) }
{}
