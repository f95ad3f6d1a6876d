// Laws of names. Each function has an empty body and the law as its contract.
ghost use Rattle.std.specs.Prelude.{◌≡◌, ◌≢◌, ◌≤◌, ◌∷◌, All, List};
ghost use Rattle.mt_base.specs.Limits.{level_limit};
ghost use Rattle.part_name.specs.declared.part.PartName.{PartName};
ghost use Rattle.part_name.specs.Merged.{RiseFrom, last_name, merged_name};
ghost use Rattle.part_name.specs.PartNames.{IsPartName, Contains, Before, part_text};

/// Two names that are spelled alike are one name.
pub fn part_texts_are_told_apart()
    ensures { (a b : PartName) → IsPartName a → IsPartName b → part_text a ≡ part_text b → a ≡ b }
{}

/// A part contains itself and what the parts that it contains contain, and two that contain each other are one.
/// Neither of two parts stands before the other where one contains the other.
pub fn containment_is_an_order()
    ensures self_contained { (a : PartName) → Contains a a }
    ensures passed_on { (a b c : PartName) → Contains a b → Contains b c → Contains a c }
    ensures one { (a b : PartName) → IsPartName a → IsPartName b → Contains a b → Contains b a
        → a ≡ b }
    ensures not_before { (a b : PartName) → IsPartName b → Contains a b → Before a b → ⊥ }
    ensures not_behind { (a b : PartName) → IsPartName b → Contains a b → Before b a → ⊥ }
{}

/// The part that a merge makes of parts of one partition contains each of them and is none of them. Where each of these
/// stands before the next one, it has the least block of the first and the greatest of the last. Its name is one of a part,
/// unless its level is too great.
pub fn merged_parts_contain_their_sources()
    ensures contains { (first : PartName) (rest : List PartName)
        → All (λ p. p.partition ≡ first.partition) rest
        → All (Contains (merged_name first rest)) (first ∷ rest) }
    ensures another { (first : PartName) (rest : List PartName)
        → All (λ p. p ≢ merged_name first rest) (first ∷ rest) }
    ensures least { (first : PartName) (rest : List PartName) → RiseFrom first rest
        → (merged_name first rest).min_block ≡ first.min_block }
    ensures greatest { (first : PartName) (rest : List PartName) → RiseFrom first rest
        → (merged_name first rest).max_block ≡ (last_name first rest).max_block }
    ensures named { (first : PartName) (rest : List PartName) → All IsPartName (first ∷ rest)
        → (merged_name first rest).level ≤ level_limit → IsPartName (merged_name first rest) }
{}
