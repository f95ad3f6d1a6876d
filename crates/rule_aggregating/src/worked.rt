// Worked examples (docs/engines.md, "AggregatingMergeTree"): the functions have empty bodies and the examples as their contracts.
ghost use Rattle.std.specs.Prelude.{◌≡◌, ◌∷◌, [], ℕ, List, None, Some, bit_and, bit_or, bit_xor};
ghost use Rattle.std.specs.List.{reduce};
ghost use Rattle.rule_law.specs.mt_model.Rules.{LeavesAggregates, joined_bits};
ghost use Rattle.mt_values.specs.declared.engine.Aggregate.TheVariants.{AnyLast, Max};
ghost use Rattle.mt_values.specs.declared.value.Value.TheVariants.{Text, UInt8};
ghost use Rattle.mt_values.specs.Values.{Row};

/// The bits that 12, 10 and 9 all have, that some have, and that an odd number of them has.
pub fn bits_are_worked()
    ensures all { reduce (joined_bits bit_and) (UInt8 12 ∷ UInt8 10 ∷ UInt8 9 ∷ [])
        ≡ Some (UInt8 8) }
    ensures some { reduce (joined_bits bit_or) (UInt8 12 ∷ UInt8 10 ∷ UInt8 9 ∷ [])
        ≡ Some (UInt8 15) }
    ensures odd { reduce (joined_bits bit_xor) (UInt8 12 ∷ UInt8 10 ∷ UInt8 9 ∷ [])
        ≡ Some (UInt8 15) }
{}

/// Of (3, x, 7) and (2, y, 8), with `max`, `anyLast` and a column without a function, (3, y, 7) is left, and no other row may be.
pub fn rows_are_worked()
    ensures left { (x y : List ℕ) → LeavesAggregates (Some Max ∷ Some AnyLast ∷ None ∷ [])
        ((UInt8 3 ∷ Text x ∷ UInt8 7 ∷ []) ∷ (UInt8 2 ∷ Text y ∷ UInt8 8 ∷ []) ∷ [])
        ((UInt8 3 ∷ Text y ∷ UInt8 7 ∷ []) ∷ []) }
    ensures alone { (x y : List ℕ) (out : List Row)
        → LeavesAggregates (Some Max ∷ Some AnyLast ∷ None ∷ [])
        ((UInt8 3 ∷ Text x ∷ UInt8 7 ∷ []) ∷ (UInt8 2 ∷ Text y ∷ UInt8 8 ∷ []) ∷ []) out
        → out ≡ (UInt8 3 ∷ Text y ∷ UInt8 7 ∷ []) ∷ [] }
{}
