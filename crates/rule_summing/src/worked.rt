// Worked examples of sums (docs/engines.md, "SummingMergeTree"): the functions have empty bodies and the examples as their contracts.
ghost use Rattle.std.specs.Prelude.{◌≡◌, ◌∷◌, [], negsuc, pos, true};
ghost use Rattle.rule_law.specs.mt_model.Rules.{are_zero, with_sums, wrapped_as};
ghost use Rattle.mt_values.specs.declared.value.Value.TheVariants.{Int8, UInt64, UInt8};

/// 18446744073709551615 and 1 of UInt64 sum to 0, 255 and 2 of UInt8 to 1, and 127 and 1 of Int8 to -128.
pub fn sums_are_worked()
    ensures zero { are_zero (0 ∷ []) (with_sums (0 ∷ []) ((UInt64 18446744073709551615 ∷ [])
        ∷ (UInt64 1 ∷ []) ∷ []) (UInt64 1 ∷ [])) ≡ true }
    ensures unsigned { with_sums (1 ∷ []) ((UInt8 7 ∷ UInt8 255 ∷ [])
        ∷ (UInt8 8 ∷ UInt8 2 ∷ []) ∷ []) (UInt8 7 ∷ UInt8 255 ∷ []) ≡ UInt8 7 ∷ UInt8 1 ∷ [] }
    ensures signed { with_sums (0 ∷ []) ((Int8 (pos 127) ∷ []) ∷ (Int8 (pos 1) ∷ []) ∷ [])
        (Int8 (pos 1) ∷ []) ≡ Int8 (negsuc 127) ∷ [] }
    ensures below { wrapped_as (UInt8 0) (negsuc 0) ≡ UInt8 255 }
{}
