// Laws of names. Each function has an empty body and the law as its contract.
ghost use Rattle.std.specs.Prelude.{◌≡◌, ◌<◌, ◌↔◌, ℕ, List, Some, slice_get};
ghost use Rattle.std.specs.declared.cmp.Ordering.TheVariants.{Less};
ghost use Rattle.part_set.specs.declared.root_name.RootName.{RootName};
ghost use Rattle.part_set.specs.NameOrder.{Rise, name_cmp};
ghost use Rattle.part_set.specs.RootNames.{IsRootName, root_text};

/// Two names of the root that are spelled alike are one name.
pub fn root_names_are_told_apart()
    ensures { (a b : RootName) → IsRootName a → IsRootName b → root_text a ≡ root_text b → a ≡ b }
{}

/// Of names that rise, one stands before another where it is below it in byte order: the first that is of a kind is
/// the first of that kind in byte order.
pub fn places_are_in_byte_order()
    ensures { (names : List RootName) (i j : ℕ) (a b : RootName) → Rise names
        → slice_get names i ≡ Some a → slice_get names j ≡ Some b → (i < j)
        ↔ (name_cmp a b ≡ Less) }
{}
