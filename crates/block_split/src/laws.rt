// Laws of split rows: what follows from their definitions. Each function has an empty body and the law as its contract.
ghost use Rattle.std.specs.Prelude.{◌≡◌, ◌∷◌, [], List, Some, map, ℕ};
ghost use Rattle.mt_base.specs.declared.partition.Partition.TheVariants.{Number};
ghost use Rattle.mt_model.specs.Commands.{insert_commands};
ghost use Rattle.mt_values.specs.Values.{Row};
ghost use Rattle.mt_values.specs.declared.schema.Schema.{Schema};
ghost use Rattle.mt_values.specs.declared.value.Value.TheVariants.{UInt8};
ghost use Rattle.block_split.specs.Split.{command_of, split_rows};

/// The commands of an INSERT are those of its split rows, in their order.
pub fn commands_are_of_the_split_rows()
    ensures { (schema : Schema) (table : List ℕ) (rows : List Row)
        → insert_commands schema table rows
        ≡ map (command_of schema table) (split_rows schema rows) }
{}

/// In a table with its partition by the first column, the rows (2 1), (1 5) and (2 0) are split into (2 1) and (2 0),
/// which are of partition 2, and (1 5), which is of partition 1.
pub fn rows_are_split_in_order()
    ensures { (schema : Schema) → schema.partition ≡ Some 0
        → split_rows schema ((UInt8 2 ∷ UInt8 1 ∷ []) ∷ (UInt8 1 ∷ UInt8 5 ∷ [])
        ∷ (UInt8 2 ∷ UInt8 0 ∷ []) ∷ [])
        ≡ (Number 2, (UInt8 2 ∷ UInt8 1 ∷ []) ∷ (UInt8 2 ∷ UInt8 0 ∷ []) ∷ [])
        ∷ (Number 1, (UInt8 1 ∷ UInt8 5 ∷ []) ∷ []) ∷ [] }
{}
