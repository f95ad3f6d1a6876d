// What reading and printing have to do with each other.
ghost use Rattle.std.specs.Prelude.{◌≡◌, ◌<◌, ◌≤◌, ◌++◌, ℕ, List, All, Ok, Option, Some, true, false, length, flat_map};
ghost use Rattle.mt_values.specs.declared.value.ColType.{ColType};
ghost use Rattle.mt_values.specs.Engines.{keeps_sign};
ghost use Rattle.mt_values.specs.Grid.{AreRowsOf};
ghost use Rattle.mt_values.specs.Printing.{fields, line};
ghost use Rattle.mt_values.specs.Rows.{inserted_rows, row_limit, signed_row_of_line};
ghost use Rattle.mt_values.specs.Script.{ends_data, line_from};
ghost use Rattle.mt_values.specs.Values.{AreValues, IsValue, Row, types_of};

/// Rows that were printed are read again. A row with a value at least, of values that columns may hold, whose sign is 1
/// or -1 where its table has one, is the row that its line is, without its line feed. Whatever comes after its line, the
/// line ends at its own line feed, and it is not the one that ends data. And the lines of such rows of one table are the
/// data that adds those rows.
pub fn printed_rows_are_read()
    ensures row { (types : List ColType) (sign : Option ℕ) (row : Row) (number : ℕ)
        → types_of row ≡ types → All IsValue row → 0 < length row → keeps_sign sign row ≡ true
        → signed_row_of_line types sign number (fields row) ≡ Ok row }
    ensures line { (row : Row) (rest : List ℕ) → All IsValue row
        → line_from false (line row ++ rest) ≡ Some (fields row, rest) }
    ensures not_end { (row : Row) → All IsValue row → ends_data (fields row) ≡ false }
    ensures rows { (types : List ColType) (sign : Option ℕ) (rows : List Row)
        → AreRowsOf types rows → AreValues rows → All (λ row. keeps_sign sign row ≡ true) rows
        → 0 < length types → length rows ≤ row_limit
        → inserted_rows types sign (flat_map line rows) true ≡ Ok rows }
{}
