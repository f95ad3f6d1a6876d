// The primary keys that are kept of a part's rows.
ghost use Rattle.std.specs.Prelude.{All, ◌≡◌, ◌-◌, ◌<◌, ◌↔◌, [], IfOk, Some, IsTrue, length, slice_get};
ghost use Rattle.std.specs.Option.{IfSome, option_and_then};
ghost use Rattle.std.specs.List.Sorted.{IsSorted};
ghost use Rattle.mt_values.specs.Cells.{value_of};
ghost use Rattle.mt_values.specs.Grid.{rows_of};
ghost use Rattle.mt_values.specs.Order.{value_cmp};
ghost use Rattle.primary_marks.specs.Columns.{HaveKeys};
ghost use Rattle.primary_marks.specs.Rising.{FirstRises, RiseByFirst};

use mt_base::{NoMemory, Twin};
use mt_values::{Cell, ColumnData, cmp_cells};
use std::alloc::Global;
use std::marker::Model;

/// The primary keys of the rows with which a part's granules begin, and of its last row, in typed columns. Contracts see the list of keys.
#[derive(Drop)]
pub struct Marks {
    columns: Vec<ColumnData>,
    keys: usize,
    /// Whether each key has a first value and none of these is above the next one. Where it is false, nothing is said.
    rise: bool,
}

impl Model for Marks {
    ghost use Rattle.std.specs.Prelude.{List, IsTrue};
    ghost use Rattle.mt_values.specs.Grid.{rows_of};
    ghost use Rattle.mt_values.specs.Values.{Row};
    ghost use Rattle.primary_marks.specs.Columns.{HaveKeys};
    ghost use Rattle.primary_marks.specs.Rising.{RiseByFirst};

    ghost Value = { List Row };

    ghost view = { λ m. rows_of m.columns.items m.keys };

    ghost invariant = { λ m. HaveKeys m.columns.items m.keys
        × (IsTrue m.rise → RiseByFirst (rows_of m.columns.items m.keys)) };
}

impl Marks {
    /// The keys whose values these columns have, this many of each. Takes no memory.
    pub fn of_columns(columns: Vec<ColumnData>, keys: usize) -> Marks
        requires { HaveKeys columns.items keys }
        ensures { result ≡ rows_of columns.items keys }
    {
        let rise = first_rises(&columns);
        Marks {
            columns,
            keys,
            rise,
        }
    }

    /// Whether the first values of the keys are known to rise.
    pub(crate) fn rise(&self) -> bool
        ensures { IsTrue result → RiseByFirst self.now }
    {
        self.rise
    }

    /// The number of keys.
    pub fn len(&self) -> usize
        ensures { result ≡ length self.now }
    {
        self.keys
    }

    /// Whether there is no key.
    pub fn is_empty(&self) -> bool
        ensures { IsTrue result ↔ (self.now ≡ []) }
    {
        self.len() == 0
    }

    /// The number of granules: each has a key, and the last row has one more.
    pub fn granules(&self) -> usize
        ensures { result ≡ length self.now - 1 }
    {
        self.len().saturating_sub(1)
    }

    /// The number of columns: each key has a value of each.
    pub fn width(&self) -> usize
        ensures { All (λ key. length key ≡ result) self.now }
    {
        self.columns.len()
    }

    /// The value of a key, counted from 0, in a column of the primary key, counted from 0.
    pub fn key_cell(&self, key: usize, column: usize) -> Cell<'_>
        requires key { key < length self.now }
        requires column { IfSome (slice_get self.now key) (λ k. column < length k) }
        ensures { option_and_then (λ k. slice_get k column) (slice_get self.now key) ≡ Some
            (value_of result) }
    {
        self.columns[column].at(key)
    }
}

impl Twin for Marks {
    fn twin(&self, alloc: Global) -> Result<Self, NoMemory> {
        let mut columns = Vec::new(alloc);
        for column in &self.columns {
            columns.push(column.twin(alloc)?)?;
        }
        Ok(Marks {
            columns,
            keys: self.keys,
            rise: self.rise,
        })
    }
}

/// Whether there is a first column, and none of its values is above the next one.
fn first_rises(columns: &[ColumnData]) -> bool
    ensures { IsTrue result → FirstRises columns.now }
{
    match columns.first() {
        Some(column) => rises(column),
        None => false,
    }
}

/// Whether no value of a column is above the next one.
fn rises(column: &ColumnData) -> bool
    ensures { IsTrue result → IsSorted value_cmp column.now.values }
{
    for place in 1..column.len() {
        if cmp_cells(column.at(place), column.at(place - 1)).is_lt() {
            return false;
        }
    }
    true
}
