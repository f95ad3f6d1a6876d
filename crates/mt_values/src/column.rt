// One column of a block: a vector of numbers of one width, or texts.
ghost use Rattle.std.specs.Prelude.{◌≡◌, ◌<◌, ◌++◌, ◌∷◌, [], All, IfOk, Some, length, slice_get, OnOk, OnErr, IsTrue, ◌↔◌};
ghost use Rattle.std.specs.List.{filter_map};
ghost use Rattle.mt_values.specs.Cells.{value_of};
ghost use Rattle.mt_values.specs.Grid.{AreOfType};
ghost use Rattle.mt_values.specs.Values.{type_of};
ghost use Rattle.mt_values.specs.declared.value.ColType.TheVariants as type;
ghost use Rattle.mt_values.specs.declared.value.Value.TheVariants as value;

use crate::strings::Strings;
use crate::{Cell, ColType, Value};
use mt_base::{NoMemory, Twin};
use std::alloc::Global;
use std::marker::Model;

/// The values of a column, in a vector of their type.
#[derive(Debug, Drop)]
pub(crate) enum Cells {
    UInt8(Vec<u8>),
    UInt16(Vec<u16>),
    UInt32(Vec<u32>),
    UInt64(Vec<u64>),
    Int8(Vec<i8>),
    Int16(Vec<i16>),
    Int32(Vec<i32>),
    Int64(Vec<i64>),
    Text(Strings),
}

/// A column of a block. Contracts see its type and the list of its values.
#[derive(Debug, Drop)]
pub struct ColumnData {
    pub(crate) cells: Cells,
}

impl Cells {
    ghost use Rattle.std.specs.Prelude.{◌≡◌, length};
    ghost use Rattle.mt_values.specs.Columns.{cells_of};

    /// The number of values.
    pub(crate) fn len(&self) -> usize
        ensures { result ≡ length (cells_of self.now).values }
    {
        match self {
            Cells::UInt8(v) => v.len(),
            Cells::UInt16(v) => v.len(),
            Cells::UInt32(v) => v.len(),
            Cells::UInt64(v) => v.len(),
            Cells::Int8(v) => v.len(),
            Cells::Int16(v) => v.len(),
            Cells::Int32(v) => v.len(),
            Cells::Int64(v) => v.len(),
            Cells::Text(texts) => texts.len(),
        }
    }

    /// The value at a place, counted from 0.
    pub(crate) fn at(&self, place: usize) -> Cell<'_>
        requires { place < length (cells_of self.now).values }
        ensures { slice_get (cells_of self.now).values place ≡ Some (value_of result) }
    {
        match self {
            Cells::UInt8(v) => Cell::UInt8(v[place]),
            Cells::UInt16(v) => Cell::UInt16(v[place]),
            Cells::UInt32(v) => Cell::UInt32(v[place]),
            Cells::UInt64(v) => Cell::UInt64(v[place]),
            Cells::Int8(v) => Cell::Int8(v[place]),
            Cells::Int16(v) => Cell::Int16(v[place]),
            Cells::Int32(v) => Cell::Int32(v[place]),
            Cells::Int64(v) => Cell::Int64(v[place]),
            Cells::Text(texts) => Cell::Text(texts.at(place)),
        }
    }

    /// Adds a value at the end.
    ///
    /// `NoMemory` where an allocation failed; the column stays as it was.
    fn push(&mut self, cell: Cell) -> Result<(), NoMemory>
        requires { type_of (value_of cell) ≡ (cells_of self.old).col_type }
        ensures ok { OnOk result (cells_of self.new ≡ record (cells_of self.old) {
          values =
              (cells_of self.old).values ++ value_of cell.entry ∷ [];
        }) }
        ensures err { OnErr result (cells_of self.new ≡ cells_of self.old) }
    {
        // A cell of another type does not come, so the second arms add nothing.
        match self {
            Cells::UInt8(v) => match cell {
                Cell::UInt8(n) => push_number(v, n),
                _ => Ok(()),
            },
            Cells::UInt16(v) => match cell {
                Cell::UInt16(n) => push_number(v, n),
                _ => Ok(()),
            },
            Cells::UInt32(v) => match cell {
                Cell::UInt32(n) => push_number(v, n),
                _ => Ok(()),
            },
            Cells::UInt64(v) => match cell {
                Cell::UInt64(n) => push_number(v, n),
                _ => Ok(()),
            },
            Cells::Int8(v) => match cell {
                Cell::Int8(n) => push_number(v, n),
                _ => Ok(()),
            },
            Cells::Int16(v) => match cell {
                Cell::Int16(n) => push_number(v, n),
                _ => Ok(()),
            },
            Cells::Int32(v) => match cell {
                Cell::Int32(n) => push_number(v, n),
                _ => Ok(()),
            },
            Cells::Int64(v) => match cell {
                Cell::Int64(n) => push_number(v, n),
                _ => Ok(()),
            },
            Cells::Text(texts) => match cell {
                Cell::Text(bytes) => texts.push(bytes),
                _ => Ok(()),
            },
        }
    }

    /// The values at these places, in this order.
    ///
    /// `NoMemory` where an allocation failed.
    fn pick(&self, alloc: Global, order: &[u32]) -> Result<Cells, NoMemory>
        requires { All (λ place. place < length (cells_of self.now).values) order.now }
        ensures { IfOk result (λ c. cells_of c ≡ record (cells_of self.now) {
          values = filter_map (slice_get (cells_of self.now).values) order.now;
        }) }
    {
        match self {
            Cells::UInt8(v) => Ok(Cells::UInt8(picked_numbers(alloc, v, order)?)),
            Cells::UInt16(v) => Ok(Cells::UInt16(picked_numbers(alloc, v, order)?)),
            Cells::UInt32(v) => Ok(Cells::UInt32(picked_numbers(alloc, v, order)?)),
            Cells::UInt64(v) => Ok(Cells::UInt64(picked_numbers(alloc, v, order)?)),
            Cells::Int8(v) => Ok(Cells::Int8(picked_numbers(alloc, v, order)?)),
            Cells::Int16(v) => Ok(Cells::Int16(picked_numbers(alloc, v, order)?)),
            Cells::Int32(v) => Ok(Cells::Int32(picked_numbers(alloc, v, order)?)),
            Cells::Int64(v) => Ok(Cells::Int64(picked_numbers(alloc, v, order)?)),
            Cells::Text(texts) => Ok(Cells::Text(texts.pick(alloc, order)?)),
        }
    }
}

impl Model for ColumnData {
    ghost use Rattle.mt_values.specs.Grid.{Cells};

    ghost Value = { Cells };

    ghost use Rattle.mt_values.specs.Columns.{cells_of};

    ghost view = { λ c. cells_of c.cells };
}

impl ColumnData {
    /// The column of a type without values. Takes no memory.
    pub fn new(alloc: Global, col_type: ColType) -> Self
        ensures { result ≡ record { col_type = col_type; values = [] } }
    {
        let cells = match col_type {
            ColType::UInt8 => Cells::UInt8(Vec::new(alloc)),
            ColType::UInt16 => Cells::UInt16(Vec::new(alloc)),
            ColType::UInt32 => Cells::UInt32(Vec::new(alloc)),
            ColType::UInt64 => Cells::UInt64(Vec::new(alloc)),
            ColType::Int8 => Cells::Int8(Vec::new(alloc)),
            ColType::Int16 => Cells::Int16(Vec::new(alloc)),
            ColType::Int32 => Cells::Int32(Vec::new(alloc)),
            ColType::Int64 => Cells::Int64(Vec::new(alloc)),
            ColType::Text => Cells::Text(Strings::new(alloc)),
        };
        ColumnData { cells }
    }

    /// The type of the values.
    pub fn col_type(&self) -> ColType
        ensures { result ≡ self.now.col_type }
    {
        match &self.cells {
            Cells::UInt8(_) => ColType::UInt8,
            Cells::UInt16(_) => ColType::UInt16,
            Cells::UInt32(_) => ColType::UInt32,
            Cells::UInt64(_) => ColType::UInt64,
            Cells::Int8(_) => ColType::Int8,
            Cells::Int16(_) => ColType::Int16,
            Cells::Int32(_) => ColType::Int32,
            Cells::Int64(_) => ColType::Int64,
            Cells::Text(_) => ColType::Text,
        }
    }

    /// The number of values.
    pub fn len(&self) -> usize
        ensures count { result ≡ length self.now.values }
        ensures typed { AreOfType self.now }
    {
        self.cells.len()
    }

    /// Whether there is no value.
    pub fn is_empty(&self) -> bool
        ensures { IsTrue result ↔ (self.now.values ≡ []) }
    {
        self.len() == 0
    }

    /// The value at a place, counted from 0.
    pub fn at(&self, place: usize) -> Cell<'_>
        requires { place < length self.now.values }
        ensures { slice_get self.now.values place ≡ Some (value_of result) }
    {
        self.cells.at(place)
    }

    /// Adds a value at the end.
    ///
    /// `NoMemory` where an allocation failed; the column stays as it was.
    pub fn push(&mut self, value: Value) -> Result<(), NoMemory>
        requires { type_of value ≡ self.old.col_type }
        ensures ok { OnOk result
            (self.new ≡ record self.old { values = self.old.values ++ value ∷ [] }) }
        ensures err { OnErr result (self.new ≡ self.old) }
    {
        self.push_cell(Cell::of(&value))
    }

    /// Adds a borrowed value at the end.
    ///
    /// `NoMemory` where an allocation failed; the column stays as it was.
    pub fn push_cell(&mut self, cell: Cell) -> Result<(), NoMemory>
        requires { type_of (value_of cell) ≡ self.old.col_type }
        ensures ok { OnOk result (self.new ≡ record self.old {
          values = self.old.values ++ value_of
              cell.entry ∷ [];
        }) }
        ensures err { OnErr result (self.new ≡ self.old) }
    {
        self.cells.push(cell)
    }

    /// Adds a text at the end of a column of texts.
    ///
    /// `NoMemory` where an allocation failed; the column stays as it was.
    pub fn push_text(&mut self, text: &[u8]) -> Result<(), NoMemory>
        requires { self.old.col_type ≡ type.Text }
        ensures ok { OnOk result (self.new ≡ record self.old {
          values = self.old.values ++
              value.Text text.now ∷ [];
        }) }
        ensures err { OnErr result (self.new ≡ self.old) }
    {
        self.push_cell(Cell::Text(text))
    }

    /// The column of the values at these places, in this order.
    ///
    /// `NoMemory` where an allocation failed.
    pub fn pick(&self, alloc: Global, order: &[u32]) -> Result<ColumnData, NoMemory>
        requires { All (λ place. place < length self.now.values) order.now }
        ensures { IfOk result (λ c. c ≡ record self.now {
          values = filter_map (slice_get self.now.values) order.now;
        }) }
    {
        Ok(ColumnData {
            cells: self.cells.pick(alloc, order)?,
        })
    }
}

impl Twin for ColumnData {
    fn twin(&self, alloc: Global) -> Result<Self, NoMemory> {
        let count = self.len();
        let mut copy = ColumnData::new(alloc, self.col_type());
        for place in 0..count {
            copy.push_cell(self.at(place))?;
        }
        Ok(copy)
    }
}

/// The numbers at these places, in this order.
///
/// `NoMemory` where an allocation failed.
fn picked_numbers<T: Copy>(alloc: Global, numbers: &[T], order: &[u32]) -> Result<Vec<T>, NoMemory>
    requires { All (λ place. place < length numbers.now) order.now }
    ensures { IfOk result (λ v. v.items ≡ filter_map (slice_get numbers.now) order.now) }
{
    let mut picked = Vec::with_capacity(alloc, order.len())?;
    for place in order {
        picked.push_reserved(numbers[*place as usize]);
    }
    Ok(picked)
}

/// Adds a number at the end of a vector.
///
/// `NoMemory` where an allocation failed; the vector stays as it was.
fn push_number<T: Copy>(numbers: &mut Vec<T>, number: T) -> Result<(), NoMemory>
    ensures ok { OnOk result (numbers.new.items ≡ numbers.old.items ++ number ∷ []) }
    ensures err { OnErr result (numbers.new.items ≡ numbers.old.items) }
{
    numbers.push(number)?;
    Ok(())
}
