// A value that a column or a row still owns.
ghost use Rattle.std.specs.Prelude.{◌≡◌, IfOk};
ghost use Rattle.mt_values.specs.Cells.{value_of};
ghost use Rattle.mt_values.specs.Tables.{number_in};
ghost use Rattle.mt_values.specs.Values.{type_of};

use crate::{ColType, Value};
use mt_base::{NoMemory, Seq};
use std::alloc::Global;

/// A borrowed value: the variants of `Value`, a text as a view of its bytes.
#[derive(Clone, Copy, PartialEq, Eq, Hash)]
pub enum Cell<'a> {
    UInt8(u8),
    UInt16(u16),
    UInt32(u32),
    UInt64(u64),
    Int8(i8),
    Int16(i16),
    Int32(i32),
    Int64(i64),
    Text(&'a [u8]),
}

impl<'a> Cell<'a> {
    /// A view of a value.
    pub fn of(value: &'a Value) -> Cell<'a>
        ensures { value_of result ≡ value.now }
    {
        match value {
            Value::UInt8(n) => Cell::UInt8(*n),
            Value::UInt16(n) => Cell::UInt16(*n),
            Value::UInt32(n) => Cell::UInt32(*n),
            Value::UInt64(n) => Cell::UInt64(*n),
            Value::Int8(n) => Cell::Int8(*n),
            Value::Int16(n) => Cell::Int16(*n),
            Value::Int32(n) => Cell::Int32(*n),
            Value::Int64(n) => Cell::Int64(*n),
            Value::Text(bytes) => Cell::Text(bytes.as_slice()),
        }
    }

    /// The type of the columns that the value belongs to.
    pub fn col_type(self) -> ColType
        ensures { result ≡ type_of (value_of self.entry) }
    {
        match self {
            Cell::UInt8(_) => ColType::UInt8,
            Cell::UInt16(_) => ColType::UInt16,
            Cell::UInt32(_) => ColType::UInt32,
            Cell::UInt64(_) => ColType::UInt64,
            Cell::Int8(_) => ColType::Int8,
            Cell::Int16(_) => ColType::Int16,
            Cell::Int32(_) => ColType::Int32,
            Cell::Int64(_) => ColType::Int64,
            Cell::Text(_) => ColType::Text,
        }
    }

    /// The number of a value of an unsigned column, by which such a column parts a table; 0 for a value of another column.
    pub fn number(self) -> u64
        ensures { result ≡ number_in (value_of self.entry) }
    {
        match self {
            Cell::UInt8(n) => u64::from(n),
            Cell::UInt16(n) => u64::from(n),
            Cell::UInt32(n) => u64::from(n),
            Cell::UInt64(n) => n,
            _ => 0,
        }
    }

    /// The value, owned.
    ///
    /// `NoMemory` where there was none for the bytes of a text.
    pub fn to_value(self, alloc: Global) -> Result<Value, NoMemory>
        ensures { IfOk result (λ v. v ≡ value_of self.entry) }
    {
        Ok(match self {
            Cell::UInt8(n) => Value::UInt8(n),
            Cell::UInt16(n) => Value::UInt16(n),
            Cell::UInt32(n) => Value::UInt32(n),
            Cell::UInt64(n) => Value::UInt64(n),
            Cell::Int8(n) => Value::Int8(n),
            Cell::Int16(n) => Value::Int16(n),
            Cell::Int32(n) => Value::Int32(n),
            Cell::Int64(n) => Value::Int64(n),
            Cell::Text(bytes) => Value::Text(Seq::from_slice(alloc, bytes)?),
        })
    }
}
