// Values and single rows.

use mt_base::{Bytes, Seq};

/// The type of a column.
#[derive(Clone, Copy, Debug, PartialEq, Eq)]
pub enum ColType {
    UInt8,
    UInt16,
    UInt32,
    UInt64,
    Int8,
    Int16,
    Int32,
    Int64,
    /// Any bytes; `String` in a statement.
    Text,
}

/// One value of a row. Numbers are ordered as numbers, texts by their bytes.
#[derive(Drop, PartialEq, Eq)]
pub enum Value {
    UInt8(u8),
    UInt16(u16),
    UInt32(u32),
    UInt64(u64),
    Int8(i8),
    Int16(i16),
    Int32(i32),
    Int64(i64),
    Text(Bytes),
}

/// The values of a row, in the order of the table's columns.
pub type Row = Seq<Value>;

impl Value {
    ghost use Rattle.std.specs.Prelude.{◌≡◌};
    ghost use Rattle.mt_values.specs.Values.{type_of};

    /// The type of the columns that the value belongs to.
    pub fn col_type(&self) -> ColType
        ensures { result ≡ type_of self.now }
    {
        match self {
            Value::UInt8(_) => ColType::UInt8,
            Value::UInt16(_) => ColType::UInt16,
            Value::UInt32(_) => ColType::UInt32,
            Value::UInt64(_) => ColType::UInt64,
            Value::Int8(_) => ColType::Int8,
            Value::Int16(_) => ColType::Int16,
            Value::Int32(_) => ColType::Int32,
            Value::Int64(_) => ColType::Int64,
            Value::Text(_) => ColType::Text,
        }
    }
}
