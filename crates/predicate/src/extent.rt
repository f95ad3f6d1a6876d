// What is known of rows that were not read, and what a condition may be of them: docs/definitions.md, "Boxes".

use mt_base::{NoMemory, Seq, Twin};
use mt_values::Value;
use std::alloc::Global;

/// What is known of the values of a column.
#[derive(Drop)]
pub enum Known {
    /// None is below the first value, and none above the second.
    Range(Value, Value),
    /// Each is one of these.
    List(Seq<Value>),
    /// Nothing.
    Unknown,
}

impl Twin for Known {
    fn twin(&self, alloc: Global) -> Result<Self, NoMemory> {
        match self {
            Known::Range(least, greatest) => {
                Ok(Known::Range(least.twin(alloc)?, greatest.twin(alloc)?))
            }
            Known::List(values) => Ok(Known::List(values.twin(alloc)?)),
            Known::Unknown => Ok(Known::Unknown),
        }
    }
}

/// A box: what is known of each column of some rows, in the order of the columns. Nothing is known of the columns after these.
#[derive(Drop)]
pub struct Extent {
    pub columns: Seq<Known>,
}

/// What a condition may be of the rows of a box. Where one of the two is false, no row of the box is so.
#[derive(Clone, Copy, Debug, PartialEq, Eq)]
pub struct Can {
    /// Whether it may be true of one.
    pub yes: bool,
    /// Whether it may be false of one.
    pub no: bool,
}
