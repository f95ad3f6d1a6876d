// What ALTER changes in the rows of a table (docs/definitions.md, "Mutations").
use crate::{Expr, Test, Value};
use mt_base::Seq;

/// What a column is assigned: read from the row as it was.
#[derive(Drop, PartialEq, Eq)]
pub enum Assigned {
    /// A literal, as a value of the column's type.
    Literal(Value),
    /// The value of the column at this place, from 0.
    Column(u32),
    /// That value with a number added, which wraps at its width; the number is of the column's type.
    Plus { column: u32, number: Value },
    /// That value with a number taken away, which wraps at its width; the number is of the column's type.
    Minus { column: u32, number: Value },
}

/// A column by its place, from 0, and what it is assigned.
#[derive(Drop, PartialEq, Eq)]
pub struct Assignment {
    pub column: u32,
    pub value: Assigned,
}

/// What is done with the rows of a table that meet a condition.
#[derive(Drop)]
pub enum Change {
    /// They are deleted.
    Delete(Expr<Test>),
    /// Each gets the values that it is assigned.
    Update {
        assignments: Seq<Assignment>,
        condition: Expr<Test>,
    },
}
