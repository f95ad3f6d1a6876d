// The engines of tables, and the functions of columns that are folded (docs/engines.md).
use mt_base::Seq;

/// What a merge leaves of the rows of one key.
#[derive(Debug, Drop, PartialEq, Eq)]
pub enum Engine {
    /// All of them.
    Plain,
    /// The last, or the last of those with the greatest version: the place of its column, from 0.
    Replacing(Option<u32>),
    /// One row with the sums of the columns at these places, from 0.
    Summing(Seq<u32>),
    /// The rows that are left as states, which have the sign 1, are cancelled by rows with -1: the place of the sign's column,
    /// from 0.
    Collapsing(u32),
    /// The same of rows of one version, whatever their order: the places of both columns, from 0.
    Versioned { sign: u32, version: u32 },
    /// One row, with each column's function of its values.
    Aggregating,
}

/// The function by which the values of a column of an aggregating table are folded into one.
#[derive(Clone, Copy, Debug, PartialEq, Eq)]
pub enum Aggregate {
    /// The first.
    Any,
    /// The last.
    AnyLast,
    /// The least.
    Min,
    /// The greatest.
    Max,
    /// The sum, which wraps at the column's width.
    Sum,
    /// The bits that all of them have.
    BitAnd,
    /// The bits that some of them have.
    BitOr,
    /// The bits that an odd number of them has.
    BitXor,
}
