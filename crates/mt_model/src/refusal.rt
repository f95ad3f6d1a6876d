// Why a statement is refused.
use mt_values::{Cause, DataFault, Name, RowFault};

/// A rule of schemas that a CREATE breaks.
#[derive(Clone, Copy)]
pub enum Reason {
    /// There is no column.
    NoColumns,
    /// Two columns have one name.
    DoubleColumn,
    /// Two indexes have one name.
    DoubleIndex,
    /// A key, or the list of an engine, names a column twice.
    DoubleKey,
    /// The primary key is no prefix of the sorting key.
    NotPrefix,
    /// The partition column is not unsigned.
    PartitionType,
    /// The version is not unsigned.
    VersionType,
    /// The sign is not of the type Int8.
    SignType,
    /// The sign is in the sorting key or the partition column.
    SignKey,
    /// A column to be summed has no numbers.
    SumType,
    /// A column to be summed is in the sorting key or the partition column.
    SumKey,
    /// There is no column to sum.
    NothingToSum,
    /// A column has a function, and the engine folds none.
    AggregateEngine,
    /// A column with a function is in the sorting key or the partition column.
    AggregateKey,
    /// A column's function does not take its type.
    AggregateType,
    /// A granule has no rows, or too many.
    Granularity,
    /// A block of an index has no granules, or too many.
    IndexGranularity,
    /// A set may have too many values.
    SetSize,
}

/// A quantity that has a bound.
#[derive(Clone, Copy)]
pub enum Bound {
    /// The tables of a root.
    Tables,
    /// The columns of a table.
    Columns,
    /// The indexes of a table.
    Indexes,
    /// The bytes of a name.
    Name,
    /// The bytes of a statement, from its first token up to its semicolon.
    Statement,
    /// The bytes of a String.
    Value,
    /// The rows of an INSERT.
    Rows,
    /// The parentheses and NOTs of a condition that are open at once.
    Depth,
    /// The level of a part.
    Levels,
}

/// A quantity with a bound that is met in the turn of an INSERT's command.
#[derive(Clone, Copy)]
pub enum Room {
    /// The active parts of a partition.
    Parts,
    /// The numbers of a table's commands.
    Numbers,
}

/// Why a statement is refused. Each variant has a line of its own among the replies.
#[derive(Drop)]
pub enum Refusal {
    /// The text is no statement of the grammar: the place of the first fault.
    Grammar(usize),
    /// There is no such table.
    NoTable(Name),
    /// There is such a table.
    TableExists(Name),
    /// The table has no such column.
    NoColumn(Name),
    /// The schema breaks a rule, at the column of this name.
    Schema(Reason, Name),
    /// The literal at this place of the statement, counted from 0, does not belong to the column of this name.
    Literal(Name, usize),
    /// A line of data has another number of fields than the table has columns. Lines count from 1.
    Fields {
        line: usize,
        found: usize,
        wanted: usize,
    },
    /// A field is not of its column's type. Lines and fields count from 1.
    Field {
        line: usize,
        field: usize,
    },
    /// A bound would be passed.
    Past(Bound),
    /// A bound would be passed at the turn of a command, after so many of the statement's commands were accepted.
    Full {
        room: Room,
        accepted: usize,
    },
    /// The input ended before the line that ends data, after so many complete rows.
    Unended {
        rows: usize,
    },
    /// The part of this name, which is to be merged, is being merged already.
    Busy(Name),
    /// A read, a stage, an append or a file's sync failed.
    Failed,
    /// A publish or the sync of the names failed, after so many of the statement's commands were accepted.
    Unsettled {
        accepted: usize,
    },
    /// The disk's count of faults is above the one at opening, after so many of the statement's commands were accepted.
    Stopped {
        opened: u64,
        now: u64,
        accepted: usize,
    },
    /// The sign of a row is neither 1 nor -1. Lines count from 1.
    Sign {
        line: usize,
    },
    /// A file of a part has another size or digest than was written, or its bytes are not of its format.
    Damaged {
        table: Name,
        part: Name,
        file: Name,
    },
}

impl Refusal {
    ghost use Rattle.std.specs.Prelude.{◌≡◌};
    ghost use Rattle.mt_model.specs.Refusals as refusals;

    /// The refusal of a text that is none of the grammar's statements, or too long.
    pub fn of_cause(cause: Cause) -> Refusal
        ensures { result ≡ refusals.refusal_of_cause cause }
    {
        match cause {
            Cause::Grammar(place) => Refusal::Grammar(place),
            Cause::LongStatement => Refusal::Past(Bound::Statement),
            Cause::LongName => Refusal::Past(Bound::Name),
            Cause::TooDeep => Refusal::Past(Bound::Depth),
        }
    }

    /// The refusal of an INSERT for its data.
    pub fn of_data(fault: DataFault) -> Refusal
        ensures { result ≡ refusals.refusal_of_data fault }
    {
        match fault {
            DataFault::Row(fault) => Refusal::of_row(fault),
            DataFault::TooMany => Refusal::Past(Bound::Rows),
            DataFault::Unended { rows } => Refusal::Unended { rows },
        }
    }

    /// The refusal of an INSERT for a line of its data.
    fn of_row(fault: RowFault) -> Refusal
        ensures { result ≡ refusals.refusal_of_row fault }
    {
        match fault {
            RowFault::Fields {
                line,
                found,
                wanted,
            } => Refusal::Fields {
                line,
                found,
                wanted,
            },
            RowFault::Field { line, field } => Refusal::Field { line, field },
            RowFault::Value => Refusal::Past(Bound::Value),
            RowFault::Sign { line } => Refusal::Sign { line },
        }
    }

    /// The number of the refusal: 1 for `E01`, and so on.
    pub fn code(&self) -> u8
        ensures number { result ≡ refusals.code self.now }
        ensures line { result ≡ refusals.code_of (refusals.refusal_line self.now) }
    {
        match self {
            Refusal::Grammar(_) => 1,
            Refusal::NoTable(_) => 2,
            Refusal::TableExists(_) => 3,
            Refusal::NoColumn(_) => 4,
            Refusal::Schema(_, _) => 5,
            Refusal::Literal(_, _) => 6,
            Refusal::Fields { .. } => 7,
            Refusal::Field { .. } => 8,
            Refusal::Past(_) => 12,
            Refusal::Full { .. } => 12,
            Refusal::Unended { .. } => 13,
            Refusal::Busy(_) => 14,
            Refusal::Failed => 15,
            Refusal::Unsettled { .. } => 16,
            Refusal::Stopped { .. } => 17,
            Refusal::Sign { .. } => 18,
            Refusal::Damaged { .. } => 19,
        }
    }
}
