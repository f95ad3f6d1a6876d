// Why the bytes of an INSERT's data are not its rows.

/// Why a field is no value of its column.
#[derive(Clone, Copy)]
pub enum FieldFault {
    /// It is no value of the column's type.
    NotOfType,
    /// It is a text of more bytes than a text may have.
    TooLong,
}

/// Why a line is no row. Lines count the rows of data from 1, fields those of a line from 1.
#[derive(Clone, Copy, Debug)]
pub enum RowFault {
    /// It has another number of fields than the table has columns.
    Fields {
        line: usize,
        found: usize,
        wanted: usize,
    },
    /// A field is not of its column's type, and each field before it is of its own.
    Field {
        line: usize,
        field: usize,
    },
    /// A field is a text of more bytes than a text may have, and each field before it is of its column's type.
    Value,
    /// Each field is of its column's type, and the sign is neither 1 nor -1.
    Sign {
        line: usize,
    },
}

/// Why data is not the rows of an INSERT.
#[derive(Clone, Copy)]
pub enum DataFault {
    /// A line is no row, and each line before it is one.
    Row(RowFault),
    /// There are more rows than an INSERT may have.
    TooMany,
    /// The input ended before the line that ends data. So many rows were complete, each without a fault.
    Unended { rows: usize },
}
