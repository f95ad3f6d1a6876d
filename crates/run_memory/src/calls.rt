// Calls that no run makes: the row of a line alone, the values of bytes alone, and a block from rows.
use crate::answer::Answer;
use crate::text::first_word;
use mt_base::{DEFAULT_GRANULARITY, NoMemory, Seq};
use mt_plain::tsv_rows::{read_row, write_row};
use mt_values::{Block, ColType, Column, Engine, Row, Schema, Value};
use row_merge::column_file::{FormatFault, decode_column, decode_granule};
use std::alloc::Global;

// The type of this name.
fn type_of(word: &str) -> Option<ColType> {
    match word {
        "UInt8" => Some(ColType::UInt8),
        "UInt16" => Some(ColType::UInt16),
        "UInt32" => Some(ColType::UInt32),
        "UInt64" => Some(ColType::UInt64),
        "Int8" => Some(ColType::Int8),
        "Int16" => Some(ColType::Int16),
        "Int32" => Some(ColType::Int32),
        "Int64" => Some(ColType::Int64),
        "String" => Some(ColType::Text),
        _ => None,
    }
}

// The block of one row, of this number.
fn one_row(alloc: Global, number: u8) -> Result<Block, NoMemory> {
    let mut row = Seq::new(alloc);
    row.push(Value::UInt8(number))?;
    let mut rows = Vec::new(alloc);
    rows.push(row)?;
    Block::from_rows(alloc, &[ColType::UInt8], &rows)
}

impl Answer {
    /// The type of this name.
    pub fn type_of(&mut self, word: &str) -> ColType {
        match type_of(word) {
            Some(of) => of,
            None => {
                self.fail("no such type");
                ColType::Text
            }
        }
    }

    // A schema of one column.
    fn schema_of(&mut self, col_type: ColType) -> Schema {
        let name = Seq::new(self.alloc);
        let mut columns = Vec::new(self.alloc);
        self.push(
            &mut columns,
            Column {
                name,
                col_type,
                function: None,
            },
        );
        Schema {
            columns: Seq::of(columns),
            engine: Engine::Plain,
            key: Seq::new(self.alloc),
            primary: Seq::new(self.alloc),
            partition: None,
            granularity: DEFAULT_GRANULARITY,
            indexes: Seq::new(self.alloc),
        }
    }

    /// Prints the line of values, as it is shown.
    pub fn line_of(&mut self, values: &[Value]) {
        let mut line = Vec::new(self.alloc);
        let written = write_row(values, &mut line).is_ok();
        self.note(written);
        self.bytes(&line);
    }

    /// Prints the lines of rows, as they are shown.
    pub fn lines_of(&mut self, rows: &[Row]) {
        let mut lines = Vec::new(self.alloc);
        for row in rows {
            let written = write_row(row.as_slice(), &mut lines).is_ok();
            self.note(written);
        }
        self.bytes(&lines);
    }

    /// The row of one column that a line is.
    pub fn row_of(&mut self, rest: &str) -> Option<Row> {
        let (of, line) = first_word(rest);
        let of = self.type_of(of);
        let line = self.bytes_of(line);
        let schema = self.schema_of(of);
        let row = read_row(self.alloc, &schema, &line, 1).ok();
        if row.is_none() {
            self.fail("no row");
        }
        row
    }

    /// Prints the line of the row of one column that a line is.
    pub fn row(&mut self, rest: &str) {
        self.open();
        if let Some(row) = self.row_of(rest) {
            self.line_of(row.as_slice());
        }
    }

    // Prints how many values are read of the bytes of a column, none where they are none.
    fn count_of(&mut self, of: ColType, bytes: &[u8], count: usize) {
        match decode_column(self.alloc, of, bytes, count) {
            Ok(column) => self.number(column.len() as u64),
            Err(_) => self.put("0"),
        }
    }

    // Prints the values that bytes are, as a line, or where their first fault is.
    fn values_of(&mut self, of: ColType, bytes: &[u8], count: usize) {
        match decode_granule(self.alloc, of, bytes, count) {
            Ok(values) => self.line_of(&values),
            Err(FormatFault::Malformed { place }) => {
                self.put("fault at ");
                self.number(place as u64);
            }
            Err(FormatFault::NoMemory) => self.note(false),
        }
    }

    /// Prints how many values are read of the bytes of a column, and the values, or where their first fault is.
    pub fn values(&mut self, rest: &str) {
        let (of, rest) = first_word(rest);
        let (count, bytes) = first_word(rest);
        let of = self.type_of(of);
        let count = usize::try_from(self.number_of(count)).unwrap_or(usize::MAX);
        let bytes = self.bytes_of(bytes);
        self.open();
        self.count_of(of, &bytes, count);
        self.put(": ");
        self.values_of(of, &bytes, count);
    }

    // Prints how many rows a block has.
    fn rows_of(&mut self, block: Result<Block, NoMemory>) {
        match block {
            Ok(block) => self.number(block.len() as u64),
            Err(_) => self.note(false),
        }
    }

    /// Prints how many rows a block without rows has, and one of the row of a number.
    pub fn block(&mut self, rest: &str) {
        let number = u8::try_from(self.number_of(rest)).unwrap_or(u8::MAX);
        self.open();
        self.rows_of(Block::new(self.alloc, &[ColType::UInt8]));
        self.put(" and ");
        self.rows_of(one_row(self.alloc, number));
    }
}
