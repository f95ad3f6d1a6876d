// Small tables, one of each engine, whose rows are written in letters, one for each column (docs/testing.md, "Rules").
use mt_base::{NoMemory, Seq};
use mt_values::{Aggregate, ColType, Column, Engine, Row, Schema, Value};
use std::alloc::Global;

/// The columns of a small table of AggregatingMergeTree but its key: as many as there are functions.
const FUNCTIONS: u32 = 8;

/// A small table, by its engine.
#[derive(Clone, Copy, PartialEq, Eq)]
pub enum Small {
    /// MergeTree: a key and a mark.
    Plain,
    /// ReplacingMergeTree: a key and a mark.
    Last,
    /// ReplacingMergeTree: a key, a version and a mark.
    Newest,
    /// SummingMergeTree: a key, two columns that are summed and a mark.
    Sums,
    /// CollapsingMergeTree: a key, a sign and a mark.
    Signs,
    /// VersionedCollapsingMergeTree: a key, a version, a sign and a mark.
    Versions,
    /// AggregatingMergeTree: a key, and a column for each function.
    Aggregates,
}

/// How the values of a column are written.
#[derive(Clone, Copy)]
pub enum Writing {
    /// A digit, for a number of UInt8.
    Digit,
    /// A letter, for a text of this letter.
    Letter,
    /// `+` or `-`, for 1 or -1 of Int8.
    Sign,
    /// A digit from 0 to 3, for that many quarters of all numbers of the type, so that sums wrap at 4.
    Quarters(ColType),
}

impl Small {
    /// The table of a name.
    pub fn named(name: &str) -> Option<Small> {
        match name {
            "plain" => Some(Small::Plain),
            "replacing" => Some(Small::Last),
            "replacing-version" => Some(Small::Newest),
            "summing" => Some(Small::Sums),
            "collapsing" => Some(Small::Signs),
            "versioned" => Some(Small::Versions),
            "aggregating" => Some(Small::Aggregates),
            _ => None,
        }
    }

    /// How many columns its key has, which stand first.
    pub fn keys(self) -> u32 {
        if self == Small::Versions { 2 } else { 1 }
    }

    /// How many columns it has.
    pub fn width(self) -> u32 {
        match self {
            Small::Plain | Small::Last => 2,
            Small::Newest | Small::Signs => 3,
            Small::Sums | Small::Versions => 4,
            Small::Aggregates => 1 + FUNCTIONS,
        }
    }

    /// Whether its last column is the mark of a row, by which rows of equal values can be told apart.
    pub fn has_mark(self) -> bool {
        self != Small::Aggregates
    }

    /// How the column at a place, from 0, is written.
    pub fn writing(self, place: u32) -> Writing {
        match (self, place) {
            (Small::Sums, 1) => Writing::Quarters(ColType::UInt8),
            (Small::Sums, 2) => Writing::Quarters(ColType::Int8),
            (Small::Signs, 1) | (Small::Versions, 2) => Writing::Sign,
            (Small::Aggregates, 1) | (Small::Aggregates, 3) => Writing::Letter,
            (Small::Aggregates, 5) => Writing::Quarters(ColType::UInt64),
            _ => Writing::Digit,
        }
    }

    // The type of the column at a place, from 0.
    fn col_type(self, place: u32) -> ColType {
        match self.writing(place) {
            Writing::Digit => ColType::UInt8,
            Writing::Letter => ColType::Text,
            Writing::Sign => ColType::Int8,
            Writing::Quarters(of) => of,
        }
    }

    // The function of the column at a place, from 0, where it has one.
    fn function(self, place: u32) -> Option<Aggregate> {
        if self != Small::Aggregates {
            return None;
        }
        match place {
            1 => Some(Aggregate::Any),
            2 => Some(Aggregate::AnyLast),
            3 => Some(Aggregate::Min),
            4 => Some(Aggregate::Max),
            5 => Some(Aggregate::Sum),
            6 => Some(Aggregate::BitAnd),
            7 => Some(Aggregate::BitOr),
            8 => Some(Aggregate::BitXor),
            _ => None,
        }
    }

    /// The types of its columns.
    pub fn types(self, alloc: Global) -> Result<Seq<ColType>, NoMemory> {
        let mut types = Seq::new(alloc);
        for place in 0..self.width() {
            types.push(self.col_type(place))?;
        }
        Ok(types)
    }

    /// The functions of its columns.
    pub fn functions(self, alloc: Global) -> Result<Seq<Option<Aggregate>>, NoMemory> {
        let mut functions = Seq::new(alloc);
        for place in 0..self.width() {
            functions.push(self.function(place))?;
        }
        Ok(functions)
    }

    /// Its engine.
    pub fn engine(self, alloc: Global) -> Result<Engine, NoMemory> {
        Ok(match self {
            Small::Plain => Engine::Plain,
            Small::Last => Engine::Replacing(None),
            Small::Newest => Engine::Replacing(Some(1)),
            Small::Sums => Engine::Summing(Seq::from_slice(alloc, &[1, 2])?),
            Small::Signs => Engine::Collapsing(1),
            Small::Versions => Engine::Versioned {
                sign: 2,
                version: 1,
            },
            Small::Aggregates => Engine::Aggregating,
        })
    }

    // A column, whose name is the letter of its place.
    fn column(self, alloc: Global, place: u32) -> Result<Column, NoMemory> {
        let letter = b"abcdefghij".get(place as usize).copied();
        Ok(Column {
            name: Seq::from_slice(alloc, &[letter.unwrap_or(b'z')])?,
            col_type: self.col_type(place),
            function: self.function(place),
        })
    }

    /// Its schema.
    pub fn schema(self, alloc: Global) -> Result<Schema, NoMemory> {
        let mut columns = Seq::new(alloc);
        for place in 0..self.width() {
            columns.push(self.column(alloc, place)?)?;
        }
        let mut key = Seq::new(alloc);
        let mut primary = Seq::new(alloc);
        for place in 0..self.keys() {
            key.push(place)?;
            primary.push(place)?;
        }
        Ok(Schema {
            columns,
            engine: self.engine(alloc)?,
            key,
            primary,
            partition: None,
            granularity: 8192,
            indexes: Seq::new(alloc),
        })
    }
}

// The number of a digit.
fn digit_of(letter: u8) -> Option<u8> {
    let digit = char::from(letter).to_digit(10)?;
    u8::try_from(digit).ok()
}

// That many quarters of all numbers of a type: of UInt64, of Int8, else of UInt8.
fn quarters(of: ColType, count: u8) -> Option<Value> {
    match (of, count) {
        (ColType::UInt64, 0) => Some(Value::UInt64(0)),
        (ColType::UInt64, 1) => Some(Value::UInt64(4611686018427387904)),
        (ColType::UInt64, 2) => Some(Value::UInt64(9223372036854775808)),
        (ColType::UInt64, 3) => Some(Value::UInt64(13835058055282163712)),
        (ColType::Int8, 0) => Some(Value::Int8(0)),
        (ColType::Int8, 1) => Some(Value::Int8(64)),
        (ColType::Int8, 2) => Some(Value::Int8(-128)),
        (ColType::Int8, 3) => Some(Value::Int8(-64)),
        (ColType::UInt8, 0) => Some(Value::UInt8(0)),
        (ColType::UInt8, 1) => Some(Value::UInt8(64)),
        (ColType::UInt8, 2) => Some(Value::UInt8(128)),
        (ColType::UInt8, 3) => Some(Value::UInt8(192)),
        _ => None,
    }
}

// The value that a letter says; none where it says none.
fn value_of(alloc: Global, writing: Writing, letter: u8) -> Option<Value> {
    match writing {
        Writing::Digit => Some(Value::UInt8(digit_of(letter)?)),
        Writing::Letter => Some(Value::Text(Seq::from_slice(alloc, &[letter]).ok()?)),
        Writing::Sign if letter == b'+' => Some(Value::Int8(1)),
        Writing::Sign if letter == b'-' => Some(Value::Int8(-1)),
        Writing::Sign => None,
        Writing::Quarters(of) => quarters(of, digit_of(letter)?),
    }
}

/// The row that letters say, one for each column of a small table; none where they say none.
pub fn row_of(alloc: Global, small: Small, letters: &[u8]) -> Option<Row> {
    if letters.len() != small.width() as usize {
        return None;
    }
    let mut row = Seq::new(alloc);
    for place in 0..small.width() {
        let letter = letters.get(place as usize)?;
        let value = value_of(alloc, small.writing(place), *letter)?;
        row.push(value).ok()?;
    }
    Some(row)
}
