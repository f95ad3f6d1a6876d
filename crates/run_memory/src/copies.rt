// Copies of what is kept: a table that is pinned, and twins, each printed after its original.
use crate::answer::Answer;
use crate::events::{number_row, numbers_schema};
use crate::left::Left;
use crate::text::first_word;
use disk_mem::MemDir;
use mt_base::{NoMemory, Partition, Rows, Seq, Twin};
use mt_values::{
    Aggregate, Cell, ColType, Column, ColumnData, Engine, IndexKind, Manifest, Name, Schema,
    SkipIndex, Value,
};
use row_merge::digest_file::mark_of;
use row_merge::part_reader::Part;
use row_merge::part_set::{Kept, PartSet, Snap};
use row_merge::part_writer::{Loaded, SharedLoaded};
use row_merge::primary_marks::Marks;
use row_merge::skip_index::Index;
use std::alloc::Global;
use table_core::part_history::CorePart;
use table_core::part_name::{PartName, text};
use table_core::predicate::Known;

/// The name of the part that the first INSERT into a table makes.
pub fn first_part() -> PartName {
    PartName {
        partition: Partition::Whole,
        min_block: 1,
        max_block: 1,
        level: 0,
        mutation: None,
    }
}

// The first part of a table, of two rows of numbers.
fn part_of(alloc: Global, table: &Name, first: u8, second: u8) -> Result<CorePart, NoMemory> {
    let mut rows = Seq::new(alloc);
    rows.push(number_row(alloc, first)?)?;
    rows.push(number_row(alloc, second)?)?;
    Ok(CorePart {
        table: table.twin(alloc)?,
        name: first_part(),
        rows,
    })
}

// What is kept of such a part, under its name.
fn kept_part(alloc: Global, first: u8, second: u8) -> Result<Kept<CorePart>, NoMemory> {
    let table = Seq::from_slice(alloc, b"t")?;
    let part = part_of(alloc, &table, first, second)?;
    let name = first_part();
    let busy = false;
    Ok(Kept { name, part, busy })
}

// A column without a function, whose name is one letter.
fn plain_column(alloc: Global, letter: u8, col_type: ColType) -> Result<Column, NoMemory> {
    Ok(Column {
        name: Seq::from_slice(alloc, &[letter])?,
        col_type,
        function: None,
    })
}

// The schema of a number `a` and a text `s`, with the sorting key `s, a`, the primary key `s`, the partition column `a`, granules of three rows
// and a skip index `i` of `s`.
fn two_columns(alloc: Global) -> Result<Schema, NoMemory> {
    let mut columns = Seq::new(alloc);
    columns.push(plain_column(alloc, b'a', ColType::UInt8)?)?;
    columns.push(plain_column(alloc, b's', ColType::Text)?)?;
    Ok(Schema {
        columns,
        engine: Engine::Plain,
        key: Seq::from_slice(alloc, &[1, 0])?,
        primary: Seq::from_slice(alloc, &[1])?,
        partition: Some(0),
        granularity: 3,
        indexes: one_index(alloc)?,
    })
}

// A skip index `i` of the second column: a set of two values, over blocks of four granules.
fn one_index(alloc: Global) -> Result<Seq<SkipIndex>, NoMemory> {
    let mut indexes = Seq::new(alloc);
    indexes.push(SkipIndex {
        name: Seq::from_slice(alloc, b"i")?,
        column: 1,
        kind: IndexKind::Set(2),
        granularity: 4,
    })?;
    Ok(indexes)
}

// What is kept of that index: of one block a text, of another one nothing.
fn two_blocks(alloc: Global) -> Result<Index, NoMemory> {
    let mut values = Seq::new(alloc);
    values.push(Value::Text(Seq::from_slice(alloc, b"x")?))?;
    let mut blocks = Seq::new(alloc);
    blocks.push(Known::List(values))?;
    blocks.push(Known::Unknown)?;
    Ok(Index {
        column: 1,
        span: 4,
        granules: 5,
        blocks,
    })
}

// A set with one part of a table, its first.
fn one_part(
    alloc: Global,
    table: &Name,
    first: u8,
    second: u8,
) -> Result<PartSet<CorePart>, NoMemory> {
    let part = part_of(alloc, table, first, second)?;
    let mut set = PartSet::new(alloc);
    set.add(alloc, table, first_part(), part)?;
    Ok(set)
}

// The primary keys of two rows, each of one number.
fn two_keys(alloc: Global) -> Result<Marks, NoMemory> {
    let mut column = ColumnData::new(alloc, ColType::UInt8);
    column.push_cell(Cell::UInt8(1))?;
    column.push_cell(Cell::UInt8(2))?;
    let mut columns = Vec::new(alloc);
    columns.push(column)?;
    Ok(Marks::of_columns(columns, 2))
}

// The part of a folder with this many rows, whose manifest has the marks of all its files. Two keys and two blocks of a skip index are kept
// of it, and of each file that it is one granule.
fn stored_part(alloc: Global, rows: u64, dir: MemDir) -> Result<Part<MemDir>, NoMemory> {
    let mut files = Seq::new(alloc);
    let mut places = Seq::new(alloc);
    for written in dir.files() {
        let mark = mark_of(written.bytes.as_slice());
        files.push(mark)?;
        places.push(Seq::from_slice(alloc, &[0, mark.size])?)?;
    }
    let mut indexes = Seq::new(alloc);
    indexes.push(two_blocks(alloc)?)?;
    let loaded = Loaded {
        schema: two_columns(alloc)?,
        manifest: Manifest { rows, files },
        marks: two_keys(alloc)?,
        places,
        indexes,
    };
    Ok(Part::of(dir, SharedLoaded::of(alloc, loaded)?))
}

impl Answer {
    // Prints a type.
    fn col_type(&mut self, of: ColType) {
        let put = write!(self.text, "{of:?}").is_ok();
        self.note(put);
    }

    // Prints the function of a column.
    fn function(&mut self, function: Aggregate) {
        let put = write!(self.text, " {function:?}").is_ok();
        self.note(put);
    }

    // Prints columns, each by its name, its type and, where it has one, its function.
    fn columns(&mut self, columns: &[Column]) {
        for column in columns {
            self.escaped(column.name.as_slice());
            self.put(" ");
            self.col_type(column.col_type);
            if let Some(function) = column.function {
                self.function(function);
            }
            self.put(", ");
        }
    }

    // Prints an engine, and the places of the columns that it names.
    fn engine(&mut self, engine: &Engine) {
        match engine {
            Engine::Plain => self.put("plain"),
            Engine::Replacing(None) => self.put("replacing"),
            Engine::Replacing(Some(version)) => self.places("replacing", &[*version]),
            Engine::Summing(places) => self.places("summing", places.as_slice()),
            Engine::Collapsing(sign) => self.places("collapsing", &[*sign]),
            Engine::Versioned { sign, version } => self.places("versioned", &[*sign, *version]),
            Engine::Aggregating => self.put("aggregating"),
        }
        self.put(", ");
    }

    // Prints a word, and places of columns after it.
    fn places(&mut self, word: &str, places: &[u32]) {
        self.put(word);
        for place in places {
            self.put(" ");
            self.number(u64::from(*place));
        }
    }

    // Prints the columns of a schema, its engine, the places in the columns of its keys and of its partition column, where it has one, the
    // rows of a granule, and its skip indexes.
    fn schema(&mut self, schema: &Schema) {
        self.columns(schema.columns.as_slice());
        self.engine(&schema.engine);
        self.places("key", schema.key.as_slice());
        self.places(", primary", schema.primary.as_slice());
        if let Some(place) = schema.partition {
            self.places(", partition", &[place]);
        }
        self.put(", granularity ");
        self.number(u64::from(schema.granularity));
        for index in schema.indexes.as_slice() {
            self.index(index);
        }
    }

    // Prints a skip index: its name, the place of its column, its kind and the granules of a block.
    fn index(&mut self, index: &SkipIndex) {
        self.put(", index ");
        self.escaped(index.name.as_slice());
        self.places(" of", &[index.column]);
        self.put(" ");
        let kind = index.kind;
        let put = write!(self.text, "{kind:?}").is_ok();
        self.note(put);
        self.put(" granularity ");
        self.number(u64::from(index.granularity));
    }

    /// Prints the name of a part.
    pub fn part_name(&mut self, name: &PartName) {
        match text(self.alloc, name) {
            Ok(text) => self.escaped(&text),
            Err(_) => self.note(false),
        }
    }

    // Prints what is kept of a part: its name, and the table, the name and the rows of the part itself.
    fn kept_part(&mut self, kept: &Kept<CorePart>) {
        self.part_name(&kept.name);
        self.put(": ");
        self.escaped(kept.part.table.as_slice());
        self.put(" ");
        self.part_name(&kept.part.name);
        self.put(" ");
        self.lines_of(kept.part.rows.as_slice());
    }

    // Prints the schema that is kept of a part, the places of its granules in each file, the number of its keys, and of each skip index how many
    // blocks of how many granules it has.
    fn loaded(&mut self, loaded: &Loaded) {
        self.schema(&loaded.schema);
        for starts in loaded.places.as_slice() {
            self.put(", granules at");
            for start in starts.as_slice() {
                self.put(" ");
                self.number(*start);
            }
        }
        self.put(", keys ");
        self.number(loaded.marks.len() as u64);
        for index in loaded.indexes.as_slice() {
            self.put(", blocks ");
            self.number(index.blocks.len() as u64);
            self.put(" of granules ");
            self.number(index.granules as u64);
        }
    }

    // Prints a part of a disk: what is kept of it, its number of rows, the marks of its manifest, and the bytes of the files of its folder.
    fn stored(&mut self, part: &Part<MemDir>) {
        self.loaded(&part.loaded);
        self.put(", ");
        self.number(part.rows());
        self.put(" rows");
        for mark in part.loaded.manifest.files.as_slice() {
            self.put(", ");
            self.mark(*mark);
        }
        for written in part.dir.files() {
            self.put(", ");
            self.bytes(written.bytes.as_slice());
        }
    }

    // What a call gave, where it is not out of memory.
    fn given<T: Drop>(&mut self, answer: Result<T, NoMemory>) -> Option<T> {
        self.note(answer.is_ok());
        answer.ok()
    }

    // The twin of a value.
    fn twin_of<T: Twin>(&mut self, original: &T) -> Option<T> {
        let twin = original.twin(self.alloc);
        self.put(" and ");
        self.given(twin)
    }

    // Prints what a pinned table has: its schema, its parts and the length of the history.
    fn snap(&mut self, snap: &Snap<CorePart>) {
        self.schema(&snap.schema);
        self.put("; ");
        for kept in &snap.parts {
            self.kept_part(kept);
        }
        self.put("; length ");
        self.number(snap.length);
    }

    // Pins a table with one part, at a length of the history, prints what it has, and lets it go.
    fn pinned(&mut self, length: u64, first: u8, second: u8) -> Result<(), NoMemory> {
        let table = Seq::from_slice(self.alloc, b"t")?;
        let mut set = one_part(self.alloc, &table, first, second)?;
        let schema = numbers_schema(self.alloc)?;
        let snap = set.pin(self.alloc, &table, &schema, length)?;
        self.snap(&snap);
        set.unpin(snap);
        Ok(())
    }

    /// Prints what a pinned table has, whose one part has two rows.
    pub fn pin(&mut self, rest: &str) {
        self.open();
        let (length, rest) = first_word(rest);
        let (first, second) = first_word(rest);
        let length = self.number_of(length);
        let first = self.small_of(first);
        let second = self.small_of(second);
        let printed = self.pinned(length, first, second);
        self.note(printed.is_ok());
    }

    // Prints a number and its twins, of 8, of 32 and of 64 bits.
    fn twin_number(&mut self, rest: &str) {
        let number = self.small_of(rest);
        self.number(u64::from(number));
        if let Some(twin) = self.twin_of(&number) {
            self.number(u64::from(twin));
        }
        if let Some(twin) = self.twin_of(&u32::from(number)) {
            self.number(u64::from(twin));
        }
        if let Some(twin) = self.twin_of(&u64::from(number)) {
            self.number(twin);
        }
    }

    // Prints a name and its twin.
    fn twin_name(&mut self, rest: &str) {
        let name = Seq::of(self.bytes_of(rest));
        self.bytes(name.as_slice());
        if let Some(twin) = self.twin_of(&name) {
            self.bytes(twin.as_slice());
        }
    }

    // Prints a type and its twin.
    fn twin_type(&mut self, rest: &str) {
        let of = self.type_of(rest);
        self.col_type(of);
        if let Some(twin) = self.twin_of(&of) {
            self.col_type(twin);
        }
    }

    // Prints the schema that the CREATE of a script makes, and its twin.
    fn twin_schema(&mut self, rest: &str) {
        let script = self.bytes_of(rest);
        match self.schema_made(&script) {
            Some(schema) => {
                self.schema(&schema);
                if let Some(twin) = self.twin_of(&schema) {
                    self.schema(&twin);
                }
            }
            None => self.fail("no table is made"),
        }
    }

    // Prints the row of one column that a line is, and its twin.
    fn twin_row(&mut self, rest: &str) {
        if let Some(row) = self.row_of(rest) {
            self.line_of(row.as_slice());
            if let Some(twin) = self.twin_of(&row) {
                self.line_of(twin.as_slice());
            }
        }
    }

    // Prints what is kept of a part with two rows, and its twin.
    fn twin_part(&mut self, rest: &str) {
        let (first, second) = first_word(rest);
        let first = self.small_of(first);
        let second = self.small_of(second);
        let kept = kept_part(self.alloc, first, second);
        if let Some(kept) = self.given(kept) {
            self.kept_part(&kept);
            if let Some(twin) = self.twin_of(&kept) {
                self.kept_part(&twin);
            }
        }
    }

    // Prints the part of a folder, with this many rows, and its twin.
    fn twin_folder(&mut self, rows: u64, dir: MemDir) {
        let part = stored_part(self.alloc, rows, dir);
        if let Some(part) = self.given(part) {
            self.stored(&part);
            if let Some(twin) = self.twin_of(&part) {
                self.stored(&twin);
            }
        }
    }

    // The same of the folder that has a name in what the last run left.
    fn twin_stored(&mut self, left: &Option<Left>, rest: &str) {
        let (rows, name) = first_word(rest);
        let rows = self.number_of(rows);
        let name = Seq::of(self.bytes_of(name));
        if let Some(dir) = self.dir_left(left, &name) {
            self.twin_folder(rows, dir);
        }
    }

    /// Prints a value of a kind, and the twins of it.
    pub fn twin(&mut self, left: &Option<Left>, rest: &str) {
        self.open();
        let (kind, rest) = first_word(rest);
        match kind {
            "number" => self.twin_number(rest),
            "name" => self.twin_name(rest),
            "type" => self.twin_type(rest),
            "schema" => self.twin_schema(rest),
            "row" => self.twin_row(rest),
            "part" => self.twin_part(rest),
            "stored" => self.twin_stored(left, rest),
            _ => self.fail("nothing of this name has a twin"),
        }
    }
}
