// What no clause says: that parts are merged granule by granule where memory is ample, and to the bytes that their rows in memory make, for
// granules of one row to six.
ghost use Rattle.std.specs.Prelude.{◌≡◌, ◌∷◌, ◌<◌, [], All, IfOk};
ghost use Rattle.mt_values.specs.Grid.{AreRowsOf};
ghost use Rattle.mt_values.specs.Schemas.{column_types};
ghost use Rattle.mt_values.specs.Values.{types_of};
ghost use Rattle.part_history.specs.mt_model.History.{IsTableSchema};
ghost use Rattle.part_reader.specs.part_writer.PartFiles.{HasIndexes};
ghost use Rattle.part_reader.specs.primary_marks.Keys.{HasMarks};
ghost use Rattle.row_merge.specs.Merged.{inputs_of};
ghost use Rattle.row_merge.specs.TestTables.{letters};

use crate::{Held, merge_rows, merge_streamed};
use mt_base::{Bytes, NoMemory, Partition, Seq, Twin};
use mt_outside::{Arm, Dir, DiskError, Stage};
use mt_values::{Block, ColType, Column, Engine, FileId, Row, Schema, Value, all_places};
use part_history::part_name::PartName;
use part_reader::Part;
use part_reader::part_writer::{SealedPart, write_part};
use part_set::Kept;
use std::alloc::Global;
use std::test::Fail;

/// How many files a folder has: the manifest, the two of its granules, and those of two columns.
const FILES: usize = 5;

/// The place of a file among those of a folder.
fn place_of(file: FileId) -> usize {
    match file {
        FileId::Manifest => 0,
        FileId::Marks => 1,
        FileId::Primary => 2,
        FileId::Column(0) => 3,
        FileId::Column(1) => 4,
        _ => FILES,
    }
}

/// A folder in memory.
#[derive(Drop)]
struct Shelf {
    files: Seq<Bytes>,
}

impl Dir for Shelf {
    ghost use Rattle.std.specs.Prelude.{None};

    ghost files = { λ _. None };

    fn share(&self, alloc: Global) -> Result<Self, NoMemory> {
        Ok(Shelf {
            files: self.files.twin(alloc)?,
        })
    }
}

/// A folder that is filled in memory.
#[derive(Drop)]
struct Filler {
    files: Vec<Bytes>,
}

impl Stage for Filler {
    ghost use Rattle.std.specs.Prelude.{None};

    ghost files = { λ _. None };

    ghost failed = { λ _. 0 };

    fn append(&mut self, file: FileId, bytes: &[u8]) -> Result<(), DiskError> {
        let place = place_of(file);
        if place >= self.files.len() {
            return Err(DiskError::NoMemory);
        }
        self.files[place].extend(bytes)?;
        Ok(())
    }

    fn sync(&mut self, _file: FileId) -> Result<(), DiskError> {
        Ok(())
    }

    fn faults(&self) -> u64 {
        0
    }
}

/// The bytes of files of which nothing is written.
fn no_bytes(alloc: Global) -> Result<Vec<Bytes>, NoMemory> {
    let mut files = Vec::new(alloc);
    for _file in 0..FILES {
        files.push(Seq::new(alloc))?;
    }
    Ok(files)
}

/// An arm over folders in memory.
#[derive(Drop)]
struct Keeper;

impl Arm for Keeper {
    type Stage = Filler;

    type Dir = Shelf;

    ghost use Rattle.std.specs.Prelude.{false};

    ghost tells = { λ _. false };

    ghost failed = { λ _. 0 };

    fn stage(&mut self, alloc: Global) -> Result<Filler, DiskError> {
        Ok(Filler {
            files: no_bytes(alloc)?,
        })
    }

    fn abandon(&mut self, _stage: Filler) {}

    fn read(
        &mut self,
        dir: &Shelf,
        file: FileId,
        at: u64,
        buf: &mut [u8],
    ) -> Result<usize, DiskError> {
        let Some(bytes) = dir.files.as_slice().get(place_of(file)) else {
            return Ok(0);
        };
        let Some(rest) = bytes.as_slice().get(at as usize..) else {
            return Ok(0);
        };
        let count = rest.len().min(buf.len());
        buf[..count].copy_from_slice(&rest[..count]);
        Ok(count)
    }

    fn faults(&self) -> u64 {
        0
    }
}

/// Inputs, each of rows of two letters: a key and a value.
const CASES: [&[&[u8]]; 5] = [
    &[b""],
    &[b"a1a2b3"],
    &[b"a9b1", b"a1a2"],
    &[b"b7", b"", b"a1b5c1c2c3c4d0"],
    &[b"c1", b"a1", b"b1b2b3b4", b"a2c0", b"a0"],
];

/// A table of two columns, its key the first.
fn table(alloc: Global, engine: Engine, granularity: u32) -> Result<Schema, NoMemory>
    ensures types { IfOk result (λ s. column_types s ≡ letters) }
    ensures key { IfOk result (λ s. s.key ≡ 0 ∷ []) }
    ensures primary { IfOk result (λ s. s.primary ≡ 0 ∷ []) }
    ensures granularity { IfOk result (λ s. s.granularity ≡ granularity) }
    ensures indexes { IfOk result (λ s. s.indexes ≡ []) }
{
    let mut columns = Seq::new(alloc);
    columns.push(Column {
        name: Seq::from_slice(alloc, b"k")?,
        col_type: ColType::UInt8,
        function: None,
    })?;
    columns.push(Column {
        name: Seq::from_slice(alloc, b"v")?,
        col_type: ColType::UInt8,
        function: None,
    })?;
    Ok(Schema {
        columns,
        engine,
        key: Seq::from_slice(alloc, &[0])?,
        primary: Seq::from_slice(alloc, &[0])?,
        partition: None,
        granularity,
        indexes: Seq::new(alloc),
    })
}

/// A row of two letters.
fn row(alloc: Global, key: u8, value: u8) -> Result<Row, NoMemory>
    ensures { IfOk result (λ r. types_of r ≡ letters) }
{
    let mut row = Seq::new(alloc);
    row.push(Value::UInt8(key))?;
    row.push(Value::UInt8(value))?;
    Ok(row)
}

/// The rows that a text tells.
fn rows_of(alloc: Global, text: &[u8]) -> Result<Vec<Row>, NoMemory>
    ensures { IfOk result (λ v. AreRowsOf letters v.items) }
{
    let mut rows = Vec::new(alloc);
    for place in 0..text.len() / 2 {
        rows.push(row(alloc, text[place * 2], text[place * 2 + 1])?)?;
    }
    Ok(rows)
}

/// The rows of each input.
fn all_rows(alloc: Global, texts: &[&[u8]]) -> Result<Vec<Vec<Row>>, NoMemory>
    ensures { IfOk result (λ v. All (AreRowsOf letters) (inputs_of v.items)) }
{
    let mut inputs = Vec::new(alloc);
    for text in texts {
        inputs.push(rows_of(alloc, text)?)?;
    }
    Ok(inputs)
}

/// The part that is written of rows.
fn part_of(alloc: Global, schema: &Schema, rows: &[Row]) -> Result<Part<Shelf>, DiskError>
    requires types { column_types schema.now ≡ letters }
    requires schema { IsTableSchema schema.now }
    requires marks { HasMarks schema.now }
    requires indexes { HasIndexes schema.now }
    requires typed { AreRowsOf letters rows.now }
{
    if rows.len() > 99 {
        return Err(DiskError::NoMemory);
    }
    let types = schema.types(alloc)?;
    let block = Block::from_rows(alloc, types.as_slice(), rows)?;
    let order = all_places(alloc, block.len() as u32)?;
    Ok(shelved(write_part(alloc, &mut Keeper, schema, &block, &order)?))
}

/// A part that was sealed, as one that may be read.
fn shelved(part: SealedPart<Filler>) -> Part<Shelf> {
    let SealedPart { sealed, loaded } = part;
    let Filler { files } = sealed.into_stage();
    Part::of(
        Shelf {
            files: Seq::of(files),
        },
        loaded,
    )
}

/// The parts of inputs.
fn parts_of(
    alloc: Global,
    schema: &Schema,
    inputs: &[Vec<Row>],
) -> Result<Vec<Kept<Part<Shelf>>>, DiskError>
    requires types { column_types schema.now ≡ letters }
    requires schema { IsTableSchema schema.now }
    requires marks { HasMarks schema.now }
    requires indexes { HasIndexes schema.now }
    requires typed { All (AreRowsOf letters) (inputs_of inputs.now) }
{
    let mut parts = Vec::new(alloc);
    for rows in inputs {
        let kept = Kept {
            name: PartName {
                partition: Partition::Whole,
                min_block: 1,
                max_block: 1,
                level: 0,
                mutation: None,
            },
            part: part_of(alloc, schema, rows)?,
            busy: false,
        };
        let Ok(()) = parts.push(kept) else {
            return Err(DiskError::NoMemory);
        };
    }
    Ok(parts)
}

/// Whether a merge of the parts of inputs makes the bytes that are made of the merged rows of the inputs.
fn is_merged(alloc: Global, schema: &Schema, texts: &[&[u8]]) -> Result<bool, DiskError>
    requires types { column_types schema.now ≡ letters }
    requires schema { IsTableSchema schema.now }
    requires marks { HasMarks schema.now }
    requires indexes { HasIndexes schema.now }
{
    let inputs = all_rows(alloc, texts)?;
    let wanted = merge_rows(alloc, schema, &inputs)?;
    let wanted = part_of(alloc, schema, &wanted)?;
    let parts = parts_of(alloc, schema, &inputs)?;
    if parts.is_empty() {
        return Ok(false);
    }
    let mut held = Held::new();
    match merge_streamed(alloc, &mut Keeper, schema, &parts, &mut held) {
        Ok(part) => {
            let found = shelved(part);
            Ok(found.dir.files == wanted.dir.files)
        }
        Err(_) => Err(DiskError::NoMemory),
    }
}

/// Whether all cases are merged so in a table of this engine.
fn are_merged(alloc: Global, engine: Engine, granularity: u32) -> Result<bool, DiskError>
    requires { 0 < granularity }
{
    let schema = table(alloc, engine, granularity)?;
    let Ok(()) = schema.check() else {
        return Ok(false);
    };
    for texts in &CASES {
        if !is_merged(alloc, &schema, texts)? {
            return Ok(false);
        }
    }
    Ok(true)
}

#[test]
fn parts_are_merged_to_the_bytes_of_their_rows(rt: HostRuntime) -> Result<(), Fail> {
    let alloc = rt.alloc();
    for granularity in 1..7 {
        assert!(rt; are_merged(alloc, Engine::Plain, granularity)?);
        assert!(rt; are_merged(alloc, Engine::Replacing(None), granularity)?);
        assert!(rt; are_merged(alloc, Engine::Replacing(Some(1)), granularity)?);
        let sums = Engine::Summing(Seq::from_slice(alloc, &[1])?);
        assert!(rt; are_merged(alloc, sums, granularity)?);
        assert!(rt; are_merged(alloc, Engine::Aggregating, granularity)?);
    }
    Ok(())
}
