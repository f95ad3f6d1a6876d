// Parts that are merged granule by granule, and read so: whether memory that is ample brings both to an end, and the merge to the part that
// whole rows come to.
ghost use Rattle.std.specs.Prelude.{◌≡◌, ◌≤◌, ◌<◌, [], All, IfSome, IsTrue, List, OnOk, length};
ghost use Rattle.mt_values.specs.Grid.{AreRowsOf};
ghost use Rattle.mt_values.specs.Granules.{granules};
ghost use Rattle.mt_values.specs.Schemas.{column_types};
ghost use Rattle.mt_values.specs.declared.value.ColType.{ColType};
ghost use Rattle.row_merge.specs.Merged.{inputs_of};
ghost use Rattle.row_merge.specs.part_writer.Growing.{HasParts};
ghost use Rattle.table_core.specs.mt_model.History.{IsTableSchema};

use crate::answer::Answer;
use crate::copies::first_part;
use crate::growing::{all_have_blocks, are_alike, are_columns, has_parts, published};
use disk_mem::{MemArm, MemDir, MemDisk, MemStage};
use mt_base::{COLUMN_LIMIT, INDEX_LIMIT, NoMemory};
use mt_outside::{Disk, DiskError, Written};
use mt_values::{Block, FileId, Row, Schema, all_places};
use row_merge::digest_file::mark_of;
use row_merge::part_reader::{Part, PartRows, read_granule, rows_of_block};
use row_merge::part_set::Kept;
use row_merge::part_writer::{Loaded, SealedPart, write_part};
use row_merge::{Held, merge_rows, merge_streamed};
use std::alloc::Global;

/// What stands after the lines of each input.
const BAR: u8 = b'|';

/// How many bytes of a column readers read ahead at most.
const AHEADS: [u64; 3] = [0, 3, 65536];

/// The numbers below this one choose granules by their binary digits, among them any of four.
const CHOICES: u32 = 32;

/// What writes a part comes to.
type Wrote = Result<SealedPart<MemStage>, DiskError>;

/// The inputs of a merge: the rows of each, and a part of them.
#[derive(Drop)]
struct Inputs {
    rows: Vec<Vec<Row>>,
    parts: Vec<Kept<Part<MemDir>>>,
}

// Whether a table keeps to what a merge asks of one, which no clause says of a script's table.
fn is_table(schema: &Schema) -> bool
    ensures { IsTrue result → IsTableSchema schema.now }
{
    let Ok(()) = schema.check() else {
        return false;
    };
    let keys = schema.key.len();
    if keys < 1 {
        return false;
    }
    let primary = schema.primary.len();
    if primary < 1 {
        return false;
    }
    let columns = schema.columns.len();
    if columns > COLUMN_LIMIT {
        return false;
    }
    let indexes = schema.indexes.len();
    if indexes > INDEX_LIMIT {
        return false;
    }
    if !are_columns(schema, schema.key.as_slice()) {
        return false;
    }
    if !all_have_blocks(schema) {
        return false;
    }
    true
}

// The lines before the first bar, and what stands after it.
fn first_input(lines: &[u8]) -> (&[u8], &[u8]) {
    for (place, byte) in lines.iter().enumerate() {
        if *byte == BAR {
            return (&lines[..place], &lines[place + 1..]);
        }
    }
    (lines, &lines[lines.len()..])
}

// ---- parts

// A part that was written by an arm of a disk without names, as the disk has it under a name.
fn opened(alloc: Global, disk: MemDisk, arm: MemArm, part: Wrote) -> Result<Part<MemDir>, DiskError>
    requires { disk.told ≡ [] }
{
    match part {
        Ok(SealedPart { sealed, loaded }) => {
            let dir = published(alloc, disk, arm, Ok(sealed))?;
            Ok(Part::of(dir, loaded))
        }
        Err(error) => {
            let mut disk = disk;
            disk.take_back(arm);
            Err(error)
        }
    }
}

// The part of the rows of a block.
fn part_of(alloc: Global, schema: &Schema, block: &Block) -> Result<Part<MemDir>, DiskError>
    requires parts { HasParts schema.now }
    requires types { block.now.types ≡ column_types schema.now }
{
    let order = all_places(alloc, block.len() as u32)?;
    let mut disk = MemDisk::new(alloc)?;
    let mut arm = disk.arm(alloc)?;
    let part = write_part(alloc, &mut arm, schema, block, order.as_slice());
    opened(alloc, disk, arm, part)
}

// Adds the rows of a block, and a part of them.
fn add_input(
    alloc: Global,
    block: &Block,
    part: Part<MemDir>,
    inputs: &mut Inputs,
) -> Result<(), NoMemory>
    ensures { (types : List ColType) → block.now.types ≡ types
        → All (AreRowsOf types) (inputs_of inputs.old.rows.items)
        → OnOk result (All (AreRowsOf types) (inputs_of inputs.new.rows.items)) }
{
    // Reading the length shows that the rows keep to the types of the columns.
    let _count = block.len();
    let kept = Kept {
        name: first_part(),
        part,
        busy: false,
    };
    inputs.parts.push(kept)?;
    let rows = rows_of_block(alloc, block)?;
    inputs.rows.push(rows)?;
    Ok(())
}

// ---- merges

// The part of what a merge leaves of the rows of inputs, all of them in memory.
fn merged_whole(
    alloc: Global,
    schema: &Schema,
    inputs: &[Vec<Row>],
) -> Result<Part<MemDir>, DiskError>
    requires parts { HasParts schema.now }
    requires typed { All (AreRowsOf (column_types schema.now)) (inputs_of inputs.now) }
{
    let types = schema.types(alloc)?;
    let rows = merge_rows(alloc, schema, inputs)?;
    let count = rows.len();
    if count > u32::MAX as usize {
        return Err(DiskError::NoMemory);
    }
    let block = Block::from_rows(alloc, types.as_slice(), &rows)?;
    part_of(alloc, schema, &block)
}

// The part that a merge makes of parts granule by granule.
fn merged_streamed(
    alloc: Global,
    schema: &Schema,
    parts: &[Kept<Part<MemDir>>],
    held: &mut Held,
) -> Result<Part<MemDir>, DiskError>
    requires some { 0 < length parts.now }
    requires schema { IsTableSchema schema.now }
    requires parts { HasParts schema.now }
{
    let mut disk = MemDisk::new(alloc)?;
    let mut arm = disk.arm(alloc)?;
    match merge_streamed(alloc, &mut arm, schema, parts, held) {
        Ok(part) => opened(alloc, disk, arm, Ok(part)),
        Err(_) => opened(alloc, disk, arm, Err(DiskError::NoMemory)),
    }
}

// Whether no more rows that a rule gave waited to be appended than it gave at once and a granule has, and none was left over.
fn is_within(held: &Held, loaded: &Loaded) -> bool {
    let granule = u64::from(loaded.schema.granularity);
    let most = granule.saturating_add(held.most_given);
    held.read == 0 && held.made == 0 && held.most_made <= most
}

// ---- readers

// How many granules a part has.
fn granule_count(loaded: &Loaded) -> usize
    ensures { result ≤ granules loaded.now.schema.granularity loaded.now.manifest.rows }
{
    let size = u64::from(loaded.schema.granularity);
    if size < 1 {
        return 0;
    }
    loaded.manifest.rows.div_ceil(size) as usize
}

// The places of all columns of a part.
fn all_columns(alloc: Global, loaded: &Loaded) -> Option<Vec<u32>>
    ensures { IfSome result
        (λ places. All (λ place. place < length loaded.now.schema.columns) places.items) }
{
    let columns = loaded.schema.columns.len();
    if columns > COLUMN_LIMIT {
        return None;
    }
    match all_places(alloc, columns as u32) {
        Ok(places) => Some(places),
        Err(_) => None,
    }
}

// Of this many granules those at which the binary digits of a number, from the lowest on and over again, are one.
fn chosen_by(alloc: Global, granules: usize, digits: u32) -> Result<Vec<bool>, NoMemory> {
    let mut chosen = Vec::new(alloc);
    let mut rest = digits;
    for _granule in 0..granules {
        chosen.push(rest % 2 == 1)?;
        rest = if rest < 2 { digits } else { rest / 2 };
    }
    Ok(chosen)
}

// Whether two lists of rows are one.
fn same_rows(a: &[Row], b: &[Row]) -> bool {
    a == b
}

// Whether a reader that reads this many bytes ahead gives, of the chosen granules of a part, the rows that each has by itself.
fn is_read_alike(
    alloc: Global,
    arm: &mut MemArm,
    part: &Part<MemDir>,
    places: &[u32],
    chosen: &[bool],
    most: u64,
) -> Option<bool>
    requires { All (λ place. place < length part.now.loaded.schema.columns) places.now }
{
    let mut reader = PartRows::new(alloc, &part.loaded.schema, part, chosen, places, most).ok()?;
    for (number, is_chosen) in chosen.iter().enumerate() {
        if !*is_chosen {
            continue;
        }
        if number >= granule_count(&part.loaded) {
            return Some(false);
        }
        let wanted = read_granule(alloc, arm, part, number, places).ok()?;
        let Some(block) = reader.next(alloc, arm).ok()? else {
            return Some(false);
        };
        let found = rows_of_block(alloc, &block).ok()?;
        if !same_rows(&found, &wanted) {
            return Some(false);
        }
    }
    let after = reader.next(alloc, arm).ok()?;
    Some(after.is_none())
}

impl Answer {
    // The part of the rows of a block, where it was written.
    fn part_written(&mut self, schema: &Schema, block: &Block) -> Option<Part<MemDir>>
        requires parts { HasParts schema.now }
        requires types { block.now.types ≡ column_types schema.now }
    {
        let part = part_of(self.alloc, schema, block);
        self.note(part.is_ok());
        part.ok()
    }

    // The inputs that lines are, with a bar after those of each.
    fn inputs_read(&mut self, schema: &Schema, lines: &[u8]) -> Option<Inputs>
        requires { HasParts schema.now }
        ensures { IfSome result
            (λ i. All (AreRowsOf (column_types schema.now)) (inputs_of i.rows.items)) }
    {
        let mut inputs = Inputs {
            rows: Vec::new(self.alloc),
            parts: Vec::new(self.alloc),
        };
        let mut rest = lines;
        for _input in 0..lines.len() {
            if rest.is_empty() {
                break;
            }
            let (own, after) = first_input(rest);
            let block = self.rows_read(schema, own)?;
            let part = self.part_written(schema, &block)?;
            let Ok(()) = add_input(self.alloc, &block, part, &mut inputs) else {
                self.note(false);
                return None;
            };
            rest = after;
        }
        Some(inputs)
    }

    // Prints the mark of the manifest, which has the mark of each other file.
    fn tell_manifest(&mut self, files: &[Written]) {
        for written in files {
            if written.file == FileId::Manifest {
                self.put(", manifest ");
                self.mark(mark_of(written.bytes.as_slice()));
            }
        }
    }

    // Prints the rows of each granule of a part, each granule read by itself.
    fn tell_granules(&mut self, arm: &mut MemArm, part: &Part<MemDir>, places: &[u32])
        requires { All (λ place. place < length part.now.loaded.schema.columns) places.now }
    {
        self.put("; granules");
        for number in 0..granule_count(&part.loaded) {
            self.put(" ");
            match read_granule(self.alloc, arm, part, number, places) {
                Ok(rows) => self.lines_of(&rows),
                Err(_) => self.note(false),
            }
        }
    }

    // Whether a reader gives what is wanted of the granules that a number chooses.
    fn reads(
        &mut self,
        arm: &mut MemArm,
        part: &Part<MemDir>,
        places: &[u32],
        digits: u32,
        most: u64,
    ) -> bool
        requires { All (λ place. place < length part.now.loaded.schema.columns) places.now }
    {
        let granules = granule_count(&part.loaded);
        let Ok(chosen) = chosen_by(self.alloc, granules, digits) else {
            self.note(false);
            return false;
        };
        let alike = is_read_alike(self.alloc, arm, part, places, &chosen, most);
        self.note(alike.is_some());
        alike == Some(true)
    }

    // Prints how many readers of a part, by choices of granules and by what is read ahead, give what is wanted.
    fn tell_readers(&mut self, arm: &mut MemArm, part: &Part<MemDir>, places: &[u32])
        requires { All (λ place. place < length part.now.loaded.schema.columns) places.now }
    {
        let mut readers = 0u64;
        let mut alike = 0u64;
        for most in &AHEADS {
            for digits in 0..CHOICES {
                readers = readers.saturating_add(1);
                if self.reads(arm, part, places, digits, *most) {
                    alike = alike.saturating_add(1);
                }
            }
        }
        self.put("; readers ");
        self.number(alike);
        self.put(" alike of ");
        self.number(readers);
    }

    // Prints what is read of a part.
    fn read_part(&mut self, arm: &mut MemArm, part: &Part<MemDir>) {
        let Some(columns) = all_columns(self.alloc, &part.loaded) else {
            return self.note(false);
        };
        let places = columns.as_slice();
        self.tell_granules(arm, part, places);
        self.tell_readers(arm, part, places);
    }

    // The same, by an arm of an empty disk.
    fn read_by_arm(&mut self, part: &Part<MemDir>) {
        let Ok(mut disk) = MemDisk::new(self.alloc) else {
            return self.note(false);
        };
        let Ok(mut arm) = disk.arm(self.alloc) else {
            return self.note(false);
        };
        self.read_part(&mut arm, part);
        disk.take_back(arm);
    }

    // Prints how many rows a merge left and had in memory, and whether its part is that of whole rows.
    fn tell_merge(&mut self, whole: &Part<MemDir>, found: &Part<MemDir>, held: &Held) {
        self.put(", left ");
        self.number(found.loaded.manifest.rows);
        self.put(", most read ");
        self.number(held.most_read);
        if !is_within(held, &found.loaded) {
            self.put(", too many made");
        }
        self.put(if are_alike(found.dir.files(), whole.dir.files()) {
            ", alike"
        } else {
            ", not alike"
        });
        self.tell_manifest(found.dir.files());
    }

    // Prints what a merge of parts granule by granule leaves, beside one of their rows, and what is read of it.
    fn merge_inputs(&mut self, schema: &Schema, inputs: &Inputs)
        requires some { 0 < length inputs.now.parts.items }
        requires schema { IsTableSchema schema.now }
        requires parts { HasParts schema.now }
        requires typed { All (AreRowsOf (column_types schema.now))
            (inputs_of inputs.now.rows.items) }
    {
        let mut held = Held::new();
        let Ok(found) = merged_streamed(self.alloc, schema, &inputs.parts, &mut held) else {
            return self.note(false);
        };
        let Ok(whole) = merged_whole(self.alloc, schema, &inputs.rows) else {
            return self.note(false);
        };
        self.tell_merge(&whole, &found, &held);
        self.read_by_arm(&found);
    }

    // Prints how many inputs there are, and how many rows they have.
    fn tell_inputs(&mut self, inputs: &[Vec<Row>]) {
        let mut rows = 0usize;
        for input in inputs {
            rows = rows.saturating_add(input.len());
        }
        self.counted("inputs ", inputs.len());
        self.counted(", rows ", rows);
    }

    /// Merges parts of the inputs that lines are, of the table that a statement makes, granule by granule, and reads the part that comes of
    /// it. Prints how many rows there were and are, how many were in memory, whether the files are those of whole rows, the mark of the
    /// manifest, the rows of each granule, and how many readers give them alike.
    pub fn stream(&mut self, lines: &[u8], rest: &str) {
        self.open();
        let script = self.bytes_of(rest);
        let Some(schema) = self.schema_made(&script) else {
            return self.fail("no table is made");
        };
        if !is_table(&schema) {
            return self.fail("no part of the table can be merged");
        }
        if !has_parts(&schema) {
            return self.fail("no part of the table can be written");
        }
        let Some(inputs) = self.inputs_read(&schema, lines) else {
            return;
        };
        if inputs.parts.is_empty() {
            return self.fail("there is no input");
        }
        self.tell_inputs(&inputs.rows);
        self.merge_inputs(&schema, &inputs);
    }
}
