// Parts that are written row by row and in blocks, and files that grow piece by piece: whether memory that is ample brings them to an end.
ghost use Rattle.std.specs.Prelude.{◌≡◌, ◌<◌, [], All, IfSome, IsTrue, OnOk, length};
ghost use Rattle.mt_values.specs.Schemas.{column_types, is_large};
ghost use Rattle.row_merge.specs.part_writer.Growing.{HasParts, IsWhole};
ghost use Rattle.run_memory.specs.Growing.{HasBlocks};
ghost use Rattle.row_merge.specs.part_writer.stage_dir.Stages.{IsIntact};

use crate::answer::Answer;
use crate::text::first_word;
use disk_mem::{MemArm, MemDir, MemDisk, MemStage};
use mt_base::{SET_LIMIT, Seq};
use mt_outside::{Arm, Disk, DiskError, Written};
use mt_plain::tsv_rows::read_rows;
use mt_values::{Block, FileId, IndexKind, Schema, SkipIndex, all_places};
use row_merge::part_writer::stage_dir::{Open, Sealed, Unsealed, append_file, seal};
use row_merge::part_writer::{Broken, PartOut, SealedPart, content_count, write_part};
use std::alloc::Global;

/// A sealed stage of the disk in memory.
pub type Filled = Result<Sealed<MemStage>, DiskError>;

// Whether more values of a block may be kept than 32 bits count.
fn is_large(kind: IndexKind) -> bool
    ensures { result ≡ is_large kind }
{
    match kind {
        IndexKind::MinMax => false,
        IndexKind::Set(limit) => limit > SET_LIMIT,
    }
}

// Whether a skip index is of a column of the table, and has blocks.
fn has_blocks(schema: &Schema, index: &SkipIndex) -> bool
    ensures { IsTrue result → HasBlocks schema.now index.now }
{
    let width = schema.columns.len();
    if width <= index.column as usize {
        return false;
    }
    if index.granularity < 1 {
        return false;
    }
    if is_large(index.kind) {
        return false;
    }
    true
}

/// Whether each skip index is of a column of the table, and has blocks.
pub fn all_have_blocks(schema: &Schema) -> bool
    ensures { IsTrue result → All (HasBlocks schema.now) schema.now.indexes }
{
    for index in schema.indexes.as_slice() {
        if !has_blocks(schema, index) {
            return false;
        }
    }
    true
}

/// Whether all places are those of columns of the table.
pub fn are_columns(schema: &Schema, places: &[u32]) -> bool
    ensures { IsTrue result → All (λ place. place < length schema.now.columns) places.now }
{
    let width = schema.columns.len();
    for place in places {
        if width <= *place as usize {
            return false;
        }
    }
    true
}

/// Whether parts of the table can be written, which no clause says of a script's table.
pub fn has_parts(schema: &Schema) -> bool
    ensures { IsTrue result → HasParts schema.now }
{
    let keys = schema.primary.len();
    if keys < 1 {
        return false;
    }
    if schema.granularity < 1 {
        return false;
    }
    let files = content_count(schema);
    if files > u32::MAX as usize {
        return false;
    }
    if !are_columns(schema, schema.primary.as_slice()) {
        return false;
    }
    if !all_have_blocks(schema) {
        return false;
    }
    true
}

// Adds the rows of a block from a place on, one by one.
fn push_rows(
    alloc: Global,
    out: &mut PartOut<MemArm>,
    block: &Block,
    from: usize,
) -> Result<(), DiskError>
    requires whole { IsWhole out.old }
    requires types { block.now.types ≡ column_types out.old.grown.schema }
    ensures { OnOk result (IsWhole out.new) }
{
    let count = block.len();
    for place in from..count {
        let row = block.row(alloc, place)?;
        out.push(&row)?;
    }
    Ok(())
}

// Adds the rows of a block: the first of them, this many, at once, and the others one by one.
fn add_rows(
    alloc: Global,
    out: &mut PartOut<MemArm>,
    block: &Block,
    first: usize,
) -> Result<(), DiskError>
    requires whole { IsWhole out.old }
    requires types { block.now.types ≡ column_types out.old.grown.schema }
    ensures { OnOk result (IsWhole out.new) }
{
    let count = block.len();
    let order = all_places(alloc, count.min(first) as u32)?;
    out.push_block(block, order.as_slice())?;
    push_rows(alloc, out, block, first)
}

// Ends a part.
fn ended(arm: &mut MemArm, out: PartOut<MemArm>) -> Filled
    requires { IsWhole out }
{
    match out.finish() {
        Ok(SealedPart { sealed, loaded: _ }) => Ok(sealed),
        Err(Broken { cause, out }) => {
            out.give_up(arm);
            Err(cause)
        }
    }
}

// A part of the rows of a block: the first of them, this many, are added at once, and the others one by one.
fn part_by_rows(
    alloc: Global,
    arm: &mut MemArm,
    schema: &Schema,
    block: &Block,
    first: usize,
) -> Filled
    requires parts { HasParts schema.now }
    requires types { block.now.types ≡ column_types schema.now }
{
    let mut out = PartOut::begin(alloc, arm, schema)?;
    match add_rows(alloc, &mut out, block, first) {
        Ok(()) => ended(arm, out),
        Err(error) => {
            out.give_up(arm);
            Err(error)
        }
    }
}

// A part of the rows of a block that is given up with some of them written.
fn given_up(alloc: Global, arm: &mut MemArm, schema: &Schema, block: &Block) -> Filled
    requires parts { HasParts schema.now }
    requires types { block.now.types ≡ column_types schema.now }
{
    let mut out = PartOut::begin(alloc, arm, schema)?;
    let added = add_rows(alloc, &mut out, block, 1);
    out.give_up(arm);
    added?;
    seal_nothing(alloc, arm)
}

// A stage without files, sealed.
fn seal_nothing(alloc: Global, arm: &mut MemArm) -> Filled {
    let stage = Open::of(alloc, arm.stage(alloc)?);
    sealed_or_given_up(arm, stage)
}

// A stage sealed; where it can't be, the arm has it back.
fn sealed_or_given_up(arm: &mut MemArm, stage: Open<MemStage>) -> Filled
    requires { IsIntact stage }
{
    match seal(stage) {
        Ok(sealed) => Ok(sealed),
        Err(Unsealed { cause, rest }) => {
            arm.abandon(rest.into_stage());
            Err(cause)
        }
    }
}

// A part of the rows of a block, written at once.
fn part_of_block(alloc: Global, arm: &mut MemArm, schema: &Schema, block: &Block) -> Filled
    requires parts { HasParts schema.now }
    requires types { block.now.types ≡ column_types schema.now }
{
    let order = all_places(alloc, block.len() as u32)?;
    let SealedPart { sealed, loaded: _ } = write_part(alloc, arm, schema, block, order.as_slice())?;
    Ok(sealed)
}

// Adds pieces to the files of a stage, one after another.
fn append_all(stage: &mut Open<MemStage>, pieces: &[(FileId, Vec<u8>)]) -> Result<(), DiskError>
    requires { IsIntact stage.old }
    ensures { OnOk result (IsIntact stage.new) }
{
    for (file, bytes) in pieces {
        append_file(stage, *file, bytes)?;
    }
    Ok(())
}

// A stage whose files grew by these pieces.
fn stage_of_pieces(alloc: Global, arm: &mut MemArm, pieces: &[(FileId, Vec<u8>)]) -> Filled {
    let mut stage = Open::of(alloc, arm.stage(alloc)?);
    match append_all(&mut stage, pieces) {
        Ok(()) => sealed_or_given_up(arm, stage),
        Err(error) => {
            arm.abandon(stage.into_stage());
            Err(error)
        }
    }
}

/// The folder of a sealed stage, as a disk without names has it under a name.
pub fn published(
    alloc: Global,
    disk: MemDisk,
    arm: MemArm,
    filled: Filled,
) -> Result<MemDir, DiskError>
    requires { disk.told ≡ [] }
{
    let mut disk = disk;
    disk.take_back(arm);
    let name = Seq::new(alloc);
    disk.publish(alloc, filled?.into_stage(), &name)
}

// The folder of files that grew by these pieces.
fn folder_of_pieces(alloc: Global, pieces: &[(FileId, Vec<u8>)]) -> Result<MemDir, DiskError> {
    let mut disk = MemDisk::new(alloc)?;
    let mut arm = disk.arm(alloc)?;
    let filled = stage_of_pieces(alloc, &mut arm, pieces);
    published(alloc, disk, arm, filled)
}

/// How a part is written.
#[derive(Clone, Copy)]
enum Way {
    /// As a block.
    AtOnce,
    /// Its first rows, this many, as a block, and the others one by one.
    First(usize),
    /// With some of its rows; then it is given up.
    GivenUp,
}

// The folder of a part of the rows of a block.
fn folder_of_part(
    alloc: Global,
    schema: &Schema,
    block: &Block,
    way: Way,
) -> Result<MemDir, DiskError>
    requires parts { HasParts schema.now }
    requires types { block.now.types ≡ column_types schema.now }
{
    let mut disk = MemDisk::new(alloc)?;
    let mut arm = disk.arm(alloc)?;
    let filled = match way {
        Way::AtOnce => part_of_block(alloc, &mut arm, schema, block),
        Way::First(first) => part_by_rows(alloc, &mut arm, schema, block, first),
        Way::GivenUp => given_up(alloc, &mut arm, schema, block),
    };
    published(alloc, disk, arm, filled)
}

/// Whether two folders have the same files, each synced.
pub fn are_alike(a: &[Written], b: &[Written]) -> bool {
    if a.len() != b.len() {
        return false;
    }
    for (place, written) in a.iter().enumerate() {
        let other = &b[place];
        if written.file != other.file || written.bytes != other.bytes {
            return false;
        }
        if !written.synced || !other.synced {
            return false;
        }
    }
    true
}

impl Answer {
    // A folder, where it was made.
    fn made(&mut self, dir: Result<MemDir, DiskError>) -> Option<MemDir> {
        self.note(dir.is_ok());
        dir.ok()
    }

    /// The rows of a table that lines are.
    pub fn rows_read(&mut self, schema: &Schema, lines: &[u8]) -> Option<Block>
        ensures { IfSome result (λ b. b.types ≡ column_types schema.now) }
    {
        let Ok(types) = schema.types(self.alloc) else {
            self.note(false);
            return None;
        };
        match read_rows(self.alloc, types.as_slice(), None, lines, true) {
            Ok(block) => Some(block),
            Err(_) => {
                self.fail("a line is no row");
                None
            }
        }
    }

    // Prints in how many ways, of those that add this many rows as a block and the others one by one, the files are those of the folder.
    fn alike(&mut self, schema: &Schema, block: &Block, whole: &MemDir)
        requires parts { HasParts schema.now }
        requires types { block.now.types ≡ column_types schema.now }
    {
        let ways = block.len().saturating_add(1);
        let mut alike = 0u64;
        for first in 0..ways {
            let dir = folder_of_part(self.alloc, schema, block, Way::First(first));
            if let Some(dir) = self.made(dir) {
                if are_alike(dir.files(), whole.files()) {
                    alike = alike.saturating_add(1);
                }
            }
        }
        self.number(alike);
        self.counted(" alike of ", ways);
    }

    // Prints how many rows and files a part has, in how many ways it is written alike, and how many files there are where it is given up.
    fn grown(&mut self, schema: &Schema, block: &Block)
        requires parts { HasParts schema.now }
        requires types { block.now.types ≡ column_types schema.now }
    {
        let whole = folder_of_part(self.alloc, schema, block, Way::AtOnce);
        if let Some(whole) = self.made(whole) {
            self.counted("rows ", block.len());
            self.counted(", files ", whole.files().len());
            self.put(", ");
            self.alike(schema, block, &whole);
        }
        let none = folder_of_part(self.alloc, schema, block, Way::GivenUp);
        if let Some(none) = self.made(none) {
            self.counted(", given up ", none.files().len());
        }
    }

    /// Writes a part of the table that a statement makes, of the rows that lines are, in each way, and prints how many are alike.
    pub fn grow(&mut self, lines: &[u8], rest: &str) {
        self.open();
        let script = self.bytes_of(rest);
        let Some(schema) = self.schema_made(&script) else {
            return self.fail("no table is made");
        };
        if !has_parts(&schema) {
            return self.fail("no part of the table can be written");
        }
        if let Some(block) = self.rows_read(&schema, lines) {
            self.grown(&schema, &block);
        }
    }

    // The pieces of a line, each a file and bytes.
    fn pieces_of(&mut self, text: &str) -> Vec<(FileId, Vec<u8>)> {
        let mut pieces = Vec::new(self.alloc);
        let mut rest = text;
        for _ in 0..text.len() {
            if rest.is_empty() {
                break;
            }
            let (file, after) = first_word(rest);
            let (bytes, after) = first_word(after);
            let piece = (self.file_of(file), self.bytes_of(bytes));
            self.push(&mut pieces, piece);
            rest = after;
        }
        pieces
    }

    /// Prints the bytes of each file that grew by the pieces of a line, in the order in which the files were made.
    pub fn append(&mut self, rest: &str) {
        self.open();
        let pieces = self.pieces_of(rest);
        let dir = folder_of_pieces(self.alloc, &pieces);
        if let Some(dir) = self.made(dir) {
            for (place, written) in dir.files().iter().enumerate() {
                self.put(if place == 0 { "" } else { ", " });
                self.bytes(written.bytes.as_slice());
                self.put(if written.synced {
                    " synced"
                } else {
                    " not synced"
                });
            }
        }
    }
}
