// The file of a column, granule by granule (docs/formats.md, "Column files").
ghost use Rattle.std.specs.Prelude.{◌≡◌, ◌<◌, ◌≤◌, ◌^◌, ◌++◌, ℕ, [], true, All, IfOk, List, OnOk, is_some, length, map};
ghost use Rattle.std.specs.Option.{option_map};
ghost use Rattle.mt_base.specs.declared.name.FileId.TheVariants as file;
ghost use Rattle.mt_outside.specs.DiskCauses.{HasDiskCause};
ghost use Rattle.mt_outside.specs.Files.{appended};
ghost use Rattle.mt_values.specs.ColumnBytes.{column_bytes};
ghost use Rattle.mt_values.specs.Grid.{AreRowsOf, column_of, picked};
ghost use Rattle.mt_values.specs.Schemas.{column_types};
ghost use Rattle.mt_values.specs.Values.{FitsType, Row};
ghost use Rattle.mt_values.specs.declared.schema.Schema.{Schema};
ghost use Rattle.mt_values.specs.declared.value.Value.{Value};
ghost use Rattle.primary_marks.specs.column_file.Marks.{granule_places};
ghost use Rattle.stage_dir.specs.Stages.{IsIntact, has_file};
ghost use Rattle.skip_index.specs.Blocks.{AreWhole};
ghost use Rattle.part_writer.specs.Growing.{Grows, HasFiles, HasGrown, KeepsColumns, grown_bytes};
ghost use Rattle.part_writer.specs.PartFiles.{column_ids, content_bytes, content_ids, mark_of};

use mt_base::{NoMemory, Seq};
use mt_outside::{DiskError, Stage};
use mt_values::{Block, FileId, FileMark, Schema};
use primary_marks::Places;
use primary_marks::column_file::encode_column;
use sha2::{Digest, Sha256};
use stage_dir::{Open, append_file};
use std::alloc::Global;
use std::mem;

/// What is kept of a column's file that grows: the digest of its bytes so far, and where its granules begin in them, with their number last.
#[derive(Drop)]
pub struct ColumnOut {
    digest: Sha256,
    places: Seq<u64>,
}

impl ColumnOut {
    /// What is kept of a file without bytes.
    ///
    /// `NoMemory` where an allocation failed.
    pub(crate) fn new(alloc: Global) -> Result<ColumnOut, NoMemory>
        ensures { IfOk result
            (λ c. (granularity : ℕ) → 0 < granularity → HasGrown granularity [] c) }
    {
        let mut places = Seq::new(alloc);
        places.push(0)?;
        Ok(ColumnOut {
            digest: Sha256::new(),
            places,
        })
    }

    /// Takes over the bytes of a granule that was added to the file.
    ///
    /// `NoMemory` where an allocation failed, or 64 bits can't count the bytes.
    fn grow(&mut self, bytes: &[u8]) -> Result<(), NoMemory>
        ensures { (granularity : ℕ) (more : List Value) → 0 < length more
            → length more ≤ granularity → bytes.now ≡ column_bytes more
            → OnOk result (Grows granularity more self.old self.new) }
    {
        let size = self.size();
        let Some(end) = size.checked_add(bytes.len() as u64) else {
            return Err(NoMemory);
        };
        self.places.push(end)?;
        self.digest.update(bytes);
        Ok(())
    }

    /// How many bytes the file has.
    fn size(&self) -> u64
        ensures { (granularity : ℕ) (values : List Value) → HasGrown granularity values self.now
            → result ≡ length (column_bytes values) }
    {
        match self.places.as_slice().last() {
            Some(size) => *size,
            None => 0,
        }
    }

    /// The mark of the file, and where its granules begin. They are taken. Takes no memory.
    fn end(&mut self, alloc: Global) -> (FileMark, Seq<u64>)
        ensures mark { (granularity : ℕ) (values : List Value)
            → HasGrown granularity values self.old → result.0 ≡ mark_of (column_bytes values) }
        ensures places { result.1 ≡ self.old.places }
    {
        let size = self.size();
        let digest = self.digest.finalize_reset();
        let places = mem::replace(&mut self.places, Seq::new(alloc));
        (FileMark { size, digest }, places)
    }

    /// Adds the bytes of a granule to the file of the column with this number.
    ///
    /// After an error the stage can only be given up.
    fn add<S: Stage>(
        &mut self,
        stage: &mut Open<S>,
        number: u32,
        bytes: &[u8],
    ) -> Result<(), DiskError>
        requires intact { IsIntact stage.old }
        requires there { has_file (file.Column number) stage.old.names ≡ true }

        // What the file is then, and what is kept of it.
        ensures names { OnOk result (stage.new.names ≡ stage.old.names) }
        ensures files { OnOk result (stage.new.files ≡ option_map
            (appended (file.Column number) bytes.now) stage.old.files) }
        ensures intact { OnOk result (IsIntact stage.new) }
        ensures grown { (granularity : ℕ) (more : List Value) → 0 < length more
            → length more ≤ granularity → bytes.now ≡ column_bytes more
            → OnOk result (Grows granularity more self.old self.new) }
        ensures cause { HasDiskCause stage.old.failed stage.new.failed result }
    {
        append_file(stage, FileId::Column(number), bytes)?;
        self.grow(bytes)?;
        Ok(())
    }
}

/// What is kept of this many files without bytes.
///
/// `NoMemory` where an allocation failed.
pub(crate) fn empty_files(alloc: Global, count: usize) -> Result<Vec<ColumnOut>, NoMemory>
    ensures count { IfOk result (λ v. length v.items ≡ count) }
    ensures none { IfOk result
        (λ v. All (λ c. (granularity : ℕ) → 0 < granularity → HasGrown granularity [] c) v.items) }
{
    let mut files = Vec::with_capacity(alloc, count)?;
    for _ in 0..count {
        files.push_reserved(ColumnOut::new(alloc)?);
    }
    Ok(files)
}

/// Adds a granule to the file of each column: the block's rows in this order, which come after those that the files have.
///
/// After an error the stage can only be given up, and nothing is known of what is kept.
pub(crate) fn write_columns<S: Stage>(
    alloc: Global,
    stage: &mut Open<S>,
    schema: &Schema,
    columns: &mut [ColumnOut],
    block: &Block,
    order: &[u32],
) -> Result<(), DiskError>
    requires names { stage.old.names ≡ content_ids schema.now }
    requires intact { IsIntact stage.old }
    requires columns { length columns.old ≡ length schema.now.columns }
    requires few_columns { length schema.now.columns < 2 ^ 32 }
    requires types { block.now.types ≡ column_types schema.now }
    requires places { All (λ place. place < length block.now.rows) order.now }
    requires some { 0 < length order.now }
    requires few { length order.now ≤ schema.now.granularity }

    // What the files are then, and what is kept of them.
    ensures files { (rows : List Row) → HasFiles schema.now (grown_bytes rows) stage.old
        → OnOk result (HasFiles schema.now
        (grown_bytes (rows ++ picked block.now.rows order.now)) stage.new) }
    ensures kept { (rows : List Row) → AreRowsOf (column_types schema.now) rows
        → AreWhole schema.now.granularity rows → KeepsColumns schema.now rows columns.old
        → OnOk result (KeepsColumns schema.now (rows ++ picked block.now.rows order.now)
        columns.new) }

    // Why it failed, and what else is known.
    ensures typed { OnOk result
        (AreRowsOf (column_types schema.now) (picked block.now.rows order.now)) }
    ensures encodable { OnOk result
        (All (λ (row : Row). All FitsType row) (picked block.now.rows order.now)) }
    ensures told { OnOk result (is_some stage.new.files ≡ is_some stage.old.files) }
    ensures cause { HasDiskCause stage.old.failed stage.new.failed result }
{
    // Reading the number of rows shows that each row has a value of each column's type.
    prove!(block.len() <= u32::MAX as usize);
    let size = schema.granularity;
    for number in 0..columns.len() {
        let column = encode_column(alloc, block, number, order, size)?;
        columns[number].add(stage, number as u32, column.bytes.as_slice())?;
    }
    Ok(())
}

/// Where granules begin in these files, and the marks of the files. They are taken.
///
/// `NoMemory` where an allocation failed.
pub(crate) fn take_columns(
    alloc: Global,
    columns: &mut [ColumnOut],
) -> Result<(Places, Seq<FileMark>), NoMemory>
    ensures places { (schema : Schema) (rows : List Row) → KeepsColumns schema rows columns.old
        → IfOk result (λ p. p.0
        ≡ granule_places schema.granularity (length schema.columns) rows) }
    ensures marks { (schema : Schema) (rows : List Row) → KeepsColumns schema rows columns.old
        → IfOk result
        (λ p. p.1 ≡ map (λ f. mark_of (content_bytes schema rows f)) (column_ids schema)) }
{
    let mut places = Seq::new(alloc);
    let mut marks = Seq::new(alloc);
    for number in 0..columns.len() {
        let (mark, own) = columns[number].end(alloc);
        marks.push(mark)?;
        places.push(own)?;
    }
    Ok((places, marks))
}
