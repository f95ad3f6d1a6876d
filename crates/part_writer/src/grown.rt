// What is kept of the rows of a part while it is written granule by granule.
ghost use Rattle.std.specs.Prelude.{◌≡◌, ◌≤◌, ◌<◌, ◌+◌, ◌^◌, ◌++◌, ◌∷◌, [], All, IfOk, List, OnOk, is_some, length, take};
ghost use Rattle.mt_outside.specs.DiskCauses.{HasDiskCause};
ghost use Rattle.mt_values.specs.Grid.{picked};
ghost use Rattle.mt_values.specs.Schemas.{column_types};
ghost use Rattle.mt_values.specs.Values.{Row, types_of};
ghost use Rattle.skip_index.specs.Blocks.{AreWhole};
ghost use Rattle.stage_dir.specs.Stages.{IsIntact};
ghost use Rattle.part_writer.specs.Growing.{HasParts, HasWritten, KeepsRows, KeepsSome};
ghost use Rattle.part_writer.specs.PartFiles.{content_ids};

use crate::column_out::{ColumnOut, empty_files, write_columns};
use crate::indexes::{add_granules, empty_indexes};
use crate::pending::{add_row, add_rows, empty_columns};
use mt_base::{NoMemory, Twin};
use mt_outside::{DiskError, Stage};
use mt_values::{Block, ColumnData, Row, Schema, all_places};
use skip_index::Index;
use stage_dir::Open;
use std::alloc::Global;
use std::mem;

/// What is kept of a part's rows while it is written.
#[derive(Drop)]
pub struct Grown {
    pub(crate) schema: Schema,
    /// How many rows are written.
    pub(crate) rows: u64,
    /// Of the files of their columns.
    pub(crate) columns: Vec<ColumnOut>,
    /// The primary keys of the rows with which their granules begin.
    pub(crate) keys: Vec<ColumnData>,
    /// Of their skip indexes.
    pub(crate) indexes: Vec<Index>,
    /// The rows after them, of the granule that is being filled, and how many they are.
    pub(crate) pending: Vec<ColumnData>,
    pub(crate) count: usize,
}

impl Grown {
    /// What is kept of a table's part without rows.
    ///
    /// `NoMemory` where an allocation failed.
    pub(crate) fn new(alloc: Global, schema: &Schema) -> Result<Grown, NoMemory>
        requires { HasParts schema.now }
        ensures schema { IfOk result (λ g. g.schema ≡ schema.now) }
        ensures rows { IfOk result (λ g. KeepsRows g [] [] []) }
    {
        let width = schema.columns.len();
        let all = all_places(alloc, width as u32)?;
        let own = schema.twin(alloc)?;
        let columns = empty_files(alloc, width)?;
        let keys = empty_columns(alloc, schema, schema.primary.as_slice())?;
        let indexes = empty_indexes(alloc, schema)?;
        let pending = empty_columns(alloc, schema, &all)?;
        Ok(Grown {
            schema: own,
            rows: 0,
            columns,
            keys,
            indexes,
            pending,
            count: 0,
        })
    }

    /// Adds a row to those that are pending.
    ///
    /// `NoMemory` where an allocation failed, or a machine word can't count them; nothing is known of the pending rows then.
    pub(crate) fn add_row(&mut self, row: &Row) -> Result<(), NoMemory>
        requires some { KeepsSome self.old }
        requires typed { types_of row.now ≡ column_types self.old.schema }
        ensures rows { (written keyed pending : List Row) → KeepsRows self.old written keyed pending
            → OnOk result (KeepsRows self.new written keyed (pending ++ row.now ∷ [])) }
        ensures schema { self.new.schema ≡ self.old.schema }
    {
        let Some(count) = self.count.checked_add(1) else {
            return Err(NoMemory);
        };
        add_row(&mut self.pending, row)?;
        self.count = count;
        Ok(())
    }

    /// Adds the block's rows in this order to those that are pending.
    ///
    /// `NoMemory` where an allocation failed, or a machine word can't count them; nothing is known of the pending rows then.
    pub(crate) fn add_rows(
        &mut self,
        alloc: Global,
        block: &Block,
        order: &[u32],
    ) -> Result<(), NoMemory>
        requires some { KeepsSome self.old }
        requires types { block.now.types ≡ column_types self.old.schema }
        requires places { All (λ place. place < length block.now.rows) order.now }
        ensures rows { (written keyed pending : List Row) → KeepsRows self.old written keyed pending
            → OnOk result (KeepsRows self.new written keyed
            (pending ++ picked block.now.rows order.now)) }
        ensures schema { self.new.schema ≡ self.old.schema }
    {
        // Reading the number of rows shows that each row has a value of each column's type.
        prove!(block.len() <= u32::MAX as usize);
        let Some(count) = self.count.checked_add(order.len()) else {
            return Err(NoMemory);
        };
        let all = all_places(alloc, self.schema.columns.len() as u32)?;
        add_rows(&mut self.pending, &all, block, order)?;
        self.count = count;
        Ok(())
    }

    /// The rows that are pending, as a block. None is pending then.
    ///
    /// `NoMemory` where an allocation failed; the rows stay.
    pub(crate) fn take_pending(&mut self, alloc: Global) -> Result<Block, NoMemory>
        requires some { KeepsSome self.old }
        requires few { self.old.count < 2 ^ 32 }
        ensures rows { (written keyed pending : List Row) → KeepsRows self.old written keyed pending
            → IfOk result (λ block. (block ≡ record {
              types = column_types self.old.schema;
              rows = pending;
            }) × KeepsRows self.new written keyed []) }
        ensures schema { self.new.schema ≡ self.old.schema }
    {
        let all = all_places(alloc, self.schema.columns.len() as u32)?;
        let none = empty_columns(alloc, &self.schema, &all)?;
        let count = self.count;
        let columns = mem::replace(&mut self.pending, none);
        self.count = 0;
        Ok(Block::of_columns(columns, count))
    }

    /// Writes a granule: the block's rows in this order, after those that are written, which are whole granules. None is pending.
    ///
    /// `NoMemory` also where 64 bits can't count the rows. After an error the stage can only be given up, and nothing is known of the rows.
    pub(crate) fn write<S: Stage>(
        &mut self,
        alloc: Global,
        stage: &mut Open<S>,
        block: &Block,
        order: &[u32],
    ) -> Result<(), DiskError>
        requires some { KeepsSome self.old }
        requires names { stage.old.names ≡ content_ids self.old.schema }
        requires intact { IsIntact stage.old }
        requires types { block.now.types ≡ column_types self.old.schema }
        requires places { All (λ place. place < length block.now.rows) order.now }
        requires one { 0 < length order.now }
        requires few { length order.now ≤ self.old.schema.granularity }

        // What is written and kept.
        ensures rows { (written keyed : List Row) → AreWhole self.old.schema.granularity written
            → HasWritten stage.old self.old written keyed → OnOk result
            (HasWritten stage.new self.new (written ++ picked block.now.rows order.now)
            (keyed ++ take 1 (picked block.now.rows order.now))) }
        ensures schema { self.new.schema ≡ self.old.schema }
        ensures told { OnOk result (is_some stage.new.files ≡ is_some stage.old.files) }
        ensures cause { HasDiskCause stage.old.failed stage.new.failed result }
    {
        let Some(rows) = self.rows.checked_add(order.len() as u64) else {
            return Err(DiskError::NoMemory);
        };
        let schema = &self.schema;
        write_columns(alloc, stage, schema, &mut self.columns, block, order)?;
        add_granules(alloc, schema, &mut self.indexes, block, order)?;
        add_rows(
            &mut self.keys,
            schema.primary.as_slice(),
            block,
            &order[..1],
        )?;
        self.rows = rows;
        Ok(())
    }

    /// Keeps the primary key of the block's row at a place after those that are kept.
    ///
    /// `NoMemory` where an allocation failed; nothing is known of the keys then.
    pub(crate) fn add_key(&mut self, block: &Block, place: u32) -> Result<(), NoMemory>
        requires some { KeepsSome self.old }
        requires types { block.now.types ≡ column_types self.old.schema }
        requires within { place < length block.now.rows }
        ensures rows { (written keyed pending : List Row) → KeepsRows self.old written keyed pending
            → OnOk result (KeepsRows self.new written
            (keyed ++ picked block.now.rows (place ∷ [])) pending) }
        ensures schema { self.new.schema ≡ self.old.schema }
    {
        let row = [place];
        add_rows(&mut self.keys, self.schema.primary.as_slice(), block, &row)
    }
}
