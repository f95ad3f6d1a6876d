// The rows of a part, given granule by granule as blocks of typed columns.
ghost use Rattle.std.specs.Prelude.{◌≡◌, ◌+◌, ◌<◌, ◌≤◌, ◌^◌, ℕ, All, IfErr, IfOk, IfSome, IsErrOf, List, MatchOption, OnOk, Option, length, map, slice_get};
ghost use Rattle.std.specs.List.{filter_map};
ghost use Rattle.mt_outside.specs.Files.{Files};
ghost use Rattle.mt_outside.specs.Leaves.{LeavesArm};
ghost use Rattle.mt_base.specs.declared.name.FileId.TheVariants as file;
ghost use Rattle.mt_values.specs.Printing.{selected};
ghost use Rattle.mt_values.specs.Schemas.{column_types};
ghost use Rattle.mt_values.specs.Values.{Row};
ghost use Rattle.part_reader.specs.Ahead.{AreAhead};
ghost use Rattle.part_reader.specs.Columns.{AreEach};
ghost use Rattle.part_reader.specs.Faults.{ExplainsAt, ExplainsEach};
ghost use Rattle.part_reader.specs.Granules.{ExplainsRun, GainsChosen, chosen_count, column_in, rows_in};
ghost use Rattle.part_reader.specs.Parts.{HoldsAt};
ghost use Rattle.part_reader.specs.Readings.{AreGranuleColumns, ExplainsLeft, GivesNext, IsFirstLeft, LeavesRows, from_granule, granule_items, lone, lone_chosen, rows_left};

use crate::ahead::{Ahead, Source, add_granule};
use crate::cut_rows::empty_columns;
use crate::reading::{Part, PartFault};
use crate::runs::granule_rows;
use mt_base::NoMemory;
use mt_outside::{Arm, Dir};
use mt_values::{Block, ColumnData, Schema};
use part_damage::part_writer::Loaded;
use std::alloc::Global;
use std::marker::Model;

/// A part that is read granule by granule. Contracts see the table's columns, the part, the places of the columns that are wanted, which
/// granules are still to come, and how many bytes of each column are read ahead and kept at most.
///
/// Of each column it keeps bytes that were read ahead, no more than it was told, and no row that was given.
#[derive(Drop)]
pub struct PartRows<'a, F: Dir> {
    source: Source<'a, F>,
    places: &'a [u32],
    /// The granules before this one were given, or passed over.
    at: usize,
    aheads: Vec<Ahead>,
}

impl<'a, F: Dir> Model for PartRows<'a, F> {
    ghost use Rattle.std.specs.Prelude.{◌≤◌, ◌<◌, All, length};
    ghost use Rattle.part_reader.specs.Readings.{Reading, from_granule};

    ghost Value = { Reading F };

    ghost use Rattle.part_reader.specs.Ahead.{AreAhead};

    ghost view = { λ r. record {
      schema = r.source.schema.now;
      part = r.source.part.now;
      places = r.places.now;
      left = from_granule r.at r.source.chosen.now;
      most = r.source.most;
    } };

    ghost invariant = { λ r. (r.at ≤ length r.source.chosen.now)
        × All (λ place. place < length r.source.schema.now.columns) r.places.now
        × AreAhead (F.files r.source.part.now.dir) r.source.most r.places.now r.aheads.items };
}

impl<'a, F: Dir> PartRows<'a, F> {
    /// The rows of the chosen granules of a part of a table, of each the values of the table's columns at these places, counted from 0.
    /// A place may come twice. Nothing is read yet. Of each column `most` bytes are read ahead and kept at most: whoever opens many
    /// readers divides among them what there is. A granule that has more bytes of a column is read by itself, and they are not kept.
    ///
    /// `NoMemory` where an allocation failed.
    pub fn new(
        alloc: Global,
        schema: &'a Schema,
        part: &'a Part<F>,
        chosen: &'a [bool],
        places: &'a [u32],
        most: u64,
    ) -> Result<PartRows<'a, F>, NoMemory>
        requires { All (λ place. place < length schema.now.columns) places.now }
        ensures { IfOk result (λ r. r ≡ record {
          schema = schema.now;
          part = part.now;
          places = places.now;
          left = chosen.now;
          most = most;
        }) }
    {
        let aheads = none_ahead(alloc, places.len())?;
        Ok(PartRows {
            source: Source {
                schema,
                part,
                chosen,
                most,
            },
            places,
            at: 0,
            aheads,
        })
    }

    /// The rows of the next chosen granule that has any, as a block of the wanted columns; none where no such granule is left. The files
    /// are read by columns, and no byte is read of a granule that is not chosen. Digests are not compared.
    ///
    /// `Damaged` where the bytes of the granule are no spelling of a value for each of its rows, or the places that are kept have no such
    /// granule: never where the folder and what is kept hold rows. `Fault` only where the arm's count rose in this call; `NoMemory`
    /// where an allocation failed. After an error the reader can only be given up.
    pub fn next<R: Arm<Dir = F>>(
        &mut self,
        alloc: Global,
        arm: &mut R,
    ) -> Result<Option<Block>, PartFault>
        // What is given, and what is left.
        ensures gives { IfOk result (GivesNext F.files self.old self.new) }
        ensures rows { (rows : List Row)
            → HoldsAt F.files self.old.schema self.old.part (map file.Column self.old.places) rows
            → IfOk result (LeavesRows (rows_left self.old rows) (rows_left self.new rows)) }

        // What a fault says.
        ensures damaged { IfErr result (ExplainsAt
            (λ number t. ExplainsLeft (column_in F.files self.old.part number) self.old.left t)
            (column_types self.old.schema) self.old.places) }

        // What the arm is then, and its count of faults.
        ensures arm { LeavesArm R.Arm arm.old arm.new (IsErrOf result PartFault.Fault) }
    {
        let Some(granule) = first_left(&self.source.part.loaded, self.source.chosen, self.at) else {
            return Ok(None);
        };
        let block = read_block(
            alloc,
            arm,
            &self.source,
            self.places,
            granule,
            &mut self.aheads,
        )?;
        self.at = granule + 1;
        Ok(Some(block))
    }
}

/// What was read ahead of this many columns before any of them is read: nothing.
///
/// `NoMemory` where an allocation failed.
pub fn none_ahead(alloc: Global, columns: usize) -> Result<Vec<Ahead>, NoMemory>
    ensures { IfOk result (λ v. (told : Option Files) (most : ℕ) (places : List ℕ)
        → length places ≡ columns → AreAhead told most places v.items) }
{
    let mut aheads = Vec::with_capacity(alloc, columns)?;
    for _column in 0..columns {
        aheads.push(Ahead::none(alloc))?;
    }
    Ok(aheads)
}

/// The first of the chosen granules from one on that has any row.
pub fn first_left(loaded: &Loaded, chosen: &[bool], from: usize) -> Option<usize>
    requires { from ≤ length chosen.now }
    ensures first { MatchOption result (chosen_count loaded.now.schema.granularity
        (from_granule from chosen.now) loaded.now.manifest.rows ≡ 0)
        (IsFirstLeft loaded.now (from_granule from chosen.now)) }
    ensures within { IfSome result (λ granule. (from ≤ granule) × (granule < length chosen.now)) }
{
    for granule in from..chosen.len() {
        if !chosen[granule] {
            continue;
        }
        if granule_rows(loaded, granule) > 0 {
            return Some(granule);
        }
    }
    None
}

/// The rows of a granule, as a block of the part's columns at these places. What was read ahead of them serves first.
///
/// The errors are those of `add_run`.
pub fn read_block<R: Arm>(
    alloc: Global,
    arm: &mut R,
    source: &Source<R::Dir>,
    places: &[u32],
    granule: usize,
    aheads: &mut [Ahead],
) -> Result<Block, PartFault>
    requires places { All (λ place. place < length source.now.schema.now.columns)
        places.now }
    requires granule { granule + 1 < 2 ^ 64 }
    requires ahead { AreAhead (R.Dir.files source.now.part.now.dir) source.now.most places.now
        aheads.old }

    // What is read.
    ensures rows { (rows : List Row) → HoldsAt R.Dir.files source.now.schema.now
        source.now.part.now (map file.Column places.now) rows
        → IfOk result (λ b. b.rows ≡ map (selected places.now) (granule_items
        source.now.part.now.loaded.schema.granularity granule rows)) }
    ensures count { IfOk result
        (λ b. length b.rows ≡ rows_in source.now.part.now.loaded (lone granule)) }
    ensures types { IfOk result (λ b. b.types ≡ filter_map
        (slice_get (column_types source.now.schema.now)) places.now) }
    ensures ahead { AreAhead (R.Dir.files source.now.part.now.dir) source.now.most places.now
        aheads.new }

    // What a fault says.
    ensures damaged { IfErr result (ExplainsAt (λ number t. ExplainsRun
        (column_in R.Dir.files source.now.part.now number) (lone granule) t)
        (column_types source.now.schema.now) places.now) }

    // What the arm is then, and its count of faults.
    ensures arm { LeavesArm R.Arm arm.old arm.new (IsErrOf result PartFault.Fault) }
{
    let columns = read_granule_columns(alloc, arm, source, places, granule, aheads)?;
    let rows = granule_rows(&source.part.loaded, granule);
    Ok(Block::of_columns(columns, rows))
}

/// The part's columns at these places, of each the values that the rows of a granule have there. What was read ahead of them serves
/// first.
///
/// The errors are those of `add_run`.
pub fn read_granule_columns<R: Arm>(
    alloc: Global,
    arm: &mut R,
    source: &Source<R::Dir>,
    places: &[u32],
    granule: usize,
    aheads: &mut [Ahead],
) -> Result<Vec<ColumnData>, PartFault>
    requires places { All (λ place. place < length source.now.schema.now.columns)
        places.now }
    requires granule { granule + 1 < 2 ^ 64 }
    requires ahead { AreAhead (R.Dir.files source.now.part.now.dir) source.now.most places.now
        aheads.old }

    // What is read.
    ensures values { IfOk result (λ v. AreGranuleColumns
        (λ number. column_in R.Dir.files source.now.part.now number) granule
        (column_types source.now.schema.now) places.now v.items) }
    ensures ahead { AreAhead (R.Dir.files source.now.part.now.dir) source.now.most places.now
        aheads.new }

    // What a fault says.
    ensures damaged { IfErr result (ExplainsAt (λ number t. ExplainsRun
        (column_in R.Dir.files source.now.part.now number) (lone granule) t)
        (column_types source.now.schema.now) places.now) }

    // What the arm is then, and its count of faults.
    ensures arm { LeavesArm R.Arm arm.old arm.new (IsErrOf result PartFault.Fault) }
{
    let Ok(mut columns) = empty_columns(alloc, source.schema, places) else {
        return Err(PartFault::NoMemory);
    };
    add_columns(alloc, arm, source, places, granule, aheads, &mut columns)?;
    Ok(columns)
}

/// Adds the values that the rows of a granule have in the part's columns at these places, each to its own column.
///
/// The errors are those of `add_run`. After an error some of the values may have been added.
fn add_columns<R: Arm>(
    alloc: Global,
    arm: &mut R,
    source: &Source<R::Dir>,
    places: &[u32],
    granule: usize,
    aheads: &mut [Ahead],
    columns: &mut [ColumnData],
) -> Result<(), PartFault>
    requires columns { length columns.old ≡ length places.now }
    requires granule { granule + 1 < 2 ^ 64 }
    requires ahead { AreAhead (R.Dir.files source.now.part.now.dir) source.now.most places.now
        aheads.old }
    ensures gained { OnOk result (AreEach (λ number. GainsChosen
        (column_in R.Dir.files source.now.part.now number) (lone_chosen granule)) places.now
        columns.old columns.new) }
    ensures ahead { AreAhead (R.Dir.files source.now.part.now.dir) source.now.most places.now
        aheads.new }
    ensures damaged { IfErr result (ExplainsEach (λ number t. ExplainsRun
        (column_in R.Dir.files source.now.part.now number) (lone granule) t)
        places.now columns.old) }
    ensures arm { LeavesArm R.Arm arm.old arm.new (IsErrOf result PartFault.Fault) }
{
    for (number, place) in places.iter().enumerate() {
        add_granule(
            alloc,
            arm,
            source,
            *place,
            granule,
            None,
            &mut aheads[number],
            &mut columns[number],
        )?;
    }
    Ok(())
}
