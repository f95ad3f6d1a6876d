// The rows of a part that meet conditions, added to columns granule by granule. Of a granule the columns of the conditions are read
// first, and the others only where some row meets them.
ghost use Rattle.std.specs.Prelude.{◌≡◌, ◌+◌, ◌<◌, ◌≤◌, ◌^◌, All, IfErr, IfOk, IsErrOf, MatchOption, OnOk, Some, length, map, slice_get};
ghost use Rattle.std.specs.List.{Contains as HasItem, filter_map};
ghost use Rattle.mt_outside.specs.Leaves.{LeavesArm};
ghost use Rattle.mt_values.specs.Grid.{Cells};
ghost use Rattle.mt_values.specs.Schemas.{column_types};
ghost use Rattle.part_reader.specs.Ahead.{AreAhead, IsAhead};
ghost use Rattle.part_reader.specs.Columns.{AreEach};
ghost use Rattle.part_reader.specs.Faults.{ExplainsAt, ExplainsEach};
ghost use Rattle.part_reader.specs.Granules.{ExplainsRun, column_in, rows_in};
ghost use Rattle.part_reader.specs.Picks.{GainsPicked};
ghost use Rattle.part_reader.specs.Readings.{lone, lone_chosen};
ghost use Rattle.part_reader.specs.Sieves.{AddsNextMet, ExplainsSifting, HasAnswers, IsMet, count_true, sifting_of};

use crate::ahead::{Ahead, Source, add_granule};
use crate::part_rows::{first_left, none_ahead, read_granule_columns};
use crate::reading::{Part, PartFault};
use crate::runs::granule_rows;
use crate::sieves::{Sieve, count_true, is_whole, sift};
use mt_base::NoMemory;
use mt_outside::{Arm, Dir};
use mt_values::{ColumnData, Schema};
use std::alloc::Global;
use std::marker::Model;

/// What is asked of the rows of a part, and what is wanted of those that meet it. Places are of the table's columns, counted from 0.
#[derive(Drop)]
pub struct Query<'a> {
    /// The places of the columns that are read for the conditions.
    pub asked: &'a [u32],
    /// The conditions. Their tests name columns by their positions among those.
    pub sieves: &'a [Sieve<'a>],
    /// The places of the columns whose values are wanted.
    pub wanted: &'a [u32],
}

/// A part of which the rows are read that meet conditions, granule by granule. Contracts see the table's columns, the part, the places
/// of the columns that are wanted, which granules are still to come, how many bytes of each column are read ahead and kept at most, and
/// what is asked.
#[derive(Drop)]
pub struct MetRows<'a, F: Dir> {
    source: Source<'a, F>,
    query: Query<'a>,
    /// The granules before this one were given, or passed over.
    at: usize,
    /// What was read ahead of the columns of the conditions.
    asked: Vec<Ahead>,
    /// What was read ahead of the wanted columns.
    wanted: Vec<Ahead>,
}

impl<'a, F: Dir> Model for MetRows<'a, F> {
    ghost use Rattle.std.specs.Prelude.{◌≤◌, ◌<◌, All, length};
    ghost use Rattle.std.specs.Coded.{codes};
    ghost use Rattle.mt_values.specs.PolishCode.{condition_code};
    ghost use Rattle.part_reader.specs.Readings.{from_granule};
    ghost use Rattle.part_reader.specs.Sieves.{Sifting, sifting_of};

    ghost Value = { Sifting F };

    ghost coded = { Prim.hlevel (codes, condition_code) };

    ghost use Rattle.part_reader.specs.Ahead.{AreAhead};

    ghost view = { λ r. sifting_of r.source.schema.now r.source.part.now r.query
        r.source.most (from_granule r.at r.source.chosen.now) };

    ghost invariant = { λ r. (r.at ≤ length r.source.chosen.now)
        × All (λ place. place < length r.source.schema.now.columns) r.query.asked.now
        × All (λ place. place < length r.source.schema.now.columns) r.query.wanted.now
        × AreAhead (F.files r.source.part.now.dir) r.source.most r.query.asked.now r.asked.items
        × AreAhead (F.files r.source.part.now.dir) r.source.most r.query.wanted.now
        r.wanted.items };
}

impl<'a, F: Dir> MetRows<'a, F> {
    /// The rows of the chosen granules of a part that meet conditions. Nothing is read yet. Of each column `most` bytes are read ahead
    /// and kept at most, as `PartRows` does it.
    ///
    /// `NoMemory` where an allocation failed.
    pub fn new(
        alloc: Global,
        schema: &'a Schema,
        part: &'a Part<F>,
        chosen: &'a [bool],
        query: Query<'a>,
        most: u64,
    ) -> Result<MetRows<'a, F>, NoMemory>
        requires asked { All (λ place. place < length schema.now.columns) query.asked.now }
        requires wanted { All (λ place. place < length schema.now.columns) query.wanted.now }
        ensures { IfOk result
            (λ r. r ≡ sifting_of schema.now part.now query.entry most chosen.now) }
    {
        let asked = none_ahead(alloc, query.asked.len())?;
        let wanted = none_ahead(alloc, query.wanted.len())?;
        Ok(MetRows {
            source: Source {
                schema,
                part,
                chosen,
                most,
            },
            query,
            at: 0,
            asked,
            wanted,
        })
    }

    /// Adds the rows of the next chosen granule that has any, those that meet what is asked there, to columns: of each the values of the
    /// wanted columns. Returns how many they are, which may be none; None where no granule with rows is left, and nothing is added. The
    /// wanted columns of a granule without such a row are not read; a column of the conditions that is wanted too is read once.
    ///
    /// The errors are those of `PartRows`. After an error some of the values may have been added, and the reader can only be given up.
    pub fn add_next<R: Arm<Dir = F>>(
        &mut self,
        alloc: Global,
        arm: &mut R,
        columns: &mut [ColumnData],
    ) -> Result<Option<usize>, PartFault>
        requires columns { map (λ (c : Cells). c.col_type) columns.old ≡ filter_map (slice_get
            (column_types self.old.reading.schema)) self.old.reading.places }

        // What is added, and what is left.
        ensures adds { IfOk result
            (AddsNextMet F.files self.old self.new columns.old columns.new) }

        // What a fault says.
        ensures damaged { IfErr result (ExplainsSifting F.files self.old) }

        // What the arm is then, and its count of faults.
        ensures arm { LeavesArm R.Arm arm.old arm.new (IsErrOf result PartFault.Fault) }
    {
        let Some(granule) = first_left(&self.source.part.loaded, self.source.chosen, self.at) else {
            return Ok(None);
        };
        let met = ask(
            alloc,
            arm,
            &self.source,
            &self.query,
            granule,
            &mut self.asked,
        )?;
        let wanted = self.query.wanted;
        let count = add_found(
            alloc,
            arm,
            &self.source,
            wanted,
            granule,
            &met,
            &mut self.wanted,
            columns,
        )?;
        self.at = granule + 1;
        Ok(Some(count))
    }
}

/// Which rows of a granule meet what is asked there.
#[derive(Drop)]
struct Met<'a> {
    /// The places of the columns that were read for it.
    places: &'a [u32],
    /// These columns, with the values of the granule's rows.
    columns: Vec<ColumnData>,
    /// Whether each row meets it.
    mask: Vec<bool>,
}

/// Which rows of a granule meet what is asked there, by the columns that are read for it.
///
/// The errors are those of `read_block`.
fn ask<'q, R: Arm>(
    alloc: Global,
    arm: &mut R,
    source: &Source<R::Dir>,
    query: &Query<'q>,
    granule: usize,
    aheads: &mut [Ahead],
) -> Result<Met<'q>, PartFault>
    requires places { All (λ place. place < length source.now.schema.now.columns)
        query.now.asked.now }
    requires granule { granule + 1 < 2 ^ 64 }
    requires ahead { AreAhead (R.Dir.files source.now.part.now.dir) source.now.most
        query.now.asked.now aheads.old }

    // What is found.
    ensures met { IfOk result
        (IsMet R.Dir.files source.now.schema.now source.now.part.now query.now granule) }
    ensures ahead { AreAhead (R.Dir.files source.now.part.now.dir) source.now.most
        query.now.asked.now aheads.new }

    // What a fault says.
    ensures damaged { IfErr result (ExplainsAt (λ number t. ExplainsRun
        (column_in R.Dir.files source.now.part.now number) (lone granule) t)
        (column_types source.now.schema.now) query.now.asked.now) }

    // What the arm is then, and its count of faults.
    ensures arm { LeavesArm R.Arm arm.old arm.new (IsErrOf result PartFault.Fault) }
{
    let columns = read_granule_columns(alloc, arm, source, query.asked, granule, aheads)?;
    let rows = granule_rows(&source.part.loaded, granule);
    let Ok(mask) = sift(alloc, &columns, rows, query.sieves, granule) else {
        return Err(PartFault::NoMemory);
    };
    Ok(Met {
        places: query.asked,
        columns,
        mask,
    })
}

/// Adds the rows of a granule that meet what is asked there to columns: of each the values of the part's columns at these places. Returns
/// how many they are. Where there is none, nothing is read.
///
/// The errors are those of `add_run`. After an error some of the values may have been added.
fn add_found<R: Arm>(
    alloc: Global,
    arm: &mut R,
    source: &Source<R::Dir>,
    wanted: &[u32],
    granule: usize,
    met: &Met,
    aheads: &mut [Ahead],
    columns: &mut [ColumnData],
) -> Result<usize, PartFault>
    requires columns { map (λ (c : Cells). c.col_type) columns.old ≡ filter_map
        (slice_get (column_types source.now.schema.now)) wanted.now }
    requires places { All (λ place. place < length source.now.schema.now.columns)
        wanted.now }
    requires granule { granule + 1 < 2 ^ 64 }
    requires met { HasAnswers R.Dir.files source.now.schema.now source.now.part.now granule
        met.now }
    requires ahead { AreAhead (R.Dir.files source.now.part.now.dir) source.now.most wanted.now
        aheads.old }

    // What is added.
    ensures count { IfOk result (λ count. count ≡ count_true met.now.mask.items) }
    ensures gained { OnOk result (AreEach (λ number. GainsPicked
        (column_in R.Dir.files source.now.part.now number) (lone_chosen granule)
        met.now.mask.items) wanted.now columns.old columns.new) }
    ensures ahead { AreAhead (R.Dir.files source.now.part.now.dir) source.now.most wanted.now
        aheads.new }

    // What a fault says.
    ensures damaged { IfErr result (ExplainsAt (λ number t. ExplainsRun
        (column_in R.Dir.files source.now.part.now number) (lone granule) t)
        (column_types source.now.schema.now) wanted.now) }

    // What the arm is then, and its count of faults.
    ensures arm { LeavesArm R.Arm arm.old arm.new (IsErrOf result PartFault.Fault) }
{
    let count = count_true(&met.mask);
    if count == 0 {
        return Ok(0);
    }
    add_met(alloc, arm, source, wanted, granule, met, aheads, columns)?;
    Ok(count)
}

/// Adds the values that the rows of a granule have which meet what is asked there, in the part's columns at these places, each to its own
/// column.
///
/// The errors are those of `add_run`. After an error some of the values may have been added.
fn add_met<R: Arm>(
    alloc: Global,
    arm: &mut R,
    source: &Source<R::Dir>,
    wanted: &[u32],
    granule: usize,
    met: &Met,
    aheads: &mut [Ahead],
    columns: &mut [ColumnData],
) -> Result<(), PartFault>
    requires even { length columns.old ≡ length wanted.now }
    requires columns { map (λ (c : Cells). c.col_type) columns.old ≡ filter_map
        (slice_get (column_types source.now.schema.now)) wanted.now }
    requires places { All (λ place. place < length source.now.schema.now.columns)
        wanted.now }
    requires granule { granule + 1 < 2 ^ 64 }
    requires met { HasAnswers R.Dir.files source.now.schema.now source.now.part.now granule
        met.now }
    requires ahead { AreAhead (R.Dir.files source.now.part.now.dir) source.now.most wanted.now
        aheads.old }
    ensures gained { OnOk result (AreEach (λ number. GainsPicked
        (column_in R.Dir.files source.now.part.now number) (lone_chosen granule)
        met.now.mask.items) wanted.now columns.old columns.new) }
    ensures ahead { AreAhead (R.Dir.files source.now.part.now.dir) source.now.most wanted.now
        aheads.new }
    ensures damaged { IfErr result (ExplainsEach (λ number t. ExplainsRun
        (column_in R.Dir.files source.now.part.now number) (lone granule) t)
        wanted.now columns.old) }
    ensures arm { LeavesArm R.Arm arm.old arm.new (IsErrOf result PartFault.Fault) }
{
    for (number, place) in wanted.iter().enumerate() {
        add_column(
            alloc,
            arm,
            source,
            *place,
            granule,
            met,
            &mut aheads[number],
            &mut columns[number],
        )?;
    }
    Ok(())
}

/// Adds the values that the rows of a granule have which meet what is asked there, in the part's column at a place. A column that was read
/// for the conditions is not read again.
///
/// The errors are those of `add_run`. After an error some of the values may have been added.
fn add_column<R: Arm>(
    alloc: Global,
    arm: &mut R,
    source: &Source<R::Dir>,
    place: u32,
    granule: usize,
    met: &Met,
    ahead: &mut Ahead,
    column: &mut ColumnData,
) -> Result<(), PartFault>
    requires typed { slice_get (column_types source.now.schema.now) place
        ≡ Some column.old.col_type }
    requires granule { granule + 1 < 2 ^ 64 }
    requires met { HasAnswers R.Dir.files source.now.schema.now source.now.part.now granule
        met.now }
    requires ahead { IsAhead (R.Dir.files source.now.part.now.dir) source.now.most place ahead.old }
    ensures gained { OnOk result (GainsPicked (column_in R.Dir.files source.now.part.now place)
        (lone_chosen granule) met.now.mask.items column.old column.new) }
    ensures ahead { IsAhead (R.Dir.files source.now.part.now.dir) source.now.most place ahead.new }
    ensures damaged { IfErr result (ExplainsRun (column_in R.Dir.files source.now.part.now place)
        (lone granule) column.old.col_type) }
    ensures arm { LeavesArm R.Arm arm.old arm.new (IsErrOf result PartFault.Fault) }
{
    let Some(at) = position_of(met.places, place) else {
        return read_column(alloc, arm, source, place, granule, &met.mask, ahead, column);
    };
    let Ok(()) = column.add_where(&met.columns[at], &met.mask) else {
        return Err(PartFault::NoMemory);
    };
    Ok(())
}

/// Adds the values that the rows of a granule have at which the mask is true, in the part's column at a place. Where it is true at
/// each, the values are made without a look at it.
///
/// The errors are those of `add_run`. After an error some of the values may have been added.
fn read_column<R: Arm>(
    alloc: Global,
    arm: &mut R,
    source: &Source<R::Dir>,
    place: u32,
    granule: usize,
    mask: &[bool],
    ahead: &mut Ahead,
    column: &mut ColumnData,
) -> Result<(), PartFault>
    requires granule { granule + 1 < 2 ^ 64 }
    requires even { length mask.now ≡ rows_in source.now.part.now.loaded (lone granule) }
    requires ahead { IsAhead (R.Dir.files source.now.part.now.dir) source.now.most place ahead.old }
    ensures gained { OnOk result (GainsPicked (column_in R.Dir.files source.now.part.now place)
        (lone_chosen granule) mask.now column.old column.new) }
    ensures ahead { IsAhead (R.Dir.files source.now.part.now.dir) source.now.most place ahead.new }
    ensures damaged { IfErr result (ExplainsRun (column_in R.Dir.files source.now.part.now place)
        (lone granule) column.old.col_type) }
    ensures arm { LeavesArm R.Arm arm.old arm.new (IsErrOf result PartFault.Fault) }
{
    if is_whole(mask) {
        return add_granule(alloc, arm, source, place, granule, None, ahead, column);
    }
    add_granule(
        alloc,
        arm,
        source,
        place,
        granule,
        Some(mask),
        ahead,
        column,
    )
}

/// The position of a column among those at places; none where it is not among them.
fn position_of(places: &[u32], place: u32) -> Option<usize>
    ensures { MatchOption result (HasItem places.now place → ⊥)
        (λ at. slice_get places.now at ≡ Some place) }
{
    places.iter().position(|other| *other == place)
}
