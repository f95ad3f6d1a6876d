// The values of chosen granules of a part, and the rows that have them.
ghost use Rattle.std.specs.Prelude.{◌≡◌, ◌+◌, ◌<◌, ◌^◌, ℕ, All, IfErr, IfOk, IsErrOf, List, OnOk, length, map, slice_get};
ghost use Rattle.std.specs.List.{filter_map};
ghost use Rattle.std.specs.Option.{IfSome};
ghost use Rattle.part_damage.specs.column_file.Marks.{granules};
ghost use Rattle.mt_outside.specs.Leaves.{LeavesArm};
ghost use Rattle.mt_base.specs.declared.name.FileId.TheVariants as file;
ghost use Rattle.mt_values.specs.declared.schema.Schema.{Schema};
ghost use Rattle.mt_values.specs.Grid.{Cells};
ghost use Rattle.mt_values.specs.Printing.{selected};
ghost use Rattle.mt_values.specs.Schemas.{column_types};
ghost use Rattle.mt_values.specs.Values.{Row};
ghost use Rattle.part_reader.specs.Faults.{ExplainsAt, ExplainsEach};
ghost use Rattle.part_reader.specs.Granules.{ExplainsChosen, ExplainsRun, GainsChosen, chosen_count, chosen_of, column_in, rows_in};
ghost use Rattle.part_reader.specs.Parts.{HoldsAt, with_columns};
ghost use Rattle.part_reader.specs.Readings.{granule_items, lone};

use crate::ahead::Source;
use crate::cut_rows::{add_rows, rows_of_block};
use crate::part_rows::{PartRows, none_ahead, read_block};
use crate::reading::{Part, PartFault};
use crate::runs::{Run, add_run, granule_rows};
use mt_base::NoMemory;
use mt_outside::Arm;
use mt_values::{ColumnData, Row, Rows};
use part_damage::part_writer::Loaded;
use std::alloc::Global;

/// How many bytes of a column are read ahead where one part is read by itself.
const AHEAD: u64 = 65536;

/// Adds the values that the rows of the chosen granules have in the part's columns at these places, counted from 0, each to its own
/// column. Neighbouring granules are read at once, column by column, and no byte outside of the chosen ones is read; a place may come
/// twice. Digests are not compared.
///
/// `Damaged` where the bytes of a run of granules are no spelling of a value for each of its rows, or the places that are kept have
/// no such run: never where the folder and what is kept hold rows, and it is said of each of their granules whether it is chosen. `Fault` only where the arm's count rose in this call; `NoMemory`
/// where an allocation failed. After an error some of the values may have been added.
pub fn add_granules<R: Arm>(
    alloc: Global,
    arm: &mut R,
    part: &Part<R::Dir>,
    chosen: &[bool],
    places: &[u32],
    columns: &mut [ColumnData],
) -> Result<(), PartFault>
    requires { length columns.old ≡ length places.now }

    // What the columns get.
    ensures values { (schema : Schema) (rows : List Row)
        → HoldsAt R.Dir.files schema part.now (map file.Column places.now) rows
        → map (λ (c : Cells). c.col_type) columns.old ≡ filter_map (slice_get (column_types schema))
        places.now → OnOk result (columns.new ≡ with_columns (chosen_of
        part.now.loaded.schema.granularity chosen.now rows) places.now columns.old) }
    ensures even { (n : ℕ) → All (λ (c : Cells). length c.values ≡ n) columns.old
        → OnOk result (All (λ (c : Cells). length c.values ≡ n + chosen_count
        part.now.loaded.schema.granularity chosen.now part.now.loaded.manifest.rows) columns.new) }
    ensures types { OnOk result (map (λ (c : Cells). c.col_type) columns.new ≡ map
        (λ (c : Cells). c.col_type) columns.old) }

    // What a fault says.
    ensures damaged { IfErr result (ExplainsEach (λ number t. ExplainsChosen
        (column_in R.Dir.files part.now number) chosen.now t) places.now columns.old) }

    // What the arm is then, and its count of faults.
    ensures arm { LeavesArm R.Arm arm.old arm.new (IsErrOf result PartFault.Fault) }
{
    for (number, place) in places.iter().enumerate() {
        add_chosen(alloc, arm, part, chosen, *place, &mut columns[number])?;
    }
    Ok(())
}

/// The rows of the chosen granules of a part, in order: of each the values at these places, counted from 0, in their order. A place may
/// come twice. They are read granule by granule, a granule's rows at once.
///
/// The errors are those of `add_granules`.
pub fn read_granules<R: Arm>(
    alloc: Global,
    arm: &mut R,
    part: &Part<R::Dir>,
    chosen: &[bool],
    places: &[u32],
) -> Result<Vec<Row>, PartFault>
    requires { All (λ place. place < length part.now.loaded.schema.columns) places.now }

    // What is read.
    ensures rows { (schema : Schema) (rows : List Row)
        → HoldsAt R.Dir.files schema part.now (map file.Column places.now) rows
        → IfOk result (λ v. v.items ≡ map (selected places.now)
        (chosen_of part.now.loaded.schema.granularity chosen.now rows)) }
    ensures count { IfOk result (λ v. length v.items ≡ chosen_count
        part.now.loaded.schema.granularity chosen.now part.now.loaded.manifest.rows) }

    // What a fault says.
    ensures damaged { IfErr result (ExplainsAt (λ number t. ExplainsChosen
        (column_in R.Dir.files part.now number) chosen.now t)
        (column_types part.now.loaded.schema) places.now) }

    // What the arm is then, and its count of faults.
    ensures arm { LeavesArm R.Arm arm.old arm.new (IsErrOf result PartFault.Fault) }
{
    let Ok(mut reader) = PartRows::new(alloc, &part.loaded.schema, part, chosen, places, AHEAD)
    else {
        return Err(PartFault::NoMemory);
    };
    let mut rows = Vec::new(alloc);
    'given: while let Some(block) = reader.next(alloc, arm)? {
        let Ok(()) = add_rows(alloc, &block, &mut rows) else {
            return Err(PartFault::NoMemory);
        };
    }
    Ok(rows)
}

/// The rows of a granule of a part, counted from 0, in order: of each the values at these places, counted from 0, in their order. A
/// place may come twice. The granule's bytes alone are read. Digests are not compared.
///
/// The errors are those of `read_granules`.
pub fn read_granule<R: Arm>(
    alloc: Global,
    arm: &mut R,
    part: &Part<R::Dir>,
    number: usize,
    places: &[u32],
) -> Result<Vec<Row>, PartFault>
    requires number { number < granules part.now.loaded.schema.granularity
        part.now.loaded.manifest.rows }
    requires places { All (λ place. place < length part.now.loaded.schema.columns) places.now }

    // What is read.
    ensures rows { (schema : Schema) (rows : List Row)
        → HoldsAt R.Dir.files schema part.now (map file.Column places.now) rows
        → IfOk result (λ v. v.items ≡ map (selected places.now)
        (granule_items part.now.loaded.schema.granularity number rows)) }
    ensures count { IfOk result (λ v. length v.items ≡ rows_in part.now.loaded (lone number)) }

    // What a fault says.
    ensures damaged { IfErr result (ExplainsAt (λ column t. ExplainsRun
        (column_in R.Dir.files part.now column) (lone number) t)
        (column_types part.now.loaded.schema) places.now) }

    // What the arm is then, and its count of faults.
    ensures arm { LeavesArm R.Arm arm.old arm.new (IsErrOf result PartFault.Fault) }
{
    // Reading how many rows there are shows that 64 bits count the next granule.
    prove!((number as u64) < part.rows());
    let Ok(mut aheads) = none_ahead(alloc, places.len()) else {
        return Err(PartFault::NoMemory);
    };
    let none: [bool; 0] = [];
    let source = Source {
        schema: &part.loaded.schema,
        part,
        chosen: &none,
        most: 0,
    };
    let block = read_block(alloc, arm, &source, places, number, &mut aheads)?;
    match rows_of_block(alloc, &block) {
        Ok(rows) => Ok(rows),
        Err(NoMemory) => Err(PartFault::NoMemory),
    }
}

/// How many rows the chosen granules of a part have; none where 32 bits can't count them.
pub fn count_chosen(loaded: &Loaded, chosen: &[bool]) -> Option<usize>
    ensures rows { IfSome result (λ rows. rows ≡ chosen_count loaded.now.schema.granularity
        chosen.now loaded.now.manifest.rows) }
    ensures few { IfSome result (λ rows. rows < 2 ^ 32) }
{
    let mut rows: usize = 0;
    for (granule, is_chosen) in chosen.iter().enumerate() {
        if !*is_chosen {
            continue;
        }
        rows = rows.checked_add(granule_rows(loaded, granule))?;
    }
    if rows > u32::MAX as usize {
        return None;
    }
    Some(rows)
}

/// Adds the values that the rows of the chosen granules have in the part's column with this number to a column, run by run.
///
/// The errors are those of `add_granules`.
fn add_chosen<R: Arm>(
    alloc: Global,
    arm: &mut R,
    part: &Part<R::Dir>,
    chosen: &[bool],
    number: u32,
    column: &mut ColumnData,
) -> Result<(), PartFault>
    ensures gained { OnOk result (GainsChosen (column_in R.Dir.files part.now number) chosen.now
        column.old column.new) }
    ensures damaged { IfErr result (ExplainsChosen (column_in R.Dir.files part.now number)
        chosen.now column.old.col_type) }
    ensures arm { LeavesArm R.Arm arm.old arm.new (IsErrOf result PartFault.Fault) }
{
    // Where the granules begin that were chosen since the last one that was not.
    let mut first = 0;
    for (granule, is_chosen) in chosen.iter().enumerate() {
        if *is_chosen {
            continue;
        }
        let count = granule - first;
        add_run(alloc, arm, part, number, Run { first, count }, None, column)?;
        first = granule + 1;
    }
    let count = chosen.len() - first;
    add_run(alloc, arm, part, number, Run { first, count }, None, column)
}
