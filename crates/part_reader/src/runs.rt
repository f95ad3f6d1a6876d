// Runs of granules of a column, each read by itself.
ghost use Rattle.std.specs.Prelude.{◌≡◌, ◌<◌, ◌+◌, ◌^◌, IfErr, IfSome, IsErrOf, MatchOption, OnOk, length, option_copied};
ghost use Rattle.mt_outside.specs.Leaves.{LeavesArm};
ghost use Rattle.mt_base.specs.declared.name.FileId.TheVariants as file;
ghost use Rattle.part_damage.specs.column_file.Faults.{Explains};
ghost use Rattle.part_reader.specs.Granules.{ExplainsRun, Gains, IsRunAdded, IsSpanOf, column_in, no_run, place_of, rows_in};
ghost use Rattle.part_reader.specs.Readings.{lone};

use crate::files::{Span, read_span};
use crate::marked::{misread, wanted_of};
use crate::reading::{Part, PartFault};
use mt_outside::Arm;
use mt_values::{ColumnData, FileId};
use part_damage::column_file::{FormatFault, decode_onto, decode_where};
use part_damage::part_writer::Loaded;
use part_damage::primary_marks::Places;
use std::alloc::Global;

/// Granules of a part that stand one after another: the first of them, counted from 0, and how many.
#[derive(Clone, Copy, Debug)]
pub struct Run {
    pub first: usize,
    pub count: usize,
}

/// Adds the values that the wanted rows of a run have in the part's column with this number to a column. A mask says of each row of the
/// run whether it is wanted; without one each is. The bytes of the run alone are read; an empty run is not looked up, and nothing is read.
///
/// `Damaged` where the places that are kept have no such run, or the bytes are no spelling of a value for each of its rows;
/// `Fault` only where the arm's count rose in this call; `NoMemory` where an allocation failed. After an error some of the values
/// may have been added.
pub fn add_run<R: Arm>(
    alloc: Global,
    arm: &mut R,
    part: &Part<R::Dir>,
    number: u32,
    run: Run,
    mask: Option<&[bool]>,
    column: &mut ColumnData,
) -> Result<(), PartFault>
    requires run { run.first + run.count < 2 ^ 64 }
    requires even { IfSome mask (λ m. length m.now ≡ rows_in part.now.loaded run) }
    ensures read { OnOk result (IsRunAdded (column_in R.Dir.files part.now number) run
        (option_copied mask.entry) column.old column.new) }
    ensures damaged { IfErr result
        (ExplainsRun (column_in R.Dir.files part.now number) run column.old.col_type) }
    ensures arm { LeavesArm R.Arm arm.old arm.new (IsErrOf result PartFault.Fault) }
{
    if run.count == 0 {
        return Ok(());
    }
    let loaded: &Loaded = &part.loaded;
    let Some(span) = span_of(&loaded.places, number, run) else {
        return Err(unplaced(loaded));
    };
    let file = FileId::Column(number);
    let bytes = read_span(alloc, arm, &part.dir, file, span)?;
    match decode(column, &bytes, row_count(loaded, run), mask) {
        Ok(()) => Ok(()),
        Err(error) => Err(misread(loaded, file, span.start, &bytes, error)),
    }
}

/// Adds the values of the wanted ones of `count` rows, all of whose values the bytes spell, at a column's end.
///
/// The errors are those of `decode_onto`.
pub fn decode(
    column: &mut ColumnData,
    bytes: &[u8],
    count: usize,
    mask: Option<&[bool]>,
) -> Result<(), FormatFault>
    requires { IfSome mask (λ m. length m.now ≡ count) }
    ensures read { OnOk result
        (Gains (option_copied mask.entry) count bytes.now column.old column.new) }
    ensures fault { IfErr result (Explains column.old.col_type count bytes.now) }
{
    match mask {
        None => decode_onto(column, bytes, count),
        Some(mask) => decode_where(column, bytes, mask),
    }
}

/// The places of a column's file between which the bytes of a run stand, by the places that are kept.
///
/// `None` where these have no such run.
pub fn span_of(places: &Places, number: u32, run: Run) -> Option<Span>
    requires { run.first + run.count < 2 ^ 64 }
    ensures { MatchOption result ((span : Span) → IsSpanOf places.now number run span → ⊥)
        (IsSpanOf places.now number run) }
{
    let start = place_of(places, number, run.first)?;
    let end = place_of(places, number, run.first + run.count)?;
    Some(Span { start, end })
}

/// Where a granule of a column begins in its file, by the places that are kept; after the last granule, where the file ends.
pub fn place_of(places: &Places, number: u32, granule: usize) -> Option<u64>
    ensures { result ≡ place_of places.now number granule }
{
    let column = places.as_slice().get(number as usize)?;
    column.as_slice().get(granule).copied()
}

/// How many rows a run has.
pub fn row_count(loaded: &Loaded, run: Run) -> usize
    ensures { result ≡ rows_in loaded.now run }
{
    let granularity = loaded.schema.granularity as usize;
    let before = granularity.saturating_mul(run.first);
    let rows = (loaded.manifest.rows as usize).saturating_sub(before);
    granularity.saturating_mul(run.count).min(rows)
}

/// How many rows a granule has: none where it is past the last one.
pub fn granule_rows(loaded: &Loaded, granule: usize) -> usize
    ensures rows { result ≡ rows_in loaded.now (lone granule) }
    ensures few { result < 2 ^ 32 }
{
    let most = loaded.schema.granularity as usize;
    let run = Run {
        first: granule,
        count: 1,
    };
    row_count(loaded, run).min(most)
}

/// What is said where the places that are kept have no run that was to be read.
pub fn unplaced(loaded: &Loaded) -> PartFault
    ensures { result ≡ no_run loaded.now }
{
    let mark = wanted_of(loaded, FileId::Marks);
    PartFault::Damaged {
        file: FileId::Marks,
        place: 0,
        wanted: mark,
        found: mark,
    }
}
