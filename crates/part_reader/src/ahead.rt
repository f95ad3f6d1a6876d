// Granules of a column whose bytes are read ahead: with the bytes of a granule those of the chosen granules right after it, so that one
// read serves many small granules.
ghost use Rattle.std.specs.Prelude.{◌≡◌, ◌+◌, ◌-◌, ◌<◌, ◌≤◌, ◌^◌, ◌↔◌, ℕ, IfErr, IfSome, IsErrOf, IsTrue, OnOk, Option, length, option_copied, slice_range};
ghost use Rattle.mt_outside.specs.Files.{Files};
ghost use Rattle.mt_outside.specs.Leaves.{LeavesArm};
ghost use Rattle.part_reader.specs.Ahead.{IsAhead, IsCovered};
ghost use Rattle.part_reader.specs.Faults.{IsNoDamage};
ghost use Rattle.part_reader.specs.Granules.{ExplainsRun, IsRunAdded, column_in, rows_in};
ghost use Rattle.part_reader.specs.Readings.{lone};

use crate::files::{Span, read_span};
use crate::marked::misread;
use crate::reading::{Part, PartFault};
use crate::runs::{Run, add_run, decode, place_of, row_count, span_of, unplaced};
use mt_outside::Arm;
use mt_values::{ColumnData, FileId, Schema};
use part_damage::part_writer::Loaded;
use std::alloc::Global;

/// A part of which chosen granules are read, one after another.
#[derive(Drop)]
pub struct Source<'a, F> {
    /// The table's columns: each is read as one of its type.
    pub schema: &'a Schema,
    pub part: &'a Part<F>,
    /// Whether each granule is chosen.
    pub chosen: &'a [bool],
    /// How many bytes of a column are read at once and kept, at most.
    pub most: u64,
}

/// A granule of a column, and where its bytes stand in the column's file.
#[derive(Clone, Copy)]
struct Granule {
    column: u32,
    number: usize,
    span: Span,
}

/// Bytes of a column's file that were read: those between two places, or up to its end where it ends before.
#[derive(Drop)]
pub struct Ahead {
    span: Span,
    bytes: Vec<u8>,
}

impl Ahead {
    /// No bytes. Takes no memory.
    pub fn none(alloc: Global) -> Ahead
        ensures { (told : Option Files) (most number : ℕ) → IsAhead told most number result }
    {
        Ahead {
            span: Span { start: 0, end: 0 },
            bytes: Vec::new(alloc),
        }
    }

    /// Whether the bytes between two places are among these.
    fn covers(&self, span: Span) -> bool
        ensures { IsTrue result ↔ IsCovered self.now span }
    {
        self.span.start <= span.start && span.end <= self.span.end
    }

    /// The bytes between two places, of which the first is not before the first of these.
    fn between(&self, span: Span) -> &[u8]
        requires start { self.now.span.start ≤ span.start }
        requires rising { span.start ≤ span.end }
        ensures { result.now ≡ slice_range self.now.bytes.items
            (span.start - self.now.span.start) (span.end - self.now.span.start) }
    {
        let from = ((span.start - self.span.start) as usize).min(self.bytes.len());
        let to = ((span.end - self.span.start) as usize).min(self.bytes.len());
        &self.bytes[from..to]
    }
}

/// Adds the values that the wanted rows of a granule have in the part's column with this number to a column. A mask says of each row of
/// the granule whether it is wanted; without one each is. Where the granule's bytes were read ahead, nothing is read. Else they are
/// read, and with them those of the chosen granules right after it, up to the source's bound. A granule that has more bytes than that
/// is read by itself, and none of them is kept.
///
/// The errors are those of `add_run`.
pub fn add_granule<R: Arm>(
    alloc: Global,
    arm: &mut R,
    source: &Source<R::Dir>,
    number: u32,
    granule: usize,
    mask: Option<&[bool]>,
    ahead: &mut Ahead,
    column: &mut ColumnData,
) -> Result<(), PartFault>
    requires granule { granule + 1 < 2 ^ 64 }
    requires even { IfSome mask
        (λ m. length m.now ≡ rows_in source.now.part.now.loaded (lone granule)) }
    requires ahead { IsAhead (R.Dir.files source.now.part.now.dir) source.now.most number
        ahead.old }
    ensures read { OnOk result (IsRunAdded (column_in R.Dir.files source.now.part.now number)
        (lone granule) (option_copied mask.entry) column.old column.new) }
    ensures ahead { IsAhead (R.Dir.files source.now.part.now.dir) source.now.most number ahead.new }
    ensures damaged { IfErr result (ExplainsRun (column_in R.Dir.files source.now.part.now number)
        (lone granule) column.old.col_type) }
    ensures arm { LeavesArm R.Arm arm.old arm.new (IsErrOf result PartFault.Fault) }
{
    let loaded: &Loaded = &source.part.loaded;
    let run = Run {
        first: granule,
        count: 1,
    };
    let Some(span) = span_of(&loaded.places, number, run) else {
        return Err(unplaced(loaded));
    };
    if span.end < span.start || span.end - span.start > source.most {
        return add_run(alloc, arm, source.part, number, run, mask, column);
    }
    let wanted = Granule {
        column: number,
        number: granule,
        span,
    };
    fetch(alloc, arm, source, wanted, ahead)?;
    let bytes = ahead.between(span);
    match decode(column, bytes, row_count(loaded, run), mask) {
        Ok(()) => Ok(()),
        Err(error) => Err(misread(loaded, FileId::Column(number), span.start, bytes, error)),
    }
}

/// Makes sure that a granule's bytes are among those that were read ahead. Where they are not, they are read, and with them those of the
/// chosen granules right after it, up to the source's bound; what was read before is let go.
///
/// The errors are those of `read_span`; then nothing has changed.
fn fetch<R: Arm>(
    alloc: Global,
    arm: &mut R,
    source: &Source<R::Dir>,
    granule: Granule,
    ahead: &mut Ahead,
) -> Result<(), PartFault>
    requires number { granule.number + 1 < 2 ^ 64 }
    requires rising { granule.span.start ≤ granule.span.end }
    requires few { granule.span.end - granule.span.start ≤ source.now.most }
    requires ahead { IsAhead (R.Dir.files source.now.part.now.dir) source.now.most granule.column
        ahead.old }
    ensures covered { OnOk result (IsCovered ahead.new granule.span) }
    ensures ahead { IsAhead (R.Dir.files source.now.part.now.dir) source.now.most granule.column
        ahead.new }
    ensures sound { IfErr result IsNoDamage }
    ensures arm { LeavesArm R.Arm arm.old arm.new (IsErrOf result PartFault.Fault) }
{
    if ahead.covers(granule.span) {
        return Ok(());
    }
    let span = Span {
        start: granule.span.start,
        end: end_ahead(source, granule),
    };
    let file = FileId::Column(granule.column);
    let bytes = read_span(alloc, arm, &source.part.dir, file, span)?;
    *ahead = Ahead { span, bytes };
    Ok(())
}

/// Where the bytes end that are read with those of a granule: where the last of the chosen granules right after it ends that stays within
/// the source's bound, and where there is none of these, where the granule itself ends.
fn end_ahead<F>(source: &Source<F>, granule: Granule) -> u64
    requires number { granule.number + 1 < 2 ^ 64 }
    requires rising { granule.span.start ≤ granule.span.end }
    requires few { granule.span.end - granule.span.start ≤ source.now.most }
    ensures from { granule.span.end ≤ result }
    ensures few { result - granule.span.start ≤ source.now.most }
{
    let mut end = granule.span.end;
    for next in granule.number + 1..source.chosen.len() {
        if !source.chosen[next] {
            return end;
        }
        let Some(place) = place_of(&source.part.loaded.places, granule.column, next + 1) else {
            return end;
        };
        if place < end || place - granule.span.start > source.most {
            return end;
        }
        end = place;
    }
    end
}
