// Parts, why one is not read, and the values of their columns.
ghost use Rattle.std.specs.Prelude.{◌≡◌, ◌+◌, ℕ, All, IfErr, IsErrOf, List, OnOk, length, map, slice_get};
ghost use Rattle.std.specs.List.{filter_map};
ghost use Rattle.mt_outside.specs.Leaves.{LeavesArm};
ghost use Rattle.mt_base.specs.declared.name.FileId.TheVariants as file;
ghost use Rattle.mt_values.specs.declared.schema.Schema.{Schema};
ghost use Rattle.mt_values.specs.Grid.{Cells};
ghost use Rattle.mt_values.specs.Schemas.{column_types};
ghost use Rattle.mt_values.specs.Values.{Row};
ghost use Rattle.part_reader.specs.Columns.{AreRead, IsRead};
ghost use Rattle.part_reader.specs.Faults.{ExplainsColumn, ExplainsEach};
ghost use Rattle.part_reader.specs.Parts.{HoldsAt, with_columns};

use crate::files::read_file;
use crate::marked::misread;
use mt_outside::{Arm, DiskError};
use mt_values::{ColumnData, FileId, FileMark, Rows};
use part_damage::column_file::decode_onto;
use part_damage::part_writer::{Loaded, SharedLoaded};
use std::alloc::{AllocError, Global};
use thiserror::Error;

/// A part of a table: its folder, and what is kept of it in memory.
#[derive(Drop)]
pub struct Part<F> {
    pub dir: F,
    pub loaded: SharedLoaded,
}

impl<F> Part<F> {
    /// The part with this folder, of which this is kept. Takes no memory.
    pub fn of(dir: F, loaded: SharedLoaded) -> Self
        ensures dir { result.dir ≡ dir }
        ensures loaded { result.loaded ≡ loaded }
    {
        Part { dir, loaded }
    }
}

impl<F> Rows for Part<F> {
    /// The number that the manifest says.
    ghost row_count = { λ p. p.loaded.manifest.rows };

    fn rows(&self) -> u64 {
        self.loaded.manifest.rows
    }
}

/// What is called wanted of a file for which the manifest has no mark: no bytes, and 32 zeros as their digest.
pub const NO_MARK: FileMark = FileMark {
    size: 0,
    digest: [0; 32],
};

/// Why a part was not read.
#[derive(Clone, Copy, Debug, Error)]
pub enum PartFault {
    /// The arm failed.
    #[error("the disk failed")]
    Fault,
    /// An allocation failed.
    #[error("out of memory")]
    NoMemory,
    /// A file that was opened or checked does not have the mark that the manifest has of it, or the manifest has none of it. The place
    /// is 0 then. Or its bytes, or those of granules, are no spelling of what such a file has in it: from this place of the file on,
    /// counted from 0, they go wrong.
    /// Or it is `marks.bin`, `primary.bin` or a file of a skip index, and not that of the rows which the files of the columns spell. The place is 0 then.
    /// Or it is `manifest.bin`, and its bytes are no manifest with a mark of each other file: at this place they go wrong,
    /// or the number of files stands.
    #[error("a file of the part is damaged at byte {place}")]
    Damaged {
        file: FileId,
        place: u64,
        /// The mark of the manifest, or `NO_MARK` where it has none, as of itself.
        wanted: FileMark,
        /// The mark of the bytes that were read, of granules alone where no more was read; `NO_MARK` where the file is longer than
        /// wanted, and was read no further.
        found: FileMark,
    },
}

impl From<DiskError> for PartFault {
    ghost use Rattle.part_reader.specs.Faults.{FaultOf};

    ghost from_gives = { FaultOf };

    fn from(error: DiskError) -> Self {
        match error {
            DiskError::Fault => PartFault::Fault,
            DiskError::NoMemory => PartFault::NoMemory,
        }
    }
}

impl From<AllocError> for PartFault {
    ghost use Rattle.std.specs.Prelude.{◌≡◌};
    ghost use Rattle.part_reader.specs.declared.reading.PartFault.TheVariants.{NoMemory};

    ghost from_gives = { λ _ e. e ≡ NoMemory };

    fn from(_: AllocError) -> Self {
        PartFault::NoMemory
    }
}

/// Adds the values of the part's columns at these places, counted from 0, each to its own column. Each file is read whole;
/// a place may come twice. Digests are not compared.
///
/// `Damaged` where the bytes of a file are no spelling of so many values as the part has rows: never where the folder and what is
/// kept hold rows. `Fault` only where the arm's count rose in this call; `NoMemory` where an allocation failed. After an error some
/// of the values may have been added.
pub fn read_columns<R: Arm>(
    alloc: Global,
    arm: &mut R,
    part: &Part<R::Dir>,
    places: &[u32],
    columns: &mut [ColumnData],
) -> Result<(), PartFault>
    requires { length columns.old ≡ length places.now }
    ensures values { (schema : Schema) (rows : List Row)
        → HoldsAt R.Dir.files schema part.now (map file.Column places.now) rows
        → map (λ (c : Cells). c.col_type) columns.old ≡ filter_map (slice_get (column_types schema))
        places.now → OnOk result (columns.new ≡ with_columns rows places.now columns.old) }
    ensures read { OnOk result (AreRead (R.Dir.files part.now.dir) part.now.loaded.manifest
        places.now columns.old columns.new) }
    ensures even { (n : ℕ) → All (λ (c : Cells). length c.values ≡ n) columns.old
        → OnOk result (All (λ (c : Cells). length c.values ≡ n + part.now.loaded.manifest.rows)
        columns.new) }
    ensures types { OnOk result (map (λ (c : Cells). c.col_type) columns.new ≡ map
        (λ (c : Cells). c.col_type) columns.old) }
    ensures damaged { IfErr result (ExplainsEach (ExplainsColumn (R.Dir.files part.now.dir)
        part.now.loaded) places.now columns.old) }

    // What the arm is then, and its count of faults.
    ensures arm { LeavesArm R.Arm arm.old arm.new (IsErrOf result PartFault.Fault) }
{
    for (number, place) in places.iter().enumerate() {
        read_column(alloc, arm, part, *place, &mut columns[number])?;
    }
    Ok(())
}

/// Adds the values of the part's column with this number to a column.
///
/// The errors are those of `read_columns`.
fn read_column<R: Arm>(
    alloc: Global,
    arm: &mut R,
    part: &Part<R::Dir>,
    number: u32,
    column: &mut ColumnData,
) -> Result<(), PartFault>
    ensures read { OnOk result (IsRead (R.Dir.files part.now.dir) part.now.loaded.manifest number
        column.old column.new) }
    ensures damaged { IfErr result (ExplainsColumn (R.Dir.files part.now.dir)
        part.now.loaded number column.old.col_type) }
    ensures arm { LeavesArm R.Arm arm.old arm.new (IsErrOf result PartFault.Fault) }
{
    let loaded: &Loaded = &part.loaded;
    let file = FileId::Column(number);
    let bytes = read_file(alloc, arm, &part.dir, file)?;
    match decode_onto(column, &bytes, loaded.manifest.rows as usize) {
        Ok(()) => Ok(()),
        Err(error) => Err(misread(loaded, file, 0, &bytes, error)),
    }
}
