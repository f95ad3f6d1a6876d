// A part checked: its files are compared with its manifest and with each other, and no value of them is kept.
ghost use Rattle.std.specs.Prelude.{◌≡◌, ◌<◌, ℕ, List, IfErr, IfOk, IsErrOf, MatchResult, OnOk, None, Some, length, slice_get};
ghost use Rattle.mt_outside.specs.Files.{Files};
ghost use Rattle.mt_outside.specs.Leaves.{LeavesArm};
ghost use Rattle.mt_values.specs.Values.{Row};
ghost use Rattle.mt_values.specs.declared.manifest.FileMark.{FileMark};
ghost use Rattle.part_damage.specs.part_writer.PartFiles.{IsContent, indexes_of, loaded_of};
ghost use Rattle.part_damage.specs.primary_marks.Keys.{HasMarks};
ghost use Rattle.part_damage.specs.part_writer.PartFiles.{HasIndexes};
ghost use Rattle.part_reader.specs.Compared.{IsCompared};
ghost use Rattle.part_reader.specs.Damage.{ExplainsCheck, GoesWrongAlone, Tells};
ghost use Rattle.part_reader.specs.DamagedFile.{damaged_file};
ghost use Rattle.part_reader.specs.Faults.{ExplainsBytes, ExplainsFile};
ghost use Rattle.part_damage.specs.Sound.{AreRowsRead, IsLoadedOf, IsReadAs};
ghost use Rattle.part_damage.specs.Marks.{mark_for};

use crate::comparing::{Agreement, compare_column, shape};
use crate::files::read_marked;
use crate::marked::{mark_at, mark_found, misspelled};
use crate::reading::{NO_MARK, Part, PartFault};
use mt_outside::Arm;
use mt_values::{FileId, FileMark, Manifest, Schema};
use part_damage::part_writer::{Loaded, content_count, content_file};
use std::alloc::Global;

/// Nothing, where each file of which the part's manifest has a mark has it, the files of the columns spell as many rows as the manifest
/// says, and what is kept of `marks.bin`, `primary.bin` and the files of skip indexes is that of these rows. The files are read one after
/// another in the order of the format, each no further than a byte past the length that the manifest has of it, and none is kept. Beside a
/// column that has skip indexes the values of one block are in memory. Whether the rows are sorted is not asked.
///
/// `Damaged` at the first file that has another mark or, of a column, spells no values; where there is none, at `marks.bin`, or else
/// `primary.bin`, or else the first file of a skip index that is not that of the rows. It is never so where the folder and what is kept
/// hold rows. `Fault` only where the arm's count rose in this call; `NoMemory` where an allocation failed, or a file's place does not fit
/// 32 bits.
pub fn check_part<R: Arm>(alloc: Global, part: &Part<R::Dir>, arm: &mut R) -> Result<(), PartFault>
    requires marks { HasMarks part.now.loaded.schema }
    requires indexes { HasIndexes part.now.loaded.schema }

    // What was read, and what is told of damage.
    ensures checked { let schema = part.now.loaded.schema in OnOk result ((rows : List Row)
        × AreRowsRead (R.Dir.files part.now.dir) schema part.now.loaded.manifest rows
        × (part.now.loaded.places ≡ (loaded_of schema rows).places)
        × (part.now.loaded.marks ≡ (loaded_of schema rows).marks)
        × ((n : ℕ) → n < length schema.indexes
        → slice_get part.now.loaded.indexes n ≡ slice_get (indexes_of schema rows) n)) }
    ensures damaged { IfErr result
        (ExplainsCheck (R.Dir.files part.now.dir) part.now.loaded.schema part.now.loaded) }
    ensures file { let schema = part.now.loaded.schema in
        (files : Files) → R.Dir.files part.now.dir ≡ Some files
        → IsLoadedOf schema files part.now.loaded
        → MatchResult result (λ _. damaged_file schema files ≡ None)
        (Tells (λ found. damaged_file schema files ≡ found)) }

    // What the arm is then, and its count of faults.
    ensures arm { LeavesArm R.Arm arm.old arm.new (IsErrOf result PartFault.Fault) }
{
    let loaded: &Loaded = &part.loaded;
    let schema = &loaded.schema;
    let mut agreed = shape(loaded, schema);
    for place in 0..content_count(schema) {
        // No file has a place past these.
        if place > u32::MAX as usize {
            return Err(PartFault::NoMemory);
        }
        let Some(file) = content_file(schema, place as u32) else {
            unreachable!()
        };
        agreed = agreed.and(check_file(alloc, &part.dir, loaded, file, arm)?);
    }
    match agreed.unlike() {
        None => Ok(()),
        Some(file) => Err(unlike_rows(schema, &loaded.manifest, file)),
    }
}

/// Whether what is kept of the part is that of a file, which has its mark and of a column spells as many values as the part has rows.
///
/// `Damaged` where it has not, or spells no such values; else as `check_part`.
fn check_file<R: Arm>(
    alloc: Global,
    dir: &R::Dir,
    loaded: &Loaded,
    file: FileId,
    arm: &mut R,
) -> Result<Agreement, PartFault>
    requires marks { HasMarks loaded.now.schema }
    requires indexes { HasIndexes loaded.now.schema }
    requires content { IsContent loaded.now.schema file }
    ensures compared { IfOk result (λ agreed. IsReadAs (R.Dir.files dir.now) file
        (λ bytes. IsCompared loaded.now.schema loaded.now file bytes agreed)) }
    ensures damaged { IfErr result (ExplainsFile (R.Dir.files dir.now)
        (mark_for loaded.now.schema loaded.now.manifest file) file
        (GoesWrongAlone loaded.now.schema loaded.now.manifest.rows file)) }
    ensures arm { LeavesArm R.Arm arm.old arm.new (IsErrOf result PartFault.Fault) }
{
    let schema = &loaded.schema;
    let marked = mark_at(schema, &loaded.manifest, file);
    let bytes = read_marked(alloc, arm, dir, file, marked)?;
    check_bytes(alloc, loaded, schema, file, &bytes)
}

/// Whether what is kept of a part is that of the bytes of a file, which have its mark and of a column spell as many values as the part
/// has rows.
///
/// `Damaged` where they have not, or spell no such values; `NoMemory` where an allocation failed. It is never `Fault`.
fn check_bytes(
    alloc: Global,
    loaded: &Loaded,
    schema: &Schema,
    file: FileId,
    bytes: &[u8],
) -> Result<Agreement, PartFault>
    requires marks { HasMarks schema.now }
    requires indexes { HasIndexes schema.now }
    requires content { IsContent schema.now file }
    ensures { MatchResult result (IsCompared schema.now loaded.now file bytes.now)
        (ExplainsBytes (mark_for schema.now loaded.now.manifest file) file
        (GoesWrongAlone schema.now loaded.now.manifest.rows file bytes.now) bytes.now) }
{
    let mark = mark_found(schema, &loaded.manifest, file, bytes)?;
    let FileId::Column(number) = file else {
        return Ok(Agreement::whole());
    };
    match compare_column(alloc, loaded, schema, number, bytes) {
        Ok(agreed) => Ok(agreed),
        Err(error) => Err(misspelled(file, mark, error)),
    }
}

/// The damage of a file of granules or of a skip index that is not that of the rows which the files of the columns spell.
fn unlike_rows(schema: &Schema, manifest: &Manifest, file: FileId) -> PartFault
    ensures { (mark : FileMark) → mark_for schema.now manifest.now file ≡ Some mark
        → result ≡ PartFault.Damaged file 0 mark mark }
{
    let mark = mark_at(schema, manifest, file).unwrap_or(NO_MARK);
    PartFault::Damaged {
        file,
        place: 0,
        wanted: mark,
        found: mark,
    }
}
