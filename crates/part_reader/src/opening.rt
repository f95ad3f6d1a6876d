// A part opened: the manifest that lies in its folder, where its granules begin, and what its skip indexes keep.
ghost use Rattle.std.specs.Prelude.{◌≡◌, ◌<◌, ℕ, List, IfErr, IfOk, IsErrOf, MatchResult, Some, length};
ghost use Rattle.mt_outside.specs.Files.{Files, bytes_of};
ghost use Rattle.mt_outside.specs.Leaves.{LeavesArm};
ghost use Rattle.mt_values.specs.declared.manifest.Manifest.{Manifest};
ghost use Rattle.mt_base.specs.declared.name.FileId.TheVariants as file;
ghost use Rattle.mt_values.specs.Values.{Row};
ghost use Rattle.part_damage.specs.part_writer.PartFiles.{mark_of};
ghost use Rattle.part_damage.specs.part_writer.declared.loaded.Loaded.{Loaded};
ghost use Rattle.part_damage.specs.primary_marks.Keys.{HasMarks};
ghost use Rattle.part_damage.specs.part_writer.PartFiles.{HasIndexes};
ghost use Rattle.part_damage.specs.skip_index.declared.index.Index.{Index};
ghost use Rattle.part_damage.specs.Marks.{mark_for};
ghost use Rattle.part_reader.specs.Damage.{ExplainsManifest, ExplainsManifestFile, ExplainsOpening, GoesWrongAt, IsSkipFault, Tells};
ghost use Rattle.part_reader.specs.DamagedFile.{damaged_file};
ghost use Rattle.part_reader.specs.Faults.{ExplainsBytes, ExplainsFile, IsNoDamage};
ghost use Rattle.part_damage.specs.Sound.{AreBlocksUnder, AreIndexes, AreKeysUnder, AreMarksUnder, IsLoadedOf, IsManifestFor, IsOpened, IsReadAs};
ghost use Rattle.part_reader.specs.declared.reading.TheConstants.{NO_MARK};

use crate::files::{read_file, read_marked};
use crate::marked::{mark_at, mark_found, misspelled};
use crate::reading::{NO_MARK, Part, PartFault};
use mt_base::{Seq, Twin};
use mt_outside::Arm;
use mt_values::{FileId, Manifest, Schema};
use part_damage::column_file::FormatFault;
use part_damage::digest_file::{mark_of, read_manifest};
use part_damage::part_writer::{Loaded, SharedLoaded, content_count};
use part_damage::primary_marks::{Marks, Places, read, read_places};
use part_damage::skip_index::{Index, read as read_index};
use std::alloc::Global;

/// Where the number of files stands in the bytes of a manifest: after `MTP1`, two bytes of the version and eight of the number of rows.
const COUNT_PLACE: u64 = 14;

/// The part of a table with this folder, and what is kept of it: the schema of the table, its manifest, and what its `marks.bin`, its
/// `primary.bin` and the files of its skip indexes say. These files are read in this order, each after the manifest no further than a
/// byte past the length that the manifest has of it.
///
/// `Damaged` at the first of them that is not as it has to be: where `manifest.bin` is no manifest, at its first fault, or one that has
/// not as many marks as the part has other files, at the place of that number; where another does not have its mark, at 0, or is none,
/// at its first fault. It is never so where the folder holds rows. `Fault` only where the arm's count rose in this call; `NoMemory`
/// where an allocation failed, or the number of a skip index does not fit 32 bits.
pub fn open_part<R: Arm>(
    alloc: Global,
    dir: R::Dir,
    schema: &Schema,
    arm: &mut R,
) -> Result<Part<R::Dir>, PartFault>
    requires marks { HasMarks schema.now }
    requires indexes { HasIndexes schema.now }

    // What is read.
    ensures dir { IfOk result (λ p. p.dir ≡ dir) }
    ensures opened { IfOk result (λ p. IsOpened (R.Dir.files dir) schema.now p.loaded) }
    ensures loaded { (files : Files) → R.Dir.files dir ≡ Some files
        → IfOk result (λ p. IsLoadedOf schema.now files p.loaded) }
    ensures spelled { (files : Files) (loaded : Loaded) → R.Dir.files dir ≡ Some files
        → IsLoadedOf schema.now files loaded
        → MatchResult result (λ p. p.loaded ≡ loaded) IsNoDamage }

    // What is told of damage.
    ensures first { (files : Files) → R.Dir.files dir ≡ Some files
        → IfErr result (Tells (λ found. damaged_file schema.now files ≡ found)) }
    ensures damaged { IfErr result (ExplainsOpening (R.Dir.files dir) schema.now) }

    // What the arm is then, and its count of faults.
    ensures arm { LeavesArm R.Arm arm.old arm.new (IsErrOf result PartFault.Fault) }
{
    let manifest = open_manifest(alloc, &dir, schema, arm)?;
    let places = open_marks(alloc, &dir, schema, &manifest, arm)?;
    let marks = open_keys(alloc, &dir, schema, &manifest, arm)?;
    let indexes = open_indexes(alloc, &dir, schema, &manifest, arm)?;
    let Ok(schema) = schema.twin(alloc) else {
        return Err(PartFault::NoMemory);
    };
    let loaded = Loaded {
        schema,
        manifest,
        marks,
        places,
        indexes,
    };
    let Ok(loaded) = SharedLoaded::of(alloc, loaded) else {
        return Err(PartFault::NoMemory);
    };
    Ok(Part::of(dir, loaded))
}

/// The manifest of a folder's `manifest.bin`, with a mark of each other file of the part.
///
/// The errors are those of `open_part`.
fn open_manifest<R: Arm>(
    alloc: Global,
    dir: &R::Dir,
    schema: &Schema,
    arm: &mut R,
) -> Result<Manifest, PartFault>
    ensures read { IfOk result (λ manifest. IsReadAs (R.Dir.files dir.now) file.Manifest
        (λ bytes. IsManifestFor schema.now bytes manifest)) }
    ensures spelled { (files : Files) (manifest : Manifest) → R.Dir.files dir.now ≡ Some files
        → IsManifestFor schema.now (bytes_of file.Manifest files) manifest
        → MatchResult result (λ found. found ≡ manifest) IsNoDamage }
    ensures damaged { IfErr result (ExplainsManifestFile (R.Dir.files dir.now) schema.now) }
    ensures arm { LeavesArm R.Arm arm.old arm.new (IsErrOf result PartFault.Fault) }
{
    let bytes = read_file(alloc, arm, dir, FileId::Manifest)?;
    manifest_in(alloc, &bytes, schema)
}

/// What a folder's `marks.bin` says: where granules begin in the files of the columns.
///
/// The errors are those of `open_part`.
fn open_marks<R: Arm>(
    alloc: Global,
    dir: &R::Dir,
    schema: &Schema,
    manifest: &Manifest,
    arm: &mut R,
) -> Result<Places, PartFault>
    requires { HasMarks schema.now }
    ensures read { IfOk result (λ places. IsReadAs (R.Dir.files dir.now) file.Marks
        (λ bytes. AreMarksUnder schema.now manifest.now bytes places)) }
    ensures spelled { (files : Files) (places : List (List ℕ)) → R.Dir.files dir.now ≡ Some files
        → AreMarksUnder schema.now manifest.now (bytes_of file.Marks files) places
        → MatchResult result (λ found. found ≡ places) IsNoDamage }
    ensures damaged { IfErr result (ExplainsFile (R.Dir.files dir.now)
        (mark_for schema.now manifest.now file.Marks) file.Marks
        (GoesWrongAt schema.now manifest.now.rows file.Marks)) }
    ensures arm { LeavesArm R.Arm arm.old arm.new (IsErrOf result PartFault.Fault) }
{
    let marked = mark_at(schema, manifest, FileId::Marks);
    let bytes = read_marked(alloc, arm, dir, FileId::Marks, marked)?;
    places_in(alloc, schema, manifest, &bytes)
}

/// What the bytes of `marks.bin` say.
///
/// `Damaged` where they do not have the mark of the manifest, or are no `marks.bin` of a part with as many rows; `NoMemory` where an
/// allocation failed. It is never `Fault`.
fn places_in(
    alloc: Global,
    schema: &Schema,
    manifest: &Manifest,
    bytes: &[u8],
) -> Result<Places, PartFault>
    requires { HasMarks schema.now }
    ensures read { IfOk result (AreMarksUnder schema.now manifest.now bytes.now) }
    ensures spelled { (places : List (List ℕ))
        → AreMarksUnder schema.now manifest.now bytes.now places
        → MatchResult result (λ found. found ≡ places) IsNoDamage }
    ensures damaged { IfErr result (ExplainsBytes
        (mark_for schema.now manifest.now file.Marks) file.Marks
        (GoesWrongAt schema.now manifest.now.rows file.Marks bytes.now) bytes.now) }
{
    let mark = mark_found(schema, manifest, FileId::Marks, bytes)?;
    let granules = manifest.rows.div_ceil(u64::from(schema.granularity));
    match read_places(alloc, schema.columns.len(), granules, bytes) {
        Ok(places) => Ok(places),
        Err(error) => Err(misspelled(FileId::Marks, mark, error)),
    }
}

/// What a folder's `primary.bin` says: the primary keys of the rows with which granules begin, and of the last row.
///
/// The errors are those of `open_part`.
fn open_keys<R: Arm>(
    alloc: Global,
    dir: &R::Dir,
    schema: &Schema,
    manifest: &Manifest,
    arm: &mut R,
) -> Result<Marks, PartFault>
    requires { HasMarks schema.now }
    ensures read { IfOk result (λ keys. IsReadAs (R.Dir.files dir.now) file.Primary
        (λ bytes. AreKeysUnder schema.now manifest.now bytes keys)) }
    ensures spelled { (files : Files) (keys : List Row) → R.Dir.files dir.now ≡ Some files
        → AreKeysUnder schema.now manifest.now (bytes_of file.Primary files) keys
        → MatchResult result (λ found. found ≡ keys) IsNoDamage }
    ensures damaged { IfErr result (ExplainsFile (R.Dir.files dir.now)
        (mark_for schema.now manifest.now file.Primary) file.Primary
        (GoesWrongAt schema.now manifest.now.rows file.Primary)) }
    ensures arm { LeavesArm R.Arm arm.old arm.new (IsErrOf result PartFault.Fault) }
{
    let marked = mark_at(schema, manifest, FileId::Primary);
    let bytes = read_marked(alloc, arm, dir, FileId::Primary, marked)?;
    keys_in(alloc, schema, manifest, &bytes)
}

/// What the bytes of `primary.bin` say.
///
/// The errors are as those of `places_in`.
fn keys_in(
    alloc: Global,
    schema: &Schema,
    manifest: &Manifest,
    bytes: &[u8],
) -> Result<Marks, PartFault>
    requires { HasMarks schema.now }
    ensures read { IfOk result (AreKeysUnder schema.now manifest.now bytes.now) }
    ensures spelled { (keys : List Row) → AreKeysUnder schema.now manifest.now bytes.now keys
        → MatchResult result (λ found. found ≡ keys) IsNoDamage }
    ensures damaged { IfErr result (ExplainsBytes
        (mark_for schema.now manifest.now file.Primary) file.Primary
        (GoesWrongAt schema.now manifest.now.rows file.Primary bytes.now) bytes.now) }
{
    let mark = mark_found(schema, manifest, FileId::Primary, bytes)?;
    match read(alloc, schema, bytes, manifest.rows) {
        Ok(marks) => Ok(marks),
        Err(error) => Err(misspelled(FileId::Primary, mark, error)),
    }
}

/// What the files of the skip indexes in a folder say, in their order.
///
/// The errors are those of `open_part`.
fn open_indexes<R: Arm>(
    alloc: Global,
    dir: &R::Dir,
    schema: &Schema,
    manifest: &Manifest,
    arm: &mut R,
) -> Result<Seq<Index>, PartFault>
    requires { HasIndexes schema.now }
    ensures read { IfOk result (AreIndexes schema.now (λ n index.
        IsReadAs (R.Dir.files dir.now) (file.Skip n)
        (λ bytes. AreBlocksUnder schema.now manifest.now n bytes index))) }
    ensures spelled { (files : Files) (indexes : List Index) → R.Dir.files dir.now ≡ Some files
        → AreIndexes schema.now (λ n index. AreBlocksUnder schema.now manifest.now n
        (bytes_of (file.Skip n) files) index) indexes
        → MatchResult result (λ found. found ≡ indexes) IsNoDamage }
    ensures damaged { IfErr result (IsSkipFault (R.Dir.files dir.now) schema.now manifest.now) }
    ensures arm { LeavesArm R.Arm arm.old arm.new (IsErrOf result PartFault.Fault) }
{
    let mut indexes = Seq::new(alloc);
    for place in 0..schema.indexes.len() {
        // No file has a number past these.
        if place > u32::MAX as usize {
            return Err(PartFault::NoMemory);
        }
        let index = open_index(alloc, dir, schema, manifest, place as u32, arm)?;
        let Ok(()) = indexes.push(index) else {
            return Err(PartFault::NoMemory);
        };
    }
    Ok(indexes)
}

/// What the file of the skip index with this number in a folder says.
///
/// The errors are those of `open_part`.
fn open_index<R: Arm>(
    alloc: Global,
    dir: &R::Dir,
    schema: &Schema,
    manifest: &Manifest,
    number: u32,
    arm: &mut R,
) -> Result<Index, PartFault>
    requires indexes { HasIndexes schema.now }
    requires number { number < length schema.now.indexes }
    ensures read { IfOk result (λ index. IsReadAs (R.Dir.files dir.now) (file.Skip number)
        (λ bytes. AreBlocksUnder schema.now manifest.now number bytes index)) }
    ensures spelled { (files : Files) (index : Index) → R.Dir.files dir.now ≡ Some files
        → AreBlocksUnder schema.now manifest.now number (bytes_of (file.Skip number) files) index
        → MatchResult result (λ found. found ≡ index) IsNoDamage }
    ensures damaged { IfErr result (ExplainsFile (R.Dir.files dir.now)
        (mark_for schema.now manifest.now (file.Skip number)) (file.Skip number)
        (GoesWrongAt schema.now manifest.now.rows (file.Skip number))) }
    ensures arm { LeavesArm R.Arm arm.old arm.new (IsErrOf result PartFault.Fault) }
{
    let marked = mark_at(schema, manifest, FileId::Skip(number));
    let bytes = read_marked(alloc, arm, dir, FileId::Skip(number), marked)?;
    index_in(alloc, schema, manifest, number, &bytes)
}

/// What the bytes of the file of the skip index with this number say.
///
/// The errors are as those of `places_in`.
fn index_in(
    alloc: Global,
    schema: &Schema,
    manifest: &Manifest,
    number: u32,
    bytes: &[u8],
) -> Result<Index, PartFault>
    requires indexes { HasIndexes schema.now }
    requires number { number < length schema.now.indexes }
    ensures read { IfOk result (AreBlocksUnder schema.now manifest.now number bytes.now) }
    ensures spelled { (index : Index)
        → AreBlocksUnder schema.now manifest.now number bytes.now index
        → MatchResult result (λ found. found ≡ index) IsNoDamage }
    ensures damaged { IfErr result (ExplainsBytes
        (mark_for schema.now manifest.now (file.Skip number)) (file.Skip number)
        (GoesWrongAt schema.now manifest.now.rows (file.Skip number) bytes.now) bytes.now) }
{
    let file = FileId::Skip(number);
    let mark = mark_found(schema, manifest, file, bytes)?;
    match read_index(alloc, schema, number, bytes, manifest.rows) {
        Ok(index) => Ok(index),
        Err(error) => Err(misspelled(file, mark, error)),
    }
}

/// The manifest that the bytes are, with a mark of each other file of the part.
///
/// `Damaged` where they are none: at their first fault, or at the place of the number of files where that alone is another;
/// `NoMemory` where an allocation failed. It is never `Fault`.
fn manifest_in(alloc: Global, bytes: &[u8], schema: &Schema) -> Result<Manifest, PartFault>
    ensures is { IfOk result (IsManifestFor schema.now bytes.now) }
    ensures spelled { (manifest : Manifest) → IsManifestFor schema.now bytes.now manifest
        → MatchResult result (λ found. found ≡ manifest) (λ e. e ≡ PartFault.NoMemory) }
    ensures damaged { IfErr result (ExplainsManifest schema.now bytes.now) }
{
    match read_manifest(alloc, bytes) {
        Ok(manifest) => {
            if manifest.files.len() != content_count(schema) {
                return Err(no_manifest(bytes, COUNT_PLACE));
            }
            Ok(manifest)
        }
        Err(FormatFault::NoMemory) => Err(PartFault::NoMemory),
        Err(FormatFault::Malformed { place }) => Err(no_manifest(bytes, place)),
    }
}

/// The damage of bytes that are no manifest of the part from this place on. No mark was wanted of them.
fn no_manifest(bytes: &[u8], place: u64) -> PartFault
    ensures { result ≡ PartFault.Damaged file.Manifest place NO_MARK (mark_of bytes.now) }
{
    PartFault::Damaged {
        file: FileId::Manifest,
        place,
        wanted: NO_MARK,
        found: mark_of(bytes),
    }
}
