// What the definitions say of parts, whichever function wrote or reads them. The functions have empty bodies and the laws as their contracts.
ghost use Rattle.std.specs.Prelude.{◌≡◌, ◌≢◌, ℕ, ◌+◌, ◌<◌, ◌≤◌, ◌∷◌, [], All, Bool, List, None, Option, Some, length, map, slice_get};
ghost use Rattle.std.specs.List.{filter_map};
ghost use Rattle.mt_values.specs.declared.manifest.Manifest.{Manifest};
ghost use Rattle.mt_base.specs.declared.name.FileId.{FileId};
ghost use Rattle.mt_base.specs.declared.name.FileId.TheVariants as file;
ghost use Rattle.mt_values.specs.declared.schema.Schema.{Schema};
ghost use Rattle.mt_values.specs.declared.value.ColType.{ColType};
ghost use Rattle.mt_values.specs.Grid.{AreRowsOf, Cells};
ghost use Rattle.mt_values.specs.Manifests.{manifest_bytes};
ghost use Rattle.mt_values.specs.Schemas.{column_types};
ghost use Rattle.mt_values.specs.Values.{FitsType, Row};
ghost use Rattle.mt_outside.specs.Files.{Files, bytes_of};
ghost use Rattle.sha2.specs.Sha256.{sha256};
ghost use Rattle.part_damage.specs.digest_file.Spellings.{IsManifestOf};
ghost use Rattle.part_damage.specs.part_writer.declared.loaded.Loaded.{Loaded};
ghost use Rattle.part_damage.specs.part_writer.PartFiles.{all_synced, content_ids, files_of_part, loaded_of, manifest_of};
ghost use Rattle.part_damage.specs.column_file.Marks.{granules};
ghost use Rattle.part_damage.specs.primary_marks.Keys.{HasMarks};
ghost use Rattle.part_damage.specs.part_writer.PartFiles.{HasIndexes};
ghost use Rattle.part_reader.specs.declared.reading.Part.{Part};
ghost use Rattle.part_reader.specs.declared.reading.PartFault.{PartFault};
ghost use Rattle.part_reader.specs.declared.runs.Run.{Run};
ghost use Rattle.part_reader.specs.Damage.{ExplainsCheck};
ghost use Rattle.part_reader.specs.DamagedFile.{damaged_file};
ghost use Rattle.part_damage.specs.Marks.{mark_for};
ghost use Rattle.part_reader.specs.Faults.{ExplainsAt, ExplainsColumn, ExplainsEach, IsNoDamage};
ghost use Rattle.part_reader.specs.Granules.{ExplainsChosen, ExplainsRun, column_in};
ghost use Rattle.part_reader.specs.Parts.{FolderHolds, HoldsAt, PartHolds};
ghost use Rattle.part_reader.specs.Readings.{ExplainsLeft};
ghost use Rattle.part_damage.specs.Sound.{FirstDamaged, FirstUnder, FirstUnsound, IsLoadedOf, IsManifestFor};

use mt_outside::Dir;

/// A folder with the files that were written of rows holds them. A part whose folder holds rows, and of which their manifest is kept, holds
/// these rows; so it does at any of its columns. The manifest's mark of a file is the one at the file's place.
pub fn parts_hold_what_was_written<D: Dir>()
    ensures sealed { (schema : Schema) (rows : List Row) → AreRowsOf (column_types schema) rows
        → All (λ (row : Row). All FitsType row) rows
        → IsManifestOf (manifest_bytes sha256 (manifest_of schema rows)) (manifest_of schema rows)
        → FolderHolds schema rows (all_synced (files_of_part schema rows)) }
    ensures written { (schema : Schema) (part : Part D) (rows : List Row) (files : Files)
        → D.files part.dir ≡ Some files → part.loaded ≡ loaded_of schema rows
        → FolderHolds schema rows files → PartHolds D.files schema part rows }
    ensures loaded { (schema : Schema) (rows : List Row) (files : Files) → HasMarks schema
        → HasIndexes schema → FolderHolds schema rows files
        → IsLoadedOf schema files (loaded_of schema rows) }
    ensures columns { (schema : Schema) (part : Part D) (places : List ℕ) (rows : List Row)
        → PartHolds D.files schema part rows → All (λ place. place < length schema.columns) places
        → HoldsAt D.files schema part (map file.Column places) rows }
    ensures marks { (schema : Schema) (manifest : Manifest) (place : ℕ) (f : FileId)
        → slice_get (content_ids schema) place ≡ Some f
        → mark_for schema manifest f ≡ slice_get manifest.files place }
{}

/// The function of a part's first damaged file gives what the relation says, which is one file or none; none where the folder holds rows,
/// and not the manifest where what is kept of the part is what its files say.
pub fn damage_is_one_file()
    ensures file { (schema : Schema) (files : Files)
        → FirstDamaged schema files (damaged_file schema files) }
    ensures one { (schema : Schema) (files : Files) (found : Option FileId)
        → FirstDamaged schema files found → damaged_file schema files ≡ found }
    ensures opened { (schema : Schema) (files : Files) (manifest : Manifest)
        (found : Option FileId) → IsManifestFor schema (bytes_of file.Manifest files) manifest
        → FirstUnder schema manifest files found → damaged_file schema files ≡ found }
    ensures written { (schema : Schema) (files : Files) (rows : List Row) → HasMarks schema
        → HasIndexes schema → FolderHolds schema rows files → damaged_file schema files ≡ None }
    ensures loaded { (schema : Schema) (files : Files) (loaded : Loaded)
        → IsLoadedOf schema files loaded → damaged_file schema files ≢ Some file.Manifest }
{}

/// A part of which no file is damaged holds rows. A part holds one list of rows at most, and then no file of which its manifest has a mark
/// is damaged, and none is told by a check.
pub fn sound_parts_hold_rows<D: Dir>()
    ensures some { (schema : Schema) (part : Part D) (files : Files) → HasMarks schema
        → HasIndexes schema → D.files part.dir ≡ Some files → IsLoadedOf schema files part.loaded
        → damaged_file schema files ≡ None → (rows : List Row)
        × PartHolds D.files schema part rows }
    ensures one { (schema : Schema) (part : Part D) (x y : List Row)
        → PartHolds D.files schema part x → PartHolds D.files schema part y → x ≡ y }
    ensures sound { (schema : Schema) (part : Part D) (files : Files) (rows : List Row)
        → D.files part.dir ≡ Some files → PartHolds D.files schema part rows
        → FirstUnsound schema part.loaded.manifest files None }
    ensures checked { (schema : Schema) (part : Part D) (rows : List Row) (fault : PartFault)
        → PartHolds D.files schema part rows
        → ExplainsCheck (D.files part.dir) schema part.loaded fault → IsNoDamage fault }
{}

/// Of a part that holds rows at columns nothing of these is damaged, whatever is read of them: the whole columns; chosen granules, where it
/// is said of each whether it is chosen, of columns of these types, of the columns at these places, or of one; the first granule that is
/// left; and a run of granules.
pub fn held_columns_are_sound<D: Dir>()
    ensures whole { (schema : Schema) (part : Part D) (places : List ℕ) (rows : List Row)
        (columns : List Cells) (fault : PartFault)
        → HoldsAt D.files schema part (map file.Column places) rows
        → map (λ (c : Cells). c.col_type) columns ≡ filter_map (slice_get (column_types schema))
        places → ExplainsEach (ExplainsColumn (D.files part.dir) part.loaded) places columns fault
        → IsNoDamage fault }
    ensures each { (schema : Schema) (part : Part D) (places : List ℕ) (rows : List Row)
        (chosen : List Bool) (columns : List Cells) (fault : PartFault)
        → HoldsAt D.files schema part (map file.Column places) rows
        → length chosen ≡ granules schema.granularity (length rows)
        → map (λ (c : Cells). c.col_type) columns ≡ filter_map (slice_get (column_types schema))
        places → ExplainsEach (λ n t. ExplainsChosen (column_in D.files part n) chosen t) places
        columns fault → IsNoDamage fault }
    ensures chosen { (schema : Schema) (part : Part D) (places : List ℕ) (rows : List Row)
        (chosen : List Bool) (fault : PartFault)
        → HoldsAt D.files schema part (map file.Column places) rows
        → length chosen ≡ granules schema.granularity (length rows)
        → ExplainsAt (λ n t. ExplainsChosen (column_in D.files part n) chosen t)
        (column_types schema) places fault → IsNoDamage fault }
    ensures one { (schema : Schema) (part : Part D) (number : ℕ) (rows : List Row) (t : ColType)
        (chosen : List Bool) (fault : PartFault)
        → HoldsAt D.files schema part (file.Column number ∷ []) rows
        → slice_get (column_types schema) number ≡ Some t
        → length chosen ≡ granules schema.granularity (length rows)
        → ExplainsChosen (column_in D.files part number) chosen t fault → IsNoDamage fault }
    ensures left { (schema : Schema) (part : Part D) (places : List ℕ) (rows : List Row)
        (left : List Bool) (fault : PartFault)
        → HoldsAt D.files schema part (map file.Column places) rows
        → ExplainsAt (λ n t. ExplainsLeft (column_in D.files part n) left t)
        (column_types schema) places fault → IsNoDamage fault }
    ensures run { (schema : Schema) (part : Part D) (places : List ℕ) (rows : List Row)
        (run : Run) (fault : PartFault)
        → HoldsAt D.files schema part (map file.Column places) rows
        → run.first + run.count ≤ granules schema.granularity (length rows)
        → ExplainsAt (λ n t. ExplainsRun (column_in D.files part n) run t)
        (column_types schema) places fault → IsNoDamage fault }
{}
