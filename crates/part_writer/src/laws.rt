// What the definitions say of the files of a part. The function has an empty body and the laws as its contract.
ghost use Rattle.std.specs.Prelude.{◌≡◌, ℕ, false, List, Some, length, map, slice_get, take};
ghost use Rattle.mt_base.specs.declared.name.FileId.{FileId};
ghost use Rattle.mt_base.specs.declared.name.FileId.TheVariants as file;
ghost use Rattle.mt_values.specs.declared.schema.Schema.{Schema};
ghost use Rattle.mt_values.specs.Values.{Row};
ghost use Rattle.stage_dir.specs.Stages.{has_file};
ghost use Rattle.part_writer.specs.PartFiles.{HasBytes, IsContent, all_synced, content_bytes, content_ids, content_of_part, files_of_part, manifest_of, mark_of};

/// The list of a part's files and the table of them agree: it has each file that is content once, and the manifest
/// has its mark at its place. A folder with these files, each synced, has their bytes.
pub fn content_is_one_list()
    ensures ids { (schema : Schema) (rows : List Row)
        → map (λ (f : FileId × List ℕ). f.0) (content_of_part schema rows) ≡ content_ids schema }
    ensures content { (schema : Schema) (place : ℕ) (f : FileId)
        → slice_get (content_ids schema) place ≡ Some f → IsContent schema f }
    ensures all { (schema : Schema) (f : FileId) → IsContent schema f → (place : ℕ)
        × (slice_get (content_ids schema) place ≡ Some f) }
    ensures once { (schema : Schema) (place : ℕ) (f : FileId)
        → slice_get (content_ids schema) place ≡ Some f
        → has_file f (take place (content_ids schema)) ≡ false }
    ensures manifest { (schema : Schema) → has_file file.Manifest (content_ids schema) ≡ false }
    ensures marks { (schema : Schema) (rows : List Row) (place : ℕ) (f : FileId)
        → slice_get (content_ids schema) place ≡ Some f
        → slice_get (manifest_of schema rows).files place ≡ Some
        (mark_of (content_bytes schema rows f)) }
    ensures sealed { (schema : Schema) (rows : List Row)
        → HasBytes (all_synced (files_of_part schema rows)) (files_of_part schema rows) }
{}
