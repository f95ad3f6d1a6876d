// Parts of which chosen granules alone are read, merged as those of a whole merge are (docs/engines.md, "FINAL").
ghost use Rattle.std.specs.Prelude.{◌≡◌, ◌<◌, ◌^◌, [], All, IfOk, List, OnOk, length};
ghost use Rattle.mt_base.specs.declared.partition.Partition.{Partition};
ghost use Rattle.mt_values.specs.Schemas.{column_types};
ghost use Rattle.mt_values.specs.Tables.{sorting_columns};
ghost use Rattle.mt_values.specs.Values.{Row};
ghost use Rattle.part_history.specs.mt_model.History.{IsTableSchema};
ghost use Rattle.row_merge.specs.Heads.{ahead_of};
ghost use Rattle.row_merge.specs.Merged.{ArePartRows};
ghost use Rattle.row_merge.specs.MergedParts.{ExplainsWholes, Fails, PartsHold, chosen_inputs, column_places};
ghost use Rattle.row_merge.specs.Sinks.{GetsMerged, GetsSome};
ghost use Rattle.row_merge.specs.Streams.{AreInputs, IsStream, LeavesBoth, chosen_readers, share};

use crate::sink::{RowSink, fold_opened};
use crate::streams::{Inputs, Stream, open_stream, share_of};
use mt_base::{NoMemory, Seq};
use mt_outside::{Arm, Dir};
use mt_values::{Schema, all_places};
use part_history::part_name::PartName;
use part_reader::{Part, PartFault, PartRows};
use part_set::Kept;
use std::alloc::Global;

/// Merges the rows of the chosen granules of parts of one partition by the rule of the table's engine, and gives what is left of each key
/// to a sink once the key ends. One granule of each part at most is in memory, beside what the rule keeps of one key.
///
/// The name of the part of which a granule could not be read, and why: `Damaged` where its bytes are no spelling of a value for each row,
/// never where the parts hold rows of the table, and it is said of each of their granules whether it is chosen. `Fault` only where the
/// arm's count rose in this call, or the sink's; `NoMemory` where an allocation failed; where that was while rows were merged or given
/// to the sink, the name is that of the first part. After an error the sink is there to be given up.
pub fn merge_chosen<R: Arm, T: RowSink>(
    alloc: Global,
    arm: &mut R,
    schema: &Schema,
    parts: &[Kept<Part<R::Dir>>],
    chosen: &[Seq<bool>],
    out: &mut T,
) -> Result<(), (PartName, PartFault)>
    requires some { 0 < length parts.now }
    requires schema { IsTableSchema schema.now }
    requires chosen { length chosen.now ≡ length parts.now }
    requires ready { T.ready out.old }
    requires types { T.types out.old ≡ column_types schema.now }

    // What the sink gets.
    ensures merged { (partition : Partition) (rows : List (List Row))
        → PartsHold R.Dir.files schema.now parts.now rows
        → All (ArePartRows schema.now partition)
        (chosen_inputs schema.now.granularity chosen.now rows)
        → OnOk result (GetsMerged T.gets schema.now partition
        (chosen_inputs schema.now.granularity chosen.now rows) out.old out.new) }
    ensures gets { OnOk result (GetsSome T.gets out.old out.new) }

    // What a fault says, and what the arm and the sink are then, with their counts of faults.
    ensures fails { Fails (ExplainsWholes R.Dir.files schema.now parts.now chosen.now)
        (LeavesBoth R.Arm arm.old arm.new (T.failed out.old) (T.failed out.new)) result }
{
    let Ok((sorting, columns)) = columns_of(alloc, schema) else {
        return Err((parts[0].name, PartFault::NoMemory));
    };
    let places = sorting.as_slice();
    let all = columns.as_slice();
    let inputs = Inputs {
        schema,
        parts,
        places,
    };
    let Ok(mut stream) = open_chosen(alloc, &inputs, chosen, all) else {
        return Err((parts[0].name, PartFault::NoMemory));
    };
    fold_opened(alloc, arm, &inputs, &mut stream, out)
}

/// The places of the columns by which a table's rows are sorted, and those of all columns.
///
/// `NoMemory` where an allocation failed.
fn columns_of(alloc: Global, schema: &Schema) -> Result<(Seq<u32>, Vec<u32>), NoMemory>
    requires few { length schema.now.columns < 2 ^ 32 }
    ensures sorting { IfOk result (λ p. p.0 ≡ sorting_columns schema.now) }
    ensures columns { IfOk result (λ p. p.1.items ≡ column_places schema.now) }
{
    let sorting = schema.sorting_places(alloc)?;
    let columns = all_places(alloc, schema.columns.len() as u32)?;
    Ok((sorting, columns))
}

/// The parts as their chosen granules are read. No row was read yet.
///
/// `NoMemory` where an allocation failed.
fn open_chosen<'a, F: Dir>(
    alloc: Global,
    inputs: &Inputs<'a, F>,
    chosen: &'a [Seq<bool>],
    columns: &'a [u32],
) -> Result<Stream<'a, F>, NoMemory>
    requires inputs { AreInputs inputs.now }
    requires chosen { length chosen.now ≡ length inputs.now.parts.now }
    requires columns { columns.now ≡ column_places inputs.now.schema.now }
    ensures stream { IfOk result (IsStream inputs.now) }
    ensures none { IfOk result (λ s. All (λ rows. rows ≡ []) (ahead_of s.cursors.items)) }
    ensures readers { IfOk result (λ s. s.readers.items ≡ chosen_readers
        inputs.now.schema.now columns.now (share (length inputs.now.parts.now) (length columns.now))
        inputs.now.parts.now chosen.now) }
{
    let readers = read_chosen(alloc, inputs.schema, inputs.parts, chosen, columns)?;
    open_stream(alloc, inputs, readers)
}

/// Readers of these columns of the chosen granules of each part. Nothing is read yet.
///
/// `NoMemory` where an allocation failed.
fn read_chosen<'a, F: Dir>(
    alloc: Global,
    schema: &'a Schema,
    parts: &'a [Kept<Part<F>>],
    chosen: &'a [Seq<bool>],
    columns: &'a [u32],
) -> Result<Vec<PartRows<'a, F>>, NoMemory>
    requires chosen { length chosen.now ≡ length parts.now }
    requires columns { All (λ place. place < length schema.now.columns) columns.now }
    ensures { IfOk result (λ v. v.items ≡ chosen_readers schema.now columns.now
        (share (length parts.now) (length columns.now)) parts.now chosen.now) }
{
    let most = share_of(parts.len(), columns.len());
    let mut readers = Vec::new(alloc);
    for (number, kept) in parts.iter().enumerate() {
        let own = chosen[number].as_slice();
        let reader = PartRows::new(alloc, schema, &kept.part, own, columns, most)?;
        readers.push(reader)?;
    }
    Ok(readers)
}
