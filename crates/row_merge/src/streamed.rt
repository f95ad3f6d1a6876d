// Parts merged granule by granule (docs/engines.md, "Merges"): what the rule leaves of a key is appended to the part that is written once
// the key ends.
ghost use Rattle.std.specs.Prelude.{◌≡◌, ◌*◌, ◌≤◌, ◌<◌, ◌^◌, ◌++◌, [], true, ℕ, All, IfOk, List, OnOk, length, is_some};
ghost use Rattle.mt_base.specs.declared.partition.Partition.{Partition};
ghost use Rattle.mt_outside.specs.DiskCauses.{HasDiskCause};
ghost use Rattle.mt_outside.specs.Leaves.{LeavesArm};
ghost use Rattle.mt_values.specs.Grid.{AreRowsOf};
ghost use Rattle.mt_values.specs.Schemas.{column_types};
ghost use Rattle.mt_values.specs.Tables.{has_sign};
ghost use Rattle.mt_values.specs.Values.{Row, types_of};
ghost use Rattle.part_history.specs.mt_model.History.{IsTableSchema};
ghost use Rattle.part_history.specs.mt_model.Partial.{functions_of};
ghost use Rattle.part_reader.specs.part_writer.Growing.{HasRows, IsWhole};
ghost use Rattle.part_reader.specs.part_writer.PartFiles.{HasIndexes};
ghost use Rattle.part_reader.specs.primary_marks.Keys.{HasMarks};
ghost use Rattle.row_merge.specs.Heads.{ahead_of};
ghost use Rattle.row_merge.specs.Held.{IsHeldWithin, IsIdle};
ghost use Rattle.row_merge.specs.Merged.{ArePartRows};
ghost use Rattle.row_merge.specs.MergedParts.{ExplainsMerge, Fails, IsSealedMerge, IsSealedPart, PartsHold, first_rows};
ghost use Rattle.row_merge.specs.Merging.{IsTaken};
ghost use Rattle.row_merge.specs.Streams.{AreInputs, Ends, Grew, HandsOver, HasCurrent, HasMerged, HasMergedTable, HasPending, IsLeft, IsPending, IsUnreadAt, IsWithin, KeepsHeld, LeavesBoth, MayGoOn, TakesTable, WentOn, rests_of};

use crate::choosing::functions_of;
use crate::copied::copy_stream;
use crate::course::{Current, end_key, take_in};
use crate::held::Held;
use crate::passing::append_on;
use crate::streams::{Inputs, Stream, check_shapes, fill_all, next_row, open_whole, plan_of};
use collapse_rules::{CollapsingRule, VersionedRule};
use mt_base::{NoMemory, Seq, Twin};
use mt_outside::{Arm, DiskError};
use mt_values::{Engine, Row, Schema};
use part_history::part_name::PartName;
use part_reader::part_writer::{PartOut, SealedPart, finish_part};
use part_reader::{Part, PartFault};
use part_set::Kept;
use rule_aggregating::AggregatingRule;
use rule_replacing::ReplacingRule;
use rule_replacing::rule_law::RowRule;
use rule_summing::SummingRule;
use std::alloc::Global;

/// The part that a merge makes of parts of one partition, sealed: what the rule of the table's engine leaves of their rows, also where
/// that is no row. It is `merge_streamed`, and how many rows were in memory is not told.
pub fn merge_parts<R: Arm>(
    alloc: Global,
    arm: &mut R,
    schema: &Schema,
    parts: &[Kept<Part<R::Dir>>],
) -> Result<SealedPart<R::Stage>, (PartName, PartFault)>
    requires some { 0 < length parts.now }
    requires schema { IsTableSchema schema.now }
    requires marks { HasMarks schema.now }
    requires indexes { HasIndexes schema.now }

    // What is sealed.
    ensures sealed { R.tells arm.old ≡ true → IfOk result (λ s. (partition : Partition)
        (rows : List (List Row)) → PartsHold R.Dir.files schema.now parts.now rows
        → All (ArePartRows schema.now partition) rows
        → IsSealedMerge schema.now partition rows s.sealed.files s.loaded) }
    ensures holds { R.tells arm.old ≡ true
        → IfOk result (λ s. IsSealedPart schema.now s.sealed.files s.loaded) }
    ensures none_failed { IfOk result (λ s. s.sealed.failed ≡ 0) }

    // What a fault says, and what the arm is then, with its count of faults.
    ensures fails { Fails (ExplainsMerge R.Dir.files schema.now parts.now)
        (LeavesArm R.Arm arm.old arm.new) result }
{
    let mut held = Held::new();
    merge_streamed(alloc, arm, schema, parts, &mut held)
}

/// The part that a merge makes of parts of one partition, sealed: what the rule of the table's engine leaves of their rows, also where
/// that is no row. One granule of each part at most is in memory, beside what the rule keeps of one key and the granule that is written;
/// how many rows these were is told in `held`.
///
/// The name of the part of which a granule could not be read, and why: `Damaged` where its bytes are no spelling of a value for each
/// row, or where another table's columns are kept of it, never where the parts hold rows of the table. `Fault` only where the arm's
/// count rose in this call, `NoMemory` where an allocation failed; where that was while the part was written, the name is that of the
/// first part. After an error the stage was given back to the arm.
pub fn merge_streamed<R: Arm>(
    alloc: Global,
    arm: &mut R,
    schema: &Schema,
    parts: &[Kept<Part<R::Dir>>],
    held: &mut Held,
) -> Result<SealedPart<R::Stage>, (PartName, PartFault)>
    requires some { 0 < length parts.now }
    requires schema { IsTableSchema schema.now }
    requires marks { HasMarks schema.now }
    requires indexes { HasIndexes schema.now }

    // What is sealed.
    ensures sealed { R.tells arm.old ≡ true → IfOk result (λ s. (partition : Partition)
        (rows : List (List Row)) → PartsHold R.Dir.files schema.now parts.now rows
        → All (ArePartRows schema.now partition) rows
        → IsSealedMerge schema.now partition rows s.sealed.files s.loaded) }
    ensures holds { R.tells arm.old ≡ true
        → IfOk result (λ s. IsSealedPart schema.now s.sealed.files s.loaded) }
    ensures none_failed { IfOk result (λ s. s.sealed.failed ≡ 0) }

    // How many rows were in memory, also where it failed.
    ensures held { IsHeldWithin (length parts.now) schema.now.granularity held.new }
    // None is at the end.
    ensures idle { OnOk result (IsIdle held.new) }
    // The first granules of all parts were in memory together.
    ensures reached { length parts.now * schema.now.granularity < 2 ^ 64
        → OnOk result (first_rows schema.now.granularity parts.now ≤ held.new.most_read) }

    // What a fault says, and what the arm is then, with its count of faults.
    ensures fails { Fails (ExplainsMerge R.Dir.files schema.now parts.now)
        (LeavesArm R.Arm arm.old arm.new) result }
{
    *held = Held::new();
    let mut out = match PartOut::begin(alloc, arm, schema) {
        Ok(out) => out,
        Err(error) => return Err((parts[0].name, PartFault::from(error))),
    };
    match merge_into(alloc, arm, schema, parts, held, &mut out) {
        Ok(()) => match finish_part(arm, out) {
            Ok(part) => Ok(part),
            Err(error) => Err((parts[0].name, PartFault::from(error))),
        },
        Err(fault) => {
            out.give_up(arm);
            Err(fault)
        }
    }
}

/// Reads the granules of parts, and merges their rows into a part that is written.
///
/// The errors are those of `merge_streamed`; the part is there to be given up.
fn merge_into<R: Arm>(
    alloc: Global,
    arm: &mut R,
    schema: &Schema,
    parts: &[Kept<Part<R::Dir>>],
    held: &mut Held,
    out: &mut PartOut<R>,
) -> Result<(), (PartName, PartFault)>
    requires some { 0 < length parts.now }
    requires schema { IsTableSchema schema.now }
    requires marks { HasMarks schema.now }
    requires held { IsHeldWithin (length parts.now) schema.now.granularity held.old }
    requires empty { HasRows out.old [] }
    requires table { out.old.grown.schema ≡ schema.now }

    // What is written.
    ensures merged { (partition : Partition) (rows : List (List Row))
        → PartsHold R.Dir.files schema.now parts.now rows
        → All (ArePartRows schema.now partition) rows
        → OnOk result (HasMergedTable schema.now partition rows out.new) }
    ensures whole { OnOk result (IsWhole out.new) }
    ensures table { OnOk result (out.new.grown.schema ≡ schema.now) }
    ensures told { OnOk result (is_some out.new.stage.files ≡ is_some out.old.stage.files) }
    ensures held { IsHeldWithin (length parts.now) schema.now.granularity held.new }
    ensures idle { OnOk result (IsIdle held.new) }
    ensures reached { length parts.now * schema.now.granularity < 2 ^ 64
        → OnOk result (first_rows schema.now.granularity parts.now ≤ held.new.most_read) }

    // What a fault says, and what the arm and the stage are then, with their counts of faults.
    ensures fails { Fails (ExplainsMerge R.Dir.files schema.now parts.now)
        (LeavesBoth R.Arm arm.old arm.new out.old.stage.failed out.new.stage.failed) result }
{
    check_shapes(alloc, schema, parts)?;
    let Ok(plan) = plan_of(alloc, schema, parts) else {
        return Err((parts[0].name, PartFault::NoMemory));
    };
    let inputs = Inputs {
        schema,
        parts,
        places: plan.sorting.as_slice(),
    };
    let Ok(mut stream) = open_whole(alloc, &inputs, &plan) else {
        return Err((parts[0].name, PartFault::NoMemory));
    };
    let merged = merge_opened(alloc, arm, &inputs, &mut stream, out);
    *held = stream.held;
    merged
}

/// Merges the rows of parts of which nothing was read yet into a part that is written.
///
/// The errors are those of `merge_streamed`; the part is there to be given up.
fn merge_opened<R: Arm>(
    alloc: Global,
    arm: &mut R,
    inputs: &Inputs<R::Dir>,
    stream: &mut Stream<R::Dir>,
    out: &mut PartOut<R>,
) -> Result<(), (PartName, PartFault)>
    requires on { MayGoOn inputs.now stream.old out.old }
    requires none { All (λ rows. rows ≡ []) (ahead_of stream.old.cursors.items) }
    requires empty { HasRows out.old [] }

    // What is written.
    ensures merged { (partition : Partition) (rows : List (List Row))
        → PartsHold R.Dir.files inputs.now.schema.now inputs.now.parts.now rows
        → rests_of stream.old.readers.items rows ≡ rows
        → All (ArePartRows inputs.now.schema.now partition) rows
        → OnOk result (HasMergedTable inputs.now.schema.now partition rows out.new) }
    ensures on { OnOk result (MayGoOn inputs.now stream.new out.new) }
    ensures told { OnOk result (is_some out.new.stage.files ≡ is_some out.old.stage.files) }
    ensures most { IsWithin inputs.now stream.new.held }
    ensures idle { OnOk result (IsIdle stream.new.held) }
    ensures reached { length inputs.now.parts.now * inputs.now.schema.now.granularity < 2 ^ 64
        → ((j : ℕ) → IsUnreadAt stream.old.readers.items j)
        → OnOk result (first_rows inputs.now.schema.now.granularity inputs.now.parts.now
        ≤ stream.new.held.most_read) }

    // What a fault says, and what the arm and the stage are then, with their counts of faults.
    ensures fails { Fails (ExplainsMerge R.Dir.files inputs.now.schema.now inputs.now.parts.now)
        (LeavesBoth R.Arm arm.old arm.new out.old.stage.failed out.new.stage.failed) result }
{
    fill_all(alloc, arm, inputs, stream)?;
    merge_by_engine(alloc, arm, inputs, stream, out)
}

// ---- the rule of the table's engine

/// Merges the rows of parts by the rule of the table's engine into a part that is written.
///
/// The errors are those of `merge_streamed`; the part is there to be given up.
fn merge_by_engine<R: Arm>(
    alloc: Global,
    arm: &mut R,
    inputs: &Inputs<R::Dir>,
    stream: &mut Stream<R::Dir>,
    out: &mut PartOut<R>,
) -> Result<(), (PartName, PartFault)>
    requires on { MayGoOn inputs.now stream.old out.old }
    requires empty { HasRows out.old [] }

    // What is written.
    ensures merged { (partition : Partition) (rows : List (List Row))
        → PartsHold R.Dir.files inputs.now.schema.now inputs.now.parts.now rows
        → IsLeft stream.old rows rows → All (ArePartRows inputs.now.schema.now partition) rows
        → OnOk result (HasMergedTable inputs.now.schema.now partition rows out.new) }
    ensures on { OnOk result (WentOn inputs.now stream.old stream.new out.old out.new) }
    ensures most { IsWithin inputs.now stream.new.held }
    ensures idle { OnOk result (IsIdle stream.new.held) }

    // What a fault says, and what the arm and the stage are then, with their counts of faults.
    ensures fails { Fails (ExplainsMerge R.Dir.files inputs.now.schema.now inputs.now.parts.now)
        (LeavesBoth R.Arm arm.old arm.new out.old.stage.failed out.new.stage.failed) result }
{
    match &inputs.schema.engine {
        Engine::Plain => copy_stream(alloc, arm, inputs, stream, out),
        Engine::Replacing(version) => {
            let rule = ReplacingRule { version: *version };
            merge_stream(alloc, arm, inputs, stream, &rule, out)
        }
        Engine::Summing(places) => {
            let Ok(rule) = summing_rule(alloc, inputs.schema, places) else {
                return Err((inputs.parts[0].name, PartFault::NoMemory));
            };
            merge_stream(alloc, arm, inputs, stream, &rule, out)
        }
        Engine::Collapsing(sign) => {
            let rule = CollapsingRule { sign: *sign };
            merge_stream(alloc, arm, inputs, stream, &rule, out)
        }
        Engine::Versioned { sign, version } => {
            let rule = VersionedRule {
                sign: *sign,
                version: *version,
            };
            merge_stream(alloc, arm, inputs, stream, &rule, out)
        }
        Engine::Aggregating => {
            let Ok(rule) = aggregating_rule(alloc, inputs.schema) else {
                return Err((inputs.parts[0].name, PartFault::NoMemory));
            };
            merge_stream(alloc, arm, inputs, stream, &rule, out)
        }
    }
}

/// The rule of a table of SummingMergeTree that sums these columns.
///
/// `NoMemory` where an allocation failed.
pub(crate) fn summing_rule(
    alloc: Global,
    schema: &Schema,
    places: &Seq<u32>,
) -> Result<SummingRule, NoMemory>
    ensures types { IfOk result (λ rule. rule.types ≡ column_types schema.now) }
    ensures places { IfOk result (λ rule. rule.places ≡ places.now) }
{
    Ok(SummingRule {
        types: schema.types(alloc)?,
        places: places.twin(alloc)?,
    })
}

/// The rule of a table of AggregatingMergeTree.
///
/// `NoMemory` where an allocation failed.
pub(crate) fn aggregating_rule(alloc: Global, schema: &Schema) -> Result<AggregatingRule, NoMemory>
    ensures types { IfOk result (λ rule. rule.types ≡ column_types schema.now) }
    ensures functions { IfOk result (λ rule. rule.functions ≡ functions_of schema.now) }
{
    Ok(AggregatingRule {
        types: schema.types(alloc)?,
        functions: functions_of(alloc, schema)?,
    })
}

// ---- a merge by a rule

/// Merges the rows of parts by a rule into a part that is written.
///
/// The errors are those of `merge_streamed`; the part is there to be given up.
fn merge_stream<R: Arm, Q: RowRule>(
    alloc: Global,
    arm: &mut R,
    inputs: &Inputs<R::Dir>,
    stream: &mut Stream<R::Dir>,
    rule: &Q,
    out: &mut PartOut<R>,
) -> Result<(), (PartName, PartFault)>
    requires on { MayGoOn inputs.now stream.old out.old }
    requires takes { TakesTable (Q.takes rule.now) inputs.now.schema.now }
    requires empty { HasRows out.old [] }

    // What is written.
    ensures merged { (partition : Partition) (rows : List (List Row))
        → Q.apart rule.now inputs.now.places.now
        → PartsHold R.Dir.files inputs.now.schema.now inputs.now.parts.now rows
        → IsLeft stream.old rows rows → All (ArePartRows inputs.now.schema.now partition) rows
        → OnOk result (HasMerged inputs.now.places.now (Q.run rule.now) rows out.new) }
    ensures on { OnOk result (WentOn inputs.now stream.old stream.new out.old out.new) }
    ensures most { IsWithin inputs.now stream.new.held }
    ensures idle { OnOk result (IsIdle stream.new.held) }

    // What a fault says, and what the arm and the stage are then, with their counts of faults.
    ensures fails { Fails (ExplainsMerge R.Dir.files inputs.now.schema.now inputs.now.parts.now)
        (LeavesBoth R.Arm arm.old arm.new out.old.stage.failed out.new.stage.failed) result }
{
    let mut current = None;
    let mut order = Vec::new(alloc);
    'rows: while let Some(row) = next_row(alloc, arm, inputs, stream)? {
        let Ok((kept, new)) = hand_over(alloc, inputs, rule, current, row) else {
            return Err((inputs.parts[0].name, PartFault::NoMemory));
        };
        match append_on(alloc, inputs, stream, rule, &kept, new, &mut order, out) {
            Ok(now) => current = now,
            Err(error) => return Err((inputs.parts[0].name, PartFault::from(error))),
        }
    }
    match end_merge(alloc, rule, current, &mut stream.held, out) {
        Ok(()) => Ok(()),
        Err(error) => Err((inputs.parts[0].name, PartFault::from(error))),
    }
}

/// Hands a row to the rule. What is left of the key before it comes out, where the row is the first of another one, else nothing. A row
/// without the sign that its table asks for, which only damage brings about, ends the key before it and comes out as it is, so that it is
/// not lost.
///
/// `NoMemory` where an allocation failed.
pub(crate) fn hand_over<F, Q: RowRule>(
    alloc: Global,
    inputs: &Inputs<F>,
    rule: &Q,
    current: Option<Current<Q::State>>,
    row: Row,
) -> Result<(Vec<Row>, Option<Current<Q::State>>), NoMemory>
    requires takes { TakesTable (Q.takes rule.now) inputs.now.schema.now }
    requires inputs { AreInputs inputs.now }
    requires typed { types_of row ≡ column_types inputs.now.schema.now }
    ensures hands { IfOk result (λ p. (rows : List (List Row)) (done : List Row)
        (before left : List (List Row)) → Q.apart rule.now inputs.now.places.now
        → has_sign inputs.now.schema.now row ≡ true → HandsOver inputs.now.places.now
        (Q.run rule.now) (Q.holds rule.now) (Q.takes rule.now) (column_types inputs.now.schema.now)
        rows done before current → IsTaken inputs.now.places.now before row left
        → HandsOver inputs.now.places.now (Q.run rule.now) (Q.holds rule.now) (Q.takes rule.now)
        (column_types inputs.now.schema.now) rows (done ++ p.0.items) left p.1) }
    // Whatever the order of the rows.
    ensures typed { IfOk result (λ p.
        HasCurrent (Q.holds rule.now) (Q.takes rule.now) inputs.now current
        → AreRowsOf (column_types inputs.now.schema.now) p.0.items) }
    ensures current { IfOk result (λ p.
        HasCurrent (Q.holds rule.now) (Q.takes rule.now) inputs.now current
        → HasCurrent (Q.holds rule.now) (Q.takes rule.now) inputs.now p.1) }
{
    if inputs.schema.has_sign(&row) {
        let (kept, new) = take_in(alloc, rule, inputs.places, current, row)?;
        return Ok((kept, Some(new)));
    }
    let mut left = end_key(alloc, rule, current)?;
    left.push(row)?;
    Ok((left, None))
}

/// Ends the last key, and appends what is left of it to the part that is written.
///
/// `Fault` only where the count of the part's stage rose, `NoMemory` where an allocation failed. After an error the part can only be given
/// up.
pub(crate) fn end_merge<R: Arm, Q: RowRule>(
    alloc: Global,
    rule: &Q,
    current: Option<Current<Q::State>>,
    held: &mut Held,
    out: &mut PartOut<R>,
) -> Result<(), DiskError>
    requires current { HasPending (Q.holds rule.now) (Q.takes rule.now)
        (column_types out.old.grown.schema) current }
    requires whole { IsWhole out.old }
    requires made { held.old.made ≡ 0 }

    // What is appended.
    ensures leaves { (done pending : List Row) → HasRows out.old done → IsPending (Q.holds rule.now)
        (Q.takes rule.now) (column_types out.old.grown.schema) current pending
        → OnOk result (Ends (Q.run rule.now) done pending out.new) }
    ensures grew { OnOk result (Grew out.old out.new) }
    ensures held { KeepsHeld held.old held.new }
    ensures made { OnOk result (held.new.made ≡ 0) }
    ensures cause { HasDiskCause out.old.stage.failed out.new.stage.failed result }
{
    let kept = end_key(alloc, rule, current)?;
    append(&kept, held, out)
}

/// Appends rows that came out at once to the part that is written.
///
/// `Fault` only where the count of the part's stage rose, `NoMemory` where an allocation failed. After an error the part can only be given
/// up.
pub(crate) fn append<R: Arm>(
    rows: &[Row],
    held: &mut Held,
    out: &mut PartOut<R>,
) -> Result<(), DiskError>
    requires whole { IsWhole out.old }
    requires typed { AreRowsOf (column_types out.old.grown.schema) rows.now }
    requires made { held.old.made ≡ 0 }

    // What is appended.
    ensures rows { (done : List Row) → HasRows out.old done
        → OnOk result (HasRows out.new (done ++ rows.now)) }
    ensures grew { OnOk result (Grew out.old out.new) }

    // How many rows are in memory then.
    ensures held { KeepsHeld held.old held.new }
    ensures made { OnOk result (held.new.made ≡ 0) }
    ensures given { OnOk result (length rows.now ≤ held.new.most_given) }

    ensures cause { HasDiskCause out.old.stage.failed out.new.stage.failed result }
{
    held.gave(rows.len() as u64);
    for row in rows {
        out.push(row)?;
        held.appended(1);
    }
    Ok(())
}
