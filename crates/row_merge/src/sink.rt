// Where the rows go that the rule leaves of a key, once the key ends, and the loop over a stream that gives them. The loop of `streamed` is
// over a part that is written, which may take rows as columns: that is no sink, since a trait's method can't call what is generic over an arm.
ghost use Rattle.std.specs.Prelude.{◌≡◌, ◌≤◌, ◌<◌, ◌++◌, [], ℕ, All, List, OnOk, length};
ghost use Rattle.mt_base.specs.declared.partition.Partition.{Partition};
ghost use Rattle.mt_outside.specs.DiskCauses.{HasDiskCause};
ghost use Rattle.mt_values.specs.Grid.{AreRowsOf};
ghost use Rattle.mt_values.specs.Schemas.{column_types};
ghost use Rattle.mt_values.specs.Values.{Row};
ghost use Rattle.mt_values.specs.declared.value.ColType.{ColType};
ghost use Rattle.row_merge.specs.Heads.{ahead_of};
ghost use Rattle.row_merge.specs.Merged.{ArePartRows};
ghost use Rattle.row_merge.specs.MergedParts.{Fails, PartsHold};
ghost use Rattle.row_merge.specs.Sinks.{GetsFold, GetsLast, GetsMerged, GetsSome};
ghost use Rattle.row_merge.specs.Streams.{AreShaped, ExplainsStream, HasPending, IsLeft, IsPending, IsStream, IsWithin, KeepsHeld, LeavesBoth, TakesTable, rests_of};

use crate::course::{Current, end_key};
use crate::held::Held;
use crate::streamed::{aggregating_rule, hand_over, summing_rule};
use crate::streams::{Inputs, Stream, fill_all, next_row};
use collapse_rules::{CollapsingRule, VersionedRule};
use mt_outside::{Arm, DiskError};
use mt_values::{Engine, Row};
use part_history::part_name::PartName;
use part_reader::PartFault;
use rule_replacing::rule_law::RowRule;
use rule_replacing::{PlainRule, ReplacingRule};
use std::alloc::Global;

/// What gets the rows that a merge leaves, those of each key at once.
pub trait RowSink {
    /// It may get rows: it did not refuse any.
    ghost ready: { Self → Type 0 };

    /// The types of the columns of the rows that it gets.
    ghost types: { Self → List ColType };

    /// It got these rows, after those that it had.
    ghost gets: { Self → List Row → Self → Type 0 };

    /// How many of its calls had a fault.
    ghost failed: { Self → ℕ };

    /// Gives it rows, which come after those that it has.
    ///
    /// `Fault` only where its count rose in this call, `NoMemory` where an allocation failed. After an error it can only be given up.
    fn add_rows(&mut self, rows: &[Row]) -> Result<(), DiskError>
        requires ready { ready self.old }
        requires typed { AreRowsOf (types self.old) rows.now }
        ensures gets { OnOk result (gets self.old rows.now self.new) }
        ensures cause { HasDiskCause (failed self.old) (failed self.new) result };

    /// As it is, it got no row.
    ghost gets_none: { (sink : Self) → ready sink → gets sink [] sink };

    /// Rows that it got one after another it got together.
    ghost gets_more: { (first mid last : Self) (rows others : List Row) → gets first rows mid
        → gets mid others last → gets first (rows ++ others) last };

    /// What got rows may get more of the same types.
    ghost stays: { (old new : Self) (rows : List Row) → ready old → gets old rows new
        → ready new × (types new ≡ types old) };
}

// ---- a merge into a sink

/// Merges the rows of parts of which nothing was read yet, and gives what is left to a sink.
///
/// The errors are those of `merge_chosen`; the sink is there to be given up.
pub(crate) fn fold_opened<R: Arm, T: RowSink>(
    alloc: Global,
    arm: &mut R,
    inputs: &Inputs<R::Dir>,
    stream: &mut Stream<R::Dir>,
    out: &mut T,
) -> Result<(), (PartName, PartFault)>
    requires stream { IsStream inputs.now stream.old }
    requires none { All (λ rows. rows ≡ []) (ahead_of stream.old.cursors.items) }
    requires ready { T.ready out.old }
    requires types { T.types out.old ≡ column_types inputs.now.schema.now }

    // What the sink gets.
    ensures merged { (partition : Partition) (rows : List (List Row))
        → PartsHold R.Dir.files inputs.now.schema.now inputs.now.parts.now rows
        → All (ArePartRows inputs.now.schema.now partition)
        (rests_of stream.old.readers.items rows) → OnOk result (GetsMerged T.gets
        inputs.now.schema.now partition (rests_of stream.old.readers.items rows) out.old out.new) }
    ensures gets { OnOk result (GetsSome T.gets out.old out.new) }

    // How many rows were in memory.
    ensures most { AreShaped inputs.now → IsWithin inputs.now stream.new.held }

    // What a fault says, and what the arm and the sink are then, with their counts of faults.
    ensures fails { Fails (ExplainsStream R.Dir.files inputs.now stream.old.readers.items)
        (LeavesBoth R.Arm arm.old arm.new (T.failed out.old) (T.failed out.new)) result }
{
    fill_all(alloc, arm, inputs, stream)?;
    fold_by_engine(alloc, arm, inputs, stream, out)
}

/// Merges the rows of parts by the rule of the table's engine, and gives what is left to a sink.
///
/// The errors are those of `merge_chosen`; the sink is there to be given up.
fn fold_by_engine<R: Arm, T: RowSink>(
    alloc: Global,
    arm: &mut R,
    inputs: &Inputs<R::Dir>,
    stream: &mut Stream<R::Dir>,
    out: &mut T,
) -> Result<(), (PartName, PartFault)>
    requires stream { IsStream inputs.now stream.old }
    requires ready { T.ready out.old }
    requires types { T.types out.old ≡ column_types inputs.now.schema.now }

    // What the sink gets.
    ensures merged { (partition : Partition) (rows left : List (List Row))
        → PartsHold R.Dir.files inputs.now.schema.now inputs.now.parts.now rows
        → IsLeft stream.old rows left → All (ArePartRows inputs.now.schema.now partition) left
        → OnOk result
        (GetsMerged T.gets inputs.now.schema.now partition left out.old out.new) }
    ensures gets { OnOk result (GetsSome T.gets out.old out.new) }

    // How many rows were in memory.
    ensures most { AreShaped inputs.now → IsWithin inputs.now stream.new.held }

    // What a fault says, and what the arm and the sink are then, with their counts of faults.
    ensures fails { Fails (ExplainsStream R.Dir.files inputs.now stream.old.readers.items)
        (LeavesBoth R.Arm arm.old arm.new (T.failed out.old) (T.failed out.new)) result }
{
    match &inputs.schema.engine {
        Engine::Plain => fold_stream(alloc, arm, inputs, stream, &PlainRule, out),
        Engine::Replacing(version) => {
            let rule = ReplacingRule { version: *version };
            fold_stream(alloc, arm, inputs, stream, &rule, out)
        }
        Engine::Summing(places) => {
            let Ok(rule) = summing_rule(alloc, inputs.schema, places) else {
                return Err((inputs.parts[0].name, PartFault::NoMemory));
            };
            fold_stream(alloc, arm, inputs, stream, &rule, out)
        }
        Engine::Collapsing(sign) => {
            let rule = CollapsingRule { sign: *sign };
            fold_stream(alloc, arm, inputs, stream, &rule, out)
        }
        Engine::Versioned { sign, version } => {
            let rule = VersionedRule {
                sign: *sign,
                version: *version,
            };
            fold_stream(alloc, arm, inputs, stream, &rule, out)
        }
        Engine::Aggregating => {
            let Ok(rule) = aggregating_rule(alloc, inputs.schema) else {
                return Err((inputs.parts[0].name, PartFault::NoMemory));
            };
            fold_stream(alloc, arm, inputs, stream, &rule, out)
        }
    }
}

/// Merges the rows of parts by a rule, and gives what is left of each key to a sink once the key ends.
///
/// The errors are those of `merge_chosen`; the sink is there to be given up.
fn fold_stream<R: Arm, Q: RowRule, T: RowSink>(
    alloc: Global,
    arm: &mut R,
    inputs: &Inputs<R::Dir>,
    stream: &mut Stream<R::Dir>,
    rule: &Q,
    out: &mut T,
) -> Result<(), (PartName, PartFault)>
    requires stream { IsStream inputs.now stream.old }
    requires takes { TakesTable (Q.takes rule.now) inputs.now.schema.now }
    requires ready { T.ready out.old }
    requires types { T.types out.old ≡ column_types inputs.now.schema.now }

    // What the sink gets.
    ensures merged { (partition : Partition) (rows left : List (List Row))
        → Q.apart rule.now inputs.now.places.now
        → PartsHold R.Dir.files inputs.now.schema.now inputs.now.parts.now rows
        → IsLeft stream.old rows left → All (ArePartRows inputs.now.schema.now partition) left
        → OnOk result
        (GetsFold T.gets inputs.now.places.now (Q.run rule.now) left out.old out.new) }
    ensures gets { OnOk result (GetsSome T.gets out.old out.new) }

    // How many rows were in memory.
    ensures most { AreShaped inputs.now → IsWithin inputs.now stream.new.held }

    // What a fault says, and what the arm and the sink are then, with their counts of faults.
    ensures fails { Fails (ExplainsStream R.Dir.files inputs.now stream.old.readers.items)
        (LeavesBoth R.Arm arm.old arm.new (T.failed out.old) (T.failed out.new)) result }
{
    let mut current = None;
    'rows: while let Some(row) = next_row(alloc, arm, inputs, stream)? {
        let Ok((kept, new)) = hand_over(alloc, inputs, rule, current, row) else {
            return Err((inputs.parts[0].name, PartFault::NoMemory));
        };
        match give(&kept, &mut stream.held, out) {
            Ok(()) => current = new,
            Err(error) => return Err((inputs.parts[0].name, PartFault::from(error))),
        }
    }
    match end_fold(alloc, rule, current, &mut stream.held, out) {
        Ok(()) => Ok(()),
        Err(error) => Err((inputs.parts[0].name, PartFault::from(error))),
    }
}

/// Ends the last key, and gives what is left of it to a sink.
///
/// `Fault` only where the sink's count rose, `NoMemory` where an allocation failed. After an error the sink can only be given up.
fn end_fold<T: RowSink, Q: RowRule>(
    alloc: Global,
    rule: &Q,
    current: Option<Current<Q::State>>,
    held: &mut Held,
    out: &mut T,
) -> Result<(), DiskError>
    requires current { HasPending (Q.holds rule.now) (Q.takes rule.now) (T.types out.old) current }
    requires ready { T.ready out.old }
    requires made { held.old.made ≡ 0 }

    // What the sink gets.
    ensures leaves { (pending : List Row) → IsPending (Q.holds rule.now) (Q.takes rule.now)
        (T.types out.old) current pending
        → OnOk result (GetsLast T.gets (Q.run rule.now) pending out.old out.new) }
    ensures gets { OnOk result (GetsSome T.gets out.old out.new) }

    ensures held { KeepsHeld held.old held.new }
    ensures cause { HasDiskCause (T.failed out.old) (T.failed out.new) result }
{
    let kept = end_key(alloc, rule, current)?;
    give(&kept, held, out)
}

/// Gives rows that came out at once to a sink, and counts them meanwhile.
///
/// `Fault` only where the sink's count rose, `NoMemory` where an allocation failed. After an error the sink can only be given up.
fn give<T: RowSink>(rows: &[Row], held: &mut Held, out: &mut T) -> Result<(), DiskError>
    requires ready { T.ready out.old }
    requires typed { AreRowsOf (T.types out.old) rows.now }
    requires made { held.old.made ≡ 0 }

    ensures gets { OnOk result (T.gets out.old rows.now out.new) }

    // How many rows are in memory then.
    ensures held { KeepsHeld held.old held.new }
    ensures made { OnOk result (held.new.made ≡ 0) }
    ensures given { OnOk result (length rows.now ≤ held.new.most_given) }

    ensures cause { HasDiskCause (T.failed out.old) (T.failed out.new) result }
{
    held.gave(rows.len() as u64);
    out.add_rows(rows)?;
    held.appended(rows.len() as u64);
    Ok(())
}
