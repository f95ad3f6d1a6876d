// The columns that a statement names: the schema that a CREATE writes, and the columns that a SELECT prints.
ghost use Rattle.std.specs.Prelude.{◌≡◌, ◌<◌, ◌^◌, IfOk, length, codes};
ghost use Rattle.mt_base.specs.Stops.{Gives};
ghost use Rattle.mt_model.specs.declared.refusal.Refusal.TheVariants as refusal;
ghost use Rattle.mt_model.specs.Reply as reply;

use crate::clauses::{find_column, first_key, first_unknown, schema_written};
use crate::elements::{bound_passed, columns_of};
use crate::refusal::{Reason, Refusal};
use mt_base::{NoMemory, Seq, Stop, Twin};
use mt_values::{Column, CreateText, Name, Schema, SchemaFault, Selected, SkipIndex, all_places};
use std::alloc::Global;

/// The schema that a CREATE writes, or the first thing that it is refused for: the first name in it that should be a
/// column's and is none, a rule of schemas that is broken, too many columns or indexes.
///
/// `Stop::NoMemory` where an allocation failed, and where a place of the columns has no room in the 32 bits of a key's.
#[tactic(auto, using(crate::proofs::SchemaRefusals::refusals_of_text))]
pub fn resolve(alloc: Global, create: &CreateText) -> Result<Schema, Stop<Refusal>>
    ensures { Gives (reply.schema_of_text create.now) result }
{
    let columns = columns_of(alloc, create.elements.as_slice())?;
    if columns.len() > u32::MAX as usize {
        return Err(Stop::NoMemory);
    }
    if let Some(name) = first_unknown(columns.as_slice(), create) {
        return Err(Stop::Refused(Refusal::NoColumn(name.twin(alloc)?)));
    }
    let schema = schema_written(alloc, columns, create)?;
    if let Err(fault) = schema.check_as_written(first_key(create.clauses.as_slice())) {
        return Err(Stop::Refused(refusal_of_schema(alloc, &schema, fault)?));
    }
    if let Some(bound) = bound_passed(create.elements.as_slice()) {
        return Err(Stop::Refused(Refusal::Past(bound)));
    }
    Ok(schema)
}

/// The refusal of a schema for the rule that it breaks.
fn refusal_of_schema(
    alloc: Global,
    schema: &Schema,
    fault: SchemaFault,
) -> Result<Refusal, NoMemory>
    ensures { IfOk result (λ refusal. refusal ≡ reply.refusal_of_schema schema.now fault) }
{
    let columns = schema.columns.as_slice();
    let indexes = schema.indexes.as_slice();
    let reason = reason_of(fault);
    match fault {
        SchemaFault::NoColumns | SchemaFault::NothingToSum | SchemaFault::Granularity => {
            of_no_column(alloc, reason)
        }
        SchemaFault::DoubleKey(place)
        | SchemaFault::NotPrefix(place)
        | SchemaFault::PartitionType(place)
        | SchemaFault::VersionType(place)
        | SchemaFault::SignType(place)
        | SchemaFault::SignKey(place)
        | SchemaFault::SumType(place)
        | SchemaFault::SumKey(place) => of_column(alloc, columns, reason, place as usize),
        SchemaFault::DoubleColumn(place)
        | SchemaFault::AggregateEngine(place)
        | SchemaFault::AggregateKey(place)
        | SchemaFault::AggregateType(place) => of_column(alloc, columns, reason, place),
        SchemaFault::DoubleIndex(place)
        | SchemaFault::IndexGranularity(place)
        | SchemaFault::SetSize(place) => of_index(alloc, indexes, reason, place),
    }
}

/// The reason of a refusal for the rule that a schema breaks.
fn reason_of(fault: SchemaFault) -> Reason
    ensures { result ≡ reply.reason_of fault }
{
    match fault {
        SchemaFault::NoColumns => Reason::NoColumns,
        SchemaFault::DoubleColumn(_) => Reason::DoubleColumn,
        SchemaFault::DoubleIndex(_) => Reason::DoubleIndex,
        SchemaFault::DoubleKey(_) => Reason::DoubleKey,
        SchemaFault::NotPrefix(_) => Reason::NotPrefix,
        SchemaFault::PartitionType(_) => Reason::PartitionType,
        SchemaFault::VersionType(_) => Reason::VersionType,
        SchemaFault::SignType(_) => Reason::SignType,
        SchemaFault::SignKey(_) => Reason::SignKey,
        SchemaFault::SumType(_) => Reason::SumType,
        SchemaFault::SumKey(_) => Reason::SumKey,
        SchemaFault::NothingToSum => Reason::NothingToSum,
        SchemaFault::AggregateEngine(_) => Reason::AggregateEngine,
        SchemaFault::AggregateKey(_) => Reason::AggregateKey,
        SchemaFault::AggregateType(_) => Reason::AggregateType,
        SchemaFault::Granularity => Reason::Granularity,
        SchemaFault::IndexGranularity(_) => Reason::IndexGranularity,
        SchemaFault::SetSize(_) => Reason::SetSize,
    }
}

/// The refusal for a rule that is broken at no column.
fn of_no_column(alloc: Global, reason: Reason) -> Result<Refusal, NoMemory>
    ensures { IfOk result (λ found. found ≡ refusal.Schema reason (codes "-")) }
{
    let name = Seq::from_slice(alloc, b"-".as_slice())?;
    Ok(Refusal::Schema(reason, name))
}

/// The refusal for a rule that is broken at the column at a place.
fn of_column(
    alloc: Global,
    columns: &[Column],
    reason: Reason,
    place: usize,
) -> Result<Refusal, NoMemory>
    ensures { IfOk result
        (λ found. found ≡ refusal.Schema reason (reply.name_at columns.now place)) }
{
    let name = name_at(alloc, columns, place)?;
    Ok(Refusal::Schema(reason, name))
}

/// The refusal for a rule that is broken at the index at a place.
fn of_index(
    alloc: Global,
    indexes: &[SkipIndex],
    reason: Reason,
    place: usize,
) -> Result<Refusal, NoMemory>
    ensures { IfOk result
        (λ found. found ≡ refusal.Schema reason (reply.index_name_at indexes.now place)) }
{
    let name = index_name_at(alloc, indexes, place)?;
    Ok(Refusal::Schema(reason, name))
}

/// The name of the index at a place; an empty one where there is no such index.
fn index_name_at(alloc: Global, indexes: &[SkipIndex], place: usize) -> Result<Name, NoMemory>
    ensures { IfOk result (λ name. name ≡ reply.index_name_at indexes.now place) }
{
    match indexes.get(place) {
        Some(index) => index.name.twin(alloc),
        None => Ok(Seq::new(alloc)),
    }
}

/// The name of the column at a place; an empty one where there is no such column.
fn name_at(alloc: Global, columns: &[Column], place: usize) -> Result<Name, NoMemory>
    ensures { IfOk result (λ name. name ≡ reply.name_at columns.now place) }
{
    match columns.get(place) {
        Some(column) => column.name.twin(alloc),
        None => Ok(Seq::new(alloc)),
    }
}

/// The places of the columns that a SELECT takes, or the first name of it that is no column's.
///
/// `Stop::NoMemory` where an allocation failed.
pub fn selected_columns(
    alloc: Global,
    columns: &[Column],
    selected: &Selected,
) -> Result<Seq<u32>, Stop<Refusal>>
    requires { length columns.now < 2 ^ 32 }
    ensures { Gives (reply.selected_places columns.now selected.now) result }
{
    match selected {
        Selected::All => {
            let places = all_places(alloc, columns.len() as u32)?;
            Ok(Seq::of(places))
        }
        Selected::Named(names) => places_of(alloc, columns, names.as_slice()),
    }
}

/// The places of the columns of these names, or the first name that is no column's.
fn places_of(alloc: Global, columns: &[Column], names: &[Name]) -> Result<Seq<u32>, Stop<Refusal>>
    requires { length columns.now < 2 ^ 32 }
    ensures { Gives (reply.places_of columns.now names.now) result }
{
    let mut places = Seq::new(alloc);
    for name in names {
        let Some(place) = find_column(columns, name) else {
            return Err(Stop::Refused(Refusal::NoColumn(name.twin(alloc)?)));
        };
        places.push(place as u32)?;
    }
    Ok(places)
}
