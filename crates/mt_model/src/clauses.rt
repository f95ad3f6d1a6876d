// What the clauses of a CREATE say: the columns that they name, and the schema that they write.
ghost use Rattle.std.specs.Prelude.{◌≡◌, ◌<◌, ◌^◌, IfOk, IfSome, length, option_copied};
ghost use Rattle.std.specs.Option.{option_and_then};
ghost use Rattle.mt_model.specs.Clauses as said;

use crate::elements::{granules_of, indexes_written, unknown_among_indexes};
use mt_base::{DEFAULT_GRANULARITY, NoMemory, Seq};
use mt_values::{
    Clause, Column, CreateText, Engine, EngineText, KeyOrder, Name, Schema, summable_places,
};
use std::alloc::Global;
use std::slice;

/// The schema that a CREATE with these columns writes, where each of its names is a column's: its primary key is its sorting
/// key where none is given, and its granules have 8192 rows where their number isn't.
///
/// `NoMemory` where an allocation failed.
pub fn schema_written(
    alloc: Global,
    columns: Seq<Column>,
    create: &CreateText,
) -> Result<Schema, NoMemory>
    requires { length columns < 2 ^ 32 }
    ensures { IfOk result
        (λ schema. schema ≡ said.schema_written columns create.now) }
{
    let clauses = create.clauses.as_slice();
    let key = places_named(alloc, columns.as_slice(), sorting_names(clauses))?;
    let primary = places_named(alloc, columns.as_slice(), primary_names(clauses))?;
    let partition = partition_place(columns.as_slice(), clauses);
    let engine = engine_written(
        alloc,
        columns.as_slice(),
        key.as_slice(),
        partition,
        &create.engine,
    )?;
    let indexes = indexes_written(alloc, columns.as_slice(), create.elements.as_slice())?;
    Ok(Schema {
        columns,
        engine,
        key,
        primary,
        partition,
        granularity: granularity_of(clauses),
        indexes,
    })
}

/// The first name of a column in a CREATE, in the order of the text, that is none of these: those of its indexes come first,
/// then those of its engine, then those of its clauses. Takes no memory.
#[tactic(auto, using(crate::proofs::Naming::unknown_before, crate::proofs::Naming::known_before))]
pub fn first_unknown<'a>(columns: &[Column], create: &'a CreateText) -> Option<&'a Name>
    ensures { option_copied result ≡
        said.first_unknown columns.now (said.names_of_text create.now) }
{
    if let Some(name) = unknown_among_indexes(columns, create.elements.as_slice()) {
        return Some(name);
    }
    match unknown_in_engine(columns, &create.engine) {
        Some(name) => Some(name),
        None => unknown_among_clauses(columns, create.clauses.as_slice()),
    }
}

/// The first name that an engine mentions that is no column's.
#[tactic(auto, using(crate::proofs::Naming::unknown_before, crate::proofs::Naming::known_before))]
fn unknown_in_engine<'a>(columns: &[Column], engine: &'a EngineText) -> Option<&'a Name>
    ensures { option_copied result ≡
        said.first_unknown columns.now (said.names_of_engine engine.now) }
{
    match engine {
        EngineText::Plain | EngineText::Aggregating | EngineText::Replacing(None) => None,
        EngineText::Replacing(Some(version)) => unknown_among(columns, slice::from_ref(version)),
        EngineText::Summing(names) => unknown_among(columns, names.as_slice()),
        EngineText::Collapsing(sign) => unknown_among(columns, slice::from_ref(sign)),
        EngineText::Versioned { sign, version } => {
            match unknown_among(columns, slice::from_ref(sign)) {
                Some(name) => Some(name),
                None => unknown_among(columns, slice::from_ref(version)),
            }
        }
    }
}

/// The first name in the clauses, in the order of the text, that is no column's.
#[tactic(auto, using(crate::proofs::Naming::unknown_at, crate::proofs::Naming::unknown_after))]
fn unknown_among_clauses<'a>(columns: &[Column], clauses: &'a [Clause]) -> Option<&'a Name>
    ensures { option_copied result ≡
        said.first_unknown columns.now (said.mentioned clauses.now) }
{
    for clause in clauses {
        if let Some(name) = unknown_in(columns, clause) {
            return Some(name);
        }
    }
    None
}

/// The first name in a clause that is no column's.
fn unknown_in<'a>(columns: &[Column], clause: &'a Clause) -> Option<&'a Name>
    ensures { option_copied result ≡
        said.first_unknown columns.now (said.names_of_clause clause.now) }
{
    match clause {
        Clause::OrderBy(names) => unknown_among(columns, names.as_slice()),
        Clause::PartitionBy(name) => unknown_among(columns, slice::from_ref(name)),
        Clause::PrimaryKey(names) => unknown_among(columns, names.as_slice()),
        Clause::Granularity(_) => None,
    }
}

/// The first of the names that is no column's.
pub fn unknown_among<'a>(columns: &[Column], names: &'a [Name]) -> Option<&'a Name>
    ensures { option_copied result ≡ said.first_unknown columns.now names.now }
{
    for name in names {
        if find_column(columns, name).is_none() {
            return Some(name);
        }
    }
    None
}

/// The key that is written first. Takes no memory.
pub fn first_key(clauses: &[Clause]) -> KeyOrder
    ensures { result ≡ said.first_key clauses.now }
{
    for clause in clauses {
        match clause {
            Clause::OrderBy(_) => return KeyOrder::SortingFirst,
            Clause::PrimaryKey(_) => return KeyOrder::PrimaryFirst,
            _ => {}
        }
    }
    KeyOrder::SortingFirst
}

/// The names of ORDER BY.
fn sorting_names(clauses: &[Clause]) -> &[Name]
    ensures { result.now ≡ said.sorting_names clauses.now }
{
    for clause in clauses {
        if let Clause::OrderBy(names) = clause {
            return names.as_slice();
        }
    }
    &[]
}

/// The names of PRIMARY KEY, or those of ORDER BY where it is not given.
fn primary_names(clauses: &[Clause]) -> &[Name]
    ensures { result.now ≡ said.primary_names clauses.now }
{
    for clause in clauses {
        if let Clause::PrimaryKey(names) = clause {
            return names.as_slice();
        }
    }
    sorting_names(clauses)
}

/// The place of the column of PARTITION BY, where it is given and there is the column.
fn partition_place(columns: &[Column], clauses: &[Clause]) -> Option<u32>
    requires { length columns.now < 2 ^ 32 }
    ensures { result ≡ option_and_then (said.column_place columns.now)
        (said.partition_name clauses.now) }
{
    for clause in clauses {
        if let Clause::PartitionBy(name) = clause {
            return find_column(columns, name).map(|place| place as u32);
        }
    }
    None
}

/// The rows of a granule; each number past their bound gives one more than it.
fn granularity_of(clauses: &[Clause]) -> u32
    ensures { result ≡ said.granularity_of clauses.now }
{
    for clause in clauses {
        if let Clause::Granularity(digits) = clause {
            return granules_of(digits.as_slice());
        }
    }
    DEFAULT_GRANULARITY
}

/// The engine that a text writes, over columns with this sorting key and partition column, each of its names a column's.
///
/// `NoMemory` where an allocation failed.
fn engine_written(
    alloc: Global,
    columns: &[Column],
    key: &[u32],
    partition: Option<u32>,
    engine: &EngineText,
) -> Result<Engine, NoMemory>
    requires { length columns.now < 2 ^ 32 }
    ensures { IfOk result
        (λ e. e ≡ said.engine_written columns.now key.now partition engine.now) }
{
    Ok(match engine {
        EngineText::Plain => Engine::Plain,
        EngineText::Replacing(None) => Engine::Replacing(None),
        EngineText::Replacing(Some(version)) => {
            Engine::Replacing(find_column(columns, version).map(|place| place as u32))
        }
        EngineText::Summing(names) => {
            Engine::Summing(places_summed(alloc, columns, key, partition, names.as_slice())?)
        }
        EngineText::Collapsing(sign) => Engine::Collapsing(place_named(columns, sign)),
        EngineText::Versioned { sign, version } => Engine::Versioned {
            sign: place_named(columns, sign),
            version: place_named(columns, version),
        },
        EngineText::Aggregating => Engine::Aggregating,
    })
}

/// The places of the columns that are summed: those of the list, or where it is not given those of numbers that neither key nor
/// partition has.
fn places_summed(
    alloc: Global,
    columns: &[Column],
    key: &[u32],
    partition: Option<u32>,
    names: &[Name],
) -> Result<Seq<u32>, NoMemory>
    requires { length columns.now < 2 ^ 32 }
    ensures { IfOk result
        (λ places. places ≡ said.places_summed columns.now key.now partition names.now) }
{
    if names.is_empty() {
        return summable_places(alloc, columns, key, partition);
    }
    places_named(alloc, columns, names)
}

/// The place of a column of this name; 0 where there is none.
fn place_named(columns: &[Column], name: &Name) -> u32
    requires { length columns.now < 2 ^ 32 }
    ensures { result ≡ said.place_named columns.now name.now }
{
    match find_column(columns, name) {
        Some(place) => place as u32,
        None => 0,
    }
}

/// The places of those of the names that are columns'.
#[tactic(auto, using(crate::proofs::Naming::named_place, crate::proofs::Naming::unnamed_place))]
fn places_named(alloc: Global, columns: &[Column], names: &[Name]) -> Result<Seq<u32>, NoMemory>
    requires { length columns.now < 2 ^ 32 }
    ensures { IfOk result (λ places. places ≡ said.places_named columns.now names.now) }
{
    let mut places = Seq::new(alloc);
    for name in names {
        let Some(place) = find_column(columns, name) else {
            continue;
        };
        places.push(place as u32)?;
    }
    Ok(places)
}

/// The place of the first column of this name.
pub fn find_column(columns: &[Column], name: &Name) -> Option<usize>
    ensures place { result ≡ said.column_place columns.now name.now }
    ensures within { IfSome result (λ place. place < length columns.now) }
{
    columns.iter().position(|column| column.name == *name)
}
