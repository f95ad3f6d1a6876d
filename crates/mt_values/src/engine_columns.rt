// The columns that an engine names, and which of its rules they break first (docs/engines.md, "Columns").
ghost use Rattle.std.specs.Prelude.{◌≡◌, ◌<◌, ◌^◌, IfOk, length, nat_eq, option_to_list, slice_get};
ghost use Rattle.std.specs.List.{list_any, position};
ghost use Rattle.mt_values.specs.Engines as rules;
ghost use Rattle.mt_values.specs.Schemas.{engine_fault, function_fault, sign_fault, sum_fault};
ghost use Rattle.mt_values.specs.Tables.{has_sign, sorting_columns};
ghost use Rattle.mt_values.specs.declared.schema.SchemaFault.TheVariants as fault;

use crate::{Aggregate, ColType, Column, Engine, Row, Schema, SchemaFault, Value};
use mt_base::{NoMemory, Seq, Twin};
use std::alloc::Global;

impl Engine {
    /// The places of the columns that are summed, from 0. Takes no memory.
    pub fn summed_places(&self) -> &[u32]
        ensures { result.now ≡ rules.summed_places self.now }
    {
        match self {
            Engine::Summing(places) => places.as_slice(),
            _ => &[],
        }
    }

    /// The place of the version, from 0, where there is one. Takes no memory.
    pub fn version_place(&self) -> Option<u32>
        ensures { result ≡ rules.version_place self.now }
    {
        match self {
            Engine::Replacing(version) => *version,
            Engine::Versioned { version, .. } => Some(*version),
            _ => None,
        }
    }

    /// The place of the sign, from 0, where there is one. Takes no memory.
    pub fn sign_place(&self) -> Option<u32>
        ensures { result ≡ rules.sign_place self.now }
    {
        match self {
            Engine::Collapsing(sign) => Some(*sign),
            Engine::Versioned { sign, .. } => Some(*sign),
            _ => None,
        }
    }

    /// Whether columns are folded by their functions.
    fn folds_functions(&self) -> bool
        ensures { result ≡ rules.folds_functions self.now }
    {
        matches!(self, Engine::Aggregating)
    }
}

/// The fault of the columns that the engine of a schema names, or of those that have a function.
pub(crate) fn engine_fault(schema: &Schema) -> Option<SchemaFault>
    ensures { result ≡ engine_fault schema.now }
{
    if let Some(fault) = version_type(schema.columns.as_slice(), schema.engine.version_place()) {
        return Some(fault);
    }
    if let Some(fault) = sign_fault(schema) {
        return Some(fault);
    }
    if let Some(fault) = sum_fault(schema) {
        return Some(fault);
    }
    function_fault(schema)
}

/// The fault of a version that is not unsigned.
fn version_type(columns: &[Column], version: Option<u32>) -> Option<SchemaFault>
    ensures { result ≡
        rules.type_fault rules.is_unsigned fault.VersionType columns.now version }
{
    let place = version?;
    if is_unsigned_at(columns, place) {
        return None;
    }
    Some(SchemaFault::VersionType(place))
}

/// The fault of a sign that is not of the type Int8, or is in the sorting key or the partition column.
fn sign_fault(schema: &Schema) -> Option<SchemaFault>
    ensures { result ≡ sign_fault schema.now }
{
    let place = schema.engine.sign_place()?;
    if !is_of_signs_at(schema.columns.as_slice(), place) {
        return Some(SchemaFault::SignType(place));
    }
    if is_kept_apart(schema.key.as_slice(), schema.partition, place as usize) {
        return Some(SchemaFault::SignKey(place));
    }
    None
}

/// The fault of the columns that are summed.
fn sum_fault(schema: &Schema) -> Option<SchemaFault>
    ensures { result ≡ sum_fault schema.now }
{
    let places = schema.engine.summed_places();
    if let Some(fault) = sum_type(schema.columns.as_slice(), places) {
        return Some(fault);
    }
    if let Some(fault) = sum_key(schema.key.as_slice(), schema.partition, places) {
        return Some(fault);
    }
    nothing_to_sum(&schema.engine)
}

/// The fault of the first column to be summed that has no numbers.
fn sum_type(columns: &[Column], places: &[u32]) -> Option<SchemaFault>
    ensures { result ≡
        rules.first_place (rules.is_not_numeric columns.now) fault.SumType places.now }
{
    for place in places {
        if !is_numeric_at(columns, *place) {
            return Some(SchemaFault::SumType(*place));
        }
    }
    None
}

/// The fault of the first column to be summed that is in the sorting key or the partition column.
fn sum_key(key: &[u32], partition: Option<u32>, places: &[u32]) -> Option<SchemaFault>
    ensures { result ≡
        rules.first_place (rules.is_kept_apart key.now partition) fault.SumKey places.now }
{
    for place in places {
        if is_kept_apart(key, partition, *place as usize) {
            return Some(SchemaFault::SumKey(*place));
        }
    }
    None
}

/// The fault of an engine that sums and has no column to sum.
fn nothing_to_sum(engine: &Engine) -> Option<SchemaFault>
    ensures { result ≡ rules.nothing_fault engine.now }
{
    match engine {
        Engine::Summing(places) if places.is_empty() => Some(SchemaFault::NothingToSum),
        _ => None,
    }
}

/// The fault of the first column with a function where the engine folds none, or else of the first in the sorting key or the
/// partition column, or else of the first whose function does not take its type.
fn function_fault(schema: &Schema) -> Option<SchemaFault>
    ensures { result ≡ function_fault schema.now }
{
    let columns = schema.columns.as_slice();
    if let Some(fault) = aggregate_engine(&schema.engine, columns) {
        return Some(fault);
    }
    if let Some(fault) = aggregate_key(schema.key.as_slice(), schema.partition, columns) {
        return Some(fault);
    }
    match first_misfit(columns) {
        Some(place) => Some(SchemaFault::AggregateType(place)),
        None => None,
    }
}

/// The place of the first column whose function does not take its type.
fn first_misfit(columns: &[Column]) -> Option<usize>
    ensures { result ≡ position rules.is_misfit columns.now }
{
    columns.iter().position(|column| is_misfit(column))
}

/// The place of the first column with a function.
fn first_with_function(columns: &[Column]) -> Option<usize>
    ensures { result ≡ position rules.has_function columns.now }
{
    columns.iter().position(|column| has_function(column))
}

/// The fault of the first column with a function where the engine folds none.
fn aggregate_engine(engine: &Engine, columns: &[Column]) -> Option<SchemaFault>
    ensures { result ≡ rules.aggregate_engine_fault engine.now columns.now }
{
    if engine.folds_functions() {
        return None;
    }
    match first_with_function(columns) {
        Some(place) => Some(SchemaFault::AggregateEngine(place)),
        None => None,
    }
}

/// The fault of the first column with a function that is in the sorting key or the partition column.
fn aggregate_key(key: &[u32], partition: Option<u32>, columns: &[Column]) -> Option<SchemaFault>
    ensures { result ≡ rules.aggregate_key_fault 0 key.now partition columns.now }
{
    for (place, column) in columns.iter().enumerate() {
        if has_function(column) && is_kept_apart(key, partition, place) {
            return Some(SchemaFault::AggregateKey(place));
        }
    }
    None
}

/// Whether the column is a SimpleAggregateFunction.
fn has_function(column: &Column) -> bool
    ensures { result ≡ rules.has_function column.now }
{
    column.function.is_some()
}

/// Whether the column's function does not take its type.
fn is_misfit(column: &Column) -> bool
    ensures { result ≡ rules.is_misfit column.now }
{
    match column.function {
        Some(function) => !takes_type(function, column.col_type),
        None => false,
    }
}

/// Whether the function takes values of the type.
fn takes_type(function: Aggregate, col_type: ColType) -> bool
    ensures { result ≡ rules.takes_type function col_type }
{
    match function {
        Aggregate::Any | Aggregate::AnyLast | Aggregate::Min | Aggregate::Max => true,
        Aggregate::Sum => matches!(col_type, ColType::Int64 | ColType::UInt64),
        Aggregate::BitAnd | Aggregate::BitOr | Aggregate::BitXor => is_unsigned(col_type),
    }
}

/// Whether the column at a place is in the sorting key or is the partition column.
pub fn is_kept_apart(key: &[u32], partition: Option<u32>, place: usize) -> bool
    ensures { result ≡ rules.is_kept_apart key.now partition place }
{
    is_among(key, place) || is_at(partition, place)
}

/// Whether the place is one of these.
fn is_among(places: &[u32], place: usize) -> bool
    ensures { result ≡ list_any (λ own. nat_eq own place) places.now }
{
    places.iter().any(|own| *own as usize == place)
}

/// Whether a place is there, and is this one.
fn is_at(own: Option<u32>, place: usize) -> bool
    ensures { result ≡ rules.is_at own place }
{
    match own {
        Some(own) => own as usize == place,
        None => false,
    }
}

/// Whether the column at a place is there and has unsigned numbers.
pub(crate) fn is_unsigned_at(columns: &[Column], place: u32) -> bool
    ensures { result ≡ rules.has_type_that rules.is_unsigned (slice_get columns.now place) }
{
    match columns.get(place as usize) {
        Some(column) => is_unsigned(column.col_type),
        None => false,
    }
}

/// Whether the column at a place is there and has the type of signs.
fn is_of_signs_at(columns: &[Column], place: u32) -> bool
    ensures { result ≡ rules.has_type_that rules.is_of_signs (slice_get columns.now place) }
{
    match columns.get(place as usize) {
        Some(column) => matches!(column.col_type, ColType::Int8),
        None => false,
    }
}

/// Whether the column at a place is there and has numbers.
fn is_numeric_at(columns: &[Column], place: u32) -> bool
    ensures { result ≡ rules.has_type_that rules.is_numeric (slice_get columns.now place) }
{
    match columns.get(place as usize) {
        Some(column) => is_numeric(column.col_type),
        None => false,
    }
}

/// Whether the type's numbers have no sign.
fn is_unsigned(col_type: ColType) -> bool
    ensures { result ≡ rules.is_unsigned col_type }
{
    match col_type {
        ColType::UInt8 | ColType::UInt16 | ColType::UInt32 | ColType::UInt64 => true,
        _ => false,
    }
}

/// Whether the values of the type are numbers.
pub fn is_numeric(col_type: ColType) -> bool
    ensures { result ≡ rules.is_numeric col_type }
{
    !matches!(col_type, ColType::Text)
}

/// The places of the columns of numbers that neither the sorting key nor the partition column has, from 0.
///
/// `NoMemory` where an allocation failed.
pub fn summable_places(
    alloc: Global,
    columns: &[Column],
    key: &[u32],
    partition: Option<u32>,
) -> Result<Seq<u32>, NoMemory>
    requires { length columns.now < 2 ^ 32 }
    ensures { IfOk result
        (λ places. places ≡ rules.summable_from 0 key.now partition columns.now) }
{
    let mut places = Seq::new(alloc);
    for (place, column) in columns.iter().enumerate() {
        if is_numeric(column.col_type) && !is_kept_apart(key, partition, place) {
            places.push(place as u32)?;
        }
    }
    Ok(places)
}

impl Schema {
    /// The version by which rows of equal keys are sorted, where the sorting key lacks it. Takes no memory.
    pub fn added_version(&self) -> Option<u32>
        ensures { option_to_list result ≡ rules.added_version self.now.engine self.now.key }
    {
        let Engine::Versioned { version, .. } = &self.engine else {
            return None;
        };
        if is_among(self.key.as_slice(), *version as usize) {
            return None;
        }
        Some(*version)
    }

    /// The places of the columns by which rows are sorted, from 0: the sorting key, and the version where it lacks it.
    ///
    /// `NoMemory` where an allocation failed.
    pub fn sorting_places(&self, alloc: Global) -> Result<Seq<u32>, NoMemory>
        ensures { IfOk result (λ places. places ≡ sorting_columns self.now) }
    {
        let mut places = self.key.twin(alloc)?;
        if let Some(version) = self.added_version() {
            places.push(version)?;
        }
        Ok(places)
    }

    /// Whether the sign of a row, where the table has one, is 1 or -1. Takes no memory.
    pub fn has_sign(&self, row: &Row) -> bool
        ensures { result ≡ has_sign self.now row.now }
    {
        match self.engine.sign_place() {
            Some(sign) => is_signed(row, sign),
            None => true,
        }
    }
}

/// Whether the sign of a row, at a place from 0, is 1 or -1. Takes no memory.
fn is_signed(row: &Row, sign: u32) -> bool
    ensures { result ≡ rules.is_signed sign row.now }
{
    match row.as_slice().get(sign as usize) {
        Some(Value::Int8(number)) => *number == 1 || *number == -1,
        _ => false,
    }
}
