// The columns of a table, its engine, its keys, its partition column, the size of its granules and its skip indexes.
ghost use Rattle.std.specs.Prelude.{◌≡◌, ◌∷◌, [], None, Some, IfOk, MatchResult, nat_eq};
ghost use Rattle.std.specs.Cmp.Lexicographic.{pointwise};
ghost use Rattle.std.specs.List.{list_any, position};
ghost use Rattle.mt_values.specs.declared.schema.KeyOrder.{KeyOrder};
ghost use Rattle.mt_values.specs.declared.schema.KeyOrder.TheVariants.{SortingFirst};
ghost use Rattle.mt_values.specs.declared.schema.Schema.{Schema};
ghost use Rattle.mt_values.specs.Schemas.{
  column_fault,
  engine_fault,
  first_fault,
  granularity_fault,
  has_large_set,
  has_no_span,
  index_fault,
  index_granularity_fault,
  key_fault,
  keys_fault,
  partition_fault,
  prefix_fault,
  schema_fault,
  schema_fault_as,
  set_size_fault,
};

use crate::engine_columns::{engine_fault, is_unsigned_at};
use crate::{Aggregate, ColType, Engine, Name};
use mt_base::{GRANULARITY_LIMIT, NoMemory, SET_LIMIT, Seq};
use std::alloc::Global;

/// A column of a table.
#[derive(Debug, Drop, PartialEq, Eq)]
pub struct Column {
    pub name: Name,
    pub col_type: ColType,
    /// The function of SimpleAggregateFunction, where the column is one.
    pub function: Option<Aggregate>,
}

/// What a skip index keeps of the values of a block.
#[derive(Clone, Copy, Debug, PartialEq, Eq)]
pub enum IndexKind {
    /// The least and the greatest.
    MinMax,
    /// Each value once, where there are no more than this number of them; 0 stands for the greatest number of 32 bits.
    Set(u64),
}

/// A skip index of a table.
#[derive(Debug, Drop, PartialEq, Eq)]
pub struct SkipIndex {
    pub name: Name,
    /// The place of its column, from 0.
    pub column: u32,
    pub kind: IndexKind,
    /// How many granules a block has.
    pub granularity: u32,
}

/// The columns of a table, in order, its engine, and which columns, by their places from 0, are its keys and its partition column.
#[derive(Debug, Drop, PartialEq, Eq)]
pub struct Schema {
    pub columns: Seq<Column>,
    /// What merges do with the rows of one key.
    pub engine: Engine,
    /// The sorting key.
    pub key: Seq<u32>,
    /// The primary key.
    pub primary: Seq<u32>,
    /// The partition column, where the table has one.
    pub partition: Option<u32>,
    /// How many rows a granule has.
    pub granularity: u32,
    /// The skip indexes, in the order of the text.
    pub indexes: Seq<SkipIndex>,
}

/// The first rule that a schema breaks, by the order of these variants.
#[derive(Clone, Copy)]
pub enum SchemaFault {
    /// There is no column.
    NoColumns,
    /// The column at this place, from 0, has the name of an earlier one.
    DoubleColumn(usize),
    /// The skip index at this place, from 0, has the name of an earlier one.
    DoubleIndex(usize),
    /// A key, or the list of an engine, names the column at this place a second time.
    DoubleKey(u32),
    /// The primary key has the column at this place where the sorting key has another one or none.
    NotPrefix(u32),
    /// The partition column, at this place, is not unsigned.
    PartitionType(u32),
    /// The version, at this place, is not unsigned.
    VersionType(u32),
    /// The sign, at this place, is not of the type Int8.
    SignType(u32),
    /// The sign, at this place, is in the sorting key or the partition column.
    SignKey(u32),
    /// The column at this place is to be summed and has no numbers.
    SumType(u32),
    /// The column at this place is to be summed, and is in the sorting key or the partition column.
    SumKey(u32),
    /// There is no column to sum.
    NothingToSum,
    /// The column at this place has a function, and the engine folds none.
    AggregateEngine(usize),
    /// The column at this place has a function, and is in the sorting key or the partition column.
    AggregateKey(usize),
    /// The column at this place has a function that does not take its type.
    AggregateType(usize),
    /// The rows of a granule are none, or more than a granule may have.
    Granularity,
    /// The granules of a block of the skip index at this place are none, or more than a block may have.
    IndexGranularity(usize),
    /// The skip index at this place may keep more values of a block than one may.
    SetSize(usize),
}

/// Which of the two keys a statement names first.
#[derive(Clone, Copy)]
pub enum KeyOrder {
    SortingFirst,
    PrimaryFirst,
}

impl Schema {
    ghost use Rattle.mt_values.specs.Schemas.{column_types};

    /// Finds the first rule that the schema breaks, the sorting key tried before the primary key. Takes no memory.
    pub fn check(&self) -> Result<(), SchemaFault>
        ensures { MatchResult result (λ _. schema_fault self.now ≡ None)
            (λ fault. schema_fault self.now ≡ Some fault) }
    {
        self.check_as_written(KeyOrder::SortingFirst)
    }

    /// Finds the first rule that the schema breaks, the key that is written first tried before the other. Takes no memory.
    ///
    /// Its pairs of columns and of mentions are compared one by one: a table has 64 columns at most.
    pub fn check_as_written(&self, first: KeyOrder) -> Result<(), SchemaFault>
        ensures { MatchResult result (λ _. schema_fault_as first self.now ≡ None)
            (λ fault. schema_fault_as first self.now ≡ Some fault) }
    {
        if self.columns.is_empty() {
            return Err(SchemaFault::NoColumns);
        }
        if let Some(fault) = double_column(self.columns.as_slice()) {
            return Err(fault);
        }
        if let Some(fault) = double_index(self.indexes.as_slice()) {
            return Err(fault);
        }
        if let Some(fault) = double_key(self.engine.summed_places()) {
            return Err(fault);
        }
        if let Some(fault) = double_mention(first, self.key.as_slice(), self.primary.as_slice()) {
            return Err(fault);
        }
        if let Some(fault) = not_prefix(self.key.as_slice(), self.primary.as_slice()) {
            return Err(fault);
        }
        match self.fault_of_roles() {
            Some(fault) => Err(fault),
            None => Ok(()),
        }
    }

    /// The first fault of the partition column, of the columns of the engine, or of the sizes of granules and indexes.
    fn fault_of_roles(&self) -> Option<SchemaFault>
        ensures { result ≡ first_fault (partition_fault self.now.columns self.now.partition
            ∷ engine_fault self.now ∷ granularity_fault self.now.granularity
            ∷ index_granularity_fault self.now.indexes ∷ set_size_fault self.now.indexes ∷ []) }
    {
        if let Some(fault) = partition_type(self.columns.as_slice(), self.partition) {
            return Some(fault);
        }
        if let Some(fault) = engine_fault(self) {
            return Some(fault);
        }
        if let Some(fault) = granularity(self.granularity) {
            return Some(fault);
        }
        sizes_of_indexes(self.indexes.as_slice())
    }

    /// The types of the columns, in order.
    ///
    /// `NoMemory` where an allocation failed.
    pub fn types(&self, alloc: Global) -> Result<Seq<ColType>, NoMemory>
        ensures { IfOk result (λ types. types ≡ column_types self.now) }
    {
        let mut types = Seq::with_capacity(alloc, self.columns.len())?;
        for column in self.columns.as_slice() {
            types.push(column.col_type)?;
        }
        Ok(types)
    }
}

/// The fault of the first column that has the name of an earlier one.
fn double_column(columns: &[Column]) -> Option<SchemaFault>
    ensures { result ≡ column_fault columns.now }
{
    for (place, column) in columns.iter().enumerate() {
        if has_name(&columns[..place], &column.name) {
            return Some(SchemaFault::DoubleColumn(place));
        }
    }
    None
}

/// Whether one of the columns has the name.
pub fn has_name(columns: &[Column], name: &Name) -> bool
    ensures { result ≡ list_any (λ column. pointwise nat_eq column.name name.now) columns.now }
{
    columns.iter().any(|column| column.name == *name)
}

/// The fault of the first skip index that has the name of an earlier one.
fn double_index(indexes: &[SkipIndex]) -> Option<SchemaFault>
    ensures { result ≡ index_fault indexes.now }
{
    for (place, index) in indexes.iter().enumerate() {
        if has_index_name(&indexes[..place], &index.name) {
            return Some(SchemaFault::DoubleIndex(place));
        }
    }
    None
}

/// Whether one of the skip indexes has the name.
fn has_index_name(indexes: &[SkipIndex], name: &Name) -> bool
    ensures { result ≡ list_any (λ index. pointwise nat_eq index.name name.now) indexes.now }
{
    indexes.iter().any(|index| index.name == *name)
}

/// The fault of the first mention in either key that repeats an earlier one of it, the key that is written first before the
/// other.
fn double_mention(first: KeyOrder, key: &[u32], primary: &[u32]) -> Option<SchemaFault>
    ensures { result ≡ keys_fault first key.now primary.now }
{
    let (front, back) = match first {
        KeyOrder::SortingFirst => (key, primary),
        KeyOrder::PrimaryFirst => (primary, key),
    };
    match double_key(front) {
        Some(fault) => Some(fault),
        None => double_key(back),
    }
}

/// The fault of the first mention in a key that repeats an earlier one.
fn double_key(key: &[u32]) -> Option<SchemaFault>
    ensures { result ≡ key_fault key.now }
{
    for (place, column) in key.iter().enumerate() {
        if key[..place].contains(column) {
            return Some(SchemaFault::DoubleKey(*column));
        }
    }
    None
}

/// The fault of the first column of the primary key that is not the sorting key's at its place.
fn not_prefix(key: &[u32], primary: &[u32]) -> Option<SchemaFault>
    ensures { result ≡ prefix_fault key.now primary.now }
{
    for (place, column) in primary.iter().enumerate() {
        if key.get(place) != Some(column) {
            return Some(SchemaFault::NotPrefix(*column));
        }
    }
    None
}

/// The fault of a partition column that is not unsigned.
fn partition_type(columns: &[Column], partition: Option<u32>) -> Option<SchemaFault>
    ensures { result ≡ partition_fault columns.now partition }
{
    let place = partition?;
    if is_unsigned_at(columns, place) {
        return None;
    }
    Some(SchemaFault::PartitionType(place))
}

/// The fault of granules of no rows, or of more rows than a granule may have.
fn granularity(rows: u32) -> Option<SchemaFault>
    ensures { result ≡ granularity_fault rows }
{
    if rows == 0 || rows > GRANULARITY_LIMIT {
        return Some(SchemaFault::Granularity);
    }
    None
}

/// The fault of the first skip index whose blocks have no granules or too many, or else of the first that may keep too many values
/// of a block.
fn sizes_of_indexes(indexes: &[SkipIndex]) -> Option<SchemaFault>
    ensures { result ≡ first_fault
        (index_granularity_fault indexes.now ∷ set_size_fault indexes.now ∷ []) }
{
    if let Some(place) = first_without_span(indexes) {
        return Some(SchemaFault::IndexGranularity(place));
    }
    match first_large_set(indexes) {
        Some(place) => Some(SchemaFault::SetSize(place)),
        None => None,
    }
}

/// The place of the first skip index whose blocks have no granules or too many.
fn first_without_span(indexes: &[SkipIndex]) -> Option<usize>
    ensures { result ≡ position has_no_span indexes.now }
{
    indexes.iter().position(|index| has_no_span(index))
}

/// The place of the first skip index that may keep too many values of a block.
fn first_large_set(indexes: &[SkipIndex]) -> Option<usize>
    ensures { result ≡ position has_large_set indexes.now }
{
    indexes.iter().position(|index| has_large_set(index))
}

/// Whether a block of the skip index has no granules, or more than a block may have.
fn has_no_span(index: &SkipIndex) -> bool
    ensures { result ≡ has_no_span index.now }
{
    index.granularity == 0 || index.granularity > GRANULARITY_LIMIT
}

/// Whether the skip index may keep more values of a block than one may.
fn has_large_set(index: &SkipIndex) -> bool
    ensures { result ≡ has_large_set index.now }
{
    match index.kind {
        IndexKind::MinMax => false,
        IndexKind::Set(limit) => limit > SET_LIMIT,
    }
}

/// Whether a schema breaks a rule does not depend on which of its keys is tried first.
pub fn faults_do_not_depend_on_the_order_of_keys()
    ensures { (first other : KeyOrder) (schema : Schema) → schema_fault_as first schema ≡ None
        → schema_fault_as other schema ≡ None }
{}
