// Tables of the events whose rows have a mark, one of each engine, and their rows.
ghost use Rattle.std.specs.Prelude.{◌≡◌, ◌⊎◌, ◌∷◌, [], IfOk, None, negsuc, pos};
ghost use Rattle.mt_values.specs.declared.value.ColType.TheVariants as types;
ghost use Rattle.mt_values.specs.declared.value.Value.TheVariants as value;
ghost use Rattle.table_core.specs.mt_model.History.{IsInsertInto};
ghost use Rattle.run_memory.specs.Events.{marked_schema, of_greatest, of_marked_sums, of_marks, of_newest, of_signs, of_triples, of_versions};

use crate::events::{begins_with, column, key_of, keyed, number_row, numbers_schema, whole_insert};
use mt_base::{NoMemory, Partition, Seq};
use mt_values::{Aggregate, Block, ColType, Column, Engine, Insert, Name, Row, Schema, Value};
use std::alloc::Global;

/// Numbers for a row, of which tables with fewer columns leave the last.
#[derive(Clone, Copy)]
pub struct Numbers {
    pub first: u8,
    pub second: u8,
    pub third: u8,
    pub fourth: u8,
}

// The schema of a table of the events whose rows have a mark: columns `a`, which is the key, and `c` of type UInt8, and one between them.
fn marks_schema(alloc: Global, engine: Engine, middle: Column) -> Result<Schema, NoMemory>
    ensures { IfOk result (λ schema. schema ≡ of_marks engine middle) }
{
    let mut columns = Seq::new(alloc);
    columns.push(column(alloc, b'a', ColType::UInt8)?)?;
    columns.push(middle)?;
    columns.push(column(alloc, b'c', ColType::UInt8)?)?;
    keyed(alloc, columns, engine, 0, None)
}

// The schema of one whose rows are cancelled by version: columns `a`, which is the key, `b`, the version, `c` and the sign `s`.
fn versions_schema(alloc: Global) -> Result<Schema, NoMemory>
    ensures { IfOk result (λ schema. schema ≡ of_versions) }
{
    let mut columns = Seq::new(alloc);
    columns.push(column(alloc, b'a', ColType::UInt8)?)?;
    columns.push(column(alloc, b'b', ColType::UInt8)?)?;
    columns.push(column(alloc, b'c', ColType::UInt8)?)?;
    columns.push(column(alloc, b's', ColType::Int8)?)?;
    let engine = Engine::Versioned {
        sign: 3,
        version: 1,
    };
    keyed(alloc, columns, engine, 0, None)
}

// The schema of one whose rows are cancelled by their signs.
fn signs_schema(alloc: Global) -> Result<Schema, NoMemory>
    ensures { IfOk result (λ schema. schema ≡ of_signs) }
{
    let sign = column(alloc, b'b', ColType::Int8)?;
    marks_schema(alloc, Engine::Collapsing(1), sign)
}

// The schema of one whose merges leave the greatest `b` of each key.
fn greatest_schema(alloc: Global) -> Result<Schema, NoMemory>
    ensures { IfOk result (λ schema. schema ≡ of_greatest) }
{
    let mut greatest = column(alloc, b'b', ColType::UInt8)?;
    greatest.function = Some(Aggregate::Max);
    marks_schema(alloc, Engine::Aggregating, greatest)
}

// The schema of one whose merges leave the sum of each key.
fn sums_schema(alloc: Global) -> Result<Schema, NoMemory>
    ensures { IfOk result (λ schema. schema ≡ of_marked_sums) }
{
    let summed = key_of(alloc, 1)?;
    let number = column(alloc, b'b', ColType::UInt8)?;
    marks_schema(alloc, Engine::Summing(summed), number)
}

// The schema of one of three numbers, with an engine: plain, or with the last row of the greatest version of each key.
fn triples_schema(alloc: Global, engine: Engine) -> Result<Schema, NoMemory>
    ensures { IfOk result (λ schema. schema ≡ of_marks engine
        (record { name = 98 ∷ []; col_type = types.UInt8; function = None })) }
{
    let number = column(alloc, b'b', ColType::UInt8)?;
    marks_schema(alloc, engine, number)
}

/// The schema of a table of the events, by the first letter of its name: merges leave all rows of `m`, of each key the row of `n` with the
/// greatest version, the sum of `q` and the greatest number of `g`, and cancel rows of `c` by signs and of `d` by versions and signs.
pub fn marked_schema(alloc: Global, table: &Name) -> Result<Schema, NoMemory>
    ensures { IfOk result (λ schema. schema ≡ marked_schema table.now) }
{
    if begins_with(b'c', table) {
        return signs_schema(alloc);
    }
    if begins_with(b'd', table) {
        return versions_schema(alloc);
    }
    if begins_with(b'g', table) {
        return greatest_schema(alloc);
    }
    if begins_with(b'm', table) {
        return triples_schema(alloc, Engine::Plain);
    }
    if begins_with(b'n', table) {
        return triples_schema(alloc, Engine::Replacing(Some(1)));
    }
    if begins_with(b'q', table) {
        return sums_schema(alloc);
    }
    numbers_schema(alloc)
}

// The sign of a row: of a state, or of a cancel where the number is 0.
fn sign_of(number: u8) -> Value
    ensures { (result ≡ value.Int8 (pos 1)) ⊎ (result ≡ value.Int8 (negsuc 0)) }
{
    if number == 0 {
        return Value::Int8(-1);
    }
    Value::Int8(1)
}

// The row of a number, a value and a mark.
fn marked_row(alloc: Global, first: u8, middle: Value, mark: u8) -> Result<Row, NoMemory>
    ensures { IfOk result (λ row. row
        ≡ value.UInt8 first ∷ middle ∷ value.UInt8 mark ∷ []) }
{
    let mut row = number_row(alloc, first)?;
    row.push(middle)?;
    row.push(Value::UInt8(mark))?;
    Ok(row)
}

// A row of three numbers.
fn triples_insert(alloc: Global, table: Name, numbers: Numbers) -> Result<Insert, NoMemory>
    ensures plain { IfOk result (λ insert. IsInsertInto of_triples insert) }
    ensures newest { IfOk result (λ insert. IsInsertInto of_newest insert) }
    ensures sums { IfOk result (λ insert. IsInsertInto of_marked_sums insert) }
    ensures greatest { IfOk result (λ insert. IsInsertInto of_greatest insert) }
    ensures table { IfOk result (λ insert. insert.table ≡ table) }
{
    let middle = Value::UInt8(numbers.second);
    let rows = [marked_row(alloc, numbers.first, middle, numbers.third)?];
    let partition = Partition::Whole;
    let types = [ColType::UInt8, ColType::UInt8, ColType::UInt8];
    let block = Block::from_rows(alloc, &types, &rows)?;
    Ok(Insert {
        table,
        partition,
        block,
    })
}

// A row with a sign.
fn signs_insert(alloc: Global, table: Name, numbers: Numbers) -> Result<Insert, NoMemory>
    ensures { IfOk result (λ insert. IsInsertInto of_signs insert × (insert.table ≡ table)) }
{
    let sign = sign_of(numbers.second);
    let rows = [marked_row(alloc, numbers.first, sign, numbers.third)?];
    let partition = Partition::Whole;
    let types = [ColType::UInt8, ColType::Int8, ColType::UInt8];
    let block = Block::from_rows(alloc, &types, &rows)?;
    Ok(Insert {
        table,
        partition,
        block,
    })
}

// A row with a version and a sign.
fn versions_insert(alloc: Global, table: Name, numbers: Numbers) -> Result<Insert, NoMemory>
    ensures { IfOk result (λ insert. IsInsertInto of_versions insert × (insert.table ≡ table)) }
{
    let version = Value::UInt8(numbers.second);
    let mut row = marked_row(alloc, numbers.first, version, numbers.third)?;
    row.push(sign_of(numbers.fourth))?;
    let rows = [row];
    let partition = Partition::Whole;
    let types = [
        ColType::UInt8,
        ColType::UInt8,
        ColType::UInt8,
        ColType::Int8,
    ];
    let block = Block::from_rows(alloc, &types, &rows)?;
    Ok(Insert {
        table,
        partition,
        block,
    })
}

/// The rows that numbers give such a table.
pub fn marked_insert(alloc: Global, table: Name, numbers: Numbers) -> Result<Insert, NoMemory>
    ensures schema { IfOk result
        (λ insert. IsInsertInto (marked_schema insert.table) insert) }
    ensures table { IfOk result (λ insert. insert.table ≡ table) }
{
    if begins_with(b'c', &table) {
        return signs_insert(alloc, table, numbers);
    }
    if begins_with(b'd', &table) {
        return versions_insert(alloc, table, numbers);
    }
    if begins_with(b'g', &table) || begins_with(b'm', &table) {
        return triples_insert(alloc, table, numbers);
    }
    if begins_with(b'n', &table) || begins_with(b'q', &table) {
        return triples_insert(alloc, table, numbers);
    }
    whole_insert(alloc, table, numbers.first, numbers.second)
}
