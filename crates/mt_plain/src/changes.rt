// Whether the rows of a table may have a change (docs/definitions.md, "Mutations"; docs/engines.md, "Mutations").
ghost use Rattle.std.specs.Prelude.{◌≡◌, ◌↔◌, ◌||◌, map, nat_eq, slice_get, true};
ghost use Rattle.std.specs.List.{list_all, list_any};
ghost use Rattle.mt_values.specs.declared.schema.Column.{Column};
ghost use Rattle.mt_values.specs.declared.expr.Test.{Test};
ghost use Rattle.mt_values.specs.Engines as engines;
ghost use Rattle.part_history.specs.mt_model.Mutations.{IsChangeOf, is_folded, is_protected};
ghost use Rattle.mt_plain.specs.Changes as plain;

use mt_base::TEXT_LIMIT;
use mt_values::{
    Assigned, Assignment, Change, ColType, Column, Engine, Expr, Schema, Test, Value, is_kept_apart,
};

/// Whether the rows of a table may have a change: what it assigns and asks belongs to its columns, no column is assigned twice, and the
/// table's engine lets it pass.
pub fn is_change_of(schema: &Schema, change: &Change) -> bool
    ensures { (result ≡ true) ↔ IsChangeOf schema.now change.now }
{
    is_change(schema, change)
}

/// Whether the rows of a table may have a change.
fn is_change(schema: &Schema, change: &Change) -> bool
    ensures { result ≡ plain.is_change schema.now change.now }
{
    match change {
        Change::Delete(condition) => is_condition(schema, condition),
        Change::Update {
            assignments,
            condition,
        } => are_assignments(schema, assignments.as_slice()) && is_condition(schema, condition),
    }
}

// ---- what belongs to a column

/// Whether two types are one.
fn same_type(a: ColType, b: ColType) -> bool
    ensures { result ≡ plain.same_type a b }
{
    a == b
}

/// Whether these bytes are a text that a column may hold.
fn is_text(bytes: &[u8]) -> bool
    ensures { result ≡ plain.is_text bytes.now }
{
    bytes.len() <= TEXT_LIMIT
}

/// Whether a column may hold the value. Reading a number shows that it is in its type's range.
#[tactic(auto, using(crate::proofs::Changing::small_8, crate::proofs::Changing::small_16, crate::proofs::Changing::small_32, crate::proofs::Changing::small_64, crate::proofs::Changing::fits_8, crate::proofs::Changing::fits_16, crate::proofs::Changing::fits_32, crate::proofs::Changing::fits_64))]
fn is_value(value: &Value) -> bool
    ensures { result ≡ plain.is_value value.now }
{
    match value {
        Value::UInt8(number) => {
            let _number = *number;
            true
        }
        Value::UInt16(number) => {
            let _number = *number;
            true
        }
        Value::UInt32(number) => {
            let _number = *number;
            true
        }
        Value::UInt64(number) => {
            let _number = *number;
            true
        }
        Value::Int8(number) => {
            let _number = *number;
            true
        }
        Value::Int16(number) => {
            let _number = *number;
            true
        }
        Value::Int32(number) => {
            let _number = *number;
            true
        }
        Value::Int64(number) => {
            let _number = *number;
            true
        }
        Value::Text(bytes) => is_text(bytes.as_slice()),
    }
}

/// Whether the value is a number without a minus.
#[tactic(auto, using(crate::proofs::Changing::natural_is))]
fn is_number(value: &Value) -> bool
    ensures { result ≡ plain.is_number value.now }
{
    match value {
        Value::UInt8(_) | Value::UInt16(_) | Value::UInt32(_) | Value::UInt64(_) => true,
        Value::Int8(number) => *number >= 0,
        Value::Int16(number) => *number >= 0,
        Value::Int32(number) => *number >= 0,
        Value::Int64(number) => *number >= 0,
        Value::Text(_) => false,
    }
}

/// Whether the column at a place is there, and has this type.
fn has_type(columns: &[Column], place: u32, of: ColType) -> bool
    ensures { result ≡ plain.has_type columns.now place of }
{
    match columns.get(place as usize) {
        Some(column) => same_type(of, column.col_type),
        None => false,
    }
}

/// Whether the columns at two places are there, and have one type.
fn have_one_type(columns: &[Column], place: u32, other: u32) -> bool
    ensures { result ≡ plain.have_one_type columns.now place other }
{
    match columns.get(place as usize) {
        Some(column) => has_type(columns, other, column.col_type),
        None => false,
    }
}

/// Whether the value belongs to the column at a place.
fn is_value_at(columns: &[Column], place: u32, value: &Value) -> bool
    ensures { result ≡ plain.is_value_at columns.now place value.now }
{
    has_type(columns, place, value.col_type()) && is_value(value)
}

/// Whether the value does, and is a number without a minus.
fn is_number_at(columns: &[Column], place: u32, value: &Value) -> bool
    ensures { result ≡ plain.is_number_at columns.now place value.now }
{
    is_value_at(columns, place, value) && is_number(value)
}

/// Whether the column at a place may be assigned the value of a column, with such a number added or taken away.
fn is_moved(columns: &[Column], place: u32, source: u32, number: &Value) -> bool
    ensures { result ≡ plain.is_moved columns.now place source number.now }
{
    have_one_type(columns, place, source) && is_number_at(columns, place, number)
}

/// Whether the column at a place may be assigned this, by the types.
fn is_assignable(columns: &[Column], place: u32, value: &Assigned) -> bool
    ensures { result ≡ plain.is_assignable columns.now place value.now }
{
    match value {
        Assigned::Literal(value) => is_value_at(columns, place, value),
        Assigned::Column(source) => have_one_type(columns, place, *source),
        Assigned::Plus { column, number } | Assigned::Minus { column, number } => {
            is_moved(columns, place, *column, number)
        }
    }
}

// ---- what an engine lets be changed

/// Whether a place is the one that is named.
fn is_at(own: Option<u32>, place: u32) -> bool
    ensures { result ≡ engines.is_at own place }
{
    match own {
        Some(own) => own == place,
        None => false,
    }
}

/// Whether the column at a place is there, and has a function.
fn is_folded(columns: &[Column], place: u32) -> bool
    ensures { result ≡ is_folded (slice_get (map (λ (c : Column). c.function) columns.now) place) }
{
    match columns.get(place as usize) {
        Some(column) => column.function.is_some(),
        None => false,
    }
}

/// Whether a place is one of these.
fn is_among(places: &[u32], place: u32) -> bool
    ensures { result ≡ list_any (nat_eq place) places.now }
{
    places.iter().any(|own| place == *own)
}

/// Whether an engine goes by the values of the column at a place.
fn is_of_engine(engine: &Engine, place: u32) -> bool
    ensures { result ≡ (engines.is_at (engines.version_place engine.now) place
        || engines.is_at (engines.sign_place engine.now) place
        || list_any (nat_eq place) (engines.summed_places engine.now)) }
{
    is_at(engine.version_place(), place)
        || is_at(engine.sign_place(), place)
        || is_among(engine.summed_places(), place)
}

/// Whether merges go by the values of the column at a place.
fn is_protected(schema: &Schema, place: u32) -> bool
    ensures { result ≡ is_protected schema.now place }
{
    is_of_engine(&schema.engine, place) || is_folded(schema.columns.as_slice(), place)
}

/// Whether no protected column is read.
fn reads_freely(schema: &Schema, value: &Assigned) -> bool
    ensures { result ≡ plain.reads_freely schema.now value.now }
{
    match value {
        Assigned::Literal(_) => true,
        Assigned::Column(column) | Assigned::Plus { column, .. } | Assigned::Minus { column, .. } =>
            { !is_protected(schema, *column) }
    }
}

/// Whether neither the column that is assigned is the key's, the partition's or protected, nor one that is read.
fn is_free(schema: &Schema, assignment: &Assignment) -> bool
    ensures { result ≡ plain.is_free schema.now assignment.now }
{
    let place = assignment.column;
    !is_kept_apart(schema.key.as_slice(), schema.partition, place as usize)
        && !is_protected(schema, place)
        && reads_freely(schema, &assignment.value)
}

/// Whether an assignment is one of the table.
fn is_assignment(schema: &Schema, assignment: &Assignment) -> bool
    ensures { result ≡ plain.is_assignment schema.now assignment.now }
{
    is_assignable(
        schema.columns.as_slice(),
        assignment.column,
        &assignment.value,
    ) && is_free(schema, assignment)
}

/// Whether one of the assignments assigns the column at a place.
pub(crate) fn is_put(assignments: &[Assignment], place: u32) -> bool
    ensures { result ≡ plain.is_put assignments.now place }
{
    assignments
        .iter()
        .any(|assignment| assignment.column == place)
}

/// Whether no two of the assignments assign one column.
#[tactic(auto, using(crate::proofs::Changing::once_put, crate::proofs::Changing::once_apart))]
fn are_once(assignments: &[Assignment]) -> bool
    ensures { result ≡ plain.are_once assignments.now }
{
    let Some((first, others)) = assignments.split_first() else {
        return true;
    };
    if is_put(others, first.column) {
        return false;
    }
    are_once(others)
}

/// Whether each of the assignments is one of the table.
fn are_own(schema: &Schema, assignments: &[Assignment]) -> bool
    ensures { result ≡ list_all (plain.is_assignment schema.now) assignments.now }
{
    assignments
        .iter()
        .all(|assignment| is_assignment(schema, assignment))
}

/// Whether assignments are those of the table, and none assigns the column of another.
fn are_assignments(schema: &Schema, assignments: &[Assignment]) -> bool
    ensures { result ≡ plain.are_assignments schema.now assignments.now }
{
    are_own(schema, assignments) && are_once(assignments)
}

// ---- conditions

/// Whether a test is one of the table.
fn is_test(columns: &[Column], test: &Test) -> bool
    ensures { result ≡ plain.is_test columns.now test.now }
{
    (test.column as usize) < columns.len() && are_values(columns, test)
}

/// Whether the literals of a test belong to its column.
fn are_values(columns: &[Column], test: &Test) -> bool
    ensures { result ≡ list_all (plain.is_value_at columns.now test.now.column) test.now.literals }
{
    test.literals
        .as_slice()
        .iter()
        .all(|literal| is_value_at(columns, test.column, literal))
}

/// Whether merges leave all rows.
fn is_plain(engine: &Engine) -> bool
    ensures { result ≡ plain.is_plain engine.now }
{
    matches!(engine, Engine::Plain)
}

/// Whether the column at a place is in the key.
fn is_of_key(key: &[u32], place: u32) -> bool
    ensures { result ≡ plain.is_of_key key.now place }
{
    key.iter().any(|own| *own == place)
}

/// Whether tests are of columns of the key alone.
fn are_of_key(key: &[u32], tests: &[Test]) -> bool
    ensures { result ≡ list_all (λ (t : Test). plain.is_of_key key.now t.column) tests.now }
{
    tests.iter().all(|test| is_of_key(key, test.column))
}

/// Whether tests may be asked, by the engine.
fn may_ask(schema: &Schema, tests: &[Test]) -> bool
    ensures { result ≡ plain.may_ask schema.now tests.now }
{
    is_plain(&schema.engine) || are_of_key(schema.key.as_slice(), tests)
}

/// Whether tests are those of the table.
fn are_tests(columns: &[Column], tests: &[Test]) -> bool
    ensures { result ≡ list_all (plain.is_test columns.now) tests.now }
{
    tests.iter().all(|test| is_test(columns, test))
}

/// Whether tests are those of the table, and may be asked.
fn are_asked(schema: &Schema, tests: &[Test]) -> bool
    ensures { result ≡ plain.are_asked schema.now tests.now }
{
    are_tests(schema.columns.as_slice(), tests) && may_ask(schema, tests)
}

/// Whether a condition is one of the changes of the table.
fn is_condition(schema: &Schema, condition: &Expr<Test>) -> bool
    ensures { result ≡ plain.is_condition schema.now condition.now }
{
    are_asked(schema, condition.tests())
}
