// What a SELECT asks of a table: the columns that it prints, and the condition of its rows.
ghost use Rattle.std.specs.Prelude.{◌≡◌, ◌<◌, ◌^◌, length, map, option_copied};
ghost use Rattle.mt_base.specs.Stops.{Gives};
ghost use Rattle.mt_values.specs.declared.expr.TestText.{TestText};
ghost use Rattle.mt_model.specs.Clauses.{first_unknown};
ghost use Rattle.mt_model.specs.Queries as query;
ghost use Rattle.mt_model.specs.Reply.{unless_refused};

use crate::clauses::find_column;
use crate::refusal::Refusal;
use crate::resolving::selected_columns;
use mt_base::{Seq, Stop, Twin};
use mt_values::{ColType, Column, Expr, Literals, Name, SelectText, Test, TestText, literal_value};
use std::alloc::Global;

/// What a SELECT asks of a table.
#[derive(Drop)]
pub struct Query {
    /// The places of the columns that it prints, in its order.
    pub places: Seq<u32>,
    /// What its rows meet.
    pub condition: Expr<Test>,
}

/// What a SELECT asks of a table with these columns; or what it is refused for: the first name of it, in the order of the text,
/// that is no column's, or else the first literal that does not belong to its column.
///
/// `Stop::NoMemory` where an allocation failed.
pub fn query_of(
    alloc: Global,
    columns: &[Column],
    select: &SelectText,
) -> Result<Query, Stop<Refusal>>
    requires { length columns.now < 2 ^ 32 }
    ensures { Gives (query.query_of columns.now select.now) result }
{
    let places = selected_columns(alloc, columns, &select.columns)?;
    let tests = select.condition.tests();
    if let Some(name) = unknown_in(columns, tests) {
        return Err(Stop::Refused(Refusal::NoColumn(name.twin(alloc)?)));
    }
    let found = tests_in(alloc, columns, tests)?;
    let condition = select.condition.with_tests(alloc, found)?;
    Ok(Query { places, condition })
}

/// The first name in tests that is no column's.
fn unknown_in<'a>(columns: &[Column], tests: &'a [TestText]) -> Option<&'a Name>
    ensures { option_copied result ≡ first_unknown columns.now
        (map (λ (t : TestText). t.column) tests.now) }
{
    for test in tests {
        if find_column(columns, &test.column).is_none() {
            return Some(&test.column);
        }
    }
    None
}

/// The tests with the places of their columns and the values of their literals, or the first literal that does not belong.
fn tests_in(
    alloc: Global,
    columns: &[Column],
    tests: &[TestText],
) -> Result<Seq<Test>, Stop<Refusal>>
    requires { length columns.now < 2 ^ 32 }
    ensures { Gives (unless_refused (query.refusal_of_tests columns.now tests.now)
        (map (query.test_in columns.now) tests.now)) result }
{
    let mut found = Seq::new(alloc);
    for test in tests {
        found.push(test_in(alloc, columns, test)?)?;
    }
    Ok(found)
}

/// A test with the place of its column, and its literals as values of the column; or the first that does not belong to it.
fn test_in(alloc: Global, columns: &[Column], test: &TestText) -> Result<Test, Stop<Refusal>>
    requires { length columns.now < 2 ^ 32 }
    ensures { Gives (unless_refused (query.refusal_of_test columns.now test.now)
        (query.test_in columns.now test.now)) result }
{
    let place = find_column(columns, &test.column).unwrap_or(0);
    let col_type = type_at(columns, place);
    let mut literals = Seq::with_capacity(alloc, test.literals.len())?;
    for literal in test.literals.as_slice() {
        let Some(value) = literal_value(alloc, col_type, &literal.text)? else {
            let name = test.column.twin(alloc)?;
            return Err(Stop::Refused(Refusal::Literal(name, literal.at)));
        };
        literals.push(value)?;
    }
    Ok(Test {
        column: place as u32,
        comparison: test.comparison,
        literals: Literals::of(alloc, literals)?,
    })
}

/// The type of the column at a place; of a place without a column that of texts.
fn type_at(columns: &[Column], place: usize) -> ColType
    ensures { result ≡ query.type_at columns.now place }
{
    match columns.get(place) {
        Some(column) => column.col_type,
        None => ColType::Text,
    }
}
