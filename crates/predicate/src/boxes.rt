// What a condition may be of rows that were not read, by what is known of their columns: docs/definitions.md, "Boxes".
ghost use Rattle.std.specs.Prelude.{◌≡◌, ◌∷◌, List, not, slice_get};
ghost use Rattle.std.specs.List.{list_all, list_any};
ghost use Rattle.mt_values.specs.declared.expr.Comparison.TheVariants as comparison;
ghost use Rattle.mt_values.specs.declared.expr.Joint.{Joint};
ghost use Rattle.mt_values.specs.Polish.{ComesTo};
ghost use Rattle.mt_values.specs.Tests.{meets};
ghost use Rattle.predicate.specs.Boxes.{box_of, by_box, can, can_of, can_some, no_within, only_column, yes_within};
ghost use Rattle.predicate.specs.declared.extent.Can.{Can};

use crate::extent::{Can, Extent, Known};
use mt_values::{Cell, Comparison, Expr, Joint, Literals, Stack, Test, Value, cmp_value, meets};

/// What is known of the columns of some rows.
#[derive(Clone, Copy)]
enum KnownOf<'a> {
    /// Of each column what a box says.
    Box(&'a Extent),
    /// This of the column at a place, counted from 0, and nothing of the others.
    Column(u32, &'a Known),
}

// What no condition is of each row.
const ALWAYS: Can = Can {
    yes: true,
    no: false,
};

// What a condition may be where nothing is known.
const EITHER: Can = Can {
    yes: true,
    no: true,
};

/// Whether the condition may be true of a row of the box. Takes no memory.
pub fn may_match(condition: &Expr<Test>, extent: &Extent) -> bool
    ensures { result ≡ (can condition.now extent.now).yes }
{
    can(condition, extent).yes
}

/// Whether the condition may be true of a row of whose values this is known in the column at a place, counted from 0, and nothing
/// in the others. Takes no memory.
pub fn may_match_column(condition: &Expr<Test>, column: u32, known: &Known) -> bool
    ensures { result ≡ (can condition.now (only_column column known.now)).yes }
{
    can_by(condition, KnownOf::Column(column, known)).yes
}

/// What the condition may be of the rows of the box. Takes no memory.
pub fn can(condition: &Expr<Test>, extent: &Extent) -> Can
    ensures { result ≡ can condition.now extent.now }
{
    can_by(condition, KnownOf::Box(extent))
}

// What the condition may be of rows of which this is known.
fn can_by(condition: &Expr<Test>, known: KnownOf) -> Can
    ensures { result ≡ can condition.now (box_of known.entry) }
{
    let mut tests = condition.tests();
    let mut answers = Stack::new(EITHER);
    for joint in condition.joints() {
        tests = step(known, tests, *joint, &mut answers);
    }
    answers.pop()
}

// Takes a joint: its answer is put on top, in place of those that it joins. Returns the tests that are left.
fn step<'a>(known: KnownOf, tests: &'a [Test], joint: Joint, answers: &mut Stack<Can>) -> &'a [Test]
    requires { (found : Can) × (rest : List Joint)
        × ComesTo (by_box (box_of known)) found tests.now answers.old (joint ∷ rest) }
    ensures { (found : Can) (rest : List Joint)
        → ComesTo (by_box (box_of known.entry)) found tests.now answers.old (joint ∷ rest)
        → ComesTo (by_box (box_of known.entry)) found result.now answers.new rest }
{
    match joint {
        Joint::Always => answers.push(ALWAYS),
        Joint::Test => {
            answers.push(can_at(&tests[0], known));
            return &tests[1..];
        }
        Joint::Not => {
            let last = answers.pop();
            answers.push(Can {
                yes: last.no,
                no: last.yes,
            });
        }
        Joint::And => {
            let last = answers.pop();
            let first = answers.pop();
            answers.push(Can {
                yes: first.yes & last.yes,
                no: first.no | last.no,
            });
        }
        Joint::Or => {
            let last = answers.pop();
            let first = answers.pop();
            answers.push(Can {
                yes: first.yes | last.yes,
                no: first.no & last.no,
            });
        }
    }
    tests
}

// What a test may be of rows of which this is known.
fn can_at(test: &Test, known: KnownOf) -> Can
    ensures { result ≡ can_some test.now
        (slice_get (box_of known.entry).columns test.now.column) }
{
    match known {
        KnownOf::Box(extent) => can_in(test, extent),
        KnownOf::Column(column, known) => can_beside(test, column, known),
    }
}

// What a test may be of the rows of the box.
fn can_in(test: &Test, extent: &Extent) -> Can
    ensures { result ≡ can_some test.now (slice_get extent.now.columns test.now.column) }
{
    match extent.columns.as_slice().get(test.column as usize) {
        Some(known) => can_of(test, known),
        None => EITHER,
    }
}

// What a test may be where one column alone is known.
fn can_beside(test: &Test, column: u32, known: &Known) -> Can
    ensures { result ≡ can_some test.now
        (slice_get (only_column column known.now).columns test.now.column) }
{
    if test.column == column {
        return can_of(test, known);
    }
    EITHER
}

// What a test may be of the values of which this is known.
fn can_of(test: &Test, known: &Known) -> Can
    ensures { result ≡ can_of test.now known.now }
{
    match known {
        Known::Range(least, greatest) => Can {
            yes: some_meets_within(test, least, greatest),
            no: each_misses_within(test, least, greatest),
        },
        Known::List(values) => Can {
            yes: some_meets(test, values.as_slice()),
            no: some_misses(test, values.as_slice()),
        },
        Known::Unknown => EITHER,
    }
}

// Whether some value meets the test.
fn some_meets(test: &Test, values: &[Value]) -> bool
    ensures { result ≡ list_any (meets test.now) values.now }
{
    values.iter().any(|value| meets(test, value))
}

// Whether some value does not meet the test.
fn some_misses(test: &Test, values: &[Value]) -> bool
    ensures { result ≡ list_any (λ v. not (meets test.now v)) values.now }
{
    values.iter().any(|value| !meets(test, value))
}

// Whether the test may be true of a value from the least to the greatest: one of its literals may make it so.
fn some_meets_within(test: &Test, least: &Value, greatest: &Value) -> bool
    ensures { result ≡ list_any (yes_within test.now.comparison least.now greatest.now)
        test.now.literals }
{
    if test.comparison.is_equal() {
        let lo = Cell::of(least);
        let hi = Cell::of(greatest);
        return test.literals.any_within(lo, hi);
    }
    test.literals.as_slice().iter().any(|literal| yes_within(
        test.comparison,
        least,
        greatest,
        literal,
    ))
}

// Whether the test may be false of a value from the least to the greatest: each of its literals may leave it so.
fn each_misses_within(test: &Test, least: &Value, greatest: &Value) -> bool
    ensures { result ≡ list_all (no_within test.now.comparison least.now greatest.now)
        test.now.literals }
{
    if test.comparison.is_equal() {
        return are_no_literal(&test.literals, least, greatest);
    }
    test.literals.as_slice().iter().all(|literal| no_within(
        test.comparison,
        least,
        greatest,
        literal,
    ))
}

// Whether the least and the greatest are not one and the same literal.
fn are_no_literal(literals: &Literals, least: &Value, greatest: &Value) -> bool
    ensures { result ≡ list_all (no_within comparison.Equal least.now greatest.now)
        literals.now }
{
    if cmp_value(least, greatest).is_eq() {
        return !literals.has(Cell::of(least));
    }
    true
}

// Whether a value from the least to the greatest may compare so with the literal.
fn yes_within(comparison: Comparison, least: &Value, greatest: &Value, literal: &Value) -> bool
    ensures { result ≡ yes_within comparison least.now greatest.now literal.now }
{
    match comparison {
        Comparison::Equal => {
            cmp_value(least, literal).is_le() & cmp_value(literal, greatest).is_le()
        }
        Comparison::NotEqual => {
            !(cmp_value(least, literal).is_eq() & cmp_value(greatest, literal).is_eq())
        }
        Comparison::Less => cmp_value(least, literal).is_lt(),
        Comparison::LessOrEqual => cmp_value(least, literal).is_le(),
        Comparison::Greater => cmp_value(greatest, literal).is_gt(),
        Comparison::GreaterOrEqual => cmp_value(greatest, literal).is_ge(),
    }
}

// Whether a value from the least to the greatest may not compare so with the literal.
fn no_within(comparison: Comparison, least: &Value, greatest: &Value, literal: &Value) -> bool
    ensures { result ≡ no_within comparison least.now greatest.now literal.now }
{
    match comparison {
        Comparison::Equal => {
            !(cmp_value(least, literal).is_eq() & cmp_value(greatest, literal).is_eq())
        }
        Comparison::NotEqual => {
            cmp_value(least, literal).is_le() & cmp_value(literal, greatest).is_le()
        }
        Comparison::Less => cmp_value(greatest, literal).is_ge(),
        Comparison::LessOrEqual => cmp_value(greatest, literal).is_gt(),
        Comparison::Greater => cmp_value(least, literal).is_le(),
        Comparison::GreaterOrEqual => cmp_value(least, literal).is_lt(),
    }
}
