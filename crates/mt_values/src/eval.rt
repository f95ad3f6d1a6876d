// Whether rows meet conditions.
ghost use Rattle.std.specs.Prelude.{◌≡◌, Bool, List, ◌∷◌};
ghost use Rattle.mt_values.specs.declared.expr.Joint.{Joint};
ghost use Rattle.mt_values.specs.Tests.{ComesToTruth, MayAsk, eval, meets, meets_at, says};

use crate::stack::Stack;
use crate::{Cell, Comparison, Expr, Joint, Row, Test, Value, cmp_value};
use std::cmp::Ordering;

impl Expr<Test> {
    /// Whether a row meets it. Takes no memory.
    pub fn eval(&self, row: &Row) -> bool
        ensures { result ≡ eval self.now row.now }
    {
        let mut tests = self.tests();
        let mut truths = Stack::new(false);
        for joint in self.joints() {
            tests = step(row, tests, *joint, &mut truths);
        }
        truths.pop()
    }
}

// Takes a joint: its truth is put on top, in place of those that it joins. Returns the tests that are left.
fn step<'a>(row: &Row, tests: &'a [Test], joint: Joint, truths: &mut Stack<bool>) -> &'a [Test]
    requires { MayAsk row.now tests.now truths.old joint }
    ensures { (found : Bool) (rest : List Joint)
        → ComesToTruth row.now found tests.now truths.old (joint ∷ rest)
        → ComesToTruth row.now found result.now truths.new rest }
{
    match joint {
        Joint::Always => truths.push(true),
        Joint::Test => {
            truths.push(meets_at(row, &tests[0]));
            return &tests[1..];
        }
        Joint::Not => {
            let last = truths.pop();
            truths.push(!last);
        }
        Joint::And => {
            let last = truths.pop();
            let first = truths.pop();
            truths.push(first & last);
        }
        Joint::Or => {
            let last = truths.pop();
            let first = truths.pop();
            truths.push(first | last);
        }
    }
    tests
}

/// Whether a value meets a test: it compares so with one of the literals. Takes no memory. Among the many literals of IN it is sought by
/// bisection.
pub fn meets(test: &Test, value: &Value) -> bool
    ensures { result ≡ meets test.now value.now }
{
    if test.comparison.is_equal() {
        return test.literals.has(Cell::of(value));
    }
    test.literals
        .as_slice()
        .iter()
        .any(|literal| says(test.comparison, cmp_value(value, literal)))
}

/// Whether the value of a test's column meets it in a row; no value meets it where the row has none there. Takes no memory.
pub fn meets_at(row: &Row, test: &Test) -> bool
    ensures { result ≡ meets_at row.now test.now }
{
    match row.as_slice().get(test.column as usize) {
        Some(value) => meets(test, value),
        None => false,
    }
}

// What a comparison says where a value stands so to a literal.
pub(crate) fn says(comparison: Comparison, order: Ordering) -> bool
    ensures { result ≡ says comparison order }
{
    match comparison {
        Comparison::Equal => order.is_eq(),
        Comparison::NotEqual => order.is_ne(),
        Comparison::Less => order.is_lt(),
        Comparison::LessOrEqual => order.is_le(),
        Comparison::Greater => order.is_gt(),
        Comparison::GreaterOrEqual => order.is_ge(),
    }
}
