// Whether mutations are one.
ghost use Rattle.std.specs.Prelude.{◌≡◌, ◌↔◌, true};

use mt_values::{Alter, Assignment, Change, Expr, Joint, Test, Value};

/// Whether two mutations are one: whether they change the same table in the same way.
pub(crate) fn same_alters(a: &Alter, b: &Alter) -> bool
    ensures { (result ≡ true) ↔ (a.now ≡ b.now) }
{
    if a.table != b.table {
        return false;
    }
    same_changes(&a.change, &b.change)
}

/// Whether two changes are one.
fn same_changes(a: &Change, b: &Change) -> bool
    ensures { (result ≡ true) ↔ (a.now ≡ b.now) }
{
    match (a, b) {
        (Change::Delete(first), Change::Delete(second)) => same_conditions(first, second),
        (
            Change::Update {
                assignments: ours,
                condition: first,
            },
            Change::Update {
                assignments: theirs,
                condition: second,
            },
        ) => {
            same_assignments(ours.as_slice(), theirs.as_slice()) && same_conditions(first, second)
        }
        _ => false,
    }
}

/// Whether two lists of assignments are one.
fn same_assignments(a: &[Assignment], b: &[Assignment]) -> bool
    ensures { (result ≡ true) ↔ (a.now ≡ b.now) }
{
    a == b
}

/// Whether two conditions are one: whether their tests and what joins them are.
#[tactic(auto, using(crate::proofs::Alike::one_condition))]
fn same_conditions(a: &Expr<Test>, b: &Expr<Test>) -> bool
    ensures { (result ≡ true) ↔ (a.now ≡ b.now) }
{
    if !same_joints(a.joints(), b.joints()) {
        return false;
    }
    same_tests(a.tests(), b.tests())
}

/// Whether two lists of joints are one.
fn same_joints(a: &[Joint], b: &[Joint]) -> bool
    ensures { (result ≡ true) ↔ (a.now ≡ b.now) }
{
    a == b
}

/// Whether two lists of tests are one.
fn same_tests(a: &[Test], b: &[Test]) -> bool
    ensures { (result ≡ true) ↔ (a.now ≡ b.now) }
{
    if a.len() != b.len() {
        return false;
    }
    for place in 0..a.len() {
        if !same_test(&a[place], &b[place]) {
            return false;
        }
    }
    true
}

/// Whether two tests are one.
fn same_test(a: &Test, b: &Test) -> bool
    ensures { (result ≡ true) ↔ (a.now ≡ b.now) }
{
    if a.column != b.column {
        return false;
    }
    if a.comparison != b.comparison {
        return false;
    }
    same_values(a.literals.as_slice(), b.literals.as_slice())
}

/// Whether two lists of values are one.
fn same_values(a: &[Value], b: &[Value]) -> bool
    ensures { (result ≡ true) ↔ (a.now ≡ b.now) }
{
    a == b
}
