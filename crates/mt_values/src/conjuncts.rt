// The conjuncts of an expression: what AND joins at its top.
//
// Joints stand in Polish order, so the last joint of an expression says what it is, and the expressions that it joins end right
// before it. The joints are gone over from the last to the first, each once: an AND at the top is passed over, and any other joint
// there ends a conjunct, which begins where no expression of it is missing any more.
ghost use Rattle.std.specs.Prelude.{◌≡◌, IfOk, List, length};
ghost use Rattle.std.specs.List.{list_all};
ghost use Rattle.mt_values.specs.Conditions.{Condition, conjuncts_of, tests_of};
ghost use Rattle.mt_values.specs.Polish.{EndsThere, EndsWith, IsPolish, is_and, joints_of, own_tests, parts_of};
ghost use Rattle.mt_values.specs.Tests.{eval};
ghost use Rattle.mt_values.specs.Values.{Row};
ghost use Rattle.mt_values.specs.declared.expr.Joint.{Joint};
ghost use Rattle.mt_values.specs.declared.expr.Test.{Test};

use crate::{Expr, Joint};
use mt_base::{NoMemory, Seq, Twin};
use std::alloc::Global;

/// An expression that ends somewhere among joints: the place of its first joint, and how many tests it has.
#[derive(Clone, Copy)]
struct Ended {
    start: usize,
    tests: usize,
}

impl<T: Twin> Expr<T> {
    /// Its conjuncts, in the order of the text, each as an expression. Takes time in proportion to the expression.
    ///
    /// `NoMemory` where an allocation failed.
    pub fn conjuncts(&self, alloc: Global) -> Result<Vec<Expr<T>>, NoMemory>
        ensures { IfOk result (λ v. v.items ≡ conjuncts_of self.now) }
    {
        let joints = self.joints();
        let mut tests = self.tests();
        let mut end = joints.len();
        let mut found = Vec::new(alloc);
        'tops: while end > 0 {
            if is_and(joints[end - 1]) {
                end -= 1;
                continue;
            }
            let last = ended_at(joints, end);
            let (others, own) = tests.split_at(tests.len() - last.tests);
            found.push(expr_of(alloc, own, &joints[last.start..end])?)?;
            tests = others;
            end = last.start;
        }
        found.reverse();
        Ok(found)
    }
}

/// The expression that ends before a place among joints.
fn ended_at(joints: &[Joint], end: usize) -> Ended
    requires { EndsThere joints.now end }
    ensures start { (front : List Joint) (c : Condition (Unit {0}))
        → EndsWith joints.now end front c → result.start ≡ length front }
    ensures tests { (front : List Joint) (c : Condition (Unit {0}))
        → EndsWith joints.now end front c → result.tests ≡ length (tests_of c) }
{
    let mut start = end;
    let mut tests = 0;
    let mut missing = 1;
    'parts: while missing > 0 {
        start -= 1;
        let joint = joints[start];
        tests += own_tests(joint);
        missing = missing - 1 + parts_of(joint);
    }
    Ended { start, tests }
}

/// Whether a joint is AND.
fn is_and(joint: Joint) -> bool
    ensures { result ≡ is_and joint }
{
    match joint {
        Joint::And => true,
        Joint::Always => false,
        Joint::Test => false,
        Joint::Not => false,
        Joint::Or => false,
    }
}

/// How many expressions a joint joins.
fn parts_of(joint: Joint) -> usize
    ensures { result ≡ parts_of joint }
{
    match joint {
        Joint::Always => 0,
        Joint::Test => 0,
        Joint::Not => 1,
        Joint::And => 2,
        Joint::Or => 2,
    }
}

/// How many tests an expression has beside those of the expressions that its last joint joins.
fn own_tests(joint: Joint) -> usize
    ensures { result ≡ own_tests joint }
{
    match joint {
        Joint::Test => 1,
        Joint::Always | Joint::Not | Joint::And | Joint::Or => 0,
    }
}

/// The expression that is made of equal tests and of these joints.
///
/// `NoMemory` where an allocation failed.
fn expr_of<T: Twin>(alloc: Global, tests: &[T], joints: &[Joint]) -> Result<Expr<T>, NoMemory>
    requires { IsPolish tests.now joints.now }
    ensures { (c : Condition T) → tests.now ≡ tests_of c → joints.now ≡ joints_of c
        → IfOk result (λ e. e ≡ c) }
{
    let mut own = Seq::new(alloc);
    for test in tests {
        own.push(test.twin(alloc)?)?;
    }
    let joints = Seq::from_slice(alloc, joints)?;
    Ok(Expr { tests: own, joints })
}

/// A row meets a condition where it meets each of its conjuncts.
pub fn conjuncts_are_the_condition()
    ensures { (c : Condition Test) (row : Row)
        → eval c row ≡ list_all (λ d. eval d row) (conjuncts_of c) }
{}
