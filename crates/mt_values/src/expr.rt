// Conditions of rows, as they were written and as they are asked.
//
// An expression is kept as the list of its tests, in the order of the text, and the list of its joints in Polish order: a joint
// takes the truths of what stands before it from a stack and puts its own there. So it has no pointer, and nothing that reads it
// goes deeper than it is long. Contracts see the tree.
ghost use Rattle.std.specs.Prelude.{◌≡◌, ◌+◌, ◌≤◌, [], ◌∷◌, ◌++◌, IfOk, OnErr, OnOk, length, map};
ghost use Rattle.mt_values.specs.Conditions as condition;
ghost use Rattle.mt_values.specs.Conditions.{height, map_tests, tests_of};
ghost use Rattle.mt_values.specs.Polish.{joints_of};

use crate::{Bytes, Literals, Name};
use mt_base::{NoMemory, Seq, Twin};
use std::alloc::Global;
use std::marker::Model;

/// How a value is compared with a literal.
#[derive(Clone, Copy, Debug, PartialEq, Eq)]
pub enum Comparison {
    Equal,
    NotEqual,
    Less,
    LessOrEqual,
    Greater,
    GreaterOrEqual,
}

/// A literal as it was written.
#[derive(Drop)]
pub enum LiteralText {
    /// Whether a minus stands before it, and its digits.
    Number { negative: bool, digits: Bytes },
    /// What a string says.
    Text(Bytes),
}

/// A literal, and the place of its first token in the statement, from 0.
#[derive(Drop)]
pub struct Literal {
    pub at: usize,
    pub text: LiteralText,
}

/// A comparison of a column with literals, as it was written; with several by IN, which is `Equal` with one of them.
#[derive(Drop)]
pub struct TestText {
    pub column: Name,
    pub comparison: Comparison,
    pub literals: Seq<Literal>,
}

/// A comparison of the column at a place with literals of its type: it holds where it holds with one of them.
#[derive(Drop)]
pub struct Test {
    pub column: u32,
    pub comparison: Comparison,
    pub literals: Literals,
}

impl Comparison {
    ghost use Rattle.std.specs.Prelude.{◌≡◌};
    ghost use Rattle.mt_values.specs.Tests.{is_equal};

    /// Whether it is `=`, which IN is too.
    pub fn is_equal(self) -> bool
        ensures { result ≡ is_equal self }
    {
        match self {
            Comparison::Equal => true,
            Comparison::NotEqual
            | Comparison::Less
            | Comparison::LessOrEqual
            | Comparison::Greater
            | Comparison::GreaterOrEqual => false,
        }
    }
}

/// What an expression is made of, in Polish order.
#[derive(Clone, Copy, Debug, PartialEq, Eq)]
pub enum Joint {
    /// No condition: it is true.
    Always,
    /// The next of the tests.
    Test,
    Not,
    And,
    Or,
}

/// The greatest number of truths that have to be kept at once: two for each open parenthesis that a statement may have, two
/// outside of them, and that of a test.
pub const MOST_TRUTHS: usize = 131;

/// An expression over tests. Contracts see it as a tree.
#[derive(Drop)]
pub struct Expr<T> {
    pub(crate) tests: Seq<T>,
    pub(crate) joints: Seq<Joint>,
}

impl<T> Model for Expr<T> {
    ghost use Rattle.mt_values.specs.Conditions.{Condition};
    ghost use Rattle.mt_values.specs.Polish.{IsPolish, built};
    ghost use Rattle.mt_values.specs.PolishCode.{condition_code};
    ghost use Rattle.std.specs.Prelude.{[]};

    ghost Value = { Condition T };

    ghost coded = { condition_code T.code };

    ghost view = { λ e. built e.tests [] e.joints };

    ghost invariant = { λ e. IsPolish e.tests e.joints };
}

impl<T: Drop> Expr<T> {
    /// No condition.
    ///
    /// `NoMemory` where an allocation failed.
    pub fn always(alloc: Global) -> Result<Self, NoMemory>
        ensures { IfOk result (λ e. e ≡ condition.Always) }
    {
        let mut joints = Seq::new(alloc);
        joints.push(Joint::Always)?;
        let tests = Seq::new(alloc);
        Ok(Expr { tests, joints })
    }

    /// The expression of one test.
    ///
    /// `NoMemory` where an allocation failed.
    pub fn of(alloc: Global, test: T) -> Result<Self, NoMemory>
        ensures { IfOk result (λ e. e ≡ condition.Holds test) }
    {
        let mut joints = Seq::new(alloc);
        joints.push(Joint::Test)?;
        let mut tests = Seq::new(alloc);
        tests.push(test)?;
        Ok(Expr { tests, joints })
    }

    /// Turns it into its negation.
    ///
    /// `NoMemory` where the allocation failed; it stays as it was.
    pub fn negate(&mut self) -> Result<(), NoMemory>
        ensures ok { OnOk result (self.new ≡ condition.Not self.old) }
        ensures err { OnErr result (self.new ≡ self.old) }
    {
        self.joints.push(Joint::Not)?;
        Ok(())
    }

    /// Adds a condition that has to hold too. Takes time in proportion to the one that is added.
    ///
    /// `NoMemory` where an allocation failed; then the expression is given up.
    pub fn and(self, other: Expr<T>) -> Result<Self, NoMemory>
        requires { height other + 1 ≤ MOST_TRUTHS }
        ensures { IfOk result (λ e. e ≡ condition.And self other) }
    {
        let (tests, joints) = both(self, other, Joint::And)?;
        Ok(Expr { tests, joints })
    }

    /// Adds a condition that may hold instead. Takes time in proportion to the one that is added.
    ///
    /// `NoMemory` where an allocation failed; then the expression is given up.
    pub fn or(self, other: Expr<T>) -> Result<Self, NoMemory>
        requires { height other + 1 ≤ MOST_TRUTHS }
        ensures { IfOk result (λ e. e ≡ condition.Or self other) }
    {
        let (tests, joints) = both(self, other, Joint::Or)?;
        Ok(Expr { tests, joints })
    }

    /// Its tests, in the order of the text.
    pub fn tests(&self) -> &[T]
        ensures { result.now ≡ tests_of self.now }
    {
        self.tests.as_slice()
    }

    /// Its joints in Polish order. A stack of `MOST_TRUTHS` truths is enough for them.
    pub fn joints(&self) -> &[Joint]
        ensures joints { result.now ≡ joints_of self.now }
        ensures few { height self.now ≤ MOST_TRUTHS }
    {
        self.joints.as_slice()
    }

    /// The same expression over what becomes of its tests, in their order.
    ///
    /// `NoMemory` where an allocation failed.
    pub fn with_tests<U: Drop>(&self, alloc: Global, tests: Seq<U>) -> Result<Expr<U>, NoMemory>
        requires { length tests ≡ length (tests_of self.now) }
        ensures { (f : T → U) → tests ≡ map f (tests_of self.now)
            → IfOk result (λ e. e ≡ map_tests f self.now) }
    {
        let joints = Seq::from_slice(alloc, self.joints.as_slice())?;
        Ok(Expr { tests, joints })
    }
}

// What both are made of, one after the other, and then what joins them.
fn both<T: Drop>(
    first: Expr<T>,
    second: Expr<T>,
    joint: Joint,
) -> Result<(Seq<T>, Seq<Joint>), NoMemory>
    ensures tests { IfOk result (λ p. p.0 ≡ tests_of first ++ tests_of second) }
    ensures joints { IfOk result (λ p. p.1 ≡ joints_of first ++ joints_of second ++ joint ∷ []) }
    ensures few { IfOk result (λ _. height first ≤ MOST_TRUTHS) }
{
    let mut tests = first.tests.into_vec();
    tests.append(&mut second.tests.into_vec())?;
    let mut joints = first.joints;
    joints.extend(second.joints.as_slice())?;
    joints.push(joint)?;
    Ok((Seq::of(tests), joints))
}

impl<T: Twin> Twin for Expr<T> {
    fn twin(&self, alloc: Global) -> Result<Self, NoMemory> {
        let tests = self.tests.twin(alloc)?;
        let joints = Seq::from_slice(alloc, self.joints.as_slice())?;
        Ok(Expr { tests, joints })
    }
}
