// What is asked of the rows of a table's parts: the conjuncts of the condition, each where it is not sure. Of a part the columns that the
// conjuncts name which are asked there are read, each once.
ghost use Rattle.std.specs.Prelude.{◌≡◌, ◌≢◌, ◌++◌, ℕ, IfOk, List, Some, flat_map, length, map, slice_get};
ghost use Rattle.std.specs.List.{AllPairs, AllZip};
ghost use Rattle.mt_values.specs.Conditions.{tests_of};
ghost use Rattle.mt_values.specs.declared.expr.Test.{Test};
ghost use Rattle.final_fold.specs.declared.asking.Conjunct.{Conjunct};
ghost use Rattle.final_fold.specs.Asked.{IsPlanOf, IsSieveOf, IsWanted, asked_somewhere, moved_to, tested};

use crate::counts::some_true;
use crate::pick_columns;
use mt_base::{NoMemory, Seq, Twin};
use mt_values::{Expr, Schema, Test};
use row_merge::part_reader::{Part, Sieve};
use std::alloc::Global;

/// What is wanted of the rows of a table's parts.
#[derive(Clone, Copy)]
pub struct Wanted<'a> {
    /// The table's columns.
    pub schema: &'a Schema,
    /// What a row has to meet; its tests name columns by their places, counted from 0.
    pub condition: &'a Expr<Test>,
    /// Its conjuncts.
    pub conjuncts: &'a [Expr<Test>],
    /// The places of the columns whose values are wanted.
    pub places: &'a [u32],
}

/// A conjunct, and whether it is asked in each granule of a part.
#[derive(Clone, Copy)]
struct Conjunct<'c, 'a> {
    condition: &'c Expr<Test>,
    granules: &'a [bool],
}

/// How a condition is asked of a part.
#[derive(Drop)]
pub(crate) struct Plan<'a> {
    /// The places of the columns that are read for it, each once.
    pub asked: Vec<u32>,
    /// The conjuncts that are asked in some granule.
    pub sieves: Vec<Sieve<'a>>,
}

/// A part, and what is read of it.
#[derive(Drop)]
pub(crate) struct Task<'a, 'p, F> {
    pub part: &'a Part<F>,
    /// Whether each granule of the part is chosen.
    pub chosen: &'a [bool],
    /// Whether each conjunct is asked in each granule.
    pub asked: &'a [Seq<bool>],
    pub wanted: Wanted<'a>,
    /// How the condition is asked.
    pub plan: &'p Plan<'a>,
}

/// How the condition is asked of a part, by the granules in which each conjunct is asked there.
///
/// `NoMemory` where an allocation failed.
pub(crate) fn make_plan<'a>(
    alloc: Global,
    wanted: &Wanted,
    asked: &'a [Seq<bool>],
) -> Result<Plan<'a>, NoMemory>
    requires { IsWanted wanted.now }
    ensures { IfOk result (IsPlanOf wanted.now asked.now) }
{
    let conjuncts = find_asked(alloc, wanted.conjuncts, asked)?;
    let named = named_columns(alloc, &conjuncts)?;
    let picked = pick_columns(alloc, wanted.schema.columns.len(), named.as_slice())?;
    let sieves = make_sieves(alloc, &conjuncts, picked.shown.as_slice())?;
    Ok(Plan {
        asked: picked.read,
        sieves,
    })
}

/// The conjuncts that are asked in some granule.
///
/// `NoMemory` where an allocation failed.
fn find_asked<'c, 'a>(
    alloc: Global,
    conjuncts: &'c [Expr<Test>],
    asked: &'a [Seq<bool>],
) -> Result<Vec<Conjunct<'c, 'a>>, NoMemory>
    ensures { IfOk result (λ v. map (λ (c : Conjunct). (c.condition.now, c.granules.now)) v.items
        ≡ asked_somewhere conjuncts.now asked.now) }
{
    let mut found = Vec::new(alloc);
    for (number, condition) in conjuncts.iter().enumerate() {
        let Some(granules) = asked.get(number) else {
            continue;
        };
        if !some_true(granules.as_slice()) {
            continue;
        }
        found.push(Conjunct {
            condition,
            granules: granules.as_slice(),
        })?;
    }
    Ok(found)
}

/// The columns that the tests of conjuncts name, in their order.
///
/// `NoMemory` where an allocation failed.
fn named_columns(alloc: Global, conjuncts: &[Conjunct]) -> Result<Vec<u32>, NoMemory>
    ensures { IfOk result (λ v. v.items ≡ flat_map
        (λ (c : Conjunct). tested c.condition.now) conjuncts.now) }
{
    let mut columns = Vec::new(alloc);
    for conjunct in conjuncts {
        add_tested(&mut columns, conjunct.condition.tests())?;
    }
    Ok(columns)
}

/// Adds the columns that tests name, in the order of the tests.
///
/// `NoMemory` where the allocation failed.
fn add_tested(columns: &mut Vec<u32>, tests: &[Test]) -> Result<(), NoMemory>
    ensures { IfOk result (λ _. columns.new.items ≡ columns.old.items
        ++ map (λ (t : Test). t.column) tests.now) }
{
    for test in tests {
        columns.push(test.column)?;
    }
    Ok(())
}

/// The conjuncts over the columns that are read, by the positions among these of the columns that their tests name, in their order.
///
/// `NoMemory` where an allocation failed.
fn make_sieves<'c, 'a>(
    alloc: Global,
    conjuncts: &[Conjunct<'c, 'a>],
    positions: &[u32],
) -> Result<Vec<Sieve<'a>>, NoMemory>
    requires { length positions.now ≡ length (flat_map
        (λ (c : Conjunct). tested c.condition.now) conjuncts.now) }
    ensures { (read : List ℕ) → AllPairs (λ a b. a ≢ b) read
        → map (slice_get read) positions.now ≡ map Some (flat_map
        (λ (c : Conjunct). tested c.condition.now) conjuncts.now)
        → IfOk result (λ v. AllZip (λ (c : Conjunct). IsSieveOf read
        (c.condition.now, c.granules.now)) conjuncts.now v.items) }
{
    let mut sieves = Vec::new(alloc);
    let mut rest = positions;
    for conjunct in conjuncts {
        let (own, more) = rest.split_at(conjunct.condition.tests().len());
        sieves.push(make_sieve(alloc, conjunct, own)?)?;
        rest = more;
    }
    Ok(sieves)
}

/// A conjunct over the columns that are read, by the positions among these of the columns that its tests name.
///
/// `NoMemory` where an allocation failed.
fn make_sieve<'c, 'a>(
    alloc: Global,
    conjunct: &Conjunct<'c, 'a>,
    positions: &[u32],
) -> Result<Sieve<'a>, NoMemory>
    requires { length positions.now ≡ length (tests_of conjunct.now.condition.now) }
    ensures { (read : List ℕ) → AllPairs (λ a b. a ≢ b) read
        → map (slice_get read) positions.now ≡ map Some (tested conjunct.now.condition.now)
        → IfOk result (IsSieveOf read
        (conjunct.now.condition.now, conjunct.now.granules.now)) }
{
    let moved = at_positions(alloc, conjunct.condition.tests(), positions)?;
    let condition = conjunct.condition.with_tests(alloc, moved)?;
    Ok(Sieve {
        condition,
        granules: conjunct.granules,
    })
}

/// The same tests of the columns at these positions.
///
/// `NoMemory` where an allocation failed.
fn at_positions(alloc: Global, tests: &[Test], positions: &[u32]) -> Result<Seq<Test>, NoMemory>
    requires { length positions.now ≡ length tests.now }
    ensures { IfOk result (λ moved. moved ≡ moved_to positions.now tests.now) }
{
    let mut moved = Seq::with_capacity(alloc, tests.len())?;
    for (number, test) in tests.iter().enumerate() {
        moved.push(Test {
            column: positions[number],
            comparison: test.comparison,
            literals: test.literals.twin(alloc)?,
        })?;
    }
    Ok(moved)
}
