// The truth of a condition on each row of columns: joint by joint, over masks of all rows.
ghost use Rattle.std.specs.Prelude.{◌≡◌, ◌<◌, ◌≤◌, ◌+◌, ◌∷◌, [], All, Bool, IfOk, List, length, map, not};
ghost use Rattle.mt_values.specs.Grid.{Cells, rows_within};
ghost use Rattle.mt_values.specs.Polish.{ComesTo};
ghost use Rattle.mt_values.specs.Tests.{eval, meets_at};
ghost use Rattle.mt_values.specs.declared.expr.Joint.{Joint};
ghost use Rattle.predicate.specs.Masks.{AreMasks, AreTwo, MayMask, both, by_rows, one, rows_asked, turned, with_both, with_one};

use mt_base::{NoMemory, Seq};
use mt_values::{ColumnData, Expr, Joint, Test};
use std::alloc::Global;
use std::marker::Model;

/// Columns of which some rows are asked: so many, from a place on.
#[derive(Clone, Copy)]
struct Asked<'a> {
    columns: &'a [ColumnData],
    from: usize,
    rows: usize,
}

/// The masks of the parts of a condition that were asked, the last one on top. Contracts see the list of them, the last one first.
#[derive(Drop)]
struct Masks {
    kept: Vec<Seq<bool>>,
}

impl Model for Masks {
    ghost use Rattle.std.specs.Prelude.{Bool, List, reverse};

    ghost Value = { List (List Bool) };

    ghost view = { λ m. reverse m.kept.items };
}

impl Masks {
    /// No mask. Takes no memory.
    fn new(alloc: Global) -> Self
        ensures { result ≡ [] }
    {
        Masks {
            kept: Vec::new(alloc),
        }
    }

    /// Puts a mask on top.
    ///
    /// `NoMemory` where the allocation failed; the mask is given up.
    fn push(&mut self, mask: Vec<bool>) -> Result<(), NoMemory>
        ensures { IfOk result (λ _. self.new ≡ mask.items ∷ self.old) }
    {
        self.kept.push(Seq::of(mask))?;
        Ok(())
    }

    /// Takes the mask from the top.
    fn pop(&mut self) -> Vec<bool>
        requires { 0 < length self.old }
        ensures { self.old ≡ result.items ∷ self.new }
    {
        let Some(mask) = self.kept.pop() else {
            unreachable!();
        };
        mask.into_vec()
    }

    /// Turns each answer of the mask on top round.
    ///
    /// `NoMemory` where the allocation failed; the mask is given up.
    fn turn(&mut self) -> Result<(), NoMemory>
        requires { 0 < length self.old }
        ensures { IfOk result (λ _. self.new ≡ turned self.old) }
    {
        let mut mask = self.pop();
        negate(&mut mask);
        self.push(mask)
    }

    /// Leaves of the two masks on top one, with the answers that are true in both.
    ///
    /// `NoMemory` where the allocation failed; both are given up.
    fn keep_both(&mut self) -> Result<(), NoMemory>
        requires { AreTwo self.old }
        ensures { IfOk result (λ _. self.new ≡ with_both self.old) }
    {
        let last = self.pop();
        let mut mask = self.pop();
        intersect(&mut mask, &last);
        self.push(mask)
    }

    /// Leaves of the two masks on top one, with the answers that are true in one of them.
    ///
    /// `NoMemory` where the allocation failed; both are given up.
    fn keep_one(&mut self) -> Result<(), NoMemory>
        requires { AreTwo self.old }
        ensures { IfOk result (λ _. self.new ≡ with_one self.old) }
    {
        let last = self.pop();
        let mut mask = self.pop();
        unite(&mut mask, &last);
        self.push(mask)
    }
}

/// Whether the condition is true of each of so many rows of the columns, from a place on, counted from 0, in the order of the rows. A
/// test of a column that is not there is false of each row.
///
/// `NoMemory` where an allocation failed.
pub fn mask_within(
    alloc: Global,
    condition: &Expr<Test>,
    columns: &[ColumnData],
    from: usize,
    rows: usize,
) -> Result<Vec<bool>, NoMemory>
    requires { All (λ (c : Cells). from + rows ≤ length c.values) columns.now }
    ensures { IfOk result
        (λ m. m.items ≡ map (eval condition.now) (rows_within columns.now from rows)) }
{
    let asked = Asked {
        columns,
        from,
        rows,
    };
    let mut tests = condition.tests();
    let mut masks = Masks::new(alloc);
    for joint in condition.joints() {
        tests = step(alloc, &asked, tests, *joint, &mut masks)?;
    }
    Ok(masks.pop())
}

/// Takes a joint: its mask is put on top, in place of those that it joins. Returns the tests that are left.
///
/// `NoMemory` where an allocation failed.
fn step<'a>(
    alloc: Global,
    asked: &Asked,
    tests: &'a [Test],
    joint: Joint,
    masks: &mut Masks,
) -> Result<&'a [Test], NoMemory>
    requires long { All (λ (c : Cells). asked.now.from + asked.now.rows ≤ length c.values)
        asked.now.columns.now }
    requires joint { MayMask (rows_asked asked.now) tests.now masks.old joint }
    requires masks { AreMasks (rows_asked asked.now) masks.old }
    ensures found { (found : List Bool) (rest : List Joint)
        → ComesTo (by_rows (rows_asked asked.now)) found tests.now masks.old (joint ∷ rest)
        → IfOk result (λ left. ComesTo (by_rows (rows_asked asked.now)) found left.now
        masks.new rest) }
    ensures masks { IfOk result (λ _. AreMasks (rows_asked asked.now) masks.new) }
{
    match joint {
        Joint::Always => masks.push(vec![in alloc; true; asked.rows]?)?,
        Joint::Test => {
            masks.push(tested(alloc, asked, &tests[0])?)?;
            return Ok(&tests[1..]);
        }
        Joint::Not => masks.turn()?,
        Joint::And => masks.keep_both()?,
        Joint::Or => masks.keep_one()?,
    }
    Ok(tests)
}

/// Whether each row meets a test.
///
/// `NoMemory` where an allocation failed.
fn tested(alloc: Global, asked: &Asked, test: &Test) -> Result<Vec<bool>, NoMemory>
    requires { All (λ (c : Cells). asked.now.from + asked.now.rows ≤ length c.values)
        asked.now.columns.now }
    ensures { IfOk result (λ m. m.items ≡ map (λ row. meets_at row test.now)
        (rows_asked asked.now)) }
{
    match asked.columns.get(test.column as usize) {
        Some(column) => column.tested_within(alloc, test, asked.from, asked.rows),
        None => Ok(vec![in alloc; false; asked.rows]?),
    }
}

/// Turns each answer of a mask round.
fn negate(mask: &mut [bool])
    ensures { mask.new ≡ map not mask.old }
{
    for truth in mask.iter_mut() {
        *truth = !*truth;
    }
}

/// Leaves the answers of a mask true where those of another mask are too. Takes no memory.
pub fn intersect(mask: &mut [bool], other: &[bool])
    requires { length mask.old ≡ length other.now }
    ensures { mask.new ≡ both mask.old other.now }
{
    for (place, truth) in other.iter().enumerate() {
        mask[place] = mask[place] & *truth;
    }
}

/// Makes the answers true where those of another mask are.
fn unite(mask: &mut [bool], other: &[bool])
    requires { length mask.old ≡ length other.now }
    ensures { mask.new ≡ one mask.old other.now }
{
    for (place, truth) in other.iter().enumerate() {
        mask[place] = mask[place] | *truth;
    }
}
