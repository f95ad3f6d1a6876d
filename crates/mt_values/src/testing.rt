// Which values of a column meet a test: one match on the column's type, and then one loop for each literal over the
// vector of that type. Among many literals each value is sought by bisection.
ghost use Rattle.std.specs.Prelude.{◌≡◌, ◌≤◌, ◌+◌, ◌||◌, Bool, IfOk, List, ℕ, length, map, true};
ghost use Rattle.std.specs.Cmp.Lexicographic.{slice_cmp};
ghost use Rattle.std.specs.Ordering.{nat_cmp};
ghost use Rattle.mt_values.specs.Cells.{value_of};
ghost use Rattle.mt_values.specs.Columns.{cells_of};
ghost use Rattle.mt_values.specs.Lists.{run_of};
ghost use Rattle.mt_values.specs.Order.{value_cmp};
ghost use Rattle.mt_values.specs.Tests.{is_among, is_equal, meets, says};
ghost use Rattle.mt_values.specs.declared.value.Value.{Value};

use crate::column::Cells;
use crate::eval::says;
use crate::literals::FEW;
use crate::sorting::cmp_cells;
use crate::strings::Strings;
use crate::{Cell, ColumnData, Comparison, Literals, Test, Value};
use mt_base::NoMemory;
use std::alloc::Global;

impl ColumnData {
    /// Whether each value meets a test, in the order of the values.
    ///
    /// `NoMemory` where an allocation failed.
    pub fn tested(&self, alloc: Global, test: &Test) -> Result<Vec<bool>, NoMemory>
        ensures { IfOk result (λ v. v.items ≡ map (meets test.now) self.now.values) }
    {
        self.tested_within(alloc, test, 0, self.len())
    }

    /// Whether each value of a run meets a test: of so many values from a place on, counted from 0, in their order.
    ///
    /// `NoMemory` where an allocation failed.
    pub fn tested_within(
        &self,
        alloc: Global,
        test: &Test,
        from: usize,
        count: usize,
    ) -> Result<Vec<bool>, NoMemory>
        requires { from + count ≤ length self.now.values }
        ensures { IfOk result
            (λ v. v.items ≡ map (meets test.now) (run_of from count self.now.values)) }
    {
        if is_sought(test) {
            return self.sought_within(alloc, &test.literals, from, count);
        }
        let mut mask = vec![in alloc; false; count]?;
        for literal in test.literals.as_slice() {
            self.cells
                .add_met(&mut mask, from, test.comparison, literal);
        }
        Ok(mask)
    }

    /// Whether each value of a run is one of some literals: of so many values from a place on, counted from 0, in their order. Each is
    /// sought by bisection.
    ///
    /// `NoMemory` where an allocation failed.
    fn sought_within(
        &self,
        alloc: Global,
        literals: &Literals,
        from: usize,
        count: usize,
    ) -> Result<Vec<bool>, NoMemory>
        requires { from + count ≤ length self.now.values }
        ensures { IfOk result (λ v. v.items
            ≡ map (is_among literals.now) (run_of from count self.now.values)) }
    {
        // The places are those of values, so 64 bits count them.
        let values = self.len();
        let mut mask = Vec::with_capacity(alloc, count)?;
        for place in 0..count {
            mask.push_reserved(literals.has(self.at(from + place)));
        }
        Ok(mask)
    }
}

/// Whether each value of a column is sought among a test's literals: of IN, where they are many.
fn is_sought(test: &Test) -> bool
    ensures { result ≡ true → is_equal test.now.comparison ≡ true }
{
    if test.comparison.is_equal() {
        return test.literals.len() > FEW;
    }
    false
}

impl Cells {
    /// Adds to a mask of the values from a place on those that compare so with a literal. A literal of another type, which no
    /// statement gives, is asked of each value by itself.
    fn add_met(&self, mask: &mut [bool], from: usize, comparison: Comparison, literal: &Value)
        requires { from + length mask.old ≤ length (cells_of self.now).values }
        ensures { (f : Value → Bool)
            → mask.old ≡ map f (run_of from (length mask.old) (cells_of self.now).values)
            → mask.new ≡ map (λ v. f v || says comparison (value_cmp v literal.now))
            (run_of from (length mask.old) (cells_of self.now).values) }
    {
        let count = mask.len();
        match (self, literal) {
            (Cells::UInt8(v), Value::UInt8(n)) => {
                add_numbers(mask, comparison, run_of(v, from, count), *n)
            }
            (Cells::UInt16(v), Value::UInt16(n)) => {
                add_numbers(mask, comparison, run_of(v, from, count), *n)
            }
            (Cells::UInt32(v), Value::UInt32(n)) => {
                add_numbers(mask, comparison, run_of(v, from, count), *n)
            }
            (Cells::UInt64(v), Value::UInt64(n)) => {
                add_numbers(mask, comparison, run_of(v, from, count), *n)
            }
            (Cells::Int8(v), Value::Int8(n)) => {
                add_numbers(mask, comparison, run_of(v, from, count), *n)
            }
            (Cells::Int16(v), Value::Int16(n)) => {
                add_numbers(mask, comparison, run_of(v, from, count), *n)
            }
            (Cells::Int32(v), Value::Int32(n)) => {
                add_numbers(mask, comparison, run_of(v, from, count), *n)
            }
            (Cells::Int64(v), Value::Int64(n)) => {
                add_numbers(mask, comparison, run_of(v, from, count), *n)
            }
            (Cells::Text(v), Value::Text(s)) => add_texts(mask, from, comparison, v, s.as_slice()),
            _ => self.add_values(mask, from, comparison, Cell::of(literal)),
        }
    }

    /// Adds to a mask of the values from a place on those that compare so with a literal of any type.
    fn add_values(&self, mask: &mut [bool], from: usize, comparison: Comparison, literal: Cell)
        requires { from + length mask.old ≤ length (cells_of self.now).values }
        ensures { (f : Value → Bool)
            → mask.old ≡ map f (run_of from (length mask.old) (cells_of self.now).values)
            → mask.new ≡ map (λ v. f v || says comparison (value_cmp v (value_of literal.entry)))
            (run_of from (length mask.old) (cells_of self.now).values) }
    {
        // The places are those of values, so 64 bits count them.
        let values = self.len();
        for place in 0..mask.len() {
            mask[place] = mask[place] | says(comparison, cmp_cells(self.at(from + place), literal));
        }
    }
}

/// So many items, from a place on.
fn run_of<T>(items: &[T], from: usize, count: usize) -> &[T]
    requires { from + count ≤ length items.now }
    ensures run { result.now ≡ run_of from count items.now }
    ensures count { length result.now ≡ count }
{
    let (_before, rest) = items.split_at(from);
    let (run, _after) = rest.split_at(count);
    run
}

/// Adds to a mask the numbers that compare so with another.
fn add_numbers<T: Ord + Copy>(mask: &mut [bool], comparison: Comparison, numbers: &[T], literal: T)
    requires { length mask.old ≡ length numbers.now }
    ensures { (f : T → Bool) → mask.old ≡ map f numbers.now
        → mask.new ≡ map (λ n. f n || says comparison (T.cmp n literal)) numbers.now }
{
    for (place, number) in numbers.iter().enumerate() {
        mask[place] = mask[place] | says(comparison, number.cmp(&literal));
    }
}

/// Adds to a mask of the texts from a place on those that compare so with another.
fn add_texts(
    mask: &mut [bool],
    from: usize,
    comparison: Comparison,
    texts: &Strings,
    literal: &[u8],
)
    requires { from + length mask.old ≤ length texts.now }
    ensures { (f : List ℕ → Bool) → mask.old ≡ map f (run_of from (length mask.old) texts.now)
        → mask.new ≡ map (λ s. f s || says comparison (slice_cmp nat_cmp s literal.now))
        (run_of from (length mask.old) texts.now) }
{
    // The places are those of texts, so 64 bits count them.
    let count = texts.len();
    for place in 0..mask.len() {
        mask[place] = mask[place] | says(comparison, texts.at(from + place).cmp(&literal));
    }
}
