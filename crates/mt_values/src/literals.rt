// The literals of a test, among which a value is sought by bisection.
//
// Where they are many, the same values stand beside the list of the text in ascending order. Whether one of them compares so with a
// value does not depend on their order, so contracts see the list of the text alone. Copies share one list.
ghost use Rattle.std.specs.Prelude.{◌≡◌, ◌≤◌, IfOk, false, length, slice_get, true};
ghost use Rattle.std.specs.List.{AllWithin, list_any};
ghost use Rattle.std.specs.List.Sorted.{IsSorted};
ghost use Rattle.std.specs.Ordering.{is_ge, is_le, is_lt};
ghost use Rattle.mt_values.specs.Cells.{value_of};
ghost use Rattle.mt_values.specs.Order.{value_cmp};
ghost use Rattle.mt_values.specs.Searches.{IsSearched, lies_within, some_up_to};
ghost use Rattle.mt_values.specs.Tests.{is_among};

use crate::sorting::cmp_cells;
use crate::{Cell, Value, cmp_value};
use mt_base::{NoMemory, Seq, Twin};
use std::alloc::Global;
use std::marker::Model;
use std::sync::Arc;

/// The most literals that are gone over one after the other.
pub(crate) const FEW: usize = 4;

/// Values as they were listed, and where they are many in ascending order too. Contracts see the list.
#[derive(Drop)]
struct Searched {
    listed: Seq<Value>,
    /// The same values; or none, and then those that are listed are gone over.
    ascending: Vec<Value>,
}

impl Model for Searched {
    ghost use Rattle.std.specs.Prelude.{List};
    ghost use Rattle.mt_values.specs.Searches.{IsSearched};
    ghost use Rattle.mt_values.specs.declared.value.Value.{Value as Item};

    ghost Value = { List Item };

    ghost view = { λ s. s.listed };

    ghost invariant = { λ s. IsSearched s.listed s.ascending.items };
}

/// Literals as they were listed. Contracts see the list.
#[derive(Drop)]
pub struct Literals {
    shared: Arc<Searched, Global>,
}

impl Model for Literals {
    ghost use Rattle.std.specs.Prelude.{List};
    ghost use Rattle.std.specs.Arc.{arc_value};
    ghost use Rattle.mt_values.specs.declared.value.Value.{Value as Item};

    ghost Value = { List Item };

    ghost view = { λ l. arc_value l.shared };
}

impl Searched {
    /// The values of a list. Takes time in proportion to sorting them.
    ///
    /// `NoMemory` where an allocation failed.
    fn of(alloc: Global, listed: Seq<Value>) -> Result<Self, NoMemory>
        ensures { IfOk result (λ s. s ≡ listed) }
    {
        let ascending = ascending(alloc, &listed)?;
        Ok(Searched { listed, ascending })
    }

    /// The number of values.
    fn len(&self) -> usize
        ensures { result ≡ length self.now }
    {
        self.listed.len()
    }

    /// The values, as they were listed.
    fn listed(&self) -> &[Value]
        ensures { result.now ≡ self.now }
    {
        self.listed.as_slice()
    }

    /// Whether one of the values stands from a value on up to another.
    fn any_within(&self, least: Cell, greatest: Cell) -> bool
        ensures { result ≡ list_any
            (lies_within (value_of least.entry) (value_of greatest.entry)) self.now }
    {
        let ascending = self.ascending.as_slice();
        if ascending.is_empty() {
            return some_within(self.listed.as_slice(), least, greatest);
        }
        found_within(ascending, least, greatest)
    }

    /// Whether one of the values stands at another or below it.
    fn any_up_to(&self, greatest: Cell) -> bool
        ensures { result ≡ list_any
            (λ l. is_ge (value_cmp (value_of greatest.entry) l)) self.now }
    {
        let ascending = self.ascending.as_slice();
        if ascending.is_empty() {
            return any_listed_up_to(self.listed.as_slice(), greatest);
        }
        first_up_to(ascending, greatest)
    }

    /// Whether one of the values stands at another or above it.
    fn any_from_on(&self, least: Cell) -> bool
        ensures { result ≡ list_any
            (λ l. is_le (value_cmp (value_of least.entry) l)) self.now }
    {
        let ascending = self.ascending.as_slice();
        if ascending.is_empty() {
            return any_listed_from_on(self.listed.as_slice(), least);
        }
        found_from_on(ascending, least)
    }
}

impl Literals {
    /// The literals of a list. Takes time in proportion to sorting them.
    ///
    /// `NoMemory` where an allocation failed.
    pub fn of(alloc: Global, listed: Seq<Value>) -> Result<Self, NoMemory>
        ensures { IfOk result (λ l. l ≡ listed) }
    {
        let searched = Searched::of(alloc, listed)?;
        let shared = Arc::new(alloc, searched)?;
        Ok(Literals { shared })
    }

    /// The number of literals.
    pub fn len(&self) -> usize
        ensures { result ≡ length self.now }
    {
        self.shared.len()
    }

    /// The literals, as they were listed.
    pub fn as_slice(&self) -> &[Value]
        ensures { result.now ≡ self.now }
    {
        self.shared.listed()
    }

    /// Whether one of the literals stands from a value on up to another. Takes no memory, and where they are many time in proportion to
    /// the logarithm of their number.
    pub fn any_within(&self, least: Cell, greatest: Cell) -> bool
        ensures { result ≡ list_any
            (lies_within (value_of least.entry) (value_of greatest.entry)) self.now }
    {
        self.shared.any_within(least, greatest)
    }

    /// Whether one of the literals stands at a value or below it. Takes no memory, and where they are many one comparison.
    pub fn any_up_to(&self, greatest: Cell) -> bool
        ensures { result ≡ list_any
            (λ l. is_ge (value_cmp (value_of greatest.entry) l)) self.now }
    {
        self.shared.any_up_to(greatest)
    }

    /// Whether one of the literals stands at a value or above it. Takes no memory, and where they are many time in proportion to the
    /// logarithm of their number.
    pub fn any_from_on(&self, least: Cell) -> bool
        ensures { result ≡ list_any
            (λ l. is_le (value_cmp (value_of least.entry) l)) self.now }
    {
        self.shared.any_from_on(least)
    }

    /// Whether a value is one of the literals. Takes no memory, and where they are many time in proportion to the logarithm of their
    /// number.
    pub fn has(&self, cell: Cell) -> bool
        ensures { result ≡ is_among self.now (value_of cell.entry) }
    {
        self.any_within(cell, cell)
    }
}

impl Twin for Literals {
    fn twin(&self, _alloc: Global) -> Result<Self, NoMemory> {
        let shared = Arc::try_clone(&self.shared)?;
        Ok(Literals { shared })
    }
}

/// What is searched in place of a list: its values in ascending order, where they are many; else none.
///
/// `NoMemory` where an allocation failed.
fn ascending(alloc: Global, listed: &Seq<Value>) -> Result<Vec<Value>, NoMemory>
    ensures { IfOk result (λ v. IsSearched listed.now v.items) }
{
    if listed.len() > FEW {
        return sorted_twin(alloc, listed);
    }
    Ok(Vec::new(alloc))
}

/// Equal values in ascending order.
///
/// `NoMemory` where an allocation failed.
fn sorted_twin(alloc: Global, listed: &Seq<Value>) -> Result<Vec<Value>, NoMemory>
    ensures { IfOk result (λ v. IsSearched listed.now v.items) }
{
    let mut values = listed.twin(alloc)?.into_vec();
    values.sort_unstable_by(|a, b| cmp_value(a, b));
    Ok(values)
}

/// Whether a value stands from another on up to a third.
fn lies_within(value: &Value, least: Cell, greatest: Cell) -> bool
    ensures { result ≡ lies_within (value_of least.entry) (value_of greatest.entry) value.now }
{
    let cell = Cell::of(value);
    cmp_cells(least, cell).is_le() & cmp_cells(cell, greatest).is_le()
}

/// Whether one of these values stands from a value on up to another.
fn some_within(listed: &[Value], least: Cell, greatest: Cell) -> bool
    ensures { result ≡ list_any
        (lies_within (value_of least.entry) (value_of greatest.entry)) listed.now }
{
    listed
        .iter()
        .any(|value| lies_within(value, least, greatest))
}

/// Whether one of these ascending values stands from a value on up to another.
fn found_within(ascending: &[Value], least: Cell, greatest: Cell) -> bool
    requires { IsSorted value_cmp ascending.now }
    ensures { result ≡ list_any
        (lies_within (value_of least.entry) (value_of greatest.entry)) ascending.now }
{
    is_up_to(ascending, count_below(ascending, least), greatest)
}

/// Whether a value stands below another.
fn is_below(value: &Value, cell: Cell) -> bool
    ensures { result ≡ is_lt (value_cmp value.now (value_of cell.entry)) }
{
    cmp_cells(Cell::of(value), cell).is_lt()
}

/// How many of these ascending values stand below another: they come first.
fn count_below(ascending: &[Value], cell: Cell) -> usize
    requires { IsSorted value_cmp ascending.now }
    ensures within { result ≤ length ascending.now }
    ensures front { AllWithin (λ v. is_lt (value_cmp v (value_of cell.entry)) ≡ true)
        ascending.now 0 result }
    ensures back { AllWithin (λ v. is_lt (value_cmp v (value_of cell.entry)) ≡ false)
        ascending.now result (length ascending.now) }
{
    ascending.partition_point(|value| is_below(value, cell))
}

/// Whether there is a value at a place, counted from 0, and it stands at or below another.
fn is_up_to(values: &[Value], place: usize, greatest: Cell) -> bool
    ensures { result ≡ some_up_to (slice_get values.now place) (value_of greatest.entry) }
{
    match values.get(place) {
        Some(value) => cmp_cells(Cell::of(value), greatest).is_le(),
        None => false,
    }
}

/// Whether one of these values stands at another or below it.
fn any_listed_up_to(listed: &[Value], greatest: Cell) -> bool
    ensures { result ≡ list_any
        (λ l. is_ge (value_cmp (value_of greatest.entry) l)) listed.now }
{
    listed
        .iter()
        .any(|value| cmp_cells(greatest, Cell::of(value)).is_ge())
}

/// Whether one of these values stands at another or above it.
fn any_listed_from_on(listed: &[Value], least: Cell) -> bool
    ensures { result ≡ list_any
        (λ l. is_le (value_cmp (value_of least.entry) l)) listed.now }
{
    listed
        .iter()
        .any(|value| cmp_cells(least, Cell::of(value)).is_le())
}

/// Whether one of these ascending values stands at another or below it: the first of them.
fn first_up_to(ascending: &[Value], greatest: Cell) -> bool
    requires { IsSorted value_cmp ascending.now }
    ensures { result ≡ list_any
        (λ l. is_ge (value_cmp (value_of greatest.entry) l)) ascending.now }
{
    is_up_to(ascending, 0, greatest)
}

/// Whether one of these ascending values stands at another or above it: they are not all below it.
fn found_from_on(ascending: &[Value], least: Cell) -> bool
    requires { IsSorted value_cmp ascending.now }
    ensures { result ≡ list_any
        (λ l. is_le (value_cmp (value_of least.entry) l)) ascending.now }
{
    let count = count_below(ascending, least);
    if count < ascending.len() {
        return true;
    }
    false
}
