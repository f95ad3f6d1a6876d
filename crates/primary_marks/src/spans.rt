// The granules that a condition has to be asked of, found by bisection where the first values of the keys rise (docs/architecture.md,
// "Spans of granules").
//
// A granule's first values lie from that of its own key to that of the next one. So a test of the column with which the primary key
// begins leaves granules that stand side by side, and in each other granule it is false of all rows. What one side of an AND misses
// the AND misses. No other joint is looked into: it leaves all granules.
ghost use Rattle.std.specs.Prelude.{◌≡◌, ◌<◌, ◌≤◌, ◌∷◌, ◌↔◌, IsTrue, List, length};
ghost use Rattle.std.specs.List.{list_any};
ghost use Rattle.mt_values.specs.Cells.{value_of};
ghost use Rattle.mt_values.specs.Conditions.{meant};
ghost use Rattle.mt_values.specs.Polish.{ComesTo};
ghost use Rattle.mt_values.specs.declared.expr.Joint.{Joint};
ghost use Rattle.predicate.specs.Granules.{parts_at};
ghost use Rattle.primary_marks.specs.Rising.{RiseByFirst};
ghost use Rattle.primary_marks.specs.Spans.{MissesOutside, all_of, by_spans, common, count_before, from_on, is_first, is_numbered, leads, part_boxes, span_by, stands_before, up_to};

use crate::marks::Marks;
use mt_base::Partition;
use mt_values::{Cell, Comparison, Expr, Joint, Schema, Stack, Test, Value, cmp_cells};

/// The granules from one place, counted from 0, up to another.
#[derive(Clone, Copy)]
pub(crate) struct Span {
    pub first: usize,
    pub end: usize,
}

/// Where the values end that stand before what a test leaves, and where what it leaves ends.
#[derive(Clone, Copy)]
pub(crate) enum Edge {
    First,
    End,
}

/// The keys that are kept of a partition's part.
#[derive(Clone, Copy)]
pub(crate) struct PartKeys<'a> {
    pub schema: &'a Schema,
    pub partition: &'a Partition,
    pub marks: &'a Marks,
}

impl Span {
    /// All granules of a part.
    fn all(marks: &Marks) -> Span
        ensures { result ≡ all_of marks.now }
    {
        Span {
            first: 0,
            end: marks.len(),
        }
    }

    /// Whether a granule, counted from 0, is one of them.
    pub(crate) fn contains(&self, granule: usize) -> bool
        ensures { IsTrue result ↔ (self.now.first ≤ granule) × (granule < self.now.end) }
    {
        self.first <= granule && granule < self.end
    }

    /// The granules of both.
    fn common(&self, other: &Span) -> Span
        ensures { result ≡ common self.now other.now }
    {
        Span {
            first: self.first.max(other.first),
            end: self.end.min(other.end),
        }
    }
}

/// Granules outside of which the condition is true of no row. They are all of the part's where nothing is known of the order of the
/// first values, or no test that has to hold compares them. Takes no memory.
pub(crate) fn span_of(part: &PartKeys, condition: &Expr<Test>) -> Span
    ensures { MissesOutside result condition.now (part_boxes part.now) }
{
    if !part.marks.rise() {
        return Span::all(part.marks);
    }
    span_left(part, condition)
}

/// The granules that the condition leaves by its tests of the first values.
fn span_left(part: &PartKeys, condition: &Expr<Test>) -> Span
    requires { RiseByFirst part.now.marks.now }
    ensures { result ≡ meant (by_spans part.now) condition.now }
{
    let mut tests = condition.tests();
    let mut spans = Stack::new(Span::all(part.marks));
    for joint in condition.joints() {
        tests = step(part, tests, *joint, &mut spans);
    }
    spans.pop()
}

// Takes a joint: its span is put on top, in place of those that it joins. Returns the tests that are left.
fn step<'a>(part: &PartKeys, tests: &'a [Test], joint: Joint, spans: &mut Stack<Span>) -> &'a [Test]
    requires rise { RiseByFirst part.now.marks.now }
    requires joint { (found : Span) × (rest : List Joint)
        × ComesTo (by_spans part.now) found tests.now spans.old (joint ∷ rest) }
    ensures { (found : Span) (rest : List Joint)
        → ComesTo (by_spans part.now) found tests.now spans.old (joint ∷ rest)
        → ComesTo (by_spans part.now) found result.now spans.new rest }
{
    match joint {
        Joint::Always => spans.push(Span::all(part.marks)),
        Joint::Test => {
            spans.push(span_by(part, &tests[0]));
            return &tests[1..];
        }
        Joint::Not => {
            let _negated = spans.pop();
            spans.push(Span::all(part.marks));
        }
        Joint::And => {
            let last = spans.pop();
            let first = spans.pop();
            spans.push(first.common(&last));
        }
        Joint::Or => {
            let _last = spans.pop();
            let _first = spans.pop();
            spans.push(Span::all(part.marks));
        }
    }
    tests
}

/// The granules that a test leaves.
fn span_by(part: &PartKeys, test: &Test) -> Span
    requires { RiseByFirst part.now.marks.now }
    ensures { result ≡ span_by part.now test.now }
{
    if !leads(part.schema, part.partition, test.column as usize) {
        return Span::all(part.marks);
    }
    let before = count_before(part.marks, test, Edge::First);
    Span {
        first: before.saturating_sub(1),
        end: count_before(part.marks, test, Edge::End),
    }
}

/// Whether what is known of the table's column at a place in a granule's box is the range of the first values of two keys.
fn leads(schema: &Schema, partition: &Partition, place: usize) -> bool
    ensures { result ≡ leads schema.now partition.now place }
{
    place < schema.columns.len()
        && is_first(schema.primary.as_slice(), place)
        && !is_numbered(schema, partition, place)
}

/// Whether the column at a place is the first of the primary key.
fn is_first(primary: &[u32], place: usize) -> bool
    ensures { result ≡ is_first primary.now place }
{
    match primary.first() {
        Some(own) => *own as usize == place,
        None => false,
    }
}

/// Whether the column at a place has the partition's number in each row.
fn is_numbered(schema: &Schema, partition: &Partition, place: usize) -> bool
    ensures { result ≡ is_numbered schema.now partition.now place }
{
    match partition {
        Partition::Whole => false,
        Partition::Number(_) => parts_at(schema.partition, place),
    }
}

/// Whether this is the place of the partition column.
pub(crate) fn parts_at(partition: Option<u32>, place: usize) -> bool
    ensures { result ≡ parts_at partition place }
{
    match partition {
        Some(own) => own as usize == place,
        None => false,
    }
}

/// How many keys have a first value before an edge of what a test leaves. They come before all others.
fn count_before(marks: &Marks, test: &Test, edge: Edge) -> usize
    requires { RiseByFirst marks.now }
    ensures { result ≡ count_before edge test.now marks.now }
{
    let mut low = 0;
    let mut high = marks.len();
    while low < high {
        let middle = low + (high - low) / 2;
        if stands_before(edge, test, marks.key_cell(middle, 0)) {
            low = middle + 1;
        } else {
            high = middle;
        }
    }
    low
}

/// Whether a value stands before an edge of what a test leaves.
fn stands_before(edge: Edge, test: &Test, cell: Cell) -> bool
    ensures { result ≡ stands_before edge test.now (value_of cell.entry) }
{
    match edge {
        Edge::First => !some_up_to(test, cell),
        Edge::End => some_from_on(test, cell),
    }
}

/// Whether some value up to this one may meet the test.
fn some_up_to(test: &Test, cell: Cell) -> bool
    ensures { result ≡ list_any (up_to test.now.comparison (value_of cell.entry))
        test.now.literals }
{
    if test.comparison.is_equal() {
        return test.literals.any_up_to(cell);
    }
    test.literals
        .as_slice()
        .iter()
        .any(|literal| up_to(test.comparison, cell, literal))
}

/// Whether some value from this one on may meet the test.
fn some_from_on(test: &Test, cell: Cell) -> bool
    ensures { result ≡ list_any (from_on test.now.comparison (value_of cell.entry))
        test.now.literals }
{
    if test.comparison.is_equal() {
        return test.literals.any_from_on(cell);
    }
    test.literals
        .as_slice()
        .iter()
        .any(|literal| from_on(test.comparison, cell, literal))
}

/// Whether some value up to this one may compare so with the literal.
fn up_to(comparison: Comparison, cell: Cell, literal: &Value) -> bool
    ensures { result ≡ up_to comparison (value_of cell.entry) literal.now }
{
    match comparison {
        Comparison::Equal | Comparison::GreaterOrEqual => {
            cmp_cells(cell, Cell::of(literal)).is_ge()
        }
        Comparison::Greater => cmp_cells(cell, Cell::of(literal)).is_gt(),
        Comparison::NotEqual | Comparison::Less | Comparison::LessOrEqual => true,
    }
}

/// Whether some value from this one on may compare so with the literal.
fn from_on(comparison: Comparison, cell: Cell, literal: &Value) -> bool
    ensures { result ≡ from_on comparison (value_of cell.entry) literal.now }
{
    match comparison {
        Comparison::Equal | Comparison::LessOrEqual => {
            cmp_cells(cell, Cell::of(literal)).is_le()
        }
        Comparison::Less => cmp_cells(cell, Cell::of(literal)).is_lt(),
        Comparison::NotEqual | Comparison::Greater | Comparison::GreaterOrEqual => true,
    }
}
