// What the elements of a CREATE say: its columns, its indexes, and which bound of them is passed first.
ghost use Rattle.std.specs.Prelude.{◌≡◌, ◌<◌, ◌^◌, [], IfOk, is_some, length, option_copied};
ghost use Rattle.mt_values.specs.Grammar.{column_in, columns_of};
ghost use Rattle.mt_model.specs.Clauses as said;
ghost use Rattle.mt_model.specs.Reply.{first_passed};

use crate::clauses::{find_column, unknown_among};
use crate::refusal::Bound;
use mt_base::{COLUMN_LIMIT, GRANULARITY_LIMIT, INDEX_LIMIT, NoMemory, SET_LIMIT, Seq, Twin};
use mt_values::{Column, Element, IndexKind, IndexText, KindText, Name, SkipIndex, number_within};
use std::alloc::Global;
use std::slice;

/// The columns among the elements, in the order of the text, copied once.
///
/// `NoMemory` where an allocation failed.
#[tactic(auto, using(crate::proofs::ElementLists::column_more, crate::proofs::ElementLists::no_column_more))]
pub fn columns_of(alloc: Global, elements: &[Element]) -> Result<Seq<Column>, NoMemory>
    ensures { IfOk result (λ columns. columns ≡ columns_of elements.now) }
{
    let mut columns = Seq::new(alloc);
    for element in elements {
        let Some(column) = column_in(element) else {
            continue;
        };
        columns.push(column.twin(alloc)?)?;
    }
    Ok(columns)
}

/// The column that an element is, where it is one.
fn column_in(element: &Element) -> Option<&Column>
    ensures { option_copied result ≡ column_in element.now }
{
    match element {
        Element::Column(column) => Some(column),
        Element::Index(_) => None,
    }
}

/// Whether an element is a column.
fn is_column(element: &Element) -> bool
    ensures { result ≡ is_some (column_in element.now) }
{
    matches!(element, Element::Column(_))
}

/// The indexes that the elements write, in the order of the text: those whose column is one of these.
///
/// `NoMemory` where an allocation failed.
#[tactic(auto, using(crate::proofs::ElementLists::index_more, crate::proofs::ElementLists::no_index_more))]
pub fn indexes_written(
    alloc: Global,
    columns: &[Column],
    elements: &[Element],
) -> Result<Seq<SkipIndex>, NoMemory>
    requires { length columns.now < 2 ^ 32 }
    ensures { IfOk result
        (λ indexes. indexes ≡ said.indexes_written columns.now elements.now) }
{
    let mut indexes = Seq::new(alloc);
    for element in elements {
        let Some(index) = written_by(alloc, columns, element)? else {
            continue;
        };
        indexes.push(index)?;
    }
    Ok(indexes)
}

/// The index that an element writes, where it is one and its column is one of these.
fn written_by(
    alloc: Global,
    columns: &[Column],
    element: &Element,
) -> Result<Option<SkipIndex>, NoMemory>
    requires { length columns.now < 2 ^ 32 }
    ensures { IfOk result (λ index. index ≡ said.written_by columns.now element.now) }
{
    let Element::Index(index) = element else {
        return Ok(None);
    };
    let Some(place) = find_column(columns, &index.column) else {
        return Ok(None);
    };
    Ok(Some(index_at(alloc, index, place as u32)?))
}

/// The index of this text, whose column is at a place.
fn index_at(alloc: Global, index: &IndexText, place: u32) -> Result<SkipIndex, NoMemory>
    ensures { IfOk result (λ found. found ≡ said.index_at index.now place) }
{
    Ok(SkipIndex {
        name: index.name.twin(alloc)?,
        column: place,
        kind: kind_written(&index.kind),
        granularity: granules_of(index.granularity.as_slice()),
    })
}

/// What an index keeps of a block; each number past the bound of a set gives one more than it.
fn kind_written(kind: &KindText) -> IndexKind
    ensures { result ≡ said.kind_written kind.now }
{
    match kind {
        KindText::MinMax => IndexKind::MinMax,
        KindText::Set(digits) => IndexKind::Set(number_within(SET_LIMIT + 1, digits.as_slice())),
    }
}

/// The number of these digits; each number past the bound of granularities gives one more than it.
pub fn granules_of(digits: &[u8]) -> u32
    ensures { result ≡ said.granularity_said digits.now }
{
    number_within(u64::from(GRANULARITY_LIMIT) + 1, digits) as u32
}

/// The first column that the indexes name, in the order of the text, that is none of these. Takes no memory.
#[tactic(auto, using(crate::proofs::Naming::element_unknown_at, crate::proofs::Naming::element_unknown_after))]
pub fn unknown_among_indexes<'a>(columns: &[Column], elements: &'a [Element]) -> Option<&'a Name>
    ensures { option_copied result ≡
        said.first_unknown columns.now (said.indexed_names elements.now) }
{
    for element in elements {
        if let Some(name) = unknown_in_element(columns, element) {
            return Some(name);
        }
    }
    None
}

/// The column that an element names, where it is an index and that is none of these.
fn unknown_in_element<'a>(columns: &[Column], element: &'a Element) -> Option<&'a Name>
    ensures { option_copied result ≡
        said.first_unknown columns.now (said.names_of_element element.now) }
{
    match element {
        Element::Column(_) => None,
        Element::Index(index) => unknown_among(columns, slice::from_ref(&index.column)),
    }
}

/// The bound that the elements pass first in the text. Takes no memory.
#[tactic(auto, using(crate::proofs::ElementLists::bounds_of_elements))]
pub fn bound_passed(elements: &[Element]) -> Option<Bound>
    ensures { result ≡ first_passed [] elements.now }
{
    let mut columns = 0;
    let mut indexes = 0;
    for element in elements {
        if is_column(element) {
            if columns == COLUMN_LIMIT {
                return Some(Bound::Columns);
            }
            columns += 1;
            continue;
        }
        if indexes == INDEX_LIMIT {
            return Some(Bound::Indexes);
        }
        indexes += 1;
    }
    None
}
