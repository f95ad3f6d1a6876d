// The mutations of a table, and the skip indexes by which rows are read that wait for some of them.
ghost use Rattle.std.specs.Prelude.{◌≡◌, ◌<◌, IfOk, OnOk};
ghost use Rattle.std.specs.List.{list_any};
ghost use Rattle.mt_values.specs.Changes.{assigns, is_assigned};
ghost use Rattle.part_history.specs.mt_model.Explain as explain;
ghost use Rattle.part_history.specs.mt_model.Numbers.{mutations_in};
ghost use Rattle.mt_plain.specs.Portions as portions;

use crate::changes::is_put;
use crate::portions::last_after;
use mt_base::{NoMemory, Twin};
use mt_values::{Alter, Change, Command, Entry, Mutation, Name, Schema, SkipIndex};
use std::alloc::Global;

/// The mutations of a table after all commands, each with the number that it drew, in their order.
///
/// `NoMemory` where an allocation failed, and for a number of 2^32 and more, which no memory holds so many commands for.
pub fn mutations_of(
    alloc: Global,
    table: &Name,
    entries: &[Entry],
) -> Result<Vec<Mutation>, NoMemory>
    ensures { IfOk result (λ found. found.items ≡ mutations_in table.now entries.now) }
{
    let mut found = Vec::new(alloc);
    let mut last = 0;
    for entry in entries {
        add_mutation(alloc, table, last, &mut found, &entry.command)?;
        last = last_after(table, last, &entry.command);
    }
    Ok(found)
}

/// Adds what a command adds to a table's mutations, after the last number that was drawn.
fn add_mutation(
    alloc: Global,
    table: &Name,
    last: usize,
    found: &mut Vec<Mutation>,
    command: &Command,
) -> Result<(), NoMemory>
    requires { last < 18446744073709551615 }
    ensures { OnOk result (found.new.items ≡ portions.mutations_after table.now last
        found.old.items command.now) }
{
    if let Command::Alter(alter) = command {
        if alter.table == *table {
            found.push(mutation_of(alloc, last + 1, alter)?)?;
        }
    }
    Ok(())
}

/// A mutation with this number.
fn mutation_of(alloc: Global, number: usize, alter: &Alter) -> Result<Mutation, NoMemory>
    ensures { IfOk result (λ m. m ≡ record { number = number; change = alter.now.change }) }
{
    let Ok(number) = u32::try_from(number) else {
        return Err(NoMemory);
    };
    let change = alter.change.twin(alloc)?;
    Ok(Mutation { number, change })
}

/// The skip indexes of a table by which rows of a version are read: those whose column none of the later mutations assigns.
///
/// `NoMemory` where an allocation failed.
pub(crate) fn pruning_indexes(
    alloc: Global,
    schema: &Schema,
    mutations: &[Mutation],
    version: usize,
) -> Result<Vec<SkipIndex>, NoMemory>
    ensures { IfOk result
        (λ left. left.items ≡ explain.pruning_indexes schema.now mutations.now version) }
{
    indexes_beside(alloc, mutations, version, schema.indexes.as_slice())
}

/// Those of these indexes whose column no mutation with a number above this version assigns.
fn indexes_beside(
    alloc: Global,
    mutations: &[Mutation],
    version: usize,
    indexes: &[SkipIndex],
) -> Result<Vec<SkipIndex>, NoMemory>
    ensures { IfOk result (λ left. left.items ≡ explain.indexes_beside
        (explain.pending_above mutations.now version) indexes.now) }
{
    let mut left = Vec::new(alloc);
    for index in indexes {
        add_index(alloc, mutations, version, &mut left, index)?;
    }
    Ok(left)
}

/// Adds an index, unless a mutation with a number above this version assigns its column.
fn add_index(
    alloc: Global,
    mutations: &[Mutation],
    version: usize,
    left: &mut Vec<SkipIndex>,
    index: &SkipIndex,
) -> Result<(), NoMemory>
    ensures { OnOk result (left.new.items ≡ portions.with_index
        (explain.pending_above mutations.now version) left.old.items index.now) }
{
    if is_put_above(mutations, version, index.column) {
        return Ok(());
    }
    left.push(index.twin(alloc)?)?;
    Ok(())
}

/// Whether a mutation with a number above this version assigns the column at a place.
#[tactic(auto, using(crate::proofs::Pruning::put_above))]
fn is_put_above(mutations: &[Mutation], version: usize, place: u32) -> bool
    ensures { result ≡ is_assigned (explain.pending_above mutations.now version) place }
{
    is_put_later_by_any(mutations, version, place)
}

/// Whether one of the mutations does.
fn is_put_later_by_any(mutations: &[Mutation], version: usize, place: u32) -> bool
    ensures { result ≡ list_any (portions.is_put_later version place) mutations.now }
{
    mutations
        .iter()
        .any(|mutation| is_put_later(mutation, version, place))
}

/// Whether a mutation has a number above this version, and assigns the column at a place.
fn is_put_later(mutation: &Mutation, version: usize, place: u32) -> bool
    ensures { result ≡ portions.is_put_later version place mutation.now }
{
    version < mutation.number as usize && assigns(&mutation.change, place)
}

/// Whether a change assigns the column at a place.
fn assigns(change: &Change, place: u32) -> bool
    ensures { result ≡ assigns change.now place }
{
    match change {
        Change::Delete(_) => false,
        Change::Update { assignments, .. } => is_put(assignments.as_slice(), place),
    }
}
