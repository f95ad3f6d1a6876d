// The names of a root, read.
ghost use Rattle.std.specs.Prelude.{◌≡◌, ◌≤◌, ◌<◌, ℕ, true, IfErr, IfNone, IfOk, IfSome, MatchResult, if◌then◌else◌};
ghost use Rattle.std.specs.Cmp.Lexicographic.{slice_cmp};
ghost use Rattle.std.specs.List.Sorted.{IsStrictlySortedBy};
ghost use Rattle.std.specs.Ordering.{nat_cmp};
ghost use Rattle.root_store.specs.part_set.NameOrder.{Rise};
ghost use Rattle.root_store.specs.part_set.RootNames.{IsRootName, root_text};
ghost use Rattle.root_store.specs.Damage.{is_entry_name, most_tables};
ghost use Rattle.root_opening.specs.Names.{AreNamesOf, IsBadBehind, IsFirstBadText, IsOfPlace, TellsBad, creates_in};

use mt_base::{NoMemory, ROOT_TABLE_LIMIT, Seq};
use mt_values::Name;
use root_store::part_set::{RootName, read_name};
use std::alloc::Global;

/// Why the names of a root are not read.
#[derive(Clone, Copy)]
pub enum NameFault {
    NoMemory,
    /// The place of the first name that is none of the grammar, or is a table's after too many of them.
    Bad(usize),
}

impl From<NoMemory> for NameFault {
    ghost use Rattle.std.specs.Prelude.{◌≡◌};
    ghost use Rattle.root_opening.specs.declared.names.NameFault.TheVariants as fault;

    ghost from_gives = { λ _ f. f ≡ fault.NoMemory };

    fn from(_: NoMemory) -> Self {
        NameFault::NoMemory
    }
}

// How many tables a name is.
fn tables_of(name: &RootName) -> usize
    ensures value { result ≡ (if is_entry_name name.now then 1 else 0) }
    ensures few { result ≤ 1 }
{
    match name {
        RootName::Create(_) => 1,
        RootName::Part(_) => 0,
    }
}

// The name that a text is, after so many tables; none where it is a bad one.
fn next_name(alloc: Global, text: &Name, tables: usize) -> Result<Option<RootName>, NoMemory>
    requires { tables ≤ most_tables }
    ensures read { IfOk result (λ found. IfSome found
        (λ name. IsRootName name × (root_text name ≡ text.now))) }
    ensures few { IfOk result (λ found. IfSome found
        (λ name. is_entry_name name ≡ true → tables < most_tables)) }
    ensures bad { IfOk result (λ found. IfNone found (IsBadBehind tables text.now)) }
{
    let Some(name) = read_name(alloc, text.as_slice())? else {
        return Ok(None);
    };
    if tables == ROOT_TABLE_LIMIT && tables_of(&name) == 1 {
        return Ok(None);
    }
    Ok(Some(name))
}

// The names of a root, read one after the other.
fn read_each(alloc: Global, texts: &[Name]) -> Result<Vec<RootName>, NameFault>
    ensures read { IfOk result (λ names. AreNamesOf texts.now names.items) }
    ensures few { IfOk result (λ names. creates_in names.items ≤ most_tables) }
    ensures bad { IfErr result (TellsBad texts.now) }
{
    let mut names = Seq::new(alloc);
    let mut tables = 0;
    for (place, text) in texts.iter().enumerate() {
        let Some(name) = next_name(alloc, text, tables)? else {
            return Err(NameFault::Bad(place));
        };
        tables += tables_of(&name);
        names.push(name)?;
    }
    Ok(names.into_vec())
}

/// The names of a root, in the order of their texts.
///
/// `Bad` exactly at the first text that is no name of the grammar, or is a table's with 65,536 tables before it;
/// `NoMemory` where an allocation failed.
pub fn read_names(alloc: Global, texts: &[Name]) -> Result<Vec<RootName>, NameFault>
    ensures read { IfOk result (λ names. AreNamesOf texts.now names.items) }
    ensures few { IfOk result (λ names. creates_in names.items ≤ most_tables) }
    ensures rise { IsStrictlySortedBy (slice_cmp nat_cmp) texts.now
        → IfOk result (λ names. Rise names.items) }
    ensures bad { IfErr result (TellsBad texts.now) }
    ensures exact { (place : ℕ) → IsFirstBadText texts.now place
        → MatchResult result (λ _. ⊥) (IsOfPlace place) }
{
    read_each(alloc, texts)
}
