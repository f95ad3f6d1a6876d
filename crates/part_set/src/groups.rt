// The names of the root, table by table.
ghost use Rattle.std.specs.Prelude.{◌≡◌, ◌++◌, ℕ, List, [], IfOk, IfSome, IfNone, OnOk, Some, is_some, option_to_list, if◌then◌else◌};
ghost use Rattle.std.specs.Option.{option_map};
ghost use Rattle.part_set.specs.Groups.{AreGroups, group_of, has_table, is_create, name_in, orphan_by};
ghost use Rattle.part_set.specs.Visible.{HasNoOrphan, IsFirstOrphan};

use crate::RootName;
use mt_base::{NoMemory, Seq, Twin};
use mt_values::Name;
use part_name::PartName;
use std::alloc::Global;
use std::collections::BTreeMap;

/// For each table the names of its parts.
pub type Groups = BTreeMap<Name, Seq<PartName>>;

// A table gets a list without parts.
fn open(alloc: Global, groups: &mut Groups, name: &RootName) -> Result<(), NoMemory>
    ensures { OnOk result ((t : List ℕ)
        → group_of groups.new t
        ≡ (if is_create t name.now then Some [] else group_of groups.old t)) }
{
    match name {
        RootName::Create(table) => {
            groups.insert(table.twin(alloc)?, Seq::new(alloc))?;
            Ok(())
        }
        RootName::Part(_) => Ok(()),
    }
}

/// A list without parts for each table.
pub fn tables_of(alloc: Global, names: &[RootName]) -> Result<Groups, NoMemory>
    ensures { IfOk result (AreGroups names.now []) }
{
    let mut groups = BTreeMap::new(alloc);
    for name in names {
        open(alloc, &mut groups, name)?;
    }
    Ok(groups)
}

// Whether the name is a part whose table is not there, or to which a mutation was applied.
fn is_orphan(groups: &Groups, name: &RootName) -> bool
    ensures { result ≡ orphan_by (λ t. is_some (group_of groups.now t)) name.now }
{
    match name {
        RootName::Create(_) => false,
        RootName::Part(part) => {
            !groups.contains_key(&part.table) || part.name.mutation.is_some()
        }
    }
}

/// The place of the first orphan.
pub fn first_orphan(groups: &Groups, names: &[RootName]) -> Option<usize>
    requires { AreGroups names.now [] groups.now }
    ensures found { IfSome result (IsFirstOrphan names.now) }
    ensures none { IfNone result (HasNoOrphan names.now) }
{
    for (place, name) in names.iter().enumerate() {
        if is_orphan(groups, name) {
            return Some(place);
        }
    }
    None
}

// A part comes to its table's list.
fn note(groups: &mut Groups, name: &RootName) -> Result<(), NoMemory>
    ensures { OnOk result ((t : List ℕ)
        → group_of groups.new t ≡ option_map (λ parts. parts ++ option_to_list (name_in t name.now))
        (group_of groups.old t)) }
{
    let RootName::Part(part) = name else {
        return Ok(());
    };
    match groups.get_mut(&part.table) {
        Some(parts) => parts.push(part.name),
        None => Ok(()),
    }
}

/// Each part comes to its table's list, in order.
pub fn fill(groups: &mut Groups, names: &[RootName]) -> Result<(), NoMemory>
    requires { AreGroups names.now [] groups.old }
    ensures { OnOk result (AreGroups names.now names.now groups.new) }
{
    for name in names {
        note(groups, name)?;
    }
    Ok(())
}
