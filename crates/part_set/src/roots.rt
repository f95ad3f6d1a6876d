// The set that the names of the root make.
ghost use Rattle.std.specs.Prelude.{◌≡◌, [], IfOk, IfSome, IfNone, IfErr, unwrap_or};
ghost use Rattle.std.specs.List.{All};
ghost use Rattle.part_set.specs.Clashes.{HasOverlap, IsFault};
ghost use Rattle.part_set.specs.Groups.{AreGroups, group_of};
ghost use Rattle.part_set.specs.Passes.{AreShown, Clash, IsPlainName};
ghost use Rattle.part_set.specs.RootNames.{IsRootName};
ghost use Rattle.part_set.specs.Shelf.{all_parts};
ghost use Rattle.part_set.specs.Shows.{Shows};
ghost use Rattle.part_set.specs.Visible.{HasNoOrphan};

use crate::groups::{Groups, fill, first_orphan, tables_of};
use crate::overlaps::first_overlap;
use crate::pass::{in_pass_order, pass};
use crate::tables::TableParts;
use crate::{PartSet, RootName};
use mt_base::NoMemory;
use mt_values::Name;
use std::alloc::Global;

/// Why the names of the root make no set. A name is told by its place among them.
#[derive(Clone, Copy)]
pub enum SetFault {
    NoMemory,
    /// The first part whose table is not there, or to which a mutation was applied.
    Orphan(usize),
    /// The first two parts that overlap.
    Overlap(usize, usize),
}

impl From<NoMemory> for SetFault {
    ghost use Rattle.std.specs.Prelude.{◌≡◌};
    ghost use Rattle.part_set.specs.declared.roots.SetFault.TheVariants as fault;

    ghost from_gives = { λ _ f. f ≡ fault.NoMemory };

    fn from(_: NoMemory) -> Self {
        SetFault::NoMemory
    }
}

// The visible parts of a table; none where two of them have a block in common.
fn shown_of(
    alloc: Global,
    groups: &Groups,
    table: &Name,
) -> Result<Option<TableParts<()>>, NoMemory>
    requires { All IsPlainName (unwrap_or (group_of groups.now table.now) []) }
    ensures shown { IfOk result (λ found. IfSome found
        (λ kept. AreShown (unwrap_or (group_of groups.now table.now) [])
        (all_parts kept))) }
    ensures clash { IfOk result (λ found. IfNone found
        (Clash (unwrap_or (group_of groups.now table.now) []))) }
{
    let Some(parts) = groups.get(table) else {
        return Ok(Some(TableParts::new(alloc)));
    };
    let sorted = in_pass_order(alloc, parts.as_slice())?;
    pass(alloc, &sorted)
}

// The set of the visible parts; none where two of them overlap.
fn shown_set(
    alloc: Global,
    names: &[RootName],
    groups: &Groups,
) -> Result<Option<PartSet<()>>, NoMemory>
    requires groups { AreGroups names.now names.now groups.now }
    requires named { All IsRootName names.now }
    requires no_orphan { HasNoOrphan names.now }
    ensures shown { IfOk result (λ found. IfSome found (Shows names.now)) }
    ensures overlap { IfOk result (λ found. IfNone found (HasOverlap names.now)) }
{
    let mut set = PartSet::new(alloc);
    for name in names {
        let RootName::Create(table) = name else {
            continue;
        };
        let Some(parts) = shown_of(alloc, groups, table)? else {
            return Ok(None);
        };
        set.put(alloc, table, parts)?;
    }
    Ok(Some(set))
}

/// The visible parts of all tables that the names of the root make.
///
/// A fault tells the first orphan, or else the first two parts that overlap: of names in byte order the first in byte
/// order. `NoMemory` where the set found no room.
pub fn visible(alloc: Global, names: &[RootName]) -> Result<PartSet<()>, SetFault>
    requires { All IsRootName names.now }
    ensures shown { IfOk result (Shows names.now) }
    ensures fault { IfErr result (IsFault names.now) }
{
    let mut groups = tables_of(alloc, names)?;
    if let Some(place) = first_orphan(&groups, names) {
        return Err(SetFault::Orphan(place));
    }
    fill(&mut groups, names)?;
    let Some(set) = shown_set(alloc, names, &groups)? else {
        let (first, second) = first_overlap(names);
        return Err(SetFault::Overlap(first, second));
    };
    Ok(set)
}
