// The first two parts that overlap, looked for the plain way.
ghost use Rattle.std.specs.Prelude.{◌↔◌, IsTrue, IfSome, IfNone};
ghost use Rattle.std.specs.List.{Contains as HasItem};
ghost use Rattle.part_set.specs.declared.root_name.RootName.{RootName};
ghost use Rattle.part_set.specs.Clashes.{ClashesWith, HasOverlap, Hides, IsFirstWith, IsNotHidden};
ghost use Rattle.part_set.specs.Visible.{Covers, IsFirstOverlap, IsHidden, Overlapping};

use crate::{RootName, TablePart};
use part_name::{contains, meet};

// Whether the first part covers the second.
fn covers(a: &TablePart, b: &TablePart) -> bool
    ensures { IsTrue result ↔ Covers a.now b.now }
{
    a.table == b.table && contains(&a.name, &b.name)
}

// Whether the name is another part, which covers this one.
fn hides(name: &RootName, part: &TablePart) -> bool
    ensures { IsTrue result ↔ Hides name.now part.now }
{
    match name {
        RootName::Create(_) => false,
        RootName::Part(by) => by.name != part.name && covers(by, part),
    }
}

// Whether another part covers this one.
fn is_hidden(names: &[RootName], part: &TablePart) -> bool
    ensures { IsTrue result ↔ IsHidden names.now part.now }
{
    for name in names {
        if hides(name, part) {
            return true;
        }
    }
    false
}

// Whether the name is a part that is not hidden.
fn is_not_hidden(names: &[RootName], name: &RootName) -> bool
    ensures { IsTrue result ↔ IsNotHidden names.now name.now }
{
    match name {
        RootName::Create(_) => false,
        RootName::Part(part) => !is_hidden(names, part),
    }
}

// Whether the name is a part that has a block in common with this one, where neither covers the other.
fn clashes_with(part: &TablePart, name: &RootName) -> bool
    ensures { IsTrue result ↔ ClashesWith part.now name.now }
{
    match name {
        RootName::Create(_) => false,
        RootName::Part(other) => {
            part.table == other.table
                && meet(&part.name, &other.name)
                && !covers(part, other)
                && !covers(other, part)
        }
    }
}

// Whether a part that is not hidden overlaps with the name.
fn overlaps(names: &[RootName], part: &TablePart, name: &RootName) -> bool
    ensures { IsTrue result ↔ (ClashesWith part.now name.now × IsNotHidden names.now name.now) }
{
    clashes_with(part, name) && is_not_hidden(names, name)
}

// The place of the first name that overlaps with this one.
fn overlapping(names: &[RootName], name: &RootName) -> Option<usize>
    requires { HasItem names.now name.now }
    ensures found { IfSome result (IsFirstWith (Overlapping names.now name.now) names.now) }
    ensures none { IfNone result ((other : RootName) → HasItem names.now other
        → Overlapping names.now name.now other → ⊥) }
{
    let RootName::Part(part) = name else {
        return None;
    };
    if is_hidden(names, part) {
        return None;
    }
    for (place, other) in names.iter().enumerate() {
        if overlaps(names, part, other) {
            return Some(place);
        }
    }
    None
}

/// The places of the first two parts that overlap, by the first name and then by the second. Takes no memory.
///
/// Each part is compared with all names, so the time is quadratic. It is no worse: where a visible part has a block in
/// common with a hidden one that it does not cover, it overlaps with a part that covers that one, and the search ends.
pub fn first_overlap(names: &[RootName]) -> (usize, usize)
    requires { HasOverlap names.now }
    ensures { IsFirstOverlap names.now result.0 result.1 }
{
    for (place, name) in names.iter().enumerate() {
        if let Some(other) = overlapping(names, name) {
            return (place, other);
        }
    }
    unreachable!()
}
