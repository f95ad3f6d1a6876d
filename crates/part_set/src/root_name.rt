// The names of the root.
ghost use Rattle.std.specs.Prelude.{◌≡◌, ◌++◌, ◌∷◌, List, ℕ, Some, IfOk, IfSome, IfNone, IsTrue, codes};
ghost use Rattle.mt_values.specs.RootNames.{create_name, part_name};
ghost use Rattle.part_name.specs.declared.part.PartName.{PartName};
ghost use Rattle.part_name.specs.PartNames.{IsPartName, part_text};
ghost use Rattle.part_set.specs.declared.root_name.RootName.{RootName};
ghost use Rattle.part_set.specs.RootNames.{root_text, is_table, IsRootName, HasNoDot};

use crate::word::is_table;
use mt_base::{NoMemory, Seq};
use mt_values::Name;
use part_name::PartName;
use std::alloc::Global;

/// A name of the root.
#[derive(Drop)]
pub enum RootName {
    /// The table with this name.
    Create(Name),
    /// This part.
    Part(TablePart),
}

/// A part of a table.
#[derive(Drop)]
pub struct TablePart {
    pub table: Name,
    pub name: PartName,
}

// What stands before the first dot, and after it; none where there is no dot.
#[tactic(auto, using(crate::proofs::Dots::dot_here))]
fn split(text: &[u8]) -> Option<(&[u8], &[u8])>
    ensures found { IfSome result (λ p. HasNoDot p.0.now × (p.0.now ++ 46 ∷ p.1.now ≡ text.now)) }
    ensures none { IfNone result (HasNoDot text.now) }
{
    for (at, byte) in text.iter().enumerate() {
        if *byte == b'.' {
            return Some((&text[..at], &text[at + 1..]));
        }
    }
    None
}

// The name of a part after a table's name and a dot.
fn part_behind(text: &[u8]) -> Option<PartName>
    ensures spelled { IfSome result
        (λ p. IsPartName p × (codes "part_" ++ part_text p ≡ text.now)) }
    ensures read { (p : PartName) → IsPartName p → codes "part_" ++ part_text p ≡ text.now
        → result ≡ Some p }
{
    part_name::parse(text.strip_prefix(b"part_".as_slice())?)
}

/// The name that the bytes spell, or none where they spell none.
///
/// `NoMemory` where the table's name found no room.
pub fn read_name(alloc: Global, bytes: &[u8]) -> Result<Option<RootName>, NoMemory>
    ensures spelled { (name : RootName) → IsRootName name → root_text name ≡ bytes.now
        → IfOk result (λ found. found ≡ Some name) }
    ensures read { IfOk result (λ found. IfSome found
        (λ name. IsRootName name × (root_text name ≡ bytes.now))) }
{
    let Some((table, rest)) = split(bytes) else {
        return Ok(None);
    };
    if !is_table(table) {
        return Ok(None);
    }
    if rest == b"create".as_slice() {
        return Ok(Some(RootName::Create(Seq::from_slice(alloc, table)?)));
    }
    let Some(name) = part_behind(rest) else {
        return Ok(None);
    };
    let table = Seq::from_slice(alloc, table)?;
    Ok(Some(RootName::Part(TablePart { table, name })))
}

/// The bytes of a name, as `t.create` or `t.part_all_1_1_0`.
///
/// `NoMemory` where they found no room.
pub fn spell_name(alloc: Global, name: &RootName) -> Result<Name, NoMemory>
    ensures { IfOk result (λ text. text ≡ root_text name.now) }
{
    match name {
        RootName::Create(table) => spell_behind(alloc, table, b".create"),
        RootName::Part(part) => spell_part(alloc, part),
    }
}

// The bytes of a table's name, and these after it.
fn spell_behind(alloc: Global, table: &Name, more: &[u8]) -> Result<Name, NoMemory>
    ensures { IfOk result (λ text. text ≡ table.now ++ more.now) }
{
    let mut text = Seq::from_slice(alloc, table.as_slice())?;
    text.extend(more)?;
    Ok(text)
}

// The bytes of the name of a part.
fn spell_part(alloc: Global, part: &TablePart) -> Result<Name, NoMemory>
    ensures { IfOk result (λ text. text ≡ root_text (RootName.Part part.now)) }
{
    let name = part_name::text(alloc, &part.name)?;
    let mut text = spell_behind(alloc, &part.table, b".part_")?;
    text.extend(name.as_slice())?;
    Ok(text)
}
