// The text of a name.
ghost use Rattle.std.specs.Prelude.{◌≡◌, ◌++◌, ◌∷◌, IfOk, OnOk};
ghost use Rattle.std.specs.Fmt.{decimal};
ghost use Rattle.part_name.specs.PartNames.{partition_text, part_text};

use crate::PartName;
use mt_base::{NoMemory, Partition};
use std::alloc::Global;

// A partition as it is spelled.
fn partition_text(alloc: Global, partition: Partition) -> Result<Vec<u8>, NoMemory>
    ensures { IfOk result (λ v. v.items ≡ partition_text partition) }
{
    match partition {
        Partition::Whole => Ok(Vec::from_slice(alloc, b"all")?),
        Partition::Number(number) => Ok(format!(in alloc; "{number}")?.into_bytes()),
    }
}

// Adds an underscore and a number.
fn push_field(alloc: Global, text: &mut Vec<u8>, number: u32) -> Result<(), NoMemory>
    ensures { OnOk result (text.new.items ≡ text.old.items ++ 95 ∷ decimal number) }
{
    let field = format!(in alloc; "_{number}")?;
    text.extend_from_slice(field.as_bytes())?;
    Ok(())
}

/// The text of a name, as `all_1_1_0` or `201901_1_9_2_11`.
///
/// `NoMemory` where the bytes found no room.
pub fn text(alloc: Global, name: &PartName) -> Result<Vec<u8>, NoMemory>
    ensures { IfOk result (λ v. v.items ≡ part_text name.now) }
{
    let mut text = partition_text(alloc, name.partition)?;
    push_field(alloc, &mut text, name.min_block)?;
    push_field(alloc, &mut text, name.max_block)?;
    push_field(alloc, &mut text, name.level)?;
    if let Some(mutation) = name.mutation {
        push_field(alloc, &mut text, mutation)?;
    }
    Ok(text)
}
