// Texts made of texts.
ghost use Rattle.std.specs.Prelude.{◌≡◌, IfOk, flat_map};

use crate::memory::NoMemory;
use std::alloc::Global;

/// These texts, one after another.
pub fn joined(alloc: Global, parts: &[&[u8]]) -> Result<Vec<u8>, NoMemory>
    ensures { IfOk result (λ text. text.items ≡ flat_map (λ part. part.now) parts.now) }
{
    let mut text = Vec::new(alloc);
    for part in parts {
        text.extend_from_slice(part)?;
    }
    Ok(text)
}
