// The names in a folder, out of the bytes in which the system gives them.
ghost use Rattle.std.specs.Prelude.{◌≡◌, ◌++◌, ◌∷◌, [], OnOk, filter};
ghost use Rattle.file_names.specs.Names.{is_shown, shown_names};

use mt_base::{Name, NoMemory, Seq};
use std::alloc::Global;
use std::mem;

// Whether a folder shows this name: it has bytes, and does not begin with a dot.
fn is_shown(name: &[u8]) -> bool
    ensures { result ≡ is_shown name.now }
{
    match name.first() {
        Some(first) => *first != b'.',
        None => false,
    }
}

// Adds a name, if a folder shows it.
fn add_shown(name: Name, names: &mut Vec<Name>) -> Result<(), NoMemory>
    ensures { OnOk result (names.new.items ≡ names.old.items ++ filter is_shown (name ∷ [])) }
{
    if is_shown(name.as_slice()) {
        names.push(name)?;
    }
    Ok(())
}

/// Adds the names that a folder shows, of those that the system gave, each ended by a NUL: byte for byte, whether they are UTF-8 or not,
/// without those that begin with a dot. After an error some of them may have been added.
pub fn add_shown_names(alloc: Global, ended: &[u8], names: &mut Vec<Name>) -> Result<(), NoMemory>
    ensures { OnOk result (names.new.items ≡ names.old.items ++ shown_names ended.now) }
{
    let mut begun = Seq::new(alloc);
    for byte in ended {
        if *byte == 0 {
            add_shown(mem::replace(&mut begun, Seq::new(alloc)), names)?;
        } else {
            begun.push(*byte)?;
        }
    }
    Ok(())
}
