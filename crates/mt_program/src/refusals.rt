// The line of a root that is not opened.
ghost use Rattle.std.specs.Prelude.{◌≡◌, IfOk};
ghost use Rattle.mt_program.specs.Damage.{damage_line};

use mt_base::{NoMemory, joined};
use root_log::Damage;
use session::tsv_rows::write_text;
use std::alloc::Global;

/// The line of what keeps a root from being opened.
pub fn damage_line(alloc: Global, damage: &Damage) -> Result<Vec<u8>, NoMemory>
    ensures { IfOk result (λ line. line.items ≡ damage_line damage.now) }
{
    match damage {
        Damage::Name(name) => {
            let mut text = Vec::new(alloc);
            write_text(name.as_slice(), &mut text)?;
            joined(alloc, &[b"DAMAGED name ", &text, b"\n"])
        }
        Damage::Orphan(name) => joined(alloc, &[b"DAMAGED orphan ", name.as_slice(), b"\n"]),
        Damage::Overlap(first, second) => {
            let (first, second) = (first.as_slice(), second.as_slice());
            joined(alloc, &[b"DAMAGED overlap ", first, b" ", second, b"\n"])
        }
        Damage::File(name, file) => {
            let file = file.name(alloc)?;
            let (name, file) = (name.as_slice(), file.as_bytes());
            joined(alloc, &[b"DAMAGED file ", name, b" ", file, b"\n"])
        }
    }
}
