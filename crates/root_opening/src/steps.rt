// The names of a root: which parts are shown, how many commands there are, and how the names are settled.
ghost use Rattle.std.specs.Prelude.{◌≡◌, ◌+◌, ◌↔◌, IsTrue, OnErr, OnOk};
ghost use Rattle.mt_outside.specs.DiskCauses.{HasDiskCause};
ghost use Rattle.root_store.specs.part_set.Shows.{Shows};
ghost use Rattle.root_store.specs.part_set.Visible.{IsVisible};
ghost use Rattle.root_opening.specs.Opened.{mark_settled};

use mt_outside::{Disk, DiskError};
use mt_values::Name;
use root_store::part_set::{PartSet, RootName, TablePart};

/// The names of a root, as they are spelled and as they are read, and its visible parts.
#[derive(Drop)]
pub struct Root {
    pub texts: Vec<Name>,
    pub names: Vec<RootName>,
    pub shown: PartSet<()>,
}

/// Whether a part is visible among the names of a root.
pub fn shows(root: &Root, part: &TablePart) -> bool
    requires { Shows root.now.names.items root.now.shown }
    ensures { IsTrue result ↔ IsVisible root.now.names.items part.now }
{
    root.shown.has(&part.table, &part.name)
}

/// The number of commands of a table of which so many numbers were drawn: the one that made it, and those that drew a number.
pub fn commands_of(drawn: u32) -> u64
    ensures { result ≡ 1 + drawn }
{
    1 + u64::from(drawn)
}

/// Settles the names, where there are any.
pub fn settle<D: Disk>(disk: &mut D, texts: &[Name]) -> Result<(), DiskError>
    ensures mark { OnOk result (D.clock disk.new ≡ mark_settled texts.now (D.clock disk.old)) }
    ensures mark_err { OnErr result (D.clock disk.new ≡ D.clock disk.old) }
    ensures told { D.told disk.new ≡ D.told disk.old }
    ensures started { D.started disk.new ≡ D.started disk.old }
    ensures cause { HasDiskCause (D.failed disk.old) (D.failed disk.new) result }
{
    if texts.is_empty() {
        return Ok(());
    }
    disk.sync_names()
}
