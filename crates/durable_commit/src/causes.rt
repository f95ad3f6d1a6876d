// Why a command was not committed.
ghost use Rattle.std.specs.Prelude.{◌≡◌};
ghost use Rattle.std.specs.BTreeMap.{is_at};
ghost use Rattle.std.specs.Cmp.Lexicographic.{slice_cmp};
ghost use Rattle.std.specs.Map.{remove_entry};
ghost use Rattle.std.specs.Ordering.{nat_cmp};
ghost use Rattle.durable_commit.specs.Commits.{refused_by_disk, stopped_by};

use mt_outside::DiskError;
use mt_values::Name;
use std::collections::BTreeMap;

/// Which room is full.
#[derive(Clone, Copy)]
pub enum Limit {
    /// As many tables were made as may be.
    Tables,
    /// The partition has as many parts as may be.
    Parts,
    /// The table has no number left.
    Numbers,
    /// The part that a merge makes has a greater level than may be.
    Levels,
}

/// Why a command was not committed.
#[derive(Clone, Copy)]
pub enum Refused {
    /// An allocation failed.
    NoMemory,
    /// The publish or the sync of the names failed. The name is there or not.
    Disk,
    /// The disk's count of faults is above the one at opening, so the store takes no command.
    Stopped { opened: u64, now: u64 },
    /// There is a table of this name.
    Exists,
    /// There is no room for more.
    Limit(Limit),
}

impl Refused {
    /// Why what was sealed was not committed.
    pub fn of_disk(error: DiskError) -> Refused
        ensures { result ≡ refused_by_disk error }
    {
        match error {
            DiskError::NoMemory => Refused::NoMemory,
            DiskError::Fault => Refused::Disk,
        }
    }
}

/// The disk's count of faults is above the one at opening.
pub fn refuse_stopped(opened: u64, now: u64) -> Option<Refused>
    ensures { result ≡ stopped_by opened now }
{
    (opened < now).then_some(Refused::Stopped { opened, now })
}

/// A CREATE was not committed: its table is taken out again.
pub fn take_out<T: Drop>(tables: &mut BTreeMap<Name, T>, table: &Name, error: DiskError) -> Refused
    ensures cause { result ≡ refused_by_disk error }
    ensures entries { tables.new.entries ≡ remove_entry (is_at (slice_cmp nat_cmp table.now))
        tables.old.entries }
{
    tables.remove(table);
    Refused::of_disk(error)
}
