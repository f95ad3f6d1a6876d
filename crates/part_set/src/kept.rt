// A part that is kept, and what a reader holds of a table.
ghost use Rattle.std.specs.Prelude.{◌≡◌};

use mt_base::{NoMemory, Twin};
use mt_values::Schema;
use part_name::PartName;
use std::alloc::Global;

/// The name of a part, and what is kept for it.
#[derive(Drop)]
pub struct Kept<P> {
    pub name: PartName,
    pub part: P,
    /// Whether the part bears a mark: a merge of it is under way.
    pub busy: bool,
}

impl<P: Twin> Twin for Kept<P> {
    fn twin(&self, alloc: Global) -> Result<Self, NoMemory> {
        Ok(Kept {
            name: self.name,
            part: self.part.twin(alloc)?,
            busy: self.busy,
        })
    }
}

/// A table as it was when it was pinned: what is added later is not in it.
///
/// It is moved on or taken apart, never dropped: the set that pinned it takes it back.
pub struct Snap<P> {
    pub schema: Schema,
    /// The table's parts, in block order.
    pub parts: Vec<Kept<P>>,
    /// The length of the history.
    pub length: u64,
}
