// Equal copies of parts.
use crate::reading::Part;
use mt_base::{NoMemory, Twin};
use mt_outside::Dir;
use std::alloc::Global;

impl<D: Dir> Twin for Part<D> {
    /// One hold more on the folder, and on what is kept of the part.
    fn twin(&self, alloc: Global) -> Result<Self, NoMemory> {
        Ok(Part {
            dir: self.dir.share(alloc)?,
            loaded: self.loaded.twin(alloc)?,
        })
    }
}
