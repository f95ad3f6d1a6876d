// A skip index as a value.

use mt_base::{NoMemory, Seq, Twin};
use predicate::Known;
use std::alloc::Global;

/// What is kept of a skip index of a part.
#[derive(Drop)]
pub struct Index {
    /// The place of its column, from 0.
    pub column: u32,
    /// How many granules a block has.
    pub span: u32,
    /// How many granules the part has.
    pub granules: usize,
    /// What is kept of each block, in order.
    pub blocks: Seq<Known>,
}

impl Twin for Index {
    fn twin(&self, alloc: Global) -> Result<Self, NoMemory> {
        Ok(Index {
            column: self.column,
            span: self.span,
            granules: self.granules,
            blocks: self.blocks.twin(alloc)?,
        })
    }
}
