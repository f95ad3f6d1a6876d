// What one merge, and FINAL, may leave of rows of one key of a small table, as the plain program says.
use crate::small::Small;
use mt_base::{NoMemory, Seq};
use mt_plain::{folds, runs};
use mt_values::{Aggregate, Engine, Row};
use std::alloc::Global;

/// What the plain program is told of a small table.
#[derive(Drop)]
pub struct Held {
    engine: Engine,
    functions: Seq<Option<Aggregate>>,
}

impl Held {
    /// What it is told of this table.
    pub fn new(alloc: Global, small: Small) -> Result<Held, NoMemory> {
        Ok(Held {
            engine: small.engine(alloc)?,
            functions: small.functions(alloc)?,
        })
    }

    /// Whether one merge may leave this of rows of one key, of which there is one at least.
    pub fn may_leave(&self, alloc: Global, rows: &[Row], out: &[Row]) -> Result<bool, NoMemory> {
        let functions = self.functions.as_slice();
        for left in &runs(alloc, &self.engine, functions, rows)? {
            if left.as_slice() == out {
                return Ok(true);
            }
        }
        Ok(false)
    }

    /// Whether FINAL may leave this of rows of one key, of which there is one at least, after at most as many merges as there are rows.
    pub fn may_finish(&self, alloc: Global, rows: &[Row], out: &[Row]) -> Result<bool, NoMemory> {
        folds(alloc, &self.engine, self.functions.as_slice(), rows, out)
    }
}
