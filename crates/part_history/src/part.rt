// Parts with their rows.
use mt_base::{NoMemory, Seq, Twin};
use mt_values::{Name, Row};
use part_name::PartName;
use std::alloc::Global;

/// A part of a table, with its rows.
#[derive(Drop)]
pub struct CorePart {
    pub table: Name,
    pub name: PartName,
    pub rows: Seq<Row>,
}

impl Twin for CorePart {
    fn twin(&self, alloc: Global) -> Result<Self, NoMemory> {
        Ok(CorePart {
            table: self.table.twin(alloc)?,
            name: self.name,
            rows: self.rows.twin(alloc)?,
        })
    }
}
