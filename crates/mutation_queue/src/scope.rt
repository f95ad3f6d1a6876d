// Where parts are looked for.
use mt_base::{Name, Partition};

/// Where parts are looked for.
#[derive(Clone, Copy)]
pub enum Scope<'a> {
    /// In all tables.
    All,
    /// In one table.
    Table(&'a Name),
    /// In one partition of a table.
    Partition(&'a Name, Partition),
}
