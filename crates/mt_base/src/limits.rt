// The bounds that the program keeps (docs/replies.md, "Refusals").

/// No more tables than this are made in a root.
pub const TABLE_LIMIT: usize = 64;

/// A root of more tables than this is not opened.
pub const ROOT_TABLE_LIMIT: usize = 65_536;

/// A table has no more columns than this.
pub const COLUMN_LIMIT: usize = 64;

/// A partition of a table has no more parts than this.
pub const PART_LIMIT: usize = 3000;

/// The commands of a table have no greater number than this.
pub const NUMBER_LIMIT: u32 = 4_294_967_295;

/// A part has no greater level than this.
pub const LEVEL_LIMIT: u32 = 4_294_967_295;

/// An INSERT has no more rows than this.
pub const ROW_LIMIT: usize = 1_048_576;

/// A String has no more bytes than this.
pub const TEXT_LIMIT: usize = 1_048_576;

/// A statement has no more bytes than this, from its first token up to its semicolon.
pub const STATEMENT_LIMIT: usize = 1_048_576;

/// A name has no more bytes than this.
pub const NAME_LIMIT: usize = 64;

/// A granule has no more rows than this, and a block of a skip index no more granules.
pub const GRANULARITY_LIMIT: u32 = 65_536;

/// How many rows a granule has where a table's statement does not say it.
pub const DEFAULT_GRANULARITY: u32 = 8192;

/// A table has no more skip indexes than this.
pub const INDEX_LIMIT: usize = 8;

/// A skip index of the distinct values keeps no more values of a block than this.
pub const SET_LIMIT: u64 = 4_294_967_295;

/// No more parentheses and NOTs of a condition are open at once than this.
pub const DEPTH_LIMIT: usize = 64;
