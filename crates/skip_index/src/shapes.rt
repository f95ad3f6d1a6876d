// What is known of a skip index of a part before its file is read.
ghost use Rattle.std.specs.Prelude.{◌≡◌, ◌<◌};
ghost use Rattle.skip_index.specs.Files.{block_count, block_shape, block_size};

use mt_values::{ColType, IndexKind};

/// A block: the type of its values, and how many rows it has.
#[derive(Clone, Copy)]
pub struct BlockShape {
    pub col_type: ColType,
    pub rows: u64,
}

/// A skip index of a part: its column and the column's type, what is kept, how many granules a block has and how many rows a
/// granule, and how many rows the part has.
#[derive(Clone, Copy)]
pub struct IndexShape {
    pub column: u32,
    pub col_type: ColType,
    pub kind: IndexKind,
    pub span: u32,
    pub granularity: u32,
    pub rows: u64,
}

impl IndexShape {
    /// How many rows a block has; the last may have fewer.
    fn block_size(self) -> u64
        ensures { result ≡ block_size self }
    {
        u64::from(self.granularity) * u64::from(self.span)
    }

    /// How many blocks the rows are parted into.
    pub(crate) fn block_count(self) -> u64
        requires { 0 < block_size self }
        ensures { result ≡ block_count self }
    {
        self.rows.div_ceil(self.block_size())
    }

    /// A block, counted from 0.
    pub(crate) fn block(self, block: u64) -> BlockShape
        requires size { 0 < block_size self }
        requires there { block < block_count self }
        ensures { result ≡ block_shape self block }
    {
        let size = self.block_size();
        BlockShape {
            col_type: self.col_type,
            rows: size.min(self.rows - size * block),
        }
    }
}
