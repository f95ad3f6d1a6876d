// The partitions of a table's rows.
ghost use Rattle.std.specs.Prelude.{◌≡◌, ◌<◌, ◌↔◌, [], All, IsTrue, None, get_or, length};
ghost use Rattle.mt_values.specs.declared.schema.Schema.{Schema};
ghost use Rattle.mt_values.specs.Schemas.{column_types, schema_fault};
ghost use Rattle.mt_values.specs.Tables.{MayHavePartition, numbers_of, partition_of};
ghost use Rattle.mt_values.specs.Values.{FitsType, Row, types_of};

use crate::{Block, ColType, Schema};
use mt_base::Partition;

// Whether a number is one of an unsigned type.
fn is_number_of(col_type: ColType, number: u64) -> bool
    ensures { IsTrue result ↔ (number < numbers_of col_type) }
{
    match col_type {
        ColType::UInt8 => number <= u64::from(u8::MAX),
        ColType::UInt16 => number <= u64::from(u16::MAX),
        ColType::UInt32 => number <= u64::from(u32::MAX),
        ColType::UInt64 => true,
        _ => false,
    }
}

impl Schema {
    /// Whether rows of the table may be of this partition: the whole where there is no partition column, else a number of its type.
    pub fn may_have(&self, partition: Partition) -> bool
        ensures { IsTrue result ↔ MayHavePartition self.now partition }
    {
        let Some(place) = self.partition else {
            return partition == Partition::Whole;
        };
        let Partition::Number(number) = partition else {
            return false;
        };
        match self.columns.as_slice().get(place as usize) {
            Some(column) => is_number_of(column.col_type, number),
            None => false,
        }
    }
}

impl Block {
    /// The partition of the row at a place, counted from 0.
    pub fn partition_at(&self, schema: &Schema, row: usize) -> Partition
        requires { row < length self.now.rows }
        ensures { result ≡ partition_of schema.now (get_or self.now.rows row []) }
    {
        let Some(place) = schema.partition else {
            return Partition::Whole;
        };
        let place = place as usize;
        // Reading the length shows that the rows keep to the types of the columns.
        let _rows = self.len();
        if place >= self.width() {
            return Partition::Number(0);
        }
        Partition::Number(self.column(place).at(row).number())
    }
}

/// Where a schema breaks no rule, each row of its columns' types is of a partition that the table may have.
pub fn rows_have_partitions_of_their_table()
    ensures { (schema : Schema) (row : Row) → schema_fault schema ≡ None
        → types_of row ≡ column_types schema → All FitsType row
        → MayHavePartition schema (partition_of schema row) }
{}
