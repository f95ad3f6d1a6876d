// The rows of an INSERT.
ghost use Rattle.std.specs.Prelude.{◌≡◌, Ok, IfErr, IfOk};
ghost use Rattle.mt_values.specs.Engines.{sign_place};
ghost use Rattle.mt_values.specs.Rows.{inserted_rows};
ghost use Rattle.mt_values.specs.Values.{AreValues};
ghost use Rattle.replies.specs.mt_model.History.{column_types};
ghost use Rattle.mt_base.specs.Stops.{Refuses};

use mt_base::Stop;
use mt_values::{Block, DataFault, InsertText, Schema};
use replies::tsv_rows::read_rows;
use std::alloc::Global;

/// The rows of an INSERT, read for a table's columns and its sign, or why they are refused.
pub fn read_block(
    alloc: Global,
    schema: &Schema,
    text: &InsertText,
) -> Result<Block, Stop<DataFault>>
    ensures rows { IfOk result (λ block. inserted_rows (column_types schema.now)
        (sign_place schema.now.engine) text.now.lines text.now.ended ≡ Ok block.rows) }
    ensures types { IfOk result (λ block. block.types ≡ column_types schema.now) }
    ensures values { IfOk result (λ block. AreValues block.rows) }
    ensures refused { IfErr result (Refuses (inserted_rows (column_types schema.now)
        (sign_place schema.now.engine) text.now.lines text.now.ended)) }
{
    let types = schema.types(alloc)?;
    let sign = schema.engine.sign_place();
    read_rows(
        alloc,
        types.as_slice(),
        sign,
        text.lines.as_slice(),
        text.ended,
    )
}
