// The replies with the rows of a SELECT, and with the numbers of an EXPLAIN.
ghost use Rattle.std.specs.Prelude.{◌≡◌, ◌<◌, ◌^◌, All, IfOk, length};
ghost use Rattle.mt_values.specs.Grid.{Cells, grid_of};
ghost use Rattle.mt_model.specs.Explain as explain;
ghost use Rattle.replies.specs.Lines.{Printed};

use crate::reply::Reply;
use mt_base::NoMemory;
use mt_model::{Counts, explain_line, rows_line};
use mt_values::{Block, ColumnData};
use std::alloc::Global;
use tsv_rows::write_rows;

/// The reply with the rows of these columns, so many: of each row the values of the columns at the positions that are shown, in order.
/// The rows are sorted by these from left to right. `place` is the length of the history.
pub fn print(
    alloc: Global,
    place: u64,
    columns: Vec<ColumnData>,
    rows: usize,
    shown: &[u32],
) -> Result<Reply, NoMemory>
    requires few { rows < 2 ^ 32 }
    requires even { All (λ (c : Cells). length c.values ≡ rows) columns.items }
    requires shown { All (λ at. at < length columns.items) shown.now }
    ensures { IfOk result (λ reply. Printed (grid_of columns.items rows) shown.now place reply) }
{
    let block = Block::of_columns(columns, rows);
    let order = block.order_by(alloc, shown)?;
    let mut bytes = rows_line(alloc, block.len(), place)?;
    write_rows(&block, order.as_slice(), shown, &mut bytes)?;
    Ok(Reply::answer(bytes))
}

/// The line of an EXPLAIN. `place` is the length of the history.
///
/// `NoMemory` where an allocation failed.
pub fn explained(alloc: Global, counts: &Counts, place: u64) -> Result<Reply, NoMemory>
    ensures { IfOk result (λ reply. reply ≡ explain.explain_line counts.now place) }
{
    Ok(Reply::answer(explain_line(alloc, counts, place)?))
}
