// The rows of blocks.
ghost use Rattle.std.specs.Prelude.{◌≡◌, ◌↔◌, IfOk, true};

use mt_base::NoMemory;
use mt_values::{Block, ColType, Row};
use std::alloc::Global;

/// The rows of a block, in its order.
#[tactic(auto, using(crate::proofs::MtModelLists::take_got))]
pub fn rows_of(alloc: Global, block: &Block) -> Result<Vec<Row>, NoMemory>
    ensures { IfOk result (λ rows. rows.items ≡ block.now.rows) }
{
    let mut rows = Vec::new(alloc);
    for place in 0..block.len() {
        rows.push(block.row(alloc, place)?)?;
    }
    Ok(rows)
}

/// The types of a block's columns, in order.
#[tactic(auto, using(crate::proofs::MtModelLists::take_got))]
fn types_of(alloc: Global, block: &Block) -> Result<Vec<ColType>, NoMemory>
    ensures { IfOk result (λ types. types.items ≡ block.now.types) }
{
    let mut types = Vec::new(alloc);
    for place in 0..block.width() {
        types.push(block.column(place).col_type())?;
    }
    Ok(types)
}

/// Whether two blocks are one: whether they have the same types of columns and the same rows.
pub fn same_blocks(alloc: Global, a: &Block, b: &Block) -> Result<bool, NoMemory>
    ensures { IfOk result (λ same. (same ≡ true) ↔ (a.now ≡ b.now)) }
{
    let types = types_of(alloc, a)?;
    if !same_types(&types, &types_of(alloc, b)?) {
        return Ok(false);
    }
    let rows = rows_of(alloc, a)?;
    let others = rows_of(alloc, b)?;
    Ok(same_rows(&rows, &others))
}

/// Whether two lists of types are one.
fn same_types(a: &[ColType], b: &[ColType]) -> bool
    ensures { (result ≡ true) ↔ (a.now ≡ b.now) }
{
    a == b
}

/// Whether two lists of rows are one.
pub(crate) fn same_rows(a: &[Row], b: &[Row]) -> bool
    ensures { (result ≡ true) ↔ (a.now ≡ b.now) }
{
    a == b
}
