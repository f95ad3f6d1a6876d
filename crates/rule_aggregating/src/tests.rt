// What no clause says: which rows the rule tells that it need not be given. By the clauses it might tell it of none.
ghost use Rattle.std.specs.Prelude.{◌≡◌, IfOk, length};

use crate::AggregatingRule;
use mt_base::{NoMemory, Seq};
use mt_values::{Aggregate, Block, ColType, Value};
use rule_law::RowRule;
use std::alloc::Global;
use std::test::Fail;

/// The block of one row, of this number.
fn one_row(alloc: Global, number: u8) -> Result<Block, NoMemory>
    ensures { IfOk result (λ b. length b.rows ≡ 1) }
{
    let mut row = Seq::new(alloc);
    row.push(Value::UInt8(number))?;
    let mut rows = Vec::new(alloc);
    rows.push(row)?;
    Block::from_rows(alloc, &[ColType::UInt8], &rows)
}

#[test]
fn a_lone_row_stays(rt: HostRuntime) -> Result<(), Fail> {
    let alloc = rt.alloc();
    let rule = AggregatingRule {
        types: Seq::from_slice(alloc, &[ColType::UInt8])?,
        functions: Seq::from_slice(alloc, &[Some(Aggregate::Sum)])?,
    };
    let row = one_row(alloc, 0)?;
    assert!(rt; rule.stays_alone(&row, 0));
    Ok(())
}
