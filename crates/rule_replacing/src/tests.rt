// What no clause says: which rows the rules tell that they need not be given. By the clauses they might tell it of none.
ghost use Rattle.std.specs.Prelude.{◌≡◌, IfOk, length};

use crate::{PlainRule, ReplacingRule};
use mt_base::{NoMemory, Seq};
use mt_values::{Block, ColType, Value};
use rule_law::RowRule;
use std::alloc::Global;
use std::test::Fail;

/// The block of one row, of this number.
fn one_row(alloc: Global, number: u8) -> Result<Block, NoMemory>
    ensures { IfOk result (λ b. length b.rows ≡ 1) }
{
    let mut row = Seq::new(alloc);
    row.push(Value::UInt8(number))?;
    let mut rows = Vec::new(alloc);
    rows.push(row)?;
    Block::from_rows(alloc, &[ColType::UInt8], &rows)
}

#[test]
fn a_lone_row_stays(rt: HostRuntime) -> Result<(), Fail> {
    let row = one_row(rt.alloc(), 3)?;

    assert!(rt; PlainRule.stays_alone(&row, 0));
    assert!(rt; ReplacingRule { version: None }.stays_alone(&row, 0));
    assert!(rt; ReplacingRule { version: Some(0) }.stays_alone(&row, 0));
    Ok(())
}

#[test]
fn a_row_gives_way_to_no_lesser_version(rt: HostRuntime) -> Result<(), Fail> {
    let alloc = rt.alloc();
    let less = one_row(alloc, 3)?;
    let more = one_row(alloc, 5)?;

    let latest = ReplacingRule { version: None };
    assert!(rt; latest.gives_way(&less, 0, &more, 0));
    assert!(rt; latest.gives_way(&more, 0, &less, 0));

    let greatest = ReplacingRule { version: Some(0) };
    assert!(rt; greatest.gives_way(&less, 0, &more, 0));
    assert!(rt; greatest.gives_way(&less, 0, &less, 0));
    assert!(rt; !greatest.gives_way(&more, 0, &less, 0));
    Ok(())
}
