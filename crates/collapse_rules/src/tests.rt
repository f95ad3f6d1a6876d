// What no clause says: which rows the rules tell that they need not be given. By the clauses they might tell it of none.
ghost use Rattle.std.specs.Prelude.{◌≡◌, IfOk, length};

use crate::{CollapsingRule, VersionedRule};
use mt_base::{NoMemory, Seq};
use mt_values::{Block, ColType, Value};
use rule_law::RowRule;
use std::alloc::Global;
use std::test::Fail;

/// The block of one row, of this sign.
fn one_row(alloc: Global, sign: i8) -> Result<Block, NoMemory>
    ensures { IfOk result (λ b. length b.rows ≡ 1) }
{
    let mut row = Seq::new(alloc);
    row.push(Value::Int8(sign))?;
    let mut rows = Vec::new(alloc);
    rows.push(row)?;
    Block::from_rows(alloc, &[ColType::Int8], &rows)
}

#[test]
fn a_lone_row_stays(rt: HostRuntime) -> Result<(), Fail> {
    let alloc = rt.alloc();
    let collapsing = CollapsingRule { sign: 0 };
    let versioned = VersionedRule {
        sign: 0,
        version: 1,
    };
    for sign in [1, -1] {
        let row = one_row(alloc, sign)?;
        assert!(rt; collapsing.stays_alone(&row, 0));
        assert!(rt; versioned.stays_alone(&row, 0));
    }
    Ok(())
}
