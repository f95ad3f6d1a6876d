// What no clause says: that the calls come to an answer, over sums of both signs that were worked by hand; and which rows the rule tells
// that it need not be given.
ghost use Rattle.std.specs.Prelude.{◌≡◌, IfOk, length};

use crate::SummingRule;
use mt_base::{NoMemory, Seq};
use mt_values::{Block, ColType, Row, Value};
use rule_law::RowRule;
use std::alloc::Global;
use std::test::Fail;

/// A row of the types UInt64, Int8 and String.
fn row(alloc: Global, large: u64, small: i8, text: &[u8]) -> Result<Row, NoMemory> {
    let mut row = Seq::new(alloc);
    row.push(Value::UInt64(large))?;
    row.push(Value::Int8(small))?;
    row.push(Value::Text(Seq::from_slice(alloc, text)?))?;
    Ok(row)
}

/// What is left of two rows, the first two columns of which are summed.
fn left_of(alloc: Global, first: &Row, second: &Row) -> Result<Vec<Row>, NoMemory> {
    let rule = SummingRule {
        types: Seq::from_slice(alloc, &[ColType::UInt64, ColType::Int8, ColType::Text])?,
        places: Seq::from_slice(alloc, &[0, 1])?,
    };
    let mut sums = rule.begin(alloc, first)?;
    rule.add(alloc, &mut sums, second)?;
    rule.end(alloc, sums)
}

#[test]
fn two_rows_leave_their_sums(rt: HostRuntime) -> Result<(), Fail> {
    let alloc = rt.alloc();
    let first = row(alloc, u64::MAX, 127, b"a")?;

    let left = left_of(alloc, &first, &row(alloc, 2, 1, b"b")?)?;
    assert_eq!(rt; left.len(), 1);
    assert!(rt; left[0] == row(alloc, 1, -128, b"a")?);

    let left = left_of(alloc, &first, &row(alloc, 1, -127, b"b")?)?;
    assert_eq!(rt; left.len(), 0);
    Ok(())
}

/// The block of one row, of this number.
fn one_row(alloc: Global, number: i8) -> Result<Block, NoMemory>
    ensures { IfOk result (λ b. length b.rows ≡ 1) }
{
    let mut row = Seq::new(alloc);
    row.push(Value::Int8(number))?;
    let mut rows = Vec::new(alloc);
    rows.push(row)?;
    Block::from_rows(alloc, &[ColType::Int8], &rows)
}

#[test]
fn a_lone_row_stays_but_for_zeros(rt: HostRuntime) -> Result<(), Fail> {
    let alloc = rt.alloc();
    let rule = SummingRule {
        types: Seq::from_slice(alloc, &[ColType::Int8])?,
        places: Seq::from_slice(alloc, &[0])?,
    };
    assert!(rt; rule.stays_alone(&one_row(alloc, -1)?, 0));
    assert!(rt; !rule.stays_alone(&one_row(alloc, 0)?, 0));
    Ok(())
}
