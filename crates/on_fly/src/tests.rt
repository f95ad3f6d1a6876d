// That calls come to an answer where memory is ample. The answers were worked by hand.
mod blocks;

use crate::{apply, unknown_columns};
use mt_base::{NoMemory, Seq};
use mt_values::{
    Assigned, Assignment, Change, Comparison, Expr, Literals, Mutation, Row, Test, Value,
};
use std::alloc::Global;
use std::test::Fail;

/// A row of the types UInt8, UInt8 and Int8.
fn row(alloc: Global, a: u8, b: u8, c: i8) -> Result<Row, NoMemory> {
    let mut row = Seq::new(alloc);
    row.push(Value::UInt8(a))?;
    row.push(Value::UInt8(b))?;
    row.push(Value::Int8(c))?;
    Ok(row)
}

/// The condition that the first column is a number.
fn first_is(alloc: Global, number: u8) -> Result<Expr<Test>, NoMemory> {
    let mut literals = Seq::new(alloc);
    literals.push(Value::UInt8(number))?;
    Expr::of(
        alloc,
        Test {
            column: 0,
            comparison: Comparison::Equal,
            literals: Literals::of(alloc, literals)?,
        },
    )
}

/// An UPDATE with one assignment.
fn update(
    alloc: Global,
    column: u32,
    value: Assigned,
    condition: Expr<Test>,
) -> Result<Mutation, NoMemory> {
    let mut assignments = Seq::new(alloc);
    assignments.push(Assignment { column, value })?;
    Ok(Mutation {
        number: 1,
        change: Change::Update {
            assignments,
            condition,
        },
    })
}

/// `UPDATE a = b, b = a`.
fn exchange(alloc: Global) -> Result<Mutation, NoMemory> {
    let mut assignments = Seq::new(alloc);
    assignments.push(Assignment {
        column: 0,
        value: Assigned::Column(1),
    })?;
    assignments.push(Assignment {
        column: 1,
        value: Assigned::Column(0),
    })?;
    Ok(Mutation {
        number: 1,
        change: Change::Update {
            assignments,
            condition: Expr::always(alloc)?,
        },
    })
}

/// What mutations make of the rows (1, 255, 127) and (2, 0, -128).
fn left_by(alloc: Global, mutations: &[Mutation]) -> Result<Vec<Row>, NoMemory> {
    let mut rows = Vec::new(alloc);
    rows.push(row(alloc, 1, 255, 127)?)?;
    rows.push(row(alloc, 2, 0, -128)?)?;
    apply(alloc, mutations, &mut rows)?;
    Ok(rows)
}

#[test]
fn assignments_read_the_row_as_it_was(rt: HostRuntime) -> Result<(), Fail> {
    let alloc = rt.alloc();
    let left = left_by(alloc, &[exchange(alloc)?])?;
    assert_eq!(rt; left.len(), 2);
    assert!(rt; left[0] == row(alloc, 255, 1, 127)?);
    assert!(rt; left[1] == row(alloc, 0, 2, -128)?);

    let left = left_by(alloc, &[exchange(alloc)?, exchange(alloc)?])?;
    assert_eq!(rt; left.len(), 2);
    assert!(rt; left[0] == row(alloc, 1, 255, 127)?);
    Ok(())
}

#[test]
fn numbers_wrap_at_the_width_of_their_column(rt: HostRuntime) -> Result<(), Fail> {
    let alloc = rt.alloc();
    let more = Assigned::Plus {
        column: 1,
        number: Value::UInt8(1),
    };
    let left = left_by(alloc, &[update(alloc, 1, more, Expr::always(alloc)?)?])?;
    assert_eq!(rt; left.len(), 2);
    assert!(rt; left[0] == row(alloc, 1, 0, 127)?);
    assert!(rt; left[1] == row(alloc, 2, 1, -128)?);

    let more = Assigned::Plus {
        column: 2,
        number: Value::Int8(1),
    };
    let left = left_by(alloc, &[update(alloc, 2, more, Expr::always(alloc)?)?])?;
    assert_eq!(rt; left.len(), 2);
    assert!(rt; left[0] == row(alloc, 1, 255, -128)?);
    assert!(rt; left[1] == row(alloc, 2, 0, -127)?);

    let less = Assigned::Minus {
        column: 2,
        number: Value::Int8(1),
    };
    let left = left_by(alloc, &[update(alloc, 2, less, Expr::always(alloc)?)?])?;
    assert_eq!(rt; left.len(), 2);
    assert!(rt; left[0] == row(alloc, 1, 255, 126)?);
    assert!(rt; left[1] == row(alloc, 2, 0, 127)?);
    Ok(())
}

#[test]
fn an_update_may_make_its_own_condition_false(rt: HostRuntime) -> Result<(), Fail> {
    let alloc = rt.alloc();
    let value = Assigned::Literal(Value::UInt8(7));
    let once = update(alloc, 0, value, first_is(alloc, 1)?)?;
    let value = Assigned::Literal(Value::UInt8(9));
    let again = update(alloc, 0, value, first_is(alloc, 1)?)?;
    let left = left_by(alloc, &[once, again])?;
    assert_eq!(rt; left.len(), 2);
    assert!(rt; left[0] == row(alloc, 7, 255, 127)?);
    assert!(rt; left[1] == row(alloc, 2, 0, -128)?);
    Ok(())
}

#[test]
fn rows_are_deleted(rt: HostRuntime) -> Result<(), Fail> {
    let alloc = rt.alloc();
    let one = Mutation {
        number: 1,
        change: Change::Delete(first_is(alloc, 1)?),
    };
    let same = Mutation {
        number: 2,
        change: Change::Delete(first_is(alloc, 1)?),
    };
    let left = left_by(alloc, &[one, same])?;
    assert_eq!(rt; left.len(), 1);
    assert!(rt; left[0] == row(alloc, 2, 0, -128)?);

    let all = Mutation {
        number: 1,
        change: Change::Delete(Expr::always(alloc)?),
    };
    assert_eq!(rt; left_by(alloc, &[all])?.len(), 0);
    Ok(())
}

#[test]
fn columns_that_are_assigned_are_told(rt: HostRuntime) -> Result<(), Fail> {
    let alloc = rt.alloc();
    let none = Mutation {
        number: 1,
        change: Change::Delete(Expr::always(alloc)?),
    };
    let last = update(alloc, 2, Assigned::Column(2), Expr::always(alloc)?)?;
    let first = update(alloc, 0, Assigned::Column(1), Expr::always(alloc)?)?;
    let unknown = unknown_columns(alloc, &[none, last, first])?;
    assert_eq!(rt; unknown.len(), 3);
    assert_eq!(rt; unknown[0], true);
    assert_eq!(rt; unknown[1], false);
    assert_eq!(rt; unknown[2], true);
    Ok(())
}
