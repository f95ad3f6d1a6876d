// That blocks come to the rows to which rows come, and to rows that were worked by hand.
ghost use Rattle.std.specs.Prelude.{◌≡◌, ◌∷◌, [], All, IfOk, length};
ghost use Rattle.mt_values.specs.declared.mutation.Mutation.{Mutation};
ghost use Rattle.mt_values.specs.declared.value.ColType.TheVariants as type;
ghost use Rattle.mt_values.specs.Values.{types_of};
ghost use Rattle.on_fly.specs.Updates.{FitsColumn, KeepsTypes};

use super::first_is;
use crate::{apply, apply_block};
use mt_base::{NoMemory, Seq};
use mt_values::{Assigned, Assignment, Block, Change, ColType, Expr, Mutation, Row, Test, Value};
use std::alloc::Global;
use std::test::Fail;

/// A row of two numbers, a text and a signed number.
fn row(alloc: Global, a: u8, b: u8, c: &[u8], d: i8) -> Result<Row, NoMemory>
    ensures { IfOk result
        (λ r. types_of r ≡ type.UInt8 ∷ type.UInt8 ∷ type.Text ∷ type.Int8 ∷ []) }
{
    let mut row = Seq::new(alloc);
    row.push(Value::UInt8(a))?;
    row.push(Value::UInt8(b))?;
    row.push(Value::Text(Seq::from_slice(alloc, c)?))?;
    row.push(Value::Int8(d))?;
    Ok(row)
}

/// The rows (1, 4, one, 127), (2, 5, no bytes, -128) and (1, 6, two, 0).
fn three_rows(alloc: Global) -> Result<Vec<Row>, NoMemory>
    ensures typed { IfOk result (λ rows. All
        (λ r. types_of r ≡ type.UInt8 ∷ type.UInt8 ∷ type.Text ∷ type.Int8 ∷ []) rows.items) }
    ensures count { IfOk result (λ rows. length rows.items ≡ 3) }
{
    let mut rows = Vec::new(alloc);
    rows.push(row(alloc, 1, 4, b"one".as_slice(), 127)?)?;
    rows.push(row(alloc, 2, 5, b"".as_slice(), -128)?)?;
    rows.push(row(alloc, 1, 6, b"two".as_slice(), 0)?)?;
    Ok(rows)
}

/// An UPDATE with one assignment.
fn update(
    alloc: Global,
    column: u32,
    value: Assigned,
    condition: Expr<Test>,
) -> Result<Mutation, NoMemory>
    requires { FitsColumn (type.UInt8 ∷ type.UInt8 ∷ type.Text ∷ type.Int8 ∷ []) column value }
    ensures { IfOk result
        (λ m. KeepsTypes (type.UInt8 ∷ type.UInt8 ∷ type.Text ∷ type.Int8 ∷ []) m.change) }
{
    let mut assignments = Seq::new(alloc);
    assignments.push(Assignment { column, value })?;
    Ok(Mutation {
        number: 1,
        change: Change::Update {
            assignments,
            condition,
        },
    })
}

/// `UPDATE a = b, b = a`.
fn exchange(alloc: Global) -> Result<Mutation, NoMemory>
    ensures { IfOk result (λ m.
        KeepsTypes (type.UInt8 ∷ type.UInt8 ∷ type.Text ∷ type.Int8 ∷ []) m.change) }
{
    let mut assignments = Seq::new(alloc);
    assignments.push(Assignment {
        column: 0,
        value: Assigned::Column(1),
    })?;
    assignments.push(Assignment {
        column: 1,
        value: Assigned::Column(0),
    })?;
    Ok(Mutation {
        number: 1,
        change: Change::Update {
            assignments,
            condition: Expr::always(alloc)?,
        },
    })
}

/// A DELETE.
fn delete(condition: Expr<Test>) -> Mutation
    ensures { KeepsTypes (type.UInt8 ∷ type.UInt8 ∷ type.Text ∷ type.Int8 ∷ []) result.change }
{
    Mutation {
        number: 1,
        change: Change::Delete(condition),
    }
}

/// The block of the three rows after mutations.
fn left_by(alloc: Global, mutations: &[Mutation]) -> Result<Block, NoMemory>
    requires { All (λ (m : Mutation). KeepsTypes (type.UInt8 ∷ type.UInt8 ∷ type.Text ∷ type.Int8 ∷ [])
        m.change) mutations.now }
{
    let types = [ColType::UInt8, ColType::UInt8, ColType::Text, ColType::Int8];
    let rows = three_rows(alloc)?;
    let mut block = Block::from_rows(alloc, &types, &rows)?;
    apply_block(alloc, mutations, &mut block)?;
    Ok(block)
}

/// Whether a block has these rows.
fn has_rows(alloc: Global, block: &Block, rows: &[Row]) -> Result<bool, NoMemory> {
    if block.len() != rows.len() {
        return Ok(false);
    }
    for place in 0..rows.len() {
        if block.row(alloc, place)? != rows[place] {
            return Ok(false);
        }
    }
    Ok(true)
}

/// Whether mutations leave in the block of the three rows what they leave of the rows.
fn is_alike(alloc: Global, mutations: &[Mutation]) -> Result<bool, NoMemory>
    requires { All (λ (m : Mutation). KeepsTypes (type.UInt8 ∷ type.UInt8 ∷ type.Text ∷ type.Int8 ∷ [])
        m.change) mutations.now }
{
    let block = left_by(alloc, mutations)?;
    let mut rows = three_rows(alloc)?;
    apply(alloc, mutations, &mut rows)?;
    has_rows(alloc, &block, &rows)
}

#[test]
fn columns_of_a_block_are_exchanged(rt: HostRuntime) -> Result<(), Fail> {
    let alloc = rt.alloc();
    let once = [exchange(alloc)?];
    assert!(rt; is_alike(alloc, &once)?);

    let mut rows = Vec::new(alloc);
    rows.push(row(alloc, 4, 1, b"one".as_slice(), 127)?)?;
    rows.push(row(alloc, 5, 2, b"".as_slice(), -128)?)?;
    rows.push(row(alloc, 6, 1, b"two".as_slice(), 0)?)?;
    let block = left_by(alloc, &once)?;
    assert!(rt; has_rows(alloc, &block, &rows)?);

    let twice = [exchange(alloc)?, exchange(alloc)?];
    let block = left_by(alloc, &twice)?;
    assert!(rt; has_rows(alloc, &block, &three_rows(alloc)?)?);
    Ok(())
}

#[test]
fn texts_are_assigned_where_the_condition_is_met(rt: HostRuntime) -> Result<(), Fail> {
    let alloc = rt.alloc();
    let text = Assigned::Literal(Value::Text(Seq::from_slice(alloc, b"long".as_slice())?));
    let some = [update(alloc, 2, text, first_is(alloc, 1)?)?];
    assert!(rt; is_alike(alloc, &some)?);

    let mut rows = Vec::new(alloc);
    rows.push(row(alloc, 1, 4, b"long".as_slice(), 127)?)?;
    rows.push(row(alloc, 2, 5, b"".as_slice(), -128)?)?;
    rows.push(row(alloc, 1, 6, b"long".as_slice(), 0)?)?;
    let block = left_by(alloc, &some)?;
    assert!(rt; has_rows(alloc, &block, &rows)?);
    Ok(())
}

#[test]
fn numbers_of_a_block_wrap(rt: HostRuntime) -> Result<(), Fail> {
    let alloc = rt.alloc();
    let more = Assigned::Plus {
        column: 3,
        number: Value::Int8(1),
    };
    let all = [update(alloc, 3, more, Expr::always(alloc)?)?];
    assert!(rt; is_alike(alloc, &all)?);

    let mut rows = Vec::new(alloc);
    rows.push(row(alloc, 1, 4, b"one".as_slice(), -128)?)?;
    rows.push(row(alloc, 2, 5, b"".as_slice(), -127)?)?;
    rows.push(row(alloc, 1, 6, b"two".as_slice(), 1)?)?;
    let block = left_by(alloc, &all)?;
    assert!(rt; has_rows(alloc, &block, &rows)?);

    let less = Assigned::Minus {
        column: 0,
        number: Value::UInt8(2),
    };
    let some = [update(alloc, 0, less, first_is(alloc, 1)?)?];
    assert!(rt; is_alike(alloc, &some)?);
    Ok(())
}

#[test]
fn an_update_of_a_block_may_make_its_own_condition_false(rt: HostRuntime) -> Result<(), Fail> {
    let alloc = rt.alloc();
    let once = Assigned::Literal(Value::UInt8(7));
    let again = Assigned::Literal(Value::UInt8(9));
    let both = [
        update(alloc, 0, once, first_is(alloc, 1)?)?,
        update(alloc, 0, again, first_is(alloc, 1)?)?,
    ];
    assert!(rt; is_alike(alloc, &both)?);

    let mut rows = Vec::new(alloc);
    rows.push(row(alloc, 7, 4, b"one".as_slice(), 127)?)?;
    rows.push(row(alloc, 2, 5, b"".as_slice(), -128)?)?;
    rows.push(row(alloc, 7, 6, b"two".as_slice(), 0)?)?;
    let block = left_by(alloc, &both)?;
    assert!(rt; has_rows(alloc, &block, &rows)?);
    Ok(())
}

#[test]
fn rows_of_a_block_are_deleted(rt: HostRuntime) -> Result<(), Fail> {
    let alloc = rt.alloc();
    let some = [delete(first_is(alloc, 1)?)];
    assert!(rt; is_alike(alloc, &some)?);

    let mut rows = Vec::new(alloc);
    rows.push(row(alloc, 2, 5, b"".as_slice(), -128)?)?;
    let block = left_by(alloc, &some)?;
    assert!(rt; has_rows(alloc, &block, &rows)?);

    let all = [delete(Expr::always(alloc)?)];
    assert!(rt; is_alike(alloc, &all)?);
    assert_eq!(rt; left_by(alloc, &all)?.len(), 0);
    let none: [Mutation; 0] = [];
    assert!(rt; is_alike(alloc, &none)?);
    Ok(())
}
