// Sorted inputs of rows of one table.
use mt_base::{NoMemory, Seq};
use mt_values::{ColType, Column, Engine, Row, Schema, Value};
use std::alloc::Global;

/// How many rows there are, in how many inputs, and how many of them have one key.
#[derive(Drop)]
pub struct Shape {
    pub rows: u64,
    pub inputs: u64,
    pub alike: u64,
}

/// The types of the columns: the key, a number, a sign and a text.
pub fn columns() -> [ColType; 4] {
    [
        ColType::UInt64,
        ColType::UInt64,
        ColType::Int8,
        ColType::Text,
    ]
}

/// A table with these columns, sorted by the first.
///
/// `NoMemory` where an allocation failed.
pub fn schema(alloc: Global) -> Result<Schema, NoMemory> {
    let mut list = Seq::new(alloc);
    for col_type in columns() {
        list.push(Column {
            name: Seq::new(alloc),
            col_type,
            function: None,
        })?;
    }
    Ok(Schema {
        columns: list,
        engine: Engine::Plain,
        key: Seq::from_slice(alloc, &[0])?,
        primary: Seq::from_slice(alloc, &[0])?,
        partition: None,
        granularity: 8192,
        indexes: Seq::new(alloc),
    })
}

/// The row of a number: its key, what of the rows with the key it is, a sign in turn, and a text of eight bytes.
fn row(alloc: Global, number: u64, alike: u64) -> Result<Row, NoMemory> {
    let place = number.checked_rem(alike).unwrap_or(0);
    let sign = if place % 2 == 0 { 1 } else { -1 };
    let text = number.wrapping_mul(7919).to_le_bytes();
    let mut row = Seq::with_capacity(alloc, 4)?;
    row.push(Value::UInt64(number.checked_div(alike).unwrap_or(0)))?;
    row.push(Value::UInt64(place))?;
    row.push(Value::Int8(sign))?;
    row.push(Value::Text(Seq::from_slice(alloc, text.as_slice())?))?;
    Ok(row)
}

/// The rows of all numbers in their order, dealt out to the inputs one by one, so that each input is sorted.
///
/// `NoMemory` where an allocation failed.
pub fn dealt_inputs(alloc: Global, shape: &Shape) -> Result<Vec<Vec<Row>>, NoMemory> {
    let mut lists: Vec<Vec<Row>> = Vec::new(alloc);
    for _input in 0..shape.inputs {
        lists.push(Vec::new(alloc))?;
    }
    for number in 0..shape.rows {
        let place = number.checked_rem(shape.inputs).unwrap_or(0);
        if let Some(list) = lists.get_mut(place as usize) {
            list.push(row(alloc, number, shape.alike)?)?;
        }
    }
    Ok(lists)
}
