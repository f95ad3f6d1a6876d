// Rows as lines.
ghost use Rattle.std.specs.Prelude.{◌≡◌, ◌++◌, ◌∷◌, [], IfOk, OnOk, map, flat_map};
ghost use Rattle.std.specs.Fmt.{decimal, signed_decimal};
ghost use Rattle.mt_values.specs.Printing as printing;

use mt_base::{NoMemory, Seq};
use mt_values::{Bytes, Row, Value};
use std::alloc::Global;

/// The lines of rows, in their order.
pub fn all_lines(alloc: Global, rows: &[Row]) -> Result<Vec<Bytes>, NoMemory>
    ensures { IfOk result (λ lines. lines.items ≡ map printing.line rows.now) }
{
    let mut lines = Vec::new(alloc);
    for row in rows {
        lines.push(line(alloc, row)?)?;
    }
    Ok(lines)
}

/// A row as a line.
fn line(alloc: Global, row: &Row) -> Result<Bytes, NoMemory>
    ensures { IfOk result (λ text. text ≡ printing.line row.now) }
{
    let mut text = Seq::new(alloc);
    if let Some((first, others)) = row.as_slice().split_first() {
        push_fields(alloc, &mut text, first, others)?;
    }
    text.push(b'\n')?;
    Ok(text)
}

/// Adds the fields of a row of at least one value, parted by tabs.
#[tactic(auto, using(crate::proofs::MtModelLists::fields_more))]
fn push_fields(
    alloc: Global,
    text: &mut Bytes,
    first: &Value,
    others: &[Value],
) -> Result<(), NoMemory>
    ensures { OnOk result (text.new ≡ text.old ++ printing.fields (first.now ∷ others.now)) }
{
    push_field(alloc, text, first)?;
    for value in others {
        push_next(alloc, text, value)?;
    }
    Ok(())
}

/// Adds a value after another one.
fn push_next(alloc: Global, text: &mut Bytes, value: &Value) -> Result<(), NoMemory>
    ensures { OnOk result (text.new ≡ text.old ++ 9 ∷ printing.field value.now) }
{
    text.push(b'\t')?;
    push_field(alloc, text, value)
}

/// Adds a value as a field.
fn push_field(alloc: Global, text: &mut Bytes, value: &Value) -> Result<(), NoMemory>
    ensures { OnOk result (text.new ≡ text.old ++ printing.field value.now) }
{
    match value {
        Value::UInt8(n) => push_unsigned(alloc, text, *n as u64),
        Value::UInt16(n) => push_unsigned(alloc, text, *n as u64),
        Value::UInt32(n) => push_unsigned(alloc, text, *n as u64),
        Value::UInt64(n) => push_unsigned(alloc, text, *n),
        Value::Int8(n) => push_signed(alloc, text, *n as i64),
        Value::Int16(n) => push_signed(alloc, text, *n as i64),
        Value::Int32(n) => push_signed(alloc, text, *n as i64),
        Value::Int64(n) => push_signed(alloc, text, *n),
        Value::Text(bytes) => push_text(text, bytes.as_slice()),
    }
}

/// Adds a number's digits.
fn push_unsigned(alloc: Global, text: &mut Bytes, n: u64) -> Result<(), NoMemory>
    ensures { OnOk result (text.new ≡ text.old ++ decimal n) }
{
    let digits = format!(in alloc; "{n}")?;
    text.extend(digits.as_bytes())
}

/// Adds a number's digits, with its sign where it is below 0.
fn push_signed(alloc: Global, text: &mut Bytes, n: i64) -> Result<(), NoMemory>
    ensures { OnOk result (text.new ≡ text.old ++ signed_decimal n) }
{
    let digits = format!(in alloc; "{n}")?;
    text.extend(digits.as_bytes())
}

/// Adds the bytes of a String as they are printed.
fn push_text(text: &mut Bytes, bytes: &[u8]) -> Result<(), NoMemory>
    ensures { OnOk result (text.new ≡ text.old ++ flat_map printing.escaped bytes.now) }
{
    for byte in bytes {
        push_escaped(text, *byte)?;
    }
    Ok(())
}

/// Adds a byte of a String as it is printed.
fn push_escaped(text: &mut Bytes, byte: u8) -> Result<(), NoMemory>
    ensures { OnOk result (text.new ≡ text.old ++ printing.escaped byte) }
{
    match byte {
        8 => text.extend(b"\\b"),
        12 => text.extend(b"\\f"),
        b'\r' => text.extend(b"\\r"),
        b'\n' => text.extend(b"\\n"),
        b'\t' => text.extend(b"\\t"),
        0 => text.extend(b"\\0"),
        b'\'' => text.extend(b"\\'"),
        b'\\' => text.extend(b"\\\\"),
        _ => text.push(byte),
    }
}
