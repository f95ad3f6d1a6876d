// What no clause says: that calls come to an answer, of no inputs, of empty ones and of up to five; the answers were worked by hand.
use crate::{merge_rows, merge_sorted};
use mt_base::{NoMemory, Seq};
use mt_values::{ColType, Column, Engine, Row, Schema, Value};
use rule_replacing::rule_law::RowRule;
use rule_replacing::{PlainRule, ReplacingRule};
use std::alloc::Global;
use std::mem;
use std::test::Fail;

/// Inputs, and what merges leave of them, as texts: two letters a row, its key and its value, and a full stop with a space
/// after each input.
#[derive(Clone, Copy)]
struct Case {
    inputs: &'static [u8],
    /// By the rule of MergeTree.
    all: &'static [u8],
    /// By the rule of ReplacingMergeTree without a version.
    last: &'static [u8],
    /// By the rule of ReplacingMergeTree whose version is the value.
    newest: &'static [u8],
}

/// A table of two columns, its key the first.
fn table(alloc: Global, engine: Engine) -> Result<Schema, NoMemory> {
    let mut columns = Seq::new(alloc);
    columns.push(Column {
        name: Seq::from_slice(alloc, b"k")?,
        col_type: ColType::UInt8,
        function: None,
    })?;
    columns.push(Column {
        name: Seq::from_slice(alloc, b"v")?,
        col_type: ColType::UInt8,
        function: None,
    })?;
    Ok(Schema {
        columns,
        engine,
        key: Seq::from_slice(alloc, &[0])?,
        primary: Seq::from_slice(alloc, &[0])?,
        partition: None,
        granularity: 8192,
        indexes: Seq::new(alloc),
    })
}

/// A row of two letters.
fn row(alloc: Global, key: u8, value: u8) -> Result<Row, NoMemory> {
    let mut row = Seq::new(alloc);
    row.push(Value::UInt8(key))?;
    row.push(Value::UInt8(value))?;
    Ok(row)
}

/// The inputs that a text tells.
fn inputs_of(alloc: Global, text: &[u8]) -> Result<Vec<Vec<Row>>, NoMemory> {
    let mut inputs = Vec::new(alloc);
    let mut input = Vec::new(alloc);
    for letters in text.chunks(2) {
        match letters {
            [b'.', _] => inputs.push(mem::replace(&mut input, Vec::new(alloc)))?,
            [key, value] => input.push(row(alloc, *key, *value)?)?,
            _ => {}
        }
    }
    Ok(inputs)
}

/// What a merge of the inputs leaves, as a text.
fn merged<Q: RowRule>(alloc: Global, text: &[u8], rule: &Q) -> Result<Vec<u8>, NoMemory> {
    let inputs = inputs_of(alloc, text)?;
    let schema = table(alloc, Engine::Plain)?;
    letters_of(
        alloc,
        &merge_sorted(alloc, inputs.as_slice(), &schema, rule)?,
    )
}

/// What a merge of the inputs leaves in a table of this engine, as a text.
fn merged_by(alloc: Global, text: &[u8], engine: Engine) -> Result<Vec<u8>, NoMemory> {
    let inputs = inputs_of(alloc, text)?;
    let schema = table(alloc, engine)?;
    letters_of(alloc, &merge_rows(alloc, &schema, inputs.as_slice())?)
}

/// The letters of rows.
fn letters_of(alloc: Global, rows: &[Row]) -> Result<Vec<u8>, NoMemory> {
    let mut letters = Vec::new(alloc);
    for row in rows {
        for value in row.as_slice() {
            if let Value::UInt8(letter) = value {
                letters.push(*letter)?;
            }
        }
    }
    Ok(letters)
}

const CASES: [Case; 6] = [
    Case {
        inputs: b"",
        all: b"",
        last: b"",
        newest: b"",
    },
    Case {
        inputs: b". ",
        all: b"",
        last: b"",
        newest: b"",
    },
    Case {
        inputs: b"a1a2b3. ",
        all: b"a1a2b3",
        last: b"a2b3",
        newest: b"a2b3",
    },
    Case {
        inputs: b"a9b1. a1a2. ",
        all: b"a9a1a2b1",
        last: b"a2b1",
        newest: b"a9b1",
    },
    Case {
        inputs: b"b7. . a1b5c1. ",
        all: b"a1b7b5c1",
        last: b"a1b5c1",
        newest: b"a1b7c1",
    },
    Case {
        inputs: b"c1. a1. b1. a2c0. a0. ",
        all: b"a1a2a0b1c1c0",
        last: b"a0b1c0",
        newest: b"a2b1c1",
    },
];

#[test]
fn inputs_are_merged(rt: HostRuntime) -> Result<(), Fail> {
    let alloc = rt.alloc();
    for case in &CASES {
        assert_eq!(rt;
            merged(alloc, case.inputs, &PlainRule)?.as_slice(),
            case.all
        );
        let last = ReplacingRule { version: None };
        assert_eq!(rt; merged(alloc, case.inputs, &last)?.as_slice(), case.last);
        let newest = ReplacingRule { version: Some(1) };
        assert_eq!(rt;
            merged(alloc, case.inputs, &newest)?.as_slice(),
            case.newest
        );
    }
    Ok(())
}

#[test]
fn a_table_is_merged_by_its_engine(rt: HostRuntime) -> Result<(), Fail> {
    let alloc = rt.alloc();
    let inputs = b"a3b2. a1. ".as_slice();
    assert_eq!(rt;
        merged_by(alloc, inputs, Engine::Plain)?.as_slice(),
        b"a3a1b2".as_slice()
    );
    let last = Engine::Replacing(None);
    assert_eq!(rt;
        merged_by(alloc, inputs, last)?.as_slice(),
        b"a1b2".as_slice()
    );
    let newest = Engine::Replacing(Some(1));
    assert_eq!(rt;
        merged_by(alloc, inputs, newest)?.as_slice(),
        b"a3b2".as_slice()
    );
    // The letters 3 and 1 are 51 and 49, and d is 100.
    let sums = Engine::Summing(Seq::from_slice(alloc, &[1])?);
    assert_eq!(rt;
        merged_by(alloc, inputs, sums)?.as_slice(),
        b"adb2".as_slice()
    );
    // A column without a function keeps its first value.
    assert_eq!(rt;
        merged_by(alloc, inputs, Engine::Aggregating)?.as_slice(),
        b"a3b2".as_slice()
    );
    // No row has a sign, so none is folded.
    let signs = Engine::Collapsing(1);
    assert_eq!(rt;
        merged_by(alloc, inputs, signs)?.as_slice(),
        b"a3a1b2".as_slice()
    );
    Ok(())
}
