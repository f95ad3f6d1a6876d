// What no clause says: that lines are read where memory is ample. And the faults of lines of a table whose second column is
// its sign, worked by hand.
use crate::{read_row, read_rows};
use mt_base::{NoMemory, Seq, Stop};
use mt_values::{ColType, Column, DataFault, Engine, RowFault, Schema};
use std::alloc::Global;
use std::test::Fail;

/// Data of a table of a UInt8 and an Int8, the place of its sign, and how many rows it has or the first fault.
const DATA: [(&str, Option<u32>, &str); 13] = [
    ("", Some(1), "0"),
    ("1\t1\n2\t-1\n3\t+1\n4\t01\n", Some(1), "4"),
    ("1\t0\n", Some(1), "sign 1"),
    ("1\t1\n2\t2\n", Some(1), "sign 2"),
    ("1\t-1\n2\t1\n3\t-128\n", Some(1), "sign 3"),
    // The fields of a line come before its sign, and its sign before the next line.
    ("x\t0\n", Some(1), "field 1 1"),
    ("1\t128\n", Some(1), "field 1 2"),
    ("1\t0\nx\t1\n", Some(1), "sign 1"),
    ("1\t1\n0\n1\t0\n", Some(1), "fields 2 1 2"),
    // Without a sign any number passes; a sign that is no Int8, or is not there, is none.
    ("1\t0\n1\t-128\n", None, "2"),
    ("", Some(2), "0"),
    ("1\t1\n", Some(2), "sign 1"),
    ("1\t1\n", Some(0), "sign 1"),
];

/// A fault in words.
fn fault_in_words(alloc: Global, fault: RowFault) -> Result<String, NoMemory> {
    Ok(match fault {
        RowFault::Fields {
            line,
            found,
            wanted,
        } => format!(in alloc; "fields {line} {found} {wanted}")?,
        RowFault::Field { line, field } => format!(in alloc; "field {line} {field}")?,
        RowFault::Value => format!(in alloc; "value")?,
        RowFault::Sign { line } => format!(in alloc; "sign {line}")?,
    })
}

/// How many rows data has, or its first fault.
fn read(alloc: Global, sign: Option<u32>, text: &str) -> Result<String, NoMemory> {
    let types = [ColType::UInt8, ColType::Int8];
    match read_rows(alloc, types.as_slice(), sign, text.as_bytes(), true) {
        Ok(block) => Ok(format!(in alloc; "{}", block.len())?),
        Err(Stop::Refused(DataFault::Row(fault))) => fault_in_words(alloc, fault),
        Err(Stop::Refused(_)) => Ok(format!(in alloc; "many or unended")?),
        Err(Stop::NoMemory) => Err(NoMemory),
    }
}

/// A collapsing table of a UInt8 and an Int8, its sign.
fn table(alloc: Global) -> Result<Schema, NoMemory> {
    let mut columns = Seq::new(alloc);
    columns.push(Column {
        name: Seq::from_slice(alloc, b"a".as_slice())?,
        col_type: ColType::UInt8,
        function: None,
    })?;
    columns.push(Column {
        name: Seq::from_slice(alloc, b"s".as_slice())?,
        col_type: ColType::Int8,
        function: None,
    })?;
    Ok(Schema {
        columns,
        engine: Engine::Collapsing(1),
        key: Seq::from_slice(alloc, [0].as_slice())?,
        primary: Seq::from_slice(alloc, [0].as_slice())?,
        partition: None,
        granularity: 8192,
        indexes: Seq::new(alloc),
    })
}

/// How many values the row of a line has, or its fault; the line is the seventh.
fn read_line(alloc: Global, text: &str) -> Result<String, NoMemory> {
    let schema = table(alloc)?;
    match read_row(alloc, &schema, text.as_bytes(), 7) {
        Ok(row) => Ok(format!(in alloc; "{}", row.len())?),
        Err(Stop::Refused(fault)) => fault_in_words(alloc, fault),
        Err(Stop::NoMemory) => Err(NoMemory),
    }
}

#[test]
fn the_sign_of_each_row_is_asked_after_its_fields(rt: HostRuntime) -> Result<(), Fail> {
    for (text, sign, wanted) in DATA {
        let found = read(rt.alloc(), sign, text)?;
        assert_eq!(rt; found.as_str(), wanted, "{text}");
    }
    Ok(())
}

#[test]
fn the_sign_of_a_row_is_asked_after_its_fields(rt: HostRuntime) -> Result<(), Fail> {
    let lines = [
        ("1\t+1", "2"),
        ("1\t-1", "2"),
        ("1\t0", "sign 7"),
        ("1\t2", "sign 7"),
        ("1\t-128", "sign 7"),
        ("x\t0", "field 7 1"),
        ("1", "fields 7 1 2"),
    ];
    for (text, wanted) in lines {
        let found = read_line(rt.alloc(), text)?;
        assert_eq!(rt; found.as_str(), wanted, "{text}");
    }
    Ok(())
}
