// Whether the visible parts of a table stand for what was inserted into it and how that was changed, as the plain program says.
use mt_base::{NoMemory, Partition, Twin};
use mt_plain::on_fly::change_rows;
use mt_plain::{Order, all_merged, compare, rows_of, same_partition, sorted_rows};
use mt_values::{Aggregate, Alter, Command, Entry, Insert, Name, Row, Schema};
use std::alloc::Global;
use table_core::part_history::CorePart;
use table_core::part_name::data_version;

// Whether an INSERT into a partition, of this number of its table, is in a part.
fn is_in(part: &CorePart, partition: Partition, number: u64) -> bool {
    same_partition(part.name.partition, partition)
        && u64::from(part.name.min_block) <= number
        && number <= u64::from(part.name.max_block)
}

// In how many of the parts it is.
fn times_in(parts: &[CorePart], partition: Partition, number: u64) -> usize {
    let mut found = 0usize;
    for part in parts {
        if is_in(part, partition, number) {
            found = found.saturating_add(1);
        }
    }
    found
}

// What a command is for a table: an INSERT into it, a mutation of it, or nothing that draws a number of it.
#[derive(Drop)]
enum Drawn<'a> {
    Insert(&'a Insert),
    Alter(&'a Alter),
    Nothing,
}

// What a command is for a table.
fn what_draws<'a>(table: &Name, entry: &'a Entry) -> Drawn<'a> {
    match &entry.command {
        Command::Insert(insert) if insert.table == *table => Drawn::Insert(insert),
        Command::Alter(alter) if alter.table == *table => Drawn::Alter(alter),
        _ => Drawn::Nothing,
    }
}

// Whether each INSERT into a table is in one part.
fn are_once(table: &Name, parts: &[CorePart], history: &[Entry]) -> bool {
    let mut number = 0u64;
    for entry in history {
        let here = what_draws(table, entry);
        if let Drawn::Nothing = here {
            continue;
        }
        number = number.saturating_add(1);
        if let Drawn::Insert(insert) = here {
            if times_in(parts, insert.partition, number) != 1 {
                return false;
            }
        }
    }
    true
}

// What draws this number of a table; nothing where none does.
fn drawn_at<'a>(table: &Name, history: &'a [Entry], wanted: u32) -> Drawn<'a> {
    let mut number = 0u64;
    for entry in history {
        let here = what_draws(table, entry);
        if let Drawn::Nothing = here {
            continue;
        }
        number = number.saturating_add(1);
        if number == u64::from(wanted) {
            return here;
        }
    }
    Drawn::Nothing
}

// Whether this number of a table is an INSERT's into a partition.
fn is_insert(table: &Name, history: &[Entry], partition: Partition, wanted: u32) -> bool {
    match drawn_at(table, history, wanted) {
        Drawn::Insert(insert) => same_partition(insert.partition, partition),
        _ => false,
    }
}

// Whether this number of a table is a mutation's.
fn is_mutation(table: &Name, history: &[Entry], wanted: u32) -> bool {
    match drawn_at(table, history, wanted) {
        Drawn::Alter(_) => true,
        _ => false,
    }
}

// Adds copies of rows.
fn add_copies(alloc: Global, rows: &mut Vec<Row>, more: &[Row]) -> Result<(), NoMemory> {
    for row in more {
        rows.push(row.twin(alloc)?)?;
    }
    Ok(())
}

// The rows that the name of a part reaches: those of the INSERTs in it, changed by each mutation up to its version when that came.
fn rows_in(
    alloc: Global,
    table: &Name,
    schema: &Schema,
    part: &CorePart,
    history: &[Entry],
) -> Result<Vec<Row>, NoMemory> {
    let mut rows = Vec::new(alloc);
    let mut number = 0u64;
    for entry in history {
        match what_draws(table, entry) {
            Drawn::Insert(insert) => {
                number = number.saturating_add(1);
                if is_in(part, insert.partition, number) {
                    let own = rows_of(alloc, &insert.block)?;
                    rows.append(&mut sorted_rows(alloc, Order::Table(schema), own)?)?;
                }
            }
            Drawn::Alter(alter) => {
                number = number.saturating_add(1);
                if number <= u64::from(data_version(&part.name)) {
                    change_rows(alloc, &alter.change, &mut rows)?;
                }
            }
            Drawn::Nothing => {}
        }
    }
    Ok(rows)
}

// Whether rows are in the table's order.
fn are_sorted(alloc: Global, schema: &Schema, rows: &[Row]) -> Result<bool, NoMemory> {
    let mut copies = Vec::new(alloc);
    add_copies(alloc, &mut copies, rows)?;
    let sorted = sorted_rows(alloc, Order::Table(schema), copies)?;
    Ok(sorted.as_slice() == rows)
}

// Those of rows that have the key of a row.
fn alike(alloc: Global, schema: &Schema, row: &Row, rows: &[Row]) -> Result<Vec<Row>, NoMemory> {
    let mut own = Vec::new(alloc);
    for other in rows {
        if compare(alloc, Order::Table(schema), row, other)?.is_eq() {
            own.push(other.twin(alloc)?)?;
        }
    }
    Ok(own)
}

// The function of each column, where it has one.
fn functions_of(alloc: Global, schema: &Schema) -> Result<Vec<Option<Aggregate>>, NoMemory> {
    let mut functions = Vec::new(alloc);
    for column in schema.columns.as_slice() {
        functions.push(column.function)?;
    }
    Ok(functions)
}

// Whether any number of merges may leave some rows of a key of these.
fn may_leave(alloc: Global, schema: &Schema, rows: &[Row], left: &[Row]) -> Result<bool, NoMemory> {
    let functions = functions_of(alloc, schema)?;
    for list in &all_merged(alloc, &schema.engine, &functions, rows)? {
        if list.as_slice() == left {
            return Ok(true);
        }
    }
    Ok(false)
}

// Whether of each key there is what any number of merges may leave of the rows of it.
fn are_left(alloc: Global, schema: &Schema, rows: &[Row], left: &[Row]) -> Result<bool, NoMemory> {
    let mut seen = 0usize;
    let mut known: Vec<Row> = Vec::new(alloc);
    for row in rows {
        if alike(alloc, schema, row, &known)?.is_empty() {
            let own = alike(alloc, schema, row, rows)?;
            let own_left = alike(alloc, schema, row, left)?;
            if !may_leave(alloc, schema, &own, &own_left)? {
                return Ok(false);
            }
            seen = seen.saturating_add(own_left.len());
            known.push(row.twin(alloc)?)?;
        }
    }
    // No row is of another key.
    Ok(seen == left.len())
}

// Whether the last mutation that was applied to a part, where its name has one, is a mutation of its table.
fn was_mutated(table: &Name, part: &CorePart, history: &[Entry]) -> bool {
    match part.name.mutation {
        Some(number) => is_mutation(table, history, number),
        None => true,
    }
}

// Whether a part stands for the INSERTs that are in it, after the mutations up to its version.
fn part_stands(
    alloc: Global,
    table: &Name,
    schema: &Schema,
    part: &CorePart,
    history: &[Entry],
) -> Result<bool, NoMemory> {
    let name = &part.name;
    let ends = is_insert(table, history, name.partition, name.min_block)
        && is_insert(table, history, name.partition, name.max_block)
        && was_mutated(table, part, history);
    let rows = rows_in(alloc, table, schema, part, history)?;
    let left = part.rows.as_slice();
    Ok(
        ends && name.min_block <= name.max_block
            && are_sorted(alloc, schema, left)?
            && are_left(alloc, schema, &rows, left)?,
    )
}

/// Whether parts stand for a history as those of a table: each INSERT into it is in one part, and each part has what merges may leave of
/// the rows of its INSERTs after the mutations up to its version.
pub fn stand(
    alloc: Global,
    table: &Name,
    schema: &Schema,
    parts: &[CorePart],
    history: &[Entry],
) -> Result<bool, NoMemory> {
    for part in parts {
        if part.table != *table || !part_stands(alloc, table, schema, part, history)? {
            return Ok(false);
        }
    }
    Ok(are_once(table, parts, history))
}
