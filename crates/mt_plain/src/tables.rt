// The tables of a history.
ghost use Rattle.std.specs.Prelude.{◌≡◌, ◌↔◌, option_copied, true};
ghost use Rattle.part_history.specs.mt_model.History as history;
ghost use Rattle.part_history.specs.mt_model.Numbers as numbers;

use super::partitions::same_partition;
use mt_values::{Command, Create, Entry, Name, Partition, Schema};

/// The schema of a table, where there is the table.
pub fn schema_of<'a>(entries: &'a [Entry], table: &Name) -> Option<&'a Schema>
    ensures { option_copied result ≡ history.schema_of table.now entries.now }
{
    for entry in entries {
        if let Command::Create(create) = &entry.command {
            if create.table == *table {
                return Some(&create.schema);
            }
        }
    }
    None
}

/// How many tables were made.
pub fn creates(entries: &[Entry]) -> usize
    ensures { result ≡ history.creates entries.now }
{
    let mut count = 0;
    for entry in entries {
        if is_create(&entry.command) {
            count += 1;
        }
    }
    count
}

/// How many INSERTs into a partition of a table were accepted.
pub fn inserts(entries: &[Entry], table: &Name, partition: Partition) -> usize
    ensures { result ≡ history.inserts table.now partition entries.now }
{
    entries
        .iter()
        .filter(|entry| inserts_into(&entry.command, table, partition))
        .count()
}

/// The last number of a table that was drawn; 0 where none was.
pub fn last_number(entries: &[Entry], table: &Name) -> usize
    ensures { result ≡ numbers.last_number table.now entries.now }
{
    let mut last = 0;
    for entry in entries {
        if draws(&entry.command, table) {
            last += 1;
        }
    }
    last
}

/// Whether a command makes a table.
fn is_create(command: &Command) -> bool
    ensures { result ≡ history.is_create command.now }
{
    match command {
        Command::Create(_) => true,
        Command::Insert(_) | Command::Alter(_) => false,
    }
}

/// Whether a command adds rows to a partition of a table.
fn inserts_into(command: &Command, table: &Name, partition: Partition) -> bool
    ensures { result ≡ history.inserts_into table.now partition command.now }
{
    match command {
        Command::Create(_) => false,
        Command::Insert(insert) => {
            insert.table == *table && same_partition(insert.partition, partition)
        }
        Command::Alter(_) => false,
    }
}

/// Whether a command draws a number of a table.
pub(crate) fn draws(command: &Command, table: &Name) -> bool
    ensures { result ≡ numbers.draws table.now command.now }
{
    match command {
        Command::Create(_) => false,
        Command::Insert(insert) => insert.table == *table,
        Command::Alter(alter) => alter.table == *table,
    }
}

/// Whether two tables to be made are the same.
pub fn same_creates(a: &Create, b: &Create) -> bool
    ensures { (result ≡ true) ↔ (a.now ≡ b.now) }
{
    a.table == b.table && a.schema == b.schema
}
