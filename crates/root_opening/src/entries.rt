// The entries of tables.
ghost use Rattle.std.specs.Prelude.{◌≡◌, ◌∷◌, IfOk, IfSome, IsErrOf, Ok, Some, is_some};
ghost use Rattle.mt_values.specs.declared.schema.Schema.{Schema};
ghost use Rattle.mt_values.specs.Script.{next_statement, statement_and, statements_of};
ghost use Rattle.mt_outside.specs.Files.{Files};
ghost use Rattle.mt_outside.specs.Leaves.{LeavesArm};
ghost use Rattle.root_store.specs.mt_model.History.{IsTableSchema};
ghost use Rattle.root_store.specs.Entries.{EntryHolds, IsEntryWith, schema_of_statement, schema_of_items, schema_of_entry};

use mt_base::{NoMemory, Seq, Stop};
use mt_outside::{Arm, DiskError};
use mt_values::{FileId, Name, Schema, Statement};
use root_store::digest_file::read_entry;
use root_store::mt_model::resolve;
use root_store::part_reader::{PartFault, read_file};
use sql_read::{Next, next_statement};
use std::alloc::Global;

// The schema that a statement with this text gives a table: none where it is no CREATE of the table, has another text, or is refused.
fn schema_of_statement(
    alloc: Global,
    table: &Name,
    text: &[u8],
    statement: &Statement,
) -> Result<Option<Schema>, NoMemory>
    ensures { IfOk result (λ found. found ≡ schema_of_statement table.now text.now statement.now) }
{
    let Statement::Create(create) = statement else {
        return Ok(None);
    };
    if create.table == *table && create.text.as_slice() == text {
        match resolve(alloc, create) {
            Ok(schema) => Ok(Some(schema)),
            Err(Stop::Refused(_)) => Ok(None),
            Err(Stop::NoMemory) => Err(NoMemory),
        }
    } else {
        Ok(None)
    }
}

// Whether a script has a statement, or a text that is refused as one.
fn has_statement(alloc: Global, script: &[u8]) -> Result<bool, NoMemory>
    ensures { IfOk result (λ has. has ≡ is_some (next_statement script.now)) }
{
    match next_statement(alloc, script, true) {
        Next::Found(_, _) => Ok(true),
        Next::Refused(_, _) => Ok(true),
        Next::End => Ok(false),
        Next::NeedMore => unreachable!(),
        Next::NoMemory => Err(NoMemory),
    }
}

// The schema that a statement with this text gives a table, where no other comes after it.
#[tactic(auto, using(crate::proofs::EntryScripts::alone_read, crate::proofs::EntryScripts::behind_read, crate::proofs::EntryScripts::read_on))]
fn schema_alone(
    alloc: Global,
    table: &Name,
    text: &[u8],
    statement: &Statement,
    after: &[u8],
) -> Result<Option<Schema>, NoMemory>
    ensures { IfOk result (λ found. found ≡ schema_of_items table.now text.now
        (Ok statement.now ∷ statement_and statements_of (next_statement after.now))) }
{
    match has_statement(alloc, after) {
        Ok(false) => schema_of_statement(alloc, table, text, statement),
        Ok(true) => Ok(None),
        Err(error) => Err(error),
    }
}

// The schema that the one statement of a script gives a table: none where the script has no statement or more of them, or its statement
// has another text.
#[tactic(auto, using(crate::proofs::EntryScripts::none_read, crate::proofs::EntryScripts::refused_read))]
fn schema_in(
    alloc: Global,
    table: &Name,
    text: &[u8],
    script: &[u8],
) -> Result<Option<Schema>, NoMemory>
    ensures { IfOk result (λ found. found ≡ schema_of_items table.now text.now
        (statements_of script.now)) }
{
    match next_statement(alloc, script, true) {
        Next::Found(statement, used) => schema_alone(
            alloc,
            table,
            text,
            &statement,
            &script[used..],
        ),
        Next::Refused(_, _) => Ok(None),
        Next::End => Ok(None),
        Next::NeedMore => unreachable!(),
        Next::NoMemory => Err(NoMemory),
    }
}

// The schema that the text of an entry gives a table. The entry leaves out the semicolon that comes after it.
fn schema_of_text(alloc: Global, table: &Name, text: &[u8]) -> Result<Option<Schema>, NoMemory>
    ensures { IfOk result (λ found. found ≡ schema_of_entry table.now text.now) }
{
    let mut script = Seq::with_capacity(alloc, text.len() + 1)?;
    script.extend(text)?;
    script.extend(b";".as_slice())?;
    schema_in(alloc, table, text, script.as_slice())
}

/// The schema that the bytes of `entry.bin` give a table: none exactly where they are no entry, or its text is no CREATE of the table,
/// or is refused.
///
/// `NoMemory` where an allocation failed.
fn read_schema(alloc: Global, table: &Name, bytes: &[u8]) -> Result<Option<Schema>, NoMemory>
    ensures read { IfOk result
        (λ found. IfSome found (λ schema. IsEntryWith table.now schema bytes.now)) }
    ensures sound { IfOk result (λ found. IfSome found IsTableSchema) }
    ensures only { (schema : Schema) → IsEntryWith table.now schema bytes.now
        → IfOk result (λ found. found ≡ Some schema) }
{
    match read_entry(bytes) {
        Ok(text) => schema_of_text(alloc, table, text),
        Err(_) => Ok(None),
    }
}

/// The schema of the table whose entry the folder holds, read by the arm: none exactly where it holds none of this table.
///
/// `Fault` only where the arm's count rose in this call; `NoMemory` where an allocation failed.
pub fn open_entry<R: Arm>(
    alloc: Global,
    arm: &mut R,
    dir: &R::Dir,
    table: &Name,
) -> Result<Option<Schema>, DiskError>
    ensures holds { (files : Files) → R.Dir.files dir.now ≡ Some files
        → IfOk result (λ found. IfSome found (λ schema. EntryHolds table.now schema files)) }
    ensures sound { IfOk result (λ found. IfSome found IsTableSchema) }
    ensures only { (files : Files) (schema : Schema) → R.Dir.files dir.now ≡ Some files
        → EntryHolds table.now schema files → IfOk result (λ found. found ≡ Some schema) }
    ensures arm { LeavesArm R.Arm arm.old arm.new (IsErrOf result DiskError.Fault) }
{
    let bytes = match read_file(alloc, arm, dir, FileId::Entry) {
        Ok(bytes) => bytes,
        Err(PartFault::Fault) => return Err(DiskError::Fault),
        Err(PartFault::NoMemory) => return Err(DiskError::NoMemory),
        Err(PartFault::Damaged { .. }) => unreachable!(),
    };
    match read_schema(alloc, table, &bytes) {
        Ok(found) => Ok(found),
        Err(_) => Err(DiskError::NoMemory),
    }
}
