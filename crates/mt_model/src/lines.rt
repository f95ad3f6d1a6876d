// The lines of replies.
ghost use Rattle.std.specs.Prelude.{◌≡◌, ◌++◌, IfOk, codes};
ghost use Rattle.mt_model.specs.Explain as explain;
ghost use Rattle.mt_model.specs.Refusals as refusals;
ghost use Rattle.mt_model.specs.Reply as reply;

use crate::counts::Counts;
use crate::refusal::{Bound, Reason, Refusal, Room};
use mt_base::NoMemory;
use mt_values::Name;
use std::alloc::Global;

/// The line after an accepted command, and after an INSERT without rows. `place` is the length of the history.
///
/// `NoMemory` where there was none for the line.
pub fn ok_line(alloc: Global, place: u64) -> Result<Vec<u8>, NoMemory>
    ensures { IfOk result (λ line. line.items ≡ reply.ok_line place) }
{
    Ok(format!(in alloc; "OK {place}\n")?.into_bytes())
}

/// The head of a SELECT's reply, before `count` lines. `place` is the length of the history that they answer.
///
/// `NoMemory` where there was none for the line.
pub fn rows_line(alloc: Global, count: usize, place: u64) -> Result<Vec<u8>, NoMemory>
    ensures { IfOk result (λ line. line.items ≡ reply.rows_line count place) }
{
    Ok(format!(in alloc; "ROWS {count} PREFIX {place}\n")?.into_bytes())
}

/// The line of an EXPLAIN. `place` is the length of the history that it is of.
///
/// `NoMemory` where there was none for the line.
pub fn explain_line(alloc: Global, counts: &Counts, place: u64) -> Result<Vec<u8>, NoMemory>
    ensures { IfOk result (λ line. line.items ≡ explain.explain_line counts.now place) }
{
    let Counts {
        chosen_parts,
        parts,
        chosen_granules,
        granules,
    } = *counts;
    let line = format!(in alloc;
        "PARTS {chosen_parts}/{parts} GRANULES {chosen_granules}/{granules} PREFIX {place}\n"
    )?;
    Ok(line.into_bytes())
}

/// The line of a refusal.
///
/// `NoMemory` where there was none for the line.
pub fn refusal_line(alloc: Global, refusal: &Refusal) -> Result<Vec<u8>, NoMemory>
    ensures { IfOk result (λ line. line.items ≡ refusals.refusal_line refusal.now) }
{
    let mut line = refusal_text(alloc, refusal)?;
    line.push(b'\n')?;
    Ok(line)
}

/// The line of a refusal without its line feed.
fn refusal_text(alloc: Global, refusal: &Refusal) -> Result<Vec<u8>, NoMemory>
    ensures { IfOk result (λ text. text.items ≡ refusals.refusal_text refusal.now) }
{
    match refusal {
        Refusal::Grammar(place) => numbered(alloc, b"E01", *place as u64),
        Refusal::NoTable(table) => named(alloc, b"E02", table),
        Refusal::TableExists(table) => named(alloc, b"E03", table),
        Refusal::NoColumn(column) => named(alloc, b"E04", column),
        Refusal::Schema(reason, column) => named(alloc, reason_text(*reason), column),
        Refusal::Literal(column, place) => with_number(
            alloc,
            named(alloc, b"E06", column)?,
            *place as u64,
        ),
        Refusal::Fields {
            line,
            found,
            wanted,
        } => numbered_thrice(alloc, b"E07", *line as u64, *found as u64, *wanted as u64),
        Refusal::Field { line, field } => {
            numbered_twice(alloc, b"E08", *line as u64, *field as u64)
        }
        Refusal::Past(bound) => text_of(alloc, bound_text(*bound)),
        Refusal::Full { room, accepted } => numbered(alloc, room_text(*room), *accepted as u64),
        Refusal::Unended { rows } => numbered(alloc, b"E13", *rows as u64),
        Refusal::Busy(part) => named(alloc, b"E14", part),
        Refusal::Failed => text_of(alloc, b"E15"),
        Refusal::Unsettled { accepted } => numbered(alloc, b"E16", *accepted as u64),
        Refusal::Stopped {
            opened,
            now,
            accepted,
        } => numbered_thrice(alloc, b"E17", *opened, *now, *accepted as u64),
        Refusal::Sign { line } => numbered(alloc, b"E18", *line as u64),
        Refusal::Damaged { table, part, file } => damaged(alloc, table, part, file),
    }
}

/// The front of the line of a rule of schemas that is broken, before its last name.
fn reason_text(reason: Reason) -> &'static [u8]
    ensures { result.now ≡ codes "E05 " ++ refusals.reason_word reason }
{
    match reason {
        Reason::NoColumns => b"E05 no_columns",
        Reason::DoubleColumn => b"E05 double_column",
        Reason::DoubleIndex => b"E05 double_index",
        Reason::DoubleKey => b"E05 double_key",
        Reason::NotPrefix => b"E05 not_prefix",
        Reason::PartitionType => b"E05 partition_type",
        Reason::VersionType => b"E05 version_type",
        Reason::SignType => b"E05 sign_type",
        Reason::SignKey => b"E05 sign_key",
        Reason::SumType => b"E05 sum_type",
        Reason::SumKey => b"E05 sum_key",
        Reason::NothingToSum => b"E05 nothing_to_sum",
        Reason::AggregateEngine => b"E05 aggregate_engine",
        Reason::AggregateKey => b"E05 aggregate_key",
        Reason::AggregateType => b"E05 aggregate_type",
        Reason::Granularity | Reason::IndexGranularity => b"E05 granularity",
        Reason::SetSize => b"E05 set_size",
    }
}

/// The line of a bound that would be passed, without its line feed.
fn bound_text(bound: Bound) -> &'static [u8]
    ensures { result.now ≡ codes "E12 " ++ refusals.bound_text bound }
{
    match bound {
        Bound::Tables => b"E12 tables 64",
        Bound::Columns => b"E12 columns 64",
        Bound::Indexes => b"E12 indexes 8",
        Bound::Name => b"E12 name 64",
        Bound::Statement => b"E12 statement 1048576",
        Bound::Value => b"E12 value 1048576",
        Bound::Rows => b"E12 rows 1048576",
        Bound::Depth => b"E12 depth 64",
        Bound::Levels => b"E12 levels 4294967295",
    }
}

/// The front of the line of a bound that is met at a command's turn, before its last number.
fn room_text(room: Room) -> &'static [u8]
    ensures { result.now ≡ codes "E12 " ++ refusals.room_text room }
{
    match room {
        Room::Parts => b"E12 parts 3000",
        Room::Numbers => b"E12 numbers 4294967295",
    }
}

/// The line of damage, without its line feed.
fn damaged(alloc: Global, table: &Name, part: &Name, file: &Name) -> Result<Vec<u8>, NoMemory>
    ensures { IfOk result (λ text. text.items ≡ codes "E19" ++ refusals.and_name table.now
        ++ refusals.and_name part.now ++ refusals.and_name file.now) }
{
    with_name(with_name(named(alloc, b"E19", table)?, part)?, file)
}

/// A text of its own.
fn text_of(alloc: Global, text: &[u8]) -> Result<Vec<u8>, NoMemory>
    ensures { IfOk result (λ copy. copy.items ≡ text.now) }
{
    Ok(Vec::from_slice(alloc, text)?)
}

/// A number after a head.
fn numbered(alloc: Global, head: &[u8], number: u64) -> Result<Vec<u8>, NoMemory>
    ensures { IfOk result (λ text. text.items ≡ head.now ++ refusals.and_number number) }
{
    with_number(alloc, text_of(alloc, head)?, number)
}

/// Two numbers after a head.
fn numbered_twice(alloc: Global, head: &[u8], first: u64, second: u64) -> Result<Vec<u8>, NoMemory>
    ensures { IfOk result (λ text. text.items ≡ head.now ++ refusals.and_number first ++
        refusals.and_number second) }
{
    with_number(alloc, numbered(alloc, head, first)?, second)
}

/// Three numbers after a head.
fn numbered_thrice(
    alloc: Global,
    head: &[u8],
    first: u64,
    second: u64,
    third: u64,
) -> Result<Vec<u8>, NoMemory>
    ensures { IfOk result (λ text. text.items ≡ head.now ++ refusals.and_number first ++
        refusals.and_number second ++ refusals.and_number third) }
{
    with_number(alloc, numbered_twice(alloc, head, first, second)?, third)
}

/// The text with a number at its end, after a blank.
fn with_number(alloc: Global, mut text: Vec<u8>, number: u64) -> Result<Vec<u8>, NoMemory>
    ensures { IfOk result (λ whole. whole.items ≡ text.items ++ refusals.and_number number) }
{
    text.extend_from_slice(format!(in alloc; " {number}")?.as_bytes())?;
    Ok(text)
}

/// A name after a head.
fn named(alloc: Global, head: &[u8], name: &Name) -> Result<Vec<u8>, NoMemory>
    ensures { IfOk result (λ text. text.items ≡ head.now ++ refusals.and_name name.now) }
{
    with_name(text_of(alloc, head)?, name)
}

/// The text with a name at its end, after a blank.
fn with_name(mut text: Vec<u8>, name: &Name) -> Result<Vec<u8>, NoMemory>
    ensures { IfOk result (λ whole. whole.items ≡ text.items ++ refusals.and_name name.now) }
{
    text.push(b' ')?;
    text.extend_from_slice(name.as_slice())?;
    Ok(text)
}
