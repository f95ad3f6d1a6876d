// Whether a history and a text are those of a script's run.
ghost use Rattle.std.specs.Prelude.{◌≡◌, ◌≤◌, ◌↔◌, ◌∷◌, [], All, IfOk, IsTrue, OnOk, length, true};
ghost use Rattle.std.specs.List.{Contains};
ghost use Rattle.part_history.specs.mt_model.History.{FewInserts};
ghost use Rattle.part_history.specs.mt_model.Script.{HasNoExplain, ScriptRun};
ghost use Rattle.mt_plain.specs.Outcomes.{AddsExactly, AreExactly, IsExactly};
ghost use Rattle.mt_plain.specs.Plain.{OneStandsFrom, StandsFrom, calm};

use crate::alters::same_alters;
use crate::replying::replies_after;
use crate::{same_blocks, same_creates};
use mt_base::NoMemory;
use mt_values::{Bytes, Cause, Command, Entry, Insert, Statement};
use std::alloc::Global;

/// Whether a script without a history before it, over an outside without faults, may have left this history and printed
/// this text.
///
/// A yes is right of every history. A no is right of a script without an EXPLAIN, and of a history in which no partition of a
/// table has 3000 INSERTs: the plain program counts a part for each INSERT, and refuses more INSERTs into a partition that has
/// 3000, where a program that merges may count fewer parts and take them; and it explains no parts that were merged.
///
/// `NoMemory` where an allocation failed, and as `replies_after` says.
pub fn allows(
    alloc: Global,
    statements: &[Result<Statement, Cause>],
    entries: &[Entry],
    printed: &[u8],
) -> Result<bool, NoMemory>
    ensures allowed { IfOk result
        (λ b. b ≡ true → ScriptRun calm statements.now entries.now 0 printed.now) }
    ensures exact { FewInserts entries.now → HasNoExplain statements.now
        → ScriptRun calm statements.now entries.now 0 printed.now → IfOk result (λ b. b ≡ true) }
{
    let mut history = Vec::new(alloc);
    // Where the text may have come to.
    let mut places = Vec::new(alloc);
    places.push(0)?;
    for statement in statements {
        let replies = replies_after(alloc, &mut history, statement)?;
        places = places_after(alloc, printed, &places, &replies)?;
    }
    if has_place(&places, printed.len()) {
        same_histories(alloc, &history, entries)
    } else {
        Ok(false)
    }
}

/// The places of a text up to which one of these replies stands in it from one of these places, each once.
///
/// `NoMemory` where an allocation failed.
fn places_after(
    alloc: Global,
    text: &[u8],
    places: &[usize],
    replies: &[Bytes],
) -> Result<Vec<usize>, NoMemory>
    requires { All (λ place. place ≤ length text.now) places.now }
    ensures { IfOk result (λ found. AreExactly found.items
        (OneStandsFrom text.now places.now replies.now)) }
{
    let mut found = Vec::new(alloc);
    for at in places {
        add_places(&mut found, text, *at, replies)?;
    }
    Ok(found)
}

/// Adds the places up to which one of these replies stands in a text from a place, each unless it is among them already.
///
/// `NoMemory` where an allocation failed.
fn add_places(
    found: &mut Vec<usize>,
    text: &[u8],
    at: usize,
    replies: &[Bytes],
) -> Result<(), NoMemory>
    requires { at ≤ length text.now }
    ensures { OnOk result (AddsExactly found.old.items found.new.items
        (OneStandsFrom text.now (at ∷ []) replies.now)) }
{
    for reply in replies {
        add_place(found, text, at, reply.as_slice())?;
    }
    Ok(())
}

/// Adds the place up to which a reply stands in a text from a place, where it does, unless that is among them already.
///
/// `NoMemory` where an allocation failed.
fn add_place(found: &mut Vec<usize>, text: &[u8], at: usize, reply: &[u8]) -> Result<(), NoMemory>
    requires { at ≤ length text.now }
    ensures { OnOk result (AddsExactly found.old.items found.new.items
        (StandsFrom text.now at reply.now)) }
{
    let Some(end) = end_of(text, at, reply) else {
        return Ok(());
    };
    if has_place(found, end) {
        return Ok(());
    }
    found.push(end)?;
    Ok(())
}

/// Where a reply ends in a text, where it stands in it from this place on.
fn end_of(text: &[u8], at: usize, reply: &[u8]) -> Option<usize>
    requires { at ≤ length text.now }
    ensures { IsExactly result (StandsFrom text.now at reply.now) }
{
    if text.len() - at < reply.len() {
        return None;
    }
    let end = at + reply.len();
    if &text[at..end] == reply {
        Some(end)
    } else {
        None
    }
}

/// Whether a place is among these.
fn has_place(places: &[usize], place: usize) -> bool
    ensures { IsTrue result ↔ Contains places.now place }
{
    for other in places {
        if *other == place {
            return true;
        }
    }
    false
}

/// Whether two histories are one.
fn same_histories(alloc: Global, a: &[Entry], b: &[Entry]) -> Result<bool, NoMemory>
    ensures { IfOk result (λ same. (same ≡ true) ↔ (a.now ≡ b.now)) }
{
    if a.len() != b.len() {
        return Ok(false);
    }
    for place in 0..a.len() {
        if !same_entries(alloc, &a[place], &b[place])? {
            return Ok(false);
        }
    }
    Ok(true)
}

/// Whether two entries are one.
fn same_entries(alloc: Global, a: &Entry, b: &Entry) -> Result<bool, NoMemory>
    ensures { IfOk result (λ same. (same ≡ true) ↔ (a.now ≡ b.now)) }
{
    if a.session != b.session {
        return Ok(false);
    }
    same_commands(alloc, &a.command, &b.command)
}

/// Whether two commands are one.
fn same_commands(alloc: Global, a: &Command, b: &Command) -> Result<bool, NoMemory>
    ensures { IfOk result (λ same. (same ≡ true) ↔ (a.now ≡ b.now)) }
{
    match (a, b) {
        (Command::Create(c), Command::Create(d)) => Ok(same_creates(c, d)),
        (Command::Insert(i), Command::Insert(j)) => same_inserts(alloc, i, j),
        (Command::Alter(one), Command::Alter(other)) => Ok(same_alters(one, other)),
        _ => Ok(false),
    }
}

/// Whether two INSERTs are one: whether they add the same block to the same table and partition.
fn same_inserts(alloc: Global, a: &Insert, b: &Insert) -> Result<bool, NoMemory>
    ensures { IfOk result (λ same. (same ≡ true) ↔ (a.now ≡ b.now)) }
{
    if a.table != b.table || a.partition != b.partition {
        return Ok(false);
    }
    same_blocks(alloc, &a.block, &b.block)
}
