// The statements of a script, with their data.
ghost use Rattle.std.specs.Prelude.{◌≡◌, ◌<◌, ◌≤◌, ◌↔◌, Bool, length, drop, IfSome, false};
ghost use Rattle.std.specs.List.{list_all, prefix_len};
ghost use Rattle.mt_base.specs.Stops.{Gives};
ghost use Rattle.mt_values.specs.Tokens.{is_space};
ghost use Rattle.mt_values.specs.Grammar.{takes_data};
ghost use Rattle.mt_values.specs.Script.{Item, complete_or_cut, ended_from, ends_at, has_whole, is_whole, place_behind};
ghost use Rattle.data_lines.specs.Sections.{line_said, section_said};
ghost use Rattle.sql_read.specs.Scripts.{IsNext, next_of, parts_at};

use crate::blanks::{Skipped, begins_with, behind, is_space, skipped_len};
use crate::grammar::statement;
use crate::tokens::{starts_word, word_len};
use data_lines::{Section, inserted};
use mt_base::Stop;
use mt_values::{Cause, Place, Statement, is_keyword};
use std::alloc::Global;

/// What a script begins with.
#[derive(Drop)]
pub enum Next {
    /// A statement, and how many bytes of the script it takes, with what stands before it and with its data.
    Found(Statement, usize),
    /// More bytes of the script must come first: those so far end no statement.
    NeedMore,
    /// No statement: the script ends.
    End,
    /// A text that is refused, why it is, and how many bytes of the script it takes, with what stands before it and with
    /// its data.
    Refused(Cause, usize),
    /// An allocation failed.
    NoMemory,
}

// Where the next byte stands, after this byte.
fn place_behind(place: Place, byte: u8, rest: &[u8]) -> Place
    ensures { result ≡ place_behind place byte rest.now }
{
    match (place, byte) {
        (Place::Outside, b'\'') => Place::InString,
        (Place::Outside, b'-') if begins_with(b'-', rest) => Place::InComment,
        (Place::Outside, _) => Place::Outside,
        (Place::InString, b'\'') => Place::Outside,
        (Place::InString, b'\\') => Place::BehindBackslash,
        (Place::InString, _) => Place::InString,
        (Place::BehindBackslash, _) => Place::InString,
        (Place::InComment, b'\n') => Place::Outside,
        (Place::InComment, _) => Place::InComment,
    }
}

// Whether the byte ends a statement.
fn ends_at(place: Place, byte: u8) -> bool
    ensures { result ≡ ends_at place byte }
{
    place == Place::Outside && byte == b';'
}

// The place of the semicolon that ends the statement which a text begins with; none where it has no end.
fn statement_end(text: &[u8]) -> Option<usize>
    ensures parts { parts_at text.now result ≡ ended_from Place.Outside text.now }
    ensures within { IfSome result (λ end. end < length text.now) }
{
    let mut place = Place::Outside;
    for (at, byte) in text.iter().enumerate() {
        if ends_at(place, *byte) {
            return Some(at);
        }
        place = place_behind(place, *byte, &text[at + 1..]);
    }
    None
}

// Whether data follows a statement's text: its first token is INSERT.
#[tactic(auto, using(crate::proofs::FirstWords::takes_data_none, crate::proofs::FirstWords::takes_data_first))]
fn takes_data(text: &[u8]) -> bool
    ensures { result ≡ takes_data text.now }
{
    let first = behind(Skipped::Blanks, text);
    match first {
        [byte, ..] => starts_word(*byte) && is_keyword(b"INSERT", &first[..word_len(first)]),
        [] => false,
    }
}

// How many blanks a line begins with.
fn spaces_len(line: &[u8]) -> usize
    ensures value { result ≡ prefix_len is_space line.now }
    ensures within { result ≤ length line.now }
{
    line.iter().take_while(|byte| is_space(**byte)).count()
}

// Whether only blanks stand on the line.
fn are_blank(line: &[u8]) -> bool
    ensures { result ≡ list_all is_space line.now }
{
    line.iter().all(|byte| is_space(*byte))
}

// The part of a script that the statement takes which it begins with. Takes no memory.
fn first_section(script: &[u8]) -> Section<'_>
    ensures said { (section_said result, drop result.used script.now)
        ≡ complete_or_cut script.now (ended_from Place.Outside script.now) }
    ensures used { (0 < length script.now → 0 < result.used) × (result.used ≤ length script.now) }
    ensures whole { result.whole ≡ is_whole (ended_from Place.Outside script.now) }
{
    let Some(end) = statement_end(script) else {
        return Section {
            text: script,
            terminated: false,
            line: &[],
            lines: &[],
            ended: false,
            used: script.len(),
            whole: false,
        };
    };
    let text = &script[..end];
    if takes_data(text) {
        return inserted(text, end + 1, &script[end + 1..]);
    }
    Section {
        text,
        terminated: true,
        line: &[],
        lines: &[],
        ended: false,
        used: end + 1,
        whole: true,
    }
}

// What a part of a script is, by what its text is: only blanks may stand after its semicolon on the line.
fn with_line(
    section: &Section,
    found: Result<Statement, Stop<Cause>>,
) -> Result<Statement, Stop<Cause>>
    ensures { (said : Item) → Gives said found → Gives (line_said section.now said) result }
{
    if are_blank(section.line) {
        return found;
    }
    let place = section.text.len() + 1 + spaces_len(section.line);
    match found {
        Ok(_) => Err(Stop::Refused(Cause::Grammar(place))),
        Err(stop) => Err(stop),
    }
}

// The statement that a part of a script is, or why it is refused.
fn read_section(alloc: Global, section: &Section) -> Result<Statement, Stop<Cause>>
    ensures { Gives (section_said section.now) result }
{
    let found = statement(
        alloc,
        section.text,
        section.terminated,
        section.lines,
        section.ended,
    );
    with_line(section, found)
}

// What a script begins with, by what was found in that many bytes of it.
fn next_of(found: Result<Statement, Stop<Cause>>, used: usize) -> Next
    ensures { result ≡ next_of found used }
{
    match found {
        Ok(statement) => Next::Found(statement, used),
        Err(Stop::Refused(cause)) => Next::Refused(cause, used),
        Err(Stop::NoMemory) => Next::NoMemory,
    }
}

/// The next statement of a script, of which no more bytes come (`ended`), or some may come. `NeedMore` comes only where
/// some may, and where the bytes so far end no statement; what is found instead is the same whatever comes.
///
/// One pass over the bytes of the statement and of its data. The data's lines are copied once.
pub fn next_statement(alloc: Global, script: &[u8], ended: bool) -> Next
    ensures found { IsNext script.now ended result }
    ensures waits { (result ≡ Next.NeedMore) ↔ ((ended ≡ false) × (has_whole script.now ≡ false)) }
{
    let skipped = skipped_len(Skipped::Between, script);
    let text = &script[skipped..];
    if text.is_empty() {
        return if ended { Next::End } else { Next::NeedMore };
    }
    let section = first_section(text);
    if !(ended || section.whole) {
        return Next::NeedMore;
    }
    next_of(read_section(alloc, &section), skipped + section.used)
}
