// Statements from their texts.
ghost use Rattle.std.specs.Prelude.{◌≡◌, Bool, Err, List, Ok, length};
ghost use Rattle.mt_base.specs.Stops.{Gives, Refuses};
ghost use Rattle.mt_values.specs.Grammar.{cause_at, is_behind_limit, place_of_first, refused_at, statement_of, statement_read, statement_reader};
ghost use Rattle.mt_values.specs.Readers.{Reader};
ghost use Rattle.mt_values.specs.declared.statement.Statement.{Statement};
ghost use Rattle.mt_values.specs.declared.token.Placed.{Placed};
ghost use Rattle.sql_read.specs.Reads.{IsRead};

use crate::cursor::Cursor;
use crate::tokens::tokens_and_end;
use mt_base::{STATEMENT_LIMIT, Stop};
use mt_values::{Cause, Placed, Slip, Statement};
use std::alloc::Global;

// The statement that the tokens are, by their first one.
#[tactic(auto, using(crate::proofs::Choices::choose_this, crate::proofs::Choices::choose_other))]
fn read(
    alloc: Global,
    tokens: &mut Cursor,
    text: &[u8],
    lines: &[u8],
    ended: bool,
) -> Result<Statement, Stop<Slip>>
    ensures { IsRead (statement_reader text.now lines.now ended) tokens.old result tokens.new }
{
    if tokens.at_keyword(b"CREATE") {
        return tokens.create(alloc, text);
    }
    if tokens.at_keyword(b"INSERT") {
        return tokens.insert(alloc, lines, ended);
    }
    if tokens.at_keyword(b"EXPLAIN") {
        return tokens.explain(alloc);
    }
    if tokens.at_keyword(b"OPTIMIZE") {
        return tokens.optimize(alloc);
    }
    tokens.select(alloc)
}

// The place of the first of these tokens, or else the end of a text of this size.
fn place_of_first(size: usize, tokens: &[Placed]) -> usize
    ensures { result ≡ place_of_first size tokens.now }
{
    match tokens {
        [first, ..] => first.at,
        [] => size,
    }
}

// Whether the bound on a statement's length stands before a fault at this place.
fn is_behind_limit(slip: Slip, place: usize) -> bool
    ensures { result ≡ is_behind_limit slip place }
{
    match slip {
        Slip::Wrong => STATEMENT_LIMIT < place,
        Slip::LongName | Slip::TooDeep => STATEMENT_LIMIT <= place,
    }
}

fn cause_at(slip: Slip, place: usize) -> Cause
    ensures { result ≡ cause_at slip place }
{
    match slip {
        Slip::Wrong => Cause::Grammar(place),
        Slip::LongName => Cause::LongName,
        Slip::TooDeep => Cause::TooDeep,
    }
}

// Why a text of this size with a fault at this place is refused: by what comes first in it.
fn refused_at(size: usize, slip: Slip, place: usize) -> Cause
    ensures { result ≡ refused_at size slip place }
{
    if STATEMENT_LIMIT < size && is_behind_limit(slip, place) {
        Cause::LongStatement
    } else {
        cause_at(slip, place)
    }
}

// A statement whose text has this size, where it may be so long.
fn in_limit(size: usize, statement: Statement) -> Result<Statement, Stop<Cause>>
    ensures { Gives (statement_read size (Ok statement)) result }
{
    if STATEMENT_LIMIT < size {
        Err(Stop::Refused(Cause::LongStatement))
    } else {
        Ok(statement)
    }
}

// Why the text of this size is no statement, where reading stopped before the rest of its tokens.
fn refused(size: usize, stop: Stop<Slip>, rest: &[Placed]) -> Stop<Cause>
    ensures { (reader : Reader Statement) (tokens : List Placed)
        → IsRead reader tokens (Err stop) rest.now
        → Refuses (statement_read size (reader tokens)) result }
{
    match stop {
        Stop::Refused(slip) => Stop::Refused(refused_at(size, slip, place_of_first(size, rest))),
        Stop::NoMemory => Stop::NoMemory,
    }
}

// The statement that these tokens of a text are, or why the text is refused.
fn said_by(
    alloc: Global,
    tokens: &[Placed],
    text: &[u8],
    lines: &[u8],
    ended: bool,
) -> Result<Statement, Stop<Cause>>
    ensures { Gives (statement_read (length text.now)
        (statement_reader text.now lines.now ended tokens.now)) result }
{
    let mut cursor = Cursor::new(tokens);
    match read(alloc, &mut cursor, text, lines, ended) {
        Ok(statement) => in_limit(text.len(), statement),
        Err(stop) => Err(refused(text.len(), stop, cursor.rest())),
    }
}

/// The statement that a text is, from its first token up to the semicolon that ends it, where one does (`terminated`),
/// with its data: the bytes of the data's lines, and whether the line that ends data came. Or why the text is refused:
///
/// - `Grammar` with the place of the first token with which no statement of the grammar goes on, or the text's length
///   where it is the text's end;
/// - `LongName` where a name is too long, `TooDeep` where one more parenthesis or NOT of a condition is opened than may be,
///   and `LongStatement` where the text is too long, if that comes before.
///
/// `Stop::NoMemory` where an allocation failed.
pub fn statement(
    alloc: Global,
    text: &[u8],
    terminated: bool,
    lines: &[u8],
    ended: bool,
) -> Result<Statement, Stop<Cause>>
    ensures { Gives (statement_of text.now terminated lines.now ended) result }
{
    let tokens = tokens_and_end(alloc, text, terminated)?;
    said_by(alloc, &tokens, text, lines, ended)
}
