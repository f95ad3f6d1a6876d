// The tokens of a statement.
ghost use Rattle.std.specs.Prelude.{◌≡◌, ◌≤◌, ◌+◌, ◌∷◌, ◌++◌, [], Bool, IfOk, length};
ghost use Rattle.std.specs.Char.{is_ascii_digit};
ghost use Rattle.std.specs.List.{prefix_len};
ghost use Rattle.mt_values.specs.Grammar.{tokens_and_end};
ghost use Rattle.mt_values.specs.Tokens.{byte_symbol, in_word, pair_symbol, starts_word, string_within, symbol_token, text_token, tokens_of, word_begins};
ghost use Rattle.sql_read.specs.FirstTokens.{digits_token, first_token, token_shown, word_token};

use crate::blanks::{Skipped, behind};
use crate::escapes::string;
use mt_base::{NoMemory, Seq};
use mt_values::{Placed, Symbol, Token};
use std::alloc::Global;

/// Whether a word begins with this byte.
pub fn starts_word(byte: u8) -> bool
    ensures { result ≡ starts_word byte }
{
    byte.is_ascii_alphabetic() || byte == b'_'
}

// Whether a word goes on with this byte.
fn in_word(byte: u8) -> bool
    ensures { result ≡ in_word byte }
{
    byte.is_ascii_alphanumeric() || byte == b'_'
}

/// How many bytes of a word a text begins with.
pub fn word_len(text: &[u8]) -> usize
    ensures value { result ≡ prefix_len in_word text.now }
    ensures within { result ≤ length text.now }
{
    text.iter().take_while(|byte| in_word(**byte)).count()
}

// How many digits a text begins with.
fn digits_len(text: &[u8]) -> usize
    ensures value { result ≡ prefix_len is_ascii_digit text.now }
    ensures within { result ≤ length text.now }
{
    text.iter().take_while(|byte| byte.is_ascii_digit()).count()
}

// Whether a text begins with a word.
fn word_begins(text: &[u8]) -> bool
    ensures { result ≡ word_begins text.now }
{
    match text {
        [byte, ..] => starts_word(*byte),
        [] => false,
    }
}

// The word that a text begins with, and what follows it.
fn word(alloc: Global, text: &[u8]) -> Result<(Token, &[u8]), NoMemory>
    ensures { IfOk result (λ found. token_shown found ≡ word_token text.now) }
{
    let len = word_len(text);
    let word = Seq::from_slice(alloc, &text[..len])?;
    Ok((Token::Word(word), &text[len..]))
}

// The number that a text begins with, and what follows it.
fn number(alloc: Global, text: &[u8]) -> Result<(Token, &[u8]), NoMemory>
    ensures { IfOk result (λ found. token_shown found ≡ digits_token text.now) }
{
    let len = digits_len(text);
    let rest = &text[len..];
    if word_begins(rest) {
        return Ok((Token::Stray, rest));
    }
    let digits = Seq::from_slice(alloc, &text[..len])?;
    Ok((Token::Number(digits), rest))
}

// The token of a string, of which the text after its first quote is given, and what follows it.
fn quoted(alloc: Global, text: &[u8]) -> Result<(Token, &[u8]), NoMemory>
    ensures { IfOk result (λ found. token_shown found ≡ text_token
        (string_within (length text.now + 1) text.now)) }
{
    match string(alloc, text)? {
        Some((said, rest)) => Ok((Token::Text(said), rest)),
        None => Ok((Token::Stray, &[])),
    }
}

// The symbol that two bytes are.
fn pair_symbol(first: u8, second: u8) -> Option<Symbol>
    ensures { result ≡ pair_symbol first second }
{
    match (first, second) {
        (b'!', b'=') => Some(Symbol::NotEqual),
        (b'<', b'>') => Some(Symbol::NotEqual),
        (b'<', b'=') => Some(Symbol::LessOrEqual),
        (b'>', b'=') => Some(Symbol::GreaterOrEqual),
        _ => None,
    }
}

// The symbol that one byte is.
fn byte_symbol(byte: u8) -> Option<Symbol>
    ensures { result ≡ byte_symbol byte }
{
    match byte {
        b'(' => Some(Symbol::Open),
        b')' => Some(Symbol::Close),
        b',' => Some(Symbol::Comma),
        b'=' => Some(Symbol::Equal),
        b'<' => Some(Symbol::Less),
        b'>' => Some(Symbol::Greater),
        b'*' => Some(Symbol::Star),
        b'+' => Some(Symbol::Plus),
        b'-' => Some(Symbol::Minus),
        b';' => Some(Symbol::Semicolon),
        _ => None,
    }
}

// The symbol that begins with this byte, and what follows it: of two bytes where there is one, else of one.
fn symbol(byte: u8, more: &[u8]) -> (Token, &[u8])
    ensures { token_shown result ≡ symbol_token byte more.now }
{
    if let [second, rest @ ..] = more {
        if let Some(symbol) = pair_symbol(byte, *second) {
            return (Token::Symbol(symbol), rest);
        }
    }
    match byte_symbol(byte) {
        Some(symbol) => (Token::Symbol(symbol), more),
        None => (Token::Stray, more),
    }
}

// The token that a text begins with, and what follows it. Of a text without bytes it is a stray one.
fn first_token(alloc: Global, text: &[u8]) -> Result<(Token, &[u8]), NoMemory>
    ensures { IfOk result (λ found. token_shown found ≡ first_token text.now) }
{
    let [byte, more @ ..] = text else {
        return Ok((Token::Stray, text));
    };
    if starts_word(*byte) {
        return word(alloc, text);
    }
    if byte.is_ascii_digit() {
        return number(alloc, text);
    }
    if *byte == b'\'' {
        return quoted(alloc, more);
    }
    Ok(symbol(*byte, more))
}

/// The tokens of a text, each with its place, up to the first byte that begins none, which is the stray one. One pass.
///
/// `NoMemory` where the tokens found no room.
pub fn tokens(alloc: Global, text: &[u8]) -> Result<Vec<Placed>, NoMemory>
    ensures { IfOk result (λ found. found.items ≡ tokens_of text.now) }
{
    let mut found = Vec::new(alloc);
    let mut rest = behind(Skipped::Blanks, text);
    'tokens: while !rest.is_empty() {
        let at = text.len() - rest.len();
        let (token, more) = first_token(alloc, rest)?;
        let is_last = matches!(token, Token::Stray);
        found.push(Placed { at, token })?;
        if is_last {
            return Ok(found);
        }
        rest = behind(Skipped::Blanks, more);
    }
    Ok(found)
}

/// The tokens of a statement's text, and the semicolon that ends it, where one does.
///
/// `NoMemory` where the tokens found no room.
pub fn tokens_and_end(alloc: Global, text: &[u8], terminated: bool) -> Result<Vec<Placed>, NoMemory>
    ensures { IfOk result (λ found. found.items ≡ tokens_and_end text.now terminated) }
{
    let mut found = tokens(alloc, text)?;
    if !terminated {
        return Ok(found);
    }
    found.push(Placed {
        at: text.len(),
        token: Token::Symbol(Symbol::Semicolon),
    })?;
    Ok(found)
}
