// What a backslash and the bytes after it stand for, and what a string says.
ghost use Rattle.std.specs.Prelude.{◌≡◌, ◌<◌, ◌+◌, length, ℕ, List, Option, IfOk, IfSome};
ghost use Rattle.mt_values.specs.Escapes.{escape_byte, escape_of, hex_digit, hex_pair};
ghost use Rattle.mt_values.specs.Tokens.{quote_behind, string_within};
ghost use Rattle.sql_read.specs.Strings.{byte_shown, said_by, string_from, string_shown};

use crate::blanks::begins_with;
use mt_base::{NoMemory, Seq};
use mt_values::Bytes;
use std::alloc::Global;

/// What the first bytes of the rest of a string are.
#[derive(Clone, Copy)]
enum Piece<'a> {
    /// They say a byte, and this follows them.
    Byte(u8, &'a [u8]),
    /// The quote that ends the string, and what follows that.
    End(&'a [u8]),
    /// There are none, or an escape that stands for nothing.
    Faulty,
}

// The byte that a backslash and this byte stand for.
fn escape_byte(byte: u8) -> u8
    ensures { result ≡ escape_byte byte }
{
    match byte {
        b'b' => 8,
        b'f' => 12,
        b'r' => 13,
        b'n' => 10,
        b't' => 9,
        b'0' => 0,
        b'a' => 7,
        b'v' => 11,
        _ => byte,
    }
}

// The value of a hexadecimal digit.
fn hex_digit(byte: u8) -> Option<u8>
    ensures value { result ≡ hex_digit byte }
    ensures low { IfSome result (λ v. v < 16) }
{
    match byte {
        b'0'..=b'9' => Some(byte - b'0'),
        b'a'..=b'f' => Some(byte - b'a' + 10),
        b'A'..=b'F' => Some(byte - b'A' + 10),
        _ => None,
    }
}

// The byte that two hexadecimal digits say, and what follows them.
fn hex_pair(text: &[u8]) -> Option<(u8, &[u8])>
    ensures { byte_shown result ≡ hex_pair text.now }
{
    let [first, second, more @ ..] = text else {
        return None;
    };
    let Some(high) = hex_digit(*first) else {
        return None;
    };
    let Some(low) = hex_digit(*second) else {
        return None;
    };
    Some((16 * high + low, more))
}

// The byte that a backslash stands for with the bytes after it, and what follows them.
fn escape(text: &[u8]) -> Option<(u8, &[u8])>
    ensures { byte_shown result ≡ escape_of text.now }
{
    let [byte, more @ ..] = text else {
        return None;
    };
    match byte {
        b'x' => hex_pair(more),
        b'N' => None,
        _ => Some((escape_byte(*byte), more)),
    }
}

// What a quote is in a string, by what follows it: two of them say one.
fn quote(more: &[u8]) -> Piece<'_>
    ensures { (rest : List ℕ → Option (List ℕ × List ℕ))
        → said_by rest result ≡ quote_behind rest more.now }
{
    if begins_with(b'\'', more) {
        Piece::Byte(b'\'', &more[1..])
    } else {
        Piece::End(more)
    }
}

// The first bytes of the rest of a string.
fn first_piece(text: &[u8]) -> Piece<'_>
    ensures { (more : List ℕ → Option (List ℕ × List ℕ))
        → said_by more result ≡ string_from more text.now }
{
    let [byte, more @ ..] = text else {
        return Piece::Faulty;
    };
    if *byte == b'\'' {
        return quote(more);
    }
    if *byte == b'\\' {
        return match escape(more) {
            Some((said, rest)) => Piece::Byte(said, rest),
            None => Piece::Faulty,
        };
    }
    Piece::Byte(*byte, more)
}

/// What a string says, of which the text after its first quote is given, and what follows its last quote. None where it
/// has no end, or a faulty escape.
///
/// `NoMemory` where what it says found no room.
pub fn string(alloc: Global, text: &[u8]) -> Result<Option<(Bytes, &[u8])>, NoMemory>
    ensures { IfOk result
        (λ found. string_shown found ≡ string_within (length text.now + 1) text.now) }
{
    let mut said = Seq::new(alloc);
    let mut rest = text;
    'pieces: loop {
        match first_piece(rest) {
            Piece::Byte(byte, more) => {
                said.push(byte)?;
                rest = more;
            }
            Piece::End(more) => return Ok(Some((said, more))),
            Piece::Faulty => return Ok(None),
        }
    }
}
