// Texts from the bytes of a field, each escape for the byte that it stands for.
ghost use Rattle.std.specs.Prelude.{◌≡◌, ◌≤◌, ◌<◌, ◌+◌, ◌^◌, IfOk, IfSome, length, drop};
ghost use Rattle.std.specs.List.{prefix_len};
ghost use Rattle.std.specs.Option.{option_map};
ghost use Rattle.mt_values.specs.Escapes.{escape_byte, escape_of, hex_byte, hex_digit};
ghost use Rattle.mt_values.specs.Rows.{unescaped};
ghost use Rattle.tsv_fields.specs.Texts.{byte_said, if_fits, is_no_backslash};

use mt_base::NoMemory;

// The value of a hexadecimal digit of either case.
fn hex_digit(byte: u8) -> Option<u8>
    ensures value { result ≡ hex_digit byte }
    ensures within { IfSome result (λ digit. digit < 16) }
{
    match byte {
        b'0'..=b'9' => Some(byte - b'0'),
        b'a'..=b'f' => Some(byte - 87),
        b'A'..=b'F' => Some(byte - 55),
        _ => None,
    }
}

// The byte that two hexadecimal digits say; none where one of them is no digit.
fn hex_byte(high: u8, low: u8) -> Option<u8>
    ensures { result ≡ hex_byte (hex_digit high) (hex_digit low) }
{
    let high = hex_digit(high)?;
    let low = hex_digit(low)?;
    Some(16 * high + low)
}

// The byte that a backslash and this byte stand for.
fn escape_byte(byte: u8) -> u8
    ensures { result ≡ escape_byte byte }
{
    match byte {
        b'b' => 8,
        b'f' => 12,
        b'r' => b'\r',
        b'n' => b'\n',
        b't' => b'\t',
        b'0' => 0,
        b'a' => 7,
        b'v' => 11,
        _ => byte,
    }
}

// The byte that a backslash stands for with the bytes after it, and how many of them it takes; none where they are
// no escape.
fn escape(behind: &[u8]) -> Option<(u8, usize)>
    ensures value { option_map (byte_said behind.now) result ≡ escape_of behind.now }
    ensures within { IfSome result (λ found. found.1 ≤ length behind.now) }
{
    match behind {
        [] | [b'N', ..] => None,
        [b'x', high, low, ..] => Some((hex_byte(*high, *low)?, 3)),
        [b'x', ..] => None,
        [byte, ..] => Some((escape_byte(*byte), 1)),
    }
}

/// How many bytes stand before the first backslash of a text: all of them where it has none.
pub fn plain_len(text: &[u8]) -> usize
    ensures value { result ≡ prefix_len is_no_backslash text.now }
    ensures within { result ≤ length text.now }
{
    text.iter().take_while(|byte| **byte != b'\\').count()
}

/// Puts what a text says in place of what `out` had, each escape for the byte that it stands for. Answers whether
/// each of its escapes stands for one; where one does not, `out` has some of the bytes.
pub fn unescape(text: &[u8], out: &mut Vec<u8>) -> Result<bool, NoMemory>
    ensures { IfOk result (λ fits. if_fits fits out.new.items ≡ unescaped text.now) }
{
    out.clear();
    let mut at = 0;
    loop {
        let plain = plain_len(&text[at..]);
        out.extend_from_slice(&text[at..at + plain])?;
        at += plain;
        if at == text.len() {
            return Ok(true);
        }
        let Some((byte, used)) = escape(&text[at + 1..]) else {
            return Ok(false);
        };
        out.push(byte)?;
        at += 1 + used;
    }
}
