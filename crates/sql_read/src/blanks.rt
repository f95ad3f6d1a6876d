// Blanks and comments.
ghost use Rattle.std.specs.Prelude.{◌≡◌, ◌≤◌, false, drop, length};
ghost use Rattle.mt_values.specs.Tokens.{behind, begins_with, is_space};
ghost use Rattle.sql_read.specs.Blanks.{is_skipped, comment_behind};

/// What may be skipped beside comments.
#[derive(Clone, Copy)]
pub enum Skipped {
    /// Space, tab, line feed and carriage return.
    Blanks,
    /// Those and semicolons.
    Between,
}

/// Space, tab, line feed or carriage return.
pub fn is_space(byte: u8) -> bool
    ensures { result ≡ is_space byte }
{
    matches!(byte, b' ' | b'\t' | b'\n' | b'\r')
}

// Whether the byte is skipped outside comments.
fn is_skipped(skipped: Skipped, byte: u8) -> bool
    ensures { result ≡ is_skipped skipped byte }
{
    match skipped {
        Skipped::Blanks => is_space(byte),
        Skipped::Between => is_space(byte) || byte == b';',
    }
}

/// Whether this byte stands first in a text.
pub fn begins_with(byte: u8, text: &[u8]) -> bool
    ensures { result ≡ begins_with byte text.now }
{
    match text {
        [first, ..] => *first == byte,
        [] => false,
    }
}

// Whether a comment goes on after the first byte of a text, where that byte is skipped.
fn comment_behind(skipped: Skipped, comment: bool, text: &[u8]) -> Option<bool>
    ensures { result ≡ comment_behind (is_skipped skipped) comment text.now }
{
    let [byte, more @ ..] = text else {
        return None;
    };
    if comment {
        return Some(*byte != b'\n');
    }
    if is_skipped(skipped, *byte) {
        return Some(false);
    }
    if *byte == b'-' && begins_with(b'-', more) {
        return Some(true);
    }
    None
}

/// How many bytes of a text are skipped at its front: blanks and comments, which go from two dashes up to a line feed.
#[tactic(auto, using(crate::proofs::Skipping::goes_on, crate::proofs::Skipping::stops))]
pub fn skipped_len(skipped: Skipped, text: &[u8]) -> usize
    ensures rest { drop result text.now ≡ behind (is_skipped skipped) false text.now }
    ensures within { result ≤ length text.now }
{
    let mut comment = false;
    let mut at = 0;
    'skip: while let Some(inside) = comment_behind(skipped, comment, &text[at..]) {
        comment = inside;
        at += 1;
    }
    at
}

/// The text after the blanks and comments that it begins with.
pub fn behind(skipped: Skipped, text: &[u8]) -> &[u8]
    ensures { result.now ≡ behind (is_skipped skipped) false text.now }
{
    &text[skipped_len(skipped, text)..]
}
