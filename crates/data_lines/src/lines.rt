// The lines of data that a text begins with.
ghost use Rattle.std.specs.Prelude.{◌≡◌, ◌<◌, ◌≤◌, ◌+◌, length, take, drop, IfSome, false};
ghost use Rattle.std.specs.Option.{option_map};
ghost use Rattle.memchr.specs.Find.{IsFirstByte, is_byte2};
ghost use Rattle.mt_values.specs.Script.{data_ended, data_of, ends_data, line_from};
ghost use Rattle.data_lines.specs.Sections.{data_in};

use memchr::memchr2_iter;

/// How much of a text is data.
#[derive(Clone, Copy)]
pub struct Extent {
    /// The bytes of the lines of data, which stand first.
    pub lines: usize,
    /// Whether the line that ends data came.
    pub ended: bool,
    /// Whether it came with its line feed.
    pub closed: bool,
    /// The bytes up to the script after the data.
    pub used: usize,
}

// The first place of a line feed or a backslash in a text; none where it has neither.
fn next_mark(text: &[u8]) -> Option<usize>
    ensures { IsFirstByte (is_byte2 10 92) text.now result }
{
    // The iterator tries the bytes that are near first, and most lines are short.
    memchr2_iter(b'\n', b'\\', text).next()
}

// The place of the line feed that ends the line of data which a text begins with: the first that no backslash takes.
// None where no line feed ends the line. Takes no memory.
fn line_end(text: &[u8]) -> Option<usize>
    ensures parts { option_map (λ k. (take k text.now, drop (k + 1) text.now)) result
        ≡ line_from false text.now }
    ensures within { IfSome result (λ k. k < length text.now) }
{
    let mut at = 0;
    'marks: while at < text.len() {
        let Some(plain) = next_mark(&text[at..]) else {
            return None;
        };
        let mark = at + plain;
        if text[mark] == b'\n' {
            return Some(mark);
        }
        // The backslash takes the byte after it.
        at = mark + 2;
    }
    None
}

// Whether the line is the one that ends data.
fn ends_data(line: &[u8]) -> bool
    ensures { result ≡ ends_data line.now }
{
    line == b"\\.".as_slice()
}

/// The data that a text begins with. One pass over its bytes; takes no memory.
pub fn data_extent(text: &[u8]) -> Extent
    ensures data { data_in text.now result ≡ data_of text.now }
    ensures closed { result.closed ≡ data_ended text.now }
    ensures within { result.lines ≤ length text.now }
    ensures used { result.used ≤ length text.now }
{
    let mut lines = 0;
    'lines: while let Some(len) = line_end(&text[lines..]) {
        if ends_data(&text[lines..lines + len]) {
            return Extent {
                lines,
                ended: true,
                closed: true,
                used: lines + len + 1,
            };
        }
        lines += len + 1;
    }
    if ends_data(&text[lines..]) {
        return Extent {
            lines,
            ended: true,
            closed: false,
            used: text.len(),
        };
    }
    Extent {
        lines: text.len(),
        ended: false,
        closed: false,
        used: text.len(),
    }
}
