// The part of a script that an INSERT takes.
ghost use Rattle.std.specs.Prelude.{◌≡◌, ◌<◌, ◌≤◌, ◌+◌, ◌^◌, ◌&&◌, ℕ, List, length, drop, not};
ghost use Rattle.std.specs.List.{list_all, prefix_len};
ghost use Rattle.mt_values.specs.Script.{behind_line, data_ended, data_of, is_line_byte, line_rest, with_line_rest};
ghost use Rattle.data_lines.specs.Sections.{section_said};

use crate::lines::data_extent;

/// The part of a script that its first statement takes.
#[derive(Clone, Copy)]
pub struct Section<'a> {
    /// The statement's text.
    pub text: &'a [u8],
    /// Whether a semicolon ends it.
    pub terminated: bool,
    /// What comes after the semicolon of an INSERT on its line.
    pub line: &'a [u8],
    /// The lines of its data.
    pub lines: &'a [u8],
    /// Whether the line that ends data came.
    pub ended: bool,
    /// The bytes of the script up to what follows all of this.
    pub used: usize,
    /// Whether it is the same whatever comes after the script.
    pub whole: bool,
}

// The bytes of the line that a text begins with, without its line feed.
fn line_len(text: &[u8]) -> usize
    ensures value { result ≡ prefix_len is_line_byte text.now }
    ensures within { result ≤ length text.now }
{
    text.iter().take_while(|byte| **byte != b'\n').count()
}

/// The part of a script that an INSERT of this text takes, with its data, and with this many bytes before what stands
/// after its semicolon.
pub fn inserted<'a>(text: &'a [u8], before: usize, behind: &'a [u8]) -> Section<'a>
    requires fits { before + length behind.now < 2 ^ 64 }
    ensures said { section_said result
        ≡ with_line_rest text.now (line_rest behind.now) (data_of (behind_line behind.now)) }
    ensures rest { (script : List ℕ) → drop before script ≡ behind.now
        → drop result.used script ≡ (data_of (behind_line behind.now)).rest }
    ensures used { (before ≤ result.used) × (result.used ≤ before + length behind.now) }
    ensures whole { result.whole
        ≡ (not (list_all is_line_byte behind.now) && data_ended (behind_line behind.now)) }
{
    let len = line_len(behind);
    let start = (len + 1).min(behind.len());
    let data = data_extent(&behind[start..]);
    Section {
        text,
        terminated: true,
        line: &behind[..len],
        lines: &behind[start..start + data.lines],
        ended: data.ended,
        used: before + start + data.used,
        whole: len < behind.len() && data.closed,
    }
}
