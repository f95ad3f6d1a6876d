// What an entry and a manifest have in common: first bytes of their own, some bytes, a number of items, the items,
// and the digest of all that.
ghost use Rattle.std.specs.Prelude.{◌≡◌, ◌+◌, ◌≤◌, ℕ, MatchResult, length};
ghost use Rattle.digest_file.specs.Faults.{Locates};
ghost use Rattle.digest_file.specs.Frames.{IsFrame, IsFrameOf, Opens};

use crate::digest::{check_digest, difference};
use byte_numbers::{FormatFault, first_u32};

/// The pieces of a file after its first bytes.
#[derive(Drop)]
pub struct Frame<'a> {
    /// What stands before the number of items.
    pub middle: &'a [u8],
    /// The number of items.
    pub count: u32,
    /// The bytes of the items.
    pub items: &'a [u8],
}

/// The pieces of bytes that begin with the first ones, with `gap` bytes before the number of items and `unit` bytes for each.
///
/// `Malformed` at the bytes' first fault where they have no such pieces or another digest.
pub fn parted<'a>(
    bytes: &'a [u8],
    first: &[u8],
    gap: usize,
    unit: usize,
) -> Result<Frame<'a>, FormatFault>
    requires gap { length first.now + gap ≤ 100 }
    requires unit { unit ≤ 100 }
    ensures { MatchResult result (λ f. IsFrameOf first.now gap unit bytes.now f.middle.now f.count
        f.items.now) (Locates (IsFrame first.now gap unit) bytes.now) }
{
    let count = count_of(bytes, first, gap)?;
    let head = first.len() + gap + 4;
    let size = unit * count as usize;
    if bytes.len() - head < size {
        return Err(ends_early(bytes));
    }
    check_digest(bytes, head + size)?;
    Ok(Frame {
        middle: &bytes[first.len()..first.len() + gap],
        count,
        items: &bytes[head..head + size],
    })
}

/// The number of items of bytes that begin with the first ones.
///
/// `Malformed` at the bytes' first fault where they begin otherwise or end before it.
fn count_of(bytes: &[u8], first: &[u8], gap: usize) -> Result<u32, FormatFault>
    requires { length first.now + gap ≤ 100 }
    ensures { MatchResult result (Opens first.now gap bytes.now)
        (λ e. (unit : ℕ) → Locates (IsFrame first.now gap unit) bytes.now e) }
{
    if let Some(place) = difference(bytes, first) {
        return Err(FormatFault::Malformed {
            place: place as u64,
        });
    }
    let number_at = first.len() + gap;
    if bytes.len() < number_at + 4 {
        return Err(ends_early(bytes));
    }
    Ok(first_u32(&bytes[number_at..]))
}

/// The fault of bytes that end too early.
fn ends_early(bytes: &[u8]) -> FormatFault
    ensures { result ≡ FormatFault.Malformed (length bytes.now) }
{
    FormatFault::Malformed {
        place: bytes.len() as u64,
    }
}
