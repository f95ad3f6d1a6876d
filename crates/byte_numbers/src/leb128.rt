// Numbers as unsigned LEB128: groups of seven bits, the lowest first, each but the last with 128 added.
ghost use Rattle.std.specs.Prelude.{◌≡◌, ◌≤◌, ◌^◌, ◌++◌, ℕ, List, MatchOption, OnOk};
ghost use Rattle.mt_values.specs.ColumnBytes.{groups_within, leb128};
ghost use Rattle.byte_numbers.specs.Fronts.{Begins};

use mt_base::NoMemory;
use mt_values::Bytes;

/// Adds a number's shortest spelling at the end.
///
/// `NoMemory` where an allocation failed; some of the groups may have been added then.
pub fn push_leb128(bytes: &mut Bytes, number: u64) -> Result<(), NoMemory>
    ensures { OnOk result (bytes.new ≡ bytes.old ++ leb128 number) }
{
    let mut rest = number;
    for _group in 0..9u8 {
        if rest < 128 {
            return bytes.push(rest as u8);
        }
        bytes.push((rest % 128 + 128) as u8)?;
        rest /= 128;
    }
    bytes.push(rest as u8)
}

/// The number whose shortest spelling the bytes begin with, and how many bytes spell it.
///
/// `None` where they begin with no number's that is below 2^64.
pub fn read_leb128(bytes: &[u8]) -> Option<(u64, usize)>
    ensures { MatchOption result ((number : ℕ) (rest : List ℕ) → bytes.now ≡ leb128 number ++ rest
        → 2 ^ 64 ≤ number) (λ p. Begins (leb128 p.0) p.1 bytes.now) }
{
    read_groups(bytes, 9)
}

/// The number of the groups that the bytes begin with, of which at most this many more follow the first.
fn read_groups(bytes: &[u8], more: u32) -> Option<(u64, usize)>
    ensures { MatchOption result ((number : ℕ) (rest : List ℕ)
        → bytes.now ≡ groups_within more number ++ rest
        → 2 ^ 64 ≤ number) (λ p. Begins (groups_within more p.0) p.1 bytes.now) }
{
    let (first, rest) = bytes.split_first()?;
    if *first < 128 || more == 0 {
        return Some((u64::from(*first), 1));
    }
    let (high, size) = read_groups(rest, more - 1)?;
    // A number without a higher group has its last group here.
    if high == 0 {
        return None;
    }
    let number = high.checked_mul(128)? + u64::from(*first % 128);
    Some((number, size + 1))
}
