// marks.bin: where the granules of a part begin in its column files (docs/formats.md, "Marks").
//
// For each column in order the file has a number for each granule and one more, each in 8 bytes, the lowest first: where
// the granule begins in the column's file, counted from 0, and last the length of that file. So the first number of a
// column is 0. Each granule has a row at least and each value a byte, so each other number is above the one before it.
// Without rows there is the one number 0 for each column.
ghost use Rattle.std.specs.Prelude.{◌≡◌, ◌≤◌, ◌++◌, ◌∷◌, ◌↔◌, [], List, ℕ, IfErr, IfOk, IsTrue, MatchResult, OnOk, drop, length};
ghost use Rattle.column_file.specs.Marks.{numbers_bytes, places_bytes};
ghost use Rattle.primary_marks.specs.Places.{AreMarksOf, AreStarts, BeginStarts, ExplainsMarks, ExplainsStarts, IsNextStart, NoStartFollows};

use column_file::byte_numbers::{FormatFault, first_u64, push_u64};
use column_file::end_at;
use mt_base::{NoMemory, Seq};
use mt_values::Bytes;
use std::alloc::Global;

/// Where the granules of each column begin in the column's file, counted from 0, and last the length of the file.
pub type Places = Seq<Seq<u64>>;

/// How many bytes a number takes.
const WIDTH: usize = 8;

/// The bytes of the numbers of columns.
///
/// `NoMemory` where an allocation failed.
pub fn spell_places(alloc: Global, places: &[Seq<u64>]) -> Result<Bytes, NoMemory>
    ensures { IfOk result (λ b. b ≡ places_bytes places.now) }
{
    let mut bytes = Seq::new(alloc);
    for numbers in places {
        push_numbers(&mut bytes, numbers.as_slice())?;
    }
    Ok(bytes)
}

/// Adds the bytes of numbers.
///
/// `NoMemory` where an allocation failed; some of the bytes may have been added then.
fn push_numbers(bytes: &mut Bytes, numbers: &[u64]) -> Result<(), NoMemory>
    ensures { OnOk result (bytes.new ≡ bytes.old ++ numbers_bytes numbers.now) }
{
    for number in numbers {
        push_u64(bytes, *number)?;
    }
    Ok(())
}

/// The numbers that the bytes spell of this many columns, each with this many granules.
///
/// `Malformed` where they spell no such numbers: at the first that is not whole, or that is not 0 as the first of its
/// column or not above the one before it, or after the last where the bytes go on. `NoMemory` where an allocation failed.
pub fn read_places(
    alloc: Global,
    columns: usize,
    granules: u64,
    bytes: &[u8],
) -> Result<Places, FormatFault>
    ensures read { IfOk result (AreMarksOf columns granules bytes.now) }
    ensures spelled { (places : List (List ℕ)) → AreMarksOf columns granules bytes.now places
        → MatchResult result (λ p. p ≡ places) (λ e. e ≡ FormatFault.NoMemory) }
    ensures fault { IfErr result (ExplainsMarks columns granules bytes.now) }
{
    let mut places = Seq::new(alloc);
    let mut at = 0;
    for _column in 0..columns {
        let numbers = read_numbers(alloc, granules, bytes, at)?;
        at += WIDTH * numbers.len();
        places.push(numbers)?;
    }
    end_at(bytes, at)?;
    Ok(places)
}

/// The numbers of a column with this many granules, which begin at a place of the bytes.
///
/// `Malformed` at the first that is not whole or does not come after those before it; `NoMemory` where an allocation failed.
fn read_numbers(
    alloc: Global,
    granules: u64,
    bytes: &[u8],
    at: usize,
) -> Result<Seq<u64>, FormatFault>
    requires { at ≤ length bytes.now }
    ensures read { IfOk result (BeginStarts granules (drop at bytes.now)) }
    ensures fault { IfErr result (ExplainsStarts granules at (drop at bytes.now)) }
{
    let mut numbers = Seq::new(alloc);
    numbers.push(next_number(&numbers, bytes, at)?)?;
    for _granule in 0..granules {
        let number = next_number(&numbers, bytes, at + WIDTH * numbers.len())?;
        numbers.push(number)?;
    }
    Ok(numbers)
}

/// The number at a place of the bytes, which is to come after these of its column.
///
/// `Malformed` at the place where none is there that may.
fn next_number(before: &Seq<u64>, bytes: &[u8], at: usize) -> Result<u64, FormatFault>
    requires within { at ≤ length bytes.now }
    requires rise { AreStarts before.now }
    ensures { MatchResult result (λ n. IsNextStart before.now n (drop at bytes.now)) (λ e.
        (e ≡ FormatFault.Malformed at) × NoStartFollows before.now (drop at bytes.now)) }
{
    let rest = &bytes[at..];
    if rest.len() >= WIDTH {
        let number = first_u64(rest);
        if may_follow(before.as_slice(), number) {
            return Ok(number);
        }
    }
    Err(FormatFault::Malformed { place: at as u64 })
}

/// Whether the number may come after these of its column: 0 as the first, and any above the last of them.
fn may_follow(before: &[u64], number: u64) -> bool
    requires { AreStarts before.now }
    ensures { IsTrue result ↔ AreStarts (before.now ++ number ∷ []) }
{
    match before.last() {
        None => number == 0,
        Some(last) => *last < number,
    }
}
