// A name from its text.
ghost use Rattle.std.specs.Prelude.{◌≡◌, ◌≤◌, ◌<◌, ◌+◌, ◌*◌, ◌↔◌, ℕ, List, Option, Some, IfSome, IfNone, IsSomeAnd, IsTrue};
ghost use Rattle.std.specs.Option.{SomeIff};
ghost use Rattle.std.specs.Char.{digit_value};
ghost use Rattle.std.specs.Fmt.{decimal};
ghost use Rattle.mt_base.specs.declared.partition.Partition.{Partition};
ghost use Rattle.part_name.specs.declared.part.PartName.{PartName};
ghost use Rattle.part_name.specs.Fields.{BeginsNumber, HasNoBar};
ghost use Rattle.part_name.specs.PartNames.{IsBlock, IsMutation, IsPartName, IsPartition, joined, last_text, part_text, partition_text};

use crate::PartName;
use mt_base::Partition;

// Whether a number may begin so: with a digit, and with a zero only where it is the only one.
fn begins_number(digits: &[u8]) -> bool
    ensures { IsTrue result ↔ BeginsNumber digits.now }
{
    match digits {
        [] => false,
        [b'0'] => true,
        [first, ..] => *first != b'0',
    }
}

// The number with one more digit; none where the byte is no digit, or where that passes the greatest number.
fn with_digit(most: u64, number: u64, byte: u8) -> Option<u64>
    ensures { SomeIff result ((digit_value byte < 10) × (number * 10 + digit_value byte ≤ most))
        (number * 10 + digit_value byte) }
{
    if !byte.is_ascii_digit() {
        return None;
    }
    let tenfold = number.checked_mul(10)?;
    let longer = tenfold.checked_add(u64::from(byte - b'0'))?;
    if longer > most {
        return None;
    }
    Some(longer)
}

// The number that a text spells, up to a greatest one.
fn number(most: u64, digits: &[u8]) -> Option<u64>
    ensures spelled { IfSome result (λ n. (n ≤ most) × (decimal n ≡ digits.now)) }
    ensures read { (n : ℕ) → n ≤ most → decimal n ≡ digits.now → result ≡ Some n }
{
    if !begins_number(digits) {
        return None;
    }
    let mut number: u64 = 0;
    for digit in digits {
        number = with_digit(most, number, *digit)?;
    }
    Some(number)
}

// The level that a text spells.
fn level(digits: &[u8]) -> Option<u32>
    ensures spelled { IfSome result (λ n. (n ≤ 4294967295) × (decimal n ≡ digits.now)) }
    ensures read { (n : ℕ) → n ≤ 4294967295 → decimal n ≡ digits.now → result ≡ Some n }
{
    Some(number(u32::MAX as u64, digits)? as u32)
}

// The number of a block or of a mutation that a text spells.
fn block(digits: &[u8]) -> Option<u32>
    ensures spelled { IfSome result (λ n. IsBlock n × (decimal n ≡ digits.now)) }
    ensures read { (n : ℕ) → IsBlock n → decimal n ≡ digits.now → result ≡ Some n }
{
    match level(digits) {
        Some(number) if 1 <= number => Some(number),
        _ => None,
    }
}

/// The partition that a text spells, or none where it spells none. Takes no memory.
pub fn parse_partition(text: &[u8]) -> Option<Partition>
    ensures spelled { IfSome result (λ p. IsPartition p × (partition_text p ≡ text.now)) }
    ensures read { (p : Partition) → IsPartition p → partition_text p ≡ text.now → result ≡ Some p }
{
    match text {
        b"all" => Some(Partition::Whole),
        _ => Some(Partition::Number(number(u64::MAX, text)?)),
    }
}

// What stands before the first underscore, and after it; none where there is no underscore.
#[tactic(auto, using(crate::proofs::Pieces::bar_here))]
fn split(text: &[u8]) -> Option<(&[u8], &[u8])>
    ensures found { IfSome result (λ p. HasNoBar p.0.now × (joined p.0.now p.1.now ≡ text.now)) }
    ensures none { IfNone result (HasNoBar text.now) }
{
    for (at, byte) in text.iter().enumerate() {
        if *byte == b'_' {
            return Some((&text[..at], &text[at + 1..]));
        }
    }
    None
}

// The partition before the first underscore, and what comes after it.
fn partition_in_front(text: &[u8]) -> Option<(Partition, &[u8])>
    ensures spelled { IfSome result
        (λ p. IsPartition p.0 × (joined (partition_text p.0) p.1.now ≡ text.now)) }
    ensures read { (p : Partition) (rest : List ℕ) → IsPartition p
        → joined (partition_text p) rest ≡ text.now
        → IsSomeAnd result (λ q. (q.0 ≡ p) × (q.1.now ≡ rest)) }
{
    let (front, rest) = split(text)?;
    let found = parse_partition(front)?;
    Some((found, rest))
}

// The number of a block before the first underscore, and what comes after it.
fn block_in_front(text: &[u8]) -> Option<(u32, &[u8])>
    ensures spelled { IfSome result (λ p. IsBlock p.0 × (joined (decimal p.0) p.1.now ≡ text.now)) }
    ensures read { (n : ℕ) (rest : List ℕ) → IsBlock n → joined (decimal n) rest ≡ text.now
        → IsSomeAnd result (λ q. (q.0 ≡ n) × (q.1.now ≡ rest)) }
{
    let (front, rest) = split(text)?;
    let number = block(front)?;
    Some((number, rest))
}

// The level, and the mutation after it where there is one.
fn level_and_mutation(text: &[u8]) -> Option<(u32, Option<u32>)>
    ensures spelled { IfSome result
        (λ p. (p.0 ≤ 4294967295) × IsMutation p.1 × (last_text p.0 p.1 ≡ text.now)) }
    ensures read { (n : ℕ) (mutation : Option ℕ) → n ≤ 4294967295 → IsMutation mutation
        → last_text n mutation ≡ text.now → result ≡ Some (n, mutation) }
{
    let Some((front, rest)) = split(text) else {
        return Some((level(text)?, None));
    };
    let number = level(front)?;
    let mutation = block(rest)?;
    Some((number, Some(mutation)))
}

/// The name that a text spells, or none where it spells none. Takes no memory.
pub fn parse(bytes: &[u8]) -> Option<PartName>
    ensures spelled { IfSome result (λ p. IsPartName p × (part_text p ≡ bytes.now)) }
    ensures read { (p : PartName) → IsPartName p → part_text p ≡ bytes.now → result ≡ Some p }
{
    let (partition, rest) = partition_in_front(bytes)?;
    let (min_block, rest) = block_in_front(rest)?;
    let (max_block, rest) = block_in_front(rest)?;
    let (level, mutation) = level_and_mutation(rest)?;
    if max_block < min_block {
        return None;
    }
    Some(PartName {
        partition,
        min_block,
        max_block,
        level,
        mutation,
    })
}
