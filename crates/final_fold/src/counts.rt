// How many rows parts have, and whether an answer of a mask is true.
ghost use Rattle.std.specs.Prelude.{◌≡◌, ◌+◌, ◌<◌, ◌^◌, IfSome};
ghost use Rattle.final_fold.specs.Matches.{some_true};
ghost use Rattle.final_fold.specs.Scans.{rows_kept};

use mt_base::Rows;
use row_merge::part_reader::Part;
use row_merge::part_set::Kept;

/// How many rows parts have together; none where a place of 32 bits can't count them.
pub fn count_rows<F>(parts: &[Kept<Part<F>>]) -> Option<usize>
    ensures rows { IfSome result (λ rows. rows ≡ rows_kept parts.now) }
    ensures few { IfSome result (λ rows. rows < 2 ^ 32) }
{
    let mut rows: u64 = 0;
    for kept in parts {
        rows = rows.checked_add(kept.part.rows())?;
    }
    if rows > u32::MAX as u64 {
        return None;
    }
    Some(rows as usize)
}

/// Two numbers of rows together; none where a place of 32 bits can't count them.
pub(crate) fn join_counts(some: usize, others: usize) -> Option<usize>
    ensures sum { IfSome result (λ rows. rows ≡ some + others) }
    ensures few { IfSome result (λ rows. rows < 2 ^ 32) }
{
    let sum = some.checked_add(others)?;
    if sum > u32::MAX as usize {
        return None;
    }
    Some(sum)
}

/// Whether an answer of a mask is true.
pub(crate) fn some_true(mask: &[bool]) -> bool
    ensures { result ≡ some_true mask.now }
{
    mask.iter().any(|is_true| *is_true)
}
