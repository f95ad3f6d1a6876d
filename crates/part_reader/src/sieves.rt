// Conditions that are asked of the rows of a part, each in some granules, by columns of these rows.
ghost use Rattle.std.specs.Prelude.{◌≡◌, All, IfOk, false, get_or, length, map};
ghost use Rattle.std.specs.List.{list_all};
ghost use Rattle.mt_values.specs.Grid.{Cells, rows_of};
ghost use Rattle.part_reader.specs.Sieves.{asking_of, count_true, passes};

use mt_base::NoMemory;
use mt_values::{ColumnData, Expr, Test};
use part_damage::predicate::{intersect, mask_within};
use std::alloc::Global;

/// A condition, and the granules of a part in which it is asked.
#[derive(Drop)]
pub struct Sieve<'a> {
    /// Its tests name columns by their positions among those that are read for the conditions.
    pub condition: Expr<Test>,
    pub granules: &'a [bool],
}

/// Whether each row of a granule meets the conditions that are asked there, by columns with the values of these rows.
///
/// `NoMemory` where an allocation failed.
pub fn sift(
    alloc: Global,
    columns: &[ColumnData],
    rows: usize,
    sieves: &[Sieve],
    granule: usize,
) -> Result<Vec<bool>, NoMemory>
    requires { All (λ (c : Cells). length c.values ≡ rows) columns.now }
    ensures { IfOk result
        (λ v. v.items ≡ map (passes (asking_of sieves.now) granule) (rows_of columns.now rows)) }
{
    let mut mask = vec![in alloc; true; rows]?;
    for sieve in sieves {
        if !is_asked(sieve.granules, granule) {
            continue;
        }
        let answers = mask_within(alloc, &sieve.condition, columns, 0, rows)?;
        intersect(&mut mask, &answers);
    }
    Ok(mask)
}

/// Whether the answer at a place is true; one that is not there is not.
fn is_asked(answers: &[bool], place: usize) -> bool
    ensures { result ≡ get_or answers.now place false }
{
    match answers.get(place) {
        Some(answer) => *answer,
        None => false,
    }
}

/// How many answers of a mask are true.
pub fn count_true(mask: &[bool]) -> usize
    ensures { result ≡ count_true mask.now }
{
    let mut count: usize = 0;
    for is_true in mask {
        if !*is_true {
            continue;
        }
        count += 1;
    }
    count
}

/// Whether all answers of a mask are true.
pub fn is_whole(mask: &[bool]) -> bool
    ensures { result ≡ list_all (λ b. b) mask.now }
{
    mask.iter().all(|is_true| *is_true)
}
