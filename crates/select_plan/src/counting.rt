// A plan, and how many parts and granules it has and reads.
ghost use Rattle.std.specs.Prelude.{◌≡◌, ◌++◌, ◌∷◌, [], Bool, List};
ghost use Rattle.std.specs.List.{count_by, list_any};
ghost use Rattle.std.specs.Option.{IfSome};
ghost use Rattle.select_plan.specs.Plans.{counts_over};

use mt_base::Seq;
use mt_model::Counts;

/// Which granules are read.
#[derive(Drop)]
pub struct Plan {
    /// For each part of a pinned table, in its order, whether each of its granules is read.
    pub parts: Vec<Seq<bool>>,
}

impl Plan {
    /// How many parts and granules there are, and how many of them are read; none where 64 bits can't count them.
    pub fn counts(&self) -> Option<Counts>
        ensures { IfSome result (λ n. n ≡ counts_over self.now.parts.items) }
    {
        let mut counts = Counts {
            chosen_parts: 0,
            parts: 0,
            chosen_granules: 0,
            granules: 0,
        };
        for chosen in &self.parts {
            counts = with_part(counts, chosen.as_slice())?;
        }
        Some(counts)
    }
}

/// The counts of some parts and of one more.
fn with_part(counts: Counts, chosen: &[bool]) -> Option<Counts>
    ensures { (parts : List (List Bool)) → counts ≡ counts_over parts
        → IfSome result (λ n. n ≡ counts_over (parts ++ chosen.now ∷ [])) }
{
    let is_read = is_some_chosen(chosen);
    let read = count_chosen(chosen);
    Some(Counts {
        chosen_parts: counts.chosen_parts.checked_add(u64::from(is_read))?,
        parts: counts.parts.checked_add(1)?,
        chosen_granules: counts.chosen_granules.checked_add(read as u64)?,
        granules: counts.granules.checked_add(chosen.len() as u64)?,
    })
}

/// Whether a granule is chosen.
fn is_some_chosen(chosen: &[bool]) -> bool
    ensures { result ≡ list_any (λ c. c) chosen.now }
{
    chosen.iter().any(|is_chosen| *is_chosen)
}

/// How many granules are chosen.
fn count_chosen(chosen: &[bool]) -> usize
    ensures { result ≡ count_by (λ c. c) chosen.now }
{
    chosen.iter().filter(|is_chosen| **is_chosen).count()
}
