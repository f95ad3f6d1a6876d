// The run of parts that has the names of others.
ghost use Rattle.std.specs.Prelude.{◌<◌, ◌≤◌, ℕ, IfErr, IfOk, length};
ghost use Rattle.part_set.specs.Runs.{Begins, IsBusyRun, IsMissing, names_of_parts};

use crate::{Kept, Run};
use part_name::PartName;

// How many of the first parts have the names of the first sources, one by one, and bear marks.
fn count_taken<P>(parts: &[Kept<P>], sources: &[Kept<P>]) -> usize
    ensures within { result ≤ length sources.now }
    ensures taken { Begins result sources.now parts.now }
    ensures most { (n : ℕ) → Begins n sources.now parts.now → n ≤ result }
{
    let mut count = 0;
    for (kept, source) in parts.iter().zip(sources) {
        if kept.name != source.name || !kept.busy {
            return count;
        }
        count += 1;
    }
    count
}

/// The run of parts that has the names of the sources, in their order, and each of whose parts bears the mark; else the
/// first of these names that does not follow there with its mark. Takes no memory.
pub(crate) fn find_run<P>(parts: &[Kept<P>], sources: &[Kept<P>]) -> Result<Run, PartName>
    requires some { 0 < length sources.now }
    ensures found { IfOk result
        (λ run. IsBusyRun run (names_of_parts sources.now) parts.now) }
    ensures missing { IfErr result (IsMissing (names_of_parts sources.now) parts.now) }
{
    let mut most = 0;
    for first in 0..parts.len() {
        let count = count_taken(&parts[first..], sources);
        if count == sources.len() {
            return Ok(Run { first, count });
        }
        most = most.max(count);
    }
    Err(sources[most].name)
}
