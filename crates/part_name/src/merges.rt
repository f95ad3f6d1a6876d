// The names of the parts that merges and rewrites make.
ghost use Rattle.std.specs.Prelude.{◌≡◌, None, Some, if◌then◌else◌, nat_lt};
ghost use Rattle.mt_base.specs.Limits.{level_limit};
ghost use Rattle.part_name.specs.Merged.{joined_name, later_mutation, raised, rewritten};

use crate::PartName;

// The later of two mutations.
fn later_mutation(a: Option<u32>, b: Option<u32>) -> Option<u32>
    ensures { result ≡ later_mutation a b }
{
    match (a, b) {
        (Some(first), Some(second)) => Some(first.max(second)),
        (Some(first), None) => Some(first),
        (None, other) => other,
    }
}

/// The blocks of two parts of one partition, from the least up to the greatest, with the greater of their levels and of
/// their mutations.
pub fn join(a: &PartName, b: &PartName) -> PartName
    ensures { result ≡ joined_name a.now b.now }
{
    PartName {
        partition: a.partition,
        min_block: a.min_block.min(b.min_block),
        max_block: a.max_block.max(b.max_block),
        level: a.level.max(b.level),
        mutation: later_mutation(a.mutation, b.mutation),
    }
}

/// The same name one level higher; none where it has the greatest level.
pub fn raise(name: &PartName) -> Option<PartName>
    ensures { result
        ≡ (if nat_lt name.now.level level_limit then Some (raised name.now) else None) }
{
    if name.level == u32::MAX {
        return None;
    }
    Some(PartName {
        level: name.level + 1,
        ..*name
    })
}

/// The name of a part to which mutations up to this one were applied.
pub fn rewrite(name: &PartName, mutation: u32) -> PartName
    ensures { result ≡ rewritten name.now mutation }
{
    PartName {
        mutation: Some(mutation),
        ..*name
    }
}
