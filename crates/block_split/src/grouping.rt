// The places of a block's rows by the number in its partition column: one pass over that column. A number is looked up
// in a set that keeps the order in which numbers came, so its place in the set is that of its group.
ghost use Rattle.std.specs.Prelude.{◌≡◌, ◌<◌, ◌^◌, All, IfOk, OnOk, Some, length, map};
ghost use Rattle.mt_values.specs.declared.schema.Schema.{Schema};
ghost use Rattle.block_split.specs.Groups.{group_rows, placed};
ghost use Rattle.block_split.specs.Split.{split_rows};

use indexmap::IndexSet;
use mt_base::{NoMemory, Seq};
use mt_values::Block;
use std::alloc::Global;

/// The places of the rows that have one number in the partition column.
#[derive(Debug, Drop)]
pub struct Group {
    pub number: u64,
    /// Counted from 0, in order.
    pub places: Seq<u32>,
}

/// Groups in the order in which their numbers came, and these numbers, to be looked up.
#[derive(Drop)]
struct Groups {
    numbers: IndexSet<u64>,
    groups: Vec<Group>,
}

impl Groups {
    /// Adds a place to the group of a number, which begins with it where there is none.
    ///
    /// `NoMemory` where an allocation failed; the numbers may then be more than the groups.
    fn add(&mut self, alloc: Global, number: u64, place: u32) -> Result<(), NoMemory>
        requires { self.old.numbers.keys ≡ map (λ g. g.number) self.old.groups.items }
        ensures numbers { OnOk result
            (self.new.numbers.keys ≡ map (λ g. g.number) self.new.groups.items) }
        ensures groups { OnOk result
            (self.new.groups.items ≡ placed number place self.old.groups.items) }
    {
        let (at, is_new) = self.numbers.insert_full(number)?;
        if is_new {
            let mut places = Seq::new(alloc);
            places.push(place)?;
            self.groups.push(Group { number, places })?;
            return Ok(());
        }
        self.groups[at].places.push(place)?;
        Ok(())
    }
}

/// The places of a block's rows, in groups by the number in a column.
///
/// `NoMemory` where an allocation failed.
pub fn group_places(alloc: Global, column: usize, block: &Block) -> Result<Vec<Group>, NoMemory>
    requires { column < length block.now.types }
    ensures within { IfOk result
        (λ v. All (λ g. All (λ place. place < length block.now.rows) g.places) v.items) }
    ensures few { IfOk result (λ v. All (λ g. length g.places < 2 ^ 32) v.items) }
    ensures rows { (schema : Schema) → schema.partition ≡ Some column → IfOk result
        (λ v. map (group_rows block.now.rows) v.items ≡ split_rows schema block.now.rows) }
{
    let numbers = block.column(column);
    let mut groups = Groups {
        numbers: IndexSet::new(alloc),
        groups: Vec::new(alloc),
    };
    for row in 0..block.len() {
        groups.add(alloc, numbers.at(row).number(), row as u32)?;
    }
    Ok(groups.groups)
}
