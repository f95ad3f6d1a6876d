// The parts of one table, partition by partition.
//
// A map has them by the place of their partition among all: so one part more costs no more than the search for its
// partition, and moves parts of its own partition alone. Contracts see one list in block order (`all_parts`).
ghost use Rattle.std.specs.Prelude.{◌≡◌, ◌<◌, ◌↔◌, ◌++◌, ◌∷◌, [], false, map, IfOk, IsOk, OnOk, OnErr, IsTrue};
ghost use Rattle.std.specs.List.{All};
ghost use Rattle.mt_base.specs.declared.partition.Partition.{Partition as Part};
ghost use Rattle.part_set.specs.Parts.{AreNeighbours, HasName, IsAdded, IsInBlockOrder, NoneMeets, kept_in};
ghost use Rattle.part_set.specs.Runs.{EndsInOrder, IsMarked, IsRun, IsSwapped, Spans, cleared, names_of_parts, parts_of_run};
ghost use Rattle.part_set.specs.Shelf.{AreFiled, all_parts, freed_shelves, room_of, shelf_at};

use crate::order::partition_rank;
use crate::shelf::{PartitionParts, are_neighbours, has_name};
use crate::{Kept, Run};
use mt_base::{NoMemory, Partition, Twin};
use part_name::PartName;
use std::alloc::Global;
use std::collections::BTreeMap;
use std::collections::btree_map::Iter;
use std::marker::Model;

/// The parts of one table, in block order, of which no two meet.
#[derive(Drop)]
pub struct TableParts<P> {
    // By the place of the partition among all. A partition may have room and no parts.
    partitions: BTreeMap<u128, PartitionParts<P>>,
}

impl<P> Model for TableParts<P> {
    ghost use Rattle.std.specs.Prelude.{ℕ, List};
    ghost use Rattle.part_set.specs.Shelf.{AreFiled, Shelf};

    ghost Value = { List (ℕ × Shelf P) };

    ghost view = { λ t. t.partitions.entries };

    ghost invariant = { λ t. AreFiled t.partitions.entries };
}

impl<P> TableParts<P> {
    /// No parts. Takes no memory.
    pub(crate) fn new(alloc: Global) -> Self
        ensures { result ≡ [] }
    {
        TableParts {
            partitions: BTreeMap::new(alloc),
        }
    }

    /// The parts of a partition, in block order; none where it has none.
    pub fn parts_in(&self, partition: Partition) -> &[Kept<P>]
        ensures parts { result.now ≡ kept_in partition (all_parts self.now) }
        ensures ordered { IsInBlockOrder result.now }
    {
        match self.partitions.get(&partition_rank(partition)) {
            Some(parts) => parts.as_slice(),
            None => &[],
        }
    }

    /// The partitions that have parts, or room for one, each by its place among all, in ascending order.
    pub fn shelves(&self) -> Iter<'_, u128, PartitionParts<P>>
        ensures shelves { result ≡ self.now }
        ensures filed { AreFiled self.now }
    {
        self.partitions.iter()
    }

    /// Whether one of them has this name.
    pub fn has(&self, name: &PartName) -> bool
        ensures { IsTrue result ↔ HasName (all_parts self.now) name.now }
    {
        has_name(self.parts_in(name.partition), name)
    }

    /// Whether these are two different parts of one partition, and none of the kept ones lies between their blocks.
    pub fn neighbours(&self, a: &PartName, b: &PartName) -> bool
        ensures { IsTrue result ↔ AreNeighbours (all_parts self.now) a.now b.now }
    {
        are_neighbours(self.parts_in(a.partition), a, b)
    }

    /// The parts of a run of the partition bear the mark, or bear it no more. Takes no memory.
    pub(crate) fn set_busy(&mut self, partition: Partition, run: Run, busy: bool)
        requires { IsRun run (kept_in partition (all_parts self.old)) }
        ensures marked { IsMarked partition run busy (all_parts self.old) (all_parts self.new) }
        ensures ordered { IsInBlockOrder (all_parts self.new) }
        ensures rooms { (p : Part) → 0 < room_of (shelf_at p self.old)
            → 0 < room_of (shelf_at p self.new) }
    {
        let place = partition_rank(partition);
        let Some(parts) = self.partitions.get_mut(&place) else {
            unreachable!()
        };
        parts.set_busy(run, busy);
    }

    // The parts of this name bear no mark any more.
    fn clear_mark(&mut self, name: &PartName)
        ensures cleared { all_parts self.new
            ≡ map (cleared (name.now ∷ [])) (all_parts self.old) }
        ensures rooms { (p : Part) → 0 < room_of (shelf_at p self.old)
            → 0 < room_of (shelf_at p self.new) }
    {
        let place = partition_rank(name.partition);
        let Some(parts) = self.partitions.get_mut(&place) else {
            return;
        };
        parts.clear_mark(name);
    }

    /// The parts that have the names of these bear no mark any more. Takes no memory.
    pub(crate) fn clear_marks(&mut self, sources: &[Kept<P>])
        ensures cleared { all_parts self.new
            ≡ map (cleared (names_of_parts sources.now)) (all_parts self.old) }
        ensures rooms { (p : Part) → 0 < room_of (shelf_at p self.old)
            → 0 < room_of (shelf_at p self.new) }
    {
        for source in sources {
            self.clear_mark(&source.name);
        }
    }
}

impl<P: Drop> TableParts<P> {
    /// No part bears a mark any more. Takes no memory.
    pub(crate) fn clear_all(&mut self)
        ensures { self.new ≡ freed_shelves self.old }
    {
        self.partitions.retain(|_, parts| {
            parts.clear_all();
            true
        });
    }

    /// Makes room for one more part of a partition.
    ///
    /// `NoMemory` where an allocation failed; the parts stay.
    pub(crate) fn reserve(&mut self, alloc: Global, partition: Partition) -> Result<(), NoMemory>
        ensures parts { all_parts self.new ≡ all_parts self.old }
        ensures room { OnOk result (0 < room_of (shelf_at partition self.new)) }
        ensures kept { (p : Part) → 0 < room_of (shelf_at p self.old)
            → 0 < room_of (shelf_at p self.new) }
    {
        let place = partition_rank(partition);
        if let Some(parts) = self.partitions.get_mut(&place) {
            return parts.reserve();
        }
        let mut parts = PartitionParts::new(alloc);
        parts.reserve()?;
        self.partitions.insert(place, parts)?;
        Ok(())
    }

    /// Adds a part at its place. Takes no memory where its partition has room.
    ///
    /// `NoMemory` where an allocation failed; the parts stay.
    pub(crate) fn add(&mut self, alloc: Global, name: PartName, part: P) -> Result<(), NoMemory>
        requires { NoneMeets (all_parts self.old) name }
        ensures ok { OnOk result (IsAdded (all_parts self.old)
            (record { name = name; part = part; busy = false }) (all_parts self.new)) }
        ensures ordered { OnOk result (IsInBlockOrder (all_parts self.new)) }
        ensures err { OnErr result (all_parts self.new ≡ all_parts self.old) }
        ensures room { 0 < room_of (shelf_at name.partition self.old) → IsOk result }
    {
        let place = partition_rank(name.partition);
        if let Some(parts) = self.partitions.get_mut(&place) {
            return parts.add(name, part);
        }
        let mut parts = PartitionParts::new(alloc);
        parts.add(name, part)?;
        self.partitions.insert(place, parts)?;
        Ok(())
    }

    /// The part stands in place of those of a run of the partition. Takes no memory.
    pub(crate) fn swap(&mut self, partition: Partition, run: Run, name: PartName, part: P)
        requires run { IsRun run (kept_in partition (all_parts self.old)) }
        requires spans { Spans name (parts_of_run run (kept_in partition (all_parts self.old))) }
        requires named { All EndsInOrder (all_parts self.old) }
        ensures swapped { IsSwapped partition run
            (record { name = name; part = part; busy = false })
            (all_parts self.old) (all_parts self.new) }
        ensures ordered { IsInBlockOrder (all_parts self.new) }
        ensures rooms { (p : Part) → 0 < room_of (shelf_at p self.old)
            → 0 < room_of (shelf_at p self.new) }
    {
        let place = partition_rank(partition);
        let Some(parts) = self.partitions.get_mut(&place) else {
            unreachable!()
        };
        parts.swap(run, name, part);
    }
}

impl<P: Twin> TableParts<P> {
    /// Equal copies of all parts, in block order.
    ///
    /// `NoMemory` where an allocation failed.
    pub(crate) fn twins(&self, alloc: Global) -> Result<Vec<Kept<P>>, NoMemory>
        ensures parts { IfOk result (λ v. v.items ≡ all_parts self.now) }
        ensures ordered { IfOk result (λ v. IsInBlockOrder v.items) }
    {
        let mut copies = Vec::new(alloc);
        for parts in self.partitions.values() {
            copy_to(alloc, &mut copies, parts.as_slice())?;
        }
        Ok(copies)
    }
}

// Equal copies of parts come to others, after them.
fn copy_to<P: Twin>(
    alloc: Global,
    copies: &mut Vec<Kept<P>>,
    parts: &[Kept<P>],
) -> Result<(), NoMemory>
    ensures { OnOk result (copies.new.items ≡ copies.old.items ++ parts.now) }
{
    for kept in parts {
        copies.push(kept.twin(alloc)?)?;
    }
    Ok(())
}
