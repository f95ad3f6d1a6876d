// The parts of one partition of a table.
ghost use Rattle.std.specs.Prelude.{◌≡◌, ◌+◌, ◌<◌, ◌≤◌, ◌↔◌, ◌++◌, ◌∷◌, [], false, take, drop, map, length, vec_capacity, IfOk, IsOk, OnOk, OnErr, IsTrue};
ghost use Rattle.std.specs.List.{All, AllWithin};
ghost use Rattle.part_set.specs.Parts.{AreNeighbours, HasName, IsAdded, IsInBlockOrder, NoneMeets, in_order};
ghost use Rattle.part_set.specs.Runs.{EndsInOrder, IsRun, Spans, cleared, parts_of_run, with_mark};
ghost use Rattle.part_set.specs.Shelf.{freed_shelf};

use crate::order::{in_order, lies_between};
use crate::{Kept, Run};
use mt_base::NoMemory;
use part_name::PartName;
use std::alloc::Global;
use std::marker::Model;

/// The parts of one partition of a table, in block order, of which no two meet.
#[derive(Drop)]
pub struct PartitionParts<P> {
    parts: Vec<Kept<P>>,
}

impl<P> Model for PartitionParts<P> {
    ghost use Rattle.std.specs.Prelude.{◌-◌, length, vec_capacity};
    ghost use Rattle.part_set.specs.Parts.{IsInBlockOrder};
    ghost use Rattle.part_set.specs.Shelf.{Shelf};

    ghost Value = { Shelf P };

    ghost view = { λ t. record { parts = t.parts.items; room = vec_capacity t.parts - length t.parts.items } };

    ghost invariant = { λ t. IsInBlockOrder t.parts.items };
}

// The place of a part among others: after all that it does not stand before.
fn place_of<P>(parts: &[Kept<P>], name: &PartName) -> usize
    requires { IsInBlockOrder parts.now }
    ensures within { result ≤ length parts.now }
    ensures front { AllWithin (λ kept. IsTrue (in_order kept.name name.now)) parts.now 0 result }
    ensures back { AllWithin (λ kept. in_order kept.name name.now ≡ false) parts.now result
        (length parts.now) }
{
    parts.partition_point(|kept| in_order(&kept.name, name))
}

// The place of the first part that does not begin before where the name begins.
fn start_of<P>(parts: &[Kept<P>], name: &PartName) -> usize
    requires { IsInBlockOrder parts.now }
    ensures within { result ≤ length parts.now }
    ensures front { AllWithin (λ kept. in_order name.now kept.name ≡ false) parts.now 0 result }
{
    parts.partition_point(|kept| !in_order(name, &kept.name))
}

/// Whether one of the parts has this name: only those that begin where it begins are looked at.
pub fn has_name<P>(parts: &[Kept<P>], name: &PartName) -> bool
    requires { IsInBlockOrder parts.now }
    ensures { IsTrue result ↔ HasName parts.now name.now }
{
    let start = start_of(parts, name);
    for kept in &parts[start..] {
        if kept.name == *name {
            return true;
        }
        if !in_order(&kept.name, name) {
            return false;
        }
    }
    false
}

impl<P> PartitionParts<P> {
    /// No parts. Takes no memory.
    pub(crate) fn new(alloc: Global) -> Self
        ensures { result.parts ≡ [] }
    {
        PartitionParts {
            parts: Vec::new(alloc),
        }
    }

    /// The parts, in block order.
    pub fn as_slice(&self) -> &[Kept<P>]
        ensures parts { result.now ≡ self.now.parts }
        ensures ordered { IsInBlockOrder self.now.parts }
    {
        self.parts.as_slice()
    }

    /// The parts of the run bear the mark, or bear it no more. Takes no memory.
    pub(crate) fn set_busy(&mut self, run: Run, busy: bool)
        requires { IsRun run self.old.parts }
        ensures parts { self.new.parts ≡ take run.first self.old.parts
            ++ (map (with_mark busy) (parts_of_run run self.old.parts)
            ++ drop (run.first + run.count) self.old.parts) }
        ensures ordered { IsInBlockOrder self.new.parts }
        ensures room { self.new.room ≡ self.old.room }
    {
        mark_run(&mut self.parts, run, busy);
    }

    /// The parts of this name bear no mark any more. Takes no memory.
    pub(crate) fn clear_mark(&mut self, name: &PartName)
        ensures parts { self.new.parts ≡ map (cleared (name.now ∷ [])) self.old.parts }
        ensures room { self.new.room ≡ self.old.room }
    {
        clear_named(&mut self.parts, name);
    }

    /// No part bears a mark any more. Takes no memory.
    pub(crate) fn clear_all(&mut self)
        ensures { self.new ≡ freed_shelf self.old }
    {
        mark_all(&mut self.parts, false);
    }

    /// Makes room for one more part.
    ///
    /// `NoMemory` where there was none; the parts stay.
    pub(crate) fn reserve(&mut self) -> Result<(), NoMemory>
        ensures parts { self.new.parts ≡ self.old.parts }
        ensures room { OnOk result (0 < self.new.room) }
        ensures kept { 0 < self.old.room → 0 < self.new.room }
    {
        self.parts.reserve(1)?;
        Ok(())
    }
}

/// Whether these are two different parts of one partition, and none of the kept ones lies between their blocks.
pub fn are_neighbours<P>(parts: &[Kept<P>], a: &PartName, b: &PartName) -> bool
    ensures { IsTrue result ↔ AreNeighbours parts.now a.now b.now }
{
    if a == b || a.partition != b.partition {
        return false;
    }
    for kept in parts {
        if lies_between(a, &kept.name, b) || lies_between(b, &kept.name, a) {
            return false;
        }
    }
    true
}

// One part comes in place of those of the run; it takes no memory.
fn replace_run<P: Drop>(parts: &mut Vec<Kept<P>>, run: Run, kept: Kept<P>)
    requires { IsRun run parts.old.items }
    ensures items { parts.new.items ≡ take run.first parts.old.items
        ++ kept ∷ drop (run.first + run.count) parts.old.items }
    ensures capacity { vec_capacity parts.new ≡ vec_capacity parts.old }
{
    let next = run.first + 1;
    let end = run.first + run.count;
    parts[run.first] = kept;
    drop(parts.drain(next..end));
}

// Each of the parts bears the mark, or bears it no more.
fn mark<P>(parts: &mut [Kept<P>], busy: bool)
    ensures { parts.new ≡ map (with_mark busy) parts.old }
{
    for kept in parts.iter_mut() {
        kept.busy = busy;
    }
}

// Each of the parts of a run bears the mark, or bears it no more.
fn mark_run<P>(parts: &mut Vec<Kept<P>>, run: Run, busy: bool)
    requires { IsRun run parts.old.items }
    ensures items { parts.new.items ≡ take run.first parts.old.items
        ++ (map (with_mark busy) (parts_of_run run parts.old.items)
        ++ drop (run.first + run.count) parts.old.items) }
    ensures capacity { vec_capacity parts.new ≡ vec_capacity parts.old }
{
    let end = run.first + run.count;
    mark(parts.slice_mut(run.first..end), busy);
}

// Each of all parts bears the mark, or bears it no more.
fn mark_all<P>(parts: &mut Vec<Kept<P>>, busy: bool)
    ensures items { parts.new.items ≡ map (with_mark busy) parts.old.items }
    ensures capacity { vec_capacity parts.new ≡ vec_capacity parts.old }
{
    let count = parts.len();
    if count == 0 {
        return;
    }
    mark_run(parts, Run { first: 0, count }, busy);
}

// Each of the parts that has this name bears no mark any more.
fn clear<P>(parts: &mut [Kept<P>], name: &PartName)
    ensures { parts.new ≡ map (cleared (name.now ∷ [])) parts.old }
{
    for kept in parts.iter_mut() {
        let other = kept.name != *name;
        kept.busy = kept.busy & other;
    }
}

// The same in block order: only those that begin where the name begins are looked at.
fn clear_named<P>(parts: &mut Vec<Kept<P>>, name: &PartName)
    requires { IsInBlockOrder parts.old.items }
    ensures items { parts.new.items ≡ map (cleared (name.now ∷ [])) parts.old.items }
    ensures capacity { vec_capacity parts.new ≡ vec_capacity parts.old }
{
    let start = start_of(parts.as_slice(), name);
    let end = place_of(parts.as_slice(), name);
    clear(parts.slice_mut(start..end), name);
}

impl<P: Drop> PartitionParts<P> {
    /// Adds a part at its place. Takes no memory where there is room.
    ///
    /// `NoMemory` where the allocation failed; the parts stay.
    pub(crate) fn add(&mut self, name: PartName, part: P) -> Result<(), NoMemory>
        requires { NoneMeets self.old.parts name }
        ensures ok { OnOk result (IsAdded self.old.parts
            (record { name = name; part = part; busy = false }) self.new.parts) }
        ensures ordered { OnOk result (IsInBlockOrder self.new.parts) }
        ensures err { OnErr result (self.new.parts ≡ self.old.parts) }
        ensures room { 0 < self.old.room → IsOk result }
    {
        let place = place_of(self.parts.as_slice(), &name);
        let busy = false;
        self.parts.insert(place, Kept { name, part, busy })?;
        Ok(())
    }

    /// The part stands in place of those of the run. Takes no memory.
    pub(crate) fn swap(&mut self, run: Run, name: PartName, part: P)
        requires run { IsRun run self.old.parts }
        requires spans { Spans name (parts_of_run run self.old.parts) }
        requires named { All EndsInOrder self.old.parts }
        ensures parts { self.new.parts ≡ take run.first self.old.parts
            ++ record { name = name; part = part; busy = false }
            ∷ drop (run.first + run.count) self.old.parts }
        ensures ordered { IsInBlockOrder self.new.parts }
        ensures room { self.old.room ≤ self.new.room }
    {
        let busy = false;
        replace_run(&mut self.parts, run, Kept { name, part, busy });
    }
}
