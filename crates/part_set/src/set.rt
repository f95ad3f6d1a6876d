// The parts of all tables.
ghost use Rattle.std.specs.Prelude.{◌≡◌, ◌≢◌, ◌↔◌, ◌<◌, ℕ, List, [], false, IfErr, IfOk, IsOk, OnOk, OnErr, IsTrue, length, map, option_copied};
ghost use Rattle.std.specs.BTreeMap.{IsOrdered};
ghost use Rattle.std.specs.Cmp.Lexicographic.{slice_cmp};
ghost use Rattle.std.specs.List.{All};
ghost use Rattle.std.specs.Ordering.{nat_cmp};
ghost use Rattle.mt_base.specs.declared.partition.Partition.{Partition as Part};
ghost use Rattle.part_set.specs.Parts.{AreNeighbours, HasName, IsAdded, IsInBlockOrder, NoneMeets, kept_in};
ghost use Rattle.part_set.specs.Runs.{EndsInOrder, IsBusyRun, IsMarked, IsMissing, IsRun, IsSwapped, Spans, cleared, names_of_parts, parts_of_run, with_mark};
ghost use Rattle.part_set.specs.Sets.{HasRoom, IsPut, parts_of, shelves_of};

use crate::found::find_run;
use crate::tables::TableParts;
use crate::{Kept, Run, Snap};
use mt_base::{NoMemory, Partition, Twin};
use mt_values::{Name, Schema};
use part_name::PartName;
use std::alloc::Global;
use std::collections::BTreeMap;
use std::collections::btree_map::Iter;

/// The parts that are kept of all tables, each table's in block order, of which no two meet.
#[derive(Drop)]
pub struct PartSet<P> {
    tables: BTreeMap<Name, TableParts<P>>,
}

impl<P> PartSet<P> {
    /// No parts. Takes no memory.
    pub fn new(alloc: Global) -> Self
        ensures { (table : List ℕ) → parts_of result table ≡ [] }
    {
        PartSet {
            tables: BTreeMap::new(alloc),
        }
    }

    /// The tables that have parts, or room for one, in byte order of their names.
    pub fn tables(&self) -> Iter<'_, Name, TableParts<P>>
        ensures tables { result ≡ self.now.tables.entries }
        ensures ordered { IsOrdered (slice_cmp nat_cmp) self.now.tables }
    {
        self.tables.iter()
    }

    /// What is kept for a table; none where it has neither parts nor room for one.
    pub fn table(&self, table: &Name) -> Option<&TableParts<P>>
        ensures { option_copied result ≡ shelves_of self.now.tables table.now }
    {
        self.tables.get(table)
    }

    /// The parts of a partition of a table, in block order; none where it has none.
    pub fn parts_in(&self, table: &Name, partition: Partition) -> &[Kept<P>]
        ensures parts { result.now ≡ kept_in partition (parts_of self.now table.now) }
        ensures ordered { IsInBlockOrder result.now }
    {
        match self.tables.get(table) {
            Some(parts) => parts.parts_in(partition),
            None => &[],
        }
    }

    /// Whether the table has a part of this name.
    pub fn has(&self, table: &Name, name: &PartName) -> bool
        ensures { IsTrue result ↔ HasName (parts_of self.now table.now) name.now }
    {
        match self.tables.get(table) {
            Some(parts) => parts.has(name),
            None => false,
        }
    }

    /// Whether these are two different parts of one partition, and no kept part of the table lies between their blocks.
    pub fn neighbours(&self, table: &Name, a: &PartName, b: &PartName) -> bool
        ensures { IsTrue result ↔ AreNeighbours (parts_of self.now table.now) a.now b.now }
    {
        match self.tables.get(table) {
            Some(parts) => parts.neighbours(a, b),
            None => a != b && a.partition == b.partition,
        }
    }

    /// The run of a table's partition that has the names of these parts, in their order, and each of whose parts bears
    /// the mark; else the first of these names that does not follow there with its mark. Takes no memory.
    pub fn find_run(
        &self,
        table: &Name,
        partition: Partition,
        sources: &[Kept<P>],
    ) -> Result<Run, PartName>
        requires some { 0 < length sources.now }
        ensures found { IfOk result (λ run. IsBusyRun run (names_of_parts sources.now)
            (kept_in partition (parts_of self.now table.now))) }
        ensures missing { IfErr result (IsMissing (names_of_parts sources.now)
            (kept_in partition (parts_of self.now table.now))) }
    {
        find_run(self.parts_in(table, partition), sources)
    }

    /// The parts of a run of a table's partition bear the mark, or bear it no more. Takes no memory.
    pub fn set_busy(&mut self, table: &Name, partition: Partition, run: Run, busy: bool)
        requires { IsRun run (kept_in partition (parts_of self.old table.now)) }
        ensures marked { IsMarked partition run busy (parts_of self.old table.now)
            (parts_of self.new table.now) }
        ensures ordered { IsInBlockOrder (parts_of self.new table.now) }
        ensures others { (t : List ℕ) → t ≢ table.now → parts_of self.new t ≡ parts_of self.old t }
        ensures rooms { (t : List ℕ) (p : Part) → HasRoom self.old t p → HasRoom self.new t p }
    {
        let Some(parts) = self.tables.get_mut(table) else {
            unreachable!()
        };
        parts.set_busy(partition, run, busy);
    }

    /// The parts of a table that have the names of these bear no mark any more, wherever they stand. Takes no memory.
    pub fn clear_marks(&mut self, table: &Name, sources: &[Kept<P>])
        ensures cleared { parts_of self.new table.now
            ≡ map (cleared (names_of_parts sources.now)) (parts_of self.old table.now) }
        ensures others { (t : List ℕ) → t ≢ table.now → parts_of self.new t ≡ parts_of self.old t }
        ensures rooms { (t : List ℕ) (p : Part) → HasRoom self.old t p → HasRoom self.new t p }
    {
        let Some(parts) = self.tables.get_mut(table) else {
            return;
        };
        parts.clear_marks(sources);
    }
}

impl<P: Drop> PartSet<P> {
    /// No part of any table bears a mark any more. Takes no memory.
    pub fn clear_all_marks(&mut self)
        ensures cleared { (t : List ℕ) → parts_of self.new t
            ≡ map (with_mark false) (parts_of self.old t) }
        ensures rooms { (t : List ℕ) (p : Part) → HasRoom self.old t p → HasRoom self.new t p }
    {
        self.tables.retain(|_, parts| {
            parts.clear_all();
            true
        });
    }

    /// Makes room, so that adding one part of this partition to the table takes no memory.
    ///
    /// `NoMemory` where an allocation failed; the parts stay.
    pub fn reserve(
        &mut self,
        alloc: Global,
        table: &Name,
        partition: Partition,
    ) -> Result<(), NoMemory>
        ensures parts { (t : List ℕ) → parts_of self.new t ≡ parts_of self.old t }
        ensures room { OnOk result (HasRoom self.new table.now partition) }
        ensures kept { (t : List ℕ) (p : Part) → HasRoom self.old t p → HasRoom self.new t p }
    {
        if let Some(parts) = self.tables.get_mut(table) {
            return parts.reserve(alloc, partition);
        }
        let mut parts = TableParts::new(alloc);
        parts.reserve(alloc, partition)?;
        self.put(alloc, table, parts)
    }

    /// Adds a part to a table, at its place. Takes no memory where its partition has room.
    ///
    /// `NoMemory` where an allocation failed; all parts stay as they were.
    pub fn add(
        &mut self,
        alloc: Global,
        table: &Name,
        name: PartName,
        part: P,
    ) -> Result<(), NoMemory>
        requires { NoneMeets (parts_of self.old table.now) name }
        ensures ok { OnOk result (IsAdded (parts_of self.old table.now)
            (record { name = name; part = part; busy = false }) (parts_of self.new table.now)) }
        ensures ordered { OnOk result (IsInBlockOrder (parts_of self.new table.now)) }
        ensures others { (t : List ℕ) → t ≢ table.now → parts_of self.new t ≡ parts_of self.old t }
        ensures err { OnErr result ((t : List ℕ) → parts_of self.new t ≡ parts_of self.old t) }
        ensures room { HasRoom self.old table.now name.partition → IsOk result }
        ensures rooms { (t : List ℕ) (p : Part) → t ≢ table.now → HasRoom self.old t p
            → HasRoom self.new t p }
    {
        if let Some(parts) = self.tables.get_mut(table) {
            return parts.add(alloc, name, part);
        }
        let mut parts = TableParts::new(alloc);
        parts.add(alloc, name, part)?;
        self.put(alloc, table, parts)
    }

    /// A part stands in place of those of a run of a table's partition, whose blocks it has, and bears no mark. Takes no
    /// memory.
    pub fn swap(&mut self, table: &Name, partition: Partition, run: Run, name: PartName, part: P)
        requires run { IsRun run (kept_in partition (parts_of self.old table.now)) }
        requires spans { Spans name
            (parts_of_run run (kept_in partition (parts_of self.old table.now))) }
        requires named { All EndsInOrder (parts_of self.old table.now) }
        ensures swapped { IsSwapped partition run
            (record { name = name; part = part; busy = false })
            (parts_of self.old table.now) (parts_of self.new table.now) }
        ensures ordered { IsInBlockOrder (parts_of self.new table.now) }
        ensures others { (t : List ℕ) → t ≢ table.now → parts_of self.new t ≡ parts_of self.old t }
        ensures rooms { (t : List ℕ) (p : Part) → HasRoom self.old t p → HasRoom self.new t p }
    {
        let Some(parts) = self.tables.get_mut(table) else {
            unreachable!()
        };
        parts.swap(partition, run, name, part);
    }

    /// The table gets these parts in place of its own.
    ///
    /// `NoMemory` where there was none; all parts stay as they were.
    pub(crate) fn put(
        &mut self,
        alloc: Global,
        table: &Name,
        parts: TableParts<P>,
    ) -> Result<(), NoMemory>
        ensures ok { OnOk result (IsPut self.old.tables self.new.tables table.now parts) }
        ensures err { OnErr result
            ((t : List ℕ) → shelves_of self.new.tables t ≡ shelves_of self.old.tables t) }
    {
        self.tables.insert(table.twin(alloc)?, parts)?;
        Ok(())
    }

    /// A copy of what is kept of a table, as it is now, with the table's schema and the length of the history.
    ///
    /// `NoMemory` where the copy found no room.
    pub fn pin(
        &mut self,
        alloc: Global,
        table: &Name,
        schema: &Schema,
        length: u64,
    ) -> Result<Snap<P>, NoMemory>
    where
        P: Twin,
        ensures snap { IfOk result (λ s. (s.schema ≡ schema.now)
            × (s.parts.items ≡ parts_of self.old table.now) × (s.length ≡ length)) }
        ensures ordered { IfOk result (λ s. IsInBlockOrder s.parts.items) }
        ensures stays { self.new ≡ self.old }
    {
        let schema = schema.twin(alloc)?;
        let parts = match self.tables.get(table) {
            Some(parts) => parts.twins(alloc)?,
            None => Vec::new(alloc),
        };
        Ok(Snap {
            schema,
            parts,
            length,
        })
    }

    /// Lets a pinned table go.
    pub fn unpin(&mut self, snap: Snap<P>)
        ensures { self.new ≡ self.old }
    {
        let Snap {
            schema: _,
            parts: _,
            length: _,
        } = snap;
    }
}
