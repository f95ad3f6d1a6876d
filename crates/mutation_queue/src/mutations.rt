// The mutations of all tables.
ghost use Rattle.std.specs.Prelude.{◌≡◌, ◌≢◌, ◌<◌, ◌++◌, ◌∷◌, ◌↔◌, ℕ, List, [], IsOk, IsTrue, OnErr, OnOk};
ghost use Rattle.std.specs.List.{All};
ghost use Rattle.part_set.specs.part_name.Pending.{MayMerge, Rise, pending_for};
ghost use Rattle.mutation_queue.specs.Queue.{HasRoom, IsPut, listed_of, mutations_of};

use crate::numbered::Numbered;
use mt_base::{NoMemory, Twin};
use mt_values::{Mutation, Name};
use part_set::part_name::PartName;
use std::alloc::Global;
use std::collections::BTreeMap;

/// The mutations that were accepted, of each table by rising numbers.
#[derive(Drop)]
pub struct Mutations {
    tables: BTreeMap<Name, Numbered>,
}

impl Mutations {
    /// No mutations. Takes no memory.
    pub fn new(alloc: Global) -> Self
        ensures { (table : List ℕ) → mutations_of result table ≡ [] }
    {
        Mutations {
            tables: BTreeMap::new(alloc),
        }
    }

    /// The mutations of a table, by rising numbers. Takes no memory.
    pub fn all(&self, table: &Name) -> &[Mutation]
        ensures all { result.now ≡ mutations_of self.now table.now }
        ensures rise { Rise (mutations_of self.now table.now) }
    {
        match self.tables.get(table) {
            Some(numbered) => numbered.all(),
            None => &[],
        }
    }

    /// The mutations of a table that are still to be applied to a part: those above its data version. Takes no memory.
    pub fn pending(&self, table: &Name, name: &PartName) -> &[Mutation]
        ensures pending { result.now ≡ pending_for (mutations_of self.now table.now) name.now }
        ensures rise { Rise (mutations_of self.now table.now) }
    {
        match self.tables.get(table) {
            Some(numbered) => numbered.pending(name),
            None => &[],
        }
    }

    /// Whether no mutation of the table keeps two of its parts from being merged: none lies between their data versions.
    /// Takes no memory.
    pub fn may_merge(&self, table: &Name, a: &PartName, b: &PartName) -> bool
        ensures { IsTrue result ↔ MayMerge (mutations_of self.now table.now) a.now b.now }
    {
        match self.tables.get(table) {
            Some(numbered) => numbered.may_merge(a, b),
            None => true,
        }
    }

    /// Makes room, so that accepting one mutation of the table takes no memory.
    ///
    /// `NoMemory` where an allocation failed; the mutations stay.
    pub fn reserve(&mut self, alloc: Global, table: &Name) -> Result<(), NoMemory>
        ensures mutations { (t : List ℕ) → mutations_of self.new t ≡ mutations_of self.old t }
        ensures room { OnOk result (HasRoom self.new table.now) }
        ensures kept { (t : List ℕ) → HasRoom self.old t → HasRoom self.new t }
    {
        if let Some(numbered) = self.tables.get_mut(table) {
            return numbered.reserve();
        }
        let mut numbered = Numbered::new(alloc);
        numbered.reserve()?;
        self.put(alloc, table, numbered)
    }

    /// Adds a mutation to its table's, with a number above all of these. Takes no memory where the table has room.
    ///
    /// `NoMemory` where an allocation failed; all mutations stay as they were.
    pub fn accept(
        &mut self,
        alloc: Global,
        table: &Name,
        mutation: Mutation,
    ) -> Result<(), NoMemory>
        requires { All (λ m. m.number < mutation.number) (mutations_of self.old table.now) }
        ensures ok { OnOk result
            (mutations_of self.new table.now ≡ mutations_of self.old table.now ++ mutation ∷ []) }
        ensures others { (t : List ℕ) → t ≢ table.now
            → mutations_of self.new t ≡ mutations_of self.old t }
        ensures err { OnErr result
            ((t : List ℕ) → mutations_of self.new t ≡ mutations_of self.old t) }
        ensures room { HasRoom self.old table.now → IsOk result }
        ensures rooms { (t : List ℕ) → t ≢ table.now → HasRoom self.old t → HasRoom self.new t }
    {
        if let Some(numbered) = self.tables.get_mut(table) {
            return numbered.accept(mutation);
        }
        let mut numbered = Numbered::new(alloc);
        numbered.accept(mutation)?;
        self.put(alloc, table, numbered)
    }

    // The table gets these in place of its own.
    fn put(&mut self, alloc: Global, table: &Name, numbered: Numbered) -> Result<(), NoMemory>
        ensures ok { OnOk result (IsPut self.old.tables self.new.tables table.now numbered) }
        ensures err { OnErr result
            ((t : List ℕ) → listed_of self.new.tables t ≡ listed_of self.old.tables t) }
    {
        self.tables.insert(table.twin(alloc)?, numbered)?;
        Ok(())
    }
}
