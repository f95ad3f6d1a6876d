// The names of a disk in memory, with every change that led to them.
ghost use Rattle.std.specs.Prelude.{◌≡◌, ◌+◌, ◌≤◌, ◌++◌, ◌∷◌, [], Some, IfOk, OnOk, OnErr, IsSome, is_some, map, vec_len, vec_capacity};
ghost use Rattle.std.specs.BTreeMap.{btree_map_len};
ghost use Rattle.mt_outside.specs.Disk.{changed, names_after, files_at};

use crate::folder::MemDir;
use mt_base::{NoMemory, Twin};
use mt_outside::{Change, Files, Stamped};
use mt_values::Name;
use std::alloc::Global;
use std::collections::BTreeMap;

/// The names by their bytes, and the changes in order. Each change takes its memory before it is made.
#[derive(Drop)]
pub struct Root {
    pub names: BTreeMap<Name, MemDir>,
    pub changes: Vec<Stamped<MemDir>>,
    pub clock: u64,
    ghost replayed: { names.entries ≡ names_after [] changes.items },
    // Each name can be removed without memory.
    ghost room: { vec_len changes + btree_map_len names ≤ vec_capacity changes },
}

// The names, in their order.
fn names_in(alloc: Global, names: &BTreeMap<Name, MemDir>) -> Result<Vec<Name>, NoMemory>
    ensures { IfOk result (λ v. v.items ≡ map (λ e. e.0) names.now.entries) }
{
    let mut list = Vec::with_capacity(alloc, names.len())?;
    for name in names.keys() {
        list.push(name.twin(alloc)?)?;
    }
    Ok(list)
}

/// Makes a change.
///
/// `NoMemory` where an allocation failed; the names stay as they were.
pub fn make(
    alloc: Global,
    names: &mut BTreeMap<Name, MemDir>,
    change: &Change<MemDir>,
) -> Result<(), NoMemory>
    ensures ok { OnOk result (names.new.entries ≡ changed names.old.entries change.now) }
    ensures err { OnErr result (names.new.entries ≡ names.old.entries) }
    ensures few { btree_map_len names.new ≤ btree_map_len names.old + 1 }
{
    match change {
        Change::Publish(name, dir) => {
            names.insert(name.twin(alloc)?, dir.hold()?)?;
            Ok(())
        }
        Change::Remove(name) => {
            let _ = names.remove(name);
            Ok(())
        }
    }
}

// The change that gives a folder a name.
fn published(alloc: Global, name: &Name, dir: &MemDir) -> Result<Change<MemDir>, NoMemory>
    ensures { IfOk result (λ change. change ≡ Change.Publish name.now dir.now) }
{
    Ok(Change::Publish(name.twin(alloc)?, dir.hold()?))
}

impl Root {
    /// No name. Takes no memory.
    pub fn new(alloc: Global) -> Root
        ensures changes { result.changes.items ≡ [] }
        ensures clock { result.clock ≡ 0 }
    {
        Root {
            names: BTreeMap::new(alloc),
            changes: Vec::new(alloc),
            clock: 0,
        }
    }

    /// Gives files a name, in place of a folder that had it.
    ///
    /// `NoMemory` where an allocation failed; nothing was changed then.
    #[tactic(auto, using(mt_outside::proofs::Changes::names_after_last))]
    pub fn put(&mut self, alloc: Global, name: &Name, files: Files) -> Result<MemDir, NoMemory>
        ensures dir { IfOk result (λ d. d ≡ files) }
        ensures changes { OnOk result (self.new.changes.items ≡ self.old.changes.items ++ record {
          clock = self.old.clock;
          change = Change.Publish name.now files;
        } ∷ []) }
        ensures err { OnErr result (self.new.changes.items ≡ self.old.changes.items) }
        ensures clock { self.new.clock ≡ self.old.clock }
    {
        let names = self.names.len();
        self.changes.reserve(names + 2)?;
        let dir = MemDir::new(alloc, files)?;
        let change = published(alloc, name, &dir)?;
        make(alloc, &mut self.names, &change)?;
        let clock = self.clock;
        self.changes.push_reserved(Stamped { clock, change });
        Ok(dir)
    }

    /// Takes a name away that is there. Takes no memory.
    #[tactic(auto, using(mt_outside::proofs::Changes::names_after_last, crate::proofs::Names::same_name))]
    pub fn cut(&mut self, name: &Name)
        requires { IsSome (files_at name.now self.old.names.entries) }
        ensures changes { self.new.changes.items ≡ self.old.changes.items ++ record {
          clock =
              self.old.clock;
          change = Change.Remove name.now;
        } ∷ [] }
        ensures clock { self.new.clock ≡ self.old.clock }
    {
        match self.names.remove_entry(name) {
            Some((name, dir)) => {
                drop(dir);
                let clock = self.clock;
                let change = Change::Remove(name);
                self.changes.push_reserved(Stamped { clock, change });
            }
            None => unreachable!(),
        }
    }

    /// Whether a name is there.
    pub fn holds(&self, name: &Name) -> bool
        ensures { result ≡ is_some (files_at name.now self.now.names.entries) }
    {
        self.names.contains_key(name)
    }

    /// The folder of a name that is there.
    pub fn folder(&self, name: &Name) -> Result<MemDir, NoMemory>
        requires { IsSome (files_at name.now self.now.names.entries) }
        ensures { IfOk result (λ d. files_at name.now self.now.names.entries ≡ Some d) }
    {
        match self.names.get(name) {
            Some(dir) => dir.hold(),
            None => unreachable!(),
        }
    }

    /// The names in their order.
    pub fn list(&self, alloc: Global) -> Result<Vec<Name>, NoMemory>
        ensures { IfOk result (λ v. v.items ≡ map (λ e. e.0) self.now.names.entries) }
    {
        names_in(alloc, &self.names)
    }
}
