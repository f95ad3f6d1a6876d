// Annals that keep the accepted commands, and tell all.
ghost use Rattle.std.specs.Prelude.{◌≡◌, [], map, length, None, option_copied};
ghost use Rattle.disk_mem.specs.Annals.{noted_all};

use mt_base::NoMemory;
use mt_values::{Annals, Entry};
use std::alloc::Global;
use std::marker::Model;

/// Keeps and tells all.
#[derive(Drop)]
pub struct KeptAnnals {
    list: Vec<Entry>,
    marks: Vec<u64>,
    begun: Option<Entry>,
}

impl Model for KeptAnnals {
    ghost use Rattle.std.specs.Coded.{codes};
    ghost use Rattle.std.specs.Prelude.{◌≡◌, ◌-◌, min, length, vec_capacity};
    ghost use Rattle.mt_values.specs.PolishCode.{condition_code};
    ghost use Rattle.disk_mem.specs.Annals.{Kept, noted_all};

    ghost Value = { Kept };

    ghost coded = { Prim.hlevel (codes, condition_code) };

    ghost view = { λ a. record { list = noted_all a.list.items a.marks.items; begun = a.begun; room = min (vec_capacity a.list - length a.list.items) (vec_capacity a.marks - length a.marks.items) } };

    ghost invariant = { λ a. length a.list.items ≡ length a.marks.items };
}

impl KeptAnnals {
    /// Annals of no entry. Takes no memory.
    pub fn new(alloc: Global) -> Self
        ensures list { result.list ≡ [] }
        ensures begun { result.begun ≡ None }
    {
        KeptAnnals {
            list: Vec::new(alloc),
            marks: Vec::new(alloc),
            begun: None,
        }
    }

    /// Annals of these entries, each with the mark in the same place. Takes no memory.
    pub fn of(list: Vec<Entry>, marks: Vec<u64>) -> Self
        requires { length list.items ≡ length marks.items }
        ensures list { result.list ≡ noted_all list.items marks.items }
        ensures begun { result.begun ≡ None }
    {
        KeptAnnals {
            list,
            marks,
            begun: None,
        }
    }

    /// The entries, in the order in which they were noted.
    pub fn list(&self) -> &[Entry]
        ensures { result.now ≡ map (λ n. n.entry) self.now.list }
    {
        self.list.as_slice()
    }

    /// The mark of each entry.
    pub fn marks(&self) -> &[u64]
        ensures { result.now ≡ map (λ n. n.mark) self.now.list }
    {
        self.marks.as_slice()
    }

    /// The entry that is begun, if one is.
    pub fn begun(&self) -> Option<&Entry>
        ensures { option_copied result ≡ self.now.begun }
    {
        self.begun.as_ref()
    }
}

impl Annals for KeptAnnals {
    ghost use Rattle.std.specs.Prelude.{◌<◌, Some};

    ghost told = { λ a. Some (record { list = a.list; begun = a.begun }) };

    ghost has_room = { λ a. 0 < a.room };

    fn reserve(&mut self, _alloc: Global) -> Result<(), NoMemory> {
        self.list.reserve(1)?;
        self.marks.reserve(1)?;
        Ok(())
    }

    fn begin(&mut self, entry: Entry) {
        self.begun = Some(entry);
    }

    fn note(&mut self, mark: u64) {
        if let Some(entry) = self.begun.take() {
            self.list.push_reserved(entry);
            self.marks.push_reserved(mark);
        }
    }
}
