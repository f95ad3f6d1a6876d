// Who keeps the accepted commands, and annals that count them alone. The engine writes entries and cannot read them back.
ghost use Rattle.std.specs.Prelude.{◌≡◌, ◌+◌, ◌-◌, ◌^◌, min, Option, OnOk, IsSome, ℕ};
ghost use Rattle.std.specs.Option.{option_map, ForSome};
ghost use Rattle.mt_values.specs.Annals.{Told, began, noted};

use crate::Entry;
use mt_base::NoMemory;
use std::alloc::Global;
use std::marker::Model;

/// A command that was accepted, with the disk's mark when its commit ended.
#[derive(Drop)]
pub struct Noted {
    pub entry: Entry,
    pub mark: u64,
}

/// Annals of the accepted commands.
pub trait Annals: Drop + Send {
    /// The entries with their marks, and the one that is begun, where the annals list.
    ghost told: { Self → Option Told };

    /// One `begin` with one `note` cannot fail.
    ghost has_room: { Self → Type 0 };

    /// Makes room for one `begin` with one `note`.
    ///
    /// `NoMemory` where an allocation failed; what is told stays.
    fn reserve(&mut self, alloc: Global) -> Result<(), NoMemory>
        ensures room { OnOk result (has_room self.new) }
        ensures told { told self.new ≡ told self.old };

    /// Begins an entry, in place of one that is begun, just before its commit's publish. Takes no memory.
    fn begin(&mut self, entry: Entry)
        requires { has_room self.old }
        ensures room { has_room self.new }
        ensures told { told self.new ≡ option_map (began entry) (told self.old) };

    /// Adds the entry that is begun, with the mark at which its commit ended. Takes no memory.
    fn note(&mut self, mark: u64)
        requires room { has_room self.old }
        requires begun { ForSome (told self.old) (λ t. IsSome t.begun) }
        ensures told { told self.new ≡ option_map (noted mark) (told self.old) };
}

/// Counts what is noted, keeps no entry and tells nothing.
#[derive(Drop)]
pub struct CountedAnnals {
    count: u64,
}

impl Model for CountedAnnals {
    ghost use Rattle.std.specs.Prelude.{ℕ};

    ghost Value = { ℕ };

    ghost view = { λ a. a.count };
}

impl CountedAnnals {
    /// Annals that have noted nothing.
    pub fn new() -> Self
        ensures { result ≡ 0 }
    {
        CountedAnnals { count: 0 }
    }

    /// How many entries were noted, as far as 64 bits count.
    pub fn count(&self) -> u64
        ensures { result ≡ self.now }
    {
        self.count
    }
}

impl Annals for CountedAnnals {
    ghost use Rattle.std.specs.Prelude.{None, ℕ};

    ghost told = { λ _. None };

    ghost has_room = { λ _. Unit {0} };

    fn reserve(&mut self, _alloc: Global) -> Result<(), NoMemory>
        ensures { self.new ≡ self.old }
    {
        Ok(())
    }

    fn begin(&mut self, _entry: Entry)
        ensures { self.new ≡ self.old }
    {}

    fn note(&mut self, _mark: u64)
        ensures { self.new ≡ min (self.old + 1) (2 ^ 64 - 1) }
    {
        self.count = self.count.saturating_add(1);
    }
}
