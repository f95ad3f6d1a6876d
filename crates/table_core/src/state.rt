// The state of the core, as contracts see it.
ghost use Rattle.std.specs.Prelude.{◌≡◌, IfOk, OnErr, option_copied};
ghost use Rattle.part_history.specs.mt_model.History.{schema_of};
ghost use Rattle.part_history.specs.mt_model.Numbers.{mutations_in};
ghost use Rattle.part_history.specs.Parts.{core_parts_of};
ghost use Rattle.part_history.specs.part_name.Pending.{Rise};
ghost use Rattle.table_core.specs.Core.{IsCore, empty_core};
ghost use Rattle.table_core.specs.Runs.{ReadsLeft};
ghost use Rattle.table_core.specs.Steps.{GivesOutcome, MayCome};

use crate::steps::happen;
use crate::store::Store;
use crate::{CorePart, Event, Outcome};
use mt_base::NoMemory;
use mt_values::{Entry, Mutation, Name, Schema};
use std::alloc::Global;
use std::marker::Model;

/// The state: contracts see the parts of all tables, the accepted commands, and the snapshots.
#[derive(Drop)]
pub struct CoreState {
    store: Store,
}

impl Model for CoreState {
    ghost use Rattle.std.specs.Coded.{codes};
    ghost use Rattle.mt_values.specs.PolishCode.{condition_code};
    ghost use Rattle.table_core.specs.Core.{Core};
    ghost use Rattle.table_core.specs.Store.{IsStore, core_of};

    ghost Value = { Core };

    ghost coded = { Prim.hlevel (codes, condition_code) };

    ghost view = { λ state. core_of state.store };

    ghost invariant = { λ state. IsStore state.store };
}

impl CoreState {
    /// The state before any event. Takes no memory.
    pub fn new(alloc: Global) -> Self
        ensures empty { result ≡ empty_core }
        ensures core { IsCore result }
    {
        CoreState {
            store: Store::new(alloc),
        }
    }

    /// The schema of a table, where there is the table. The rows of an INSERT that may come are of it.
    pub fn schema(&self, table: &Name) -> Option<&Schema>
        ensures { option_copied result ≡ schema_of table.now self.now.history }
    {
        self.store.schema(table)
    }

    /// The visible parts of a table, in block order; none where there is no such table.
    pub fn parts(&self, table: &Name) -> &[CorePart]
        ensures { result.now ≡ core_parts_of table.now self.now.parts }
    {
        self.store.parts(table)
    }

    /// The mutations of a table that were accepted, by rising numbers.
    pub fn mutations(&self, table: &Name) -> &[Mutation]
        ensures mutations { result.now ≡ mutations_in table.now self.now.history }
        ensures rise { Rise result.now }
    {
        self.store.mutations.all(table)
    }

    /// The accepted commands, in order.
    pub fn history(&self) -> &[Entry]
        ensures { result.now ≡ self.now.history }
    {
        self.store.entries.as_slice()
    }
}

/// Lets one event happen, and gives its outcome.
///
/// `NoMemory` where an allocation failed; the state stays as it was.
pub fn step(alloc: Global, state: &mut CoreState, event: Event) -> Result<Outcome, NoMemory>
    requires { MayCome state.old event }
    ensures gives { IfOk result (λ given. GivesOutcome state.old event given state.new) }
    ensures err { OnErr result (state.new ≡ state.old) }
    ensures core { IsCore state.new }
    ensures read { IfOk result (λ given. ReadsLeft state.new event given) }
{
    happen(alloc, &mut state.store, event)
}
