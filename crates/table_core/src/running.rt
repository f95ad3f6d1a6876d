// Runs of events.
ghost use Rattle.std.specs.Prelude.{◌≡◌, IfOk};
ghost use Rattle.table_core.specs.Core.{IsCore, empty_core};
ghost use Rattle.table_core.specs.Runs.{HasEntries, KeepsAccepted, KeepsHistory, KnowsSnapshots, MayRun, Runs, TellsLeft, TellsSnapshots};

use crate::{CoreState, Event, Outcome, step};
use mt_base::NoMemory;
use std::alloc::Global;

/// What a run of events gave, and the state that it left.
#[derive(Drop)]
pub struct Done {
    /// What each event gave, in order.
    pub outcomes: Vec<Outcome>,
    pub state: CoreState,
}

/// Lets events happen one after another, from the state before any event on.
///
/// `NoMemory` where an allocation failed.
pub fn run(alloc: Global, events: Vec<Event>) -> Result<Done, NoMemory>
    requires { MayRun empty_core events.items }
    ensures run { IfOk result
        (λ done. Runs empty_core events.items done.outcomes.items done.state) }
    ensures core { IfOk result (λ done. IsCore done.state) }
    ensures read { IfOk result
        (λ done. TellsLeft empty_core events.items done.outcomes.items done.state) }

    // What snapshots and histories are.
    ensures taken { IfOk result (λ done. TellsSnapshots empty_core events.items done.outcomes.items
        done.state) }
    ensures known { IfOk result (λ done. KnowsSnapshots empty_core events.items done.outcomes.items
        done.state) }
    ensures history { IfOk result (λ done. KeepsHistory empty_core events.items done.outcomes.items
        done.state) }
    ensures accepted { IfOk result
        (λ done. KeepsAccepted events.items done.outcomes.items done.state) }
    ensures entries { IfOk result
        (λ done. HasEntries empty_core events.items done.outcomes.items done.state) }
{
    let mut state = CoreState::new(alloc);
    let mut outcomes = Vec::new(alloc);
    for event in events {
        outcomes.push(step(alloc, &mut state, event)?)?;
    }
    Ok(Done { outcomes, state })
}
