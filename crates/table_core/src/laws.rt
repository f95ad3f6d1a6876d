// Laws of the core: what follows from its definitions, whatever a program does. Each function has an empty body and the law as its contract.
ghost use Rattle.std.specs.Prelude.{List};
ghost use Rattle.table_core.specs.declared.event.Event.{Event};
ghost use Rattle.table_core.specs.declared.event.Outcome.{Outcome};
ghost use Rattle.table_core.specs.Core.{Core, IsCore};
ghost use Rattle.table_core.specs.Runs.{HasEntries, KeepsAccepted, KeepsHistory, KnowsSnapshots, MayRun, Runs, TellsLeft, TellsSnapshots};
ghost use Rattle.table_core.specs.Steps.{GivesOutcome, MayCome};

/// What always holds of the core holds after each event that may come, and so after a run of events. What was read of a
/// snapshot stays what merges may have left of the front of the history at which it was taken, whatever comes later. The
/// number of a snapshot stays its number up to the next crash, after which no number is known that was told before it.
pub fn what_was_read_stays()
    ensures step { (old new : Core) (e : Event) (given : Outcome) → IsCore old
        → MayCome old e → GivesOutcome old e given new → IsCore new }
    ensures run { (events : List Event) (outcomes : List Outcome) (old new : Core) → IsCore old
        → MayRun old events → Runs old events outcomes new → IsCore new }
    ensures read { (events : List Event) (outcomes : List Outcome) (old new : Core) → IsCore old
        → MayRun old events → Runs old events outcomes new → TellsLeft old events outcomes new }
    ensures taken { (events : List Event) (outcomes : List Outcome) (old new : Core)
        → Runs old events outcomes new → TellsSnapshots old events outcomes new }
    ensures known { (events : List Event) (outcomes : List Outcome) (old new : Core)
        → Runs old events outcomes new → KnowsSnapshots old events outcomes new }
{}

/// No entry of the history is ever lost, by a crash neither. It has each command that was accepted, at the place that was
/// told, and else at most commands within whose accepts a crash came.
pub fn what_was_accepted_stays()
    ensures history { (events : List Event) (outcomes : List Outcome) (old new : Core)
        → Runs old events outcomes new → KeepsHistory old events outcomes new }
    ensures accepted { (events : List Event) (outcomes : List Outcome) (old new : Core)
        → Runs old events outcomes new → KeepsAccepted events outcomes new }
    ensures entries { (events : List Event) (outcomes : List Outcome) (old new : Core)
        → Runs old events outcomes new → HasEntries old events outcomes new }
{}
