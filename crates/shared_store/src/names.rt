// Which root is shared, which ledgers count its turns, and what was known of it as it was opened.
use history_seat::Room;
use std::marker::{Brand, PhantomData};
use std::sync::ledger::Ledger;

/// Names one root that is shared: its history, which `Room` names, its opening, and four ledgers. What is generic over it has seats
/// of that history and shares of those ledgers. A caller picks its members for `Brand`, where it makes the shared value.
pub trait Names: Room {
    ghost use Rattle.shared_store.specs.Sharing.{AtOpening, Ledgers};
    ghost use Rattle.shared_store.specs.Stood.{Premise};

    /// What was so as the root was opened. Each fact about what the outside holds is known so far as its premise was.
    ghost given: { Premise → Type 0 };

    /// The root as it was opened.
    ghost opening: { AtOpening };

    /// The ledgers.
    ghost ledgers: { Ledgers };
}

impl Names for Brand {
    ghost use Rattle.std.specs.Prelude.{None};
    ghost use Rattle.mt_base.specs.declared.policy.Policy.TheVariants.{Head};

    ghost given = { λ _. Unit {0} };

    ghost opening = { record { tables = (λ _. None); begun = None; policy = Head; failed = 0; shared = 0; started = None } };

    ghost ledgers = { record { parts = 0; works = 0; stops = 0; levels = 0; faults = 0 } };
}

/// The ledger of works that are out.
pub struct WorksOut<B: Names> {
    of: PhantomData<B>,
}

impl<B: Names> Ledger for WorksOut<B> {
    ghost name = { B.ledgers.works };

    ghost parts = { B.ledgers.parts };
}

/// The ledger of answers that the disk failed or that the store was stopped.
pub struct StopsMet<B: Names> {
    of: PhantomData<B>,
}

impl<B: Names> Ledger for StopsMet<B> {
    ghost name = { B.ledgers.stops };

    ghost parts = { B.ledgers.parts };
}

/// The ledger of answers that a part's level would be greater than may be.
pub struct LevelsMet<B: Names> {
    of: PhantomData<B>,
}

impl<B: Names> Ledger for LevelsMet<B> {
    ghost name = { B.ledgers.levels };

    ghost parts = { B.ledgers.parts };
}

/// The ledger of faults that the disk counted in turns.
pub struct FaultsMet<B: Names> {
    of: PhantomData<B>,
}

impl<B: Names> Ledger for FaultsMet<B> {
    ghost name = { B.ledgers.faults };

    ghost parts = { B.ledgers.parts };
}
