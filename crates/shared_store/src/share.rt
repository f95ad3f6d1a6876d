// One share of each of the four ledgers.
ghost use Rattle.std.specs.Prelude.{◌≡◌, ◌+◌, ◌-◌, ◌<◌};
ghost use Rattle.shared_store.specs.Tallies.{tally};

use crate::names::{FaultsMet, LevelsMet, Names, StopsMet, WorksOut};
use std::marker::Model;
use std::sync::ledger;

/// What its holder has counted of works, stops, limits of levels and faults, and its parts of the right to know the whole. It takes no bytes.
#[derive(Drop)]
pub struct Share<B: Names> {
    pub(crate) works: ledger::Share<WorksOut<B>>,
    pub(crate) stops: ledger::Share<StopsMet<B>>,
    pub(crate) levels: ledger::Share<LevelsMet<B>>,
    pub(crate) faults: ledger::Share<FaultsMet<B>>,
}

impl<B: Names> Model for Share<B> {
    ghost use Rattle.std.specs.Prelude.{◌≡◌};
    ghost use Rattle.shared_store.specs.Tallies.{Tally, tally};

    ghost Value = { Tally };

    ghost view = { λ s. tally s.works.parts s.works.amount s.stops.amount s.levels.amount
        s.faults.amount };

    ghost invariant = { λ s. (s.stops.parts ≡ s.works.parts) × (s.levels.parts ≡ s.works.parts)
        × (s.faults.parts ≡ s.works.parts) };
}

impl<B: Names> Share<B> {
    /// A share of one part, which has counted nothing.
    pub fn split(&mut self) -> Share<B>
        requires { 1 < self.old.parts }
        ensures made { result ≡ tally 1 0 0 0 0 }
        ensures left { self.new ≡ tally (self.old.parts - 1) self.old.out self.old.stops
            self.old.levels self.old.faults }
    {
        Share {
            works: self.works.split_off(1, 0),
            stops: self.stops.split_off(1, 0),
            levels: self.levels.split_off(1, 0),
            faults: self.faults.split_off(1, 0),
        }
    }

    /// Takes another share in.
    pub fn merge(&mut self, other: Share<B>)
        ensures { self.new ≡ tally (self.old.parts + other.parts) (self.old.out + other.out)
            (self.old.stops + other.stops) (self.old.levels + other.levels)
            (self.old.faults + other.faults) }
    {
        let Share {
            works,
            stops,
            levels,
            faults,
        } = other;
        self.works.merge(works);
        self.stops.merge(stops);
        self.levels.merge(levels);
        self.faults.merge(faults);
    }
}
