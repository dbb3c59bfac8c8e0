//! A source that notes in which order its connections are asked for.

use sources::ConnSource;
use timetable::{Connection, Footpath};

/// A source, and whether its connections were asked for from the last one down, each once.
#[derive(Drop)]
pub struct InTurn<S> {
    source: S,
    /// How many connections weren't asked for yet.
    pub left: usize,
    pub in_turn: bool,
}

impl<S: ConnSource> InTurn<S> {
    ghost use Rattle.std.specs.Prelude.{◌≡◌};

    /// The source, before any connection was asked for.
    pub fn of(source: S) -> InTurn<S>
        ensures { S.timetable result.source ≡ S.timetable source }
    {
        InTurn {
            left: source.len(),
            in_turn: true,
            source,
        }
    }

    /// The source, before any connection was asked for, to be read from the last one that departs before a time.
    pub fn before(source: S, time: u32) -> InTurn<S>
        ensures { S.timetable result.source ≡ S.timetable source }
    {
        InTurn {
            left: source.first_at(time),
            in_turn: true,
            source,
        }
    }
}

impl<S: ConnSource> ConnSource for InTurn<S> {
    ghost timetable = { λ counted. S.timetable counted.source };

    ghost log = { λ counted. S.log counted.source };

    fn stops(&self) -> u32 {
        self.source.stops()
    }

    fn trips(&self) -> u32 {
        self.source.trips()
    }

    fn len(&self) -> usize {
        self.source.len()
    }

    fn connection(&mut self, i: usize) -> Connection {
        self.in_turn = self.in_turn && i < self.left && i + 1 == self.left;
        self.left = i;
        self.source.connection(i)
    }

    fn first_at(&self, time: u32) -> usize {
        self.source.first_at(time)
    }

    fn walks_into(&self, stop: usize) -> (usize, usize) {
        self.source.walks_into(stop)
    }

    fn footpath(&self, index: usize) -> Footpath {
        self.source.footpath(index)
    }

    fn footpath_into(&self, stop: usize, index: usize) -> Footpath {
        self.source.footpath_into(stop, index)
    }

    ghost legal = { λ counted. S.legal counted.source };

    ghost limits = { λ counted. S.limits counted.source };
}
