//! A counter: the length of a list that only contracts see.

ghost use Rattle.std.specs.Prelude.{◌≡◌, ◌+◌, ◌<◌, ◌^◌, ◌++◌, ◌∷◌, [], List, length};
ghost use Rattle.reasoning.specs.declared.tests.counter.CounterEvent.TheVariants.{Look};
ghost use Rattle.reasoning.specs.declared.tests.counter.CounterEvent.{CounterEvent};

use crate::Trace;
use std::marker::Model;

#[derive(Drop)]
pub enum CounterEvent {
    Look { worker: u64 },
}

/// Contracts see the list of events; at run time there is only their number.
#[derive(Drop)]
pub struct Counter {
    count: u64,
    events: Trace<CounterEvent>,
}

impl Model for Counter {
    ghost Value = { List CounterEvent };

    ghost view = { λ c. c.events };

    ghost invariant = { λ c. c.count ≡ length c.events };
}

impl Counter {
    pub fn new() -> Counter
        ensures { result ≡ [] }
    {
        Counter {
            count: 0,
            events: Trace::new(),
        }
    }

    pub fn count(&self) -> u64
        ensures { result ≡ length self.now }
    {
        self.count
    }

    pub fn look(&mut self, worker: u64)
        requires { length self.old + 1 < 2 ^ 64 }
        ensures { self.new ≡ self.old ++ Look worker ∷ [] }
    {
        self.events.note(&CounterEvent::Look { worker });
        self.count += 1;
    }

    pub fn take_in(&mut self, other: Counter)
        requires { length self.old + length other < 2 ^ 64 }
        ensures { self.new ≡ self.old ++ other }
    {
        let Counter { count, events } = other;
        self.count += count;
        self.events.append(events);
    }
}

#[test]
fn events_are_counted(rt: HostRuntime) {
    let mut counter = Counter::new();
    counter.look(3);
    let mut other = Counter::new();
    other.look(4);
    other.look(5);
    counter.take_in(other);
    assert_eq!(rt; counter.count(), 3);
}
