//! What a worker passes on: a list that only contracts see, and its length, which stays at the greatest number.

ghost use Rattle.std.specs.Prelude.{◌≡◌, ◌-◌, ◌^◌, ◌++◌, ◌∷◌, [], List, length, min};

use crate::Trace;
use std::marker::Model;
use std::mem::size_of;
use std::thread;
use std::thread::Threads;

#[derive(Drop)]
pub struct CounterShare<T> {
    count: u64,
    ends: Trace<T>,
}

impl<T> Model for CounterShare<T> {
    ghost Value = { List T };

    ghost view = { λ s. s.ends };

    ghost invariant = { λ s. s.count ≡ min (length s.ends) (2 ^ 64 - 1) };
}

impl<T> CounterShare<T> {
    pub fn new() -> CounterShare<T>
        ensures { result ≡ [] }
    {
        CounterShare {
            count: 0,
            ends: Trace::new(),
        }
    }

    pub fn count(&self) -> u64
        ensures { result ≡ min (length self.now) (2 ^ 64 - 1) }
    {
        self.count
    }

    pub fn end(&mut self, end: &T)
        ensures { self.new ≡ self.old ++ end.now ∷ [] }
    {
        self.count = self.count.saturating_add(1);
        self.ends.note(end);
    }

    pub fn put_together(&mut self, other: CounterShare<T>)
        ensures { self.new ≡ self.old ++ other }
    {
        let CounterShare { count, ends } = other;
        self.count = self.count.saturating_add(count);
        self.ends.append(ends);
    }
}

fn one_end(end: u64) -> CounterShare<u64>
    ensures { result ≡ end ∷ [] }
{
    let mut share = CounterShare::new();
    share.end(&end);
    share
}

// No byte of the list goes from one thread to the other, yet contracts know it there.
fn two_workers<R: Threads>(rt: &R, first: u64, second: u64) -> CounterShare<u64>
    ensures { result ≡ first ∷ second ∷ [] }
{
    let (mut share, other) = thread::join(rt, move || one_end(first), move || one_end(second));
    share.put_together(other);
    share
}

#[test]
fn shares_cross_threads(rt: HostRuntime) {
    let share = two_workers(&rt, 7, 8);
    assert_eq!(rt; share.count(), 2);
    assert_eq!(rt; size_of::<CounterShare<u64>>(), 8);
}
