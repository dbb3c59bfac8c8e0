//! Traces and kept values take no bytes.

ghost use Rattle.std.specs.Prelude.{◌≡◌, ◌+◌, ◌<◌, ◌^◌};

use crate::{GhostValue, Trace};
use std::mem::size_of;

// The sum of two numbers, which no code computes.
fn sum_of(first: &u32, second: &u32) -> GhostValue<u64>
    ensures { result.value ≡ first.now + second.now }
{
    GhostValue::at(first, second)
}

/// A number that is one more than another, which only contracts see.
#[derive(Drop)]
struct Successor {
    number: u32,
    of: GhostValue<u32>,
    ghost next: { number ≡ of.value + 1 },
}

fn successor_of(number: u32) -> Successor
    requires { number + 1 < 2 ^ 32 }
    ensures { result.of.value ≡ number }
{
    Successor {
        number: number + 1,
        of: GhostValue::of(&number),
    }
}

#[test]
fn unseen_values_take_no_bytes(rt: HostRuntime) {
    let _sum = sum_of(&1, &2);
    let next = successor_of(7);
    assert_eq!(rt; next.number, 8);
    assert_eq!(rt; size_of::<GhostValue<String>>(), 0);
    assert_eq!(rt; size_of::<Trace<String>>(), 0);
    assert_eq!(rt; size_of::<Successor>(), 4);
}
