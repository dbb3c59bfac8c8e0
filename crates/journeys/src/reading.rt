//! Reads journeys from their texts.

ghost use Rattle.std.specs.Prelude.{◌≡◌, ◌≤◌, ◌^◌, ◌<◌, ℕ, true, length, Option, Some, None, List};
ghost use Rattle.std.specs.Option.{option_map};
ghost use Rattle.std.specs.Char.{is_ascii_digit};
ghost use Rattle.std.specs.List.{prefix_len, list_all};
ghost use Rattle.journeys.specs.Reading.{Gives, value_of, number_of_digits, number_at, field_at, footpath_at};
ghost use Rattle.journeys.specs.Reading.{leg_at, after, walks_at, ride_at_front, rides_at, start_at, journey_at};

use crate::text_fault::TextFault;
use std::alloc::Global;
use timetable::{Footpath, Journey, Leg, Ride};

fn digit_count(bytes: &[u8]) -> usize
    ensures { result ≡ prefix_len is_ascii_digit bytes.now }
{
    bytes
        .iter()
        .take_while(|byte| byte.is_ascii_digit())
        .count()
}

// The number that digits show, if it is a u32.
fn value(digits: &[u8]) -> Option<u32>
    requires { list_all is_ascii_digit digits.now ≡ true }
    ensures { result ≡ value_of digits.now }
{
    let mut value = 0u32;
    for digit in digits {
        let next = value as u64 * 10 + (*digit - b'0') as u64;
        if next > u32::MAX as u64 {
            return None;
        }
        value = next as u32;
    }
    Some(value)
}

// The number that digits show, if it is a u32 without a leading zero.
#[tactic(auto, unfolding(crate::specs::Reading::number_of_digits))]
fn number_of_digits(digits: &[u8]) -> Option<u32>
    requires { list_all is_ascii_digit digits.now ≡ true }
    ensures { result ≡ number_of_digits digits.now }
{
    match digits {
        [] => None,
        [b'0', _, ..] => None,
        [_, ..] => value(digits),
    }
}

// The number that all digits at the front show, and the bytes after them.
#[tactic(auto, unfolding(crate::specs::Reading::number_at, crate::specs::Reading::number_of_digits))]
fn number(bytes: &[u8]) -> Result<(u32, &[u8]), TextFault>
    ensures { Gives (λ x. (x.0, x.1.now)) result (number_at bytes.now) }
{
    let (digits, rest) = bytes.split_at(digit_count(bytes));
    match number_of_digits(digits) {
        None => Err(TextFault::BadText),
        Some(number) => Ok((number, rest)),
    }
}

#[tactic(auto, unfolding(crate::specs::Reading::field_at))]
fn field(bytes: &[u8]) -> Result<(u32, &[u8]), TextFault>
    ensures { Gives (λ x. (x.0, x.1.now)) result (field_at bytes.now) }
{
    match bytes {
        [b' ', rest @ ..] => number(rest),
        _ => Err(TextFault::BadText),
    }
}

#[tactic(auto, unfolding(crate::specs::Reading::footpath_at))]
fn footpath(bytes: &[u8]) -> Result<(Footpath, &[u8]), TextFault>
    ensures { Gives (λ x. (x.0, x.1.now)) result (footpath_at bytes.now) }
{
    let (from, rest) = field(bytes)?;
    let (to, rest) = field(rest)?;
    let (secs, rest) = field(rest)?;
    Ok((Footpath { from, to, secs }, rest))
}

#[tactic(auto, unfolding(crate::specs::Reading::leg_at))]
fn leg(bytes: &[u8]) -> Result<(Leg, &[u8]), TextFault>
    ensures { Gives (λ x. (x.0, x.1.now)) result (leg_at bytes.now) }
{
    let (first, rest) = field(bytes)?;
    let (last, rest) = field(rest)?;
    Ok((Leg { first, last }, rest))
}

// The bytes after a word, if they begin with it.
fn after<'a>(word: &[u8], bytes: &'a [u8]) -> Option<&'a [u8]>
    ensures { option_map (λ x. x.now) result ≡ after word.now bytes.now }
{
    bytes.strip_prefix(word)
}

// The walks at the front, and the bytes after them. Each walk takes at least one byte.
fn walks(alloc: Global, bytes: &[u8]) -> Result<(Vec<Footpath>, &[u8]), TextFault>
    ensures { Gives (λ x. (x.0.items, x.1.now)) result (walks_at (length bytes.now) bytes.now) }
{
    let count = bytes.len();
    let mut walk = Vec::new(alloc);
    let mut rest = bytes;
    for _ in 0..count {
        let Some(numbers) = after(b" walk", rest) else {
            return Ok((walk, rest));
        };
        let (footpath, behind) = footpath(numbers)?;
        walk.push(footpath)?;
        rest = behind;
    }
    Ok((walk, rest))
}

#[tactic(auto, unfolding(crate::specs::Reading::ride_at_front))]
fn ride(alloc: Global, bytes: &[u8]) -> Result<(Ride, &[u8]), TextFault>
    ensures { Gives (λ x. (x.0, x.1.now)) result (ride_at_front bytes.now) }
{
    let (leg, rest) = leg(bytes)?;
    let (walk, rest) = walks(alloc, rest)?;
    Ok((Ride { leg, walk }, rest))
}

// The rides up to the end, after the word of the first. Each takes at least one byte.
fn rides(alloc: Global, bytes: &[u8]) -> Result<Vec<Ride>, TextFault>
    ensures { Gives (λ v. v.items) result (rides_at (length bytes.now) bytes.now) }
{
    let count = bytes.len();
    let mut rides = Vec::new(alloc);
    let mut rest = bytes;
    for _ in 0..count {
        let (ride, behind) = ride(alloc, rest)?;
        rides.push(ride)?;
        if behind.len() == 0 {
            return Ok(rides);
        }
        let Some(next) = after(b" ride", behind) else {
            return Err(TextFault::BadText);
        };
        rest = next;
    }
    Err(TextFault::BadText)
}

// The start, and the bytes after the word of the first ride.
#[tactic(auto, unfolding(crate::specs::Reading::start_at))]
fn start(bytes: &[u8]) -> Result<(Option<Footpath>, &[u8]), TextFault>
    ensures { Gives (λ x. (x.0, x.1.now)) result (start_at bytes.now) }
{
    match after(b"walk", bytes) {
        Some(numbers) => {
            let (footpath, behind) = footpath(numbers)?;
            match after(b" ride", behind) {
                Some(rest) => Ok((Some(footpath), rest)),
                None => Err(TextFault::BadText),
            }
        }
        None => match after(b"ride", bytes) {
            Some(rest) => Ok((None, rest)),
            None => Err(TextFault::BadText),
        },
    }
}

/// Returns the journey that all the bytes spell. The error is `BadText` if they spell none, and `OutOfMemory` if
/// memory runs out.
#[tactic(auto, unfolding(crate::specs::Reading::journey_at))]
pub fn journey(alloc: Global, bytes: &[u8]) -> Result<Journey, TextFault>
    ensures { Gives (λ j. j) result (journey_at bytes.now) }
{
    let (start, rest) = start(bytes)?;
    let rides = rides(alloc, rest)?;
    Ok(Journey { start, rides })
}
