//! Journeys as texts.

ghost use Rattle.std.specs.Prelude.{◌≡◌, ◌++◌, ◌∷◌, [], drop, codes, ℕ, All, IfOk, OnOk, MatchResult, string_bytes};
ghost use Rattle.std.specs.List.{flat_map};
ghost use Rattle.timetable.specs.Clocks.{clock_bytes};
ghost use Rattle.timetable.specs.JourneyValue.{JourneyValue};
ghost use Rattle.journeys.specs.declared.text_fault.TextFault.TheVariants.{OutOfMemory};
ghost use Rattle.journeys.specs.Texts.{number_text, walk_text, leg_text, ride_text, start_text, text_of, HasText};
ghost use Rattle.journeys.specs.Texts.{IsPlainByte};

use crate::reading::journey;
use crate::text_fault::TextFault;
use itoa::Buffer;
use std::alloc::{AllocError, Global};
use timetable::{Footpath, Journey, Leg, Ride};

fn put_number(out: &mut Vec<u8>, number: u32) -> Result<(), AllocError>
    ensures { OnOk result (out.new.items ≡ out.old.items ++ number_text number) }
{
    let mut buffer = Buffer::new();
    out.push(b' ')?;
    out.extend_from_slice(buffer.format(number).as_bytes())?;
    Ok(())
}

fn put_walk(out: &mut Vec<u8>, footpath: Footpath) -> Result<(), AllocError>
    ensures { OnOk result (out.new.items ≡ out.old.items ++ walk_text footpath) }
{
    out.extend_from_slice(b" walk")?;
    put_number(out, footpath.from)?;
    put_number(out, footpath.to)?;
    put_number(out, footpath.secs)?;
    Ok(())
}

fn put_leg(out: &mut Vec<u8>, leg: Leg) -> Result<(), AllocError>
    ensures { OnOk result (out.new.items ≡ out.old.items ++ (codes " ride" ++ leg_text leg)) }
{
    out.extend_from_slice(b" ride")?;
    put_number(out, leg.first)?;
    put_number(out, leg.last)?;
    Ok(())
}

fn put_walks(out: &mut Vec<u8>, walk: &[Footpath]) -> Result<(), AllocError>
    ensures { OnOk result (out.new.items ≡ out.old.items ++ flat_map walk_text walk.now) }
{
    for footpath in walk {
        put_walk(out, *footpath)?;
    }
    Ok(())
}

fn put_ride(out: &mut Vec<u8>, ride: &Ride) -> Result<(), AllocError>
    ensures { OnOk result (out.new.items ≡ out.old.items ++ ride_text ride.now) }
{
    put_leg(out, ride.leg)?;
    put_walks(out, &ride.walk)?;
    Ok(())
}

fn put_rides(out: &mut Vec<u8>, rides: &[Ride]) -> Result<(), AllocError>
    ensures { OnOk result (out.new.items ≡ out.old.items ++ flat_map ride_text rides.now) }
{
    for ride in rides {
        put_ride(out, ride)?;
    }
    Ok(())
}

fn put_start(out: &mut Vec<u8>, start: Option<Footpath>) -> Result<(), AllocError>
    ensures { OnOk result (out.new.items ≡ out.old.items ++ start_text start) }
{
    match start {
        None => Ok(()),
        Some(footpath) => put_walk(out, footpath),
    }
}

/// The text of a journey: `walk FROM TO SECS` for each footpath and `ride FIRST LAST` for each leg,
/// with one space between.
pub fn journey_text(alloc: Global, journey: &Journey) -> Result<Vec<u8>, AllocError>
    ensures { IfOk result (λ text. text.items ≡ text_of journey.now) }
{
    let mut out = Vec::new(alloc);
    put_start(&mut out, journey.start)?;
    put_rides(&mut out, &journey.rides)?;
    if out.len() > 0 {
        out.remove(0);
    }
    Ok(out)
}

/// The text of a journey as a string: each of its bytes is a character.
pub fn journey_string(alloc: Global, journey: &Journey) -> Result<String, AllocError>
    ensures { IfOk result (λ text. string_bytes text ≡ text_of journey.now) }
{
    plain_texts();
    let text = journey_text(alloc, journey)?;
    match String::from_utf8(text) {
        Ok(text) => Ok(text),
        Err(_) => unreachable!(),
    }
}

/// Returns the journey whose text this is. Numbers are decimal, without leading zeros, up to 4,294,967,295; at most
/// one walk comes before the first ride, and there is at least one ride. The error is `BadText` for any other text,
/// and `OutOfMemory` if memory runs out.
pub fn journey_parse(alloc: Global, text: &[u8]) -> Result<Journey, TextFault>
    // The text is that of the journey that is read.
    ensures found { IfOk result (λ j. HasText j × (text.now ≡ text_of j)) }
    // If a journey has this text, it is read, unless memory runs out.
    ensures only { (j : JourneyValue) → HasText j → text.now ≡ text_of j
        → MatchResult result (λ found. found ≡ j) (λ e. e ≡ OutOfMemory) }
{
    journey(alloc, text)
}

/// No two journeys have the same text, so a journey that was written is read as it was.
pub fn one_text()
    ensures { (j k : JourneyValue) → HasText j → HasText k → text_of j ≡ text_of k → j ≡ k }
{}

/// The texts of journeys and of times are spaces, digits, colons and small letters: no form of
/// quoting changes them, and each byte is a character.
pub fn plain_texts()
    ensures journeys { (j : JourneyValue) → All IsPlainByte (text_of j) }
    ensures clocks { (time : ℕ) → All IsPlainByte (clock_bytes time) }
{}
