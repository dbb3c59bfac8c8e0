//! The legs of a journey, with the names of an image.

ghost use Rattle.std.specs.Prelude.{◌≡◌, ◌++◌, ◌∷◌, [], slice_get, IfOk, OnOk, map};
ghost use Rattle.std.specs.List.{flat_map};
ghost use Rattle.session_texts.specs.Legs.{ride_data, ride_value};
ghost use Rattle.session_texts.specs.Telling.{legs_of};
ghost use Rattle.answer_replies.specs.Legs.{day_of, legs_data, repeat_of, ride_between, ride_leg, ride_legs};
ghost use Rattle.answer_replies.specs.Legs.{start_legs, walk_leg};

use image_facts::{connection_at, stop_name, trip_name};
use image_verifier::Verified;
use session_texts::{JourneyLegs, RideLeg, WalkLeg};
use std::alloc::{AllocError, Global};
use timetable::{Connection, Footpath, Journey, Leg, Ride};

/// Each walk and each ride of the journey, in order.
pub(crate) fn journey_legs(
    alloc: Global,
    image: &Verified,
    journey: &Journey,
) -> Result<JourneyLegs, AllocError>
    ensures { IfOk result (λ legs. legs_of legs ≡ legs_data image.now journey.now) }
{
    let mut legs = JourneyLegs::new(alloc);
    add_start(&mut legs, alloc, image, journey.start)?;
    add_rides(&mut legs, alloc, image, &journey.rides)?;
    Ok(legs)
}

fn add_start(
    legs: &mut JourneyLegs,
    alloc: Global,
    image: &Verified,
    start: Option<Footpath>,
) -> Result<(), AllocError>
    ensures { OnOk result (legs_of legs.new ≡ legs_of legs.old ++ start_legs image.now.names start) }
{
    match start {
        None => Ok(()),
        Some(footpath) => add_walk(legs, alloc, image, footpath),
    }
}

fn add_rides(
    legs: &mut JourneyLegs,
    alloc: Global,
    image: &Verified,
    rides: &[Ride],
) -> Result<(), AllocError>
    ensures { OnOk result (legs_of legs.new ≡ legs_of legs.old ++ flat_map (ride_legs image.now) rides.now) }
{
    for ride in rides {
        add_ride(legs, alloc, image, ride)?;
    }
    Ok(())
}

fn add_ride(
    legs: &mut JourneyLegs,
    alloc: Global,
    image: &Verified,
    ride: &Ride,
) -> Result<(), AllocError>
    ensures { OnOk result (legs_of legs.new ≡ legs_of legs.old ++ ride_legs image.now ride.now) }
{
    add_leg(legs, alloc, image, ride.leg)?;
    add_walks(legs, alloc, image, &ride.walk)?;
    Ok(())
}

// Adds the ride of a leg, if the image has its connections. It has those of each journey that counts.
fn add_leg(
    legs: &mut JourneyLegs,
    alloc: Global,
    image: &Verified,
    leg: Leg,
) -> Result<(), AllocError>
    ensures { OnOk result (legs_of legs.new ≡ legs_of legs.old ++ ride_between image.now.names
        (slice_get image.now.timetable.connections leg.first) (slice_get image.now.timetable.connections leg.last)) }
{
    let Some(first) = connection_at(image, leg.first) else {
        return Ok(());
    };
    let Some(last) = connection_at(image, leg.last) else {
        return Ok(());
    };
    let ride = reply_ride(alloc, image, first, last)?;
    legs.add_ride(alloc, ride)
}

fn reply_ride(
    alloc: Global,
    image: &Verified,
    first: Connection,
    last: Connection,
) -> Result<RideLeg, AllocError>
    ensures { IfOk result (λ ride. ride_data (ride_value ride) ≡ ride_leg image.now.names first last) }
{
    Ok(RideLeg {
        trip: trip_name(alloc, image, first.trip)?,
        day: day_of(image, first.trip),
        repeat: repeat_of(image, first.trip),
        from: stop_name(alloc, image, first.from)?,
        dep: first.dep,
        to: stop_name(alloc, image, last.to)?,
        arr: last.arr,
    })
}

// The service day of a trip, or 0 if there is no such trip.
fn day_of(image: &Verified, trip: u32) -> u32
    ensures { result ≡ day_of image.now.names trip }
{
    // The contract of this call says that the image has a name for each trip.
    image.stops();
    if trip < image.trips() {
        image.trip_day(trip as usize)
    } else {
        0
    }
}

// Which of its day's repeats a trip is, or 0 if there is no such trip.
fn repeat_of(image: &Verified, trip: u32) -> u32
    ensures { result ≡ repeat_of image.now.names trip }
{
    // The contract of this call says that the image has a name for each trip.
    image.stops();
    if trip < image.trips() {
        image.trip_repeat(trip as usize)
    } else {
        0
    }
}

fn add_walks(
    legs: &mut JourneyLegs,
    alloc: Global,
    image: &Verified,
    walk: &[Footpath],
) -> Result<(), AllocError>
    ensures { OnOk result (legs_of legs.new ≡ legs_of legs.old ++ map (walk_leg image.now.names) walk.now) }
{
    for footpath in walk {
        add_walk(legs, alloc, image, *footpath)?;
    }
    Ok(())
}

fn add_walk(
    legs: &mut JourneyLegs,
    alloc: Global,
    image: &Verified,
    footpath: Footpath,
) -> Result<(), AllocError>
    ensures { OnOk result (legs_of legs.new ≡ legs_of legs.old ++ walk_leg image.now.names footpath ∷ []) }
{
    let from = stop_name(alloc, image, footpath.from)?;
    let to = stop_name(alloc, image, footpath.to)?;
    let secs = footpath.secs;
    legs.add_walk(alloc, WalkLeg { from, to, secs })
}
