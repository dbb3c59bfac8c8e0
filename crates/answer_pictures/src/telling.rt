//! Journeys over an image as lines of a picture.

ghost use Rattle.std.specs.Prelude.{◌≡◌, ◌++◌, ◌∷◌, [], map, IfOk, OnOk};
ghost use Rattle.answer_pictures.specs.JourneyLines.{IsLineOf, journey_parts, later, ride_part, ride_parts, walk_part};
ghost use Rattle.answer_pictures.specs.JourneyLines.{walk_parts, way_on_foot};

use crate::lines::{JourneyLine, Stretch, StretchKind};
use criteria::Figures;
use image_facts::{connection_at, stop_name, trip_name};
use image_verifier::Verified;
use std::alloc::{AllocError, Global};
use std::fmt::Write as _;
use timetable::{Connection, Footpath, Journey, Ride};

/// A journey over an image that departs at `departure`, as a line of a picture: when it departs and
/// arrives, its rides and walks, and below them its trips, with the stop at which each is left.
pub fn journey_line(
    alloc: Global,
    image: &Verified,
    departure: u32,
    figures: Figures,
    journey: &Journey,
) -> Result<JourneyLine, AllocError>
    ensures { IfOk result (IsLineOf image.now.timetable image.now.names departure figures journey.now) }
{
    let note = note_of(alloc, image, figures, journey)?;
    let stretches = stretches_of(alloc, image, departure, journey)?;
    Ok(JourneyLine {
        departure,
        arrival: figures.arrival,
        stretches,
        note,
    })
}

/// The note below a journey: the number of trips and the seconds on foot, each if it counts; each trip,
/// with the stop at which it is left; and each walk to another stop.
fn note_of(
    alloc: Global,
    image: &Verified,
    figures: Figures,
    journey: &Journey,
) -> Result<String, AllocError> {
    let mut note = String::new(alloc);
    append_counts(&mut note, figures)?;
    let mut comma = append_start(&mut note, alloc, image, journey.start)?;
    for ride in &journey.rides {
        comma = append_ride(&mut note, alloc, image, comma, ride)?;
    }
    Ok(note)
}

/// Adds the number of trips and the seconds on foot, each if it counts.
fn append_counts(note: &mut String, figures: Figures) -> Result<(), AllocError> {
    match figures.trips {
        None => {}
        Some(1) => note.push_str("1 trip: ")?,
        Some(trips) => write!(note, "{trips} trips: ")?,
    }
    if let Some(walked) = figures.walked {
        write!(note, "{walked} s on foot: ")?;
    }
    Ok(())
}

/// Adds the walk to the first trip, if there is one, and returns what comes before the next part.
fn append_start(
    note: &mut String,
    alloc: Global,
    image: &Verified,
    start: Option<Footpath>,
) -> Result<&'static str, AllocError> {
    match start {
        None => Ok(""),
        Some(footpath) => append_walk(note, alloc, image, "", footpath),
    }
}

/// Adds a comma, a ride and the walks after it, and returns what comes before the next part.
fn append_ride(
    note: &mut String,
    alloc: Global,
    image: &Verified,
    comma: &'static str,
    ride: &Ride,
) -> Result<&'static str, AllocError> {
    let mut comma = comma;
    if let Some(last) = connection_at(image, ride.leg.last) {
        let trip = trip_name(alloc, image, last.trip)?;
        let to = stop_name(alloc, image, last.to)?;
        write!(note, "{comma}{trip} to {to}")?;
        comma = ", ";
    }
    for footpath in &ride.walk {
        comma = append_walk(note, alloc, image, comma, *footpath)?;
    }
    Ok(comma)
}

/// Adds a comma and a walk to another stop, and returns what comes before the next part. A change at one
/// stop adds nothing.
fn append_walk(
    note: &mut String,
    alloc: Global,
    image: &Verified,
    comma: &'static str,
    footpath: Footpath,
) -> Result<&'static str, AllocError> {
    if footpath.from == footpath.to {
        return Ok(comma);
    }
    let to = stop_name(alloc, image, footpath.to)?;
    write!(note, "{comma}on foot to {to}")?;
    Ok(", ")
}

/// The parts of a journey that departs at a time.
fn stretches_of(
    alloc: Global,
    image: &Verified,
    departure: u32,
    journey: &Journey,
) -> Result<Vec<Stretch>, AllocError>
    ensures { IfOk result (λ stretches. stretches.items
        ≡ journey_parts image.now.timetable image.now.names departure journey.now) }
{
    let mut stretches = Vec::new(alloc);
    if let Some(footpath) = journey.start {
        add_walk(&mut stretches, alloc, image, departure, footpath)?;
    }
    for ride in &journey.rides {
        add_ride(&mut stretches, alloc, image, ride)?;
    }
    Ok(stretches)
}

/// Adds a ride and the walk after it.
fn add_ride(
    stretches: &mut Vec<Stretch>,
    alloc: Global,
    image: &Verified,
    ride: &Ride,
) -> Result<(), AllocError>
    ensures { OnOk result (stretches.new.items ≡ stretches.old.items
        ++ ride_parts image.now.timetable image.now.names ride.now) }
{
    let (Some(first), Some(last)) = (
        connection_at(image, ride.leg.first),
        connection_at(image, ride.leg.last),
    ) else {
        return Ok(());
    };
    let ridden = ride_stretch(alloc, image, first, last)?;
    stretches.push(ridden)?;
    add_walks(stretches, alloc, image, last.arr, &ride.walk)
}

fn ride_stretch(
    alloc: Global,
    image: &Verified,
    first: Connection,
    last: Connection,
) -> Result<Stretch, AllocError>
    ensures { IfOk result (λ s. s ≡ ride_part image.now.names first last) }
{
    let trip = trip_name(alloc, image, first.trip)?;
    let from = stop_name(alloc, image, first.from)?;
    let to = stop_name(alloc, image, last.to)?;
    Ok(Stretch {
        way: StretchKind::Ride,
        start: first.dep,
        end: last.arr,
        trip,
        from,
        to,
    })
}

/// Adds a walk that begins at a time, footpath by footpath.
fn add_walks(
    stretches: &mut Vec<Stretch>,
    alloc: Global,
    image: &Verified,
    start: u32,
    walk: &[Footpath],
) -> Result<(), AllocError>
    ensures { OnOk result (stretches.new.items ≡ stretches.old.items ++ walk_parts image.now.names start walk.now) }
{
    let mut time = start;
    for footpath in walk {
        time = add_walk(stretches, alloc, image, time, *footpath)?;
    }
    Ok(())
}

/// Adds a footpath that is walked from a time on, and returns the time when it is over.
fn add_walk(
    stretches: &mut Vec<Stretch>,
    alloc: Global,
    image: &Verified,
    time: u32,
    footpath: Footpath,
) -> Result<u32, AllocError>
    ensures stretches { OnOk result (stretches.new.items ≡ stretches.old.items
        ++ walk_part image.now.names time footpath ∷ []) }
    ensures end { IfOk result (λ end. end ≡ later time footpath.secs) }
{
    let walked = walk_stretch(alloc, image, time, footpath)?;
    stretches.push(walked)?;
    Ok(time.saturating_add(footpath.secs))
}

fn walk_stretch(
    alloc: Global,
    image: &Verified,
    time: u32,
    footpath: Footpath,
) -> Result<Stretch, AllocError>
    ensures { IfOk result (λ s. s ≡ walk_part image.now.names time footpath) }
{
    let from = stop_name(alloc, image, footpath.from)?;
    let to = stop_name(alloc, image, footpath.to)?;
    Ok(Stretch {
        way: way_on_foot(footpath),
        start: time,
        end: time.saturating_add(footpath.secs),
        trip: String::new(alloc),
        from,
        to,
    })
}

/// How a footpath is walked: one from a stop to itself is a change.
fn way_on_foot(footpath: Footpath) -> StretchKind
    ensures { result ≡ way_on_foot footpath }
{
    if footpath.from == footpath.to {
        StretchKind::Change
    } else {
        StretchKind::Walk
    }
}
