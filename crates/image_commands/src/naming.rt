//! Journeys by the names of an image, in a form.

ghost use Rattle.std.specs.Prelude.{◌≡◌, ◌++◌, slice_get, OnOk, string_bytes};
ghost use Rattle.std.specs.List.{flat_map};
ghost use Rattle.journeys.specs.Texts.{number_text};
ghost use Rattle.image_commands.specs.Listing.{call_text, named_between, named_hops, named_ride, named_start};
ghost use Rattle.image_commands.specs.Listing.{named_text, named_walk};
ghost use Rattle.command_endings.specs.Refusing.{word_text};
ghost use Rattle.image_facts.specs.Naming.{stop_bytes, trip_bytes};
ghost use Rattle.image_files.specs.Naming.{names_in, printed};

use departure_lines::{printed_stop_name, printed_trip_name};
use image_facts::connection_at;
use image_files::NameForm;
use image_verifier::Verified;
use std::alloc::{AllocError, Global};
use text_pieces::{put_clock, put_number, put_text, put_word};
use timetable::{Connection, Footpath, Journey, Leg, Ride};

/// Adds a journey's rides and walks, each after a space.
pub fn append_named(
    lines: &mut String,
    alloc: Global,
    image: &Verified,
    names: NameForm,
    journey: &Journey,
) -> Result<(), AllocError>
    ensures { OnOk result (string_bytes lines.new ≡ string_bytes lines.old
        ++ named_text (printed names image.now) journey.now) }
{
    append_start(lines, alloc, image, names, journey.start)?;
    append_rides(lines, alloc, image, names, &journey.rides)
}

fn append_start(
    lines: &mut String,
    alloc: Global,
    image: &Verified,
    names: NameForm,
    start: Option<Footpath>,
) -> Result<(), AllocError>
    ensures { OnOk result (string_bytes lines.new ≡ string_bytes lines.old
        ++ named_start (names_in names image.now.names) start) }
{
    match start {
        None => Ok(()),
        Some(footpath) => append_walk(lines, alloc, image, names, footpath),
    }
}

fn append_rides(
    lines: &mut String,
    alloc: Global,
    image: &Verified,
    names: NameForm,
    rides: &[Ride],
) -> Result<(), AllocError>
    ensures { OnOk result (string_bytes lines.new ≡ string_bytes lines.old
        ++ flat_map (named_ride (printed names image.now)) rides.now) }
{
    for ride in rides {
        append_ride(lines, alloc, image, names, ride)?;
    }
    Ok(())
}

fn append_ride(
    lines: &mut String,
    alloc: Global,
    image: &Verified,
    names: NameForm,
    ride: &Ride,
) -> Result<(), AllocError>
    ensures { OnOk result (string_bytes lines.new ≡ string_bytes lines.old
        ++ named_ride (printed names image.now) ride.now) }
{
    append_leg(lines, alloc, image, names, ride.leg)?;
    append_walks(lines, alloc, image, names, &ride.walk)
}

fn append_walks(
    lines: &mut String,
    alloc: Global,
    image: &Verified,
    names: NameForm,
    walk: &[Footpath],
) -> Result<(), AllocError>
    ensures { OnOk result (string_bytes lines.new ≡ string_bytes lines.old
        ++ flat_map (named_walk (names_in names image.now.names)) walk.now) }
{
    for footpath in walk {
        append_walk(lines, alloc, image, names, *footpath)?;
    }
    Ok(())
}

fn append_walk(
    lines: &mut String,
    alloc: Global,
    image: &Verified,
    names: NameForm,
    footpath: Footpath,
) -> Result<(), AllocError>
    ensures { OnOk result (string_bytes lines.new ≡ string_bytes lines.old
        ++ named_walk (names_in names image.now.names) footpath) }
{
    put_text(lines, " walk")?;
    append_stop(lines, alloc, image, names, footpath.from)?;
    append_stop(lines, alloc, image, names, footpath.to)?;
    append_seconds(lines, footpath.secs)?;
    Ok(())
}

fn append_seconds(lines: &mut String, seconds: u32) -> Result<(), AllocError>
    ensures { OnOk result (string_bytes lines.new ≡ string_bytes lines.old ++ number_text seconds) }
{
    put_number(lines, " ", u64::from(seconds))
}

fn append_stop(
    lines: &mut String,
    alloc: Global,
    image: &Verified,
    names: NameForm,
    stop: u32,
) -> Result<(), AllocError>
    ensures { OnOk result (string_bytes lines.new ≡ string_bytes lines.old
        ++ word_text (stop_bytes (names_in names image.now.names) stop)) }
{
    let name = printed_stop_name(alloc, image, stop, names)?;
    put_word(lines, name.as_str())
}

fn append_trip(
    lines: &mut String,
    alloc: Global,
    image: &Verified,
    names: NameForm,
    trip: u32,
) -> Result<(), AllocError>
    ensures { OnOk result (string_bytes lines.new ≡ string_bytes lines.old
        ++ word_text (trip_bytes (names_in names image.now.names) trip)) }
{
    let name = printed_trip_name(alloc, image, trip, names)?;
    put_word(lines, name.as_str())
}

/// Adds a leg: its trip, and when and where one boards and leaves it.
fn append_leg(
    lines: &mut String,
    alloc: Global,
    image: &Verified,
    names: NameForm,
    leg: Leg,
) -> Result<(), AllocError>
    ensures { OnOk result (string_bytes lines.new ≡ string_bytes lines.old
        ++ named_between (names_in names image.now.names)
        (slice_get image.now.timetable.connections leg.first) (slice_get image.now.timetable.connections leg.last)) }
{
    match (
        connection_at(image, leg.first),
        connection_at(image, leg.last),
    ) {
        (Some(first), Some(last)) => append_hops(lines, alloc, image, names, first, last),
        _ => Ok(()),
    }
}

fn append_hops(
    lines: &mut String,
    alloc: Global,
    image: &Verified,
    names: NameForm,
    first: Connection,
    last: Connection,
) -> Result<(), AllocError>
    ensures { OnOk result (string_bytes lines.new ≡ string_bytes lines.old
        ++ named_hops (names_in names image.now.names) first last) }
{
    put_text(lines, " ride")?;
    append_trip(lines, alloc, image, names, first.trip)?;
    append_call(lines, alloc, image, names, first.dep, first.from)?;
    append_call(lines, alloc, image, names, last.arr, last.to)?;
    Ok(())
}

/// Adds a time and a stop's name, each after a space.
fn append_call(
    lines: &mut String,
    alloc: Global,
    image: &Verified,
    names: NameForm,
    time: u32,
    stop: u32,
) -> Result<(), AllocError>
    ensures { OnOk result (string_bytes lines.new ≡ string_bytes lines.old
        ++ call_text time (stop_bytes (names_in names image.now.names) stop)) }
{
    put_clock(lines, " ", time)?;
    append_stop(lines, alloc, image, names, stop)
}
