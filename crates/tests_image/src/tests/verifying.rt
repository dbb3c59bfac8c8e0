//! Words that are images, and the first fault of words that aren't.

ghost use Rattle.std.specs.Prelude.{◌<◌, ◌+◌};

use image_layout::{sample_words, second_sample_words};
use image_verifier::*;
use std::alloc::{AllocError, Global};
use std::process::Abort;
use timetable::{Connection, Footpath, Names, Timetable, TripName};

/// Four stops, three trips and four connections, flagged 1, 2, 3 and 0, an hour before 1970. Stops
/// 0 and 2 are both called Ham, stop 1 and trip 1 have empty names.
const EARLY: [u32; 67] = [
    0x50415343, 1, 4, 3, 4, 6, 21, 4294963696, 4294967295, 0, 1, 100, 160, 0, 1, 2, 3, 100, 130, 1,
    2, 1, 2, 160, 220, 0, 3, 3, 0, 300, 400, 2, 0, 0, 2, 4, 5, 6, 0, 60, 1, 45, 0, 30, 1, 0, 2, 20,
    3, 15, 0, 3, 3, 6, 16, 18, 18, 21, 20240115, 0, 4294967295, 0x486D6148, 0x755A6D61, 0x6D612067,
    0x65655320, 0x32523152, 0x00000032,
];

/// The same in the current layout: trips 0 and 2 are repeats 7 and 4294967295 on their days, trip 1 is a repeat 0.
const REPEATED: [u32; 70] = [
    0x50415343, 2, 4, 3, 4, 6, 21, 4294963696, 4294967295, 0, 1, 100, 160, 0, 1, 2, 3, 100, 130, 1,
    2, 1, 2, 160, 220, 0, 3, 3, 0, 300, 400, 2, 0, 0, 2, 4, 5, 6, 0, 60, 1, 45, 0, 30, 1, 0, 2, 20,
    3, 15, 0, 3, 3, 6, 16, 18, 18, 21, 20240115, 0, 4294967295, 7, 0, 4294967295, 0x486D6148,
    0x755A6D61, 0x6D612067, 0x65655320, 0x32523152, 0x00000032,
];

fn connection(
    ends: (u32, u32),
    times: (u32, u32),
    trip: u32,
    board: bool,
    alight: bool,
) -> Connection {
    Connection {
        from: ends.0,
        to: ends.1,
        dep: times.0,
        arr: times.1,
        trip,
        board,
        alight,
    }
}

/// The image of the words. A refusal is returned as want of memory, since no other can occur.
fn image(alloc: Global, words: &[u32]) -> Result<Verified, AllocError> {
    match verify(alloc, words.to_vec(alloc)?) {
        Ok(image) => Ok(image),
        Err(_) => Err(AllocError),
    }
}

fn assert_sample<R: Abort>(rt: &R, image: &Verified) {
    assert!(rt; image.stops() == 3 && image.trips() == 2);
    assert!(rt; image.len() == 3);
    assert!(rt; image.footpath_count() == 3 && image.base() == 1705276800);
    let last = connection((1, 2), (29520, 30000), 1, true, true);
    assert!(rt; image.connection(2) == last);
    assert!(rt; image.find(b"C") == Some(2));
    assert!(rt; image.words() == sample_words().as_slice());
}

#[test]
fn sample_is_an_image(rt: HostRuntime) -> Result<(), AllocError> {
    assert_sample(&rt, &image(rt.alloc(), &sample_words())?);
    Ok(())
}

fn assert_connections<R: Abort>(rt: &R, image: &Verified) {
    assert!(rt; image.len() == 4);
    let first = connection((0, 1), (100, 160), 0, true, false);
    assert!(rt; image.connection(0) == first);
    let second = connection((2, 3), (100, 130), 1, false, true);
    assert!(rt; image.connection(1) == second);
    let third = connection((1, 2), (160, 220), 0, true, true);
    assert!(rt; image.connection(2) == third);
    let fourth = connection((3, 0), (300, 400), 2, false, false);
    assert!(rt; image.connection(3) == fourth);
}

fn assert_counts<R: Abort>(rt: &R, image: &Verified) {
    assert!(rt; image.stops() == 4 && image.trips() == 3);
    assert!(rt; image.base() == -3600);
    assert!(rt; image.words() == EARLY.as_slice());
}

/// Times, each with the first connection that departs then or later.
const DEPARTURES: [(u32, usize); 7] = [
    (0, 0),
    (100, 0),
    (101, 2),
    (160, 2),
    (161, 3),
    (300, 3),
    (301, 4),
];

fn assert_departures<R: Abort>(rt: &R, image: &Verified) {
    for (time, first) in DEPARTURES.iter() {
        assert!(rt; image.first_at(*time) == *first, "at {time}");
    }
}

#[test]
fn first_departures_are_found(rt: HostRuntime) -> Result<(), AllocError> {
    assert_departures(&rt, &image(rt.alloc(), &EARLY)?);
    Ok(())
}

fn assert_footpaths<R: Abort>(rt: &R, image: &Verified) {
    let froms = [0, 1, 0, 1, 2, 3];
    let targets = [0, 0, 1, 1, 2, 3];
    let times = [60, 45, 30, 0, 20, 15];
    assert!(rt; image.footpath_count() == 6);
    for index in 0..6 {
        let wanted = Footpath {
            from: froms[index],
            to: targets[index],
            secs: times[index],
        };
        assert!(rt; image.footpath(index) == wanted, "place {index}");
    }
}

fn assert_walks<R: Abort>(rt: &R, image: &Verified) {
    let places = [(0, 2), (2, 4), (4, 5), (5, 6)];
    assert!(rt; image.stops() == 4);
    for stop in 0..4 {
        assert!(rt; image.walks_into(stop) == places[stop], "stop {stop}");
    }
}

#[test]
fn a_timetable_is_read_back(rt: HostRuntime) -> Result<(), AllocError> {
    let image = image(rt.alloc(), &EARLY)?;
    assert_counts(&rt, &image);
    assert_connections(&rt, &image);
    assert_footpaths(&rt, &image);
    assert_walks(&rt, &image);
    Ok(())
}

fn assert_footpaths_into<R: Abort>(rt: &R, image: &Verified) {
    for stop in 0..image.stops() as usize {
        let (start, end) = image.walks_into(stop);
        for index in start..end {
            assert!(rt;
                image.footpath_into(stop, index) == image.footpath(index),
                "into {stop}"
            );
        }
    }
}

#[test]
fn footpaths_of_a_stop_are_those_at_their_places(rt: HostRuntime) -> Result<(), AllocError> {
    assert_footpaths_into(&rt, &image(rt.alloc(), &EARLY)?);
    Ok(())
}

/// Whether a name has these bytes.
fn is_named(image: &Verified, name: usize, text: &str) -> bool
    requires { name < image.now.timetable.stops + image.now.timetable.trips }
{
    if image.name_len(name) != text.len() {
        return false;
    }
    for (byte, expected) in text.as_bytes().iter().enumerate() {
        if byte >= image.name_len(name) || image.name_byte(name, byte) != *expected {
            return false;
        }
    }
    true
}

/// The names of four stops, then those of three trips.
const NAMES: [&str; 7] = ["Ham", "", "Ham", "Zug am See", "R1", "", "R22"];

fn assert_names<R: Abort>(rt: &R, image: &Verified) {
    assert!(rt; image.stops() == 4);
    assert!(rt; image.trips() == 3);
    for (name, text) in NAMES.iter().enumerate() {
        assert!(rt; is_named(image, name, text), "name {name}");
    }
}

#[test]
fn names_are_read_back(rt: HostRuntime) -> Result<(), AllocError> {
    assert_names(&rt, &image(rt.alloc(), &EARLY)?);
    Ok(())
}

/// Names, each with the first stop that has it. A trip is no stop.
const FOUND: [(&str, Option<u32>); 6] = [
    ("Ham", Some(0)),
    ("", Some(1)),
    ("Zug am See", Some(3)),
    ("Zug", None),
    ("Zug am Bee", None),
    ("R1", None),
];

fn assert_found<R: Abort>(rt: &R, image: &Verified) {
    for (name, stop) in FOUND.iter() {
        assert!(rt; image.find(name.as_bytes()) == *stop, "{name}");
    }
}

#[test]
fn least_stop_of_a_name_is_found(rt: HostRuntime) -> Result<(), AllocError> {
    assert_found(&rt, &image(rt.alloc(), &EARLY)?);
    Ok(())
}

/// Three stops, their loops, and nothing that runs.
const NO_TRIPS: [u32; 24] = [
    0x50415343, 1, 3, 0, 0, 3, 3, 1705276800, 0, 0, 1, 2, 3, 0, 0, 1, 0, 2, 0, 0, 1, 2, 3,
    0x00434241,
];

fn is_without_trips(image: &Verified) -> bool {
    image.trips() == 0 && image.len() == 0 && image.first_at(0) == 0 && image.find(b"B") == Some(1)
}

#[test]
fn image_without_trips(rt: HostRuntime) -> Result<(), AllocError> {
    assert!(rt; is_without_trips(&image(rt.alloc(), &NO_TRIPS)?));
    Ok(())
}

#[test]
fn a_fault_has_a_number_a_name_and_a_message(rt: HostRuntime) -> Result<(), AllocError> {
    let fault = ImageFault::TimeRange(0);
    assert!(rt; fault.number() == 69 && fault.name() == "TimeRange");
    let message = format!(in rt.alloc(); "{}", ImageFault::NotClosed(0, 1, 2))?;
    assert!(rt;
        message.as_str()
            == "footpaths lead from stop 0 to stop 1 and on to stop 2, and none from the first to the last is as short"
    );
    Ok(())
}

/// Whether an image has the sample's words, or they came back; and the fault, if there is one.
fn judged(answer: Result<Verified, (Vec<u32>, ImageFault)>) -> (bool, Option<ImageFault>) {
    match answer {
        Ok(image) => (image.words() == sample_words().as_slice(), None),
        Err((words, fault)) => (words.as_slice() == sample_words().as_slice(), Some(fault)),
    }
}

/// Whichever growth is refused, the only error is that memory ran out, and the very same words come back. A refused
/// growth ends the test with `AllocError`.
#[test]
fn refused_growth_gives_the_words_back(rt: HostRuntime) -> Result<(), AllocError> {
    let words = sample_words().to_vec(rt.alloc())?;
    let (are_same, fault) = judged(verify(rt.alloc(), words));
    assert!(rt; are_same);
    let Some(fault) = fault else {
        return Ok(());
    };
    assert!(rt; fault == ImageFault::OutOfMemory);
    Err(AllocError)
}

/// The day and the repeat of each of three trips.
fn assert_trips<R: Abort>(rt: &R, image: &Verified, trips: [(u32, u32); 3]) {
    assert!(rt; image.trips() == 3);
    for trip in 0..3 {
        assert!(rt;
            (image.trip_day(trip), image.trip_repeat(trip)) == trips[trip],
            "trip {trip}"
        );
    }
}

fn assert_repeated<R: Abort>(rt: &R, image: &Verified) {
    assert_trips(rt, image, [(20240115, 7), (0, 0), (4294967295, 4294967295)]);
    assert!(rt; image.find(b"Ham") == Some(0) && image.words() == REPEATED.as_slice());
}

#[test]
fn days_and_repeats_are_read_back(rt: HostRuntime) -> Result<(), AllocError> {
    let first = [(20240115, 0), (0, 0), (4294967295, 0)];
    assert_trips(&rt, &image(rt.alloc(), &EARLY)?, first);
    assert_repeated(&rt, &image(rt.alloc(), &REPEATED)?);
    Ok(())
}

fn assert_timetable<R: Abort>(rt: &R, image: &Verified, timetable: &Timetable) {
    assert!(rt; timetable.stops == 4 && timetable.trips == 3);
    assert!(rt; timetable.connections.len() == 4);
    assert!(rt; timetable.footpaths.len() == 6 && image.footpath_count() == 6);
    for index in 0..6 {
        assert!(rt;
            image.footpath(index) == timetable.footpaths[index],
            "place {index}"
        );
    }
}

fn assert_stop_names<R: Abort>(rt: &R, stops: &[String]) {
    let names = ["Ham", "", "Ham", "Zug am See"];
    assert!(rt; stops.len() == 4);
    for stop in 0..4 {
        assert!(rt; stops[stop].as_str() == names[stop]);
    }
}

fn assert_trip_names<R: Abort>(rt: &R, trips: &[TripName]) {
    let wanted = [(20240115, 7), (0, 0), (4294967295, 4294967295)];
    assert!(rt; trips.len() == 3);
    for trip in 0..3 {
        let (day, repeat) = wanted[trip];
        let name = &trips[trip];
        assert!(rt; name.day == day && name.repeat == repeat);
    }
}

fn assert_values<R: Abort>(rt: &R, image: &Verified, timetable: &Timetable, names: &Names) {
    assert_timetable(rt, image, timetable);
    assert!(rt; names.base == -3600);
    assert_stop_names(rt, &names.stops);
    assert_trip_names(rt, &names.trips);
}

/// An image is unpacked into a timetable and names.
#[test]
fn images_are_unpacked(rt: HostRuntime) -> Result<(), AllocError> {
    let image = image(rt.alloc(), &REPEATED)?;
    let (timetable, names) = image.to_timetable(rt.alloc())?;
    assert_values(&rt, &image, &timetable, &names);
    Ok(())
}

/// How many connections an unpacked image has, and how many trips have names.
fn unpacked(alloc: Global, image: &Verified) -> Result<(usize, usize), AllocError> {
    let (timetable, names) = image.to_timetable(alloc)?;
    Ok((timetable.connections.len(), names.trips.len()))
}

/// Whichever growth is refused while an image is unpacked, the error is that memory ran out, and the image is
/// unchanged.
#[test]
fn refused_growth_of_unpacking_is_reported(rt: HostRuntime) -> Result<(), AllocError> {
    let image = image(rt.alloc(), &second_sample_words())?;
    let counts = unpacked(rt.alloc(), &image);
    assert!(rt; image.words() == second_sample_words().as_slice());
    assert!(rt; counts? == (3, 2));
    Ok(())
}
