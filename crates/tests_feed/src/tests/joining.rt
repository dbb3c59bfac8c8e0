//! Small feeds joined: what each row becomes, and the first fault of each kind.

use super::texts::{Case, Reporter, add_rows, fault_text, joined, try_cases};
use gtfs_tables::Feed;
use std::alloc::{AllocError, Global};
use std::process::Abort;
use std::test::Fail;

// The files that stand in where a case has none.
const BASE: &str = "\
agency.txt: UTC
stops.txt: A,0,|B,0,|C,0,
trips.txt: S,first|S,second
stop_times.txt: first,08:00:00,,A,1|first,08:10:00,,B,2|first,08:30:00,,C,3|second,08:12:00,,B,1|second,08:20:00,,C,2
calendar.txt: S,1,1,1,1,1,1,1,20240101,20241231";

// The rows of two trips are ordered by trip and then by stop_sequence, whatever their order in the file.
const JOINED: &str = "
= strict stops trips rows frequencies transfers: the base
> skipped 0, services 1
> Stop { id: \"A\", station: None }
> Stop { id: \"B\", station: None }
> Stop { id: \"C\", station: None }
> Trip { id: \"first\", service: \"S\", first: 0, end: 3, repeats: false, flex: false }
> Trip { id: \"second\", service: \"S\", first: 3, end: 5, repeats: false, flex: false }
> StopTimeRow { trip: 0, arrival: Some(28800), departure: None, stop: Some(0), sequence: 1, board: true, alight: true }
> StopTimeRow { trip: 0, arrival: Some(29400), departure: None, stop: Some(1), sequence: 2, board: true, alight: true }
> StopTimeRow { trip: 0, arrival: Some(30600), departure: None, stop: Some(2), sequence: 3, board: true, alight: true }
> StopTimeRow { trip: 1, arrival: Some(29520), departure: None, stop: Some(1), sequence: 1, board: true, alight: true }
> StopTimeRow { trip: 1, arrival: Some(30000), departure: None, stop: Some(2), sequence: 2, board: true, alight: true }
= loose trips rows frequencies: rows in any order, of a flex trip and of one that repeats
stop_times.txt: second,08:20:00,,C,2|first,08:10:00,,Z,2|second,08:12:00,,B,1|first,08:00:00,,,1
frequencies.txt: second,9:00:00,10:00:00,1200
> skipped 0, services 1
> Trip { id: \"first\", service: \"S\", first: 0, end: 2, repeats: false, flex: true }
> Trip { id: \"second\", service: \"S\", first: 2, end: 4, repeats: true, flex: false }
> StopTimeRow { trip: 0, arrival: Some(28800), departure: None, stop: None, sequence: 1, board: true, alight: true }
> StopTimeRow { trip: 0, arrival: Some(29400), departure: None, stop: None, sequence: 2, board: true, alight: true }
> StopTimeRow { trip: 1, arrival: Some(29520), departure: None, stop: Some(1), sequence: 1, board: true, alight: true }
> StopTimeRow { trip: 1, arrival: Some(30000), departure: None, stop: Some(2), sequence: 2, board: true, alight: true }
> Frequency { trip: 1, start: 32400, end: 36000, headway: 1200 }
= loose trips frequencies: a repeat of the first trip is its own, and no other's
frequencies.txt: first,9:00:00,10:00:00,1200
> skipped 0, services 1
> Trip { id: \"first\", service: \"S\", first: 0, end: 3, repeats: true, flex: false }
> Trip { id: \"second\", service: \"S\", first: 3, end: 5, repeats: false, flex: false }
> Frequency { trip: 0, start: 32400, end: 36000, headway: 1200 }
= loose stops transfers: a station is an end of a transfer and a parent, and numbers go by stops alone
stops.txt: P,1,|A,0,P|B,0,|C,,|E,2,P
transfers.txt: P,B,2,60|X,Y,7,
> skipped 1, services 1
> Stop { id: \"A\", station: Some(0) }
> Stop { id: \"B\", station: None }
> Stop { id: \"C\", station: None }
> Transfer { from: Station(0), to: Stop(1), kind: Minimum, seconds: Some(60) }
= loose: a trip of one row without a time
stop_times.txt: first,,,A,1
> skipped 0, services 1
= loose: no hop needs a duration
stop_times.txt: first,08:00:00,,A,1|first,,,B,2|first,08:00:01,,C,3
> skipped 0, services 1";

const FAULTS: &str = "
= loose: an unknown parent
stops.txt: A,0,|B,0,A|C,0,
> 9 UnknownId stops.txt 2
= loose: an unknown trip before an unknown stop
stop_times.txt: first,08:00:00,,A,1|third,08:00:00,,X,1
> 9 UnknownId stop_times.txt 2
= loose: an unknown trip that repeats
frequencies.txt: second,9:00:00,10:00:00,1200|third,9:00:00,9:00:00,1
> 9 UnknownId frequencies.txt 2
= loose: an unknown end
transfers.txt from_stop_id,to_stop_id|A,B|A,X
> 9 UnknownId transfers.txt 2
= loose: the stop of a trip with one row is judged
stops.txt: A,0,|B,0,|C,0,|E,2,
stop_times.txt: first,,,E,1
> 15 NotAStop stop_times.txt 1
= loose: an entrance is no end of a transfer
stops.txt: A,0,|B,0,|C,0,|E,2,
transfers.txt from_stop_id,to_stop_id|E,A
> 15 NotAStop transfers.txt 1
= loose: a number twice
stop_times.txt: first,08:10:00,,B,2|first,08:00:00,,A,1|first,08:30:00,,C,2
> 11 SequenceTwice stop_times.txt 3
= loose: no time at the end
stop_times.txt: first,08:00:00,,A,1|first,,,B,2
> 12 EndWithoutTime stop_times.txt 2
= loose: no time at the beginning
stop_times.txt: first,08:00:00,,A,2|first,,,B,1
> 12 EndWithoutTime stop_times.txt 2
= loose: times go back over a blank row
stop_times.txt: first,08:10:00,,A,1|first,,,B,2|first,08:00:00,,C,3
> 13 TimeGoesBack stop_times.txt 3
= loose: a departure before its arrival
stop_times.txt: first,08:10:00,08:09:00,A,1|first,08:20:00,,B,2
> 13 TimeGoesBack stop_times.txt 1
= strict: an arrival at the departure before it
stop_times.txt: first,08:00:00,,A,1|first,,,B,2|first,08:00:01,,C,3
> 14 HopWithoutDuration stop_times.txt 2";

// Feeds with two faults, of which the first is reported.
const FIRST_FAULTS: &str = "
= loose: the sequence of a trip before its times
stop_times.txt: first,08:10:00,,A,1|first,08:00:00,,B,2|first,08:30:00,,C,2
> 11 SequenceTwice stop_times.txt 3
= loose: trips in their order
stop_times.txt: second,08:10:00,,A,1|second,08:20:00,,B,1|first,08:30:00,,C,1|first,,,C,2
> 12 EndWithoutTime stop_times.txt 4
= loose: rows of stop times in theirs, before any times
stop_times.txt: second,08:10:00,,X,1|third,08:20:00,,B,1|first,08:30:00,,C,1|first,,,C,2
> 9 UnknownId stop_times.txt 1
= strict: hops by their sequence
stop_times.txt: first,08:01:00,,C,9|first,08:00:00,,B,5|first,08:00:00,,A,1
> 14 HopWithoutDuration stop_times.txt 2";

// Adds the rows of a part of the feed.
fn add_part(text: &mut String, feed: &Feed, part: &str) -> Result<(), AllocError> {
    match part {
        "stops" => add_rows(text, &feed.stops),
        "trips" => add_rows(text, &feed.trips),
        "rows" => add_rows(text, &feed.stop_times),
        "frequencies" => add_rows(text, &feed.frequencies),
        "transfers" => add_rows(text, &feed.transfers),
        _ => Ok(()),
    }
}

fn feed_text(alloc: Global, feed: &Feed, parts: &str) -> Result<String, AllocError> {
    let (skipped, services) = (feed.skipped, feed.calendar.len());
    let mut text = format!(in alloc; "skipped {skipped}, services {services}")?;
    for part in parts.split(' ') {
        add_part(&mut text, feed, part)?;
    }
    Ok(text)
}

// Joins the files of a case, strictly or loosely, and tells the parts of the feed that the head names.
struct Joins;

impl Reporter for Joins {
    fn reported<R: Abort>(&self, _rt: &R, alloc: Global, case: Case<'_>) -> Result<String, Fail> {
        let (parts, _) = case.head.split_once(": ").unwrap_or((case.head, ""));
        match joined(alloc, case.given, BASE, parts.starts_with("strict")) {
            Ok(feed) => Ok(feed_text(alloc, &feed, parts)?),
            Err(fault) => Ok(fault_text(alloc, fault)?),
        }
    }
}

#[test]
fn feeds_are_joined(rt: HostRuntime) -> Result<(), Fail> {
    for cases in [JOINED, FAULTS, FIRST_FAULTS] {
        try_cases(&rt, rt.alloc(), cases, &Joins)?;
    }
    Ok(())
}
