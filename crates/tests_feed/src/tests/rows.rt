//! Each file of a feed, read by itself: its rows as they are printed, or its fault.

use super::texts::{Case, Reporter, add_rows, fault_text, file_of, lines_of, number, try_cases};
use gtfs_rows::{IdHash, StopRow, StopTimes, TableFault, TripRow, rows_up_to};
use gtfs_tables::{
    read_agency, read_calendar, read_calendar_dates, read_frequencies, read_stop_times, read_stops,
    read_transfers, read_trips,
};
use indexmap::IndexSet;
use std::alloc::{AllocError, Global};
use std::fmt::{Debug, Write};
use std::hash::BuildHasher;
use std::process::Abort;
use std::test::Fail;

// One key gives one hash, different keys give different ones, and no two random keys are the same.
#[test]
fn hashes_go_by_their_keys(rt: HostRuntime) {
    let first = IdHash::of_key(1).hash_one("A");
    assert!(rt; first == IdHash::of_key(1).hash_one("A"));
    assert!(rt; first != IdHash::of_key(2).hash_one("A"));
    assert!(rt; IdHash::random(&rt).hash_one("A") != IdHash::random(&rt).hash_one("A"));
}

// The rows of a file that was read, or its fault.
fn reported<T: Debug + Drop>(
    alloc: Global,
    answer: Result<Vec<T>, TableFault>,
) -> Result<String, AllocError> {
    match answer {
        Ok(rows) => {
            let mut text = format!(in alloc; "rows {}", rows.len())?;
            add_rows(&mut text, &rows)?;
            Ok(text)
        }
        Err(fault) => fault_text(alloc, fault),
    }
}

// Adds ids, each after a slash.
fn add_ids(text: &mut String, ids: &IndexSet<String, IdHash>) -> Result<(), AllocError> {
    for id in ids.iter() {
        write!(text, "/{id}")?;
    }
    Ok(())
}

fn stop_times_text(alloc: Global, table: &StopTimes) -> Result<String, AllocError> {
    let mut text = format!(in alloc; "rows {}, trips", table.rows.len())?;
    add_ids(&mut text, &table.trips)?;
    text.push_str(", stops")?;
    add_ids(&mut text, &table.stops)?;
    add_rows(&mut text, &table.rows)?;
    Ok(text)
}

// The same for rows that name trips and stops by their indices among ids.
fn report_by_ids(
    alloc: Global,
    answer: Result<StopTimes, TableFault>,
) -> Result<String, AllocError> {
    match answer {
        Ok(table) => stop_times_text(alloc, &table),
        Err(fault) => fault_text(alloc, fault),
    }
}

// The rows of a file with these bytes, or its fault.
pub(crate) fn report_of(alloc: Global, file: &str, bytes: &[u8]) -> Result<String, AllocError> {
    match file {
        "agency.txt" => reported(alloc, read_agency(alloc, bytes)),
        "stops.txt" => reported(alloc, read_stops(alloc, bytes)),
        "trips.txt" => reported(alloc, read_trips(alloc, bytes)),
        "stop_times.txt" => report_by_ids(alloc, read_stop_times(alloc, bytes)),
        "calendar.txt" => reported(alloc, read_calendar(alloc, bytes)),
        "calendar_dates.txt" => reported(alloc, read_calendar_dates(alloc, bytes)),
        "transfers.txt" => reported(alloc, read_transfers(alloc, bytes)),
        _ => reported(alloc, read_frequencies(alloc, bytes)),
    }
}

// The same, if only so many stops, or trips, are allowed.
fn report_within(
    alloc: Global,
    file: &str,
    limit: usize,
    bytes: &[u8],
) -> Result<String, AllocError> {
    let hash = IdHash::of_key(7);
    if file == "stops.txt" {
        reported(alloc, rows_up_to::<StopRow>(limit, alloc, hash, bytes))
    } else {
        reported(alloc, rows_up_to::<TripRow>(limit, alloc, hash, bytes))
    }
}

// The rows or the fault of a file, given as `stops.txt stop_id|A|`, or as `stops.txt up to 2: stop_id|A|`.
fn report_of_file(alloc: Global, line: &str) -> Result<String, Fail> {
    if let Some((file, rest)) = line.split_once(" up to ") {
        let (limit, text) = rest.split_once(": ").unwrap_or((rest, ""));
        let text = lines_of(alloc, text)?;
        let limit = number(limit)? as usize;
        return Ok(report_within(alloc, file, limit, text.as_bytes())?);
    }
    let (file, text) = file_of(alloc, line)?;
    Ok(report_of(alloc, file, text.as_bytes())?)
}

// Reads each file by itself.
struct Reads;

impl Reporter for Reads {
    fn reported<R: Abort>(&self, _rt: &R, alloc: Global, case: Case<'_>) -> Result<String, Fail> {
        report_of_file(alloc, case.head)
    }
}

// Reads each file of a text.
pub(crate) fn try_files(rt: &impl Abort, alloc: Global, cases: &str) -> Result<(), Fail> {
    try_cases(rt, alloc, cases, &Reads)
}

const ROWS: &str = "
= agency.txt agency_id,agency_name,agency_url,agency_timezone|1,Base,http://base.example,Etc/UTC|
> rows 1
> AgencyRow { zone: \"Etc/UTC\" }
= stops.txt \u{FEFF}stop_name, stop_id ,location_type,parent_station,stop_id\r|\r|\"A, \"\"x\"\"|\", A ,0.0,S,x\r\
    B,B,9,,x|S,S,1,,x|E,\"\", 2 ,,|N,N,3,,|P,P,04,,
> rows 6
> StopRow { id: \"A\", location: Stop, parent: \"S\" }
> StopRow { id: \"B\", location: Stop, parent: \"\" }
> StopRow { id: \"S\", location: Station, parent: \"\" }
> StopRow { id: \"\", location: Entrance, parent: \"\" }
> StopRow { id: \"N\", location: Node, parent: \"\" }
> StopRow { id: \"P\", location: BoardingArea, parent: \"\" }
= stops.txt stop_id|
> rows 0
= trips.txt route_id,service_id,trip_id|R,S,one|R,S,two|
> rows 2
> TripRow { service: \"S\", id: \"one\" }
> TripRow { service: \"S\", id: \"two\" }
= stop_times.txt trip_id,arrival_time,departure_time,stop_id,stop_sequence,pickup_type,drop_off_type|\
    one,08:00:00,,A,1.0,1,0|one,,,,2,3,9|two,8:10:00,08:11:00,A,03,,1.0|
> rows 3, trips/one/two, stops/A
> StopTimeRow { trip: 0, arrival: Some(28800), departure: None, stop: Some(0), sequence: 1, board: false, alight: true }
> StopTimeRow { trip: 0, arrival: None, departure: None, stop: None, sequence: 2, board: true, alight: true }
> StopTimeRow { trip: 1, arrival: Some(29400), departure: Some(29460), stop: Some(0), sequence: 3, board: true, alight: false }
= stop_times.txt trip_id,arrival_time,departure_time,stop_id,stop_sequence|T,0:00:00,99:59:59,A,007|T,24:00:00, 9:00:00 ,A,7.000|
> rows 2, trips/T, stops/A
> StopTimeRow { trip: 0, arrival: Some(0), departure: Some(359999), stop: Some(0), sequence: 7, board: true, alight: true }
> StopTimeRow { trip: 0, arrival: Some(86400), departure: Some(32400), stop: Some(0), sequence: 7, board: true, alight: true }
= stop_times.txt trip_id,arrival_time,departure_time,stop_id,stop_sequence|T,,,B,1|U,,,A,1|T,,, ,2| T ,,,B,3|,,,C,1|
> rows 5, trips/T/U/, stops/B/A/C
> StopTimeRow { trip: 0, arrival: None, departure: None, stop: Some(0), sequence: 1, board: true, alight: true }
> StopTimeRow { trip: 1, arrival: None, departure: None, stop: Some(1), sequence: 1, board: true, alight: true }
> StopTimeRow { trip: 0, arrival: None, departure: None, stop: None, sequence: 2, board: true, alight: true }
> StopTimeRow { trip: 0, arrival: None, departure: None, stop: Some(0), sequence: 3, board: true, alight: true }
> StopTimeRow { trip: 2, arrival: None, departure: None, stop: Some(2), sequence: 1, board: true, alight: true }
= calendar.txt service_id,monday,tuesday,wednesday,thursday,friday,saturday,sunday,start_date,end_date|\
    S,1,0,1.0,0,1,0,01,20240115,20240116|
> rows 1
> CalendarRow { service: \"S\", weekdays: [true, false, true, false, true, false, true], \
    start: Day { year: 2024, month: 1, day: 15 }, end: Day { year: 2024, month: 1, day: 16 } }
= calendar_dates.txt service_id,date,exception_type|X,20240115,1|X,20240116,2|
> rows 2
> CalendarDateRow { service: \"X\", day: Day { year: 2024, month: 1, day: 15 }, exception: Added }
> CalendarDateRow { service: \"X\", day: Day { year: 2024, month: 1, day: 16 }, exception: Removed }
= transfers.txt from_stop_id,to_stop_id,transfer_type,min_transfer_time,from_trip_id|\
    A,B,,120,|A,B,1,1.5,|A,B,02,-5,|A,B,3,,|A,B,4,86401,|A,B,0,,T|
> rows 6
> TransferRow { from: \"A\", to: \"B\", kind: Recommended, seconds: Some(120) }
> TransferRow { from: \"A\", to: \"B\", kind: Timed, seconds: None }
> TransferRow { from: \"A\", to: \"B\", kind: Minimum, seconds: None }
> TransferRow { from: \"A\", to: \"B\", kind: Impossible, seconds: None }
> TransferRow { from: \"A\", to: \"B\", kind: Skipped, seconds: Some(86401) }
> TransferRow { from: \"A\", to: \"B\", kind: Skipped, seconds: None }
= frequencies.txt exact_times,headway_secs,end_time,start_time,trip_id|1,60,9:00:00,10:00:00,one|x,1200.0,25:00:01,24:00:00,two|
> rows 2
> FrequencyRow { trip: \"one\", start: 36000, end: 32400, headway: 60 }
> FrequencyRow { trip: \"two\", start: 86400, end: 90001, headway: 1200 }";

// Whether the starts of frequencies are exact isn't read. A row of stop times names its trip and its stop by their
// indices among the ids, which are in the order of the records.
#[test]
fn rows_are_read(rt: HostRuntime) -> Result<(), Fail> {
    try_files(&rt, rt.alloc(), ROWS)
}

const HEADERS_ALONE: &str = "
= agency.txt agency_timezone
> rows 0
= stops.txt stop_id\r|
> rows 0
= trips.txt trip_id,service_id\r
> rows 0
= stop_times.txt trip_id,arrival_time,departure_time,stop_id,stop_sequence|
> rows 0, trips, stops
= calendar.txt service_id,monday,tuesday,wednesday,thursday,friday,saturday,sunday,start_date,end_date|
> rows 0
= calendar_dates.txt date,service_id,exception_type|
> rows 0
= transfers.txt to_stop_id,from_stop_id|||
> rows 0
= frequencies.txt \"trip_id\",start_time,end_time,headway_secs|
> rows 0";

#[test]
fn a_header_alone(rt: HostRuntime) -> Result<(), Fail> {
    try_files(&rt, rt.alloc(), HEADERS_ALONE)
}

const LIMITS: &str = "
= stops.txt up to 2: stop_id,location_type|A,0|S,1|B,|
> rows 3
> StopRow { id: \"A\", location: Stop, parent: \"\" }
> StopRow { id: \"S\", location: Station, parent: \"\" }
> StopRow { id: \"B\", location: Stop, parent: \"\" }
= stops.txt up to 1: stop_id,location_type|A,0|S,1|B,|
> 16 TooMany stops.txt 0
= stops.txt up to 0: stop_id,location_type|A,0|S,1|B,|
> 16 TooMany stops.txt 0
= stops.txt up to 0: stop_id,location_type|A,0|B,0|A,0|
> 8 IdTwice stops.txt 3
= trips.txt up to 2: trip_id,service_id|T,S|U,S|
> rows 2
> TripRow { service: \"S\", id: \"T\" }
> TripRow { service: \"S\", id: \"U\" }
= trips.txt up to 1: trip_id,service_id|T,S|U,S|
> 16 TooMany trips.txt 0
= trips.txt up to 0: trip_id,service_id|T,S|U,S|
> 16 TooMany trips.txt 0
= trips.txt up to 0: trip_id,service_id|
> rows 0";

// Stations don't count as stops.
#[test]
fn limits_of_stops_and_trips(rt: HostRuntime) -> Result<(), Fail> {
    try_files(&rt, rt.alloc(), LIMITS)
}
