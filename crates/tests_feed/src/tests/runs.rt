//! Small feeds, and the runs and connections that they make.

ghost use Rattle.std.specs.Prelude.{◌≡◌};
ghost use Rattle.connections.specs.Faults.{too_many_of};

use super::texts::{
    Case, Reporter, add_rows, day, joined, joined_or_refused, number, try_cases, zone_of,
};
use connections::{MAX_DAYS, Report, Run, RunsFault, runs_of};
use gtfs_tables::{FaultKind, Feed, Table};
use service_days::{DayFault, Zone};
use std::alloc::{AllocError, Global};
use std::process::Abort;
use std::test::Fail;
use timetable::Connection;

// The files that stand in where a case has none: one trip on one day, with three rows at 08:00:00 and one at 08:01:00.
const LEVEL: &str = "\
agency.txt: Etc/UTC
stops.txt stop_id|A|B|C|D
trips.txt: S,T
stop_times.txt: T,08:00:00,08:00:00,A,1|T,08:00:00,08:00:00,B,2|T,08:00:00,08:00:00,C,3|T,08:01:00,08:01:00,D,4
calendar_dates.txt: S,20240115,1
transfers.txt from_stop_id,to_stop_id,transfer_type|A,B,9";

// Feeds, each case with what it shows, the first day, the number of days and the zone; and what they make. In the
// second, 25:10:00 of the first day is 1711843800, 08:00:00 of the second day is 1711864800, and the base is
// 1711753200, the start of the first. In the third, X runs on its only day and Y never; a flex trip and a trip of one
// row run on no day. In the last, connections are ordered by departure, then by arrival, then by run; there are two
// runs on each of two days.
const FEEDS: &str = "
= times are lifted: 20240115 1 fixed:0
> Report { stops: 4, runs: 1, connections: 3, footpaths: 0, lifted: 1, flex: 0, frequencies: 0, skipped: 1 }
> Run { day: Day { year: 2024, month: 1, day: 15 }, trip: 0, repeat: 0, start: None }
> Connection { from: 0, to: 1, dep: 28800, arr: 28801, trip: 0, board: true, alight: true }
> Connection { from: 1, to: 2, dep: 28801, arr: 28802, trip: 0, board: true, alight: true }
> Connection { from: 2, to: 3, dep: 28802, arr: 28860, trip: 0, board: true, alight: true }
= the clocks are changed in the night to the second day: 20240330 2 CET-1CEST,M3.5.0,M10.5.0/3
trips.txt: first,T|second,U
stop_times.txt: T,25:10:00,25:10:00,A,1|T,25:11:00,25:11:00,B,2|U,08:00:00,08:00:00,A,1|U,08:01:00,08:01:00,B,2
calendar_dates.txt: first,20240330,1|second,20240331,1
> Report { stops: 4, runs: 2, connections: 2, footpaths: 0, lifted: 0, flex: 0, frequencies: 0, skipped: 1 }
> Run { day: Day { year: 2024, month: 3, day: 30 }, trip: 0, repeat: 0, start: None }
> Run { day: Day { year: 2024, month: 3, day: 31 }, trip: 1, repeat: 0, start: None }
> Connection { from: 0, to: 1, dep: 90600, arr: 90660, trip: 0, board: true, alight: true }
> Connection { from: 0, to: 1, dep: 111600, arr: 111660, trip: 1, board: true, alight: true }
= trips run with their services: 20240115 2 fixed:0
trips.txt: Y,T|X,U|X,F|X,V
stop_times.txt trip_id,arrival_time,departure_time,stop_id,stop_sequence,pickup_type,drop_off_type|T,08:00:00,08:00:00,A,1,,|\
    T,08:10:00,08:10:00,B,2,,|U,08:00:00,08:00:00,A,1,1,|U,,,B,2,,1|U,08:10:00,08:12:00,C,3,,|F,08:00:00,08:00:00,A,1,,|\
    F,08:10:00,08:10:00,,2,,|V,08:00:00,08:00:00,A,1,,
calendar_dates.txt: X,20240115,1|X,20240116,2
> Report { stops: 4, runs: 1, connections: 2, footpaths: 0, lifted: 0, flex: 1, frequencies: 0, skipped: 1 }
> Run { day: Day { year: 2024, month: 1, day: 15 }, trip: 1, repeat: 0, start: None }
> Connection { from: 0, to: 1, dep: 28800, arr: 29100, trip: 0, board: false, alight: false }
> Connection { from: 1, to: 2, dep: 29100, arr: 29400, trip: 0, board: true, alight: true }
= connections are in order: 20240115 2 fixed:3600
trips.txt: S,T|S,U
stop_times.txt: T,08:00:00,08:00:00,A,1|T,08:20:00,08:20:00,B,2|U,08:00:00,08:00:00,A,1|U,08:10:00,08:10:00,B,2|U,32:00:00,32:00:00,C,3|\
    U,32:20:00,32:20:00,D,4
calendar_dates.txt: S,20240115,1|S,20240116,1
> Report { stops: 4, runs: 4, connections: 8, footpaths: 0, lifted: 0, flex: 0, frequencies: 0, skipped: 1 }
> Run { day: Day { year: 2024, month: 1, day: 15 }, trip: 0, repeat: 0, start: None }
> Run { day: Day { year: 2024, month: 1, day: 15 }, trip: 1, repeat: 0, start: None }
> Run { day: Day { year: 2024, month: 1, day: 16 }, trip: 0, repeat: 0, start: None }
> Run { day: Day { year: 2024, month: 1, day: 16 }, trip: 1, repeat: 0, start: None }
> Connection { from: 0, to: 1, dep: 28800, arr: 29400, trip: 1, board: true, alight: true }
> Connection { from: 0, to: 1, dep: 28800, arr: 30000, trip: 0, board: true, alight: true }
> Connection { from: 1, to: 2, dep: 29400, arr: 115200, trip: 1, board: true, alight: true }
> Connection { from: 0, to: 1, dep: 115200, arr: 115800, trip: 3, board: true, alight: true }
> Connection { from: 2, to: 3, dep: 115200, arr: 116400, trip: 1, board: true, alight: true }
> Connection { from: 0, to: 1, dep: 115200, arr: 116400, trip: 2, board: true, alight: true }
> Connection { from: 1, to: 2, dep: 115800, arr: 201600, trip: 3, board: true, alight: true }
> Connection { from: 2, to: 3, dep: 201600, arr: 202800, trip: 3, board: true, alight: true }";

// Two trips, T of three stops and U of two.
const TWO_TRIPS: &str = "\
trips.txt: S,T|S,U
stop_times.txt: T,07:00:00,08:00:00,A,1|T,08:10:00,08:10:00,B,2|T,08:30:00,08:30:00,C,3|U,08:12:00,08:12:00,B,1|U,08:20:00,08:20:00,C,2
calendar_dates.txt: S,20240115,1|S,20240116,1";

// Runs are ordered by day, trip and repeat. A repeat's first arrival isn't used: here it is before the base.
const REPEATS: &str = "
= repeats depart at their starts: 20240115 1 fixed:0
frequencies.txt: T,00:20:00,00:20:01,7|T,00:00:00,00:40:00,1200
> Report { stops: 4, runs: 3, connections: 5, footpaths: 0, lifted: 0, flex: 0, frequencies: 1, skipped: 1 }
> Run { day: Day { year: 2024, month: 1, day: 15 }, trip: 0, repeat: 0, start: Some(0) }
> Run { day: Day { year: 2024, month: 1, day: 15 }, trip: 0, repeat: 1, start: Some(1200) }
> Run { day: Day { year: 2024, month: 1, day: 15 }, trip: 1, repeat: 0, start: None }
> Connection { from: 0, to: 1, dep: 0, arr: 600, trip: 0, board: true, alight: true }
> Connection { from: 1, to: 2, dep: 600, arr: 1800, trip: 0, board: true, alight: true }
> Connection { from: 0, to: 1, dep: 1200, arr: 1800, trip: 1, board: true, alight: true }
> Connection { from: 1, to: 2, dep: 1800, arr: 3000, trip: 1, board: true, alight: true }
> Connection { from: 1, to: 2, dep: 29520, arr: 30000, trip: 2, board: true, alight: true }
= the starts of a trip are the same on each of its days: 20240115 3 fixed:0
trips.txt: X,T|S,U
calendar_dates.txt: X,20240115,1|X,20240117,1|S,20240116,1|S,20240117,1
frequencies.txt: U,06:00:00,06:10:00,300|T,00:20:00,00:20:01,7|T,00:00:00,00:40:00,1200
> Report { stops: 4, runs: 8, connections: 12, footpaths: 0, lifted: 0, flex: 0, frequencies: 2, skipped: 1 }
> Run { day: Day { year: 2024, month: 1, day: 15 }, trip: 0, repeat: 0, start: Some(0) }
> Run { day: Day { year: 2024, month: 1, day: 15 }, trip: 0, repeat: 1, start: Some(1200) }
> Run { day: Day { year: 2024, month: 1, day: 16 }, trip: 1, repeat: 0, start: Some(21600) }
> Run { day: Day { year: 2024, month: 1, day: 16 }, trip: 1, repeat: 1, start: Some(21900) }
> Run { day: Day { year: 2024, month: 1, day: 17 }, trip: 0, repeat: 0, start: Some(0) }
> Run { day: Day { year: 2024, month: 1, day: 17 }, trip: 0, repeat: 1, start: Some(1200) }
> Run { day: Day { year: 2024, month: 1, day: 17 }, trip: 1, repeat: 0, start: Some(21600) }
> Run { day: Day { year: 2024, month: 1, day: 17 }, trip: 1, repeat: 1, start: Some(21900) }
> Connection { from: 0, to: 1, dep: 0, arr: 600, trip: 0, board: true, alight: true }
> Connection { from: 1, to: 2, dep: 600, arr: 1800, trip: 0, board: true, alight: true }
> Connection { from: 0, to: 1, dep: 1200, arr: 1800, trip: 1, board: true, alight: true }
> Connection { from: 1, to: 2, dep: 1800, arr: 3000, trip: 1, board: true, alight: true }
> Connection { from: 1, to: 2, dep: 108000, arr: 108480, trip: 2, board: true, alight: true }
> Connection { from: 1, to: 2, dep: 108300, arr: 108780, trip: 3, board: true, alight: true }
> Connection { from: 0, to: 1, dep: 172800, arr: 173400, trip: 4, board: true, alight: true }
> Connection { from: 1, to: 2, dep: 173400, arr: 174600, trip: 4, board: true, alight: true }
> Connection { from: 0, to: 1, dep: 174000, arr: 174600, trip: 5, board: true, alight: true }
> Connection { from: 1, to: 2, dep: 174600, arr: 175800, trip: 5, board: true, alight: true }
> Connection { from: 1, to: 2, dep: 194400, arr: 194880, trip: 6, board: true, alight: true }
> Connection { from: 1, to: 2, dep: 194700, arr: 195180, trip: 7, board: true, alight: true }";

// How many runs and connections these trips make on two days, whether the starts are exact or not, in whichever order
// the rows are, and also if so many rows overlap that seconds are marked.
const COUNTED: &str = "
= three starts: 20240115 2 fixed:0
frequencies.txt: T,09:00:00,10:00:00,1200
> runs 8, connections 14, frequencies 1
= an end time is no start: 20240115 2 fixed:0
frequencies.txt: T,09:00:00,09:40:00,1200
> runs 6, connections 10, frequencies 1
= a row without a start: 20240115 2 fixed:0
frequencies.txt: T,09:00:00,09:00:00,1200
> runs 2, connections 2, frequencies 1
= rows in any order, exact or not: 20240115 2 fixed:0
frequencies.txt trip_id,start_time,end_time,headway_secs,exact_times|T,09:20:00,09:40:01,600,1|T,09:00:00,10:00:00,1200,0
> runs 10, connections 18, frequencies 1
= headways longer than their rows: 20240115 2 fixed:0
frequencies.txt: U,00:00:00,00:00:01,99999|T,00:00:00,24:00:00,86399
> runs 6, connections 10, frequencies 2
= so many rows that seconds are marked: 20240115 2 fixed:0
frequencies.txt: T,00:00:00,00:01:00,10|T,00:00:05,00:01:00,10|T,00:00:00,00:02:00,7|T,00:00:03,00:02:00,7|T,00:00:30,00:00:45,1|\
    T,00:00:30,00:02:00,45
> runs 108, connections 214, frequencies 1
= no frequencies: 20240115 2 fixed:0
> runs 4, connections 6, frequencies 0";

// The first day without a start; or, where the clocks skip two days, so that the day after them starts earlier than the
// second of them, the first run with a time before the base: not W, nor V after U.
const OUT_OF_RANGE: &str = "
= the last day: 99991231 1 fixed:0
> Range(Day(Day { year: 9999, month: 12, day: 31 }))
= the last but one, and the last: 99991230 2 fixed:0
> Range(Day(Day { year: 9999, month: 12, day: 31 }))
= the last but one: 99991230 1 fixed:0
> runs 0, connections 0, frequencies 0
= a run before the base: 20240117 2 AAA24BBB-24,J16/0,J300/0
trips.txt: S,T|X,W|X,U|X,V
stop_times.txt: T,08:00:00,08:00:00,A,1|T,08:10:00,08:10:00,B,2|W,24:00:00,24:00:00,A,1|W,25:00:00,25:00:00,B,2|\
    U,23:59:59,23:59:59,A,1|U,25:00:00,25:00:00,B,2|V,08:00:00,08:00:00,A,1|V,08:10:00,08:10:00,B,2
calendar_dates.txt: S,20240117,1|X,20240118,1
> Range(Run(Run { day: Day { year: 2024, month: 1, day: 18 }, trip: 2, repeat: 0, start: None }))
= a repeat before the base: 20240117 2 AAA24BBB-24,J16/0,J300/0
trips.txt: S,T|X,U
stop_times.txt: T,08:00:00,08:00:00,A,1|T,08:10:00,08:10:00,B,2|U,24:00:00,24:00:00,A,1|U,25:00:00,25:00:00,B,2
calendar_dates.txt: S,20240117,1|X,20240118,1
frequencies.txt: U,23:00:00,26:00:00,3600
> Range(Run(Run { day: Day { year: 2024, month: 1, day: 18 }, trip: 1, repeat: 0, start: Some(82800) }))";

type Made = (Vec<Connection>, Vec<Run>, Report);

// What a feed makes on some days, given as `20240115 1 fixed:0`.
fn made_of(alloc: Global, feed: &Feed, asked: &str) -> Result<Result<Made, RunsFault>, Fail> {
    let (first, rest) = asked.split_once(' ').unwrap_or((asked, ""));
    let (days, zone) = rest.split_once(' ').unwrap_or((rest, ""));
    let first = day(first)?;
    let days = number(days)?;
    if days < 1 || days > MAX_DAYS {
        return Err(Fail::new("a number of days"));
    }
    Ok(runs_of(alloc, feed, first, days, &zone_of(alloc, zone)?))
}

// What the files of a text, together with others, make on some days.
fn made(
    alloc: Global,
    files: &str,
    further: &str,
    asked: &str,
) -> Result<Result<Made, RunsFault>, Fail> {
    let files = format!(in alloc; "{files}\n{further}")?;
    let feed = joined(alloc, files.as_str(), LEVEL, false)?;
    made_of(alloc, &feed, asked)
}

// The text of what is made: all of it, or only its counts.
fn made_text(alloc: Global, made: &Made, is_counted: bool) -> Result<String, AllocError> {
    let (connections, runs, report) = made;
    if is_counted {
        let (runs, connections) = (runs.len(), connections.len());
        let frequencies = report.frequencies;
        return format!(in alloc;
            "runs {runs}, connections {connections}, frequencies {frequencies}"
        );
    }
    let mut text = format!(in alloc; "{report:?}")?;
    add_rows(&mut text, runs)?;
    add_rows(&mut text, connections)?;
    Ok(text)
}

// Feeds with further files, of which all is printed, or only the counts.
#[derive(Drop)]
struct Feeds {
    further: &'static str,
    is_counted: bool,
}

impl Reporter for Feeds {
    fn reported<R: Abort>(&self, _rt: &R, alloc: Global, case: Case<'_>) -> Result<String, Fail> {
        let (_, asked) = case.head.split_once(": ").unwrap_or(("", ""));
        match made(alloc, case.given, self.further, asked)? {
            Ok(made) => Ok(made_text(alloc, &made, self.is_counted)?),
            Err(fault) => Ok(format!(in alloc; "{fault:?}")?),
        }
    }
}

#[test]
fn feeds_make_runs(rt: HostRuntime) -> Result<(), Fail> {
    for (cases, further, is_counted) in [
        (FEEDS, "", false),
        (REPEATS, TWO_TRIPS, false),
        (COUNTED, TWO_TRIPS, true),
        (OUT_OF_RANGE, "", true),
    ] {
        let feeds = Feeds {
            further,
            is_counted,
        };
        try_cases(&rt, rt.alloc(), cases, &feeds)?;
    }
    Ok(())
}

/// If there are too many runs, the fault names trips.txt, and none of its records.
fn too_many_runs()
    ensures { too_many_of Table.Trips ≡ RunsFault.Table (record {
      file = Table.Trips;
      row = 0;
      kind =
          FaultKind.TooMany;
    }) }
{}

#[test]
fn faults_name_their_tables(rt: HostRuntime) {
    too_many_runs();
    assert!(rt; MAX_DAYS == 14);
}

fn is_want_of_memory(fault: RunsFault) -> bool {
    match fault {
        RunsFault::Table(fault) => fault.kind == FaultKind::OutOfMemory,
        RunsFault::Day(fault) => fault == DayFault::OutOfMemory,
        RunsFault::Range(_) => false,
    }
}

// Whichever growth is refused, the fault is that memory ran out. A refused growth ends the test with `AllocError`.
#[test]
fn refused_growth_is_reported(rt: HostRuntime) -> Result<(), Fail> {
    let feed = joined_or_refused(&rt, rt.alloc(), "", LEVEL)?;
    let first = day("20240115")?;
    match runs_of(rt.alloc(), &feed, first, 1, &Zone::fixed(0)) {
        Ok((connections, _runs, _report)) => assert_eq!(rt; connections.len(), 3),
        Err(fault) => {
            assert!(rt; is_want_of_memory(fault));
            return Err(AllocError.into());
        }
    }
    Ok(())
}
