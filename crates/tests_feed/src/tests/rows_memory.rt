//! Whichever growth is refused, the fault is that memory ran out. A refused growth ends the test with `AllocError`.

use gtfs_rows::{FaultKind, StopTimes, Table, TableFault};
use gtfs_tables::{
    read_agency, read_calendar, read_calendar_dates, read_frequencies, read_stop_times, read_stops,
    read_transfers, read_trips,
};
use std::alloc::AllocError;
use std::process::Abort;
use std::test::Fail;

// Returns what was read. If nothing was, the fault must be that memory ran out for this table.
fn read_or_refused<T: Drop>(
    rt: &impl Abort,
    table: Table,
    answer: Result<T, TableFault>,
) -> Result<T, AllocError> {
    match answer {
        Ok(read) => Ok(read),
        Err(fault) => {
            assert!(rt; fault.file == table && fault.kind == FaultKind::OutOfMemory);
            Err(AllocError)
        }
    }
}

// Whether one row was read. If nothing was, memory must have run out.
fn one_or_refused<T: Drop>(
    rt: &impl Abort,
    table: Table,
    answer: Result<Vec<T>, TableFault>,
) -> Result<(), Fail> {
    let rows = read_or_refused(rt, table, answer)?;
    assert!(rt; rows.len() == 1);
    Ok(())
}

#[test]
fn refused_growth_of_agencies(rt: HostRuntime) -> Result<(), Fail> {
    let answer = read_agency(rt.alloc(), b"agency_timezone\nEtc/UTC\n");
    one_or_refused(&rt, Table::Agency, answer)
}

#[test]
fn refused_growth_of_stops(rt: HostRuntime) -> Result<(), Fail> {
    let answer = read_stops(rt.alloc(), b"stop_id,parent_station\nA,S\n");
    one_or_refused(&rt, Table::Stops, answer)
}

#[test]
fn refused_growth_of_trips(rt: HostRuntime) -> Result<(), Fail> {
    let answer = read_trips(rt.alloc(), b"trip_id,service_id\nT,S\n");
    one_or_refused(&rt, Table::Trips, answer)
}

// Whether a row of one trip and one stop was read.
fn is_one(read: &StopTimes) -> bool {
    read.rows.len() == 1 && read.trips.len() == 1 && read.stops.len() == 1
}

#[test]
fn refused_growth_of_stop_times(rt: HostRuntime) -> Result<(), Fail> {
    let bytes = b"trip_id,arrival_time,departure_time,stop_id,stop_sequence\nT,,,A,1\n";
    let answer = read_stop_times(rt.alloc(), bytes);
    let read = read_or_refused(&rt, Table::StopTimes, answer)?;
    assert!(rt; is_one(&read));
    Ok(())
}

const CALENDAR: &[u8] =
    b"service_id,monday,tuesday,wednesday,thursday,friday,saturday,sunday,start_date,end_date\nS,1,0,1,0,1,0,1,20240115,20240116\n";

#[test]
fn refused_growth_of_calendar(rt: HostRuntime) -> Result<(), Fail> {
    one_or_refused(&rt, Table::Calendar, read_calendar(rt.alloc(), CALENDAR))
}

#[test]
fn refused_growth_of_calendar_dates(rt: HostRuntime) -> Result<(), Fail> {
    let bytes = b"service_id,date,exception_type\nX,20240115,1\n";
    let answer = read_calendar_dates(rt.alloc(), bytes);
    one_or_refused(&rt, Table::CalendarDates, answer)
}

#[test]
fn refused_growth_of_transfers(rt: HostRuntime) -> Result<(), Fail> {
    let bytes = b"from_stop_id,to_stop_id,min_transfer_time\nA,B,1\n";
    one_or_refused(&rt, Table::Transfers, read_transfers(rt.alloc(), bytes))
}

#[test]
fn refused_growth_of_frequencies(rt: HostRuntime) -> Result<(), Fail> {
    let bytes = b"trip_id,start_time,end_time,headway_secs\nT,9:00:00,10:00:00,60\n";
    one_or_refused(&rt, Table::Frequencies, read_frequencies(rt.alloc(), bytes))
}
