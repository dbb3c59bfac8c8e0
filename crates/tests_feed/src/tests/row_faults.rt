//! Each kind of fault in small files, and which comes first if there are two.

use super::failing::ORDER;
use super::rows::{report_of, try_files};
use gtfs_rows::{FaultKind, Table, TableFault};
use std::alloc::Global;
use std::process::Abort;
use std::test::Fail;

#[test]
fn missing_files(rt: HostRuntime) {
    for table in [Table::Agency, Table::Stops, Table::Calendar] {
        let row = 0;
        let kind = FaultKind::MissingFile;
        assert!(rt;
            table.missing()
                == TableFault {
                    file: table,
                    row,
                    kind
                }
        );
    }
}

#[test]
fn reported_by_number_and_name(rt: HostRuntime) {
    let reported = [
        (FaultKind::MissingFile, 1, "MissingFile"),
        (FaultKind::MissingColumn, 2, "MissingColumn"),
        (FaultKind::BadUtf8, 3, "BadUtf8"),
        (FaultKind::RowLength, 4, "RowLength"),
        (FaultKind::BadTime, 5, "BadTime"),
        (FaultKind::BadDate, 6, "BadDate"),
        (FaultKind::BadNumber, 7, "BadNumber"),
        (FaultKind::IdTwice, 8, "IdTwice"),
        (FaultKind::UnknownId, 9, "UnknownId"),
        (FaultKind::ZonesDiffer, 10, "ZonesDiffer"),
        (FaultKind::SequenceTwice, 11, "SequenceTwice"),
        (FaultKind::EndWithoutTime, 12, "EndWithoutTime"),
        (FaultKind::TimeGoesBack, 13, "TimeGoesBack"),
        (FaultKind::HopWithoutDuration, 14, "HopWithoutDuration"),
        (FaultKind::NotAStop, 15, "NotAStop"),
        (FaultKind::TooMany, 16, "TooMany"),
        (FaultKind::OutOfMemory, 17, "OutOfMemory"),
        (FaultKind::BadHeadway, 18, "BadHeadway"),
    ];
    for (kind, number, name) in reported.iter() {
        assert!(rt; kind.number() == *number && kind.name() == *name, "{name}");
    }
}

#[test]
fn file_names(rt: HostRuntime) {
    let names = [
        (Table::Agency, "agency.txt"),
        (Table::Stops, "stops.txt"),
        (Table::Trips, "trips.txt"),
        (Table::StopTimes, "stop_times.txt"),
        (Table::Calendar, "calendar.txt"),
        (Table::CalendarDates, "calendar_dates.txt"),
        (Table::Transfers, "transfers.txt"),
        (Table::Frequencies, "frequencies.txt"),
    ];
    for (table, name) in names {
        assert!(rt; table.file_name() == name);
    }
}

// Whichever file has these bytes, it is refused with this fault of the whole file.
fn try_all_files(rt: &impl Abort, alloc: Global, bytes: &[u8], fault: &str) -> Result<(), Fail> {
    for table in ORDER {
        let file = table.file_name();
        let reported = report_of(alloc, file, bytes)?;
        let wanted = format!(in alloc; "{fault} {file} 0")?;
        assert_eq!(rt; reported.as_str(), wanted.as_str());
    }
    Ok(())
}

#[test]
fn without_a_header(rt: HostRuntime) -> Result<(), Fail> {
    let empty: [&[u8]; 3] = [b"", b"\xEF\xBB\xBF", b"\r\n\n\r"];
    for bytes in empty {
        try_all_files(&rt, rt.alloc(), bytes, "2 MissingColumn")?;
    }
    Ok(())
}

#[test]
fn text_before_all_else(rt: HostRuntime) -> Result<(), Fail> {
    let bad: [&[u8]; 6] = [
        b"x\n1\n\xFF",
        b"\xC0\xAF",
        b"\xE2\x82",
        b"stop_id,trip_id\nA\n\"\xF8\"\n",
        b"agency_id\n\xFF\n",
        b"agency_timezone\nA\n\xC3\n",
    ];
    for bytes in bad {
        try_all_files(&rt, rt.alloc(), bytes, "3 BadUtf8")?;
    }
    Ok(())
}

const FIRST_FILES: &str = "
= agency.txt
> 2 MissingColumn agency.txt 0
= agency.txt \u{FEFF}||
> 2 MissingColumn agency.txt 0
= agency.txt agency_id|1|
> 2 MissingColumn agency.txt 0
= agency.txt agency_timezone|A|B|A,A|
> 10 ZonesDiffer agency.txt 2
= agency.txt x,agency_timezone|1,A|2,A|3, A |4,a|
> 10 ZonesDiffer agency.txt 4
= agency.txt agency_timezone|A|A,A|B|
> 4 RowLength agency.txt 2
= stops.txt stop_name|A|
> 2 MissingColumn stops.txt 0
= stops.txt stop_id,x|A,1|B|
> 4 RowLength stops.txt 2
= stops.txt stop_id,x|A,1|B,2|A,3|
> 8 IdTwice stops.txt 3
= stops.txt stop_id,x|A,1| A ,2,3|
> 4 RowLength stops.txt 2
= stops.txt stop_id,x|,1|\"\",2|
> 8 IdTwice stops.txt 2
= stops.txt stop_id,stop_name|A,\"x|y\"|B|
> 4 RowLength stops.txt 2
= stops.txt stop_id,stop_name\rA,x\rB,y,z\r
> 4 RowLength stops.txt 2
= stops.txt stop_id,stop_name\r|\r|A\r|
> 4 RowLength stops.txt 1
= stops.txt stop_id,stop_name|A,\"x,\"\"y\"\"\r|\",z|
> 4 RowLength stops.txt 1
= stops.txt stop_id,stop_name|A,x|A,y|B|
> 8 IdTwice stops.txt 2
= stops.txt stop_id,stop_name|A,x|A|
> 4 RowLength stops.txt 2
= trips.txt trip_id|T|
> 2 MissingColumn trips.txt 0
= trips.txt trip_id,service_id|T,S|T,R|
> 8 IdTwice trips.txt 2
= trips.txt service_id,trip_id|S|
> 4 RowLength trips.txt 1
= transfers.txt from_stop_id|A|
> 2 MissingColumn transfers.txt 0";

#[test]
fn agencies_stops_trips_and_transfers(rt: HostRuntime) -> Result<(), Fail> {
    try_files(&rt, rt.alloc(), FIRST_FILES)
}

const STOP_TIMES: &str = "
= stop_times.txt trip_id,arrival_time,departure_time,stop_id|
> 2 MissingColumn stop_times.txt 0
= stop_times.txt trip_id,arrival_time,departure_time,stop_id,stop_sequence|T,08:60:00,,A,1|
> 5 BadTime stop_times.txt 1
= stop_times.txt trip_id,arrival_time,departure_time,stop_id,stop_sequence|T,,,A,1|T,,100:00:00,A,x|
> 5 BadTime stop_times.txt 2
= stop_times.txt trip_id,arrival_time,departure_time,stop_id,stop_sequence|T,,,A,2.5|
> 7 BadNumber stop_times.txt 1
= stop_times.txt trip_id,arrival_time,departure_time,stop_id,stop_sequence|T,,,A,|
> 7 BadNumber stop_times.txt 1
= stop_times.txt trip_id,arrival_time,departure_time,stop_id,stop_sequence|T,,,A,1234567890|
> 7 BadNumber stop_times.txt 1
= stop_times.txt stop_sequence,trip_id,arrival_time,departure_time,stop_id|x,T,8:5:9,,A|
> 5 BadTime stop_times.txt 1
= stop_times.txt trip_id,arrival_time,departure_time,stop_id,stop_sequence\rT,,,A,1\rT,,,A\r
> 4 RowLength stop_times.txt 2
= stop_times.txt arrival_time,departure_time,stop_sequence,stop_id,trip_id|,,1,,|100:00:00,,1,,|
> 5 BadTime stop_times.txt 2
= stop_times.txt arrival_time,departure_time,stop_sequence,stop_id,trip_id|,,1,,|,0:00:60,,,|
> 5 BadTime stop_times.txt 2
= stop_times.txt arrival_time,departure_time,stop_sequence,stop_id,trip_id|,,1,,|,,1234567890,,|
> 7 BadNumber stop_times.txt 2
= stop_times.txt arrival_time,departure_time,stop_sequence,stop_id,trip_id|,,1,,|,,7.,,|
> 7 BadNumber stop_times.txt 2
= stop_times.txt arrival_time,departure_time,stop_sequence,stop_id,trip_id|,,1,,|x,y,z,,|
> 5 BadTime stop_times.txt 2
= stop_times.txt arrival_time,departure_time,stop_sequence,stop_id,trip_id|,,1,,|x,y,z,|
> 4 RowLength stop_times.txt 2";

#[test]
fn stop_times(rt: HostRuntime) -> Result<(), Fail> {
    try_files(&rt, rt.alloc(), STOP_TIMES)
}

const SERVICES: &str = "
= calendar.txt service_id,monday,tuesday,wednesday,thursday,friday,saturday,sunday,start_date,end_date|S,1,1,1,1,1,1,2,x,x|
> 7 BadNumber calendar.txt 1
= calendar.txt service_id,monday,tuesday,wednesday,thursday,friday,saturday,sunday,start_date,end_date|S,1,1,1,1,1,1,1,20240230,20240301|
> 6 BadDate calendar.txt 1
= calendar.txt service_id,monday,tuesday,wednesday,thursday,friday,saturday,sunday,start_date,end_date|S,1,1,1,1,1,1,1,20240115,|
> 6 BadDate calendar.txt 1
= calendar.txt service_id,monday,tuesday,wednesday,thursday,friday,saturday,sunday,start_date,end_date|S,1,1,1,1,1,1,1,20240115,20240115|\
    S,0,0,0,0,0,0,0,20240115,20240115|
> 8 IdTwice calendar.txt 2
= calendar_dates.txt service_id,date,exception_type|X,00000101,1|
> 6 BadDate calendar_dates.txt 1
= calendar_dates.txt service_id,date,exception_type|X,20240115,3|
> 7 BadNumber calendar_dates.txt 1
= calendar_dates.txt service_id,date,exception_type|X,20240115,1|X,20240115,2|X|
> 8 IdTwice calendar_dates.txt 2
= calendar_dates.txt service_id,date,exception_type|S,20240229,1|S,20240230,1|
> 6 BadDate calendar_dates.txt 2
= calendar_dates.txt service_id,date,exception_type|S,20240229,1|S,00000101,3|
> 6 BadDate calendar_dates.txt 2
= calendar_dates.txt service_id,date,exception_type|S,20240229,1|S,2024-02-29,1|
> 6 BadDate calendar_dates.txt 2
= calendar_dates.txt service_id,date,exception_type|S,20240229,1|S,20240229,0|
> 7 BadNumber calendar_dates.txt 2
= calendar_dates.txt service_id,date,exception_type|S,20240229,1|\" S\",20240229,2|
> 8 IdTwice calendar_dates.txt 2";

#[test]
fn services(rt: HostRuntime) -> Result<(), Fail> {
    try_files(&rt, rt.alloc(), SERVICES)
}

const FREQUENCIES: &str = "
= frequencies.txt trip_id|T|
> 2 MissingColumn frequencies.txt 0
= frequencies.txt trip_id,start_time,end_time,headway_secs|T,,9:00:00,60|
> 5 BadTime frequencies.txt 1
= frequencies.txt trip_id,start_time,end_time,headway_secs|T,,x,0|
> 5 BadTime frequencies.txt 1
= frequencies.txt trip_id,start_time,end_time,headway_secs|T,9:00:00,,0|
> 5 BadTime frequencies.txt 1
= frequencies.txt trip_id,start_time,end_time,headway_secs|T,9:00:00,9:00:00,|
> 7 BadNumber frequencies.txt 1
= frequencies.txt trip_id,start_time,end_time,headway_secs|T,9:00:00,9:00:00,1.5|
> 7 BadNumber frequencies.txt 1
= frequencies.txt trip_id,start_time,end_time,headway_secs|T,9:00:00,9:00:00,0.0|U|
> 18 BadHeadway frequencies.txt 1";

#[test]
fn frequencies(rt: HostRuntime) -> Result<(), Fail> {
    try_files(&rt, rt.alloc(), FREQUENCIES)
}
