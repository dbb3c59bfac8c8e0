//! Transcripts of `csa tables` and `csa build` with `--all-faults`: what standard error tells of a feed besides the
//! fault for which it is refused.

use crate::tests::transcript::try_transcripts;
use std::test::Fail;

/// Faults of several kinds in several files, and files as a whole.
const ALL_FAULTS: &str = "
# Without a fault nothing is reported, and the output is the same.
base
run tables base_feed --all-faults
answers tables agencies 1 stops 3 trips 2 stop_times 5 calendar 1 calendar_dates 0 transfers 0

# A feed of many faults. First comes the one for which the feed is refused, then the others of each file: of a record \
the first, then each id that isn't found, once, with how many further rows name it.
rows base_feed/agency.txt agency_timezone | Etc/UTC | Etc/GMT | Etc/UTC
rows base_feed/stops.txt stop_id,location_type,parent_station | A,,S | B,, | C,,Q | B,, | E,2,Q | S,1, | D,,Q
file base_feed/stop_times.txt
has trip_id,arrival_time,departure_time,stop_id,stop_sequence
has T1,08:00:00,08:00:00,A,1
has T1,08:60:00,08:10:00,B,2.5
has T1,08:10:00,08:10:00,B,2.5
has T9,08:10:00,08:10:00,X,2
has T9,08:12:00,08:12:00,X,3
has T2,08:20:00,08:20:00,E
has T2,08:20:00,08:20:00,E,1
has T2,08:25:00,08:25:00,S,2
rows base_feed/calendar.txt service_id,monday,tuesday,wednesday,thursday,friday,saturday,sunday,start_date,end_date \
| S,1,1,1,1,1,1,2,20240115,20240115 | S,1,1,1,1,1,1,1,20240115,20240115 | S,1,1,1,1,1,1,1,20240115,20240115
rows base_feed/calendar_dates.txt service_id,date,exception_type | S,20240230,1 | S,20240116,3 | S,20240116,1 \
| S,20240116,2
rows base_feed/transfers.txt from_stop_id,to_stop_id,transfer_type | A,X, | X,X,2 | E,B,0 | nowhere,A,4 | Y,X,
rows base_feed/frequencies.txt trip_id,start_time,end_time,headway_secs | T9,09:00:00,10:00:00,0 \
| T9,09:00:00,10:00:00,600 | T2,09:00:00,25:00,600
tells csa: agency.txt, line 3: agency_timezone \"Etc/GMT\" isn't that of the first agency
tells csa: stops.txt, line 5: stop_id \"B\" is in line 3 too
tells csa: stops.txt, line 4: parent_station \"Q\" isn't a station in stops.txt (the field may be left blank); \
2 further rows name it too
tells csa: stop_times.txt, line 3: arrival_time \"08:60:00\" isn't a time, H:MM:SS or HH:MM:SS \
with minutes and seconds below 60
tells csa: stop_times.txt, line 4: stop_sequence \"2.5\" isn't a number of at most nine digits
tells csa: stop_times.txt, line 7: the number of fields is 4, in the header 5
tells csa: stop_times.txt, line 5: trip_id \"T9\" isn't in trips.txt; 1 further row names it too
tells csa: stop_times.txt, line 5: stop_id \"X\" isn't in stops.txt; 1 further row names it too
tells csa: stop_times.txt, line 8: stop_id \"E\" isn't a stop or platform: its location_type in stops.txt is 1 to 4
tells csa: stop_times.txt, line 9: stop_id \"S\" isn't a stop or platform: its location_type in stops.txt is 1 to 4
tells csa: calendar.txt, line 2: sunday \"2\" is neither 0 nor 1
tells csa: calendar.txt, line 4: service_id \"S\" is in line 3 too
tells csa: calendar_dates.txt, line 2: date \"20240230\" isn't a date of the calendar, YYYYMMDD
tells csa: calendar_dates.txt, line 3: exception_type \"3\" is neither 1 nor 2
tells csa: calendar_dates.txt, line 5: date \"20240116\" of this service is in line 4 too
tells csa: transfers.txt, line 2: to_stop_id \"X\" isn't in stops.txt; 2 further rows name it too
tells csa: transfers.txt, line 4: from_stop_id \"E\" is neither a stop nor a station: \
its location_type in stops.txt is 2 to 4
tells csa: transfers.txt, line 6: from_stop_id \"Y\" isn't in stops.txt
tells csa: frequencies.txt, line 2: headway_secs \"0\" must not be 0
tells csa: frequencies.txt, line 4: end_time \"25:00\" isn't a time, H:MM:SS or HH:MM:SS \
with minutes and seconds below 60
tells csa: frequencies.txt, line 3: trip_id \"T9\" isn't in trips.txt
answers refused 10 ZonesDiffer agency.txt 2
run tables base_feed
tells csa: agency.txt, line 3: agency_timezone \"Etc/GMT\" isn't that of the first agency
answers refused 10 ZonesDiffer agency.txt 2
remove base_feed
base

# A build tells the same, and writes nothing.
with stop_times.txt 2 T1,08:60:00,08:10:00,B,2
rows base_feed/transfers.txt from_stop_id,to_stop_id | A,Q
asks build base_feed built.csa --first 20240115 --days 1 --zone fixed:0 --all-faults
tells csa: stop_times.txt, line 3: arrival_time \"08:60:00\" isn't a time, H:MM:SS or HH:MM:SS \
with minutes and seconds below 60
tells csa: transfers.txt, line 2: to_stop_id \"Q\" isn't in stops.txt
answers refused 5 BadTime stop_times.txt 2
lacks built.csa

# The first fault may be in a later file, or one of a trip's times.
run tables base_feed --all-faults
with stop_times.txt 2 T1,08:10:00,07:59:00,B,2
tells csa: stop_times.txt, line 3: trip_id \"T1\" has a time in this row that is earlier than the one before it
tells csa: transfers.txt, line 2: to_stop_id \"Q\" isn't in stops.txt
answers refused 13 TimeGoesBack stop_times.txt 2
rows base_feed/stops.txt stop_id,parent_station | A,Q | B, | C,
rows base_feed/transfers.txt from_stop_id,to_stop_id | A
tells csa: transfers.txt, line 2: the number of fields is 1, in the header 2
tells csa: stops.txt, line 2: parent_station \"Q\" isn't a station in stops.txt (the field may be left blank)
tells csa: stop_times.txt, line 3: trip_id \"T1\" has a time in this row that is earlier than the one before it
answers refused 4 RowLength transfers.txt 1
remove base_feed
base

# Ids aren't looked up in a file with a record of another length, nor in one that isn't there.
rows base_feed/stops.txt stop_id,stop_name | A,A | B | C,C
with stop_times.txt 5 T9,08:20:00,08:20:00,C,2
tells csa: stops.txt, line 3: the number of fields is 1, in the header 2
tells csa: stop_times.txt, line 6: trip_id \"T9\" isn't in trips.txt
answers refused 4 RowLength stops.txt 2
remove base_feed/stops.txt
remove base_feed/calendar.txt
image 4294967295
saves base_feed/transfers.txt
folder base_feed/frequencies.txt
tells csa: base_feed: no file stops.txt
tells csa: stop_times.txt, line 6: trip_id \"T9\" isn't in trips.txt
tells csa: base_feed: neither calendar.txt nor calendar_dates.txt is there
tells csa: transfers.txt, line 1: \"\\xFF\\xFF\\xFF\\xFF\" isn't UTF-8
tells csa: base_feed/frequencies.txt can't be read: it is a folder
answers refused 1 MissingFile stops.txt 0
rows base_feed/stops.txt stop_id | A | B | C
rows base_feed/trips.txt trip_id | T1 | T2
tells csa: trips.txt, line 1: the header lacks service_id: it is \"trip_id\"
tells csa: base_feed: neither calendar.txt nor calendar_dates.txt is there
tells csa: transfers.txt, line 1: \"\\xFF\\xFF\\xFF\\xFF\" isn't UTF-8
tells csa: base_feed/frequencies.txt can't be read: it is a folder
answers refused 2 MissingColumn trips.txt 0
remove base_feed
tells csa: base_feed: no such file or folder
answers refused 1 MissingFile agency.txt 0
";

/// Faults in the times of several trips.
const TIMES: &str = "
# The first wrong time of each trip is reported, also of one that isn't in trips.txt. A trip with a blank stop_id \
isn't judged.
base
run tables base_feed --all-faults
file base_feed/stop_times.txt
has trip_id,arrival_time,departure_time,stop_id,stop_sequence
has T9,08:30:00,08:30:00,A,2
has T9,,,Q,3
has T2,08:20:00,08:20:00,C,2
has T1,08:00:00,08:00:00,A,1
has T1,08:10:00,08:10:00,B,1
has T1,08:05:00,08:05:00,C,2
has T2,08:30:00,08:30:00,B,1
has T8,08:00:00,08:00:00,A,1
has T8,,,,2
tells csa: stop_times.txt, line 2: trip_id \"T9\" isn't in trips.txt; 1 further row names it too
tells csa: stop_times.txt, line 3: stop_id \"Q\" isn't in stops.txt
tells csa: stop_times.txt, line 3: trip_id \"T9\" begins or ends with this row, which has no time
tells csa: stop_times.txt, line 4: trip_id \"T2\" has a time in this row that is earlier than the one before it
tells csa: stop_times.txt, line 6: stop_sequence \"1\" is in an earlier row of this trip too
tells csa: stop_times.txt, line 9: trip_id \"T8\" isn't in trips.txt; 1 further row names it too
answers refused 9 UnknownId stop_times.txt 1

# Without a fault of an id, the feed is refused for that of the first trip of trips.txt.
file base_feed/stop_times.txt
has trip_id,arrival_time,departure_time,stop_id,stop_sequence
has T2,08:20:00,08:20:00,C,2
has T1,08:00:00,08:00:00,A,1
has T1,08:00:00,08:00:00,B,2
has T2,08:30:00,08:30:00,B,1
has T1,07:30:00,07:30:00,C,3
tells csa: stop_times.txt, line 6: trip_id \"T1\" has a time in this row that is earlier than the one before it
tells csa: stop_times.txt, line 2: trip_id \"T2\" has a time in this row that is earlier than the one before it
answers refused 13 TimeGoesBack stop_times.txt 5

# A strict build tells also where a trip takes no time.
file base_feed/stop_times.txt
has trip_id,arrival_time,departure_time,stop_id,stop_sequence
has T1,08:00:00,08:00:00,A,1
has T1,08:00:00,08:00:00,B,2
has T2,08:12:00,08:12:00,B,1
has T2,08:12:00,08:12:00,C,2
asks build base_feed built.csa --first 20240115 --days 1 --zone fixed:0 --strict --all-faults
tells csa: stop_times.txt, line 3: trip_id \"T1\" arrives in this row no later than it departed from the stop before
tells csa: stop_times.txt, line 5: trip_id \"T2\" arrives in this row no later than it departed from the stop before
answers refused 14 HopWithoutDuration stop_times.txt 2
lacks built.csa

# Times aren't judged if a record is at fault by itself.
run tables base_feed --all-faults
file base_feed/stop_times.txt
has trip_id,arrival_time,departure_time,stop_id,stop_sequence
has T1,08:00:00,08:00:00,A,1
has T1,07:00:00,07:00:00,B,2
has T2,08:60:00,08:12:00,B,1
tells csa: stop_times.txt, line 4: arrival_time \"08:60:00\" isn't a time, H:MM:SS or HH:MM:SS \
with minutes and seconds below 60
answers refused 5 BadTime stop_times.txt 3
remove base_feed
";

/// Many faults of one kind, and lines that end and quote in various ways.
const MANY_FAULTS: &str = "
# Of 150 faults of a kind 100 are listed.
base
run tables base_feed --all-faults
file base_feed/stop_times.txt
has trip_id,arrival_time,departure_time,stop_id,stop_sequence
counts 1 150 has T1,8:99:00,08:00:00,A,%
has T1,08:00:00,08:00:00,A,x
counts 2 101 tells csa: stop_times.txt, line %: arrival_time \"8:99:00\" isn't a time, H:MM:SS or HH:MM:SS \
with minutes and seconds below 60
tells csa: stop_times.txt, line 152: stop_sequence \"x\" isn't a number of at most nine digits
tells csa: stop_times.txt: 50 more faults of kind 5 BadTime
answers refused 5 BadTime stop_times.txt 1

# Of ids that aren't found each counts once.
file base_feed/stop_times.txt
has trip_id,arrival_time,departure_time,stop_id,stop_sequence
has T1,08:00:00,08:00:00,A,1
counts 3 104 has T%,,,A,1
has T3,,,A,2
has T104,,,A,2
tells csa: stop_times.txt, line 3: trip_id \"T3\" isn't in trips.txt; 1 further row names it too
tells csa: stop_times.txt, line 3: trip_id \"T3\" begins or ends with this row, which has no time
counts 4 102 tells csa: stop_times.txt, line %: trip_id \"T%\" isn't in trips.txt
tells csa: stop_times.txt, line 104: trip_id \"T104\" begins or ends with this row, which has no time
tells csa: stop_times.txt: 2 more faults of kind 9 UnknownId
answers refused 9 UnknownId stop_times.txt 2

# The stops of a trip with a blank stop_id aren't looked up.
file base_feed/stop_times.txt
has trip_id,arrival_time,departure_time,stop_id,stop_sequence
has T1,08:00:00,08:00:00,Q,1
has T1,,,,2
has T2,08:60:00,,A,1
has T2,08:20:00,08:20:00,R,2
tells csa: stop_times.txt, line 4: arrival_time \"08:60:00\" isn't a time, H:MM:SS or HH:MM:SS \
with minutes and seconds below 60
tells csa: stop_times.txt, line 5: stop_id \"R\" isn't in stops.txt
answers refused 5 BadTime stop_times.txt 3
remove base_feed
base

# A mark before the header, empty lines, line ends within quotes; lines end with CR LF.
file base_feed/stops.txt
crlf \u{FEFF}stop_id,stop_name
crlf
crlf A,\"two
crlf lines\"
crlf B,B
crlf C
crlf A,A
crlf B,\"B
crlf \",x
tells csa: stops.txt, line 6: the number of fields is 1, in the header 2
tells csa: stops.txt, line 7: stop_id \"A\" is in line 3 too
tells csa: stops.txt, line 8: the number of fields is 3, in the header 2; \
a double quote in line 8 opens a field that goes on to line 9
answers refused 4 RowLength stops.txt 3
rows base_feed/stops.txt stop_id | A | B | C

# The same with CR alone, and with a double quote that isn't closed.
file base_feed/stop_times.txt
cr \u{FEFF}trip_id,arrival_time,departure_time,stop_id,stop_sequence,note
cr
cr T1,08:00:00,08:00:00,A,1,\"two
cr lines\"
cr T1,08:60:00,08:10:00,B,2,
cr T1,08:20:00,08:20:00,\"Q
cr \",3,
cr T1,08:30:00,08:30:00,\"C,4,
tells csa: stop_times.txt, line 5: arrival_time \"08:60:00\" isn't a time, \
H:MM:SS or HH:MM:SS with minutes and seconds below 60
tells csa: stop_times.txt, line 8: the number of fields is 4, in the header 6; \
a double quote in line 8 opens a field that goes on to line 8
tells csa: stop_times.txt, line 6: stop_id \"Q\\r\" isn't in stops.txt; \
a double quote in line 6 opens a field that goes on to line 7
answers refused 5 BadTime stop_times.txt 2
remove base_feed
base

# A million columns.
wide base_feed/agency.txt 1000000
with stop_times.txt 4 T2,08:12:00,08:12:00,D,1
tells csa: agency.txt, line 2: the number of fields is 1, in the header 1000001
tells csa: stop_times.txt, line 5: stop_id \"D\" isn't in stops.txt
answers refused 4 RowLength agency.txt 1
remove base_feed
";

#[test]
fn all_faults_are_reported(rt: HostRuntime) -> Result<(), Fail> {
    try_transcripts(&rt, &[ALL_FAULTS, TIMES, MANY_FAULTS])
}
