//! `csa tables` over folders: a small feed, and what is reported about changes to it.

use crate::tests::transcript::try_transcripts;
use std::test::Fail;

const CHANGES: &str = "
# The feed of examples/base.
base
run tables base_feed --json
answers {\"agencies\":1,\"calendar\":1,\"calendar_dates\":0,\"stop_times\":5,\"stops\":3,\"transfers\":0,\"trips\":2}
run tables base_feed
answers tables agencies 1 stops 3 trips 2 stop_times 5 calendar 1 calendar_dates 0 transfers 0

# Values: minutes, and a number with a fraction.
with stop_times.txt 2 T1,08:60:00,08:10:00,B,2
tells csa: stop_times.txt, line 3: arrival_time \"08:60:00\" isn't a time, H:MM:SS or HH:MM:SS \
with minutes and seconds below 60
answers refused 5 BadTime stop_times.txt 2
with stop_times.txt 2 T1,08:10:00,08:10:00,B,2.5
tells csa: stop_times.txt, line 3: stop_sequence \"2.5\" isn't a number of at most nine digits
answers refused 7 BadNumber stop_times.txt 2

# Times of a trip: one that goes back, a number twice, and an end without a time.
with stop_times.txt 2 T1,08:10:00,07:59:00,B,2
tells csa: stop_times.txt, line 3: trip_id \"T1\" has a time in this row that is earlier than the one before it
answers refused 13 TimeGoesBack stop_times.txt 2
with stop_times.txt 3 T1,08:30:00,08:30:00,C,2
tells csa: stop_times.txt, line 4: stop_sequence \"2\" of this trip is in line 3 too
answers refused 11 SequenceTwice stop_times.txt 3
with stop_times.txt 5 T2,08:20:00,08:20:00,C,01.0
tells csa: stop_times.txt, line 6: stop_sequence \"01.0\" of this trip is in line 5 too
answers refused 11 SequenceTwice stop_times.txt 5
with stop_times.txt 5 T2,,,C,2
tells csa: stop_times.txt, line 6: trip_id \"T2\" begins or ends with this row, which has no time
answers refused 12 EndWithoutTime stop_times.txt 5

# Ids that are nowhere: of a trip, and of a stop.
with stop_times.txt 4 N1,08:12:00,08:12:00,B,1
tells csa: stop_times.txt, line 5: trip_id \"N1\" isn't in trips.txt
answers refused 9 UnknownId stop_times.txt 4
with stop_times.txt 4 T2,08:12:00,08:12:00,D,1
tells csa: stop_times.txt, line 5: stop_id \"D\" isn't in stops.txt
answers refused 9 UnknownId stop_times.txt 4

# How many rows behind it name the same id, of a trip or of a stop; another column and another id don't count.
file base_feed/stop_times.txt
has trip_id,arrival_time,departure_time,stop_id,stop_sequence
has T1,08:00:00,08:00:00,A,1
has N1,08:10:00,08:10:00,B,2
has N1,08:30:00,08:30:00,C,3
tells csa: stop_times.txt, line 3: trip_id \"N1\" isn't in trips.txt; 1 further row names it too
answers refused 9 UnknownId stop_times.txt 2
has N2,08:12:00,08:12:00,N1,1
has N1,08:20:00,08:20:00,C,2
tells csa: stop_times.txt, line 3: trip_id \"N1\" isn't in trips.txt; 2 further rows name it too
answers refused 9 UnknownId stop_times.txt 2
rows base_feed/stop_times.txt trip_id,arrival_time,departure_time,stop_id,stop_sequence | T1,08:00:00,08:00:00,A,1 \
| T1,,,D,2 | D,,,D,1
tells csa: stop_times.txt, line 3: stop_id \"D\" isn't in stops.txt; 1 further row names it too
answers refused 9 UnknownId stop_times.txt 2
with stop_times.txt 4 T2,08:12:00,08:12:00,B,1
rows base_feed/transfers.txt from_stop_id,to_stop_id | A,B | A,Q | Q,A | B,A | Q,Q
tells csa: transfers.txt, line 3: to_stop_id \"Q\" isn't in stops.txt; 2 further rows name it too
answers refused 9 UnknownId transfers.txt 2
remove base_feed/transfers.txt
rows base_feed/stops.txt stop_id,parent_station | A,Q | B,Q | C,Q | Q,
tells csa: stops.txt, line 2: parent_station \"Q\" isn't a station in stops.txt (the field may be left blank); \
2 further rows name it too
answers refused 9 UnknownId stops.txt 1
rows base_feed/stops.txt stop_id | A | B | C

# A trip with a blank stop_id, and one with a single row, isn't judged by its times; no hop needs a duration.
file base_feed/stop_times.txt
has trip_id,arrival_time,departure_time,stop_id,stop_sequence
has T1,08:10:00,08:10:00,Q,1
has T1,08:00:00,08:00:00,,1
has T1,,,C,3
has T2,,,B,1
has T1,,,C,3
answers tables agencies 1 stops 3 trips 2 stop_times 5 calendar 1 calendar_dates 0 transfers 0
has T2,08:20:00,08:20:00,C,2
tells csa: stop_times.txt, line 5: trip_id \"T2\" begins or ends with this row, which has no time
answers refused 12 EndWithoutTime stop_times.txt 4
file base_feed/stop_times.txt
has trip_id,arrival_time,departure_time,stop_id,stop_sequence
has T1,08:00:00,08:00:00,A,1
has T1,08:00:00,08:00:00,B,2
has T1,08:00:00,08:00:00,C,3
has T2,08:12:00,08:12:00,B,1
has T2,08:20:00,08:20:00,C,2
answers tables agencies 1 stops 3 trips 2 stop_times 5 calendar 1 calendar_dates 0 transfers 0

# Numbers may have a point and zeros, and a kind of place that isn't one counts as blank.
rows base_feed/stops.txt stop_id,stop_name,location_type | A,A,0.0 | B,B,9 | C,C,
with stop_times.txt 1 T1,08:00:00,08:00:00,A,1.0
answers tables agencies 1 stops 3 trips 2 stop_times 5 calendar 1 calendar_dates 0 transfers 0

# Columns come in any order, with some that aren't known; a mark stands before the first; lines end with CR LF.
file base_feed/agency.txt
crlf agency_timezone,agency_fare,agency_id
crlf Etc/UTC,x,1
file base_feed/stop_times.txt
crlf \u{FEFF}stop_sequence,stop_id,note,departure_time,arrival_time,trip_id
crlf 1,A,n,08:00:00,08:00:00,T1
crlf 2,B,n,08:10:00,08:10:00,T1
crlf 3,C,n,08:30:00,08:30:00,T1
crlf 1,B,n,08:12:00,08:12:00,T2
crlf 2,C,n,08:20:00,08:20:00,T2
answers tables agencies 1 stops 3 trips 2 stop_times 5 calendar 1 calendar_dates 0 transfers 0

# Another number of records in each file; a station, which no stop time names, is one of its file's.
rows base_feed/agency.txt agency_timezone | Etc/UTC | Etc/UTC | Etc/UTC
rows base_feed/stops.txt stop_id,location_type,parent_station | A,,S | B,, | C,,S | S,1,
file base_feed/calendar_dates.txt
has service_id,date,exception_type
has X,20240115,1
has X,20240116,2
has Y,20240115,1
has Z,20240115,1
has V,20240115,1
has W,20240115,1
file base_feed/transfers.txt
has from_stop_id,to_stop_id,transfer_type
has A,B,
has B,A,2
has S,S,3
has nowhere,A,4
has A,A,1
has B,B,0
has C,S,2
answers tables agencies 3 stops 4 trips 2 stop_times 5 calendar 1 calendar_dates 6 transfers 7

# What is found once all files are read comes after what is wrong with any file.
rows base_feed/stops.txt stop_id,parent_station | A,Q | B, | C,
rows base_feed/calendar_dates.txt service_id,date,exception_type | S,20240115,3
file base_feed/frequencies.txt
has trip_id,start_time,end_time,headway_secs
has T2,9:00:00,10:00:00,1200
has T9,9:00:00,10:00:00,1200
tells csa: calendar_dates.txt, line 2: exception_type \"3\" is neither 1 nor 2
answers refused 7 BadNumber calendar_dates.txt 1
remove base_feed/calendar_dates.txt

# Then the order is: parents, stop times, frequencies, trips, transfers. The first trip goes back in time.
rows base_feed/transfers.txt from_stop_id,to_stop_id | A,Q
tells csa: stops.txt, line 2: parent_station \"Q\" isn't a station in stops.txt (the field may be left blank)
answers refused 9 UnknownId stops.txt 1
rows base_feed/stops.txt stop_id | A | B | C
file base_feed/stop_times.txt
has trip_id,arrival_time,departure_time,stop_id,stop_sequence
has T1,08:10:00,08:10:00,A,1
has T1,,,B,2
has T1,08:00:00,08:00:00,C,3
has T2,08:12:00,08:12:00,B,1
has T2,08:20:00,08:20:00,C,2
tells csa: frequencies.txt, line 3: trip_id \"T9\" isn't in trips.txt
answers refused 9 UnknownId frequencies.txt 2
rows base_feed/frequencies.txt trip_id,start_time,end_time,headway_secs | T2,9:00:00,10:00:00,1200
tells csa: stop_times.txt, line 4: trip_id \"T1\" has a time in this row that is earlier than the one before it
answers refused 13 TimeGoesBack stop_times.txt 3
with stop_times.txt 1 T1,08:00:00,08:00:00,A,1
tells csa: transfers.txt, line 2: to_stop_id \"Q\" isn't in stops.txt
answers refused 9 UnknownId transfers.txt 1
remove base_feed/frequencies.txt

# A station, and an entrance, are no stops; a row that is skipped isn't looked up, and of the ends that are unknown comes first.
rows base_feed/stops.txt stop_id,location_type | A, | B,1 | C,2
rows base_feed/transfers.txt from_stop_id,to_stop_id,transfer_type | C,Q,4
tells csa: stop_times.txt, line 3: stop_id \"B\" isn't a stop or platform: its location_type in stops.txt is 1 to 4
answers refused 15 NotAStop stop_times.txt 2
rows base_feed/stops.txt stop_id,location_type | A, | B, | C, | E,2
rows base_feed/transfers.txt from_stop_id,to_stop_id | A,B | E,B
tells csa: transfers.txt, line 3: from_stop_id \"E\" is neither a stop nor a station: its location_type in stops.txt is 2 to 4
answers refused 15 NotAStop transfers.txt 2
rows base_feed/transfers.txt from_stop_id,to_stop_id | E,Q
tells csa: transfers.txt, line 2: to_stop_id \"Q\" isn't in stops.txt
answers refused 9 UnknownId transfers.txt 1
remove base_feed/transfers.txt

# A quoted field with a line break, and empty lines: the line of the file is named; a control character is escaped.
remove base_feed
base
file base_feed/stop_times.txt
has \u{FEFF}trip_id,arrival_time,departure_time,stop_id,stop_sequence
has
has \"T1\",08:00:00,08:00:00,\"A
has \",1
tells csa: stop_times.txt, line 3: stop_id \"A\\n\" isn't in stops.txt; \
a double quote in line 3 opens a field that goes on to line 4
answers refused 9 UnknownId stop_times.txt 1

# A header without a column, one without any, a record that is too short, and an id that is there twice.
with stop_times.txt 1 T1,08:00:00,08:00:00,A
tells csa: stop_times.txt, line 2: the number of fields is 4, in the header 5
answers refused 4 RowLength stop_times.txt 1
rows base_feed/stop_times.txt trip_id,arrival_time,stop_id
tells csa: stop_times.txt, line 1: the header lacks departure_time, stop_sequence: \
it is \"trip_id,arrival_time,stop_id\"
answers refused 2 MissingColumn stop_times.txt 0
rows base_feed/stops.txt stop_id;stop_name | A;A
tells csa: stops.txt, line 1: the header lacks stop_id: it is \"stop_id;stop_name\"
answers refused 2 MissingColumn stops.txt 0
rows base_feed/stops.txt stop_id\tstop_name | A\tA
tells csa: stops.txt, line 1: the header lacks stop_id: it is \"stop_id\\tstop_name\"
answers refused 2 MissingColumn stops.txt 0
rows base_feed/stops.txt \u{FEFF}\u{FEFF}stop_id | A
tells csa: stops.txt, line 1: the header lacks stop_id: it is \"\\u{feff}stop_id\"
answers refused 2 MissingColumn stops.txt 0
rows base_feed/stops.txt Stop_ID,stop_code,stop_name,stop_desc,stop_lat,stop_lon,zone_id,stop_url | A,,,,,,,
tells csa: stops.txt, line 1: the header lacks stop_id: \
it is \"Stop_ID,stop_code,stop_name,stop_desc,stop_lat,stop_lon,zone\" ..
answers refused 2 MissingColumn stops.txt 0
rows base_feed/stops.txt stop_id | A | B | A
tells csa: stops.txt, line 4: stop_id \"A\" is in line 2 too
answers refused 8 IdTwice stops.txt 3
file base_feed/stops.txt
tells csa: stops.txt: there is no header
answers refused 2 MissingColumn stops.txt 0

# The first line that has the id is named, whatever is quoted or empty ahead of it; of a date that of the same service.
remove base_feed
base
file base_feed/stops.txt
has stop_name,stop_id
has
has \"Alder
has Street\",\" A \"
has A,B
has x,C
has x,A
has x,A
tells csa: stops.txt, line 7: stop_id \"A\" is in line 3 too
answers refused 8 IdTwice stops.txt 4
rows base_feed/stops.txt stop_id | A | B | C
rows base_feed/trips.txt trip_id,service_id | T1,S | S,T2 | T2,S | T2,S
tells csa: trips.txt, line 5: trip_id \"T2\" is in line 4 too
answers refused 8 IdTwice trips.txt 4
rows base_feed/trips.txt trip_id,service_id | T1,S | T2,S
rows base_feed/calendar_dates.txt date,service_id,exception_type | 20240115,X,1 | 20240116,S,1 | 20240115,S,1 \
| 20240116,S,2
tells csa: calendar_dates.txt, line 5: date \"20240116\" of this service is in line 3 too
answers refused 8 IdTwice calendar_dates.txt 4
remove base_feed/calendar_dates.txt
rows base_feed/calendar.txt service_id,monday,tuesday,wednesday,thursday,friday,saturday,sunday,start_date,end_date \
| S,1,1,1,1,1,1,1,20240101,20241231 | S,1,1,1,1,1,1,1,20240101,20241231
tells csa: calendar.txt, line 3: service_id \"S\" is in line 2 too
answers refused 8 IdTwice calendar.txt 2
with calendar.txt 1 S,1,1,1,1,1,1,1,20240115,20240230
tells csa: calendar.txt, line 2: end_date \"20240230\" isn't a date of the calendar, YYYYMMDD
answers refused 6 BadDate calendar.txt 1
remove base_feed
base

# Spaces at the ends of names and of fields don't count, and a line may end with CR LF.
file base_feed/stops.txt
crlf  location_type , stop_id
crlf  , A
crlf  , B
crlf 2 , C
file base_feed/stop_times.txt
crlf trip_id,arrival_time , departure_time,stop_id,stop_sequence
crlf
crlf  T1 ,08:00:00,08:00:00, A,1
crlf T1,08:10:00,08:10:00, C ,2
tells csa: stop_times.txt, line 4: stop_id \"C\" isn't a stop or platform: its location_type in stops.txt is 1 to 4
answers refused 15 NotAStop stop_times.txt 2

remove base_feed
base

# A feed that is one folder below, or may be zipped.
folder above
file above/notes.txt
folder above/other
folder above/gtfs
rows above/gtfs/agency.txt agency_timezone | Etc/UTC
run tables above
tells csa: above: no file agency.txt, but above/gtfs has one: name that folder
answers refused 1 MissingFile agency.txt 0
remove above/gtfs
file above/feed.zip
tells csa: above: no file agency.txt; if above/feed.zip is the feed, unpack it
answers refused 1 MissingFile agency.txt 0
remove above/feed.zip
tells csa: above: no file agency.txt
answers refused 1 MissingFile agency.txt 0
remove above
run tables base_feed

# Files that there aren't, a folder in the place of one, which can't be read, and at last no folder.
remove base_feed/stops.txt
tells csa: base_feed: no file stops.txt
answers refused 1 MissingFile stops.txt 0
folder base_feed/stops.txt
tells csa: base_feed/stops.txt can't be read: it is a folder
prints refused 101 FileFailed stops.txt
ends 3
remove base_feed/stops.txt
rows base_feed/stops.txt stop_id | A | B | C
remove base_feed/calendar.txt
tells csa: base_feed: neither calendar.txt nor calendar_dates.txt is there
answers refused 1 MissingFile calendar.txt 0
remove base_feed
tells csa: base_feed: no such file or folder
answers refused 1 MissingFile agency.txt 0
rows base_feed no folder
tells csa: base_feed: not a folder
answers refused 1 MissingFile agency.txt 0
remove base_feed
run tables ''
tells csa: \"\": no such file or folder
answers refused 1 MissingFile agency.txt 0
rows feed.zip no folder
run tables feed.zip
tells csa: feed.zip: a zip file: unpack it, and name the folder
answers refused 1 MissingFile agency.txt 0
remove feed.zip
";

const LINES: &str = "
# A line ends with LF, with CR LF or with CR alone: the line of the file is named.
base
run tables base_feed
file base_feed/stops.txt
cr stop_id
cr A
cr B
cr C
cr A
tells csa: stops.txt, line 5: stop_id \"A\" is in line 2 too
answers refused 8 IdTwice stops.txt 4
file base_feed/stops.txt
crlf stop_id
crlf A
crlf B
crlf C
crlf A
tells csa: stops.txt, line 5: stop_id \"A\" is in line 2 too
answers refused 8 IdTwice stops.txt 4
rows base_feed/stops.txt stop_id | A | B | C

# A mark before the header, empty lines, and a line end within quotes, with CR alone.
file base_feed/stop_times.txt
cr \u{FEFF}trip_id,arrival_time,departure_time,stop_id,stop_sequence,note
cr
cr T1,08:00:00,08:00:00,A,1,\"two
cr lines\"
cr T1,08:60:00,08:10:00,B,2,
tells csa: stop_times.txt, line 5: arrival_time \"08:60:00\" isn't a time, \
H:MM:SS or HH:MM:SS with minutes and seconds below 60
answers refused 5 BadTime stop_times.txt 2
remove base_feed
base

# A double quote that isn't closed in its line: its field goes on to the next double quote, or to the end of the file.
rows base_feed/stops.txt stop_id,stop_name | A,\"A | B,B | C,C
tells csa: stop_times.txt, line 3: stop_id \"B\" isn't in stops.txt; \
line 3 of stops.txt has it, in a field that a double quote in line 2 opens
answers refused 9 UnknownId stop_times.txt 2
rows base_feed/stops.txt stop_id,stop_name | A,\"A | B,\"B\" | C,C
tells csa: stop_times.txt, line 3: stop_id \"B\" isn't in stops.txt; \
line 3 of stops.txt has it, in a field that a double quote in line 2 opens
answers refused 9 UnknownId stop_times.txt 2
rows base_feed/stops.txt stop_id,stop_name | A,\"A | B,\"B\",x | C,C
tells csa: stops.txt, line 2: the number of fields is 3, in the header 2; \
a double quote in line 2 opens a field that goes on to line 3
answers refused 4 RowLength stops.txt 1
rows base_feed/stops.txt stop_id,stop_name | A,A | B | \"C,C
tells csa: stops.txt, line 3: the number of fields is 1, in the header 2
answers refused 4 RowLength stops.txt 2
rows base_feed/stops.txt stop_id,stop_name | A,A | \"B,B | C,C
tells csa: stops.txt, line 3: the number of fields is 1, in the header 2; \
a double quote in line 3 opens a field that goes on to line 4
answers refused 4 RowLength stops.txt 2
rows base_feed/stops.txt stop_id | A | B | C

# All columns are counted.
wide base_feed/agency.txt 1000000
tells csa: agency.txt, line 2: the number of fields is 1, in the header 1000001
answers refused 4 RowLength agency.txt 1
rows base_feed/agency.txt agency_timezone | Etc/UTC

# A device isn't read.
link base_feed/transfers.txt /dev/null
tells csa: base_feed/transfers.txt can't be read: it is a pipe, a socket or a device
prints refused 101 FileFailed transfers.txt
ends 3
remove base_feed/transfers.txt
remove base_feed
";

#[test]
fn tables_are_judged(rt: HostRuntime) -> Result<(), Fail> {
    try_transcripts(&rt, &[CHANGES, LINES])
}
