//! `csa build` over folders: what is counted, what is written, and what is refused.

use crate::tests::transcript::try_transcripts;
use std::fs;
use std::test::Fail;

const BASE: &str = "
# The feed of examples/base makes the sample in the layout that is written.
base
run build base_feed built.csa --first 20240115 --days 1 --zone fixed:0
answers stops 3 runs 2 connections 3 footpaths 3 lifted 0 flex 0 frequencies 0 skipped 0
sample 2
holds built.csa

# What is done is reported beside the counts: each file with its bytes and lines, and each phase with its counts.
run build base_feed built.csa --first 20240115 --days 1 --zone fixed:0 --progress
prints stops 3 runs 2 connections 3 footpaths 3 lifted 0 flex 0 frequencies 0 skipped 0
tells csa: reading agency.txt
tells csa: read agency.txt: bytes 83 lines 2 seconds #
tells csa: reading stops.txt
tells csa: read stops.txt: bytes 29 lines 4 seconds #
tells csa: reading trips.txt
tells csa: read trips.txt: bytes 41 lines 3 seconds #
tells csa: reading stop_times.txt
tells csa: read stop_times.txt: bytes 182 lines 6 seconds #
tells csa: reading calendar.txt
tells csa: read calendar.txt: bytes 121 lines 2 seconds #
tells csa: reading calendar_dates.txt
tells csa: no file calendar_dates.txt
tells csa: reading transfers.txt
tells csa: no file transfers.txt
tells csa: reading frequencies.txt
tells csa: no file frequencies.txt
tells csa: making connections and footpaths
tells csa: made runs 2 connections 3 footpaths 3 seconds #
tells csa: writing built.csa
tells csa: wrote built.csa: bytes 196 seconds #
ends 0
holds built.csa

# The counts as JSON.
run build base_feed built.csa --first 20240115 --days 1 --zone fixed:0 --json
answers {\"connections\":3,\"flex\":0,\"footpaths\":3,\"frequencies\":0,\"lifted\":0,\"runs\":2,\"skipped\":0,\
\"stops\":3}

# A day begins an hour earlier in the east.
run build base_feed built.csa --first 20240115 --days 1 --zone fixed:3600 --no-warnings
answers stops 3 runs 2 connections 3 footpaths 3 lifted 0 flex 0 frequencies 0 skipped 0
set 7 1705273200
holds built.csa

# A day begins an hour later in the west.
run build base_feed built.csa --first 20240115 --days 1 --zone fixed:-3600 --no-warnings
answers stops 3 runs 2 connections 3 footpaths 3 lifted 0 flex 0 frequencies 0 skipped 0
set 7 1705280400
holds built.csa

# A day that can't be, and a file that can't be written.
run build base_feed built.csa --first 99991231 --days 2 --zone fixed:0
tells csa: --first, --days: a day is outside the years 1 to 9999 or has no noon in the zone, the clock can't be read, \
or a trip has a time that no image can have
tells csa: the first such day is 99991231
answers refused 22 DayOutOfRange
holds built.csa
run build base_feed no_such_folder/built.csa --first 20240115 --days 1 --zone fixed:0
tells csa: no_such_folder/built.csa can't be written: no such file or folder
ends 3

# The day that the clock shows, and the day before: on neither runs anything. The zone is read before a clock is asked.
run build base_feed today.csa --first today --days 1 --zone fixed:0
tells csa: warning: no trip runs on these days, so no query has a departure \
(`csa days FOLDER` prints the days on which trips run)
answers stops 3 runs 0 connections 0 footpaths 3 lifted 0 flex 0 frequencies 0 skipped 0
run build base_feed today.csa --first today-1 --days 14 --zone posix:CET-1CEST,M3.5.0,M10.5.0/3 --no-warnings
answers stops 3 runs 0 connections 0 footpaths 3 lifted 0 flex 0 frequencies 0 skipped 0
run build base_feed today.csa --first today --days 1 --zone posix:none
tells csa: --zone: file:PATH must be a time zone file (TZif), posix:TEXT a rule such as CET-1CEST,M3.5.0,M10.5.0/3
answers refused 21 BadZone
remove today.csa

# A transfer that is left out, with a warning.
rows base_feed/transfers.txt from_stop_id,to_stop_id,transfer_type,min_transfer_time | B,B,4,600
run build base_feed built.csa --first 20240115 --days 1 --zone fixed:0 --no-warnings
answers stops 3 runs 2 connections 3 footpaths 3 lifted 0 flex 0 frequencies 0 skipped 1
run build base_feed built.csa --first 20240115 --days 1 --zone fixed:0
tells csa: warning: rows of transfers.txt are left out: 1 of a transfer_type that isn't one of 0, 1, 2, 3 (line 2); \
a change there may need more time than answers give it
answers stops 3 runs 2 connections 3 footpaths 3 lifted 0 flex 0 frequencies 0 skipped 1
rows base_feed/transfers.txt from_stop_id,to_stop_id,transfer_type,from_trip_id,to_trip_id | B,B,1,T1,T2
run build base_feed built.csa --first 20240115 --days 1 --zone fixed:0
tells csa: warning: rows of transfers.txt are left out: 1 between trips or routes (line 2); \
a change there may need more time than answers give it
answers stops 3 runs 2 connections 3 footpaths 3 lifted 0 flex 0 frequencies 0 skipped 1
rows base_feed/transfers.txt from_stop_id,to_stop_id,transfer_type,from_trip_id | B,B,, | B,B,7, |  | B,B,1,T1 | B,B,4,T2 \
| B,B,5,
run build base_feed built.csa --first 20240115 --days 1 --zone fixed:0
tells csa: warning: rows of transfers.txt are left out: 2 between trips or routes (the first in line 5), \
2 of a transfer_type that isn't one of 0, 1, 2, 3 (the first in line 3); \
a change there may need more time than answers give it
answers stops 3 runs 2 connections 3 footpaths 3 lifted 0 flex 0 frequencies 0 skipped 4
remove base_feed/transfers.txt

# A trip that repeats every twenty minutes until before ten.
rows base_feed/frequencies.txt trip_id,start_time,end_time,headway_secs | T1,09:00:00,10:00:00,1200
run build base_feed built.csa --first 20240115 --days 1 --zone fixed:0
answers stops 3 runs 4 connections 7 footpaths 3 lifted 0 flex 0 frequencies 1 skipped 0
asks profile built.csa --from A --to C --after 09:00:00 --until 10:00:00 --by 11:00:00 --criterion arrival+trips
prints dep 09:00:00 arr 09:30:00 trips 1 : ride 1 2
prints dep 09:20:00 arr 09:50:00 trips 1 : ride 3 4
prints dep 09:40:00 arr 10:10:00 trips 1 : ride 5 6
answers points 3 read 6 walk none
rows base_feed/frequencies.txt trip_id,start_time,end_time,headway_secs | T1,09:00:00,09:40:00,1200
run build base_feed built.csa --first 20240115 --days 1 --zone fixed:0
answers stops 3 runs 3 connections 5 footpaths 3 lifted 0 flex 0 frequencies 1 skipped 0
rows base_feed/frequencies.txt trip_id,start_time,end_time,headway_secs | T1,09:00:00,09:40:00,0
tells csa: frequencies.txt, line 2: headway_secs \"0\" must not be 0
answers refused 18 BadHeadway frequencies.txt 1
remove built.csa
remove base_feed
";

const FEEDS: &str = "
# One trip that stands still for a while, as its times say: each hop takes a second at least, or is refused.
folder feed
rows feed/agency.txt agency_timezone | Etc/UTC
rows feed/stops.txt stop_id | A | B | C | D
rows feed/trips.txt service_id,trip_id | S,T
rows feed/stop_times.txt trip_id,arrival_time,departure_time,stop_id,stop_sequence | T,08:00:00,08:00:00,A,1 | T,08:00:00,08:00:00,B,2 | T,08:00:00,08:00:00,C,3 | T,08:01:00,08:01:00,D,4
rows feed/calendar.txt service_id,monday,tuesday,wednesday,thursday,friday,saturday,sunday,start_date,end_date | S,1,1,1,1,1,1,1,20240101,20241231
run build feed feed.csa --first 20240115 --days 1 --zone fixed:0
answers stops 4 runs 1 connections 3 footpaths 4 lifted 1 flex 0 frequencies 0 skipped 0
asks profile feed.csa --from B --to C --after 08:00:00 --until 09:00:00 --by 09:00:00 --criterion arrival
prints dep 08:00:01 arr 08:00:02 : ride 1 1
answers points 1 read 3 walk none
remove feed.csa
run build feed feed.csa --first 20240115 --days 1 --zone fixed:0 --strict
tells csa: stop_times.txt, line 3: trip_id \"T\" arrives in this row no later than it departed from the stop before
answers refused 14 HopWithoutDuration stop_times.txt 2
lacks feed.csa

# A trip at eight, and one past midnight, in the night of the change of clocks: the second day starts an hour early, twelve hours before noon.
rows feed/stops.txt stop_id | A | B
rows feed/trips.txt service_id,trip_id | S,T | S,N
rows feed/stop_times.txt trip_id,arrival_time,departure_time,stop_id,stop_sequence | T,08:00:00,08:00:00,A,1 | T,08:10:00,08:10:00,B,2 | N,25:10:00,25:10:00,A,1 | N,25:20:00,25:20:00,B,2
run build feed feed.csa --first 20240330 --days 2 --zone posix:CET-1CEST,M3.5.0,M10.5.0/3 --no-warnings
answers stops 2 runs 4 connections 4 footpaths 2 lifted 0 flex 0 frequencies 0 skipped 0
asks profile feed.csa --from A --to B --after 25:00:00 --until 32:00:00 --by 32:00:00 --criterion arrival
prints dep 25:10:00 arr 25:20:00 : ride 1 1
prints dep 31:00:00 arr 31:10:00 : ride 2 2
answers points 2 read 2 walk none

# Each count is another: a trip that is lifted, two with a row of no stop, three that repeat, and four rows of ways that are skipped.
rows feed/trips.txt service_id,trip_id | S,L | S,F | S,G | S,P | S,Q | S,R
rows feed/stop_times.txt trip_id,arrival_time,departure_time,stop_id,stop_sequence | L,08:00:00,08:00:00,A,1 | L,08:00:00,08:00:00,B,2 | F,08:00:00,08:00:00,,1 | G,08:00:00,08:00:00,,1 | P,08:00:00,08:00:00,A,1 | P,08:05:00,08:05:00,B,2 | Q,08:00:00,08:00:00,A,1 | Q,08:05:00,08:05:00,B,2 | R,08:00:00,08:00:00,A,1 | R,08:05:00,08:05:00,B,2
rows feed/frequencies.txt trip_id,start_time,end_time,headway_secs | P,09:00:00,09:20:00,600 | Q,09:00:00,09:20:00,600 | R,09:00:00,09:20:00,600
rows feed/transfers.txt from_stop_id,to_stop_id,transfer_type,min_transfer_time | A,B,4, | A,B,5, | A,B,4, | B,A,5,
run build feed feed.csa --first 20240115 --days 1 --zone fixed:0
tells csa: warning: rows of transfers.txt are left out: \
4 of a transfer_type that isn't one of 0, 1, 2, 3 (the first in line 2); \
a change there may need more time than answers give it
answers stops 2 runs 7 connections 7 footpaths 2 lifted 1 flex 2 frequencies 3 skipped 4
remove feed/frequencies.txt
remove feed/transfers.txt

# Two services, of which the one has one day and the other none.
rows feed/trips.txt service_id,trip_id | X,T | Y,U
rows feed/stop_times.txt trip_id,arrival_time,departure_time,stop_id,stop_sequence | T,08:00:00,08:00:00,A,1 | T,08:10:00,08:10:00,B,2 | U,09:00:00,09:00:00,A,1 | U,09:10:00,09:10:00,B,2
remove feed/calendar.txt
rows feed/calendar_dates.txt service_id,date,exception_type | X,20240115,1 | X,20240116,2
run build feed feed.csa --first 20240115 --days 2 --zone fixed:0
tells csa: warning: no trip runs on 20240116
answers stops 2 runs 1 connections 1 footpaths 2 lifted 0 flex 0 frequencies 0 skipped 0
asks profile feed.csa --from A --to B --after 00:00:00 --until 48:00:00 --by 48:00:00 --criterion arrival
prints dep 08:00:00 arr 08:10:00 : ride 0 0
answers points 1 read 1 walk none
run build feed feed.csa --first 20240114 --days 4 --zone fixed:0
tells csa: warning: no trip runs on 20240114, 20240116, 20240117
answers stops 2 runs 1 connections 1 footpaths 2 lifted 0 flex 0 frequencies 0 skipped 0

# Two stops of a station, and nothing that runs: two minutes between them, unless a row says otherwise.
rows feed/stops.txt stop_id,location_type,parent_station | S,1, | P,0,S | Q,0,S
rows feed/trips.txt service_id,trip_id
rows feed/stop_times.txt trip_id,arrival_time,departure_time,stop_id,stop_sequence
rows feed/transfers.txt from_stop_id,to_stop_id,transfer_type,min_transfer_time
run build feed feed.csa --first 20240115 --days 1 --zone fixed:0
tells csa: warning: no trip runs on these days, so no query has a departure \
(`csa days FOLDER` prints the days on which trips run)
answers stops 2 runs 0 connections 0 footpaths 4 lifted 0 flex 0 frequencies 0 skipped 0
asks profile feed.csa --from P --to Q --after 00:00:00 --until 01:00:00 --by 01:00:00 --criterion arrival
answers points 0 read 0 walk 120
asks profile feed.csa --from Q --to P --after 00:00:00 --until 01:00:00 --by 01:00:00 --criterion arrival
answers points 0 read 0 walk 120
asks profile feed.csa --from S --to P --after 00:00:00 --until 01:00:00 --by 01:00:00 --criterion arrival
tells csa: --from \"S\": no stop of the image has this stop_id \
(stations aren't stops: give a platform's stop_id, which `csa stops IMAGE TEXT` lists)
answers refused 31 UnknownStop
rows feed/transfers.txt from_stop_id,to_stop_id,transfer_type,min_transfer_time | S,S,2,180
run build feed feed.csa --first 20240115 --days 1 --zone fixed:0
tells csa: warning: no trip runs on these days, so no query has a departure \
(`csa days FOLDER` prints the days on which trips run)
answers stops 2 runs 0 connections 0 footpaths 4 lifted 0 flex 0 frequencies 0 skipped 0
asks profile feed.csa --from P --to Q --after 00:00:00 --until 01:00:00 --by 01:00:00 --criterion arrival
answers points 0 read 0 walk 180
asks profile feed.csa --from Q --to P --after 00:00:00 --until 01:00:00 --by 01:00:00 --criterion arrival
answers points 0 read 0 walk 180
rows feed/transfers.txt from_stop_id,to_stop_id,transfer_type,min_transfer_time | S,S,2,180 | P,Q,3,
run build feed feed.csa --first 20240115 --days 1 --zone fixed:0
tells csa: warning: no trip runs on these days, so no query has a departure \
(`csa days FOLDER` prints the days on which trips run)
answers stops 2 runs 0 connections 0 footpaths 3 lifted 0 flex 0 frequencies 0 skipped 0
asks profile feed.csa --from P --to Q --after 00:00:00 --until 01:00:00 --by 01:00:00 --criterion arrival
answers points 0 read 0 walk none
asks profile feed.csa --from Q --to P --after 00:00:00 --until 01:00:00 --by 01:00:00 --criterion arrival
answers points 0 read 0 walk 180
remove feed.csa
remove feed

# The zone is judged before the folder is looked at; a zone file that can't be read is reported too.
run build no_such_feed none.csa --first 20240115 --days 1 --zone fixed:0
tells csa: no_such_feed: no such file or folder
answers refused 1 MissingFile agency.txt 0
run build no_such_feed none.csa --first 20240115 --days 1 --zone fixed:-86399
tells csa: no_such_feed: no such file or folder
answers refused 1 MissingFile agency.txt 0
run build no_such_feed none.csa --first 20240115 --days 1 --zone posix:CET
tells csa: --zone: file:PATH must be a time zone file (TZif), posix:TEXT a rule such as CET-1CEST,M3.5.0,M10.5.0/3
answers refused 21 BadZone
run build no_such_feed none.csa --first 20240115 --days 1 --zone file:no_such_zone
tells csa: no_such_zone can't be read: no such file or folder
ends 3

# A feed's file that can't be read ends with 3; a refusal is reported before a file that can't be written.
folder unread
folder unread/agency.txt
run build unread no_such_folder/unread.csa --first 20240115 --days 1 --zone fixed:0
tells csa: unread/agency.txt can't be read: it is a folder
prints refused 101 FileFailed agency.txt
ends 3
remove unread/agency.txt
tells csa: unread: no file agency.txt
answers refused 1 MissingFile agency.txt 0
rows unread/agency.txt agency_timezone | Etc/UTC
folder unread/stops.txt
tells csa: unread/stops.txt can't be read: it is a folder
prints refused 101 FileFailed stops.txt
ends 3
remove unread
";

/// A zone file with the rule of Central Europe (TZif, RFC 9636).
const CENTRAL_EUROPE: &[u8] = b"TZif2\0\0\0\0\0\0\0\0\0\0\0\0\0\0\0\
\0\0\0\0\0\0\0\0\0\0\0\0\0\0\0\0\0\0\0\x01\0\0\0\x01\0\0\0\0\0\0\0\
TZif2\0\0\0\0\0\0\0\0\0\0\0\0\0\0\0\
\0\0\0\0\0\0\0\0\0\0\0\0\0\0\0\x01\0\0\0\x02\0\0\0\x09\
\0\0\0\0\x66\x08\xB5\x90\x01\0\0\x0E\x10\0\0\0\0\x1C\x20\x01\x04CET\0CEST\0\
\nCET-1CEST,M3.5.0,M10.5.0/3\n";

const ZONE_FILE: &str = "
# One stop, and a day that begins an hour earlier in the east, by a zone file.
folder east
rows east/agency.txt agency_timezone | zone_file
rows east/stops.txt stop_id | A
rows east/trips.txt service_id,trip_id
rows east/stop_times.txt trip_id,arrival_time,departure_time,stop_id,stop_sequence
rows east/calendar_dates.txt service_id,date,exception_type
run build east east.csa --first 20240115 --days 1 --zone file:./zone_file
tells csa: warning: no trip runs on these days, so no query has a departure \
(`csa days FOLDER` prints the days on which trips run)
answers stops 1 runs 0 connections 0 footpaths 1 lifted 0 flex 0 frequencies 0 skipped 0
image 1346458435 2 1 0 0 1 1 1705273200 0 0 1 0 0 0 1 65
holds east.csa

# A zone file that is none.
rows zone_file no zone
tells csa: --zone: file:PATH must be a time zone file (TZif), posix:TEXT a rule such as CET-1CEST,M3.5.0,M10.5.0/3
answers refused 21 BadZone
remove zone_file
remove east.csa
remove east
";

#[test]
fn feeds_are_built_or_refused(rt: HostRuntime) -> Result<(), Fail> {
    fs::write(&rt, "zone_file", CENTRAL_EUROPE)?;
    try_transcripts(&rt, &[ZONE_FILE, BASE, FEEDS])
}
