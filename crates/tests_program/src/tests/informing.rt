//! `csa info` and `csa days`: what an image has, and which service days a feed has.

use crate::tests::transcript::try_transcripts;
use std::fs;
use std::test::Fail;

const IMAGES: &str = "
# The sample in each layout, from the input and from a file.
sample
run info -
prints layout 1
prints bytes 188
prints base 1705276800
prints utc 2024-01-15T00:00:00Z
prints stops 3
prints trips 2
prints connections 3
prints footpaths 3
prints name-bytes 7
prints trips-20240115 2
ends 0
run info - --json
answers {\"base\":1705276800,\"bytes\":188,\"connections\":3,\"footpaths\":3,\"layout\":1,\"name-bytes\":7,\
\"stops\":3,\"trips\":2,\"trips-20240115\":2,\"utc\":\"2024-01-15T00:00:00Z\"}
sample 2
saves base.csa
run info base.csa
prints layout 2
prints bytes 196
prints base 1705276800
prints utc 2024-01-15T00:00:00Z
prints stops 3
prints trips 2
prints connections 3
prints footpaths 3
prints name-bytes 7
prints trips-20240115 2
ends 0
remove base.csa

# The second trip is of an earlier day, and then of a later one; a base before 1970.
sample
set 44 20240109
run info -
prints layout 1
prints bytes 188
prints base 1705276800
prints utc 2024-01-15T00:00:00Z
prints stops 3
prints trips 2
prints connections 3
prints footpaths 3
prints name-bytes 7
prints trips-20240109 1
prints trips-20240115 1
ends 0
set 44 20240201
set 7 4294967295
set 8 4294967295
run info -
prints layout 1
prints bytes 188
prints base -1
prints utc 1969-12-31T23:59:59Z
prints stops 3
prints trips 2
prints connections 3
prints footpaths 3
prints name-bytes 7
prints trips-20240115 1
prints trips-20240201 1
ends 0
run info --json -
answers {\"base\":-1,\"bytes\":188,\"connections\":3,\"footpaths\":3,\"layout\":1,\"name-bytes\":7,\
\"stops\":3,\"trips\":2,\"trips-20240115\":1,\"trips-20240201\":1,\"utc\":\"1969-12-31T23:59:59Z\"}
set 8 2147483647
run info - --json
answers {\"base\":9223372036854775807,\"bytes\":188,\"connections\":3,\"footpaths\":3,\"layout\":1,\
\"name-bytes\":7,\"stops\":3,\"trips\":2,\"trips-20240115\":1,\"trips-20240201\":1,\"utc\":null}

# Stops A, B and C with loops, no trips and no connections: no day.
image 1346458435 1 3 0 0 3 3 1705276800 0 0 1 2 3 0 0 1 0 2 0 0 1 2 3 4407873
run info -
prints layout 1
prints bytes 96
prints base 1705276800
prints utc 2024-01-15T00:00:00Z
prints stops 3
prints trips 0
prints connections 0
prints footpaths 3
prints name-bytes 3
ends 0

# A feed on two of three days.
base
rows base_feed/calendar.txt service_id,monday,tuesday,wednesday,thursday,friday,saturday,sunday,start_date,end_date | S,1,0,1,0,0,0,0,20240115,20240117
run build base_feed days.csa --first 20240115 --days 3 --zone fixed:0 --no-warnings
answers stops 3 runs 4 connections 6 footpaths 3 lifted 0 flex 0 frequencies 0 skipped 0
run info days.csa
prints layout 2
prints bytes 296
prints base 1705276800
prints utc 2024-01-15T00:00:00Z
prints stops 3
prints trips 4
prints connections 6
prints footpaths 3
prints name-bytes 11
prints trips-20240115 2
prints trips-20240117 2
ends 0
remove days.csa

# A stop_id with quotation marks and an end of a line.
file base_feed/stops.txt
has stop_id,stop_name
has A,A
has B,B
has C,C
has \"D \"\"4
has 5\",D
run build base_feed days.csa --first 20240115 --days 1 --zone fixed:0 --no-warnings
answers stops 4 runs 2 connections 3 footpaths 4 lifted 0 flex 0 frequencies 0 skipped 0
run stops days.csa D
tells csa: warning: an id of the image has a line feed, so a part of it looks like a line of its own: \
--json shows it whole
prints 3 D \"4
answers 5
run profile days.csa --from A --to C --after 08:00:00 --until 08:12:00 --by 10:00:00 --criterion arrival --names
tells csa: warning: an id of the image has a line feed, so a part of it looks like a line of its own: \
--json shows it whole
prints dep 08:00:00 arr 08:20:00 : ride T1 08:00:00 A 08:10:00 B walk B B 0 ride T2 08:12:00 B 08:20:00 C
answers points 1 read 3 walk none
asks profile days.csa --from A --to C --after 08:00:00 --until 08:12:00 --by 10:00:00 --criterion arrival --names
prints dep 08:00:00 arr 08:20:00 : ride T1 08:00:00 A 08:10:00 B walk B B 0 ride T2 08:12:00 B 08:20:00 C
answers points 1 read 3 walk none
run profile days.csa --from A --to C --after 08:00:00 --until 08:12:00 --by 10:00:00 --criterion arrival
prints dep 08:00:00 arr 08:20:00 : ride 0 0 walk 1 1 0 ride 2 2
answers points 1 read 3 walk none
run departures days.csa --to C --after 08:00:00 --until 08:12:00 --by 10:00:00 --criterion arrival --no-journeys
tells csa: warning: an id of the image has a line feed, so a part of it looks like a line of its own: \
--json shows it whole
prints A dep 08:00:00 arr 08:20:00
prints B dep 08:12:00 arr 08:20:00
answers stops 2 points 2 read 3
run stops days.csa D --json
answers [{\"id\":\"D \\\"4\\n5\",\"number\":3}]
remove days.csa
remove base_feed

# A stop_id and a trip_id with an end of a line: a terminal is shown its code, except in JSON, which has one of its own.
base
file base_feed/stops.txt
has stop_id,stop_name
has A,A
has \"B
has 1\",B
has C,C
file base_feed/trips.txt
has route_id,service_id,trip_id
has R,S,T1
has R,S,\"T
has 2\"
file base_feed/stop_times.txt
has trip_id,arrival_time,departure_time,stop_id,stop_sequence
has T1,08:00:00,08:00:00,A,1
has T1,08:10:00,08:10:00,\"B
has 1\",2
has T1,08:30:00,08:30:00,C,3
has \"T
has 2\",08:12:00,08:12:00,\"B
has 1\",1
has \"T
has 2\",08:20:00,08:20:00,C,2
run build base_feed days.csa --first 20240115 --days 1 --zone fixed:0 --no-warnings
answers stops 3 runs 2 connections 3 footpaths 3 lifted 0 flex 0 frequencies 0 skipped 0
shows stops days.csa
prints 0 A
prints 1 B\\u000a1
answers 2 C
shows stops days.csa B --json
answers [{\"id\":\"B\\n1\",\"number\":1}]
shows profile days.csa --from A --to C --after 08:00:00 --until 08:12:00 --by 10:00:00 --criterion arrival --names
prints dep 08:00:00 arr 08:20:00 : ride T1 08:00:00 A 08:10:00 B\\u000a1 walk B\\u000a1 B\\u000a1 0 \
ride T\\u000a2 08:12:00 B\\u000a1 08:20:00 C
answers points 1 read 3 walk none
shows profile days.csa --from A --to C --after 08:00:00 --until 08:12:00 --by 10:00:00 --criterion arrival --json \
--legs
answers {\"base\":1705276800,\"utc\":\"2024-01-15T00:00:00Z\",\"ok\":\"profile\",\"points\":[{\"arr\":\"08:20:00\",\
\"dep\":\"08:00:00\",\"journey\":\"ride 0 0 walk 1 1 0 ride 2 2\",\"legs\":[{\"arr\":\"08:10:00\",\"day\":20240115,\
\"dep\":\"08:00:00\",\"from\":\"A\",\"to\":\"B\\n1\",\"trip\":\"T1\"},{\"from\":\"B\\n1\",\"secs\":0,\"to\":\"B\\n1\"},\
{\"arr\":\"08:20:00\",\"day\":20240115,\"dep\":\"08:12:00\",\"from\":\"B\\n1\",\"to\":\"C\",\"trip\":\"T\\n2\"}]}],\
\"version\":1,\"walk\":null}
shows departures days.csa --to C --after 08:00:00 --until 08:12:00 --by 10:00:00 --criterion arrival
prints A dep 08:00:00 arr 08:20:00 : ride 0 0 walk 1 1 0 ride 2 2
prints B\\u000a1 dep 08:12:00 arr 08:20:00 : ride 2 2
answers stops 2 points 2 read 3
shows departures days.csa --to C --after 08:00:00 --until 08:12:00 --by 10:00:00 --criterion arrival --no-journeys
prints A dep 08:00:00 arr 08:20:00
prints B\\u000a1 dep 08:12:00 arr 08:20:00
answers stops 2 points 2 read 3
shows departures days.csa --to C --after 08:00:00 --until 08:12:00 --by 10:00:00 --criterion arrival --summary
prints A points 1 first 08:00:00 last 08:00:00 least 1200 walk none
prints B\\u000a1 points 1 first 08:12:00 last 08:12:00 least 480 walk none
answers stops 2 points 2 read 3
shows departures days.csa --to C --after 08:12:00 --until 08:12:00 --by 10:00:00 --criterion arrival --no-journeys \
--json
prints {\"from\":\"B\\n1\",\"points\":[{\"arr\":\"08:20:00\",\"dep\":\"08:12:00\"}],\"walk\":null}
answers {\"points\":1,\"read\":1,\"stops\":1}
rows targets C
shows matrix days.csa - --to targets --after 08:00:00 --until 08:12:00 --by 10:00:00 --criterion arrival --no-warnings
prints from,to,points,first_departure,last_departure,least_seconds,mean_seconds,walk
prints A,C,1,08:00:00,08:00:00,1200,,
answers B\\u000a1,C,1,08:12:00,08:12:00,480,840,
shows matrix days.csa shown.csv --to targets --after 08:00:00 --until 08:12:00 --by 10:00:00 --criterion arrival \
--no-warnings
answers targets 1 sources 3
asks matrix days.csa - --to targets --after 08:00:00 --until 08:12:00 --by 10:00:00 --criterion arrival
prints from,to,points,first_departure,last_departure,least_seconds,mean_seconds,walk
prints A,C,1,08:00:00,08:00:00,1200,,
prints \"B
answers 1\",C,1,08:12:00,08:12:00,480,840,
remove targets
remove days.csa
remove base_feed

# What is no image is refused as by `csa verify`.
sample
cut 3
run info -
answers refused 51 OddLength
run info - --json
answers refused 51 OddLength
";

const DAYS: &str = "
# A feed of one day.
base
run days base_feed
prints first 20240115
prints last 20240115
prints trips-20240115 2
ends 0
run days base_feed --json
answers {\"first\":\"20240115\",\"last\":\"20240115\",\"trips-20240115\":2}

# A Monday and a Wednesday, of which one is removed, days without trips, and a day that is added.
with calendar.txt 1 S,1,0,1,0,0,0,0,20240114,20240118
rows base_feed/calendar_dates.txt service_id,date,exception_type | S,20240119,1 | S,20240117,2
run days base_feed
prints first 20240115
prints last 20240119
prints trips-20240115 2
prints trips-20240116 0
prints trips-20240117 0
prints trips-20240118 0
prints trips-20240119 2
ends 0
run days --json base_feed
answers {\"first\":\"20240115\",\"last\":\"20240119\",\"trips-20240115\":2,\"trips-20240116\":0,\
\"trips-20240117\":0,\"trips-20240118\":0,\"trips-20240119\":2}

# A service of which all days are removed gives service on them; another service has no trips.
file base_feed/calendar.txt
has service_id,monday,tuesday,wednesday,thursday,friday,saturday,sunday,start_date,end_date
has S,1,0,0,0,0,0,0,20240115,20240115
has T,0,0,0,0,0,0,1,20240101,20240120
rows base_feed/calendar_dates.txt service_id,date,exception_type | S,20240115,2
run days base_feed
prints first 20240107
prints last 20240115
prints trips-20240107 0
prints trips-20240108 0
prints trips-20240109 0
prints trips-20240110 0
prints trips-20240111 0
prints trips-20240112 0
prints trips-20240113 0
prints trips-20240114 0
prints trips-20240115 0
ends 0

# The last days of the calendar.
with calendar.txt 1 S,1,1,1,1,1,1,1,99991230,99991231
rows base_feed/calendar_dates.txt service_id,date,exception_type
run days base_feed
prints first 99991230
prints last 99991231
prints trips-99991230 2
prints trips-99991231 2
ends 0

# A range without a weekday, or that ends before it starts, and a removed day give no service.
file base_feed/calendar.txt
has service_id,monday,tuesday,wednesday,thursday,friday,saturday,sunday,start_date,end_date
has S,0,0,0,0,0,0,0,20240115,20240117
has T,1,1,1,1,1,1,1,20240117,20240115
rows base_feed/calendar_dates.txt service_id,date,exception_type | S,20240117,2
run days base_feed
prints first none
prints last none
ends 0
run days base_feed --json
answers {\"first\":null,\"last\":null}
remove base_feed

# A feed that `csa tables` refuses.
run days no_such_folder
tells csa: no_such_folder: no such file or folder
answers refused 1 MissingFile agency.txt 0
run days no_such_folder --json
tells csa: no_such_folder: no such file or folder
answers refused 1 MissingFile agency.txt 0
";

#[test]
fn images_and_feeds_are_described(rt: HostRuntime) -> Result<(), Fail> {
    try_transcripts(&rt, &[IMAGES, DAYS])?;
    // a table in a file has ids as they are, also if a terminal gets its counts
    let table = fs::read_to_string(&rt, "shown.csv")?;
    assert!(rt;
        table
            .as_str()
            .ends_with("\n\"B\n1\",C,1,08:12:00,08:12:00,480,840,\n")
    );
    fs::remove_file(&rt, "shown.csv")?;
    Ok(())
}
