//! Questions between stations of several platforms, over a feed in the style of a national one: the platforms of a
//! station have stop_ids and platform codes, one stop of the station has no trips, and a change within it takes minutes.

use crate::tests::transcript::try_transcripts;
use std::fs;
use std::test::Fail;

const FEED: &str = "
folder swiss
rows swiss/agency.txt agency_id,agency_name,agency_url,agency_timezone | 1,SBB,http://sbb.example,Etc/UTC
rows swiss/stops.txt stop_id,stop_name,location_type,parent_station,platform_code | Parent8503000,Zürich HB,1,, | \
ch:1:sloid:3000:500:31,Zürich HB,,Parent8503000,31 | ch:1:sloid:3000:500:32,Zürich HB,,Parent8503000,32 | \
8503000,Zürich HB,,Parent8503000, | Parent8507000,Bern,1,, | ch:1:sloid:7000:1:7,Bern,,Parent8507000,7 | \
ch:1:sloid:7000:1:8,Bern,,Parent8507000,8 | Parent8501008,Genève,1,, | \
ch:1:sloid:1008:2:3,Genève,,Parent8501008,3 | ch:1:sloid:1008:2:5,Genève,,Parent8501008,5 | \
8501008,Genève,,Parent8501008, | 8590001,Zürich Zoo,,,
rows swiss/trips.txt route_id,service_id,trip_id | R,S,IC1 | R,S,IC2 | R,S,IC5
rows swiss/calendar.txt service_id,monday,tuesday,wednesday,thursday,friday,saturday,sunday,start_date,end_date | \
S,1,1,1,1,1,1,1,20240115,20240115
rows swiss/stop_times.txt trip_id,arrival_time,departure_time,stop_id,stop_sequence | \
IC1,08:02:00,08:02:00,ch:1:sloid:3000:500:32,1 | IC1,08:58:00,08:58:00,ch:1:sloid:7000:1:7,2 | \
IC2,09:04:00,09:04:00,ch:1:sloid:7000:1:8,1 | IC2,10:56:00,10:56:00,ch:1:sloid:1008:2:5,2 | \
IC5,08:32:00,08:32:00,ch:1:sloid:3000:500:31,1 | IC5,11:15:00,11:15:00,ch:1:sloid:1008:2:3,2
rows swiss/transfers.txt from_stop_id,to_stop_id,transfer_type,min_transfer_time | \
ch:1:sloid:3000:500:31,ch:1:sloid:3000:500:32,2,420 | ch:1:sloid:3000:500:31,8503000,2,420 | \
ch:1:sloid:3000:500:32,ch:1:sloid:3000:500:31,2,420 | ch:1:sloid:3000:500:32,8503000,2,420 | \
8503000,ch:1:sloid:3000:500:31,2,420 | 8503000,ch:1:sloid:3000:500:32,2,420
asks build swiss swiss.csa --first 20240115 --days 1 --zone fixed:0
answers stops 9 runs 3 connections 3 footpaths 23 lifted 0 flex 0 frequencies 0 skipped 0
";

const ANSWERS: &str = "
# From Zürich HB to Genève: no pair of platforms has this answer.
asks profile swiss.csa --from 8503000 --from ch:1:sloid:3000:500:31 --from ch:1:sloid:3000:500:32 --to 8501008 \
--to ch:1:sloid:1008:2:3 --to ch:1:sloid:1008:2:5 --after 08:00:00 --until 08:40:00 --by 12:00:00 --criterion \
arrival+trips --names
prints dep 08:02:00 arr 10:56:00 trips 2 : ride IC1 08:02:00 ch:1:sloid:3000:500:32 08:58:00 ch:1:sloid:7000:1:7 \
walk ch:1:sloid:7000:1:7 ch:1:sloid:7000:1:8 120 ride IC2 09:04:00 ch:1:sloid:7000:1:8 10:56:00 ch:1:sloid:1008:2:5
prints dep 08:32:00 arr 11:15:00 trips 1 : ride IC5 08:32:00 ch:1:sloid:3000:500:31 11:15:00 ch:1:sloid:1008:2:3
answers points 2 read 3 walk none
asks profile swiss.csa --from 8503000 --to 8501008 --after 08:00:00 --until 08:40:00 --by 12:00:00 --criterion \
arrival+trips
prints dep 08:25:00 arr 11:17:00 trips 1 : walk 2 0 420 ride 1 1 walk 5 7 120
answers points 1 read 3 walk none
asks profile swiss.csa --from ch:1:sloid:3000:500:32 --to ch:1:sloid:1008:2:5 --after 08:00:00 --until 08:40:00 \
--by 12:00:00 --criterion arrival+trips
prints dep 08:02:00 arr 10:56:00 trips 2 : ride 0 0 walk 3 4 120 ride 2 2
prints dep 08:25:00 arr 11:17:00 trips 1 : walk 1 0 420 ride 1 1 walk 5 6 120
answers points 2 read 3 walk none

# As JSON, and with legs.
asks profile swiss.csa --from ch:1:sloid:3000:500:31 --from 8503000 --to ch:1:sloid:1008:2:3 --after 08:00:00 \
--until 08:40:00 --by 12:00:00 --criterion arrival --json
answers {\"base\":1705276800,\"utc\":\"2024-01-15T00:00:00Z\",\"ok\":\"profile\",\
\"points\":[{\"arr\":\"11:15:00\",\"dep\":\"08:32:00\",\"journey\":\"ride 1 1\"}],\"version\":1,\"walk\":null}
asks profile swiss.csa --from ch:1:sloid:3000:500:31 --from 8503000 --to ch:1:sloid:1008:2:3 --after 08:00:00 \
--until 08:40:00 --by 12:00:00 --criterion arrival --json --legs
answers {\"base\":1705276800,\"utc\":\"2024-01-15T00:00:00Z\",\"ok\":\"profile\",\
\"points\":[{\"arr\":\"11:15:00\",\"dep\":\"08:32:00\",\"journey\":\"ride 1 1\",\"legs\":[{\"arr\":\"11:15:00\",\
\"day\":20240115,\"dep\":\"08:32:00\",\"from\":\"ch:1:sloid:3000:500:31\",\"\
to\":\"ch:1:sloid:1008:2:3\",\"trip\":\"IC5\"}]}],\"version\":1,\"walk\":null}

# The shortest walk of any pair: two minutes from Bern 7 to Bern 8, none to Genève.
asks profile swiss.csa --from ch:1:sloid:7000:1:7 --to ch:1:sloid:1008:2:3 --to ch:1:sloid:7000:1:8 --after \
08:00:00 --until 08:40:00 --by 12:00:00 --criterion arrival
answers points 0 read 3 walk 120
";

const FAULTS: &str = "
# A stop that the image doesn't have is named, on either side; so is one on both sides.
asks profile swiss.csa --from 8503000 --from Parent8503000 --to 8501008 --after 08:00:00 --until 08:40:00 --by \
12:00:00 --criterion arrival
tells csa: --from \"Parent8503000\": no stop of the image has this stop_id (stations aren't stops: give a \
platform's stop_id, which `csa stops IMAGE TEXT` lists)
answers refused 31 UnknownStop
asks profile swiss.csa --from 8503000 --to 8501008 --to X --after 08:00:00 --until 08:40:00 --by 12:00:00 \
--criterion arrival
tells csa: --to \"X\": no stop of the image has this stop_id (stations aren't stops: give a platform's stop_id, \
which `csa stops IMAGE TEXT` lists)
answers refused 31 UnknownStop
asks profile swiss.csa --from 8503000 --from 8501008 --to 8501008 --after 08:00:00 --until 08:40:00 --by 12:00:00 \
--criterion arrival
tells csa: --from \"8501008\": it is given by --to too
answers refused 32 SameStop
asks profile swiss.csa --from 8503000 --from ch:1:sloid:3000:500:31 --to 8501008 --after 08:00:00 --until \
07:59:59 --by 12:00:00 --criterion arrival
tells csa: --until is before --after
answers refused 33 BadWindow

# A stop twice on a side, and a side without a stop.
asks profile swiss.csa --from A --from B --from A --to C --after 08:00:00 --until 08:40:00 --by 12:00:00 \
--criterion arrival
tells error: --from \"A\": number 3 is the same stop as number 1
tells 
tells Usage: csa profile [OPTIONS] --from <STOP_ID> --to <STOP_ID> --after <CLOCK> --until <CLOCK> --by <CLOCK> \
--criterion <NAME> <IMAGE>
tells 
tells For more information, try 'csa profile --help'.
ends 64
asks profile swiss.csa --to A --to B --after 08:00:00 --until 08:40:00 --by 12:00:00 --criterion arrival
complains 64
";

const DEPARTURES: &str = "
# From every stop to any platform of Genève: the platforms are left out, and the window is read once.
asks departures swiss.csa --to 8501008 --to ch:1:sloid:1008:2:3 --to ch:1:sloid:1008:2:5 --after 08:00:00 --until \
08:40:00 --by 12:00:00 --criterion arrival+trips
prints ch:1:sloid:3000:500:31 dep 08:32:00 arr 11:15:00 trips 1 : ride 1 1
prints ch:1:sloid:3000:500:32 dep 08:02:00 arr 10:56:00 trips 2 : ride 0 0 walk 3 4 120 ride 2 2
prints ch:1:sloid:3000:500:32 dep 08:25:00 arr 11:15:00 trips 1 : walk 1 0 420 ride 1 1
prints 8503000 dep 08:25:00 arr 11:15:00 trips 1 : walk 2 0 420 ride 1 1
answers stops 3 points 4 read 3

# The shortest walk to any of them: two minutes from Bern 7 to Bern 8, none to Genève.
asks departures swiss.csa --to ch:1:sloid:1008:2:3 --to ch:1:sloid:7000:1:8 --after 08:00:00 --until 09:04:00 --by \
12:00:00 --criterion arrival --summary
prints ch:1:sloid:3000:500:31 points 1 first 08:32:00 last 08:32:00 least 9780 walk none
prints ch:1:sloid:3000:500:32 points 2 first 08:02:00 last 08:25:00 least 3480 walk none
prints 8503000 points 1 first 08:25:00 last 08:25:00 least 10200 walk none
prints ch:1:sloid:7000:1:7 points 1 first 09:02:00 last 09:02:00 least 6960 walk 120
answers stops 4 points 5 read 3

# The stops of a file, of which a target is left out.
rows wanted ch:1:sloid:7000:1:8 | ch:1:sloid:3000:500:31
asks departures swiss.csa --to ch:1:sloid:1008:2:3 --to ch:1:sloid:7000:1:8 --after 08:00:00 --until 09:04:00 --by \
12:00:00 --criterion arrival --from wanted --json
prints {\"from\":\"ch:1:sloid:3000:500:31\",\"points\":[{\"arr\":\"11:15:00\",\"dep\":\"08:32:00\",\
\"journey\":\"ride 1 1\"}],\"walk\":null}
answers {\"points\":1,\"read\":3,\"stops\":1}

# A target that the image doesn't have is named, and one that is given twice.
asks departures swiss.csa --to 8501008 --to X --after 08:00:00 --until 08:40:00 --by 12:00:00 --criterion arrival
tells csa: --to \"X\": no stop of the image has this stop_id (stations aren't stops: give a platform's stop_id, \
which `csa stops IMAGE TEXT` lists)
answers refused 31 UnknownStop
asks departures swiss.csa --to 8501008 --to ch:1:sloid:1008:2:3 --after 08:00:00 --until 07:59:59 --by 12:00:00 \
--criterion arrival
tells csa: --until is before --after
answers refused 33 BadWindow
asks departures swiss.csa --to A --to A --after 08:00:00 --until 08:40:00 --by 12:00:00 --criterion arrival
tells error: --to \"A\": number 2 is the same stop as number 1
tells 
tells Usage: csa departures [OPTIONS] --to <STOP_ID> --after <CLOCK> --until <CLOCK> --by <CLOCK> --criterion <NAME> \
<IMAGE>
tells 
tells For more information, try 'csa departures --help'.
ends 64
";

const DRAWN: &str = "
# The picture names the first stop of each side.
asks profile swiss.csa --from 8503000 --from ch:1:sloid:3000:500:31 --from ch:1:sloid:3000:500:32 --to 8501008 --to \
ch:1:sloid:1008:2:3 --to ch:1:sloid:1008:2:5 --after 08:00:00 --until 08:40:00 --by 12:00:00 --criterion arrival \
--picture swiss.svg
prints dep 08:02:00 arr 10:56:00 : ride 0 0 walk 3 4 120 ride 2 2
prints dep 08:32:00 arr 11:15:00 : ride 1 1
answers points 2 read 3 walk none
";

#[test]
fn from_any_platform_to_any_platform(rt: HostRuntime) -> Result<(), Fail> {
    try_transcripts(&rt, &[FEED, ANSWERS, FAULTS, DEPARTURES, DRAWN])?;
    let drawn = fs::read(&rt, "swiss.svg")?;
    assert!(rt; has_heading(&drawn));
    fs::remove_file(&rt, "swiss.svg")?;
    Ok(())
}

fn has_heading(drawn: &[u8]) -> bool {
    match str::from_utf8(drawn) {
        Ok(text) => text.contains("8503000 and 2 more") && text.contains("8501008 and 2 more"),
        Err(_) => false,
    }
}
