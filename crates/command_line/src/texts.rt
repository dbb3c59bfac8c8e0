//! What the help prints below the arguments of each command.

/// The program's version, as `--version` prints it.
pub(crate) const VERSION: &str = "1.21.0";

pub(crate) const STATUSES: &str = "Exit status:\n\
\x20 0   accepted\n\
\x20 2   refused: standard output has one line `refused NUMBER NAME PLACES`, standard error may explain it;\n\
\x20     for departures and matrix also if a line of a FILE is not a stop_id, which standard error alone says;\n\
\x20     for serve if a session sent too many requests\n\
\x20 3   a file cannot be read or written, the server cannot listen at its port, a line cannot be written,\n\
\x20     or a session failed\n\
\x20 4   out of memory\n\
\x20 64  wrong command line";

pub(crate) const VERIFY: &str =
    "Standard output has one line, as `ok stops 3 trips 2 connections 3 footpaths 3`: csa info --help says what is\n\
counted.\n\
\n\
Example: csa verify examples/base.csa";

pub(crate) const INFO: &str = "Each line is a word and a value, with a space between:\n\
\x20 layout          the layout of the image, 1 or 2\n\
\x20 bytes           the size of the image\n\
\x20 base            the instant from which clocks count, in seconds after 1970-01-01T00:00:00Z\n\
\x20 utc             the same as a date and time of UTC, or none outside the years -9999 to 9999\n\
\x20 stops           stops\n\
\x20 trips           trips, each on one service day\n\
\x20 connections     rides from one stop to the next\n\
\x20 footpaths       walks from stop to stop, counting that of each stop to itself\n\
\x20 name-bytes      bytes of all stop_ids and trip_ids together\n\
\x20 trips-YYYYMMDD  trips of this service day, each repetition by itself; the earliest day first, days without\n\
\x20                 trips left out\n\
With --json the same words are the keys of an object, and utc is null for none.\n\
An image that csa verify refuses is refused.\n\
\n\
Example: csa info examples/base.csa\n\
With --json: {\"base\":1705276800,\"bytes\":188,\"connections\":3,\"footpaths\":3,\"layout\":1,\
\"name-bytes\":7,\"stops\":3,\"trips\":2,\"trips-20240115\":2,\"utc\":\"2024-01-15T00:00:00Z\"}";

pub(crate) const STOPS: &str =
    "Each line is the number of a stop in the image, from 0 on, and its stop_id: 0 A\n\
With --json: [{\"id\":\"A\",\"number\":0},{\"id\":\"B\",\"number\":1},{\"id\":\"C\",\"number\":2}]\n\
An image has no names: csa stations finds the stop_ids of a feed by name.\n\
\n\
Example: csa stops examples/base.csa";

pub(crate) const TABLES: &str =
    "Standard output has one line, with the number of records of each file:\n\
\x20 tables agencies 1 stops 3 trips 2 stop_times 5 calendar 1 calendar_dates 0 transfers 0\n\
stops counts stations too, agencies is agency.txt. frequencies.txt is checked, and not counted.\n\
A refusal names the first fault. With --all-faults the others are reported on standard error, file by\n\
file. The times of trips are judged once each record of stop_times.txt is fine by itself.\n\
\n\
Example: csa tables examples/base --all-faults\n\
With --json: {\"agencies\":1,\"calendar\":1,\"calendar_dates\":0,\"stop_times\":5,\"stops\":3,\"transfers\":0,\
\"trips\":2}";

pub(crate) const DAYS: &str = "Each line is a word and a value, with a space between:\n\
\x20 first           the first day, YYYYMMDD, on which a row of calendar.txt or calendar_dates.txt\n\
\x20                 gives service, or none; a day that another row takes away still counts\n\
\x20 last            the last such day, or none\n\
\x20 trips-YYYYMMDD  trips that run on this day, each counted once, also if frequencies.txt repeats it;\n\
\x20                 a line for each day from the first on, 366 at most\n\
\x20 unlisted        the first day that has no such line, YYYYMMDD, if there are more up to the last\n\
With --json the same words are the keys of an object; days are texts, and null for none.\n\
A feed that csa tables refuses is refused.\n\
\n\
Example: csa days examples/base\n\
With --json: {\"first\":\"20240115\",\"last\":\"20240115\",\"trips-20240115\":2}";

pub(crate) const STATIONS: &str =
    "Each line is a station, or a stop without one, in the order of stops.txt, with tabs between its parts:\n\
\x20 station  or stop\n\
\x20 STOP_ID  its stop_id\n\
\x20 NAME     its stop_name\n\
and then for each of its stops the stop_id, as --from and --to take it, and the platform_code, blank if none.\n\
A stop without a station is its own only stop. TEXT is looked for in the ids and names of the station and its stops.\n\
With --json: [{\"id\":\"C\",\"name\":\"C\",\"stops\":[{\"id\":\"C\",\"platform\":\"\"}],\"type\":\"stop\"}]\n\
Only stops.txt is read and checked; csa tables checks the whole feed.\n\
\n\
Example: csa stations examples/base c";

pub(crate) const UPGRADE: &str = "Standard output has the line of csa verify.\n\
\n\
Example: csa upgrade examples/base.csa base.csa";

pub(crate) const JOURNEY: &str =
    "Standard output has one line, `ok dep CLOCK arr CLOCK`, or the refusal.\n\
A journey has at least one ride. Its numbers are those of the image, as `csa profile` prints them without\n\
--names:\n\
\x20 ride FIRST LAST    from the first to the last of these connections, which are of one trip\n\
\x20 walk FROM TO SECS  from one stop to another\n\
Between two rides there is always a walk, even if both are at one stop and the change takes 0 seconds: `walk 1 1 0`.\n\
Clocks are HH:MM:SS after the image's base, the start of its first service day: 55:00:00 is 07:00 on the\n\
third day.\n\
\n\
Example: csa journey examples/base.csa 'ride 0 0 walk 1 1 0 ride 2 2' \
--from A --to C --after 07:00:00 --until 09:00:00 --by 10:00:00";

pub(crate) const PROFILE: &str =
    "Each line `dep CLOCK arr CLOCK [trips N] [walked SECS] : JOURNEY` is a best departure: no journey is at least\n\
as good in departure, arrival and whatever else the criterion counts, and better in one of them.\n\
The last line `points N read N walk SECS` has the number of these departures, the number of connections that\n\
were read, and the seconds of the direct walk, or `none`. A journey has at least one ride, so this walk is not\n\
among the departures, and may be quicker than some of them.\n\
With --from or --to given several times, at most 1000 times each, journeys may begin at any of the first stops and\n\
end at any of the second: the departures are the best of all pairs, the walk is the shortest.\n\
Clocks are HH:MM:SS after the image's base, the start of its first service day: 55:00:00 is 07:00 on the\n\
third day. A warning says if the image has no connections, if --until is before its first departure or --after\n\
after its last, or if --until is after the day of its last; --no-warnings leaves it out.\n\
\n\
Example: csa profile examples/base.csa --from A --to C --after 08:00:00 --until 08:12:00 \
--by 10:00:00 --criterion arrival+trips\n\
With --names a line is: dep 08:00:00 arr 08:30:00 trips 1 : ride T1 08:00:00 A 08:30:00 C\n\
With --json it is: {\"base\":1705276800,\"utc\":\"2024-01-15T00:00:00Z\",\"ok\":\"profile\",\
\"points\":[{\"arr\":\"08:30:00\",\"dep\":\"08:00:00\",\"journey\":\"ride 0 1\",\"trips\":1}],\
\"version\":1,\"walk\":null}\n\
With --picture answer.svg --rows 50 the first 50 journeys are drawn too.";

pub(crate) const DEPARTURES: &str =
    "Each line is one of `csa profile` from a stop, with the stop_id before it. There are lines from every stop\n\
except those where journeys end; a stop without departures has no line. Stops come in the image's order, as\n\
`csa stops` prints them. The last line `stops N points N read N` has the number of stops that have a line, the number\n\
of their departures, and the number of connections that were read.\n\
Journeys have the image's numbers; `csa profile --names` prints those from one stop with ids.\n\
A journey has at least one ride, so a direct walk is not among the departures: --summary and --json give its seconds\n\
for the stops that have a line.\n\
With --to given several times, at most 1000 times, journeys may end at any of these stops: the departures from a stop\n\
are the best to all of them, the walk is the shortest.\n\
If a line of FILE is not a stop_id of the image, nothing is printed, standard error has its number and its text, and\n\
the status is 2; if FILE cannot be read, it is 3.\n\
A warning says if the image has no connections, if --until is before its first departure or --after after its last,\n\
or if --until is after the day of its last; --no-warnings leaves it out.\n\
\n\
Example: csa departures examples/base.csa --to C --after 08:00:00 --until 08:12:00 --by 10:00:00 \
--criterion arrival\n\
With --summary a line is: A points 1 first 08:00:00 last 08:00:00 least 1200 walk none\n\
and with --json too: {\"first\":\"08:00:00\",\"from\":\"A\",\"last\":\"08:00:00\",\"least\":1200,\
\"points\":1,\"walk\":null}\n\
With --json it is: {\"from\":\"A\",\"points\":[{\"arr\":\"08:20:00\",\"dep\":\"08:00:00\",\
\"journey\":\"ride 0 0 walk 1 1 0 ride 2 2\"}],\"walk\":null}\n\
and at the end: {\"points\":2,\"read\":3,\"stops\":2}";

pub(crate) const MATRIX: &str =
    "A line of a FILE is a stop_id, or a set: several with a tab between two of them. Journeys begin and end at any\n\
stop of a set. OUT has a first row with the names of the columns, and then for each line of --to, in the order of its\n\
file, a row for each of --from, in the order of its file, or else for each stop of the image, unless the two have a\n\
stop in common:\n\
\x20 from             the stop_ids of the stops where journeys begin, as the line has them\n\
\x20 to               those of the stops where they end\n\
\x20 points           how many best departures there are, as csa departures prints them\n\
\x20 first_departure  the first one, HH:MM:SS after the image's base\n\
\x20 last_departure   the last one\n\
\x20 least_seconds    the least seconds from one of them to its arrival\n\
\x20 mean_seconds     the mean, over each second from --after to --until, of the seconds from then until one arrives\n\
\x20                  by the next departure that serves best, also one after --until; blank if some second has none\n\
\x20 walk             the seconds of the direct walk, which no other column counts\n\
A figure that is not there is blank. With --each a row is one best departure: from, to, departure, arrival, seconds\n\
between them, trips, walked (blank if the criterion does not count them); a pair without one has no row.\n\
Standard output has one line, `targets N sources N`, or the table if OUT is -.\n\
If a line of a FILE has what is not a stop_id of the image, standard error has its number and that text, and the\n\
status is 2; if a FILE has no line, a line twice, or a stop_id twice in a line, it is 64.\n\
A line of --to takes a scan from all stops, or two if --until is not --by; a line of --from takes none.\n\
Each thread has the answers of one scan in memory; the criterion arrival takes least, for the same means.\n\
Warnings are those of `csa departures`.\n\
\n\
Example: csa matrix examples/base.csa - --to targets --after 08:00:00 --until 08:12:00 --by 10:00:00 \
--criterion arrival\n\
where targets has the line C, prints\n\
from,to,points,first_departure,last_departure,least_seconds,mean_seconds,walk\n\
A,C,1,08:00:00,08:00:00,1200,,\n\
B,C,1,08:12:00,08:12:00,480,840,";

pub(crate) const BUILD: &str = "Standard output has one line of counts:\n\
\x20 stops        stops and platforms in stops.txt; stations, entrances and the like are not counted\n\
\x20 runs         trips on the days on which they run, each repetition of frequencies.txt by itself\n\
\x20 connections  rides of these runs from one stop to the next\n\
\x20 footpaths    pairs of stops with a walk from one to the other, counting each stop with itself\n\
\x20 lifted       trips with a time that was moved, so that each hop takes at least one second\n\
\x20 flex         trips left out because one of their rows in stop_times.txt has no stop_id\n\
\x20 frequencies  trips that frequencies.txt names\n\
\x20 skipped      rows of transfers.txt left out: between trips or routes, or with a transfer_type that is not one of\n\
\x20              0, 1, 2, 3\n\
The counts lifted, flex and frequencies include trips that run on none of the days.\n\
\n\
With --progress standard error has two lines for each file and each phase: when it begins, and when it is done, with\n\
the file's bytes and lines or the phase's counts, and the seconds that it took. On a terminal one line is rewritten.\n\
\n\
Example: csa build examples/base base.csa --first 20240115 --days 1 --zone fixed:0 --progress\n\
With --json: {\"connections\":3,\"flex\":0,\"footpaths\":3,\"frequencies\":0,\"lifted\":0,\"runs\":2,\
\"skipped\":0,\"stops\":3}";

pub(crate) const SERVE: &str =
    "The image is version 1. The days and the zone are those of the feeds that are loaded. A warning says if the\n\
image and the feeds use different time bases, or if the folder of a feed is not there yet.\n\
Standard output has `listening P` once clients can connect and, with --sessions N, `served N` at the end.\n\
A session is lines of JSON over TCP:\n\
\x20 {\"do\":\"pin\"}\n\
\x20 {\"do\":\"release\"}\n\
\x20 {\"do\":\"load\",\"feed\":\"slow\"}\n\
\x20     (with \"wait\":true the reply comes once the feed is loaded, or says why it is not)\n\
\x20 {\"do\":\"profile\",\"from\":\"A\",\"to\":\"C\",\"after\":\"07:00:00\",\"until\":\"09:00:00\",\
\"by\":\"10:00:00\",\"criterion\":\"arrival\"}\n\
Standard error has a line for each load, and what is wrong with a feed that is refused. With --log it also has,\n\
with the instant in UTC and the seconds that it took:\n\
\x20 2024-01-15T06:00:00Z session 1 began\n\
\x20 2024-01-15T06:00:00Z session 1 ended requests 4 seconds 0.250 slowest seconds 0.020\n\
\x20     (ended: every request was answered; spent: it sent too many requests; failed: its connection broke,\n\
\x20     a line was longer than 16 MiB, or --idle ended it)\n\
\x20 2024-01-15T06:00:00Z load slow version 2 runs 2 connections 3 seconds 0.015\n\
\x20 2024-01-15T06:00:00Z load slow refused 8 seconds 0.001\n\
With --idle SECS a session also ends if the first byte that its client sends is a capital letter, as in HTTP\n\
(GET /, POST /): without it, a web page in a browser on this machine can send requests, and order loads.\n\
\n\
Example: csa serve --image examples/base.csa --port 7077 --workers 2 --sessions 0 --first 20240115 \
--days 1 --zone fixed:0 slow=examples/slow";
