//! Profiles as a user asks for them: each line, and that `csa journey` accepts each journey that is printed.

use crate::tests::transcript::try_transcripts;
use std::fs;
use std::test::Fail;

const ANSWERS: &str = "
# The sample: by arrival, and by trips too.
sample
profile A C 07:00:00 09:00:00 10:00:00 arrival
prints dep 08:00:00 arr 08:20:00 : ride 0 0 walk 1 1 0 ride 2 2
answers points 1 read 3 walk none
profile A C 07:00:00 09:00:00 10:00:00 arrival+trips
prints dep 08:00:00 arr 08:20:00 trips 2 : ride 0 0 walk 1 1 0 ride 2 2
prints dep 08:00:00 arr 08:30:00 trips 1 : ride 0 1
answers points 2 read 3 walk none
judge A C 07:00:00 09:00:00 10:00:00 ride 0 0 walk 1 1 0 ride 2 2 | ok dep 08:00:00 arr 08:20:00
judge A C 07:00:00 09:00:00 10:00:00 ride 0 1 | ok dep 08:00:00 arr 08:30:00

# A change takes as long as the loop at its stop: two minutes are had at B, and a second more isn't.
set 34 120
profile A C 07:00:00 09:00:00 10:00:00 arrival
prints dep 08:00:00 arr 08:20:00 : ride 0 0 walk 1 1 120 ride 2 2
answers points 1 read 3 walk none
set 34 121
prints dep 08:00:00 arr 08:30:00 : ride 0 1
answers points 1 read 3 walk none
set 34 120
judge A C 07:00:00 09:00:00 10:00:00 ride 0 0 walk 1 1 120 ride 2 2 | ok dep 08:00:00 arr 08:20:00

# The window cuts departures: nobody sets out by the loop at the source to depart in it.
sample
profile A C 07:00:00 07:59:59 10:00:00 arrival
answers points 0 read 3 walk none
set 32 60
answers points 0 read 3 walk none
sample
profile A C 07:00:00 08:00:00 10:00:00 arrival
prints dep 08:00:00 arr 08:20:00 : ride 0 0 walk 1 1 0 ride 2 2
answers points 1 read 3 walk none

# The latest arrival is kept.
profile A C 07:00:00 09:00:00 08:20:00 arrival
prints dep 08:00:00 arr 08:20:00 : ride 0 0 walk 1 1 0 ride 2 2
answers points 1 read 3 walk none
profile A C 07:00:00 09:00:00 08:19:59 arrival
answers points 0 read 3 walk none

# Without connections none are read.
image 1346458435 1 3 0 0 3 3 1705276800 0 0 1 2 3 0 0 1 0 2 0 0 1 2 3 4407873
profile A C 07:00:00 09:00:00 10:00:00 arrival
answers points 0 read 0 walk none

# A third trip goes from A to C and arrives as the change does: fewer trips are better.
image 1346458435 1 3 3 4 3 9 1705276800 0 0 1 28800 29400 0 3 0 2 28800 30000 2 3 1 2 29400 30600 0 3 1 2 29520 30000 1 3 0 1 2 3 0 0 1 0 2 0 0 1 2 3 5 7 9 20240115 20240115 20240115 1413694017 1412584497 51
profile A C 07:00:00 09:00:00 10:00:00 arrival+trips
prints dep 08:00:00 arr 08:20:00 trips 1 : ride 1 1
answers points 1 read 4 walk none
judge A C 07:00:00 09:00:00 10:00:00 ride 1 1 | ok dep 08:00:00 arr 08:20:00

# Each best departure has a line, however many there are.
image 1346458435 1 2 5 5 2 12 1705276800 0 0 1 28800 29400 0 3 0 1 29400 30000 1 3 0 1 30000 30600 2 3 0 1 30600 31200 3 3 0 1 31200 31800 4 3 0 1 2 0 0 1 0 0 1 2 4 6 8 10 12 20240115 20240115 20240115 20240115 20240115 827605569 861155924 894710868
profile A B 07:00:00 09:00:00 10:00:00 arrival
prints dep 08:00:00 arr 08:10:00 : ride 0 0
prints dep 08:10:00 arr 08:20:00 : ride 1 1
prints dep 08:20:00 arr 08:30:00 : ride 2 2
prints dep 08:30:00 arr 08:40:00 : ride 3 3
prints dep 08:40:00 arr 08:50:00 : ride 4 4
answers points 5 read 5 walk none
asks profile - --from A --to B --after 07:00:00 --until 09:00:00 --by 10:00:00 --criterion arrival --json
answers {\"base\":1705276800,\"utc\":\"2024-01-15T00:00:00Z\",\"ok\":\"profile\",\"points\":[{\"arr\":\"08:10:00\",\"dep\":\"08:00:00\",\"journey\":\"ride 0 0\"},{\"arr\":\"08:20:00\",\"dep\":\"08:10:00\",\"journey\":\"ride 1 1\"},{\"arr\":\"08:30:00\",\"dep\":\"08:20:00\",\"journey\":\"ride 2 2\"},{\"arr\":\"08:40:00\",\"dep\":\"08:30:00\",\"journey\":\"ride 3 3\"},{\"arr\":\"08:50:00\",\"dep\":\"08:40:00\",\"journey\":\"ride 4 4\"}],\"version\":1,\"walk\":null}
asks profile - --from A --to B --after 08:10:00 --until 09:00:00 --by 10:00:00 --criterion arrival+trips --names
prints dep 08:10:00 arr 08:20:00 trips 1 : ride T2 08:10:00 A 08:20:00 B
prints dep 08:20:00 arr 08:30:00 trips 1 : ride T3 08:20:00 A 08:30:00 B
prints dep 08:30:00 arr 08:40:00 trips 1 : ride T4 08:30:00 A 08:40:00 B
prints dep 08:40:00 arr 08:50:00 trips 1 : ride T5 08:40:00 A 08:50:00 B
answers points 4 read 4 walk none

# Three rides, a change before each but the first: at C the third one's first connection is missed, not the second.
image 1346458435 1 4 4 4 4 12 1705276800 0 0 1 28800 29400 0 3 1 2 29520 30000 1 3 2 3 29700 30600 2 3 2 3 30300 31200 3 3 0 1 2 3 4 0 0 1 0 2 0 3 0 0 1 2 3 4 6 8 10 12 20240115 20240115 20240115 20240115 1145258561 844378452 877933396
profile A D 07:00:00 09:00:00 10:00:00 arrival+trips+walk
prints dep 08:00:00 arr 08:40:00 trips 3 walked 0 : ride 0 0 walk 1 1 0 ride 1 1 walk 2 2 0 ride 3 3
answers points 1 read 4 walk none
asks profile - --from A --to D --after 07:00:00 --until 09:00:00 --by 10:00:00 --criterion arrival+trips --names
prints dep 08:00:00 arr 08:40:00 trips 3 : ride T1 08:00:00 A 08:10:00 B walk B B 0 ride T2 08:12:00 B 08:20:00 C walk C C 0 ride T4 08:25:00 C 08:40:00 D
answers points 1 read 4 walk none
judge A D 07:00:00 09:00:00 10:00:00 ride 0 0 walk 1 1 0 ride 1 1 walk 2 2 0 ride 3 3 | ok dep 08:00:00 arr 08:40:00
judge A D 07:00:00 09:00:00 10:00:00 ride 0 0 walk 1 1 0 ride 1 1 walk 2 2 0 ride 2 2 | refused 86 TooEarly 2
judge A D 07:00:00 09:00:00 10:00:00 ride 0 0 walk 1 1 0 ride 1 1 ride 3 3 | refused 85 WalkBroken 2
judge A D 07:00:00 09:00:00 10:00:00 ride 0 0 walk 1 1 0 ride 1 1 walk 2 2 0 ride 3 4 | refused 81 LegRange 2
judge A D 07:00:00 09:00:00 10:00:00 ride 0 0 walk 1 1 0 ride 1 1 walk 2 2 0 ride 2 3 | refused 82 TwoTrips 2

# Warned of: a window that ends after the last day of connections, one without any, and an image without any.
sample
run profile - --from A --to C --after 08:00:00 --until 08:12:00 --by 10:00:00 --criterion arrival
prints dep 08:00:00 arr 08:20:00 : ride 0 0 walk 1 1 0 ride 2 2
answers points 1 read 3 walk none
run profile - --from A --to C --after 07:00:00 --until 23:59:59 --by 24:00:00 --criterion arrival
prints dep 08:00:00 arr 08:20:00 : ride 0 0 walk 1 1 0 ride 2 2
answers points 1 read 3 walk none
run profile - --from A --to C --after 08:00:00 --until 24:00:00 --by 25:00:00 --criterion arrival
tells csa: warning: the window from 08:00:00 to 24:00:00 goes beyond the last day of the image's connections, which \
depart from 08:00:00 to 08:12:00
prints dep 08:00:00 arr 08:20:00 : ride 0 0 walk 1 1 0 ride 2 2
answers points 1 read 3 walk none
run profile - --from A --to C --after 06:00:00 --until 07:59:59 --by 10:00:00 --criterion arrival
tells csa: warning: the window from 06:00:00 to 07:59:59 is outside the image's connections, which \
depart from 08:00:00 to 08:12:00
answers points 0 read 3 walk none
image 1346458435 1 3 0 0 3 3 1705276800 0 0 1 2 3 0 0 1 0 2 0 0 1 2 3 4407873
run profile - --from A --to C --after 07:00:00 --until 09:00:00 --by 10:00:00 --criterion arrival
tells csa: warning: the image has no connections
answers points 0 read 0 walk none

# Words of a query are judged: its window, and the name of its criterion.
sample
profile A C 07:00:00 06:00:00 10:00:00 arrival
tells csa: --until is before --after
answers refused 33 BadWindow
profile A C 07:00:00 09:00:00 10:00:00 walking
complains 64

# A stop_id may begin with a hyphen.
asks profile - --from -1 --to C --after 07:00:00 --until 09:00:00 --by 10:00:00 --criterion arrival
tells csa: --from \"-1\": no stop of the image has this stop_id (stations aren't stops: give a platform's stop_id, \
which `csa stops IMAGE TEXT` lists)
answers refused 31 UnknownStop

# The stops are listed by their numbers, all or those with a text in their names.
run stops -
prints 0 A
prints 1 B
answers 2 C
run stops - B
answers 1 B
run stops - --json
answers [{\"id\":\"A\",\"number\":0},{\"id\":\"B\",\"number\":1},{\"id\":\"C\",\"number\":2}]
run stops --json - B
answers [{\"id\":\"B\",\"number\":1}]
run stops - b --json
tells csa: no stop_id contains \"b\" (stop names and stations aren't searched)
answers []
run stops - b
tells csa: no stop_id contains \"b\" (stop names and stations aren't searched)
ends 0
";

const WALKS: &str = "
# A footpath from A to B of two minutes: who may set out later walks to the second trip; who may not has two best departures.
image 1346458435 1 3 2 3 4 7 1705276800 0 0 1 28800 29400 0 3 1 2 29400 30600 0 3 1 2 29520 30000 1 3 0 1 3 4 0 0 0 120 1 0 2 0 0 1 2 3 5 7 20240115 20240115 1413694017 3298353
profile A C 07:00:00 09:00:00 10:00:00 arrival
prints dep 08:10:00 arr 08:20:00 : walk 0 1 120 ride 2 2
answers points 1 read 3 walk none
judge A C 07:00:00 09:00:00 10:00:00 walk 0 1 120 ride 2 2 | ok dep 08:10:00 arr 08:20:00
profile A C 07:00:00 08:09:59 10:00:00 arrival
prints dep 08:00:00 arr 08:20:00 : ride 0 0 walk 1 1 0 ride 2 2
prints dep 08:08:00 arr 08:30:00 : walk 0 1 120 ride 1 1
answers points 2 read 3 walk none
judge A C 07:00:00 09:00:00 10:00:00 walk 0 1 120 ride 1 1 | ok dep 08:08:00 arr 08:30:00
profile A C 07:00:00 08:09:59 10:00:00 arrival+trips+walk
prints dep 08:00:00 arr 08:20:00 trips 2 walked 0 : ride 0 0 walk 1 1 0 ride 2 2
prints dep 08:00:00 arr 08:30:00 trips 1 walked 0 : ride 0 1
prints dep 08:08:00 arr 08:30:00 trips 1 walked 120 : walk 0 1 120 ride 1 1
answers points 3 read 3 walk none

# Footpaths of a minute from A to B and from B to C, and of two from A to C: the direct one is reported beside the answer, and takes nothing out of it.
image 1346458435 1 3 2 3 6 7 1705276800 0 0 1 28800 29400 0 3 1 2 29400 30600 0 3 1 2 29520 30000 1 3 0 1 3 6 0 0 0 60 1 0 0 120 1 60 2 0 0 1 2 3 5 7 20240115 20240115 1413694017 3298353
profile A C 07:00:00 09:00:00 10:00:00 arrival
prints dep 08:00:00 arr 08:11:00 : ride 0 0 walk 1 2 60
prints dep 08:11:00 arr 08:20:00 : walk 0 1 60 ride 2 2
answers points 2 read 3 walk 120
judge A C 07:00:00 09:00:00 10:00:00 ride 0 0 walk 1 2 60 | ok dep 08:00:00 arr 08:11:00
judge A C 07:00:00 09:00:00 10:00:00 walk 0 1 60 ride 2 2 | ok dep 08:11:00 arr 08:20:00

# As a reply of a session, which has no names.
asks profile - --from A --to C --after 07:00:00 --until 09:00:00 --by 10:00:00 --criterion arrival+trips --json
answers {\"base\":1705276800,\"utc\":\"2024-01-15T00:00:00Z\",\"ok\":\"profile\",\"points\":[{\"arr\":\"08:11:00\",\"dep\":\"08:00:00\",\"journey\":\"ride 0 0 walk 1 2 60\",\"trips\":1},{\"arr\":\"08:20:00\",\"dep\":\"08:11:00\",\"journey\":\"walk 0 1 60 ride 2 2\",\"trips\":1}],\"version\":1,\"walk\":120}
asks profile - --from A --to C --after 07:00:00 --until 09:00:00 --by 10:00:00 --criterion arrival+trips --json --names
complains 64

# With the legs of each journey, by their ids; only in that reply.
asks profile - --from A --to C --after 07:00:00 --until 09:00:00 --by 10:00:00 --criterion arrival+trips --json --legs
answers {\"base\":1705276800,\"utc\":\"2024-01-15T00:00:00Z\",\"ok\":\"profile\",\"points\":[{\"arr\":\"08:11:00\",\"dep\":\"08:00:00\",\"journey\":\"ride 0 0 walk 1 2 60\",\"legs\":[{\"arr\":\"08:10:00\",\"day\":20240115,\"dep\":\"08:00:00\",\"from\":\"A\",\"to\":\"B\",\"trip\":\"T1\"},{\"from\":\"B\",\"secs\":60,\"to\":\"C\"}],\"trips\":1},{\"arr\":\"08:20:00\",\"dep\":\"08:11:00\",\"journey\":\"walk 0 1 60 ride 2 2\",\"legs\":[{\"from\":\"A\",\"secs\":60,\"to\":\"B\"},{\"arr\":\"08:20:00\",\"day\":20240115,\"dep\":\"08:12:00\",\"from\":\"B\",\"to\":\"C\",\"trip\":\"T2\"}],\"trips\":1}],\"version\":1,\"walk\":120}
asks profile - --from A --to C --after 07:00:00 --until 09:00:00 --by 10:00:00 --criterion arrival+trips --legs
complains 64
asks profile - --from A --to C --after 07:00:00 --until 09:00:00 --by 10:00:00 --criterion arrival+trips --names --legs
complains 64

# A footpath from B to C of a quarter of an hour: each footpath counts; by trips alone the walk is preferred.
image 1346458435 1 3 2 3 4 7 1705276800 0 0 1 28800 29400 0 3 1 2 29400 30600 0 3 1 2 29520 30000 1 3 0 1 2 4 0 0 1 0 1 900 2 0 0 1 2 3 5 7 20240115 20240115 1413694017 3298353
profile A C 07:00:00 09:00:00 10:00:00 arrival+trips+walk
prints dep 08:00:00 arr 08:20:00 trips 2 walked 0 : ride 0 0 walk 1 1 0 ride 2 2
prints dep 08:00:00 arr 08:25:00 trips 1 walked 900 : ride 0 0 walk 1 2 900
prints dep 08:00:00 arr 08:30:00 trips 1 walked 0 : ride 0 1
answers points 3 read 3 walk none
profile A C 07:00:00 09:00:00 10:00:00 arrival+trips
prints dep 08:00:00 arr 08:20:00 trips 2 : ride 0 0 walk 1 1 0 ride 2 2
prints dep 08:00:00 arr 08:25:00 trips 1 : ride 0 0 walk 1 2 900
answers points 2 read 3 walk none
judge A C 07:00:00 09:00:00 10:00:00 ride 0 0 walk 1 2 900 | ok dep 08:00:00 arr 08:25:00

# By names: of trips and stops, and when each trip is boarded and left; a walk keeps its seconds.
asks profile - --from A --to C --after 07:00:00 --until 09:00:00 --by 10:00:00 --criterion arrival+trips --names
prints dep 08:00:00 arr 08:20:00 trips 2 : ride T1 08:00:00 A 08:10:00 B walk B B 0 ride T2 08:12:00 B 08:20:00 C
prints dep 08:00:00 arr 08:25:00 trips 1 : ride T1 08:00:00 A 08:10:00 B walk B C 900
answers points 2 read 3 walk none

# The loop of a change counts too.
sample
set 34 60
profile A C 07:00:00 09:00:00 10:00:00 arrival+trips+walk
prints dep 08:00:00 arr 08:20:00 trips 2 walked 60 : ride 0 0 walk 1 1 60 ride 2 2
prints dep 08:00:00 arr 08:30:00 trips 1 walked 0 : ride 0 1
answers points 2 read 3 walk none
judge A C 07:00:00 09:00:00 10:00:00 ride 0 0 walk 1 1 60 ride 2 2 | ok dep 08:00:00 arr 08:20:00
";

const DRAWN: &str = "
sample
asks profile - --from A --to C --after 07:00:00 --until 09:00:00 --by 10:00:00 --criterion arrival --picture answer.svg
prints dep 08:00:00 arr 08:20:00 : ride 0 0 walk 1 1 0 ride 2 2
answers points 1 read 3 walk none
asks profile - --from A --to C --after 07:00:00 --until 09:00:00 --by 10:00:00 --criterion arrival \
--picture none/answer.svg
tells csa: none/answer.svg can't be written: no such file or folder
ends 3
asks profile - --from A --to C --after 07:00:00 --until 09:00:00 --by 10:00:00 --criterion arrival \
--picture answer.svg --rows 1
prints dep 08:00:00 arr 08:20:00 : ride 0 0 walk 1 1 0 ride 2 2
answers points 1 read 3 walk none
asks profile - --from A --to C --after 07:00:00 --until 09:00:00 --by 10:00:00 --criterion arrival \
--picture answer.svg --rows 0
complains 64
asks profile - --from A --to C --after 07:00:00 --until 09:00:00 --by 10:00:00 --criterion arrival \
--picture answer.svg --rows 10001
complains 64
asks profile - --from A --to C --after 07:00:00 --until 09:00:00 --by 10:00:00 --criterion arrival --rows 10
complains 64

# A picture isn't written over its image, whichever path leads there.
saves city.csa
link linked.csa city.csa
asks profile city.csa --from A --to C --after 07:00:00 --until 09:00:00 --by 10:00:00 --criterion arrival \
--picture city.csa
tells csa: city.csa can't be written: it is the image
ends 3
asks profile ./city.csa --from A --to C --after 07:00:00 --until 09:00:00 --by 10:00:00 --criterion arrival \
--picture linked.csa
tells csa: linked.csa can't be written: it is the image
ends 3
holds city.csa
remove linked.csa
remove city.csa

# Journeys are drawn below each other: two of them.
asks profile - --from A --to C --after 07:00:00 --until 09:00:00 --by 10:00:00 --criterion arrival+trips \
--picture two.svg
prints dep 08:00:00 arr 08:20:00 trips 2 : ride 0 0 walk 1 1 0 ride 2 2
prints dep 08:00:00 arr 08:30:00 trips 1 : ride 0 1
answers points 2 read 3 walk none
";

/// The answer is drawn as well as printed. If the picture can't be written, standard error says so, and nothing is
/// printed.
#[test]
fn an_answer_is_drawn(rt: HostRuntime) -> Result<(), Fail> {
    try_transcripts(&rt, &[DRAWN])?;
    let drawn = fs::read(&rt, "answer.svg")?;
    assert!(rt; drawn.starts_with(b"<svg ") && drawn.ends_with(b"</svg>\n"));
    fs::remove_file(&rt, "answer.svg")?;
    let two = fs::read_to_string(&rt, "two.svg")?;
    fs::remove_file(&rt, "two.svg")?;
    let first =
        "<g transform=\"translate(0 134)\">\n<text class=\"time\" x=\"16\" y=\"5\">08:00 – 08:20</text>\n";
    let second =
        "<g transform=\"translate(0 182)\">\n<text class=\"time\" x=\"16\" y=\"5\">08:00 – 08:30</text>\n";
    assert!(rt; two.as_str().contains("viewBox=\"0 0 960 278\""));
    assert!(rt; two.as_str().contains(first) && two.as_str().contains(second));
    Ok(())
}

const DEPARTURES: &str = "
# Each stop but the target, in the image's order: the lines of its profile behind its stop_id. The window is read once.
sample
asks departures - --to C --after 07:00:00 --until 09:00:00 --by 10:00:00 --criterion arrival
prints A dep 08:00:00 arr 08:20:00 : ride 0 0 walk 1 1 0 ride 2 2
prints B dep 08:12:00 arr 08:20:00 : ride 2 2
answers stops 2 points 2 read 3
asks departures - --to C --after 07:00:00 --until 09:00:00 --by 10:00:00 --criterion arrival+trips
prints A dep 08:00:00 arr 08:20:00 trips 2 : ride 0 0 walk 1 1 0 ride 2 2
prints A dep 08:00:00 arr 08:30:00 trips 1 : ride 0 1
prints B dep 08:12:00 arr 08:20:00 trips 1 : ride 2 2
answers stops 2 points 3 read 3
asks departures - --to B --after 07:00:00 --until 09:00:00 --by 10:00:00 --criterion arrival+trips+walk
prints A dep 08:00:00 arr 08:10:00 trips 1 walked 0 : ride 0 0
answers stops 1 points 1 read 3
asks departures - --to A --after 07:00:00 --until 09:00:00 --by 10:00:00 --criterion arrival
answers stops 0 points 0 read 3

# The window cuts the departures of each stop for itself.
asks departures - --to C --after 08:00:01 --until 08:12:00 --by 08:20:00 --criterion arrival
prints B dep 08:12:00 arr 08:20:00 : ride 2 2
answers stops 1 points 1 read 2
asks departures - --to C --after 07:00:00 --until 08:11:59 --by 10:00:00 --criterion arrival
prints A dep 08:00:00 arr 08:20:00 : ride 0 0 walk 1 1 0 ride 2 2
prints B dep 08:10:00 arr 08:30:00 : ride 1 1
answers stops 2 points 2 read 3

# Without journeys, and one line for each stop.
asks departures - --to C --after 07:00:00 --until 09:00:00 --by 10:00:00 --criterion arrival+trips --no-journeys
prints A dep 08:00:00 arr 08:20:00 trips 2
prints A dep 08:00:00 arr 08:30:00 trips 1
prints B dep 08:12:00 arr 08:20:00 trips 1
answers stops 2 points 3 read 3
asks departures - --to C --after 07:00:00 --until 09:00:00 --by 10:00:00 --criterion arrival+trips --summary
prints A points 2 first 08:00:00 last 08:00:00 least 1200 walk none
prints B points 1 first 08:12:00 last 08:12:00 least 480 walk none
answers stops 2 points 3 read 3
asks departures - --to C --after 07:00:00 --until 09:00:00 --by 10:00:00 --criterion arrival+trips --summary --json
prints {\"first\":\"08:00:00\",\"from\":\"A\",\"last\":\"08:00:00\",\"least\":1200,\"points\":2,\"walk\":null}
prints {\"first\":\"08:12:00\",\"from\":\"B\",\"last\":\"08:12:00\",\"least\":480,\"points\":1,\"walk\":null}
answers {\"points\":3,\"read\":3,\"stops\":2}
asks departures - --to C --after 07:00:00 --until 09:00:00 --by 10:00:00 --criterion arrival --summary --no-journeys
complains 64
asks departures - --to C --after 07:00:00 --until 09:00:00 --by 10:00:00 --criterion arrival --summary --json \
--no-journeys
complains 64

# As JSON, one line for each stop.
asks departures - --to C --after 07:00:00 --until 09:00:00 --by 10:00:00 --criterion arrival+trips --json
prints {\"from\":\"A\",\"points\":[{\"arr\":\"08:20:00\",\"dep\":\"08:00:00\",\
\"journey\":\"ride 0 0 walk 1 1 0 ride 2 2\",\"trips\":2},{\"arr\":\"08:30:00\",\"dep\":\"08:00:00\",\
\"journey\":\"ride 0 1\",\"trips\":1}],\"walk\":null}
prints {\"from\":\"B\",\"points\":[{\"arr\":\"08:20:00\",\"dep\":\"08:12:00\",\"journey\":\"ride 2 2\",\"trips\":1}],\
\"walk\":null}
answers {\"points\":3,\"read\":3,\"stops\":2}
asks departures - --to C --after 07:00:00 --until 09:00:00 --by 10:00:00 --criterion arrival+trips+walk --json \
--no-journeys
prints {\"from\":\"A\",\"points\":[{\"arr\":\"08:20:00\",\"dep\":\"08:00:00\",\"trips\":2,\"walked\":0},\
{\"arr\":\"08:30:00\",\"dep\":\"08:00:00\",\"trips\":1,\"walked\":0}],\"walk\":null}
prints {\"from\":\"B\",\"points\":[{\"arr\":\"08:20:00\",\"dep\":\"08:12:00\",\"trips\":1,\"walked\":0}],\"walk\":null}
answers {\"points\":3,\"read\":3,\"stops\":2}

# The stops of a file alone; the target among them is left out.
rows wanted C | B
asks departures - --to C --after 07:00:00 --until 09:00:00 --by 10:00:00 --criterion arrival --from wanted
prints B dep 08:12:00 arr 08:20:00 : ride 2 2
answers stops 1 points 1 read 3
rows wanted B | D | A
asks departures - --to C --after 07:00:00 --until 09:00:00 --by 10:00:00 --criterion arrival --from wanted
tells csa: --from wanted, line 2: \"D\": no stop of the image has this stop_id \
(stations aren't stops: give a platform's stop_id, which `csa stops IMAGE TEXT` lists)
ends 2
asks departures - --to C --after 07:00:00 --until 09:00:00 --by 10:00:00 --criterion arrival --from nowhere
tells csa: nowhere can't be read: no such file or folder
tells csa: --from is a file of stop_ids here; for one stop use csa profile
ends 3

# The first line that is no stop_id is reported, and a line that is there twice is one stop: of two stops of a name the first.
rows wanted A | B | A | E | D
asks departures - --to C --after 07:00:00 --until 09:00:00 --by 10:00:00 --criterion arrival --from wanted
tells csa: --from wanted, line 4: \"E\": no stop of the image has this stop_id \
(stations aren't stops: give a platform's stop_id, which `csa stops IMAGE TEXT` lists)
ends 2

# Such a line is shown with its control characters escaped, and cut if it is long, but not within a character.
rows wanted A | B\tC
asks departures - --to C --after 07:00:00 --until 09:00:00 --by 10:00:00 --criterion arrival --from wanted
tells csa: --from wanted, line 2: \"B\\tC\": no stop of the image has this stop_id \
(stations aren't stops: give a platform's stop_id, which `csa stops IMAGE TEXT` lists)
ends 2
rows wanted A | B | xxxxxxxxxxxxxxxxxxxxxxxxxxxxxxxxxxxxxxxxxxxxxxxxxxxxxxxxxxxü
tells csa: --from wanted, line 3: \"xxxxxxxxxxxxxxxxxxxxxxxxxxxxxxxxxxxxxxxxxxxxxxxxxxxxxxxxxxx\" ..: \
no stop of the image has this stop_id \
(stations aren't stops: give a platform's stop_id, which `csa stops IMAGE TEXT` lists)
ends 2
file wanted
crlf A
crlf
crlf B
tells csa: --from wanted, line 2: \"\": no stop of the image has this stop_id \
(stations aren't stops: give a platform's stop_id, which `csa stops IMAGE TEXT` lists)
ends 2
set 45 1413693761
rows wanted A | C | A
asks departures - --to C --after 07:00:00 --until 09:00:00 --by 10:00:00 --criterion arrival --from wanted
prints A dep 08:00:00 arr 08:20:00 : ride 0 0 walk 1 1 0 ride 2 2
answers stops 1 points 1 read 3
asks departures - --to C --after 07:00:00 --until 09:00:00 --by 10:00:00 --criterion arrival --no-journeys
prints A dep 08:00:00 arr 08:20:00
prints A dep 08:12:00 arr 08:20:00
answers stops 2 points 2 read 3
file wanted
asks departures - --to C --after 07:00:00 --until 09:00:00 --by 10:00:00 --criterion arrival --from wanted
answers stops 0 points 0 read 3
sample

# Warned of: a window that ends after the last day of connections, and one without any.
run departures - --to C --after 08:00:00 --until 08:12:00 --by 10:00:00 --criterion arrival --no-journeys
prints A dep 08:00:00 arr 08:20:00
prints B dep 08:12:00 arr 08:20:00
answers stops 2 points 2 read 3
run departures - --to C --after 07:59:59 --until 24:00:01 --by 25:00:00 --criterion arrival --summary
tells csa: warning: the window from 07:59:59 to 24:00:01 goes beyond the last day of the image's connections, which \
depart from 08:00:00 to 08:12:00
prints A points 1 first 08:00:00 last 08:00:00 least 1200 walk none
prints B points 1 first 08:12:00 last 08:12:00 least 480 walk none
answers stops 2 points 2 read 3
run departures - --to C --after 32:00:00 --until 33:00:00 --by 34:00:00 --criterion arrival
tells csa: warning: the window from 32:00:00 to 33:00:00 is outside the image's connections, which \
depart from 08:00:00 to 08:12:00
answers stops 0 points 0 read 0

# What can't be asked.
asks departures - --to D --after 07:00:00 --until 09:00:00 --by 10:00:00 --criterion arrival
tells csa: --to \"D\": no stop of the image has this stop_id \
(stations aren't stops: give a platform's stop_id, which `csa stops IMAGE TEXT` lists)
answers refused 31 UnknownStop
asks departures - --to C --after 07:00:00 --until 06:00:00 --by 10:00:00 --criterion arrival
tells csa: --until is before --after
answers refused 33 BadWindow
asks departures - --to C --after 07:00:00 --until 09:00:00 --by 10:00:00 --criterion walking
complains 64
run departures --help
helps

# Footpaths of a minute from A to B and from B to C, and of two from A to C: each stop's direct one is beside its
# departures, and takes none away.
image 1346458435 1 3 2 3 6 7 1705276800 0 0 1 28800 29400 0 3 1 2 29400 30600 0 3 1 2 29520 30000 1 3 0 1 3 6 0 0 0 \
60 1 0 0 120 1 60 2 0 0 1 2 3 5 7 20240115 20240115 1413694017 3298353
asks departures - --to C --after 07:00:00 --until 09:00:00 --by 10:00:00 --criterion arrival
prints A dep 08:00:00 arr 08:11:00 : ride 0 0 walk 1 2 60
prints A dep 08:11:00 arr 08:20:00 : walk 0 1 60 ride 2 2
prints B dep 08:12:00 arr 08:20:00 : ride 2 2
answers stops 2 points 3 read 3
asks departures - --to C --after 07:00:00 --until 09:00:00 --by 10:00:00 --criterion arrival --summary
prints A points 2 first 08:00:00 last 08:11:00 least 540 walk 120
prints B points 1 first 08:12:00 last 08:12:00 least 480 walk 60
answers stops 2 points 3 read 3
asks departures - --to C --after 07:00:00 --until 09:00:00 --by 10:00:00 --criterion arrival --json --no-journeys
prints {\"from\":\"A\",\"points\":[{\"arr\":\"08:11:00\",\"dep\":\"08:00:00\"},{\"arr\":\"08:20:00\",\
\"dep\":\"08:11:00\"}],\"walk\":120}
prints {\"from\":\"B\",\"points\":[{\"arr\":\"08:20:00\",\"dep\":\"08:12:00\"}],\"walk\":60}
answers {\"points\":3,\"read\":3,\"stops\":2}
";

#[test]
fn best_departures_are_printed(rt: HostRuntime) -> Result<(), Fail> {
    try_transcripts(&rt, &[ANSWERS, WALKS, DEPARTURES])
}
