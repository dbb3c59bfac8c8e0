//! Tables of travel times, over the sample image: two trips from A to C, one of which is changed to at B.

use crate::tests::transcript::try_transcripts;
use std::fs;
use std::test::Fail;

const PAIRS: &str = "
# A row for each stop but the target. From A nobody leaves after 08:00:00, so a second later there is no departure;
# from B one takes the trip of 08:12:00, and arrives after 1200 seconds at first and 480 at last.
sample
rows targets C
asks matrix - - --to targets --after 08:00:00 --until 08:12:00 --by 10:00:00 --criterion arrival
prints from,to,points,first_departure,last_departure,least_seconds,mean_seconds,walk
prints A,C,1,08:00:00,08:00:00,1200,,
answers B,C,1,08:12:00,08:12:00,480,840,

# Who waits may leave after the window: its last departure is that of 08:10:00, and one takes that of 08:12:00. A mean
# of 840.5 is rounded up.
asks matrix - - --to targets --after 08:00:00 --until 08:11:59 --by 10:00:00 --criterion arrival
prints from,to,points,first_departure,last_departure,least_seconds,mean_seconds,walk
prints A,C,1,08:00:00,08:00:00,1200,,
answers B,C,1,08:10:00,08:10:00,1200,841,
asks matrix - - --to targets --after 08:00:00 --until 08:00:00 --by 10:00:00 --criterion arrival+trips
prints from,to,points,first_departure,last_departure,least_seconds,mean_seconds,walk
prints A,C,2,08:00:00,08:00:00,1200,1200,
answers B,C,0,,,,1200,
asks matrix - - --to targets --after 08:00:00 --until 08:12:00 --by 08:12:00 --criterion arrival
prints from,to,points,first_departure,last_departure,least_seconds,mean_seconds,walk
prints A,C,0,,,,,
answers B,C,0,,,,,

# Targets and sources in the order of their files, by one thread, by two, and by more than there are targets.
rows targets B | A
rows sources C | A
asks matrix - - --to targets --from sources --after 07:00:00 --until 08:00:00 --by 09:00:00 --criterion arrival \
--workers 1
prints from,to,points,first_departure,last_departure,least_seconds,mean_seconds,walk
prints C,B,0,,,,,
prints A,B,1,08:00:00,08:00:00,600,2400,
answers C,A,0,,,,,
asks matrix - - --to targets --from sources --after 07:00:00 --until 08:00:00 --by 09:00:00 --criterion arrival \
--workers 2
prints from,to,points,first_departure,last_departure,least_seconds,mean_seconds,walk
prints C,B,0,,,,,
prints A,B,1,08:00:00,08:00:00,600,2400,
answers C,A,0,,,,,
asks matrix - - --to targets --from sources --after 07:00:00 --until 08:00:00 --by 09:00:00 --criterion arrival \
--workers 64
prints from,to,points,first_departure,last_departure,least_seconds,mean_seconds,walk
prints C,B,0,,,,,
prints A,B,1,08:00:00,08:00:00,600,2400,
answers C,A,0,,,,,
";

const EACH: &str = "
# A row for each departure; a pair without one has none.
sample
rows targets C | B
asks matrix - - --to targets --after 07:00:00 --until 09:00:00 --by 10:00:00 --criterion arrival+trips --each
prints from,to,departure,arrival,seconds,trips,walked
prints A,C,08:00:00,08:20:00,1200,2,
prints A,C,08:00:00,08:30:00,1800,1,
prints B,C,08:12:00,08:20:00,480,1,
answers A,B,08:00:00,08:10:00,600,1,
asks matrix - - --to targets --after 07:00:00 --until 09:00:00 --by 10:00:00 --criterion arrival --each
prints from,to,departure,arrival,seconds,trips,walked
prints A,C,08:00:00,08:20:00,1200,,
prints B,C,08:12:00,08:20:00,480,,
answers A,B,08:00:00,08:10:00,600,,
";

const SETS: &str = "
# A line with several stop_ids is a set: its journeys end at any of its stops. A set of sources that has one of them has
# no row; a stop may be in several sets.
sample
rows targets B\tC | C
asks matrix - - --to targets --after 08:00:00 --until 08:12:00 --by 10:00:00 --criterion arrival --workers 1
prints from,to,points,first_departure,last_departure,least_seconds,mean_seconds,walk
prints A,B\tC,1,08:00:00,08:00:00,600,,
prints A,C,1,08:00:00,08:00:00,1200,,
answers B,C,1,08:12:00,08:12:00,480,840,
asks matrix - - --to targets --after 08:00:00 --until 08:12:00 --by 10:00:00 --criterion arrival --workers 4
prints from,to,points,first_departure,last_departure,least_seconds,mean_seconds,walk
prints A,B\tC,1,08:00:00,08:00:00,600,,
prints A,C,1,08:00:00,08:00:00,1200,,
answers B,C,1,08:12:00,08:12:00,480,840,

# Journeys of a set of sources begin at any of them: who leaves B at 08:12 is at C as soon as who leaves A at 08:00.
rows sources A\tB | B\tA | C
rows targets C
asks matrix - - --to targets --from sources --after 08:00:00 --until 08:12:00 --by 10:00:00 --criterion arrival
prints from,to,points,first_departure,last_departure,least_seconds,mean_seconds,walk
prints A\tB,C,1,08:12:00,08:12:00,480,840,
answers B\tA,C,1,08:12:00,08:12:00,480,840,
asks matrix - - --to targets --from sources --after 07:00:00 --until 08:05:00 --by 10:00:00 \
--criterion arrival+trips --each
prints from,to,departure,arrival,seconds,trips,walked
prints A\tB,C,08:00:00,08:20:00,1200,2,
prints A\tB,C,08:00:00,08:30:00,1800,1,
prints B\tA,C,08:00:00,08:20:00,1200,2,
answers B\tA,C,08:00:00,08:30:00,1800,1,
";

const FILES: &str = "
# A table in a file: standard output has the numbers of its stops. An older file is replaced, and nothing is left
# beside it.
sample
rows targets C
rows table.csv old
asks matrix - table.csv --to targets --after 08:00:00 --until 08:12:00 --by 10:00:00 --criterion arrival --progress
tells csa: targets 1 of 1, seconds left 0
answers targets 1 sources 3
lacks table.csv.part

# A file that is beside it already stays, such as a list that is read, or a file of another run.
rows table.csv.part C
rows table.csv.part1 old
asks matrix - table.csv --to table.csv.part --after 08:00:00 --until 08:12:00 --by 10:00:00 --criterion arrival
answers targets 1 sources 3
asks matrix - table.csv --to table.csv.part --after 08:00:00 --until 08:12:00 --by 10:00:00 --criterion arrival
answers targets 1 sources 3
lacks table.csv.part2
remove table.csv.part1
asks matrix - table.csv --to table.csv.part --after 08:00:00 --until 08:12:00 --by 10:00:00 --criterion arrival
answers targets 1 sources 3
lacks table.csv.part1
rows table.csv.part1 old
rows table.csv.part2 old
rows table.csv.part3 old
rows table.csv.part4 old
rows table.csv.part5 old
rows table.csv.part6 old
rows table.csv.part7 old
rows table.csv.part8 old
rows table.csv.part9 old
asks matrix - table.csv --to table.csv.part --after 08:00:00 --until 08:12:00 --by 10:00:00 --criterion arrival
tells csa: table.csv can't be written: files of other runs are beside it, from .part to .part9: remove those of runs \
that have ended
ends 3
remove table.csv.part
remove table.csv.part1
remove table.csv.part2
remove table.csv.part3
remove table.csv.part4
remove table.csv.part5
remove table.csv.part6
remove table.csv.part7
remove table.csv.part8
remove table.csv.part9
run matrix - table.csv --to targets --after 06:00:00 --until 07:00:00 --by 10:00:00 --criterion arrival
tells csa: warning: the window from 06:00:00 to 07:00:00 is outside the image's connections, which depart from \
08:00:00 to 08:12:00
answers targets 1 sources 3
";

const OVER: &str = "
# A table isn't written over a file that is read, whichever path leads there.
sample
saves city.csa
link linked.csa city.csa
rows targets C
rows sources A
asks matrix city.csa city.csa --to targets --after 08:00:00 --until 08:12:00 --by 10:00:00 --criterion arrival
tells csa: city.csa can't be written: it is the image
ends 3
asks matrix ./city.csa linked.csa --to targets --after 08:00:00 --until 08:12:00 --by 10:00:00 --criterion arrival
tells csa: linked.csa can't be written: it is the image
ends 3
holds city.csa
asks matrix - targets --to ./targets --after 08:00:00 --until 08:12:00 --by 10:00:00 --criterion arrival
tells csa: targets can't be written: it is the list of --to
ends 3
asks matrix - sources --to targets --from sources --after 08:00:00 --until 08:12:00 --by 10:00:00 --criterion arrival
tells csa: sources can't be written: it is the list of --from
ends 3
asks matrix - - --to targets --from sources --after 08:00:00 --until 08:12:00 --by 10:00:00 --criterion arrival
prints from,to,points,first_departure,last_departure,least_seconds,mean_seconds,walk
answers A,C,1,08:00:00,08:00:00,1200,,
remove linked.csa
remove city.csa
";

const FAULTS: &str = "
# What can't be asked for is refused before anything is written: an older table stays.
sample
rows no.csv old
rows targets C | D
asks matrix - no.csv --to targets --after 08:00:00 --until 08:12:00 --by 10:00:00 --criterion arrival
tells csa: --to targets, line 2: \"D\": no stop of the image has this stop_id \
(stations aren't stops: give a platform's stop_id, which `csa stops IMAGE TEXT` lists)
ends 2
rows targets C | A | C
asks matrix - no.csv --to targets --after 08:00:00 --until 08:12:00 --by 10:00:00 --criterion arrival
tells csa: --to targets, line 3: \"C\": line 1 is the same
ends 64
rows targets A\tB | C | A\tB
asks matrix - no.csv --to targets --after 08:00:00 --until 08:12:00 --by 10:00:00 --criterion arrival
tells csa: --to targets, line 3: \"A\\tB\": line 1 is the same
ends 64
rows targets A | C\tB\tC
asks matrix - no.csv --to targets --after 08:00:00 --until 08:12:00 --by 10:00:00 --criterion arrival
tells csa: --to targets, line 2: \"C\\tB\\tC\": it has a stop_id twice
ends 64
rows targets A | C\t
asks matrix - no.csv --to targets --after 08:00:00 --until 08:12:00 --by 10:00:00 --criterion arrival
tells csa: --to targets, line 2: \"C\\t\": a tab has no stop_id before it or after it
ends 2
rows targets A | C\t\tB
asks matrix - no.csv --to targets --after 08:00:00 --until 08:12:00 --by 10:00:00 --criterion arrival
tells csa: --to targets, line 2: \"C\\t\\tB\": a tab has no stop_id before it or after it
ends 2
rows targets A | B\tX
asks matrix - no.csv --to targets --after 08:00:00 --until 08:12:00 --by 10:00:00 --criterion arrival
tells csa: --to targets, line 2: \"X\": no stop of the image has this stop_id \
(stations aren't stops: give a platform's stop_id, which `csa stops IMAGE TEXT` lists)
ends 2
file targets
asks matrix - no.csv --to targets --after 08:00:00 --until 08:12:00 --by 10:00:00 --criterion arrival
tells csa: --to targets: it has no line
ends 64
rows targets C
asks matrix - no.csv --to targets --from nowhere --after 08:00:00 --until 08:12:00 --by 10:00:00 --criterion arrival
tells csa: nowhere can't be read: no such file or folder
ends 3
rows sources A | X
asks matrix - no.csv --to targets --from sources --after 08:00:00 --until 08:12:00 --by 10:00:00 --criterion arrival
tells csa: --from sources, line 2: \"X\": no stop of the image has this stop_id \
(stations aren't stops: give a platform's stop_id, which `csa stops IMAGE TEXT` lists)
ends 2
rows sources A | A
asks matrix - no.csv --to targets --from sources --after 08:00:00 --until 08:12:00 --by 10:00:00 --criterion arrival
tells csa: --from sources, line 2: \"A\": line 1 is the same
ends 64
asks matrix - no.csv --to targets --after 08:00:00 --until 07:59:59 --by 10:00:00 --criterion arrival
tells csa: --until is before --after
answers refused 33 BadWindow

# The window is judged before the lists.
asks matrix - no.csv --to nowhere --after 08:00:00 --until 07:59:59 --by 10:00:00 --criterion arrival
tells csa: --until is before --after
answers refused 33 BadWindow
rows sources X
asks matrix - no.csv --to targets --from sources --after 08:00:00 --until 08:12:00 --by 07:59:59 --criterion arrival
tells csa: --by is before --after
answers refused 33 BadWindow
asks matrix - nowhere/no.csv --to targets --after 08:00:00 --until 08:12:00 --by 10:00:00 --criterion arrival
tells csa: nowhere/no.csv can't be written: no such file or folder
ends 3
asks matrix - no.csv --to targets --after 08:00:00 --until 08:12:00 --by 10:00:00 --criterion arrival --workers 65
tells error: --workers \"65\": the number of workers must be 1 to 64
tells 
tells Usage: csa matrix [OPTIONS] --after <CLOCK> --until <CLOCK> --by <CLOCK> --criterion <NAME> --to \
<FILE> <IMAGE> <OUT>
tells 
tells For more information, try 'csa matrix --help'.
ends 64
asks matrix - no.csv --to targets --after 08:00:00 --until 08:12:00 --by 10:00:00 --criterion arrival --workers 0
complains 64
run matrix --help
helps Usage: csa matrix [OPTIONS] --after <CLOCK> | Example: csa matrix examples/base.csa - --to targets
lacks no.csv.part
";

#[test]
fn a_table_has_a_row_for_each_pair(rt: HostRuntime) -> Result<(), Fail> {
    try_transcripts(&rt, &[PAIRS, EACH, SETS, OVER, FAULTS])?;
    let table = fs::read_to_string(&rt, "no.csv")?;
    assert!(rt; table.as_str() == "old\n");
    fs::remove_file(&rt, "no.csv")?;
    Ok(())
}

/// The file is the table that standard output would have.
#[test]
fn a_table_goes_to_a_file(rt: HostRuntime) -> Result<(), Fail> {
    try_transcripts(&rt, &[FILES])?;
    let table = fs::read_to_string(&rt, "table.csv")?;
    let rows = "A,C,0,,,,6600,\nB,C,0,,,,6600,\n";
    assert!(rt; table.as_str().ends_with(rows));
    fs::remove_file(&rt, "table.csv")?;
    Ok(())
}
