//! Trips that repeat, in images: `csa build` writes their repeats, and `csa upgrade` keeps them.

use crate::tests::transcript::try_transcripts;
use std::test::Fail;

const REPEATS: &str = "
# A trip that leaves at 09:00, 09:20 and 09:40 is three trips of the image, with the repeats 0, 1 and 2.
base
rows base_feed/frequencies.txt trip_id,start_time,end_time,headway_secs | T1,09:00:00,10:00:00,1200
run build base_feed built.csa --first 20240115 --days 1 --zone fixed:0
answers stops 3 runs 4 connections 7 footpaths 3 lifted 0 flex 0 frequencies 1 skipped 0
image 1346458435 2 3 4 7 3 11 1705276800 0 \
1 2 29520 30000 3 3 0 1 32400 33000 0 3 1 2 33000 34200 0 3 0 1 33600 34200 1 3 \
1 2 34200 35400 1 3 0 1 34800 35400 2 3 1 2 35400 36600 2 3 \
0 1 2 3 0 0 1 0 2 0 0 1 2 3 5 7 9 11 \
20240115 20240115 20240115 20240115 0 1 2 0 1413694017 1412518961 3298353
holds built.csa
remove base_feed

# Its image is of the layout that has repeats: upgraded in its place or beside it, it stays as it is.
run upgrade built.csa built.csa
answers ok stops 3 trips 4 connections 7 footpaths 3
holds built.csa
remove built.csa
run upgrade - new.csa
answers ok stops 3 trips 4 connections 7 footpaths 3
holds new.csa
lacks new.csa.part

# Repeats may have any value.
set 73 7
set 74 0
set 75 4294967295
set 76 7
run upgrade - new.csa
answers ok stops 3 trips 4 connections 7 footpaths 3
holds new.csa
run upgrade new.csa new.csa
answers ok stops 3 trips 4 connections 7 footpaths 3
holds new.csa
remove new.csa
";

#[test]
fn repeats_are_kept(rt: HostRuntime) -> Result<(), Fail> {
    try_transcripts(&rt, &[REPEATS])
}
