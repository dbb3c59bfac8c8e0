//! Images with one fault, and with several: the first fault is reported.

use crate::tests::transcript::try_transcripts;
use std::test::Fail;

const CHANGES: &str = "
# Each word of the sample in turn at its greatest value.
run verify -
word 0 4294967295 | refused 61 BadMagic
word 1 4294967295 | refused 62 BadLayout
word 2 4294967295 | refused 63 BadLength
word 3 4294967295 | refused 63 BadLength
word 4 4294967295 | refused 63 BadLength
word 5 4294967295 | refused 63 BadLength
word 6 4294967295 | refused 63 BadLength
word 7 4294967295 | ok stops 3 trips 2 connections 3 footpaths 3
word 8 4294967295 | ok stops 3 trips 2 connections 3 footpaths 3
word 9 4294967295 | refused 64 StopRange 0
word 10 4294967295 | refused 64 StopRange 0
word 11 4294967295 | refused 69 TimeRange 0
word 12 4294967295 | refused 69 TimeRange 0
word 13 4294967295 | refused 65 TripRange 0
word 14 4294967295 | refused 70 BadFlags 0
word 15 4294967295 | refused 64 StopRange 1
word 16 4294967295 | refused 64 StopRange 1
word 17 4294967295 | refused 69 TimeRange 1
word 18 4294967295 | refused 69 TimeRange 1
word 19 4294967295 | refused 65 TripRange 1
word 20 4294967295 | refused 70 BadFlags 1
word 21 4294967295 | refused 64 StopRange 2
word 22 4294967295 | refused 64 StopRange 2
word 23 4294967295 | refused 69 TimeRange 2
word 24 4294967295 | refused 69 TimeRange 2
word 25 4294967295 | refused 65 TripRange 2
word 26 4294967295 | refused 70 BadFlags 2
word 27 4294967295 | refused 71 FootRange 0
word 28 4294967295 | refused 71 FootRange 0
word 29 4294967295 | refused 71 FootRange 1
word 30 4294967295 | refused 71 FootRange 2
word 31 4294967295 | refused 71 FootRange 0
word 32 4294967295 | refused 71 FootRange 0
word 33 4294967295 | refused 71 FootRange 1
word 34 4294967295 | refused 71 FootRange 1
word 35 4294967295 | refused 71 FootRange 2
word 36 4294967295 | refused 71 FootRange 2
word 37 4294967295 | refused 75 BadNames 0
word 38 4294967295 | refused 75 BadNames 0
word 39 4294967295 | refused 75 BadNames 1
word 40 4294967295 | refused 75 BadNames 2
word 41 4294967295 | refused 75 BadNames 3
word 42 4294967295 | refused 75 BadNames 4
word 43 4294967295 | ok stops 3 trips 2 connections 3 footpaths 3
word 44 4294967295 | ok stops 3 trips 2 connections 3 footpaths 3
word 45 4294967295 | refused 75 BadNames 0
word 46 4294967295 | refused 75 BadNames 3

# Each front of the sample is too short.
sample
cut 0
answers refused 63 BadLength
cut 4
answers refused 63 BadLength
cut 8
answers refused 63 BadLength
cut 12
answers refused 63 BadLength
cut 16
answers refused 63 BadLength
cut 20
answers refused 63 BadLength
cut 24
answers refused 63 BadLength
cut 28
answers refused 63 BadLength
cut 32
answers refused 63 BadLength
cut 36
answers refused 63 BadLength
cut 40
answers refused 63 BadLength
cut 44
answers refused 63 BadLength
cut 48
answers refused 63 BadLength
cut 52
answers refused 63 BadLength
cut 56
answers refused 63 BadLength
cut 60
answers refused 63 BadLength
cut 64
answers refused 63 BadLength
cut 68
answers refused 63 BadLength
cut 72
answers refused 63 BadLength
cut 76
answers refused 63 BadLength
cut 80
answers refused 63 BadLength
cut 84
answers refused 63 BadLength
cut 88
answers refused 63 BadLength
cut 92
answers refused 63 BadLength
cut 96
answers refused 63 BadLength
cut 100
answers refused 63 BadLength
cut 104
answers refused 63 BadLength
cut 108
answers refused 63 BadLength
cut 112
answers refused 63 BadLength
cut 116
answers refused 63 BadLength
cut 120
answers refused 63 BadLength
cut 124
answers refused 63 BadLength
cut 128
answers refused 63 BadLength
cut 132
answers refused 63 BadLength
cut 136
answers refused 63 BadLength
cut 140
answers refused 63 BadLength
cut 144
answers refused 63 BadLength
cut 148
answers refused 63 BadLength
cut 152
answers refused 63 BadLength
cut 156
answers refused 63 BadLength
cut 160
answers refused 63 BadLength
cut 164
answers refused 63 BadLength
cut 168
answers refused 63 BadLength
cut 172
answers refused 63 BadLength
cut 176
answers refused 63 BadLength
cut 180
answers refused 63 BadLength
cut 184
answers refused 63 BadLength

# One word of the sample changed, to another fault each.
word 24 29520 | refused 66 HopWithoutDuration 2
word 15 0 | refused 68 TripBroken 1
word 17 29399 | refused 68 TripBroken 1
word 11 29401 | refused 66 HopWithoutDuration 0
word 12 2000000000 | refused 69 TimeRange 0
word 26 4 | refused 70 BadFlags 2
word 27 1 | refused 71 FootRange 0
word 30 2 | refused 73 NoLoop 2
word 30 4 | refused 71 FootRange 2
word 32 1000001 | refused 71 FootRange 0
word 31 1 | refused 73 NoLoop 0
word 37 1 | refused 75 BadNames 0
word 45 1413694207 | refused 75 BadNames 0
word 46 20075569 | refused 75 BadNames 5

# Stops and footpaths alone. Several ways are open in the first four: the one with the least last stop is reported, then with the least middle one, then
# with the least first one.
# 1 to 0, 2 to 1 and 0 to 2: each two want a third.
image 1346458435 1 3 0 0 6 0 0 0 0 2 4 6 0 0 1 5 1 0 2 5 0 5 2 0 0 0 0 0
answers refused 74 NotClosed 2 1 0
# 0 to 3 by way of 1 and of 2.
image 1346458435 1 4 0 0 8 0 0 0 0 1 3 5 8 0 0 0 5 1 0 0 5 2 0 1 5 2 5 3 0 0 0 0 0 0
answers refused 74 NotClosed 0 1 3
# 0 and 1 to 3 by way of 2.
image 1346458435 1 4 0 0 7 0 0 0 0 1 2 5 7 0 0 1 0 0 5 1 5 2 0 2 5 3 0 0 0 0 0 0
answers refused 74 NotClosed 0 2 3
# 1 to 3 by way of 0, and 0 to 3 by way of 2 in 10 s in place of 20 s.
image 1346458435 1 4 0 0 9 0 0 0 0 2 3 6 9 0 0 1 5 1 0 0 5 1 10 2 0 0 20 2 5 3 0 0 0 0 0 0
answers refused 74 NotClosed 1 0 3
# There and back is shorter than the loop at 0, and than the one at 1; and as long as both.
image 1346458435 1 2 0 0 4 0 0 0 0 2 4 0 50 1 10 0 10 1 50 0 0 0
answers refused 74 NotClosed 0 1 0
image 1346458435 1 2 0 0 4 0 0 0 0 2 4 0 0 1 10 0 10 1 50 0 0 0
answers refused 74 NotClosed 1 0 1
image 1346458435 1 2 0 0 4 0 0 0 0 2 4 0 20 1 10 0 10 1 20 0 0 0
answers ok stops 2 trips 0 connections 0 footpaths 4
# Footpaths of no seconds from 0 to 1 and to 2: with no direct one, one of 1 s, and one of none.
image 1346458435 1 3 0 0 6 0 0 0 0 2 4 6 0 0 1 0 0 0 1 0 1 0 2 0 0 0 0 0
answers refused 74 NotClosed 0 1 2
image 1346458435 1 3 0 0 6 0 0 0 0 1 3 6 0 0 0 0 1 0 0 1 1 0 2 0 0 0 0 0
answers refused 74 NotClosed 0 1 2
image 1346458435 1 3 0 0 6 0 0 0 0 1 3 6 0 0 0 0 1 0 0 0 1 0 2 0 0 0 0 0
answers ok stops 3 trips 0 connections 0 footpaths 6
# The most seconds, and an order that falls.
image 1346458435 1 2 0 0 4 0 0 0 0 2 4 0 0 1 1000000 0 1000000 1 0 0 0 0
answers ok stops 2 trips 0 connections 0 footpaths 4
image 1346458435 1 2 0 0 4 0 0 0 0 2 4 1 5 0 0 0 5 1 0 0 0 0
answers refused 72 FootUnsorted 0

# Without stops the index of footpaths begins with 0, as without names theirs does; and it ends with their number.
image 1346458435 1 0 0 0 0 0 0 0 0 0
answers ok stops 0 trips 0 connections 0 footpaths 0
image 1346458435 1 0 0 0 0 0 0 0 1 0
answers refused 71 FootRange 0
image 1346458435 1 1 0 0 2 0 0 0 0 1 0 0 0 0 0 0
answers refused 71 FootRange 1
image 1346458435 1 0 0 0 0 0 0 0 0 1
answers refused 75 BadNames 0

# Both layouts are read, and no other; a length of the other layout is none.
word 1 0 | refused 62 BadLayout
word 1 1 | ok stops 3 trips 2 connections 3 footpaths 3
word 1 2 | refused 63 BadLength
word 1 3 | refused 62 BadLayout
sample 2
set 1 1
answers refused 63 BadLength
sample 2
answers ok stops 3 trips 2 connections 3 footpaths 3
";

const FILES: &str = "
# Of a file the same faults are reported as of the input, which is the sample at each of these commands.
# Of the sample's bytes all but one, and all but a word.
sample
cut 187
saves faulty.csa
sample
run verify faulty.csa
answers refused 51 OddLength
sample
cut 184
saves faulty.csa
sample
run verify faulty.csa
answers refused 63 BadLength

# A connection that arrives when it departs, and a byte of a name that is no UTF-8.
set 24 29520
saves faulty.csa
sample
run verify faulty.csa
answers refused 66 HopWithoutDuration 2
set 45 1413694207
saves faulty.csa
sample
run verify faulty.csa
answers refused 75 BadNames 0

# Footpaths from stop 1 to 0, from 2 to 1 and from 0 to 2: each two want a third.
image 1346458435 1 3 0 0 6 0 0 0 0 2 4 6 0 0 1 5 1 0 2 5 0 5 2 0 0 0 0 0
saves faulty.csa
sample
run verify faulty.csa
answers refused 74 NotClosed 2 1 0
remove faulty.csa
";

#[test]
fn the_first_fault_is_reported(rt: HostRuntime) -> Result<(), Fail> {
    try_transcripts(&rt, &[CHANGES, FILES])
}
