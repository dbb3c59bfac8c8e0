//! Journeys over a town of four stops, with one fault and with two: the first fault is reported.

use crate::tests::transcript::try_transcripts;
use std::test::Fail;

/// The image has seven connections of four trips with all kinds of flags, and footpaths from A to B
/// and C and from B to C.
const TOWN: &str = "
image 1346458435 1 4 4 7 7 4 0 0 1 3 50 60 3 3 0 1 100 200 0 1 1 2 200 300 0 2 2 3 300 400 0 3 1 3 320 420 1 3 2 3 350 450 2 1 3 0 500 600 2 0 0 1 3 6 7 0 0 0 90 1 30 0 140 1 60 2 20 3 0 0 1 2 3 4 4 4 4 4 0 0 0 0 1145258561

# Journeys that count, and one fault of the legs.
judge B D 00:00:00 00:01:30 00:05:10 ride 0 0 | ok dep 00:00:50 arr 00:01:00
judge A C 00:00:00 00:16:40 00:05:10 ride 1 2 | ok dep 00:01:40 arr 00:05:00
judge A C 00:00:00 00:01:30 00:05:10 ride 0 7 | refused 81 LegRange 0
judge A C 00:00:00 00:01:30 00:05:10 ride 1 0 | refused 81 LegRange 0
judge B C 00:00:00 00:01:30 00:05:10 ride 0 2 | refused 82 TwoTrips 0
judge B D 00:00:00 00:01:30 00:33:20 ride 0 3 | refused 82 TwoTrips 0
judge B C 00:00:00 00:16:40 00:05:10 ride 2 2 | refused 83 NoBoarding 0
judge B D 00:00:00 00:16:40 00:33:20 ride 2 3 | refused 83 NoBoarding 0
judge A C 00:00:00 00:16:40 00:05:10 ride 1 1 walk 1 2 60 | refused 84 NoAlighting 0
judge B D 00:00:00 00:16:40 00:33:20 walk 1 2 60 ride 5 5 | refused 84 NoAlighting 0

# One fault of the walks, and legs that depart too early.
judge A C 00:00:00 00:16:40 00:05:10 ride 1 2 walk 2 2 0 | refused 89 NoFootpath 1
judge A D 00:00:00 00:16:40 00:05:10 ride 1 2 walk 2 3 5 | refused 89 NoFootpath 1
judge B D 00:00:00 00:01:30 00:33:20 ride 0 0 ride 1 3 | refused 85 WalkBroken 1
judge B D 00:00:00 00:16:40 00:33:20 ride 0 0 ride 4 4 | refused 85 WalkBroken 1
judge A D 00:00:00 00:16:40 00:33:20 ride 1 2 walk 2 2 20 ride 3 3 | refused 86 TooEarly 1
judge A D 00:00:00 00:16:40 00:33:20 ride 1 2 walk 2 2 20 walk 2 2 20 ride 3 3 | refused 86 TooEarly 1
judge B D 00:00:00 00:16:40 00:33:20 walk 1 1 30 ride 4 4 | refused 85 WalkBroken 0
judge A D 00:00:00 00:16:40 00:33:20 walk 0 2 140 ride 4 4 | refused 85 WalkBroken 0
judge A D 00:00:00 00:16:40 00:33:20 ride 1 3 walk 0 0 0 | refused 85 WalkBroken 1

# Other ends, and departures and arrivals outside the window.
judge A C 00:00:00 00:01:30 00:05:10 ride 0 0 | refused 87 WrongEnds
judge A D 00:00:00 00:16:40 00:05:10 ride 1 2 | refused 87 WrongEnds
judge A C 00:00:00 00:01:30 00:05:10 ride 1 2 | refused 88 OutsideWindow
judge A D 00:01:40 00:01:40 00:06:40 ride 1 3 | ok dep 00:01:40 arr 00:06:40
judge A D 00:00:00 00:16:40 00:33:20 walk 0 1 90 ride 0 0 | refused 88 OutsideWindow
judge A D 00:01:41 00:16:40 00:33:20 ride 1 3 | refused 88 OutsideWindow
judge A D 00:00:00 00:16:40 00:06:39 ride 1 3 | refused 88 OutsideWindow

# A fault of the legs, and another one.
judge B C 00:00:00 00:16:40 00:33:20 ride 0 3 walk 3 3 0 ride 3 7 | refused 82 TwoTrips 0
judge B D 00:00:00 00:16:40 00:33:20 ride 2 3 walk 3 3 0 ride 0 7 | refused 83 NoBoarding 0
judge A D 00:00:00 00:16:40 00:05:10 ride 1 1 walk 1 1 30 ride 0 7 | refused 84 NoAlighting 0
judge A C 00:00:00 00:01:30 00:05:10 ride 0 7 walk 2 2 0 | refused 81 LegRange 0
judge B C 00:00:00 00:16:40 00:05:10 ride 0 0 ride 0 7 | refused 81 LegRange 1
judge A C 00:00:00 00:01:30 00:05:10 ride 0 7 walk 0 0 0 | refused 81 LegRange 0
judge A C 00:00:00 00:01:30 00:33:20 ride 1 3 walk 3 3 0 ride 0 7 | refused 81 LegRange 1
judge B D 00:00:00 00:16:40 00:33:20 ride 2 4 | refused 82 TwoTrips 0
judge B D 00:00:00 00:01:30 00:33:20 ride 0 5 | refused 82 TwoTrips 0
judge B C 00:00:00 00:01:30 00:05:10 ride 0 2 walk 2 2 0 | refused 82 TwoTrips 0
judge B D 00:00:00 00:16:40 00:33:20 ride 0 0 ride 1 4 | refused 82 TwoTrips 1
judge A C 00:00:00 00:01:30 00:05:10 ride 0 2 | refused 82 TwoTrips 0

# Two faults: the first is reported.
judge B C 00:00:00 00:16:40 00:05:10 ride 2 2 walk 2 2 0 | refused 83 NoBoarding 0
judge B D 00:00:00 00:01:30 00:33:20 ride 0 0 ride 2 3 | refused 83 NoBoarding 1
judge A C 00:00:00 00:16:40 00:05:10 ride 2 2 | refused 83 NoBoarding 0
judge B C 00:00:00 00:01:30 00:05:10 ride 2 2 | refused 83 NoBoarding 0
judge A D 00:00:00 00:16:40 00:33:20 ride 1 2 walk 2 2 0 ride 5 5 | refused 84 NoAlighting 1
judge B D 00:00:00 00:01:30 00:33:20 ride 0 0 ride 5 5 | refused 84 NoAlighting 1
judge A C 00:00:00 00:16:40 00:05:10 ride 1 1 | refused 84 NoAlighting 0
judge A C 00:00:00 00:01:30 00:05:10 ride 1 1 walk 1 2 60 | refused 84 NoAlighting 0
judge B C 00:00:00 00:01:30 00:33:20 ride 0 0 walk 2 2 0 | refused 89 NoFootpath 1
judge A D 00:00:00 00:16:40 00:05:10 ride 1 2 walk 2 2 0 | refused 89 NoFootpath 1
judge A C 00:00:00 00:01:30 00:05:10 ride 1 2 walk 2 2 0 | refused 89 NoFootpath 1

# Two faults, later ones.
judge A D 00:00:00 00:16:40 00:05:10 ride 1 2 ride 0 0 | refused 85 WalkBroken 1
judge A D 00:00:00 00:01:30 00:33:20 ride 0 0 ride 1 2 | refused 85 WalkBroken 1
judge B D 00:00:00 00:16:40 00:05:10 ride 0 0 ride 3 3 | refused 85 WalkBroken 1
judge A D 00:02:00 00:16:40 00:05:10 ride 1 2 walk 2 2 20 ride 3 3 | refused 86 TooEarly 1
judge A D 00:00:00 00:16:40 00:33:20 ride 1 2 walk 2 2 20 ride 3 3 walk 3 3 0 ride 0 7 | refused 81 LegRange 2
judge A D 00:00:00 00:16:40 00:33:20 ride 1 2 walk 2 2 20 ride 3 4 | refused 82 TwoTrips 1
judge A D 00:00:00 00:16:40 00:33:20 ride 6 6 | refused 83 NoBoarding 0
judge B D 00:00:00 00:16:40 00:33:20 ride 2 2 walk 2 2 20 ride 3 3 | refused 83 NoBoarding 0
judge A D 00:00:00 00:16:40 00:33:20 ride 1 2 walk 2 2 20 walk 2 2 20 walk 2 2 20 ride 5 5 | refused 84 NoAlighting 1
judge A D 00:00:00 00:16:40 00:33:20 ride 1 2 walk 2 2 20 walk 2 2 0 ride 3 3 | refused 89 NoFootpath 1
judge A C 00:00:00 00:16:40 00:33:20 ride 1 2 walk 2 2 20 ride 3 3 | refused 86 TooEarly 1

# A chain of three trips, of which the last departs a minute before the second is over; and a later one, which departs as it is over.
image 1346458435 1 4 4 4 4 12 1705276800 0 0 1 28800 29400 0 3 1 2 29400 30000 1 3 2 3 29940 30600 2 3 2 3 30000 31200 3 3 0 1 2 3 4 0 0 1 0 2 0 3 0 0 1 2 3 4 6 8 10 12 20240115 20240115 20240115 20240115 1145258561 844378452 877933396
judge A D 07:00:00 09:00:00 10:00:00 ride 0 0 walk 1 1 0 ride 1 1 walk 2 2 0 ride 2 2 | refused 86 TooEarly 2
judge A D 07:00:00 09:00:00 10:00:00 ride 0 0 walk 1 1 0 ride 1 1 walk 2 2 0 ride 3 3 | ok dep 08:00:00 arr 08:40:00
";

const TEXTS: &str = "
# Texts that are no journeys.
sample
judge A C 07:00:00 09:00:00 10:00:00  | refused 80 BadText
judge A C 07:00:00 09:00:00 10:00:00 walk 0 0 0 | refused 80 BadText
judge A C 07:00:00 09:00:00 10:00:00 ride 0 | refused 80 BadText
judge A C 07:00:00 09:00:00 10:00:00 ride 0 0 0 | refused 80 BadText
judge A C 07:00:00 09:00:00 10:00:00 ride 0 0  | refused 80 BadText
judge A C 07:00:00 09:00:00 10:00:00  ride 0 0 | refused 80 BadText
judge A C 07:00:00 09:00:00 10:00:00 ride  0 0 | refused 80 BadText
judge A C 07:00:00 09:00:00 10:00:00 ride 0 0  walk 1 1 0 | refused 80 BadText
judge A C 07:00:00 09:00:00 10:00:00 ride 00 0 | refused 80 BadText
judge A C 07:00:00 09:00:00 10:00:00 ride 0 01 | refused 80 BadText
judge A C 07:00:00 09:00:00 10:00:00 ride 0 4294967296 | refused 80 BadText
judge A C 07:00:00 09:00:00 10:00:00 ride 0 99999999999999999999999999 | refused 80 BadText
judge A C 07:00:00 09:00:00 10:00:00 ride +0 0 | refused 80 BadText
judge A C 07:00:00 09:00:00 10:00:00 ride 0 -1 | refused 80 BadText
judge A C 07:00:00 09:00:00 10:00:00 ride 0 0ride 1 1 | refused 80 BadText
judge A C 07:00:00 09:00:00 10:00:00 ride 0 0 walk 1 1 | refused 80 BadText
judge A C 07:00:00 09:00:00 10:00:00 Ride 0 0 | refused 80 BadText
judge A C 07:00:00 09:00:00 10:00:00 walk 0 1 2 walk 1 2 3 ride 0 0 | refused 80 BadText
judge A C 07:00:00 09:00:00 10:00:00 walk 0 1 2ride 0 0 | refused 80 BadText
judge A C 07:00:00 09:00:00 10:00:00 ride 0 0 ride | refused 80 BadText
";

#[test]
fn faults_of_journeys_are_reported_in_order(rt: HostRuntime) -> Result<(), Fail> {
    try_transcripts(&rt, &[TOWN, TEXTS])
}
