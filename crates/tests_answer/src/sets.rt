//! Sessions that ask between sets of stops.

use crate::legs::{assert_text, replied};
use crate::sessions::image;
use session::{PointForm, ReplyForm};
use std::alloc::Global;
use std::test::Fail;

// What is written where this stands under `from` and `to`, if arrays are read or if they aren't.
fn asked(alloc: Global, sets: bool, from: &str, to: &str) -> Result<Vec<u8>, Fail> {
    let mut profile = format!(in alloc;
        "{{\"from\":{from},\"to\":{to},\"do\":\"profile\",\"criterion\":\"arrival\","
    )?;
    profile.push_str("\"after\":\"07:00:00\",\"until\":\"09:00:00\",\"by\":\"10:00:00\"}")?;
    let form = ReplyForm {
        points: PointForm::Bare,
        longest: None,
        sets,
    };
    replied(alloc, image(alloc, 0)?, form, profile.as_str())
}

const UNKNOWN: &str =
    "{\"base\":1705276800,\"ok\":\"pin\",\"version\":1}\n{\"error\":31,\"name\":\"UnknownStop\"}\n";

const SAME: &str =
    "{\"base\":1705276800,\"ok\":\"pin\",\"version\":1}\n{\"error\":32,\"name\":\"SameStop\"}\n";

const NO_REQUEST: &str =
    "{\"base\":1705276800,\"ok\":\"pin\",\"version\":1}\n{\"error\":112,\"name\":\"BadRequest\"}\n";

const FROM_B: &str = "\
{\"base\":1705276800,\"ok\":\"pin\",\"version\":1}
{\"ok\":\"profile\",\"points\":[{\"arr\":\"08:20:00\",\"dep\":\"08:12:00\",\"journey\":\"ride 2 2\"}],\
\"version\":1,\"walk\":null}
";

const TO_B: &str = "\
{\"base\":1705276800,\"ok\":\"pin\",\"version\":1}
{\"ok\":\"profile\",\"points\":[{\"arr\":\"08:10:00\",\"dep\":\"08:00:00\",\"journey\":\"ride 0 0\"}],\
\"version\":1,\"walk\":null}
";

// Sides as they stand in a line, whether arrays are read, and what is written.
const SETS: [(&str, &str, bool, &str); 7] = [
    ("[\"A\",\"B\"]", "\"C\"", true, FROM_B),
    ("[\"A\"]", "[\"C\",\"B\"]", true, TO_B),
    ("[\"A\",\"X\"]", "\"C\"", true, UNKNOWN),
    ("[\"A\",\"C\"]", "[\"B\",\"C\"]", true, SAME),
    ("[\"A\",\"B\"]", "\"C\"", false, NO_REQUEST),
    ("\"A\"", "[]", true, NO_REQUEST),
    ("\"A\"", "[\"B\",\"B\"]", true, NO_REQUEST),
];

/// From A or B to C the late departure from B betters that from A; from A to B or C the arrival at B betters that at C.
#[test]
fn sets_of_stops_are_asked_between(rt: HostRuntime) -> Result<(), Fail> {
    for (from, to, sets, wanted) in SETS.iter() {
        assert_text(&rt, &asked(rt.alloc(), *sets, from, to)?, wanted);
    }
    Ok(())
}
