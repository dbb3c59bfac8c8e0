//! Clock texts that are read and written, and texts that are no clocks.

use std::test::Fail;
use timetable::{clock_parse, clock_text};

/// Texts that are read, with their seconds, and texts that are refused.
const READ: [(&str, Option<u32>); 22] = [
    ("00:00:00", Some(0)),
    ("00:00:59", Some(59)),
    ("00:59:00", Some(3_540)),
    ("08:10:05", Some(29_405)),
    ("7:00:00", Some(25_200)),
    ("007:00:00", Some(25_200)),
    ("000007:00:00", Some(25_200)),
    ("0000007:00:00", None),
    ("24:00:00", Some(86_400)),
    ("999999:59:59", Some(3_599_999_999)),
    ("1000000:00:00", None),
    ("08:60:00", None),
    ("08:00:60", None),
    ("8:5:9", None),
    ("", None),
    (":00:00", None),
    ("08:00:00x", None),
    ("08:00", None),
    ("08-00:00", None),
    ("08:00.00", None),
    ("+8:00:00", None),
    ("08:0a:00", None),
];

#[test]
fn clocks_are_read(rt: HostRuntime) {
    for (text, time) in READ.iter() {
        assert!(rt; clock_parse(text.as_bytes()) == *time, "{text}");
    }
}

/// Seconds, and how they are written.
const WRITTEN: [(u32, &str); 7] = [
    (0, "00:00:00"),
    (29_405, "08:10:05"),
    (86_399, "23:59:59"),
    (111_600, "31:00:00"),
    (360_000, "100:00:00"),
    (3_599_999_999, "999999:59:59"),
    (u32::MAX, "1193046:28:15"),
];

#[test]
fn clocks_are_written(rt: HostRuntime) -> Result<(), Fail> {
    for (time, text) in WRITTEN.iter() {
        assert_eq!(rt; clock_text(rt.alloc(), *time)?.as_str(), *text);
    }
    Ok(())
}

/// Whichever growth is refused, the error is that memory ran out; otherwise the text is returned. A refused growth ends
/// the test with `AllocError`.
#[test]
fn refused_growth_is_reported(rt: HostRuntime) -> Result<(), Fail> {
    let text = clock_text(rt.alloc(), u32::MAX)?;
    assert_eq!(rt; text.as_str(), "1193046:28:15");
    Ok(())
}
