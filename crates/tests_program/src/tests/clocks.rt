//! For which days a feed is loaded, by a clock that is passed in.

use command_line::read;
use command_requests::{CommandRequest, FirstDay, PlanText, ZoneText};
use feed_plans::{instant, plan_at};
use service_days::day_start;
use std::alloc::Global;
use std::io;
use std::io::ErrorKind;
use std::process::Abort;
use std::test::Fail;
use std::time::{Clock, Duration};

/// A clock that shows this many seconds after 1970-01-01T00:00:00Z, or can't be read.
#[derive(Drop)]
struct Stopped(Option<u64>);

impl Clock for Stopped {
    fn monotonic(&self) -> io::Result<Duration> {
        Ok(Duration::from_secs(0))
    }

    fn since_1970(&self) -> io::Result<Duration> {
        match self.0 {
            Some(seconds) => Ok(Duration::from_secs(seconds)),
            None => Err(io::Error::from(ErrorKind::Unsupported)),
        }
    }
}

/// The rule of Central Europe.
const ZONE: &str = "CET-1CEST,M3.5.0,M10.5.0/3";

/// The first day that is asked for, what the clock shows at a load, and the second from which the image counts.
/// 1705273200 is the start of 20240115, 1711836000 that of 20240331, an hour before its midnight. If the clock gives no
/// day, or one beyond the calendar, there is no start.
const LOADS: [(&str, Option<u64>, Option<i64>); 11] = [
    ("today", Some(1_705_273_199), Some(1_705_186_800)),
    ("today", Some(1_705_273_200), Some(1_705_273_200)),
    ("today", Some(1_705_359_599), Some(1_705_273_200)),
    ("today", Some(1_705_359_600), Some(1_705_359_600)),
    ("today-1", Some(1_705_359_599), Some(1_705_186_800)),
    ("today-1", Some(1_705_359_600), Some(1_705_273_200)),
    ("today", Some(1_711_839_600), Some(1_711_836_000)),
    ("20240115", Some(1_711_839_600), Some(1_705_273_200)),
    ("20240115", None, Some(1_705_273_200)),
    ("today", None, None),
    ("today-1", Some(253_402_300_800), None),
];

/// The second from which the image counts if a feed is loaded while the clock shows this.
fn base_at(alloc: Global, word: &str, clock: &Stopped) -> Result<Option<i64>, Fail> {
    let Some(first) = FirstDay::of(word) else {
        return Err(Fail::new("a first day"));
    };
    let asked = PlanText {
        first,
        days: 1,
        zone: ZoneText::Posix(ZONE),
        strict: false,
    };
    let plan = plan_at(alloc, &asked, &[], instant(clock))?;
    Ok(day_start(&plan.zone, plan.first_day).ok())
}

fn try_load<R: Abort>(
    rt: &R,
    alloc: Global,
    word: &str,
    seconds: Option<u64>,
    base: Option<i64>,
) -> Result<(), Fail> {
    let found = base_at(alloc, word, &Stopped(seconds))?;
    assert!(rt; found == base);
    Ok(())
}

#[test]
fn days_move_on_with_the_clock(rt: HostRuntime) -> Result<(), Fail> {
    for (word, seconds, base) in LOADS {
        try_load(&rt, rt.alloc(), word, seconds, base)?;
    }
    Ok(())
}

/// The word of a first day, or "a date".
fn word_of(first: FirstDay) -> &'static str {
    match first {
        FirstDay::Today => "today",
        FirstDay::Yesterday => "today-1",
        FirstDay::On(_) => "a date",
    }
}

/// The first day that `build` is asked for with this word.
fn asked_of_build(alloc: Global, word: &str) -> &'static str {
    let words = [
        "csa", "build", "feed", "out", "--first", word, "--days", "1", "--zone", "fixed:0",
    ];
    let mut line = Vec::new(alloc);
    match read(alloc, &words, &mut line) {
        Ok(CommandRequest::Build(request)) => word_of(request.plan.first),
        _ => "no build",
    }
}

/// The same of `serve`.
fn asked_of_serve(alloc: Global, word: &str) -> &'static str {
    let words = [
        "csa",
        "serve",
        "--image",
        "-",
        "--port",
        "0",
        "--workers",
        "1",
        "--sessions",
        "1",
        "--first",
        word,
        "--days",
        "1",
        "--zone",
        "fixed:0",
    ];
    let mut line = Vec::new(alloc);
    match read(alloc, &words, &mut line) {
        Ok(CommandRequest::Serve(request)) => word_of(request.plan.first),
        _ => "no serve",
    }
}

const FIRST_DAYS: [&str; 2] = ["today", "today-1"];

#[test]
fn words_of_first_days_are_read(rt: HostRuntime) -> Result<(), Fail> {
    for word in FIRST_DAYS.iter() {
        assert!(&rt; asked_of_build(rt.alloc(), *word) == *word);
        assert!(&rt; asked_of_serve(rt.alloc(), *word) == *word);
    }
    Ok(())
}
