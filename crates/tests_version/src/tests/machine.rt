//! The state machine of versions: courses of events with their replies.

use std::alloc::{AllocError, Global};
use std::process::Abort;
use std::test::*;
use version_core::*;

/// Worker 1 has looked at version 1, which is then outdated: version 2 is current, and shelf 0 is closing.
const OUTDATED: &str = "\
look 1: Looked { version: 1, shelf: 0 }
open 1: Opened { version: 2, shelf: 1 }
publish: Published { version: 2 }
close 0: Closing";

/// Events with their replies, from the initial state on: a block for each course of events, under a title. A line
/// `outdated` stands for the lines of `OUTDATED`, and `load 2..8` for an opening and a publish of each of these
/// versions, on the shelf before its number.
const COURSES: &str = "\
# a late take and a new look
outdated
collect 0: Freed
take 1: Late
drop 1: Dropped
look 1: Looked { version: 2, shelf: 1 }
take 1: Holds { version: 2 }

# a held shelf stays
look 1: Looked { version: 1, shelf: 0 }
take 1: Holds { version: 1 }
open 1: Opened { version: 2, shelf: 1 }
publish: Published { version: 2 }
close 0: Closing
collect 0: Busy { count: 1 }
ask 1: From { version: 1, edition: 0 }
drop 1: Dropped
collect 0: Freed

# a shelf that is used again
outdated
collect 0: Freed
open 2: Opened { version: 3, shelf: 0 }
take 1: Late
collect 0: NotNow
drop 1: Dropped
publish: Published { version: 3 }
look 1: Looked { version: 3, shelf: 0 }
take 1: Holds { version: 3 }
ask 1: From { version: 3, edition: 2 }

# a late worker is counted when its shelf is opened again
outdated
collect 0: Freed
take 1: Late
open 2: Opened { version: 3, shelf: 0 }
publish: Published { version: 3 }
open 3: Opened { version: 4, shelf: 2 }
publish: Published { version: 4 }
close 0: Closing
collect 0: Busy { count: 1 }

# eight versions leave no room
look 1: Looked { version: 1, shelf: 0 }
look 2: Looked { version: 1, shelf: 0 }
take 1: Holds { version: 1 }
load 2..8
close 0: Closing
take 2: Late
open 9: NoRoom { counts: [2, 0, 0, 0, 0, 0, 0, 0] }
ask 1: From { version: 1, edition: 0 }
drop 1: Dropped
collect 0: Busy { count: 1 }
drop 2: Dropped
collect 0: Freed
open 9: Opened { version: 9, shelf: 0 }

# a notice tells of its version
open 1: Opened { version: 2, shelf: 1 }
publish: Published { version: 2 }
join 1 2: NotNow
note: Noted { version: 2 }
join 1 2: Joined { seen: 2 }
join 1 2: NotNow
look 1: Looked { version: 2, shelf: 1 }

# who holds a version takes in notices, also of an older one than it has seen; each of two alike is taken in once
note: Noted { version: 1 }
note: Noted { version: 1 }
open 1: Opened { version: 2, shelf: 1 }
publish: Published { version: 2 }
note: Noted { version: 2 }
look 3: Looked { version: 2, shelf: 1 }
join 3 1: NotNow
take 3: Holds { version: 2 }
join 3 1: Joined { seen: 2 }
join 4 2: Joined { seen: 2 }
join 4 1: Joined { seen: 2 }
join 5 1: NotNow";

/// Events that are refused, and change nothing.
const REFUSALS: &str = "\
# at the start
look 16: NotNow
take 16: NotNow
take 1: NotNow
drop 16: NotNow
drop 1: NotNow
publish: NotNow
close 8: NotNow
close 1: NotNow
close 0: NotNow
collect 8: NotNow
collect 1: NotNow
collect 0: NotNow
ask 16: NotNow
ask 1: NotNow
join 0 1: NotNow
join 0 0: NotNow
join 16 1: NotNow

# for a worker that has looked
look 1: Looked { version: 1, shelf: 0 }
look 1: NotNow
drop 1: NotNow
ask 1: NotNow

# for a worker that holds
look 1: Looked { version: 1, shelf: 0 }
take 1: Holds { version: 1 }
look 1: NotNow
take 1: NotNow

# while a version is unpublished
open 1: Opened { version: 2, shelf: 1 }
open 2: NotNow
close 0: NotNow
close 1: NotNow
collect 1: NotNow

# once a version is published
open 1: Opened { version: 2, shelf: 1 }
publish: Published { version: 2 }
publish: NotNow
close 1: NotNow
collect 0: NotNow
collect 1: NotNow

# for a late worker and a closing shelf
outdated
take 1: Late
look 1: NotNow
take 1: NotNow
ask 1: NotNow
close 0: NotNow

# once a notice is out
note: Noted { version: 1 }
join 0 0: NotNow
join 0 2: NotNow
join 16 1: NotNow";

fn number(text: &str) -> Result<u64, Fail> {
    match text.parse() {
        Ok(number) => Ok(number),
        Err(_) => Err(Fail::new("a number of an event")),
    }
}

fn event_of(word: &str, first: u64, second: u64) -> Event {
    let index = first as usize;
    match word {
        "look" => Event::Look { worker: index },
        "take" => Event::Take { worker: index },
        "drop" => Event::Drop { worker: index },
        "open" => Event::Open { edition: first },
        "publish" => Event::Publish,
        "close" => Event::Close { shelf: index },
        "collect" => Event::Collect { shelf: index },
        "ask" => Event::Ask { worker: index },
        "note" => Event::Note,
        _ => Event::Join {
            worker: index,
            version: second,
        },
    }
}

/// The event of a text such as `join 3 1`.
fn read_event(text: &str) -> Result<Event, Fail> {
    let (word, rest) = text.split_once(' ').unwrap_or((text, "0"));
    let (first, second) = rest.split_once(' ').unwrap_or((rest, "0"));
    Ok(event_of(word, number(first)?, number(second)?))
}

/// Plays an event and asserts its reply; passes over a title.
fn play_event<R: Abort>(rt: &R, alloc: Global, core: &mut Core, line: &str) -> Result<(), Fail> {
    let Some((event, expected)) = line.split_once(": ") else {
        return Ok(());
    };
    let reply = core.step(read_event(event)?)?;
    let reply = format!(in alloc; "{reply:?}")?;
    assert_eq!(rt; reply.as_str(), expected, "{line}");
    Ok(())
}

/// Opens a version on the shelf before its number and publishes it; whether both succeed.
fn loads(core: &mut Core, version: u64) -> Result<bool, AllocError> {
    let shelf = version.saturating_sub(1) as usize;
    let is_opened = core.open(version)? == Reply::Opened { version, shelf };
    Ok(is_opened && core.publish() == Reply::Published { version })
}

/// Loads each of these versions.
fn load_each<R: Abort>(rt: &R, core: &mut Core, versions: &str) -> Result<(), Fail> {
    let (first, last) = versions.split_once("..").unwrap_or((versions, ""));
    for version in number(first)?..number(last)?.saturating_add(1) {
        assert!(rt; loads(core, version)?, "version {version}");
    }
    Ok(())
}

fn play_outdated<R: Abort>(rt: &R, alloc: Global, core: &mut Core) -> Result<(), Fail> {
    for line in OUTDATED.split('\n') {
        play_event(rt, alloc, core, line)?;
    }
    Ok(())
}

fn play_line<R: Abort>(rt: &R, alloc: Global, core: &mut Core, line: &str) -> Result<(), Fail> {
    let (word, rest) = line.split_once(' ').unwrap_or((line, ""));
    match word {
        "outdated" => play_outdated(rt, alloc, core),
        "load" => load_each(rt, core, rest),
        _ => play_event(rt, alloc, core, line),
    }
}

fn play_block<R: Abort>(rt: &R, alloc: Global, block: &str) -> Result<(), Fail> {
    let mut core = Core::new(alloc)?;
    for line in block.split('\n') {
        play_line(rt, alloc, &mut core, line)?;
    }
    Ok(())
}

fn play_all<R: Abort>(rt: &R, alloc: Global, blocks: &str) -> Result<(), Fail> {
    for block in blocks.split("\n\n") {
        play_block(rt, alloc, block)?;
    }
    Ok(())
}

#[test]
fn events_are_answered(rt: HostRuntime) -> Result<(), Fail> {
    play_all(&rt, rt.alloc(), COURSES)
}

#[test]
fn what_has_no_place_is_refused(rt: HostRuntime) -> Result<(), Fail> {
    play_all(&rt, rt.alloc(), REFUSALS)
}

/// Asserts what the state machine tells after worker 1 came late to shelf 0, while worker 15 holds version 2 on shelf
/// 1.
fn tells_where<R: Abort>(rt: &R, core: &Core) {
    assert!(rt; core.current() == (2, 1) && core.may_open());
    assert!(rt; core.free_shelf() == Some(2) && core.shelf(8).is_none());
    assert!(rt; core.shelf(0) == Some(Shelf::Closing { version: 1 }));
    assert!(rt; core.worker(1) == Some(Worker::Late { shelf: 0 }));
    assert!(rt; core.seen(15) == Some(2) && core.seen(16).is_none() && core.worker(16).is_none());
}

#[test]
fn what_stands_where(rt: HostRuntime) -> Result<(), Fail> {
    let mut core = Core::new(rt.alloc())?;
    let events = [
        Event::Look { worker: 1 },
        Event::Open { edition: 1 },
        Event::Publish,
        Event::Look { worker: 15 },
        Event::Take { worker: 15 },
        Event::Close { shelf: 0 },
        Event::Take { worker: 1 },
    ];
    run(rt.alloc(), &mut core, &events)?;
    tells_where(&rt, &core);
    Ok(())
}

#[test]
fn laws_can_be_called(_rt: HostRuntime) {
    at_rest();
    every_run();
    every_step();
    holding();
    notices();
    runs_in_parts();
}
