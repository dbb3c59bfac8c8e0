//! What is to be made of a feed, and how many sessions are served at once: numbers within their limits.

ghost use Rattle.std.specs.Prelude.{◌≡◌, ◌≤◌, MatchOption, None, Some, max, min};
ghost use Rattle.std.specs.Option.{SomeIff};
ghost use Rattle.jiff_core.specs.Calendar.{IsWithin};
ghost use Rattle.gtfs_rows.specs.Values.{day_of};
ghost use Rattle.gtfs_rows.specs.declared.values.Day.{Day};
ghost use Rattle.command_requests.specs.Naming.{IsWordOf};
ghost use Rattle.command_requests.specs.declared.plans.TheConstants.{MOST_DAYS, MOST_ROWS};
ghost use Rattle.command_requests.specs.declared.plans.TheConstants.{MOST_TABLE_WORKERS, MOST_WORKERS};

use gtfs_rows::Day;
use gtfs_rows::values::date;

/// How many sessions may be served at once.
pub const MOST_WORKERS: u32 = 16;

/// How many threads may work at a table of travel times.
pub const MOST_TABLE_WORKERS: u32 = 64;

/// How many service days may be asked for.
pub const MOST_DAYS: u32 = 14;

/// How many rows of a picture may be asked for.
pub const MOST_ROWS: u32 = 10_000;

/// How many rows a picture has at most if nothing else is asked for.
pub const PLAIN_ROWS: u32 = 200;

/// How many seconds a zone may be ahead of UTC, or behind it.
pub const MOST_AHEAD: i32 = 86_399;

/// How many sessions are served at once: 1 to 16.
#[derive(Drop)]
pub struct Workers {
    pub number: usize,
    ghost some: { 1 ≤ number },
    ghost few: { number ≤ MOST_WORKERS },
}

impl Workers {
    /// As many as are asked for; `None` outside the limits.
    pub fn of(asked: u32) -> Option<Workers>
        ensures { MatchOption result (¬ ((1 ≤ asked) × (asked ≤ MOST_WORKERS))) (λ workers. workers.number ≡ asked) }
    {
        if asked < 1 || asked > MOST_WORKERS {
            return None;
        }
        Some(Workers {
            number: asked as usize,
        })
    }
}

/// How many threads work at a table of travel times: 1 to 64.
#[derive(Clone, Copy, Drop)]
pub struct TableWorkers {
    pub number: usize,
    ghost some: { 1 ≤ number },
    ghost few: { number ≤ MOST_TABLE_WORKERS },
}

impl TableWorkers {
    /// As many as are asked for; `None` outside the limits.
    pub fn of(asked: u32) -> Option<TableWorkers>
        ensures { MatchOption result (¬ ((1 ≤ asked) × (asked ≤ MOST_TABLE_WORKERS)))
            (λ workers. workers.number ≡ asked) }
    {
        if asked < 1 || asked > MOST_TABLE_WORKERS {
            return None;
        }
        Some(TableWorkers {
            number: asked as usize,
        })
    }

    /// One for each of so many processors, as far as the limits allow.
    pub fn for_processors(processors: usize) -> TableWorkers
        ensures { result.number ≡ max 1 (min processors MOST_TABLE_WORKERS) }
    {
        TableWorkers {
            number: processors.min(MOST_TABLE_WORKERS as usize).max(1),
        }
    }
}

/// How many journeys a picture shows at most: 1 to 10,000, 200 if nothing else is asked for.
#[derive(Clone, Copy, Drop)]
pub struct PictureRows {
    pub number: usize,
    ghost some: { 1 ≤ number },
    ghost few: { number ≤ MOST_ROWS },
}

impl PictureRows {
    /// As many as are asked for; `None` outside the limits.
    pub fn of(asked: u32) -> Option<PictureRows>
        ensures { MatchOption result (¬ ((1 ≤ asked) × (asked ≤ MOST_ROWS))) (λ rows. rows.number ≡ asked) }
    {
        if asked < 1 || asked > MOST_ROWS {
            return None;
        }
        Some(PictureRows {
            number: asked as usize,
        })
    }

    /// As many as a picture has if nothing else is asked for.
    pub fn plain() -> PictureRows
        ensures { result.number ≡ 200 }
    {
        PictureRows {
            number: PLAIN_ROWS as usize,
        }
    }
}

/// A time of a second or more.
#[derive(Clone, Copy, Drop)]
pub struct Seconds {
    pub number: u32,
    ghost some: { 1 ≤ number },
}

impl Seconds {
    /// This many seconds; `None` of 0.
    pub fn of(asked: u32) -> Option<Seconds>
        ensures { MatchOption result (asked ≡ 0) (λ seconds. seconds.number ≡ asked) }
    {
        if asked == 0 {
            return None;
        }
        Some(Seconds { number: asked })
    }
}

/// The number of service days, if it is 1 to 14; otherwise `None`.
pub fn days_of(number: u32) -> Option<u32>
    ensures { SomeIff result ((1 ≤ number) × (number ≤ MOST_DAYS)) number }
{
    if number < 1 || number > MOST_DAYS {
        return None;
    }
    Some(number)
}

/// How far the clocks of a zone are ahead of UTC at all times: at most 86,399 seconds either way.
#[derive(Drop)]
pub struct UtcOffset {
    pub seconds: i32,
    ghost within: { IsWithin 86_399 seconds },
}

impl UtcOffset {
    /// This many seconds; `None` beyond the limit.
    pub fn of(seconds: i32) -> Option<UtcOffset>
        ensures { MatchOption result (¬ (IsWithin 86_399 seconds)) (λ ahead. ahead.seconds ≡ seconds) }
    {
        if seconds < -MOST_AHEAD || seconds > MOST_AHEAD {
            return None;
        }
        Some(UtcOffset { seconds })
    }
}

/// How a time zone is given.
#[derive(Drop)]
pub enum ZoneText<'a> {
    Fixed(UtcOffset),
    /// A POSIX rule.
    Posix(&'a str),
    /// The path of a time zone file (TZif).
    File(&'a str),
}

/// Which service day is the first.
#[derive(Clone, Copy, Drop)]
pub enum FirstDay {
    On(Day),
    /// The day that the zone's clocks show when a feed is loaded.
    Today,
    /// The day before that one.
    Yesterday,
}

impl FirstDay {
    /// The day that a word means: a civil date `YYYYMMDD` of the years 1 to 9999, `today`, or `today-1` for the day
    /// before; `None` of any other word.
    pub fn of(word: &str) -> Option<FirstDay>
        ensures { MatchOption result ((first : FirstDay) → ¬ (IsWordOf word.now first)) (IsWordOf word.now) }
    {
        match word {
            "today" => Some(FirstDay::Today),
            "today-1" => Some(FirstDay::Yesterday),
            _ => date_of(word),
        }
    }
}

// A civil date.
fn date_of(word: &str) -> Option<FirstDay>
    ensures { MatchOption result (day_of word.now ≡ None) (λ first. (day : Day) × (first ≡ FirstDay.On day)
        × (day_of word.now ≡ Some day)) }
{
    let day = date(word.as_bytes())?;
    Some(FirstDay::On(day))
}

/// What is to be made of a feed.
#[derive(Drop)]
pub struct PlanText<'a> {
    pub first: FirstDay,
    pub days: u32,
    ghost some: { 1 ≤ days },
    ghost few: { days ≤ MOST_DAYS },
    pub zone: ZoneText<'a>,
    /// Whether an arrival that isn't after the departure before it is refused.
    pub strict: bool,
}
