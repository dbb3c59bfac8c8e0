//! How long something took.

ghost use Rattle.std.specs.Prelude.{◌≡◌, ◌++◌, None, OnOk, string_bytes};
ghost use Rattle.command_endings.specs.Elapsed.{parts_text, seconds_text};

use std::alloc::AllocError;
use std::time::{Clock, Duration, Instant};
use text_pieces::{put_number, put_text};

/// When something began; unknown if the clock couldn't be read.
#[derive(Clone, Copy, Drop)]
pub struct StartInstant {
    instant: Option<Instant>,
}

impl StartInstant {
    /// Notes that something begins now.
    pub fn now<C: Clock>(clock: &C) -> StartInstant {
        StartInstant {
            instant: Instant::now(clock).ok(),
        }
    }

    /// Notes that something began at this instant, if it is known.
    pub fn at(instant: Option<Instant>) -> StartInstant
        ensures { result.instant ≡ instant }
    {
        StartInstant { instant }
    }

    /// How long it has lasted; `None` if the clock can't be read, or couldn't be read when it began.
    pub fn elapsed<C: Clock>(self, clock: &C) -> Option<Duration>
        ensures { self.instant ≡ None → result ≡ None }
    {
        self.instant?.elapsed(clock).ok()
    }
}

/// Adds ` seconds ` and how many seconds something took, to three decimals, or a hyphen if that isn't known. Running
/// out of memory is the only error.
pub fn put_seconds(line: &mut String, lasted: Option<Duration>) -> Result<(), AllocError>
    ensures { OnOk result (string_bytes line.new ≡ string_bytes line.old ++ seconds_text lasted) }
{
    match lasted {
        Some(lasted) => put_parts(line, lasted.as_secs(), u64::from(lasted.subsec_millis())),
        None => put_text(line, " seconds -"),
    }
}

// Adds seconds, and thousandths of a second (fewer than 1000) in three digits.
fn put_parts(line: &mut String, seconds: u64, thousandths: u64) -> Result<(), AllocError>
    ensures { OnOk result (string_bytes line.new ≡ string_bytes line.old ++ parts_text seconds thousandths) }
{
    put_number(line, " seconds ", seconds)?;
    put_number(line, ".", thousandths / 100)?;
    put_number(line, "", thousandths / 10 % 10)?;
    put_number(line, "", thousandths % 10)?;
    Ok(())
}
