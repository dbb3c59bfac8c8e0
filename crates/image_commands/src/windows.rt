//! Warnings of a window of departures in which an image may have no connections. They take no memory.

use feed_messages::explain;
use image_verifier::Verified;
use std::io::Write;
use timetable::Clock;

/// The earliest and the latest departure, in seconds after the image's base.
#[derive(Clone, Copy, Drop)]
pub struct DepartureRange {
    pub first: u32,
    pub last: u32,
}

/// The seconds of a day.
const DAY: u32 = 86_400;

/// Warns if all connections of the image depart before the window that is asked for, or all after it, or if the window
/// ends after the day of the last one.
pub fn warn_of_window<E: Write>(image: &Verified, asked: DepartureRange, errors: &mut E) {
    match departures_of(image) {
        Some(all) => warn_beyond(asked, all, errors),
        None => explain(errors, &["csa: warning: the image has no connections"]),
    }
}

/// When the image's first and last connection depart; `None` if it has no connections.
fn departures_of(image: &Verified) -> Option<DepartureRange> {
    let last = image.len().checked_sub(1)?;
    Some(DepartureRange {
        first: image.connection(0).dep,
        last: image.connection(last).dep,
    })
}

fn warn_beyond<E: Write>(asked: DepartureRange, all: DepartureRange, errors: &mut E) {
    if let Some(reason) = reason_of(asked, all) {
        let (after, until) = (Clock(asked.first), Clock(asked.last));
        let (first, last) = (Clock(all.first), Clock(all.last));
        let _ = write!(
            errors,
            "csa: warning: the window from {after} to {until} {reason} the image's connections, which depart from \
{first} to {last}\n"
        );
    }
}

/// The end of the day of a time.
fn end_of_day(time: u32) -> u32 {
    (time / DAY).saturating_add(1).saturating_mul(DAY)
}

/// Where the window that is asked for lies, if it is before or after all departures, or ends after the day of the last.
fn reason_of(asked: DepartureRange, all: DepartureRange) -> Option<&'static str> {
    if asked.last < all.first || all.last < asked.first {
        Some("is outside")
    } else if end_of_day(all.last) <= asked.last {
        Some("goes beyond the last day of")
    } else {
        None
    }
}
