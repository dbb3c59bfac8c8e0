//! Whether the clocks of a server's image and those of the feeds that it will load count from the same instant.

use feed_loader::Plan;
use image_verifier::Verified;
use jiff::Timestamp;
use service_days::day_start;
use std::alloc::{AllocError, Global};
use std::io::Write;

/// Warns if the same clock will mean another instant once a feed is loaded. A warning that can't be written changes
/// nothing.
pub fn warn_of_bases<E: Write>(alloc: Global, image: &Verified, plan: &Plan, errors: &mut E) {
    let Ok(loaded) = day_start(&plan.zone, plan.first_day) else {
        return;
    };
    let base = image.base();
    if loaded == base {
        return;
    }
    if let Ok(line) = warning_of(alloc, base, loaded) {
        let _ = errors.write_all(line.as_bytes());
    }
}

fn warning_of(alloc: Global, base: i64, loaded: i64) -> Result<String, AllocError> {
    let base = shown(alloc, base)?;
    let loaded = shown(alloc, loaded)?;
    format!(in alloc;
        "csa: warning: the image's clocks count from {base}, those of a feed that is loaded from {loaded}\n"
    )
}

/// An instant: in seconds after 1970-01-01T00:00:00Z and, if it has such a spelling, as RFC 3339 spells it in UTC.
fn shown(alloc: Global, instant: i64) -> Result<String, AllocError> {
    match Timestamp::from_second(instant) {
        Ok(timestamp) => format!(in alloc; "{instant} ({timestamp})"),
        Err(_) => format!(in alloc; "{instant}"),
    }
}
