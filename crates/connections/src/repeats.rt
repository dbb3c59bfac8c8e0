//! The starts of the trips that repeat: each second at which a row of frequencies.txt starts its trip.

ghost use Rattle.std.specs.Prelude.{◌≡◌, ◌<◌, IfOk, IfSome, MatchOption};
ghost use Rattle.connections.specs.Repeats.{is_start, leaves_at, starts_of};
ghost use Rattle.connections.specs.Starts.{IsNever, IsNext, earlier_of};

use crate::marks::{are_many, marked_starts};
use gtfs_tables::Frequency;
use std::alloc::{AllocError, Global};

// Returns the first start at or after a time that a row gives, if there is one.
pub(crate) fn next_of_row(row: Frequency, from: u32) -> Option<u32>
    ensures next { MatchOption result (IsNever (λ s. leaves_at s row) from) (IsNext (λ s. leaves_at s row) from) }
    ensures room { IfSome result (λ start. start < u32.MAX) }
{
    if row.headway == 0 {
        return None;
    }
    let past = from.saturating_sub(row.start) % row.headway;
    let wait = if past == 0 { 0 } else { row.headway - past };
    let start = from.max(row.start).checked_add(wait)?;
    if start < row.end { Some(start) } else { None }
}

// Returns the first start at or after a time that one of the rows gives, if there is one.
fn next_start(rows: &[Frequency], from: u32) -> Option<u32>
    ensures next { MatchOption result (IsNever (is_start rows.now) from) (IsNext (is_start rows.now) from) }
    ensures room { IfSome result (λ start. start < u32.MAX) }
{
    let mut next: Option<u32> = None;
    for row in rows {
        next = earlier(next, next_of_row(*row, from));
    }
    next
}

// Returns the earlier of two times, or the only one if one is missing.
fn earlier(one: Option<u32>, other: Option<u32>) -> Option<u32>
    ensures { result ≡ earlier_of one other }
{
    match (one, other) {
        (Some(one), Some(other)) => Some(one.min(other)),
        (Some(one), None) => Some(one),
        (None, other) => other,
    }
}

// Returns the starts that the rows give, rising, each once, found one after the other. Memory may run out.
fn starts_in_turn(alloc: Global, rows: &[Frequency]) -> Result<Vec<u32>, AllocError>
    ensures { IfOk result (λ starts. starts.items ≡ starts_of rows.now) }
{
    let mut starts = Vec::new(alloc);
    let mut from = 0;
    while let Some(start) = next_start(rows, from) {
        starts.push(start)?;
        from = start + 1;
    }
    Ok(starts)
}

// Returns the starts that the rows give, rising, each once. Memory may run out.
pub(crate) fn starts_given(alloc: Global, rows: &[Frequency]) -> Result<Vec<u32>, AllocError>
    ensures { IfOk result (λ starts. starts.items ≡ starts_of rows.now) }
{
    if are_many(rows) {
        return marked_starts(alloc, rows);
    }
    starts_in_turn(alloc, rows)
}
