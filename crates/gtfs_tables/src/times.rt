//! What can be wrong with the times of a trip: a stop_sequence that occurs twice, an end without a time, times that
//! go back, a hop without duration.

ghost use Rattle.std.specs.Prelude.{◌≡◌, ◌<◌, ◌≤◌, ◌-◌, ◌+◌, ℕ, length, IfOk, None, Some, nat_lt, slice_index_or};
ghost use Rattle.gtfs_tables.specs.First.{first_index};
ghost use Rattle.gtfs_tables.specs.Spread.{arrival_at, departure_at};
ghost use Rattle.gtfs_tables.specs.Times.{departed_before, end_without_time as end_untimed};
ghost use Rattle.gtfs_tables.specs.Times.{first_wrong as wrong_first, goes_back, has_no_duration, is_back as back};
ghost use Rattle.gtfs_tables.specs.Times.{is_flex as flex_of, is_short, is_twice, wrong_at};
ghost use Rattle.gtfs_tables.specs.Times.{wrong_given as given_wrong, wrong_times};

use crate::spreading::{arrival, departure, spread};
use gtfs_rows::{FaultKind, StopTimeRow};
use std::alloc::{AllocError, Global};

// Returns the index of the row with the first fault of a trip, and what is wrong there. Memory may run out.
pub(crate) fn first_wrong(
    alloc: Global,
    rows: &[StopTimeRow],
    strict: bool,
) -> Result<Option<(usize, FaultKind)>, AllocError>
    ensures { IfOk result (λ wrong. wrong ≡ wrong_first strict rows.now) }
{
    if rows.len() < 2 || is_flex(rows) {
        return Ok(None);
    }
    if let Some(wrong) = wrong_given(rows) {
        return Ok(Some(wrong));
    }
    if !strict {
        return Ok(None);
    }
    wrong_spread(alloc, rows)
}

// Returns whether any row has no stop.
pub(crate) fn is_flex(rows: &[StopTimeRow]) -> bool
    ensures { result ≡ flex_of rows.now }
{
    rows.iter().any(|row| row.stop.is_none())
}

// Returns the first fault of the sequences and of the times as they are given.
fn wrong_given(rows: &[StopTimeRow]) -> Option<(usize, FaultKind)>
    requires { 0 < length rows.now }
    ensures { result ≡ given_wrong rows.now }
{
    if let Some(at) = sequence_twice(rows) {
        return Some((at, FaultKind::SequenceTwice));
    }
    if let Some(at) = end_without_time(rows) {
        return Some((at, FaultKind::EndWithoutTime));
    }
    if let Some(at) = time_back(rows) {
        return Some((at, FaultKind::TimeGoesBack));
    }
    None
}

// Returns the first row that doesn't arrive after the departure before it, once the times are spread.
fn wrong_spread(
    alloc: Global,
    rows: &[StopTimeRow],
) -> Result<Option<(usize, FaultKind)>, AllocError>
    requires some { 0 < length rows.now }
    requires fine { given_wrong rows.now ≡ None }
    ensures { IfOk result (λ wrong. wrong ≡ wrong_at FaultKind.HopWithoutDuration
        (first_index (has_no_duration rows.now) (length rows.now))) }
{
    let times = spread(alloc, rows)?;
    match no_duration(&times) {
        Some(at) => Ok(Some((at, FaultKind::HopWithoutDuration))),
        None => Ok(None),
    }
}

// Returns the first row with the sequence of the row before.
#[tactic(auto, using(crate::proofs::FirstLemmas::searches))]
fn sequence_twice(rows: &[StopTimeRow]) -> Option<usize>
    ensures { result ≡ first_index (is_twice rows.now) (length rows.now) }
{
    for at in 0..rows.len() {
        if is_repeated(rows, at) {
            return Some(at);
        }
    }
    None
}

// Returns whether a row has the sequence of the row before.
fn is_repeated(rows: &[StopTimeRow], at: usize) -> bool
    requires { at < length rows.now }
    ensures { result ≡ is_twice rows.now at }
{
    at > 0 && rows[at].sequence == rows[at - 1].sequence
}

// Returns the first row, or else the last, if it has no time.
fn end_without_time(rows: &[StopTimeRow]) -> Option<usize>
    requires { 0 < length rows.now }
    ensures { result ≡ end_untimed rows.now }
{
    let last = rows.len() - 1;
    if arrival(rows, 0).is_none() {
        Some(0)
    } else if arrival(rows, last).is_none() {
        Some(last)
    } else {
        None
    }
}

// Returns the first row whose arrival is after its departure, or before the last departure given in earlier rows.
#[tactic(auto, using(crate::proofs::FirstLemmas::searches))]
fn time_back(rows: &[StopTimeRow]) -> Option<usize>
    ensures { result ≡ first_index (goes_back rows.now) (length rows.now) }
{
    let mut left = 0;
    for at in 0..rows.len() {
        let arrives = arrival(rows, at);
        let departs = departure(rows, at);
        if is_back(left, arrives, departs) {
            return Some(at);
        }
        left = departs.unwrap_or(left);
    }
    None
}

// Returns whether a row arrives before the last departure in earlier rows (`left`), or after its own departure.
fn is_back(left: u32, arrives: Option<u32>, departs: Option<u32>) -> bool
    ensures { result ≡ back left arrives departs }
{
    match (arrives, departs) {
        (Some(arrives), Some(departs)) => arrives < left || departs < arrives,
        _ => false,
    }
}

// Returns the first row that doesn't arrive after the departure before it.
#[tactic(auto, using(crate::proofs::FirstLemmas::searches))]
fn no_duration(times: &[(u32, u32)]) -> Option<usize>
    ensures { result ≡ first_index (is_short times.now) (length times.now) }
{
    for at in 0..times.len() {
        if is_hop(times, at) {
            return Some(at);
        }
    }
    None
}

// Returns whether a row doesn't arrive after the departure before it.
fn is_hop(times: &[(u32, u32)], at: usize) -> bool
    requires { at < length times.now }
    ensures { result ≡ is_short times.now at }
{
    at > 0 && times[at].0 <= times[at - 1].1
}
