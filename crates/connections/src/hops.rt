//! The connections of one run: one from each row to the next, with times in seconds after the base.

ghost use Rattle.std.specs.Prelude.{◌≡◌, ◌≤◌, ◌<◌, ◌+◌, ◌-◌, ◌^◌, pos, ◌+ℤ◌, ◌≤ℤ◌, length, OnOk, MatchOption};
ghost use Rattle.std.specs.Prelude.{MatchBool, All, IsSome};
ghost use Rattle.connections.specs.Hops.{AddsHops, HaveClocks, IsClock, IsHop, IsInside, IsOutside, LackClocks};
ghost use Rattle.connections.specs.Hops.{LiesOutside, zero_of};
ghost use Rattle.connections.specs.Times.{AreTimesBefore};

use crate::times::RowTimes;
use gtfs_tables::StopTimeRow;
use std::alloc::AllocError;
use timetable::Connection;
use timetable::limits::TIME_END;

// Converts seconds after the start of a day to seconds after the base. Both instants are in seconds after
// 1970-01-01T00:00:00Z.
#[derive(Clone, Copy, Debug)]
pub(crate) struct DayClock {
    pub base: i64,
    pub start: i64,
}

// Converts the times of a run's rows to seconds after the base. A repeat departs from its first stop `start` seconds
// after the day's start, instead of at `own`, its first row's departure; any other run keeps the times of its rows.
#[derive(Clone, Copy, Debug)]
pub(crate) struct RunClock {
    pub day: DayClock,
    pub start: Option<u32>,
    pub own: u64,
}

impl RunClock {
    // Returns the instant from which the times of the rows count, in seconds after 1970-01-01T00:00:00Z.
    fn zero(&self) -> i128
        ensures is { result ≡ zero_of self.now }
        ensures range { (pos 0 ≤ℤ (result +ℤ pos (2 ^ 66))) × (result ≤ℤ pos (2 ^ 66)) }
    {
        let day = self.day.start as i128;
        match self.start {
            None => day,
            Some(start) => day + start as i128 - self.own as i128,
        }
    }

    // Returns a time of the rows in seconds after the base; none if it is before the base, or at `TIME_END` or later.
    fn at(&self, time: u64) -> Option<u32>
        ensures { MatchOption result (IsOutside self.now.day.base (zero_of self.now) time)
            (IsClock self.now.day.base (zero_of self.now) time) }
    {
        let after = self.zero() + time as i128 - self.day.base as i128;
        if after < 0 {
            return None;
        }
        if after >= TIME_END as i128 {
            return None;
        }
        Some(after as u32)
    }

    // Returns whether the times of the row at a position are no earlier than the base and before `TIME_END`. The
    // arrival at a repeat's first row doesn't count.
    fn is_inside(&self, position: usize, times: RowTimes) -> bool
        ensures { MatchBool result (IsInside self.now.day.base (zero_of self.now) self.now.start position times)
            (LiesOutside self.now.day.base (zero_of self.now) self.now.start position times) }
    {
        let counts = position > 0 || self.start.is_none();
        if counts && self.at(times.arrival).is_none() {
            return false;
        }
        self.at(times.departure).is_some()
    }
}

// Returns whether all times that count are no earlier than the base and before `TIME_END`.
pub(crate) fn are_inside(clock: RunClock, times: &[RowTimes]) -> bool
    ensures { MatchBool result (HaveClocks clock.day.base (zero_of clock) clock.start times.now)
        (LackClocks clock.day.base (zero_of clock) clock.start times.now) }
{
    for (position, row) in times.iter().enumerate() {
        if !clock.is_inside(position, *row) {
            return false;
        }
    }
    true
}

// Returns the connection from the row at a position of a run to the next.
fn connection(
    clock: RunClock,
    rows: &[StopTimeRow],
    times: &[RowTimes],
    position: usize,
    run: u32,
) -> Connection
    requires position { position + 1 < length rows.now }
    requires same_length { length times.now ≡ length rows.now }
    requires times_are { AreTimesBefore rows.now times.now (length rows.now) }
    requires inside { HaveClocks clock.day.base (zero_of clock) clock.start times.now }
    requires stops { All (λ row. IsSome row.stop) rows.now }
    ensures { IsHop clock.day.base (zero_of clock) rows.now run position result }
{
    let row = rows[position];
    let next = rows[position + 1];
    let Some(from) = row.stop else {
        unreachable!();
    };
    let Some(to) = next.stop else {
        unreachable!();
    };
    let leaves = times[position];
    let Some(dep) = clock.at(leaves.departure) else {
        unreachable!();
    };
    let reaches = times[position + 1];
    let Some(arr) = clock.at(reaches.arrival) else {
        unreachable!();
    };
    Connection {
        from,
        to,
        dep,
        arr,
        trip: run,
        board: row.board,
        alight: next.alight,
    }
}

// Adds the connections of a run whose times are in range. Memory may run out.
pub(crate) fn add_hops(
    connections: &mut Vec<Connection>,
    clock: RunClock,
    rows: &[StopTimeRow],
    times: &[RowTimes],
    run: u32,
) -> Result<(), AllocError>
    requires some { 0 < length rows.now }
    requires same_length { length times.now ≡ length rows.now }
    requires times_are { AreTimesBefore rows.now times.now (length rows.now) }
    requires inside { HaveClocks clock.day.base (zero_of clock) clock.start times.now }
    requires stops { All (λ row. IsSome row.stop) rows.now }
    ensures { OnOk result (AddsHops clock.day.base (zero_of clock) rows.now run (length rows.now - 1)
        connections.old.items connections.new.items) }
{
    for position in 0..rows.len() - 1 {
        let hop = connection(clock, rows, times, position, run);
        connections.push(hop)?;
    }
    Ok(())
}
