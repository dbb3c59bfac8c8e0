//! The starts of a trip with many rows, marked second by second, so that rows that overlap cost no more than the
//! starts that they give.

ghost use Rattle.std.specs.Prelude.{◌≡◌, ◌≤◌, ◌<◌, ◌||◌, ◌⊎◌, ℕ, Bool, true, length, All, IfOk, IsPermutation};
ghost use Rattle.connections.specs.Marks.{AreMarks, Covers};
ghost use Rattle.connections.specs.Repeats.{is_start, last_end, leaves_at, starts_of};

use crate::repeats::next_of_row;
use gtfs_tables::Frequency;
use std::alloc::{AllocError, Global};

// The greatest number of seconds that are marked. The times of a feed are below 360,000.
const MAX_SECONDS: u32 = 400_000;

// Returns the greatest end time of the rows, in seconds after the start of the service day.
fn end_of(rows: &[Frequency]) -> u32
    ensures { result ≡ last_end rows.now }
{
    let mut end = 0;
    for row in rows {
        end = row.end.max(end);
    }
    end
}

// Returns an upper bound of the number of starts that a row gives.
fn starts_at_most(row: Frequency) -> u64 {
    let seconds = row.end.saturating_sub(row.start);
    let headway = row.headway.max(1);
    (seconds / headway) as u64 + 1
}

// Returns whether it is faster to mark the starts among all seconds than to search all rows for each start.
pub(crate) fn are_many(rows: &[Frequency]) -> bool {
    if rows.len() < 5 {
        return false;
    }
    let mut starts = 0u64;
    for row in rows {
        starts = starts.saturating_add(starts_at_most(*row));
    }
    let seconds = end_of(rows);
    seconds <= MAX_SECONDS && starts.saturating_mul(rows.len() as u64) > seconds as u64
}

// Returns a sort key: headway and remainder, which rows with common starts share, then the start time.
fn class_of(row: &Frequency) -> (u32, u32, u32) {
    let headway = row.headway.max(1);
    (row.headway, row.start % headway, row.start)
}

// Returns the rows sorted by headway, remainder and start time.
fn by_class(alloc: Global, rows: &[Frequency]) -> Result<Vec<Frequency>, AllocError>
    ensures { IfOk result (λ sorted. IsPermutation rows.now sorted.items) }
{
    let mut sorted = rows.to_vec(alloc)?;
    sorted.sort_unstable_by_key(|row| class_of(row));
    Ok(sorted)
}

// Returns true only if each start of `row` before the end time of `other` is also a start of `other`.
fn covers(other: Frequency, row: Frequency) -> bool
    ensures { result ≡ true → Covers other row }
{
    if other.headway == 0 || other.start > row.start {
        return false;
    }
    if other.headway != row.headway {
        return false;
    }
    (row.start - other.start) % row.headway == 0
}

// Marks the starts of a row at or after a time.
fn mark_row(marks: &mut Vec<bool>, row: Frequency, from: u32)
    requires { row.end ≤ length marks.old.items }
    ensures len { length marks.new.items ≡ length marks.old.items }
    ensures marks { (test : ℕ → Bool) → AreMarks test marks.old.items
        → ((s : ℕ) → s < from → leaves_at s row ≡ true → test s ≡ true)
        → AreMarks (λ s. test s || leaves_at s row) marks.new.items }
{
    let Some(first) = next_of_row(row, from) else {
        return;
    };
    let mut next = first;
    while next < row.end {
        marks[next as usize] = true;
        next = next.saturating_add(row.headway);
    }
}

// Returns for each second before `end` whether one of the rows gives a start then.
fn marks_of(alloc: Global, rows: &[Frequency], end: u32) -> Result<Vec<bool>, AllocError>
    requires { All (λ row. row.end ≤ end) rows.now }
    ensures len { IfOk result (λ marks. length marks.items ≡ end) }
    ensures marks { IfOk result (λ marks. AreMarks (is_start rows.now) marks.items) }
{
    let mut marks = vec![in alloc; false; end as usize]?;
    let mut last = Frequency {
        trip: 0,
        start: 0,
        end: 0,
        headway: 0,
    };
    for row in rows {
        if covers(last, *row) {
            mark_row(&mut marks, *row, last.end);
            last = later(last, *row);
        } else {
            mark_row(&mut marks, *row, 0);
            last = *row;
        }
    }
    Ok(marks)
}

// Returns the row of two that ends later.
fn later(one: Frequency, other: Frequency) -> Frequency
    ensures { (result ≡ one) ⊎ (result ≡ other) }
{
    if other.end > one.end { other } else { one }
}

// Returns the starts that the rows give, rising, each once. Memory may run out.
pub(crate) fn marked_starts(alloc: Global, rows: &[Frequency]) -> Result<Vec<u32>, AllocError>
    ensures { IfOk result (λ starts. starts.items ≡ starts_of rows.now) }
{
    let end = end_of(rows);
    let sorted = by_class(alloc, rows)?;
    let marks = marks_of(alloc, &sorted, end)?;
    let mut starts = Vec::new(alloc);
    for second in 0..end {
        if marks[second as usize] {
            starts.push(second)?;
        }
    }
    Ok(starts)
}
