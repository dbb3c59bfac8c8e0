//! Drops transfers that say nothing that counts beside others between the same two ends.

ghost use Rattle.std.specs.Prelude.{◌≡◌, true, IfOk, OnOk};
ghost use Rattle.transfers.specs.Claims.{CountsBefore};
ghost use Rattle.transfers.specs.Counting.{KeepsWhatCounts, CountsInstead, KeepsOrCovers, Covers};

use crate::claims::{Verdict, verdict_of};
use gtfs_tables::{Transfer, TransferEnd};
use std::alloc::{AllocError, Global};

// An end of a transfer, as a type with an order.
#[derive(Clone, Copy, Debug, PartialEq, Eq, PartialOrd, Ord)]
enum EndKey {
    Stop(u32),
    Station(u32),
}

// The sort key of a transfer: its ends, and what it says about two different stops and about a stop's loop. In this
// order transfers between the same two ends follow each other, and those that count come first.
#[derive(Clone, Copy, Debug, PartialEq, Eq, PartialOrd, Ord)]
struct RowKey {
    to: EndKey,
    from: EndKey,
    apart: Option<Verdict>,
    at_one: Option<Verdict>,
}

fn end_of(transfer_end: &TransferEnd) -> EndKey {
    match transfer_end {
        TransferEnd::Stop(stop) => EndKey::Stop(*stop),
        TransferEnd::Station(station) => EndKey::Station(*station),
    }
}

fn row_key(row: &Transfer) -> RowKey {
    RowKey {
        to: end_of(&row.to),
        from: end_of(&row.from),
        apart: verdict_of(row, false),
        at_one: verdict_of(row, true),
    }
}

// Returns whether the first verdict counts before the other, or is the same.
fn counts_before(verdict: Verdict, other: Verdict) -> bool
    ensures { result ≡ true → CountsBefore verdict other }
{
    match (verdict, other) {
        (Verdict::Never, _) => true,
        (Verdict::Takes(_), Verdict::Never) => false,
        (Verdict::Takes(secs), Verdict::Takes(other)) => secs <= other,
    }
}

// Returns whether the other says nothing, or something after which `claimed` counts first, or the same.
fn counts_instead(claimed: Option<Verdict>, other: Option<Verdict>) -> bool
    ensures { result ≡ true → CountsInstead claimed other }
{
    match (claimed, other) {
        (_, None) => true,
        (None, Some(_)) => false,
        (Some(verdict), Some(other)) => counts_before(verdict, other),
    }
}

// Returns whether the first transfer has the ends of the other and says all that counts of what the other says.
fn covers(before: &Transfer, row: &Transfer) -> bool
    ensures { result ≡ true → Covers before.now row.now }
{
    before.from == row.from
        && before.to == row.to
        && counts_instead(verdict_of(before, false), verdict_of(row, false))
        && counts_instead(verdict_of(before, true), verdict_of(row, true))
}

// Adds a transfer, unless the last one kept says all that counts of what it says.
fn keep(kept: &mut Vec<Transfer>, row: &Transfer) -> Result<(), AllocError>
    ensures { OnOk result (KeepsOrCovers kept.old.items kept.new.items row.now) }
{
    if let Some(last) = kept.last() {
        if covers(last, row) {
            return Ok(());
        }
    }
    kept.push(*row)?;
    Ok(())
}

/// Returns the transfers without those that say nothing that counts beside others between the same two ends; at most
/// four of these are left. Memory may run out.
pub(crate) fn rows_that_count(alloc: Global, rows: &[Transfer]) -> Result<Vec<Transfer>, AllocError>
    ensures { IfOk result (λ kept. KeepsWhatCounts rows.now kept.items) }
{
    let mut sorted = Vec::with_capacity(alloc, rows.len())?;
    sorted.extend_from_slice(rows)?;
    sorted.sort_by_key(|row| row_key(row))?;
    counting_rows(alloc, &sorted)
}

// Returns the transfers of a list without those of which the last one kept says all that counts.
fn counting_rows(alloc: Global, rows: &[Transfer]) -> Result<Vec<Transfer>, AllocError>
    ensures { IfOk result (λ kept. KeepsWhatCounts rows.now kept.items) }
{
    let mut kept = Vec::new(alloc);
    for row in rows {
        keep(&mut kept, row)?;
    }
    Ok(kept)
}
