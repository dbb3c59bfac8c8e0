//! The starts of each trip by the rows of frequencies.txt that name it, listed when they are first asked for.

ghost use Rattle.std.specs.Prelude.{◌≡◌, ◌++◌, ◌∷◌, List, [], length, IfOk, OnOk};
ghost use Rattle.gtfs_tables.specs.declared.tables.Frequency.{Frequency as Row};
ghost use Rattle.connections.specs.Grouping.{AddsRow, AreGrouped, HasRows};
ghost use Rattle.connections.specs.Keeping.{AreStartsOf, HoldStarts, IsKept, listed_times};
ghost use Rattle.connections.specs.Repeats.{starts_of};

use crate::repeats::starts_given;
use gtfs_tables::Frequency;
use std::alloc::{AllocError, Global};

/// The starts of a trip, or the rows that give them, if the starts weren't asked for yet.
#[derive(Drop)]
pub(crate) enum TripStarts {
    Rows(Vec<Frequency>),
    /// The starts, rising, each once, in seconds after the start of the service day.
    Times(Vec<u32>),
}

impl TripStarts {
    // Adds a row, unless the starts are already listed. Memory may run out.
    fn add(&mut self, row: Frequency) -> Result<(), AllocError>
        ensures { (rows : List Row) → HasRows rows self.old → OnOk result (HasRows (rows ++ row ∷ []) self.new) }
    {
        if let TripStarts::Rows(rows) = self {
            rows.push(row)?;
        }
        Ok(())
    }

    // Lists the starts, if they aren't listed yet. Memory may run out.
    pub(crate) fn list(&mut self, alloc: Global) -> Result<(), AllocError>
        ensures kept { OnOk result (IsKept self.old self.new) }
        ensures listed { (rows : List Row) → AreStartsOf rows self.old
            → OnOk result (listed_times self.new ≡ starts_of rows) }
    {
        if let TripStarts::Rows(rows) = self {
            let times = starts_given(alloc, rows)?;
            *self = TripStarts::Times(times);
        }
        Ok(())
    }

    // Returns the starts, or none if they aren't listed yet.
    pub(crate) fn listed(&self) -> &[u32]
        ensures { result.now ≡ listed_times self.now }
    {
        match self {
            TripStarts::Rows(_) => &[],
            TripStarts::Times(times) => times,
        }
    }

    // Returns how many starts there are; they are listed if they weren't yet. Memory may run out.
    pub(crate) fn count(&mut self, alloc: Global) -> Result<usize, AllocError>
        ensures kept { OnOk result (IsKept self.old self.new) }
        ensures count { (rows : List Row) → AreStartsOf rows self.old
            → IfOk result (λ count. count ≡ length (starts_of rows)) }
    {
        self.list(alloc)?;
        Ok(self.listed().len())
    }
}

// Returns an empty list of rows for each of `trips` trips.
fn no_rows(alloc: Global, trips: usize) -> Result<Vec<TripStarts>, AllocError>
    ensures { IfOk result (λ groups. AreGrouped [] trips groups.items) }
{
    let mut groups = Vec::with_capacity(alloc, trips)?;
    for _ in 0..trips {
        groups.push(TripStarts::Rows(Vec::new(alloc)))?;
    }
    Ok(groups)
}

// Adds a row to those of its trip, if there is such a trip. Memory may run out.
fn add_row(groups: &mut Vec<TripStarts>, row: Frequency) -> Result<(), AllocError>
    ensures { OnOk result (AddsRow groups.old.items row groups.new.items) }
{
    let position = row.trip as usize;
    if position < groups.len() {
        return groups[position].add(row);
    }
    Ok(())
}

// Returns the starts of each of `trips` trips, by its rows of frequencies.txt. None are listed yet. Memory may run
// out.
pub(crate) fn starts_by_trip(
    alloc: Global,
    rows: &[Frequency],
    trips: usize,
) -> Result<Vec<TripStarts>, AllocError>
    ensures { IfOk result (λ starts. HoldStarts rows.now trips starts.items) }
{
    let mut groups = no_rows(alloc, trips)?;
    for row in rows {
        add_row(&mut groups, *row)?;
    }
    Ok(groups)
}
