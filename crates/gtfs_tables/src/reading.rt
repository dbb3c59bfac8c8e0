//! A function to read each of the eight files, with a hash whose key others may know.

ghost use Rattle.std.specs.Prelude.{◌≡◌, ◌≢◌, ◌≤◌, IfOk, IfErr, length, count_by};
ghost use Rattle.gtfs_rows.specs.Tables.{HoldsAgencies, HoldsCalendar, HoldsCalendarDates, HoldsFrequencies};
ghost use Rattle.gtfs_rows.specs.Tables.{HoldsStopTimes, HoldsStops, HoldsTransfers, HoldsTrips, IsRefusal};
ghost use Rattle.gtfs_rows.specs.Tables.{IsStopsFault, IsTripsFault, is_stop};
ghost use Rattle.gtfs_rows.specs.declared.fault.FaultKind.{FaultKind};
ghost use Rattle.gtfs_rows.specs.declared.fault.Table.{Table};
ghost use Rattle.gtfs_rows.specs.declared.limited.TheConstants.{MAX_STOPS, MAX_TRIPS};

use gtfs_rows::{
    AgencyRow, CalendarDateRow, CalendarRow, FrequencyRow, IdHash, MAX_STOPS, MAX_TRIPS, StopRow,
    StopTimes, TableFault, TableFile, TransferRow, TripRow, rows_up_to,
};
use std::alloc::Global;

/// Returns the agencies in the bytes of `agency.txt`, or the first fault of the file.
pub fn read_agency(alloc: Global, bytes: &[u8]) -> Result<Vec<AgencyRow>, TableFault>
    ensures ok { IfOk result (λ rows. HoldsAgencies bytes.now rows.items) }
    ensures err { IfErr result (IsRefusal Table.Agency bytes.now) }
{
    TableFile::read(alloc, IdHash::of_key(0), bytes)
}

/// Returns the stop times in the bytes of `stop_times.txt`, or the first fault of the file.
pub fn read_stop_times(alloc: Global, bytes: &[u8]) -> Result<StopTimes, TableFault>
    ensures ok { IfOk result (λ t. HoldsStopTimes bytes.now t) }
    ensures err { IfErr result (IsRefusal Table.StopTimes bytes.now) }
{
    TableFile::read(alloc, IdHash::of_key(0), bytes)
}

/// Returns the weekly services in the bytes of `calendar.txt`, or the first fault of the file.
pub fn read_calendar(alloc: Global, bytes: &[u8]) -> Result<Vec<CalendarRow>, TableFault>
    ensures ok { IfOk result (λ rows. HoldsCalendar bytes.now rows.items) }
    ensures err { IfErr result (IsRefusal Table.Calendar bytes.now) }
{
    TableFile::read(alloc, IdHash::of_key(0), bytes)
}

/// Returns the added and removed days in the bytes of `calendar_dates.txt`, or the first fault of the file.
pub fn read_calendar_dates(alloc: Global, bytes: &[u8]) -> Result<Vec<CalendarDateRow>, TableFault>
    ensures ok { IfOk result (λ rows. HoldsCalendarDates bytes.now rows.items) }
    ensures err { IfErr result (IsRefusal Table.CalendarDates bytes.now) }
{
    TableFile::read(alloc, IdHash::of_key(0), bytes)
}

/// Returns the rows in the bytes of `transfers.txt`, or the first fault of the file.
pub fn read_transfers(alloc: Global, bytes: &[u8]) -> Result<Vec<TransferRow>, TableFault>
    ensures ok { IfOk result (λ rows. HoldsTransfers bytes.now rows.items) }
    ensures err { IfErr result (IsRefusal Table.Transfers bytes.now) }
{
    TableFile::read(alloc, IdHash::of_key(0), bytes)
}

/// Returns the rows in the bytes of `frequencies.txt`, or the first fault of the file.
pub fn read_frequencies(alloc: Global, bytes: &[u8]) -> Result<Vec<FrequencyRow>, TableFault>
    ensures ok { IfOk result (λ rows. HoldsFrequencies bytes.now rows.items) }
    ensures err { IfErr result (IsRefusal Table.Frequencies bytes.now) }
{
    TableFile::read(alloc, IdHash::of_key(0), bytes)
}

/// Returns the stops and other places in the bytes of `stops.txt`, or the first fault of the file; `TooMany` if more
/// than [`MAX_STOPS`] are stops.
pub fn read_stops(alloc: Global, bytes: &[u8]) -> Result<Vec<StopRow>, TableFault>
    ensures ok { IfOk result (λ rows. HoldsStops bytes.now rows.items) }
    ensures few { IfOk result (λ rows. count_by is_stop rows.items ≤ MAX_STOPS) }
    ensures file { IfErr result (λ fault. fault.file ≡ Table.Stops) }
    ensures err { IfErr result (λ fault. fault.kind ≢ FaultKind.OutOfMemory
        → IsStopsFault MAX_STOPS bytes.now fault.row fault.kind) }
{
    rows_up_to(MAX_STOPS, alloc, IdHash::of_key(0), bytes)
}

/// Returns the trips in the bytes of `trips.txt`, or the first fault of the file; `TooMany` if there are more than
/// [`MAX_TRIPS`].
pub fn read_trips(alloc: Global, bytes: &[u8]) -> Result<Vec<TripRow>, TableFault>
    ensures ok { IfOk result (λ rows. HoldsTrips bytes.now rows.items) }
    ensures few { IfOk result (λ rows. length rows.items ≤ MAX_TRIPS) }
    ensures file { IfErr result (λ fault. fault.file ≡ Table.Trips) }
    ensures err { IfErr result (λ fault. fault.kind ≢ FaultKind.OutOfMemory
        → IsTripsFault MAX_TRIPS bytes.now fault.row fault.kind) }
{
    rows_up_to(MAX_TRIPS, alloc, IdHash::of_key(0), bytes)
}
