//! The tables of a feed as they are read, and the feed that they are joined to.

ghost use Rattle.std.specs.Prelude.{length};
ghost use Rattle.gtfs_tables.specs.Joined.{AreRunnable, NameStopsBelow};
ghost use Rattle.gtfs_tables.specs.JoinedProp.{AreRunnable-prop, NameStopsBelow-prop};

use gtfs_rows::{
    AgencyRow, CalendarDateRow, CalendarRow, FrequencyRow, IdHash, StopRow, StopTimeRow, StopTimes,
    TransferKind, TransferRow, TripRow,
};

/// The rows of all files of a feed.
#[derive(Drop)]
pub struct Tables {
    pub agencies: Vec<AgencyRow>,
    pub stops: Vec<StopRow>,
    pub trips: Vec<TripRow>,
    pub stop_times: StopTimes,
    pub calendar: Vec<CalendarRow>,
    pub calendar_dates: Vec<CalendarDateRow>,
    pub transfers: Vec<TransferRow>,
    pub frequencies: Vec<FrequencyRow>,
}

/// A stop or platform (location_type 0).
#[derive(Debug, Drop)]
pub struct Stop {
    pub id: String,
    /// The index of its station's row in `stops.txt`.
    pub station: Option<u32>,
}

/// A trip of `trips.txt`.
#[derive(Debug, Drop)]
pub struct Trip {
    pub id: String,
    pub service: String,
    /// The index of its first row in the feed's stop times.
    pub first: usize,
    /// The index after its last row.
    pub end: usize,
    /// Whether `frequencies.txt` names it.
    pub repeats: bool,
    /// Whether any of its rows has a blank stop_id.
    pub flex: bool,
}

/// An end of a transfer.
#[derive(Clone, Copy, Debug, PartialEq, Eq)]
pub enum TransferEnd {
    /// A stop, by its number.
    Stop(u32),
    /// A station, by the index of its row in `stops.txt`.
    Station(u32),
}

/// A transfer between two ends; a station stands for all its stops.
#[derive(Clone, Copy, Debug)]
pub struct Transfer {
    pub from: TransferEnd,
    pub to: TransferEnd,
    pub kind: TransferKind,
    /// The min_transfer_time in seconds, if it is a number.
    pub seconds: Option<u32>,
}

/// A row of `frequencies.txt`: the trip starts at the start time, and again after each headway, before the end time.
#[derive(Clone, Copy, Debug, PartialEq, Eq)]
pub struct Frequency {
    /// The index of the trip in the feed's trips.
    pub trip: u32,
    /// Seconds after the start of the service day.
    pub start: u32,
    /// Seconds after the start of the service day.
    pub end: u32,
    /// Seconds from one start to the next.
    pub headway: u32,
}

/// The tables of a feed, each id replaced by what it names.
#[derive(Drop)]
pub struct Feed {
    /// The stops and platforms in the order of `stops.txt`. A stop's number is its index here.
    pub stops: Vec<Stop>,
    /// The trips in the order of `trips.txt`.
    pub trips: Vec<Trip>,
    /// All rows of `stop_times.txt`, by trip, then by rising stop_sequence, then by record. A row's trip is an index of
    /// `trips`; its stop is the stop's number, or None if the trip is a flex trip.
    pub stop_times: Vec<StopTimeRow>,
    /// The rows of `frequencies.txt`, in order.
    pub frequencies: Vec<Frequency>,
    /// The transfers that aren't skipped, in the order of `transfers.txt`.
    pub transfers: Vec<Transfer>,
    /// How many rows of `transfers.txt` were skipped.
    pub skipped: usize,
    pub calendar: Vec<CalendarRow>,
    pub calendar_dates: Vec<CalendarDateRow>,
    /// The hash by which ids are looked up. No result depends on it.
    pub hash: IdHash,
    // each trip's rows are among the stop times; if it makes connections, the first and the last have a time and all
    // have stops
    pub ghost runnable: { AreRunnable (length stops.items) stop_times.items trips.items } by { AreRunnable-prop (length stops.items) stop_times.items trips.items },
    // the stops that transfers name are stops of the feed
    pub ghost named: { NameStopsBelow (length stops.items) transfers.items } by { NameStopsBelow-prop (length stops.items) transfers.items },
}
