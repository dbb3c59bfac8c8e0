//! Laws of listed connections. The functions do nothing: their contracts are the laws.

ghost use Rattle.std.specs.Prelude.{◌≡◌, ◌≤◌, ◌<◌, ◌+◌, ◌*◌, ◌↔◌, ℕ, ℤ, List, [], ◌∷◌, None, Contains, length};
ghost use Rattle.std.specs.Prelude.{slice_index_or, if◌then◌else◌, false};
ghost use Rattle.gtfs_rows.specs.declared.rows.StopTimeRow.{StopTimeRow};
ghost use Rattle.gtfs_rows.specs.declared.values.Day.{Day};
ghost use Rattle.gtfs_tables.specs.declared.tables.Feed.{Feed};
ghost use Rattle.gtfs_tables.specs.declared.tables.Frequency.{Frequency};
ghost use Rattle.gtfs_tables.specs.declared.tables.Trip.{Trip};
ghost use Rattle.service_days.specs.Zones.{IsDayStart};
ghost use Rattle.service_days.specs.declared.zone.Zone.{Zone};
ghost use Rattle.timetable.specs.Legal.{IsLegal};
ghost use Rattle.timetable.specs.TimetableValue.{TimetableValue};
ghost use Rattle.timetable.specs.declared.network.Connection.{Connection};
ghost use Rattle.connections.specs.Legal.{AreWithinLimits, HasLegalConnections};
ghost use Rattle.connections.specs.Listed.{IsRunStart};
ghost use Rattle.connections.specs.Outcome.{IsListing};
ghost use Rattle.connections.specs.Repeats.{starts_of};
ghost use Rattle.connections.specs.Runs.{run_as_it_stands, runs_at, runs_on};
ghost use Rattle.connections.specs.declared.runs.Run.{Run};

use crate::days::MAX_DAYS;

/// The greatest number of service days of a timetable.
pub fn limits()
    ensures { MAX_DAYS ≡ 14 }
{}

/// The starts of a trip are those of its rows, each once, in rising order. A row whose headway isn't 0 starts the
/// trip at its start time, and any whole number of headways later, before its end time.
pub fn starts_are_theirs()
    ensures only { (rows : List Frequency) (s : ℕ) → Contains (starts_of rows) s
        → (row : Frequency) × Contains rows row × (0 < row.headway) × (n : ℕ) × (s ≡ row.start + n * row.headway)
        × (s < row.end) }
    ensures each { (rows : List Frequency) (row : Frequency) (n : ℕ) → Contains rows row → 0 < row.headway
        → row.start + n * row.headway < row.end
        → Contains (starts_of rows) (row.start + n * row.headway) }
    ensures rising { (rows : List Frequency) (i j d : ℕ) → i < j → j < length (starts_of rows)
        → slice_index_or (starts_of rows) i d < slice_index_or (starts_of rows) j d }
{}

/// A trip that doesn't repeat runs once on each day on which it runs, at the times of its stop times, which count
/// from the day's start.
pub fn without_frequencies()
    ensures once { (feed : Feed) (day : Day) (t : ℕ) (trip : Trip) → trip.repeats ≡ false
        → runs_at feed day t trip ≡ (if runs_on feed day trip then run_as_it_stands day t ∷ [] else []) }
    ensures stands { (zone : Zone) (run : Run) (rows : List StopTimeRow) (start : ℤ) → run.start ≡ None
        → IsDayStart zone run.day start ↔ IsRunStart zone run rows start }
{}

/// A feed has only one list of runs and one list of connections for given days.
pub fn one_listing()
    ensures { (feed : Feed) (zone : Zone) (first : Day) (days : ℕ) (connections others : List Connection)
        (runs rest : List Run) → 1 ≤ days
        → IsListing feed zone first days connections runs
        → IsListing feed zone first days others rest → (connections ≡ others) × (runs ≡ rest) }
{}

/// A legal timetable may have the connections of a feed, with the feed's stops as its stops and the runs as its
/// trips.
pub fn listing_is_legal()
    ensures { (feed : Feed) (zone : Zone) (first : Day) (days : ℕ) (connections : List Connection) (runs : List Run)
        → 1 ≤ days
        → IsListing feed zone first days connections runs
        → HasLegalConnections (length feed.stops.items) (length runs) connections }
{}

/// The runs and the connections of a feed are within the limits of an image.
pub fn listing_is_within_limits()
    ensures { (feed : Feed) (zone : Zone) (first : Day) (days : ℕ) (connections : List Connection) (runs : List Run)
        → 1 ≤ days
        → IsListing feed zone first days connections runs
        → AreWithinLimits (length runs) connections }
{}

/// `HasLegalConnections` is what a legal timetable requires of its connections: each legal timetable has such
/// connections, and stays legal if others of this kind take their place.
pub fn legal_connections()
    ensures has { (t : TimetableValue) → IsLegal t → HasLegalConnections t.stops t.trips t.connections }
    ensures takes { (t : TimetableValue) (trips : ℕ) (connections : List Connection) → IsLegal t
        → HasLegalConnections t.stops trips connections
        → IsLegal (record t { trips = trips; connections = connections }) }
{}
