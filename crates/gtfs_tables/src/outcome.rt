//! Laws of what joining tables can return. The functions do nothing: their contracts are the laws.

ghost use Rattle.std.specs.Prelude.{◌≡◌, ℕ, List, Option, Bool, None, Some, length};
ghost use Rattle.gtfs_rows.specs.declared.fault.TableFault.{TableFault as Fault};
ghost use Rattle.gtfs_rows.specs.declared.rows.StopTimeRow.{StopTimeRow};
ghost use Rattle.std.specs.List.{slice_get};
ghost use Rattle.gtfs_tables.specs.Feeds.{IsFirstFault, IsJoined, naming_fault, stops_by, trip_fault, trips_by};
ghost use Rattle.gtfs_tables.specs.First.{all_below, first_below};
ghost use Rattle.gtfs_tables.specs.Names.{stop_named, trip_named};
ghost use Rattle.gtfs_tables.specs.Order.{IsInOrder};
ghost use Rattle.gtfs_tables.specs.Outcome.{IsSameFeed};
ghost use Rattle.gtfs_tables.specs.TimeFaults.{AreTimeFaults};
ghost use Rattle.gtfs_tables.specs.declared.order.SortKey.{SortKey};
ghost use Rattle.gtfs_tables.specs.declared.tables.Feed.{Feed};
ghost use Rattle.gtfs_tables.specs.declared.tables.Tables.{Tables};

/// The rows of stop times have only one order.
pub fn one_order()
    ensures { (trips : List (Option ℕ)) (rows : List StopTimeRow) (a b : List SortKey) → IsInOrder trips rows a
        → IsInOrder trips rows b → a ≡ b }
{}

/// Tables have at most one first fault.
pub fn one_fault()
    ensures { (strict : Bool) (t : Tables) (a b : Fault) → IsFirstFault strict t a → IsFirstFault strict t b → a ≡ b }
{}

/// The first of all faults in the times of trips is that of the first trip that has one.
#[tactic(auto, using(crate::proofs::FirstLemmas::first_of_all))]
pub fn first_of_time_faults()
    ensures { (strict : Bool) (sort_keys : List SortKey) (rows : List StopTimeRow) (count : ℕ)
        → slice_get (all_below (trip_fault strict sort_keys rows) count) 0
        ≡ first_below (trip_fault strict sort_keys rows) count }
{}

/// Tables whose ids have no fault are refused for the first of all faults in the times of trips, if there is one.
pub fn refused_for_first_time_fault()
    ensures { (strict : Bool) (t : Tables) (faults : List Fault) (fault : Fault)
        → naming_fault (stop_named t.stops.items) (trip_named t.trips.items) t ≡ None
        → AreTimeFaults (trips_by (trip_named t.trips.items) t) (stops_by (stop_named t.stops.items) t)
        t.stop_times.rows.items (length t.trips.items) strict faults
        → slice_get faults 0 ≡ Some fault → IsFirstFault strict t fault }
{}

/// Tables that can be joined have no fault.
pub fn joined_without_fault()
    ensures { (strict : Bool) (t : Tables) (feed : Feed) (fault : Fault) → IsJoined strict t feed
        → ¬ (IsFirstFault strict t fault) }
{}

/// Tables have at most one feed.
pub fn one_feed()
    ensures { (strict : Bool) (t : Tables) (a b : Feed) → IsJoined strict t a → IsJoined strict t b → IsSameFeed a b }
{}
