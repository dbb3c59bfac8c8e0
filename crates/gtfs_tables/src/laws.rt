//! Laws of spread times. The functions do nothing: their contracts are the laws.

ghost use Rattle.std.specs.Prelude.{◌≡◌, ◌<◌, ◌-◌, ℕ, List, length, IsSome, slice_index_or};
ghost use Rattle.gtfs_rows.specs.declared.rows.StopTimeRow.{StopTimeRow};
ghost use Rattle.gtfs_tables.specs.Spread.{IsSpread, arrival_at};
ghost use Rattle.gtfs_tables.specs.Times.{arrives_spread, departs_spread};

/// The times of rows can be spread in only one way, if the first and the last row have a time.
pub fn spread_times()
    ensures { (rows : List StopTimeRow) (times : List (ℕ × ℕ)) (k : ℕ) → IsSpread rows times
        → IsSome (arrival_at rows 0) → IsSome (arrival_at rows (length rows - 1)) → k < length rows
        → slice_index_or times k (0, 0) ≡ (arrives_spread rows k, departs_spread rows k) }
{}
