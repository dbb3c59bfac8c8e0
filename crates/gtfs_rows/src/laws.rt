//! Laws of the rows, each a function without code whose contract is the law.

ghost use Rattle.std.specs.Prelude.{◌≡◌, ℕ, List, Some};
ghost use Rattle.gtfs_rows.specs.declared.fault.Table.{Table as File};
ghost use Rattle.gtfs_rows.specs.Cells.{ColumnIndices};
ghost use Rattle.gtfs_rows.specs.Source.{Record};
ghost use Rattle.gtfs_rows.specs.Tables.{HoldsRows, IsFaultOf, HoldsStopTimes, key_of, value, key_text};
ghost use Rattle.gtfs_rows.specs.Values.{day_of};
ghost use Rattle.gtfs_rows.specs.declared.fault.FaultKind.{FaultKind as Kind};
ghost use Rattle.gtfs_rows.specs.declared.fault.Table.TheVariants as files;
ghost use Rattle.gtfs_rows.specs.declared.values.Day.{Day as Date};
ghost use Rattle.gtfs_rows.specs.declared.stop_times.StopTimes.{StopTimes};
ghost use Rattle.gtfs_rows.specs.declared.limited.TheConstants.{MAX_STOPS, MAX_TRIPS};

use crate::keyed::Row;

/// The limits of a feed: a million stops and twenty million trips.
pub fn limits()
    ensures stops { MAX_STOPS ≡ 1000000 }
    ensures trips { MAX_TRIPS ≡ 20000000 }
{}

/// A file has at most one fault.
pub fn one_fault()
    ensures { (table : File) (bytes : List ℕ) (n m : ℕ) (a b : Kind) → IsFaultOf table bytes n a
        → IsFaultOf table bytes m b → (n ≡ m) × (a ≡ b) }
{}

/// A file whose rows can be read has no fault.
pub fn held_without_fault<R: Row>()
    ensures rows { (bytes : List ℕ) (held : List R) (n : ℕ) (kind : Kind)
        → HoldsRows R.TABLE R.spells bytes held → ¬ (IsFaultOf R.TABLE bytes n kind) }
    ensures stop_times { (bytes : List ℕ) (held : StopTimes) (n : ℕ) (kind : Kind) → HoldsStopTimes bytes held
        → ¬ (IsFaultOf files.StopTimes bytes n kind) }
{}

/// Two records of calendar_dates.txt with the same key have the same service_id and the same date.
pub fn service_day_keys()
    ensures { (indices : ColumnIndices) (r s : Record) (d e : Date) → day_of (value indices 1 r) ≡ Some d
        → day_of (value indices 1 s) ≡ Some e → key_text (key_of files.CalendarDates) indices r
        ≡ key_text (key_of files.CalendarDates) indices s
        → (value indices 0 r ≡ value indices 0 s) × (d ≡ e) }
{}
