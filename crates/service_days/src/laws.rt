//! Laws of days and their starts. The functions do nothing: their contracts are the laws.

ghost use Rattle.std.specs.Prelude.{◌≡◌, ◌==◌, ◌+ℤ◌, pos, nat_le, true, ℤ};
ghost use Rattle.jiff_core.specs.Calendar.{days_from_civil};
ghost use Rattle.gtfs_rows.specs.Values.{is_civil};
ghost use Rattle.gtfs_rows.specs.declared.values.Day.{Day};
ghost use Rattle.service_days.specs.Days.{day_after as following};
ghost use Rattle.service_days.specs.Services.{date_number, is_not_after, is_same_day};
ghost use Rattle.service_days.specs.Zones.{HasNoStart, IsDayStart};
ghost use Rattle.service_days.specs.declared.zone.Zone.{Zone};

/// A day has at most one start in a zone.
pub fn one_start()
    ensures { (zone : Zone) (day : Day) (start other : ℤ) → IsDayStart zone day start → IsDayStart zone day other
        → start ≡ other }
{}

/// No day both has a start and has none.
pub fn started_or_not()
    ensures { (zone : Zone) (day : Day) (start : ℤ) → IsDayStart zone day start → ¬ (HasNoStart zone day) }
{}

/// The day after a civil day has the next day number, and so also the next weekday.
pub fn days_are_counted_on()
    ensures { (day : Day) → is_civil day ≡ true
        → days_from_civil (pos (following day).year) (following day).month (following day).day
        ≡ days_from_civil (pos day.year) day.month day.day +ℤ pos 1 }
{}

/// Of two civil days the later has the greater number, and only the same day has the same number.
pub fn dates_are_numbered()
    ensures order { (a b : Day) → is_civil a ≡ true → is_civil b ≡ true
        → nat_le (date_number a) (date_number b) ≡ is_not_after a b }
    ensures same { (a b : Day) → is_civil a ≡ true → is_civil b ≡ true
        → (date_number a == date_number b) ≡ is_same_day a b }
{}
