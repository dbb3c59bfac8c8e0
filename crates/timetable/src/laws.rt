//! Laws of limits and of clock texts. The functions do nothing.

ghost use Rattle.std.specs.Prelude.{◌≡◌, ◌<◌, ℕ, List};
ghost use Rattle.timetable.specs.Clocks.{SpellsClock, HasNoSpareZero, clock_bytes};

use crate::clocks::CLOCK_END;
use crate::limits::{
    MAX_CONNECTIONS, MAX_FOOTPATHS, MAX_NAME_BYTES, MAX_STOPS, MAX_TRIPS, MAX_WALK_SECS, TIME_END,
};

/// The limits of an image, in numbers: definitions and code cite the constants, so that a slip in
/// one would show nowhere else.
pub fn limits()
    ensures counts { (MAX_STOPS ≡ 1000000) × (MAX_TRIPS ≡ 20000000) × (MAX_CONNECTIONS ≡ 20000000)
        × (MAX_FOOTPATHS ≡ 5000000) }
    ensures bytes { MAX_NAME_BYTES ≡ 400000000 }
    ensures times { (MAX_WALK_SECS ≡ 1000000) × (TIME_END ≡ 2000000000) }
{}

/// A text spells at most one time, which is below a million hours.
pub fn one_time()
    ensures one { (text : List ℕ) (time other : ℕ) → SpellsClock text time → SpellsClock text other → time ≡ other }
    ensures small { (text : List ℕ) (time : ℕ) → SpellsClock text time → time < CLOCK_END }
{}

/// The text of a time below a million hours spells that time: reading undoes writing.
pub fn written_is_read()
    ensures { (time : ℕ) → time < CLOCK_END → SpellsClock (clock_bytes time) time }
{}

/// A clock text without a spare zero in front is the text of its time: writing undoes reading.
pub fn read_is_written()
    ensures { (text : List ℕ) (time : ℕ) → SpellsClock text time → HasNoSpareZero text → clock_bytes time ≡ text }
{}
