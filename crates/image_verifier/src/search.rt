//! Finds the first departure at a time or later, with few reads.

ghost use Rattle.std.specs.Prelude.{◌≡◌};
ghost use Rattle.image_verifier.specs.Departing.{image_of, reads_of};
ghost use Rattle.image_verifier.specs.FirstAt.{IsFirstAt};
ghost use Rattle.image_verifier.specs.Searches.{FindsByFew};

use crate::departures::Departures;

/// The index of the first connection that departs at `time` or later, or the number of connections if
/// none does.
///
/// Each departure that is read halves the range that is left. So at most as many are read as the
/// number of connections has binary digits: 25 for the 20,000,000 that an image may have, and none
/// for none. `departures` notes each of them.
pub fn first_departure(departures: &mut Departures<'_>, time: u32) -> usize
    ensures same { image_of departures.new ≡ image_of departures.old }
    ensures first { IsFirstAt (image_of departures.old).timetable time result }
    ensures reads { FindsByFew (image_of departures.old).timetable result (reads_of departures.old)
        (reads_of departures.new) }
{
    let mut low = 0;
    let mut high = departures.len();
    'halve: while low < high {
        let middle = low + (high - low) / 2;
        if departures.read(middle) < time {
            low = middle + 1;
        } else {
            high = middle;
        }
    }
    low
}
