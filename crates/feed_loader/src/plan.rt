//! How a feed is loaded: the days, the zone and how strictly times are judged.

use gtfs_tables::Day;
use service_days::Zone;

/// How a feed is loaded.
#[derive(Drop)]
pub struct Plan {
    /// The first service day.
    pub first_day: Day,
    /// How many service days there are, from 1 to 14.
    pub days: u32,
    /// The zone of the feed's times.
    pub zone: Zone,
    /// Whether a feed is refused if an arrival isn't after the departure before it.
    pub strict: bool,
}
