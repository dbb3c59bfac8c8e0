//! The largest timetable that an image holds. Every sum of times and of walks stays far below 2^64, and every offset
//! in an image below 2^32.

/// Stops of a timetable, at most.
pub const MAX_STOPS: u32 = 1_000_000;

/// Trips of a timetable, at most.
pub const MAX_TRIPS: u32 = 20_000_000;

/// Connections of a timetable, at most.
pub const MAX_CONNECTIONS: u32 = 20_000_000;

/// Footpaths of a timetable, at most.
pub const MAX_FOOTPATHS: u32 = 5_000_000;

/// Bytes of all names together, at most.
pub const MAX_NAME_BYTES: u32 = 400_000_000;

/// Seconds of one footpath, at most.
pub const MAX_WALK_SECS: u32 = 1_000_000;

/// All times are below this, in seconds after the base.
pub const TIME_END: u32 = 2_000_000_000;
