//! What the stops and trips of a timetable are called.

use std::marker::Model;

/// The name of a trip on one service day. If it runs repeatedly on that day, each time is a trip of its own.
#[derive(Drop)]
pub struct TripName {
    pub name: String,
    /// The service day as the number YYYYMMDD.
    pub day: u32,
    /// Which of the day's repeats it is, from 0 on.
    pub repeat: u32,
}

/// What a timetable's numbers stand for.
#[derive(Drop)]
pub struct Names {
    /// The instant from which its times count, in seconds after 1970-01-01T00:00:00Z.
    pub base: i64,
    /// A name for each stop. Names need not differ.
    pub stops: Vec<String>,
    /// A name and a service day for each trip.
    pub trips: Vec<TripName>,
}

impl Model for TripName {
    ghost use Rattle.std.specs.Prelude.{string_bytes};
    ghost use Rattle.timetable.specs.NamesValue.{TripNameValue};

    ghost Value = { TripNameValue };

    ghost view = { λ t. record { name = string_bytes t.name; day = t.day; repeat = t.repeat } };
}

impl Model for Names {
    ghost use Rattle.std.specs.Prelude.{string_bytes, map};
    ghost use Rattle.timetable.specs.NamesValue.{NamesValue};

    ghost Value = { NamesValue };

    ghost view = { λ n. record { base = n.base; stops = map string_bytes n.stops.items; trips = n.trips.items } };
}
