//! What is drawn of a journey.

use std::marker::Model;

/// How a part of a journey is travelled.
#[derive(Clone, Copy, Debug, PartialEq, Eq)]
pub enum StretchKind {
    Ride,
    /// On foot to another stop.
    Walk,
    /// The change time at a stop.
    Change,
}

/// A part of a journey: its way, its start and end in seconds after the base, the names of the stops
/// where it begins and ends, and for a ride that of the trip.
#[derive(Drop)]
pub struct Stretch {
    pub way: StretchKind,
    pub start: u32,
    pub end: u32,
    pub trip: String,
    pub from: String,
    pub to: String,
}

/// A journey as it is drawn: when it departs and arrives, its parts in order, and what is written below them.
#[derive(Drop)]
pub struct JourneyLine {
    pub departure: u32,
    pub arrival: u32,
    pub stretches: Vec<Stretch>,
    pub note: String,
}

/// What is above the journeys: the names of the stops from and to which they lead, and what was asked.
#[derive(Drop)]
pub struct Heading {
    pub from: String,
    pub to: String,
    pub about: String,
}

impl Model for Stretch {
    ghost use Rattle.std.specs.Prelude.{string_bytes};
    ghost use Rattle.answer_pictures.specs.LineValue.{StretchValue};

    ghost Value = { StretchValue };

    ghost view = { λ s. record {
      way = s.way;
      start = s.start;
      end = s.end;
      trip = string_bytes s.trip;
      from = string_bytes s.from;
      to = string_bytes s.to;
    } };
}

impl Model for JourneyLine {
    ghost use Rattle.std.specs.Prelude.{string_bytes};
    ghost use Rattle.answer_pictures.specs.LineValue.{LineValue};

    ghost Value = { LineValue };

    ghost view = { λ l. record {
      departure = l.departure;
      arrival = l.arrival;
      stretches = l.stretches.items;
      note =
          string_bytes l.note;
    } };
}

impl Model for Heading {
    ghost use Rattle.std.specs.Prelude.{string_bytes};
    ghost use Rattle.answer_pictures.specs.LineValue.{HeadingValue};

    ghost Value = { HeadingValue };

    ghost view = { λ h. record { from = string_bytes h.from; to = string_bytes h.to; about = string_bytes h.about } };
}
