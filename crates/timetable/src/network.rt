//! What a timetable is made of: connections and footpaths.

use std::marker::Model;

/// A vehicle's move from one stop to the next without a halt, as in the Connection Scan Algorithm.
#[derive(Clone, Copy, Debug, PartialEq, Eq)]
pub struct Connection {
    /// The stop that it leaves.
    pub from: u32,
    /// The stop that it reaches.
    pub to: u32,
    /// Departure, in seconds after the base.
    pub dep: u32,
    /// Arrival, in seconds after the base.
    pub arr: u32,
    /// The trip that it is part of.
    pub trip: u32,
    /// Whether passengers may get on at its start.
    pub board: bool,
    /// Whether passengers may get off at its end.
    pub alight: bool,
}

/// A way on foot from a stop to a stop. A loop, from a stop to itself, is the change time of that stop.
#[derive(Clone, Copy, Debug, PartialEq, Eq)]
pub struct Footpath {
    /// The stop that it leaves.
    pub from: u32,
    /// The stop that it leads into.
    pub to: u32,
    /// Its time, in seconds.
    pub secs: u32,
}

/// The stops, trips, connections and footpaths of a timetable.
///
/// A legal timetable lists its connections in order of departure, and its footpaths by the stop that they lead to,
/// then by the stop that they leave, each pair once. So each set of footpaths is one list.
#[derive(Drop)]
pub struct Timetable {
    /// The number of stops, which are numbered from 0.
    pub stops: u32,
    /// The number of trips, which are numbered from 0.
    pub trips: u32,
    pub connections: Vec<Connection>,
    pub footpaths: Vec<Footpath>,
}

impl Model for Timetable {
    ghost use Rattle.timetable.specs.TimetableValue.{TimetableValue};

    ghost Value = { TimetableValue };

    ghost view = { λ t. record {
      stops = t.stops;
      trips = t.trips;
      connections = t.connections.items;
      footpaths =
          t.footpaths.items;
    } };
}
