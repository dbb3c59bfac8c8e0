//! Random images: some stops, trips between them, and footpaths within groups of stops.

ghost use Rattle.std.specs.Prelude.{◌<◌};

use std::alloc::{AllocError, Global};

/// Pseudorandom numbers, the same in each run.
#[derive(Drop)]
pub struct Dice(pub u32);

impl Dice {
    ghost use Rattle.std.specs.Prelude.{◌<◌};

    /// A number below another.
    pub fn roll(&mut self, sides: u32) -> u32
        requires { 0 < sides }
        ensures { result < sides }
    {
        self.0 = self.0.wrapping_mul(1664525).wrapping_add(1013904223);
        (self.0 >> 8) % sides
    }
}

/// Where a trip is, and the earliest time at which it may go on.
#[derive(Clone, Copy)]
struct Vehicle {
    stop: u32,
    free: u32,
}

/// Adds the words of a connection of a trip, if the trip can depart at this time, and returns how many connections were
/// added: one or none.
fn drive(
    dice: &mut Dice,
    vehicle: &mut Vehicle,
    trip: u32,
    time: u32,
    stops: u32,
    words: &mut Vec<u32>,
) -> Result<u32, AllocError>
    requires { 0 < stops }
{
    if vehicle.free > time {
        return Ok(0);
    }
    let to = dice.roll(stops);
    let arr = time.saturating_add(60 * (1 + dice.roll(8)));
    let flags = if dice.roll(4) == 0 { dice.roll(4) } else { 3 };
    for word in [vehicle.stop, to, time, arr, trip, flags] {
        words.push(word)?;
    }
    *vehicle = Vehicle {
        stop: to,
        free: arr,
    };
    Ok(1)
}

/// A vehicle at a random stop for each trip.
fn vehicles_at(
    alloc: Global,
    dice: &mut Dice,
    stops: u32,
    trips: u32,
) -> Result<Vec<Vehicle>, AllocError>
    requires { 0 < stops }
{
    let mut vehicles = Vec::new(alloc);
    for _trip in 0..trips {
        let stop = dice.roll(stops);
        vehicles.push(Vehicle { stop, free: 0 })?;
    }
    Ok(vehicles)
}

/// Adds the words of connections, by departure, and returns how many there are.
fn add_connections(
    dice: &mut Dice,
    stops: u32,
    trips: u32,
    vehicles: &mut [Vehicle],
    words: &mut Vec<u32>,
) -> Result<u32, AllocError>
    requires stops { 0 < stops }
    requires trips { 0 < trips }
{
    let (mut time, mut count) = (28800u32, 0u32);
    for _attempt in 0..60 {
        let trip = dice.roll(trips);
        if let Some(vehicle) = vehicles.get_mut(trip as usize) {
            count = count.saturating_add(drive(dice, vehicle, trip, time, stops, words)?);
        }
        time = time.saturating_add(60 * dice.roll(3));
    }
    Ok(count)
}

/// Footpaths within groups of stops: any two stops of a group are equally far apart.
#[derive(Clone, Copy)]
struct Walks {
    groups: u32,
    change: u32,
    walk: u32,
}

/// Adds the words of the footpaths into a stop, and returns how many there are.
fn add_footpaths_into(
    walks: Walks,
    to: u32,
    stops: u32,
    words: &mut Vec<u32>,
) -> Result<u32, AllocError>
    requires { 0 < walks.groups }
{
    let mut count = 0u32;
    for from in 0..stops {
        if from % walks.groups == to % walks.groups {
            words.push(from)?;
            words.push(if from == to { walks.change } else { walks.walk })?;
            count = count.saturating_add(1);
        }
    }
    Ok(count)
}

/// Adds the words of the foot index to one list and those of the footpaths to another, and returns how many footpaths
/// there are.
fn add_footpaths(
    walks: Walks,
    stops: u32,
    index: &mut Vec<u32>,
    footpaths: &mut Vec<u32>,
) -> Result<u32, AllocError>
    requires { 0 < walks.groups }
{
    let mut count = 0u32;
    for to in 0..stops {
        index.push(count)?;
        count = count.saturating_add(add_footpaths_into(walks, to, stops, footpaths)?);
    }
    index.push(count)?;
    Ok(count)
}

/// The words of a random image.
pub fn random_words(alloc: Global, dice: &mut Dice) -> Result<Vec<u32>, AllocError> {
    let (stops, trips) = (2 + dice.roll(11), 1 + dice.roll(8));
    let mut body = Vec::new(alloc);
    let mut vehicles = vehicles_at(alloc, dice, stops, trips)?;
    let connections = add_connections(dice, stops, trips, &mut vehicles, &mut body)?;
    let walks = Walks {
        groups: 1 + dice.roll(6),
        change: 60 * dice.roll(3),
        walk: 60 * (1 + dice.roll(5)),
    };
    let mut paths = Vec::new(alloc);
    let footpaths = add_footpaths(walks, stops, &mut body, &mut paths)?;
    let mut words = Vec::new(alloc);
    words.extend_from_slice(&[0x50415343, 1, stops, trips, connections, footpaths, 0, 0, 0])?;
    words.extend_from_slice(&body)?;
    words.extend_from_slice(&paths)?;
    // the index of the names, all of which are empty, and the trips' days
    for _word in 0..stops + trips + 1 + trips {
        words.push(0)?;
    }
    Ok(words)
}
