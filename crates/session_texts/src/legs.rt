//! The legs of a journey by the names of stops and trips, as values of a reply.

ghost use Rattle.std.specs.Prelude.{◌≡◌, ◌++◌, ◌∷◌, [], false, IfOk, OnErr, OnOk};
ghost use Rattle.serde_json.specs.View.{items_view, view};
ghost use Rattle.serde_json.specs.Written.{items_have_float};
ghost use Rattle.session_texts.specs.Legs.{later_repeat, ride_data, ride_value, walk_data, walk_value};

use crate::members::add_number;
use serde_json::{Map, Value, put};
use std::alloc::{AllocError, Global};
use timetable::clock_text;

/// A ride: the trip, its service day and which of that day's repeats it is; where and when it is boarded, and where and
/// when it is left. Times are seconds after the base.
#[derive(Drop)]
pub struct RideLeg {
    pub trip: String,
    pub day: u32,
    pub repeat: u32,
    pub from: String,
    pub dep: u32,
    pub to: String,
    pub arr: u32,
}

/// A walk from a stop to a stop, and its seconds.
#[derive(Drop)]
pub struct WalkLeg {
    pub from: String,
    pub to: String,
    pub secs: u32,
}

/// The legs of one journey, in order.
#[derive(Drop)]
pub struct JourneyLegs {
    pub(crate) values: Vec<Value>,
    ghost plain: { items_have_float (items_view values.items) ≡ false },
}

impl JourneyLegs {
    ghost use Rattle.session_texts.specs.Telling.{legs_of};

    /// No legs.
    pub fn new(alloc: Global) -> JourneyLegs
        ensures { legs_of result ≡ [] }
    {
        JourneyLegs {
            values: Vec::new(alloc),
        }
    }

    /// Adds a ride at the end. If memory runs out, nothing changes.
    pub fn add_ride(&mut self, alloc: Global, ride: RideLeg) -> Result<(), AllocError>
        ensures added { OnOk result (legs_of self.new ≡ legs_of self.old ++ ride_data (ride_value ride) ∷ []) }
        ensures refused { OnErr result (legs_of self.new ≡ legs_of self.old) }
    {
        let object = ride_object(alloc, ride)?;
        self.values.push(object)?;
        Ok(())
    }

    /// Adds a walk at the end. If memory runs out, nothing changes.
    pub fn add_walk(&mut self, alloc: Global, walk: WalkLeg) -> Result<(), AllocError>
        ensures added { OnOk result (legs_of self.new ≡ legs_of self.old ++ walk_data (walk_value walk) ∷ []) }
        ensures refused { OnErr result (legs_of self.new ≡ legs_of self.old) }
    {
        let object = walk_object(alloc, walk)?;
        self.values.push(object)?;
        Ok(())
    }
}

fn ride_object(alloc: Global, ride: RideLeg) -> Result<Value, AllocError>
    ensures { IfOk result (λ object. view object ≡ ride_data (ride_value ride)) }
{
    let dep = clock_text(alloc, ride.dep)?;
    let arr = clock_text(alloc, ride.arr)?;
    let mut members = Map::new(alloc);
    put(&mut members, alloc, "arr", Value::String(arr))?;
    put(&mut members, alloc, "day", Value::from(ride.day))?;
    put(&mut members, alloc, "dep", Value::String(dep))?;
    put(&mut members, alloc, "from", Value::String(ride.from))?;
    put(&mut members, alloc, "to", Value::String(ride.to))?;
    put(&mut members, alloc, "trip", Value::String(ride.trip))?;
    add_number(alloc, &mut members, "repeat", later_repeat(ride.repeat))?;
    Ok(Value::Object(members))
}

// The repeat, unless it is 0, the first.
fn later_repeat(repeat: u32) -> Option<u32>
    ensures { result ≡ later_repeat repeat }
{
    if repeat > 0 { Some(repeat) } else { None }
}

fn walk_object(alloc: Global, walk: WalkLeg) -> Result<Value, AllocError>
    ensures { IfOk result (λ object. view object ≡ walk_data (walk_value walk)) }
{
    let mut members = Map::new(alloc);
    put(&mut members, alloc, "from", Value::String(walk.from))?;
    put(&mut members, alloc, "secs", Value::from(walk.secs))?;
    put(&mut members, alloc, "to", Value::String(walk.to))?;
    Ok(Value::Object(members))
}
