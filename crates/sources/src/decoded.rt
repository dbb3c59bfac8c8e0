//! An image as a source, decoded into lists: for tests and comparisons.

ghost use Rattle.std.specs.Prelude.{◌≡◌, ◌≤◌, ◌<◌, ◌+◌, ℕ, length, slice_index_or, IfOk, OnOk};
ghost use Rattle.std.specs.List.Sorted.{IsNonDecreasingBy};
ghost use Rattle.std.proofs.Props.{props};
ghost use Rattle.timetable.specs.declared.network.Connection.{Connection};
ghost use Rattle.timetable.specs.Legal.{IsLegal};
ghost use Rattle.timetable.specs.LegalProp.{IsLegal-prop};
ghost use Rattle.timetable.specs.Limits.{IsWithinLimits};
ghost use Rattle.sources.specs.FootStarts.{of_lists, AreStarts, HoldsBelow};

use crate::source::{ConnSource, ReadLog};
use image_verifier::Verified;
use std::alloc::{AllocError, Global};
use timetable::{Connection, Footpath};

/// Copies of the connections and the footpaths of an image, with the index at which the footpaths
/// into each stop start.
#[derive(Drop)]
pub struct Decoded<L> {
    stops: u32,
    trips: u32,
    connections: Vec<Connection>,
    footpaths: Vec<Footpath>,
    starts: Vec<usize>,
    log: L,
    ghost legal: { IsLegal (of_lists stops trips connections.items footpaths.items) } by { IsLegal-prop (of_lists stops trips connections.items footpaths.items) },
    ghost limits: { IsWithinLimits (of_lists stops trips connections.items footpaths.items) } by { Prim.hlevel props },
    ghost indexed: { AreStarts (of_lists stops trips connections.items footpaths.items) starts.items } by { Prim.hlevel props },
}

/// The connections of an image.
fn decode_connections(alloc: Global, image: &Verified) -> Result<Vec<Connection>, AllocError>
    ensures { IfOk result (λ connections. connections.items ≡ image.now.timetable.connections) }
{
    let count = image.len();
    let mut connections = Vec::with_capacity(alloc, count)?;
    for i in 0..count {
        connections.push(image.connection(i))?;
    }
    Ok(connections)
}

/// Adds the footpaths into a stop to those into the stops below it.
fn decode_walks_into(
    image: &Verified,
    stop: usize,
    footpaths: &mut Vec<Footpath>,
) -> Result<(), AllocError>
    requires legal { IsLegal image.now.timetable }
    requires stop { stop < image.now.timetable.stops }
    requires below { HoldsBelow image.now.timetable stop footpaths.old.items }
    ensures { OnOk result (HoldsBelow image.now.timetable (stop + 1) footpaths.new.items) }
{
    let (_, end) = image.walks_into(stop);
    for index in footpaths.len()..end {
        footpaths.push(image.footpath_into(stop, index))?;
    }
    Ok(())
}

/// The footpaths of an image, and where those into each stop start.
fn decode_footpaths(
    alloc: Global,
    image: &Verified,
) -> Result<(Vec<Footpath>, Vec<usize>), AllocError>
    ensures footpaths { IfOk result (λ lists. lists.0.items ≡ image.now.timetable.footpaths) }
    ensures starts { IfOk result (λ lists. AreStarts image.now.timetable lists.1.items) }
{
    let stops = image.stops() as usize;
    let mut footpaths = Vec::with_capacity(alloc, image.footpath_count())?;
    let mut starts = Vec::with_capacity(alloc, stops + 1)?;
    for stop in 0..stops {
        starts.push(footpaths.len())?;
        decode_walks_into(image, stop, &mut footpaths)?;
    }
    starts.push(footpaths.len())?;
    Ok((footpaths, starts))
}

/// The index of the first connection that departs at `time` or later, or the number of connections if none does.
fn first_departure(connections: &[Connection], time: u32) -> usize
    requires { IsNonDecreasingBy (λ (c : Connection). c.dep) connections.now }
    ensures within { result ≤ length connections.now }
    ensures before { (k : ℕ) (d : Connection) → k < result → (slice_index_or connections.now k d).dep < time }
    ensures after { (k : ℕ) (d : Connection) → result ≤ k → k < length connections.now
        → time ≤ (slice_index_or connections.now k d).dep }
{
    connections.partition_point(|connection| connection.dep < time)
}

impl<L: ReadLog + Drop> Decoded<L> {
    /// Decodes an image into a source that goes on with this log. The memory of each list is taken at once.
    pub fn of(alloc: Global, image: &Verified, log: L) -> Result<Decoded<L>, AllocError>
        ensures timetable { IfOk result
            (λ source. ⟦<Decoded<L> as ConnSource>⟧.timetable source ≡ image.now.timetable) }
        ensures log { IfOk result (λ source. ⟦<Decoded<L> as ConnSource>⟧.log source ≡ L.reads log) }
    {
        let connections = decode_connections(alloc, image)?;
        let (footpaths, starts) = decode_footpaths(alloc, image)?;
        Ok(Decoded {
            stops: image.stops(),
            trips: image.trips(),
            connections,
            footpaths,
            starts,
            log,
        })
    }
}

impl<L: ReadLog> ConnSource for Decoded<L> {
    ghost timetable = { λ source. of_lists source.stops source.trips source.connections.items source.footpaths.items };

    ghost log = { λ source. L.reads source.log };

    fn stops(&self) -> u32 {
        self.stops
    }

    fn trips(&self) -> u32 {
        self.trips
    }

    fn len(&self) -> usize {
        self.connections.len()
    }

    fn connection(&mut self, i: usize) -> Connection {
        self.log.note(i);
        self.connections[i]
    }

    fn first_at(&self, time: u32) -> usize {
        first_departure(&self.connections, time)
    }

    fn walks_into(&self, stop: usize) -> (usize, usize) {
        (self.starts[stop], self.starts[stop + 1])
    }

    fn footpath(&self, index: usize) -> Footpath {
        self.footpaths[index]
    }

    fn footpath_into(&self, _stop: usize, index: usize) -> Footpath {
        self.footpaths[index]
    }

    ghost legal = { λ source. source.legal };

    ghost limits = { λ source. source.limits };
}
