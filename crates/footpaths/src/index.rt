//! Footpaths by the stop that they lead into.

ghost use Rattle.std.specs.Prelude.{◌≡◌, ◌<◌, ◌≤◌, ◌+◌, ℕ, length, slice_index, All, IfOk, OnOk};
ghost use Rattle.timetable.specs.Legal.{At};
ghost use Rattle.footpaths.specs.Index.{IsIndex, AreRanges, IsOver, AreThoseInto, IsLastInto, AreChains, AddsThoseFrom};

use std::alloc::{AllocError, Global};
use timetable::Footpath;

/// Listed footpaths in the order of the stops that they lead into.
#[derive(Drop)]
pub(crate) struct Index {
    /// By stop: the index in `paths` of the first footpath into it. One more entry is the end of the last stop's.
    pub first: Vec<usize>,
    pub paths: Vec<Footpath>,
    ghost ranges: { AreRanges first.items (length paths.items) },
}

// The listed footpaths into each stop, chained from the last to the first. The footpath at index i is written as
// i + 1, and 0 is none.
#[derive(Drop)]
struct Chains {
    // By stop: the last footpath into it.
    last: Vec<usize>,
    // By footpath: the one before it into the same stop.
    before: Vec<usize>,
}

// Chains the listed footpaths into each stop.
fn chain(alloc: Global, stops: u32, listed: &[Footpath]) -> Result<Chains, AllocError>
    requires { All (λ f. f.to < stops) listed.now }
    ensures stops { IfOk result (λ c. length c.last.items ≡ stops) }
    ensures footpaths { IfOk result (λ c. length c.before.items ≡ length listed.now) }
    ensures chains { IfOk result (λ c. AreChains listed.now (length listed.now) c.last.items c.before.items) }
{
    let mut last = vec![in alloc; 0usize; stops as usize]?;
    let mut before = Vec::with_capacity(alloc, listed.len())?;
    for (i, path) in listed.iter().enumerate() {
        before.push(last[path.to as usize])?;
        last[path.to as usize] = i + 1;
    }
    Ok(Chains { last, before })
}

// Adds the footpaths of a chain, from `last` to its first one.
fn add_chain(
    listed: &[Footpath],
    before: &[usize],
    last: usize,
    paths: &mut Vec<Footpath>,
) -> Result<(), AllocError>
    requires in_range { last ≤ length listed.now }
    requires count { length before.now ≡ length listed.now }
    requires before { (i : ℕ) (f : _) → i < length listed.now → At listed.now i f
        → IsLastInto listed.now f.to i (slice_index before.now i) }
    ensures { (stop : ℕ) → IsLastInto listed.now stop (length listed.now) last
        → OnOk result (AddsThoseFrom listed.now stop 0 paths.old.items paths.new.items) }
{
    let mut position = last;
    while position > 0 {
        paths.push(listed[position - 1])?;
        position = before[position - 1];
    }
    Ok(())
}

impl Index {
    /// Brings listed footpaths between `stops` stops into the order of the stops that they lead into.
    pub fn new(alloc: Global, stops: u32, listed: &[Footpath]) -> Result<Index, AllocError>
        requires { All (λ f. (f.from < stops) × (f.to < stops)) listed.now }
        ensures index { IfOk result (λ i. IsIndex listed.now i.first.items i.paths.items) }
        ensures over { IfOk result (λ i. IsOver stops i.first.items i.paths.items) }
    {
        let chains = chain(alloc, stops, listed)?;
        let mut first = Vec::with_capacity(alloc, stops as usize + 1)?;
        let mut paths = Vec::with_capacity(alloc, listed.len())?;
        first.push(0usize)?;
        for last in &chains.last {
            add_chain(listed, &chains.before, *last, &mut paths)?;
            first.push(paths.len())?;
        }
        Ok(Index { first, paths })
    }

    /// The footpaths into a stop.
    pub fn into(&self, stop: u32) -> &[Footpath]
        requires { stop + 1 < length self.now.first.items }
        ensures those { (listed : _) → IsIndex listed self.now.first.items self.now.paths.items
            → AreThoseInto listed stop result.now }
        ensures in_range { (stops : ℕ) → IsOver stops self.now.first.items self.now.paths.items
            → All (λ f. f.from < stops) result.now }
    {
        let stop = stop as usize;
        &self.paths[self.first[stop]..self.first[stop + 1]]
    }
}
