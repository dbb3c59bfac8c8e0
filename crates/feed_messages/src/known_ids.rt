//! The keys of a file's records, among them the ids of `stops.txt` and `trips.txt`, which other files name.

use gtfs_rows::{FaultKind, IdHash, Location};
use gtfs_tables::{StopIdTarget, end_fault, parent_fault, stop_fault};
use indexmap::IndexMap;
use std::alloc::Global;

/// Where a key is first: the line, and what a stop_id names there. Of other keys the target says nothing.
#[derive(Clone, Copy, Drop)]
pub struct Seen {
    pub line: u64,
    pub target: StopIdTarget,
}

/// The keys of a file's records.
#[derive(Drop)]
pub struct Keys {
    seen: IndexMap<String, Seen, IdHash>,
    /// How many keys are those of stops or platforms.
    stops: usize,
    /// Whether these are the keys of all records of the file.
    pub are_all: bool,
}

/// What an id must name.
#[derive(Clone, Copy, PartialEq, Eq)]
pub enum Wanted {
    Trip,
    /// A station.
    Parent,
    /// A stop or platform.
    Stop,
    /// A stop or a station.
    End,
}

impl Keys {
    /// No key; `are_all` says whether the file has no other.
    pub fn none(alloc: Global, hash: IdHash, are_all: bool) -> Keys {
        Keys {
            seen: IndexMap::with_hasher(alloc, hash),
            stops: 0,
            are_all,
        }
    }

    /// How many keys there are.
    pub fn len(&self) -> usize {
        self.seen.len()
    }

    /// How many keys are those of stops or platforms.
    pub fn stops(&self) -> usize {
        self.stops
    }

    /// Where a key is, if it is there.
    pub fn find(&self, key: &str) -> Option<Seen> {
        self.seen.get(key).copied()
    }

    /// The number of the key, in the order in which they were added, if it is there.
    pub fn number(&self, key: &str) -> Option<usize> {
        let (number, _, _) = self.seen.get_full(key)?;
        Some(number)
    }

    /// Adds a key that isn't there yet: that of a record in a line, which in `stops.txt` stands for this kind of place.
    /// `None` if memory runs out.
    pub fn add(&mut self, key: String, line: u64, location: Location) -> Option<()> {
        let number = u32::try_from(self.stops).ok()?;
        let index = u32::try_from(self.len()).ok()?;
        let target = StopIdTarget::of(location, number, index);
        if location == Location::Stop {
            self.stops = self.stops.checked_add(1)?;
        }
        self.seen.insert(key, Seen { line, target }).ok()?;
        Some(())
    }

    /// What is wrong with an id that must name something with one of these keys. Nothing is, as far as one can tell, if
    /// there are records whose keys aren't known.
    pub fn fault_of(&self, wanted: Wanted, id: &str) -> Option<FaultKind> {
        if !self.are_all {
            return None;
        }
        let named = self.find(id).map(|seen| seen.target);
        match wanted {
            Wanted::Trip if named.is_some() => None,
            Wanted::Trip => Some(FaultKind::UnknownId),
            Wanted::Parent => parent_fault(named),
            Wanted::Stop => stop_fault(named),
            Wanted::End => end_fault(named),
        }
    }
}
