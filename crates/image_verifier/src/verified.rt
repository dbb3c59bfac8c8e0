//! Words that were found to be an image.

ghost use Rattle.std.specs.Prelude.{◌≡◌, ◌<◌, ◌≤◌, ◌+◌, length, slice_get, string_bytes, Some, ℕ, ◌↔◌, List, IfOk};
ghost use Rattle.std.specs.Prelude.{IfErr, IfSome, IfNone};
ghost use Rattle.std.specs.Option.{option_map};
ghost use Rattle.timetable.specs.TimetableValue.{TimetableValue};
ghost use Rattle.timetable.specs.Legal.{At};
ghost use Rattle.timetable.specs.declared.network.Connection.{Connection};
ghost use Rattle.timetable.specs.declared.network.Footpath.{Footpath};
ghost use Rattle.image_layout.specs.Offsets.{IsWhole, header_of};
ghost use Rattle.image_layout.specs.Fields.{foot_index_of, layout_of};
ghost use Rattle.image_layout.specs.Shown.{footpaths_of};
ghost use Rattle.image_verifier.specs.Accepted.{IsAccepted};
ghost use Rattle.timetable.specs.NamesValue.{NamesValue, TripNameValue};
ghost use Rattle.image_layout.specs.Spelling.{name_list};
ghost use Rattle.image_layout.specs.Image.{HasImage, IsImage, Spells};
ghost use Rattle.image_verifier.specs.declared.fault.ImageFault.TheVariants.{OutOfMemory};
ghost use Rattle.image_verifier.specs.FirstFault.{Tells};

use crate::departures::Departures;
use crate::fault::ImageFault;
use crate::find::{name_len_at, stop_named};
use crate::judge::judge;
use crate::search::first_departure;
use crate::unpacked::{unpack_names, unpack_timetable};
use image_layout::{
    Header, base_at, connection_at, day_at, foot_from_at, foot_index_at, foot_secs_at,
    name_byte_at, repeat_at,
};
use std::alloc::{AllocError, Global};
use std::marker::Model;
use timetable::{Connection, Footpath, Names, Timetable};

/// An image: contracts see its layout, and the timetable and the names that it holds.
#[derive(Drop)]
pub struct Verified {
    words: Vec<u32>,
}

impl Model for Verified {
    ghost use Rattle.image_layout.specs.Image.{ImageValue};

    ghost Value = { ImageValue };

    ghost use Rattle.image_layout.specs.Fields.{layout_of};
    ghost use Rattle.image_layout.specs.Shown.{timetable_of, names_of};
    ghost use Rattle.image_verifier.specs.Accepted.{IsAccepted};

    ghost view = { λ v. record {
      layout = layout_of v.words.items;
      timetable = timetable_of v.words.items;
      names =
          names_of v.words.items;
    } };

    ghost invariant = { λ v. IsAccepted v.words.items };
}

/// Returns the words as an image, or gives them back with their first fault. Every image is
/// accepted, unless memory runs out. All memory is taken after the header is judged and before
/// anything else is.
pub fn verify(alloc: Global, words: Vec<u32>) -> Result<Verified, (Vec<u32>, ImageFault)>
    ensures shown { IfOk result (λ v. IsImage words.items v.timetable v.names) }
    ensures layout { IfOk result (λ v. v.layout ≡ layout_of words.items) }
    ensures every_image { (t : TimetableValue) (n : NamesValue) → IsImage words.items t n
        → IfErr result (λ e. e.1 ≡ OutOfMemory) }
    ensures same_words { IfErr result (λ e. e.0.items ≡ words.items) }
    ensures fault { IfErr result (λ e. Tells words.items e.1) }
{
    match judge(alloc, &words) {
        Ok(()) => Ok(Verified { words }),
        Err(fault) => Err((words, fault)),
    }
}

// The stop that the footpath at index `position` leads into, found by a binary search.
fn stop_of(words: &[u32], position: usize) -> usize
    requires whole { IsWhole words.now }
    requires start { foot_index_of words.now 0 ≤ position }
    requires end { position < foot_index_of words.now (header_of words.now).stops }
    ensures stop { result < (header_of words.now).stops }
    ensures start { foot_index_of words.now result ≤ position }
    ensures end { position < foot_index_of words.now (result + 1) }
{
    let mut low = 0;
    let mut high = Header::of(words).stops as usize;
    'halve: while high - low > 1 {
        let middle = low + (high - low) / 2;
        if foot_index_at(words, middle) as usize <= position {
            low = middle;
        } else {
            high = middle;
        }
    }
    low
}

// The footpath at index `position`, which is one of those into `stop`.
fn footpath_of_stop(words: &[u32], stop: usize, position: usize) -> Footpath
    requires accepted { IsAccepted words.now }
    requires stop { stop < (header_of words.now).stops }
    requires start { foot_index_of words.now stop ≤ position }
    requires end { position < foot_index_of words.now (stop + 1) }
    ensures { slice_get (footpaths_of words.now) position ≡ Some result }
{
    Footpath {
        from: foot_from_at(words, position),
        to: stop as u32,
        secs: foot_secs_at(words, position),
    }
}

// The footpath at index `position`.
fn footpath_at(words: &[u32], position: usize) -> Footpath
    requires accepted { IsAccepted words.now }
    requires within { position < (header_of words.now).footpaths }
    ensures { slice_get (footpaths_of words.now) position ≡ Some result }
{
    footpath_of_stop(words, stop_of(words, position), position)
}

impl Verified {
    /// How many stops there are. The contract also says what holds of every image: its timetable is legal
    /// and within the limits, and its names fit the timetable.
    pub fn stops(&self) -> u32
        ensures stops { result ≡ self.now.timetable.stops }
        ensures kept { HasImage self.now.timetable self.now.names }
    {
        Header::of(&self.words).stops
    }

    /// How many trips there are.
    pub fn trips(&self) -> u32
        ensures { result ≡ self.now.timetable.trips }
    {
        Header::of(&self.words).trips
    }

    /// How many connections there are.
    pub fn len(&self) -> usize
        ensures { result ≡ length self.now.timetable.connections }
    {
        Header::of(&self.words).connections as usize
    }

    /// The connection at index `i`.
    pub fn connection(&self, i: usize) -> Connection
        requires { i < length self.now.timetable.connections }
        ensures { slice_get self.now.timetable.connections i ≡ Some result }
    {
        connection_at(&self.words, i)
    }

    /// The words that were verified: the timetable and the names have no others in this layout
    /// (`image_layout::laws::one_spelling`).
    pub fn words(&self) -> &[u32]
        ensures { Spells result.now self.now }
    {
        &self.words
    }

    /// The instant from which times count, in seconds after 1970-01-01T00:00:00Z.
    pub fn base(&self) -> i64
        ensures { result ≡ self.now.names.base }
    {
        base_at(&self.words)
    }

    /// The range of indices of the footpaths into a stop: its first index, and the one after its last.
    pub fn walks_into(&self, stop: usize) -> (usize, usize)
        requires { stop < self.now.timetable.stops }
        ensures order { result.0 ≤ result.1 }
        ensures within { result.1 ≤ length self.now.timetable.footpaths }
        ensures exact { (k : ℕ) (f : Footpath) → At self.now.timetable.footpaths k f → (f.to ≡ stop)
            ↔ ((result.0 ≤ k) × (k < result.1)) }
    {
        let words: &[u32] = &self.words;
        (
            foot_index_at(words, stop) as usize,
            foot_index_at(words, stop + 1) as usize,
        )
    }

    /// The index of the first connection that departs at `time` or later, or the number of connections
    /// if none does. Few departures are read: see `first_departure`.
    pub fn first_at(&self, time: u32) -> usize
        ensures within { result ≤ length self.now.timetable.connections }
        ensures before { (k : ℕ) (c : Connection) → k < result → At self.now.timetable.connections k c → c.dep < time }
        ensures from { (k : ℕ) (c : Connection) → result ≤ k → At self.now.timetable.connections k c → time ≤ c.dep }
    {
        first_departure(&mut Departures::of(self), time)
    }

    /// How many footpaths there are.
    pub fn footpath_count(&self) -> usize
        ensures { result ≡ length self.now.timetable.footpaths }
    {
        Header::of(&self.words).footpaths as usize
    }

    /// The footpath at index `position`, which is in the range that `walks_into` returns for `stop`. Its
    /// two words are read, and nothing is searched.
    pub fn footpath_into(&self, stop: usize, position: usize) -> Footpath
        requires stop { stop < self.now.timetable.stops }
        requires position { position < length self.now.timetable.footpaths }
        requires into { (f : Footpath) → At self.now.timetable.footpaths position f → f.to ≡ stop }
        ensures { slice_get self.now.timetable.footpaths position ≡ Some result }
    {
        footpath_of_stop(&self.words, stop, position)
    }

    /// The footpath at index `position`. The stop that it leads into is searched for; `footpath_into` is
    /// faster if that is known.
    pub fn footpath(&self, position: usize) -> Footpath
        requires { position < length self.now.timetable.footpaths }
        ensures { slice_get self.now.timetable.footpaths position ≡ Some result }
    {
        footpath_at(&self.words, position)
    }

    /// The lowest stop that has this name, if any has it.
    pub fn find(&self, name: &[u8]) -> Option<u32>
        ensures found { IfSome result (λ s. At self.now.names.stops s name.now) }
        ensures least { IfSome result (λ s. (k : ℕ) → k < s → ¬ At self.now.names.stops k name.now) }
        ensures none { IfNone result ((k : ℕ) → ¬ At self.now.names.stops k name.now) }
    {
        stop_named(&self.words, name)
    }

    /// The number of bytes of name `i`. The names of the stops come first, then those of the trips.
    pub fn name_len(&self, i: usize) -> usize
        requires { i < self.now.timetable.stops + self.now.timetable.trips }
        ensures { (name : List ℕ) → At (name_list self.now.names) i name → result ≡ length name }
    {
        name_len_at(&self.words, i)
    }

    /// Byte `j` of name `i`.
    pub fn name_byte(&self, i: usize, j: usize) -> u8
        requires name { i < self.now.timetable.stops + self.now.timetable.trips }
        requires byte { (name : List ℕ) → At (name_list self.now.names) i name → j < length name }
        ensures { (name : List ℕ) → At (name_list self.now.names) i name → At name j result }
    {
        name_byte_at(&self.words, i, j)
    }

    /// The service day of a trip, as the number YYYYMMDD.
    pub fn trip_day(&self, trip: usize) -> u32
        requires { trip < self.now.timetable.trips }
        ensures { option_map (λ (t : TripNameValue). t.day) (slice_get self.now.names.trips trip) ≡ Some result }
    {
        day_at(&self.words, trip)
    }

    /// Which of its day's repeats a trip is, from 0 on.
    pub fn trip_repeat(&self, trip: usize) -> u32
        requires { trip < self.now.timetable.trips }
        ensures { option_map (λ (t : TripNameValue). t.repeat) (slice_get self.now.names.trips trip) ≡ Some result }
    {
        repeat_at(&self.words, trip)
    }

    /// Copies of the timetable and the names. No other call on an image takes memory. The only error
    /// is that memory runs out.
    pub fn to_timetable(&self, alloc: Global) -> Result<(Timetable, Names), AllocError>
        ensures timetable { IfOk result (λ made. made.0 ≡ self.now.timetable) }
        ensures names { IfOk result (λ made. made.1 ≡ self.now.names) }
        ensures kept { IfOk result (λ made. HasImage made.0 made.1) }
    {
        let timetable = unpack_timetable(alloc, &self.words)?;
        let names = unpack_names(alloc, &self.words)?;
        Ok((timetable, names))
    }
}
