//! An image as a source, read where it is.

ghost use Rattle.std.specs.Prelude.{◌≡◌};
ghost use Rattle.std.specs.List.{flat_map};
ghost use Rattle.std.proofs.Props.{props};
ghost use Rattle.timetable.specs.Legal.{IsLegal};
ghost use Rattle.timetable.specs.LegalProp.{IsLegal-prop};
ghost use Rattle.timetable.specs.Limits.{IsWithinLimits};
ghost use Rattle.image_layout.specs.Spelling.{footpath_words};
ghost use Rattle.sources.specs.FootStarts.{AreStarts};

use crate::source::{ConnSource, ReadLog};
use image_layout::Header;
use image_verifier::{Departures, Verified, first_departure};
use timetable::{Connection, Footpath};

/// An image that is read in place: it is borrowed, and nothing of it is copied. Where its footpaths are is computed
/// from its header once, and not for each connection. What it is asked for is noted in its log, which only
/// [`InPlace::into_log`] gives back: if the log can't be dropped, neither can the source.
#[derive(Drop)]
pub struct InPlace<'a, L> {
    image: &'a Verified,
    // for each stop the index at which the footpaths into it start, and the number of all footpaths
    starts: &'a [u32],
    // two words for each footpath, the stop that it leaves and its seconds
    footpaths: &'a [u32],
    log: L,
    ghost legal: { IsLegal image.now.timetable } by { IsLegal-prop image.now.timetable },
    ghost limits: { IsWithinLimits image.now.timetable } by { Prim.hlevel props },
    ghost indexed: { AreStarts image.now.timetable starts.now } by { Prim.hlevel props },
    ghost spelled: { footpaths.now ≡ flat_map footpath_words image.now.timetable.footpaths } by { Prim.hlevel props },
}

impl<'a, L: ReadLog> InPlace<'a, L> {
    /// The image as a source, which goes on with this log.
    pub fn new(image: &'a Verified, log: L) -> InPlace<'a, L>
        ensures timetable { ⟦<InPlace<'a, L> as ConnSource>⟧.timetable result ≡ image.now.timetable }
        ensures log { ⟦<InPlace<'a, L> as ConnSource>⟧.log result ≡ L.reads log }
    {
        // The contract of this call says that the timetable is legal and within the limits.
        image.stops();
        let words = image.words();
        let header = Header::of(words);
        InPlace {
            image,
            starts: &words[header.foot_index_offset()..header.footpath_offset()],
            footpaths: &words[header.footpath_offset()..header.name_index_offset()],
            log,
        }
    }

    /// The log, in which everything is noted that was asked for.
    pub fn into_log(self) -> L
        ensures { L.reads result ≡ ⟦<InPlace<'a, L> as ConnSource>⟧.log self.entry }
    {
        self.log
    }
}

impl<'a, L: ReadLog> ConnSource for InPlace<'a, L> {
    ghost timetable = { λ source. source.image.now.timetable };

    ghost log = { λ source. L.reads source.log };

    fn stops(&self) -> u32 {
        self.image.stops()
    }

    fn trips(&self) -> u32 {
        self.image.trips()
    }

    fn len(&self) -> usize {
        self.image.len()
    }

    fn connection(&mut self, i: usize) -> Connection {
        self.log.note(i);
        self.image.connection(i)
    }

    fn first_at(&self, time: u32) -> usize {
        first_departure(&mut Departures::of(self.image), time)
    }

    fn walks_into(&self, stop: usize) -> (usize, usize) {
        (self.starts[stop] as usize, self.starts[stop + 1] as usize)
    }

    fn footpath(&self, index: usize) -> Footpath {
        self.image.footpath(index)
    }

    fn footpath_into(&self, stop: usize, index: usize) -> Footpath {
        Footpath {
            from: self.footpaths[2 * index],
            to: stop as u32,
            secs: self.footpaths[2 * index + 1],
        }
    }

    ghost legal = { λ source. source.legal };

    ghost limits = { λ source. source.limits };
}
