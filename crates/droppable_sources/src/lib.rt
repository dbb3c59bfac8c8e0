//! Sources that may be dropped: for programs and tests that don't account for what was read.
//!
//! The crates of a session don't depend on this one. There the log of a source is that of a reply, which can't be
//! dropped, so that whatever is read is noted with a reply.
#![tactic(auto)]

ghost use Rattle.std.specs.Prelude.{◌≡◌, [], IfOk};

use image_verifier::Verified;
use sources::{ConnSource, Decoded, InPlace, ReadLog};
use std::alloc::{AllocError, Global};
use timetable::Trace;

/// A log that may be dropped.
#[derive(Drop)]
pub struct DroppableLog {
    indices: Trace<usize>,
}

impl ReadLog for DroppableLog {
    ghost reads = { λ log. log.indices };

    #[inline(always)]
    fn note(&mut self, index: usize) {
        self.indices.note(&index);
    }
}

impl DroppableLog {
    ghost use Rattle.std.specs.Prelude.{◌≡◌, []};

    /// A log in which nothing is noted.
    pub fn new() -> DroppableLog
        ensures { ⟦<DroppableLog as ReadLog>⟧.reads result ≡ [] }
    {
        DroppableLog {
            indices: Trace::new(),
        }
    }
}

/// The image as a source that is read in place, with an empty log.
pub fn in_place<'a>(image: &'a Verified) -> InPlace<'a, DroppableLog>
    ensures timetable { ⟦<InPlace<'a, DroppableLog> as ConnSource>⟧.timetable result ≡ image.now.timetable }
    ensures log { ⟦<InPlace<'a, DroppableLog> as ConnSource>⟧.log result ≡ [] }
{
    InPlace::new(image, DroppableLog::new())
}

/// The image as decoded lists, with an empty log.
pub fn decoded(alloc: Global, image: &Verified) -> Result<Decoded<DroppableLog>, AllocError>
    ensures timetable { IfOk result
        (λ source. ⟦<Decoded<DroppableLog> as ConnSource>⟧.timetable source ≡ image.now.timetable) }
    ensures log { IfOk result (λ source. ⟦<Decoded<DroppableLog> as ConnSource>⟧.log source ≡ []) }
{
    Decoded::of(alloc, image, DroppableLog::new())
}
