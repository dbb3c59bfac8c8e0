//! The departures of an image, each of which is noted when it is read.

ghost use Rattle.std.specs.Prelude.{◌≡◌, ◌<◌, ◌++◌, ◌∷◌, [], length};
ghost use Rattle.timetable.specs.Legal.{IsLegal};
ghost use Rattle.timetable.specs.LegalProp.{IsLegal-prop};
ghost use Rattle.timetable.specs.Journeys.{connection_at};

use crate::verified::Verified;
use image_layout::dep_at;
use timetable::Trace;

/// The departures of an image. Only `read` returns one, so each that is read is noted.
#[derive(Drop)]
pub struct Departures<'a> {
    image: &'a Verified,
    reads: Trace<usize>,
    ghost legal: { IsLegal image.now.timetable } by { IsLegal-prop image.now.timetable },
}

impl<'a> Departures<'a> {
    ghost use Rattle.image_verifier.specs.Departing.{image_of, reads_of};

    /// The departures of the image, before any was read.
    pub fn of(image: &'a Verified) -> Departures<'a>
        ensures image { image_of result ≡ image.now }
        ensures reads { reads_of result ≡ [] }
    {
        // The contract of this call says that the timetable is legal.
        image.stops();
        Departures {
            image,
            reads: Trace::new(),
        }
    }

    /// How many there are.
    pub fn len(&self) -> usize
        ensures { result ≡ length (image_of self.now).timetable.connections }
    {
        self.image.len()
    }

    /// The departure of the connection at index `position`, in seconds after the base. The read is noted.
    pub fn read(&mut self, position: usize) -> u32
        requires { position < length (image_of self.old).timetable.connections }
        ensures departure { result ≡ (connection_at (image_of self.old).timetable position).dep }
        ensures noted { reads_of self.new ≡ reads_of self.old ++ position ∷ [] }
        ensures same { image_of self.new ≡ image_of self.old }
    {
        self.reads.note(&position);
        dep_at(self.image.words(), position)
    }
}
