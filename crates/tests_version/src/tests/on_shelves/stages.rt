//! Shelves of both kinds with all their seats, whose answers are reported in words.

ghost use Rattle.std.specs.Prelude.{◌≡◌};
ghost use Rattle.std.specs.List.{All};

use super::unmade;
use crate::tests::images::image;
use epochs::*;
use image_verifier::Verified;
use std::alloc::{AllocError, Global};
use std::mem::swap;
use std::sync::{Arc, Wait};
use std::test::*;

/// What a seat does.
#[derive(Clone, Copy)]
pub(crate) enum Deed {
    Pin,
    Release,
}

/// Shelves with all their seats. A call of a seat tells the answer and what the seat holds afterwards, such as `ok, 2
/// at 7`: version 2, whose image begins at second 7.
pub(crate) trait Stage {
    fn alloc(&self) -> Global;

    fn call<R: Wait>(&mut self, rt: &R, deed: Deed, seat: usize) -> Result<String, AllocError>;

    /// The seat takes in the oldest notice that no seat took in.
    fn join<R: Wait>(&mut self, rt: &R, seat: usize) -> Result<String, AllocError>;

    /// Publishes an image that begins at this second: tells its version, or the fault and the second of the image that
    /// came back.
    fn publish<R: Wait>(&mut self, rt: &R, second: u32) -> Result<String, AllocError>;

    /// Collects, and tells which shelves were freed, and the counts of the others.
    fn collect<R: Wait>(&mut self, rt: &R) -> Result<String, AllocError>;
}

pub(crate) fn word(alloc: Global, word: &str) -> Result<String, AllocError> {
    String::from_str(alloc, word)
}

fn held(alloc: Global, edition: Option<&Edition>) -> Result<String, AllocError> {
    match edition {
        Some(edition) => format!(in alloc; "{} at {}", edition.version, edition.image.base()),
        None => word(alloc, "nothing"),
    }
}

/// The answer to a pin or a release, and what the seat holds.
pub(crate) fn seat_words(
    alloc: Global,
    answer: Result<(), PinFault>,
    edition: Option<&Edition>,
) -> Result<String, AllocError> {
    let answer = match answer {
        Ok(()) => "ok",
        Err(fault) => fault.name(),
    };
    let held = held(alloc, edition)?;
    format!(in alloc; "{answer}, {held}")
}

fn publish_words(
    alloc: Global,
    answer: Result<u64, (Arc<Verified, Global>, PublishFault)>,
) -> Result<String, AllocError> {
    match answer {
        Ok(version) => format!(in alloc; "{version}"),
        Err((image, fault)) => format!(in alloc; "{fault}; {} back", image.base()),
    }
}

fn collect_words(alloc: Global, found: Collected) -> Result<String, AllocError> {
    format!(in alloc; "freed {:?}, busy {:?}", found.freed, found.busy)
}

/// Shelves under a lock.
#[derive(Drop)]
pub(crate) struct LockedStage {
    alloc: Global,
    pub(crate) shelves: LockedShelves,
    pub(crate) loader: LoaderSeat,
    pub(crate) seats: Vec<WorkerSeat>,
}

impl LockedStage {
    /// New shelves. The image of version 1 begins at second 1.
    pub(crate) fn new(alloc: Global) -> Result<LockedStage, Fail> {
        match LockedShelves::new(alloc, image(alloc, 1)?) {
            Ok((shelves, loader, seats)) => Ok(LockedStage {
                alloc,
                shelves,
                loader,
                seats,
            }),
            Err(refused) => Err(unmade(refused)),
        }
    }

    /// Swaps the shelves of two stages: from now on the seats of each are at the shelves of the other.
    pub(crate) fn change_shelves(&mut self, other: &mut LockedStage) {
        swap(&mut self.shelves, &mut other.shelves);
    }
}

impl Stage for LockedStage {
    fn alloc(&self) -> Global {
        self.alloc
    }

    fn call<R: Wait>(&mut self, rt: &R, deed: Deed, seat: usize) -> Result<String, AllocError> {
        let Some(seat) = self.seats.get_mut(seat) else {
            return word(self.alloc, "no seat");
        };
        let answer = match deed {
            Deed::Pin => self.shelves.pin(rt, seat),
            Deed::Release => self.shelves.release(rt, seat),
        };
        seat_words(self.alloc, answer, seat.edition())
    }

    fn join<R: Wait>(&mut self, _rt: &R, _seat: usize) -> Result<String, AllocError> {
        word(self.alloc, "no notice")
    }

    fn publish<R: Wait>(&mut self, rt: &R, second: u32) -> Result<String, AllocError> {
        let image = image(self.alloc, second)?;
        let answer = self.shelves.publish(rt, &mut self.loader, image);
        publish_words(self.alloc, answer)
    }

    fn collect<R: Wait>(&mut self, rt: &R) -> Result<String, AllocError> {
        let found = self.shelves.collect(rt, &mut self.loader);
        collect_words(self.alloc, found)
    }
}

/// Shelves without a lock, under a name.
#[derive(Drop)]
pub(crate) struct NamedStage<B: ShelvesName> {
    alloc: Global,
    pub(crate) shelves: NamedShelves<B>,
    pub(crate) loader: NamedLoader<B>,
    pub(crate) seats: Vec<NamedSeat<B>>,
    notices: Vec<NamedNotice<B>>,
}

// The seats, under their shelves' name.
fn named_seats<B: ShelvesName>(
    alloc: Global,
    seats: Vec<ShelfSeat>,
) -> Result<Vec<NamedSeat<B>>, AllocError>
    requires { All (λ seat. seat.table ≡ B.table) seats.items }
{
    let mut named = Vec::with_capacity(alloc, seats.len())?;
    for seat in seats {
        named.push(NamedSeat::of(seat))?;
    }
    Ok(named)
}

impl<B: ShelvesName> NamedStage<B> {
    pub(crate) fn of(
        alloc: Global,
        shelves: NamedShelves<B>,
        loader: NamedLoader<B>,
        seats: Vec<NamedSeat<B>>,
    ) -> NamedStage<B> {
        NamedStage {
            alloc,
            shelves,
            loader,
            seats,
            notices: Vec::new(alloc),
        }
    }

    /// The answer to a seat, and what it holds.
    fn words(&self, answer: Result<(), PinFault>, seat: usize) -> Result<String, AllocError> {
        match self.seats.get(seat) {
            Some(seat) => {
                let edition = NamedShelves::<B>::edition(seat);
                seat_words(self.alloc, answer, edition)
            }
            None => word(self.alloc, "no seat"),
        }
    }
}

/// The shelves under a name, with all their seats.
pub(crate) fn named_stage<B: ShelvesName>(
    alloc: Global,
    shelves: Shelves,
    loader: ShelfLoader,
    seats: Vec<ShelfSeat>,
) -> Result<NamedStage<B>, AllocError>
    requires { (shelves ≡ B.table) × (loader.table ≡ B.table) × All (λ seat. seat.table ≡ B.table) seats.items }
{
    let seats = named_seats(alloc, seats)?;
    let shelves = NamedShelves::<B>::of(shelves);
    Ok(NamedStage::of(alloc, shelves, NamedLoader::of(loader), seats))
}

/// Publishes, and keeps the notice.
fn publish_noted<B: ShelvesName>(
    shelves: &NamedShelves<B>,
    loader: &mut NamedLoader<B>,
    image: Arc<Verified, Global>,
    notices: &mut Vec<NamedNotice<B>>,
) -> Result<Result<u64, (Arc<Verified, Global>, PublishFault)>, AllocError> {
    match shelves.publish(loader, image) {
        Ok((version, notice)) => {
            if let Some(notice) = notice {
                notices.push(notice)?;
            }
            Ok(Ok(version))
        }
        Err(refused) => Ok(Err(refused)),
    }
}

impl<B: ShelvesName> Stage for NamedStage<B> {
    fn alloc(&self) -> Global {
        self.alloc
    }

    fn call<R: Wait>(&mut self, _rt: &R, deed: Deed, seat: usize) -> Result<String, AllocError> {
        let answer = match (self.seats.get_mut(seat), deed) {
            (Some(seat), Deed::Pin) => self.shelves.pin(seat),
            (Some(seat), Deed::Release) => self.shelves.release(seat),
            (None, _) => Ok(()),
        };
        self.words(answer, seat)
    }

    fn join<R: Wait>(&mut self, _rt: &R, seat: usize) -> Result<String, AllocError> {
        if self.notices.is_empty() {
            return word(self.alloc, "no notice");
        }
        let notice = self.notices.remove(0);
        let version = notice.version();
        if let Some(seat) = self.seats.get_mut(seat) {
            self.shelves.join(seat, notice);
        }
        let held = self.words(Ok(()), seat)?;
        format!(in self.alloc; "notice of {version}; {held}")
    }

    fn publish<R: Wait>(&mut self, _rt: &R, second: u32) -> Result<String, AllocError> {
        let image = image(self.alloc, second)?;
        let answer = publish_noted(&self.shelves, &mut self.loader, image, &mut self.notices)?;
        publish_words(self.alloc, answer)
    }

    fn collect<R: Wait>(&mut self, _rt: &R) -> Result<String, AllocError> {
        let found = self.shelves.collect(&mut self.loader);
        collect_words(self.alloc, found)
    }
}
