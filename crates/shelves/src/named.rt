//! Shelves without a lock that have a name: a seat, a loader or a notice of one name can't be used at shelves of
//! another.

ghost use Rattle.std.specs.Prelude.{◌≡◌, ◌<◌, Some, IfOk, IfErr, IfSome};
ghost use Rattle.std.specs.Arc.{arc_value};
ghost use Rattle.shelves.specs.ShelfSeats.{PinsSeat, ReleasesSeat, JoinsSeat, ShowsWhatItKnows, shelf_seats};
ghost use Rattle.shelves.specs.ShelfLoads.{CollectsShelves, PublishesImage, RefusesImage, shelf_loader};
ghost use Rattle.shelves.specs.declared.faults.PublishFault.{PublishFault};

use crate::collected::Collected;
use crate::faults::{PinFault, PublishFault};
use crate::notice::Notice;
use crate::shelf_loader::ShelfLoader;
use crate::shelf_seats::ShelfSeat;
use crate::shelves::Shelves;
use crate::versions::{Loads, Versions};
use image_verifier::Verified;
use shelf_steps::Edition;
use std::alloc::Global;
use std::marker::{Brand, Model, PhantomData};
use std::sync::Arc;

/// A name of shelves: a type that stands for one table, so that the type of a seat, a notice or a loader says to which
/// table it belongs. Code that is generic over names is proved for every table. It is called with the kit's marker type
/// `Brand`, for which the caller's proof picks a table at each call, in place of the one in the `impl` below.
pub trait ShelvesName {
    ghost use Rattle.atomic_table.specs.Seated.{TableId};

    ghost table: { TableId };
}

impl ShelvesName for Brand {
    ghost use Rattle.std.specs.Prelude.{[]};

    ghost table = { record {
      words = 9;
      slots = 128;
      views_name = 0;
      atom = 0;
      block = 0;
      offset = 0;
      slot_names =
          [];
    } };
}

/// Something that belongs to one table of shelves; contracts see to which.
pub trait HasTable {
    ghost use Rattle.atomic_table.specs.Seated.{TableId};

    ghost table: { Self → TableId };
}

impl HasTable for ShelfSeat {
    ghost table = { λ seat. seat.table };
}

impl HasTable for ShelfLoader {
    ghost table = { λ loader. loader.table };
}

impl HasTable for Notice {
    ghost table = { λ notice. notice.table };
}

/// A seat, a loader or a notice that belongs to the shelves of a name. Contracts see it as one without a name.
#[derive(Drop)]
pub struct Branded<B: ShelvesName, S: HasTable + Drop> {
    inner: S,
    of: PhantomData<B>,
}

impl<B: ShelvesName, S: HasTable + Drop> Model for Branded<B, S> {
    ghost use Rattle.std.specs.Prelude.{◌≡◌};

    ghost Value = { S };

    ghost view = { λ s. s.inner };

    ghost invariant = { λ s. S.table s.inner ≡ B.table };
}

impl<B: ShelvesName, S: HasTable + Drop> Branded<B, S> {
    /// Puts a seat, a loader or a notice under the name of its shelves.
    pub fn of(inner: S) -> Branded<B, S>
        requires { S.table inner ≡ B.table }
        ensures { result ≡ inner }
    {
        Branded {
            inner,
            of: PhantomData,
        }
    }

    /// Returns the seat, loader or notice without the name. It belongs to the shelves of that name.
    pub fn into_inner(self) -> S
        ensures same { result ≡ self }
        ensures table { S.table result ≡ B.table }
    {
        self.inner
    }
}

/// A worker's seat at the shelves of a name.
pub type NamedSeat<B> = Branded<B, ShelfSeat>;

impl<B: ShelvesName> NamedSeat<B> {
    /// The number of the seat's worker, from 0 to 15.
    pub fn number(&self) -> usize
        ensures { result ≡ self.now.number }
    {
        self.inner.number()
    }

    /// The seat shows what it knows, as [`ShelfSeat::shows_what_it_knows`] has it.
    pub fn shows_what_it_knows(&self)
        ensures { ShowsWhatItKnows self.now }
    {
        self.inner.shows_what_it_knows();
    }
}

/// The loader's seat at the shelves of a name.
pub type NamedLoader<B> = Branded<B, ShelfLoader>;

/// The fact that a version was published at the shelves of a name.
pub type NamedNotice<B> = Branded<B, Notice>;

impl<B: ShelvesName> NamedNotice<B> {
    /// The version that was published.
    pub fn version(&self) -> u64
        ensures { result ≡ self.now.version }
    {
        self.inner.version()
    }
}

/// Shelves without a lock, under a name: seats, the loader's seat and notices of the name are of these shelves.
#[derive(Drop)]
pub struct NamedShelves<B: ShelvesName> {
    shelves: Shelves,
    of: PhantomData<B>,
}

impl<B: ShelvesName> Model for NamedShelves<B> {
    ghost use Rattle.std.specs.Prelude.{◌≡◌};
    ghost use Rattle.atomic_table.specs.Seated.{TableId};

    ghost Value = { TableId };

    ghost view = { λ s. s.shelves };

    ghost invariant = { λ s. s.shelves ≡ B.table };
}

impl<B: ShelvesName> NamedShelves<B> {
    /// Puts the shelves under their name.
    pub fn of(shelves: Shelves) -> NamedShelves<B>
        requires { shelves ≡ B.table }
        ensures { result ≡ shelves }
    {
        NamedShelves {
            shelves,
            of: PhantomData,
        }
    }

    /// Puts the shelves, the loader's seat and one worker's seat under the shelves' name.
    pub fn with_seat(
        shelves: Shelves,
        loader: ShelfLoader,
        seat: ShelfSeat,
    ) -> (NamedShelves<B>, NamedLoader<B>, NamedSeat<B>)
        requires { (shelves ≡ B.table) × (loader.table ≡ B.table) × (seat.table ≡ B.table) }
        ensures same { (result.0 ≡ shelves) × (result.1 ≡ loader) × (result.2 ≡ seat) }
        ensures table { (result.1.table ≡ result.0) × (result.2.table ≡ result.0) }
    {
        let named = NamedShelves::of(shelves);
        (named, NamedLoader::of(loader), NamedSeat::of(seat))
    }

    /// The word as it is found, as [`Shelves::word`] returns it.
    pub fn word(&self, word: usize) -> u64
        requires { word < 9 }
    {
        self.shelves.word(word)
    }
}

// A version and its notice, under the shelves' name.
fn with_name<B: ShelvesName>(published: (u64, Option<Notice>)) -> (u64, Option<NamedNotice<B>>)
    requires { IfSome published.1 (λ notice. notice.table ≡ B.table) }
    ensures { result ≡ published }
{
    match published {
        (version, Some(notice)) => (version, Some(NamedNotice::of(notice))),
        (version, None) => (version, None),
    }
}

impl<B: ShelvesName> Versions for NamedShelves<B> {
    type Seat = NamedSeat<B>;

    type Notice = NamedNotice<B>;

    ghost words = { shelf_seats };

    fn pin(&self, seat: &mut NamedSeat<B>) -> Result<(), PinFault>
        ensures fits { seat.new.table ≡ self.now }
        ensures pin { PinsSeat seat.old result seat.new }
    {
        self.shelves.pin(&mut seat.inner)
    }

    fn edition(seat: &NamedSeat<B>) -> Option<&Edition> {
        seat.inner.edition()
    }

    fn release(&self, seat: &mut NamedSeat<B>) -> Result<(), PinFault>
        ensures fits { seat.new.table ≡ self.now }
        ensures release { ReleasesSeat seat.old result seat.new }
    {
        self.shelves.release(&mut seat.inner)
    }

    fn join(&self, seat: &mut NamedSeat<B>, notice: NamedNotice<B>)
        ensures fits { seat.new.table ≡ self.now }
        ensures join { JoinsSeat seat.old notice.version seat.new }
    {
        self.shelves.join(&mut seat.inner, notice.inner);
    }

    fn version_of(notice: &NamedNotice<B>) -> u64 {
        notice.version()
    }
}

impl<B: ShelvesName> Loads for NamedShelves<B> {
    type Loader = NamedLoader<B>;

    ghost words = { shelf_loader };

    fn publish(
        &self,
        loader: &mut NamedLoader<B>,
        image: Arc<Verified, Global>,
    ) -> Result<(u64, Option<NamedNotice<B>>), (Arc<Verified, Global>, PublishFault)>
        ensures loads { loader.new.table ≡ self.now }
        ensures back { IfErr result (λ e. e.0 ≡ image) }
        ensures published { IfOk result (λ r. PublishesImage loader.old (arc_value image) r.0 loader.new) }
        ensures notice { IfOk result (λ r. r.1 ≡ Some (record { table = self.now; version = r.0 })) }
        ensures refused { IfErr result (λ e. RefusesImage loader.old e.1 loader.new) }
    {
        let published = match self.shelves.publish(&mut loader.inner, image) {
            Ok(published) => published,
            Err(refused) => return Err(refused),
        };
        Ok(with_name(published))
    }

    fn collect(&self, loader: &mut NamedLoader<B>) -> Collected
        ensures loads { loader.new.table ≡ self.now }
        ensures collect { CollectsShelves loader.old result loader.new }
    {
        self.shelves.collect(&mut loader.inner)
    }
}
