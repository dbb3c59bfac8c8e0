//! The loader: order after order.

ghost use Rattle.std.specs.Prelude.{◌≡◌, [], OnOk};
ghost use Rattle.std.specs.Io.KnownBytes.{Appends};
ghost use Rattle.feed_loader.specs.declared.plan.Plan.{Plan};
ghost use Rattle.feed_loads.specs.Carrying.{Handles, IsLoadOf, load_input_of, load_value, loads_value};
ghost use Rattle.feed_loads.specs.Drawing.{AreLoadedBy, AreUnread};
ghost use Rattle.feed_loads.specs.Learned.{LoaderFitsAndLearns};
ghost use Rattle.feed_loads.specs.Lines.{outcome_line};
ghost use Rattle.feed_loads.specs.Loading.{load_answer, outcome_alone};
ghost use Rattle.feed_loads.specs.Posts.{IsLoaderDone, loader_post_of};
ghost use Rattle.feed_loads.specs.Words.{loads_of, outcomes_of};

use crate::drawing::{DrawnFiles, UsedFiles};
use crate::feeds::Feeds;
use crate::loading::{LoadedVersion, load_one};
use crate::refusal::LoadRefusal;
use feed_loader::LoadFault;
use load_orders::{DrawPermit, LoadAnswer, LoaderOrders, Order, OrderFault};
use service_days::DayFault;
use shelves::{Loads, Versions};
use std::alloc::{AllocError, Global};
use std::io;
use std::io::Write;
use std::sync::Wait;

/// What feeds are loaded with: the runtime and its memory, the shelves, and the feeds.
#[derive(Drop)]
pub struct LoadContext<'a, R, T, F> {
    pub rt: &'a R,
    pub alloc: Global,
    pub shelves: &'a T,
    pub feeds: &'a F,
}

impl<'a, R: Wait, N: Drop, T: Versions<Notice = N> + Loads, F: Feeds> LoadContext<'a, R, T, F> {
    /// Carries out the orders that come to the loader's end of their queue, which is new, until no more come: the feed
    /// of each is loaded once, in turn, and what came of that is sent by the order's own answer channel. Returns this
    /// end, the loader's seat, the files that were used, and the error writer.
    pub(crate) fn load_all<E: Write>(
        &self,
        mut orders: LoaderOrders<N, F::Leave>,
        mut seat: T::Loader,
        mut used: UsedFiles<F::Files, N>,
        mut errors: E,
    ) -> (
        LoaderOrders<N, F::Leave>,
        T::Loader,
        UsedFiles<F::Files, N>,
        E,
    )
        requires loads { T.Loads.words.fits self.now.shelves.now seat }
        requires none { (orders.taken ≡ []) × (orders.answered ≡ []) × (used ≡ []) }
        ensures { IsLoaderDone (loads_of F.words
            (outcomes_of
            F.Files.words
            T.Loads.words T.Versions.words.version))
            (loader_post_of self.now.shelves.now seat self.now.feeds.now orders.queue) (loads_value result.0 result.2)
            result.1 }
    {
        for _ in self.rt.forever() {
            match orders.next(self.rt) {
                Some((order, permit)) => self.carry_out(
                    order,
                    permit,
                    &mut orders,
                    &mut seat,
                    &mut used,
                    &mut errors,
                ),
                None => return (orders, seat, used, errors),
            }
        }
        unreachable!()
    }

    // Loads the feed of this order, the last that was taken. What came of it goes to the error writer and to the worker
    // that waits for it.
    fn carry_out<E: Write>(
        &self,
        order: Order<N>,
        permit: DrawPermit<F::Leave>,
        orders: &mut LoaderOrders<N, F::Leave>,
        seat: &mut T::Loader,
        used: &mut UsedFiles<F::Files, N>,
        errors: &mut E,
    )
        requires { T.Loads.words.fits self.now.shelves.now seat.old }
        ensures seat { LoaderFitsAndLearns T.Loads.words self.now.shelves.now seat.old seat.new }
        ensures carried { Handles (load_input_of (loads_of F.words
            (outcomes_of
            F.Files.words
            T.Loads.words T.Versions.words.version))
            self.now.feeds.now orders.old.queue) order (loads_value orders.old used.old, seat.old)
            (loads_value orders.new used.new, seat.new) }
    {
        let (answer, files) = self.load_at(order.feed, permit, orders, seat, errors);
        used.note(&files);
        orders.answer(self.rt, order, answer);
    }

    // Loads the feed at the index from files that are drawn now, by this permit, and returns what came of it, and the
    // files. Where there is no such feed, there are no files, and the load is refused as that of an unknown feed.
    fn load_at<E: Write>(
        &self,
        index: usize,
        permit: DrawPermit<F::Leave>,
        orders: &LoaderOrders<N, F::Leave>,
        seat: &mut T::Loader,
        errors: &mut E,
    ) -> (LoadAnswer<N>, Option<DrawnFiles<F::Files, N>>)
        requires { T.Loads.words.fits self.now.shelves.now seat.old }
        ensures seat { LoaderFitsAndLearns T.Loads.words self.now.shelves.now seat.old seat.new }
        ensures load { IsLoadOf (load_input_of (loads_of F.words
            (outcomes_of
            F.Files.words
            T.Loads.words T.Versions.words.version))
            self.now.feeds.now orders.now.queue) (load_value index orders.now.taken result.1
            result.0) seat.old seat.new }
    {
        let names = self.feeds.names();
        match (
            names.get(index),
            DrawnFiles::draw(self.feeds, index, permit, orders),
        ) {
            (Some(name), Some(mut files)) => {
                let begun = self.feeds.begin(index);
                let outcome = self.load_planned(&mut files, seat);
                let loaded = loaded_or_refusal(&outcome);
                // If its line can't be written, the loader goes on.
                let _ = tell(errors, name.as_str(), loaded);
                self.feeds.finish(errors, index, begun, loaded);
                (answer_of(outcome), Some(files))
            }
            _ => (
                LoadAnswer::Refused {
                    refusal: OrderFault::UnknownFeed.number(),
                },
                None,
            ),
        }
    }

    // Loads these files by a plan that is made for this load, and returns what came of it.
    #[tactic(auto, using(crate::proofs::Learning::loader_goes_same))]
    fn load_planned(
        &self,
        files: &mut DrawnFiles<F::Files, N>,
        seat: &mut T::Loader,
    ) -> Result<(LoadedVersion, Option<N>), LoadRefusal>
        requires loads { T.Loads.words.fits self.now.shelves.now seat.old }
        requires unread { AreUnread F.Files.words files.old }
        ensures seat { LoaderFitsAndLearns T.Loads.words self.now.shelves.now seat.old seat.new }
        ensures load { (plan : Plan) × F.words.is_plan self.now.feeds.now plan
            × AreLoadedBy (outcomes_of
            F.Files.words
            T.Loads.words T.Versions.words.version)
            plan (files.old, seat.old) result (files.new, seat.new) }
    {
        match self.feeds.plan(self.alloc) {
            Ok(plan) => load_one(self.alloc, &mut files.files, &plan, self.shelves, seat),
            Err(AllocError) => Err(LoadRefusal::Load(LoadFault::Day(DayFault::OutOfMemory))),
        }
    }
}

// The outcome without its notice, as it is reported.
fn loaded_or_refusal<N>(
    outcome: &Result<(LoadedVersion, Option<N>), LoadRefusal>,
) -> Result<LoadedVersion, LoadRefusal>
    ensures { result ≡ outcome_alone outcome.now }
{
    match outcome {
        Ok((loaded, _)) => Ok(*loaded),
        Err(refusal) => Err(*refusal),
    }
}

// The answer to the worker that waits for a load: a notice of its version, that there was no memory for a notice, or
// the refusal's number.
fn answer_of<N>(outcome: Result<(LoadedVersion, Option<N>), LoadRefusal>) -> LoadAnswer<N>
    ensures { result ≡ load_answer outcome }
{
    match outcome {
        Ok((_, Some(notice))) => LoadAnswer::Published { notice },
        Ok((_, None)) => LoadAnswer::Unnoticed,
        Err(refusal) => LoadAnswer::Refused {
            refusal: refusal.number(),
        },
    }
}

// Writes what came of an order. It takes no memory.
fn tell<E: Write>(
    errors: &mut E,
    name: &str,
    outcome: Result<LoadedVersion, LoadRefusal>,
) -> io::Result<()>
    ensures { OnOk result (Appends (E.contents errors.old) (E.contents errors.new) (outcome_line name.now outcome)) }
{
    match outcome {
        Ok(loaded) => write!(errors, "loaded {name} version {}\n", loaded.version),
        Err(refusal) => write!(errors, "load {name} refused {refusal}\n"),
    }
}
