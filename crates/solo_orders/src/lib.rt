//! Orders that are carried out at once, through the loader's seat of some shelves: for tests of sessions.
#![tactic(auto)]

ghost use Rattle.std.specs.Prelude.{◌≡◌, ◌++◌, ◌∷◌, [], IfErr, IfOk, MatchOption};
ghost use Rattle.orders.specs.Ordering.{IsNotTaken, order_value, version_alone, waited_value};
ghost use Rattle.solo_orders.specs.Feeds.{LoadStep, OrderStep, WaitStep, feeds_state, index_of};
ghost use Rattle.solo_orders.specs.Feeds.{order_answer, wait_answer};

use image_verifier::Verified;
use orders::{OrderFault, OrderRecord, Orders};
use shelves::{Loads, PublishFault, Versions};
use std::alloc::Global;
use std::marker::Model;
use std::sync::Arc;
use timetable::Trace;

/// A feed's name, and the image that an order of the feed publishes.
#[derive(Drop)]
pub struct FeedImage {
    pub name: String,
    pub image: Arc<Verified, Global>,
}

// Why a feed isn't loaded.
#[derive(Clone, Copy, Debug, PartialEq, Eq)]
enum NotLoaded {
    UnknownFeed,
    Refused(PublishFault),
}

/// Takes one worker's orders, and carries out each within the call: the first feed of the name leaves the list, its
/// image is published, and the shelves are collected. So nobody waits long for a version.
///
/// A name that no feed of the list has is answered with `UnknownFeed`. A refused publish is answered with `LoadRefused`
/// if the version is waited for, and else with `OrdersFull`.
#[derive(Drop)]
pub struct SoloOrders<'a, N: Drop, L: Drop, T: Versions<Notice = N> + Loads<Loader = L>> {
    shelves: &'a T,
    loader: L,
    feeds: Vec<FeedImage>,
    asked: Trace<OrderRecord>,
}

impl<'a, N: Drop, L: Drop, T: Versions<Notice = N> + Loads<Loader = L>> Model
    for SoloOrders<'a, N, L, T> {
    ghost use Rattle.solo_orders.specs.Feeds.{SoloOrdersValue};

    ghost Value = { SoloOrdersValue };

    ghost view = { λ s. record { feeds = s.feeds.items; answers = T.Loads.words.answers s.loader; asked = s.asked } };

    ghost invariant = { λ s. T.Loads.words.fits s.shelves.now s.loader };
}

impl<'a, N: Drop, L: Drop, T: Versions<Notice = N> + Loads<Loader = L>> SoloOrders<'a, N, L, T> {
    /// Nothing was ordered yet.
    pub fn new(shelves: &'a T, loader: L, feeds: Vec<FeedImage>) -> SoloOrders<'a, N, L, T>
        requires { T.Loads.words.fits shelves.now loader }
        ensures { result ≡ record { feeds = feeds.items; answers = T.Loads.words.answers loader; asked = [] } }
    {
        SoloOrders {
            shelves,
            loader,
            feeds,
            asked: Trace::new(),
        }
    }

    fn load(&mut self, feed: &str) -> Result<(u64, Option<N>), NotLoaded>
        ensures asked { self.new.asked ≡ self.old.asked }
        ensures step { LoadStep feed.now (feeds_state self.old.feeds self.old.answers) result
            (feeds_state self.new.feeds self.new.answers) }
        ensures notice { IfOk result (λ loaded. MatchOption loaded.1 ⊥ (λ notice. T.Versions.words.version notice
            ≡ loaded.0)) }
    {
        publish_first(self.shelves, &mut self.loader, &mut self.feeds, feed)
    }
}

// Publishes the first image of the name, and collects the shelves.
fn publish_first<N: Drop, T: Versions<Notice = N> + Loads>(
    shelves: &T,
    loader: &mut T::Loader,
    feeds: &mut Vec<FeedImage>,
    feed: &str,
) -> Result<(u64, Option<N>), NotLoaded>
    requires { T.Loads.words.fits shelves.now loader.old }
    ensures loads { T.Loads.words.fits shelves.now loader.new }
    ensures step { LoadStep feed.now (feeds_state feeds.old.items (T.Loads.words.answers loader.old)) result
        (feeds_state feeds.new.items (T.Loads.words.answers loader.new)) }
    ensures notice { IfOk result (λ loaded. MatchOption loaded.1 ⊥ (λ notice. T.Versions.words.version notice
        ≡ loaded.0)) }
{
    let Some(index) = index_in(feeds, feed) else {
        return Err(NotLoaded::UnknownFeed);
    };
    let found = feeds.remove(index);
    match shelves.publish(loader, found.image) {
        Ok(loaded) => {
            let _collected = shelves.collect(loader);
            Ok(loaded)
        }
        Err((_, fault)) => Err(NotLoaded::Refused(fault)),
    }
}

// Where the first feed of the name stands.
fn index_in(feeds: &[FeedImage], feed: &str) -> Option<usize>
    ensures { result ≡ index_of feed.now feeds.now }
{
    feeds.iter().position(|one| one.name.as_str() == feed)
}

fn answer_to_order<N: Drop>(loaded: Result<(u64, Option<N>), NotLoaded>) -> Result<(), OrderFault>
    ensures { result ≡ order_answer loaded }
{
    match loaded {
        Ok(_) => Ok(()),
        Err(NotLoaded::UnknownFeed) => Err(OrderFault::UnknownFeed),
        Err(NotLoaded::Refused(_)) => Err(OrderFault::OrdersFull),
    }
}

fn answer_to_wait<N: Drop>(
    loaded: Result<(u64, Option<N>), NotLoaded>,
) -> Result<(u64, N), OrderFault>
    ensures { result ≡ wait_answer loaded }
{
    match loaded {
        Ok((version, Some(notice))) => Ok((version, notice)),
        Ok((_, None)) => Err(OrderFault::OutOfMemory),
        Err(NotLoaded::UnknownFeed) => Err(OrderFault::UnknownFeed),
        Err(NotLoaded::Refused(fault)) => Err(OrderFault::LoadRefused {
            refusal: fault.number(),
        }),
    }
}

impl<'a, N: Drop, L: Drop, T: Versions<Notice = N> + Loads<Loader = L>> Orders
    for SoloOrders<'a, N, L, T> {
    type Notice = N;

    ghost route = { λ _. tt };

    ghost asked = { λ orders. orders.asked };

    ghost notice_version = { T.Versions.words.version };

    fn order(&mut self, feed: &str) -> Result<(), OrderFault>
        ensures asked { self.new.asked ≡ self.old.asked ++ order_value feed.now result ∷ [] }
        ensures refused { IfErr result IsNotTaken }
        ensures step { OrderStep feed.now (feeds_state self.old.feeds self.old.answers) result
            (feeds_state self.new.feeds self.new.answers) }
    {
        let loaded = self.load(feed);
        let outcome = answer_to_order(loaded);
        self.asked.note(&OrderRecord::put(feed, outcome));
        outcome
    }

    fn order_wait(&mut self, feed: &str) -> Result<(u64, N), OrderFault>
        ensures asked { self.new.asked ≡ self.old.asked ++ waited_value feed.now (version_alone result) ∷ [] }
        ensures notice { IfOk result (λ published. T.Versions.words.version published.1 ≡ published.0) }
        ensures step { WaitStep feed.now (feeds_state self.old.feeds self.old.answers) result
            (feeds_state self.new.feeds self.new.answers) }
    {
        let loaded = self.load(feed);
        let outcome = answer_to_wait(loaded);
        self.asked.note(&OrderRecord::waited(feed, &outcome));
        outcome
    }
}
