//! A feed's files are drawn for an order, and used for that one alone.

ghost use Rattle.std.specs.Prelude.{◌≤◌, length, MatchOption};
ghost use Rattle.feed_loads.specs.Drawing.{AreUnread, IsDrawnAt};

use crate::feeds::Feeds;
use feed_loader::FeedFiles;
use handoff::{EachItemOnce, TakeEnd};
use load_orders::{DrawPermit, GhostList, LoaderOrders, Order};
use std::snapshot::Snapshot;

/// The files of a feed, drawn for the order that the loader took last. Contracts also see what they and the loader's
/// end of the queue were when they were drawn: so files that were read for one order can't pass as those of another.
#[derive(Drop)]
pub struct DrawnFiles<D, N: Drop> {
    pub(crate) files: D,
    first: Snapshot<D>,
    end: Snapshot<TakeEnd<Order<N>, EachItemOnce<4>>>,
}

/// For each order that was carried out, its feed's files as they were after the load, or none if there is no feed at
/// the order's index. Only contracts see them.
pub type UsedFiles<D, N> = GhostList<Option<DrawnFiles<D, N>>>;

impl<D: FeedFiles, N: Drop> DrawnFiles<D, N> {
    /// Draws the files of the feed at the index, while this end of the queue is as given. None only where there is no
    /// such feed.
    pub(crate) fn draw<F: Feeds<Files = D>>(
        feeds: &F,
        index: usize,
        permit: DrawPermit<F::Leave>,
        orders: &LoaderOrders<N, F::Leave>,
    ) -> Option<DrawnFiles<D, N>>
        ensures { MatchOption result (length (F.words.named feeds.now) ≤ index) (λ drawn. AreUnread
            D.words drawn
            × F.words.are_files feeds.now index drawn.first.value
            × IsDrawnAt orders.now.queue orders.now.taken drawn) }
    {
        match feeds.files(index, permit) {
            Some(files) => Some(DrawnFiles {
                first: Snapshot::of(&files),
                files,
                end: orders.taken_by_now(),
            }),
            None => None,
        }
    }
}
