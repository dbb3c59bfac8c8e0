//! The end that keeps the queue of orders.

ghost use Rattle.std.specs.Prelude.{◌≡◌, IfNone, IfOk, IfSome, IsPermutation, MatchBool, false};
ghost use Rattle.handoff.specs.Ends.{SendsOut, unused_putter};
ghost use Rattle.load_orders.specs.Answering.{nothing_taken};
ghost use Rattle.load_orders.specs.Keeping.{OrderKeeperValue, closed_for_loader, nothing_ordered, with_one_out};
ghost use Rattle.load_orders.specs.Keeping.{with_orders};

use crate::ghost_list::GhostList;
use crate::loader::{LoaderOrders, UsedLoader};
use crate::queue::{Order, OrderEnd};
use crate::taking::UsedOrders;
use handoff::{Keeper, empty_queue};
use std::alloc::{AllocError, Global};
use std::marker::Model;
use std::sync::Wait;
use timetable::GhostValue;

/// The end that keeps the queue, in which four orders may wait: others go out from it and come back, it closes the
/// queue behind all orders, and the loader comes back to it. Contracts see which queue, what was put at the ends that
/// came back, how many are out, and how often the queue was closed.
#[derive(Drop)]
pub struct OrderKeeper<N: Drop> {
    keeper: Keeper<Order<N>, 4>,
}

impl<N: Drop> Model for OrderKeeper<N> {
    ghost use Rattle.load_orders.specs.Keeping.{IsOrderKeeper, OrderKeeperValue};

    ghost Value = { OrderKeeperValue N };

    ghost view = { λ s. record {
      queue = s.keeper.queue;
      put = s.keeper.view.put;
      out = s.keeper.view.putting;
      closings = s.keeper.view.closings;
    } };

    ghost invariant = { λ s. IsOrderKeeper s.keeper };
}

/// An empty queue for four orders: the end that keeps it, and the loader's. It takes the leave to load, so only one can
/// be made with it.
pub fn order_queue<N: Drop, V: Drop>(
    alloc: Global,
    leave: V,
) -> Result<(OrderKeeper<N>, LoaderOrders<N, V>), AllocError>
    ensures keeper { IfOk result (λ ends. ends.0 ≡ nothing_ordered ends.1.queue) }
    ensures loader { IfOk result (λ ends. ends.1 ≡ nothing_taken ends.1.queue) }
{
    let mut keeper = empty_queue::<Order<N>, 4>(alloc)?;
    let end = keeper.last_taker();
    let loader = LoaderOrders {
        end,
        answered: GhostList::none(),
        leave: GhostValue::of(&leave),
    };
    Ok((OrderKeeper { keeper }, loader))
}

impl<N: Drop> OrderKeeper<N> {
    /// A new end of this queue, at which orders are put; none was put there yet.
    pub fn another_end(&mut self) -> Result<OrderEnd<N>, AllocError>
        requires { self.old.closings ≡ 0 }
        ensures { SendsOut (unused_putter self.old.queue) with_one_out result self.old self.new }
    {
        self.keeper.another_putter()
    }

    /// An end comes back, with what was put there.
    pub fn take_in(&mut self, used: UsedOrders<N>)
        requires { used.end.queue ≡ self.old.queue }
        ensures { self.new ≡ with_orders self.old used.end.items }
    {
        self.keeper.take_in(used.end);
    }

    /// Puts a closing behind all orders, once there is room: the loader that takes it takes no more. False if the
    /// loader is gone.
    pub fn close<R: Wait>(&mut self, rt: &R) -> bool
        requires { self.old.out ≡ 0 }
        ensures { MatchBool result (self.new ≡ closed_for_loader self.old) (self.new ≡ self.old) }
    {
        self.keeper.close(rt)
    }

    /// Takes back the loader's end, once all other ends are back: what was put was taken there, each order once. None
    /// if no closing was taken there.
    pub fn finish<V>(self, loader: LoaderOrders<N, V>) -> Option<UsedLoader<N>>
        requires queue { loader.queue ≡ self.queue }
        requires back { self.out ≡ 0 }
        ensures same { IfSome result (λ used. used ≡ loader) }
        ensures all { IfSome result (λ used. IsPermutation self.put used.taken) }
        ensures left { IfNone result (loader.closed ≡ false) }
    {
        let OrderKeeper { mut keeper } = self;
        let LoaderOrders {
            end,
            answered,
            leave: _,
        } = loader;
        let closed = end.is_closed();
        let end = keeper.take_back(end);
        if !closed {
            return None;
        }
        keeper.all_were_taken();
        Some(UsedLoader { end, answered })
    }
}
