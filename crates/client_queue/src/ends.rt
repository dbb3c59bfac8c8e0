//! The end of the queue where clients are put, and the ends where they are taken.

ghost use Rattle.std.specs.Prelude.{◌≡◌, IfOk};
ghost use Rattle.handoff.specs.Ends.{SendsOut, closed_once_more, unused_taker};
ghost use Rattle.client_queue.specs.Ends.{AllClientsWereTaken, DealerValue, closed_for_taker, nothing_put};
ghost use Rattle.client_queue.specs.Ends.{out_once_more, with_sent, with_taker_back};

use handoff::{EachItemOnce, Keeper, TakeEnd, empty_queue};
use std::alloc::{AllocError, Global};
use std::marker::Model;
use std::sync::Wait;

/// The end where clients are put. Contracts see which queue it belongs to, which clients were put, in order, how many
/// takers are out, and what those that came back had taken.
#[derive(Drop)]
pub struct Dealer<C: Drop> {
    keeper: Keeper<C, 1>,
}

impl<C: Drop> Model for Dealer<C> {
    ghost use Rattle.client_queue.specs.Ends.{DealerValue, IsDealer, dealer_of};

    ghost Value = { DealerValue C };

    ghost view = { λ dealer. record { queue = dealer.keeper.queue; view = dealer_of dealer.keeper.view } };

    ghost invariant = { λ dealer. IsDealer dealer.keeper };
}

/// An end where clients are taken. Contracts see which queue it belongs to, which clients were taken here, in order,
/// and whether the queue was closed for this end.
pub type Taker<C> = TakeEnd<C, EachItemOnce<1>>;

/// Makes an empty queue, in which one client may wait, and returns the end where clients are put.
pub fn client_queue<C: Drop>(alloc: Global) -> Result<Dealer<C>, AllocError>
    ensures { IfOk result (λ dealer. dealer.view ≡ nothing_put) }
{
    let keeper = empty_queue::<C, 1>(alloc)?;
    Ok(Dealer { keeper })
}

impl<C: Drop> Dealer<C> {
    /// Sends out a new taker of this queue, which has taken nothing. If memory is refused, nothing changes.
    pub fn taker(&mut self) -> Result<Taker<C>, AllocError>
        ensures { SendsOut (unused_taker self.old.queue) out_once_more result self.old self.new }
    {
        self.keeper.another_taker()
    }

    /// Puts a client, once there is room.
    pub fn put<R: Wait>(&mut self, rt: &R, client: C)
        requires { self.old.view.closings ≡ 0 }
        ensures { self.new ≡ with_sent self.old client }
    {
        self.keeper.put(rt, client);
    }

    /// Closes the queue for one taker, once there is room. No client can be put after it.
    pub fn close<R: Wait>(&mut self, rt: &R)
        ensures { self.new ≡ closed_for_taker self.old }
    {
        close_once(rt, &mut self.keeper);
    }

    /// Takes back a taker, with what it had taken.
    pub fn take_back(&mut self, taker: Taker<C>)
        requires { taker.queue ≡ self.old.queue }
        ensures { self.new ≡ with_taker_back self.old taker }
    {
        drop(self.keeper.take_back(taker));
    }

    /// Changes nothing. Its contract says that once no taker is out, the queue was closed, and each closing was taken
    /// by a taker that came back, what the takers took is what was put, each client once.
    pub fn all_were_taken(&mut self)
        ensures same { self.new ≡ self.old }
        ensures all { AllClientsWereTaken self.old.view }
    {
        self.keeper.all_were_taken();
    }
}

// Closes the queue once. While the end that keeps it can send out takers, it can be closed, but no contract says so.
fn close_once<R: Wait, C: Drop>(rt: &R, keeper: &mut Keeper<C, 1>)
    requires { keeper.old.view.putting ≡ 0 }
    ensures { keeper.new ≡ closed_once_more keeper.old }
{
    for _ in rt.forever() {
        if keeper.close(rt) {
            return;
        }
    }
    unreachable!()
}
