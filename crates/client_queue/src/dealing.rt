//! The clients are put in the queue.

ghost use Rattle.std.specs.Prelude.{◌≡◌, ◌+◌, ◌++◌, List};
ghost use Rattle.client_queue.specs.Dealing.{IsClosedFor, IsExhausted, IsPutSince};

use crate::clients::Clients;
use crate::ends::Dealer;
use std::sync::Wait;

/// Puts the clients in the queue, one by one as they come, until there are no more, and then closes the queue once for
/// each taker. Returns the clients' source.
pub fn deal_all<R: Wait, C: Drop, K: Clients<C> + Drop>(
    rt: &R,
    clients: K,
    dealer: &mut Dealer<C>,
    takers: usize,
) -> K
    requires { dealer.old.view.closings ≡ 0 }
    ensures source { IsExhausted K.words clients result }
    ensures put { (since : List C) × (K.words.came result ≡ K.words.came clients ++ since)
        × IsClosedFor takers since dealer.old dealer.new }
{
    let source = put_all(rt, clients, dealer);
    close_for(rt, dealer, takers);
    source
}

// Puts the clients in the queue, one by one as they come, until there are no more.
fn put_all<R: Wait, C: Drop, K: Clients<C> + Drop>(
    rt: &R,
    mut clients: K,
    dealer: &mut Dealer<C>,
) -> K
    requires { dealer.old.view.closings ≡ 0 }
    ensures source { IsExhausted K.words clients result }
    ensures put { IsPutSince (K.words.came clients) (K.words.came result) dealer.old dealer.new }
{
    for _ in rt.forever() {
        match clients.next() {
            Some(client) => dealer.put(rt, client),
            None => return clients,
        }
    }
    unreachable!()
}

// Closes the queue for so many takers.
fn close_for<R: Wait, C: Drop>(rt: &R, dealer: &mut Dealer<C>, takers: usize)
    ensures { dealer.new
        ≡ record dealer.old { view = record dealer.old.view { closings = dealer.old.view.closings + takers } } }
{
    for _taker in 0..takers {
        dealer.close(rt);
    }
}
