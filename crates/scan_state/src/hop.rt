//! What a scan is asked, and one connection of it.

use crate::final_walk_table::FinalWalks;
use crate::final_walks::FinalWalk;
use crate::set_query::SetQuery;
use crate::starts::{Starts, StopAccess};
use timetable::Connection;

/// What a scan is asked, the same at each connection.
#[derive(Drop)]
pub struct ScanQuery<C> {
    // by which values are compared
    pub criterion: C,
    // in a scan for all sources its list of sources is empty
    pub query: SetQuery,
    // for each stop whether it is a source, and whether a footpath that isn't a loop leads there from one
    pub starts: Starts,
    // for each stop the footpath from there to the nearest target
    pub final_walks: FinalWalks,
}

/// One connection, as a scan comes to it. What is rarely done for one is a call, never inlined, and takes the hop
/// itself: one that is lent to a call is written to memory at each connection.
#[derive(Clone, Copy)]
pub struct Hop<'a, V> {
    // as the source gave it
    pub connection: Connection,
    // the connection's index in the timetable
    pub place: u32,
    // how one may set out to board the connection; read only where `Origin` sets out
    pub access: StopAccess,
    // what `FinalWalks` has for the stop where the connection ends: the footpath from there to the nearest target (its
    // loop, if it is one), if there is one. It is read as it is: `final_walk_of` says which, where one may get off
    pub final_entry: FinalWalk,
    // the bound, renewed before this connection is taken in: values of points found that depart no earlier than it. A
    // stop's point isn't offered to labels, nor a label to stops, if a value of the bound is no worse than the point's
    // or label's value with the ride. Empty in a scan for all sources
    pub bound: &'a [V],
    // whether the points found were looked at for new values. If not, what was made of the bound at an earlier
    // connection may be used again: it excludes nothing that these values don't
    pub renewed: bool,
}
