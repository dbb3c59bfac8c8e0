//! The answer of a profile query, and the laws by which one backward scan finds it.
//!
//! A profile query asks for all best departures of a window: of the points (departure, value) of all journeys, those
//! that no other dominates (`IsAnswerBetween`, specs/SetQuery.antt of `scan_state`). `profile_between` finds them as
//! the profile variant of the Connection Scan Algorithm does (Dibbelt, Pajor, Strasser, Wagner, ACM Journal of
//! Experimental Algorithmics, 2018): it goes once over the connections, from the last to the first, reading from any
//! `ConnSource`, and keeps the best points of each stop. In three things it differs. It serves any criterion, so a trip
//! has not one arrival but *labels*: each is a way for its passengers to go on, namely how they leave the trip and the
//! value of what follows. Between two legs one footpath is taken, and none is followed by another; to board at the same
//! stop it is the stop's loop, whose seconds are the change time. And the points found for the sources are kept by
//! themselves.
//!
//! The scan reads the connections of the query's window: those that depart at `from` or later and before `by`. (`until`
//! limits where a journey begins; later legs may depart after it.) The loop is `scan::scan_window`. It reads each index
//! of the window once, in falling order, as its clause `log` says, and calls `Scan::step`. A step returns at once if it
//! sees that the connection can add nothing but what the bound excludes; else it renews the bound, makes a `Hop` and
//! calls `Keeping::take`, which does the following.
//!
//! 1. Leave the trip, if passengers may get off. The journey may end there, or one footpath on (`hop.final_entry`). Or
//!    the passenger may change: to each of the stop's points that depart at the arrival or later. Both are offered to
//!    the labels of the connection's trip. A stop's point departs when the walk to the next connection begins: 3
//!    subtracts the change time, so 1 adds none. Staying on needs no code: the labels of the trip remain.
//! 2. Set out, if passengers may get on: `AtSource::set_out` offers the labels that the trip has after 1 to the points
//!    found. It does so without a footpath if the connection begins at a source, and after each footpath, loops
//!    excepted, from a source to there.
//! 3. Board, if passengers may get on: for each footpath into the stop where the connection begins, its loop included,
//!    the same labels are offered to the stop where that footpath begins, as points whose departure is the connection's
//!    less the footpath's seconds.
//!
//! A leg is counted where its trip is boarded, in 2 and 3: a label's value doesn't include it.
//!
//! By `Scanned` a criterion names the form in which trips and stops are kept: `InLists`, `ByArrival` or `ByTrips`. For
//! the points found `profile_between` keeps one list, an `Origin`; `profiles_to_any` and `profiles_to`, which answer
//! from every stop, keep `Origins`, a list for each. All else is the same scan.
//!
//! The bound, by which the paper too prunes, has values of points found that depart no earlier than the connection. 1
//! leaves out a point of the stop, and 3 a label, if one of these values is no worse than that point's or label's own
//! value with the ride in this trip. It is renewed before 1, so 3 doesn't see what 2 has just found.
//!
//! The invariant is `MatchesFrom` (specs/Matching.antt of `scan_state`) at the index i that the scan has come down to,
//! for every stop, every trip and the points found. Soundness: each point's tag spells a way to go on that has the
//! point's departure and value. Completeness: each way to go on over the connections from i on is covered, so some
//! point departs no earlier and is no worse; at stops and in trips a way may be left out if a point found outdoes it
//! (`IsOutdone`). `IsStep` (specs/Steps.antt of `scan_state`) says what one connection adds, and the functions of
//! `laws` prove that it suffices: `nothing_follows` begins the invariant, `one_index_down` keeps it at each step, and
//! `match_is_the_answer` ends it. If the scan stopped at index i, the points found would be the answer over the
//! journeys whose first connection is i or later; a journey with an earlier one may still depart after some of these
//! points, which begin with a footpath. Only `match_is_the_answer` needs the window's start.
//!
//! What a tag spells (`spelling_of`, specs/ScanRecords.antt of `scan_state`), `journey_nodes` makes into nodes, and
//! `journeys::extract` into a journey.
#![tactic(auto)]

mod answering;
mod destination;
mod destinations;
mod found;
mod found_between;
mod journey_nodes;
pub mod laws;
mod nodes;
mod profiles;
mod scan;
mod scanned;
mod to_any;
mod view;

pub use answering::{profile, profile_between};
pub use destination::Destination;
pub use destinations::Destinations;
pub use found::{Found, in_order};
pub use found_between::FoundBetween;
pub use nodes::Node;
pub use profiles::{Profiles, profiles_to};
pub use scan_state::{InLists, Keeping, SetQuery};
pub use scanned::Scanned;
pub use sources::{ConnSource, Decoded, InPlace, ReadLog};
pub use to_any::{ProfilesToAny, profiles_to_any};
