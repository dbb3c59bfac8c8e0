//! What a scan is asked, and what it keeps of trips and stops and where journeys set out.
//!
//! What it keeps of trips and stops has the trait `Keeping`, so that a criterion can have a form of its own. `InLists`
//! serves any criterion. `Trips::end` and `Trips::change` change only the labels of one trip, by `fronts::offer_label`,
//! and append to `exits`; the latter reads the stops as they were before the connection, and `hop.bound`.
//! `Stops::board` reads the labels and `hop.bound`, and never the points found; it appends to the lists, and changes
//! `heads` and the scratch vector `ridden`.
//!
//! What it keeps where journeys set out has the trait `AtSource`: `Origin` for one question, from all sources together;
//! `Origins` for a question from each stop, with a list of points for each. Clauses speak of the question at an
//! `index`, which for `Origins` is the stop; `Origin` has one question, whatever the index. Setting out reads no bound.
//!
//! `Excludes` (specs/Bound.antt) says what the bound leaves out. The bound is always empty for `Origins`, and for a
//! criterion that doesn't say `riding_worsens`. `specs/` (Points, Continuations, Matching, Steps, then Parts) says what
//! a step is.
//!
//! A tag is an index: of a label, into `Trips::exits`; of a stop's point, into the steps of `Stops::lists`; of a point
//! found, into `Origin::set_outs`. An offer's tag is the vector's length before the offer, and the record is pushed
//! only if the offer is accepted. These vectors only grow while a scan runs, so a tag keeps its meaning, which
//! `spelling_of` (specs/ScanRecords.antt) says.
#![tactic(auto)]

mod at_source;
mod bound;
mod final_walk_table;
mod final_walks;
mod hop;
mod in_lists;
mod keeping;
mod origin;
mod origins;
mod riding;
mod scan_records;
mod set_query;
mod starts;
mod stops;
mod trips;

pub use at_source::AtSource;
pub use bound::{Bound, any_no_worse};
pub use final_walks::{FinalWalk, final_walk_of, final_walks_to};
pub use hop::{Hop, ScanQuery};
pub use in_lists::InLists;
pub use keeping::Keeping;
pub use origin::Origin;
pub use origins::Origins;
pub use scan_records::Exit;
pub use set_query::SetQuery;
pub use starts::starts_from;
pub use trips::end_of;
