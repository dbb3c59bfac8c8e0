//! Travel times: what the best departures from one stop to another amount to, and the rows of a table of them.
#![tactic(auto)]

mod falling;
mod fields;
mod figures;
mod numbers;
mod rows;
mod spans;
mod tally;
mod waiting;

pub use fields::{Pair, put_pair, put_pair_names, put_point, put_point_names};
pub use figures::least_travel;
pub use rows::Rows;
pub use spans::Span;
pub use waiting::mean_wait;
