//! Traces and kept values, as a caller uses them: what contracts know of them, and that they take no bytes.

mod counter;
mod shares;
mod unseen;
