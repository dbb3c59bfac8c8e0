//! Versions of timetables, from the state machine to the shelves that follow it: nothing but tests.
#![tactic(auto)]

#[cfg(test)]
mod tests;
