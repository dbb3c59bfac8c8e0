//! Timetables and their images: nothing but tests. The crates that they test have none of their own, so that they are
//! proved only once.
#![tactic(auto)]

#[cfg(test)]
mod tests;
