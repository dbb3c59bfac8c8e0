//! What clients and users are answered: lines, replies, whole sessions and pictures. Nothing but tests.
#![tactic(auto)]

#[cfg(test)]
mod legs;
#[cfg(test)]
mod pictures;
#[cfg(test)]
mod reading;
#[cfg(test)]
mod scripted;
#[cfg(test)]
mod sessions;
#[cfg(test)]
mod sets;
#[cfg(test)]
mod streams;
#[cfg(test)]
mod texts;
