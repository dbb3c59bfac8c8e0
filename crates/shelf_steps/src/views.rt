//! What the seats know. Only contracts see it.

use crate::edition::Edition;
use image_verifier::Verified;
use std::collections::LinkedList;
use version_core::{Event, Reply, Shelf, Worker};

/// A beginning of what happened, with the images so far. No value of it is made.
pub struct KnownHistory {
    pub events: LinkedList<Event>,
    pub replies: LinkedList<Reply>,
    pub images: LinkedList<Verified>,
}

/// What a worker's seat knows. No value of it is made.
pub struct WorkerView {
    /// The worker's number, from 0 to 15.
    pub number: u64,
    /// What the worker is doing.
    pub now: Worker,
    /// The greatest version seen.
    pub seen: u64,
    /// The version last looked at.
    pub last: u64,
    /// Whether a late take showed that the version last looked at is no longer current.
    pub passed: bool,
    /// The edition that is held.
    pub edition: Option<Edition>,
    /// The versions of the notices that were taken in, from the first to the last.
    pub joined: LinkedList<u64>,
    /// What happened, up to the worker's last step on a word.
    pub known: KnownHistory,
}

/// What the loader's seat knows. No value of it is made.
pub struct LoaderView {
    /// How many workers' seats were handed out.
    pub handed: u64,
    /// How many notices went out.
    pub notes: u64,
    /// The current version.
    pub current: u64,
    /// The shelf of the current version.
    pub current_shelf: u64,
    /// What each shelf is for.
    pub shelves: LinkedList<Shelf>,
    /// The free shelf whose slots are out with the loader.
    pub hand: Option<u64>,
    /// What happened, up to the loader's last step on a word.
    pub known: KnownHistory,
}

/// What a seat knows. No value of it is made.
pub enum View {
    /// The loader's.
    Loading(LoaderView),
    /// A worker's.
    Working(WorkerView),
    /// A notice of this version.
    Noting { version: u64 },
    /// What is left of a notice that was taken in.
    Spent,
}
