//! What the program runs on.

use crate::asking::Asks;
use crate::explaining::Explains;
use feed_files::Disk;
use feed_plans::WallClock;
use image_files::OutDisk;
use std::random::RandomSource;
use std::rt::Files;
use std::sync::Wait;
use std::thread::Threads;
use std::time::Clock;

/// What the program needs of the machine that it runs on, except sockets. These need a bound on associated types,
/// `Net<Listener = .., Stream = ..>`, which each function states itself: callers wouldn't learn the types from a bundle
/// of bounds like this one.
pub trait Machine: Files
    + OutDisk
    + Asks
    + RandomSource
    + Disk
    + Explains
    + AllocGlobal
    + Clock
    + WallClock
    + Threads
    + Wait
    + Sync {}

impl<H: Files + RandomSource + AllocGlobal + Clock + Threads + Wait + Sync> Machine for H {}
