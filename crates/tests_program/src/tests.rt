//! `transcript` reads and runs transcripts, `running` runs a command for them, and `base_feed` has the feed that most
//! of them change.

mod all_faults;
mod base_feed;
mod building;
mod checking;
mod clocks;
mod command_lines;
mod hostile_images;
mod informing;
mod matrices;
mod profiles;
mod repeating;
mod running;
mod serving;
mod sessions;
mod station_names;
mod stations;
mod tables;
mod town_journeys;
mod transcript;
mod unreadable;
mod upgrading;
