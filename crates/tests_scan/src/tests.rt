//! The scan's crates, called from outside. `images`, `examples` and `in_turn` have the images, examples and sources
//! that several tests use.

mod answering;
mod between;
mod bonus;
mod both;
mod dominating;
mod drawn_sets;
mod everywhere;
mod examples;
mod images;
mod in_turn;
mod judging;
mod listing;
mod random_images;
mod reading;
mod valuing;
mod wrong_steps;
