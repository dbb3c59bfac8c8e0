//! Pictures of answers as SVG: a line for each journey along an axis of time, rides and walks drawn
//! apart, readable in light and dark.
#![tactic(auto)]

mod axis;
mod drawing;
mod escaping;
mod heading;
mod lines;
mod moments;
mod parts;
mod putting;
mod style;
mod telling;

pub use axis::Axis;
pub use drawing::picture;
pub use heading::heading_of;
pub use lines::{Heading, JourneyLine, Stretch, StretchKind};
pub use telling::journey_line;
