//! Refusals as they are printed: a number, a name and the positions, each after a space.

ghost use Rattle.std.specs.Prelude.{◌≡◌, ◌++◌, IfOk, OnOk, Some, string_bytes};
ghost use Rattle.std.specs.Io.KnownBytes.{Appends};
ghost use Rattle.command_requests.specs.declared.statuses.TheConstants.{INPUT_OUTPUT, OUT_OF_MEMORY, REFUSED};
ghost use Rattle.journeys.specs.Numbers.{text_number};
ghost use Rattle.journeys.specs.Texts.{number_text};
ghost use Rattle.journeys.specs.declared.text_fault.TextFault.TheVariants.{BadText as OfText};
ghost use Rattle.command_endings.specs.Ending.{EndsUndone};
ghost use Rattle.image_files.specs.Watching.{HasFault, IsBegun};
ghost use Rattle.image_commands.specs.Refusing.{image_positions, journey_positions, numbered_refusal};
ghost use Rattle.image_commands.specs.Refusing.{refusal_line, refusal_positions};

use command_endings::{begin_refusal, status};
use image_files::Watched;
use image_layout::WordsFault;
use image_verifier::ImageFault;
use journeys::{JourneyFault, TextFault};
use std::alloc::{AllocError, Global};
use text_pieces::{put_number, put_text};
use timetable::QueryFault;

/// Why a request is refused.
#[derive(Clone, Copy, Drop)]
pub enum CommandRefusal {
    /// The bytes of an image aren't whole words.
    OddLength,
    Image(ImageFault),
    Query(QueryFault),
    /// A text that spells no journey.
    BadText,
    Journey(JourneyFault),
}

impl CommandRefusal {
    /// The refusal's number, such as 61.
    fn number(self) -> u8
        ensures { result ≡ (numbered_refusal self).0 }
    {
        match self {
            CommandRefusal::OddLength => WordsFault::OddLength.number(),
            CommandRefusal::Image(fault) => fault.number(),
            CommandRefusal::Query(fault) => fault.number(),
            CommandRefusal::BadText => bad_text_number(),
            CommandRefusal::Journey(fault) => fault.number(),
        }
    }

    /// The refusal's name, such as `BadMagic`.
    fn name(self) -> &'static str
        ensures { result.now ≡ (numbered_refusal self).1 }
    {
        match self {
            CommandRefusal::OddLength => WordsFault::OddLength.name(),
            CommandRefusal::Image(fault) => fault.name(),
            CommandRefusal::Query(fault) => fault.name(),
            CommandRefusal::BadText => TextFault::BadText.name(),
            CommandRefusal::Journey(fault) => fault.name(),
        }
    }
}

// The number of the refusal of a text that spells no journey.
fn bad_text_number() -> u8
    ensures { Some result ≡ text_number OfText }
{
    80
}

/// The line of a refusal.
pub fn refusal_line(alloc: Global, refusal: CommandRefusal) -> Result<String, AllocError>
    ensures { IfOk result (λ line. string_bytes line ≡ refusal_line refusal) }
{
    let mut line = begin_refusal(alloc, refusal.number(), refusal.name())?;
    put_positions(&mut line, refusal)?;
    put_text(&mut line, "\n")?;
    Ok(line)
}

// Adds the positions of a refusal: where something is wrong.
fn put_positions(line: &mut String, refusal: CommandRefusal) -> Result<(), AllocError>
    ensures { OnOk result (string_bytes line.new ≡ string_bytes line.old ++ refusal_positions refusal) }
{
    match refusal {
        CommandRefusal::OddLength | CommandRefusal::Query(_) | CommandRefusal::BadText => Ok(()),
        CommandRefusal::Image(fault) => put_image_positions(line, fault),
        CommandRefusal::Journey(fault) => put_journey_positions(line, fault),
    }
}

// Adds which connection, stop or name of an image is wrong, or which three stops.
fn put_image_positions(line: &mut String, fault: ImageFault) -> Result<(), AllocError>
    ensures { OnOk result (string_bytes line.new ≡ string_bytes line.old ++ image_positions fault) }
{
    match fault {
        ImageFault::BadMagic
        | ImageFault::BadLayout
        | ImageFault::BadLength
        | ImageFault::OutOfMemory => Ok(()),
        ImageFault::StopRange(i)
        | ImageFault::TripRange(i)
        | ImageFault::HopWithoutDuration(i)
        | ImageFault::Unsorted(i)
        | ImageFault::TripBroken(i)
        | ImageFault::TimeRange(i)
        | ImageFault::BadFlags(i)
        | ImageFault::FootRange(i)
        | ImageFault::FootUnsorted(i)
        | ImageFault::NoLoop(i)
        | ImageFault::BadNames(i) => put_position(line, i),
        ImageFault::NotClosed(a, b, c) => put_three(line, a, b, c),
    }
}

// Adds which leg or walk of a journey is wrong.
fn put_journey_positions(line: &mut String, fault: JourneyFault) -> Result<(), AllocError>
    ensures { OnOk result (string_bytes line.new ≡ string_bytes line.old ++ journey_positions fault) }
{
    match fault {
        JourneyFault::LegRange(leg)
        | JourneyFault::TwoTrips(leg)
        | JourneyFault::NoBoarding(leg)
        | JourneyFault::NoAlighting(leg)
        | JourneyFault::TooEarly(leg) => put_position(line, leg),
        JourneyFault::NoFootpath(walk) | JourneyFault::WalkBroken(walk) => put_position(line, walk),
        JourneyFault::WrongEnds | JourneyFault::OutsideWindow => Ok(()),
    }
}

fn put_position(line: &mut String, position: usize) -> Result<(), AllocError>
    ensures { OnOk result (string_bytes line.new ≡ string_bytes line.old ++ number_text position) }
{
    put_number(line, " ", position as u64)
}

fn put_three(line: &mut String, a: usize, b: usize, c: usize) -> Result<(), AllocError>
    ensures { OnOk result (string_bytes line.new
        ≡ string_bytes line.old ++ (number_text a ++ number_text b ++ number_text c)) }
{
    put_position(line, a)?;
    put_position(line, b)?;
    put_position(line, c)?;
    Ok(())
}

/// Prints the line of a refusal. Returns `REFUSED`; or `INPUT_OUTPUT` if a write fails, and then a first part of the
/// line, possibly empty, was written, and the output has a fault; or `OUT_OF_MEMORY` if memory runs out, and then
/// nothing was written.
pub fn print_refusal<O: Watched>(alloc: Global, output: &mut O, refusal: CommandRefusal) -> u8
    ensures status { EndsUndone result }
    ensures printed { result ≡ REFUSED
        → Appends (O.contents output.old) (O.contents output.new) (refusal_line refusal) }
    ensures silent { result ≡ OUT_OF_MEMORY → O.contents output.new ≡ O.contents output.old }
    ensures begun { result ≡ INPUT_OUTPUT
        → IsBegun (O.contents output.old) (O.contents output.new) (refusal_line refusal) }
    ensures failed { result ≡ INPUT_OUTPUT → HasFault (O.noted output.new) }
{
    match refusal_line(alloc, refusal) {
        Ok(line) => status::write_text(output, line.as_str(), status::REFUSED),
        Err(_) => status::OUT_OF_MEMORY,
    }
}
