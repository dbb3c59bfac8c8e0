//! `csa journey IMAGE TEXT QUERY`.

ghost use Rattle.std.specs.Prelude.{◌≡◌, IfOk, string_bytes};
ghost use Rattle.command_endings.specs.Ending.{IsOutcome, Prints};
ghost use Rattle.image_commands.specs.Judging.{IsAccepted, IsFaulty, IsVerdict, times_line};

use crate::question::{explain_question, query_asked};
use crate::refusal::{CommandRefusal, print_refusal};
use command_endings::status;
use command_requests::JourneyRequest;
use departure_lines::append_times;
use feed_messages::explain;
use image_files::Watched;
use image_verifier::Verified;
use journeys::{JourneyFault, TextFault, check, journey_parse};
use std::alloc::{AllocError, Global};
use std::io::{self, Write};
use text_pieces::put_text;
use timetable::{Journey, QueryFault, Times};

/// Why a journey isn't accepted.
#[derive(Drop)]
pub enum Failure {
    /// The question makes no query of the image.
    BadQuery(QueryFault),
    /// The text spells no journey.
    BadText,
    /// The journey doesn't hold in the image, or doesn't count for the query.
    Faulty(JourneyFault),
    OutOfMemory,
}

/// Prints when the journey departs and arrives; or the first fault of the query, of the text or of the journey, which
/// it explains in `errors`.
pub fn run<O: Watched, E: Write>(
    alloc: Global,
    image: &Verified,
    request: JourneyRequest<'_>,
    output: &mut O,
    errors: &mut E,
) -> u8
    ensures { IsOutcome (Prints (IsAccepted image.now request.entry.question request.entry.text.now)
        (IsFaulty image.now request.entry.question request.entry.text.now)) ⊥ (O.noted output.new) result
        (O.contents output.old) (O.contents output.new) }
{
    match judge(alloc, image, &request) {
        Ok(times) => match line_of(alloc, times) {
            Ok(line) => status::write_text(output, line.as_str(), status::ACCEPTED),
            Err(_) => status::OUT_OF_MEMORY,
        },
        Err(Failure::BadQuery(fault)) => {
            let status = print_refusal(alloc, output, CommandRefusal::Query(fault));
            if status == status::REFUSED {
                explain_question(image, &request.question, fault, errors);
            }
            status
        }
        Err(Failure::BadText) => {
            let status = print_refusal(alloc, output, CommandRefusal::BadText);
            if status == status::REFUSED {
                explain_text(errors);
            }
            status
        }
        Err(Failure::Faulty(fault)) => {
            let status = print_refusal(alloc, output, CommandRefusal::Journey(fault));
            if status == status::REFUSED {
                explain_fault(alloc, image, request.text, fault, errors);
            }
            status
        }
        Err(Failure::OutOfMemory) => status::OUT_OF_MEMORY,
    }
}

/// The line of an accepted journey: when it departs and arrives.
fn line_of(alloc: Global, times: Times) -> Result<String, AllocError>
    ensures { IfOk result (λ line. string_bytes line ≡ times_line times) }
{
    let mut line = String::new(alloc);
    put_text(&mut line, "ok ")?;
    append_times(&mut line, times.dep, times.arr)?;
    put_text(&mut line, "\n")?;
    Ok(line)
}

fn explain_text<E: Write>(errors: &mut E) {
    explain(
        errors,
        &[
            "csa: a journey is rides and walks by number, as `csa profile` prints them without --names: ",
            "`ride FIRST LAST`, `walk FROM TO SECS`, one space between words, at least one ride",
        ],
    );
}

// Says which ride or walk of a journey is wrong, and why.
fn explain_fault<E: Write>(
    alloc: Global,
    image: &Verified,
    text: &str,
    fault: JourneyFault,
    errors: &mut E,
) {
    let _ = match (fault, journey_parse(alloc, text.as_bytes())) {
        (JourneyFault::LegRange(number), Ok(journey)) => {
            explain_range(image, &journey, number, errors)
        }
        _ => write!(errors, "csa: {fault}\n"),
    };
}

// Says what is wrong with the connections of a ride.
fn explain_range<E: Write>(
    image: &Verified,
    journey: &Journey,
    number: usize,
    errors: &mut E,
) -> io::Result<()> {
    match (journey.rides.get(number), image.len().checked_sub(1)) {
        (None, _) => write!(errors, "csa: the journey has no ride\n"),
        (Some(_), None) => write!(errors, "csa: the image has no connections\n"),
        (Some(ride), Some(_)) if ride.leg.last < ride.leg.first => write!(
            errors,
            "csa: ride {number} (the first is ride 0): its first connection, {}, is after its last one, {}\n",
            ride.leg.first, ride.leg.last
        ),
        (Some(ride), Some(last)) => write!(
            errors,
            "csa: ride {number} (the first is ride 0): it has connections {} to {}, and the image has 0 to {last}\n",
            ride.leg.first, ride.leg.last
        ),
    }
}

/// Finds when the text's journey departs and arrives, if it counts for the question's query; otherwise the first fault,
/// of the query, of the text or of the journey. Memory may run out while the text is read.
fn judge(alloc: Global, image: &Verified, request: &JourneyRequest<'_>) -> Result<Times, Failure>
    ensures { IsVerdict image.now request.now.question request.now.text.now result }
{
    let query = match query_asked(image, &request.question) {
        Ok(query) => query,
        Err(fault) => return Err(Failure::BadQuery(fault)),
    };
    let journey = match journey_parse(alloc, request.text.as_bytes()) {
        Ok(journey) => journey,
        Err(TextFault::BadText) => return Err(Failure::BadText),
        Err(TextFault::OutOfMemory) => return Err(Failure::OutOfMemory),
    };
    match check(image, &query, &journey) {
        Ok(times) => Ok(times),
        Err(fault) => Err(Failure::Faulty(fault)),
    }
}
