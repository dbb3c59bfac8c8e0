//! The query that the command line asks of an image, or what is wrong with it.

ghost use Rattle.std.specs.Prelude.{MatchResult};
ghost use Rattle.timetable.specs.Queries.{IsAskable};
ghost use Rattle.journeys.specs.Questions.{Asks, IsRefused};
ghost use Rattle.image_commands.specs.Asking.{window_of};

use command_requests::Question;
use feed_messages::{explain, quoted};
use image_verifier::Verified;
use journeys::{Window, query_of};
use std::alloc::Global;
use std::io::Write;
use timetable::{Query, QueryFault};

/// Makes the question's query of the image, whose stops it finds by their names; or returns the first fault.
pub fn query_asked(image: &Verified, question: &Question<'_>) -> Result<Query, QueryFault>
    ensures { MatchResult result
        (λ query. IsAskable image.now.timetable.stops query
        × Asks image.now.names question.now.from.now question.now.to.now (window_of question.now) query)
        (IsRefused image.now question.now.from.now question.now.to.now (window_of question.now)) }
{
    let window = Window {
        from: question.after,
        until: question.until,
        by: question.by,
    };
    query_of(
        image,
        question.from.as_bytes(),
        question.to.as_bytes(),
        window,
    )
}

/// What is wrong with a question from a stop to itself.
pub const SAME_STOP: &str = "csa: --from and --to are the same stop";

/// Says which end is no stop of the image, that both ends are the same, or what is wrong with the window.
pub fn explain_question<E: Write>(
    image: &Verified,
    question: &Question<'_>,
    fault: QueryFault,
    errors: &mut E,
) {
    match fault {
        QueryFault::UnknownStop => {
            explain_end(image, "--from", question.from, errors);
            explain_end(image, "--to", question.to, errors);
        }
        QueryFault::SameStop => explain(errors, &[SAME_STOP]),
        QueryFault::BadWindow => {
            let reason = window_reason(question.after, question.until, question.by);
            explain(errors, &["csa: ", reason]);
        }
    }
}

/// What is wrong with a window: one clock is before another, or later than any that an image can have.
pub fn window_reason(after: u32, until: u32, by: u32) -> &'static str {
    if until < after {
        "--until is before --after"
    } else if by < after {
        "--by is before --after"
    } else {
        "a clock is past 555555:33:19, the last second that an image can have"
    }
}

/// Why a stop_id is refused. It may be that of a station, which an image doesn't have.
const UNKNOWN: &str = "no stop of the image has this stop_id \
(stations aren't stops: give a platform's stop_id, which `csa stops IMAGE TEXT` lists)";

/// Says that an option's value is no stop of the image, if that is so. Takes no memory.
pub fn explain_end<E: Write>(image: &Verified, option: &str, stop: &str, errors: &mut E) {
    if image.find(stop.as_bytes()).is_none() {
        let _ = write!(errors, "csa: {option} {stop:?}: {UNKNOWN}\n");
    }
}

/// Says of each of these values of an option that is no stop of the image that it is none.
pub fn explain_ends<E: Write>(image: &Verified, option: &str, stops: &[&str], errors: &mut E) {
    for stop in stops {
        explain_end(image, option, stop, errors);
    }
}

/// Says that a line of the file of an option is no stop of the image, and shows the line, if there is memory for that.
pub fn explain_line<E: Write>(
    alloc: Global,
    option: &str,
    path: &str,
    number: usize,
    line: &str,
    errors: &mut E,
) {
    let _ = match quoted(alloc, line.as_bytes()) {
        Ok(shown) => {
            write!(
                errors,
                "csa: {option} {path}, line {number}: {shown}: {UNKNOWN}\n"
            )
        }
        Err(_) => write!(errors, "csa: {option} {path}, line {number}: {UNKNOWN}\n"),
    };
}
