//! A warning of ids that break the lines that are printed: a part of one with a line feed looks like a line of its own,
//! unless line feeds are shown by their code. It takes no memory.

ghost use Rattle.std.specs.Prelude.{◌≤◌, ◌<◌, ◌+◌};

use command_requests::{AnswerForm, DeparturesForm, ImageRequest};
use feed_messages::explain;
use image_files::NameForm;
use image_verifier::Verified;
use std::io::Write;

/// What is printed of an image's ids in lines.
#[derive(Clone, Copy, Drop)]
enum PrintedIds {
    None,
    Stops,
    StopsAndTrips,
}

/// Warns of an id with a line feed, if the command prints ids as they are in lines.
pub fn warn_of_line_feeds<E: Write>(
    image: &Verified,
    asked: &ImageRequest<'_>,
    names: NameForm,
    errors: &mut E,
) {
    let count = match names {
        NameForm::Shown => 0,
        NameForm::Raw => ids_printed(image, asked),
    };
    if has_line_feed(image, count) {
        let reason = "a part of it looks like a line of its own: --json shows it whole";
        explain(
            errors,
            &[
                "csa: warning: an id of the image has a line feed, so ",
                reason,
            ],
        );
    }
}

// How many of the image's names, those of the stops and then those of the trips, the command may print in lines.
fn ids_printed(image: &Verified, asked: &ImageRequest<'_>) -> usize
    ensures { result ≤ image.now.timetable.stops + image.now.timetable.trips }
{
    match printed_ids(asked) {
        PrintedIds::None => 0,
        PrintedIds::Stops => image.stops() as usize,
        PrintedIds::StopsAndTrips => image.stops() as usize + image.trips() as usize,
    }
}

fn printed_ids(asked: &ImageRequest<'_>) -> PrintedIds {
    match asked {
        ImageRequest::Stops(request) if !request.json => PrintedIds::Stops,
        ImageRequest::Departures(request) => match request.form {
            DeparturesForm::Journeys | DeparturesForm::Points | DeparturesForm::Summary => {
                PrintedIds::Stops
            }
            _ => PrintedIds::None,
        },
        ImageRequest::Profile(request) => match request.form {
            AnswerForm::Names => PrintedIds::StopsAndTrips,
            _ => PrintedIds::None,
        },
        _ => PrintedIds::None,
    }
}

// Whether one of the first names, those of the stops and then those of the trips, has a line feed.
fn has_line_feed(image: &Verified, count: usize) -> bool
    requires { count ≤ image.now.timetable.stops + image.now.timetable.trips }
{
    for i in 0..count {
        if is_broken(image, i) {
            return true;
        }
    }
    false
}

// Whether a name has a line feed.
fn is_broken(image: &Verified, i: usize) -> bool
    requires { i < image.now.timetable.stops + image.now.timetable.trips }
{
    image.stops();
    let len = image.name_len(i);
    for j in 0..len {
        if image.name_byte(i, j) == b'\n' {
            return true;
        }
    }
    false
}
