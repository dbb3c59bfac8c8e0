//! The text of the best departures from all stops.

ghost use Rattle.std.specs.Prelude.{◌≡◌, ◌++◌, IfOk, OnOk, length, string_bytes};
ghost use Rattle.scan_state.specs.SetQuery.{IsAskableBetween};
ghost use Rattle.profile_scan.specs.Destinations.{question_to_any};
ghost use Rattle.profile_scan.specs.Window.{window_of};
ghost use Rattle.image_files.specs.Naming.{printed};
ghost use Rattle.departure_lines.specs.Showing.{AreShown, last_line, names_of};

use crate::names::names_of;
use crate::stop_json::append_json_counts;
use crate::stop_lines::{AnswersToPrint, StopCounts, append_stops};
use crate::stop_lists::WantedStops;
use crate::stop_words::append_counts;
use command_requests::DeparturesForm;
use criteria::ShowsFigures;
use droppable_sources::in_place;
use image_files::NameForm;
use image_verifier::Verified;
use journeys::window_len;
use profile_scan::{ConnSource, Destinations, Scanned, profiles_to_any};
use std::alloc::{AllocError, Global};
use timetable::Query;

/// The text of the best departures to any of several targets from each wanted stop except the targets, in order and in
/// the given form; then the numbers of stops that have departures, of these departures, and of connections read. In
/// lines, names are written in the form `names`.
///
/// One scan answers for all stops; it reads the image in place. The only error is that memory runs out.
pub fn departures_text<C: ShowsFigures + Scanned>(
    alloc: Global,
    image: &Verified,
    criterion: &C,
    destinations: &Destinations,
    form: DeparturesForm,
    wanted: &WantedStops,
    names: NameForm,
) -> Result<String, AllocError>
    requires { IsAskableBetween image.now.timetable.stops (question_to_any destinations.now) }
    ensures { IfOk result (λ text. AreShown C.figures (C.rules criterion.now) form
        (printed (names_of form names) image.now)
        (question_to_any destinations.now) wanted.now (string_bytes text)) }
{
    let mut source = in_place(image);
    let read = window_size(&source, destinations);
    let profiles = profiles_to_any(alloc, &mut source, criterion, destinations)?;
    let shown = AnswersToPrint {
        alloc,
        image,
        criterion,
        profiles: &profiles,
        names: names_of(form, names),
    };
    let mut lines = String::new(alloc);
    let counts = append_stops(&mut lines, &shown, form, wanted)?;
    append_last(&mut lines, form, counts, read)?;
    Ok(lines)
}

// The number of connections that the window of what is asked has.
fn window_size<S: ConnSource>(source: &S, destinations: &Destinations) -> usize
    ensures { result ≡ length
        (window_of (S.timetable source.now) destinations.now.from destinations.now.by) }
{
    let times = Query {
        source: 0,
        target: 0,
        from: destinations.from,
        until: destinations.until,
        by: destinations.by,
    };
    window_len(source, &times)
}

// Adds the last line.
fn append_last(
    lines: &mut String,
    form: DeparturesForm,
    counts: StopCounts,
    read: usize,
) -> Result<(), AllocError>
    ensures { OnOk result (string_bytes lines.new ≡ string_bytes lines.old
        ++ last_line form counts.stops counts.points read) }
{
    match form {
        DeparturesForm::Json | DeparturesForm::JsonPoints | DeparturesForm::JsonSummary => {
            append_json_counts(lines, counts.stops, counts.points, read)
        }
        DeparturesForm::Journeys | DeparturesForm::Points | DeparturesForm::Summary => {
            append_counts(lines, counts.stops, counts.points, read)
        }
    }
}
