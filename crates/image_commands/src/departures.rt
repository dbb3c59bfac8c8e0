//! `csa departures IMAGE --to STOP_ID.. --after .. --until .. --by .. --criterion NAME [--from FILE]
//! [--summary | --no-journeys] [--json]`.

ghost use Rattle.std.specs.Prelude.{◌≡◌, ℕ, [], IfOk, MatchResult, string_bytes};
ghost use Rattle.scan_state.specs.SetQuery.{IsAskableBetween, question};
ghost use Rattle.profile_scan.specs.Destinations.{question_to_any};
ghost use Rattle.station_answers.specs.Naming.{IsNoQuestion};
ghost use Rattle.command_requests.specs.declared.statuses.TheConstants.{REFUSED};
ghost use Rattle.departure_lines.specs.Showing.{names_of};
ghost use Rattle.image_files.specs.Naming.{printed};
ghost use Rattle.image_commands.specs.declared.wanted_stops.NoList.TheVariants.{UnknownStop};
ghost use Rattle.image_commands.specs.Commands.{PrintsDepartures};
ghost use Rattle.command_endings.specs.Ending.{EndsUndone, IsOutcome, PrintsOnly};
ghost use Rattle.image_commands.specs.Departing.{AreShownBy, AsksOfAll, LacksList, list_status, targets_asked};
ghost use Rattle.image_commands.specs.Departing.{window_asked};

use crate::question::{explain_ends, window_reason};
use crate::refusal::{CommandRefusal, print_refusal};
use crate::wanted_stops::{NoList, wanted_from};
use command_endings::status;
use command_requests::DeparturesRequest;
use criteria::{Arrival, ArrivalTrips, ArrivalTripsWalk, CriterionName};
use departure_lines::{WantedStops, departures_text};
use feed_messages::{explain, is_file};
use image_files::{ImageDisk, NameForm, Watched};
use image_verifier::Verified;
use journeys::Window;
use profile_scan::{Destinations, SetQuery};
use station_answers::{NoQuestion, question_between};
use std::alloc::{AllocError, Global};
use std::io::Write;
use std::rt::Files;
use timetable::QueryFault;

/// Prints the best departures from every stop, or from those that are wanted, in the form that is asked for, and then
/// how many stops and departures there are and how many connections were read. A line of the file of `--from` that
/// names no stop is reported in `errors` alone.
pub fn run<H: Files + ImageDisk<Image = H::File> + AllocGlobal, O: Watched, E: Write>(
    rt: &H,
    image: &Verified,
    request: &DeparturesRequest<'_>,
    names: NameForm,
    output: &mut O,
    errors: &mut E,
) -> u8
    ensures { IsOutcome (PrintsDepartures (H.may_hold rt.now) names image.now request.now)
        (LacksList (H.may_fail rt.now) (H.may_hold rt.now) image.now request.now) (O.noted output.new) result
        (O.contents output.old) (O.contents output.new) }
{
    match destinations_asked(rt.alloc(), image, request) {
        Ok(destinations) => print_wanted(rt, image, &destinations, request, names, output, errors),
        Err(NoQuestion::Bad(fault)) => {
            let status = print_refusal(rt.alloc(), output, CommandRefusal::Query(fault));
            if status == status::REFUSED {
                explain_fault(image, request, fault, errors);
            }
            status
        }
        Err(NoQuestion::OutOfMemory) => status::OUT_OF_MEMORY,
    }
}

// Prints the answer from the stops that are wanted, if it is known which these are.
fn print_wanted<H: Files + ImageDisk<Image = H::File> + AllocGlobal, O: Watched, E: Write>(
    rt: &H,
    image: &Verified,
    destinations: &Destinations,
    request: &DeparturesRequest<'_>,
    names: NameForm,
    output: &mut O,
    errors: &mut E,
) -> u8
    requires { AsksOfAll image.now request.now (question_to_any destinations.now) }
    ensures { IsOutcome (PrintsDepartures (H.may_hold rt.now) names image.now request.now)
        (LacksList (H.may_fail rt.now) (H.may_hold rt.now) image.now request.now) (O.noted output.new) result
        (O.contents output.old) (O.contents output.new) }
{
    match wanted_from(rt, image, request.from, errors) {
        Ok(wanted) => print_all(
            rt.alloc(),
            image,
            destinations,
            request,
            &wanted,
            names,
            output,
        ),
        Err(failure) => explain_list(rt, request, failure, errors),
    }
}

// Prints the answer.
fn print_all<O: Watched>(
    alloc: Global,
    image: &Verified,
    destinations: &Destinations,
    request: &DeparturesRequest<'_>,
    wanted: &WantedStops,
    names: NameForm,
    output: &mut O,
) -> u8
    requires { IsAskableBetween image.now.timetable.stops (question_to_any destinations.now) }
    ensures { IsOutcome (PrintsOnly (AreShownBy request.now.criterion request.now.form
        (printed (names_of request.now.form names) image.now)
        (question_to_any destinations.now) wanted.now)) ⊥ (O.noted output.new) result
        (O.contents output.old) (O.contents output.new) }
{
    match text_by_name(alloc, image, destinations, request, wanted, names) {
        Ok(text) => status::write_text(output, text.as_str(), status::ACCEPTED),
        Err(_) => status::OUT_OF_MEMORY,
    }
}

// Says which targets are no stops of the image, or what is wrong with the window.
fn explain_fault<E: Write>(
    image: &Verified,
    request: &DeparturesRequest<'_>,
    fault: QueryFault,
    errors: &mut E,
) {
    match fault {
        QueryFault::UnknownStop | QueryFault::SameStop => {
            explain_ends(image, "--to", &request.to, errors);
        }
        QueryFault::BadWindow => {
            let reason = window_reason(request.after, request.until, request.by);
            explain(errors, &["csa: ", reason]);
        }
    }
}

// Says why it isn't known from which stops departures are wanted, and returns the status. A line that is no stop_id was
// shown when the list was read.
fn explain_list<H: Files + AllocGlobal, E: Write>(
    rt: &H,
    request: &DeparturesRequest<'_>,
    failure: NoList,
    errors: &mut E,
) -> u8
    ensures kind { result ≡ list_status failure }
    ensures status { EndsUndone result }
    ensures refused { result ≡ REFUSED → (line : ℕ) × (failure ≡ UnknownStop line) }
{
    let path = request.from.unwrap_or("");
    match failure {
        NoList::UnknownStop(_line) => status::REFUSED,
        NoList::Unreadable => {
            let status = status::report_unreadable(rt, errors, path);
            explain_from(rt, path, errors);
            status
        }
        NoList::NotText => {
            explain(errors, &["csa: --from ", path, ": it isn't UTF-8"]);
            status::INPUT_OUTPUT
        }
        NoList::OutOfMemory => status::OUT_OF_MEMORY,
    }
}

// Says what `--from` is here, if its value is no plain file.
fn explain_from<H: Files, E: Write>(rt: &H, path: &str, errors: &mut E) {
    if !is_file(rt, path) {
        let line = "csa: --from is a file of stop_ids here; for one stop use csa profile";
        explain(errors, &[line]);
    }
}

// The targets and the window of the queries from every stop, or why they can't be asked.
fn destinations_asked(
    alloc: Global,
    image: &Verified,
    request: &DeparturesRequest<'_>,
) -> Result<Destinations, NoQuestion>
    ensures { MatchResult result
        (λ destinations. AsksOfAll image.now request.now (question_to_any destinations))
        (IsNoQuestion image.now [] (targets_asked request.now) (window_asked request.now)) }
{
    let window = Window {
        from: request.after,
        until: request.until,
        by: request.by,
    };
    match question_between(alloc, image, &[], &request.to, window) {
        Ok(query) => Ok(without_sources(query)),
        Err(failure) => Err(failure),
    }
}

// A question without sources, as one from every stop.
fn without_sources(query: SetQuery) -> Destinations
    requires { (question query).sources ≡ [] }
    ensures { question_to_any result ≡ question query }
{
    Destinations {
        targets: query.targets,
        from: query.from,
        until: query.until,
        by: query.by,
    }
}

// The text of the answer, under the criterion that the request names.
fn text_by_name(
    alloc: Global,
    image: &Verified,
    destinations: &Destinations,
    request: &DeparturesRequest<'_>,
    wanted: &WantedStops,
    names: NameForm,
) -> Result<String, AllocError>
    requires { IsAskableBetween image.now.timetable.stops (question_to_any destinations.now) }
    ensures { IfOk result (λ text. AreShownBy request.now.criterion request.now.form
        (printed (names_of request.now.form names) image.now)
        (question_to_any destinations.now) wanted.now (string_bytes text)) }
{
    let form = request.form;
    match request.criterion {
        CriterionName::Arrival => departures_text(
            alloc,
            image,
            &Arrival,
            destinations,
            form,
            wanted,
            names,
        ),
        CriterionName::ArrivalTrips => {
            departures_text(
                alloc,
                image,
                &ArrivalTrips,
                destinations,
                form,
                wanted,
                names,
            )
        }
        CriterionName::ArrivalTripsWalk => {
            departures_text(
                alloc,
                image,
                &ArrivalTripsWalk,
                destinations,
                form,
                wanted,
                names,
            )
        }
    }
}
