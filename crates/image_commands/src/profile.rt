//! `csa profile IMAGE --from STOP_ID.. --to STOP_ID.. --after .. --until .. --by .. --criterion NAME
//! [--names | --json [--legs]] [--picture FILE [--rows N]]`.

ghost use Rattle.std.specs.Prelude.{◌≡◌, ◌≢◌, IfOk, OnErr, OnOk, codes, false, string_bytes, true};
ghost use Rattle.scan_state.specs.SetQuery.{IsAskableBetween, question};
ghost use Rattle.image_commands.specs.Answering.{IsPicturePut, IsPictureUnwritable, IsProfile, IsShown, IsShownBy};
ghost use Rattle.image_commands.specs.Answering.{IsApart, IsOverImage, IsPictureAt, IsPictureUnwritten, LacksPicture};
ghost use Rattle.image_commands.specs.Commands.{PrintsProfile};
ghost use Rattle.command_endings.specs.Ending.{IsOutcome, PrintsOnly};
ghost use Rattle.image_commands.specs.Listing.{IsInForm};

use crate::listing::{named_lines, numbered_lines};
use crate::pictured::picture_asked;
use crate::question::{SAME_STOP, explain_ends, window_reason};
use crate::refusal::{CommandRefusal, print_refusal};
use crate::replying::reply_line;
use answer_replies::PointForm;
use command_endings::status;
use command_requests::{AnswerForm, ProfileRequest};
use criteria::{Arrival, ArrivalTrips, ArrivalTripsWalk, CriterionName, ShowsFigures};
use droppable_sources::in_place;
use feed_messages::{explain, shown_path};
use image_files::{NameForm, OutDisk, Watched, put_text_into};
use image_verifier::Verified;
use journeys::{Answer, Window};
use profile_scan::{Scanned, SetQuery};
use station_answers::{NoQuestion, answer_between, question_between};
use std::alloc::{AllocError, Global};
use std::io;
use std::io::Write;
use timetable::QueryFault;

/// The answer to a question: a text, and a picture if one is asked for.
#[derive(Drop)]
pub struct Profile {
    text: String,
    picture: Option<String>,
}

/// Prints the answer in the form that is asked for: a line for each best departure of any pair of stops with a journey,
/// then how many there are, how many connections were read, and the shortest direct footpath; or what a session would
/// reply. A picture that is asked for is written first.
pub fn run<H: OutDisk + AllocGlobal, O: Watched, E: Write>(
    rt: &H,
    image: &Verified,
    request: &ProfileRequest<'_>,
    names: NameForm,
    output: &mut O,
    errors: &mut E,
) -> u8
    ensures { IsOutcome (PrintsProfile (H.files rt.now) names image.now request.now)
        (LacksPicture (H.files rt.now) image.now request.now) (O.noted output.new) result
        (O.contents output.old) (O.contents output.new) }
{
    match profile_asked(rt.alloc(), image, request, names) {
        Ok(profile) => print_profile(rt, &profile, request, output, errors),
        Err(NoQuestion::Bad(fault)) => {
            let status = print_refusal(rt.alloc(), output, CommandRefusal::Query(fault));
            if status == status::REFUSED {
                explain_profile(image, request, fault, errors);
            }
            status
        }
        Err(NoQuestion::OutOfMemory) => status::OUT_OF_MEMORY,
    }
}

/// Writes the picture, if there is one, and then prints the text.
fn print_profile<H: OutDisk + AllocGlobal, O: Watched, E: Write>(
    rt: &H,
    profile: &Profile,
    request: &ProfileRequest<'_>,
    output: &mut O,
    errors: &mut E,
) -> u8
    ensures { IsOutcome (PrintsOnly (λ text. IsPictureAt (H.files rt.now) request.now.image.now request.now.picture
        profile.now.picture × (text ≡ string_bytes profile.now.text)))
        (IsPictureUnwritable (H.files rt.now) request.now.image.now request.now.picture)
        (O.noted output.new) result
        (O.contents output.old) (O.contents output.new) }
{
    if is_over_image(rt, request.picture, request.image) {
        let path = shown_path(request.picture.unwrap_or(""));
        explain(
            errors,
            &["csa: ", path, " can't be written: it is the image"],
        );
        return status::INPUT_OUTPUT;
    }
    match put_picture(rt, request.picture, &profile.picture) {
        Ok(()) => status::write_text(output, profile.text.as_str(), status::ACCEPTED),
        Err(error) => {
            let path = request.picture.unwrap_or("");
            status::report_unwritten(errors, path, error.kind())
        }
    }
}

/// Whether the path of a picture, if one is asked for, leads to the file of the image.
fn is_over_image<H: OutDisk>(rt: &H, path: Option<&str>, image: &str) -> bool
    ensures over { result ≡ true → IsOverImage (H.files rt.now) image.now path.entry }
    ensures apart { result ≡ false → image.now ≢ codes "-" → IsApart (H.files rt.now) image.now path.entry }
{
    match path {
        Some(path) => image != "-" && rt.is_one(path, image),
        None => false,
    }
}

/// Writes a picture into the file at its path, if there are both.
fn put_picture<H: OutDisk>(rt: &H, path: Option<&str>, picture: &Option<String>) -> io::Result<()>
    ensures put { OnOk result (IsPicturePut (H.files rt.now) path.entry picture.now) }
    ensures failed { OnErr result (IsPictureUnwritten (H.files rt.now) path.entry) }
{
    match path {
        None => Ok(()),
        Some(path) => match picture {
            None => Ok(()),
            Some(picture) => put_text_into(rt, path, picture.as_str()),
        },
    }
}

/// Answers the question, or returns why it can't be answered.
fn profile_asked(
    alloc: Global,
    image: &Verified,
    request: &ProfileRequest<'_>,
    names: NameForm,
) -> Result<Profile, NoQuestion>
    ensures { IsProfile names image.now request.now result }
{
    let window = Window {
        from: request.after,
        until: request.until,
        by: request.by,
    };
    let query = match question_between(alloc, image, &request.from, &request.to, window) {
        Ok(query) => query,
        Err(failure) => return Err(failure),
    };
    match profile_by_name(alloc, image, &query, request, names) {
        Ok(profile) => Ok(profile),
        Err(AllocError) => Err(NoQuestion::OutOfMemory),
    }
}

/// Answers a question under the criterion that the request names.
fn profile_by_name(
    alloc: Global,
    image: &Verified,
    query: &SetQuery,
    request: &ProfileRequest<'_>,
    names: NameForm,
) -> Result<Profile, AllocError>
    requires { IsAskableBetween image.now.timetable.stops (question query.now) }
    ensures { IfOk result (IsShownBy request.now.criterion names request.now image.now (question query.now)) }
{
    match request.criterion {
        CriterionName::Arrival => profile_by(alloc, image, &Arrival, query, request, names),
        CriterionName::ArrivalTrips => profile_by(
            alloc,
            image,
            &ArrivalTrips,
            query,
            request,
            names,
        ),
        CriterionName::ArrivalTripsWalk => {
            profile_by(alloc, image, &ArrivalTripsWalk, query, request, names)
        }
    }
}

/// Answers a question under a criterion: the text and the picture are of one and the same answer.
fn profile_by<C: ShowsFigures + Scanned>(
    alloc: Global,
    image: &Verified,
    criterion: &C,
    query: &SetQuery,
    request: &ProfileRequest<'_>,
    names: NameForm,
) -> Result<Profile, AllocError>
    requires { IsAskableBetween image.now.timetable.stops (question query.now) }
    ensures { IfOk result (IsShown C.figures (C.rules criterion.now) names request.now image.now
        (question query.now)) }
{
    let mut source = in_place(image);
    let answer = answer_between(alloc, &mut source, criterion, query)?;
    let picture = picture_asked(alloc, image, criterion, request, query, &answer)?;
    let text = text_in_form(alloc, image, names, criterion, &answer, request.form)?;
    Ok(Profile { text, picture })
}

/// The text of an answer, in a form, with names in their form in lines.
pub(crate) fn text_in_form<C: ShowsFigures>(
    alloc: Global,
    image: &Verified,
    names: NameForm,
    criterion: &C,
    answer: &Answer<C>,
    form: AnswerForm,
) -> Result<String, AllocError>
    ensures { IfOk result (λ text. IsInForm C.figures names image.now form answer.now.departures.items
        answer.now.read answer.now.walk (string_bytes text)) }
{
    match form {
        AnswerForm::Numbers => numbered_lines(alloc, criterion, answer),
        AnswerForm::Names => named_lines(alloc, image, names, criterion, answer),
        AnswerForm::Json => reply_line(alloc, PointForm::Bare, image, criterion, answer),
        AnswerForm::JsonLegs => reply_line(alloc, PointForm::WithLegs, image, criterion, answer),
    }
}

/// Says which stops the image doesn't have or are on both sides, or what is wrong with the window.
fn explain_profile<E: Write>(
    image: &Verified,
    request: &ProfileRequest<'_>,
    fault: QueryFault,
    errors: &mut E,
) {
    match fault {
        QueryFault::UnknownStop => {
            explain_ends(image, "--from", &request.from, errors);
            explain_ends(image, "--to", &request.to, errors);
        }
        QueryFault::SameStop => explain_shared(&request.from, &request.to, errors),
        QueryFault::BadWindow => {
            let reason = window_reason(request.after, request.until, request.by);
            explain(errors, &["csa: ", reason]);
        }
    }
}

/// Says which stops are on both sides.
fn explain_shared<E: Write>(from: &[&str], to: &[&str], errors: &mut E) {
    if from.len() == 1 && to.len() == 1 {
        explain(errors, &[SAME_STOP]);
        return;
    }
    for stop in from {
        if is_among(to, stop) {
            let _ = write!(errors, "csa: --from {stop:?}: it is given by --to too\n");
        }
    }
}

fn is_among(stops: &[&str], stop: &str) -> bool {
    for other in stops {
        if *other == stop {
            return true;
        }
    }
    false
}
