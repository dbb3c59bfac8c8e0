//! The commands over an image.

ghost use Rattle.image_commands.specs.Commands.{IsUnusable, PrintsAsked};
ghost use Rattle.command_endings.specs.Ending.{IsOutcome};

use crate::line_feeds::warn_of_line_feeds;
use crate::windows::{DepartureRange, warn_of_window};
use crate::{departures, info, journey, profile, stops, upgrade, verify};
use command_endings::status;
use command_requests::ImageRequest;
use image_files::{ImageDisk, NameForm, OutDisk, Watched};
use image_verifier::Verified;
use std::io::Write;

/// Does what is asked of `image`, which need not be the one at the command's path: prints the result to `output`, or
/// why there is none, which it explains in `errors`. In lines, ids are in the form `names`. Returns `ACCEPTED`,
/// `REFUSED`, `INPUT_OUTPUT` if a file or a line can't be read or written, or `OUT_OF_MEMORY`, with nothing printed to
/// `output`. If `warnings` is set, warns in `errors` of a window that goes beyond the image's connections, and of ids
/// that break lines.
pub fn answer<H: OutDisk + ImageDisk<Image = H::File> + AllocGlobal, O: Watched, E: Write>(
    rt: &H,
    image: &Verified,
    asked: &ImageRequest<'_>,
    names: NameForm,
    output: &mut O,
    errors: &mut E,
    warnings: bool,
) -> u8
    ensures { IsOutcome (PrintsAsked (H.may_hold rt.now) (H.files rt.now) names image.now asked.now)
        (IsUnusable (H.may_fail rt.now) (H.may_hold rt.now) (H.files rt.now) image.now asked.now) (O.noted output.new)
        result
        (O.contents output.old) (O.contents output.new) }
{
    let status = do_asked(rt, image, asked, names, output, errors);
    if warnings && status == status::ACCEPTED {
        warn_of_departures(image, asked, errors);
        warn_of_line_feeds(image, asked, names, errors);
    }
    status
}

// Does what is asked, as `answer` does, but warns of nothing.
fn do_asked<H: OutDisk + ImageDisk<Image = H::File> + AllocGlobal, O: Watched, E: Write>(
    rt: &H,
    image: &Verified,
    asked: &ImageRequest<'_>,
    names: NameForm,
    output: &mut O,
    errors: &mut E,
) -> u8
    ensures { IsOutcome (PrintsAsked (H.may_hold rt.now) (H.files rt.now) names image.now asked.now)
        (IsUnusable (H.may_fail rt.now) (H.may_hold rt.now) (H.files rt.now) image.now asked.now) (O.noted output.new)
        result
        (O.contents output.old) (O.contents output.new) }
{
    match asked {
        ImageRequest::Verify(_) => verify::run(rt.alloc(), image, output),
        ImageRequest::Info(request) => info::run(rt.alloc(), image, *request, output),
        ImageRequest::Journey(request) => journey::run(rt.alloc(), image, *request, output, errors),
        ImageRequest::Profile(request) => profile::run(rt, image, request, names, output, errors),
        ImageRequest::Departures(request) => departures::run(
            rt, image, request, names, output, errors,
        ),
        ImageRequest::Stops(request) => stops::run(
            rt.alloc(),
            image,
            *request,
            names,
            output,
            errors,
        ),
        ImageRequest::Upgrade(request) => upgrade::run(rt, image, *request, output, errors),
    }
}

// Warns of the window of departures that is asked for, if there is one and it goes beyond the image's connections.
fn warn_of_departures<E: Write>(image: &Verified, asked: &ImageRequest<'_>, errors: &mut E) {
    if let Some(departures) = departures_in(asked) {
        warn_of_window(image, departures, errors);
    }
}

// The window of departures that is asked for, if the command has one.
fn departures_in(asked: &ImageRequest<'_>) -> Option<DepartureRange> {
    match asked {
        ImageRequest::Profile(request) => Some(DepartureRange {
            first: request.after,
            last: request.until,
        }),
        ImageRequest::Departures(request) => Some(DepartureRange {
            first: request.after,
            last: request.until,
        }),
        _ => None,
    }
}
