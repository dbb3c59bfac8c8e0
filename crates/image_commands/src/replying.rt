//! An answer as a session replies it.

ghost use Rattle.std.specs.Prelude.{◌≡◌, IfOk, string_bytes};
ghost use Rattle.image_commands.specs.Listing.{IsReply, without_brace};

use answer_replies::{PointForm, profile_reply};
use criteria::ShowsFigures;
use image_facts::begin_with_base;
use image_verifier::Verified;
use journeys::Answer;
use std::alloc::{AllocError, Global};
use text_pieces::put_text;

/// The version of the image with which a server starts.
const FIRST_VERSION: u64 = 1;

/// The line that a session replies, with the image as version 1, after the image's base, in seconds and as a date and a
/// time of UTC.
pub fn reply_line<C: ShowsFigures>(
    alloc: Global,
    form: PointForm,
    image: &Verified,
    criterion: &C,
    answer: &Answer<C>,
) -> Result<String, AllocError>
    ensures { IfOk result (λ line. IsReply form C.figures image.now answer.now.departures.items answer.now.walk
        (string_bytes line)) }
{
    let reply = profile_reply(alloc, form, image, FIRST_VERSION, criterion, answer)?;
    let mut line = String::new(alloc);
    begin_with_base(&mut line, image.base())?;
    put_text(&mut line, ",")?;
    put_text(&mut line, members_of(reply.as_str()))?;
    Ok(line)
}

// An object of JSON without the brace with which it begins.
fn members_of(object: &str) -> &str
    ensures { result.now ≡ without_brace object.now }
{
    match object.strip_prefix('{') {
        Some(members) => members,
        None => object,
    }
}
