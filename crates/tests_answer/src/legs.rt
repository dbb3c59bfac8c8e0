//! Replies with the legs of journeys.

ghost use Rattle.std.specs.Prelude.{◌≡◌};

use crate::sessions::{Solo, image, image_of, lines_of, solo_of};
use crate::streams::{taker_of, whole};
use criteria::Figures;
use image_layout::second_sample_words;
use image_verifier::Verified;
use session::{OpenGate, PointForm, ReplyForm, SessionServer, Streams};
use session_texts::{JourneyLegs, Points, RideLeg, WalkLeg};
use shelves::{NamedShelves, ShelvesName};
use solo_orders::SoloOrders;
use std::alloc::{AllocError, Global};
use std::marker::Brand;
use std::process::Abort;
use std::sync::Arc;
use std::test::Fail;

const PIN: &str = "{\"do\":\"pin\"}";

const BY_WALKING: &str =
    "{\"do\":\"profile\",\"from\":\"A\",\"to\":\"C\",\"after\":\"07:00:00\",\"until\":\"09:00:00\",\"by\":\"10:00:00\",\"criterion\":\"arrival+trips+walk\"}";

const BY_ARRIVAL: &str =
    "{\"do\":\"profile\",\"from\":\"A\",\"to\":\"C\",\"after\":\"07:00:00\",\"until\":\"09:00:00\",\"by\":\"10:00:00\",\"criterion\":\"arrival\"}";

// Serves a session whose profiles are replied to in this form, and returns what was written.
fn replied_at<B: ShelvesName>(
    alloc: Global,
    solo: Solo,
    form: ReplyForm,
    requests: &[u8],
) -> Vec<u8>
    requires { (solo.shelves ≡ B.table) × (solo.loader.table ≡ B.table) × (solo.seat.table ≡ B.table) }
{
    let (shelves, loader, mut seat) = NamedShelves::<B>::with_seat(
        solo.shelves,
        solo.loader,
        solo.seat,
    );
    let mut orders = SoloOrders::new(&shelves, loader, Vec::new(alloc));
    let mut streams = Streams::new(whole(requests), taker_of(alloc, 10_000, true));
    let session_server = SessionServer {
        alloc,
        shelves: &shelves,
        gate: &OpenGate,
        form,
    };
    let _ = session_server.serve(&mut streams, &mut seat, &mut orders);
    streams.writer.into_inner().taken
}

/// What is written in a session over this image, with replies in this form, that pins and asks this.
pub(crate) fn replied(
    alloc: Global,
    first: Arc<Verified, Global>,
    form: ReplyForm,
    profile: &str,
) -> Result<Vec<u8>, Fail> {
    let requests = lines_of(alloc, &[PIN, profile])?;
    let solo = solo_of(alloc, first)?;
    Ok(replied_at::<Brand>(alloc, solo, form, &requests))
}

const BARE_REPLIES: &str =
    "{\"base\":1705276800,\"ok\":\"pin\",\"version\":1}\n{\"ok\":\"profile\",\"points\":[{\"arr\":\"08:20:00\",\"dep\":\"08:00:00\",\"journey\":\"ride 0 0 walk 1 1 0 ride 2 2\",\"trips\":2,\"walked\":0},{\"arr\":\"08:30:00\",\"dep\":\"08:00:00\",\"journey\":\"ride 0 1\",\"trips\":1,\"walked\":0}],\"version\":1,\"walk\":null}\n";

const LEGGED_REPLIES: &str =
    "{\"base\":1705276800,\"ok\":\"pin\",\"version\":1}\n{\"ok\":\"profile\",\"points\":[{\"arr\":\"08:20:00\",\"dep\":\"08:00:00\",\"journey\":\"ride 0 0 walk 1 1 0 ride 2 2\",\"legs\":[{\"arr\":\"08:10:00\",\"day\":20240115,\"dep\":\"08:00:00\",\"from\":\"A\",\"to\":\"B\",\"trip\":\"T1\"},{\"from\":\"B\",\"secs\":0,\"to\":\"B\"},{\"arr\":\"08:20:00\",\"day\":20240115,\"dep\":\"08:12:00\",\"from\":\"B\",\"to\":\"C\",\"trip\":\"T2\"}],\"trips\":2,\"walked\":0},{\"arr\":\"08:30:00\",\"dep\":\"08:00:00\",\"journey\":\"ride 0 1\",\"legs\":[{\"arr\":\"08:30:00\",\"day\":20240115,\"dep\":\"08:00:00\",\"from\":\"A\",\"to\":\"C\",\"trip\":\"T1\"}],\"trips\":1,\"walked\":0}],\"version\":1,\"walk\":null}\n";

// The replies over the sample.
fn of_sample(alloc: Global, form: PointForm) -> Result<Vec<u8>, Fail> {
    replied(alloc, image(alloc, 0)?, ReplyForm::of(form), BY_WALKING)
}

/// Asserts that this was written.
pub(crate) fn assert_text(rt: &impl Abort, replies: &[u8], wanted: &str) {
    assert_eq!(rt; str::from_utf8(replies).unwrap_or("?"), wanted);
}

/// With legs, each ride is reported by its trip and each walk by its stops; nothing else changes.
#[test]
fn legs_are_replied_where_they_are_wanted(rt: HostRuntime) -> Result<(), Fail> {
    assert_text(&rt, &of_sample(rt.alloc(), PointForm::Bare)?, BARE_REPLIES);
    assert_text(
        &rt,
        &of_sample(rt.alloc(), PointForm::WithLegs)?,
        LEGGED_REPLIES,
    );
    Ok(())
}

/// The sample with a footpath of 60 seconds from A to B, whose name here is `"`; its second trip is repeat 3.
fn image_of_a_quote(alloc: Global) -> Result<Arc<Verified, Global>, Fail> {
    let sample = second_sample_words();
    let (front, back) = sample.split_at(33);
    let mut words = front.to_vec(alloc)?;
    words.extend_from_slice(&[0, 60])?;
    words.extend_from_slice(back)?;
    for (offset, changed) in [(5, 4), (29, 3), (30, 4), (48, 3), (49, 0x5443_2241)] {
        if let Some(word) = words.get_mut(offset) {
            *word = changed;
        }
    }
    image_of(alloc, words)
}

const QUOTED_REPLIES: &str =
    "{\"base\":1705276800,\"ok\":\"pin\",\"version\":1}\n{\"ok\":\"profile\",\"points\":[{\"arr\":\"08:20:00\",\"dep\":\"08:11:00\",\"journey\":\"walk 0 1 60 ride 2 2\",\"legs\":[{\"from\":\"A\",\"secs\":60,\"to\":\"\\\"\"},{\"arr\":\"08:20:00\",\"day\":20240115,\"dep\":\"08:12:00\",\"from\":\"\\\"\",\"repeat\":3,\"to\":\"C\",\"trip\":\"T2\"}]}],\"version\":1,\"walk\":null}\n";

/// A walk comes first, a name is a quotation mark, and a trip is a later repeat.
#[test]
fn a_walk_a_quote_and_a_repeat(rt: HostRuntime) -> Result<(), Fail> {
    let alloc: Global = rt.alloc();
    let first = image_of_a_quote(alloc)?;
    let form = ReplyForm::of(PointForm::WithLegs);
    let replies = replied(alloc, first, form, BY_ARRIVAL)?;
    assert_text(&rt, &replies, QUOTED_REPLIES);
    Ok(())
}

fn ride_of(alloc: Global, trip: &str, from: &str, to: &str) -> Result<RideLeg, AllocError> {
    Ok(RideLeg {
        trip: String::from_str(alloc, trip)?,
        day: 20_240_115,
        repeat: 0,
        from: String::from_str(alloc, from)?,
        dep: 28_800,
        to: String::from_str(alloc, to)?,
        arr: 86_400,
    })
}

fn walk_of(alloc: Global, from: &str, to: &str) -> Result<WalkLeg, AllocError> {
    Ok(WalkLeg {
        from: String::from_str(alloc, from)?,
        to: String::from_str(alloc, to)?,
        secs: 7,
    })
}

// The reply of one point with these legs.
fn line_of(alloc: Global, legs: JourneyLegs) -> Result<String, AllocError> {
    let figures = Figures {
        arrival: 86_400,
        trips: None,
        walked: None,
    };
    let mut points = Points::new(alloc);
    points.add_with_legs(alloc, 28_800, figures, String::new(alloc), legs)?;
    points.profile_line(alloc, 1, None)
}

const FRONT: &str =
    "{\"ok\":\"profile\",\"points\":[{\"arr\":\"24:00:00\",\"dep\":\"08:00:00\",\"journey\":\"\",\"legs\":[";

// The reply with a walk and a ride of odd names.
fn odd_line(alloc: Global) -> Result<String, AllocError> {
    let mut legs = JourneyLegs::new(alloc);
    legs.add_walk(alloc, walk_of(alloc, "", "\\\"")?)?;
    legs.add_ride(alloc, ride_of(alloc, "", "\n", "\u{7f}ä")?)?;
    line_of(alloc, legs)
}

/// Any name is a JSON text: empty ones, quotation marks, control characters.
#[test]
fn odd_names_are_texts(rt: HostRuntime) -> Result<(), Fail> {
    let line = odd_line(rt.alloc())?;
    assert_eq!(rt;
        line.as_str().strip_prefix(FRONT).unwrap_or("?"),
        "{\"from\":\"\",\"secs\":7,\"to\":\"\\\\\\\"\"},{\"arr\":\"24:00:00\",\"day\":20240115,\"dep\":\"08:00:00\",\"from\":\"\\n\",\"to\":\"\u{7f}ä\",\"trip\":\"\"}]}],\"version\":1,\"walk\":null}\n"
    );
    Ok(())
}

// The reply with a walk from A to a stop of this name.
fn line_to(alloc: Global, name: &str) -> Result<String, AllocError> {
    let mut legs = JourneyLegs::new(alloc);
    legs.add_walk(alloc, walk_of(alloc, "A", name)?)?;
    line_of(alloc, legs)
}

/// A name of 60,000 bytes is reported whole.
#[test]
fn a_long_name_is_reported_whole(rt: HostRuntime) -> Result<(), AllocError> {
    let name = "n".repeat(rt.alloc(), 60_000)?;
    let line = line_to(rt.alloc(), name.as_str())?;
    assert!(rt; line.as_str().contains(name.as_str()));
    let rest = "{\"from\":\"A\",\"secs\":7,\"to\":\"\"}]}],\"version\":1,\"walk\":null}\n";
    assert!(rt; line.len() == FRONT.len() + 60_000 + rest.len());
    Ok(())
}
