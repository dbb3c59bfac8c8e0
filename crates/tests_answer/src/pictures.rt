//! Small pictures, part by part.

use answer_pictures::{
    Axis, Heading, JourneyLine, Stretch, StretchKind, heading_of, journey_line, picture,
};
use criteria::{CriterionName, Figures};
use image_layout::sample_words;
use image_verifier::{Verified, verify};
use std::alloc::{AllocError, Global};
use std::process::Abort;
use std::test::*;
use timetable::{Footpath, Journey, Leg, Query, Ride};

fn stretch(
    alloc: Global,
    way: StretchKind,
    times: (u32, u32),
    trip: &str,
    to: &str,
) -> Result<Stretch, AllocError> {
    Ok(Stretch {
        way,
        start: times.0,
        end: times.1,
        trip: String::from_str(alloc, trip)?,
        from: String::from_str(alloc, "A")?,
        to: String::from_str(alloc, to)?,
    })
}

fn heading(alloc: Global, from: &str) -> Result<Heading, AllocError> {
    Ok(Heading {
        from: String::from_str(alloc, from)?,
        to: String::from_str(alloc, "C")?,
        about: String::from_str(alloc, "2024-07-22: departing 08:00 to 09:00")?,
    })
}

/// A ride from 08:00 to 08:10, and a walk until 08:12.
fn small_line(alloc: Global, note: &str) -> Result<JourneyLine, AllocError> {
    let mut stretches = Vec::new(alloc);
    let ride = stretch(alloc, StretchKind::Ride, (28800, 29400), "T1 & T2", "B")?;
    stretches.push(ride)?;
    let walk = stretch(alloc, StretchKind::Walk, (29400, 29520), "", "<B>\u{1}")?;
    stretches.push(walk)?;
    Ok(JourneyLine {
        departure: 28800,
        arrival: 29520,
        stretches,
        note: String::from_str(alloc, note)?,
    })
}

/// The picture of one journey and of a direct walk of 1500 seconds.
fn small_picture(alloc: Global, from: &str, note: &str) -> Result<String, AllocError> {
    let mut lines = Vec::new(alloc);
    let line = small_line(alloc, note)?;
    lines.push(line)?;
    let heading = heading(alloc, from)?;
    let axis = Axis::covering(28800, 29520);
    picture(alloc, &heading, axis, Some(1500), &lines, 0)
}

fn assert_small(rt: &impl Abort, text: &str) {
    assert!(rt; text.starts_with("<svg xmlns=\"http://www.w3.org/2000/svg\" viewBox=\"0 0 960 "));
    assert!(rt; text.contains("<title id=\"title\">A \u{2192} C</title>"));
    assert!(rt; text.contains(" x=\"190\">08:00</text>"));
    assert!(rt;
        text.contains(" x=\"190\" width=\"616\"><title>T1 &amp; T2: A 08:00, B 08:10</title>")
    );
    assert!(rt;
        text.contains(" d=\"M806 0h124\"><title>on foot: A 08:10, &lt;B&gt;\u{FFFD} 08:12</title>")
    );
    assert!(rt; text.contains("on foot all the way, at any time: 1500 s</text>"));
    assert!(rt; text.ends_with("</svg>\n"));
}

#[test]
fn a_journey_is_drawn(rt: HostRuntime) -> Result<(), Fail> {
    assert_small(&rt, small_picture(rt.alloc(), "A", "T1 to B")?.as_str());
    Ok(())
}

/// A picture whose name and note have 150 letters each.
fn long_picture(alloc: Global) -> Result<String, AllocError> {
    let long = "0123456789".repeat(alloc, 15)?;
    small_picture(alloc, &long, &long)
}

/// The title with such a note, and the part of the note that is seen.
fn long_title(alloc: Global) -> Result<String, AllocError> {
    let long = "0123456789".repeat(alloc, 15)?;
    let cut = "0123456789".repeat(alloc, 12)?;
    format!(in alloc; "<title>{long}</title>{cut}...</text>")
}

fn assert_cut(rt: &impl Abort, text: &str, title: &str) {
    assert!(rt; text.contains(title));
    assert!(rt; text.contains("34567... \u{2192} C</text>"));
    assert!(rt; text.contains("<rect class=\"paper\" width=\"100%\" height=\"100%\"/>"));
}

/// A note of 150 letters is cut after 120, and whole in its title; a name is cut after 38.
#[test]
fn long_texts_are_cut(rt: HostRuntime) -> Result<(), Fail> {
    let title = long_title(rt.alloc())?;
    assert_cut(&rt, long_picture(rt.alloc())?.as_str(), title.as_str());
    Ok(())
}

/// A picture without a journey, which says that so many aren't drawn.
fn empty_picture(alloc: Global, left_out: usize) -> Result<String, AllocError> {
    picture(
        alloc,
        &heading(alloc, "A")?,
        Axis::covering(0, 60),
        None,
        &[],
        left_out,
    )
}

fn assert_none(rt: &impl Abort, text: &str) {
    assert!(rt; text.contains("no journey departs in this window and arrives in time</desc>"));
    assert!(rt; text.contains("no journey departs in this window and arrives in time</text>"));
    assert!(rt; !text.contains("direct walk"));
}

/// A picture without a journey says so, both where it is seen and where it is read aloud.
#[test]
fn no_journey_is_said(rt: HostRuntime) -> Result<(), Fail> {
    assert_none(&rt, empty_picture(rt.alloc(), 0)?.as_str());
    Ok(())
}

/// Journeys that aren't drawn are counted.
#[test]
fn what_is_left_out_is_counted(rt: HostRuntime) -> Result<(), Fail> {
    let text = empty_picture(rt.alloc(), 1839)?;
    assert!(rt; text.contains("not drawn: 1839</desc>"));
    assert!(rt; text.contains("not drawn: 1839</text>"));
    Ok(())
}

/// Whichever growth is refused, the test ends with `AllocError`.
#[test]
fn refused_growth_is_reported(rt: HostRuntime) -> Result<(), Fail> {
    let text = small_picture(rt.alloc(), "A", "B")?;
    assert!(rt; text.ends_with("</svg>\n"));
    Ok(())
}

/// The first and the last second of an axis, and its step.
fn marks(axis: Axis) -> (u32, u32, u32) {
    (axis.start, axis.end, axis.step)
}

#[test]
fn axes_end_on_marks(rt: HostRuntime) {
    assert!(rt; marks(Axis::covering(28_815, 33_000)) == (28_800, 33_000, 600));
    assert!(rt; marks(Axis::covering(7, 7)) == (0, 60, 60));
}

fn sample_image(alloc: Global) -> Result<Verified, AllocError> {
    match verify(alloc, sample_words().to_vec(alloc)?) {
        Ok(image) => Ok(image),
        Err(_) => Err(AllocError),
    }
}

/// The sample's journey with a change: two trips, from 08:00:00 to 08:20:00.
fn changing(alloc: Global) -> Result<Journey, AllocError> {
    let change = Footpath {
        from: 1,
        to: 1,
        secs: 0,
    };
    let first = Ride {
        leg: Leg { first: 0, last: 0 },
        walk: vec![in alloc; change]?,
    };
    let second = Ride {
        leg: Leg { first: 2, last: 2 },
        walk: Vec::new(alloc),
    };
    let rides = vec![in alloc; first, second]?;
    Ok(Journey { start: None, rides })
}

/// The line of that journey.
fn changing_line(alloc: Global, image: &Verified) -> Result<JourneyLine, Fail> {
    let figures = Figures {
        arrival: 30000,
        trips: Some(2),
        walked: None,
    };
    Ok(journey_line(alloc, image, 28800, figures, &changing(alloc)?)?)
}

/// From A to C, departing between 08:00 and 09:00, by 10:00.
const ASKED: Query = Query {
    source: 0,
    target: 2,
    from: 28800,
    until: 32400,
    by: 36000,
};

/// A picture of lines that this query found.
fn drawn(alloc: Global, image: &Verified, lines: &[JourneyLine]) -> Result<String, Fail> {
    let heading = heading_of(alloc, image, &ASKED, CriterionName::ArrivalTrips)?;
    let axis = Axis::of_lines(lines, ASKED.from, ASKED.until);
    Ok(picture(alloc, &heading, axis, None, lines, 0)?)
}

fn assert_changing_line(rt: &impl Abort, line: &JourneyLine) {
    assert!(rt; line.stretches.len() == 3);
    assert!(rt; line.departure == 28800 && line.arrival == 30000);
    assert!(rt; line.note.as_str() == "2 trips: T1 to B, T2 to C");
}

fn assert_heading(rt: &impl Abort, heading: &Heading) {
    assert!(rt; heading.from.as_str() == "A" && heading.to.as_str() == "C");
}

fn assert_drawn(rt: &impl Abort, text: &str) {
    assert!(rt; text.contains("<title>T2: B 08:12, C 08:20</title>"));
    assert!(rt;
        text.contains(": departing 08:00 to 09:00, arriving by 10:00; best by arrival+trips</text>")
    );
}

#[test]
fn a_journey_of_an_image(rt: HostRuntime) -> Result<(), Fail> {
    let alloc = rt.alloc();
    let image = sample_image(alloc)?;
    let line = changing_line(alloc, &image)?;
    assert_changing_line(&rt, &line);
    assert_heading(
        &rt,
        &heading_of(alloc, &image, &ASKED, CriterionName::ArrivalTrips)?,
    );
    let lines = vec![in alloc; line]?;
    assert_drawn(&rt, drawn(alloc, &image, &lines)?.as_str());
    Ok(())
}
