//! Whether a journey of an image counts for a query.

ghost use Rattle.std.specs.Prelude.{◌≡◌, ◌↔◌, ℕ, None, Some, Ok, IfOk, IfErr};
ghost use Rattle.timetable.specs.TimetableValue.{TimetableValue};
ghost use Rattle.timetable.specs.JourneyValue.{JourneyValue};
ghost use Rattle.timetable.specs.declared.query.Query.{Query};
ghost use Rattle.timetable.specs.Journeys.{Counts, arrival};
ghost use Rattle.journeys.specs.Judged.{IsJudged};
ghost use Rattle.journeys.specs.Faults.{path_fault, first_fault};

use crate::ends::{ends_fault, times_fault, times_inside};
use crate::fault::JourneyFault;
use crate::legs::legs_fault;
use crate::walks::walks_fault;
use crate::way::JourneyParts;
use image_verifier::Verified;
use timetable::{Journey, Query, Times};

// The first fault of legs and walks, and of where the journey begins and ends.
#[tactic(auto, unfolding(crate::specs::Faults::path_fault))]
fn path_fault(image: &Verified, query: &Query, way: &JourneyParts<'_>) -> Option<JourneyFault>
    ensures { result ≡ path_fault image.now.timetable query.now way.now.start way.now.rides.now }
{
    if let Some(fault) = legs_fault(image, way.rides) {
        return Some(fault);
    }
    if let Some(fault) = walks_fault(image, way) {
        return Some(fault);
    }
    if let Some(fault) = times_fault(image, way.rides) {
        return Some(fault);
    }
    ends_fault(image, query, way)
}

fn judge(image: &Verified, query: &Query, way: &JourneyParts<'_>) -> Result<Times, JourneyFault>
    ensures { IsJudged image.now.timetable query.now (record {
      start = way.now.start;
      rides =
          way.now.rides.now;
    }) result }
{
    if let Some(fault) = path_fault(image, query, way) {
        return Err(fault);
    }
    times_inside(image, query, way)
}

/// Returns when a journey departs and when it is over, if it holds in the image and counts for the query; otherwise
/// the error is its first fault.
///
/// It takes no memory. Any query is allowed: for one whose source or target is no stop, or whose window is empty, no
/// journey counts; for one from a stop to itself, journeys that lead back do.
pub fn check(image: &Verified, query: &Query, journey: &Journey) -> Result<Times, JourneyFault>
    // The journey counts, and departs and is over at these times.
    ensures counts { IfOk result (λ times. Counts image.now.timetable query.now times.dep journey.now
        × (times.arr ≡ arrival image.now.timetable journey.now)) }
    // Each journey that counts is accepted.
    ensures only { (departure : ℕ) → Counts image.now.timetable query.now departure journey.now
        → result ≡ Ok (record { dep = departure; arr = arrival image.now.timetable journey.now }) }
    // The error is the first fault.
    ensures fault { IfErr result (λ e. first_fault image.now.timetable query.now journey.now ≡ Some e) }
{
    let way = JourneyParts {
        start: journey.start,
        rides: &journey.rides,
    };
    judge(image, query, &way)
}

/// A journey has no fault exactly if it counts, at some departure.
pub fn faultless_counts()
    ensures { (t : TimetableValue) (q : Query) (j : JourneyValue) → (first_fault t q j ≡ None)
        ↔ ((departure : ℕ) × Counts t q departure j) }
{}
