//! The rows of a table of travel times.

ghost use Rattle.std.specs.Prelude.{◌≡◌, OnOk, map, option_map, slice_get};
ghost use Rattle.csv.specs.Writing.{default_writer, row_text};
ghost use Rattle.travel_times.specs.Fields.{departure_of, pair_fields, pair_names};
ghost use Rattle.travel_times.specs.Fields.{point_fields, point_names};
ghost use Rattle.travel_times.specs.Rows.{Adds, AreWhole};

use crate::figures::least_travel;
use crate::numbers::{ClockBuffer, number_field};
use crate::rows::Rows;
use crate::spans::Span;
use criteria::Figures;
use itoa::Buffer;
use std::alloc::AllocError;

/// What a table has of a pair of stops.
#[derive(Clone, Copy)]
pub struct Pair<'a> {
    /// The stop_id of the stop where journeys begin.
    pub from: &'a str,
    /// That of the stop where they end.
    pub to: &'a str,
    /// The best departures, in order.
    pub spans: &'a [Span],
    /// The mean seconds until one arrives, over the seconds of a window.
    pub mean: Option<u64>,
    /// The seconds of the direct footpath.
    pub walk: Option<u32>,
}

/// Adds the first row of a table of pairs.
pub fn put_pair_names(rows: &mut Rows) -> Result<(), AllocError>
    requires { AreWhole rows.old }
    ensures { OnOk result (Adds rows.old rows.new (row_text default_writer pair_names)) }
{
    rows.put(&[
        b"from",
        b"to",
        b"points",
        b"first_departure",
        b"last_departure",
        b"least_seconds",
        b"mean_seconds",
        b"walk",
    ])
}

/// Adds the first row of a table of departures.
pub fn put_point_names(rows: &mut Rows) -> Result<(), AllocError>
    requires { AreWhole rows.old }
    ensures { OnOk result (Adds rows.old rows.new (row_text default_writer point_names)) }
{
    rows.put(&[
        b"from",
        b"to",
        b"departure",
        b"arrival",
        b"seconds",
        b"trips",
        b"walked",
    ])
}

/// Adds the row of a pair of stops: how many departures there are, the first, the last, the least seconds from one to
/// its arrival, the mean, and the direct walk. A figure that isn't there is blank.
pub fn put_pair(rows: &mut Rows, pair: &Pair<'_>) -> Result<(), AllocError>
    requires { AreWhole rows.old }
    ensures { OnOk result (Adds rows.old rows.new (row_text default_writer (pair_fields
        pair.now.from.now pair.now.to.now pair.now.spans.now pair.now.mean pair.now.walk))) }
{
    let (mut first, mut last) = (ClockBuffer::new(), ClockBuffer::new());
    let (mut points, mut least) = (Buffer::new(), Buffer::new());
    let (mut mean, mut walk) = (Buffer::new(), Buffer::new());
    rows.put(&[
        pair.from.as_bytes(),
        pair.to.as_bytes(),
        number_field(&mut points, Some(pair.spans.len() as u64)),
        first.field(departure_of(pair.spans.first())),
        last.field(departure_of(pair.spans.last())),
        number_field(&mut least, wide(least_travel(pair.spans))),
        number_field(&mut mean, pair.mean),
        number_field(&mut walk, wide(pair.walk)),
    ])
}

/// Adds the row of a departure: when it departs and arrives, the seconds between, the trips, and the seconds walked.
/// What the criterion doesn't count is blank.
pub fn put_point(
    rows: &mut Rows,
    from: &str,
    to: &str,
    departure: u32,
    figures: Figures,
) -> Result<(), AllocError>
    requires { AreWhole rows.old }
    ensures { OnOk result (Adds rows.old rows.new
        (row_text default_writer (point_fields from.now to.now departure figures))) }
{
    let (mut leaves, mut arrives) = (ClockBuffer::new(), ClockBuffer::new());
    let (mut seconds, mut trips, mut walked) = (Buffer::new(), Buffer::new(), Buffer::new());
    let lasts = u64::from(figures.arrival.saturating_sub(departure));
    rows.put(&[
        from.as_bytes(),
        to.as_bytes(),
        leaves.field(Some(departure)),
        arrives.field(Some(figures.arrival)),
        number_field(&mut seconds, Some(lasts)),
        number_field(&mut trips, wide(figures.trips)),
        number_field(&mut walked, wide(figures.walked)),
    ])
}

fn departure_of(span: Option<&Span>) -> Option<u32>
    ensures { result ≡ departure_of (option_map (λ span. span.now) span.entry) }
{
    match span {
        Some(span) => Some(span.departure),
        None => None,
    }
}

fn wide(number: Option<u32>) -> Option<u64>
    ensures { result ≡ number }
{
    match number {
        Some(number) => Some(u64::from(number)),
        None => None,
    }
}
