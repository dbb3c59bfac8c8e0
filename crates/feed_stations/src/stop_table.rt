//! The rows of `stops.txt`, with what a rider reads of them.

ghost use Rattle.std.specs.Prelude.{◌≡◌};
ghost use Rattle.feed_stations.specs.Listing.{has_line, kind_at};

use crate::labels::StopLabel;
use gtfs_rows::{Location, StopRow};

/// The rows of `stops.txt`, the label of each, and the index of the row by which each is listed.
#[derive(Drop)]
pub struct StopTable {
    pub rows: Vec<StopRow>,
    pub labels: Vec<StopLabel>,
    pub homes: Vec<Option<usize>>,
}

impl StopTable {
    ghost use Rattle.std.specs.Prelude.{◌≡◌};
    ghost use Rattle.std.specs.List.{slice_get};
    ghost use Rattle.feed_stations.specs.Finding.{id_of, name_of, platform_of};
    ghost use Rattle.feed_stations.specs.Listing.{is_listed_row, kind_of};

    /// The stop_id of the row at an index; blank past the end, as the other texts are.
    pub(crate) fn id(&self, row_index: usize) -> &str
        ensures { result.now ≡ id_of (slice_get self.now.rows.items row_index) }
    {
        match self.rows.get(row_index) {
            Some(row) => row.id.as_str(),
            None => "",
        }
    }

    /// The stop_name.
    pub(crate) fn name(&self, row_index: usize) -> &str
        ensures { result.now ≡ name_of (slice_get self.now.labels.items row_index) }
    {
        match self.labels.get(row_index) {
            Some(label) => label.name.as_str(),
            None => "",
        }
    }

    /// The platform_code.
    pub(crate) fn platform(&self, row_index: usize) -> &str
        ensures { result.now ≡ platform_of (slice_get self.now.labels.items row_index) }
    {
        match self.labels.get(row_index) {
            Some(label) => label.platform.as_str(),
            None => "",
        }
    }

    /// Whether the row at an index is that of a station or of a stop.
    pub(crate) fn kind(&self, row_index: usize) -> &'static str
        ensures { result.now ≡ kind_of (slice_get self.now.rows.items row_index) }
    {
        match self.rows.get(row_index) {
            Some(row) => kind_at(row.location),
            None => "stop",
        }
    }

    /// Whether the row at an index is listed: it is that of a station, or of a stop without one.
    pub(crate) fn is_listed(&self, row_index: usize) -> bool
        ensures { result ≡ is_listed_row (slice_get self.now.rows.items row_index) }
    {
        match self.rows.get(row_index) {
            Some(row) => has_a_line(row),
            None => false,
        }
    }
}

fn kind_at(location: Location) -> &'static str
    ensures { result.now ≡ kind_at location }
{
    match location {
        Location::Station => "station",
        Location::Stop | Location::Entrance | Location::Node | Location::BoardingArea => "stop",
    }
}

// Whether a row is that of a station, or of a stop without one.
fn has_a_line(row: &StopRow) -> bool
    ensures { result ≡ has_line row.now }
{
    match row.location {
        Location::Station => true,
        Location::Stop => row.parent.is_empty(),
        Location::Entrance | Location::Node | Location::BoardingArea => false,
    }
}
