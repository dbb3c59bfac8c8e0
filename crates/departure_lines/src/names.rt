//! The names of an image, as lines show them.

ghost use Rattle.std.specs.Prelude.{◌≡◌, IfOk, string_bytes};
ghost use Rattle.image_facts.specs.Naming.{stop_bytes, trip_bytes};
ghost use Rattle.image_files.specs.Naming.{names_in};
ghost use Rattle.departure_lines.specs.Showing.{names_of};

use command_requests::DeparturesForm;
use image_facts::{stop_name, trip_name};
use image_files::NameForm;
use image_verifier::Verified;
use std::alloc::{AllocError, Global};

/// The name of a stop in a form, or an empty text if there is no such stop.
pub fn printed_stop_name(
    alloc: Global,
    image: &Verified,
    stop: u32,
    names: NameForm,
) -> Result<String, AllocError>
    ensures { IfOk result (λ name. string_bytes name ≡ stop_bytes (names_in names image.now.names) stop) }
{
    let name = stop_name(alloc, image, stop)?;
    names.of(alloc, name)
}

/// The name of a trip in a form, or an empty text if there is no such trip.
pub fn printed_trip_name(
    alloc: Global,
    image: &Verified,
    trip: u32,
    names: NameForm,
) -> Result<String, AllocError>
    ensures { IfOk result (λ name. string_bytes name ≡ trip_bytes (names_in names image.now.names) trip) }
{
    let name = trip_name(alloc, image, trip)?;
    names.of(alloc, name)
}

/// How names are written in what is printed of departures, to where they are written so in lines: JSON escapes them
/// itself.
pub(crate) fn names_of(form: DeparturesForm, names: NameForm) -> NameForm
    ensures { result ≡ names_of form names }
{
    match form {
        DeparturesForm::Json | DeparturesForm::JsonPoints | DeparturesForm::JsonSummary => {
            NameForm::Raw
        }
        DeparturesForm::Journeys | DeparturesForm::Points | DeparturesForm::Summary => names,
    }
}
