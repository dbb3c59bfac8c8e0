//! What an image has, as JSON.

ghost use Rattle.std.specs.Prelude.{◌≡◌, ◌++◌, IfOk, OnOk, string_bytes};
ghost use Rattle.image_facts.specs.Json.{IsFactsJson, names_json, sizes_json};

use crate::base::append_utc;
use crate::days::append_days;
use crate::facts::{byte_count, days_of, header_of};
use crate::putting::put_signed;
use image_verifier::Verified;
use std::alloc::{AllocError, Global};
use text_pieces::{Form, put_number, put_text};

/// What an image has, as an object of JSON on one line, whose keys are the words of the lines.
pub fn json_of(alloc: Global, image: &Verified) -> Result<String, AllocError>
    ensures { IfOk result (λ json. IsFactsJson image.now (string_bytes json)) }
{
    let mut json = String::new(alloc);
    append_sizes(&mut json, image)?;
    append_names(&mut json, image)?;
    let days = days_of(alloc, image)?;
    append_days(&mut json, Form::Json, &days)?;
    append_utc(&mut json, Form::Json, image.base())?;
    put_text(&mut json, "}\n")?;
    Ok(json)
}

// Adds the base, the bytes of the file, and how many connections and footpaths there are.
fn append_sizes(json: &mut String, image: &Verified) -> Result<(), AllocError>
    ensures { OnOk result (string_bytes json.new ≡ string_bytes json.old ++ sizes_json image.now) }
{
    put_signed(json, "{\"base\":", image.base())?;
    put_number(json, ",\"bytes\":", byte_count(image))?;
    put_number(json, ",\"connections\":", image.len() as u64)?;
    put_number(json, ",\"footpaths\":", image.footpath_count() as u64)?;
    Ok(())
}

// Adds the layout, the bytes of the names, and how many stops and trips there are.
fn append_names(json: &mut String, image: &Verified) -> Result<(), AllocError>
    ensures { OnOk result (string_bytes json.new ≡ string_bytes json.old ++ names_json image.now) }
{
    let header = header_of(image);
    put_number(json, ",\"layout\":", header.layout as u64)?;
    put_number(json, ",\"name-bytes\":", header.name_bytes as u64)?;
    put_number(json, ",\"stops\":", image.stops() as u64)?;
    put_number(json, ",\"trips\":", image.trips() as u64)?;
    Ok(())
}
