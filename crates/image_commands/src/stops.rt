//! `csa stops IMAGE [TEXT] [--json]`.

ghost use Rattle.std.specs.Prelude.{◌≡◌, ◌+◌, ◌++◌, ℕ, List, false, codes, decimal, map, IfOk, OnOk, string_bytes};
ghost use Rattle.std.specs.List.{flat_map};
ghost use Rattle.image_facts.specs.Naming.{stop_bytes};
ghost use Rattle.image_files.specs.Naming.{names_in};
ghost use Rattle.text_pieces.specs.Json.{with_commas};
ghost use Rattle.image_commands.specs.StopLines.{AreFound, AreStopsAsked, IsFound, stop_json, stop_line, stops_text};
ghost use Rattle.command_endings.specs.Ending.{IsOutcome, PrintsOnly};

use command_endings::status;
use command_requests::StopsRequest;
use departure_lines::printed_stop_name;
use feed_messages::{explain, quoted};
use feed_stations::is_in;
use image_facts::stop_name;
use image_files::{NameForm, Watched};
use image_verifier::Verified;
use std::alloc::{AllocError, Global};
use std::io::Write;
use text_pieces::{put_comma, put_number, put_quoted, put_text, put_word};

/// Prints the number and the name of each stop whose name contains the text, in order. If there is none, says so in
/// `errors`. Never returns `REFUSED`.
pub fn run<O: Watched, E: Write>(
    alloc: Global,
    image: &Verified,
    request: StopsRequest<'_>,
    names: NameForm,
    output: &mut O,
    errors: &mut E,
) -> u8
    ensures { IsOutcome (PrintsOnly (AreStopsAsked names image.now request.entry)) ⊥
        (O.noted output.new) result (O.contents output.old) (O.contents output.new) }
{
    match found_stops(alloc, image, request.text) {
        Ok(found) => {
            if found.is_empty() {
                explain_none(alloc, request.text, errors);
            }
            print_stops(alloc, image, &found, request.json, names, output)
        }
        Err(_) => status::OUT_OF_MEMORY,
    }
}

// Says that no stop_id contains the text.
fn explain_none<E: Write>(alloc: Global, text: &str, errors: &mut E) {
    if let Ok(shown) = quoted(alloc, text.as_bytes()) {
        let reason = " (stop names and stations aren't searched)";
        let parts = ["csa: no stop_id contains ", shown.as_str(), reason];
        explain(errors, &parts);
    }
}

// Prints the stops. Never returns `REFUSED`.
fn print_stops<O: Watched>(
    alloc: Global,
    image: &Verified,
    found: &[u32],
    json: bool,
    names: NameForm,
    output: &mut O,
) -> u8
    ensures { IsOutcome (PrintsOnly (λ text. text ≡ stops_text json names image.now.names found.now)) ⊥
        (O.noted output.new) result (O.contents output.old) (O.contents output.new) }
{
    match text_of(alloc, image, found, json, names) {
        Ok(text) => status::write_text(output, text.as_str(), status::ACCEPTED),
        Err(_) => status::OUT_OF_MEMORY,
    }
}

// The stops whose names contain the text.
fn found_stops(alloc: Global, image: &Verified, text: &str) -> Result<Vec<u32>, AllocError>
    ensures { IfOk result (λ found. AreFound image.now.names text.now image.now.timetable.stops found.items) }
{
    let mut found = Vec::new(alloc);
    for stop in 0..image.stops() {
        add_next(&mut found, alloc, image, stop, text)?;
    }
    Ok(found)
}

// Adds the next stop, if its name contains the text.
fn add_next(
    found: &mut Vec<u32>,
    alloc: Global,
    image: &Verified,
    stop: u32,
    text: &str,
) -> Result<(), AllocError>
    ensures { OnOk result (AreFound image.now.names text.now stop found.old.items
        → AreFound image.now.names text.now (stop + 1) found.new.items) }
{
    let name = stop_name(alloc, image, stop)?;
    add_if_found(found, stop, name.as_str(), text)?;
    Ok(())
}

// Adds a stop, if its name contains the text.
fn add_if_found(found: &mut Vec<u32>, stop: u32, name: &str, text: &str) -> Result<(), AllocError>
    ensures { OnOk result ((part : List ℕ) × IsFound text.now (stop, name.now) part
        × (found.new.items ≡ found.old.items ++ part)) }
{
    if !is_in(text, name) {
        return Ok(());
    }
    found.push(stop)?;
    Ok(())
}

// The text of some stops. In lines, their names are in a form.
fn text_of(
    alloc: Global,
    image: &Verified,
    found: &[u32],
    json: bool,
    names: NameForm,
) -> Result<String, AllocError>
    ensures { IfOk result (λ text. string_bytes text ≡ stops_text json names image.now.names found.now) }
{
    match json {
        true => json_of(alloc, image, found),
        false => lines_of(alloc, image, found, names),
    }
}

fn lines_of(
    alloc: Global,
    image: &Verified,
    found: &[u32],
    names: NameForm,
) -> Result<String, AllocError>
    ensures { IfOk result (λ lines. string_bytes lines ≡ stops_text false names image.now.names found.now) }
{
    let mut lines = String::new(alloc);
    append_lines(&mut lines, alloc, image, found, names)?;
    Ok(lines)
}

fn append_lines(
    lines: &mut String,
    alloc: Global,
    image: &Verified,
    found: &[u32],
    names: NameForm,
) -> Result<(), AllocError>
    ensures { OnOk result (string_bytes lines.new
        ≡ string_bytes lines.old ++ flat_map (stop_line (names_in names image.now.names)) found.now) }
{
    for stop in found {
        append_line(lines, alloc, image, *stop, names)?;
    }
    Ok(())
}

fn append_line(
    lines: &mut String,
    alloc: Global,
    image: &Verified,
    stop: u32,
    names: NameForm,
) -> Result<(), AllocError>
    ensures { OnOk result (string_bytes lines.new
        ≡ string_bytes lines.old ++ stop_line (names_in names image.now.names) stop) }
{
    let name = printed_stop_name(alloc, image, stop, names)?;
    append_number(lines, stop)?;
    put_word(lines, name.as_str())?;
    put_text(lines, "\n")?;
    Ok(())
}

fn append_number(lines: &mut String, stop: u32) -> Result<(), AllocError>
    ensures { OnOk result (string_bytes lines.new ≡ string_bytes lines.old ++ decimal stop) }
{
    put_number(lines, "", u64::from(stop))
}

// The stops as an array of JSON, on one line.
fn json_of(alloc: Global, image: &Verified, found: &[u32]) -> Result<String, AllocError>
    ensures { IfOk result (λ json. string_bytes json
        ≡ codes "[" ++ with_commas (map (stop_json image.now.names) found.now) ++ codes "]\n") }
{
    let mut json = String::new(alloc);
    put_text(&mut json, "[")?;
    append_objects(&mut json, alloc, image, found)?;
    put_text(&mut json, "]\n")?;
    Ok(json)
}

fn append_objects(
    json: &mut String,
    alloc: Global,
    image: &Verified,
    found: &[u32],
) -> Result<(), AllocError>
    ensures { OnOk result (string_bytes json.new
        ≡ string_bytes json.old ++ with_commas (map (stop_json image.now.names) found.now)) }
{
    for at in 0..found.len() {
        put_comma(json, at)?;
        append_object(json, alloc, image, found[at])?;
    }
    Ok(())
}

fn append_object(
    json: &mut String,
    alloc: Global,
    image: &Verified,
    stop: u32,
) -> Result<(), AllocError>
    ensures { OnOk result (string_bytes json.new ≡ string_bytes json.old ++ stop_json image.now.names stop) }
{
    let name = stop_name(alloc, image, stop)?;
    put_quoted(json, alloc, "{\"id\":", name.as_str())?;
    put_number(json, ",\"number\":", stop as u64)?;
    put_text(json, "}")?;
    Ok(())
}
