//! The stations of a feed that have a text in an id or a name, as lines and as JSON.

ghost use Rattle.std.specs.Prelude.{◌≡◌, ◌++◌, IfOk, OnOk, map, string_bytes};
ghost use Rattle.std.specs.List.{flat_map, list_any};
ghost use Rattle.feed_stations.specs.Choosing.{AreLines, IsChoice, IsJson, is_chosen, is_marked_at, is_shown_at};
ghost use Rattle.feed_stations.specs.Choosing.{json_at, line_at, stops_of};
ghost use Rattle.text_pieces.specs.Json.{with_commas};

use crate::finding::found_each;
use crate::grouping::grouped;
use crate::json::append_json;
use crate::listing::append_line;
use crate::stop_table::StopTable;
use std::alloc::{AllocError, Global};
use text_pieces::{put_comma, put_text};

/// The stops of each row, and the rows that are listed.
#[derive(Drop)]
struct Choice {
    groups: Vec<Vec<usize>>,
    chosen: Vec<usize>,
}

/// The lines of the stations and stops that have the text in their id or name, or in those of one of their stops, in
/// order.
pub fn lines_text(alloc: Global, stop_table: &StopTable, text: &str) -> Result<String, AllocError>
    ensures { IfOk result (λ lines. AreLines stop_table.now text.now (string_bytes lines)) }
{
    let choice = choose(alloc, stop_table, text)?;
    let mut lines = String::new(alloc);
    append_lines(&mut lines, stop_table, &choice)?;
    Ok(lines)
}

fn append_lines(
    lines: &mut String,
    stop_table: &StopTable,
    choice: &Choice,
) -> Result<(), AllocError>
    ensures { OnOk result (string_bytes lines.new ≡ string_bytes lines.old
        ++ flat_map (line_at stop_table.now choice.now.groups.items) choice.now.chosen.items) }
{
    for row_index in &choice.chosen {
        let stops = stops_of(&choice.groups, *row_index);
        append_line(lines, stop_table, *row_index, stops)?;
    }
    Ok(())
}

/// The same stations and stops as an array of JSON, on one line.
pub fn json_text(alloc: Global, stop_table: &StopTable, text: &str) -> Result<String, AllocError>
    ensures { IfOk result (λ out. IsJson stop_table.now text.now (string_bytes out)) }
{
    let choice = choose(alloc, stop_table, text)?;
    let mut out = String::new(alloc);
    put_text(&mut out, "[")?;
    append_objects(&mut out, alloc, stop_table, &choice)?;
    put_text(&mut out, "]\n")?;
    Ok(out)
}

fn append_objects(
    out: &mut String,
    alloc: Global,
    stop_table: &StopTable,
    choice: &Choice,
) -> Result<(), AllocError>
    ensures { OnOk result (string_bytes out.new ≡ string_bytes out.old
        ++ with_commas (map (json_at stop_table.now choice.now.groups.items)
        choice.now.chosen.items)) }
{
    for at in 0..choice.chosen.len() {
        put_comma(out, at)?;
        append_object(out, alloc, stop_table, choice, choice.chosen[at])?;
    }
    Ok(())
}

fn append_object(
    out: &mut String,
    alloc: Global,
    stop_table: &StopTable,
    choice: &Choice,
    row_index: usize,
) -> Result<(), AllocError>
    ensures { OnOk result (string_bytes out.new ≡ string_bytes out.old
        ++ json_at stop_table.now choice.now.groups.items row_index) }
{
    let stops = stops_of(&choice.groups, row_index);
    append_json(out, alloc, stop_table, row_index, stops)
}

// The rows that are listed, and at which, or at a stop of which, the text is found.
fn choose(alloc: Global, stop_table: &StopTable, text: &str) -> Result<Choice, AllocError>
    ensures { IfOk result (λ choice. IsChoice stop_table.now text.now choice.groups.items choice.chosen.items) }
{
    let found = found_each(alloc, stop_table, text)?;
    let groups = grouped(alloc, &stop_table.homes, stop_table.rows.len())?;
    let mut chosen = Vec::new(alloc);
    for row_index in 0..stop_table.rows.len() {
        if is_chosen(stop_table, &groups, &found, row_index) {
            chosen.push(row_index)?;
        }
    }
    Ok(Choice { groups, chosen })
}

// Whether a row is listed: it is that of a station, or of a stop without one, and the text is found there.
fn is_chosen(
    stop_table: &StopTable,
    groups: &[Vec<usize>],
    found: &[bool],
    row_index: usize,
) -> bool
    ensures { result ≡ is_chosen stop_table.now.rows.items groups.now found.now row_index }
{
    stop_table.is_listed(row_index) && is_shown(found, row_index, stops_of(groups, row_index))
}

// The stops of the row at an index.
fn stops_of(groups: &[Vec<usize>], row_index: usize) -> &[usize]
    ensures { result.now ≡ stops_of groups.now row_index }
{
    match groups.get(row_index) {
        Some(group) => group.as_slice(),
        None => &[],
    }
}

// Whether the text was found at a row, or at one of its stops.
fn is_shown(found: &[bool], row_index: usize, stops: &[usize]) -> bool
    ensures { result ≡ is_shown_at found.now row_index stops.now }
{
    is_marked(found, row_index) || has_mark(found, stops)
}

fn has_mark(found: &[bool], stops: &[usize]) -> bool
    ensures { result ≡ list_any (is_marked_at found.now) stops.now }
{
    for stop in stops {
        if is_marked(found, *stop) {
            return true;
        }
    }
    false
}

fn is_marked(found: &[bool], row_index: usize) -> bool
    ensures { result ≡ is_marked_at found.now row_index }
{
    row_index < found.len() && found[row_index]
}
