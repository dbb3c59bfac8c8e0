//! The line of a station, or of a stop without one.

ghost use Rattle.std.specs.Prelude.{◌≡◌, ◌++◌, OnOk, string_bytes};
ghost use Rattle.std.specs.List.{flat_map};
ghost use Rattle.feed_stations.specs.Listing.{cell_text, flat_letter, flat_text, row_line, stop_text};

use crate::stop_table::StopTable;
use std::alloc::AllocError;
use text_pieces::put_text;

/// Adds the line of a station or stop: what it is, its stop_id, its name, and the stop_id and the platform code of each
/// of its stops, with tabs between them.
pub(crate) fn append_line(
    lines: &mut String,
    stop_table: &StopTable,
    row_index: usize,
    stops: &[usize],
) -> Result<(), AllocError>
    ensures { OnOk result (string_bytes lines.new ≡ string_bytes lines.old
        ++ row_line stop_table.now.rows.items stop_table.now.labels.items row_index stops.now) }
{
    put_text(lines, stop_table.kind(row_index))?;
    put_cell(lines, stop_table.id(row_index))?;
    put_cell(lines, stop_table.name(row_index))?;
    append_stops(lines, stop_table, stops)?;
    put_text(lines, "\n")?;
    Ok(())
}

fn append_stops(
    lines: &mut String,
    stop_table: &StopTable,
    stops: &[usize],
) -> Result<(), AllocError>
    ensures { OnOk result (string_bytes lines.new ≡ string_bytes lines.old
        ++ flat_map (stop_text stop_table.now.rows.items stop_table.now.labels.items) stops.now) }
{
    for stop in stops {
        append_stop(lines, stop_table, *stop)?;
    }
    Ok(())
}

fn append_stop(lines: &mut String, stop_table: &StopTable, stop: usize) -> Result<(), AllocError>
    ensures { OnOk result (string_bytes lines.new ≡ string_bytes lines.old
        ++ stop_text stop_table.now.rows.items stop_table.now.labels.items stop) }
{
    put_cell(lines, stop_table.id(stop))?;
    put_cell(lines, stop_table.platform(stop))?;
    Ok(())
}

// Adds a tab and a text, in which each tab and each character that ends a line is a space.
fn put_cell(lines: &mut String, text: &str) -> Result<(), AllocError>
    ensures { OnOk result (string_bytes lines.new ≡ string_bytes lines.old ++ cell_text text.now) }
{
    put_text(lines, "\t")?;
    put_flat(lines, text)?;
    Ok(())
}

fn put_flat(lines: &mut String, text: &str) -> Result<(), AllocError>
    ensures { OnOk result (string_bytes lines.new ≡ string_bytes lines.old ++ flat_text text.now) }
{
    for letter in text.chars() {
        put_letter(lines, letter)?;
    }
    Ok(())
}

fn put_letter(lines: &mut String, letter: char) -> Result<(), AllocError>
    ensures { OnOk result (string_bytes lines.new ≡ string_bytes lines.old ++ flat_letter letter) }
{
    if letter == '\t' || letter == '\n' || letter == '\r' {
        put_text(lines, " ")
    } else {
        lines.push(letter)
    }
}
