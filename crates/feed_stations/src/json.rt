//! A station, or a stop without one, as JSON.

ghost use Rattle.std.specs.Prelude.{◌≡◌, ◌++◌, OnOk, map, string_bytes};
ghost use Rattle.text_pieces.specs.Json.{with_commas};
ghost use Rattle.feed_stations.specs.Json.{row_json, stop_json, stops_json};

use crate::stop_table::StopTable;
use std::alloc::{AllocError, Global};
use text_pieces::{put_comma, put_quoted, put_text};

/// Adds a station or stop as an object of JSON.
pub(crate) fn append_json(
    out: &mut String,
    alloc: Global,
    stop_table: &StopTable,
    row_index: usize,
    stops: &[usize],
) -> Result<(), AllocError>
    ensures { OnOk result (string_bytes out.new ≡ string_bytes out.old
        ++ row_json stop_table.now.rows.items stop_table.now.labels.items row_index stops.now) }
{
    put_quoted(out, alloc, "{\"id\":", stop_table.id(row_index))?;
    put_quoted(out, alloc, ",\"name\":", stop_table.name(row_index))?;
    append_stops(out, alloc, stop_table, stops)?;
    put_quoted(out, alloc, ",\"type\":", stop_table.kind(row_index))?;
    put_text(out, "}")?;
    Ok(())
}

fn append_stops(
    out: &mut String,
    alloc: Global,
    stop_table: &StopTable,
    stops: &[usize],
) -> Result<(), AllocError>
    ensures { OnOk result (string_bytes out.new ≡ string_bytes out.old
        ++ stops_json stop_table.now.rows.items stop_table.now.labels.items stops.now) }
{
    put_text(out, ",\"stops\":[")?;
    append_each(out, alloc, stop_table, stops)?;
    put_text(out, "]")?;
    Ok(())
}

fn append_each(
    out: &mut String,
    alloc: Global,
    stop_table: &StopTable,
    stops: &[usize],
) -> Result<(), AllocError>
    ensures { OnOk result (string_bytes out.new ≡ string_bytes out.old
        ++ with_commas (map (stop_json stop_table.now.rows.items stop_table.now.labels.items) stops.now)) }
{
    for row_index in 0..stops.len() {
        put_comma(out, row_index)?;
        append_stop(out, alloc, stop_table, stops[row_index])?;
    }
    Ok(())
}

fn append_stop(
    out: &mut String,
    alloc: Global,
    stop_table: &StopTable,
    stop: usize,
) -> Result<(), AllocError>
    ensures { OnOk result (string_bytes out.new ≡ string_bytes out.old
        ++ stop_json stop_table.now.rows.items stop_table.now.labels.items stop) }
{
    put_quoted(out, alloc, "{\"id\":", stop_table.id(stop))?;
    put_quoted(out, alloc, ",\"platform\":", stop_table.platform(stop))?;
    put_text(out, "}")?;
    Ok(())
}
