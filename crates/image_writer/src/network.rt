//! Writes connections and footpaths.

ghost use Rattle.std.specs.Prelude.{◌≡◌, ◌+◌, ◌≤◌, ◌<◌, ◌^◌, ◌++◌, length, map, OnOk};
ghost use Rattle.std.specs.List.{flat_map, range_with_len};
ghost use Rattle.timetable.specs.Legal.{AreInOrder};
ghost use Rattle.image_layout.specs.Spelling.{connection_words, footpath_count_below, footpath_words};

use std::alloc::AllocError;
use timetable::{Connection, Footpath};

/// Adds six words for each connection.
pub fn write_connections(words: &mut Vec<u32>, connections: &[Connection]) -> Result<(), AllocError>
    ensures { OnOk result (words.new.items ≡ words.old.items ++ flat_map connection_words connections.now) }
{
    for connection in connections {
        words.extend_from_slice(&connection_words(connection))?;
    }
    Ok(())
}

/// The six words of a connection.
fn connection_words(connection: &Connection) -> [u32; 6]
    ensures { result ≡ connection_words connection.now }
{
    let board = if connection.board { 1 } else { 0 };
    let alight = if connection.alight { 2 } else { 0 };
    [
        connection.from,
        connection.to,
        connection.dep,
        connection.arr,
        connection.trip,
        board + alight,
    ]
}

/// Adds the foot index: for each stop, and then for `stops`, the number of footpaths into the stops below it.
pub fn write_foot_index(
    words: &mut Vec<u32>,
    stops: u32,
    footpaths: &[Footpath],
) -> Result<(), AllocError>
    requires ordered { AreInOrder footpaths.now }
    requires few_stops { stops + 1 < 2 ^ 32 }
    requires few_footpaths { length footpaths.now < 2 ^ 32 }
    ensures { OnOk result (words.new.items ≡ words.old.items
        ++ map (footpath_count_below footpaths.now) (range_with_len 0 (stops + 1))) }
{
    let mut index = 0;
    for stop in 0..stops + 1 {
        index = first_into(footpaths, index, stop);
        words.push(index as u32)?;
    }
    Ok(())
}

/// The number of footpaths into stops below `stop`. It is at least `index`, from where counting goes on.
fn first_into(footpaths: &[Footpath], index: usize, stop: u32) -> usize
    requires ordered { AreInOrder footpaths.now }
    requires known { index ≤ footpath_count_below footpaths.now stop }
    ensures { result ≡ footpath_count_below footpaths.now stop }
{
    let mut index = index;
    while index < footpaths.len() && footpaths[index].to < stop {
        index += 1;
    }
    index
}

/// Adds two words for each footpath.
pub fn write_footpaths(words: &mut Vec<u32>, footpaths: &[Footpath]) -> Result<(), AllocError>
    ensures { OnOk result (words.new.items ≡ words.old.items ++ flat_map footpath_words footpaths.now) }
{
    for footpath in footpaths {
        words.extend_from_slice(&[footpath.from, footpath.secs])?;
    }
    Ok(())
}
