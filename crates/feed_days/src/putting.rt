//! Adds days to texts.

ghost use Rattle.std.specs.Prelude.{◌≡◌, ◌++◌, OnOk, string_bytes};
ghost use Rattle.feed_days.specs.Days.{date_text, dated_text};

use gtfs_tables::Day;
use std::alloc::AllocError;
use text_pieces::{put_text, put_two};

// Adds a day as YYYYMMDD.
pub fn put_date(lines: &mut String, day: Day) -> Result<(), AllocError>
    ensures { OnOk result (string_bytes lines.new ≡ string_bytes lines.old ++ date_text day) }
{
    put_two(lines, day.year as u64 / 100)?;
    put_two(lines, day.year as u64 % 100)?;
    put_two(lines, day.month as u64)?;
    put_two(lines, day.day as u64)?;
    Ok(())
}

// Adds a day between two texts.
pub fn put_dated(lines: &mut String, before: &str, day: Day, after: &str) -> Result<(), AllocError>
    ensures { OnOk result (string_bytes lines.new ≡ string_bytes lines.old ++ dated_text before.now day after.now) }
{
    put_text(lines, before)?;
    put_date(lines, day)?;
    put_text(lines, after)?;
    Ok(())
}
