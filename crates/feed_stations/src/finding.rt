//! Which stops have a text in their id or their name.

ghost use Rattle.std.specs.Prelude.{IfOk, MatchBool, length};
ghost use Rattle.feed_stations.specs.Finding.{AreMarks, IsFoundAt, IsIn, IsInEither};

use crate::folding::folded;
use crate::stop_table::StopTable;
use std::alloc::{AllocError, Global};

/// Whether a text is in a name.
pub fn is_in(text: &str, name: &str) -> bool
    ensures { MatchBool result (IsIn text.now name.now) (¬ (IsIn text.now name.now)) }
{
    name.contains(text)
}

/// For each row whether its stop_id or its name has the text in it, without regard to case and accents.
pub(crate) fn found_each(
    alloc: Global,
    stop_table: &StopTable,
    text: &str,
) -> Result<Vec<bool>, AllocError>
    ensures { IfOk result (λ found. AreMarks (IsFoundAt stop_table.now.rows.items stop_table.now.labels.items text.now)
        (length stop_table.now.rows.items) found.items) }
{
    let text = folded(alloc, text)?;
    let mut found = Vec::with_capacity(alloc, stop_table.rows.len())?;
    for row_index in 0..stop_table.rows.len() {
        let here = is_in_either(
            alloc,
            text.as_str(),
            stop_table.id(row_index),
            stop_table.name(row_index),
        )?;
        found.push(here)?;
    }
    Ok(found)
}

// Whether a folded text is in an id or in a name, once they are folded.
fn is_in_either(alloc: Global, text: &str, id: &str, name: &str) -> Result<bool, AllocError>
    ensures { IfOk result (λ found. MatchBool found (IsInEither text.now id.now name.now)
        (¬ (IsInEither text.now id.now name.now))) }
{
    let id = folded(alloc, id)?;
    if is_in(text, id.as_str()) {
        return Ok(true);
    }
    let name = folded(alloc, name)?;
    Ok(is_in(text, name.as_str()))
}
