//! What is above the journeys of a picture.

ghost use Rattle.std.specs.Prelude.{◌≡◌, ◌++◌, codes, IfOk, OnOk, string_bytes};
ghost use Rattle.criteria.specs.Names.{name_text};
ghost use Rattle.answer_pictures.specs.JourneyLines.{IsHeadingOf, asked_text, own_moment};

use crate::lines::Heading;
use crate::moments::put_moment;
use crate::putting::put_text;
use criteria::CriterionName;
use image_facts::stop_name;
use image_verifier::Verified;
use jiff_core::civil::Date;
use std::alloc::{AllocError, Global};
use std::fmt::Write as _;
use timetable::Query;

// The seconds of a day, and how far zones are ahead of UTC at most, apart from some islands.
const DAY: i64 = 86400;

const MOST_AHEAD: i64 = 46800;

/// The names of a query's source and target, and what it asks: the date from which times count, the
/// window, and the criterion.
pub fn heading_of(
    alloc: Global,
    image: &Verified,
    query: &Query,
    criterion: CriterionName,
) -> Result<Heading, AllocError>
    ensures { IfOk result (IsHeadingOf image.now.names criterion query.now) }
{
    let from = stop_name(alloc, image, query.source)?;
    let to = stop_name(alloc, image, query.target)?;
    let mut about = date_text(alloc, image.base())?;
    put_asked(&mut about, criterion, query)?;
    Ok(Heading { from, to, about })
}

/// The date of the day that begins at an instant, for zones from ten hours behind UTC to thirteen ahead; an
/// empty text if its year isn't one of -9999 to 9999.
fn date_text(alloc: Global, base: i64) -> Result<String, AllocError> {
    let day = base.saturating_add(MOST_AHEAD).div_euclid(DAY);
    match Date::from_unix_epoch_day(day) {
        Ok(date) => {
            let (year, month, day) = (date.year, date.month, date.day);
            format!(in alloc; "{year:04}-{month:02}-{day:02}")
        }
        Err(_range) => Ok(String::new(alloc)),
    }
}

/// Adds the window and the criterion.
fn put_asked(out: &mut String, criterion: CriterionName, query: &Query) -> Result<(), AllocError>
    ensures { OnOk result (string_bytes out.new ≡ string_bytes out.old ++ asked_text criterion query.now) }
{
    put_own(out, ": departing ", query.from)?;
    put_own(out, " to ", query.until)?;
    put_own(out, ", arriving by ", query.by)?;
    put_best(out, criterion)?;
    Ok(())
}

/// Adds a text and a time, with its seconds if it has any.
fn put_own(out: &mut String, before: &str, time: u32) -> Result<(), AllocError>
    ensures { OnOk result (string_bytes out.new ≡ string_bytes out.old ++ (before.now ++ own_moment time)) }
{
    put_text(out, before)?;
    put_moment(out, time % 60 != 0, time)
}

fn put_best(out: &mut String, criterion: CriterionName) -> Result<(), AllocError>
    ensures { OnOk result (string_bytes out.new ≡ string_bytes out.old ++ (codes "; best by " ++ name_text criterion)) }
{
    put_text(out, "; best by ")?;
    put_text(out, criterion.name())
}
