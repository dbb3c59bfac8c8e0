//! Times, dates and numbers as they are written in fields.

use gtfs_rows::values::{date, number, time};
use std::alloc::{AllocError, Global};
use std::process::Abort;
use std::test::Fail;

// Texts of fields, each with the kind that it is read as before it, and what is read after it.
const FIELDS: &str = "\
time|8:05:09|29109
time|0:00:00|0
time|24:00:00|86400
time|99:59:59|359999
time|08:59:59|32399
time|100:00:00|none
time|08:60:00|none
time|08:00:60|none
time|8:5:9|none
time||none
time|08.00.00|none
time|+8:00:00|none
time|08:00:00 |none
date|20240229|2024 2 29
date|00010101|1 1 1
date|99991231|9999 12 31
date|20000229|2000 2 29
date|20240230|none
date|00000101|none
date|19000229|none
date|20241301|none
date|20240100|none
date|2024011|none
date|2024-1-1|none
number|0|0
number|9|9
number|42|42
number|07|7
number|120|120
number|007|7
number|7.000|7
number|999999999|999999999
number|0.0|0
number||none
number|x|none
number|/|none
number|:0|none
number|4:|none
number| 4|none
number|4 |none
number|12x|none
number|.0|none
number|7.|none
number|2.5|none
number|7.01|none
number|1234567890|none
number|-1|none
number|+1|none
number|1e3|none";

fn none(alloc: Global) -> Result<String, AllocError> {
    String::from_str(alloc, "none")
}

fn time_text(alloc: Global, field: &[u8]) -> Result<String, AllocError> {
    match time(field) {
        Some(seconds) => format!(in alloc; "{seconds}"),
        None => none(alloc),
    }
}

fn date_text(alloc: Global, field: &[u8]) -> Result<String, AllocError> {
    match date(field) {
        Some(day) => format!(in alloc; "{} {} {}", day.year, day.month, day.day),
        None => none(alloc),
    }
}

fn number_text(alloc: Global, field: &[u8]) -> Result<String, AllocError> {
    match number(field) {
        Some(value) => format!(in alloc; "{value}"),
        None => none(alloc),
    }
}

fn try_line(rt: &impl Abort, alloc: Global, line: &str) -> Result<(), Fail> {
    let (kind, rest) = line.split_once('|').unwrap_or((line, ""));
    let (field, wanted) = rest.split_once('|').unwrap_or((rest, ""));
    let reported = match kind {
        "time" => time_text(alloc, field.as_bytes())?,
        "date" => date_text(alloc, field.as_bytes())?,
        _ => number_text(alloc, field.as_bytes())?,
    };
    assert_eq!(rt; reported.as_str(), wanted, "{line}");
    Ok(())
}

#[test]
fn fields_are_read(rt: HostRuntime) -> Result<(), Fail> {
    for line in FIELDS.split('\n') {
        try_line(&rt, rt.alloc(), line)?;
    }
    Ok(())
}
