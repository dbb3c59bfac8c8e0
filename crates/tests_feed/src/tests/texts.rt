//! Cases as texts: what is given and what is expected are compared as texts, so that a further case costs no proof.
//!
//! A text has one case after another. Each begins with a line `= HEAD`, may have further lines of what is given, and
//! ends with the lines that are expected, each after `> `. A file is one line: its name and its text, with a bar for
//! each LF.

ghost use Rattle.std.specs.Prelude.{IfOk};

use feed_files::{MemoryFiles, ReadFault, read_tables};
use gtfs_rows::values::date;
use gtfs_tables::{Day, FaultKind, Feed, Table, TableFault, Tables, join};
use service_days::Zone;
use std::alloc::{AllocError, Global};
use std::fmt::{Debug, Write};
use std::process::Abort;
use std::test::Fail;
use timetable::Footpath;

/// A zone file: Central European Time until 2024-03-31T01:00:00Z, then Central European Summer Time, and from then on
/// by the rule.
pub(crate) const CENTRAL_EUROPE: &[u8] = b"TZif2\0\0\0\0\0\0\0\0\0\0\0\0\0\0\0\
\0\0\0\0\0\0\0\0\0\0\0\0\0\0\0\0\0\0\0\x01\0\0\0\x01\0\0\0\0\0\0\0\
TZif2\0\0\0\0\0\0\0\0\0\0\0\0\0\0\0\
\0\0\0\0\0\0\0\0\0\0\0\0\0\0\0\x01\0\0\0\x02\0\0\0\x09\
\0\0\0\0\x66\x08\xB5\x90\x01\0\0\x0E\x10\0\0\0\0\x1C\x20\x01\x04CET\0CEST\0\
\nCET-1CEST,M3.5.0,M10.5.0/3\n";

/// The parts of a case: the words after `= `, the lines below, and the lines that are expected.
#[derive(Clone, Copy)]
pub(crate) struct Case<'a> {
    pub(crate) head: &'a str,
    pub(crate) given: &'a str,
    pub(crate) wanted: &'a str,
}

/// A case without its first `= `.
fn case_of(text: &str) -> Result<Case<'_>, Fail> {
    let Some((asked, wanted)) = text.split_once("\n> ") else {
        return Err(Fail::new("a case without what is wanted"));
    };
    let (head, given) = asked.split_once('\n').unwrap_or((asked, ""));
    Ok(Case {
        head,
        given,
        wanted,
    })
}

/// A kind of cases.
pub(crate) trait Reporter {
    /// Tells what comes of a case.
    fn reported<R: Abort>(&self, rt: &R, alloc: Global, case: Case<'_>) -> Result<String, Fail>;
}

/// Asserts that what is printed of a case is what it expects.
fn try_case<R: Abort, T: Reporter>(
    rt: &R,
    alloc: Global,
    case: Case<'_>,
    kind: &T,
) -> Result<(), Fail> {
    let reported = kind.reported(rt, alloc, case)?;
    let Case {
        head,
        given,
        wanted,
    } = case;
    assert_eq!(rt; reported.as_str(), wanted, "{head}\n{given}");
    Ok(())
}

pub(crate) fn try_cases<R: Abort, T: Reporter>(
    rt: &R,
    alloc: Global,
    cases: &str,
    kind: &T,
) -> Result<(), Fail> {
    for case in cases.split("\n= ") {
        if !case.is_empty() {
            try_case(rt, alloc, case_of(case)?, kind)?;
        }
    }
    Ok(())
}

pub(crate) fn number(text: &str) -> Result<u32, Fail> {
    match text.parse() {
        Ok(number) => Ok(number),
        Err(_) => Err(Fail::new("a number of a text")),
    }
}

/// The day of a text YYYYMMDD.
pub(crate) fn day(text: &str) -> Result<Day, Fail> {
    match date(text.as_bytes()) {
        Some(day) => Ok(day),
        None => Err(Fail::new("a day of a text")),
    }
}

/// Three numbers with spaces between them.
fn three_numbers(text: &str) -> Result<(u32, u32, u32), Fail> {
    let Some((first, rest)) = text.split_once(' ') else {
        return Err(Fail::new("three numbers"));
    };
    let (second, third) = rest.split_once(' ').unwrap_or((rest, ""));
    Ok((number(first)?, number(second)?, number(third)?))
}

/// The footpaths of a text such as `0 1 60, 1 2 60`.
pub(crate) fn paths_of(alloc: Global, text: &str) -> Result<Vec<Footpath>, Fail> {
    let mut paths = Vec::new(alloc);
    for path in text.split(", ") {
        if !path.is_empty() {
            let (from, to, secs) = three_numbers(path)?;
            paths.push(Footpath { from, to, secs })?;
        }
    }
    Ok(paths)
}

/// Footpaths as such a text.
pub(crate) fn paths_text(alloc: Global, paths: &[Footpath]) -> Result<String, AllocError> {
    let mut text = String::new(alloc);
    for path in paths {
        if !text.is_empty() {
            text.push_str(", ")?;
        }
        write!(text, "{} {} {}", path.from, path.to, path.secs)?;
    }
    Ok(text)
}

/// Adds a line for each row.
pub(crate) fn add_rows<T: Debug>(text: &mut String, rows: &[T]) -> Result<(), AllocError> {
    for row in rows {
        write!(text, "\n> {row:?}")?;
    }
    Ok(())
}

/// A fault as a text such as `4 RowLength stops.txt 2`.
pub(crate) fn fault_text(alloc: Global, fault: TableFault) -> Result<String, AllocError> {
    let number = fault.kind.number();
    let name = fault.kind.name();
    let file = fault.file.file_name();
    let row = fault.row;
    format!(in alloc; "{number} {name} {file} {row}")
}

/// The zone of a text.
pub(crate) fn zone_of(alloc: Global, text: &str) -> Result<Zone, Fail> {
    match text {
        "fixed:0" => Ok(Zone::fixed(0)),
        "fixed:3600" => Ok(Zone::fixed(3600)),
        "fixed:86399" => Ok(Zone::fixed(86_399)),
        "fixed:-86399" => Ok(Zone::fixed(-86_399)),
        "file" => Ok(Zone::file_bytes(alloc, CENTRAL_EUROPE)?),
        _ => Ok(Zone::posix(text)?),
    }
}

/// The usual columns of a file.
fn usual_columns(file: &str) -> &'static str {
    match file {
        "agency.txt" => "agency_timezone",
        "stops.txt" => "stop_id,location_type,parent_station",
        "trips.txt" => "service_id,trip_id",
        "stop_times.txt" => "trip_id,arrival_time,departure_time,stop_id,stop_sequence",
        "calendar.txt" => {
            "service_id,monday,tuesday,wednesday,thursday,friday,saturday,sunday,start_date,end_date"
        }
        "calendar_dates.txt" => "service_id,date,exception_type",
        "transfers.txt" => "from_stop_id,to_stop_id,transfer_type,min_transfer_time",
        _ => "trip_id,start_time,end_time,headway_secs",
    }
}

/// A text in which each `|` stands for LF.
pub(crate) fn lines_of(alloc: Global, text: &str) -> Result<String, AllocError> {
    let mut lines = String::new(alloc);
    let mut is_later = false;
    for line in text.split('|') {
        if is_later {
            lines.push_str("\n")?;
        }
        lines.push_str(line)?;
        is_later = true;
    }
    Ok(lines)
}

/// The name and the text of a file, the latter as [`lines_of`] gives it: for `FILE: ROWS` the rows below the usual
/// columns, for `FILE TEXT` the text.
pub(crate) fn file_of<'a>(alloc: Global, line: &'a str) -> Result<(&'a str, String), AllocError> {
    if let Some((file, rows)) = line.split_once(": ") {
        let text = format!(in alloc; "{}|{rows}", usual_columns(file))?;
        return Ok((file, lines_of(alloc, text.as_str())?));
    }
    let (file, text) = line.split_once(' ').unwrap_or((line, ""));
    Ok((file, lines_of(alloc, text)?))
}

/// Adds a file as [`file_of`] gives it: its name in a line, then its text, then a bar.
fn add_file(alloc: Global, feed: &mut String, line: &str) -> Result<(), AllocError> {
    let (file, text) = file_of(alloc, line)?;
    write!(feed, "{file}\n{text}|")
}

/// The files of all lines, as [`add_file`] adds them.
pub(crate) fn feed_of(alloc: Global, changed: &str, base: &str) -> Result<String, AllocError> {
    let mut feed = String::new(alloc);
    for line in changed.split('\n').chain(base.split('\n')) {
        add_file(alloc, &mut feed, line)?;
    }
    Ok(feed)
}

/// The files of a feed with their names. Of two with the same name the first counts, so those of a base stand in where
/// there is no other.
pub(crate) fn files_of(alloc: Global, feed: &str) -> Result<Vec<(&str, &[u8])>, AllocError> {
    let mut files = Vec::new(alloc);
    for file in feed.split('|') {
        if let Some((name, text)) = file.split_once('\n') {
            files.push((name, text.as_bytes()))?;
        }
    }
    Ok(files)
}

/// The fault that memory ran out for the files themselves, reported of the first file.
fn wanting() -> TableFault {
    TableFault {
        file: Table::Agency,
        row: 0,
        kind: FaultKind::OutOfMemory,
    }
}

fn tables_of(alloc: Global, changed: &str, base: &str) -> Result<Tables, TableFault> {
    let Ok(feed) = feed_of(alloc, changed, base) else {
        return Err(wanting());
    };
    let Ok(files) = files_of(alloc, feed.as_str()) else {
        return Err(wanting());
    };
    let mut files = MemoryFiles::of(&files);
    match read_tables(alloc, &mut files) {
        Ok(tables) => Ok(tables),
        Err(ReadFault::Table(fault)) => Err(fault),
        Err(ReadFault::FileFailed(table)) => Err(table.missing()),
    }
}

/// The feed of these files, with those of the base where there is no other.
pub(crate) fn joined(
    alloc: Global,
    changed: &str,
    base: &str,
    strict: bool,
) -> Result<Feed, TableFault> {
    let tables = tables_of(alloc, changed, base)?;
    let feed = join(alloc, tables, strict)?;
    Ok(feed)
}

/// The same if no growth was refused; otherwise the fault must be that memory ran out.
pub(crate) fn joined_or_refused(
    rt: &impl Abort,
    alloc: Global,
    changed: &str,
    base: &str,
) -> Result<Feed, AllocError> {
    match joined(alloc, changed, base, false) {
        Ok(feed) => Ok(feed),
        Err(fault) => {
            assert!(rt; fault.kind == FaultKind::OutOfMemory);
            Err(AllocError)
        }
    }
}
