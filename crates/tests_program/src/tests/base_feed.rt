//! The feed of examples/base in a folder `base_feed`, and that feed with one record changed.

use crate::tests::running::Machine;
use std::alloc::AllocError;
use std::fs;
use std::test::Fail;

/// The lines of one file of the feed.
fn lines_of(file: &str) -> &'static str {
    match file {
        "agency.txt" =>
            "agency_id,agency_name,agency_url,agency_timezone\n1,Base,http://base.example,Etc/UTC",
        "stops.txt" => "stop_id,stop_name\nA,A\nB,B\nC,C",
        "trips.txt" => "route_id,service_id,trip_id\nR,S,T1\nR,S,T2",
        "calendar.txt" =>
            "service_id,monday,tuesday,wednesday,thursday,friday,saturday,sunday,start_date,end_date\nS,1,1,1,1,1,1,1,20240115,20240115",
        _ => "trip_id,arrival_time,departure_time,stop_id,stop_sequence
T1,08:00:00,08:00:00,A,1
T1,08:10:00,08:10:00,B,2
T1,08:30:00,08:30:00,C,3
T2,08:12:00,08:12:00,B,1
T2,08:20:00,08:20:00,C,2",
    }
}

/// Adds lines, each with an LF; the one at an index (0 for the first) is replaced.
fn add_lines(
    text: &mut String,
    lines: &str,
    mut index: u32,
    record: &str,
) -> Result<(), AllocError> {
    for line in lines.split('\n') {
        text.push_str(if index == 0 { record } else { line })?;
        text.push_str("\n")?;
        index = index.wrapping_sub(1);
    }
    Ok(())
}

const FILES: [&str; 5] = [
    "agency.txt",
    "stops.txt",
    "trips.txt",
    "calendar.txt",
    "stop_times.txt",
];

fn write<R: Machine>(rt: &R, file: &str, text: &str) -> Result<(), Fail> {
    let path = format!(in rt.alloc(); "base_feed/{file}")?;
    Ok(fs::write(rt, path.as_str(), text)?)
}

/// Makes the folder, and its files.
pub(crate) fn make<R: Machine>(rt: &R) -> Result<(), Fail> {
    fs::create_dir(rt, "base_feed")?;
    for file in FILES.iter() {
        write(rt, *file, lines_of(*file))?;
    }
    Ok(())
}

/// Writes a file of the feed with one record replaced: `stop_times.txt 2 T1,08:60:00,08:10:00,B,2` puts this record in
/// the place of the second.
pub(crate) fn change<R: Machine>(rt: &R, words: &str) -> Result<(), Fail> {
    let Some((file, rest)) = words.split_once(' ') else {
        return Err(Fail::new("a file, a number and a record"));
    };
    let Some((index, record)) = rest.split_once(' ') else {
        return Err(Fail::new("a number and a record"));
    };
    let Ok(index) = index.parse() else {
        return Err(Fail::new("the number of a record"));
    };
    let mut text = String::new(rt.alloc());
    add_lines(&mut text, lines_of(file), index, record)?;
    write(rt, file, text.as_str())
}
