//! Feeds in memory and their images.

ghost use Rattle.std.specs.Prelude.{◌≡◌, Some};

use super::failing::{Failing, ORDER};
use super::texts::{feed_of, files_of};
use feed_loader::{FeedFiles, FileFault, LoadFault, MemoryFiles, OutOfRange, Plan, Report, load};
use footpaths::FootFault;
use gtfs_tables::{Day, FaultKind, IdHash, Table, TableFault};
use image_layout::{sample_words, second_sample_words};
use image_verifier::{Verified, verify};
use image_writer::write;
use service_days::{DayFault, Zone};
use std::alloc::{AllocError, Global};
use std::process::Abort;
use std::test::*;

/// The files of a small feed: three stops, a trip over all of them, and one from the second to the third.
const FILES: &str = "\
agency.txt: Etc/UTC
stops.txt stop_id|A|B|C
trips.txt: S,T1|S,T2
stop_times.txt: T1,08:00:00,08:00:00,A,1|T1,08:10:00,08:10:00,B,2|T1,08:30:00,08:30:00,C,3|T2,08:12:00,08:12:00,B,1|T2,08:20:00,08:20:00,C,2
calendar.txt: S,1,1,1,1,1,1,1,20240115,20240115";

/// A day of January 2024.
fn january(day: u8) -> Day {
    Day {
        year: 2024,
        month: 1,
        day,
    }
}

fn one_day() -> Plan
    ensures { result.days ≡ 1 }
{
    Plan {
        first_day: january(15),
        days: 1,
        zone: Zone::fixed(0),
        strict: false,
    }
}

/// Loads files in memory: the image and the counts, or the fault.
fn made(
    alloc: Global,
    files: &[(&str, &[u8])],
    plan: &Plan,
) -> Result<(Verified, Report), LoadFault>
    requires { plan.now.days ≡ 1 }
{
    let mut files = MemoryFiles::of(files);
    load(alloc, &mut files, plan)
}

/// The image of the small feed with some files changed, and its counts.
fn loaded(alloc: Global, changed: &str, plan: &Plan) -> Result<(Verified, Report), Fail>
    requires { plan.now.days ≡ 1 }
{
    let feed = feed_of(alloc, changed, FILES)?;
    let files = files_of(alloc, feed.as_str())?;
    match made(alloc, &files, plan) {
        Ok(loaded) => Ok(loaded),
        Err(_) => Err(Fail::new("the feed is refused")),
    }
}

/// Why the small feed with some files changed is refused, if it is.
fn refusal(alloc: Global, changed: &str) -> Result<Option<LoadFault>, Fail> {
    let feed = feed_of(alloc, changed, FILES)?;
    let files = files_of(alloc, feed.as_str())?;
    Ok(made(alloc, &files, &one_day()).err())
}

/// The counts of the small feed with some files changed, if its image has these words.
fn counted(alloc: Global, changed: &str, words: &[u32]) -> Result<Option<Report>, Fail> {
    let (image, report) = loaded(alloc, changed, &one_day())?;
    if image.words() == words {
        Ok(Some(report))
    } else {
        Ok(None)
    }
}

/// The counts of the small feed.
const COUNTED: Report = Report {
    stops: 3,
    runs: 2,
    connections: 3,
    footpaths: 3,
    lifted: 0,
    flex: 0,
    frequencies: 0,
    skipped: 0,
};

#[test]
fn a_feed_makes_its_image(rt: HostRuntime) -> Result<(), Fail> {
    let report = counted(rt.alloc(), "", &second_sample_words())?;
    assert_eq!(rt; report, Some(COUNTED));
    Ok(())
}

/// Files whose ids are looked up with this hash.
#[derive(Drop)]
struct Hashed<F> {
    files: F,
    hash: IdHash,
}

impl<F: FeedFiles> FeedFiles for Hashed<F> {
    ghost words = { record {
      reads = λ hashed. F.words.reads hashed.files;
      failed = λ hashed. F.words.failed hashed.files;
      holds = λ hashed. F.words.holds hashed.files;
      may_give = λ hashed. F.words.may_give hashed.files;
      asks = λ hashed. F.words.asks hashed.files;
      hash = λ hashed. Some hashed.hash;
    } };

    fn read(&mut self, alloc: Global, name: &str) -> Result<Option<Vec<u8>>, FileFault> {
        self.files.read(alloc, name)
    }

    fn id_hash(&self) -> IdHash {
        self.hash
    }
}

/// Whether files whose ids are looked up with this hash make the sample.
fn make_the_sample(alloc: Global, files: &[(&str, &[u8])], hash: IdHash) -> bool {
    let mut hashed = Hashed {
        files: MemoryFiles::of(files),
        hash,
    };
    match load(alloc, &mut hashed, &one_day()) {
        Ok((image, _report)) => image.words() == second_sample_words().as_slice(),
        Err(_) => false,
    }
}

/// Whatever the key of the hash is, the image has the same words.
#[test]
fn an_image_has_no_trace_of_a_key(rt: HostRuntime) -> Result<(), Fail> {
    let feed = feed_of(rt.alloc(), "", FILES)?;
    let files = files_of(rt.alloc(), feed.as_str())?;
    assert!(rt; make_the_sample(rt.alloc(), &files, IdHash::of_key(1)));
    assert!(rt; make_the_sample(rt.alloc(), &files, IdHash::of_key(u64::MAX)));
    assert!(rt; make_the_sample(rt.alloc(), &files, IdHash::random(&rt)));
    Ok(())
}

/// The first trip leaves at 09:00:00, 09:20:00 and 09:40:00.
const THREE_STARTS: &str = "frequencies.txt: T1,09:00:00,10:00:00,1200";

/// The image of these starts, worked out by hand: after its days it has the repeats 0, 1, 2 of these runs and 0 of the
/// second trip's.
const REPEATED: [u32; 80] = [
    0x50415343, 2, 3, 4, 7, 3, 11, 1705276800, 0, 1, 2, 29520, 30000, 3, 3, 0, 1, 32400, 33000, 0,
    3, 1, 2, 33000, 34200, 0, 3, 0, 1, 33600, 34200, 1, 3, 1, 2, 34200, 35400, 1, 3, 0, 1, 34800,
    35400, 2, 3, 1, 2, 35400, 36600, 2, 3, 0, 1, 2, 3, 0, 0, 1, 0, 2, 0, 0, 1, 2, 3, 5, 7, 9, 11,
    20240115, 20240115, 20240115, 20240115, 0, 1, 2, 0, 0x54434241, 0x54315431, 0x00325431,
];

/// Whether an image has four trips, and trips 1, 2 and 3 are these repeats.
fn are_repeats(image: &Verified, repeats: [u32; 3]) -> bool {
    if image.trips() != 4 {
        return false;
    }
    [
        image.trip_repeat(1),
        image.trip_repeat(2),
        image.trip_repeat(3),
    ] == repeats
}

/// A trip that repeats runs once for each of its starts, and the image has the number of each run.
#[test]
fn repeats_are_numbered(rt: HostRuntime) -> Result<(), Fail> {
    let (image, report) = loaded(rt.alloc(), THREE_STARTS, &one_day())?;
    assert!(rt; report.runs == 4 && report.connections == 7 && report.frequencies == 1);
    assert!(rt; image.words() == REPEATED.as_slice() && are_repeats(&image, [1, 2, 0]));
    Ok(())
}

// Unpacks an image, and writes it again.
fn written_anew(alloc: Global, image: &Verified) -> Result<Vec<u32>, AllocError> {
    let (timetable, names) = image.to_timetable(alloc)?;
    write(alloc, &timetable, &names)
}

/// Whether the words are an image that has the expected words once it is unpacked and written again.
fn are_written_anew(alloc: Global, words: &[u32], expected: &[u32]) -> Result<bool, AllocError> {
    match verify(alloc, words.to_vec(alloc)?) {
        Ok(image) => {
            let written = written_anew(alloc, &image)?;
            Ok(image.words() == words && written.as_slice() == expected)
        }
        Err(_) => Ok(false),
    }
}

/// Words that are verified, unpacked and written again are the same; words of the first layout come out in the second.
#[test]
fn an_image_is_written_anew(rt: HostRuntime) -> Result<(), AllocError> {
    let second = second_sample_words();
    assert!(rt; are_written_anew(rt.alloc(), &sample_words(), &second)?);
    assert!(rt; are_written_anew(rt.alloc(), &second, &second)?);
    assert!(rt; are_written_anew(rt.alloc(), &REPEATED, &REPEATED)?);
    Ok(())
}

/// Two starts, of which the last is before the end time.
const TWO_STARTS: &str = "frequencies.txt: T1,09:00:00,09:40:00,1200";

const NO_HEADWAY: &str = "frequencies.txt: T1,09:00:00,10:00:00,0";

/// The counts of the small feed with some files changed.
fn report_of(alloc: Global, changed: &str) -> Result<Report, Fail> {
    let (_image, report) = loaded(alloc, changed, &one_day())?;
    Ok(report)
}

/// An end time is no start; a headway of 0 is refused.
#[test]
fn an_end_time_is_no_start(rt: HostRuntime) -> Result<(), Fail> {
    let report = report_of(rt.alloc(), TWO_STARTS)?;
    assert!(rt; report.runs == 3 && report.connections == 5);
    let headway = TableFault {
        file: Table::Frequencies,
        row: 1,
        kind: FaultKind::BadHeadway,
    };
    assert_eq!(rt;
        refusal(rt.alloc(), NO_HEADWAY)?,
        Some(LoadFault::Table(headway))
    );
    Ok(())
}

/// Whether an image has three stops, no trip, and this base.
fn is_without_trips(image: &Verified, base: i64) -> bool {
    image.trips() == 0 && image.stops() == 3 && image.base() == base
}

/// On a day on which nothing runs there are no trips.
#[test]
fn a_day_without_runs_has_an_image(rt: HostRuntime) -> Result<(), Fail> {
    let next = Plan {
        first_day: january(16),
        ..one_day()
    };
    let (image, report) = loaded(rt.alloc(), "", &next)?;
    assert!(rt; report.runs == 0 && is_without_trips(&image, 1_705_363_200));
    Ok(())
}

/// A station with two stops, and nothing that runs.
const STATION: &str = "\
stops.txt: S,1,|P,0,S|Q,0,S
trips.txt service_id,trip_id
stop_times.txt trip_id,arrival_time,departure_time,stop_id,stop_sequence";

/// Its image without transfers, worked out by hand: footpaths of 120 s between the two stops in either direction, and
/// changes at a stop that take no time.
const FREE_LOOPS: [u32; 24] = [
    0x50415343, 2, 2, 0, 0, 4, 2, 1705276800, 0, 0, 2, 4, 0, 0, 1, 120, 0, 120, 1, 0, 0, 1, 2,
    0x5150,
];

/// The same with 180 s within the station: between the two stops in either direction, and for a change at a stop.
const SLOW_LOOPS: [u32; 24] = [
    0x50415343, 2, 2, 0, 0, 4, 2, 1705276800, 0, 0, 2, 4, 0, 180, 1, 180, 0, 180, 1, 180, 0, 1, 2,
    0x5150,
];

/// The same without a footpath from the first stop to the second.
const ONE_WAY: [u32; 22] = [
    0x50415343, 2, 2, 0, 0, 3, 2, 1705276800, 0, 0, 2, 3, 0, 180, 1, 180, 1, 180, 0, 1, 2, 0x5150,
];

/// Whether the station with these transfers makes an image of these words.
fn station_makes(alloc: Global, transfers: &str, words: &[u32]) -> Result<bool, Fail> {
    let changed = format!(in alloc; "{}\n{transfers}", STATION)?;
    Ok(counted(alloc, changed.as_str(), words)?.is_some())
}

/// The footpaths within a station, and the loops of its stops.
#[test]
fn a_station_has_ways_and_loops(rt: HostRuntime) -> Result<(), Fail> {
    let slow = "transfers.txt: S,S,2,180";
    let one_way = "transfers.txt: S,S,2,180|P,Q,3,";
    assert!(rt; station_makes(rt.alloc(), "", &FREE_LOOPS)?);
    assert!(rt; station_makes(rt.alloc(), slow, &SLOW_LOOPS)?);
    assert!(rt; station_makes(rt.alloc(), one_way, &ONE_WAY)?);
    Ok(())
}

#[test]
fn what_is_wrong_is_reported(rt: HostRuntime) {
    let missing = TableFault {
        file: Table::Agency,
        row: 0,
        kind: FaultKind::MissingFile,
    };
    let fault = made(rt.alloc(), &[], &one_day()).err();
    assert!(rt; fault == Some(LoadFault::Table(missing)));
}

/// A fault has a number, a name and its places.
#[test]
fn faults_are_reported(rt: HostRuntime) -> Result<(), Fail> {
    let twice = TableFault {
        file: Table::Stops,
        row: 3,
        kind: FaultKind::IdTwice,
    };
    let last = Day {
        year: 9999,
        month: 12,
        day: 31,
    };
    for (fault, text) in [
        (LoadFault::Table(twice), "8 IdTwice stops.txt 3"),
        (LoadFault::Day(DayFault::BadZone), "21 BadZone"),
        (LoadFault::Range(OutOfRange::Day(last)), "22 DayOutOfRange"),
        (
            LoadFault::Footpaths(FootFault::TooManyFootpaths),
            "42 TooManyFootpaths",
        ),
        (
            LoadFault::FileFailed(Table::StopTimes),
            "101 FileFailed stop_times.txt",
        ),
    ] {
        let reported = format!(in rt.alloc(); "{fault}")?;
        assert_eq!(rt; reported.as_str(), text);
    }
    Ok(())
}

/// Why files of which only so many can be read aren't loaded, and how many reads failed.
fn failed_after(alloc: Global, left: usize, files: &[(&str, &[u8])]) -> (Option<LoadFault>, u64) {
    let mut failing = Failing::after(left, files, FileFault::Failed);
    let fault = load(alloc, &mut failing, &one_day()).err();
    (fault, failing.failures)
}

/// Whichever read fails, the fault names that file, and nothing is read after it.
#[test]
fn a_read_that_fails_is_reported(rt: HostRuntime) -> Result<(), Fail> {
    let feed = feed_of(rt.alloc(), "", FILES)?;
    let files = files_of(rt.alloc(), feed.as_str())?;
    for (left, table) in ORDER.iter().enumerate() {
        let (fault, failures) = failed_after(rt.alloc(), left, &files);
        assert!(rt; fault == Some(LoadFault::FileFailed(*table)) && failures == 1);
    }
    Ok(())
}

/// Returns what was loaded, unless a growth was refused: then the fault must be that memory ran out.
fn loaded_or_refused(
    rt: &impl Abort,
    answer: Result<(Verified, Report), LoadFault>,
) -> Result<(Verified, Report), AllocError> {
    match answer {
        Ok(loaded) => Ok(loaded),
        Err(fault) => {
            assert!(rt; fault.is_want_of_memory());
            Err(AllocError)
        }
    }
}

/// Whichever growth is refused, the fault is that memory ran out.
#[test]
fn refused_growth_is_reported(rt: HostRuntime) -> Result<(), AllocError> {
    let feed = feed_of(rt.alloc(), "", FILES)?;
    let files = files_of(rt.alloc(), feed.as_str())?;
    let answer = made(rt.alloc(), &files, &one_day());
    let (image, _report) = loaded_or_refused(&rt, answer)?;
    assert!(rt; image.words() == second_sample_words().as_slice());
    Ok(())
}

/// A feed with all files: a station with two stops, a quoted id, a blank row, a day that is removed, and footpaths
/// between a station's stops. One trip repeats by one row, the other by five rows that overlap, at the seconds 0, 1, 5,
/// 10, 15, 20, 25 and 29.
const ALL_FILES: &str = "\
agency.txt: Etc/UTC
stops.txt: S,1,|\"A\",0,S|B,0,S|C,0,
trips.txt: S,T1|S,T2
stop_times.txt: T1,08:00:00,08:00:00,A,1|T1,,,B,2|T1,08:30:00,08:30:00,C,3|T2,08:12:00,08:12:00,B,1|T2,08:20:00,08:20:00,C,2
calendar.txt: S,1,1,1,1,1,1,1,20240115,20240116
calendar_dates.txt: S,20240116,2
frequencies.txt: T2,09:00:00,09:40:00,1200|T1,00:00:00,00:00:30,10|T1,00:00:05,00:00:30,10|T1,00:00:00,00:00:20,10|T1,00:00:10,00:00:30,10|\
    T1,00:00:01,00:00:30,14
transfers.txt: S,S,2,180";

/// The counts of that feed.
const ALL_COUNTED: Report = Report {
    stops: 3,
    runs: 10,
    connections: 18,
    footpaths: 5,
    lifted: 0,
    flex: 0,
    frequencies: 2,
    skipped: 0,
};

/// The files of a feed, loaded for two days.
fn two_days_of(alloc: Global, files: &[(&str, &[u8])]) -> Result<(Verified, Report), LoadFault> {
    let mut files = MemoryFiles::of(files);
    let plan = Plan {
        days: 2,
        ..one_day()
    };
    load(alloc, &mut files, &plan)
}

/// The same over a feed with all files.
#[test]
fn refused_growth_over_all_files_is_reported(rt: HostRuntime) -> Result<(), AllocError> {
    let feed = feed_of(rt.alloc(), "", ALL_FILES)?;
    let files = files_of(rt.alloc(), feed.as_str())?;
    let answer = two_days_of(rt.alloc(), &files);
    let (_image, report) = loaded_or_refused(&rt, answer)?;
    assert_eq!(rt; report, ALL_COUNTED);
    Ok(())
}
