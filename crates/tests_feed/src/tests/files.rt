//! A small feed in memory and in a folder, and what stops it from being read.

ghost use Rattle.std.specs.Prelude.{◌<◌};

use super::failing::{Failing, ORDER};
use feed_files::{
    Disk, FeedFiles, FileFault, FolderFiles, MemoryFiles, NodeState, ReadFault, file_up_to,
    read_tables, state_at,
};
use gtfs_tables::{FaultKind, IdHash, Table, TableFault, Tables, join};
use std::alloc::{AllocError, Global};
use std::fs;
use std::hash::BuildHasher;
use std::os::unix::fs::{MetadataExt, symlink};
use std::test::Fail;

const AGENCY: &[u8] =
    b"agency_id,agency_name,agency_url,agency_timezone\n1,Base,http://base.example,Etc/UTC\n";

const STOPS: &[u8] = b"stop_id,stop_name\nA,A\nB,B\nC,C\n";

const TRIPS: &[u8] = b"route_id,service_id,trip_id\nR,S,T1\nR,S,T2\n";

const STOP_TIMES: &[u8] =
    b"trip_id,arrival_time,departure_time,stop_id,stop_sequence\nT1,08:00:00,08:00:00,A,1\nT1,08:10:00,08:10:00,B,2\n";

const CALENDAR: &[u8] =
    b"service_id,monday,tuesday,wednesday,thursday,friday,saturday,sunday,start_date,end_date\nS,1,1,1,1,1,1,1,20240115,20240115\n";

const DATES: &[u8] = b"service_id,date,exception_type\nS,20240115,1\n";

// The feed with both calendars.
fn feed() -> [(&'static str, &'static [u8]); 6] {
    [
        ("agency.txt", AGENCY),
        ("stops.txt", STOPS),
        ("trips.txt", TRIPS),
        ("stop_times.txt", STOP_TIMES),
        ("calendar.txt", CALENDAR),
        ("calendar_dates.txt", DATES),
    ]
}

// The feed without the file at an index.
fn without(index: usize) -> [(&'static str, &'static [u8]); 6]
    requires { index < 6 }
{
    let mut files = feed();
    files[index].0 = "elsewhere.txt";
    files
}

// How many rows each file has, in the order in which they are read.
type RowCounts = [usize; 8];

fn sizes_of(tables: &Tables) -> RowCounts {
    [
        tables.agencies.len(),
        tables.stops.len(),
        tables.trips.len(),
        tables.stop_times.rows.len(),
        tables.calendar.len(),
        tables.calendar_dates.len(),
        tables.transfers.len(),
        tables.frequencies.len(),
    ]
}

fn sizes(answer: Result<Tables, ReadFault>) -> Result<RowCounts, ReadFault> {
    match answer {
        Ok(tables) => Ok(sizes_of(&tables)),
        Err(fault) => Err(fault),
    }
}

// Reads files in memory, and counts their rows.
fn read(alloc: Global, files: &[(&str, &[u8])]) -> Result<RowCounts, ReadFault> {
    let mut files = MemoryFiles::of(files);
    sizes(read_tables(alloc, &mut files))
}

// Reads files of which only so many can be read: the counts of rows or the fault, and how many reads failed.
fn read_after(
    alloc: Global,
    left: usize,
    files: &[(&'static str, &'static [u8])],
    fault: FileFault,
) -> (Result<RowCounts, ReadFault>, u64) {
    let mut files = Failing::after(left, files, fault);
    let reported = sizes(read_tables(alloc, &mut files));
    (reported, files.failures)
}

fn refused(table: Table, row: u64, kind: FaultKind) -> Result<RowCounts, ReadFault> {
    Err(ReadFault::Table(TableFault {
        file: table,
        row,
        kind,
    }))
}

#[test]
fn a_feed_is_read(rt: HostRuntime) {
    assert!(rt; read(rt.alloc(), &feed()) == Ok([1, 3, 2, 2, 1, 1, 0, 0]));
}

#[test]
fn a_required_file_that_is_missing_is_reported(rt: HostRuntime) {
    let tables = [
        (0, Table::Agency),
        (1, Table::Stops),
        (2, Table::Trips),
        (3, Table::StopTimes),
    ];
    for (index, table) in tables {
        let reported = read(rt.alloc(), &without(index));
        assert!(rt; reported == refused(table, 0, FaultKind::MissingFile));
    }
}

#[test]
fn one_calendar_is_enough(rt: HostRuntime) {
    assert!(rt; read(rt.alloc(), &without(4)) == Ok([1, 3, 2, 2, 0, 1, 0, 0]));
    assert!(rt; read(rt.alloc(), &without(5)) == Ok([1, 3, 2, 2, 1, 0, 0, 0]));
    let mut files = without(4);
    files[5].0 = "elsewhere.txt";
    let reported = read(rt.alloc(), &files);
    assert!(rt; reported == refused(Table::Calendar, 0, FaultKind::MissingFile));
}

#[test]
fn the_first_file_at_fault_is_reported(rt: HostRuntime) {
    let mut files = feed();
    files[3].1 = b"trip_id,arrival_time,departure_time,stop_id,stop_sequence\nT1,8:5:9,,A,1\n";
    files[5].1 = b"service_id,date,exception_type\nS,20240115,3\n";
    let reported = read(rt.alloc(), &files);
    assert!(rt; reported == refused(Table::StopTimes, 1, FaultKind::BadTime));
    files[3].1 = STOP_TIMES;
    files[4].0 = "elsewhere.txt";
    let reported = read(rt.alloc(), &files);
    assert!(rt; reported == refused(Table::CalendarDates, 1, FaultKind::BadNumber));
    files[0].0 = "elsewhere.txt";
    let reported = read(rt.alloc(), &files);
    assert!(rt; reported == refused(Table::Agency, 0, FaultKind::MissingFile));
}

// Whichever read fails, the fault names that file. It also names the file if memory runs out for it, which doesn't
// count as a failed read.
#[test]
fn a_read_that_fails_is_reported(rt: HostRuntime) {
    let feed = feed();
    for (left, table) in ORDER.iter().enumerate() {
        let (reported, failures) = read_after(rt.alloc(), left, &feed, FileFault::Failed);
        assert!(rt; reported == Err(ReadFault::FileFailed(*table)) && failures == 1);
        let (reported, failures) = read_after(rt.alloc(), left, &feed, FileFault::OutOfMemory);
        assert!(rt; reported == refused(*table, 0, FaultKind::OutOfMemory) && failures == 0);
    }
}

// If a file before the one that can't be read is at fault, that one isn't read, and no read has failed.
#[test]
fn a_fault_before_a_read_that_fails_is_reported(rt: HostRuntime) {
    let mut feed = feed();
    feed[1].1 = b"stop_id\nA\nA\n";
    let (reported, failures) = read_after(rt.alloc(), 2, &feed, FileFault::Failed);
    assert!(rt; reported == refused(Table::Stops, 2, FaultKind::IdTwice) && failures == 0);
}

// That both calendars are missing is a fault only after both were asked for.
#[test]
fn a_read_that_fails_behind_a_missing_calendar_is_reported(rt: HostRuntime) {
    let (reported, failures) = read_after(rt.alloc(), 5, &without(4), FileFault::Failed);
    assert!(rt; reported == Err(ReadFault::FileFailed(Table::CalendarDates)) && failures == 1);
}

// Whether a file of at most `limit` bytes is read, and has this text.
fn is_read(
    rt: &HostRuntime,
    limit: u32,
    folder: &str,
    name: &str,
    text: &[u8],
) -> Result<bool, FileFault> {
    let state = rt.folder_state(folder);
    match file_up_to(limit, rt, rt.alloc(), folder, &state, name)? {
        Some(bytes) => Ok(bytes.as_slice() == text),
        None => Ok(false),
    }
}

// A file as long as the limit is read, a longer one isn't. Files of `/proc` are longer than the size that they report.
#[test]
fn longer_files_are_refused(rt: HostRuntime) -> Result<(), Fail> {
    fs::create_dir(&rt, "long_files")?;
    fs::write(&rt, "long_files/agency.txt", "12345")?;
    let whole = is_read(&rt, 5, "long_files", "agency.txt", b"12345");
    let longer = is_read(&rt, 4, "long_files", "agency.txt", b"1234");
    let unsent = is_read(&rt, 4, "/proc/self", "stat", b"");
    fs::remove_file(&rt, "long_files/agency.txt")?;
    fs::remove_dir(&rt, "long_files")?;
    assert!(rt; whole == Ok(true) && longer == Err(FileFault::Failed));
    assert!(rt; unsent == Err(FileFault::Failed));
    Ok(())
}

fn read_folder(rt: &HostRuntime, folder: &str) -> Result<RowCounts, ReadFault> {
    let mut files = FolderFiles::new(rt, folder);
    sizes(read_tables(rt.alloc(), &mut files))
}

// How many bytes a file of a folder has, if it is there.
fn length_of(rt: &HostRuntime, folder: &str, name: &str) -> Result<Option<usize>, FileFault> {
    let mut files = FolderFiles::new(rt, folder);
    match files.read(rt.alloc(), name)? {
        Some(bytes) => Ok(Some(bytes.len())),
        None => Ok(None),
    }
}

#[test]
fn a_folder_that_is_missing_has_no_files(rt: HostRuntime) {
    let missing = refused(Table::Agency, 0, FaultKind::MissingFile);
    assert!(rt; read_folder(&rt, "no_such_folder") == missing);
    assert!(rt; read_folder(&rt, "/proc/self/stat") == missing);
    assert!(rt; length_of(&rt, "/proc/self", "fd") == Err(FileFault::Failed));
    assert!(rt; length_of(&rt, "/proc/self", "agency.txt") == Ok(None));
    assert!(rt; matches!(length_of(&rt, "/proc/self", "stat"), Ok(Some(length)) if length > 0));
}

// A device isn't opened, so nobody waits for what it may give.
#[test]
fn a_device_is_no_file(rt: HostRuntime) -> Result<(), Fail> {
    symlink(&rt, "/dev/null", "device.txt")?;
    let length = length_of(&rt, ".", "device.txt");
    fs::remove_file(&rt, "device.txt")?;
    assert!(rt; length == Err(FileFault::Failed));
    Ok(())
}

// How many bytes a file has, 0 if it isn't there, and none if it can't be read.
fn length_in<F: FeedFiles>(alloc: Global, files: &mut F, name: &str) -> Option<usize> {
    match files.read(alloc, name) {
        Ok(Some(bytes)) => Some(bytes.len()),
        Ok(None) => Some(0),
        Err(_) => None,
    }
}

// Once its folder has been exchanged for another one, no file is read of either, and none is taken for a missing one:
// not while there is no folder at all, and not if the second folder has such a file.
#[test]
fn an_exchanged_folder_is_not_read(rt: HostRuntime) -> Result<(), Fail> {
    write_folder(&rt, "exchanged", &[("agency.txt", AGENCY)])?;
    write_folder(&rt, "exchanged_for", &[("stops.txt", STOPS)])?;
    let mut files = FolderFiles::new(&rt, "exchanged");
    let agency = length_in(rt.alloc(), &mut files, "agency.txt");
    let stops = length_in(rt.alloc(), &mut files, "stops.txt");
    fs::rename(&rt, "exchanged", "exchanged_before")?;
    let gone = length_in(rt.alloc(), &mut files, "transfers.txt");
    fs::rename(&rt, "exchanged_for", "exchanged")?;
    let other = length_in(rt.alloc(), &mut files, "stops.txt");
    fs::remove_file(&rt, "exchanged/stops.txt")?;
    fs::remove_dir(&rt, "exchanged")?;
    fs::remove_file(&rt, "exchanged_before/agency.txt")?;
    fs::remove_dir(&rt, "exchanged_before")?;
    assert!(rt; agency == Some(AGENCY.len()) && stops == Some(0));
    assert!(rt; gone.is_none() && other.is_none());
    Ok(())
}

// Writes a new file into a folder, again and again until the system's clock for files has moved on.
fn add_file(rt: &HostRuntime, folder: &str, path: &str, bytes: &[u8]) -> Result<(), Fail> {
    let before = rt.folder_state(folder);
    for _ in 0..100_000 {
        fs::write(rt, path, bytes)?;
        if rt.folder_state(folder) != before {
            return Ok(());
        }
        fs::remove_file(rt, path)?;
    }
    fs::write(rt, path, bytes)?;
    Ok(())
}

// Reads a file of a folder, adds another one, and reads that: how many bytes each has, and none if it can't be read.
fn read_and_add(
    rt: &HostRuntime,
    folder: &str,
    added: &str,
) -> Result<(Option<usize>, Option<usize>), Fail> {
    let mut files = FolderFiles::new(rt, folder);
    let agency = length_in(rt.alloc(), &mut files, "agency.txt");
    add_file(rt, folder, added, STOPS)?;
    let stops = length_in(rt.alloc(), &mut files, "stops.txt");
    Ok((agency, stops))
}

// A file that is added, or put in the place of another one, changes its folder.
#[test]
fn a_folder_with_another_file_is_not_read(rt: HostRuntime) -> Result<(), Fail> {
    write_folder(&rt, "added_to", &[("agency.txt", AGENCY)])?;
    let (agency, stops) = read_and_add(&rt, "added_to", "added_to/stops.txt")?;
    fs::remove_file(&rt, "added_to/agency.txt")?;
    fs::remove_file(&rt, "added_to/stops.txt")?;
    fs::remove_dir(&rt, "added_to")?;
    assert!(rt; agency == Some(AGENCY.len()) && stops.is_none());
    Ok(())
}

// Nor is a folder at the end of a link.
#[test]
fn a_linked_folder_with_another_file_is_not_read(rt: HostRuntime) -> Result<(), Fail> {
    write_folder(&rt, "linked_to", &[("agency.txt", AGENCY)])?;
    symlink(&rt, "linked_to", "link_to_folder")?;
    let (agency, stops) = read_and_add(&rt, "link_to_folder", "linked_to/stops.txt")?;
    fs::remove_file(&rt, "link_to_folder")?;
    fs::remove_file(&rt, "linked_to/agency.txt")?;
    fs::remove_file(&rt, "linked_to/stops.txt")?;
    fs::remove_dir(&rt, "linked_to")?;
    assert!(rt; agency == Some(AGENCY.len()) && stops.is_none());
    Ok(())
}

// The second of a folder's last change, and its state.
fn second_and_state(rt: &HostRuntime, folder: &str) -> Result<(i64, Option<NodeState>), Fail> {
    let metadata = fs::metadata(rt, folder)?;
    Ok((metadata.ctime(), rt.folder_state(folder)))
}

// Puts a file into a folder again and again, and returns whether two of the folder's states within a second differ.
fn is_changed_within_a_second(rt: &HostRuntime, folder: &str, path: &str) -> Result<bool, Fail> {
    fs::write(rt, path, STOPS)?;
    let (mut second, mut state) = second_and_state(rt, folder)?;
    for _ in 0..100_000 {
        fs::remove_file(rt, path)?;
        fs::write(rt, path, STOPS)?;
        let (later, changed) = second_and_state(rt, folder)?;
        if later == second && changed != state {
            return Ok(true);
        }
        second = later;
        state = changed;
    }
    Ok(false)
}

// Two changes in one second are told apart, unless they fall into one tick of the file system's clock.
#[test]
fn a_change_in_the_same_second_is_seen(rt: HostRuntime) -> Result<(), Fail> {
    write_folder(&rt, "changed_again", &[("agency.txt", AGENCY)])?;
    let is_seen = is_changed_within_a_second(&rt, "changed_again", "changed_again/stops.txt")?;
    fs::remove_file(&rt, "changed_again/agency.txt")?;
    fs::remove_file(&rt, "changed_again/stops.txt")?;
    fs::remove_dir(&rt, "changed_again")?;
    assert!(rt; is_seen);
    Ok(())
}

// Writes the same bytes into a file and restores the time of its last change, again and again. Returns whether this is
// seen within a second.
fn is_rewrite_seen(rt: &HostRuntime, path: &str) -> Result<bool, Fail> {
    for _ in 0..100_000 {
        let (metadata, state) = (fs::metadata(rt, path)?, state_at(rt, path));
        fs::write(rt, path, STOPS)?;
        let file = fs::OpenOptions::new().write(true).open(rt, path)?;
        file.set_modified(metadata.modified()?)?;
        let now = fs::metadata(rt, path)?;
        let is_restored = (now.mtime(), now.mtime_nsec())
            == (metadata.mtime(), metadata.mtime_nsec());
        if is_restored && now.ctime() == metadata.ctime() && state_at(rt, path) != state {
            return Ok(true);
        }
    }
    Ok(false)
}

// Whether two files of equal length that changed at the same instant are told apart.
fn are_told_apart(rt: &HostRuntime, first: &str, second: &str) -> Result<bool, Fail> {
    for _ in 0..100_000 {
        fs::write(rt, first, STOPS)?;
        fs::write(rt, second, STOPS)?;
        let (one, other) = (fs::metadata(rt, first)?, fs::metadata(rt, second)?);
        if (one.ctime(), one.ctime_nsec()) == (other.ctime(), other.ctime_nsec()) {
            return Ok(state_at(rt, first) != state_at(rt, second));
        }
    }
    Ok(false)
}

// A file in another one's place isn't taken for it, though neither its length nor the time of its last change differs.
#[test]
fn files_of_one_instant_are_told_apart(rt: HostRuntime) -> Result<(), Fail> {
    write_folder(&rt, "of_one_instant", &[("stops.txt", STOPS)])?;
    let are_two = are_told_apart(&rt, "of_one_instant/stops.txt", "of_one_instant/next.txt")?;
    fs::remove_file(&rt, "of_one_instant/stops.txt")?;
    fs::remove_file(&rt, "of_one_instant/next.txt")?;
    fs::remove_dir(&rt, "of_one_instant")?;
    assert!(rt; are_two);
    Ok(())
}

// Only an error that means that there is no file counts as that: here the path is too long for the system.
#[test]
fn a_path_that_is_too_long_is_no_missing_file(rt: HostRuntime) -> Result<(), Fail> {
    let mut folder = String::new(rt.alloc());
    for _ in 0..300 {
        folder.push_str("x")?;
    }
    assert!(rt; length_of(&rt, &folder, "stops.txt") == Err(FileFault::Failed));
    Ok(())
}

// A file that is written again isn't as it was, though its length and the time of its last change are.
#[test]
fn a_change_with_its_time_restored_is_seen(rt: HostRuntime) -> Result<(), Fail> {
    write_folder(&rt, "written_again", &[("stops.txt", STOPS)])?;
    let is_seen = is_rewrite_seen(&rt, "written_again/stops.txt")?;
    fs::remove_file(&rt, "written_again/stops.txt")?;
    fs::remove_dir(&rt, "written_again")?;
    assert!(rt; is_seen);
    Ok(())
}

// A link to a file in another folder is read as that file.
#[test]
fn a_link_to_a_file_is_read(rt: HostRuntime) -> Result<(), Fail> {
    write_folder(&rt, "of_the_file", &[("stops.txt", STOPS)])?;
    fs::create_dir(&rt, "of_the_link")?;
    symlink(&rt, "../of_the_file/stops.txt", "of_the_link/stops.txt")?;
    let whole = is_read(&rt, 100, "of_the_link", "stops.txt", STOPS);
    fs::remove_file(&rt, "of_the_link/stops.txt")?;
    fs::remove_dir(&rt, "of_the_link")?;
    fs::remove_file(&rt, "of_the_file/stops.txt")?;
    fs::remove_dir(&rt, "of_the_file")?;
    assert!(rt; whole == Ok(true));
    Ok(())
}

// A link that leads nowhere isn't taken for a missing file.
#[test]
fn a_link_that_leads_nowhere_is_refused(rt: HostRuntime) -> Result<(), Fail> {
    symlink(&rt, "no_such_file", "broken_link.txt")?;
    let length = length_of(&rt, ".", "broken_link.txt");
    fs::remove_file(&rt, "broken_link.txt")?;
    assert!(rt; length == Err(FileFault::Failed));
    Ok(())
}

// A header, and so many lines after it.
fn long_file(alloc: Global, lines: usize) -> Result<String, AllocError> {
    let mut text = String::from_str(alloc, "service_id,date,exception_type\n")?;
    for line in 0..lines {
        let service = line;
        text.push_str(&format!(in alloc; "S{service},20240115,1\n")?)?;
    }
    Ok(text)
}

fn are_of_one_key(first: &IdHash, second: &IdHash) -> bool {
    first.hash_one("A") == second.hash_one("A")
}

// Each folder draws its own key, so a stranger who knows one key knows no other.
#[test]
fn folders_draw_their_keys(rt: HostRuntime) {
    let first = FolderFiles::new(&rt, "no_such_folder");
    let second = FolderFiles::new(&rt, "no_such_folder");
    assert!(rt; are_of_one_key(&first.id_hash(), &first.id_hash()));
    assert!(rt; !are_of_one_key(&first.id_hash(), &second.id_hash()));
}

fn write_folder(rt: &HostRuntime, folder: &str, files: &[(&str, &[u8])]) -> Result<(), Fail> {
    fs::create_dir(rt, folder)?;
    for (name, bytes) in files {
        let path = format!(in rt.alloc(); "{folder}/{name}")?;
        fs::write(rt, path.as_str(), *bytes)?;
    }
    Ok(())
}

// Removes a folder with all eight files.
fn remove_folder(rt: &HostRuntime, folder: &str) -> Result<(), Fail> {
    for table in ORDER {
        let name = table.file_name();
        let path = format!(in rt.alloc(); "{folder}/{name}")?;
        fs::remove_file(rt, path.as_str())?;
    }
    fs::remove_dir(rt, folder)?;
    Ok(())
}

const TRANSFERS: &[u8] = b"from_stop_id,to_stop_id\nA,B\nB,A\n";

const FREQUENCIES: &[u8] = b"trip_id,start_time,end_time,headway_secs\nT1,9:00:00,10:00:00,1200\n";

// Writes all eight files of a feed, one of which has so many rows.
fn write_whole_feed(rt: &HostRuntime, folder: &str, rows: usize) -> Result<(), Fail> {
    let dates = long_file(rt.alloc(), rows)?;
    let files = [
        ("agency.txt", AGENCY),
        ("stops.txt", STOPS),
        ("trips.txt", TRIPS),
        ("stop_times.txt", STOP_TIMES),
        ("calendar.txt", CALENDAR),
        ("calendar_dates.txt", dates.as_bytes()),
        ("transfers.txt", TRANSFERS),
        ("frequencies.txt", FREQUENCIES),
    ];
    write_folder(rt, folder, &files)
}

// Whether the ids of tables, and those of the feed joined from them, are hashed with this key.
fn are_hashed(alloc: Global, tables: Tables, hash: &IdHash) -> Result<bool, TableFault> {
    let trips = are_of_one_key(tables.stop_times.trips.hasher(), hash);
    let stops = are_of_one_key(tables.stop_times.stops.hasher(), hash);
    let feed = join(alloc, tables, false)?;
    Ok(trips && stops && are_of_one_key(&feed.hash, hash))
}

// How many rows the files of a folder have, and whether their ids are hashed with the key that the folder drew.
fn read_with_key(rt: &HostRuntime, folder: &str) -> Result<(RowCounts, bool), Fail> {
    let mut files = FolderFiles::new(rt, folder);
    let tables = read_tables(rt.alloc(), &mut files)?;
    let sizes = sizes_of(&tables);
    Ok((sizes, are_hashed(rt.alloc(), tables, &files.id_hash())?))
}

// All eight files of a feed in a folder are read, one of them longer than a single read.
#[test]
fn a_folder_is_read_whole(rt: HostRuntime) -> Result<(), Fail> {
    write_whole_feed(&rt, "whole_feed", 9000)?;
    let (sizes, is_hashed) = read_with_key(&rt, "whole_feed")?;
    remove_folder(&rt, "whole_feed")?;
    assert!(rt; sizes == [1, 3, 2, 2, 1, 9000, 2, 1] && is_hashed);
    Ok(())
}

// Whichever growth is refused, the fault is that memory ran out. A refused growth ends the test with `AllocError`.
#[test]
fn refused_growth_is_reported(rt: HostRuntime) -> Result<(), AllocError> {
    let reported = read(
        rt.alloc(),
        &[("agency.txt", b"agency_timezone\n".as_slice())],
    );
    if reported == refused(Table::Agency, 0, FaultKind::OutOfMemory) {
        return Err(AllocError);
    }
    assert!(rt; reported == refused(Table::Stops, 0, FaultKind::MissingFile));
    Ok(())
}

#[test]
fn refused_growth_of_a_folders_file(rt: HostRuntime) -> Result<(), AllocError> {
    let reported = length_of(&rt, "/proc/self", "stat");
    if reported == Err(FileFault::OutOfMemory) {
        return Err(AllocError);
    }
    assert!(rt; matches!(reported, Ok(Some(length)) if length > 0));
    Ok(())
}
