//! Reports of progress while an image is made.

ghost use Rattle.std.specs.Prelude.{◌≡◌, ◌≤◌, IfOk, IfErr, OnOk};
ghost use Rattle.image_layout.specs.declared.layout.TheConstants.{LAYOUT};
ghost use Rattle.connections.specs.declared.days.TheConstants.{MAX_DAYS};
ghost use Rattle.feed_files.specs.Files.{words_within};
ghost use Rattle.feed_files.specs.Reading.{Content};
ghost use Rattle.feed_files.specs.Reads.{AllWereRead, Shows, SomeWereRead};
ghost use Rattle.feed_loader.specs.Faults.{failed_by};
ghost use Rattle.feed_loader.specs.Refused.{IsLoadRefusal, IsLoaded, IsWantOfMemory};

use command_endings::{StartInstant, line_ends, put_seconds};
use feed_files::{FeedFiles, FileFault};
use feed_loader::{LoadFault, Plan, Report, load};
use gtfs_tables::IdHash;
use image_verifier::Verified;
use std::alloc::{AllocError, Global};
use std::io::Write;
use std::time::{Clock, Duration};

/// The file of a feed that is read last.
const LAST_FILE: &str = "frequencies.txt";

/// What takes reports while a feed is loaded and its image is written.
pub trait BuildReports {
    /// Reports that a file is read next, and that the one before it was judged.
    fn begin_file(&mut self, name: &str);

    /// Reports that the file was read, or isn't there (`None`). After the last file the image is made.
    fn note_file(&mut self, name: &str, bytes: Option<&[u8]>);

    /// Reports that the image was made, with these counts.
    fn note_made(&mut self, report: &Report);

    /// Reports that the image is written next, to this path.
    fn begin_writing(&mut self, path: &str);

    /// Reports that the image, of so many words, was written to this path.
    fn note_written(&mut self, path: &str, words: usize);

    /// Ends the reports.
    fn close(&mut self);
}

/// Loads a feed as `load` does. Reports each file and then the counts of the image, if there is anything to report to.
pub fn load_reported<F: FeedFiles, R: BuildReports>(
    alloc: Global,
    files: &mut ReportedFiles<F, R>,
    plan: &Plan,
) -> Result<(Verified, Report), LoadFault>
    requires some { 1 ≤ plan.now.days }
    requires few { plan.now.days ≤ MAX_DAYS }
    ensures same { F.words.holds files.new.files ≡ F.words.holds files.old.files }
    ensures failed { F.words.failed files.new.files ≡ failed_by (F.words.failed files.old.files) result }
    ensures layout { IfOk result (λ loaded. loaded.0.layout ≡ LAYOUT) }
    ensures all_read { OnOk result (AllWereRead (F.words.reads files.old.files) (F.words.reads files.new.files)) }
    ensures first_read { SomeWereRead (F.words.reads files.old.files) (F.words.reads files.new.files) }
    ensures ok { (content : Content) → Shows F.words files.old.files files.new.files content
        → IfOk result (λ loaded. IsLoaded content plan.now loaded.0.timetable loaded.0.names loaded.1) }
    ensures err { (content : Content) → Shows F.words files.old.files files.new.files content
        → IfErr result (λ fault. ¬ (IsWantOfMemory fault) → IsLoadRefusal content plan.now fault) }
{
    let loaded = load(alloc, files, plan);
    if let Ok((_, report)) = &loaded {
        files.report_made(report);
    }
    loaded
}

/// Reports progress: on a terminal in one line that is rewritten, elsewhere in a line for each step that begins and one
/// for each that is done. A line that can't be written, or for which there is no memory, is left out.
#[derive(Drop)]
pub struct Progress<'c, C, W> {
    alloc: Global,
    clock: &'c C,
    errors: &'c mut W,
    is_terminal: bool,
    /// When the current step began.
    begun: StartInstant,
    /// The name of the file that was read and is judged now, with how many bytes and lines it has.
    file: Option<(String, u64, u64)>,
}

impl<'c, C: Clock, W: Write> Progress<'c, C, W> {
    /// The progress before anything is done; `None` if there is nothing to report to.
    pub fn new(
        alloc: Global,
        clock: &'c C,
        errors: Option<&'c mut W>,
        is_terminal: bool,
    ) -> Option<Progress<'c, C, W>> {
        match errors {
            Some(errors) => Some(Progress {
                alloc,
                clock,
                errors,
                is_terminal,
                begun: StartInstant::now(clock),
                file: None,
            }),
            None => None,
        }
    }

    fn put(&mut self, text: &str) {
        let _ = self.errors.write_all(text.as_bytes());
    }

    fn say(&mut self, line: Result<String, AllocError>) {
        let Ok(line) = line else {
            return;
        };
        if self.is_terminal {
            self.put("\r\x1b[K");
        }
        self.put("csa: ");
        self.put(line.as_str());
        if !self.is_terminal {
            self.put("\n");
        }
    }

    /// Begins a step, and reports it.
    fn begin(&mut self, doing: &str, what: &str) {
        self.begun = StartInstant::now(self.clock);
        self.say(format!(in self.alloc; "{doing} {what}"));
    }

    /// Reports that the step is done, with its counts and how long it took.
    fn end(&mut self, counts: Result<String, AllocError>) {
        let lasted = self.begun.elapsed(self.clock);
        self.say(with_seconds(counts, lasted));
    }

    /// Keeps the name and the counts of the file that was read and is judged next; on a terminal shows them.
    fn keep_file(&mut self, name: &str, bytes: &[u8]) {
        let (length, lines) = (bytes.len() as u64, lines_of(bytes));
        if self.is_terminal {
            self.say(format!(in self.alloc; "reading {name}: bytes {length} lines {lines}"));
        }
        if let Ok(name) = String::from_str(self.alloc, name) {
            self.file = Some((name, length, lines));
        }
    }

    /// Reports that the current file, if there is one, was judged.
    fn end_file(&mut self) {
        if let Some((name, length, lines)) = self.file.take() {
            self.end(format!(in self.alloc; "read {name}: bytes {length} lines {lines}"));
        }
    }
}

impl<'c, C: Clock, W: Write> BuildReports for Progress<'c, C, W> {
    fn begin_file(&mut self, name: &str) {
        self.end_file();
        self.begin("reading", name);
    }

    fn note_file(&mut self, name: &str, bytes: Option<&[u8]>) {
        match bytes {
            Some(bytes) => self.keep_file(name, bytes),
            None => self.say(format!(in self.alloc; "no file {name}")),
        }
        if name == LAST_FILE {
            self.end_file();
            self.begin("making", "connections and footpaths");
        }
    }

    fn note_made(&mut self, report: &Report) {
        let Report {
            runs,
            connections,
            footpaths,
            ..
        } = *report;
        self.end(format!(in self.alloc;
            "made runs {runs} connections {connections} footpaths {footpaths}"
        ));
    }

    fn begin_writing(&mut self, path: &str) {
        self.begin("writing", path);
    }

    fn note_written(&mut self, path: &str, words: usize) {
        let bytes = (words as u64).saturating_mul(4);
        self.end(format!(in self.alloc; "wrote {path}: bytes {bytes}"));
    }

    /// Clears the line of a terminal.
    fn close(&mut self) {
        if self.is_terminal {
            self.put("\r\x1b[K");
        }
    }
}

/// How many lines the bytes have; the last one need not end with an LF.
fn lines_of(bytes: &[u8]) -> u64 {
    let ended = line_ends(bytes);
    match bytes.last() {
        Some(b'\n') | None => ended,
        Some(_) => ended.saturating_add(1),
    }
}

/// The line with how many seconds something took added.
fn with_seconds(
    line: Result<String, AllocError>,
    lasted: Option<Duration>,
) -> Result<String, AllocError> {
    let mut line = line?;
    put_seconds(&mut line, lasted)?;
    Ok(line)
}

/// The files of a feed, each of which is reported when it is read, if there is anything to report to.
#[derive(Drop)]
pub struct ReportedFiles<F, R> {
    files: F,
    reports: Option<R>,
}

impl<F: FeedFiles, R: BuildReports> ReportedFiles<F, R> {
    /// The files, and what takes the reports.
    pub fn new(files: F, reports: Option<R>) -> ReportedFiles<F, R>
        ensures { result.files ≡ files }
    {
        ReportedFiles { files, reports }
    }

    // Reports that a file is read next.
    fn report_reading(&mut self, name: &str)
        ensures { self.new.files ≡ self.old.files }
    {
        if let Some(reports) = &mut self.reports {
            reports.begin_file(name);
        }
    }

    // Reports that the file was read, or isn't there.
    fn report_read(&mut self, name: &str, bytes: Option<&[u8]>)
        ensures { self.new.files ≡ self.old.files }
    {
        if let Some(reports) = &mut self.reports {
            reports.note_file(name, bytes);
        }
    }

    // Reports what the image has.
    fn report_made(&mut self, report: &Report)
        ensures { self.new.files ≡ self.old.files }
    {
        if let Some(reports) = &mut self.reports {
            reports.note_made(report);
        }
    }

    /// Reports that the image is written next, to a path.
    pub fn report_writing(&mut self, path: &str)
        ensures { self.new.files ≡ self.old.files }
    {
        if let Some(reports) = &mut self.reports {
            reports.begin_writing(path);
        }
    }

    /// Reports that the image, of so many words, was written to a path.
    pub fn report_written(&mut self, path: &str, words: usize)
        ensures { self.new.files ≡ self.old.files }
    {
        if let Some(reports) = &mut self.reports {
            reports.note_written(path, words);
        }
    }

    /// Ends the reports.
    pub fn close(&mut self) {
        if let Some(reports) = &mut self.reports {
            reports.close();
        }
    }
}

impl<F: FeedFiles, R: BuildReports> FeedFiles for ReportedFiles<F, R> {
    ghost words = { words_within (λ reported. reported.files) F.words };

    fn read(&mut self, alloc: Global, name: &str) -> Result<Option<Vec<u8>>, FileFault> {
        self.report_reading(name);
        let read = self.files.read(alloc, name);
        if let Ok(file) = &read {
            self.report_read(name, file.as_deref());
        }
        read
    }

    fn id_hash(&self) -> IdHash {
        self.files.id_hash()
    }
}
