//! Transcripts: what files have, what a user types, and what the program answers, line after line. The first word of a
//! line says what it is.
//!
//! | line | meaning |
//! |---|---|
//! | `# TEXT`, or an empty line | nothing; the text says what the lines below show |
//! | `image WORD ..` | the input is an image of these words |
//! | `sample` | the input is the sample image; `sample 2`: in the current layout |
//! | `name BYTES` | the input is the image of one stop, whose name has so many bytes, a multiple of four |
//! | `set PLACE WORD` | the input's word at this offset becomes this word |
//! | `word PLACE WORD | TEXT` | `sample`, `set PLACE WORD` and `answers TEXT` |
//! | `cut BYTES` | the input is cut after so many bytes |
//! | `zeros WORDS` | the input is so many words of 0 |
//! | `folder PATH`, `file PATH` | makes a folder, or an empty file |
//! | `link PATH TARGET` | makes a link at a path, to a target |
//! | `has TEXT`, `crlf TEXT`, `cr TEXT` | adds a line to the file that was made last, ended by LF, by CR LF, or by CR |
//! | `counts FROM TO has TEXT` | `has TEXT` for each of these numbers, which stands in place of `%`; or with `tells` |
//! | `rows PATH LINE | LINE ..` | makes a file of these lines |
//! | `wide PATH COUNT` | makes a file with a header of `agency_timezone` and so many further columns, and a record of one |
//! | `remove PATH` | removes a file, or a folder with all that is in it |
//! | `base` | makes the feed of examples/base, in a folder `base_feed` |
//! | `with FILE PLACE RECORD` | writes a file of that feed anew, its record of this number (from 1) replaced |
//! | `run WORD ..` | the words of the next command after the program's name; a word in single quotes may have spaces |
//! | `asks WORD ..` | the same, followed by `--no-warnings` |
//! | `shows WORD ..` | the same as `run`, at a terminal |
//! | `profile FROM TO AFTER UNTIL BY CRITERION` | the next command is `csa profile` over the input, without warnings |
//! | `judge FROM TO AFTER UNTIL BY LEG .. | TEXT` | `csa journey` over the input, and then `answers TEXT` |
//! | `prints TEXT`, `tells TEXT` | one more line that must go to the output, or to the errors with `#` for seconds |
//! | `ends STATUS` | runs it: it must write these lines and no others, and end with this status |
//! | `answers TEXT` | `prints TEXT` and `ends 0`, or `ends 2` if the text begins with `refused` |
//! | `complains STATUS` | runs it: it must print nothing, write some errors, and end with this status |
//! | `helps TEXT | TEXT ..` | runs it: it must print these texts and more, write no errors, and end with status 0 |
//! | `saves PATH` | writes the bytes of the input to a file |
//! | `holds PATH` | the file must have the bytes of the input |
//! | `lacks PATH` | there must be no such file |
//!
//! Each command must be run before the next one and before the end, and each line of `prints` or `tells` must have been
//! compared by then; otherwise the transcript fails.

use crate::tests::base_feed;
use crate::tests::running::{Machine, Outcome, outcome_of};
use image_files::{ImageDisk, NameForm};
use image_layout::{Words, sample_words, second_sample_words};
use std::alloc::{AllocError, Global};
use std::fs;
use std::net::{Net, TcpListener, TcpStream};
use std::os::unix::fs::symlink;
use std::process::Abort;
use std::test::Fail;

/// What the next command finds, and what it must print.
#[derive(Drop)]
struct Stage<'a> {
    /// The words of the image on its input.
    image: Vec<u32>,
    /// How many bytes of them the input has at most.
    bytes: usize,
    /// The path of the file that is being written, and its text so far.
    path: &'a str,
    text: String,
    words: Vec<&'a str>,
    /// How names are written to where the command prints.
    names: NameForm,
    /// Whether the command with these words was run.
    is_tried: bool,
    printed: String,
    reported: String,
}

impl<'a> Stage<'a> {
    fn empty(alloc: Global) -> Stage<'a> {
        Stage {
            image: Vec::new(alloc),
            bytes: usize::MAX,
            path: "",
            text: String::new(alloc),
            words: Vec::new(alloc),
            names: NameForm::Raw,
            is_tried: true,
            printed: String::new(alloc),
            reported: String::new(alloc),
        }
    }

    fn input(&self, alloc: Global) -> Result<Vec<u8>, AllocError> {
        let mut bytes = Words::to_bytes(alloc, &self.image)?;
        bytes.truncate(self.bytes);
        Ok(bytes)
    }

    /// Takes the words of the next command. The command before it must have been run.
    fn take_words(&mut self, words: Vec<&'a str>) -> Result<(), Fail> {
        self.ended()?;
        self.words = words;
        self.is_tried = false;
        Ok(())
    }

    /// Fails if a command wasn't run, or a line wasn't compared.
    fn ended(&self) -> Result<(), Fail> {
        if !self.is_tried {
            return Err(Fail::new("a command that was never tried"));
        }
        self.all_compared()
    }

    /// Fails if a line wasn't compared.
    fn all_compared(&self) -> Result<(), Fail> {
        if self.printed.is_empty() && self.reported.is_empty() {
            Ok(())
        } else {
            Err(Fail::new("lines that were never compared"))
        }
    }

    /// Adds a line that the command must print.
    fn prints(&mut self, line: &str) -> Result<(), Fail> {
        Ok(add_line(&mut self.printed, line, "\n")?)
    }

    /// Adds a line that the command must write to the errors.
    fn tells(&mut self, line: &str) -> Result<(), Fail> {
        Ok(add_line(&mut self.reported, line, "\n")?)
    }

    fn take_image(&mut self, image: Vec<u32>) {
        self.image = image;
        self.bytes = usize::MAX;
    }
}

/// A number of a transcript.
fn number(text: &str) -> Result<u32, Fail> {
    match text.parse() {
        Ok(number) => Ok(number),
        Err(_) => Err(Fail::new("a number of a transcript")),
    }
}

fn add_numbers(words: &mut Vec<u32>, text: &str) -> Result<(), Fail> {
    for word in text.split(' ') {
        words.push(number(word)?)?;
    }
    Ok(())
}

fn numbers(alloc: Global, text: &str) -> Result<Vec<u32>, Fail> {
    let mut words = Vec::new(alloc);
    add_numbers(&mut words, text)?;
    Ok(words)
}

fn zeros(alloc: Global, count: u32) -> Result<Vec<u32>, AllocError> {
    Ok(vec![in alloc; 0u32; count as usize]?)
}

/// The image of one stop, whose name has so many bytes, a multiple of four.
fn named_stop(alloc: Global, bytes: u32) -> Result<Vec<u32>, AllocError> {
    let head = [
        1_346_458_435,
        2,
        1,
        0,
        0,
        1,
        bytes,
        0,
        0,
        0,
        1,
        0,
        0,
        0,
        bytes,
    ];
    let mut image = head.to_vec(alloc)?;
    for _ in 0..bytes / 4 {
        image.push(u32::from_le_bytes(*b"stop"))?;
    }
    Ok(image)
}

/// The sample in a layout.
fn sample_of(alloc: Global, layout: &str) -> Result<Vec<u32>, AllocError> {
    match layout {
        "2" => second_sample_words().to_vec(alloc),
        _ => sample_words().to_vec(alloc),
    }
}

/// The image that a line asks for.
fn image_of(alloc: Global, kind: &str, text: &str) -> Result<Vec<u32>, Fail> {
    match kind {
        "image" => numbers(alloc, text),
        "sample" => Ok(sample_of(alloc, text)?),
        "zeros" => Ok(zeros(alloc, number(text)?)?),
        _ => Ok(named_stop(alloc, number(text)?)?),
    }
}

/// Puts a word at an offset.
fn set(image: &mut [u32], text: &str) -> Result<(), Fail> {
    let Some((index, word)) = text.split_once(' ') else {
        return Err(Fail::new("a place and a word"));
    };
    match image.get_mut(number(index)? as usize) {
        Some(at) => {
            *at = number(word)?;
            Ok(())
        }
        None => Err(Fail::new("a place behind the image")),
    }
}

/// Adds words of a command: those between spaces.
fn add_plain<'a>(words: &mut Vec<&'a str>, text: &'a str) -> Result<(), AllocError> {
    for word in text.split(' ') {
        if !word.is_empty() {
            words.push(word)?;
        }
    }
    Ok(())
}

/// The words of a command: texts between quotes, and others between spaces.
fn words_of<'a>(alloc: Global, text: &'a str) -> Result<Vec<&'a str>, AllocError> {
    let mut words = vec![in alloc; "csa"]?;
    let mut is_quoted = false;
    for piece in text.split('\'') {
        if is_quoted {
            words.push(piece)?;
        } else {
            add_plain(&mut words, piece)?;
        }
        is_quoted = !is_quoted;
    }
    Ok(words)
}

/// The words of a command that writes no warnings.
fn words_without_warnings<'a>(alloc: Global, text: &'a str) -> Result<Vec<&'a str>, AllocError> {
    let mut words = words_of(alloc, text)?;
    words.push("--no-warnings")?;
    Ok(words)
}

/// The words of a command over the input with a query: its ends, its clocks, and then the criterion or the legs.
fn asked<'a>(alloc: Global, command: &'a str, text: &'a str) -> Result<Vec<&'a str>, Fail> {
    let mut words = vec![in alloc; "csa", command, "-"]?;
    add_query(&mut words, text, command == "profile")?;
    Ok(words)
}

const QUERY: [&str; 5] = ["--from", "--to", "--after", "--until", "--by"];

/// Adds the words of a query, and then the criterion or the journey.
fn add_query<'a>(words: &mut Vec<&'a str>, text: &'a str, is_profile: bool) -> Result<(), Fail> {
    let mut rest = text;
    for flag in QUERY.iter() {
        let Some((word, more)) = rest.split_once(' ') else {
            return Err(Fail::new("a query of five words, and what is asked"));
        };
        words.push(*flag)?;
        words.push(word)?;
        rest = more;
    }
    if is_profile {
        words.push("--no-warnings")?;
        words.push("--criterion")?;
    }
    Ok(words.push(rest)?)
}

/// Takes the words of the next command.
fn take_command<'a>(
    alloc: Global,
    stage: &mut Stage<'a>,
    kind: &'a str,
    rest: &'a str,
) -> Result<(), Fail> {
    let words = match kind {
        "run" | "shows" => words_of(alloc, rest)?,
        "asks" => words_without_warnings(alloc, rest)?,
        command => asked(alloc, command, rest)?,
    };
    stage.take_words(words)
}

fn add_line(text: &mut String, line: &str, end: &str) -> Result<(), AllocError> {
    text.push_str(line)?;
    text.push_str(end)
}

/// Removes a file or a folder.
fn remove<R: Machine>(rt: &R, path: &str) -> Result<(), Fail> {
    match fs::remove_file(rt, path) {
        Ok(()) => Ok(()),
        Err(_) => Ok(fs::remove_dir_all(rt, path)?),
    }
}

fn write<R: Machine>(rt: &R, path: &str, bytes: &[u8]) -> Result<(), Fail> {
    Ok(fs::write(rt, path, bytes)?)
}

fn make_folder<R: Machine>(rt: &R, path: &str) -> Result<(), Fail> {
    Ok(fs::create_dir(rt, path)?)
}

/// Makes a link.
fn make_link<R: Machine>(rt: &R, text: &str) -> Result<(), Fail> {
    let Some((path, target)) = text.split_once(' ') else {
        return Err(Fail::new("a link, and where it leads"));
    };
    Ok(symlink(rt, target, path)?)
}

/// Makes an empty file.
fn begin_file<'a, R: Machine>(rt: &R, stage: &mut Stage<'a>, path: &'a str) -> Result<(), Fail> {
    stage.path = path;
    stage.text.clear();
    write(rt, path, b"")
}

/// Adds a line to the file that was made last.
fn write_line<R: Machine>(
    rt: &R,
    stage: &mut Stage<'_>,
    line: &str,
    end: &str,
) -> Result<(), Fail> {
    add_line(&mut stage.text, line, end)?;
    write(rt, stage.path, stage.text.as_bytes())
}

fn add_rows(rows: &mut String, lines: &str) -> Result<(), AllocError> {
    for line in lines.split(" | ") {
        add_line(rows, line, "\n")?;
    }
    Ok(())
}

/// Makes a file of lines.
fn write_rows<R: Machine>(rt: &R, text: &str) -> Result<(), Fail> {
    let Some((path, lines)) = text.split_once(' ') else {
        return Err(Fail::new("a file and its lines"));
    };
    let mut rows = String::new(rt.alloc());
    add_rows(&mut rows, lines)?;
    write(rt, path, rows.as_bytes())
}

/// Adds a line for each number from one to another to the file that was made last, or to the lines that must be
/// reported.
fn count<R: Machine>(rt: &R, stage: &mut Stage<'_>, text: &str) -> Result<(), Fail> {
    let Some((from, rest)) = text.split_once(' ') else {
        return Err(Fail::new("two numbers, a word and a text"));
    };
    let Some((to, line)) = rest.split_once(' ') else {
        return Err(Fail::new("a second number, a word and a text"));
    };
    let (from, to) = (number(from)?, number(to)?);
    for at in from..=to {
        let numbered = numbered(rt.alloc(), line, at)?;
        match numbered.as_str().split_once(' ') {
            Some(("has", row)) => write_line(rt, stage, row, "\n")?,
            Some(("tells", row)) => stage.tells(row)?,
            _ => return Err(Fail::new("a line that is neither read nor written")),
        }
    }
    Ok(())
}

/// A line with a number in place of each `%`.
fn numbered(alloc: Global, line: &str, at: u32) -> Result<String, AllocError> {
    let number = format!(in alloc; "{at}")?;
    let mut text = String::new(alloc);
    let mut is_first = true;
    for piece in line.split('%') {
        if !is_first {
            text.push_str(number.as_str())?;
        }
        text.push_str(piece)?;
        is_first = false;
    }
    Ok(text)
}

/// Makes a file with many columns, and a record that lacks them.
fn write_wide<R: Machine>(rt: &R, text: &str) -> Result<(), Fail> {
    let Some((path, count)) = text.split_once(' ') else {
        return Err(Fail::new("a file and a number of columns"));
    };
    let mut rows = String::from_str(rt.alloc(), "agency_timezone")?;
    for _ in 0..number(count)? {
        rows.push_str(",c")?;
    }
    rows.push_str("\nEtc/UTC\n")?;
    write(rt, path, rows.as_bytes())
}

/// Writes the bytes of the input to a file.
fn save<R: Machine>(rt: &R, stage: &Stage<'_>, path: &str) -> Result<(), Fail> {
    let input = stage.input(rt.alloc())?;
    write(rt, path, &input)
}

/// Runs the command on the input.
fn run_on_stage<
    R: Machine + ImageDisk<Image = R::File> + Net<Listener = TcpListener, Stream = TcpStream>,
>(rt: &R, stage: &mut Stage<'_>) -> Result<Outcome, AllocError> {
    let input = stage.input(rt.alloc())?;
    stage.is_tried = true;
    Ok(outcome_of(rt, &stage.words, &input, stage.names))
}

/// Whether these are the expected errors, apart from seconds. If none are expected, a refused image or journey must be
/// explained in some words.
fn is_reported(alloc: Global, printed: &str, reported: &str, errors: &[u8]) -> Result<bool, Fail> {
    if reported.is_empty() && is_of_image(printed) {
        return Ok(errors.starts_with(b"csa: "));
    }
    let text = masked(alloc, str::from_utf8(errors).unwrap_or("no text"))?;
    Ok(text.as_str() == reported)
}

/// Whether a line is the refusal of an image or a journey.
fn is_of_image(printed: &str) -> bool {
    match printed.strip_prefix("refused ").and_then(first_word) {
        Some(word) => word.len() == 2 && word >= "51",
        None => false,
    }
}

fn first_word(text: &str) -> Option<&str> {
    let (word, _) = text.split_once(' ').unwrap_or((text, ""));
    Some(word)
}

/// Adds what follows the word `seconds`; up to the end of its line it becomes `#`, if it has a point.
fn add_masked(masked: &mut String, piece: &str) -> Result<(), AllocError> {
    masked.push_str(" seconds ")?;
    match piece.split_once('\n') {
        Some((seconds, rest)) if seconds.contains('.') => {
            masked.push_str("#\n")?;
            masked.push_str(rest)
        }
        _ => masked.push_str(piece),
    }
}

fn mask(masked: &mut String, text: &str) -> Result<(), AllocError> {
    let mut is_first = true;
    for piece in text.split(" seconds ") {
        if is_first {
            masked.push_str(piece)?;
        } else {
            add_masked(masked, piece)?;
        }
        is_first = false;
    }
    Ok(())
}

/// A text in which the seconds at the ends of lines became `#`.
fn masked(alloc: Global, text: &str) -> Result<String, AllocError> {
    let mut masked = String::new(alloc);
    mask(&mut masked, text)?;
    Ok(masked)
}

/// Asserts that something about a command is right.
fn demand<R: Abort>(rt: &R, words: &[&str], is_right: bool, what: &str) {
    assert!(rt; is_right, "{what} of {words:?}");
}

/// Asserts that the command wrote the expected lines to the output and the errors, and ended with a status.
fn compare<R: Machine + Abort>(
    rt: &R,
    stage: &Stage<'_>,
    outcome: &Outcome,
    status: &str,
) -> Result<(), Fail> {
    let (printed, reported) = (stage.printed.as_str(), stage.reported.as_str());
    let is_reported = is_reported(rt.alloc(), printed, reported, &outcome.errors)?;
    let is_printed = outcome.output.as_slice() == printed.as_bytes();
    demand(rt, &stage.words, is_printed, "the output");
    demand(rt, &stage.words, is_reported, "the errors");
    let is_ended = u32::from(outcome.status) == number(status)?;
    demand(rt, &stage.words, is_ended, "the status");
    Ok(())
}

/// Whether the command is `csa tables` without an option.
fn is_plain_tables(words: &[&str]) -> bool {
    match words {
        [_, command, _] => *command == "tables",
        _ => false,
    }
}

/// Asserts that with `--all-faults` the command prints the same and ends with the same status, and that what it printed
/// comes first; and that it prints nothing more if it printed nothing.
fn compare_all_faults<
    R: Machine
        + ImageDisk<Image = R::File>
        + Net<Listener = TcpListener, Stream = TcpStream>
        + Abort,
>(rt: &R, stage: &Stage<'_>, outcome: &Outcome) -> Result<(), Fail> {
    let mut words = Vec::new(rt.alloc());
    for word in &stage.words {
        words.push(*word)?;
    }
    words.push("--all-faults")?;
    let all = outcome_of(rt, &words, &[], NameForm::Raw);
    let is_same = all.output.as_slice() == outcome.output.as_slice()
        && all.status == outcome.status;
    demand(rt, &words, is_same, "the output and the status");
    let is_longer = all.errors.starts_with(&outcome.errors)
        && all.errors.is_empty() == outcome.errors.is_empty();
    demand(rt, &words, is_longer, "the errors");
    Ok(())
}

/// Runs the command, which must write the expected lines to the output and the errors, and end with a status.
fn expect_lines<
    R: Machine
        + ImageDisk<Image = R::File>
        + Net<Listener = TcpListener, Stream = TcpStream>
        + Abort,
>(rt: &R, stage: &mut Stage<'_>, status: &str) -> Result<(), Fail> {
    let outcome = run_on_stage(rt, stage)?;
    compare(rt, stage, &outcome, status)?;
    if is_plain_tables(&stage.words) {
        compare_all_faults(rt, stage, &outcome)?;
    }
    stage.printed.clear();
    stage.reported.clear();
    Ok(())
}

/// Runs the command, which must print the expected lines and then this one, and end with 0, or with 2 if this line is a
/// refusal.
fn expect_last<
    R: Machine
        + ImageDisk<Image = R::File>
        + Net<Listener = TcpListener, Stream = TcpStream>
        + Abort,
>(rt: &R, stage: &mut Stage<'_>, line: &str) -> Result<(), Fail> {
    let is_refused = line.starts_with("refused ");
    add_line(&mut stage.printed, line, "\n")?;
    expect_lines(rt, stage, if is_refused { "2" } else { "0" })
}

/// Runs the command on the sample with another word at an offset, and compares its answer.
fn answer_changed<
    R: Machine
        + ImageDisk<Image = R::File>
        + Net<Listener = TcpListener, Stream = TcpStream>
        + Abort,
>(rt: &R, stage: &mut Stage<'_>, text: &str) -> Result<(), Fail> {
    let Some((word, answer)) = text.split_once(" | ") else {
        return Err(Fail::new("a word of the sample and an answer"));
    };
    take_input(rt.alloc(), stage, "sample", "")?;
    take_input(rt.alloc(), stage, "set", word)?;
    expect_last(rt, stage, answer)
}

/// Has a journey judged, and compares the answer: the text has its query, its legs and then the answer.
fn judge<
    'a,
    R: Machine
        + ImageDisk<Image = R::File>
        + Net<Listener = TcpListener, Stream = TcpStream>
        + Abort,
>(rt: &R, stage: &mut Stage<'a>, text: &'a str) -> Result<(), Fail> {
    let Some((journey, answer)) = text.split_once(" | ") else {
        return Err(Fail::new("a journey and its answer"));
    };
    take_command(rt.alloc(), stage, "journey", journey)?;
    expect_last(rt, stage, answer)
}

/// Asserts that the command wrote something to the output if `prints` is set, otherwise to the errors, and nothing to
/// the other; and that it ended with a status.
fn compare_any<R: Abort>(rt: &R, words: &[&str], outcome: &Outcome, prints: bool, status: u32) {
    demand(rt, words, outcome.output.is_empty() != prints, "the output");
    demand(rt, words, outcome.errors.is_empty() == prints, "the errors");
    demand(rt, words, u32::from(outcome.status) == status, "the status");
}

/// Runs the command, which must write something to the output if `prints` is set, otherwise to the errors, and nothing
/// to the other; and end with a status.
fn expect_any<
    R: Machine
        + ImageDisk<Image = R::File>
        + Net<Listener = TcpListener, Stream = TcpStream>
        + Abort,
>(rt: &R, stage: &mut Stage<'_>, prints: bool, status: u32) -> Result<(), Fail> {
    stage.all_compared()?;
    let outcome = run_on_stage(rt, stage)?;
    compare_any(rt, &stage.words, &outcome, prints, status);
    Ok(())
}

/// Runs the command, which must write something with all of these texts to the output, and nothing to the errors.
fn expect_help<
    R: Machine
        + ImageDisk<Image = R::File>
        + Net<Listener = TcpListener, Stream = TcpStream>
        + Abort,
>(rt: &R, stage: &mut Stage<'_>, texts: &str) -> Result<(), Fail> {
    stage.all_compared()?;
    let outcome = run_on_stage(rt, stage)?;
    compare_any(rt, &stage.words, &outcome, true, 0);
    expect_texts(rt, &stage.words, &outcome.output, texts)
}

fn expect_texts<R: Abort>(rt: &R, words: &[&str], output: &[u8], texts: &str) -> Result<(), Fail> {
    let Ok(page) = str::from_utf8(output) else {
        return Err(Fail::new("help that is text"));
    };
    for text in texts.split(" | ") {
        demand(rt, words, page.contains(text), text);
    }
    Ok(())
}

fn expect_held<R: Machine + Abort>(rt: &R, stage: &Stage<'_>, path: &str) -> Result<(), Fail> {
    let held = fs::read(rt, path)?;
    let input = stage.input(rt.alloc())?;
    assert!(rt; held.as_slice() == input.as_slice(), "another file {path}");
    Ok(())
}

fn expect_none<R: Machine + Abort>(rt: &R, path: &str) -> Result<(), Fail> {
    let is_there = fs::read(rt, path).is_ok();
    assert!(rt; !is_there, "there is a file {path}");
    Ok(())
}

/// Makes another input.
fn take_input(alloc: Global, stage: &mut Stage<'_>, kind: &str, rest: &str) -> Result<(), Fail> {
    match kind {
        "set" => set(&mut stage.image, rest),
        "cut" => {
            stage.bytes = number(rest)? as usize;
            Ok(())
        }
        _ => {
            stage.take_image(image_of(alloc, kind, rest)?);
            Ok(())
        }
    }
}

/// Makes or removes files and folders, or looks at one.
fn follow_files<'a, R: Machine + Abort>(
    rt: &R,
    stage: &mut Stage<'a>,
    kind: &str,
    rest: &'a str,
) -> Result<(), Fail> {
    match kind {
        "folder" => make_folder(rt, rest),
        "link" => make_link(rt, rest),
        "file" => begin_file(rt, stage, rest),
        "has" => write_line(rt, stage, rest, "\n"),
        "crlf" => write_line(rt, stage, rest, "\r\n"),
        "cr" => write_line(rt, stage, rest, "\r"),
        "counts" => count(rt, stage, rest),
        "wide" => write_wide(rt, rest),
        "rows" => write_rows(rt, rest),
        "remove" => remove(rt, rest),
        "base" => base_feed::make(rt),
        "with" => base_feed::change(rt, rest),
        "saves" => save(rt, stage, rest),
        "holds" => expect_held(rt, stage, rest),
        "lacks" => expect_none(rt, rest),
        _ => Err(Fail::new("no line of a transcript")),
    }
}

/// Does what a line says.
fn follow<
    'a,
    R: Machine
        + ImageDisk<Image = R::File>
        + Net<Listener = TcpListener, Stream = TcpStream>
        + Abort,
>(rt: &R, stage: &mut Stage<'a>, line: &'a str) -> Result<(), Fail> {
    let (kind, rest) = line.split_once(' ').unwrap_or((line, ""));
    match kind {
        "" | "#" => Ok(()),
        "image" | "sample" | "zeros" | "name" | "set" | "cut" => take_input(
            rt.alloc(),
            stage,
            kind,
            rest,
        ),
        "run" | "asks" | "profile" | "shows" => {
            stage.names = NameForm::at(kind == "shows");
            take_command(rt.alloc(), stage, kind, rest)
        }
        "judge" => judge(rt, stage, rest),
        "prints" => stage.prints(rest),
        "tells" => stage.tells(rest),
        "ends" => expect_lines(rt, stage, rest),
        "answers" => expect_last(rt, stage, rest),
        "word" => answer_changed(rt, stage, rest),
        "complains" => expect_any(rt, stage, false, number(rest)?),
        "helps" => expect_help(rt, stage, rest),
        _ => follow_files(rt, stage, kind, rest),
    }
}

/// Does what each line of a transcript says, in order.
fn follow_all<
    'a,
    R: Machine
        + ImageDisk<Image = R::File>
        + Net<Listener = TcpListener, Stream = TcpStream>
        + Abort,
>(rt: &R, stage: &mut Stage<'a>, transcript: &'a str) -> Result<(), Fail> {
    for line in transcript.split('\n') {
        follow(rt, stage, line)?;
    }
    stage.ended()
}

/// Runs a transcript, with nothing left of those before it.
fn try_one<
    R: Machine
        + ImageDisk<Image = R::File>
        + Net<Listener = TcpListener, Stream = TcpStream>
        + Abort,
>(rt: &R, transcript: &str) -> Result<(), Fail> {
    let mut stage = Stage::empty(rt.alloc());
    follow_all(rt, &mut stage, transcript)
}

/// Runs transcripts one after another. If each had a test of its own, each would cost a proof that the machine has all
/// that the program needs.
pub(crate) fn try_transcripts<
    R: Machine
        + ImageDisk<Image = R::File>
        + Net<Listener = TcpListener, Stream = TcpStream>
        + Abort,
>(rt: &R, transcripts: &[&str]) -> Result<(), Fail> {
    for transcript in transcripts {
        try_one(rt, *transcript)?;
    }
    Ok(())
}
