//! The program `csa`: it passes its words and streams on to the library.
#![tactic(auto)]

mod source_sum;

use crate::source_sum::SOURCES;
use csa_program::{ShownWriter, explain_no_words, print_sources, run};
use image_files::{NameForm, WatchedWriter};
use std::env;
use std::fs::File;
use std::io::{ErrorKind, IsTerminal};
use std::process::ExitCode;
use std::rt::Env;

// A folder: reading from it and writing to it both fail.
const FOLDER: &str = "/";

fn main(rt: HostRuntime) -> ExitCode {
    // If a standard stream was closed, the next file or client that is opened would take its place. These files take it
    // instead, until the end.
    let _held = [
        File::open(&rt, FOLDER),
        File::open(&rt, FOLDER),
        File::open(&rt, FOLDER),
    ];
    let mut errors = rt.stderr();
    let words = match words_of(&rt) {
        Ok(words) => words,
        Err(status) => {
            explain_no_words(&mut errors, status);
            return ExitCode::from(status);
        }
    };
    let mut input = rt.stdin();
    let stdout = rt.stdout();
    let is_terminal = stdout.is_terminal();
    let shown = ShownWriter::of(stdout, is_terminal);
    let mut output = WatchedWriter::with_names(shown, NameForm::at(is_terminal));
    let status = run(&rt, words.as_slice(), &mut input, &mut output, &mut errors);
    if status == 0 && asks_version(&words) {
        return ExitCode::from(print_sources(SOURCES, &mut output, &mut errors));
    }
    ExitCode::from(status)
}

/// Whether the words ask for the version, by the first one after the program's name; later words aren't read.
fn asks_version(words: &[String]) -> bool {
    match words.get(1) {
        Some(word) => matches!(word.as_str(), "--version" | "-V"),
        None => false,
    }
}

/// The words of the command line. An error is the exit status: 4 if memory runs out, 64 if a word isn't UTF-8.
fn words_of<R: Env + AllocGlobal>(rt: &R) -> Result<Vec<String>, u8> {
    let arguments = match env::args(rt) {
        Ok(arguments) => arguments,
        Err(fault) if fault.kind() == ErrorKind::OutOfMemory => return Err(4),
        Err(_) => return Err(64),
    };
    match arguments.collect(rt.alloc()) {
        Ok(words) => Ok(words),
        Err(_) => Err(4),
    }
}
