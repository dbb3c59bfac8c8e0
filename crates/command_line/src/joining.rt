//! Stop_ids that begin with a hyphen, which `clap` takes only behind `=`.

ghost use Rattle.std.specs.Prelude.{◌≡◌, ◌∷◌, List, [], IfOk, OnOk, map, slice_get, unwrap_or};
ghost use Rattle.std.specs.String.{string_bytes};
ghost use Rattle.clap.specs.Words.{Text};
ghost use Rattle.command_line.specs.Joining.{is_hyphenated, is_stop_id, is_stop_option, joined, line_of};

use std::alloc::{AllocError, Global};
use std::convert::AsStr;
use std::mem;

/// The words of a command line that were read.
#[derive(Drop)]
struct Line<'a> {
    // The command, or nothing behind the word `--`.
    command: &'a str,
    done: Vec<String>,
    // The last word, which may be an option for a stop_id.
    last: String,
}

impl Line<'_> {
    /// Adds a word: as the stop_id of the option before it, if it begins with a hyphen.
    fn add(&mut self, alloc: Global, word: &str) -> Result<(), AllocError>
        ensures { OnOk result ((rest : List Text) → line_of (map string_bytes self.new.done.items) self.new.command.now
            (string_bytes self.new.last) rest ≡ line_of (map string_bytes self.old.done.items) self.old.command.now
            (string_bytes self.old.last) (word.now ∷ rest)) }
    {
        if is_stop_id(self.command, self.last.as_str(), word) {
            self.last.push_str("=")?;
            self.last.push_str(word)?;
            return Ok(());
        }
        let word_read = String::from_str(alloc, word)?;
        self.done.push(mem::replace(&mut self.last, word_read))?;
        if word == "--" {
            self.command = "";
        }
        Ok(())
    }
}

/// The words as `clap` reads them: `--from -1` becomes `--from=-1`, in commands where the option is for a stop_id.
pub(crate) fn joined<S: AsStr>(alloc: Global, words: &[S]) -> Result<Vec<String>, AllocError>
    ensures { IfOk result (λ line. map string_bytes line.items ≡ joined (map S.text words.now)) }
{
    let Some((program, rest)) = words.split_first() else {
        return Ok(Vec::new(alloc));
    };
    let mut line = Line {
        command: first_of(rest),
        done: Vec::new(alloc),
        last: String::from_str(alloc, program.as_str())?,
    };
    for word in rest {
        line.add(alloc, word.as_str())?;
    }
    let Line { mut done, last, .. } = line;
    done.push(last)?;
    Ok(done)
}

/// The first word, if there is one.
fn first_of<'a, S: AsStr>(words: &'a [S]) -> &'a str
    ensures { result.now ≡ unwrap_or (slice_get (map S.text words.entry.now) 0) [] }
{
    match words.first() {
        Some(word) => word.as_str(),
        None => "",
    }
}

/// Whether a word is the stop_id of the option before it, and begins with a hyphen.
fn is_stop_id(command: &str, last: &str, word: &str) -> bool
    ensures { result ≡ is_stop_id command.now last.now word.now }
{
    is_stop_option(command, last) && is_hyphenated(word)
}

/// Whether the value of this option of the command is a stop_id.
fn is_stop_option(command: &str, word: &str) -> bool
    ensures { result ≡ is_stop_option command.now word.now }
{
    let is_question = command == "journey" || command == "profile";
    (is_question && word == "--from")
        || ((is_question || command == "departures") && word == "--to")
}

/// Whether a word begins with a hyphen.
pub(crate) fn is_hyphenated(word: &str) -> bool
    ensures { result ≡ is_hyphenated word.now }
{
    match word.as_bytes() {
        [b'-', ..] => true,
        _ => false,
    }
}
