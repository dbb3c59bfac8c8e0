//! From words to a request, or to a message about them.

ghost use Rattle.std.specs.Prelude.{◌≡◌, ◌⊎◌, IfSome, None, map};
ghost use Rattle.std.specs.String.{string_bytes};
ghost use Rattle.clap.specs.Words.{kind_of};
ghost use Rattle.command_line.specs.Reading.{AsksTopic, IsLineRead, IsRead, IsShown};
ghost use Rattle.command_line.specs.Requests.{IsHelp, IsMistake};

use crate::commands::{is_command, program};
use crate::joining::joined;
use crate::messages::unread_of;
use crate::requests::request_in;
use clap::Error;
use clap::error::ErrorKind;
use command_requests::CommandRequest;
use std::alloc::Global;
use std::convert::AsStr;

/// Why the words ask for no command.
#[derive(Drop)]
pub enum NoCommand {
    /// They ask for help, which is this text.
    Help(String),
    /// They are wrong, as the text says.
    Mistake(String),
    OutOfMemory,
}

/// The command that follows the program's name; empty if the word there is none.
fn command_in(words: &[String]) -> &str {
    let Some(word) = words.get(1) else {
        return "";
    };
    let word = word.as_str();
    if is_command(word) { word } else { "" }
}

/// The request that the words make; the first word is the program's name. It refers to words that are put into `line`.
pub fn read<'a, S: AsStr>(
    alloc: Global,
    words: &[S],
    line: &'a mut Vec<String>,
) -> Result<CommandRequest<'a>, NoCommand>
    ensures { IsRead (map S.text words.now) result }
{
    match joined(alloc, words) {
        Ok(joined) => *line = joined,
        Err(_) => return Err(NoCommand::OutOfMemory),
    }
    read_line(alloc, line)
}

// The request that these words make where `clap` reads them.
fn read_line<'a>(alloc: Global, words: &'a [String]) -> Result<CommandRequest<'a>, NoCommand>
    ensures { IsLineRead (map string_bytes words.entry.now) result }
{
    let Ok(command) = program(alloc) else {
        return Err(NoCommand::OutOfMemory);
    };
    match command.try_get_matches_from(words) {
        Ok(matches) => request_in(alloc, &matches),
        Err(error) => Err(unread(alloc, words, &error)),
    }
}

// The message about words that clap refuses.
fn unread(alloc: Global, words: &[String], error: &Error) -> NoCommand
    ensures memory { kind_of error.now ≡ ErrorKind.OutOfMemory → result ≡ NoCommand.OutOfMemory }
    ensures help { IsHelp result → IsShown (kind_of error.now) ⊎ AsksTopic (map string_bytes words.now) }
    ensures shown { IsShown (kind_of error.now) → ¬ (IsMistake result) }
{
    match unknown_topic(words, error.kind()) {
        Some(topic) => unread_topic(alloc, topic, error),
        None => unread_of(alloc, error, command_in(words), words),
    }
}

/// What `csa help` is asked about, if it is no command; `kind` is that of clap's error.
fn unknown_topic(words: &[String], kind: ErrorKind) -> Option<&str>
    ensures memory { kind ≡ ErrorKind.OutOfMemory → result ≡ None }
    ensures help { IfSome result (λ _. AsksTopic (map string_bytes words.now)) }
    ensures shown { IsShown kind → result ≡ None }
{
    if words.len() != 3 {
        return None;
    }
    match kind {
        ErrorKind::InvalidSubcommand if words[1].as_str() == "help" => Some(words[2].as_str()),
        _ => None,
    }
}

/// The message about a topic of `csa help` that is no command: that of the command itself, which has a suggestion.
fn unread_topic(alloc: Global, topic: &str, error: &Error) -> NoCommand {
    let Ok(command) = program(alloc) else {
        return NoCommand::OutOfMemory;
    };
    match command.try_get_matches_from(&["csa", topic]) {
        Ok(_) => unread_of(alloc, error, "", &[]),
        Err(error) => unread_of(alloc, &error, "", &[]),
    }
}

/// Whether words that ask for a command want its warnings.
pub fn wants_warnings<S: AsStr>(words: &[S]) -> bool {
    !words.iter().any(|word| word.as_str() == "--no-warnings")
}
