//! What is said of words that make no request.

ghost use Rattle.std.specs.Prelude.{◌≡◌};
ghost use Rattle.clap.specs.Words.{kind_of};
ghost use Rattle.command_line.specs.Reading.{IsShown};
ghost use Rattle.command_line.specs.Requests.{IsHelp, IsMistake};

use crate::commands::usage;
use crate::reading::NoCommand;
use crate::tips::tip_for;
use crate::values::{clock, count, month_name, number, port, spelled_date, zone};
use clap::error::ErrorKind;
use clap::parser::ValueSource;
use clap::{ArgMatches, Error};
use command_requests::{FirstDay, PictureRows, Seconds, TableWorkers, Workers, days_of};
use criteria::CriterionName;
use std::alloc::{AllocError, Global};

/// What the value of an option must be.
#[derive(Clone, Copy)]
enum OptionForm {
    Clock,
    Criterion,
    Day,
    Days,
    Zone,
    Port,
    Workers,
    TableWorkers,
    Sessions,
    PictureRows,
    Seconds,
}

/// The options whose values have a form of their own.
const FORMS: [(&str, OptionForm); 13] = [
    ("after", OptionForm::Clock),
    ("until", OptionForm::Clock),
    ("by", OptionForm::Clock),
    ("criterion", OptionForm::Criterion),
    ("first", OptionForm::Day),
    ("days", OptionForm::Days),
    ("zone", OptionForm::Zone),
    ("port", OptionForm::Port),
    ("workers", OptionForm::Workers),
    ("sessions", OptionForm::Sessions),
    ("rows", OptionForm::PictureRows),
    ("idle", OptionForm::Seconds),
    ("longest", OptionForm::Seconds),
];

impl OptionForm {
    /// The form that a command wants in its place.
    fn of_command(self, command: &str) -> OptionForm {
        match self {
            OptionForm::Workers if command == "matrix" => OptionForm::TableWorkers,
            _ => self,
        }
    }

    fn is_kept(self, value: &str) -> bool {
        match self {
            OptionForm::Clock => clock(value).is_some(),
            OptionForm::Criterion => CriterionName::of(value).is_some(),
            OptionForm::Day => FirstDay::of(value).is_some(),
            OptionForm::Days => number(value).is_some_and(|number| days_of(number).is_some()),
            OptionForm::Zone => zone(value).is_some(),
            OptionForm::Port => port(value).is_some(),
            OptionForm::Workers => number(value).is_some_and(|number| Workers::of(
                number,
            ).is_some()),
            OptionForm::TableWorkers => number(value).is_some_and(|number| TableWorkers::of(
                number,
            ).is_some()),
            OptionForm::Sessions => count(value).is_some(),
            OptionForm::PictureRows => number(value).is_some_and(|number| PictureRows::of(
                number,
            ).is_some()),
            OptionForm::Seconds => number(value).is_some_and(|number| Seconds::of(
                number,
            ).is_some()),
        }
    }

    /// The message about a value of another form.
    fn rule(self) -> &'static str {
        match self {
            OptionForm::Clock =>
                "a clock is HH:MM:SS, with one to six digits of hours, and minutes and seconds below 60",
            OptionForm::Criterion => "a criterion is arrival, arrival+trips or arrival+trips+walk",
            OptionForm::Day =>
                "the first day is YYYYMMDD, a date of the years 1 to 9999, or today, or today-1",
            OptionForm::Days => "the number of days must be 1 to 14",
            OptionForm::Zone => {
                "a zone is file:PATH, posix:TEXT, or fixed:SECS, the seconds east of Greenwich, as fixed:3600 or \
fixed:-18000, at most 86399 either way"
            }
            OptionForm::Port => "a port is a number from 0 to 65535",
            OptionForm::Workers => "the number of workers must be 1 to 16",
            OptionForm::TableWorkers => "the number of workers must be 1 to 64",
            OptionForm::Sessions =>
                "the number of sessions must be in decimal digits; 0 is no limit",
            OptionForm::PictureRows => "the number of rows must be 1 to 10000",
            OptionForm::Seconds => "a number of seconds must be 1 to 4294967295",
        }
    }
}

/// Options that may not stand together.
const APART: [(&str, &str); 3] = [
    ("summary", "no-journeys"),
    ("names", "legs"),
    ("json", "names"),
];

/// Options that stand only beside another.
const TOGETHER: [(&str, &str); 2] = [("legs", "json"), ("rows", "picture")];

fn is_used(matches: &ArgMatches<'_>, option: &str) -> bool {
    matches.value_source(option) == Some(ValueSource::CommandLine)
}

/// The end of clap's message about a mistake.
const HINT: &str = "\nFor more information, try '--help'.\n";

/// The beginning of the usage in clap's message about a mistake.
const USAGE: &str = "\nUsage: ";

/// The beginning of a tip in it.
const TIP: &str = "\n  tip: ";

/// Clap's message about words that begin with this command, or with none if its name is empty.
pub(crate) fn unread_of(alloc: Global, error: &Error, command: &str, words: &[String]) -> NoCommand
    ensures memory { kind_of error.now ≡ ErrorKind.OutOfMemory → result ≡ NoCommand.OutOfMemory }
    ensures help { IsHelp result → IsShown (kind_of error.now) }
    ensures shown { IsShown (kind_of error.now) → ¬ (IsMistake result) }
{
    match error.kind() {
        ErrorKind::OutOfMemory => NoCommand::OutOfMemory,
        ErrorKind::DisplayHelp | ErrorKind::DisplayVersion => match error.to_string(alloc) {
            Ok(text) => NoCommand::Help(text),
            Err(_) => NoCommand::OutOfMemory,
        },
        kind => clap_mistake(alloc, error, command, words, kind),
    }
}

// Clap's message about a mistake.
fn clap_mistake(
    alloc: Global,
    error: &Error,
    command: &str,
    words: &[String],
    kind: ErrorKind,
) -> NoCommand
    ensures { ¬ (IsHelp result) }
{
    let Ok(text) = error.to_string(alloc) else {
        return NoCommand::OutOfMemory;
    };
    let whole = match kind {
        ErrorKind::UnknownArgument if command.is_empty() => without_usage(alloc, text.as_str()),
        ErrorKind::UnknownArgument | ErrorKind::MissingRequiredArgument => {
            with_tip(alloc, command, words, text.as_str())
        }
        _ => with_hint(alloc, command, text.as_str()),
    };
    match whole {
        Ok(whole) => NoCommand::Mistake(whole),
        Err(_) => NoCommand::Mistake(text),
    }
}

/// Clap's message about a mistake, with a hint at the command whose help says more.
fn with_hint(alloc: Global, command: &str, text: &str) -> Result<String, AllocError> {
    let Some(said) = text.strip_suffix(HINT) else {
        return format!(in alloc; "{text}");
    };
    let hint = hint(alloc, command)?;
    format!(in alloc; "{said}\n{hint}")
}

/// Clap's message about an option that the program itself lacks: it shows the usage of a similar one, which is replaced
/// by the usage of the program.
fn without_usage(alloc: Global, text: &str) -> Result<String, AllocError> {
    let said = text.strip_suffix(HINT).unwrap_or(text);
    let (said, _) = said.rsplit_once(USAGE).unwrap_or((said, ""));
    with_usage(alloc, "", said)
}

/// Clap's message about words, with a tip of our own in place of clap's, if there is one.
fn with_tip(
    alloc: Global,
    command: &str,
    words: &[String],
    text: &str,
) -> Result<String, AllocError> {
    let Some(tip) = tip_for(alloc, command, words)? else {
        return with_hint(alloc, command, text);
    };
    let said = text.strip_suffix(HINT).unwrap_or(text);
    let (said, _) = said.rsplit_once(USAGE).unwrap_or((said, ""));
    let (said, _) = said.split_once(TIP).unwrap_or((said, ""));
    let tip = tip.as_str();
    let text = format!(in alloc; "{said}{TIP}{tip}\n")?;
    with_usage(alloc, command, text.as_str())
}

/// The line that points to the help of a command, or of the program if the name is empty.
fn hint(alloc: Global, command: &str) -> Result<String, AllocError> {
    let space = if command.is_empty() { "" } else { " " };
    format!(in alloc; "For more information, try 'csa{space}{command} --help'.\n")
}

/// The message about the first option whose value has a wrong form.
pub(crate) fn wrong_value(alloc: Global, command: &str, matches: &ArgMatches<'_>) -> NoCommand
    ensures { ¬ (IsHelp result) }
{
    for (option, form) in &FORMS {
        let form = form.of_command(command);
        if let Some(value) = matches.get_str(option)
            && !form.is_kept(value)
        {
            return mistake(alloc, command, wrong_form(alloc, option, form, value));
        }
    }
    for (option, other) in &APART {
        if is_used(matches, option) && is_used(matches, other) {
            return mistake(
                alloc,
                command,
                format!(in alloc;
                    "error: the argument '--{option}' cannot be used with '--{other}'\n"
                ),
            );
        }
    }
    for (option, other) in &TOGETHER {
        if is_used(matches, option) && !is_used(matches, other) {
            return mistake(
                alloc,
                command,
                format!(in alloc; "error: --{option} is given without --{other}\n"),
            );
        }
    }
    mistake(
        alloc,
        command,
        format!(in alloc; "error: a value has a wrong form\n"),
    )
}

/// The message about an option whose value has a wrong form.
fn wrong_form(
    alloc: Global,
    option: &str,
    form: OptionForm,
    value: &str,
) -> Result<String, AllocError> {
    if let (OptionForm::Day, Some(date)) = (form, spelled_date(value)) {
        let reason = no_date(alloc, date)?;
        return format!(in alloc; "error: --{option} {value:?}: {reason}\n");
    }
    let rule = form.rule();
    format!(in alloc; "error: --{option} {value:?}: {rule}\n")
}

/// The message about a year, a month and a day that are no date.
fn no_date(alloc: Global, date: (u32, u32, u32)) -> Result<String, AllocError> {
    let (year, month, day) = date;
    match month_name(month) {
        Some(name) => format!(in alloc; "there is no such date: {day} {name} {year}"),
        None => format!(in alloc; "there is no such date: month {month} of {year}"),
    }
}

/// The message about a word of `csa serve` that is no feed.
pub(crate) fn wrong_feed(alloc: Global, word: &str) -> NoCommand
    ensures { ¬ (IsHelp result) }
{
    mistake(
        alloc,
        "serve",
        format!(in alloc; "error: {word:?}: a feed is NAME=FOLDER\n"),
    )
}

pub(crate) fn feed_named_twice(alloc: Global, word: &str) -> NoCommand
    ensures { ¬ (IsHelp result) }
{
    mistake(
        alloc,
        "serve",
        format!(in alloc; "error: {word:?}: there is a feed of this name already\n"),
    )
}

pub(crate) fn too_many_stops(alloc: Global, command: &str, option: &str, count: usize) -> NoCommand
    ensures { ¬ (IsHelp result) }
{
    mistake(
        alloc,
        command,
        format!(in alloc;
            "error: --{option} is given {count} times: at most 1000 stops can be asked for\n"
        ),
    )
}

/// The message about a stop_id that is given at two places, counted from 0.
pub(crate) fn stop_given_twice(
    alloc: Global,
    command: &str,
    option: &str,
    stop: &str,
    first: usize,
    index: usize,
) -> NoCommand
    ensures { ¬ (IsHelp result) }
{
    let (first, index) = (first.saturating_add(1), index.saturating_add(1));
    mistake(
        alloc,
        command,
        format!(in alloc;
            "error: --{option} {stop:?}: number {index} is the same stop as number {first}\n"
        ),
    )
}

/// A message about the words of a command, with the command's usage and a hint if there is memory for them.
fn mistake(alloc: Global, command: &str, text: Result<String, AllocError>) -> NoCommand
    ensures { ¬ (IsHelp result) }
{
    let Ok(text) = text else {
        return NoCommand::OutOfMemory;
    };
    match with_usage(alloc, command, text.as_str()) {
        Ok(whole) => NoCommand::Mistake(whole),
        Err(_) => NoCommand::Mistake(text),
    }
}

fn with_usage(alloc: Global, command: &str, text: &str) -> Result<String, AllocError> {
    let usage = usage(alloc, command)?;
    let hint = hint(alloc, command)?;
    format!(in alloc; "{text}\n{usage}\n\n{hint}")
}
