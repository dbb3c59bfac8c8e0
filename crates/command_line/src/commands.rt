//! The commands as `clap` knows them: their words, options and help.

ghost use Rattle.std.specs.Prelude.{◌≡◌, IfOk, false, fold, map};
ghost use Rattle.clap.specs.Words.{app_of, rule_of, shape_of, with_subcommand};
ghost use Rattle.command_line.specs.Grammar.{csa_app, flag, image_shapes, maybe_word, other_shapes, rule_of_argument};
ghost use Rattle.command_line.specs.Grammar.{shape_of_task, stops_shapes, with_rules, words};

use crate::texts;
use clap::{Arg, ArgAction, Command};
use std::alloc::{AllocError, Global};

/// An argument of a command: its id, which is also the name of an option, then the name of its value, and its help.
#[derive(Clone, Copy)]
pub(crate) enum Argument {
    /// A word; words are given in the order of this list.
    Positional(&'static str, &'static str, &'static str),
    /// A word, in the same order, that may be left out.
    MaybeWord(&'static str, &'static str, &'static str),
    /// Any number of words, after all others.
    Words(&'static str, &'static str, &'static str),
    /// An option with a value.
    Option(&'static str, &'static str, &'static str),
    /// The same; the option may be given several times.
    Options(&'static str, &'static str, &'static str),
    /// An option with a value; the option may be left out.
    MaybeOption(&'static str, &'static str, &'static str),
    /// An option without a value.
    Flag(&'static str, &'static str),
}

impl Argument {
    /// Whether it is the option of this name.
    fn is_option(self, name: &str) -> bool {
        match self {
            Argument::Option(id, _, _)
            | Argument::Options(id, _, _)
            | Argument::MaybeOption(id, _, _)
            | Argument::Flag(id, _) => id == name,
            Argument::Positional(_, _, _)
            | Argument::MaybeWord(_, _, _)
            | Argument::Words(_, _, _) => false,
        }
    }
}

/// A command: its word, what it does, what its help prints below the arguments, and the arguments, in groups that
/// commands may share.
#[derive(Clone, Copy)]
pub(crate) struct Task {
    name: &'static str,
    about: &'static str,
    notes: &'static str,
    arguments: &'static [&'static [Argument]],
}

const IMAGE: [Argument; 1] = [Argument::Positional(
    "image",
    "IMAGE",
    "The image's file, or - for standard input",
)];

/// Where a query begins.
const SOURCE: [Argument; 1] = [Argument::Option(
    "from",
    "STOP_ID",
    "The stop_id of the stop where the journey begins",
)];

/// Where a query ends.
const DESTINATION: [Argument; 1] = [Argument::Option(
    "to",
    "STOP_ID",
    "The stop_id of the stop where the journey ends",
)];

/// Where queries from all stops end.
const DESTINATIONS: [Argument; 1] = [Argument::Options(
    "to",
    "STOP_ID",
    "The stop_id of the stop where journeys end; given several times, at any of these stops (at most 1000)",
)];

/// Where queries begin and end.
const STATIONS: [Argument; 2] = [
    Argument::Options(
        "from",
        "STOP_ID",
        "The stop_id of the stop where the journey begins; given several times, of any of these stops (at most 1000)",
    ),
    Argument::Options(
        "to",
        "STOP_ID",
        "The stop_id of the stop where the journey ends; given several times, of any of these stops (at most 1000)",
    ),
];

/// The times of a query.
const TIMES: [Argument; 3] = [
    Argument::Option(
        "after",
        "CLOCK",
        "The earliest departure, HH:MM:SS after the image's base",
    ),
    Argument::Option("until", "CLOCK", "The latest departure"),
    Argument::Option("by", "CLOCK", "The latest arrival"),
];

const CRITERION: [Argument; 1] = [Argument::Option(
    "criterion",
    "NAME",
    "What makes a journey better [possible values: arrival, arrival+trips, arrival+trips+walk]",
)];

const DEPARTURES: [Argument; 4] = [
    Argument::MaybeOption(
        "from",
        "FILE",
        "Print only the departures from the stops of FILE, which has one stop_id on each line (- is a file name here)",
    ),
    Argument::Flag(
        "summary",
        "Print one line for each stop: how many departures, the first, the last, the least seconds, the direct walk",
    ),
    Argument::Flag(
        "json",
        "Print one line of JSON for each stop, and the counts as the last one",
    ),
    Argument::Flag("no-journeys", "Print no journeys"),
];

const MATRIX: [Argument; 5] = [
    Argument::Option(
        "to",
        "FILE",
        "Where journeys end: a file with a stop_id, or several with tabs between, on each line (- is a file name here)",
    ),
    Argument::MaybeOption(
        "from",
        "FILE",
        "The stops where journeys begin, in such a file; without it all stops of the image",
    ),
    Argument::Flag(
        "each",
        "Write a row for each best departure, instead of one for each pair of stops",
    ),
    Argument::MaybeOption(
        "workers",
        "N",
        "How many threads work, 1 to 64 [default: one for each processor]",
    ),
    Argument::Flag(
        "progress",
        "Show progress on standard error (the default on a terminal)",
    ),
];

/// Where a table goes.
const TABLE: [Argument; 1] = [Argument::Positional(
    "out",
    "OUT",
    "The file to which the table is written, by way of OUT.part, or - for standard output",
)];

const JOURNEY: [Argument; 1] = [Argument::Positional(
    "text",
    "TEXT",
    "The journey: `walk FROM TO SECS` and `ride FIRST LAST`, with a space between",
)];

const PROFILE: [Argument; 5] = [
    Argument::MaybeOption(
        "picture",
        "FILE",
        "Write a picture of the answer to FILE, as SVG (- is a file name here)",
    ),
    Argument::MaybeOption(
        "rows",
        "N",
        "With --picture: draw the first N journeys, 1 to 10000, and say how many more there are [default: 200]",
    ),
    Argument::Flag(
        "names",
        "Print ids and clocks in journeys: ride TRIP CLOCK STOP CLOCK STOP, walk STOP STOP SECS",
    ),
    Argument::Flag(
        "json",
        "Print the answer as a server would reply: one line of JSON",
    ),
    Argument::Flag(
        "legs",
        "With --json: print each point's legs too, by trip_id, stop_id and clock",
    ),
];

/// Facts that are printed as JSON instead of lines.
const JSON: [Argument; 1] = [Argument::Flag("json", "Print an object of JSON")];

const STOPS: [Argument; 2] = [
    Argument::MaybeWord(
        "text",
        "TEXT",
        "A part of a stop_id, as it is spelled; without it all stops are listed",
    ),
    Argument::Flag("json", "Print an array of JSON"),
];

const FOLDER: [Argument; 1] = [Argument::Positional(
    "folder",
    "FOLDER",
    "The folder with the feed's unpacked files",
)];

const STATIONS_OF_FEED: [Argument; 2] = [
    Argument::MaybeWord(
        "text",
        "TEXT",
        "A part of an id or a name; case and accents do not matter; without it all stations are listed",
    ),
    Argument::Flag("json", "Print an array of JSON"),
];

const OUT: [Argument; 1] = [Argument::Positional(
    "out",
    "OUT",
    "The file to which the image is written (- is a file name here)",
)];

/// The first service day of a feed that is built.
const FIRST: [Argument; 1] = [Argument::Option(
    "first",
    "DAY",
    "The first service day: YYYYMMDD, or today, by the clock in --zone, or today-1 for the day before",
)];

/// The first service day of feeds that are loaded.
const FIRST_OF_LOADS: [Argument; 1] = [Argument::Option(
    "first",
    "DAY",
    "The first service day: YYYYMMDD, or today, by the clock in --zone at each load, or today-1 for the day before",
)];

/// How many service days there are, and a feed's zone.
const DAYS: [Argument; 2] = [
    Argument::Option("days", "N", "How many service days, 1 to 14"),
    Argument::Option(
        "zone",
        "ZONE",
        "The feed's time zone: file:PATH of a file in /usr/share/zoneinfo, fixed:SECS (east of UTC), or posix:TEXT",
    ),
];

const BUILD: [Argument; 2] = [
    Argument::Flag(
        "strict",
        "Reject a hop that takes no time, instead of making it one second long",
    ),
    Argument::Flag(
        "progress",
        "Show progress on standard error (the default on a terminal)",
    ),
];

const FAULTS: [Argument; 1] = [Argument::Flag(
    "all-faults",
    "Report on standard error all faults of a feed that is refused, up to 100 of each kind in a file",
)];

const WARNINGS: [Argument; 1] = [Argument::Flag(
    "no-warnings",
    "Write no warnings on standard error",
)];

const SERVER: [Argument; 10] = [
    Argument::Option(
        "image",
        "IMAGE",
        "The image to serve first: a file, or - for standard input",
    ),
    Argument::Option(
        "port",
        "P",
        "The port at 127.0.0.1 to listen at; 0 takes a free one, which is printed",
    ),
    Argument::Option(
        "workers",
        "W",
        "How many sessions are served at once, 1 to 16",
    ),
    Argument::Option(
        "sessions",
        "N",
        "How many sessions are served in all; 0 for no limit",
    ),
    Argument::Flag(
        "legs",
        "Give each point of a profile's reply its legs, by trip_id, stop_id and clock",
    ),
    Argument::Flag(
        "log",
        "Log the beginning and the end of each session, and each load, on standard error",
    ),
    Argument::MaybeOption(
        "idle",
        "SECS",
        "End the session of a client that sends nothing, or takes nothing, for SECS seconds, or that speaks HTTP",
    ),
    Argument::MaybeOption(
        "longest",
        "SECS",
        "Refuse a profile with 33 if more than SECS seconds are from its earliest departure to its latest arrival",
    ),
    Argument::Flag(
        "sets",
        "Answer profiles between sets of stops: \"from\" and \"to\" may be arrays of stop_ids",
    ),
    Argument::Words(
        "feeds",
        "NAME=FOLDER",
        "A feed that sessions may load by this name",
    ),
];

const NEW_IMAGE: [Argument; 1] = [Argument::Positional(
    "out",
    "OUT",
    "The file to which the image is written, by way of OUT.part; it may be IMAGE (- is a file name here)",
)];

/// The commands over an image that check it or answer one question, in the order of the help.
const IMAGE_TASKS: [Task; 4] = [
    Task {
        name: "verify",
        about: "Verifies that a file is the image of a legal timetable, and prints its counts",
        notes: texts::VERIFY,
        arguments: &[&IMAGE],
    },
    Task {
        name: "info",
        about: "Prints what an image has: its layout, size and base, its counts, and the trips of each service day",
        notes: texts::INFO,
        arguments: &[&IMAGE, &JSON],
    },
    Task {
        name: "journey",
        about: "Checks that a journey is possible in an image and answers a query, and prints its times",
        notes: texts::JOURNEY,
        arguments: &[&IMAGE, &JOURNEY, &SOURCE, &DESTINATION, &TIMES],
    },
    Task {
        name: "profile",
        about: "Prints every best departure from one stop to another, or between two sets of stops, within a time window",
        notes: texts::PROFILE,
        arguments: &[&IMAGE, &STATIONS, &TIMES, &CRITERION, &PROFILE, &WARNINGS],
    },
];

/// The commands over an image that list many stops, in the order of the help.
const STOPS_TASKS: [Task; 3] = [
    Task {
        name: "departures",
        about: "Prints every best departure from each stop to one stop, or to any of several, within a time window",
        notes: texts::DEPARTURES,
        arguments: &[
            &IMAGE,
            &DESTINATIONS,
            &TIMES,
            &CRITERION,
            &DEPARTURES,
            &WARNINGS,
        ],
    },
    Task {
        name: "matrix",
        about: "Writes a table of travel times, from each of some stops to each of some others, as CSV",
        notes: texts::MATRIX,
        arguments: &[&IMAGE, &TABLE, &TIMES, &CRITERION, &MATRIX, &WARNINGS],
    },
    Task {
        name: "stops",
        about: "Prints the number and the stop_id of each stop whose stop_id contains TEXT",
        notes: texts::STOPS,
        arguments: &[&IMAGE, &STOPS],
    },
];

/// The other commands, in the order of the help. There are three lists, since a single one is too large a term for a
/// proof.
const OTHER_TASKS: [Task; 6] = [
    Task {
        name: "tables",
        about: "Checks the files of a GTFS feed, and prints how many records each has",
        notes: texts::TABLES,
        arguments: &[&FOLDER, &FAULTS, &JSON],
    },
    Task {
        name: "days",
        about: "Prints the first and the last service day of a GTFS feed, and how many trips run on each day",
        notes: texts::DAYS,
        arguments: &[&FOLDER, &JSON],
    },
    Task {
        name: "stations",
        about: "Prints the stations of a GTFS feed whose ids or names contain TEXT, with their stops",
        notes: texts::STATIONS,
        arguments: &[&FOLDER, &STATIONS_OF_FEED],
    },
    Task {
        name: "build",
        about: "Builds the image of a GTFS feed, and prints its counts",
        notes: texts::BUILD,
        arguments: &[
            &FOLDER, &OUT, &FIRST, &DAYS, &BUILD, &FAULTS, &JSON, &WARNINGS,
        ],
    },
    Task {
        name: "upgrade",
        about: "Rewrites an image in the current layout, and prints its counts",
        notes: texts::UPGRADE,
        arguments: &[&IMAGE, &NEW_IMAGE],
    },
    Task {
        name: "serve",
        about: "Serves sessions over TCP at 127.0.0.1, and loads feeds while it does",
        notes: texts::SERVE,
        arguments: &[&SERVER, &FIRST_OF_LOADS, &DAYS],
    },
];

// A slice, since a loop over the list itself puts the whole list into each goal.
fn image_tasks() -> &'static [Task]
    ensures { map shape_of_task result.now ≡ image_shapes }
{
    &IMAGE_TASKS
}

fn stops_tasks() -> &'static [Task]
    ensures { map shape_of_task result.now ≡ stops_shapes }
{
    &STOPS_TASKS
}

fn other_tasks() -> &'static [Task]
    ensures { map shape_of_task result.now ≡ other_shapes }
{
    &OTHER_TASKS
}

fn value<'a>(alloc: Global, id: &'a str, name: &'a str, help: &'a str) -> Arg<'a>
    ensures { (rule_of result ≡ maybe_word id.now) × (result.global ≡ false) }
{
    Arg::new(alloc, id)
        .value_name(name)
        .help(help)
        .action(ArgAction::Set)
}

fn flag<'a>(alloc: Global, id: &'a str, help: &'a str) -> Arg<'a>
    ensures { (rule_of result ≡ flag id.now) × (result.global ≡ false) }
{
    Arg::new(alloc, id)
        .long(id)
        .help(help)
        .action(ArgAction::SetTrue)
}

fn words<'a>(alloc: Global, id: &'a str, name: &'a str, help: &'a str) -> Arg<'a>
    ensures { (rule_of result ≡ words id.now) × (result.global ≡ false) }
{
    Arg::new(alloc, id).value_name(name).help(help).num_args(..)
}

fn arg_of<'a>(alloc: Global, argument: Argument) -> Arg<'a>
    ensures { (rule_of result ≡ rule_of_argument argument) × (result.global ≡ false) }
{
    match argument {
        Argument::Positional(id, name, help) => value(alloc, id, name, help).required(true),
        Argument::MaybeWord(id, name, help) => value(alloc, id, name, help),
        Argument::Words(id, name, help) => words(alloc, id, name, help),
        Argument::Option(id, name, help) => value(alloc, id, name, help).long(id).required(true),
        Argument::Options(id, name, help) => {
            let option = value(alloc, id, name, help).long(id).required(true);
            option.action(ArgAction::Append)
        }
        Argument::MaybeOption(id, name, help) => value(alloc, id, name, help).long(id),
        Argument::Flag(id, help) => flag(alloc, id, help),
    }
}

fn with_arguments<'a>(
    alloc: Global,
    mut command: Command<'a>,
    arguments: &[Argument],
) -> Result<Command<'a>, AllocError>
    ensures { IfOk result (λ c. app_of c
        ≡ with_rules (app_of command.entry) (map rule_of_argument arguments.now)) }
{
    for argument in arguments {
        command = command.arg(arg_of(alloc, *argument))?;
    }
    Ok(command)
}

fn command_of<'a>(alloc: Global, task: Task) -> Result<Command<'a>, AllocError>
    ensures { IfOk result (λ c. shape_of c ≡ shape_of_task task) }
{
    let mut command = Command::new(alloc, task.name)
        .about(task.about)
        .after_help(task.notes);
    for group in task.arguments {
        command = with_arguments(alloc, command, group)?;
    }
    Ok(command)
}

// The command of this name.
fn task_named(name: &str) -> Option<Task> {
    for tasks in [image_tasks(), stops_tasks(), other_tasks()] {
        if let Some(task) = task_among(tasks, name) {
            return Some(task);
        }
    }
    None
}

fn task_among(tasks: &[Task], name: &str) -> Option<Task> {
    for task in tasks {
        if task.name == name {
            return Some(*task);
        }
    }
    None
}

fn usage_of(alloc: Global, task: Task) -> Result<String, AllocError> {
    let name = task.name;
    let whole = format!(in alloc; "csa {name}")?;
    let mut command = command_of(alloc, task)?.bin_name(whole.as_str())?;
    command.render_usage()
}

fn program_usage(alloc: Global) -> Result<String, AllocError> {
    let mut command = program(alloc)?;
    command.render_usage()
}

/// Whether there is a command of this name.
pub(crate) fn is_command(name: &str) -> bool {
    task_named(name).is_some()
}

/// Whether the command has an option of this name, with a value.
pub(crate) fn takes_value(command: &str, name: &str) -> bool {
    match option_named(command, name) {
        Some(Argument::Flag(_, _)) | None => false,
        Some(_) => true,
    }
}

/// Whether the command has an option of this name.
pub(crate) fn has_option(command: &str, name: &str) -> bool {
    option_named(command, name).is_some()
}

fn option_named(command: &str, name: &str) -> Option<Argument> {
    let task = task_named(command)?;
    for group in task.arguments {
        if let Some(option) = option_among(group, name) {
            return Some(option);
        }
    }
    None
}

fn option_among(arguments: &[Argument], name: &str) -> Option<Argument> {
    for argument in arguments {
        if argument.is_option(name) {
            return Some(*argument);
        }
    }
    None
}

/// The line of usage of a command, or that of the program if there is no such command.
pub(crate) fn usage(alloc: Global, name: &str) -> Result<String, AllocError> {
    match task_named(name) {
        Some(task) => usage_of(alloc, task),
        None => program_usage(alloc),
    }
}

fn with_tasks<'a>(
    alloc: Global,
    mut command: Command<'a>,
    tasks: &[Task],
) -> Result<Command<'a>, AllocError>
    ensures { IfOk result (λ c. app_of c
        ≡ fold with_subcommand (app_of command.entry) (map shape_of_task tasks.now)) }
{
    for task in tasks {
        command = command.subcommand(command_of(alloc, *task)?)?;
    }
    Ok(command)
}

/// All commands.
pub(crate) fn program<'a>(alloc: Global) -> Result<Command<'a>, AllocError>
    ensures { IfOk result (λ c. app_of c ≡ csa_app) }
{
    let command = Command::new(alloc, "csa")
        .about("Every best departure over verified public transport timetables")
        .after_help(texts::STATUSES)
        .version(texts::VERSION)
        .subcommand_required(true);
    let command = with_tasks(alloc, command, image_tasks())?;
    let command = with_tasks(alloc, command, stops_tasks())?;
    with_tasks(alloc, command, other_tasks())
}
