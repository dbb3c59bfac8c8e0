//! The body of the program `csa`: words, a reader and two writers in, an exit status out.
#![tactic(auto)]

ghost use Rattle.std.specs.Prelude.{◌≡◌, ◌++◌, ◌⊎◌, None, Result, codes, map};
ghost use Rattle.command_line.specs.declared.reading.NoCommand.{NoCommand};
ghost use Rattle.command_requests.specs.declared.requests.CommandRequest.{CommandRequest};
ghost use Rattle.command_requests.specs.Paths.{path_of};
ghost use Rattle.command_requests.specs.declared.statuses.TheConstants.{ACCEPTED, INPUT_OUTPUT, REFUSED};
ghost use Rattle.image_files.specs.Held.{IsLeftAlone};
ghost use Rattle.image_files.specs.Watching.{HasFault};
ghost use Rattle.csa_program.specs.Running.{IsEnd, IsEndOf, IsEndOver, IsOfInput, IsOfInputOf, IsTableEnd};
ghost use Rattle.csa_program.specs.Running.{IsTextEnd};

mod accepting;
mod asking;
mod bases;
mod client_sessions;
mod draining;
mod explaining;
mod folders;
pub mod laws;
mod line_queue;
mod listening;
mod logging;
mod machine;
mod requests;
mod serve;
mod showing;
mod sockets;

pub use crate::asking::Asks;
pub use crate::explaining::Explains;
pub use crate::machine::Machine;
use crate::serve::Hosts;
pub use crate::showing::ShownWriter;
use command_endings::status;
use command_line::{NoCommand, wants_warnings};
use command_requests::{CommandRequest, ImageRequest, MatrixRequest};
use feed_commands::{build, days, explain_zone, stations, tables};
pub use feed_files::Disk;
use feed_messages::{explain, reason_of};
use image_commands::matrix::TableNotes;
use image_commands::{answer, matrix, open_image};
use image_files::{ImageDisk, OutDisk, Watched, WatchedRead};
use std::convert::AsStr;
use std::io::{ErrorKind, IsTerminal, Write};
use std::net::{Net, TcpListener, TcpStream};
use std::thread::Threads;
use std::time::Clock;

/// Runs the command that the words ask for; the first word is the program's name.
///
/// What a command finds goes to `output`, what is wrong with the command line or with a file to
/// `errors`. The status is 0 for an accepted request, 2 for a refused one and for a server of which
/// a session had too many requests, 3 where a file can't be read or written, a line can't be
/// written, or a socket or a session fails, 4 where memory ran out or a server lacked or lost a
/// thread, and 64 for a command line that asks for nothing, or for a table by a list that names no
/// sets of stops. `errors` also says that memory ran out, or why `output` can't be written, unless
/// it is a pipe that nobody reads any more. Where `errors` is a terminal, progress is shown there.
pub fn run<
    H: Machine + ImageDisk<Image = H::File> + Net<Listener = TcpListener, Stream = TcpStream>,
    S: AsStr,
    I: WatchedRead,
    O: Watched,
    E: Write + IsTerminal + Send,
>(rt: &H, words: &[S], input: &mut I, output: &mut O, errors: &mut E) -> u8
    ensures ended { (asked : Result CommandRequest NoCommand)
        × H.Asks.may_ask rt.now (map S.text words.now) asked
        × IsEndOf (H.ImageDisk.may_hold rt.now) (H.ImageDisk.may_fail rt.now) H.Disk.gives (H.OutDisk.files rt.now)
        (O.form output.old) (H.WallClock.may_show rt.now) (⟦<H as Hosts>⟧.may_host rt.now)
        (I.Read.remaining input.old) (I.may_fail input.old) (O.noted output.new) asked
        result (O.Write.contents output.old) (O.Write.contents output.new)
        × (¬ (IsOfInputOf asked) → input.new ≡ input.old) }
    ensures clean { (result ≡ ACCEPTED) ⊎ (result ≡ REFUSED) → O.noted output.new ≡ None }
{
    let notes = TableNotes {
        is_terminal: errors.is_terminal(),
        warnings: wants_warnings(words),
    };
    let mut line = Vec::new(rt.alloc());
    let asked = rt.asked(words, &mut line);
    let ended = run_read(rt, words, asked, input, output, errors, notes);
    let status = unless_unwritten(ended, output.fault());
    if status == status::OUT_OF_MEMORY {
        explain(errors, &[NO_MEMORY]);
    }
    explain_unwritten(errors, output.fault());
    status
}

/// What is said where memory ran out.
const NO_MEMORY: &str = "csa: out of memory";

/// Prints the checksum of the program's sources, below its version. The status is 0, or 3 if the line can't be written:
/// `errors` says why, as for a command. It takes no memory.
pub fn print_sources<O: Watched, E: Write>(sources: &str, output: &mut O, errors: &mut E) -> u8
    ensures ended { IsTextEnd ((codes "sources " ++ sources.now) ++ codes "\n") (O.noted output.new) result
        (O.Write.contents output.old) (O.Write.contents output.new) }
    ensures clean { result ≡ ACCEPTED → O.noted output.new ≡ None }
{
    let printed = put_sources(sources, output);
    let status = unless_unwritten(printed, output.fault());
    explain_unwritten(errors, output.fault());
    status
}

// Prints the line of the checksum, part by part.
fn put_sources<O: Watched>(sources: &str, output: &mut O) -> u8
    ensures { IsTextEnd ((codes "sources " ++ sources.now) ++ codes "\n") (O.noted output.new) result
        (O.contents output.old) (O.contents output.new) }
{
    if status::write_text(output, "sources ", status::ACCEPTED) != status::ACCEPTED {
        return status::INPUT_OUTPUT;
    }
    if status::write_text(output, sources, status::ACCEPTED) != status::ACCEPTED {
        return status::INPUT_OUTPUT;
    }
    status::write_text(output, "\n", status::ACCEPTED)
}

/// Says why the words of a command line can't be had. The status with which the program ends tells it: memory ran out,
/// or a word isn't UTF-8.
pub fn explain_no_words<E: Write>(errors: &mut E, status: u8) {
    let reason = if status == status::OUT_OF_MEMORY {
        NO_MEMORY
    } else {
        "csa: a word of the command line isn't UTF-8"
    };
    explain(errors, &[reason]);
}

// Says why standard output can't be written, if it can't; not of a pipe that nobody reads any more.
fn explain_unwritten<E: Write>(errors: &mut E, fault: Option<ErrorKind>) {
    match fault {
        None | Some(ErrorKind::BrokenPipe) => {}
        Some(kind) => {
            let parts = ["csa: standard output can't be written: ", reason_of(kind)];
            explain(errors, &parts);
        }
    }
}

// The status of a command that would end so: if its output has a fault, what was done or refused counts as failed.
fn unless_unwritten(status: u8, fault: Option<ErrorKind>) -> u8
    ensures clean { (result ≡ ACCEPTED) ⊎ (result ≡ REFUSED) → fault ≡ None }
    ensures kept { (result ≡ status) ⊎ (((status ≡ ACCEPTED) ⊎ (status ≡ REFUSED)) × (result ≡ INPUT_OUTPUT)
        × HasFault fault) }
{
    if (status == status::ACCEPTED || status == status::REFUSED) && fault.is_some() {
        return status::INPUT_OUTPUT;
    }
    status
}

// Runs the request that was read, or says why there is none. The status says where memory ran out.
fn run_read<
    H: Machine + ImageDisk<Image = H::File> + Net<Listener = TcpListener, Stream = TcpStream>,
    S: AsStr,
    I: WatchedRead,
    O: Watched,
    E: Write + Send,
>(
    rt: &H,
    words: &[S],
    asked: Result<CommandRequest<'_>, NoCommand>,
    input: &mut I,
    output: &mut O,
    errors: &mut E,
    notes: TableNotes,
) -> u8
    ensures ended { IsEndOf (H.ImageDisk.may_hold rt.now) (H.ImageDisk.may_fail rt.now) H.Disk.gives
        (H.OutDisk.files rt.now)
        (O.form output.old) (H.WallClock.may_show rt.now) (⟦<H as Hosts>⟧.may_host rt.now)
        (I.remaining input.old) (I.may_fail input.old) (O.noted output.new) asked.entry
        result (O.contents output.old) (O.contents output.new) }
    ensures input { ¬ (IsOfInputOf asked.entry) → input.new ≡ input.old }
{
    match asked {
        Ok(request) => run_request(rt, request, input, output, errors, notes),
        Err(NoCommand::Help(text)) => status::write_text(output, text.as_str(), status::ACCEPTED),
        Err(NoCommand::Mistake(text)) => {
            let _ = errors.write_all(text.as_bytes());
            explain_zone(rt, words, errors);
            status::COMMAND_LINE
        }
        Err(NoCommand::OutOfMemory) => status::OUT_OF_MEMORY,
    }
}

// Runs a request.
fn run_request<
    H: Machine + ImageDisk<Image = H::File> + Net<Listener = TcpListener, Stream = TcpStream>,
    I: WatchedRead,
    O: Watched,
    E: Write + Send,
>(
    rt: &H,
    request: CommandRequest<'_>,
    input: &mut I,
    output: &mut O,
    errors: &mut E,
    notes: TableNotes,
) -> u8
    ensures ended { IsEnd (H.ImageDisk.may_hold rt.now) (H.ImageDisk.may_fail rt.now) H.Disk.gives
        (H.OutDisk.files rt.now)
        (O.form output.old) (H.WallClock.may_show rt.now) (⟦<H as Hosts>⟧.may_host rt.now)
        (I.remaining input.old) (I.may_fail input.old) (O.noted output.new)
        request.entry result (O.contents output.old) (O.contents output.new) }
    ensures input { ¬ (IsOfInput request.entry) → input.new ≡ input.old }
{
    match request {
        CommandRequest::OverImage(asked) => {
            answer_over(rt, &asked, input, output, errors, notes.warnings)
        }
        CommandRequest::Matrix(request) => matrix_over(rt, request, input, output, errors, notes),
        CommandRequest::Tables(request) => tables::run(rt, request, output, errors),
        CommandRequest::Days(request) => days::run(rt, request, output, errors),
        CommandRequest::Stations(request) => stations::run(rt, request, output, errors),
        CommandRequest::Build(request) => {
            build::run(
                rt,
                request,
                output,
                errors,
                notes.is_terminal,
                notes.warnings,
            )
        }
        CommandRequest::Serve(request) => serve::run(rt, request, input, output, errors),
    }
}

// Opens the image and writes the table of travel times that is asked for. If the image can't be opened, returns the
// status that says why.
fn matrix_over<
    H: OutDisk + ImageDisk<Image = H::File> + AllocGlobal + Clock + Threads + Sync,
    I: WatchedRead,
    O: Watched,
    E: Write,
>(
    rt: &H,
    request: MatrixRequest<'_>,
    input: &mut I,
    output: &mut O,
    errors: &mut E,
    notes: TableNotes,
) -> u8
    ensures ended { IsTableEnd (H.ImageDisk.may_hold rt.now) (H.ImageDisk.may_fail rt.now) (H.OutDisk.files rt.now)
        (O.form output.old) (I.remaining input.old) (I.may_fail input.old) request.entry (O.noted output.new)
        result (O.contents output.old) (O.contents output.new) }
    ensures input { IsLeftAlone request.entry.image.now input.old input.new }
{
    let names = output.name_form();
    match open_image(rt, request.image, input, output, errors) {
        Ok(image) => matrix::run(rt, &image, request, names, output, errors, notes),
        Err(status) => status,
    }
}

// Opens the image and answers what is asked of it. If it can't be opened, returns the status that says why.
fn answer_over<
    H: OutDisk + ImageDisk<Image = H::File> + AllocGlobal,
    I: WatchedRead,
    O: Watched,
    E: Write,
>(
    rt: &H,
    asked: &ImageRequest<'_>,
    input: &mut I,
    output: &mut O,
    errors: &mut E,
    warnings: bool,
) -> u8
    ensures ended { IsEndOver (H.ImageDisk.may_hold rt.now) (H.ImageDisk.may_fail rt.now) (H.OutDisk.files rt.now)
        (O.form output.old) (I.remaining input.old) (I.may_fail input.old) (O.noted output.new) asked.now result
        (O.contents output.old) (O.contents output.new) }
    ensures input { IsLeftAlone (path_of asked.now) input.old input.new }
{
    let names = output.name_form();
    match open_image(rt, asked.path(), input, output, errors) {
        Ok(image) => answer(rt, &image, asked, names, output, errors, warnings),
        Err(status) => status,
    }
}
