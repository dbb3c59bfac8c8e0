//! Exit statuses, and the texts and reports that they come with.

ghost use Rattle.std.specs.Prelude.{◌≡◌, ◌≢◌, ◌⊎◌, IfErr, IfOk, string_bytes};
ghost use Rattle.std.specs.declared.io.ErrorKind.TheVariants.{OutOfMemory as WasOutOfMemory};
ghost use Rattle.std.specs.Io.KnownBytes.{Appends};
ghost use Rattle.command_requests.specs.declared.statuses.TheConstants.{INPUT_OUTPUT, OUT_OF_MEMORY};
ghost use Rattle.command_endings.specs.Ending.{IsDone};
ghost use Rattle.image_files.specs.Watching.{HasFault, IsBegun};

pub use command_requests::statuses::{
    ACCEPTED, COMMAND_LINE, INPUT_OUTPUT, OUT_OF_MEMORY, REFUSED,
};
use feed_messages::{explain, reason_of, shown_path, unread_reason};
use image_files::{Watched, write_all};
use std::alloc::AllocError;
use std::io::{ErrorKind, Write};
use std::rt::Files;

/// Writes the text. Returns `status`; or `INPUT_OUTPUT` if a write fails, and then a first part of the text, possibly
/// empty, was written, and the writer has a fault.
pub fn write_text<W: Watched>(writer: &mut W, text: &str, status: u8) -> u8
    ensures status { (result ≡ status) ⊎ (result ≡ INPUT_OUTPUT) }
    ensures written { result ≢ INPUT_OUTPUT → Appends (W.contents writer.old) (W.contents writer.new) text.now }
    ensures begun { IsBegun (W.contents writer.old) (W.contents writer.new) text.now }
    ensures failed { result ≡ INPUT_OUTPUT
        → IsDone status text.now (W.contents writer.old) (W.contents writer.new) ⊎ HasFault (W.noted writer.new) }
{
    match write_all(writer, text.as_bytes()) {
        Ok(()) => status,
        Err(_) => INPUT_OUTPUT,
    }
}

/// Writes a line, if there was memory for it. Returns `status`, or `INPUT_OUTPUT` if a write fails; or `OUT_OF_MEMORY`
/// if there is no line, and then writes nothing.
pub fn write_line<W: Watched>(writer: &mut W, line: Result<String, AllocError>, status: u8) -> u8
    ensures status { (result ≡ status) ⊎ (result ≡ INPUT_OUTPUT) ⊎ (result ≡ OUT_OF_MEMORY) }
    ensures kept { IfOk line (λ _. (result ≡ status) ⊎ (result ≡ INPUT_OUTPUT)) }
    ensures written { IfOk line (λ text. result ≢ INPUT_OUTPUT
        → Appends (W.contents writer.old) (W.contents writer.new) (string_bytes text)) }
    ensures memory { IfErr line (λ _. result ≡ OUT_OF_MEMORY) }
    ensures unwritten { IfErr line (λ _. W.contents writer.new ≡ W.contents writer.old) }
    ensures silent { status ≢ OUT_OF_MEMORY → result ≡ OUT_OF_MEMORY → W.contents writer.new ≡ W.contents writer.old }
    ensures begun { IfOk line (λ text. IsBegun (W.contents writer.old) (W.contents writer.new) (string_bytes text)) }
    ensures failed { status ≢ INPUT_OUTPUT → result ≡ INPUT_OUTPUT → HasFault (W.noted writer.new) }
{
    match line {
        Ok(text) => write_text(writer, text.as_str(), status),
        Err(AllocError) => OUT_OF_MEMORY,
    }
}

/// Reports a file that can't be read, with the system's reason. Returns `INPUT_OUTPUT`.
pub fn report_unreadable<H: Files, E: Write>(rt: &H, errors: &mut E, path: &str) -> u8
    ensures { result ≡ INPUT_OUTPUT }
{
    let reason = unread_reason(rt, path);
    report_failed_file(errors, path, "read", reason)
}

/// Reports a file that can't be written, with the system's reason, and returns `INPUT_OUTPUT`. If the error is that
/// memory ran out, reports nothing, and returns `OUT_OF_MEMORY`.
pub fn report_unwritten<E: Write>(errors: &mut E, path: &str, kind: ErrorKind) -> u8
    ensures memory { kind ≡ WasOutOfMemory → result ≡ OUT_OF_MEMORY }
    ensures unwritten { kind ≢ WasOutOfMemory → result ≡ INPUT_OUTPUT }
    ensures either { (result ≡ INPUT_OUTPUT) ⊎ (result ≡ OUT_OF_MEMORY) }
{
    match kind {
        ErrorKind::OutOfMemory => OUT_OF_MEMORY,
        _ => report_failed_file(errors, path, "written", reason_of(kind)),
    }
}

// Reports that a file can't be read or written (`what`), and why. Takes no memory.
fn report_failed_file<'a, E: Write>(
    errors: &mut E,
    path: &'a str,
    what: &'a str,
    reason: &'a str,
) -> u8
    ensures { result ≡ INPUT_OUTPUT }
{
    let path = shown_path(path);
    explain(errors, &["csa: ", path, " can't be ", what, ": ", reason]);
    INPUT_OUTPUT
}
