//! The refusal of a feed as it is printed: a number, a name and the positions, each after a space.

ghost use Rattle.std.specs.Prelude.{◌≡◌, ◌⊎◌, ◌++◌, IfOk, OnOk, string_bytes};
ghost use Rattle.std.specs.Io.KnownBytes.{Appends};
ghost use Rattle.command_requests.specs.declared.statuses.TheConstants.{INPUT_OUTPUT, OUT_OF_MEMORY, REFUSED};
ghost use Rattle.feed_loader.specs.Refused.{IsWantOfMemory};
ghost use Rattle.command_endings.specs.Ending.{EndsUndone, IsDone};
ghost use Rattle.image_files.specs.Watching.{HasFault, IsBegun};
ghost use Rattle.command_endings.specs.Refusing.{place_text, word_text};
ghost use Rattle.feed_commands.specs.Refusing.{RefusesFeed, feed_line, feed_positions, refusal_status};

use command_endings::{begin_refusal, status};
use feed_loader::LoadFault;
use image_files::Watched;
use std::alloc::{AllocError, Global};
use text_pieces::{put_number, put_text, put_word};

/// Prints why a feed isn't loaded. Returns `REFUSED`; `INPUT_OUTPUT` if the reason is a file that can't be read, or if
/// a write fails; or `OUT_OF_MEMORY`, with nothing printed, if memory ran out before or runs out now.
pub fn refuse_feed<O: Watched>(alloc: Global, output: &mut O, fault: LoadFault) -> u8
    ensures status { EndsUndone result }
    ensures memory { IsWantOfMemory fault → result ≡ OUT_OF_MEMORY }
    ensures refused { result ≡ REFUSED → RefusesFeed fault }
    ensures printed { result ≡ REFUSED
        → Appends (O.contents output.old) (O.contents output.new) (feed_line fault) }
    ensures silent { result ≡ OUT_OF_MEMORY → O.contents output.new ≡ O.contents output.old }
    ensures begun { result ≡ INPUT_OUTPUT
        → IsBegun (O.contents output.old) (O.contents output.new) (feed_line fault) }
    ensures failed { result ≡ INPUT_OUTPUT
        → IsDone (refusal_status fault) (feed_line fault) (O.contents output.old) (O.contents output.new)
        ⊎ HasFault (O.noted output.new) }
{
    if fault.is_want_of_memory() {
        return status::OUT_OF_MEMORY;
    }
    match feed_line(alloc, fault) {
        Ok(line) => status::write_text(output, line.as_str(), status_of(fault)),
        Err(_) => status::OUT_OF_MEMORY,
    }
}

// The status of a feed that isn't loaded, if its refusal is printed.
fn status_of(fault: LoadFault) -> u8
    ensures kind { result ≡ refusal_status fault }
    ensures either { (result ≡ REFUSED) ⊎ (result ≡ INPUT_OUTPUT) }
{
    match fault {
        LoadFault::FileFailed(_) => status::INPUT_OUTPUT,
        LoadFault::Table(_)
        | LoadFault::Day(_)
        | LoadFault::Range(_)
        | LoadFault::Footpaths(_)
        | LoadFault::Image(_) => status::REFUSED,
    }
}

// The line of a feed that has a fault.
fn feed_line(alloc: Global, fault: LoadFault) -> Result<String, AllocError>
    ensures { IfOk result (λ line. string_bytes line ≡ feed_line fault) }
{
    let mut line = begin_refusal(alloc, fault.number(), fault.name())?;
    put_feed_positions(&mut line, fault)?;
    put_text(&mut line, "\n")?;
    Ok(line)
}

// Adds which file of a feed is wrong, and for a fault of a table the number of the record.
fn put_feed_positions(line: &mut String, fault: LoadFault) -> Result<(), AllocError>
    ensures { OnOk result (string_bytes line.new ≡ string_bytes line.old ++ feed_positions fault) }
{
    match fault {
        LoadFault::Table(fault) => put_record(line, fault.file.file_name(), fault.row),
        LoadFault::FileFailed(table) => put_word(line, table.file_name()),
        LoadFault::Day(_) | LoadFault::Range(_) | LoadFault::Footpaths(_) | LoadFault::Image(_) =>
            Ok(()),
    }
}

fn put_record(line: &mut String, file: &str, row: u64) -> Result<(), AllocError>
    ensures { OnOk result (string_bytes line.new
        ≡ string_bytes line.old ++ (word_text file.now ++ place_text row)) }
{
    put_word(line, file)?;
    put_number(line, " ", row)?;
    Ok(())
}
