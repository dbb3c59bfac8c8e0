//! `csa verify IMAGE`.

ghost use Rattle.std.specs.Prelude.{◌≡◌, ◌++◌, IfOk, OnOk, string_bytes};
ghost use Rattle.image_commands.specs.Counting.{counts_line, numbers_text};
ghost use Rattle.command_endings.specs.Ending.{IsOutcome, PrintsOnly};

use command_endings::status;
use image_files::Watched;
use image_verifier::Verified;
use std::alloc::{AllocError, Global};
use text_pieces::{put_number, put_text};

/// Prints the counts of an image. The image was verified when it was opened. Never returns `REFUSED`.
pub fn run<O: Watched>(alloc: Global, image: &Verified, output: &mut O) -> u8
    ensures { IsOutcome (PrintsOnly (λ text. text ≡ counts_line image.now)) ⊥ (O.noted output.new) result
        (O.contents output.old) (O.contents output.new) }
{
    match counts(alloc, image) {
        Ok(line) => status::write_text(output, line.as_str(), status::ACCEPTED),
        Err(_) => status::OUT_OF_MEMORY,
    }
}

// The line of an image's counts.
fn counts(alloc: Global, image: &Verified) -> Result<String, AllocError>
    ensures { IfOk result (λ line. string_bytes line ≡ counts_line image.now) }
{
    let mut line = String::new(alloc);
    append_numbers(
        &mut line,
        u64::from(image.stops()),
        u64::from(image.trips()),
        image.len() as u64,
        image.footpath_count() as u64,
    )?;
    put_text(&mut line, "\n")?;
    Ok(line)
}

fn append_numbers(
    line: &mut String,
    stops: u64,
    trips: u64,
    connections: u64,
    footpaths: u64,
) -> Result<(), AllocError>
    ensures { OnOk result (string_bytes line.new
        ≡ string_bytes line.old ++ numbers_text stops trips connections footpaths) }
{
    put_number(line, "ok stops ", stops)?;
    put_number(line, " trips ", trips)?;
    put_number(line, " connections ", connections)?;
    put_number(line, " footpaths ", footpaths)?;
    Ok(())
}
