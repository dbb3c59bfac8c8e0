//! `csa upgrade IMAGE OUT`.

ghost use Rattle.std.specs.Prelude.{◌≡◌, IfOk};
ghost use Rattle.image_commands.specs.Commands.{IsUpgraded};
ghost use Rattle.command_endings.specs.Ending.{IsOutcome, PrintsOnly};
ghost use Rattle.image_files.specs.Writing.{IsUnwritable};
ghost use Rattle.image_layout.specs.declared.layout.TheConstants.{LAYOUT};
ghost use Rattle.image_layout.specs.Fields.{layout_of};
ghost use Rattle.image_layout.specs.Image.{IsImage};

use crate::verify;
use command_endings::status;
use command_requests::UpgradeRequest;
use image_files::{OutDisk, Watched, put_image};
use image_verifier::Verified;
use image_writer::write;
use std::alloc::{AllocError, Global};
use std::io::Write;

/// Writes the image in the current layout, and prints its counts as `verify` does. Never returns `REFUSED`.
pub fn run<H: OutDisk + AllocGlobal, O: Watched, E: Write>(
    rt: &H,
    image: &Verified,
    request: UpgradeRequest<'_>,
    output: &mut O,
    errors: &mut E,
) -> u8
    ensures { IsOutcome (PrintsOnly (IsUpgraded (H.files rt.now) image.now request.entry.out.now))
        (IsUnwritable (H.files rt.now) request.entry.out.now) (O.noted output.new) result
        (O.contents output.old) (O.contents output.new) }
{
    let Ok(words) = upgraded(rt.alloc(), image) else {
        return status::OUT_OF_MEMORY;
    };
    match put_image(rt, request.out, &words) {
        Ok(()) => verify::run(rt.alloc(), image, output),
        Err(error) => status::report_unwritten(errors, request.out, error.kind()),
    }
}

/// Returns the image of the same timetable and names in the current layout. Running out of memory is the only error.
fn upgraded(alloc: Global, image: &Verified) -> Result<Vec<u32>, AllocError>
    ensures image { IfOk result (λ words. IsImage words.items image.now.timetable image.now.names) }
    ensures layout { IfOk result (λ words. layout_of words.items ≡ LAYOUT) }
{
    let (timetable, names) = image.to_timetable(alloc)?;
    write(alloc, &timetable, &names)
}
