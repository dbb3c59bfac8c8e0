//! `csa info IMAGE [--json]`.

ghost use Rattle.std.specs.Prelude.{IfOk, string_bytes};
ghost use Rattle.command_endings.specs.Ending.{IsOutcome, PrintsOnly};
ghost use Rattle.image_commands.specs.Informing.{IsInfo};

use command_endings::status;
use command_requests::InfoRequest;
use image_facts::{facts_of, json_of};
use image_files::Watched;
use image_verifier::Verified;
use std::alloc::{AllocError, Global};

/// Prints what an image has. The image was verified when it was opened. Never returns `REFUSED`.
pub fn run<O: Watched>(
    alloc: Global,
    image: &Verified,
    request: InfoRequest<'_>,
    output: &mut O,
) -> u8
    ensures { IsOutcome (PrintsOnly (IsInfo request.entry.json image.now)) ⊥ (O.noted output.new) result
        (O.contents output.old) (O.contents output.new) }
{
    match text_of(alloc, image, request.json) {
        Ok(text) => status::write_text(output, text.as_str(), status::ACCEPTED),
        Err(_) => status::OUT_OF_MEMORY,
    }
}

fn text_of(alloc: Global, image: &Verified, json: bool) -> Result<String, AllocError>
    ensures { IfOk result (λ text. IsInfo json image.now (string_bytes text)) }
{
    match json {
        true => json_of(alloc, image),
        false => facts_of(alloc, image),
    }
}
