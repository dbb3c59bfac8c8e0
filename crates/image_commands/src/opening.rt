//! Opens an image, as every command over one does first.

ghost use Rattle.std.specs.Prelude.{◌≡◌, ◌≢◌, IfErr, IfOk, OnOk};
ghost use Rattle.command_requests.specs.declared.statuses.TheConstants.{INPUT_OUTPUT};
ghost use Rattle.image_verifier.specs.declared.fault.ImageFault.TheVariants.{OutOfMemory as WasOutOfMemory};
ghost use Rattle.image_files.specs.Held.{HoldsOfBytes, IsLeftAlone, IsUnreadable};
ghost use Rattle.command_endings.specs.Ending.{IsOutcome, PrintsRefusal};
ghost use Rattle.image_commands.specs.Opening.{HaveWordBits, IsRefusedImage, SpellsImage};
ghost use Rattle.image_commands.specs.Refusing.{refusal_line};
ghost use Rattle.image_commands.specs.declared.refusal.CommandRefusal.TheVariants.{Image as OfImage};

use crate::refusal::{CommandRefusal, print_refusal};
use command_endings::status;
use image_files::{ImageDisk, ImageFileFault, Watched, WatchedRead, image_words};
use image_verifier::{ImageFault, Verified, verify};
use std::alloc::Global;
use std::fmt;
use std::io::Write;
use std::rt::Files;

/// Why words are no image, as a message about their file.
#[derive(Clone, Copy, Drop)]
struct Reason(ImageFault);

impl fmt::Display for Reason {
    fn fmt<W: fmt::Write>(&self, f: &mut fmt::Formatter<W>) -> fmt::Result {
        write!(f, "{}", self.0)?;
        if has_header(self.0) {
            f.write_str("; it is damaged, or wasn't made by `csa build`")?;
        }
        Ok(())
    }
}

/// Whether the header is that of an image, so that the fault is behind it.
fn has_header(fault: ImageFault) -> bool {
    !matches!(
        fault,
        ImageFault::BadMagic
            | ImageFault::BadLayout
            | ImageFault::BadLength
            | ImageFault::OutOfMemory
    )
}

/// Reads and verifies the image at the path, or the one on `input` if the path is `-`. An error is the command's
/// status: `REFUSED` with the refusal printed, `INPUT_OUTPUT` if a read or a write fails, or `OUT_OF_MEMORY` with
/// nothing printed.
pub fn open_image<
    H: Files + ImageDisk<Image = H::File> + AllocGlobal,
    I: WatchedRead,
    O: Watched,
    E: Write,
>(rt: &H, path: &str, input: &mut I, output: &mut O, errors: &mut E) -> Result<Verified, u8>
    ensures image { IfOk result (λ image.
        HoldsOfBytes (H.may_hold rt.now) path.now (I.remaining input.old) (SpellsImage image)) }
    ensures silent { OnOk result (O.contents output.new ≡ O.contents output.old) }
    ensures refused { IfErr result (λ status. IsOutcome
        (PrintsRefusal (IsRefusedImage (H.may_hold rt.now) path.now (I.remaining input.old)))
        (IsUnreadable (H.may_fail rt.now) path.now (I.may_fail input.old)) (O.noted output.new) status
        (O.contents output.old) (O.contents output.new)) }
    ensures input { IsLeftAlone path.now input.old input.new }
{
    let words = match image_words(rt, path, input) {
        Ok(words) => words,
        Err(ImageFileFault::OddLength) => {
            let reason =
                "its size isn't a multiple of four bytes: it was cut off, or isn't an image";
            return Err(refuse(
                rt.alloc(),
                path,
                CommandRefusal::OddLength,
                &reason,
                output,
                errors,
            ));
        }
        Err(ImageFileFault::Unreadable) => {
            return Err(report_unread(rt, path, errors));
        }
        Err(ImageFileFault::OutOfMemory) => return Err(status::OUT_OF_MEMORY),
    };
    have_word_bits(&words);
    match verify(rt.alloc(), words) {
        Ok(image) => Ok(image),
        Err((_words, fault)) => Err(refuse_words(rt.alloc(), path, fault, output, errors)),
    }
}

// Words have 32 bits: so bytes spell only one list of them, which has only one first fault.
fn have_word_bits(words: &[u32])
    ensures { HaveWordBits words.now }
{
    let _count = words.len();
}

// Reports that the image at a path can't be read. Returns `INPUT_OUTPUT`.
fn report_unread<H: Files, E: Write>(rt: &H, path: &str, errors: &mut E) -> u8
    ensures { result ≡ INPUT_OUTPUT }
{
    if path == "-" {
        feed_messages::explain(errors, &["csa: standard input can't be read"]);
        return status::INPUT_OUTPUT;
    }
    status::report_unreadable(rt, errors, path)
}

// Prints why the words of the image at a path are refused, unless memory ran out while they were judged.
fn refuse_words<O: Watched, E: Write>(
    alloc: Global,
    path: &str,
    fault: ImageFault,
    output: &mut O,
    errors: &mut E,
) -> u8
    ensures { IsOutcome
        (PrintsRefusal (λ line. (fault ≢ WasOutOfMemory) × (line ≡ refusal_line (OfImage fault)))) ⊥
        (O.noted output.new) result
        (O.contents output.old) (O.contents output.new) }
{
    if fault == ImageFault::OutOfMemory {
        return status::OUT_OF_MEMORY;
    }
    let reason = Reason(fault);
    refuse(
        alloc,
        path,
        CommandRefusal::Image(fault),
        &reason,
        output,
        errors,
    )
}

// Prints why the image at a path is refused, and says what is wrong.
fn refuse<F: fmt::Display, O: Watched, E: Write>(
    alloc: Global,
    path: &str,
    refusal: CommandRefusal,
    reason: &F,
    output: &mut O,
    errors: &mut E,
) -> u8
    ensures { IsOutcome (PrintsRefusal (λ line. line ≡ refusal_line refusal)) ⊥ (O.noted output.new) result
        (O.contents output.old) (O.contents output.new) }
{
    let status = print_refusal(alloc, output, refusal);
    explain(status, path, reason, errors);
    status
}

// Says what is wrong with the image at a path, once its refusal was printed. It takes no memory.
fn explain<F: fmt::Display, E: Write>(status: u8, path: &str, fault: &F, errors: &mut E) {
    let name = if path == "-" { "standard input" } else { path };
    if status == status::REFUSED {
        let _ = write!(errors, "csa: {name}: {fault}\n");
    }
}
