//! Texts without their case and their accents.

ghost use Rattle.std.specs.Prelude.{◌≡◌, ◌++◌, IfOk, OnOk, string_bytes};
ghost use Rattle.feed_stations.specs.Folding.{folded, unless_mark, without_marks};

use caseless::default_case_fold_str;
use std::alloc::{AllocError, Global};
use unicode_normalization::char::is_combining_mark;
use unicode_normalization::to_nfkd;

/// A text without its case and its accents: its letters are decomposed and folded, and then the combining marks are
/// left out.
pub(crate) fn folded(alloc: Global, text: &str) -> Result<String, AllocError>
    ensures { IfOk result (λ plain. string_bytes plain ≡ folded text.now) }
{
    let apart = to_nfkd(alloc, text)?;
    let lower = default_case_fold_str(alloc, apart.as_str())?;
    let mut plain = String::new(alloc);
    put_plain(&mut plain, lower.as_str())?;
    Ok(plain)
}

// Adds a text without its combining marks.
fn put_plain(out: &mut String, text: &str) -> Result<(), AllocError>
    ensures { OnOk result (string_bytes out.new ≡ string_bytes out.old ++ without_marks text.now) }
{
    for letter in text.chars() {
        put_unless_mark(out, letter)?;
    }
    Ok(())
}

fn put_unless_mark(out: &mut String, letter: char) -> Result<(), AllocError>
    ensures { OnOk result (string_bytes out.new ≡ string_bytes out.old ++ unless_mark letter) }
{
    if is_combining_mark(letter) {
        return Ok(());
    }
    out.push(letter)
}
