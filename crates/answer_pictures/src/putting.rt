//! Numbers, times and words added to an SVG text.

ghost use Rattle.std.specs.Prelude.{◌≡◌, ◌++◌, decimal, OnOk, string_bytes};
ghost use Rattle.answer_pictures.specs.Pictures.{attribute_text};
ghost use Rattle.answer_pictures.specs.Words.{escaped, escaped_cut};

use crate::escaping::{put_cut, put_words};
use std::alloc::AllocError;
use std::fmt::Write as _;

/// Adds a text as it is.
pub(crate) fn put_text(out: &mut String, text: &str) -> Result<(), AllocError>
    ensures { OnOk result (string_bytes out.new ≡ string_bytes out.old ++ text.now) }
{
    out.push_str(text)
}

/// Adds a number in decimal digits.
pub(crate) fn put_number(out: &mut String, number: u64) -> Result<(), AllocError>
    ensures { OnOk result (string_bytes out.new ≡ string_bytes out.old ++ decimal number) }
{
    write!(out, "{number}")
}

/// Adds two numbers, with texts around them and between.
pub(crate) fn put_numbers(
    out: &mut String,
    opening: &str,
    first: u64,
    between: &str,
    second: u64,
    closing: &str,
) -> Result<(), AllocError>
    ensures { OnOk result (string_bytes out.new ≡ string_bytes out.old
        ++ (opening.now ++ decimal first ++ between.now ++ decimal second ++ closing.now)) }
{
    put_text(out, opening)?;
    put_number(out, first)?;
    put_text(out, between)?;
    put_number(out, second)?;
    put_text(out, closing)?;
    Ok(())
}

/// Adds an attribute, whose name has a space before it.
pub(crate) fn put_attribute(out: &mut String, name: &str, number: u64) -> Result<(), AllocError>
    ensures { OnOk result (string_bytes out.new ≡ string_bytes out.old ++ attribute_text name.now number) }
{
    put_text(out, name)?;
    put_text(out, "=\"")?;
    put_number(out, number)?;
    put_text(out, "\"")
}

/// Adds a text, escaped, between an element's beginning and its end.
pub(crate) fn put_element(
    out: &mut String,
    opening: &str,
    words: &str,
    closing: &str,
) -> Result<(), AllocError>
    ensures { OnOk result (string_bytes out.new ≡ string_bytes out.old
        ++ (opening.now ++ escaped words.now ++ closing.now)) }
{
    put_text(out, opening)?;
    put_words(out, words)?;
    put_text(out, closing)
}

/// Adds the first `most` characters of a text, escaped, between an element's beginning and its end.
pub(crate) fn put_short(
    out: &mut String,
    opening: &str,
    words: &str,
    most: usize,
    closing: &str,
) -> Result<(), AllocError>
    ensures { OnOk result (string_bytes out.new ≡ string_bytes out.old
        ++ (opening.now ++ escaped_cut most words.now ++ closing.now)) }
{
    put_text(out, opening)?;
    put_cut(out, words, most)?;
    put_text(out, closing)
}
