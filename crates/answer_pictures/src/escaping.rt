//! Escapes texts for XML.

ghost use Rattle.std.specs.Prelude.{◌≡◌, ◌++◌, codes, OnOk, string_bytes};
ghost use Rattle.answer_pictures.specs.Words.{escaped, escaped_cut, escaped_letter, is_xml};

use std::alloc::AllocError;

/// Whether a character is written as it is, unless it is markup. XML allows all of these, and besides them
/// only tabs and the ends of lines.
fn is_xml(letter: char) -> bool
    ensures { result ≡ is_xml letter }
{
    letter >= ' ' && letter != '\u{FFFE}' && letter != '\u{FFFF}'
}

/// Adds a character, escaped: markup as an entity, and a character that isn't `is_xml` as the replacement
/// character.
fn put_letter(out: &mut String, letter: char) -> Result<(), AllocError>
    ensures { OnOk result (string_bytes out.new ≡ string_bytes out.old ++ escaped_letter letter) }
{
    if letter == '&' {
        out.push_str("&amp;")
    } else if letter == '<' {
        out.push_str("&lt;")
    } else if letter == '>' {
        out.push_str("&gt;")
    } else if is_xml(letter) {
        out.push(letter)
    } else {
        out.push('\u{FFFD}')
    }
}

/// Adds a text, escaped.
pub(crate) fn put_words(out: &mut String, words: &str) -> Result<(), AllocError>
    ensures { OnOk result (string_bytes out.new ≡ string_bytes out.old ++ escaped words.now) }
{
    for letter in words.chars() {
        put_letter(out, letter)?;
    }
    Ok(())
}

fn put_dots(out: &mut String) -> Result<(), AllocError>
    ensures { OnOk result (string_bytes out.new ≡ string_bytes out.old ++ codes "...") }
{
    out.push_str("...")
}

/// Adds the first `most` characters of a text, escaped, and three dots if there are more.
pub(crate) fn put_cut(out: &mut String, words: &str, most: usize) -> Result<(), AllocError>
    ensures { OnOk result (string_bytes out.new ≡ string_bytes out.old ++ escaped_cut most words.now) }
{
    let mut room = most;
    for letter in words.chars() {
        if room == 0 {
            return put_dots(out);
        }
        put_letter(out, letter)?;
        room -= 1;
    }
    Ok(())
}
