//! Parts of arrays and objects of JSON, added to a text.

ghost use Rattle.std.specs.Prelude.{◌≡◌, ◌++◌, IfOk, OnOk, string_bytes};
ghost use Rattle.serde_json.specs.Data.{string};
ghost use Rattle.serde_json.specs.Written.{compact_text};
ghost use Rattle.text_pieces.specs.Json.{comma_before, quoted_text};

use crate::putting::put_text;
use serde_json::Value;
use std::alloc::{AllocError, Global};

/// Adds a comma, unless this is the first index.
pub fn put_comma(out: &mut String, index: usize) -> Result<(), AllocError>
    ensures { OnOk result (string_bytes out.new ≡ string_bytes out.old ++ comma_before index) }
{
    if index == 0 {
        return Ok(());
    }
    put_text(out, ",")
}

/// Adds a word, such as the beginning of a member, and a text as a string of JSON.
pub fn put_quoted(out: &mut String, alloc: Global, word: &str, text: &str) -> Result<(), AllocError>
    ensures { OnOk result (string_bytes out.new ≡ string_bytes out.old ++ quoted_text word.now text.now) }
{
    let quoted = quoted(alloc, text)?;
    put_text(out, word)?;
    put_text(out, quoted.as_str())?;
    Ok(())
}

// A text as a string of JSON.
fn quoted(alloc: Global, text: &str) -> Result<String, AllocError>
    ensures { IfOk result (λ quoted. string_bytes quoted ≡ compact_text (string text.now)) }
{
    let value = Value::String(String::from_str(alloc, text)?);
    value.to_string(alloc)
}
