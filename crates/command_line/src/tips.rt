//! Tips about words that were meant otherwise: a value that was forgotten or begins with a hyphen, an option with one
//! hyphen, a journey without quotes.

use crate::commands::{has_option, takes_value};
use crate::joining::is_hyphenated;
use std::alloc::{AllocError, Global};

/// A tip about the words of a command, if there is one.
pub(crate) fn tip_for(
    alloc: Global,
    command: &str,
    words: &[String],
) -> Result<Option<String>, AllocError> {
    let mut last = "";
    for word in words {
        let word = word.as_str();
        if let Some(tip) = tip_at(alloc, command, last, word)? {
            return Ok(Some(tip));
        }
        last = word;
    }
    Ok(None)
}

// A tip about a word, and the one before it.
fn tip_at(
    alloc: Global,
    command: &str,
    last: &str,
    word: &str,
) -> Result<Option<String>, AllocError> {
    if let Some((option, value)) = option_as_value(command, word) {
        let tip = format!(in alloc;
            "'{value}' was read as the value of '--{option}', which may be missing"
        )?;
        return Ok(Some(tip));
    }
    if has_one_hyphen(command, word) {
        let tip = format!(in alloc; "an option has two hyphens: '-{word}'")?;
        return Ok(Some(tip));
    }
    if is_hyphenated_value(command, last, word) {
        let tip = format!(in alloc;
            "a value that begins with a hyphen follows '=': '{last}={word}'"
        )?;
        return Ok(Some(tip));
    }
    if command == "journey" && (word == "ride" || word == "walk") {
        let tip = format!(in alloc; "a journey is one word, in quotes: 'ride 0 1'")?;
        return Ok(Some(tip));
    }
    Ok(None)
}

// An option to which another one is joined as its value, and that other one.
fn option_as_value<'a>(command: &str, word: &'a str) -> Option<(&'a str, &'a str)> {
    let (option, value) = word.strip_prefix("--")?.split_once('=')?;
    if is_option(command, value) {
        Some((option, value))
    } else {
        None
    }
}

fn is_option(command: &str, word: &str) -> bool {
    match word.strip_prefix("--") {
        Some(name) => has_option(command, name),
        None => false,
    }
}

// Whether a word is an option of the command but for a hyphen.
fn has_one_hyphen(command: &str, word: &str) -> bool {
    match word.strip_prefix('-') {
        Some(name) => has_option(command, name),
        None => false,
    }
}

// Whether a word begins with a hyphen and follows an option that has a value.
fn is_hyphenated_value(command: &str, last: &str, word: &str) -> bool {
    match last.strip_prefix("--") {
        Some(name) => {
            takes_value(command, name) && is_hyphenated(word) && !is_option(command, word)
        }
        None => false,
    }
}
