//! How the names of an image are written.

ghost use Rattle.std.specs.Prelude.{◌≡◌, ◌++◌, List, ℕ, IfOk, OnOk, map, string_bytes};
ghost use Rattle.image_files.specs.Naming.{code_before, form_at, name_in, parts_of, with_codes};

use std::alloc::{AllocError, Global};

/// How the names of an image are written in lines.
#[derive(Clone, Copy, Drop)]
pub enum NameForm {
    /// As they are.
    Raw,
    /// With each line feed by its code, as a terminal gets them: no part of a name looks like a line of its own.
    Shown,
}

impl NameForm {
    /// How names are written to a terminal, or to something else.
    pub fn at(is_terminal: bool) -> NameForm
        ensures { result ≡ form_at is_terminal }
    {
        if is_terminal {
            NameForm::Shown
        } else {
            NameForm::Raw
        }
    }

    /// A name in this form. The only error is that memory ran out.
    pub fn of(self, alloc: Global, name: String) -> Result<String, AllocError>
        ensures { IfOk result (λ text. string_bytes text ≡ name_in self (string_bytes name)) }
    {
        match self {
            NameForm::Raw => Ok(name),
            NameForm::Shown => shown_name(alloc, name.as_str()),
        }
    }
}

// A name with each line feed by its code.
fn shown_name(alloc: Global, name: &str) -> Result<String, AllocError>
    ensures { IfOk result (λ text. string_bytes text ≡ with_codes (parts_of name.now)) }
{
    let parts = parts_between(alloc, name)?;
    joined(alloc, &parts)
}

// Parts with the code of a line feed between two of them.
fn joined(alloc: Global, parts: &[&str]) -> Result<String, AllocError>
    ensures { IfOk result (λ text. string_bytes text ≡ with_codes (map (λ part. part.now) parts.now)) }
{
    let mut text = String::new(alloc);
    for index in 0..parts.len() {
        put_part(&mut text, index, parts[index])?;
    }
    Ok(text)
}

// What is between the line feeds of a text.
fn parts_between(alloc: Global, text: &str) -> Result<Vec<&str>, AllocError>
    ensures { IfOk result (λ parts. map (λ part. part.now) parts.items ≡ parts_of text.now) }
{
    text.split('\n').collect(alloc)
}

// Adds a part, after the code of a line feed if it isn't the first.
fn put_part(text: &mut String, index: usize, part: &str) -> Result<(), AllocError>
    ensures { OnOk result (string_bytes text.new ≡ string_bytes text.old ++ (code_before index ++ part.now)) }
{
    if index > 0 {
        text.push_str("\\u000a")?;
    }
    text.push_str(part)
}
