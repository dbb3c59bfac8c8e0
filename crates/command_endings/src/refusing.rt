//! The line of a refusal: a number, a name and the positions, each after a space.

ghost use Rattle.std.specs.Prelude.{◌≡◌, IfOk, string_bytes};
ghost use Rattle.command_endings.specs.Refusing.{refusal_head};

use std::alloc::{AllocError, Global};
use text_pieces::{put_number, put_word};

/// Begins the line of a refusal, with its number and its name. The places and a line feed are to follow.
pub fn begin_refusal(alloc: Global, number: u8, name: &str) -> Result<String, AllocError>
    ensures { IfOk result (λ line. string_bytes line ≡ refusal_head number name.now) }
{
    let mut line = String::new(alloc);
    put_number(&mut line, "refused ", u64::from(number))?;
    put_word(&mut line, name)?;
    Ok(line)
}
