//! What reads the words of a command line.

ghost use Rattle.std.specs.Prelude.{ℕ, List, Result, map};
ghost use Rattle.command_line.specs.Reading.{IsRead};
ghost use Rattle.command_line.specs.declared.reading.NoCommand.{NoCommand};
ghost use Rattle.command_requests.specs.declared.requests.CommandRequest.{CommandRequest};

use command_line::{NoCommand, read};
use command_requests::CommandRequest;
use std::convert::AsStr;

/// A machine that reads the words of command lines.
pub trait Asks {
    // Whether these words may ask for this, or for nothing and so for this text.
    ghost may_ask: { Self → List (List ℕ) → Result CommandRequest NoCommand → Type 0 } = { λ _ _ _. Unit {0} };

    /// The request that the words make; the first word is the program's name. It refers to words that are put into
    /// `line`.
    fn asked<'a, S: AsStr>(
        &self,
        words: &[S],
        line: &'a mut Vec<String>,
    ) -> Result<CommandRequest<'a>, NoCommand>
        ensures { may_ask self.now (map S.text words.now) result };
}

impl<H: AllocGlobal> Asks for H {
    // A request is the one that the words name, and words that name one get it.
    ghost may_ask = { λ _ words asked. IsRead words asked };

    fn asked<'a, S: AsStr>(
        &self,
        words: &[S],
        line: &'a mut Vec<String>,
    ) -> Result<CommandRequest<'a>, NoCommand> {
        read(self.alloc(), words, line)
    }
}
