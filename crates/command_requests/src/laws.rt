//! Laws of limits and of statuses. The functions do nothing.

ghost use Rattle.std.specs.Prelude.{◌≡◌};

use crate::plans::{MOST_DAYS, MOST_ROWS, MOST_TABLE_WORKERS, MOST_WORKERS, PLAIN_ROWS};
use crate::statuses::{ACCEPTED, COMMAND_LINE, INPUT_OUTPUT, OUT_OF_MEMORY, REFUSED};

/// The limits of a command line, in numbers. Contracts and code cite the constants, so a slip in one of them would show
/// nowhere else.
pub fn limits()
    ensures counts { (MOST_DAYS ≡ 14) × (MOST_WORKERS ≡ 16) × (MOST_TABLE_WORKERS ≡ 64) }
    ensures rows { (MOST_ROWS ≡ 10000) × (PLAIN_ROWS ≡ 200) }
{}

/// The exit statuses, in numbers.
pub fn exit_statuses()
    ensures done { ACCEPTED ≡ 0 }
    ensures failed { (REFUSED ≡ 2) × (INPUT_OUTPUT ≡ 3) × (OUT_OF_MEMORY ≡ 4) }
    ensures asked { COMMAND_LINE ≡ 64 }
{}
