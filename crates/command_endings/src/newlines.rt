//! Counts the line ends in bytes.

ghost use Rattle.std.specs.Prelude.{◌≡◌};
ghost use Rattle.std.specs.List.{count_by};
ghost use Rattle.command_endings.specs.Newlines.{is_line_end};

/// How many lines end in the bytes, each with a line feed.
pub fn line_ends(bytes: &[u8]) -> u64
    ensures { result ≡ count_by is_line_end bytes.now }
{
    bytes.iter().filter(|byte| is_end(**byte)).count() as u64
}

fn is_end(byte: u8) -> bool
    ensures { result ≡ is_line_end byte }
{
    byte == b'\n'
}
